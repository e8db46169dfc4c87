//! Fixed programs of three functions: the first and the third are transactions, and the second is
//! called.

use crate::lines::{Line, ROOT, function, root_at, shapes, word_of};
use ir::{Ir, IrFunctions};
use std::alloc::{AllocError, Global};

/// What a program shows.
#[derive(Clone, Copy, Debug, PartialEq, Eq)]
pub enum Case {
    /// A field that is written before it is read.
    WrittenFirst,
    /// A field that is read, and then written twice.
    ReadFirst,
    /// Two new objects with a free between them.
    Fill,
    /// A register that is passed twice; the function writes through its first parameter.
    FirstOfTwo,
    /// The same, and the function writes through its last parameter.
    LastOfTwo,
    /// A function that is called in two places, after a load in one of them alone.
    OtherCall,
    /// A store after a load of the call that made this one.
    Recursion,
    /// A load after a call of the same function, and a store after all of these.
    AfterRecursion,
    /// A load on the far side of a branch.
    Else,
    /// A store after a load of the round before.
    BackEdge,
    /// A store after a load from which two back edges lead to it.
    TwoBackEdges,
    /// A load and stores through a pointer and its copy.
    Alias,
    /// A copy of a pointer through which its field is surely written.
    WrittenAlias,
    /// A store to an element after one to the same array.
    RootArray,
    ManyStores,
}

const RETURN: Line = Line::Return { from: 0 };

/// A program of three functions, of which the second has `parameters` parameters.
fn three(
    alloc: Global,
    parameters: u32,
    first: &[Line],
    second: &[Line],
    third: &[Line],
) -> Result<Ir, AllocError> {
    let all = [0, parameters, 0];
    let mut functions = IrFunctions::new(alloc);
    functions.push(function(alloc, true, 0, first, &all)?)?;
    functions.push(function(alloc, false, 1, second, &all)?)?;
    functions.push(function(alloc, true, 2, third, &all)?)?;
    Ok(Ir {
        functions,
        shapes: shapes(alloc)?,
    })
}

/// A program of one function that matters.
fn one(alloc: Global, first: &[Line]) -> Result<Ir, AllocError> {
    three(alloc, 0, first, &[RETURN], &[RETURN])
}

fn load(to: u32) -> Line {
    Line::Load { to, target: ROOT }
}

fn store() -> Line {
    Line::Store {
        target: ROOT,
        from: 3,
    }
}

fn load_word(to: u32, base: u32) -> Line {
    Line::Load {
        to,
        target: word_of(base),
    }
}

fn store_word(base: u32) -> Line {
    Line::Store {
        target: word_of(base),
        from: 3,
    }
}

fn load_element(to: u32) -> Line {
    Line::Load {
        to,
        target: root_at(0),
    }
}

fn store_element() -> Line {
    Line::Store {
        target: root_at(0),
        from: 3,
    }
}

fn call(args: [u32; 2]) -> Line {
    Line::Call {
        to: 2,
        function: 1,
        args,
    }
}

fn fill(alloc: Global) -> Result<Ir, AllocError> {
    let new = Line::New { to: 1, kind: 1 };
    let free = Line::Free { from: 1, kind: 1 };
    one(alloc, &[new, free, new, RETURN])
}

/// A pointer is passed twice, and its field is read and written after the call.
fn twice(alloc: Global, base: u32) -> Result<Ir, AllocError> {
    let first = [
        load(0),
        call([0, 0]),
        load_word(1, 0),
        store_word(0),
        RETURN,
    ];
    three(alloc, 2, &first, &[store_word(base), RETURN], &[RETURN])
}

fn other_call(alloc: Global) -> Result<Ir, AllocError> {
    let first = [call([0, 0]), store(), RETURN];
    let third = [load(1), call([0, 0]), RETURN];
    three(alloc, 0, &first, &[RETURN], &third)
}

fn recursion(alloc: Global) -> Result<Ir, AllocError> {
    let branch = Line::Branch { on: 1, place: 4 };
    let second = [
        store_element(),
        load_element(1),
        branch,
        call([0, 0]),
        RETURN,
    ];
    three(alloc, 0, &[call([0, 0]), RETURN], &second, &[RETURN])
}

fn after_recursion(alloc: Global) -> Result<Ir, AllocError> {
    let branch = Line::Branch { on: 0, place: 3 };
    let first = [call([0, 0]), store_element(), RETURN];
    let second = [branch, call([0, 0]), load_element(1), RETURN];
    three(alloc, 0, &first, &second, &[RETURN])
}

fn far_side(alloc: Global) -> Result<Ir, AllocError> {
    let branch = Line::Branch { on: 0, place: 3 };
    let jump = Line::Jump { place: 4 };
    one(alloc, &[branch, store(), jump, load(1), store(), RETURN])
}

fn back_edge(alloc: Global) -> Result<Ir, AllocError> {
    let branch = Line::Branch { on: 1, place: 0 };
    one(alloc, &[store_element(), load_element(1), branch, RETURN])
}

fn two_back_edges(alloc: Global) -> Result<Ir, AllocError> {
    let inner = Line::Branch { on: 1, place: 0 };
    let outer = Line::Branch { on: 1, place: 1 };
    one(
        alloc,
        &[store_element(), inner, load_element(1), outer, RETURN],
    )
}

fn alias(alloc: Global) -> Result<Ir, AllocError> {
    let copy = Line::Copy { to: 1, from: 0 };
    one(
        alloc,
        &[
            load(0),
            copy,
            load_word(2, 1),
            store_word(1),
            store_word(0),
            RETURN,
        ],
    )
}

fn written_alias(alloc: Global) -> Result<Ir, AllocError> {
    let copy = Line::Copy { to: 1, from: 0 };
    one(
        alloc,
        &[
            load(0),
            store_word(0),
            copy,
            load_word(2, 1),
            store_word(1),
            RETURN,
        ],
    )
}

/// A program with more logged stores than few, so that their walks are shared.
fn many_stores(alloc: Global) -> Result<Ir, AllocError> {
    let mut lines = [store_element(); 42];
    lines[0] = load_element(1);
    lines[41] = RETURN;
    one(alloc, &lines)
}

/// The program of a case.
pub fn case_program(alloc: Global, case: Case) -> Result<Ir, AllocError> {
    match case {
        Case::WrittenFirst => one(alloc, &[store(), load(1), store(), RETURN]),
        Case::ReadFirst => one(alloc, &[load(1), store(), store(), RETURN]),
        Case::Fill => fill(alloc),
        Case::FirstOfTwo => twice(alloc, 0),
        Case::LastOfTwo => twice(alloc, 1),
        Case::OtherCall => other_call(alloc),
        Case::Recursion => recursion(alloc),
        Case::AfterRecursion => after_recursion(alloc),
        Case::Else => far_side(alloc),
        Case::BackEdge => back_edge(alloc),
        Case::TwoBackEdges => two_back_edges(alloc),
        Case::Alias => alias(alloc),
        Case::WrittenAlias => written_alias(alloc),
        Case::RootArray => one(
            alloc,
            &[store_element(), load_element(1), store_element(), RETURN],
        ),
        Case::ManyStores => many_stores(alloc),
    }
}
