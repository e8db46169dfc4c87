//! Small programs of three-address code, run on the machine: each call with its end, its log
//! records and words of the heap afterwards.

ghost use Rattle.std.specs.Prelude.{◌≡◌, ◌<◌};

use crate::well_formed::is_well_formed;
use codegen::emit;
use ir::{Instruction, Instructions, Ir, IrFunction, IrFunctions, Target};
use nvm_base::{BinOp, Registers, Steps, Text};
use pm_machine::{Image, Machine, Policy, RunAnswer};
use pmem::{Pmem, PmemWork, SimPmem};
use pool_layout::{Sizes, heap_start, pool_lines};
use pool_map::{FieldShape, FieldShapes, Shapes, StructShape, StructShapes, TrapKind};
use std::alloc::{AllocError, Global};
use std::marker::Brand;
use std::sync::ledger::{Blank, Ledger};
use std::test::Fail;

fn text_of(alloc: Global, piece: &str) -> Result<Text, AllocError> {
    let mut text = Text::new(alloc);
    text.push(piece)?;
    Ok(text)
}

fn fields(alloc: Global, list: &[(&str, Option<u64>)]) -> Result<FieldShapes, AllocError> {
    let mut fields = FieldShapes::new(alloc);
    for (name, length) in list {
        fields.push(FieldShape {
            name: text_of(alloc, name)?,
            unsigned: false,
            length: *length,
        })?;
    }
    Ok(fields)
}

/// The root has a number, an array of three and a pointer, words 0, 1 to 3 and 4 of the heap;
/// struct 1 has a number and a pointer, so slot 1 has words 8 to 10 and slot 2 words 24 to 26.
fn all_shapes(alloc: Global) -> Result<Shapes, AllocError> {
    let mut structs = StructShapes::new(alloc);
    structs.push(StructShape {
        name: text_of(alloc, "Node")?,
        fields: fields(alloc, &[("v", None), ("next", None)])?,
    })?;
    Ok(Shapes {
        root: fields(alloc, &[("n", None), ("t", Some(3)), ("head", None)])?,
        structs,
    })
}

fn root(field: u32, index: Option<u32>) -> Target {
    Target::Root { field, index }
}

fn node(base: u32, field: u32) -> Target {
    Target::Field {
        base,
        kind: 1,
        field,
        index: None,
    }
}

fn load(to: u32, target: Target) -> Instruction {
    Instruction::Load { to, target }
}

fn store(target: Target, from: u32) -> Instruction {
    Instruction::Store {
        target,
        from,
        line: 1,
    }
}

fn bin(op: BinOp, to: u32, left: u32, right: u32) -> Instruction {
    Instruction::Bin {
        op,
        to,
        left,
        right,
    }
}

fn back(from: u32) -> Instruction {
    Instruction::Return { from }
}

fn call(alloc: Global, to: u32, function: u32, arg: u32) -> Result<Instruction, AllocError> {
    let mut args = Registers::new(alloc);
    args.push(arg)?;
    Ok(Instruction::Call { to, function, args })
}

fn function<const N: usize>(
    alloc: Global,
    parameters: u32,
    tx: bool,
    code: [Instruction; N],
) -> Result<IrFunction, AllocError> {
    let mut list = Instructions::new(alloc);
    for instruction in Vec::from_array(alloc, code)? {
        list.push(instruction)?;
    }
    Ok(IrFunction {
        name: text_of(alloc, "f")?,
        parameters,
        registers: 8,
        tx,
        code: list,
    })
}

/// Transactions over the root: 1 adds to the number, 2 reads an element, 3 writes one, 4 divides 1.
fn push_plain(alloc: Global, functions: &mut IrFunctions) -> Result<(), AllocError> {
    let add = [
        load(1, root(0, None)),
        bin(BinOp::Add, 2, 1, 0),
        Instruction::Log {
            target: root(0, None),
        },
        store(root(0, None), 2),
        load(3, root(0, None)),
        back(3),
    ];
    functions.push(function(alloc, 1, true, add)?)?;
    functions.push(function(alloc, 1, true, [load(1, root(1, Some(0))), back(1)])?)?;
    functions.push(function(alloc, 2, true, [store(root(1, Some(0)), 1), back(1)])?)?;
    let divide = [
        Instruction::Const { to: 1, value: 1 },
        bin(BinOp::Div, 2, 1, 0),
        back(2),
    ];
    functions.push(function(alloc, 1, true, divide)?)
}

/// Transactions over objects: 5 pushes one on a list, 6 takes the first off, 7 reads it when it is
/// free.
fn push_objects(alloc: Global, functions: &mut IrFunctions) -> Result<(), AllocError> {
    let head = root(2, None);
    let make = [
        made(1),
        store(node(1, 0), 0),
        load(2, head),
        store(node(1, 1), 2),
        Instruction::Log { target: head },
        store(head, 1),
        back(1),
    ];
    functions.push(function(alloc, 1, true, make)?)?;
    let take = [
        load(0, head),
        load(1, node(0, 1)),
        Instruction::Free {
            from: 0,
            kind: 1,
            line: 1,
        },
        Instruction::Log { target: head },
        store(head, 1),
        back(0),
    ];
    functions.push(function(alloc, 0, true, take)?)?;
    let late = [
        load(0, head),
        Instruction::Free {
            from: 0,
            kind: 1,
            line: 1,
        },
        load(1, node(0, 0)),
        back(1),
    ];
    functions.push(function(alloc, 0, true, late)?)
}

/// Transactions that call and repeat: 8 sums the numbers up to its argument by a function that
/// calls itself, 9 ticks on and on.
fn push_calls(alloc: Global, functions: &mut IrFunctions) -> Result<(), AllocError> {
    let go = [Instruction::Tick, call(alloc, 1, 9, 0)?, back(1)];
    functions.push(function(alloc, 1, true, go)?)?;
    let spin = [Instruction::Tick, Instruction::Jump { place: 0 }];
    functions.push(function(alloc, 0, true, spin)?)?;
    let sum = [
        Instruction::Branch { on: 0, place: 6 },
        Instruction::Const { to: 1, value: 1 },
        bin(BinOp::Sub, 2, 0, 1),
        call(alloc, 3, 9, 2)?,
        bin(BinOp::Add, 4, 0, 3),
        back(4),
        back(0),
    ];
    functions.push(function(alloc, 1, false, sum)?)
}

fn made(to: u32) -> Instruction {
    Instruction::New {
        to,
        kind: 1,
        log_fill: false,
        line: 1,
    }
}

/// Transaction 10 fills the last free slot, finds no other, frees slot 1, and finds that one. It
/// gives 100 times the first of these slots, 10 times the second, and the third.
fn push_search(alloc: Global, functions: &mut IrFunctions) -> Result<(), AllocError> {
    let again = [
        made(0),
        made(1),
        Instruction::Const { to: 2, value: 1 },
        Instruction::Free {
            from: 2,
            kind: 1,
            line: 1,
        },
        made(3),
        Instruction::Const { to: 4, value: 10 },
        bin(BinOp::Mul, 0, 0, 4),
        bin(BinOp::Add, 0, 0, 1),
        bin(BinOp::Mul, 0, 0, 4),
        bin(BinOp::Add, 0, 0, 3),
        back(0),
    ];
    functions.push(function(alloc, 0, true, again)?)
}

fn program(alloc: Global) -> Result<Ir, AllocError> {
    let mut functions = IrFunctions::new(alloc);
    push_plain(alloc, &mut functions)?;
    push_objects(alloc, &mut functions)?;
    push_calls(alloc, &mut functions)?;
    push_search(alloc, &mut functions)?;
    Ok(Ir {
        functions,
        shapes: all_shapes(alloc)?,
    })
}

/// A call's answer and its number of log records.
fn called_from<L: Ledger>(
    alloc: Global,
    image: &Image,
    dev: &mut SimPmem,
    tx: u64,
    args: &[i64],
    blank: Blank,
) -> Result<Option<(RunAnswer, u64)>, AllocError>
    requires name { blank.name ≡ L.name }
    requires parts { blank.parts ≡ L.parts }
    requires some { 0 < blank.parts }
{
    if tx < 1 || tx > image.txs() || dev.lines() != pool_lines(image.sizes()) {
        return Ok(None);
    }
    let mut machine = Machine::new(alloc, image, tx, args)?;
    let mut steps = Steps::<L>::new(blank);
    let answer = machine.run(image, Policy::EndPool, dev, &mut steps);
    Ok(Some((answer, machine.logged())))
}

fn called(
    alloc: Global,
    image: &Image,
    dev: &mut SimPmem,
    tx: u64,
    args: &[i64],
) -> Result<Option<(RunAnswer, u64)>, AllocError> {
    called_from::<Brand>(alloc, image, dev, tx, args, Blank::new(1))
}

fn word(dev: &SimPmem, word: u64) -> i64 {
    if word / 8 < dev.lines() {
        dev.load(word).unwrap_or(0)
    } else {
        0
    }
}

/// Words 0, 3 and 4 of the heap, the first three of slot 1 and the first two of slot 2.
fn words(dev: &SimPmem, sizes: &Sizes) -> [i64; 8] {
    let heap = heap_start(sizes);
    [
        word(dev, heap),
        word(dev, heap + 3),
        word(dev, heap + 4),
        word(dev, heap + 8),
        word(dev, heap + 9),
        word(dev, heap + 10),
        word(dev, heap + 24),
        word(dev, heap + 25),
    ]
}

/// A call's transaction and arguments, its answer, its log records, and words of the heap after
/// it.
type Row = (u64, [i64; 2], RunAnswer, u64, [i64; 8]);

const ROWS: [Row; 19] = [
    (1, [5, 0], RunAnswer::Halted(5), 1, [5, 0, 0, 0, 0, 0, 0, 0]),
    (
        1,
        [-7, 0],
        RunAnswer::Halted(-2),
        1,
        [-2, 0, 0, 0, 0, 0, 0, 0],
    ),
    (
        3,
        [2, 9],
        RunAnswer::Halted(9),
        0,
        [-2, 9, 0, 0, 0, 0, 0, 0],
    ),
    (
        2,
        [2, 0],
        RunAnswer::Halted(9),
        0,
        [-2, 9, 0, 0, 0, 0, 0, 0],
    ),
    (
        2,
        [3, 0],
        RunAnswer::Trapped(TrapKind::Index),
        0,
        [-2, 9, 0, 0, 0, 0, 0, 0],
    ),
    (
        3,
        [-1, 4],
        RunAnswer::Trapped(TrapKind::Index),
        0,
        [-2, 9, 0, 0, 0, 0, 0, 0],
    ),
    (
        4,
        [0, 0],
        RunAnswer::Trapped(TrapKind::Divide),
        0,
        [-2, 9, 0, 0, 0, 0, 0, 0],
    ),
    (
        4,
        [-1, 0],
        RunAnswer::Halted(-1),
        0,
        [-2, 9, 0, 0, 0, 0, 0, 0],
    ),
    (
        6,
        [0, 0],
        RunAnswer::Trapped(TrapKind::Null),
        0,
        [-2, 9, 0, 0, 0, 0, 0, 0],
    ),
    (
        5,
        [7, 0],
        RunAnswer::Halted(1),
        2,
        [-2, 9, 1, 1, 7, 0, 0, 0],
    ),
    (
        5,
        [8, 0],
        RunAnswer::Halted(2),
        2,
        [-2, 9, 2, 1, 7, 0, 1, 8],
    ),
    // no slot is free
    (
        5,
        [9, 0],
        RunAnswer::Trapped(TrapKind::Null),
        0,
        [-2, 9, 2, 1, 7, 0, 1, 8],
    ),
    (
        6,
        [0, 0],
        RunAnswer::Halted(2),
        2,
        [-2, 9, 1, 1, 7, 0, 0, 8],
    ),
    (
        5,
        [3, 0],
        RunAnswer::Halted(2),
        2,
        [-2, 9, 2, 1, 7, 0, 1, 3],
    ),
    (
        7,
        [0, 0],
        RunAnswer::Trapped(TrapKind::Stale),
        1,
        [-2, 9, 2, 1, 7, 0, 0, 3],
    ),
    // 256 functions may be open, the transaction among them
    (
        8,
        [254, 0],
        RunAnswer::Halted(32_385),
        0,
        [-2, 9, 2, 1, 7, 0, 0, 3],
    ),
    (
        8,
        [255, 0],
        RunAnswer::Trapped(TrapKind::Depth),
        0,
        [-2, 9, 2, 1, 7, 0, 0, 3],
    ),
    (
        9,
        [0, 0],
        RunAnswer::Trapped(TrapKind::Steps),
        0,
        [-2, 9, 2, 1, 7, 0, 0, 3],
    ),
    (
        10,
        [0, 0],
        RunAnswer::Halted(201),
        2,
        [-2, 9, 2, 1, 0, 0, 1, 0],
    ),
];

/// The index of the first call that does something else.
fn first_wrong(
    alloc: Global,
    image: &Image,
    dev: &mut SimPmem,
    table: &[Row],
) -> Result<Option<usize>, AllocError> {
    for (i, (tx, args, answer, logged, seen)) in table.iter().enumerate() {
        if called(alloc, image, dev, *tx, args)? != Some((*answer, *logged)) {
            return Ok(Some(i));
        }
        if words(dev, image.sizes()) != *seen {
            return Ok(Some(i));
        }
    }
    Ok(None)
}

#[test]
fn programs(rt: HostRuntime) -> Result<(), Fail> {
    let alloc = rt.alloc();
    let Some(sizes) = Sizes::new(2, 64, 5, 16, 400) else {
        return Ok(());
    };
    let code = program(alloc)?;
    if !is_well_formed(&code) {
        assert!(rt; false, "the code is well formed");
        return Ok(());
    }
    let image = emit(alloc, &code, &sizes, 100)?;
    assert_eq!(rt; image.txs(), 10);
    let mut dev = SimPmem::new(alloc);
    dev.blank(pool_lines(&sizes))?;
    assert_eq!(rt; first_wrong(alloc, &image, &mut dev, &ROWS)?, None);
    Ok(())
}
