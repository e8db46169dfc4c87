//! Drawn programs: two to four functions of up to two parameters, each of five to ten lines.

use crate::draws::Draws;
use crate::kept::REGISTERS;
use crate::lines::{Line, ROOT, element_of, function, other_of, root_at, shapes, word_of};
use ir::{Ir, IrFunction, IrFunctions, Target};
use std::alloc::{AllocError, Global};

fn register(draws: &mut Draws) -> u32 {
    draws.below(REGISTERS)
}

fn target(draws: &mut Draws) -> Target {
    match draws.below(8) {
        0 | 1 => ROOT,
        2 => root_at(register(draws)),
        3 | 4 => word_of(register(draws)),
        5 => {
            let base = register(draws);
            element_of(base, register(draws))
        }
        _ => other_of(register(draws)),
    }
}

fn kind(draws: &mut Draws) -> u32 {
    draws.at_least(1, 2)
}

fn call(draws: &mut Draws, functions: u32) -> Line {
    let function = draws.below(functions);
    let first = register(draws);
    let second = register(draws);
    Line::Call {
        to: register(draws),
        function,
        args: [first, second],
    }
}

fn copy_or_sum(draws: &mut Draws) -> Line {
    let from = register(draws);
    let to = register(draws);
    match draws.below(4) {
        0 => Line::Add {
            to,
            left: from,
            right: from,
        },
        _ => Line::Copy { to, from },
    }
}

fn rare(draws: &mut Draws, length: u32) -> Line {
    match draws.below(4) {
        0 => Line::Const {
            to: register(draws),
        },
        1 => Line::Jump {
            place: draws.below(length),
        },
        2 => Line::Return {
            from: register(draws),
        },
        _ => Line::Tick,
    }
}

/// A line of a function of `length` lines, in a program of `functions` functions.
fn drawn_line(draws: &mut Draws, length: u32, functions: u32) -> Line {
    match draws.below(40) {
        0 => rare(draws, length),
        1..=4 => copy_or_sum(draws),
        5..=8 => Line::Branch {
            on: register(draws),
            place: draws.below(length),
        },
        9..=18 => Line::Load {
            to: register(draws),
            target: target(draws),
        },
        19..=28 => Line::Store {
            target: target(draws),
            from: register(draws),
        },
        29 | 30 => Line::New {
            to: register(draws),
            kind: kind(draws),
        },
        31 | 32 => Line::Free {
            from: register(draws),
            kind: kind(draws),
        },
        _ => call(draws, functions),
    }
}

fn last_line(draws: &mut Draws, length: u32) -> Line {
    match draws.below(5) {
        0 => Line::Jump {
            place: draws.below(length),
        },
        _ => Line::Return {
            from: register(draws),
        },
    }
}

fn drawn_lines(alloc: Global, draws: &mut Draws, functions: u32) -> Result<Vec<Line>, AllocError> {
    let length = draws.at_least(5, 6);
    let mut all = Vec::new(alloc);
    for _ in 1..length {
        all.push(drawn_line(draws, length, functions))?;
    }
    all.push(last_line(draws, length))?;
    Ok(all)
}

/// The first function is a transaction, and one in four of the others.
fn drawn_function(
    alloc: Global,
    draws: &mut Draws,
    number: u32,
    parameters: &[u32],
    functions: u32,
) -> Result<IrFunction, AllocError> {
    let tx = number == 0 || draws.below(4) == 0;
    let lines = drawn_lines(alloc, draws, functions)?;
    function(alloc, tx, number, &lines, parameters)
}

/// A program from a number.
pub fn program(alloc: Global, seed: u64) -> Result<Ir, AllocError> {
    let mut draws = Draws::new(seed);
    let count = draws.at_least(2, 3);
    let parameters = [
        draws.below(3),
        draws.below(3),
        draws.at_least(1, 2),
        draws.at_least(1, 2),
    ];
    let mut functions = IrFunctions::new(alloc);
    for number in 0..count {
        functions.push(drawn_function(alloc, &mut draws, number, &parameters, count)?)?;
    }
    Ok(Ir {
        functions,
        shapes: shapes(alloc)?,
    })
}
