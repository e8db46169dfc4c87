//! Programs, put together from lines: the shapes that all of them have, and their instructions.

use crate::kept::{Class, REGISTERS};
use ir::{Instruction, Instructions, IrFunction, Target};
use nvm_base::{BinOp, Registers, Text};
use pool_map::{FieldShape, FieldShapes, Shapes, StructShape, StructShapes};
use std::alloc::{AllocError, Global};

/// All classes of the shapes.
pub const CLASSES: [Class; 5] = [
    Class::Root { field: 0 },
    Class::Root { field: 1 },
    Class::Field { kind: 1, field: 0 },
    Class::Field { kind: 1, field: 1 },
    Class::Field { kind: 2, field: 0 },
];

/// The root's field that is a word.
pub const ROOT: Target = Target::Root {
    field: 0,
    index: None,
};

/// An element of the root's array.
pub fn root_at(index: u32) -> Target {
    Target::Root {
        field: 1,
        index: Some(index),
    }
}

/// The field of the first struct that is a word.
pub fn word_of(base: u32) -> Target {
    Target::Field {
        base,
        kind: 1,
        field: 0,
        index: None,
    }
}

/// An element of the first struct's array.
pub fn element_of(base: u32, index: u32) -> Target {
    Target::Field {
        base,
        kind: 1,
        field: 1,
        index: Some(index),
    }
}

/// The second struct's one field.
pub fn other_of(base: u32) -> Target {
    Target::Field {
        base,
        kind: 2,
        field: 0,
        index: None,
    }
}

/// A line of code. Of a call's two arguments the function takes as many as it has parameters.
#[derive(Clone, Copy, Debug, PartialEq, Eq)]
pub enum Line {
    Const {
        to: u32,
    },
    Copy {
        to: u32,
        from: u32,
    },
    Add {
        to: u32,
        left: u32,
        right: u32,
    },
    Jump {
        place: u32,
    },
    Branch {
        on: u32,
        place: u32,
    },
    Load {
        to: u32,
        target: Target,
    },
    Store {
        target: Target,
        from: u32,
    },
    New {
        to: u32,
        kind: u32,
    },
    Free {
        from: u32,
        kind: u32,
    },
    Call {
        to: u32,
        function: u32,
        args: [u32; 2],
    },
    Return {
        from: u32,
    },
    Tick,
}

/// The first `count` of two registers.
fn some_of(alloc: Global, args: [u32; 2], count: u32) -> Result<Registers, AllocError> {
    let mut registers = Registers::new(alloc);
    if 0 < count {
        registers.push(args[0])?;
    }
    if 1 < count {
        registers.push(args[1])?;
    }
    Ok(registers)
}

/// The instruction of a line that is no call.
fn plain(line: Line) -> Instruction {
    match line {
        Line::Const { to } => Instruction::Const { to, value: 1 },
        Line::Copy { to, from } => Instruction::Copy { to, from },
        Line::Add { to, left, right } => Instruction::Bin {
            op: BinOp::Add,
            to,
            left,
            right,
        },
        Line::Jump { place } => Instruction::Jump { place },
        Line::Branch { on, place } => Instruction::Branch { on, place },
        Line::Load { to, target } => Instruction::Load { to, target },
        Line::Store { target, from } => Instruction::Store {
            target,
            from,
            line: 1,
        },
        Line::New { to, kind } => Instruction::New {
            to,
            kind,
            log_fill: false,
            line: 1,
        },
        Line::Free { from, kind } => Instruction::Free {
            from,
            kind,
            line: 1,
        },
        Line::Return { from } => Instruction::Return { from },
        Line::Tick | Line::Call { .. } => Instruction::Tick,
    }
}

/// How many parameters a function has.
pub fn parameters_of(parameters: &[u32], function: u32) -> u32 {
    parameters.get(function as usize).copied().unwrap_or(0)
}

/// The instruction of a line, by the numbers of parameters of the functions.
pub fn instruction(
    alloc: Global,
    line: Line,
    parameters: &[u32],
) -> Result<Instruction, AllocError> {
    match line {
        Line::Call { to, function, args } => Ok(Instruction::Call {
            to,
            function,
            args: some_of(alloc, args, parameters_of(parameters, function))?,
        }),
        _ => Ok(plain(line)),
    }
}

/// A function of these lines.
pub fn function(
    alloc: Global,
    tx: bool,
    number: u32,
    lines: &[Line],
    parameters: &[u32],
) -> Result<IrFunction, AllocError> {
    let mut code = Instructions::new(alloc);
    for line in lines {
        code.push(instruction(alloc, *line, parameters)?)?;
    }
    Ok(IrFunction {
        name: Text::new(alloc),
        parameters: parameters_of(parameters, number),
        registers: REGISTERS,
        tx,
        code,
    })
}

fn field(alloc: Global, length: Option<u64>) -> FieldShape {
    FieldShape {
        name: Text::new(alloc),
        unsigned: false,
        length,
    }
}

/// A word, and an array of two words.
fn word_and_array(alloc: Global) -> Result<FieldShapes, AllocError> {
    let mut fields = FieldShapes::new(alloc);
    fields.push(field(alloc, None))?;
    fields.push(field(alloc, Some(2)))?;
    Ok(fields)
}

/// The root and the first struct have a word and an array, the second struct has a word.
pub fn shapes(alloc: Global) -> Result<Shapes, AllocError> {
    let mut word = FieldShapes::new(alloc);
    word.push(field(alloc, None))?;
    let mut structs = StructShapes::new(alloc);
    structs.push(StructShape {
        name: Text::new(alloc),
        fields: word_and_array(alloc)?,
    })?;
    structs.push(StructShape {
        name: Text::new(alloc),
        fields: word,
    })?;
    Ok(Shapes {
        root: word_and_array(alloc)?,
        structs,
    })
}
