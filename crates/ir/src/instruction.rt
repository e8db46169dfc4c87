//! The instructions. Functions, places, registers and fields are counted from 0; a `kind` is a
//! struct's number, from 1.

ghost use Rattle.std.specs.Prelude.{◌≡◌, IfOk};

use nvm_base::{BinOp, Registers};
use pool_map::TrapKind;
use std::alloc::{AllocError, Global};

/// What a load reads and a store writes: a field of the root, or a field of the object in the slot
/// that `base` holds. It has an index register exactly if the field is an array.
#[derive(Clone, Copy, Debug, PartialEq, Eq)]
pub enum Target {
    Root {
        field: u32,
        index: Option<u32>,
    },
    Field {
        base: u32,
        kind: u32,
        field: u32,
        index: Option<u32>,
    },
}

/// An instruction.
#[derive(Drop)]
pub enum Instruction {
    /// `to` := `value`
    Const {
        to: u32,
        value: i64,
    },
    /// `to` := `from`
    Copy {
        to: u32,
        from: u32,
    },
    /// `to` := `left` op `right`; a divisor of 0 traps.
    Bin {
        op: BinOp,
        to: u32,
        left: u32,
        right: u32,
    },
    Jump {
        place: u32,
    },
    /// Goes to `place` if `on` is 0.
    Branch {
        on: u32,
        place: u32,
    },
    /// `to` := the word at the target, after the target's checks.
    Load {
        to: u32,
        target: Target,
    },
    /// The word at the target := `from`, after the target's checks. The line is that of the
    /// assigning operator.
    Store {
        target: Target,
        from: u32,
        line: u64,
    },
    /// `to` := the least free slot, which now holds a blank object, or 0 if no slot is free. The
    /// line is that of `pm_new`.
    New {
        to: u32,
        kind: u32,
        log_fill: bool,
        line: u64,
    },
    /// Frees the slot that `from` holds, after its checks. The line is that of `pm_free`.
    Free {
        from: u32,
        kind: u32,
        line: u64,
    },
    /// `to` := the result of the function for these registers; a trap if 256 functions are open.
    Call {
        to: u32,
        function: u32,
        args: Registers,
    },
    Return {
        from: u32,
    },
    /// Takes a tick; a trap if none is left.
    Tick,
    Trap {
        kind: TrapKind,
    },
    /// Logs the old value of the store that follows. It has no effect on the pool.
    Log {
        target: Target,
    },
}

fn registers_copy(alloc: Global, registers: &Registers) -> Result<Registers, AllocError>
    ensures { IfOk result (λ r. r ≡ registers.now) }
{
    let mut copy = Registers::new(alloc);
    for register in registers.as_slice() {
        copy.push(*register)?;
    }
    Ok(copy)
}

impl Instruction {
    /// A copy of the instruction. Only a call takes memory.
    pub fn copy(&self, alloc: Global) -> Result<Instruction, AllocError>
        ensures { IfOk result (λ i. i ≡ self.now) }
    {
        match self {
            Instruction::Const { to, value } => Ok(Instruction::Const {
                to: *to,
                value: *value,
            }),
            Instruction::Copy { to, from } => Ok(Instruction::Copy {
                to: *to,
                from: *from,
            }),
            Instruction::Bin {
                op,
                to,
                left,
                right,
            } => Ok(Instruction::Bin {
                op: *op,
                to: *to,
                left: *left,
                right: *right,
            }),
            Instruction::Jump { place } => Ok(Instruction::Jump { place: *place }),
            Instruction::Branch { on, place } => Ok(Instruction::Branch {
                on: *on,
                place: *place,
            }),
            Instruction::Load { to, target } => Ok(Instruction::Load {
                to: *to,
                target: *target,
            }),
            Instruction::Store { target, from, line } => Ok(Instruction::Store {
                target: *target,
                from: *from,
                line: *line,
            }),
            Instruction::New {
                to,
                kind,
                log_fill,
                line,
            } => Ok(Instruction::New {
                to: *to,
                kind: *kind,
                log_fill: *log_fill,
                line: *line,
            }),
            Instruction::Free { from, kind, line } => Ok(Instruction::Free {
                from: *from,
                kind: *kind,
                line: *line,
            }),
            Instruction::Call { to, function, args } => Ok(Instruction::Call {
                to: *to,
                function: *function,
                args: registers_copy(alloc, args)?,
            }),
            Instruction::Return { from } => Ok(Instruction::Return { from: *from }),
            Instruction::Tick => Ok(Instruction::Tick),
            Instruction::Trap { kind } => Ok(Instruction::Trap { kind: *kind }),
            Instruction::Log { target } => Ok(Instruction::Log { target: *target }),
        }
    }
}
