//! What a walk keeps about one class of fields, and what each step makes of it. No step mixes the
//! facts of two classes, so one class at a time says all.

use ir::{Instruction, Target};

/// How many registers each function has here.
pub const REGISTERS: u32 = 4;

/// The fields that the marks take for one.
#[derive(Clone, Copy, Debug, PartialEq, Eq)]
pub enum Class {
    Root { field: u32 },
    Field { kind: u32, field: u32 },
}

pub fn class_of(target: Target) -> Class {
    match target {
        Target::Root { field, .. } => Class::Root { field },
        Target::Field { kind, field, .. } => Class::Field { kind, field },
    }
}

/// Whether the field is surely written through each register of the open call, or in the root;
/// whether the class was read before; whether a free was passed.
#[derive(Clone, Copy, Debug, PartialEq, Eq)]
pub struct Kept {
    written: [bool; 4],
    root: bool,
    pub read: bool,
    pub freed: bool,
}

/// Nothing is known.
pub const AT_START: Kept = Kept {
    written: [false; 4],
    root: false,
    read: false,
    freed: false,
};

fn through(kept: Kept, register: u32) -> bool {
    kept.written[(register % REGISTERS) as usize]
}

/// Whether a target of the class is surely written.
pub fn is_written(kept: Kept, target: Target) -> bool {
    match target {
        Target::Root { .. } => kept.root,
        Target::Field { base, .. } => through(kept, base),
    }
}

fn gives(to: u32, told: bool, kept: Kept) -> Kept {
    let mut new = kept;
    new.written[(to % REGISTERS) as usize] = told;
    new
}

/// A load adds its class, unless the field is surely written.
fn reads(class: Class, target: Target, kept: Kept) -> Kept {
    let mut new = kept;
    if class_of(target) == class && !is_written(kept, target) {
        new.read = true;
    }
    new
}

/// A store to a field that isn't an array makes it surely written.
fn writes(class: Class, target: Target, kept: Kept) -> Kept {
    if class_of(target) != class {
        return kept;
    }
    match target {
        Target::Root { index: None, .. } => {
            let mut new = kept;
            new.root = true;
            new
        }
        Target::Field {
            base,
            index: None,
            ..
        } => gives(base, true, kept),
        Target::Root { index: Some(_), .. } | Target::Field { index: Some(_), .. } => kept,
    }
}

/// After an instruction that is no call and no return.
pub fn after(class: Class, instruction: &Instruction, kept: Kept) -> Kept {
    match instruction {
        Instruction::Const { to, .. } | Instruction::Bin { to, .. } => gives(*to, false, kept),
        Instruction::Copy { to, from } => gives(*to, through(kept, *from), kept),
        Instruction::Load { to, target } => gives(*to, false, reads(class, *target, kept)),
        Instruction::Store { target, .. } => writes(class, *target, kept),
        Instruction::New { to, .. } => gives(*to, true, kept),
        Instruction::Free { .. } => {
            let mut new = kept;
            new.freed = true;
            new
        }
        Instruction::Jump { .. }
        | Instruction::Branch { .. }
        | Instruction::Call { .. }
        | Instruction::Return { .. }
        | Instruction::Tick
        | Instruction::Trap { .. }
        | Instruction::Log { .. } => kept,
    }
}

/// A parameter has what its argument has, and another register nothing.
fn passed(args: &[u32], kept: Kept, register: usize) -> bool {
    match args.get(register) {
        None => false,
        Some(argument) => through(kept, *argument),
    }
}

/// At the entry of a called function.
pub fn entered(args: &[u32], kept: Kept) -> Kept {
    let mut new = kept;
    new.written = [
        passed(args, kept, 0),
        passed(args, kept, 1),
        passed(args, kept, 2),
        passed(args, kept, 3),
    ];
    new
}

/// The first position of a register among the arguments.
fn position(args: &[u32], register: u32) -> Option<u32> {
    let mut at: u32 = 0;
    for argument in args {
        if *argument == register {
            return Some(at);
        }
        at = at.saturating_add(1);
    }
    None
}

/// A register that was passed takes what its first parameter has, another keeps what it had.
fn taken(to: u32, args: &[u32], before: Kept, kept: Kept, register: u32) -> bool {
    if register == to {
        return false;
    }
    match position(args, register) {
        None => through(before, register),
        Some(parameter) => through(kept, parameter),
    }
}

/// After a call, from what was kept at it and what is kept at the return.
pub fn given_back(to: u32, args: &[u32], before: Kept, kept: Kept) -> Kept {
    let mut new = kept;
    new.written = [
        taken(to, args, before, kept, 0),
        taken(to, args, before, kept, 1),
        taken(to, args, before, kept, 2),
        taken(to, args, before, kept, 3),
    ];
    new
}
