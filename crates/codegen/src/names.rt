//! Whether a function's instructions name only its own registers, so that none of them is taken for
//! a temporary one.

ghost use Rattle.std.specs.Prelude.{◌≡◌, ◌<◌, ◌≤◌, nat_lt};
ghost use Rattle.std.specs.List.{list_all};
ghost use Rattle.codegen.specs.Names as names;

use ir::{Instruction, Target};

fn are_below(count: u32, registers: &[u32]) -> bool
    ensures { result ≡ list_all (λ a. nat_lt a count) registers.now }
{
    for register in registers {
        if *register >= count {
            return false;
        }
    }
    true
}

fn index_below(count: u32, index: Option<u32>) -> bool
    ensures { result ≡ names.index_below count index }
{
    match index {
        None => true,
        Some(index) => index < count,
    }
}

fn target_below(count: u32, target: &Target) -> bool
    ensures { result ≡ names.target_below count target.now }
{
    match *target {
        Target::Root { index, .. } => index_below(count, index),
        Target::Field { base, index, .. } => base < count && index_below(count, index),
    }
}

/// Whether the instruction's registers are below that number.
fn is_below(count: u32, instruction: &Instruction) -> bool
    ensures { result ≡ names.is_below count instruction.now }
{
    match instruction {
        Instruction::Const { to, .. } | Instruction::New { to, .. } => *to < count,
        Instruction::Copy { to, from } => *to < count && *from < count,
        Instruction::Bin {
            to,
            left,
            right,
            ..
        } => *to < count && *left < count && *right < count,
        Instruction::Branch { on, .. } => *on < count,
        Instruction::Load { to, target } => *to < count && target_below(count, target),
        Instruction::Store { target, from, .. } => *from < count && target_below(count, target),
        Instruction::Free { from, .. } | Instruction::Return { from } => *from < count,
        Instruction::Call { to, args, .. } => *to < count && are_below(count, args.as_slice()),
        Instruction::Log { target } => target_below(count, target),
        Instruction::Jump { .. } | Instruction::Tick | Instruction::Trap { .. } => true,
    }
}

/// Whether all instructions' registers are below that number.
pub fn all_below(count: u32, code: &[Instruction]) -> bool
    ensures { result ≡ list_all (names.is_below count) code.now }
{
    for instruction in code {
        if !is_below(count, instruction) {
            return false;
        }
    }
    true
}
