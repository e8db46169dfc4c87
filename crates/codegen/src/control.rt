//! The code of an instruction that leads elsewhere: a jump, a branch, a call, a return.

ghost use Rattle.std.specs.Prelude.{◌≡◌, ◌++◌, ◌<◌, length, OnOk, IfOk};
ghost use Rattle.codegen.specs.Emit as definitions;
ghost use Rattle.codegen.specs.Emit.{control, return_code};
ghost use Rattle.ir.specs.Moving.{place_in};

use ir::Instruction;
use nvm_base::Registers;
use pm_machine::{Code, Op};
use std::alloc::{AllocError, Global};

fn copied(alloc: Global, registers: &Registers) -> Result<Registers, AllocError>
    ensures { IfOk result (λ r. r ≡ registers.now) }
{
    let mut copy = Registers::new(alloc);
    for register in registers.as_slice() {
        copy.push(*register)?;
    }
    Ok(copy)
}

/// The place where an instruction's code begins, by its number; if there is no such instruction, a
/// place that no function has.
fn place_of(table: &[u32], instruction: u32) -> u32
    ensures { result ≡ place_in table.now instruction }
{
    match table.get(instruction as usize) {
        Some(place) => *place,
        None => u32::MAX,
    }
}

/// Appends a return: a transaction's dirty lines are flushed and fenced, and then the run halts.
fn push_return(code: &mut Code, tx: bool, from: u32) -> Result<(), AllocError>
    ensures { OnOk result (code.new ≡ code.old ++ return_code tx from) }
{
    if tx {
        code.push(Op::Flush)?;
        code.push(Op::Fence)?;
        return code.push(Op::Halt { a: from });
    }
    code.push(Op::Ret { a: from })
}

fn push_call(
    alloc: Global,
    code: &mut Code,
    to: u32,
    function: u32,
    args: &Registers,
) -> Result<(), AllocError>
    ensures { OnOk result (code.new ≡ code.old ++ definitions.call_code to function args.now) }
{
    let args = copied(alloc, args)?;
    code.push(Op::Call {
        r: to,
        f: function,
        args,
    })
}

/// Appends the code of an instruction that leads elsewhere; for any other instruction there is none
/// here.
pub fn push_control(
    alloc: Global,
    code: &mut Code,
    tx: bool,
    table: &[u32],
    instruction: &Instruction,
) -> Result<(), AllocError>
    ensures { OnOk result (code.new ≡ code.old ++ control tx (place_in table.now) instruction.now) }
{
    match instruction {
        Instruction::Jump { place } => code.push(Op::Jmp {
            t: place_of(table, *place),
        }),
        Instruction::Branch { on, place } => code.push(Op::Jz {
            a: *on,
            t: place_of(table, *place),
        }),
        Instruction::Call { to, function, args } => push_call(alloc, code, *to, *function, args),
        Instruction::Return { from } => push_return(code, tx, *from),
        Instruction::Const { .. }
        | Instruction::Copy { .. }
        | Instruction::Bin { .. }
        | Instruction::Load { .. }
        | Instruction::Store { .. }
        | Instruction::New { .. }
        | Instruction::Free { .. }
        | Instruction::Tick
        | Instruction::Trap { .. }
        | Instruction::Log { .. } => Ok(()),
    }
}

/// The number of machine instructions of that code.
pub fn control_width(tx: bool, instruction: &Instruction) -> u32
    ensures value { result ≡ length (control tx (λ q. 0) instruction.now) }
    ensures small { result < 4 }
{
    match instruction {
        Instruction::Return { .. } => { if tx { 3 } else { 1 } }
        Instruction::Jump { .. } | Instruction::Branch { .. } | Instruction::Call { .. } => 1,
        Instruction::Const { .. }
        | Instruction::Copy { .. }
        | Instruction::Bin { .. }
        | Instruction::Load { .. }
        | Instruction::Store { .. }
        | Instruction::New { .. }
        | Instruction::Free { .. }
        | Instruction::Tick
        | Instruction::Trap { .. }
        | Instruction::Log { .. } => 0,
    }
}
