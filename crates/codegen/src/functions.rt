//! The code of a function.

ghost use Rattle.std.specs.Prelude.{◌≡◌, ◌++◌, ◌∷◌, [], ◌<◌, ◌+◌, ◌^◌, length, false, true, OnOk};
ghost use Rattle.std.specs.Prelude.{IfOk, if◌then◌else◌, nat_lt};
ghost use Rattle.ir.specs.Moving as moving;
ghost use Rattle.pm_alloc.specs.Placing as placing;
ghost use Rattle.codegen.specs.Emit as definitions;
ghost use Rattle.codegen.specs.Emit.{piece_width, instruction_places, instruction_code, code_from};
ghost use Rattle.codegen.specs.Emit.{emitted_code, has_room, trap_function, with_code, function_of};

use crate::control::{control_width, push_control};
use crate::instructions::local_piece;
use crate::names::all_below;
use ir::{Instruction, IrFunction};
use pm_alloc::{Local, push_placed, sum};
use pm_machine::{Code, Function, Op};
use pool_layout::Sizes;
use pool_map::Shapes;
use std::alloc::{AllocError, Global};

fn is_log(instruction: &Instruction) -> bool
    ensures { result ≡ moving.is_log instruction.now }
{
    match instruction {
        Instruction::Log { .. } => true,
        Instruction::Const { .. }
        | Instruction::Copy { .. }
        | Instruction::Bin { .. }
        | Instruction::Jump { .. }
        | Instruction::Branch { .. }
        | Instruction::Load { .. }
        | Instruction::Store { .. }
        | Instruction::New { .. }
        | Instruction::Free { .. }
        | Instruction::Call { .. }
        | Instruction::Return { .. }
        | Instruction::Tick
        | Instruction::Trap { .. } => false,
    }
}

fn total(control: u32, piece: &[Local]) -> u32
    requires { control < 4 }
    ensures { result ≡ placing.sum control (length piece.now) }
{
    match u32::try_from(piece.len()) {
        Ok(length) => sum(control, length),
        Err(_) => u32::MAX,
    }
}

/// The number of machine instructions of an instruction.
fn width_of(
    alloc: Global,
    sizes: &Sizes,
    shapes: &Shapes,
    tx: bool,
    logged: bool,
    instruction: &Instruction,
) -> Result<u32, AllocError>
    ensures { IfOk result (λ n. n ≡ piece_width sizes.now shapes.now tx logged instruction.now) }
{
    let piece = local_piece(alloc, sizes, shapes, logged, instruction)?;
    Ok(total(control_width(tx, instruction), piece.as_slice()))
}

fn push_place(table: &mut Vec<u32>, place: u32) -> Result<(), AllocError>
    ensures { OnOk result (table.new.items ≡ table.old.items ++ place ∷ []) }
{
    table.push(place)?;
    Ok(())
}

/// The place where each instruction's code begins, and where the last one's ends.
#[tactic(auto, using(crate::proofs::Written::places_step))]
pub fn places_of(
    alloc: Global,
    sizes: &Sizes,
    shapes: &Shapes,
    tx: bool,
    code: &[Instruction],
) -> Result<Vec<u32>, AllocError>
    ensures { IfOk result (λ t. t.items ≡ instruction_places sizes.now shapes.now tx 0 false
        code.now) }
{
    let mut table = Vec::new(alloc);
    let mut place = 0;
    let mut logged = false;
    for instruction in code {
        push_place(&mut table, place)?;
        let width = width_of(alloc, sizes, shapes, tx, logged, instruction)?;
        place = sum(place, width);
        logged = is_log(instruction);
    }
    push_place(&mut table, place)?;
    Ok(table)
}

/// Appends the code of an instruction, and returns its length.
fn push_instruction(
    alloc: Global,
    out: &mut Code,
    sizes: &Sizes,
    shapes: &Shapes,
    tx: bool,
    base: u32,
    table: &[u32],
    place: u32,
    logged: bool,
    instruction: &Instruction,
) -> Result<u32, AllocError>
    ensures code { OnOk result (out.new ≡ out.old ++ instruction_code sizes.now shapes.now tx base
        table.now place logged instruction.now) }
    ensures width { IfOk result (λ n. n ≡ piece_width sizes.now shapes.now tx logged
        instruction.now) }
{
    push_control(alloc, out, tx, table, instruction)?;
    let piece = local_piece(alloc, sizes, shapes, logged, instruction)?;
    push_placed(out, base, place, piece.as_slice())?;
    Ok(total(control_width(tx, instruction), piece.as_slice()))
}

#[tactic(auto, using(crate::proofs::Written::code_step))]
fn push_code(
    alloc: Global,
    out: &mut Code,
    sizes: &Sizes,
    shapes: &Shapes,
    tx: bool,
    base: u32,
    table: &[u32],
    code: &[Instruction],
) -> Result<(), AllocError>
    ensures { OnOk result (out.new ≡ out.old ++ code_from sizes.now shapes.now tx base table.now 0
        false code.now) }
{
    let mut place = 0;
    let mut logged = false;
    for instruction in code {
        let width = push_instruction(
            alloc,
            out,
            sizes,
            shapes,
            tx,
            base,
            table,
            place,
            logged,
            instruction,
        )?;
        place = sum(place, width);
        logged = is_log(instruction);
    }
    Ok(())
}

/// The code of a function whose own registers are those below `base`.
fn code_of(
    alloc: Global,
    sizes: &Sizes,
    shapes: &Shapes,
    tx: bool,
    base: u32,
    code: &[Instruction],
) -> Result<Code, AllocError>
    ensures { IfOk result (λ c. c ≡ emitted_code sizes.now shapes.now tx base code.now) }
{
    let table = places_of(alloc, sizes, shapes, tx, code)?;
    let mut out = Code::new(alloc);
    push_code(alloc, &mut out, sizes, shapes, tx, base, &table, code)?;
    Ok(out)
}

fn has_room(registers: u32, code: &[Instruction]) -> bool
    ensures value { result ≡ has_room registers code.now }
    ensures room { result ≡ true → registers + 8 < 2 ^ 32 }
{
    registers <= u32::MAX - 8 && all_below(registers, code)
}

/// A function with this many parameters that only traps.
fn trap_function(alloc: Global, parameters: u32) -> Result<Function, AllocError>
    ensures { IfOk result (λ f. f ≡ trap_function parameters) }
{
    let mut code = Code::new(alloc);
    code.push(Op::Trap { k: 6 })?;
    Ok(Function {
        parameters,
        registers: parameters,
        code,
    })
}

fn with_code(alloc: Global, function: &IrFunction, code: Code) -> Result<Function, AllocError>
    requires { function.now.registers + 8 < 2 ^ 32 }
    ensures { IfOk result (λ f. f ≡ with_code function.now code) }
{
    if code.as_slice().len() > u32::MAX as usize {
        return trap_function(alloc, function.parameters);
    }
    Ok(Function {
        parameters: function.parameters,
        registers: function.registers + 8,
        code,
    })
}

/// The machine's function. If a function has no room for its temporary registers, names registers
/// other than its own, or has code that is too long for the machine, it only traps.
pub fn machine_function(
    alloc: Global,
    sizes: &Sizes,
    shapes: &Shapes,
    function: &IrFunction,
) -> Result<Function, AllocError>
    ensures { IfOk result (λ f. f ≡ function_of sizes.now shapes.now function.now) }
{
    let code = function.code.as_slice();
    if !has_room(function.registers, code) {
        return trap_function(alloc, function.parameters);
    }
    let code = code_of(alloc, sizes, shapes, function.tx, function.registers, code)?;
    with_code(alloc, function, code)
}
