//! Whether code is well formed: whether all that its instructions name exists. Each test is true
//! exactly if its definition holds.

ghost use Rattle.std.specs.Prelude.{ℕ, ◌≡◌, ◌<◌, ◌≤◌, ◌^◌, true, Some, length, option_map};
ghost use Rattle.std.specs.Prelude.{slice_get};
ghost use Rattle.std.specs.List.{AllByRecursion};
ghost use Rattle.ir.specs.WellFormed as well;

use ir::{Instruction, Ir, IrFunction, Target};
use pool_map::{FieldShape, Shapes};

/// The greatest number of functions of a program, and of instructions of a function.
const MOST: usize = (1 << 31) - 1;

/// Whether code is well formed.
pub fn is_well_formed(ir: &Ir) -> bool
    ensures sound { result ≡ true → well.IsWellFormed ir.now }
    ensures complete { well.IsWellFormed ir.now → result ≡ true }
{
    ir.functions.as_slice().len() <= MOST && are_functions(ir, ir.functions.as_slice())
}

fn are_functions(ir: &Ir, functions: &[IrFunction]) -> bool
    ensures sound { result ≡ true → AllByRecursion (well.IsFunction ir.now) functions.now }
    ensures complete { AllByRecursion (well.IsFunction ir.now) functions.now → result ≡ true }
{
    for function in functions {
        if !is_function(ir, function) {
            return false;
        }
    }
    true
}

fn is_function(ir: &Ir, function: &IrFunction) -> bool
    ensures sound { result ≡ true → well.IsFunction ir.now function.now }
    ensures complete { well.IsFunction ir.now function.now → result ≡ true }
{
    let code = function.code.as_slice();
    function.parameters <= function.registers
        && code.len() <= MOST
        && ends_well(code)
        && are_instructions(ir, function.registers, code)
}

/// Whether the run doesn't go on past the last instruction.
#[tactic(auto, using(crate::proofs::Checks::ends))]
fn ends_well(code: &[Instruction]) -> bool
    ensures sound { result ≡ true → well.EndsWell code.now }
    ensures complete { well.EndsWell code.now → result ≡ true }
{
    match code.last() {
        None => false,
        Some(last) => is_end(last),
    }
}

fn is_end(instruction: &Instruction) -> bool
    ensures sound { result ≡ true → well.StopsRun instruction.now }
    ensures complete { well.StopsRun instruction.now → result ≡ true }
{
    match instruction {
        Instruction::Jump { .. } => true,
        Instruction::Return { .. } => true,
        Instruction::Trap { .. } => true,
        Instruction::Const { .. } => false,
        Instruction::Copy { .. } => false,
        Instruction::Bin { .. } => false,
        Instruction::Branch { .. } => false,
        Instruction::Load { .. } => false,
        Instruction::Store { .. } => false,
        Instruction::New { .. } => false,
        Instruction::Free { .. } => false,
        Instruction::Call { .. } => false,
        Instruction::Tick => false,
        Instruction::Log { .. } => false,
    }
}

fn are_instructions(ir: &Ir, registers: u32, code: &[Instruction]) -> bool
    requires { length code.now < 2 ^ 31 }
    ensures sound { result ≡ true →
        AllByRecursion (well.IsInstruction ir.now registers (length code.now)) code.now }
    ensures complete { AllByRecursion (well.IsInstruction ir.now registers (length code.now))
        code.now → result ≡ true }
{
    for instruction in code {
        if !is_instruction(ir, registers, code.len() as u32, instruction) {
            return false;
        }
    }
    true
}

/// Whether all that an instruction names exists, in a function with these numbers of registers and
/// instructions.
fn is_instruction(ir: &Ir, registers: u32, length: u32, instruction: &Instruction) -> bool
    ensures sound { result ≡ true → well.IsInstruction ir.now registers length instruction.now }
    ensures complete { well.IsInstruction ir.now registers length instruction.now → result ≡ true }
{
    match instruction {
        Instruction::Const { to, .. } => *to < registers,
        Instruction::Copy { to, from } => *to < registers && *from < registers,
        Instruction::Bin {
            to,
            left,
            right,
            ..
        } => *to < registers && *left < registers && *right < registers,
        Instruction::Jump { place } => *place < length,
        Instruction::Branch { on, place } => *on < registers && *place < length,
        Instruction::Load { to, target } => {
            *to < registers && is_target(&ir.shapes, registers, *target)
        }
        Instruction::Store { target, from, .. } => {
            *from < registers && is_target(&ir.shapes, registers, *target)
        }
        Instruction::New { to, kind, .. } => *to < registers && is_kind(&ir.shapes, *kind),
        Instruction::Free { from, kind, .. } => *from < registers && is_kind(&ir.shapes, *kind),
        Instruction::Call { to, function, args } => {
            *to < registers
                && are_below(args.as_slice(), registers)
                && takes(ir, *function, args.as_slice())
        }
        Instruction::Return { from } => *from < registers,
        Instruction::Tick => true,
        Instruction::Trap { .. } => true,
        Instruction::Log { target } => is_target(&ir.shapes, registers, *target),
    }
}

fn are_below(args: &[u32], registers: u32) -> bool
    ensures sound { result ≡ true → AllByRecursion (λ a. a < registers) args.now }
    ensures complete { AllByRecursion (λ a. a < registers) args.now → result ≡ true }
{
    for arg in args {
        if *arg >= registers {
            return false;
        }
    }
    true
}

/// Whether the function exists, and these are as many arguments as it takes.
fn takes(ir: &Ir, function: u32, args: &[u32]) -> bool
    ensures sound { result ≡ true → well.TakesArgs (slice_get ir.now.functions function) args.now }
    ensures complete { well.TakesArgs (slice_get ir.now.functions function) args.now
        → result ≡ true }
{
    match ir.functions.as_slice().get(function as usize) {
        None => false,
        Some(function) => args.len() == function.parameters as usize,
    }
}

fn is_kind(shapes: &Shapes, kind: u32) -> bool
    ensures sound { result ≡ true → well.IsKind shapes.now kind }
    ensures complete { well.IsKind shapes.now kind → result ≡ true }
{
    0 < kind && kind as usize <= shapes.structs.as_slice().len()
}

fn is_target(shapes: &Shapes, registers: u32, target: Target) -> bool
    ensures sound { result ≡ true → well.IsTarget shapes.now registers target }
    ensures complete { well.IsTarget shapes.now registers target → result ≡ true }
{
    match target {
        Target::Root { field, index } => match shapes.root.as_slice().get(field as usize) {
            None => false,
            Some(shape) => is_indexed(registers, shape, index),
        },
        Target::Field {
            base,
            kind,
            field,
            index,
        } => match field_of(shapes, kind, field) {
            None => false,
            Some(shape) => base < registers && is_indexed(registers, shape, index),
        },
    }
}

fn field_of(shapes: &Shapes, kind: u32, field: u32) -> Option<&FieldShape>
    ensures { option_map (λ f. f.now) result ≡ well.shape_field shapes.now kind field }
{
    if kind == 0 {
        return None;
    }
    match shapes.structs.as_slice().get(kind as usize - 1) {
        None => None,
        Some(shape) => shape.fields.as_slice().get(field as usize),
    }
}

/// Whether there is an index, in one of the registers, exactly if the field is an array.
fn is_indexed(registers: u32, field: &FieldShape, index: Option<u32>) -> bool
    ensures sound { result ≡ true → well.IsIndexed registers (Some field.now) index }
    ensures complete { well.IsIndexed registers (Some field.now) index → result ≡ true }
{
    match field.length {
        None => index.is_none(),
        Some(_) => match index {
            None => false,
            Some(index) => index < registers,
        },
    }
}
