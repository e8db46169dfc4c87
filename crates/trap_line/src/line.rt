//! The line at which a run stopped.

ghost use Rattle.std.specs.Prelude.{◌≡◌, IfOk, length, take, nat_le, not, map, option_map};
ghost use Rattle.std.specs.Prelude.{slice_get};
ghost use Rattle.std.specs.List.{filter};
ghost use Rattle.c_tree.specs.ItemTree.{function_tree};
ghost use Rattle.ir.specs.Moving as moving;
ghost use Rattle.trap_line.specs.Line as definitions;
ghost use Rattle.trap_line.specs.Line.{begun, unlogged, spot_at, spot_in};

use crate::functions::spots_of;
use crate::spot::Spot;
use c_tree::item::Function;
use c_types::{Program, Typed};
use codegen::places_of;
use ir::{Instruction, Ir, IrFunction};
use pm_machine::Stop;
use pool_layout::Sizes;
use pool_map::{Shapes, TrapKind};
use std::alloc::{AllocError, Global};

fn is_log(instruction: &Instruction) -> bool
    ensures { result ≡ moving.is_log instruction.now }
{
    match instruction {
        Instruction::Log { .. } => true,
        Instruction::Const { .. }
        | Instruction::Copy { .. }
        | Instruction::Bin { .. }
        | Instruction::Jump { .. }
        | Instruction::Branch { .. }
        | Instruction::Load { .. }
        | Instruction::Store { .. }
        | Instruction::New { .. }
        | Instruction::Free { .. }
        | Instruction::Call { .. }
        | Instruction::Return { .. }
        | Instruction::Tick
        | Instruction::Trap { .. } => false,
    }
}

/// How many instructions begin at a place or before it.
fn begun(places: &[u32], place: u64) -> usize
    ensures { result ≡ begun places.now place }
{
    places.iter().filter(|p| u64::from(**p) <= place).count()
}

/// The first instructions, or all if there are fewer.
#[tactic(auto, using(crate::proofs::Trees::found))]
fn front(code: &[Instruction], count: usize) -> &[Instruction]
    ensures { result.now ≡ take count code.now }
{
    if count < code.len() {
        &code[..count]
    } else {
        code
    }
}

/// How many of the first instructions are no logs.
fn unlogged(code: &[Instruction], count: usize) -> usize
    ensures { result ≡ unlogged code.now count }
{
    front(code, count).iter().filter(|i| !is_log(i)).count()
}

/// The tokens of the instruction in whose code a place is.
fn spot_at(spots: &[Spot], code: &[Instruction], places: &[u32], place: u64) -> Option<Spot>
    ensures { result ≡ spot_at spots.now code.now places.now place }
{
    let number = unlogged(code, begun(places, place)).saturating_sub(1);
    spots.get(number).copied()
}

/// The tokens of the instruction in whose code a place of this function is.
fn spot_in(
    alloc: Global,
    sizes: &Sizes,
    shapes: &Shapes,
    function: &Function,
    lowered: &IrFunction,
    place: u64,
) -> Result<Option<Spot>, AllocError>
    ensures { IfOk result (λ spot. spot ≡ spot_in sizes.now shapes.now (function_tree function.now)
        lowered.now place) }
{
    let spots = spots_of(alloc, function)?;
    let code = lowered.code.as_slice();
    let places = places_of(alloc, sizes, shapes, lowered.tx, code)?;
    Ok(spot_at(spots.as_slice(), code, &places, place))
}

/// The function of this number.
#[tactic(auto, using(crate::proofs::Trees::found))]
fn function_at<'a>(functions: &[&'a Function], number: usize) -> Option<&'a Function>
    ensures { option_map (λ f. function_tree f.now) result
        ≡ slice_get (map function_tree (map (λ f. f.now) functions.now)) number }
{
    match functions.get(number) {
        None => None,
        Some(function) => Some(*function),
    }
}

/// The line of a trap of this kind at a stop of the program's machine code, for a pool of these
/// sizes; `logged` is the program's code with its logs. None if there is no such place.
pub fn trap_line(
    alloc: Global,
    typed: &Typed,
    logged: &Ir,
    sizes: &Sizes,
    stop: Stop,
    kind: TrapKind,
) -> Result<Option<u64>, AllocError>
    ensures { IfOk result (λ line. line ≡ definitions.trap_line typed.now logged.now sizes.now stop
        kind) }
{
    let ast = typed.ast();
    let program = Program::new(alloc, ast.items())?;
    let number = stop.function as usize;
    let Some(function) = function_at(program.functions(), number) else {
        return Ok(None);
    };
    let Some(lowered) = logged.functions.get(number) else {
        return Ok(None);
    };
    match spot_in(alloc, sizes, &logged.shapes, function, lowered, stop.place)? {
        Some(spot) => Ok(Some(ast.line(spot.token(kind)))),
        None => Ok(None),
    }
}
