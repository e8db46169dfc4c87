//! Where the jumps of a program lead, so that the places before a place are found without going
//! through the code.

ghost use Rattle.std.specs.Prelude.{◌≡◌, IfOk, length};
ghost use Rattle.walk_maker.specs.inside.Jumps as lands;

use crate::table::write_at;
use ir::{Instruction, IrFunction};
use nvm_base::List;
use std::alloc::{AllocError, Global};

/// Where the jumps of a function lead, as far as the search needs it.
#[derive(Drop)]
pub(crate) struct Jumps {
    /// For each place a number: no jump that stands before it leads to the place.
    firsts: List<usize>,
    /// For each jump a number: between it and the jump no other jump leads to the same place.
    nexts: List<usize>,
}

/// What is known of the jumps of each function.
pub(crate) type AllJumps = List<Jumps>;

/// A number before which no jump of the function leads to the place.
pub(crate) fn first_jump(jumps: &AllJumps, function: u32, place: u32) -> usize
    ensures { result ≡ lands.first_in jumps.now function place }
{
    match jumps.get(function as usize) {
        None => 0,
        Some(jumps) => first_of(jumps, place),
    }
}

/// A number between which and a jump no other jump of the function leads to where the jump leads.
pub(crate) fn next_jump(jumps: &AllJumps, function: u32, jump: usize) -> usize
    ensures { result ≡ lands.next_in jumps.now function jump }
{
    match jumps.get(function as usize) {
        None => 0,
        Some(jumps) => next_of(jumps, jump),
    }
}

fn first_of(jumps: &Jumps, place: u32) -> usize
    ensures { result ≡ lands.first_jump jumps.now place }
{
    match jumps.firsts.get(place as usize) {
        None => 0,
        Some(first) => *first,
    }
}

fn next_of(jumps: &Jumps, jump: usize) -> usize
    ensures { result ≡ lands.next_jump jumps.now jump }
{
    match jumps.nexts.get(jump) {
        None => 0,
        Some(next) => *next,
    }
}

/// Where an instruction jumps to.
fn target_of(instruction: &Instruction) -> Option<u32>
    ensures { result ≡ lands.landing_of instruction.now }
{
    match instruction {
        Instruction::Jump { place } => Some(*place),
        Instruction::Branch { place, .. } => Some(*place),
        _ => None,
    }
}

/// Whether an instruction jumps to a place.
pub(crate) fn jumps_to(instruction: &Instruction, place: u32) -> bool
    ensures { result ≡ lands.jumps_to (lands.landing_of instruction.now) place }
{
    match target_of(instruction) {
        None => false,
        Some(target) => target == place,
    }
}

/// A list of `count` items, each this number.
fn filled(alloc: Global, count: usize, number: usize) -> Result<List<usize>, AllocError>
    ensures { IfOk result (λ numbers. length numbers ≡ count) }
{
    let mut numbers = List::new(alloc);
    for _ in 0..count {
        numbers.push(number)?;
    }
    Ok(numbers)
}

/// Notes where the instruction at a place leads. Those after it were noted before.
fn note(jumps: &mut Jumps, place: usize, instruction: &Instruction)
    ensures { jumps.new ≡ lands.noted (lands.landing_of instruction.now) place jumps.old }
{
    let Some(target) = target_of(instruction) else {
        return;
    };
    let first = first_of(jumps, target);
    write_at(&mut jumps.nexts, place, first);
    write_at(&mut jumps.firsts, target as usize, place);
}

/// The jumps of a function's code.
fn jumps_of(alloc: Global, code: &[Instruction]) -> Result<Jumps, AllocError>
    ensures { IfOk result (λ jumps. lands.AreJumps code.now jumps) }
{
    let mut jumps = Jumps {
        firsts: filled(alloc, code.len(), code.len())?,
        nexts: filled(alloc, code.len(), code.len())?,
    };
    for index in 0..code.len() {
        let place = code.len() - 1 - index;
        note(&mut jumps, place, &code[place]);
    }
    Ok(jumps)
}

/// The jumps of all functions.
pub(crate) fn all_jumps(alloc: Global, functions: &[IrFunction]) -> Result<AllJumps, AllocError>
    ensures { IfOk result (λ jumps. lands.AreAllJumps functions.now jumps) }
{
    let mut all = List::new(alloc);
    for function in functions {
        all.push(jumps_of(alloc, function.code.as_slice())?)?;
    }
    Ok(all)
}
