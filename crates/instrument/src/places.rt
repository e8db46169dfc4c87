//! The places of a function's instructions after its logs are added.

ghost use Rattle.std.specs.Prelude.{◌≡◌, ◌<◌, ◌≤◌, ◌+◌, ◌^◌, length, IfOk};
ghost use Rattle.instrument.specs.Insert.{logged_width, flag_at, flagged, flags_from, places_from};
ghost use Rattle.ir.specs.Moving.{place_in};

use clobber_pass::MarkTable;
use ir::{Instruction, Site};
use std::alloc::{AllocError, Global};

/// The flag of the instruction at this place.
pub(crate) fn flag_at(flags: &[bool], place: usize) -> bool
    ensures { result ≡ flag_at flags.now place }
{
    match flags.get(place) {
        Some(flag) => *flag,
        None => false,
    }
}

/// Whether the marks say that this instruction's store, or its fill, is logged.
fn flagged(marks: &MarkTable, function: u32, place: u32, instruction: &Instruction) -> bool
    ensures { result ≡ flagged marks.now function place instruction.now }
{
    match instruction {
        Instruction::Store { .. } => marks.logged(Site {
            function,
            place,
            fill: false,
        }),
        Instruction::New { .. } => marks.logged(Site {
            function,
            place,
            fill: true,
        }),
        _ => false,
    }
}

/// The flag of each instruction.
pub(crate) fn flags(
    alloc: Global,
    marks: &MarkTable,
    function: u32,
    code: &[Instruction],
) -> Result<Vec<bool>, AllocError>
    requires { length code.now < 2 ^ 31 }
    ensures { IfOk result (λ f. f.items ≡ flags_from marks.now function 0 code.now) }
{
    let mut flags = Vec::new(alloc);
    for (place, instruction) in code.iter().enumerate() {
        flags.push(flagged(marks, function, place as u32, instruction))?;
    }
    Ok(flags)
}

/// The number of places that an instruction with this flag takes with its log. A log that was in
/// the code before takes none.
pub(crate) fn width(flag: bool, instruction: &Instruction) -> u32
    ensures exact { result ≡ logged_width flag instruction.now }
    ensures few { result ≤ 2 }
{
    match instruction {
        Instruction::Log { .. } => 0,
        Instruction::Store { .. } if flag => 2,
        _ => 1,
    }
}

/// The new place of each instruction, and of the end.
pub(crate) fn places(
    alloc: Global,
    flags: &[bool],
    code: &[Instruction],
) -> Result<Vec<u32>, AllocError>
    requires { length code.now < 2 ^ 31 }
    ensures { IfOk result (λ p. p.items ≡ places_from flags.now 0 0 code.now) }
{
    let mut places = Vec::new(alloc);
    let mut at = 0u32;
    for (k, instruction) in code.iter().enumerate() {
        places.push(at)?;
        at += width(flag_at(flags, k), instruction);
    }
    places.push(at)?;
    Ok(places)
}

/// The new target of a jump to this place.
pub(crate) fn place_in(places: &[u32], place: u32) -> u32
    ensures { result ≡ place_in places.now place }
{
    match places.get(place as usize) {
        Some(place) => *place,
        None => u32::MAX,
    }
}
