//! All walks through a program, about one class of fields, by a search from the transactions.
//!
//! A walk's spot has a list of open calls. Here a spot has what was kept at the entry of the call
//! that was entered last, and the calls below it are left out. Until its return a walk doesn't look
//! at them, so walks that enter a function with the same things kept go on alike, whatever calls
//! are open; and a return goes back to each call that enters the function so. So a spot is reached
//! here exactly where a walk of the definition reaches it, with any number of calls open. A bound
//! of four open calls would miss sites of the drawn programs.

use crate::kept::{AT_START, Class, Kept, after, entered, given_back};
use ir::{Instruction, IrFunction};
use std::alloc::{AllocError, Global};

/// Where a walk is, what was kept at the entry of its function, and what it keeps.
#[derive(Clone, Copy, Debug, PartialEq, Eq)]
pub struct Spot {
    pub function: u32,
    pub place: u32,
    pub entry: Kept,
    pub kept: Kept,
}

/// More spots than any of the programs has.
const MOST: usize = 100_000;

pub fn instruction_at(functions: &[IrFunction], function: u32, place: u32) -> Option<&Instruction> {
    match functions.get(function as usize) {
        None => None,
        Some(body) => body.code.as_slice().get(place as usize),
    }
}

/// Whether a spot was reached already.
fn has(spots: &[Spot], spot: Spot) -> bool {
    for other in spots {
        if *other == spot {
            return true;
        }
    }
    false
}

fn reach(spots: &mut Vec<Spot>, spot: Spot) -> Result<(), AllocError> {
    if !has(spots, spot) {
        spots.push(spot)?;
    }
    Ok(())
}

/// The same walk at a place of its function.
fn go(spots: &mut Vec<Spot>, spot: Spot, place: u32, kept: Kept) -> Result<(), AllocError> {
    let mut new = spot;
    new.place = place;
    new.kept = kept;
    reach(spots, new)
}

/// One spot at a call and one in the called function: where the second is at a return, and was
/// entered as the first enters it, the walk goes on after the call.
fn come_back(
    functions: &[IrFunction],
    spots: &mut Vec<Spot>,
    call: Spot,
    end: Spot,
) -> Result<(), AllocError> {
    let Some(Instruction::Call { to, function, args }) = instruction_at(
        functions,
        call.function,
        call.place,
    ) else {
        return Ok(());
    };
    let Some(Instruction::Return { .. }) = instruction_at(functions, end.function, end.place) else {
        return Ok(());
    };
    let args = args.as_slice();
    if *function != end.function || entered(args, call.kept) != end.entry {
        return Ok(());
    }
    let kept = given_back(*to, args, call.kept, end.kept);
    go(spots, call, call.place.saturating_add(1), kept)
}

/// Enters a function, and comes back from each of its returns that was reached.
fn enter(
    functions: &[IrFunction],
    spots: &mut Vec<Spot>,
    spot: Spot,
    function: u32,
    args: &[u32],
) -> Result<(), AllocError> {
    let kept = entered(args, spot.kept);
    reach(
        spots,
        Spot {
            function,
            place: 0,
            entry: kept,
            kept,
        },
    )?;
    for index in 0..spots.len() {
        if let Some(end) = spots.get(index).copied() {
            come_back(functions, spots, spot, end)?;
        }
    }
    Ok(())
}

/// Returns to each call that was reached.
fn leave(functions: &[IrFunction], spots: &mut Vec<Spot>, spot: Spot) -> Result<(), AllocError> {
    for index in 0..spots.len() {
        if let Some(call) = spots.get(index).copied() {
            come_back(functions, spots, call, spot)?;
        }
    }
    Ok(())
}

/// Each step of a walk from a spot.
fn step(
    functions: &[IrFunction],
    class: Class,
    spots: &mut Vec<Spot>,
    spot: Spot,
) -> Result<(), AllocError> {
    let Some(instruction) = instruction_at(functions, spot.function, spot.place) else {
        return Ok(());
    };
    let next = spot.place.saturating_add(1);
    match instruction {
        Instruction::Call { function, args, .. } => {
            enter(functions, spots, spot, *function, args.as_slice())
        }
        Instruction::Return { .. } => leave(functions, spots, spot),
        Instruction::Trap { .. } => Ok(()),
        Instruction::Jump { place } => go(spots, spot, *place, spot.kept),
        Instruction::Branch { place, .. } => {
            go(spots, spot, next, spot.kept)?;
            go(spots, spot, *place, spot.kept)
        }
        _ => go(spots, spot, next, after(class, instruction, spot.kept)),
    }
}

/// Each transaction's entry, with nothing known.
fn begin(functions: &[IrFunction], spots: &mut Vec<Spot>) -> Result<(), AllocError> {
    let mut number: u32 = 0;
    for body in functions {
        if body.tx {
            reach(
                spots,
                Spot {
                    function: number,
                    place: 0,
                    entry: AT_START,
                    kept: AT_START,
                },
            )?;
        }
        number = number.saturating_add(1);
    }
    Ok(())
}

/// All spots that walks reach. There is none where they are too many, so that a search that isn't
/// whole is no answer.
pub fn walks(
    alloc: Global,
    functions: &[IrFunction],
    class: Class,
) -> Result<Option<Vec<Spot>>, AllocError> {
    let mut spots = Vec::new(alloc);
    begin(functions, &mut spots)?;
    for index in 0..MOST {
        let Some(spot) = spots.get(index).copied() else {
            return Ok(Some(spots));
        };
        step(functions, class, &mut spots, spot)?;
    }
    Ok(None)
}
