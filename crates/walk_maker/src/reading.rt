//! Pieces and walks, read out of the table.

ghost use Rattle.std.specs.Prelude.{◌≡◌, ◌++◌, true, length, OnOk, IfOk, option_copied, slice_get};
ghost use Rattle.walk_maker.specs.inside.Reading as reading;

use crate::table::{Entry, Link, entry_at, step_of};
use ir::{Fact as WalkFact, IrFunction};
use std::alloc::{AllocError, Global};
use walk_check::{Fact, Piece, Pieces, Step, StepList, begun};

/// The first fact of a piece whose walk has `fact` at the function's entry. It is `start` if each
/// walk has the fact there.
pub(crate) fn entry_fact(opens: bool, body: &IrFunction, fact: WalkFact) -> WalkFact
    ensures { result ≡ reading.entry_fact opens body.now fact }
{
    if begun(opens, body, fact) {
        WalkFact::Here
    } else {
        fact
    }
}

/// The number of the entry to which the walk goes on within the same function, if it does.
fn next_of(link: Link) -> Option<usize>
    ensures { result ≡ reading.next_of link }
{
    match link {
        Link::Next(next, _) => Some(next),
        Link::End | Link::Enter(_) => None,
    }
}

/// Appends the steps of a walk, from an entry on, up to the end of its piece.
fn push_steps(entries: &[Entry], number: usize, steps: &mut StepList) -> Result<(), AllocError>
    ensures { OnOk result (steps.new
        ≡ steps.old ++ reading.steps_of entries.now (length entries.now) number) }
{
    let mut at = number;
    for _ in 0..entries.len() {
        let entry = match entry_at(entries, at) {
            None => return Ok(()),
            Some(entry) => entry,
        };
        steps.push(step_of(entry))?;
        match next_of(entry.link) {
            None => return Ok(()),
            Some(next) => at = next,
        }
    }
    Ok(())
}

/// The number of the last entry of a walk that is in the same piece as this one.
#[tactic(auto, using(crate::proofs::Fuel::end_more))]
fn end_of(entries: &[Entry], number: usize) -> usize
    ensures { result ≡ reading.piece_end entries.now (length entries.now) number }
{
    let mut at = number;
    for _ in 0..entries.len() {
        match next_from(entries, at) {
            None => return at,
            Some(next) => at = next,
        }
    }
    at
}

fn next_from(entries: &[Entry], number: usize) -> Option<usize>
    ensures { result ≡ reading.next_from (slice_get entries.now number) }
{
    match entries.get(number) {
        None => None,
        Some(entry) => next_of(entry.link),
    }
}

/// The entry in the called function with which a walk goes on from a call.
fn entered_from(entries: &[Entry], number: usize) -> Option<usize>
    ensures { result ≡ reading.entered_from (slice_get entries.now number) }
{
    match entries.get(number) {
        Some(
            Entry {
                link: Link::Enter(next),
                ..
            },
        ) => Some(*next),
        _ => None,
    }
}

/// The piece of a walk that begins at an entry.
pub(crate) fn piece_of(
    alloc: Global,
    functions: &[IrFunction],
    entries: &[Entry],
    opens: bool,
    number: usize,
) -> Result<Piece, AllocError>
    ensures { IfOk result (λ piece.
        piece ≡ reading.piece_from functions.now entries.now opens number) }
{
    let mut steps = StepList::new(alloc);
    let Some(entry) = entries.get(number) else {
        return Ok(Piece { function: 0, steps });
    };
    if begins(functions, opens, *entry) {
        steps.push(Step {
            place: 0,
            fact: Fact::Start,
            through: None,
        })?;
    }
    push_steps(entries, number, &mut steps)?;
    Ok(Piece {
        function: entry.function,
        steps,
    })
}

/// Whether each walk that comes to an entry's function has the entry's fact at the function's
/// entry.
fn begins(functions: &[IrFunction], opens: bool, entry: Entry) -> bool
    ensures { result
        ≡ reading.has_at_entry opens entry.fact (slice_get functions.now entry.function) }
{
    match functions.get(entry.function as usize) {
        None => false,
        Some(body) => begun(opens, body, entry.fact),
    }
}

/// The pieces of the walk that begins at an entry, in their order.
pub(crate) fn pieces_of(
    alloc: Global,
    functions: &[IrFunction],
    entries: &[Entry],
    number: usize,
) -> Result<Pieces, AllocError>
    ensures { IfOk result (λ pieces. pieces
        ≡ reading.pieces_of functions.now entries.now (length entries.now) true number) }
{
    let mut pieces = Pieces::new(alloc);
    let mut opens = true;
    let mut at = number;
    for _ in 0..entries.len() {
        pieces.push(piece_of(alloc, functions, entries, opens, at)?)?;
        match entered_from(entries, end_of(entries, at)) {
            None => return Ok(pieces),
            Some(next) => at = next,
        }
        opens = false;
    }
    Ok(pieces)
}
