//! The search: the table is swept until a transaction's entry is met, or nothing is found any more.

ghost use Rattle.std.specs.Prelude.{◌≡◌, OnOk, IfOk, position, slice_get};
ghost use Rattle.ir.specs.WellFormed.{IsWellFormed};
ghost use Rattle.walk_maker.specs.inside.Jumps.{AreAllJumps};
ghost use Rattle.walk_maker.specs.inside.Search as search;

use crate::expand::{Later, try_all_before, try_callers};
use crate::jumps::AllJumps;
use crate::reading::{entry_fact, piece_of};
use crate::table::{Aim, Entry, Table, entry_at, make_room};
use ir::{Fact as WalkFact, Ir, IrFunction};
use std::alloc::{AllocError, Global};
use walk_check::{Piece, Pieces, first_fact, last_fact, same};

/// Whether the function has a piece of a walk from the one fact to the other.
fn is_known(passed: &[Piece], function: u32, first: WalkFact, last: WalkFact) -> bool
    ensures { result ≡ search.is_known passed.now function first last }
{
    passed
        .iter()
        .any(|piece| goes_from(piece, function, first, last))
}

fn goes_from(piece: &Piece, function: u32, first: WalkFact, last: WalkFact) -> bool
    ensures { result ≡ search.goes_from function first last piece.now }
{
    piece.function == function && (same(first_fact(piece), first) && same(last_fact(piece), last))
}

/// Adds the piece that begins at an entry, unless one with the same first and last fact is there.
fn add_piece(
    alloc: Global,
    ir: &Ir,
    body: &IrFunction,
    later: Later,
    exit: WalkFact,
    table: &[Entry],
    passed: &mut Pieces,
) -> Result<(), AllocError>
    ensures { OnOk result (passed.new
        ≡ search.piece_added ir.now body.now later exit table.now passed.old) }
{
    let function = later.entry.function;
    let first = entry_fact(false, body, later.entry.fact);
    if is_known(passed.as_slice(), function, first, exit) {
        return Ok(());
    }
    let piece = piece_of(alloc, ir.functions.as_slice(), table, false, later.number)?;
    passed.push(piece)
}

/// At a function's entry: adds the calls by which a walk comes there, or the piece of a walk that
/// is now complete.
fn try_entry(
    alloc: Global,
    ir: &Ir,
    body: &IrFunction,
    later: Later,
    table: &mut Table,
    passed: &mut Pieces,
) -> Result<(), AllocError>
    requires { IsWellFormed ir.now }
    ensures table { OnOk result (table.new ≡ search.entry_table ir.now body.now later table.old) }
    ensures passed { OnOk result (passed.new
        ≡ search.entry_passed ir.now body.now later table.old passed.old) }
{
    if later.entry.place != 0 {
        return Ok(());
    }
    match later.entry.aim {
        Aim::ToSite => try_callers(ir, body, later, table),
        Aim::ToReturn(exit) => add_piece(alloc, ir, body, later, exit, table.as_slice(), passed),
    }
}

/// Adds each entry from which a walk goes on to this one.
pub(crate) fn expand(
    alloc: Global,
    ir: &Ir,
    jumps: &AllJumps,
    later: Later,
    table: &mut Table,
    passed: &mut Pieces,
) -> Result<(), AllocError>
    requires well { IsWellFormed ir.now }
    requires jumps { AreAllJumps ir.now.functions jumps.now }
    ensures { OnOk result (search.state table.new passed.new
        ≡ search.expanded ir.now later (search.state table.old passed.old)) }
{
    let Some(body) = ir.functions.as_slice().get(later.entry.function as usize) else {
        return Ok(());
    };
    make_room(alloc, table)?;
    try_all_before(ir, jumps, passed.as_slice(), body, later, table)?;
    try_entry(alloc, ir, body, later, table, passed)
}

/// Looks once at each entry of the table, those that are added meanwhile too. A table that
/// outgrows memory counts as want of memory.
fn sweep(
    alloc: Global,
    ir: &Ir,
    jumps: &AllJumps,
    table: &mut Table,
    passed: &mut Pieces,
) -> Result<(), AllocError>
    requires well { IsWellFormed ir.now }
    requires jumps { AreAllJumps ir.now.functions jumps.now }
    ensures { OnOk result (search.Swept ir.now 0 (search.state table.old passed.old)
        (search.state table.new passed.new)) }
{
    for number in 0..usize::MAX {
        let entry = match entry_at(table.as_slice(), number) {
            None => return Ok(()),
            Some(entry) => entry,
        };
        expand(alloc, ir, jumps, Later { number, entry }, table, passed)?;
    }
    Err(AllocError)
}

/// Looks at each entry in turn until one is at the entry of a transaction. So a short walk is
/// found before the rest is looked at.
fn seek(
    alloc: Global,
    ir: &Ir,
    jumps: &AllJumps,
    table: &mut Table,
    passed: &mut Pieces,
) -> Result<(), AllocError>
    requires well { IsWellFormed ir.now }
    requires jumps { AreAllJumps ir.now.functions jumps.now }
    ensures { OnOk result (search.Stopped ir.now 0 (search.state table.old passed.old)
        (search.state table.new passed.new)) }
{
    for number in 0..usize::MAX {
        let entry = match entry_at(table.as_slice(), number) {
            None => return Ok(()),
            Some(entry) => entry,
        };
        if is_start(ir.functions.as_slice(), entry) {
            return Ok(());
        }
        expand(alloc, ir, jumps, Later { number, entry }, table, passed)?;
    }
    Err(AllocError)
}

fn starts_in(functions: &[IrFunction], entry: Entry) -> bool
    ensures { result ≡ search.starts_in entry.fact (slice_get functions.now entry.function) }
{
    match functions.get(entry.function as usize) {
        None => false,
        Some(body) => body.tx && same(entry_fact(true, body, entry.fact), WalkFact::Here),
    }
}

/// Whether a walk from a transaction's entry begins at an entry.
pub(crate) fn is_start(functions: &[IrFunction], entry: Entry) -> bool
    ensures { result ≡ search.is_start functions.now entry }
{
    match entry.aim {
        Aim::ToSite => entry.place == 0 && starts_in(functions, entry),
        Aim::ToReturn(_) => false,
    }
}

/// The number of the first entry that is at a transaction's entry.
fn first_start(functions: &[IrFunction], table: &[Entry]) -> Option<usize>
    ensures { result ≡ position (search.is_start functions.now) table.now }
{
    table.iter().position(|entry| is_start(functions, *entry))
}

/// Looks at the table again and again, until an entry is at a transaction's entry or nothing new
/// is added. More rounds than there can be entries count as want of memory.
fn sweep_on(
    alloc: Global,
    ir: &Ir,
    jumps: &AllJumps,
    table: &mut Table,
    passed: &mut Pieces,
) -> Result<Option<usize>, AllocError>
    requires well { IsWellFormed ir.now }
    requires jumps { AreAllJumps ir.now.functions jumps.now }
    ensures { IfOk result (λ found. search.Searched ir.now (search.state table.old passed.old)
        found (search.state table.new passed.new)) }
{
    for _ in 0..usize::MAX {
        if let Some(number) = first_start(ir.functions.as_slice(), table.as_slice()) {
            return Ok(Some(number));
        }
        let entries = table.as_slice().len();
        let pieces = passed.as_slice().len();
        sweep(alloc, ir, jumps, table, passed)?;
        if table.as_slice().len() == entries && passed.as_slice().len() == pieces {
            return Ok(None);
        }
    }
    Err(AllocError)
}

/// The number of an entry that is at a transaction's entry, if there is one. If there is none, the
/// table has every entry that leads to the site.
pub(crate) fn find_start(
    alloc: Global,
    ir: &Ir,
    jumps: &AllJumps,
    table: &mut Table,
    passed: &mut Pieces,
) -> Result<Option<usize>, AllocError>
    requires well { IsWellFormed ir.now }
    requires jumps { AreAllJumps ir.now.functions jumps.now }
    ensures { IfOk result (λ found. search.Searched ir.now (search.state table.old passed.old)
        found (search.state table.new passed.new)) }
{
    seek(alloc, ir, jumps, table, passed)?;
    sweep_on(alloc, ir, jumps, table, passed)
}
