//! What walks from transactions bring to each function's entry, and to each place.

ghost use Rattle.std.specs.Prelude.{◌≡◌, ◌<◌, ◌≤◌, ◌+◌, ◌^◌, ℕ, List, length, true, false, Some};
ghost use Rattle.std.specs.Prelude.{slice_get, slice_set, Ok, IfOk, OnOk};
ghost use Rattle.ir.specs.declared.function.IrFunction.{IrFunction};
ghost use Rattle.ir.specs.WellFormed.{IsWellFormed};
ghost use Rattle.clobber_pass.specs.inside.Told.{registers_at};
ghost use Rattle.clobber_pass.specs.Sweep as sweeps;
ghost use Rattle.clobber_pass.specs.inside.Sweep as inside_sweeps;
ghost use Rattle.clobber_pass.specs.inside.Room.{room};
ghost use Rattle.clobber_pass.specs.inside.Sound.{SoundExits};
ghost use Rattle.clobber_pass.specs.inside.Flow as flows;
ghost use Rattle.clobber_pass.specs.inside.Flow.{AllFlow, Entries, FlowEnded, Flowing, Wakes};
ghost use Rattle.clobber_pass.specs.inside.Flow.{waits, ShapedEntries, SoundEntries, StartEntries};
ghost use Rattle.clobber_pass.specs.inside.Flow.{StartsAt};

use crate::entry::{entry_row, width};
use crate::row::word;
use crate::rows::{Rows, copied};
use crate::sweep::{advance, run};
use crate::tables::Tables;
use crate::topic::Topic;
use crate::waiting::{waiting_at, wake};
use ir::{Instruction, Ir, IrFunction};
use std::alloc::{AllocError, Global};

/// The number of registers of a function.
fn registers_at(functions: &[IrFunction], function: usize) -> u32
    ensures { result ≡ registers_at functions.now function }
{
    match functions.get(function) {
        Some(body) => body.registers,
        None => 0,
    }
}

/// What a register has at a called function's entry: a parameter what its argument has, any other
/// what the walk's start has.
fn argument_word(row: &[u16], argument: Option<u32>) -> u16
    ensures { result ≡ flows.argument_word row.now argument }
{
    match argument {
        Some(register) => word(row, register as usize + 2),
        None => word(row, 0),
    }
}

/// The word of a slot at a called function's entry.
fn enter_word(args: &[u32], row: &[u16], slot: usize) -> u16
    ensures { result ≡ flows.enter_word args.now row.now slot }
{
    if slot < 2 {
        word(row, slot)
    } else {
        argument_word(row, args.get(slot - 2).copied())
    }
}

/// The row at a called function's entry.
fn enter_row(
    alloc: Global,
    topic: Topic<'_>,
    registers: u32,
    args: &[u32],
    row: &[u16],
) -> Result<Vec<u16>, AllocError>
    ensures { IfOk result (λ new. new.items ≡ flows.enter_row topic.entry registers args.now
        row.now) }
{
    let mut new = Vec::new(alloc);
    for slot in 0..width(topic, registers) {
        new.push(enter_word(args, row, slot))?;
    }
    Ok(new)
}

/// Joins a row to that of a function's entry. If that grew, the function has to be swept again.
/// Returns whether it grew.
#[tactic(auto, using(crate::proofs::Waking::waking))]
fn bring(
    alloc: Global,
    function: usize,
    row: &[u16],
    entries: &mut Rows,
    waiting: &mut [bool],
) -> Result<bool, AllocError>
    ensures entries { IfOk result (λ _. entries.new ≡ inside_sweeps.join_in entries.old function
        row.now) }
    ensures same { result ≡ Ok false → (entries.new ≡ entries.old) × (waiting.new ≡ waiting.old) }
    ensures wakes { IfOk result (λ _. Wakes waiting.old waiting.new entries.old entries.new) }
    ensures grew { result ≡ Ok true → room entries.new < room entries.old }
    ensures room { IfOk result (λ _. room entries.new ≤ room entries.old) }
{
    if entries.join(alloc, function, row)? {
        wake(waiting, function);
        return Ok(true);
    }
    Ok(false)
}

/// Joins the row at a call to the called function's entry.
#[tactic(auto, using(crate::proofs::Waking::waking))]
fn enter(
    alloc: Global,
    ir: &Ir,
    topic: Topic<'_>,
    instruction: &Instruction,
    row: &[u16],
    entries: &mut Rows,
    waiting: &mut [bool],
) -> Result<bool, AllocError>
    ensures entries { IfOk result (λ _. entries.new ≡ flows.entries_after_call ir.now.functions
        topic.entry entries.old instruction.now row.now) }
    ensures same { result ≡ Ok false → (entries.new ≡ entries.old) × (waiting.new ≡ waiting.old) }
    ensures wakes { IfOk result (λ _. Wakes waiting.old waiting.new entries.old entries.new) }
    ensures grew { result ≡ Ok true → room entries.new < room entries.old }
    ensures room { IfOk result (λ _. room entries.new ≤ room entries.old) }
{
    match instruction {
        Instruction::Call { function, args, .. } => {
            let called = *function as usize;
            let registers = registers_at(ir.functions.as_slice(), called);
            let new = enter_row(alloc, topic, registers, args.as_slice(), row)?;
            bring(alloc, called, &new, entries, waiting)
        }
        _ => Ok(false),
    }
}

/// Does the calls at one place, when the rows don't change any more.
fn enter_at(
    alloc: Global,
    ir: &Ir,
    topic: Topic<'_>,
    exits: &Tables,
    rows: &Rows,
    place: usize,
    instruction: &Instruction,
    row: &mut Vec<u16>,
    entries: &mut Rows,
    waiting: &mut [bool],
) -> Result<bool, AllocError>
    ensures entries { IfOk result (λ _. entries.new ≡ flows.entries_after_call ir.now.functions
        topic.entry entries.old instruction.now
        (inside_sweeps.row_or (sweeps.row_in rows.now place) row.old.items)) }
    ensures row { IfOk result (λ _. row.new.items ≡ inside_sweeps.next_row topic.entry exits.now
        instruction.now (inside_sweeps.row_or (sweeps.row_in rows.now place) row.old.items)) }
    ensures same { result ≡ Ok false → (entries.new ≡ entries.old) × (waiting.new ≡ waiting.old) }
    ensures wakes { IfOk result (λ _. Wakes waiting.old waiting.new entries.old entries.new) }
    ensures grew { result ≡ Ok true → room entries.new < room entries.old }
    ensures room { IfOk result (λ _. room entries.new ≤ room entries.old) }
{
    rows.take(place, row)?;
    let grew = enter(alloc, ir, topic, instruction, row, entries, waiting)?;
    advance(alloc, topic, exits, instruction, row)?;
    Ok(grew)
}

/// Joins the rows at all calls in a function to the entries of the functions that they call.
#[tactic(auto, using(crate::proofs::Waking::waking))]
fn enter_all(
    alloc: Global,
    ir: &Ir,
    topic: Topic<'_>,
    exits: &Tables,
    rows: &Rows,
    entry: &[u16],
    code: &[Instruction],
    entries: &mut Rows,
    waiting: &mut [bool],
) -> Result<bool, AllocError>
    ensures entries { IfOk result (λ _. entries.new ≡ flows.entries_after_calls ir.now.functions
        topic.entry exits.now rows.now entries.old entry.now 0 code.now) }
    ensures same { result ≡ Ok false → (entries.new ≡ entries.old) × (waiting.new ≡ waiting.old) }
    ensures wakes { IfOk result (λ _. Wakes waiting.old waiting.new entries.old entries.new) }
    ensures grew { result ≡ Ok true → room entries.new < room entries.old }
    ensures room { IfOk result (λ _. room entries.new ≤ room entries.old) }
{
    let mut row = copied(alloc, entry)?;
    let mut grew = false;
    for (place, instruction) in code.iter().enumerate() {
        if enter_at(
            alloc,
            ir,
            topic,
            exits,
            rows,
            place,
            instruction,
            &mut row,
            entries,
            waiting,
        )? {
            grew = true;
        }
    }
    Ok(grew)
}

/// The row at a function's entry. If no walk came there yet, a row that makes nothing known.
pub fn at_entry(
    alloc: Global,
    topic: Topic<'_>,
    registers: u32,
    row: &[u16],
) -> Result<Vec<u16>, AllocError>
    ensures { IfOk result (λ new. new.items ≡ flows.at_entry topic.entry registers row.now) }
{
    if row.is_empty() {
        enter_row(alloc, topic, registers, &[], &[])
    } else {
        copied(alloc, row)
    }
}

/// Sweeps a function from the row at its entry, and joins what its calls bring to the called
/// functions' entries. Returns whether any of these grew.
fn flow_through(
    alloc: Global,
    ir: &Ir,
    topic: Topic<'_>,
    exits: &Tables,
    function: usize,
    entries: &mut Rows,
    tables: &mut Tables,
    waiting: &mut [bool],
) -> Result<bool, AllocError>
    requires well { IsWellFormed ir.now }
    requires exits { SoundExits ir.now.functions topic exits.now }
    requires inside { function < length ir.now.functions }
    requires flow { Flowing ir.now.functions topic exits.now entries.old tables.old waiting.old }
    ensures flow { IfOk result (λ _. Flowing ir.now.functions topic.entry exits.now entries.new
        tables.new waiting.new) }
    ensures quiet { result ≡ Ok false → waiting.new ≡ slice_set waiting.old function false }
    ensures grew { result ≡ Ok true → room entries.new < room entries.old }
    ensures room { IfOk result (λ _. room entries.new ≤ room entries.old) }
{
    let body = &ir.functions.as_slice()[function];
    let code = body.code.as_slice();
    let entry = at_entry(alloc, topic, body.registers, entries.row(function))?;
    let rows = run(alloc, topic, exits, code, &entry)?;
    waiting[function] = false;
    let grew = enter_all(
        alloc, ir, topic, exits, &rows, &entry, code, entries, waiting,
    )?;
    tables.set(function, rows);
    Ok(grew)
}

/// The same, if the function has to be swept again.
#[tactic(auto, using(crate::proofs::Waking::settling))]
fn flow_where(
    alloc: Global,
    ir: &Ir,
    topic: Topic<'_>,
    exits: &Tables,
    function: usize,
    entries: &mut Rows,
    tables: &mut Tables,
    waiting: &mut [bool],
) -> Result<bool, AllocError>
    requires well { IsWellFormed ir.now }
    requires exits { SoundExits ir.now.functions topic exits.now }
    requires inside { function < length ir.now.functions }
    requires flow { Flowing ir.now.functions topic exits.now entries.old tables.old waiting.old }
    ensures flow { IfOk result (λ _. Flowing ir.now.functions topic.entry exits.now entries.new
        tables.new waiting.new) }
    ensures quiet { result ≡ Ok false → (waits waiting.new function ≡ false)
        × ((f : ℕ) → waits waiting.old f ≡ false → waits waiting.new f ≡ false) }
    ensures grew { result ≡ Ok true → room entries.new < room entries.old }
    ensures room { IfOk result (λ _. room entries.new ≤ room entries.old) }
{
    if !waiting[function] {
        return Ok(false);
    }
    flow_through(alloc, ir, topic, exits, function, entries, tables, waiting)
}

/// The same, if there is a function of this number.
fn flow_in(
    alloc: Global,
    ir: &Ir,
    topic: Topic<'_>,
    exits: &Tables,
    function: usize,
    entries: &mut Rows,
    tables: &mut Tables,
    waiting: &mut [bool],
) -> Result<(), AllocError>
    requires well { IsWellFormed ir.now }
    requires exits { SoundExits ir.now.functions topic exits.now }
    requires flow { Flowing ir.now.functions topic exits.now entries.old tables.old waiting.old }
    ensures flow { OnOk result (Flowing ir.now.functions topic.entry exits.now entries.new
        tables.new waiting.new) }
    ensures room { OnOk result (room entries.new ≤ room entries.old) }
{
    if function >= ir.functions.as_slice().len() {
        return Ok(());
    }
    flow_where(alloc, ir, topic, exits, function, entries, tables, waiting)?;
    Ok(())
}

/// The same for the functions of a list, from the last on: so a caller comes before what it calls.
fn flow_along(
    alloc: Global,
    ir: &Ir,
    topic: Topic<'_>,
    exits: &Tables,
    order: &[usize],
    entries: &mut Rows,
    tables: &mut Tables,
    waiting: &mut [bool],
) -> Result<(), AllocError>
    requires well { IsWellFormed ir.now }
    requires exits { SoundExits ir.now.functions topic exits.now }
    requires flow { Flowing ir.now.functions topic exits.now entries.old tables.old waiting.old }
    ensures flow { OnOk result (Flowing ir.now.functions topic.entry exits.now entries.new
        tables.new waiting.new) }
    ensures room { OnOk result (room entries.new ≤ room entries.old) }
{
    for index in 0..order.len() {
        let function = order[order.len() - 1 - index];
        flow_in(alloc, ir, topic, exits, function, entries, tables, waiting)?;
    }
    Ok(())
}

/// The same for each function.
fn flow_round(
    alloc: Global,
    ir: &Ir,
    topic: Topic<'_>,
    exits: &Tables,
    entries: &mut Rows,
    tables: &mut Tables,
    waiting: &mut [bool],
) -> Result<bool, AllocError>
    requires well { IsWellFormed ir.now }
    requires exits { SoundExits ir.now.functions topic exits.now }
    requires flow { Flowing ir.now.functions topic exits.now entries.old tables.old waiting.old }
    ensures flow { IfOk result (λ _. Flowing ir.now.functions topic.entry exits.now entries.new
        tables.new waiting.new) }
    ensures quiet { result ≡ Ok false → (f : ℕ) → f < length ir.now.functions
        → waits waiting.new f ≡ false }
    ensures grew { result ≡ Ok true → room entries.new < room entries.old }
    ensures room { IfOk result (λ _. room entries.new ≤ room entries.old) }
{
    let mut grew = false;
    for function in 0..ir.functions.as_slice().len() {
        if flow_where(alloc, ir, topic, exits, function, entries, tables, waiting)? {
            grew = true;
        }
    }
    Ok(grew)
}

/// The same, after the functions that have to be swept again were swept in the order of the list.
fn ordered_flow(
    alloc: Global,
    ir: &Ir,
    topic: Topic<'_>,
    exits: &Tables,
    order: &[usize],
    entries: &mut Rows,
    tables: &mut Tables,
    waiting: &mut [bool],
) -> Result<bool, AllocError>
    requires well { IsWellFormed ir.now }
    requires exits { SoundExits ir.now.functions topic exits.now }
    requires flow { Flowing ir.now.functions topic exits.now entries.old tables.old waiting.old }
    ensures flow { IfOk result (λ _. Flowing ir.now.functions topic.entry exits.now entries.new
        tables.new waiting.new) }
    ensures quiet { result ≡ Ok false → (f : ℕ) → f < length ir.now.functions
        → waits waiting.new f ≡ false }
    ensures grew { result ≡ Ok true → room entries.new < room entries.old }
    ensures room { IfOk result (λ _. room entries.new ≤ room entries.old) }
{
    flow_along(alloc, ir, topic, exits, order, entries, tables, waiting)?;
    flow_round(alloc, ir, topic, exits, entries, tables, waiting)
}

/// Gives the entry of a transaction the row of a walk that begins there.
fn start_at(
    alloc: Global,
    ir: &Ir,
    topic: Topic<'_>,
    function: usize,
    entries: &mut Rows,
) -> Result<(), AllocError>
    requires entries { Entries ir.now.functions topic entries.old }
    requires inside { function < length ir.now.functions }
    ensures entries { OnOk result (Entries ir.now.functions topic.entry entries.new) }
    ensures kept { OnOk result ((f : ℕ) → StartsAt ir.now.functions topic.entry entries.old f
        → StartsAt ir.now.functions topic.entry entries.new f) }
    ensures start { OnOk result (StartsAt ir.now.functions topic.entry entries.new function) }
{
    let body = &ir.functions.as_slice()[function];
    if body.tx {
        let row = entry_row(alloc, topic, 0, body.registers, 0)?;
        entries.join(alloc, function, &row)?;
    }
    Ok(())
}

/// The rows at the functions' entries before any call is looked at.
fn starts(alloc: Global, ir: &Ir, topic: Topic<'_>) -> Result<Rows, AllocError>
    ensures entries { IfOk result (λ entries. Entries ir.now.functions topic.entry entries) }
    ensures start { IfOk result (λ entries. StartEntries ir.now.functions topic.entry entries) }
{
    let count = ir.functions.as_slice().len();
    let mut entries = Rows::new(alloc, count)?;
    for function in 0..count {
        start_at(alloc, ir, topic, function, &mut entries)?;
    }
    Ok(entries)
}

/// What all walks bring: the row at each function's entry, and the rows of each function's places.
#[derive(Drop)]
pub struct Flow {
    pub entries: Rows,
    pub tables: Tables,
}

/// What walks from transactions bring to each place, for the fields of one topic.
pub fn flows(
    alloc: Global,
    ir: &Ir,
    topic: Topic<'_>,
    exits: &Tables,
    order: &[usize],
) -> Result<Flow, AllocError>
    requires well { IsWellFormed ir.now }
    requires exits { SoundExits ir.now.functions topic exits.now }
    ensures entries { IfOk result (λ flow. Entries ir.now.functions topic.entry flow.entries) }
    ensures start { IfOk result (λ flow. StartEntries ir.now.functions topic.entry flow.entries) }
    ensures ended { IfOk result (λ flow. AllFlow ir.now.functions topic.entry exits.now flow.entries
        flow.tables) }
{
    let mut entries = starts(alloc, ir, topic)?;
    let count = ir.functions.as_slice().len();
    let mut tables = Tables::blank(alloc, count)?;
    let mut waiting = waiting_at(alloc, &entries, count)?;
    while ordered_flow(
        alloc,
        ir,
        topic,
        exits,
        order,
        &mut entries,
        &mut tables,
        &mut waiting,
    )? {}
    Ok(Flow { entries, tables })
}
