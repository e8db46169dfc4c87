//! The table of marks.

ghost use Rattle.std.specs.Prelude.{◌≡◌, ◌<◌, ◌≤◌, ◌^◌, ℕ, true, false, length, IfOk, OnOk};
ghost use Rattle.ir.specs.WellFormed.{IsWellFormed};
ghost use Rattle.clobber_pass.specs.Row.{has_bit};
ghost use Rattle.clobber_pass.specs.Sweep as sweeps;
ghost use Rattle.clobber_pass.specs.inside.Sweep as inside_sweeps;
ghost use Rattle.clobber_pass.specs.inside.Calling.{CalledEnded, edges_from};
ghost use Rattle.clobber_pass.specs.inside.Sound.{SoundExits};
ghost use Rattle.clobber_pass.specs.inside.Flow.{AllFlow, Entries, StartEntries};
ghost use Rattle.clobber_pass.specs.inside.Marking.{AllMarked, Headers, KeepsRows, Marked, Marks};
ghost use Rattle.clobber_pass.specs.inside.Marking.{headers_of, marks_from};

use crate::calling::Edge;
use crate::flow::{Flow, at_entry, flows};
use crate::passes::passes;
use crate::place_marks::{headers, mark_row};
use crate::rows::Rows;
use crate::tables::Tables;
use crate::topic::Topic;
use ir::{Instruction, Ir, IrFunction};
use std::alloc::{AllocError, Global};

/// The marks of the stores to headers.
pub fn header_table(alloc: Global, functions: &[IrFunction]) -> Result<Rows, AllocError>
    ensures { IfOk result (λ table. table ≡ headers_of functions.now) }
{
    let mut table = Rows::empty(alloc);
    for body in functions {
        table.push(headers(alloc, body.code.as_slice())?)?;
    }
    Ok(table)
}

/// The marks of a function's places for a topic, from the table of its rows.
fn function_row(
    alloc: Global,
    topic: Topic<'_>,
    exits: &Tables,
    tables: &Tables,
    function: usize,
    entry: &[u16],
    code: &[Instruction],
) -> Result<Vec<u16>, AllocError>
    ensures { IfOk result (λ marks.
        marks.items ≡ marks_from topic.entry exits.now (inside_sweeps.exits_of tables.now function)
        entry.now 0 code.now) }
{
    match tables.table(function) {
        Some(rows) => mark_row(alloc, topic, exits, rows, entry, code),
        None => mark_row(alloc, topic, exits, &Rows::empty(alloc), entry, code),
    }
}

/// Marks for a topic a function whose entry has a row.
fn mark_reached(
    alloc: Global,
    ir: &Ir,
    topic: Topic<'_>,
    exits: &Tables,
    flow: &Flow,
    function: usize,
    table: &mut Rows,
) -> Result<(), AllocError>
    requires well { IsWellFormed ir.now }
    requires inside { function < length ir.now.functions }
    requires reached { 0 < length (sweeps.row_in flow.now.entries function) }
    requires exits { SoundExits ir.now.functions topic exits.now }
    requires ended { CalledEnded ir.now.functions topic exits.now }
    requires entries { Entries ir.now.functions topic flow.now.entries }
    requires start { StartEntries ir.now.functions topic flow.now.entries }
    requires flow { AllFlow ir.now.functions topic exits.now flow.now.entries flow.now.tables }
    requires marks { Marks ir.now.functions table.old }
    ensures marks { OnOk result (Marks ir.now.functions table.new) }
    ensures kept { OnOk result (KeepsRows table.old table.new) }
    ensures marked { OnOk result (Marked ir.now.functions topic.entry table.new function) }
{
    let body = &ir.functions.as_slice()[function];
    let code = body.code.as_slice();
    let entry = at_entry(alloc, topic, body.registers, flow.entries.row(function))?;
    let row = function_row(alloc, topic, exits, &flow.tables, function, &entry, code)?;
    table.join(alloc, function, &row)?;
    Ok(())
}

/// Marks for a topic one function. No walk reaches a function whose entry has no row.
#[tactic(auto, using(crate::proofs::marked::Tabled::keeps_all))]
fn mark_function(
    alloc: Global,
    ir: &Ir,
    topic: Topic<'_>,
    exits: &Tables,
    flow: &Flow,
    function: usize,
    table: &mut Rows,
) -> Result<(), AllocError>
    requires well { IsWellFormed ir.now }
    requires inside { function < length ir.now.functions }
    requires exits { SoundExits ir.now.functions topic exits.now }
    requires ended { CalledEnded ir.now.functions topic exits.now }
    requires entries { Entries ir.now.functions topic flow.now.entries }
    requires start { StartEntries ir.now.functions topic flow.now.entries }
    requires flow { AllFlow ir.now.functions topic exits.now flow.now.entries flow.now.tables }
    requires marks { Marks ir.now.functions table.old }
    ensures marks { OnOk result (Marks ir.now.functions table.new) }
    ensures kept { OnOk result (KeepsRows table.old table.new) }
    ensures marked { OnOk result (Marked ir.now.functions topic.entry table.new function) }
{
    if flow.entries.row(function).is_empty() {
        return Ok(());
    }
    mark_reached(alloc, ir, topic, exits, flow, function, table)
}

/// Marks each function for a topic.
pub fn mark_topic(
    alloc: Global,
    ir: &Ir,
    topic: Topic<'_>,
    edges: &[Edge],
    order: &[usize],
    table: &mut Rows,
) -> Result<(), AllocError>
    requires well { IsWellFormed ir.now }
    requires edges { edges.now ≡ edges_from 0 ir.now.functions }
    requires marks { Marks ir.now.functions table.old }
    ensures marks { OnOk result (Marks ir.now.functions table.new) }
    ensures kept { OnOk result (KeepsRows table.old table.new) }
    ensures marked { OnOk result (AllMarked ir.now.functions topic.entry table.new) }
{
    let exits = passes(alloc, ir, topic, edges, order)?;
    let flow = flows(alloc, ir, topic, &exits, order)?;
    for function in 0..ir.functions.as_slice().len() {
        mark_function(alloc, ir, topic, &exits, &flow, function, table)?;
    }
    Ok(())
}
