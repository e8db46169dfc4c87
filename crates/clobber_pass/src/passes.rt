//! What passes through each function, from each column of its entry to its returns.

ghost use Rattle.std.specs.Prelude.{◌≡◌, ◌<◌, ◌≤◌, ◌+◌, ℕ, length, true, false, Some, slice_get};
ghost use Rattle.std.specs.Prelude.{slice_set, Ok, IfOk, OnOk};
ghost use Rattle.ir.specs.WellFormed.{IsWellFormed};
ghost use Rattle.clobber_pass.specs.inside.Told.{parameters_at};
ghost use Rattle.clobber_pass.specs.inside.Closed.{AllColumns, Ended, ShapedExits};
ghost use Rattle.clobber_pass.specs.inside.Room.{all_room};
ghost use Rattle.clobber_pass.specs.inside.Sound.{SoundExits};
ghost use Rattle.clobber_pass.specs.inside.Flow.{waits};
ghost use Rattle.clobber_pass.specs.inside.Calling.{Apart, CalledEnded, ColumnsAlone, EndedAlone};
ghost use Rattle.clobber_pass.specs.inside.Calling.{Passing, edges_from};

use crate::calling::{Edge, called_wait, wake_callers};
use crate::entry::entry_row;
use crate::sweep::run;
use crate::tables::Tables;
use crate::topic::Topic;
use ir::{Ir, IrFunction};
use std::alloc::{AllocError, Global};

/// Sweeps a function for one column of its entry, and joins what comes to its returns to the
/// exits. Returns whether these grew.
fn column(
    alloc: Global,
    ir: &Ir,
    topic: Topic<'_>,
    function: usize,
    column: usize,
    exits: &mut Tables,
) -> Result<bool, AllocError>
    requires well { IsWellFormed ir.now }
    requires column { column < parameters_at ir.now.functions function + 2 }
    requires shaped { ShapedExits ir.now.functions topic exits.old }
    requires sound { SoundExits ir.now.functions topic exits.old }
    ensures shaped { IfOk result (λ _. ShapedExits ir.now.functions topic.entry exits.new) }
    ensures sound { IfOk result (λ _. SoundExits ir.now.functions topic.entry exits.new) }
    ensures same { result ≡ Ok false → exits.new ≡ exits.old }
    ensures grew { result ≡ Ok true → all_room exits.new < all_room exits.old }
    ensures room { IfOk result (λ _. all_room exits.new ≤ all_room exits.old) }
    ensures ended { result ≡ Ok false → Ended ir.now.functions topic.entry exits.old function
        column }
    ensures alone { IfOk result (λ _. EndedAlone ir.now.functions topic.entry exits.new function
        column) }
    ensures apart { IfOk result (λ _. Apart function exits.old exits.new) }
{
    let Some(body) = ir.functions.as_slice().get(function) else {
        return Ok(false);
    };
    let code = body.code.as_slice();
    let entry = entry_row(alloc, topic, body.parameters, body.registers, column)?;
    let rows = run(alloc, topic, exits, code, &entry)?;
    exits.join(alloc, function, column, rows.row(code.len()))
}

/// The number of parameters of a function.
fn parameters_at(functions: &[IrFunction], function: usize) -> u32
    ensures { result ≡ parameters_at functions.now function }
{
    match functions.get(function) {
        Some(body) => body.parameters,
        None => 0,
    }
}

/// Sweeps a function for each column of its entry.
fn columns(
    alloc: Global,
    ir: &Ir,
    topic: Topic<'_>,
    function: usize,
    exits: &mut Tables,
) -> Result<bool, AllocError>
    requires well { IsWellFormed ir.now }
    requires shaped { ShapedExits ir.now.functions topic exits.old }
    requires sound { SoundExits ir.now.functions topic exits.old }
    ensures shaped { IfOk result (λ _. ShapedExits ir.now.functions topic.entry exits.new) }
    ensures sound { IfOk result (λ _. SoundExits ir.now.functions topic.entry exits.new) }
    ensures same { result ≡ Ok false → exits.new ≡ exits.old }
    ensures grew { result ≡ Ok true → all_room exits.new < all_room exits.old }
    ensures room { IfOk result (λ _. all_room exits.new ≤ all_room exits.old) }
    ensures ended { result ≡ Ok false → AllColumns ir.now.functions topic.entry exits.old function }
    ensures alone { IfOk result (λ _. ColumnsAlone ir.now.functions topic.entry exits.new
        function) }
    ensures apart { IfOk result (λ _. Apart function exits.old exits.new) }
{
    let mut grew = false;
    for at in 0..parameters_at(ir.functions.as_slice(), function) as usize + 2 {
        if column(alloc, ir, topic, function, at, exits)? {
            grew = true;
        }
    }
    Ok(grew)
}

/// Sweeps a function that has to be swept again. If its exits grew, so have its callers, itself
/// among them if it calls itself.
#[tactic(auto, using(crate::proofs::Recalling::passing, crate::proofs::Waking::settling))]
fn pass_through(
    alloc: Global,
    ir: &Ir,
    topic: Topic<'_>,
    edges: &[Edge],
    function: usize,
    exits: &mut Tables,
    waiting: &mut [bool],
) -> Result<bool, AllocError>
    requires well { IsWellFormed ir.now }
    requires edges { edges.now ≡ edges_from 0 ir.now.functions }
    requires inside { function < length ir.now.functions }
    requires passing { Passing ir.now.functions topic exits.old waiting.old }
    ensures passing { IfOk result (λ _. Passing ir.now.functions topic.entry exits.new
        waiting.new) }
    ensures quiet { result ≡ Ok false → waiting.new ≡ slice_set waiting.old function false }
    ensures grew { result ≡ Ok true → all_room exits.new < all_room exits.old }
    ensures room { IfOk result (λ _. all_room exits.new ≤ all_room exits.old) }
{
    let grew = columns(alloc, ir, topic, function, exits)?;
    waiting[function] = false;
    if grew {
        wake_callers(edges, function, waiting);
        return Ok(true);
    }
    Ok(false)
}

/// The same, if the function has to be swept again.
#[tactic(auto, using(crate::proofs::Waking::settling))]
fn pass_where(
    alloc: Global,
    ir: &Ir,
    topic: Topic<'_>,
    edges: &[Edge],
    function: usize,
    exits: &mut Tables,
    waiting: &mut [bool],
) -> Result<bool, AllocError>
    requires well { IsWellFormed ir.now }
    requires edges { edges.now ≡ edges_from 0 ir.now.functions }
    requires inside { function < length ir.now.functions }
    requires passing { Passing ir.now.functions topic exits.old waiting.old }
    ensures passing { IfOk result (λ _. Passing ir.now.functions topic.entry exits.new
        waiting.new) }
    ensures quiet { result ≡ Ok false → (waits waiting.new function ≡ false)
        × ((f : ℕ) → waits waiting.old f ≡ false → waits waiting.new f ≡ false) }
    ensures grew { result ≡ Ok true → all_room exits.new < all_room exits.old }
    ensures room { IfOk result (λ _. all_room exits.new ≤ all_room exits.old) }
{
    if !waiting[function] {
        return Ok(false);
    }
    pass_through(alloc, ir, topic, edges, function, exits, waiting)
}

/// The same, if there is a function of this number.
fn pass_in(
    alloc: Global,
    ir: &Ir,
    topic: Topic<'_>,
    edges: &[Edge],
    function: usize,
    exits: &mut Tables,
    waiting: &mut [bool],
) -> Result<(), AllocError>
    requires well { IsWellFormed ir.now }
    requires edges { edges.now ≡ edges_from 0 ir.now.functions }
    requires passing { Passing ir.now.functions topic exits.old waiting.old }
    ensures passing { OnOk result (Passing ir.now.functions topic.entry exits.new waiting.new) }
    ensures room { OnOk result (all_room exits.new ≤ all_room exits.old) }
{
    if function >= ir.functions.as_slice().len() {
        return Ok(());
    }
    pass_where(alloc, ir, topic, edges, function, exits, waiting)?;
    Ok(())
}

/// The same for the functions of a list, from the first on: so a function comes after what it
/// calls.
fn pass_along(
    alloc: Global,
    ir: &Ir,
    topic: Topic<'_>,
    edges: &[Edge],
    order: &[usize],
    exits: &mut Tables,
    waiting: &mut [bool],
) -> Result<(), AllocError>
    requires well { IsWellFormed ir.now }
    requires edges { edges.now ≡ edges_from 0 ir.now.functions }
    requires passing { Passing ir.now.functions topic exits.old waiting.old }
    ensures passing { OnOk result (Passing ir.now.functions topic.entry exits.new waiting.new) }
    ensures room { OnOk result (all_room exits.new ≤ all_room exits.old) }
{
    for index in 0..order.len() {
        pass_in(alloc, ir, topic, edges, order[index], exits, waiting)?;
    }
    Ok(())
}

/// The same for each function.
fn round(
    alloc: Global,
    ir: &Ir,
    topic: Topic<'_>,
    edges: &[Edge],
    exits: &mut Tables,
    waiting: &mut [bool],
) -> Result<bool, AllocError>
    requires well { IsWellFormed ir.now }
    requires edges { edges.now ≡ edges_from 0 ir.now.functions }
    requires passing { Passing ir.now.functions topic exits.old waiting.old }
    ensures passing { IfOk result (λ _. Passing ir.now.functions topic.entry exits.new
        waiting.new) }
    ensures quiet { result ≡ Ok false → (f : ℕ) → f < length ir.now.functions
        → waits waiting.new f ≡ false }
    ensures grew { result ≡ Ok true → all_room exits.new < all_room exits.old }
    ensures room { IfOk result (λ _. all_room exits.new ≤ all_room exits.old) }
{
    let mut grew = false;
    for function in 0..ir.functions.as_slice().len() {
        if pass_where(alloc, ir, topic, edges, function, exits, waiting)? {
            grew = true;
        }
    }
    Ok(grew)
}

/// The same, after the functions that have to be swept again were swept in the order of the list.
fn ordered_round(
    alloc: Global,
    ir: &Ir,
    topic: Topic<'_>,
    edges: &[Edge],
    order: &[usize],
    exits: &mut Tables,
    waiting: &mut [bool],
) -> Result<bool, AllocError>
    requires well { IsWellFormed ir.now }
    requires edges { edges.now ≡ edges_from 0 ir.now.functions }
    requires passing { Passing ir.now.functions topic exits.old waiting.old }
    ensures passing { IfOk result (λ _. Passing ir.now.functions topic.entry exits.new
        waiting.new) }
    ensures quiet { result ≡ Ok false → (f : ℕ) → f < length ir.now.functions
        → waits waiting.new f ≡ false }
    ensures grew { result ≡ Ok true → all_room exits.new < all_room exits.old }
    ensures room { IfOk result (λ _. all_room exits.new ≤ all_room exits.old) }
{
    pass_along(alloc, ir, topic, edges, order, exits, waiting)?;
    round(alloc, ir, topic, edges, exits, waiting)
}

/// For each function: which facts at its entry reach which facts at its returns, for the fields of
/// one topic.
pub fn passes(
    alloc: Global,
    ir: &Ir,
    topic: Topic<'_>,
    edges: &[Edge],
    order: &[usize],
) -> Result<Tables, AllocError>
    requires well { IsWellFormed ir.now }
    requires edges { edges.now ≡ edges_from 0 ir.now.functions }
    ensures shaped { IfOk result (λ exits. ShapedExits ir.now.functions topic.entry exits) }
    ensures sound { IfOk result (λ exits. SoundExits ir.now.functions topic.entry exits) }
    ensures ended { IfOk result (λ exits. CalledEnded ir.now.functions topic.entry exits) }
{
    let functions = ir.functions.as_slice();
    let mut exits = Tables::new(alloc, functions)?;
    let mut waiting = called_wait(alloc, edges, functions.len())?;
    while ordered_round(alloc, ir, topic, edges, order, &mut exits, &mut waiting)? {}
    Ok(exits)
}
