//! One sweep through a function.

ghost use Rattle.std.specs.Prelude.{◌≡◌, ◌<◌, ◌≤◌, ◌^◌, true, false, length, option_map, ◌==◌};
ghost use Rattle.std.specs.Prelude.{position, Ok, IfOk, OnOk};
ghost use Rattle.clobber_pass.specs.inside.Closed.{Closed, Made};
ghost use Rattle.clobber_pass.specs.inside.Room.{room};
ghost use Rattle.clobber_pass.specs.inside.Sweep as inside_sweeps;

use crate::carry::carry;
use crate::row::word;
use crate::rows::{Rows, copied};
use crate::step::step;
use crate::tables::Tables;
use crate::topic::Topic;
use ir::Instruction;
use std::alloc::{AllocError, Global};

/// What one slot of a called function's row at its returns brings to the place after the call.
fn comes(
    exits: &Tables,
    function: usize,
    row: &[u16],
    column: usize,
    at_call: usize,
    slot: usize,
) -> u16
    ensures { result ≡ inside_sweeps.comes (inside_sweeps.exits_of exits.now function) row.now
        column at_call slot }
{
    exits.word(function, column, slot) & word(row, at_call)
}

/// The same of all slots that the call hands over.
fn gather(exits: &Tables, function: usize, row: &[u16], args: &[u32], slot: usize) -> u16
    ensures { result ≡ inside_sweeps.gather (inside_sweeps.exits_of exits.now function) row.now
        args.now slot }
{
    let start = comes(exits, function, row, 0, 0, slot);
    let sought = comes(exits, function, row, 1, 1, slot);
    let mut bits = start | sought;
    for (index, register) in args.iter().enumerate() {
        bits |= comes(
            exits,
            function,
            row,
            index + 2,
            *register as usize + 2,
            slot,
        );
    }
    bits
}

/// The first place of a register among the arguments.
pub fn first_at(args: &[u32], register: usize) -> Option<usize>
    ensures { result ≡ position (λ a. a == register) args.now }
{
    args.iter().position(|a| *a as usize == register)
}

/// The word of a register after a call.
fn register_after(
    exits: &Tables,
    function: usize,
    to: usize,
    args: &[u32],
    row: &[u16],
    register: usize,
) -> u16
    requires { register < 2 ^ 63 }
    ensures { result ≡ inside_sweeps.register_after (inside_sweeps.exits_of exits.now function) to
        args.now row.now register }
{
    if register == to {
        return gather(exits, function, row, args, 0);
    }
    match first_at(args, register) {
        Some(place) => gather(exits, function, row, args, place + 2),
        None => exits.word(function, 0, 0) & word(row, register + 2),
    }
}

/// The word of a slot after a call.
pub fn slot_after(
    exits: &Tables,
    function: usize,
    to: usize,
    args: &[u32],
    row: &[u16],
    slot: usize,
) -> u16
    requires { slot < 2 ^ 63 }
    ensures { result ≡ inside_sweeps.slot_after (inside_sweeps.exits_of exits.now function) to
        args.now row.now slot }
{
    if slot < 2 {
        gather(exits, function, row, args, slot)
    } else {
        register_after(exits, function, to, args, row, slot - 2)
    }
}

/// The row after a call.
fn call(
    alloc: Global,
    exits: &Tables,
    function: usize,
    to: usize,
    args: &[u32],
    row: &[u16],
) -> Result<Vec<u16>, AllocError>
    ensures { IfOk result (λ new. new.items ≡ inside_sweeps.call_from
        (inside_sweeps.exits_of exits.now function) to args.now row.now 0 row.now) }
{
    let mut new = Vec::new(alloc);
    for (slot, _) in row.iter().enumerate() {
        new.push(slot_after(exits, function, to, args, row, slot))?;
    }
    Ok(new)
}

/// The row after an instruction, at the next place.
pub fn advance(
    alloc: Global,
    topic: Topic<'_>,
    exits: &Tables,
    instruction: &Instruction,
    row: &mut Vec<u16>,
) -> Result<(), AllocError>
    ensures { OnOk result (row.new.items ≡ inside_sweeps.next_row topic.entry exits.now
        instruction.now row.old.items) }
{
    match instruction {
        Instruction::Jump { .. } | Instruction::Return { .. } | Instruction::Trap { .. } =>
            row.fill(0),
        Instruction::Call { to, function, args } => {
            *row = call(
                alloc,
                exits,
                *function as usize,
                *to as usize,
                args.as_slice(),
                row,
            )?;
        }
        _ => step(topic, instruction, row),
    }
    Ok(())
}

/// The place to which an instruction leads beside the next one: where it jumps to, or for a return
/// the place after the last.
pub fn target(end: usize, instruction: &Instruction) -> Option<usize>
    ensures { result ≡ inside_sweeps.jump_target end instruction.now }
{
    match instruction {
        Instruction::Jump { place } | Instruction::Branch { place, .. } => Some(*place as usize),
        Instruction::Return { .. } => Some(end),
        _ => None,
    }
}

/// Joins a row to that of a place, and goes on with the joined row. Returns whether the place's
/// row grew.
fn meet(rows: &mut Rows, place: usize, row: &mut Vec<u16>) -> Result<bool, AllocError>
    ensures rows { IfOk result (λ _. rows.new ≡ inside_sweeps.meet_in rows.old place
        row.old.items) }
    ensures row { IfOk result (λ _. row.new.items ≡ inside_sweeps.here_in rows.old place
        row.old.items) }
    ensures same { result ≡ Ok false → (rows.new ≡ rows.old)
        × (inside_sweeps.meet_in rows.old place row.old.items ≡ rows.old) }
    ensures grew { result ≡ Ok true → room rows.new < room rows.old }
    ensures room { IfOk result (λ _. room rows.new ≤ room rows.old) }
{
    let grew = rows.meet(place, row);
    rows.take(place, row)?;
    Ok(grew)
}

/// Joins a row to that of the place to which an instruction jumps. If that lies before the jump,
/// and its row grew, the place is added to the list.
fn lead(
    alloc: Global,
    rows: &mut Rows,
    place: usize,
    to: Option<usize>,
    row: &[u16],
    back: &mut Vec<usize>,
) -> Result<bool, AllocError>
    ensures rows { IfOk result (λ _. rows.new ≡ inside_sweeps.rows_led rows.old to row.now) }
    ensures same { result ≡ Ok false → (rows.new ≡ rows.old)
        × (inside_sweeps.rows_led rows.old to row.now ≡ rows.old) }
    ensures grew { result ≡ Ok true → room rows.new < room rows.old }
    ensures room { IfOk result (λ _. room rows.new ≤ room rows.old) }
{
    let Some(to) = to else {
        return Ok(false);
    };
    let had = !rows.row(to).is_empty();
    let grew = rows.join(alloc, to, row)?;
    if grew && had && to <= place {
        back.push(to)?;
    }
    Ok(grew)
}

/// What a sweep does at one place.
fn visit(
    alloc: Global,
    topic: Topic<'_>,
    exits: &Tables,
    end: usize,
    rows: &mut Rows,
    row: &mut Vec<u16>,
    place: usize,
    instruction: &Instruction,
    back: &mut Vec<usize>,
) -> Result<bool, AllocError>
    ensures rows { IfOk result (λ _.
        rows.new ≡ inside_sweeps.rows_led (inside_sweeps.meet_in rows.old place row.old.items)
        (inside_sweeps.jump_target end instruction.now)
        (inside_sweeps.here_in rows.old place row.old.items)) }
    ensures row { IfOk result (λ _. row.new.items ≡ inside_sweeps.next_row topic.entry exits.now
        instruction.now (inside_sweeps.here_in rows.old place row.old.items)) }
    ensures same { result ≡ Ok false → rows.new ≡ rows.old }
    ensures met { result ≡ Ok false → inside_sweeps.meet_in rows.old place row.old.items
        ≡ rows.old }
    ensures led { result ≡ Ok false
        → inside_sweeps.rows_led rows.old (inside_sweeps.jump_target end instruction.now)
        (inside_sweeps.here_in rows.old place row.old.items) ≡ rows.old }
    ensures grew { result ≡ Ok true → room rows.new < room rows.old }
    ensures room { IfOk result (λ _. room rows.new ≤ room rows.old) }
{
    let met = meet(rows, place, row)?;
    let led = lead(alloc, rows, place, target(end, instruction), row, back)?;
    advance(alloc, topic, exits, instruction, row)?;
    Ok(met || led)
}

/// Goes once through a function's code. Returns whether any row grew. The list takes the places
/// whose row grew by a jump back.
fn sweep(
    alloc: Global,
    topic: Topic<'_>,
    exits: &Tables,
    code: &[Instruction],
    entry: &[u16],
    rows: &mut Rows,
    back: &mut Vec<usize>,
) -> Result<bool, AllocError>
    ensures rows { IfOk result (λ _. rows.new ≡ inside_sweeps.swept topic.entry exits.now
        (length code.now) rows.old entry.now 0 code.now) }
    ensures same { result ≡ Ok false → rows.new ≡ rows.old }
    ensures closed { result ≡ Ok false → Closed topic.entry exits.now (length code.now) rows.old
        entry.now 0 code.now }
    ensures grew { result ≡ Ok true → room rows.new < room rows.old }
    ensures room { IfOk result (λ _. room rows.new ≤ room rows.old) }
{
    let mut row = copied(alloc, entry)?;
    let mut grew = false;
    for (place, instruction) in code.iter().enumerate() {
        if visit(
            alloc,
            topic,
            exits,
            code.len(),
            rows,
            &mut row,
            place,
            instruction,
            back,
        )? {
            grew = true;
        }
    }
    Ok(grew)
}

/// Goes through a function's code, from the row at its entry, until no row grows. Between two
/// sweeps the words that grew by a jump back are carried on.
pub fn run(
    alloc: Global,
    topic: Topic<'_>,
    exits: &Tables,
    code: &[Instruction],
    entry: &[u16],
) -> Result<Rows, AllocError>
    requires { length code.now < 2 ^ 31 }
    ensures closed { IfOk result (λ rows. Closed topic.entry exits.now (length code.now) rows
        entry.now 0 code.now) }
    ensures made { IfOk result (λ rows. Made topic.entry exits.now entry.now code.now rows) }
{
    let mut rows = Rows::new(alloc, code.len() + 1)?;
    let mut back = Vec::new(alloc);
    while sweep(alloc, topic, exits, code, entry, &mut rows, &mut back)? {
        carry(alloc, topic, exits, code, entry, &back, &mut rows)?;
        back.clear();
    }
    Ok(rows)
}
