//! What grew against the order of the code is carried on by itself, word by word, so that the next
//! sweep finds it done. The sweeps find what is left.

ghost use Rattle.std.specs.Prelude.{◌≡◌, ◌<◌, ◌≤◌, ◌+◌, ◌^◌, length, replicate, slice_set, OnOk};
ghost use Rattle.clobber_pass.specs.inside.Row.{after_row};
ghost use Rattle.clobber_pass.specs.inside.Sweep as inside_sweeps;
ghost use Rattle.clobber_pass.specs.inside.Closed.{Made, one_word_row};
ghost use Rattle.clobber_pass.specs.inside.Carrying as carrying;
ghost use Rattle.clobber_pass.specs.inside.Carrying.{Arrived, Carries, CarriesOn, Carrying};
ghost use Rattle.clobber_pass.specs.inside.Room.{room};

use crate::growth::{Grown, Growth};
use crate::order::MOST_TURNS;
use crate::row::{put, word};
use crate::rows::Rows;
use crate::step::step;
use crate::sweep::{first_at, slot_after, target};
use crate::tables::Tables;
use crate::topic::Topic;
use ir::Instruction;
use std::alloc::{AllocError, Global};

/// Notes that a word of bits comes to a place. It is carried on later, unless the row there has
/// all its bits.
fn arrive(
    rows: &mut Rows,
    growth: &mut Growth,
    place: usize,
    slot: usize,
    word: u16,
) -> Result<(), AllocError>
    ensures arrived { OnOk result (Arrived place slot word rows.old rows.new growth.old
        growth.new) }
    ensures room { OnOk result (room rows.new ≤ room rows.old) }
{
    if word == 0 {
        return Ok(());
    }
    if rows.row(place).is_empty() || rows.raise(place, slot, word) {
        growth.push(Grown { place, slot, word })?;
    }
    Ok(())
}

/// The word of one slot comes to a place, and is taken out of the row.
fn hand_on(
    row: &mut [u16],
    slot: usize,
    place: usize,
    rows: &mut Rows,
    growth: &mut Growth,
) -> Result<(), AllocError>
    ensures carries { OnOk result (Carries place row.old rows.old rows.new growth.old growth.new) }
    ensures row { OnOk result (row.new ≡ slice_set row.old slot 0) }
    ensures room { OnOk result (room rows.new ≤ room rows.old) }
{
    arrive(rows, growth, place, slot, word(row, slot))?;
    put(row, slot, 0);
    Ok(())
}

/// The slot that an instruction may change beside the one that is looked at: that of its target,
/// or of the fact that is sought.
fn result_slot(instruction: &Instruction) -> usize
    ensures { result ≡ carrying.result_slot instruction.now }
{
    match instruction {
        Instruction::Const { to, .. }
        | Instruction::Bin { to, .. }
        | Instruction::Copy { to, .. }
        | Instruction::Load { to, .. }
        | Instruction::New { to, .. } => *to as usize + 2,
        _ => 1,
    }
}

/// Takes a word through an instruction that is no call. The row is all zeros before and
/// afterwards.
fn past_step(
    topic: Topic<'_>,
    instruction: &Instruction,
    grown: Grown,
    row: &mut [u16],
    rows: &mut Rows,
    growth: &mut Growth,
) -> Result<(), AllocError>
    requires place { grown.place < 2 ^ 63 }
    requires blank { row.old ≡ replicate (length row.old) 0 }
    ensures carries { OnOk result (Carries (grown.place + 1)
        (after_row topic.entry instruction.now
        (one_word_row (length row.old) grown.slot grown.word))
        rows.old rows.new growth.old growth.new) }
    ensures blank { OnOk result (row.new ≡ row.old) }
    ensures room { OnOk result (room rows.new ≤ room rows.old) }
{
    let next = grown.place + 1;
    put(row, grown.slot, grown.word);
    step(topic, instruction, row);
    hand_on(row, grown.slot, next, rows, growth)?;
    hand_on(row, 1, next, rows, growth)?;
    hand_on(row, result_slot(instruction), next, rows, growth)
}

/// The word of one slot comes to the place after a call.
fn past_call_in(
    exits: &Tables,
    function: usize,
    to: usize,
    args: &[u32],
    row: &[u16],
    slot: usize,
    next: usize,
    rows: &mut Rows,
    growth: &mut Growth,
) -> Result<(), AllocError>
    ensures carries { OnOk result (Carries next
        (inside_sweeps.call_from (inside_sweeps.exits_of exits.now function) to args.now row.now 0
        row.now) rows.old rows.new growth.old growth.new) }
    ensures room { OnOk result (room rows.new ≤ room rows.old) }
{
    if slot >= row.len() {
        return Ok(());
    }
    let word = slot_after(exits, function, to, args, row, slot);
    arrive(rows, growth, next, slot, word)
}

/// The words of a call's arguments come to the place after it, each slot once.
#[tactic(auto, using(crate::proofs::derived::Carrying::carried))]
fn past_call_in_args(
    exits: &Tables,
    function: usize,
    to: usize,
    args: &[u32],
    row: &[u16],
    next: usize,
    rows: &mut Rows,
    growth: &mut Growth,
) -> Result<(), AllocError>
    ensures carries { OnOk result (Carries next
        (inside_sweeps.call_from (inside_sweeps.exits_of exits.now function) to args.now row.now 0
        row.now) rows.old rows.new growth.old growth.new) }
    ensures room { OnOk result (room rows.new ≤ room rows.old) }
{
    for index in 0..args.len() {
        let register = args[index] as usize;
        if register != to && first_at(args, register) == Some(index) {
            past_call_in(
                exits,
                function,
                to,
                args,
                row,
                register + 2,
                next,
                rows,
                growth,
            )?;
        }
    }
    Ok(())
}

/// Whether a slot is of a register that the call neither writes nor hands over.
fn is_apart(slot: usize, to: usize, args: &[u32]) -> bool {
    slot >= 2 && slot - 2 != to && first_at(args, slot - 2).is_none()
}

/// Takes a word through a call. The row is all zeros before and afterwards.
#[tactic(auto, using(crate::proofs::derived::Carrying::carried))]
fn past_call(
    exits: &Tables,
    function: usize,
    to: usize,
    args: &[u32],
    grown: Grown,
    row: &mut [u16],
    rows: &mut Rows,
    growth: &mut Growth,
) -> Result<(), AllocError>
    requires place { grown.place < 2 ^ 63 }
    requires to { to < 2 ^ 63 }
    requires blank { row.old ≡ replicate (length row.old) 0 }
    ensures carries { OnOk result (Carries (grown.place + 1)
        (inside_sweeps.call_from (inside_sweeps.exits_of exits.now function) to args.now
        (one_word_row (length row.old) grown.slot grown.word) 0
        (one_word_row (length row.old) grown.slot grown.word)) rows.old rows.new growth.old
        growth.new) }
    ensures blank { OnOk result (row.new ≡ row.old) }
    ensures room { OnOk result (room rows.new ≤ room rows.old) }
{
    let next = grown.place + 1;
    put(row, grown.slot, grown.word);
    past_call_in(exits, function, to, args, row, 0, next, rows, growth)?;
    past_call_in(exits, function, to, args, row, 1, next, rows, growth)?;
    past_call_in(exits, function, to, args, row, to + 2, next, rows, growth)?;
    past_call_in_args(exits, function, to, args, row, next, rows, growth)?;
    if is_apart(grown.slot, to, args) {
        past_call_in(
            exits, function, to, args, row, grown.slot, next, rows, growth,
        )?;
    }
    put(row, grown.slot, 0);
    Ok(())
}

/// Takes a word to the jump's target, if the instruction has one.
fn lead_on(
    to: Option<usize>,
    grown: Grown,
    rows: &mut Rows,
    growth: &mut Growth,
) -> Result<(), AllocError>
    ensures led { OnOk result (carrying.Led to grown rows.old rows.new growth.old growth.new) }
    ensures room { OnOk result (room rows.new ≤ room rows.old) }
{
    match to {
        Some(place) => arrive(rows, growth, place, grown.slot, grown.word),
        None => Ok(()),
    }
}

/// Takes a word through the instruction of its place, to the next place.
#[tactic(auto, using(crate::proofs::derived::Carrying::carried))]
fn pass(
    topic: Topic<'_>,
    exits: &Tables,
    instruction: &Instruction,
    grown: Grown,
    row: &mut [u16],
    rows: &mut Rows,
    growth: &mut Growth,
) -> Result<(), AllocError>
    requires place { grown.place < 2 ^ 63 }
    requires blank { row.old ≡ replicate (length row.old) 0 }
    ensures carries { OnOk result (Carries (grown.place + 1)
        (inside_sweeps.next_row topic.entry exits.now instruction.now
        (one_word_row (length row.old) grown.slot grown.word)) rows.old rows.new growth.old
        growth.new) }
    ensures blank { OnOk result (row.new ≡ row.old) }
    ensures room { OnOk result (room rows.new ≤ room rows.old) }
{
    match instruction {
        Instruction::Jump { .. } | Instruction::Return { .. } | Instruction::Trap { .. } => Ok(()),
        Instruction::Call { to, function, args } => past_call(
            exits,
            *function as usize,
            *to as usize,
            args.as_slice(),
            grown,
            row,
            rows,
            growth,
        ),
        _ => past_step(topic, instruction, grown, row, rows, growth),
    }
}

/// Takes one word through the instruction of its place, to each place where that leads.
fn carry_word(
    topic: Topic<'_>,
    exits: &Tables,
    code: &[Instruction],
    grown: Grown,
    row: &mut [u16],
    rows: &mut Rows,
    growth: &mut Growth,
) -> Result<(), AllocError>
    requires blank { row.old ≡ replicate (length row.old) 0 }
    ensures carries { OnOk result (CarriesOn topic.entry exits.now code.now (length row.old) grown
        rows.old rows.new growth.old growth.new) }
    ensures blank { OnOk result (row.new ≡ row.old) }
    ensures room { OnOk result (room rows.new ≤ room rows.old) }
{
    let Some(instruction) = code.get(grown.place) else {
        return Ok(());
    };
    lead_on(target(code.len(), instruction), grown, rows, growth)?;
    if grown.place + 1 < code.len() {
        pass(topic, exits, instruction, grown, row, rows, growth)?;
    }
    Ok(())
}

/// Takes each word of a list on, and each word that grows by that.
fn carry_growth(
    alloc: Global,
    topic: Topic<'_>,
    exits: &Tables,
    code: &[Instruction],
    entry: &[u16],
    rows: &mut Rows,
    growth: &mut Growth,
) -> Result<(), AllocError>
    requires { Carrying topic exits.now entry.now code.now rows.old growth.old }
    ensures made { OnOk result (Made topic.entry exits.now entry.now code.now rows.new) }
    ensures room { OnOk result (room rows.new ≤ room rows.old) }
{
    let mut row = vec![in alloc; 0; entry.len()]?;
    for _ in 0..MOST_TURNS {
        let Some(grown) = growth.pop() else {
            return Ok(());
        };
        carry_word(topic, exits, code, grown, &mut row, rows, growth)?;
    }
    Ok(())
}

/// Takes each word of the row of a place on.
fn carry_row(
    alloc: Global,
    topic: Topic<'_>,
    exits: &Tables,
    code: &[Instruction],
    entry: &[u16],
    place: usize,
    rows: &mut Rows,
) -> Result<(), AllocError>
    requires { Made topic exits.now entry.now code.now rows.old }
    ensures made { OnOk result (Made topic.entry exits.now entry.now code.now rows.new) }
    ensures room { OnOk result (room rows.new ≤ room rows.old) }
{
    let mut growth = Growth::new(alloc);
    growth.push_row(place, rows.row(place))?;
    carry_growth(alloc, topic, exits, code, entry, rows, &mut growth)
}

/// Takes each word of the rows of these places on.
pub fn carry(
    alloc: Global,
    topic: Topic<'_>,
    exits: &Tables,
    code: &[Instruction],
    entry: &[u16],
    places: &[usize],
    rows: &mut Rows,
) -> Result<(), AllocError>
    requires { Made topic exits.now entry.now code.now rows.old }
    ensures made { OnOk result (Made topic.entry exits.now entry.now code.now rows.new) }
    ensures room { OnOk result (room rows.new ≤ room rows.old) }
{
    for place in places {
        carry_row(alloc, topic, exits, code, entry, *place, rows)?;
    }
    Ok(())
}
