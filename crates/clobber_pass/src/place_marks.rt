//! The marks of a program.

ghost use Rattle.std.specs.Prelude.{◌≡◌, ◌++◌, ◌∷◌, [], ◌==◌, ◌<◌, ◌^◌, ℕ, true, false, length};
ghost use Rattle.std.specs.Prelude.{IfOk, OnOk};
ghost use Rattle.clobber_pass.specs.Sweep as sweeps;
ghost use Rattle.clobber_pass.specs.inside.Marking as inside_marking;

use crate::row::{fields_mask, mask, word};
use crate::rows::{Rows, copied};
use crate::sweep::advance;
use crate::tables::Tables;
use crate::topic::Topic;
use ir::{Instruction, Target};
use std::alloc::{AllocError, Global};

/// Whether two words and a mask have a bit in common.
#[tactic(auto, unfolding(crate::specs::inside::Marking::meets))]
fn meets(one: u16, other: u16, mask: u16) -> bool
    ensures { result ≡ inside_marking.meets one other mask }
{
    !(one & other & mask == 0)
}

/// The mark of a store, if this topic has its field: it is set if the field may be unwritten
/// there, and may have been read.
fn store_word(topic: Topic<'_>, target: Target, row: &[u16]) -> u16
    ensures { result ≡ inside_marking.store_word topic.entry target row.now }
{
    match (topic, target) {
        (Topic::Root { first }, Target::Root { field, .. }) => {
            if meets(word(row, 0), word(row, 1), mask(first, field)) {
                1
            } else {
                0
            }
        }
        (
            Topic::Fields { all },
            Target::Field {
                base,
                kind,
                field,
                ..
            },
        ) => {
            if meets(
                word(row, base as usize + 2),
                word(row, 1),
                fields_mask(all, kind, field),
            ) {
                1
            } else {
                0
            }
        }
        _ => 0,
    }
}

/// The mark of the zeros of a new object.
fn fill_word(topic: Topic<'_>, row: &[u16]) -> u16
    ensures { result ≡ inside_marking.fill_word topic.entry row.now }
{
    match topic {
        Topic::Frees => {
            if meets(word(row, 1), word(row, 1), 1) {
                2
            } else {
                0
            }
        }
        _ => 0,
    }
}

fn mark_word(topic: Topic<'_>, instruction: &Instruction, row: &[u16]) -> u16
    ensures { result ≡ inside_marking.mark_word topic.entry instruction.now row.now }
{
    match instruction {
        Instruction::Store { target, .. } => store_word(topic, *target, row),
        Instruction::New { .. } => fill_word(topic, row),
        _ => 0,
    }
}

/// The marks of a function's places for a topic.
pub fn mark_row(
    alloc: Global,
    topic: Topic<'_>,
    exits: &Tables,
    rows: &Rows,
    entry: &[u16],
    code: &[Instruction],
) -> Result<Vec<u16>, AllocError>
    ensures { IfOk result (λ marks. marks.items ≡ inside_marking.marks_from topic.entry exits.now
        rows.now entry.now 0 code.now) }
{
    let mut row = copied(alloc, entry)?;
    let mut marks = Vec::new(alloc);
    for (place, instruction) in code.iter().enumerate() {
        rows.take(place, &mut row)?;
        marks.push(mark_word(topic, instruction, &row))?;
        advance(alloc, topic, exits, instruction, &mut row)?;
    }
    Ok(marks)
}

/// The mark of each header's store.
fn header_word(instruction: &Instruction) -> u16
    ensures { result ≡ inside_marking.header_mark instruction.now }
{
    match instruction {
        Instruction::New { .. } | Instruction::Free { .. } => 1,
        _ => 0,
    }
}

/// The marks of a function before any topic: those of the headers that its code stores.
pub fn headers(alloc: Global, code: &[Instruction]) -> Result<Vec<u16>, AllocError>
    ensures { IfOk result (λ marks. marks.items ≡ inside_marking.headers code.now) }
{
    let mut marks = Vec::new(alloc);
    for instruction in code {
        marks.push(header_word(instruction))?;
    }
    Ok(marks)
}
