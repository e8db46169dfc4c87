//! The rows at a function's entry.

ghost use Rattle.std.specs.Prelude.{◌≡◌, ◌<◌, ◌^◌, IfOk};
ghost use Rattle.clobber_pass.specs.inside.Told as told;
ghost use Rattle.clobber_pass.specs.inside.Closed.{entry_row, entry_word};

use crate::topic::Topic;
use std::alloc::{AllocError, Global};

/// The number of words of a row.
pub fn width(topic: Topic<'_>, registers: u32) -> usize
    ensures { result ≡ told.row_width topic.entry registers }
{
    match topic {
        Topic::Frees | Topic::Root { .. } => 2,
        Topic::Fields { .. } => registers as usize + 2,
    }
}

/// The number of the column, at a function's entry, to which a slot belongs: that of its
/// parameter. A register that is no parameter belongs to the column of the walk's start.
fn column_of(parameters: u32, slot: usize) -> usize
    ensures { result ≡ told.column_of parameters slot }
{
    if slot < parameters as usize + 2 {
        slot
    } else {
        0
    }
}

/// What a slot has at an entry, if the function is swept for one column: all bits in that column,
/// and none elsewhere.
fn entry_word(parameters: u32, column: usize, slot: usize) -> u16
    ensures { result ≡ entry_word parameters column slot }
{
    if column_of(parameters, slot) == column {
        u16::MAX
    } else {
        0
    }
}

/// The row at a function's entry, if it is swept for one column.
pub fn entry_row(
    alloc: Global,
    topic: Topic<'_>,
    parameters: u32,
    registers: u32,
    column: usize,
) -> Result<Vec<u16>, AllocError>
    ensures { IfOk result (λ row. row.items ≡ entry_row topic.entry parameters registers column) }
{
    let mut row = Vec::new(alloc);
    for slot in 0..width(topic, registers) {
        row.push(entry_word(parameters, column, slot))?;
    }
    Ok(row)
}
