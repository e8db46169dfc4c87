//! The effect of an instruction on a row.

ghost use Rattle.std.specs.Prelude.{◌≡◌};
ghost use Rattle.clobber_pass.specs.inside.Row as inside_rows;

use crate::row::{fields_mask, mask, put, without, word};
use crate::topic::Topic;
use ir::{Instruction, Target};

/// A load adds its field unless the field is surely written.
fn read(topic: Topic<'_>, target: Target, row: &mut [u16])
    ensures { row.new ≡ inside_rows.with_read topic.entry target row.old }
{
    match (topic, target) {
        (Topic::Root { first }, Target::Root { field, .. }) => {
            let read = word(row, 0) & mask(first, field);
            put(row, 1, word(row, 1) | read);
        }
        (
            Topic::Fields { all },
            Target::Field {
                base,
                kind,
                field,
                ..
            },
        ) => {
            let read = word(row, base as usize + 2) & fields_mask(all, kind, field);
            put(row, 1, word(row, 1) | read);
        }
        _ => {}
    }
}

/// A store to a field that isn't an array makes it surely written.
fn write(topic: Topic<'_>, target: Target, row: &mut [u16])
    ensures { row.new ≡ inside_rows.with_write topic.entry target row.old }
{
    match (topic, target) {
        (Topic::Root { first }, Target::Root { field, index: None }) => {
            put(row, 0, without(word(row, 0), mask(first, field)));
        }
        (
            Topic::Fields { all },
            Target::Field {
                base,
                kind,
                field,
                index: None,
            },
        ) => {
            let slot = base as usize + 2;
            put(
                row,
                slot,
                without(word(row, slot), fields_mask(all, kind, field)),
            );
        }
        _ => {}
    }
}

/// A register takes a word.
fn set(row: &mut [u16], register: u32, word: u16)
    ensures { row.new ≡ inside_rows.row_given row.old register word }
{
    put(row, register as usize + 2, word);
}

/// The effect on a row of an instruction that is no call.
pub fn step(topic: Topic<'_>, instruction: &Instruction, row: &mut [u16])
    ensures { row.new ≡ inside_rows.after_row topic.entry instruction.now row.old }
{
    match instruction {
        Instruction::Const { to, .. } | Instruction::Bin { to, .. } => set(row, *to, word(row, 0)),
        Instruction::Copy { to, from } => set(row, *to, word(row, *from as usize + 2)),
        Instruction::Load { to, target } => {
            read(topic, *target, row);
            set(row, *to, word(row, 0));
        }
        Instruction::Store { target, .. } => write(topic, *target, row),
        Instruction::New { to, .. } => set(row, *to, 0),
        Instruction::Free { .. } => match topic {
            Topic::Frees => put(row, 1, word(row, 0)),
            _ => {}
        },
        _ => {}
    }
}
