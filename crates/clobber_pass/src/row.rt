//! Rows of words. A row belongs to one place: it has a word for the start of a walk, one for the
//! sought fact, and one for each register. The bits of a word are the fields of a topic.

ghost use Rattle.std.specs.Prelude.{◌≡◌, slice_set};
ghost use Rattle.clobber_pass.specs.Row as rows;
ghost use Rattle.clobber_pass.specs.inside.Row as inside_rows;

use crate::topic::{StructField, TOPIC_FIELDS};

/// The word of a slot, or 0 if there is none.
#[tactic(auto, using(crate::proofs::bits::Lookup::lookup))]
pub fn word(row: &[u16], slot: usize) -> u16
    ensures { result ≡ rows.word row.now slot }
{
    row.get(slot).copied().unwrap_or(0)
}

/// Writes the word of a slot, if there is one.
#[tactic(auto, using(crate::proofs::bits::Bits::set_past))]
pub fn put(row: &mut [u16], slot: usize, word: u16)
    ensures { row.new ≡ slice_set row.old slot word }
{
    if slot < row.len() {
        row[slot] = word;
    }
}

/// The bit of a field of the root, if the topic's first field is this one.
#[tactic(auto, using(std::proofs::lemmas::Nat::one_shl), unfolding(crate::specs::inside::Row::mask))]
pub fn mask(first: u32, field: u32) -> u16
    ensures { result ≡ inside_rows.mask first field }
{
    if field < first {
        return 0;
    }
    if field - first < TOPIC_FIELDS {
        1 << (field - first)
    } else {
        0
    }
}

/// The bit of the field at this place of the topic, or 0 past its last.
#[tactic(auto, using(std::proofs::lemmas::Nat::one_shl), unfolding(crate::specs::inside::Row::place_bit))]
fn place_bit(place: usize) -> u16
    ensures { result ≡ inside_rows.place_bit place }
{
    if place < TOPIC_FIELDS as usize {
        1 << place
    } else {
        0
    }
}

/// The bit of a place of the topic, if the field there is the one that is sought, else 0.
fn bit_of(one: StructField, place: usize, kind: u32, field: u32) -> u16
    ensures { result ≡ inside_rows.bit_of one place kind field }
{
    if one.kind == kind && one.field == field {
        place_bit(place)
    } else {
        0
    }
}

/// The bit of a field among the fields of a topic, or 0 if it isn't one of them.
pub fn fields_mask(all: &[StructField], kind: u32, field: u32) -> u16
    ensures { result ≡ inside_rows.fields_mask all.now kind field }
{
    let mut bits = 0;
    for (place, one) in all.iter().enumerate() {
        bits |= bit_of(*one, place, kind, field);
    }
    bits
}

/// A word without some of its bits.
#[tactic(auto, unfolding(crate::specs::inside::Row::without))]
pub fn without(word: u16, bits: u16) -> u16
    ensures { result ≡ inside_rows.without word bits }
{
    word ^ (word & bits)
}
