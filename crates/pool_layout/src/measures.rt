//! Numbers that follow from a pool's sizes: its lines, and where its heap and its slots begin.

ghost use Rattle.std.specs.Prelude.{◌≡◌, ◌≤◌};
ghost use Rattle.pool_layout.specs.Sizes as sizes_of;

use crate::limits::Sizes;

/// The number of lines, of eight words each, of the pool.
pub fn pool_lines(sizes: &Sizes) -> u64
    ensures { result ≡ sizes_of.pool_lines sizes.now }
{
    6 + sizes.records() + root_lines(sizes) + sizes.slot_lines() * sizes.slots()
}

/// The pool's word where the heap begins.
pub fn heap_start(sizes: &Sizes) -> u64
    ensures { result ≡ sizes_of.heap_start sizes.now }
{
    8 * (6 + sizes.records())
}

/// The number of heap words: those of the root's lines, and those of each slot.
pub fn heap_words(sizes: &Sizes) -> u64
    ensures { result ≡ sizes_of.heap_words sizes.now }
{
    8 * root_lines(sizes) + sizes.slot_words() * sizes.slots()
}

/// The heap word where a slot begins, which is its header. Slots are counted from 1.
pub fn slot_word(sizes: &Sizes, slot: u64) -> u64
    requires first { 1 ≤ slot }
    requires last { slot ≤ sizes.now.slots }
    ensures { result ≡ sizes_of.slot_word sizes.now slot }
{
    8 * root_lines(sizes) + sizes.slot_words() * (slot - 1)
}

fn root_lines(sizes: &Sizes) -> u64
    ensures value { result ≡ sizes_of.root_lines sizes.now }
    ensures few { result ≤ 8192 }
{
    sizes.root_words().div_ceil(8)
}
