//! A store with or without its log, and the places of an object's words.

ghost use Rattle.std.specs.Prelude.{◌≡◌, ◌≤◌, ◌^◌, ◌++◌, OnOk};
ghost use Rattle.pm_alloc.specs.Pieces.{store_code, offset};

use crate::local::{Local, Locals, Reg};
use pool_layout::{Sizes, slot_word};
use std::alloc::AllocError;

/// The word of an object, counted from its header, relative to the object's slot times the
/// words of one.
#[tactic(auto, using(std::proofs::lemmas::Int::wraps))]
pub fn field_offset(sizes: &Sizes, word: u32) -> i64
    ensures { result ≡ offset sizes.now word }
{
    (slot_word(sizes, 1) + u64::from(word)) as i64 - sizes.slot_words() as i64
}

/// Appends a store of `from` at `to + offset`, right after its log if it is logged.
#[tactic(auto, using(std::proofs::lemmas::Int::wraps))]
pub fn push_store(
    piece: &mut Locals,
    logged: bool,
    to: Reg,
    offset: i64,
    from: Reg,
) -> Result<(), AllocError>
    ensures { OnOk result (piece.new ≡ piece.old ++ store_code logged to offset from) }
{
    if logged {
        return piece.extend(&[Local::Log(to, offset), Local::Store(to, offset, from)]);
    }
    piece.push(Local::Store(to, offset, from))
}
