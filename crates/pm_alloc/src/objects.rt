//! The code that makes an object, and the code that frees one.

ghost use Rattle.std.specs.Prelude.{◌≡◌, ◌<◌, ◌≤◌, ◌+◌, ◌*◌, ◌^◌, ◌++◌, length, OnOk};
ghost use Rattle.pm_alloc.specs.Pieces.{fill_code, loop_code, loop_fill, fills_by_loop, filling};
ghost use Rattle.pm_alloc.specs.Pieces.{new_head, new_code, new_or_trap, free_code};
ghost use Rattle.pool_map.specs.declared.limits.TheConstants.{OBJECT_WORDS};

use crate::checks::push_pointer_check;
use crate::local::{Local, Locals, Reg};
use crate::stores::{field_offset, push_store};
use nvm_base::BinOp;
use pool_layout::Sizes;
use std::alloc::AllocError;

/// The most words of a slot whose objects are filled word by word. A loop is slower, and for slots
/// of 24 words it would take more steps than an instruction has.
pub const UNROLLED_SLOT: u64 = 24;

/// Appends zeros for the field words of a new object, word by word; temporary 1 holds W times its
/// slot.
#[tactic(auto, using(crate::proofs::Pieces::fill_code_step))]
fn push_fill(piece: &mut Locals, sizes: &Sizes, logged: bool, words: u32) -> Result<(), AllocError>
    requires { words ≤ OBJECT_WORDS }
    ensures { OnOk result (piece.new ≡ piece.old ++ fill_code sizes.now logged 1 words) }
{
    for word in 0..words {
        let offset = field_offset(sizes, word + 1);
        push_store(piece, logged, Reg::Temp(1), offset, Reg::Temp(6))?;
    }
    Ok(())
}

/// Appends the loop that stores zeros, whose first store is at place `place` of the piece.
fn push_loop(piece: &mut Locals, sizes: &Sizes, logged: bool, place: u32) -> Result<(), AllocError>
    ensures { OnOk result (piece.new ≡ piece.old ++ loop_code sizes.now logged place) }
{
    let first = field_offset(sizes, 1);
    push_store(piece, logged, Reg::Temp(1), first, Reg::Temp(6))?;
    piece.extend(&[
        Local::Bin(BinOp::Add, Reg::Temp(1), Reg::Temp(1), Reg::Temp(4)),
        Local::Bin(BinOp::Eq, Reg::Temp(2), Reg::Temp(1), Reg::Temp(3)),
        Local::Jz(Reg::Temp(2), place),
    ])
}

/// Appends the same fill as a loop, from place `place` of the piece on.
fn push_loop_fill(
    piece: &mut Locals,
    sizes: &Sizes,
    logged: bool,
    place: u32,
    words: u32,
) -> Result<(), AllocError>
    requires { place < 2 ^ 31 }
    ensures { OnOk result (piece.new ≡ piece.old ++ loop_fill sizes.now logged place words) }
{
    piece.extend(&[
        Local::Const(Reg::Temp(4), 1),
        Local::Const(Reg::Temp(3), i64::from(words)),
        Local::Bin(BinOp::Add, Reg::Temp(3), Reg::Temp(3), Reg::Temp(1)),
    ])?;
    push_loop(piece, sizes, logged, place + 3)
}

/// Whether the fill is a loop.
fn fills_by_loop(sizes: &Sizes, words: u32) -> bool
    ensures { result ≡ fills_by_loop sizes.now words }
{
    sizes.slot_words() > UNROLLED_SLOT && words > 0
}

/// Appends the fill, at place 8 of a piece.
fn push_filling(
    piece: &mut Locals,
    sizes: &Sizes,
    logged: bool,
    words: u32,
) -> Result<(), AllocError>
    requires { words ≤ OBJECT_WORDS }
    ensures { OnOk result (piece.new ≡ piece.old ++ filling sizes.now logged 8 words) }
{
    if fills_by_loop(sizes, words) {
        return push_loop_fill(piece, sizes, logged, 8, words);
    }
    push_fill(piece, sizes, logged, words)
}

/// The number of instructions of the fill.
#[tactic(auto, using(crate::proofs::Pieces::filling_length))]
fn fill_length(sizes: &Sizes, logged: bool, words: u32) -> u32
    requires { words ≤ OBJECT_WORDS }
    ensures length { result ≡ length (filling sizes.now logged 8 words) }
    ensures bound { result ≤ 2 * OBJECT_WORDS }
{
    match (fills_by_loop(sizes, words), logged) {
        (true, true) => 8,
        (true, false) => 7,
        (false, true) => 2 * words,
        (false, false) => words,
    }
}

/// Appends the search for the least free slot and the store of the header. Temporary 0 is the slot,
/// temporary 1 is W times it; if no slot is free the code jumps past the fill, with no store.
fn push_search(piece: &mut Locals, sizes: &Sizes, kind: u32, fill: u32) -> Result<(), AllocError>
    requires { fill ≤ 2 * OBJECT_WORDS }
    ensures { OnOk result (piece.new ≡ piece.old ++ new_head sizes.now kind fill) }
{
    let header = field_offset(sizes, 0);
    piece.extend(&[
        Local::Find(Reg::Temp(0)),
        Local::Jz(Reg::Temp(0), 8 + fill),
        Local::Const(Reg::Temp(1), sizes.slot_words() as i64),
        Local::Bin(BinOp::Mul, Reg::Temp(1), Reg::Temp(0), Reg::Temp(1)),
        Local::Const(Reg::Temp(5), i64::from(kind)),
        Local::Log(Reg::Temp(1), header),
        Local::Store(Reg::Temp(1), header, Reg::Temp(5)),
        Local::Const(Reg::Temp(6), 0),
    ])
}

/// Appends the search, the logged store of the header, and the fill, whose stores are logged if
/// `logged` is true.
#[tactic(auto, using(crate::proofs::Pieces::new_code_parts))]
fn push_object(
    piece: &mut Locals,
    sizes: &Sizes,
    to: u32,
    kind: u32,
    words: u32,
    logged: bool,
) -> Result<(), AllocError>
    requires { words ≤ OBJECT_WORDS }
    ensures { OnOk result (piece.new ≡ piece.old ++ new_code sizes.now to kind words logged) }
{
    push_search(piece, sizes, kind, fill_length(sizes, logged, words))?;
    push_filling(piece, sizes, logged, words)?;
    piece.push(Local::Mov(Reg::Own(to), Reg::Temp(0)))
}

/// Appends the code of a `pm_new` of a struct of this many words, at the start of a piece. The code
/// of a struct that has no room in a slot is a trap.
pub fn push_new(
    piece: &mut Locals,
    sizes: &Sizes,
    to: u32,
    kind: u32,
    words: u64,
    logged: bool,
) -> Result<(), AllocError>
    ensures { OnOk result (piece.new ≡ piece.old ++ new_or_trap sizes.now to kind words logged) }
{
    if words >= sizes.slot_words() {
        return piece.push(Local::Trap(2));
    }
    push_object(piece, sizes, to, kind, words as u32, logged)
}

/// Appends the code of a `pm_free`, at the start of a piece: the checks of the pointer, and a
/// logged store of 0 to the header.
pub fn push_free(piece: &mut Locals, sizes: &Sizes, from: u32, kind: u32) -> Result<(), AllocError>
    ensures { OnOk result (piece.new ≡ piece.old ++ free_code sizes.now from kind) }
{
    push_pointer_check(piece, sizes, from, kind)?;
    piece.push(Local::Const(Reg::Temp(1), 0))?;
    let header = field_offset(sizes, 0);
    push_store(piece, true, Reg::Temp(0), header, Reg::Temp(1))
}
