//! The checks before an object or an element is reached.

ghost use Rattle.std.specs.Prelude.{◌≡◌, ◌++◌, ◌+◌, OnOk, ◌<◌, ◌^◌, pos};
ghost use Rattle.pool_layout.specs.Sizes.{slot_words};
ghost use Rattle.pm_alloc.specs.Pieces.{pointer_check, pointer_steps, index_check, index_steps};

use crate::local::{Local, Locals, Reg};
use crate::stores::field_offset;
use nvm_base::BinOp;
use pool_layout::Sizes;
use std::alloc::AllocError;

/// The first number after those of the slots.
fn past_slots(sizes: &Sizes) -> i64
    ensures { result ≡ pos (sizes.now.slots + 1) }
{
    sizes.slots() as i64 + 1
}

/// The number of words of a slot.
fn width_of(sizes: &Sizes) -> i64
    ensures { result ≡ pos (slot_words sizes.now) }
{
    sizes.slot_words() as i64
}

fn push_pointer_steps(
    piece: &mut Locals,
    past: i64,
    width: i64,
    header: i64,
    pointer: u32,
    kind: u32,
) -> Result<(), AllocError>
    ensures { OnOk result (piece.new ≡ piece.old ++ pointer_steps past width header pointer kind) }
{
    piece.extend(&[
        Local::Jz(Reg::Own(pointer), 11),
        Local::Const(Reg::Temp(1), past),
        Local::Bin(BinOp::Ult, Reg::Temp(2), Reg::Own(pointer), Reg::Temp(1)),
        Local::Jz(Reg::Temp(2), 10),
        Local::Const(Reg::Temp(0), width),
        Local::Bin(BinOp::Mul, Reg::Temp(0), Reg::Own(pointer), Reg::Temp(0)),
        Local::Load(Reg::Temp(1), Reg::Temp(0), header),
        Local::Const(Reg::Temp(2), i64::from(kind)),
        Local::Bin(BinOp::Ne, Reg::Temp(1), Reg::Temp(1), Reg::Temp(2)),
        Local::Jz(Reg::Temp(1), 12),
        Local::Trap(2),
        Local::Trap(1),
    ])
}

/// Appends the checks of a pointer to a struct, at the start of a piece: trap 1 if it is 0, trap 2
/// if it isn't a slot or the slot has no such object. After them temporary 0 holds the slot
/// times the words of one.
#[tactic(auto, using(std::proofs::lemmas::Int::wraps))]
pub fn push_pointer_check(
    piece: &mut Locals,
    sizes: &Sizes,
    pointer: u32,
    kind: u32,
) -> Result<(), AllocError>
    ensures { OnOk result (piece.new ≡ piece.old ++ pointer_check sizes.now pointer kind) }
{
    let past = past_slots(sizes);
    let header = field_offset(sizes, 0);
    push_pointer_steps(piece, past, width_of(sizes), header, pointer, kind)
}

fn push_index_steps(
    piece: &mut Locals,
    bad: u32,
    good: u32,
    index: u32,
    length: u32,
) -> Result<(), AllocError>
    ensures { OnOk result (piece.new ≡ piece.old ++ index_steps bad good index length) }
{
    piece.extend(&[
        Local::Const(Reg::Temp(1), i64::from(length)),
        Local::Bin(BinOp::Ult, Reg::Temp(2), Reg::Own(index), Reg::Temp(1)),
        Local::Jz(Reg::Temp(2), bad),
        Local::Jmp(good),
        Local::Trap(3),
        Local::Bin(BinOp::Add, Reg::Temp(0), Reg::Temp(0), Reg::Own(index)),
    ])
}

/// Appends the check of an index, from place `at` of a piece on: trap 3 if it isn't below the
/// length. After it temporary 0 is greater by the index.
pub fn push_index_check(
    piece: &mut Locals,
    at: u32,
    index: u32,
    length: u32,
) -> Result<(), AllocError>
    requires { at < 2 ^ 31 }
    ensures { OnOk result (piece.new ≡ piece.old ++ index_check at index length) }
{
    push_index_steps(piece, at + 4, at + 5, index, length)
}
