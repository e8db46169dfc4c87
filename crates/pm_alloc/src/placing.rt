//! A piece of code at a place of a function, with its temporary registers after the function's own.

ghost use Rattle.std.specs.Prelude.{◌≡◌, ◌++◌, ◌∷◌, [], map, OnOk};
ghost use Rattle.pm_alloc.specs.Placing as placing;

use crate::local::{Local, Reg};
use pm_machine::{Code, Op};
use std::alloc::AllocError;

/// The sum, or the last number if it doesn't fit.
pub fn sum(a: u32, b: u32) -> u32
    ensures { result ≡ placing.sum a b }
{
    a.saturating_add(b)
}

fn number(base: u32, register: Reg) -> u32
    ensures { result ≡ placing.register_number base register }
{
    match register {
        Reg::Own(r) => r,
        Reg::Temp(j) => sum(base, j),
    }
}

/// An instruction at its place: jumps are moved by `place`, and the temporary registers begin at
/// `base`.
#[tactic(auto, using(std::proofs::lemmas::Int::wraps))]
fn placed(base: u32, place: u32, local: Local) -> Op
    ensures { result ≡ placing.placed base place local }
{
    match local {
        Local::Const(r, v) => Op::Const {
            r: number(base, r),
            v,
        },
        Local::Mov(r, a) => Op::Mov {
            r: number(base, r),
            a: number(base, a),
        },
        Local::Bin(op, r, a, b) => Op::Bin {
            op,
            r: number(base, r),
            a: number(base, a),
            b: number(base, b),
        },
        Local::Jmp(t) => Op::Jmp { t: sum(place, t) },
        Local::Jz(a, t) => Op::Jz {
            a: number(base, a),
            t: sum(place, t),
        },
        Local::Load(r, a, o) => Op::Load {
            r: number(base, r),
            a: number(base, a),
            o,
        },
        Local::Store(a, o, b) => Op::Store {
            a: number(base, a),
            o,
            b: number(base, b),
        },
        Local::Find(r) => Op::Find { r: number(base, r) },
        Local::Log(a, o) => Op::Log {
            a: number(base, a),
            o,
        },
        Local::Tick => Op::Tick,
        Local::Trap(k) => Op::Trap { k },
    }
}

/// Appends a piece to a function's code, whose end is place `place`.
pub fn push_placed(
    code: &mut Code,
    base: u32,
    place: u32,
    piece: &[Local],
) -> Result<(), AllocError>
    ensures { OnOk result (code.new ≡ code.old ++ map (placing.placed base place) piece.now) }
{
    for local in piece {
        code.push(placed(base, place, *local))?;
    }
    Ok(())
}
