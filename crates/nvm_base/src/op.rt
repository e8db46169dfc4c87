//! The binary operations, shared by the intermediate code and the machine.

ghost use Rattle.std.specs.Prelude.{◌≡◌};
ghost use Rattle.nvm_base.specs.Applied.{applied};

use crate::word::{add, div, less, mul, rem, shl, shr, sub, udiv, ule, ult, urem, ushr};

/// A binary operation on 64-bit words. `Lt`, `Le`, `Eq`, `Ne`, `Ult` and `Ule` give 0 or 1. Those
/// whose names begin with U take their operands as unsigned numbers.
#[derive(Clone, Copy, Debug)]
pub enum BinOp {
    Add,
    Sub,
    Mul,
    Div,
    Rem,
    Shl,
    Shr,
    And,
    Or,
    Xor,
    Lt,
    Le,
    Eq,
    Ne,
    Ult,
    Ule,
    Udiv,
    Urem,
    Ushr,
}

impl BinOp {
    /// The result of the operation on two words. A quotient and a remainder by 0 are 0.
    #[tactic(auto, using(std::proofs::lemmas::Int::wraps))]
    pub fn apply(self, a: i64, b: i64) -> i64
        ensures { result ≡ applied self a b }
    {
        match self {
            BinOp::Add => add(a, b),
            BinOp::Sub => sub(a, b),
            BinOp::Mul => mul(a, b),
            BinOp::Div => { if b == 0 { 0 } else { div(a, b) } }
            BinOp::Rem => { if b == 0 { 0 } else { rem(a, b) } }
            BinOp::Shl => shl(a, b),
            BinOp::Shr => shr(a, b),
            BinOp::And => a & b,
            BinOp::Or => a | b,
            BinOp::Xor => a ^ b,
            BinOp::Lt => less(a, b),
            BinOp::Le => i64::from(a <= b),
            BinOp::Eq => i64::from(a == b),
            BinOp::Ne => i64::from(a != b),
            BinOp::Ult => ult(a, b),
            BinOp::Ule => ule(a, b),
            BinOp::Udiv => { if b == 0 { 0 } else { udiv(a, b) } }
            BinOp::Urem => { if b == 0 { 0 } else { urem(a, b) } }
            BinOp::Ushr => ushr(a, b),
        }
    }
}
