//! The operators on words.

ghost use Rattle.std.specs.Prelude.{◌≡◌, Some};
ghost use Rattle.c_tree.specs.declared.expr.BinaryOp.TheVariants as binary;
ghost use Rattle.c_tree.specs.declared.expr.IntType.TheVariants as int;
ghost use Rattle.c_meaning.specs.Operators.{unary_of, binary_of};

use c_tree::expr::{BinaryOp, IntType, UnaryOp};
use nvm_base::{BinOp, div, rem, sub, udiv, urem};

/// The result of a unary operator on a word.
#[tactic(auto, using(std::proofs::lemmas::Int::wraps))]
pub fn unary(op: UnaryOp, a: i64) -> i64
    ensures { result ≡ unary_of op a }
{
    match op {
        UnaryOp::Negate => sub(0, a),
        UnaryOp::Not => BinOp::Eq.apply(a, 0),
        UnaryOp::Complement => BinOp::Xor.apply(-1, a),
        UnaryOp::Cast(_) => a,
    }
}

/// The result of a binary operator on two words as ints of this type; `None` if the divisor is 0.
pub fn binary(op: BinaryOp, int: IntType, a: i64, b: i64) -> Option<i64>
    ensures { result ≡ binary_of op int a b }
{
    match int {
        IntType::Signed => signed(op, a, b),
        IntType::Unsigned => unsigned(op, a, b),
    }
}

#[tactic(auto, using(std::proofs::lemmas::Int::wraps))]
fn unsigned(op: BinaryOp, a: i64, b: i64) -> Option<i64>
    ensures { result ≡ binary_of op int.Unsigned a b }
{
    match op {
        BinaryOp::Div => { if b == 0 { None } else { Some(udiv(a, b)) } }
        BinaryOp::Rem => { if b == 0 { None } else { Some(urem(a, b)) } }
        BinaryOp::ShiftRight => Some(BinOp::Ushr.apply(a, b)),
        BinaryOp::Less => Some(BinOp::Ult.apply(a, b)),
        BinaryOp::LessEqual => Some(BinOp::Ule.apply(a, b)),
        BinaryOp::Greater => Some(BinOp::Ult.apply(b, a)),
        BinaryOp::GreaterEqual => Some(BinOp::Ule.apply(b, a)),
        _ => signed(op, a, b),
    }
}

#[tactic(auto, using(std::proofs::lemmas::Int::wraps))]
fn signed(op: BinaryOp, a: i64, b: i64) -> Option<i64>
    ensures { result ≡ binary_of op int.Signed a b }
{
    match op {
        BinaryOp::Div => { if b == 0 { None } else { Some(div(a, b)) } }
        BinaryOp::Rem => { if b == 0 { None } else { Some(rem(a, b)) } }
        BinaryOp::Mul => Some(BinOp::Mul.apply(a, b)),
        BinaryOp::Add => Some(BinOp::Add.apply(a, b)),
        BinaryOp::Sub => Some(BinOp::Sub.apply(a, b)),
        BinaryOp::ShiftLeft => Some(BinOp::Shl.apply(a, b)),
        BinaryOp::ShiftRight => Some(BinOp::Shr.apply(a, b)),
        BinaryOp::Less => Some(BinOp::Lt.apply(a, b)),
        BinaryOp::LessEqual => Some(BinOp::Le.apply(a, b)),
        BinaryOp::Greater => Some(BinOp::Lt.apply(b, a)),
        BinaryOp::GreaterEqual => Some(BinOp::Le.apply(b, a)),
        BinaryOp::Equal => Some(BinOp::Eq.apply(a, b)),
        BinaryOp::NotEqual => Some(BinOp::Ne.apply(a, b)),
        BinaryOp::And => Some(BinOp::And.apply(a, b)),
        BinaryOp::Xor => Some(BinOp::Xor.apply(a, b)),
        BinaryOp::Or => Some(BinOp::Or.apply(a, b)),
        BinaryOp::Both => Some(both(a, b)),
        BinaryOp::Either => Some(either(a, b)),
    }
}

#[tactic(auto, using(std::proofs::lemmas::Int::wraps))]
fn both(a: i64, b: i64) -> i64
    ensures { Some result ≡ binary_of binary.Both int.Signed a b }
{
    if a == 0 { 0 } else { BinOp::Ne.apply(b, 0) }
}

#[tactic(auto, using(std::proofs::lemmas::Int::wraps))]
fn either(a: i64, b: i64) -> i64
    ensures { Some result ≡ binary_of binary.Either int.Signed a b }
{
    if a == 0 { BinOp::Ne.apply(b, 0) } else { 1 }
}
