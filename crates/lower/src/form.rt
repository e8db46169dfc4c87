//! How a binary operator is lowered.

ghost use Rattle.std.specs.Prelude.{◌≡◌};
ghost use Rattle.lower.specs.Forms as forms;

use c_tree::expr::{BinaryOp, IntType};
use nvm_base::BinOp;

/// `&&` and `||` are branches. Each other operator is one operation, and `a > b` is `b < a`.
#[derive(Clone, Copy)]
pub enum Form {
    Both,
    Either,
    Direct(BinOp),
    Exchanged(BinOp),
}

/// The operation of ints of this type, where it is `op` of `int64_t`.
pub fn operation_of(int: IntType, op: BinOp) -> BinOp
    ensures { result ≡ forms.operation_of int op }
{
    match int {
        IntType::Signed => op,
        IntType::Unsigned => unsigned_operation(op),
    }
}

fn unsigned_operation(op: BinOp) -> BinOp
    ensures { result ≡ forms.unsigned_operation op }
{
    match op {
        BinOp::Div => BinOp::Udiv,
        BinOp::Rem => BinOp::Urem,
        BinOp::Shr => BinOp::Ushr,
        BinOp::Lt => BinOp::Ult,
        BinOp::Le => BinOp::Ule,
        _ => op,
    }
}

/// The form with the operation of ints of this type.
pub fn typed_form(int: IntType, form: Form) -> Form
    ensures { result ≡ forms.typed_form int form }
{
    match form {
        Form::Both => Form::Both,
        Form::Either => Form::Either,
        Form::Direct(op) => Form::Direct(operation_of(int, op)),
        Form::Exchanged(op) => Form::Exchanged(operation_of(int, op)),
    }
}

/// The form of an operator of `int64_t`.
pub fn form_of(op: BinaryOp) -> Form
    ensures { result ≡ forms.form_of op }
{
    match op {
        BinaryOp::Mul => Form::Direct(BinOp::Mul),
        BinaryOp::Div => Form::Direct(BinOp::Div),
        BinaryOp::Rem => Form::Direct(BinOp::Rem),
        BinaryOp::Add => Form::Direct(BinOp::Add),
        BinaryOp::Sub => Form::Direct(BinOp::Sub),
        BinaryOp::ShiftLeft => Form::Direct(BinOp::Shl),
        BinaryOp::ShiftRight => Form::Direct(BinOp::Shr),
        BinaryOp::Less => Form::Direct(BinOp::Lt),
        BinaryOp::LessEqual => Form::Direct(BinOp::Le),
        BinaryOp::Greater => Form::Exchanged(BinOp::Lt),
        BinaryOp::GreaterEqual => Form::Exchanged(BinOp::Le),
        BinaryOp::Equal => Form::Direct(BinOp::Eq),
        BinaryOp::NotEqual => Form::Direct(BinOp::Ne),
        BinaryOp::And => Form::Direct(BinOp::And),
        BinaryOp::Xor => Form::Direct(BinOp::Xor),
        BinaryOp::Or => Form::Direct(BinOp::Or),
        BinaryOp::Both => Form::Both,
        BinaryOp::Either => Form::Either,
    }
}
