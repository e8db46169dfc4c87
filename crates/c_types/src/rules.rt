//! Which types fit where.

ghost use Rattle.std.specs.Prelude.{◌≡◌};
ghost use Rattle.c_types.specs.Fits as fits;

use crate::value_type::ValueType;
use c_tree::expr::{BinaryOp, IntType, UnaryOp};
use c_tree::stmt::AssignOp;

/// Whether a value has the type of what is refused already, which fits everywhere.
pub fn is_any(value: ValueType) -> bool
    ensures { result ≡ fits.is_any value }
{
    match value {
        ValueType::Any => true,
        ValueType::Int(_) => false,
        ValueType::Null => false,
        ValueType::Pointer(_) => false,
    }
}

/// Whether a value fits where an int is needed.
pub fn is_int(value: ValueType) -> bool
    ensures { result ≡ fits.is_int value }
{
    match value {
        ValueType::Any => true,
        ValueType::Int(_) => true,
        ValueType::Null => false,
        ValueType::Pointer(_) => false,
    }
}

/// Whether a value fits where a pointer is needed.
pub fn is_pointer(value: ValueType) -> bool
    ensures { result ≡ fits.is_pointer value }
{
    match value {
        ValueType::Any => true,
        ValueType::Int(_) => false,
        ValueType::Null => false,
        ValueType::Pointer(_) => true,
    }
}

fn is_null(value: ValueType) -> bool
    ensures { result ≡ fits.is_null value }
{
    match value {
        ValueType::Any => true,
        ValueType::Int(_) => false,
        ValueType::Null => true,
        ValueType::Pointer(_) => false,
    }
}

/// Whether a value fits where a pointer to this struct is needed.
fn is_pointer_to(target: u64, value: ValueType) -> bool
    ensures { result ≡ fits.is_pointer_to target value }
{
    match value {
        ValueType::Any => true,
        ValueType::Int(_) => false,
        ValueType::Null => true,
        ValueType::Pointer(other) => target == other,
    }
}

/// Whether a value may be given to a target: it has the target's type, or it is null and the target
/// is a pointer.
pub fn type_takes(target: ValueType, value: ValueType) -> bool
    ensures { result ≡ fits.type_takes target value }
{
    match target {
        ValueType::Any => true,
        ValueType::Int(_) => is_int(value),
        ValueType::Null => is_null(value),
        ValueType::Pointer(to) => is_pointer_to(to, value),
    }
}

/// Whether two values may be compared with `==`, or be both sides of `?`: both int, pointers to the
/// same struct, or null with a pointer or null.
pub fn comparable(left: ValueType, right: ValueType) -> bool
    ensures { result ≡ fits.comparable left right }
{
    match left {
        ValueType::Any => true,
        ValueType::Int(_) => is_int(right),
        ValueType::Pointer(to) => is_pointer_to(to, right),
        ValueType::Null => match right {
            ValueType::Any => true,
            ValueType::Null => true,
            ValueType::Int(_) => false,
            ValueType::Pointer(_) => true,
        },
    }
}

/// The type of ints that a type is; `int64_t` if it is none.
pub fn int_of(value: ValueType) -> IntType
    ensures { result ≡ fits.int_of value }
{
    match value {
        ValueType::Int(int) => int,
        _ => IntType::Signed,
    }
}

/// The common type of two ints: `uint64_t` where one of them is.
fn common_int(left: IntType, right: IntType) -> IntType
    ensures { result ≡ fits.common_int left right }
{
    match left {
        IntType::Signed => right,
        IntType::Unsigned => IntType::Unsigned,
    }
}

/// The type of two such values together: the common type of ints, and that of the pointer where one
/// of them is null.
pub fn common_type(left: ValueType, right: ValueType) -> ValueType
    ensures { result ≡ fits.common_type left right }
{
    match left {
        ValueType::Null => right,
        ValueType::Any => left,
        ValueType::Int(int) => ValueType::Int(common_int(int, int_of(right))),
        ValueType::Pointer(_) => left,
    }
}

/// Whether a binary operator takes these operands.
pub fn joins_types(op: BinaryOp, left: ValueType, right: ValueType) -> bool
    ensures { result ≡ fits.joins_types op left right }
{
    match op {
        BinaryOp::Both => true,
        BinaryOp::Either => true,
        BinaryOp::Equal => comparable(left, right),
        BinaryOp::NotEqual => comparable(left, right),
        BinaryOp::Mul => is_int(left) && is_int(right),
        BinaryOp::Div => is_int(left) && is_int(right),
        BinaryOp::Rem => is_int(left) && is_int(right),
        BinaryOp::Add => is_int(left) && is_int(right),
        BinaryOp::Sub => is_int(left) && is_int(right),
        BinaryOp::ShiftLeft => is_int(left) && is_int(right),
        BinaryOp::ShiftRight => is_int(left) && is_int(right),
        BinaryOp::Less => is_int(left) && is_int(right),
        BinaryOp::LessEqual => is_int(left) && is_int(right),
        BinaryOp::Greater => is_int(left) && is_int(right),
        BinaryOp::GreaterEqual => is_int(left) && is_int(right),
        BinaryOp::And => is_int(left) && is_int(right),
        BinaryOp::Xor => is_int(left) && is_int(right),
        BinaryOp::Or => is_int(left) && is_int(right),
    }
}

/// Whether a unary operator takes this operand.
pub fn applies(op: UnaryOp, operand: ValueType) -> bool
    ensures { result ≡ fits.applies op operand }
{
    match op {
        UnaryOp::Not => true,
        UnaryOp::Negate => is_int(operand),
        UnaryOp::Complement => is_int(operand),
        UnaryOp::Cast(_) => is_int(operand),
    }
}

/// The ints that an operator computes with: the left side of a shift, else the common type of both.
pub fn computes_with(op: BinaryOp, left: ValueType, right: ValueType) -> IntType
    ensures { result ≡ fits.computes_with op left right }
{
    match op {
        BinaryOp::ShiftLeft | BinaryOp::ShiftRight => int_of(left),
        _ => common_int(int_of(left), int_of(right)),
    }
}

/// Whether an operator's value is 0 or 1, of the type `int64_t`.
fn gives_truth(op: BinaryOp) -> bool
    ensures { result ≡ fits.gives_truth op }
{
    match op {
        BinaryOp::Less | BinaryOp::LessEqual | BinaryOp::Greater | BinaryOp::GreaterEqual => true,
        BinaryOp::Equal | BinaryOp::NotEqual | BinaryOp::Both | BinaryOp::Either => true,
        _ => false,
    }
}

/// The type of a binary operator's value.
pub fn binary_type(op: BinaryOp, left: ValueType, right: ValueType) -> ValueType
    ensures { result ≡ fits.binary_type op left right }
{
    if gives_truth(op) {
        ValueType::Int(IntType::Signed)
    } else {
        ValueType::Int(computes_with(op, left, right))
    }
}

/// The type of a unary operator's value.
pub fn unary_type(op: UnaryOp, operand: ValueType) -> ValueType
    ensures { result ≡ fits.unary_type op operand }
{
    match op {
        UnaryOp::Not => ValueType::Int(IntType::Signed),
        UnaryOp::Negate => ValueType::Int(int_of(operand)),
        UnaryOp::Complement => ValueType::Int(int_of(operand)),
        UnaryOp::Cast(int) => ValueType::Int(int),
    }
}

/// Whether an assignment takes this target and this value.
pub fn assigns(op: AssignOp, target: ValueType, value: ValueType) -> bool
    ensures { result ≡ fits.assigns op target value }
{
    match op {
        AssignOp::Set => type_takes(target, value),
        AssignOp::Update(_) => is_int(target) && is_int(value),
    }
}
