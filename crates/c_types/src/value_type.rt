//! The types of values, and what an expression denotes.

ghost use Rattle.std.specs.Prelude.{◌≡◌};
ghost use Rattle.c_types.specs.Tables.{pointed_struct};

use c_tree::expr::IntType;

/// The type of a value. If a part of an expression was refused, its type is `Any`, which breaks no
/// rule.
#[derive(Clone, Copy, PartialEq, Eq)]
pub enum ValueType {
    /// `int64_t` or `uint64_t`
    Int(IntType),
    /// A pointer to the struct at this place among the structs, counted from 0.
    Pointer(u64),
    /// `NULL`
    Null,
    Any,
}

impl ValueType {
    /// The place of the struct that a value of this type points to, counted from 0.
    pub fn pointed_struct(self) -> Option<u64>
        ensures { result ≡ pointed_struct self }
    {
        match self {
            ValueType::Pointer(at) => Some(at),
            ValueType::Int(_) => None,
            ValueType::Null => None,
            ValueType::Any => None,
        }
    }
}

/// What an expression denotes: a value, or a whole array field, which is no value.
#[derive(Clone, Copy, PartialEq, Eq)]
pub enum Kind {
    Value(ValueType),
    /// An array field, with the type of its elements and the place of its name.
    Array { element: ValueType, place: u64 },
}
