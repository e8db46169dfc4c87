//! The refusals of a tree.

ghost use Rattle.std.specs.Prelude.{◌≡◌};
ghost use Rattle.c_types.specs.declared.fault.TypeFault.TheVariants.{NoMemory};

use std::alloc::AllocError;
use thiserror::Error;

/// A limit on what a program declares.
#[derive(Clone, Copy, Debug, PartialEq, Eq)]
pub enum LimitKind {
    /// The length of an array is from 1 to 65,536.
    Array,
    /// A struct has at most 511 words; the root's struct may have more.
    Struct,
    /// The root's struct has at most 65,536 words.
    Root,
    /// A pointer leads to a struct of at most 511 words, or of 15 if it is the root's.
    Pointer,
    /// There are at most 255 structs.
    Structs,
    /// There are at most 1,024 functions.
    Functions,
    /// A function has at most 22 parameters.
    Parameters,
}

/// The rule that a tree breaks, at the least token, and at that token with the least number. Each
/// tells the token's line and its place in the list of tokens.
#[derive(Clone, Copy, Debug, PartialEq, Eq, Error)]
pub enum TypeFault {
    /// The variable, function, struct or field doesn't exist.
    #[error("line {line}: no such name")]
    UnknownName {
        line: u64,
        place: u64,
    },
    /// A struct, a function, a field, a name in one scope or the root is declared again.
    #[error("line {line}: declared twice")]
    Twice {
        line: u64,
        place: u64,
    },
    /// A value doesn't have the type that is needed there.
    #[error("line {line}: the types don't fit")]
    Mismatch {
        line: u64,
        place: u64,
    },
    /// The target of an assignment is no variable, field or element.
    #[error("line {line}: this can't be assigned to")]
    NotAssignable {
        line: u64,
        place: u64,
    },
    /// A call with a number of arguments that differs from the number of the function's parameters.
    #[error("line {line}: wrong number of arguments")]
    Arity {
        line: u64,
        place: u64,
    },
    /// More than a limit allows, with the value that exceeds it.
    #[error("line {line}: the limit {limit:?} doesn't allow {value}")]
    TooBig {
        line: u64,
        place: u64,
        limit: LimitKind,
        value: u64,
    },
    /// There is no root declaration; the place is that after the last token.
    #[error("line {line}: no root declaration")]
    NoRoot {
        line: u64,
        place: u64,
    },
    /// A transaction whose result or parameter isn't `int64_t`, or a call of a transaction.
    #[error("line {line}: not allowed for a transaction")]
    BadTx {
        line: u64,
        place: u64,
    },
    #[error("out of memory")]
    NoMemory,
}

impl From<AllocError> for TypeFault {
    ghost from_gives = { λ _ fault. fault ≡ NoMemory };

    fn from(_: AllocError) -> Self {
        TypeFault::NoMemory
    }
}
