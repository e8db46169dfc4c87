//! The refusals of a text.

ghost use Rattle.std.specs.Prelude.{◌≡◌};
ghost use Rattle.c_lexer.specs.declared.fault.LexFault.TheVariants.{NoMemory};

use std::alloc::{AllocError, AllocFailed};
use thiserror::Error;

/// Why a text has no tokens. A place is a line, counted from 1, and the number of bytes before it.
#[derive(Clone, Copy, Debug, PartialEq, Eq, Error)]
pub enum LexFault {
    /// A byte that begins no token, blank, comment or skipped line.
    #[error("line {line}: no token begins with this byte")]
    BadByte { line: u64, start: u64 },
    /// A run of letters, digits and `_` that begins with a digit but is no number.
    #[error("line {line}: not a number")]
    BadNumber { line: u64, start: u64 },
    /// A comment that is never closed; the place is that of its `/*`.
    #[error("line {line}: the comment is never closed")]
    OpenComment { line: u64, start: u64 },
    /// More than 262,144 bytes, or more than 16,384 tokens.
    #[error("the program is too long")]
    TooLong,
    #[error("out of memory")]
    NoMemory,
}

impl From<AllocError> for LexFault {
    ghost from_gives = { λ _ e. e ≡ NoMemory };

    fn from(_: AllocError) -> LexFault {
        LexFault::NoMemory
    }
}

impl<T: Drop> From<AllocFailed<T>> for LexFault {
    ghost from_gives = { λ _ e. e ≡ NoMemory };

    fn from(_: AllocFailed<T>) -> LexFault {
        LexFault::NoMemory
    }
}
