//! Why a list of tokens is refused.

ghost use Rattle.std.specs.Prelude.{◌≡◌};
ghost use Rattle.c_parser.specs.declared.fault.ParseFault.TheVariants.{NoMemory};

use std::alloc::{AllocError, AllocFailed};
use thiserror::Error;

/// Why no tree is answered. A place is that of a token, counted from 0; the list's length is the
/// place of the end.
#[derive(Clone, Copy, Debug, PartialEq, Eq, Error)]
pub enum ParseFault {
    /// No program begins with the tokens up to this one.
    #[error("the token at place {0} continues no program")]
    Syntax(u64),
    /// This token is the first whose weight is over 64.
    #[error("the token at place {0} stands too deep")]
    TooDeep(u64),
    #[error("no memory")]
    NoMemory,
}

impl<T: Drop> From<AllocFailed<T>> for ParseFault {
    ghost from_gives = { λ _ f. f ≡ NoMemory };

    fn from(_: AllocFailed<T>) -> Self {
        ParseFault::NoMemory
    }
}

impl From<AllocError> for ParseFault {
    ghost from_gives = { λ _ f. f ≡ NoMemory };

    fn from(_: AllocError) -> Self {
        ParseFault::NoMemory
    }
}
