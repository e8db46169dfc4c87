//! Why a run stops before its end.

ghost use Rattle.std.specs.Prelude.{◌≡◌};
ghost use Rattle.interpreter.specs.declared.fault.Fault.TheVariants.{NoMemory, Trapped};

use c_meaning::TrapAt;
use std::alloc::{AllocError, AllocFailed};

/// A trap, or want of memory.
#[derive(Clone, Copy, PartialEq, Eq)]
pub enum Fault {
    Trapped(TrapAt),
    NoMemory,
}

impl From<AllocError> for Fault {
    ghost from_gives = { λ _ fault. fault ≡ NoMemory };

    fn from(_: AllocError) -> Self {
        Fault::NoMemory
    }
}

impl<T: Drop> From<AllocFailed<T>> for Fault {
    ghost from_gives = { λ _ fault. fault ≡ NoMemory };

    fn from(_: AllocFailed<T>) -> Self {
        Fault::NoMemory
    }
}

impl From<TrapAt> for Fault {
    ghost from_gives = { λ trap fault. fault ≡ Trapped trap };

    fn from(trap: TrapAt) -> Self {
        Fault::Trapped(trap)
    }
}
