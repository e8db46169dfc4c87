//! Why a line or a script isn't read.

ghost use Rattle.std.specs.Prelude.{◌≡◌};

use std::alloc::AllocError;

/// Why a line isn't read.
#[derive(Clone, Copy)]
pub enum LineFault {
    /// The line isn't in the grammar.
    Bad,
    /// There is no memory for its command.
    NoMemory,
}

impl From<AllocError> for LineFault {
    ghost use Rattle.cnvm_script.specs.declared.fault.LineFault.TheVariants.{NoMemory};

    ghost from_gives = { λ _ fault. fault ≡ NoMemory };

    fn from(_: AllocError) -> Self {
        LineFault::NoMemory
    }
}

/// Why a script isn't read.
#[derive(Clone, Copy)]
pub enum ScriptFault {
    /// The first line that isn't in the grammar, counted from 1.
    BadLine(u64),
    /// There is no memory for its commands.
    NoMemory,
}

impl From<AllocError> for ScriptFault {
    ghost use Rattle.cnvm_script.specs.declared.fault.ScriptFault.TheVariants.{NoMemory};

    ghost from_gives = { λ _ fault. fault ≡ NoMemory };

    fn from(_: AllocError) -> Self {
        ScriptFault::NoMemory
    }
}
