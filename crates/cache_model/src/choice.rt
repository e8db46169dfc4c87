//! The choice of a power cut: a version for each picked line, and the oldest or newest for the
//! rest.

ghost use Rattle.std.specs.Prelude.{List, [], ◌∷◌, ◌++◌, ◌≡◌, OnOk, OnErr};

use std::alloc::{AllocError, Global};
use std::marker::Model;

/// The version that lines without a pick keep: the oldest or the newest.
#[derive(Clone, Copy, Debug, PartialEq, Eq, Drop)]
pub enum Rest {
    Old,
    New,
}

/// A line, and the version that it keeps, counted from 0 at the oldest.
#[derive(Clone, Copy, Drop)]
pub struct Pick {
    pub line: u64,
    pub version: u64,
}

/// The line of the first pick whose line or version doesn't exist, and how many versions it has: 0
/// if there is no such line.
#[derive(Clone, Copy, Debug, PartialEq, Eq, Drop)]
pub struct BadPick {
    pub line: u64,
    pub versions: u64,
}

/// Why a choice was refused, as data for a message: its picks don't rise, or one isn't there.
#[derive(Clone, Copy, Debug, PartialEq, Eq, Drop)]
pub enum PickFault {
    Falling,
    Missing(BadPick),
}

/// A list of picks.
#[derive(Drop)]
pub struct Picks {
    all: Vec<Pick>,
}

impl Model for Picks {
    ghost use Rattle.std.specs.Prelude.{List};
    ghost use Rattle.cache_model.specs.declared.choice.Pick.{Pick};

    ghost Value = { List Pick };

    ghost view = { λ p. p.all.items };
}

impl Picks {
    /// The empty list. It takes no memory.
    pub fn new(alloc: Global) -> Self
        ensures { result ≡ [] }
    {
        Picks {
            all: Vec::new(alloc),
        }
    }

    /// Appends one pick.
    pub fn push(&mut self, pick: Pick) -> Result<(), AllocError>
        ensures ok { OnOk result (self.new ≡ self.old ++ pick ∷ []) }
        ensures err { OnErr result (self.new ≡ self.old) }
    {
        self.all.push(pick)?;
        Ok(())
    }

    /// The picks, by rising lines.
    pub fn as_slice(&self) -> &[Pick]
        ensures { result.now ≡ self.now }
    {
        &self.all
    }
}

/// The version that each line keeps at a power cut.
#[derive(Drop)]
pub struct Choice {
    pub rest: Rest,
    pub picks: Picks,
}
