//! Which tokens a trap of an instruction is told at.

ghost use Rattle.std.specs.Prelude.{◌≡◌};
ghost use Rattle.trap_line.specs.Spots as definitions;

use nvm_base::List;
use pool_map::TrapKind;

/// The tokens of an instruction: of a bad index, of a full log, and of any other trap.
#[derive(Clone, Copy, Debug, PartialEq, Eq)]
pub struct Spot {
    pub place: u64,
    pub index: u64,
    pub log: u64,
}

/// The tokens of each instruction of a code.
pub type Spots = List<Spot>;

impl Spot {
    /// All traps are told at this token.
    pub(crate) fn at(place: u64) -> Spot
        ensures { result ≡ definitions.spot place }
    {
        Spot {
            place,
            index: place,
            log: place,
        }
    }

    /// The token of a trap.
    pub(crate) fn token(&self, kind: TrapKind) -> u64
        ensures { result ≡ definitions.token_of self.now kind }
    {
        match kind {
            TrapKind::Index => self.index,
            TrapKind::LogFull => self.log,
            _ => self.place,
        }
    }
}
