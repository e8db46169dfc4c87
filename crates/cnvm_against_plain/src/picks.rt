//! What a power cut leaves.

ghost use Rattle.std.specs.Prelude.{◌≡◌, true};
ghost use Rattle.cache_model.specs.Collapse.{Rises};

use cache_model::{Choice, Pick, Picks, Rest};
use pmem::{Pmem, PmemWork, SimPmem};
use std::alloc::{AllocError, Global};

/// Keeps the oldest version of each line, or the newest.
pub(crate) fn rest_choice(alloc: Global, rest: Rest) -> Choice {
    Choice {
        rest,
        picks: Picks::new(alloc),
    }
}

/// A device whose versions can be kept in turn.
pub(crate) trait Turning {
    /// Keeps versions in turn of the lines that have several: the k-th such line, counted from 0,
    /// keeps version `turn + k` modulo its number of versions.
    fn turning_choice(&self, alloc: Global, turn: u64) -> Result<Choice, AllocError>;
}

impl Turning for SimPmem {
    fn turning_choice(&self, alloc: Global, turn: u64) -> Result<Choice, AllocError> {
        let mut picks = Picks::new(alloc);
        let mut next = turn;
        for line in 0..self.lines() {
            let versions = self.versions(line);
            if versions > 1 {
                picks.push(Pick {
                    line,
                    version: next % versions,
                })?;
                next = next.saturating_add(1);
            }
        }
        Ok(Choice {
            rest: Rest::Old,
            picks,
        })
    }
}

/// Whether the lines of the picks rise.
fn rises(picks: &[Pick]) -> bool
    ensures { result ≡ true → Rises picks.now }
{
    let mut next: u128 = 0;
    for pick in picks {
        if u128::from(pick.line) < next {
            return false;
        }
        next = u128::from(pick.line) + 1;
    }
    true
}

/// Gives power by the choice. The answer says whether its picks exist.
pub(crate) fn power<P: Pmem>(dev: &mut P, choice: &Choice) -> bool
    ensures lines { (P.device dev.new).lines ≡ (P.device dev.old).lines }
    ensures on { (P.device dev.old).on ≡ true → (P.device dev.new).on ≡ true }
{
    if !rises(choice.picks.as_slice()) {
        return false;
    }
    dev.power(choice).is_ok()
}
