//! What was compared, and what differs.

use nvm_base::Text;
use std::alloc::{AllocError, Global};

/// The most differences of a program that are printed.
const MOST_TOLD: u64 = 8;

/// Where something is compared: the number of the call, counted from 1, the number of events after
/// which it is cut, what the cut leaves, and what is compared.
#[derive(Clone, Copy, Debug, PartialEq, Eq)]
pub(crate) struct Place {
    pub(crate) call: u64,
    pub(crate) at: u64,
    pub(crate) left: &'static str,
    pub(crate) what: &'static str,
}

/// What was compared, and what differs.
#[derive(Drop)]
pub(crate) struct Tally {
    calls: u64,
    traps: u64,
    events: u64,
    compared: u64,
    differ: u64,
    told: Text,
}

impl Tally {
    pub(crate) fn new(alloc: Global) -> Self {
        Tally {
            calls: 0,
            traps: 0,
            events: 0,
            compared: 0,
            differ: 0,
            told: Text::new(alloc),
        }
    }

    /// Counts one more call, and gives its number.
    pub(crate) fn begin(&mut self) -> u64 {
        self.calls = self.calls.saturating_add(1);
        self.calls
    }

    /// Counts a call that traps.
    pub(crate) fn trap(&mut self) {
        self.traps = self.traps.saturating_add(1);
    }

    /// Counts one more number of events after which a call is cut.
    pub(crate) fn cut(&mut self) {
        self.events = self.events.saturating_add(1);
    }

    /// Compares two texts.
    pub(crate) fn compare(
        &mut self,
        alloc: Global,
        place: Place,
        wanted: &str,
        seen: &str,
    ) -> Result<(), AllocError> {
        self.compared = self.compared.saturating_add(1);
        if wanted == seen {
            return Ok(());
        }
        self.differ = self.differ.saturating_add(1);
        if self.differ > MOST_TOLD {
            return Ok(());
        }
        self.tell(alloc, place, wanted, seen)
    }

    fn tell(
        &mut self,
        alloc: Global,
        place: Place,
        wanted: &str,
        seen: &str,
    ) -> Result<(), AllocError> {
        let call = place.call;
        let at = place.at;
        let left = place.left;
        let what = place.what;
        let head = format!(in alloc;
            "differs: call {call}, {left} {at}, {what}\nwanted {wanted}seen   {seen}"
        )?;
        self.told.push(head.as_str())
    }

    /// The differences that are printed, each with its line feed.
    pub(crate) fn told(&self) -> &str {
        self.told.as_str()
    }

    /// The line with the numbers.
    pub(crate) fn line(&self, alloc: Global) -> Result<String, AllocError> {
        let calls = self.calls;
        let traps = self.traps;
        let events = self.events;
        let compared = self.compared;
        let differ = self.differ;
        let head = format!(in alloc; "transactions {calls} traps {traps} events cut {events}")?;
        format!(in alloc; "{head} comparisons {compared} differences {differ}")
    }
}
