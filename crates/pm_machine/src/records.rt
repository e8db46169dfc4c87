//! The words of which a run has a record.

ghost use Rattle.std.specs.Prelude.{◌≡◌, ◌+◌, ◌<◌, ◌^◌, OnOk, OnErr, length, Some, []};
ghost use Rattle.pm_machine.specs.Logging.{unlisted, noted, bare};

use crate::effect::Effect;
use indexmap::IndexSet;
use std::alloc::{AllocError, Global};
use std::marker::Model;

/// What becomes of a call that traps: its pool ends, or it is rolled back. For that each word that
/// it stores takes a record first.
#[derive(Clone, Copy, PartialEq, Eq, Drop)]
pub enum Policy {
    EndPool,
    RollBack,
}

/// What a run knows of the log: its policy, the number of records, and the words of which this run
/// has one.
#[derive(Drop)]
pub struct Records {
    policy: Policy,
    count: u64,
    words: IndexSet<u64>,
}

impl Model for Records {
    ghost use Rattle.pm_machine.specs.Logging.{Logging};

    ghost Value = { Logging };

    ghost view = { λ m. record { policy = m.policy; count = m.count; words = m.words.keys } };
}

/// What is left of an effect after its record.
pub(crate) fn bare(effect: Effect) -> Effect
    ensures { result ≡ bare effect }
{
    match effect {
        Effect::Logs(_) => Effect::Quiet,
        other => other,
    }
}

impl Records {
    /// No record.
    pub(crate) fn new(alloc: Global) -> Records {
        Records {
            policy: Policy::EndPool,
            count: 0,
            words: IndexSet::new(alloc),
        }
    }

    /// Begins a run, on a log with `count` records. It takes no memory.
    pub(crate) fn begin(&mut self, policy: Policy, count: u64)
        ensures { self.new ≡ record { policy = policy; count = count; words = [] } }
    {
        self.policy = policy;
        self.count = count;
        // `clear` would take time by the most words that were ever there.
        self.words.truncate(0);
    }

    /// The number of records in the log.
    pub(crate) fn count(&self) -> u64
        ensures { result ≡ self.now.count }
    {
        self.count
    }

    /// How many words this run has records of.
    pub(crate) fn taken(&self) -> u64
        ensures { result ≡ length self.now.words }
    {
        self.words.len() as u64
    }

    /// What becomes of a trap.
    pub(crate) fn policy(&self) -> Policy
        ensures { result ≡ self.now.policy }
    {
        self.policy
    }

    /// The word, if it has no record.
    pub(crate) fn unlisted(&self, word: Option<u64>) -> Option<u64>
        ensures { result ≡ unlisted self.now.words word }
    {
        let word = word?;
        if self.words.contains(&word) {
            None
        } else {
            Some(word)
        }
    }

    /// Notes a record of a word.
    pub(crate) fn note(&mut self, word: u64) -> Result<(), AllocError>
        requires { self.old.count < 2 ^ 63 }
        ensures ok { OnOk result (self.new ≡ noted self.old (Some word)) }
        ensures err { OnErr result (self.new ≡ self.old) }
    {
        self.words.insert(word)?;
        self.count += 1;
        Ok(())
    }
}
