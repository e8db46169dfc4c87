//! A session over a device in memory.

use crate::picks;
use crate::picks::Turning;
use cache_model::{Choice, Rest};
use cnvm_script::Command;
use cnvm_session::{Answer, Program, Session, create, start_from};
use nvm_base::{Steps, Words};
use pmem::{PmemWork, SimPmem};
use pool_layout::{DONE, MARK, SEAL, pool_lines};
use std::alloc::{AllocError, Global};
use std::sync::ledger::Ledger;

/// A session with its device.
#[derive(Drop)]
pub(crate) struct Rig {
    dev: SimPmem,
    session: Session,
}

/// Words of the pool after a power cut: the number of finished transactions, the mark and the seal.
#[derive(Clone, Copy, Debug, PartialEq, Eq)]
pub(crate) struct Left {
    pub(crate) done: i64,
    pub(crate) mark: i64,
    pub(crate) seal: i64,
}

impl Rig {
    /// Creates a new pool.
    pub(crate) fn create(alloc: Global, program: &Program) -> Option<Rig> {
        let mut dev = SimPmem::new(alloc);
        match create(program, &mut dev) {
            Ok(session) => Some(Rig { dev, session }),
            Err(_) => None,
        }
    }

    /// Opens the pool of these words, and gives the answer of its opening.
    pub(crate) fn open<L: Ledger>(
        alloc: Global,
        program: &Program,
        words: &[i64],
        steps: &mut Steps<L>,
    ) -> Option<(Rig, Answer)> {
        let mut dev = SimPmem::new(alloc);
        match start_from(alloc, program, words, &mut dev, steps) {
            Ok((session, answer)) => Some((Rig { dev, session }, answer)),
            Err(_) => None,
        }
    }

    /// The answer of a command. On a device without the pool's lines, which never occurs, it is
    /// want of memory.
    pub(crate) fn command<L: Ledger>(
        &mut self,
        alloc: Global,
        program: &Program,
        command: &Command,
        steps: &mut Steps<L>,
    ) -> Answer {
        if self.dev.lines() != pool_lines(program.image.sizes()) {
            return Answer::NoMemory;
        }
        self.session
            .command(alloc, program, command, &mut self.dev, steps)
    }

    /// Recovers what the power cut has left.
    pub(crate) fn recover<L: Ledger>(
        &mut self,
        alloc: Global,
        program: &Program,
        steps: &mut Steps<L>,
    ) -> Answer {
        let choice = picks::rest_choice(alloc, Rest::New);
        self.command(alloc, program, &Command::Power(choice), steps)
    }

    /// Gives power by a choice, and recovers nothing. The answer says whether the choice fits.
    pub(crate) fn power(&mut self, choice: &Choice) -> bool {
        picks::power(&mut self.dev, choice)
    }

    /// The choice that keeps versions in turn.
    pub(crate) fn turning_choice(&self, alloc: Global, turn: u64) -> Result<Choice, AllocError> {
        self.dev.turning_choice(alloc, turn)
    }

    /// A word of the pool; 0 if it doesn't exist, and while the device is off.
    fn word(&self, place: u64) -> i64 {
        if place / 8 >= self.dev.lines() {
            return 0;
        }
        match self.dev.load(place) {
            Some(word) => word,
            None => 0,
        }
    }

    /// What a power cut left.
    pub(crate) fn left(&self) -> Left {
        Left {
            done: self.word(DONE),
            mark: self.word(MARK),
            seal: self.word(SEAL),
        }
    }

    /// All words of the pool.
    pub(crate) fn words(&self, alloc: Global) -> Result<Words, AllocError> {
        let mut all = Words::new(alloc);
        for place in 0..self.dev.lines().saturating_mul(8) {
            all.push(self.word(place))?;
        }
        Ok(all)
    }
}
