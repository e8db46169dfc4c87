//! The device in memory. It shows its armed fault, and fails exactly there.

ghost use Rattle.std.specs.Prelude.{◌≡◌, ◌*◌, ◌+◌, ◌<◌, length, slice_index_or, true, false, Some};
ghost use Rattle.std.specs.Prelude.{None, IsSome, IsNone, IfSome, OnOk, OnErr, IfErr, IfOk, ◌%◌};
ghost use Rattle.cache_model.specs.Cache.{blank, view};
ghost use Rattle.cache_model.specs.Event.{Store, Flush, Fence};
ghost use Rattle.cache_model.specs.Collapse.{bad, Rises};
ghost use Rattle.cache_model.specs.Lists.{blank_list};
ghost use Rattle.pmem.specs.Device.{Device, memory_of, blanked, powered, with_left, with_armed};
ghost use Rattle.pmem.specs.Played.{Answered, Stored};
ghost use Rattle.pmem.specs.Switch.{told_device, fresh_switch};
ghost use Rattle.pmem.specs.Filled.{filled};
ghost use Rattle.pmem.specs.Kept.{more_lines};
ghost use Rattle.pmem.specs.Sparse.{sparse_memory};

use crate::answer::{Event, StoreEvent};
use crate::device::{Pmem, PmemWork};
use crate::lines::Lines;
use crate::sparse_lines::SparseLines;
use crate::switch::Switch;
use cache_model::{BadPick, Cache, Choice};
use std::alloc::{AllocError, Global};
use std::mem;

/// Lines and a switch.
#[derive(Drop)]
pub struct MemPmem<L> {
    alloc: Global,
    lines: L,
    switch: Switch,
}

/// A device that keeps a list of versions for every line.
pub type SimPmem = MemPmem<Cache>;

/// A device that keeps older versions only where a line has any.
pub type SparsePmem = MemPmem<SparseLines>;

impl<L: Lines> MemPmem<L> {
    /// A device with no line, on, with nothing armed and no fault. It takes no memory.
    pub fn new(alloc: Global) -> Self
        ensures { told_device (L.memory result.lines) result.switch
            ≡ told_device (record { lines = 0; cache = blank }) (fresh_switch 0) }
    {
        MemPmem {
            alloc,
            lines: L::empty(alloc),
            switch: Switch::fresh(0),
        }
    }
}

impl MemPmem<Cache> {
    /// The number of versions of a line.
    pub fn versions(&self, line: u64) -> u64
        requires { line < length self.now.lines }
        ensures { result ≡ length (slice_index_or self.now.lines line blank_list).older + 1 }
    {
        self.lines.versions(line)
    }
}

impl MemPmem<SparseLines> {
    /// The number of lines with more than one version.
    pub fn kept(&self) -> u64
        ensures { result ≡ more_lines (sparse_memory self.now.lines) }
    {
        self.lines.kept()
    }
}

impl<L: Lines + Drop> PmemWork for MemPmem<L> {
    ghost device = { λ d. told_device (L.memory d.lines) d.switch };

    fn lines(&self) -> u64 {
        self.lines.count()
    }

    fn load(&self, word: u64) -> Option<i64> {
        if !self.switch.on {
            return None;
        }
        Some(self.lines.load(word))
    }

    fn first_zero(&mut self, word: u64, apart: u64, count: u64) -> Option<u64> {
        if self.switch.on {
            Some(self.lines.first_zero(word, apart, count))
        } else {
            None
        }
    }

    fn store(&mut self, word: u64, value: i64) -> StoreEvent {
        match self.switch.gate(false) {
            Event::Off => StoreEvent::Off,
            Event::Failed => StoreEvent::Failed,
            Event::Done => match self.lines.store(word, value) {
                Err(_) => StoreEvent::NoMemory,
                Ok(()) => {
                    self.switch.spend();
                    StoreEvent::Done
                }
            },
        }
    }

    fn flush(&mut self, line: u64) -> Event {
        let gate = self.switch.gate(false);
        if let Event::Done = gate {
            self.lines.flush(line);
            self.switch.spend();
        }
        gate
    }

    fn fence(&mut self) -> Event {
        let gate = self.switch.gate(false);
        if let Event::Done = gate {
            self.lines.fence();
            self.switch.spend();
        }
        gate
    }
}

impl<L: Lines + Drop> Pmem for MemPmem<L> {
    fn blank(&mut self, lines: u64) -> Result<(), AllocError> {
        self.lines = L::blank(self.alloc, lines)?;
        self.switch = Switch::fresh(self.switch.faults);
        Ok(())
    }

    fn fill(&mut self, words: &[i64]) -> Result<bool, AllocError> {
        let Some(lines) = L::filled(self.alloc, words)? else {
            return Ok(false);
        };
        self.lines = lines;
        self.switch = Switch::fresh(self.switch.faults);
        Ok(true)
    }

    fn power(&mut self, choice: &Choice) -> Result<(), BadPick> {
        match self.lines.collapse(choice) {
            Err(pick) => Err(pick),
            Ok(()) => {
                self.switch.on = true;
                Ok(())
            }
        }
    }

    fn arm(&mut self, k: u64) {
        self.switch.left = Some(k);
    }

    fn arm_fault(&mut self, k: u64) {
        self.switch.armed = Some(k);
    }

    fn take(&mut self) -> Self {
        let fresh = MemPmem {
            alloc: self.alloc,
            lines: L::empty(self.alloc),
            switch: Switch::fresh(self.switch.faults),
        };
        mem::replace(self, fresh)
    }
}
