//! The place of a pool's file in memory, for tests. It fails at chosen calls.

ghost use Rattle.std.specs.Prelude.{◌≡◌, ◌≤◌, Some, true, IfOk};
ghost use Rattle.nvm_base.specs.Rose.{Rose};
ghost use Rattle.file_pmem.specs.MemPools.{place_found};

use crate::mem_file::MemFile;
use crate::pools::{Held, Made, Pools};
use std::alloc::{AllocError, Global};
use std::mem;

/// What the name of the file leads to.
#[derive(Drop)]
pub enum Place {
    Nothing,
    /// A file that is held.
    Taken,
    There(MemFile),
}

/// The place of one file. Of its calls, numbered from 0, the chosen ones fail and change nothing.
/// So does making a file for which there is no memory.
#[derive(Drop)]
pub struct MemPools {
    alloc: Global,
    place: Place,
    fail: Vec<u64>,
    calls: u64,
    faults: u64,
}

impl MemPools {
    /// This place. It fails the calls whose numbers are in `fail`.
    pub fn new(alloc: Global, place: Place, fail: &[u64]) -> Result<Self, AllocError>
        ensures place { IfOk result (λ p. p.place ≡ place) }
        ensures faults { IfOk result (λ p. p.faults ≡ 0) }
    {
        let fail = Vec::from_slice(alloc, fail)?;
        Ok(MemPools {
            alloc,
            place,
            fail,
            calls: 0,
            faults: 0,
        })
    }

    /// Puts this at the place, as another process may.
    pub fn put(&mut self, place: Place)
        ensures place { self.new.place ≡ place }
        ensures faults { self.new.faults ≡ self.old.faults }
    {
        self.place = place;
    }

    /// Counts a call. The answer is whether it fails, and then the fault is counted too.
    fn fails(&mut self) -> bool
        ensures place { self.new.place ≡ self.old.place }
        ensures rose { result ≡ true → Rose self.old.faults self.new.faults }
        ensures count { self.old.faults ≤ self.new.faults }
    {
        let call = self.calls;
        self.calls = self.calls.saturating_add(1);
        if self.fail.contains(&call) {
            self.fault();
            return true;
        }
        false
    }

    /// Counts a fault.
    fn fault(&mut self)
        ensures place { self.new.place ≡ self.old.place }
        ensures rose { Rose self.old.faults self.new.faults }
        ensures count { self.old.faults ≤ self.new.faults }
    {
        self.faults = self.faults.saturating_add(1);
    }
}

impl Pools for MemPools {
    type File = MemFile;

    ghost found = { λ p. Some (place_found p.place) };

    ghost faults = { λ p. p.faults };

    fn hold(&mut self) -> Held<MemFile> {
        if self.fails() {
            return Held::Failed;
        }
        match mem::replace(&mut self.place, Place::Taken) {
            Place::There(file) => Held::Held(file),
            Place::Taken => Held::Busy,
            Place::Nothing => {
                self.place = Place::Nothing;
                Held::Missing
            }
        }
    }

    fn make(&mut self, words: &[i64]) -> Made<MemFile> {
        if self.fails() {
            return Made::Failed;
        }
        match &self.place {
            Place::Taken | Place::There(_) => return Made::Busy,
            Place::Nothing => {}
        }
        match MemFile::of_words(self.alloc, words) {
            Ok(file) => {
                self.place = Place::Taken;
                Made::Made(file)
            }
            Err(_) => {
                self.fault();
                Made::Failed
            }
        }
    }
}
