//! A device in memory that fails at one chosen event, for tests. It doesn't show its armed fault.

ghost use Rattle.std.specs.Prelude.{◌≡◌, ◌*◌, ◌<◌, ◌+◌, ◌-◌, ◌^◌, min, length, true, false, Some};
ghost use Rattle.std.specs.Prelude.{None, [], IsSome, IsNone, IfSome, IfOk, OnOk, OnErr, IfErr};
ghost use Rattle.std.specs.Prelude.{◌%◌};
ghost use Rattle.cache_model.specs.Cache.{blank, view};
ghost use Rattle.cache_model.specs.Event.{Store, Flush, Fence};
ghost use Rattle.cache_model.specs.Collapse.{bad, version_count, Rises};
ghost use Rattle.pmem.specs.Device.{Device, memory_of, blanked, powered, with_left, with_armed};
ghost use Rattle.pmem.specs.Played.{Answered, Stored};
ghost use Rattle.pmem.specs.Switch.{told_device, fresh_switch};
ghost use Rattle.pmem.specs.Filled.{filled};
ghost use Rattle.pmem.specs.Fail.{fail_device, fail_inside, next_number, FailAnswered, FailStored};

use crate::answer::{Event, StoreEvent};
use crate::device::{Pmem, PmemWork};
use crate::lines::first_zero_of;
use crate::switch::Switch;
use cache_model::{BadPick, Cache, Choice};
use std::alloc::{AllocError, Global};
use std::mem;

/// Lines with all their versions, a switch, the number of the event that fails, and the number of
/// the next event.
#[derive(Drop)]
pub struct FailPmem {
    alloc: Global,
    cache: Cache,
    switch: Switch,
    at: u64,
    number: u64,
}

impl FailPmem {
    /// A device with no line, on, with nothing armed and no fault; the event numbered `at` will
    /// fail. It takes no memory.
    pub fn new(alloc: Global, at: u64) -> Self
        ensures device { fail_inside result ≡ told_device (record { lines = 0; cache = blank })
            (fresh_switch 0) }
        ensures number { result.number ≡ 0 }
        ensures at { result.at ≡ at }
    {
        FailPmem {
            alloc,
            cache: Cache::empty(alloc),
            switch: Switch::fresh(0),
            at,
            number: 0,
        }
    }
}

impl PmemWork for FailPmem {
    ghost device = { fail_device };

    fn lines(&self) -> u64 {
        self.cache.lines()
    }

    fn load(&self, word: u64) -> Option<i64> {
        if !self.switch.on {
            return None;
        }
        Some(self.cache.load(word))
    }

    fn first_zero(&mut self, word: u64, apart: u64, count: u64) -> Option<u64> {
        if !self.switch.on {
            return None;
        }
        Some(first_zero_of(&self.cache, word, apart, count))
    }

    fn store(&mut self, word: u64, value: i64) -> StoreEvent
        requires { word < 8 * (fail_device self.old).lines }
        ensures answer { Stored result (fail_device self.old) (Store word value)
            (fail_device self.new) }
        ensures lines { (fail_device self.new).lines ≡ (fail_device self.old).lines }
        ensures rule { FailStored result self.old (Store word value) self.new }
    {
        match self.switch.gate(self.number == self.at) {
            Event::Off => StoreEvent::Off,
            Event::Failed => {
                self.number = self.number.saturating_add(1);
                StoreEvent::Failed
            }
            Event::Done => match self.cache.store(word, value) {
                Err(_) => StoreEvent::NoMemory,
                Ok(()) => {
                    self.switch.spend();
                    self.number = self.number.saturating_add(1);
                    StoreEvent::Done
                }
            },
        }
    }

    fn flush(&mut self, line: u64) -> Event
        requires { line < (fail_device self.old).lines }
        ensures answer { Answered result (fail_device self.old) (Flush line)
            (fail_device self.new) }
        ensures lines { (fail_device self.new).lines ≡ (fail_device self.old).lines }
        ensures rule { FailAnswered result self.old (Flush line) self.new }
    {
        match self.switch.gate(self.number == self.at) {
            Event::Off => Event::Off,
            Event::Failed => {
                self.number = self.number.saturating_add(1);
                Event::Failed
            }
            Event::Done => {
                self.cache.flush(line);
                self.switch.spend();
                self.number = self.number.saturating_add(1);
                Event::Done
            }
        }
    }

    fn fence(&mut self) -> Event
        ensures answer { Answered result (fail_device self.old) Fence (fail_device self.new) }
        ensures lines { (fail_device self.new).lines ≡ (fail_device self.old).lines }
        ensures rule { FailAnswered result self.old Fence self.new }
    {
        match self.switch.gate(self.number == self.at) {
            Event::Off => Event::Off,
            Event::Failed => {
                self.number = self.number.saturating_add(1);
                Event::Failed
            }
            Event::Done => {
                self.cache.fence();
                self.switch.spend();
                self.number = self.number.saturating_add(1);
                Event::Done
            }
        }
    }
}

impl Pmem for FailPmem {
    fn blank(&mut self, lines: u64) -> Result<(), AllocError>
        ensures done { OnOk result (fail_device self.new ≡ blanked lines (fail_device self.old)) }
        ensures refused { OnErr result (fail_device self.new ≡ fail_device self.old) }
        ensures unarmed { OnOk result (self.new.switch.armed ≡ None) }
        ensures number { (self.new.number ≡ self.old.number) × (self.new.at ≡ self.old.at) }
    {
        self.cache = Cache::new(self.alloc, lines)?;
        self.switch = Switch::fresh(self.switch.faults);
        Ok(())
    }

    fn fill(&mut self, words: &[i64]) -> Result<bool, AllocError>
        requires { length words.now % 8 ≡ 0 }
        ensures done { IfOk result (λ done. done ≡ true
            → fail_device self.new ≡ filled words.now (fail_device self.old)) }
        ensures other { IfOk result (λ done. done ≡ false
            → fail_device self.new ≡ fail_device self.old) }
        ensures refused { OnErr result (fail_device self.new ≡ fail_device self.old) }
        ensures same { self.new ≡ self.old }
    {
        Ok(false)
    }

    fn power(&mut self, choice: &Choice) -> Result<(), BadPick>
        requires { Rises choice.now.picks }
        ensures fits { OnOk result (bad (memory_of (fail_device self.old))
            choice.now.picks ≡ None) }
        ensures done { OnOk result (fail_device self.new ≡ powered choice.now
            (fail_device self.old)) }
        ensures bad { IfErr result (λ pick. bad (memory_of (fail_device self.old)) choice.now.picks
            ≡ Some pick.line) }
        ensures versions { IfErr result (λ pick. pick.versions
            ≡ version_count (memory_of (fail_device self.old)) pick.line) }
        ensures refused { OnErr result (fail_device self.new ≡ fail_device self.old) }
        ensures armed { self.new.switch.armed ≡ self.old.switch.armed }
        ensures number { (self.new.number ≡ self.old.number) × (self.new.at ≡ self.old.at) }
    {
        match self.cache.collapse(choice) {
            Err(pick) => Err(pick),
            Ok(()) => {
                self.switch.on = true;
                Ok(())
            }
        }
    }

    fn arm(&mut self, k: u64)
        ensures left { fail_device self.new ≡ with_left k (fail_device self.old) }
        ensures inside { fail_inside self.new ≡ with_left k (fail_inside self.old) }
        ensures number { (self.new.number ≡ self.old.number) × (self.new.at ≡ self.old.at) }
    {
        self.switch.left = Some(k);
    }

    fn arm_fault(&mut self, k: u64)
        ensures untold { fail_device self.new ≡ fail_device self.old }
        ensures armed { fail_inside self.new ≡ with_armed k (fail_inside self.old) }
        ensures number { (self.new.number ≡ self.old.number) × (self.new.at ≡ self.old.at) }
    {
        self.switch.armed = Some(k);
    }

    fn take(&mut self) -> Self
        ensures taken { fail_device result ≡ fail_device self.old }
        ensures left { fail_device self.new ≡ blanked 0 (fail_device self.old) }
        ensures inside { fail_inside result ≡ fail_inside self.old }
        ensures number { (result.number ≡ self.old.number) × (result.at ≡ self.old.at) }
    {
        let fresh = FailPmem {
            alloc: self.alloc,
            cache: Cache::empty(self.alloc),
            switch: Switch::fresh(self.switch.faults),
            at: self.at,
            number: self.number,
        };
        mem::replace(self, fresh)
    }
}
