//! The lines of one compartment, lent for one turn.

ghost use Rattle.std.specs.Prelude.{◌≡◌, ◌≤◌, ◌<◌, ◌+◌, ◌*◌, ◌^◌, true, false, IsSome, IsNone};
ghost use Rattle.std.specs.Prelude.{IfSome};
ghost use Rattle.cache_model.specs.Cache.{view};
ghost use Rattle.cache_model.specs.Event.{Store, Flush, Fence};
ghost use Rattle.pmem.specs.Played.{Answered, Stored};
ghost use Rattle.pmem.specs.Zeros.{IsFirstZero};
ghost use Rattle.pool_workers.specs.Compartment.{device_in, AreAside};
ghost use Rattle.pool_workers.specs.Sets.{AreAside-prop};

use pmem::{Event, PmemWork, StoreEvent};
use std::marker::{Brand, PhantomData};

/// Where a lens lies, the whole device as it was when it was lent, and the name of the reference to
/// it. The trait has no methods; the call that lends a device chooses the four values.
pub trait Loan {
    ghost use Rattle.std.specs.Prelude.{ℕ};
    ghost use Rattle.std.specs.Borrow.{GName};
    ghost use Rattle.pmem.specs.Device.{Device};

    ghost first: { ℕ };

    ghost lines: { ℕ };

    ghost whole: { Device };

    ghost name: { GName };
}

impl Loan for Brand {
    ghost use Rattle.std.specs.Prelude.{true, None};
    ghost use Rattle.cache_model.specs.Cache.{blank};

    ghost first = { 0 };

    ghost lines = { 0 };

    ghost whole = { record {
      lines = 0;
      cache = blank;
      on = true;
      left = None;
      armed = None;
      faults = 0;
    } };

    ghost name = { 0 };
}

/// The lines of one compartment of a device, as a `Window`, of a device that stays in its place.
pub(crate) struct Lens<'a, P: PmemWork, O: Loan> {
    pub dev: &'a mut P,
    pub first: u64,
    pub count: u64,
    pub fenced: bool,
    pub of: PhantomData<O>,
    ghost named: { dev.ghost_name ≡ O.name },
    ghost first_is: { first ≡ O.first },
    ghost count_is: { count ≡ O.lines },
    ghost small: { O.first + O.lines ≤ 2 ^ 30 },
    ghost inside: { O.first + O.lines ≤ (P.device dev.now).lines },
    ghost whole: { (P.device dev.now).lines ≡ O.whole.lines },
    ghost aside: { AreAside O.first O.lines fenced O.whole.cache
        (P.device dev.now).cache } by { AreAside-prop O.first O.lines fenced O.whole.cache
            (P.device dev.now).cache },
}

impl<P: PmemWork, O: Loan> PmemWork for Lens<'_, P, O> {
    ghost device = { λ w. device_in O.first O.lines (P.device w.dev.now) };

    fn lines(&self) -> u64 {
        self.count
    }

    fn load(&self, word: u64) -> Option<i64> {
        self.dev.load(8 * self.first + word)
    }

    fn first_zero(&mut self, word: u64, apart: u64, count: u64) -> Option<u64> {
        self.dev.first_zero(8 * self.first + word, apart, count)
    }

    fn store(&mut self, word: u64, value: i64) -> StoreEvent {
        self.dev.store(8 * self.first + word, value)
    }

    fn flush(&mut self, line: u64) -> Event {
        self.dev.flush(self.first + line)
    }

    fn fence(&mut self) -> Event {
        let answer = self.dev.fence();
        if let Event::Done = answer {
            self.fenced = true;
        }
        answer
    }
}
