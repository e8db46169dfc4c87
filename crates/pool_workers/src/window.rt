//! The lines of one compartment.

ghost use Rattle.std.specs.Prelude.{◌≡◌, ◌≤◌, ◌<◌, ◌+◌, ◌*◌, ◌^◌, true, false, IsSome, IsNone};
ghost use Rattle.std.specs.Prelude.{IfSome};
ghost use Rattle.cache_model.specs.Cache.{view};
ghost use Rattle.cache_model.specs.Event.{Store, Flush, Fence};
ghost use Rattle.pmem.specs.Played.{Answered, Stored};
ghost use Rattle.pool_layout.specs.Sizes as sizes_of;
ghost use Rattle.pool_workers.specs.Compartment.{device_in, first_line, AreAside, Aside};
ghost use Rattle.pool_workers.specs.Sets.{AreAside-prop};

use pmem::{Event, Pmem, PmemWork, StoreEvent};
use pool_layout::{Sizes, pool_lines};
use std::marker::{Brand, PhantomData};

/// Where a window lies, and the whole device as it was when the window was opened. The trait has no
/// methods; the call that opens a window chooses the three values.
pub trait Origin {
    ghost use Rattle.std.specs.Prelude.{ℕ};
    ghost use Rattle.pmem.specs.Device.{Device};

    ghost first: { ℕ };

    ghost lines: { ℕ };

    ghost whole: { Device };
}

impl Origin for Brand {
    ghost use Rattle.std.specs.Prelude.{true, None};
    ghost use Rattle.cache_model.specs.Cache.{blank};

    ghost first = { 0 };

    ghost lines = { 0 };

    ghost whole = { record {
      lines = 0;
      cache = blank;
      on = true;
      left = None;
      armed = None;
      faults = 0;
    } };
}

/// The lines of one compartment of a device, which the window owns. The switch, the events left,
/// the armed fault and the count of faults are the device's.
pub struct Window<P: Pmem, O: Origin> {
    dev: P,
    first: u64,
    count: u64,
    fenced: bool,
    of: PhantomData<O>,
    ghost first_is: { first ≡ O.first },
    ghost count_is: { count ≡ O.lines },
    ghost small: { O.first + O.lines ≤ 2 ^ 30 },
    ghost inside: { O.first + O.lines ≤ (P.device dev).lines },
    ghost whole: { (P.device dev).lines ≡ O.whole.lines },
    ghost aside: { AreAside O.first O.lines fenced O.whole.cache
        (P.device dev).cache } by { AreAside-prop O.first O.lines fenced O.whole.cache
            (P.device dev).cache },
}

/// The first line of a worker's compartment: the worker's number times a pool's lines.
pub fn first_line(sizes: &Sizes, worker: u32) -> u64
    requires worker { worker < 8 }
    ensures first { result ≡ first_line sizes.now worker }
    ensures small { result + sizes_of.pool_lines sizes.now ≤ 2 ^ 30 }
{
    pool_lines(sizes) * u64::from(worker)
}

impl<P: Pmem, O: Origin> Window<P, O> {
    /// The compartment of a worker. It takes no memory.
    pub fn new(dev: P, sizes: &Sizes, worker: u32) -> Self
        requires worker { worker < 8 }
        requires first { O.first ≡ first_line sizes.now worker }
        requires lines { O.lines ≡ sizes_of.pool_lines sizes.now }
        requires whole { O.whole ≡ P.device dev }
        requires inside { O.first + O.lines ≤ (P.device dev).lines }
        ensures { P.device result.dev ≡ P.device dev }
    {
        Window {
            dev,
            first: first_line(sizes, worker),
            count: pool_lines(sizes),
            fenced: false,
            of: PhantomData,
        }
    }

    /// The device after the window's calls. All lines outside the compartment are as they were,
    /// except for fences. It takes no memory.
    pub fn into_device(self) -> P
        ensures device { P.device result ≡ P.device self.dev }
        ensures aside { Aside O.first O.lines O.whole (P.device result) }
    {
        let Window {
            dev,
            first: _,
            count: _,
            fenced: _,
            of: _,
        } = self;
        dev
    }
}

impl<P: Pmem, O: Origin> PmemWork for Window<P, O> {
    ghost device = { λ w. device_in O.first O.lines (P.device w.dev) };

    fn lines(&self) -> u64 {
        self.count
    }

    fn load(&self, word: u64) -> Option<i64> {
        self.dev.load(8 * self.first + word)
    }

    fn first_zero(&mut self, word: u64, apart: u64, count: u64) -> Option<u64> {
        self.dev.first_zero(8 * self.first + word, apart, count)
    }

    fn store(&mut self, word: u64, value: i64) -> StoreEvent {
        self.dev.store(8 * self.first + word, value)
    }

    fn flush(&mut self, line: u64) -> Event {
        self.dev.flush(self.first + line)
    }

    fn fence(&mut self) -> Event {
        let answer = self.dev.fence();
        if let Event::Done = answer {
            self.fenced = true;
        }
        answer
    }
}
