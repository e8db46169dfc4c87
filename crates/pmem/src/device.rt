//! The two parts of a device: the one that a running transaction uses, and the one for the owner of
//! the switch.

ghost use Rattle.std.specs.Prelude.{◌≡◌, ◌*◌, ◌<◌, ◌≤◌, true, false, Some, None, IsSome, IsNone};
ghost use Rattle.std.specs.Prelude.{IfSome, OnOk, OnErr, IfErr, IfOk, ◌+◌, ◌%◌, ◌^◌, length};
ghost use Rattle.cache_model.specs.Cache.{view};
ghost use Rattle.cache_model.specs.Event.{Store, Flush, Fence};
ghost use Rattle.cache_model.specs.Collapse.{bad, version_count, Rises};
ghost use Rattle.pmem.specs.Device.{Device, memory_of, blanked, powered, with_left, with_armed};
ghost use Rattle.pmem.specs.Filled.{filled};
ghost use Rattle.pmem.specs.Played.{Answered, Stored};
ghost use Rattle.pmem.specs.Zeros.{IsFirstZero};

use crate::answer::{Event, StoreEvent};
use cache_model::{BadPick, Choice};
use std::alloc::{AllocError, Global};

/// Loads, and the three events: store, flush and fence.
pub trait PmemWork {
    ghost device: { Self → Device };

    /// The number of lines.
    fn lines(&self) -> u64
        ensures { result ≡ (device self.now).lines };

    /// The word in the newest version of its line, or `None` while the device is off. A load is no
    /// event.
    fn load(&self, word: u64) -> Option<i64>
        requires { word < 8 * (device self.now).lines }
        ensures value { IfSome result (λ v. v ≡ view (device self.now).cache word) }
        ensures on { IsSome result → (device self.now).on ≡ true }
        ensures off { IsNone result → (device self.now).on ≡ false };

    /// How many of `count` words that are so far apart, from `word` on, come before the first that
    /// is 0, or `None` while the device is off. A search is no event. The device may remember what
    /// it saw, so that later searches are shorter.
    fn first_zero(&mut self, word: u64, apart: u64, count: u64) -> Option<u64>
        requires apart { 1 ≤ apart }
        requires inside { word + apart * count ≤ 8 * (device self.old).lines }
        requires fits { word + apart * count < 2 ^ 64 }
        ensures value { IfSome result
            (IsFirstZero (view (device self.old).cache) word apart count) }
        ensures on { IsSome result → (device self.old).on ≡ true }
        ensures off { IsNone result → (device self.old).on ≡ false }
        ensures same { device self.new ≡ device self.old };

    /// Appends a version to the word's line.
    fn store(&mut self, word: u64, value: i64) -> StoreEvent
        requires { word < 8 * (device self.old).lines }
        ensures answer { Stored result (device self.old) (Store word value) (device self.new) }
        ensures lines { (device self.new).lines ≡ (device self.old).lines };

    /// Marks the newest version of the line for the next fence.
    fn flush(&mut self, line: u64) -> Event
        requires { line < (device self.old).lines }
        ensures answer { Answered result (device self.old) (Flush line) (device self.new) }
        ensures lines { (device self.new).lines ≡ (device self.old).lines };

    /// In every line with a mark, drops the versions older than the marked one.
    fn fence(&mut self) -> Event
        ensures answer { Answered result (device self.old) Fence (device self.new) }
        ensures lines { (device self.new).lines ≡ (device self.old).lines };
}

/// The switch, and the faults that a test arms.
pub trait Pmem: PmemWork {
    /// Makes all lines blank and switches the device on, with nothing armed. After `AllocError` all
    /// is as before.
    fn blank(&mut self, lines: u64) -> Result<(), AllocError>
        ensures done { OnOk result (Self.device self.new ≡ blanked lines (Self.device self.old)) }
        ensures refused { OnErr result (Self.device self.new ≡ Self.device self.old) };

    /// Makes lines with these words, one version each, and switches the device on, with nothing
    /// armed. It answers whether it does so; a device may take words by their stores alone. After
    /// `AllocError` and `false` all is as before.
    fn fill(&mut self, words: &[i64]) -> Result<bool, AllocError>
        requires { length words.now % 8 ≡ 0 }
        ensures done { IfOk result (λ done. done ≡ true
            → Self.device self.new ≡ filled words.now (Self.device self.old)) }
        ensures other { IfOk result (λ done. done ≡ false
            → Self.device self.new ≡ Self.device self.old) }
        ensures refused { OnErr result (Self.device self.new ≡ Self.device self.old) };

    /// Cuts each line to the version that the choice says and switches the device on. On `BadPick`,
    /// which names the first pick whose line or version doesn't exist, nothing changes.
    fn power(&mut self, choice: &Choice) -> Result<(), BadPick>
        requires { Rises choice.now.picks }
        ensures fits { OnOk result (bad (memory_of (Self.device self.old))
            choice.now.picks ≡ None) }
        ensures done { OnOk result (Self.device self.new ≡ powered choice.now
            (Self.device self.old)) }
        ensures bad { IfErr result (λ pick. bad (memory_of (Self.device self.old)) choice.now.picks
            ≡ Some pick.line) }
        ensures versions { IfErr result (λ pick. pick.versions
            ≡ version_count (memory_of (Self.device self.old)) pick.line) }
        ensures refused { OnErr result (Self.device self.new ≡ Self.device self.old) };

    /// Arms a power cut: after `k` more events are done, the device goes off at the next one.
    fn arm(&mut self, k: u64)
        ensures { Self.device self.new ≡ with_left k (Self.device self.old) };

    /// Arms a fault: after `k` more events are done, the next one fails, if the device shows its
    /// armed fault.
    fn arm_fault(&mut self, k: u64)
        ensures { Self.device self.new ≡ with_armed k (Self.device self.old) };

    /// Moves the whole device out. In its place it leaves a device of 0 lines that is on, has
    /// nothing armed and has the same count of faults. It is no event and takes no memory.
    fn take(&mut self) -> Self
        ensures taken { Self.device result ≡ Self.device self.old }
        ensures left { Self.device self.new ≡ blanked 0 (Self.device self.old) };
}
