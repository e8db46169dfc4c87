//! A device in memory that is mirrored in a file: a flush writes the line, and a fence syncs.

ghost use Rattle.std.specs.Prelude.{◌≡◌, ◌≢◌, ◌⊎◌, ◌*◌, ◌+◌, ◌<◌, ◌≤◌, ◌^◌, true, false};
ghost use Rattle.std.specs.Prelude.{Some, None, IsSome, IsNone, IfSome, IfOk, OnOk, OnErr, IfErr};
ghost use Rattle.std.specs.Prelude.{◌%◌, length};
ghost use Rattle.cache_model.specs.Cache.{blank, view, Memory};
ghost use Rattle.cache_model.specs.Event.{Store, Flush, Fence};
ghost use Rattle.cache_model.specs.Collapse.{bad, Rises};
ghost use Rattle.pmem.specs.Device.{memory_of, blanked, powered, with_left, with_armed};
ghost use Rattle.pmem.specs.Filled.{filled};
ghost use Rattle.pmem.specs.Played.{Answered, Stored};
ghost use Rattle.pmem.specs.Switch.{untold, fresh_switch};
ghost use Rattle.pmem.specs.Zeros.{IsFirstZero};
ghost use Rattle.file_pmem.specs.File.{AgreesAt, IsZeroFile, StaysFile, SyncsFile};
ghost use Rattle.file_pmem.specs.Mirror.{file_device, file_shown, IsMirroring, IsMirror, MarksFit};
ghost use Rattle.file_pmem.specs.Mirror.{IsFileCovered, IsSynced, shown, is_mirrored, has_refused};
ghost use Rattle.file_pmem.specs.Mirror.{woken, IsBlankPast, IsWell};
ghost use Rattle.file_pmem.specs.declared.link.MirrorState.TheVariants.{Asleep, Awake};
ghost use Rattle.file_pmem.specs.inside.Writing.{IsOneOf, WritesNewest};

use crate::file::LineFile;
use crate::link::{Link, MirrorState};
use cache_model::{BadPick, Choice};
use pmem::{Event, Lines, Pmem, PmemWork, StoreEvent, Switch};
use std::alloc::{AllocError, Global};
use std::marker::Model;
use std::mem;

/// Lines with all their versions, a switch, and the link to the file. Whatever a crash leaves of a
/// file that is awake is an image of the device.
#[derive(Drop)]
pub struct FilePmem<L: Lines, F: LineFile> {
    alloc: Global,
    lines: L,
    switch: Switch,
    link: Link<F>,
}

impl<L: Lines, F: LineFile> Model for FilePmem<L, F> {
    ghost use Rattle.file_pmem.specs.Mirror.{FileParts, IsMirroring, shown};

    ghost Value = { FileParts L F };

    ghost view = { λ p. record { lines = p.lines; switch = p.switch; link = p.link } };

    ghost invariant = { λ p. IsMirroring p.link.state p.link.dirty (shown F.content p.link)
        (L.memory p.lines) };
}

impl<L: Lines + Drop, F: LineFile + Drop> FilePmem<L, F> {
    /// A device with no line and no file, on, with nothing armed and no fault. It takes no memory.
    #[tactic(auto, using(crate::proofs::Mirroring::blanks))]
    pub fn new(alloc: Global) -> Self
        ensures device { file_device L.memory result
            ≡ untold (record { lines = 0; cache = blank }) (fresh_switch 0) }
        ensures state { result.link.state ≡ Asleep }
    {
        FilePmem {
            alloc,
            lines: L::empty(alloc),
            switch: Switch::fresh(0),
            link: Link::none(),
        }
    }

    /// Holds this file, asleep: nothing is written to it until it is woken. A file that was there
    /// before is dropped.
    #[tactic(auto, using(crate::proofs::Mirroring::asleep_mirroring))]
    pub fn hold(&mut self, file: F)
        ensures lines { self.new.lines ≡ self.old.lines }
        ensures switch { self.new.switch ≡ self.old.switch }
        ensures shown { file_shown F.content self.new ≡ F.content file }
        ensures state { self.new.link.state ≡ Asleep }
        ensures some { woken self.new.link.file self.new.link.state ≡ Awake }
    {
        self.link = Link::to(file);
    }

    /// Mirrors the device from now on in the file that it holds, if there is one and it sleeps.
    pub fn wake(&mut self)
        requires { IsMirror (file_shown F.content self.old) (L.memory self.old.lines) }
        ensures lines { self.new.lines ≡ self.old.lines }
        ensures switch { self.new.switch ≡ self.old.switch }
        ensures file { self.new.link.file ≡ self.old.link.file }
        ensures state { self.new.link.state ≡ woken self.old.link.file self.old.link.state }
    {
        self.link.wake();
    }

    /// The file, if there is one.
    pub fn file(&self) -> Option<&F> {
        self.link.file.as_ref()
    }

    /// Whether the device is mirrored in a file that has refused nothing.
    #[tactic(auto, using(crate::proofs::Mirroring::known))]
    pub fn keeps(&self) -> bool
        ensures awake { result ≡ true → self.now.link.state ≡ Awake }
        ensures mirror { result ≡ true
            → IsMirror (file_shown F.content self.now) (L.memory self.now.lines) }
        ensures other { result ≡ false → self.now.link.state ≢ Awake }
    {
        match self.link.state {
            MirrorState::Awake => true,
            MirrorState::Asleep | MirrorState::Lost | MirrorState::Stale => false,
        }
    }

    /// Whether the file has refused something: then the device refuses each event.
    pub fn is_lost(&self) -> bool
        ensures { result ≡ has_refused self.now.link.state }
    {
        self.link.has_refused()
    }

    /// What is true of each device: the memory's marks fit, and what a crash leaves of a file that
    /// is awake, or was until it refused something, is an image of the device. It does nothing.
    #[tactic(auto, using(crate::proofs::Mirroring::known))]
    pub fn know(&self)
        ensures marks { MarksFit (L.memory self.now.lines) }
        ensures past { IsBlankPast (L.memory self.now.lines) }
        ensures covers { is_mirrored self.now.link.state ≡ true
            → IsFileCovered (file_shown F.content self.now) (L.memory self.now.lines) }
    {
        let _ = &self.link;
    }

    /// Makes all lines blank, and mirrors them in this file, whose lines are all zeros. After
    /// `AllocError` all is as before.
    pub fn begin(&mut self, lines: u64, file: F) -> Result<(), AllocError>
        requires zero { IsZeroFile (F.content file) }
        ensures done { OnOk result (file_device L.memory self.new
            ≡ blanked lines (file_device L.memory self.old)) }
        ensures refused { OnErr result (self.new ≡ self.old) }
        ensures state { OnOk result (self.new.link.state ≡ Awake) }
    {
        self.blank(lines)?;
        self.hold(file);
        self.wake();
        Ok(())
    }
}

/// The newest version of a line; none if its words have no numbers of 64 bits.
#[tactic(auto, using(crate::proofs::Words::words))]
fn newest<L: Lines>(lines: &L, line: u64) -> Option<[i64; 8]>
    requires { line < (L.memory lines.now).lines }
    ensures { IfSome result
        (λ words. AgreesAt line words ((L.memory lines.now).cache line).newest) }
{
    let first = line.checked_mul(8)?;
    first.checked_add(7)?;
    let mut words = [0; 8];
    for at in 0..8 {
        words[at as usize] = lines.load(first + at);
    }
    Some(words)
}

/// Writes the newest version of a line to the file.
fn write_newest<L: Lines, F: LineFile + Drop>(lines: &L, link: &mut Link<F>, line: u64)
    requires { line < (L.memory lines.now).lines }
    ensures fresh { link.new.state ≡ Awake → link.old.state ≡ Awake }
    ensures same { is_mirrored link.new.state ≡ is_mirrored link.old.state }
    ensures clean { IsSynced link.old.dirty (shown F.content link.old)
        → IsSynced link.new.dirty (shown F.content link.new) }
    ensures wrote { WritesNewest true link.new.state (shown F.content link.old) line
        (shown F.content link.new) (L.memory lines.now) }
{
    match newest(lines, line) {
        Some(words) => link.write(line, &words),
        None => link.lose(),
    }
}

/// Writes the newest version of a line to the file, if the device is on.
#[tactic(auto, using(crate::proofs::Copies::stays_same))]
fn write_if<L: Lines, F: LineFile + Drop>(on: bool, lines: &L, link: &mut Link<F>, line: u64)
    requires { line < (L.memory lines.now).lines }
    ensures fresh { link.new.state ≡ Awake → link.old.state ≡ Awake }
    ensures same { is_mirrored link.new.state ≡ is_mirrored link.old.state }
    ensures clean { IsSynced link.old.dirty (shown F.content link.old)
        → IsSynced link.new.dirty (shown F.content link.new) }
    ensures wrote { WritesNewest on link.new.state (shown F.content link.old) line
        (shown F.content link.new) (L.memory lines.now) }
{
    if on {
        write_newest(lines, link, line);
    }
}

/// Makes all that was written safe, if the device is on.
#[tactic(auto, using(crate::proofs::Copies::stays_same))]
fn sync_if<F: LineFile + Drop>(on: bool, link: &mut Link<F>)
    ensures done { on ≡ true → IsSynced link.old.dirty (shown F.content link.old)
        → link.new.state ≡ Awake → SyncsFile (shown F.content link.old) (shown F.content link.new) }
    ensures failed { StaysFile (shown F.content link.old) (shown F.content link.new)
        ⊎ SyncsFile (shown F.content link.old) (shown F.content link.new) }
    ensures clean { IsSynced link.old.dirty (shown F.content link.old) → link.new.state ≡ Awake
        → IsSynced link.new.dirty (shown F.content link.new) }
    ensures fresh { link.new.state ≡ Awake → link.old.state ≡ Awake }
    ensures same { is_mirrored link.new.state ≡ is_mirrored link.old.state }
{
    if on {
        link.sync();
    }
}

/// Writes the newest version of each line to a file that is awake, and makes all of them safe. A
/// file that has refused something is given up.
fn write_all<L: Lines, F: LineFile + Drop>(lines: &L, link: &mut Link<F>)
    ensures mirrored { IsWell (L.memory lines.now)
        → (link.old.state ≡ Awake → IsSynced link.old.dirty (shown F.content link.old))
        → IsMirroring link.new.state link.new.dirty (shown F.content link.new)
        (L.memory lines.now) }
    ensures fresh { link.new.state ≡ Awake → link.old.state ≡ Awake }
    ensures safe { (m : Memory) → IsOneOf m (L.memory lines.now)
        → IsFileCovered (shown F.content link.old) m → IsFileCovered (shown F.content link.new) m }
{
    for line in 0..lines.count() {
        write_newest(lines, link, line);
    }
    link.sync();
    link.give_up();
}

impl<L: Lines + Drop, F: LineFile + Drop> PmemWork for FilePmem<L, F> {
    ghost device = { file_device L.memory };

    fn lines(&self) -> u64 {
        self.lines.count()
    }

    fn load(&self, word: u64) -> Option<i64> {
        if !self.switch.on {
            return None;
        }
        Some(self.lines.load(word))
    }

    #[tactic(auto, using(crate::proofs::Mirroring::mirroring_along))]
    fn first_zero(&mut self, word: u64, apart: u64, count: u64) -> Option<u64> {
        if self.switch.on {
            Some(self.lines.first_zero(word, apart, count))
        } else {
            None
        }
    }

    #[tactic(auto, using(crate::proofs::Mirroring::mirroring_along))]
    fn store(&mut self, word: u64, value: i64) -> StoreEvent {
        match self.switch.gate(self.link.has_refused()) {
            Event::Off => StoreEvent::Off,
            Event::Failed => StoreEvent::Failed,
            Event::Done => match self.lines.store(word, value) {
                Err(_) => StoreEvent::NoMemory,
                Ok(()) => {
                    self.switch.spend();
                    StoreEvent::Done
                }
            },
        }
    }

    fn flush(&mut self, line: u64) -> Event {
        write_if(self.switch.on, &self.lines, &mut self.link, line);
        match self.switch.gate(self.link.has_refused()) {
            Event::Done => {
                self.lines.flush(line);
                self.switch.spend();
                Event::Done
            }
            Event::Off => Event::Off,
            Event::Failed => Event::Failed,
        }
    }

    fn fence(&mut self) -> Event {
        sync_if(self.switch.on, &mut self.link);
        match self.switch.gate(self.link.has_refused()) {
            Event::Done => {
                self.lines.fence();
                self.switch.spend();
                Event::Done
            }
            Event::Off => Event::Off,
            Event::Failed => Event::Failed,
        }
    }
}

impl<L: Lines + Drop, F: LineFile + Drop> Pmem for FilePmem<L, F> {
    /// A sleeping file is kept, and any other is let go.
    #[tactic(auto, using(crate::proofs::Mirroring::blanks))]
    fn blank(&mut self, lines: u64) -> Result<(), AllocError>
        ensures done { OnOk result (file_device L.memory self.new
            ≡ blanked lines (file_device L.memory self.old)) }
        ensures refused { OnErr result (file_device L.memory self.new
            ≡ file_device L.memory self.old) }
        ensures blank { OnOk result (L.memory self.new.lines
            ≡ record { lines = lines; cache = blank }) }
        ensures same { OnErr result (self.new ≡ self.old) }
    {
        self.lines = L::blank(self.alloc, lines)?;
        self.switch = Switch::fresh(self.switch.faults);
        self.link.rest();
        Ok(())
    }

    /// A sleeping file is kept, and any other is let go.
    #[tactic(auto, using(crate::proofs::Mirroring::fills))]
    fn fill(&mut self, words: &[i64]) -> Result<bool, AllocError> {
        let Some(lines) = L::filled(self.alloc, words)? else {
            return Ok(false);
        };
        self.lines = lines;
        self.switch = Switch::fresh(self.switch.faults);
        self.link.rest();
        Ok(true)
    }

    #[tactic(auto, using(crate::proofs::Mirroring::mirroring_along))]
    fn power(&mut self, choice: &Choice) -> Result<(), BadPick> {
        match self.lines.collapse(choice) {
            Err(pick) => Err(pick),
            Ok(()) => {
                self.switch.on = true;
                write_all(&self.lines, &mut self.link);
                Ok(())
            }
        }
    }

    fn arm(&mut self, k: u64) {
        self.switch.left = Some(k);
    }

    fn arm_fault(&mut self, k: u64) {
        self.switch.armed = Some(k);
    }

    /// The file goes with the device.
    #[tactic(auto, using(crate::proofs::Mirroring::blanks))]
    fn take(&mut self) -> Self
        ensures taken { file_device L.memory result ≡ file_device L.memory self.old }
        ensures left { file_device L.memory self.new ≡ blanked 0 (file_device L.memory self.old) }
        ensures all { result ≡ self.old }
    {
        let fresh = FilePmem {
            alloc: self.alloc,
            lines: L::empty(self.alloc),
            switch: Switch::fresh(self.switch.faults),
            link: Link::none(),
        };
        mem::replace(self, fresh)
    }
}
