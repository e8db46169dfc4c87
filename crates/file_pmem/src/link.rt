//! The link from a device to its file.

ghost use Rattle.std.specs.Prelude.{◌≡◌, ◌≢◌, ◌⊎◌, None};
ghost use Rattle.file_pmem.specs.File.{StaysFile, WritesFile, SyncsFile};
ghost use Rattle.file_pmem.specs.Mirror.{shown, IsSynced, is_mirrored, has_refused};
ghost use Rattle.file_pmem.specs.Mirror.{woken, given_up};
ghost use Rattle.file_pmem.specs.declared.link.MirrorState.TheVariants.{Asleep, Awake};

use crate::file::{FileAnswer, LineFile};

/// How a device stands to its file.
#[derive(Clone, Copy, Debug, PartialEq, Eq, Drop)]
pub enum MirrorState {
    /// The file is held, if there is one, and nothing is written to it.
    Asleep,
    /// Each flush writes its line to the file, and each fence syncs it.
    Awake,
    /// The file has refused something: it is never touched again, and each event fails.
    Lost,
    /// The same, and a power cut has changed the memory since.
    Stale,
}

/// The file, if there is one; how the device stands to it; and whether something may have been
/// written to it since the last sync.
#[derive(Drop)]
pub struct Link<F> {
    pub(crate) file: Option<F>,
    pub(crate) state: MirrorState,
    dirty: bool,
}

impl<F: LineFile + Drop> Link<F> {
    /// No file.
    pub(crate) fn none() -> Self
        ensures file { result.file ≡ None }
        ensures state { result.state ≡ Asleep }
    {
        Link {
            file: None,
            state: MirrorState::Asleep,
            dirty: true,
        }
    }

    /// This file, asleep.
    pub(crate) fn to(file: F) -> Self
        ensures shown { shown F.content result ≡ F.content file }
        ensures state { result.state ≡ Asleep }
        ensures some { woken result.file result.state ≡ Awake }
    {
        Link {
            file: Some(file),
            state: MirrorState::Asleep,
            dirty: true,
        }
    }

    /// Wakes a sleeping file, if there is one.
    pub(crate) fn wake(&mut self)
        ensures file { self.new.file ≡ self.old.file }
        ensures state { self.new.state ≡ woken self.old.file self.old.state }
        ensures clean { (self.old.state ≡ Awake
            → IsSynced self.old.dirty (shown F.content self.old)) → self.new.state ≡ Awake
            → IsSynced self.new.dirty (shown F.content self.new) }
    {
        match (self.state, &self.file) {
            (MirrorState::Asleep, Some(_)) => {
                self.state = MirrorState::Awake;
                self.dirty = true;
            }
            _ => {}
        }
    }

    /// Lets a file go, unless it sleeps.
    pub(crate) fn rest(&mut self)
        ensures asleep { self.new.state ≡ Asleep }
        ensures kept { self.old.state ≡ Asleep → self.new ≡ self.old }
        ensures gone { self.old.state ≢ Asleep → self.new.file ≡ None }
    {
        match self.state {
            MirrorState::Asleep => {}
            _ => *self = Link::none(),
        }
    }

    /// Whether the file has refused something.
    pub(crate) fn has_refused(&self) -> bool
        ensures { result ≡ has_refused self.now.state }
    {
        match self.state {
            MirrorState::Asleep | MirrorState::Awake => false,
            MirrorState::Lost | MirrorState::Stale => true,
        }
    }

    /// Writes a line, if the file is awake.
    pub(crate) fn write(&mut self, line: u64, words: &[i64; 8])
        ensures done { self.new.state ≡ Awake
            → WritesFile (shown F.content self.old) line words.now (shown F.content self.new) }
        ensures failed { StaysFile (shown F.content self.old) (shown F.content self.new)
            ⊎ WritesFile (shown F.content self.old) line words.now (shown F.content self.new) }
        ensures clean { IsSynced self.old.dirty (shown F.content self.old)
            → IsSynced self.new.dirty (shown F.content self.new) }
        ensures fresh { self.new.state ≡ Awake → self.old.state ≡ Awake }
        ensures same { is_mirrored self.new.state ≡ is_mirrored self.old.state }
    {
        let MirrorState::Awake = self.state else {
            return;
        };
        let Some(file) = &mut self.file else {
            return;
        };
        self.dirty = true;
        if let FileAnswer::Failed = file.write_line(line, words) {
            self.state = MirrorState::Lost;
        }
    }

    /// Takes a file that is awake as lost.
    #[tactic(auto, using(crate::proofs::Copies::stays_same))]
    pub(crate) fn lose(&mut self)
        ensures lost { self.new.state ≢ Awake }
        ensures stays { StaysFile (shown F.content self.old) (shown F.content self.new) }
        ensures clean { IsSynced self.old.dirty (shown F.content self.old)
            → IsSynced self.new.dirty (shown F.content self.new) }
        ensures same { is_mirrored self.new.state ≡ is_mirrored self.old.state }
    {
        if let MirrorState::Awake = self.state {
            self.state = MirrorState::Lost;
        }
    }

    /// Makes all that was written safe, if the file is awake. Nothing is done where nothing was
    /// written since the last time.
    #[tactic(auto, using(crate::proofs::Copies::copies))]
    pub(crate) fn sync(&mut self)
        ensures done { IsSynced self.old.dirty (shown F.content self.old) → self.new.state ≡ Awake
            → SyncsFile (shown F.content self.old) (shown F.content self.new) }
        ensures failed { StaysFile (shown F.content self.old) (shown F.content self.new)
            ⊎ SyncsFile (shown F.content self.old) (shown F.content self.new) }
        ensures clean { IsSynced self.old.dirty (shown F.content self.old) → self.new.state ≡ Awake
            → IsSynced self.new.dirty (shown F.content self.new) }
        ensures fresh { self.new.state ≡ Awake → self.old.state ≡ Awake }
        ensures same { is_mirrored self.new.state ≡ is_mirrored self.old.state }
    {
        let MirrorState::Awake = self.state else {
            return;
        };
        if !self.dirty {
            return;
        }
        let Some(file) = &mut self.file else {
            return;
        };
        match file.sync() {
            FileAnswer::Done => self.dirty = false,
            FileAnswer::Failed => self.state = MirrorState::Lost,
        }
    }

    /// Gives a file up that has refused something.
    pub(crate) fn give_up(&mut self)
        ensures { self.new ≡ record {
          file = self.old.file;
          state = given_up self.old.state;
          dirty = self.old.dirty;
        } }
    {
        if self.has_refused() {
            self.state = MirrorState::Stale;
        }
    }
}
