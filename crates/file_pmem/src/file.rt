//! Where lines are kept: a trait of files of lines, which may fail.

ghost use Rattle.std.specs.Prelude.{◌≡◌, ◌⊎◌, ◌≤◌, ℕ, Option, IfSome, IsNone};
ghost use Rattle.nvm_base.specs.Rose.{Rose};
ghost use Rattle.file_pmem.specs.File.{FileLines, StaysFile, WritesFile, SyncsFile, ReadsFile};
ghost use Rattle.file_pmem.specs.declared.file.FileAnswer.TheVariants.{Done, Failed};

/// The answer of a write or a sync.
#[derive(Clone, Copy, Debug, PartialEq, Eq, Drop)]
pub enum FileAnswer {
    Done,
    /// The file's count of faults rose. What was asked for may be done or not.
    Failed,
}

/// A file of lines of eight words. Clauses see its count of faults, and what a crash may leave of
/// it (`None` if the file doesn't show that).
pub trait LineFile {
    ghost content: { Self → Option FileLines };

    ghost faults: { Self → ℕ };

    /// Writes a line. A loss of power may still bring an older copy back.
    fn write_line(&mut self, line: u64, words: &[i64; 8]) -> FileAnswer
        ensures done { result ≡ Done
            → WritesFile (content self.old) line words.now (content self.new) }
        ensures failed { result ≡ Failed → StaysFile (content self.old) (content self.new)
            ⊎ WritesFile (content self.old) line words.now (content self.new) }
        ensures rose { result ≡ Failed → Rose (faults self.old) (faults self.new) }
        ensures count { faults self.old ≤ faults self.new };

    /// Makes all that was written safe.
    fn sync(&mut self) -> FileAnswer
        ensures done { result ≡ Done → SyncsFile (content self.old) (content self.new) }
        ensures failed { result ≡ Failed → StaysFile (content self.old) (content self.new)
            ⊎ SyncsFile (content self.old) (content self.new) }
        ensures rose { result ≡ Failed → Rose (faults self.old) (faults self.new) }
        ensures count { faults self.old ≤ faults self.new };

    /// The newest copy of a line.
    fn read_line(&mut self, line: u64) -> Option<[i64; 8]>
        ensures value { IfSome result (λ words. ReadsFile (content self.old) line words) }
        ensures stays { StaysFile (content self.old) (content self.new) }
        ensures none { IsNone result → Rose (faults self.old) (faults self.new) }
        ensures count { faults self.old ≤ faults self.new };
}
