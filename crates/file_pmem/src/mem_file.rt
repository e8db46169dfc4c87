//! A file of lines in memory, with each copy that a crash may leave. It fails at chosen calls.

ghost use Rattle.std.specs.Prelude.{◌≡◌, ◌≤◌, [], Some, true, IfOk, IfSome, OnOk, OnErr};
ghost use Rattle.std.specs.Prelude.{replicate, length, ◌/◌};
ghost use Rattle.std.specs.Prelude.{pos, map};
ghost use Rattle.nvm_base.specs.Rose.{Rose};
ghost use Rattle.file_pmem.specs.File.{WritesFile, IsZeroFile, more_copies, settled_copies};
ghost use Rattle.file_pmem.specs.File.{HoldsWords};
ghost use Rattle.file_pmem.specs.MemFile.{lines_from};

use crate::file::{FileAnswer, LineFile};
use std::alloc::{AllocError, Global};
use std::marker::Model;

/// A line: the newest copy, and those that a loss of power may still bring back.
#[derive(Drop)]
struct FileLine {
    older: Vec<[i64; 8]>,
    newest: [i64; 8],
}

impl Model for FileLine {
    ghost use Rattle.file_pmem.specs.File.{Copies};

    ghost Value = { Copies };

    ghost view = { λ y. record { older = y.older.items; newest = y.newest } };
}

impl FileLine {
    /// One copy, all zeros.
    fn blank(alloc: Global) -> Self
        ensures { result ≡ record { older = []; newest = replicate 8 (pos 0) } }
    {
        FileLine {
            older: Vec::new(alloc),
            newest: [0; 8],
        }
    }

    /// One copy, of these words.
    fn of(alloc: Global, words: &[i64]) -> Self
        requires { length words.now ≡ 8 }
        ensures { result ≡ record { older = []; newest = words.now } }
    {
        let mut newest = [0; 8];
        newest.copy_from_slice(words);
        FileLine {
            older: Vec::new(alloc),
            newest,
        }
    }

    /// Writes one more copy.
    fn write(&mut self, words: &[i64; 8]) -> Result<(), AllocError>
        ensures done { OnOk result (self.new ≡ more_copies self.old words.now) }
        ensures refused { OnErr result (self.new ≡ self.old) }
    {
        self.older.push(self.newest)?;
        self.newest = *words;
        Ok(())
    }

    /// Leaves the newest copy.
    fn settle(&mut self)
        ensures { self.new ≡ settled_copies self.old }
    {
        self.older.clear();
    }

    /// The copy at this index, counted from the oldest.
    fn copy(&self, at: u64) -> Option<[i64; 8]> {
        let at = at as usize;
        if at == self.older.len() {
            return Some(self.newest);
        }
        self.older.get(at).copied()
    }
}

/// A file in memory. Of its writes and syncs, numbered together from 0, the chosen ones fail and
/// change nothing. So does a write past the last line, and one for which there is no memory.
#[derive(Drop)]
pub struct MemFile {
    lines: Vec<FileLine>,
    fail: Vec<u64>,
    calls: u64,
    faults: u64,
}

impl Model for MemFile {
    ghost use Rattle.file_pmem.specs.MemFile.{FileModel};

    ghost Value = { FileModel };

    ghost view = { λ f. record {
      lines = f.lines.items;
      fail = f.fail.items;
      calls = f.calls;
      faults = f.faults;
    } };
}

impl MemFile {
    /// This many lines of zeros, with nothing older. It fails the calls whose numbers are in
    /// `fail`.
    pub fn new(alloc: Global, count: u64, fail: &[u64]) -> Result<Self, AllocError>
        ensures zero { IfOk result (λ f. IsZeroFile (Some (lines_from f.lines))) }
        ensures faults { IfOk result (λ f. f.faults ≡ 0) }
    {
        let lines = blank_lines(alloc, count)?;
        let fail = Vec::from_slice(alloc, fail)?;
        Ok(MemFile {
            lines,
            fail,
            calls: 0,
            faults: 0,
        })
    }

    /// These words, line after line, with nothing older. It fails no call. Words past the last
    /// whole line are left out.
    pub fn of_words(alloc: Global, words: &[i64]) -> Result<Self, AllocError>
        ensures holds { IfOk result (λ f. HoldsWords (Some (lines_from f.lines))
            (length words.now / 8) words.now) }
        ensures faults { IfOk result (λ f. f.faults ≡ 0) }
    {
        let lines = lines_of(alloc, words)?;
        Ok(MemFile {
            lines,
            fail: Vec::new(alloc),
            calls: 0,
            faults: 0,
        })
    }

    /// A copy of a line that a crash may leave, counted from the oldest.
    pub fn copy(&self, line: u64, at: u64) -> Option<[i64; 8]> {
        match self.lines.get(line as usize) {
            Some(line) => line.copy(at),
            None => None,
        }
    }

    /// The newest copy of a line, if it exists.
    fn newest(&self, line: u64) -> Option<[i64; 8]>
        ensures { IfSome result (λ words. words ≡ (lines_from self.now.lines line).newest) }
    {
        match self.lines.get(line as usize) {
            Some(line) => Some(line.newest),
            None => None,
        }
    }

    /// Counts a call. The answer is whether it fails, and then the fault is counted too.
    fn fails(&mut self) -> bool
        ensures lines { self.new.lines ≡ self.old.lines }
        ensures rose { result ≡ true → Rose self.old.faults self.new.faults }
        ensures count { self.old.faults ≤ self.new.faults }
    {
        let call = self.calls;
        self.calls = self.calls.saturating_add(1);
        if self.fail.contains(&call) {
            self.fault();
            return true;
        }
        false
    }

    /// Counts a fault.
    fn fault(&mut self)
        ensures lines { self.new.lines ≡ self.old.lines }
        ensures rose { Rose self.old.faults self.new.faults }
        ensures count { self.old.faults ≤ self.new.faults }
    {
        self.faults = self.faults.saturating_add(1);
    }

    /// Writes a line, if it exists and there is memory.
    fn put(&mut self, line: u64, words: &[i64; 8]) -> Result<(), AllocError>
        ensures done { OnOk result (WritesFile (Some (lines_from self.old.lines)) line words.now
            (Some (lines_from self.new.lines))) }
        ensures refused { OnErr result (self.new.lines ≡ self.old.lines) }
        ensures same { self.new.faults ≡ self.old.faults }
    {
        match self.lines.get_mut(line as usize) {
            Some(line) => line.write(words),
            None => Err(AllocError),
        }
    }
}

/// Lines of zeros.
fn blank_lines(alloc: Global, count: u64) -> Result<Vec<FileLine>, AllocError>
    ensures { IfOk result (λ v. IsZeroFile (Some (lines_from v.items))) }
{
    let mut lines = Vec::new(alloc);
    for _ in 0..count {
        lines.push(FileLine::blank(alloc))?;
    }
    Ok(lines)
}

/// Lines of these words.
fn lines_of(alloc: Global, words: &[i64]) -> Result<Vec<FileLine>, AllocError>
    ensures { IfOk result (λ v. HoldsWords (Some (lines_from v.items))
        (length words.now / 8) words.now) }
{
    let mut lines = Vec::new(alloc);
    for line in 0..words.len() / 8 {
        lines.push(FileLine::of(alloc, &words[8 * line..8 * line + 8]))?;
    }
    Ok(lines)
}

/// Leaves the newest copy of each line.
fn settle_all(lines: &mut Vec<FileLine>)
    ensures { lines.new.items ≡ map settled_copies lines.old.items }
{
    for line in lines.iter_mut() {
        line.settle();
    }
}

impl LineFile for MemFile {
    ghost content = { λ f. Some (lines_from f.lines) };

    ghost faults = { λ f. f.faults };

    fn write_line(&mut self, line: u64, words: &[i64; 8]) -> FileAnswer {
        if self.fails() {
            return FileAnswer::Failed;
        }
        match self.put(line, words) {
            Ok(()) => FileAnswer::Done,
            Err(_) => {
                self.fault();
                FileAnswer::Failed
            }
        }
    }

    #[tactic(auto, using(crate::proofs::Copies::settled_each))]
    fn sync(&mut self) -> FileAnswer {
        if self.fails() {
            return FileAnswer::Failed;
        }
        settle_all(&mut self.lines);
        FileAnswer::Done
    }

    #[tactic(auto, using(crate::proofs::Copies::stays_same))]
    fn read_line(&mut self, line: u64) -> Option<[i64; 8]> {
        let words = self.newest(line);
        if words.is_none() {
            self.fault();
        }
        words
    }
}
