//! A file of lines on a file of the system. It tells clauses nothing of what it holds.

ghost use Rattle.std.specs.Prelude.{◌≡◌, ◌≤◌, None};
ghost use Rattle.nvm_base.specs.Rose.{Rose};

use crate::file::{FileAnswer, LineFile};
use nvm_base::Reason;
use std::fs::{File, OpenFile, TryLockError};
use std::io;
use std::os::unix::fs::FileExt;

/// A file that one process may hold.
pub trait Hold {
    /// Whether this process holds the file now, until it is closed. `false` if another one does.
    fn hold(&self) -> io::Result<bool>;
}

impl Hold for File {
    fn hold(&self) -> io::Result<bool> {
        match self.try_lock() {
            Ok(()) => Ok(true),
            Err(TryLockError::WouldBlock) => Ok(false),
            Err(TryLockError::Error(error)) => Err(error),
        }
    }
}

/// A file, line after line, a word as eight bytes, the lowest first. A line is written by one call
/// of the system. Its count of faults rises at each error.
#[derive(Drop)]
pub struct StdFile<F> {
    file: F,
    faults: u64,
    reason: Option<Reason>,
}

impl<F: FileExt + OpenFile + Drop> StdFile<F> {
    /// This file.
    pub fn new(file: F) -> Self
        ensures { result.faults ≡ 0 }
    {
        StdFile {
            file,
            faults: 0,
            reason: None,
        }
    }

    /// Why the last fault came, if the system said.
    pub fn reason(&self) -> Option<Reason> {
        self.reason
    }

    /// Counts a fault.
    fn fault(&mut self, reason: Reason)
        ensures count { self.old.faults ≤ self.new.faults }
        ensures rose { Rose self.old.faults self.new.faults }
    {
        self.faults = self.faults.saturating_add(1);
        self.reason = Some(reason);
    }
}

/// The byte at which a line begins.
fn place_of(line: u64) -> u64 {
    line.saturating_mul(64)
}

/// The bytes of a line.
fn bytes_of(words: &[i64; 8]) -> [u8; 64] {
    let mut bytes = [0; 64];
    for at in 0..8usize {
        bytes[8 * at..8 * at + 8].copy_from_slice(&words[at].to_le_bytes());
    }
    bytes
}

/// Writes words, line after line. Those past the last whole line are left out.
pub(crate) fn write_lines<F: FileExt>(file: &F, words: &[i64]) -> io::Result<()> {
    for line in 0..words.len() / 8 {
        let mut copy = [0; 8];
        copy.copy_from_slice(&words[8 * line..8 * line + 8]);
        file.write_all_at(&bytes_of(&copy), place_of(line as u64))?;
    }
    Ok(())
}

/// The words of a line's bytes.
fn words_of(bytes: &[u8; 64]) -> [i64; 8] {
    let mut words = [0; 8];
    for at in 0..8usize {
        let mut word = [0; 8];
        word.copy_from_slice(&bytes[8 * at..8 * at + 8]);
        words[at] = i64::from_le_bytes(word);
    }
    words
}

impl<F: FileExt + OpenFile + Drop> LineFile for StdFile<F> {
    ghost content = { λ _. None };

    ghost faults = { λ f. f.faults };

    fn write_line(&mut self, line: u64, words: &[i64; 8]) -> FileAnswer {
        match self.file.write_at(&bytes_of(words), place_of(line)) {
            Ok(64) => FileAnswer::Done,
            // The rest isn't written by a second call: between the two the line would be torn.
            Ok(_) => {
                self.fault(Reason::Other(None));
                FileAnswer::Failed
            }
            Err(error) => {
                self.fault(Reason::of(&error));
                FileAnswer::Failed
            }
        }
    }

    fn sync(&mut self) -> FileAnswer {
        match self.file.sync_data() {
            Ok(()) => FileAnswer::Done,
            Err(error) => {
                self.fault(Reason::of(&error));
                FileAnswer::Failed
            }
        }
    }

    /// A line past the end of the file is blank, as one that was never written.
    fn read_line(&mut self, line: u64) -> Option<[i64; 8]> {
        let mut bytes = [0; 64];
        match self.file.read_exact_at(&mut bytes, place_of(line)) {
            Ok(()) => Some(words_of(&bytes)),
            Err(error) if error.kind() == io::ErrorKind::UnexpectedEof => Some([0; 8]),
            Err(error) => {
                self.fault(Reason::of(&error));
                None
            }
        }
    }
}
