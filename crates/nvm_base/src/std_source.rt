//! A file as a source. It shows clauses no content.

ghost use Rattle.std.specs.Prelude.{◌≡◌, ◌≤◌, None, length, IfOk};
ghost use Rattle.nvm_base.specs.Path.{path_of_source};

use crate::reason::Reason;
use crate::source::{ReadAnswer, Source};
use std::fs;
use std::io::{ErrorKind, Read};
use std::rt::Files;

/// The file of a path, opened at the first read. Its count of faults rises at each error, want of
/// memory included.
#[derive(Drop)]
pub struct StdSource<'a, R: Files> {
    rt: &'a R,
    pub(crate) path: &'a str,
    file: Option<R::File>,
    faults: u64,
    reason: Option<Reason>,
}

impl<'a, R: Files> StdSource<'a, R> {
    /// The file of this path, which is opened at the first read.
    pub fn new(rt: &'a R, path: &'a str) -> Self
        ensures faults { result.faults ≡ 0 }
        ensures path { path_of_source result ≡ path.now }
    {
        StdSource {
            rt,
            path,
            file: None,
            faults: 0,
            reason: None,
        }
    }

    /// Why the last fault came, if the system said.
    pub fn reason(&self) -> Option<Reason> {
        self.reason
    }

    /// One read of the file, which is opened first if need be.
    fn read_file(&mut self, piece: &mut [u8]) -> Result<usize, Reason>
        ensures within { IfOk result (λ n. n ≤ length piece.new) }
        ensures same { self.new.faults ≡ self.old.faults }
    {
        if self.file.is_none() {
            match fs::open(self.rt, self.path) {
                Ok(file) => self.file = Some(file),
                Err(error) => return Err(Reason::of(&error)),
            }
        }
        match &mut self.file {
            Some(file) => read_once(file, piece),
            None => Err(Reason::Other(None)),
        }
    }
}

/// One read, tried again if it was interrupted.
fn read_once<F: Read>(file: &mut F, piece: &mut [u8]) -> Result<usize, Reason>
    ensures { IfOk result (λ n. n ≤ length piece.new) }
{
    for _ in 0..u64::MAX {
        match file.read(piece) {
            Ok(count) => return Ok(count),
            Err(error) => {
                if error.kind() != ErrorKind::Interrupted {
                    return Err(Reason::of(&error));
                }
            }
        }
    }
    Err(Reason::Other(None))
}

impl<R: Files> Source for StdSource<'_, R> {
    ghost left = { λ _. None };

    ghost faults = { λ s. s.faults };

    fn read(&mut self, piece: &mut [u8]) -> ReadAnswer {
        match self.read_file(piece) {
            Ok(count) => ReadAnswer::Count(count),
            Err(reason) => {
                self.faults = self.faults.saturating_add(1);
                self.reason = Some(reason);
                ReadAnswer::Failed
            }
        }
    }
}
