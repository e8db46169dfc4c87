//! A file, or standard output, as a sink. It shows clauses no content.

ghost use Rattle.std.specs.Prelude.{◌≡◌, ◌<◌, ◌≤◌, Some, None, length, IfOk};
ghost use Rattle.nvm_base.specs.Path.{path_of_sink};

use crate::reason::Reason;
use crate::sink::{Sink, WriteAnswer};
use std::fs;
use std::io::{self, ErrorKind, Write};
use std::rt::Files;

/// A file, which is created or emptied at the first write, or standard output. Its count of faults
/// rises at each error, want of memory included.
#[derive(Drop)]
pub struct StdSink<'a, R: Files + Print> {
    rt: &'a R,
    /// The file's path, or `None` for standard output.
    pub(crate) path: Option<&'a str>,
    file: Option<R::File>,
    faults: u64,
    reason: Option<Reason>,
}

impl<'a, R: Files + Print> StdSink<'a, R> {
    /// The file of this path, which is created or emptied at the first write.
    pub fn file(rt: &'a R, path: &'a str) -> Self
        ensures faults { result.faults ≡ 0 }
        ensures path { path_of_sink result ≡ Some path.now }
    {
        StdSink {
            rt,
            path: Some(path),
            file: None,
            faults: 0,
            reason: None,
        }
    }

    /// Standard output.
    pub fn standard(rt: &'a R) -> Self
        ensures faults { result.faults ≡ 0 }
        ensures path { path_of_sink result ≡ None }
    {
        StdSink {
            rt,
            path: None,
            file: None,
            faults: 0,
            reason: None,
        }
    }

    /// Why the last fault came, if the system said.
    pub fn reason(&self) -> Option<Reason> {
        self.reason
    }

    /// One write, of at least one byte.
    fn write_some(&mut self, piece: &[u8]) -> Result<usize, Reason>
        ensures some { IfOk result (λ n. 0 < n) }
        ensures within { IfOk result (λ n. n ≤ length piece.now) }
        ensures same { self.new.faults ≡ self.old.faults }
    {
        let Some(path) = self.path else {
            return write_once(&mut io::writer(self.rt), piece);
        };
        if self.file.is_none() {
            match fs::create(self.rt, path) {
                Ok(file) => self.file = Some(file),
                Err(error) => return Err(Reason::of(&error)),
            }
        }
        match &mut self.file {
            Some(file) => write_once(file, piece),
            None => Err(Reason::Other(None)),
        }
    }
}

/// One write, tried again if it was interrupted. A writer that takes no byte fails.
pub(crate) fn write_once<W: Write>(to: &mut W, piece: &[u8]) -> Result<usize, Reason>
    ensures some { IfOk result (λ n. 0 < n) }
    ensures within { IfOk result (λ n. n ≤ length piece.now) }
{
    for _ in 0..u64::MAX {
        match to.write(piece) {
            Ok(0) => return Err(Reason::Other(None)),
            Ok(count) => return Ok(count),
            Err(error) => {
                if error.kind() != ErrorKind::Interrupted {
                    return Err(Reason::of(&error));
                }
            }
        }
    }
    Err(Reason::Other(None))
}

impl<R: Files + Print> Sink for StdSink<'_, R> {
    ghost written = { λ _. None };

    ghost faults = { λ s. s.faults };

    fn write(&mut self, piece: &[u8]) -> WriteAnswer {
        match self.write_some(piece) {
            Ok(count) => WriteAnswer::Count(count),
            Err(reason) => {
                self.faults = self.faults.saturating_add(1);
                self.reason = Some(reason);
                WriteAnswer::Failed
            }
        }
    }
}
