//! The source of a script or of lines: a file, or standard input. It shows clauses no content.

ghost use Rattle.std.specs.Prelude.{◌≡◌, ◌<◌, ◌≤◌, None, length, IfOk};
ghost use Rattle.nvm_base.specs.Answers.{IfRead};
ghost use Rattle.cnvm_exit.specs.inside.Paths.{path_of_script};

use nvm_base::{Bytes, ReadAnswer, Reason, Source, StdSource};
use std::alloc::Global;
use std::io::{ErrorKind, IsTerminal, Read};
use std::rt::Files;

/// Where a script comes from.
#[derive(Clone, Copy, PartialEq, Eq)]
pub(crate) enum Origin {
    /// The file of its path.
    File,
    /// Standard input, read whole.
    Input,
    /// Standard input, read as it comes.
    Lines,
}

/// The most bytes that are kept of lines that come, and of their answers.
pub(crate) const MOST_KEPT: usize = 65_536;

/// What is written to a person at a terminal before each read.
const PROMPT: &str = "> ";

/// A file, which is opened at the first read, or standard input; with a copy of the bytes that were
/// read. Its count of faults rises at each error.
#[derive(Drop)]
pub(crate) struct ScriptSource<'a, R: Files + Input> {
    rt: &'a R,
    pub(crate) file: StdSource<'a, R>,
    input: Option<R::Reader>,
    prompts: bool,
    kept: Bytes,
    most: usize,
    /// Whether every byte is kept: there was memory for each, and they are no more than `most`.
    whole: bool,
    faults: u64,
    reason: Option<Reason>,
}

impl<'a, R: Files + Input> ScriptSource<'a, R>
where
    R::Reader: IsTerminal,
{
    /// The file of this path, or standard input. At most so many bytes are kept.
    pub(crate) fn new(alloc: Global, rt: &'a R, path: &'a str, origin: Origin, most: usize) -> Self
        ensures path { path_of_script result ≡ path.now }
    {
        let input = match origin {
            Origin::File => None,
            Origin::Input | Origin::Lines => Some(rt.reader()),
        };
        let prompts = match &input {
            Some(reader) => origin == Origin::Lines && reader.is_terminal(),
            None => false,
        };
        ScriptSource {
            rt,
            file: StdSource::new(rt, path),
            input,
            prompts,
            kept: Bytes::new(alloc),
            most,
            whole: true,
            faults: 0,
            reason: None,
        }
    }
}

impl<R: Files + Input> ScriptSource<'_, R> {
    /// Why the last fault came, if the system said.
    pub(crate) fn reason(&self) -> Option<Reason> {
        match &self.input {
            Some(_) => self.reason,
            None => self.file.reason(),
        }
    }

    /// All bytes that were read so far. `None` if not all are kept.
    pub(crate) fn kept(&self) -> Option<&[u8]> {
        if self.whole {
            Some(self.kept.as_slice())
        } else {
            None
        }
    }

    /// Keeps these bytes too.
    fn keep(&mut self, piece: &[u8])
        ensures { self.new.faults ≡ self.old.faults }
    {
        let fits = piece.len() <= self.most.saturating_sub(self.kept.as_slice().len());
        self.whole = self.whole && fits && self.kept.extend(piece).is_ok();
    }
}

impl<R: Files + Input + Eprint> ScriptSource<'_, R> {
    /// One read of the input or the file.
    fn read_some(&mut self, piece: &mut [u8]) -> ReadAnswer
        requires { 0 < length piece.old }
        ensures within { IfRead result (λ n. n ≤ length piece.new) }
        ensures same { self.new.faults ≡ self.old.faults }
    {
        let Some(input) = &mut self.input else {
            return self.file.read(piece);
        };
        if self.prompts {
            let _ = self.rt.eprint(PROMPT);
        }
        match read_once(input, piece) {
            Ok(count) => ReadAnswer::Count(count),
            Err(reason) => {
                self.reason = Some(reason);
                ReadAnswer::Failed
            }
        }
    }
}

/// One read, tried again if it was interrupted.
fn read_once<F: Read>(input: &mut F, piece: &mut [u8]) -> Result<usize, Reason>
    ensures { IfOk result (λ n. n ≤ length piece.new) }
{
    for _ in 0..u64::MAX {
        match input.read(piece) {
            Ok(count) => return Ok(count),
            Err(error) => {
                if error.kind() != ErrorKind::Interrupted {
                    return Err(Reason::of(&error));
                }
            }
        }
    }
    Err(Reason::Other(None))
}

impl<R: Files + Input + Eprint> Source for ScriptSource<'_, R> {
    ghost left = { λ _. None };

    ghost faults = { λ s. s.faults };

    fn read(&mut self, piece: &mut [u8]) -> ReadAnswer {
        let answer = self.read_some(piece);
        match answer {
            ReadAnswer::Count(count) => self.keep(&piece[..count]),
            ReadAnswer::Failed => self.faults = self.faults.saturating_add(1),
        }
        answer
    }
}
