//! Reads lines from a source, one at a time.

ghost use Rattle.std.specs.Prelude.{◌≡◌, ◌+◌, ◌<◌, ◌≤◌, Some, List, [], length, take, drop};
ghost use Rattle.std.specs.Prelude.{true, false, IfOk, IfSome, OnOk, OnErr, IsErrOf, slice_get};
ghost use Rattle.std.specs.Io.KnownBytes.{IsAtEnd, Keeps};
ghost use Rattle.nvm_base.specs.Rose.{Rose};
ghost use Rattle.cnvm_script.specs.declared.read.TheConstants.{SCRIPT_BYTES};
ghost use Rattle.cnvm_script.specs.Lines.{lines};
ghost use Rattle.session_serve.specs.Left.{left_of};
ghost use Rattle.session_serve.specs.LineSize.{line_size, after_line};
ghost use Rattle.session_serve.specs.declared.line_reader.ReadLineFault.TheVariants.{NoMemory};

use cnvm_script::{SCRIPT_BYTES, next_line};
use nvm_base::{Bytes, ReadAnswer, Source};
use std::alloc::{AllocError, Global};

/// Why a reader gives no line. What is left to read stays as it was.
#[derive(Clone, Copy, Debug, PartialEq, Eq)]
pub enum ReadLineFault {
    /// A read failed, and the source's count of faults rose.
    ReadFault,
    /// The next line has more bytes than a script may have.
    Long,
    NoMemory,
}

impl From<AllocError> for ReadLineFault {
    ghost from_gives = { λ _ fault. fault ≡ NoMemory };

    fn from(_: AllocError) -> Self {
        ReadLineFault::NoMemory
    }
}

/// The most bytes that one read asks for.
const PIECE: usize = 4096;

/// Reads the lines of a source. It reads only while no whole line is left of what it read before.
#[derive(Drop)]
pub struct LineReader {
    alloc: Global,
    /// The bytes that were read, and not given in a line yet.
    pub(crate) ahead: Vec<u8>,
}

impl LineReader {
    /// A reader that has read nothing.
    pub fn new(alloc: Global) -> Self
        ensures { result.ahead.items ≡ [] }
    {
        LineReader {
            alloc,
            ahead: Vec::new(alloc),
        }
    }

    /// The next line without its newline, or `None` at the end of input. A last line without a
    /// newline counts. All lines are to be asked of one source.
    pub fn next_line<S: Source>(&mut self, source: &mut S) -> Result<Option<Bytes>, ReadLineFault>
        ensures line { IfOk result (λ line. IfSome (left_of S.left self.old source.old)
            (λ text. line ≡ slice_get (lines text) 0)) }
        ensures rest { OnOk result (IfSome (left_of S.left self.old source.old)
            (λ text. left_of S.left self.new source.new ≡ Some (after_line text))) }
        ensures within { OnOk result (IfSome (left_of S.left self.old source.old)
            (λ text. line_size text ≤ SCRIPT_BYTES)) }
        ensures end { result ≡ Ok None → IsAtEnd (left_of S.left self.new source.new) }
        ensures long { IsErrOf result ReadLineFault.Long
            → IfSome (left_of S.left self.old source.old)
            (λ text. SCRIPT_BYTES < line_size text) }
        ensures fault { IsErrOf result ReadLineFault.ReadFault
            → Rose (S.faults source.old) (S.faults source.new) }
        ensures partial { IsErrOf result ReadLineFault.ReadFault
            → line_size self.new.ahead.items ≡ length self.new.ahead.items }
        ensures kept { OnErr result (Keeps (left_of S.left self.old source.old)
            (left_of S.left self.new source.new)) }
        ensures unread { line_size self.old.ahead.items < length self.old.ahead.items
            → source.new ≡ source.old }
        ensures count { S.faults source.old ≤ S.faults source.new }
    {
        let mut size = 0;
        'reads: loop {
            size += line_size(&self.ahead[size..]);
            if size > SCRIPT_BYTES {
                return Err(ReadLineFault::Long);
            }
            if size < self.ahead.len() {
                return self.give(size + 1);
            }
            if !self.read_more(source)? {
                return self.give(size);
            }
        }
    }

    /// Reads a piece, and tells whether it had a byte.
    fn read_more<S: Source>(&mut self, source: &mut S) -> Result<bool, ReadLineFault>
        ensures kept { Keeps (left_of S.left self.old source.old)
            (left_of S.left self.new source.new) }
        ensures front { take (length self.old.ahead.items) self.new.ahead.items
            ≡ self.old.ahead.items }
        ensures some { result ≡ Ok true
            → length self.old.ahead.items < length self.new.ahead.items }
        ensures same { OnErr result (self.new.ahead.items ≡ self.old.ahead.items) }
        ensures end { result ≡ Ok false → (self.new.ahead.items ≡ self.old.ahead.items)
            × IsAtEnd (S.left source.new) }
        ensures fault { IsErrOf result ReadLineFault.ReadFault
            → Rose (S.faults source.old) (S.faults source.new) }
        ensures long { IsErrOf result ReadLineFault.Long → ⊥ }
        ensures count { S.faults source.old ≤ S.faults source.new }
    {
        let size = self.ahead.len();
        self.ahead.resize(size + PIECE, 0)?;
        match source.read(&mut self.ahead[size..]) {
            ReadAnswer::Count(count) => {
                self.ahead.truncate(size + count);
                Ok(count > 0)
            }
            ReadAnswer::Failed => {
                self.ahead.truncate(size);
                Err(ReadLineFault::ReadFault)
            }
        }
    }

    /// Gives the line that these first bytes are, or `None` if there are none.
    fn give(&mut self, end: usize) -> Result<Option<Bytes>, ReadLineFault>
        requires { end ≤ length self.old.ahead.items }
        ensures line { IfOk result
            (λ line. line ≡ slice_get (lines (take end self.old.ahead.items)) 0) }
        ensures none { result ≡ Ok None → end ≡ 0 }
        ensures rest { OnOk result (self.new.ahead.items ≡ drop end self.old.ahead.items) }
        ensures same { OnErr result (self.new.ahead.items ≡ self.old.ahead.items) }
        ensures memory { OnErr result (result ≡ Err ReadLineFault.NoMemory) }
    {
        if end == 0 {
            return Ok(None);
        }
        let (first, _) = next_line(&self.ahead[..end]);
        let mut line = Bytes::new(self.alloc);
        line.extend(first)?;
        self.ahead.drain(..end);
        Ok(Some(line))
    }
}

/// The number of bytes before the first newline, or of all if there is none.
#[tactic(auto, using(crate::proofs::Reading::size_here, crate::proofs::Reading::size_on, crate::proofs::Reading::size_end,))]
fn line_size(bytes: &[u8]) -> usize
    ensures { result ≡ line_size bytes.now }
{
    for (at, byte) in bytes.iter().enumerate() {
        if *byte == b'\n' {
            return at;
        }
    }
    bytes.len()
}
