//! Serves the lines of an input, one by one.

ghost use Rattle.std.specs.Prelude.{◌≡◌, ◌≤◌, Some, length};
ghost use Rattle.std.specs.Io.KnownBytes.{IsAtEnd};
ghost use Rattle.nvm_base.specs.Rose.{Rose};
ghost use Rattle.pool_layout.specs.Sizes.{pool_lines};
ghost use Rattle.session_serve.specs.Left.{left_of};
ghost use Rattle.session_serve.specs.LineSize.{line_size};
ghost use Rattle.session_serve.specs.Serves.{ServedAs};
ghost use Rattle.session_serve.specs.inside.Next.{NextAs};

use crate::answering::{Unanswered, answer_line};
use crate::bad_lines::BadLines;
use crate::line_reader::{LineReader, ReadLineFault};
use crate::standing::Watch;
use cnvm_session::{Program, Session, Traps};
use nvm_base::{Sink, Source, Steps};
use pmem::Pmem;
use std::alloc::Global;
use std::sync::ledger::Ledger;

/// How serving ended.
#[derive(Clone, Copy, Debug, PartialEq, Eq)]
pub enum Served {
    /// The input is at its end, and each line is answered.
    Done,
    /// A read failed, and the source's count of faults rose.
    ReadFault,
    /// The next line has more bytes than a script may have.
    LongLine,
    /// So many lines are answered as can be counted.
    ManyLines,
    /// There was no memory for the next line, or for the text of its answer.
    NoMemory,
    /// A part of the next answer is written, and the sink's count of faults rose.
    WriteFault,
    /// The device was given up while the last line was answered.
    GivenUp,
}

/// Answers the lines of the input in order, each before the next is read.
pub fn serve<S: Source, K: Sink, P: Pmem, W: Watch<P>, B: BadLines, L: Ledger>(
    alloc: Global,
    program: &Program,
    session: &mut Session,
    source: &mut S,
    traps: &mut Traps,
    out: &mut K,
    dev: &mut P,
    watch: &W,
    bad: &mut B,
    steps: &mut Steps<L>,
) -> Served
    requires lines { (P.device dev.old).lines ≡ pool_lines program.now.image.parts.sizes }
    requires kept { W.kept dev.old }
    ensures served { ServedAs result (S.left source.old) (S.left source.new) program.now
        session.old (P.device dev.old) (K.written out.old) steps.old (P.device dev.new)
        (K.written out.new) steps.new }
    ensures end { result ≡ Served.Done → IsAtEnd (S.left source.new) }
    ensures read { result ≡ Served.ReadFault → Rose (S.faults source.old) (S.faults source.new) }
    ensures write { result ≡ Served.WriteFault → Rose (K.faults out.old) (K.faults out.new) }
    ensures count { K.faults out.old ≤ K.faults out.new }
    ensures given_up { result ≡ Served.GivenUp → W.kept dev.new → ⊥ }
    ensures done_kept { result ≡ Served.Done → W.kept dev.new }
    ensures read_kept { result ≡ Served.ReadFault → W.kept dev.new }
{
    let mut reader = LineReader::new(alloc);
    for count in 0..u64::MAX {
        if let Some(end) = serve_next(
            alloc,
            program,
            session,
            &mut reader,
            source,
            count + 1,
            traps,
            out,
            dev,
            bad,
            steps,
        ) {
            return end;
        }
        if !watch.stands(dev) {
            return Served::GivenUp;
        }
    }
    Served::ManyLines
}

/// Takes the next line, which has this number, and answers it before it returns; or tells how
/// serving ends.
fn serve_next<S: Source, K: Sink, P: Pmem, B: BadLines, L: Ledger>(
    alloc: Global,
    program: &Program,
    session: &mut Session,
    reader: &mut LineReader,
    source: &mut S,
    number: u64,
    traps: &mut Traps,
    out: &mut K,
    dev: &mut P,
    bad: &mut B,
    steps: &mut Steps<L>,
) -> Option<Served>
    requires { (P.device dev.old).lines ≡ pool_lines program.now.image.parts.sizes }
    ensures next { NextAs result (left_of S.left reader.old source.old)
        (left_of S.left reader.new source.new) program.now session.old (P.device dev.old)
        (K.written out.old) steps.old session.new (P.device dev.new) (K.written out.new)
        steps.new }
    ensures end { result ≡ Some Served.Done → IsAtEnd (left_of S.left reader.new source.new) }
    ensures partial { result ≡ Some Served.ReadFault
        → line_size reader.new.ahead.items ≡ length reader.new.ahead.items }
    ensures done_same { result ≡ Some Served.Done → dev.new ≡ dev.old }
    ensures read_same { result ≡ Some Served.ReadFault → dev.new ≡ dev.old }
    ensures read { result ≡ Some Served.ReadFault
        → Rose (S.faults source.old) (S.faults source.new) }
    ensures write { result ≡ Some Served.WriteFault
        → Rose (K.faults out.old) (K.faults out.new) }
    ensures reads { S.faults source.old ≤ S.faults source.new }
    ensures count { K.faults out.old ≤ K.faults out.new }
    ensures lines { (P.device dev.new).lines ≡ (P.device dev.old).lines }
{
    let line = match reader.next_line(source) {
        Ok(Some(line)) => line,
        Ok(None) => return Some(Served::Done),
        Err(ReadLineFault::ReadFault) => return Some(Served::ReadFault),
        Err(ReadLineFault::Long) => return Some(Served::LongLine),
        Err(ReadLineFault::NoMemory) => return Some(Served::NoMemory),
    };
    let line = line.as_slice();
    match answer_line(
        alloc, program, number, line, session, traps, out, dev, bad, steps,
    ) {
        Ok(()) => None,
        Err(Unanswered::Unread) => Some(Served::NoMemory),
        Err(Unanswered::Untold) => Some(Served::NoMemory),
        Err(Unanswered::Unwritten) => Some(Served::WriteFault),
    }
}
