//! Answers one line.

ghost use Rattle.std.specs.Prelude.{◌≡◌, ◌≤◌, Some, OnOk, OnErr, IfOk, IsErrOf};
ghost use Rattle.std.specs.Io.KnownBytes.{Appends};
ghost use Rattle.nvm_base.specs.Parts.{AppendsPart};
ghost use Rattle.nvm_base.specs.Rose.{Rose};
ghost use Rattle.pool_layout.specs.Sizes.{pool_lines};
ghost use Rattle.cnvm_script.specs.Commands.{line_meaning};
ghost use Rattle.session_serve.specs.Begins.{ended_text};
ghost use Rattle.session_serve.specs.inside.Next.{AnsweredAs};

use crate::bad_lines::BadLines;
use cnvm_script::{Command, LineFault, read_line};
use cnvm_session::{Answer, Program, Session, Traps, answer_text};
use nvm_base::{Sink, Steps, Text, write_whole};
use pmem::Pmem;
use std::alloc::{AllocError, Global};
use std::sync::ledger::Ledger;

/// Why a line isn't answered.
#[derive(Clone, Copy, Debug, PartialEq, Eq)]
pub(crate) enum Unanswered {
    /// There was no memory to read the line; nothing has changed.
    Unread,
    /// What the line says is done, and there was no memory for the text of its answer.
    Untold,
    /// A part of the answer is written, and the sink's count of faults rose.
    Unwritten,
}

/// Does what the line of this number says, and writes its answer and an empty line. Who is to hear
/// of a bad line is told before that.
pub(crate) fn answer_line<K: Sink, P: Pmem, B: BadLines, L: Ledger>(
    alloc: Global,
    program: &Program,
    number: u64,
    line: &[u8],
    session: &mut Session,
    traps: &mut Traps,
    out: &mut K,
    dev: &mut P,
    bad: &mut B,
    steps: &mut Steps<L>,
) -> Result<(), Unanswered>
    requires { (P.device dev.old).lines ≡ pool_lines program.now.image.parts.sizes }
    ensures answered { AnsweredAs result (line_meaning line.now) program.now session.old
        (P.device dev.old) (K.written out.old) steps.old session.new (P.device dev.new)
        (K.written out.new) steps.new }
    ensures write { IsErrOf result Unanswered.Unwritten
        → Rose (K.faults out.old) (K.faults out.new) }
    ensures count { K.faults out.old ≤ K.faults out.new }
    ensures lines { (P.device dev.new).lines ≡ (P.device dev.old).lines }
{
    match read_line(alloc, line) {
        Ok(Some(command)) => {
            answer_command(alloc, program, &command, session, traps, out, dev, steps)
        }
        Ok(None) => put(out, "\n"),
        Err(LineFault::Bad) => {
            bad.tell(number, line);
            put(out, "refused line\n\n")
        }
        Err(LineFault::NoMemory) => Err(Unanswered::Unread),
    }
}

/// Does the command, and writes its answer and an empty line.
fn answer_command<K: Sink, P: Pmem, L: Ledger>(
    alloc: Global,
    program: &Program,
    command: &Command,
    session: &mut Session,
    traps: &mut Traps,
    out: &mut K,
    dev: &mut P,
    steps: &mut Steps<L>,
) -> Result<(), Unanswered>
    requires { (P.device dev.old).lines ≡ pool_lines program.now.image.parts.sizes }
    ensures answered { AnsweredAs result (Some (Some command.now)) program.now session.old
        (P.device dev.old) (K.written out.old) steps.old session.new (P.device dev.new)
        (K.written out.new) steps.new }
    ensures write { IsErrOf result Unanswered.Unwritten
        → Rose (K.faults out.old) (K.faults out.new) }
    ensures count { K.faults out.old ≤ K.faults out.new }
    ensures lines { (P.device dev.new).lines ≡ (P.device dev.old).lines }
{
    let answer = session.command(alloc, program, command, dev, steps);
    traps.saw(&answer, session);
    put_answer(alloc, &answer, out)
}

/// Writes an answer and an empty line.
pub(crate) fn put_answer<K: Sink>(
    alloc: Global,
    answer: &Answer,
    out: &mut K,
) -> Result<(), Unanswered>
    ensures whole { OnOk result (Appends (K.written out.old) (K.written out.new)
        (ended_text answer.now)) }
    ensures part { OnErr result (AppendsPart (K.written out.old) (K.written out.new)
        (ended_text answer.now)) }
    ensures untold { IsErrOf result Unanswered.Untold → K.written out.new ≡ K.written out.old }
    ensures why { IsErrOf result Unanswered.Unread → ⊥ }
    ensures write { IsErrOf result Unanswered.Unwritten
        → Rose (K.faults out.old) (K.faults out.new) }
    ensures count { K.faults out.old ≤ K.faults out.new }
{
    match ended_text(alloc, answer) {
        Ok(text) => put(out, text.as_str()),
        Err(_) => Err(Unanswered::Untold),
    }
}

/// The lines of an answer and an empty line.
fn ended_text(alloc: Global, answer: &Answer) -> Result<Text, AllocError>
    ensures { IfOk result (λ text. text ≡ ended_text answer.now) }
{
    let mut text = answer_text(alloc, answer)?;
    text.push("\n")?;
    Ok(text)
}

fn put<K: Sink>(out: &mut K, text: &str) -> Result<(), Unanswered>
    ensures whole { OnOk result (Appends (K.written out.old) (K.written out.new) text.now) }
    ensures part { OnErr result (AppendsPart (K.written out.old) (K.written out.new) text.now) }
    ensures write { OnErr result (Rose (K.faults out.old) (K.faults out.new)) }
    ensures why { OnErr result (result ≡ Err Unanswered.Unwritten) }
    ensures count { K.faults out.old ≤ K.faults out.new }
{
    match write_whole(out, text.as_bytes()) {
        Ok(()) => Ok(()),
        Err(_) => Err(Unanswered::Unwritten),
    }
}
