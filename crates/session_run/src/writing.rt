//! Writes lines.

ghost use Rattle.std.specs.Prelude.{◌≡◌, ◌≢◌, ◌⊎◌, ◌≤◌, ℕ, List, OnOk, OnErr, IfOk, IsErrOf};
ghost use Rattle.std.specs.Prelude.{string_bytes};
ghost use Rattle.std.specs.Io.KnownBytes.{Appends};
ghost use Rattle.nvm_base.specs.Parts.{AppendsPart};
ghost use Rattle.nvm_base.specs.Rose.{Rose};
ghost use Rattle.cnvm_session.specs.AnswerText.{answer_text};
ghost use Rattle.session_run.specs.Told.{TellsAs};

use crate::status::Status;
use cnvm_session::{Answer, answer_text};
use nvm_base::{Sink, WriteFault, write_all, write_whole};
use std::alloc::{AllocError, Global};

/// Why a line wasn't written.
#[derive(Clone, Copy, PartialEq, Eq)]
pub(crate) enum Unwritten {
    NoMemory,
    WriteFault,
}

/// Writes the text; the status is this one, unless the sink failed.
pub fn put<K: Sink>(out: &mut K, text: &str, status: Status) -> Status
    ensures tells { TellsAs status text.now result (K.written out.old) (K.written out.new) }
    ensures status { (result ≡ status) ⊎ (result ≡ Status.WriteFault) }
    ensures write { result ≡ Status.WriteFault → (status ≡ Status.WriteFault)
        ⊎ Rose (K.faults out.old) (K.faults out.new) }
{
    match write_whole(out, text.as_bytes()) {
        Ok(()) => status,
        Err(_) => Status::WriteFault,
    }
}

/// Writes a line; there may have been no memory to make it.
#[tactic(auto, using(crate::proofs::Running::keeps_same))]
pub fn tell<K: Sink>(out: &mut K, line: Result<String, AllocError>, status: Status) -> Status
    ensures tells { (text : List ℕ) → IfOk line (λ s. string_bytes s ≡ text)
        → TellsAs status text result (K.written out.old) (K.written out.new) }
    ensures status { (result ≡ status)
        ⊎ ((result ≡ Status.NoMemory) ⊎ (result ≡ Status.WriteFault)) }
    ensures write { result ≡ Status.WriteFault → (status ≡ Status.WriteFault)
        ⊎ Rose (K.faults out.old) (K.faults out.new) }
{
    match line {
        Ok(line) => put(out, line.as_str(), status),
        Err(_) => Status::NoMemory,
    }
}

/// Writes the bytes. Unless more follow, it ends the sink, so that this holds none of them back.
fn put_bytes<K: Sink>(out: &mut K, bytes: &[u8], more: bool) -> Result<(), WriteFault>
    ensures ok { OnOk result (Appends (K.written out.old) (K.written out.new) bytes.now) }
    ensures part { OnErr result (AppendsPart (K.written out.old) (K.written out.new) bytes.now) }
    ensures fault { OnErr result (Rose (K.faults out.old) (K.faults out.new)) }
    ensures count { K.faults out.old ≤ K.faults out.new }
{
    if more {
        write_all(out, bytes)
    } else {
        write_whole(out, bytes)
    }
}

/// Writes the whole lines of an answer, which the sink may hold back if more answers follow.
pub(crate) fn put_answer<K: Sink>(
    alloc: Global,
    answer: &Answer,
    more: bool,
    out: &mut K,
) -> Result<(), Unwritten>
    ensures whole { OnOk result (Appends (K.written out.old) (K.written out.new)
        (answer_text answer.now)) }
    ensures part { OnErr result (AppendsPart (K.written out.old) (K.written out.new)
        (answer_text answer.now)) }
    ensures write { IsErrOf result Unwritten.WriteFault
        → Rose (K.faults out.old) (K.faults out.new) }
    ensures count { K.faults out.old ≤ K.faults out.new }
{
    let Ok(text) = answer_text(alloc, answer) else {
        return Err(Unwritten::NoMemory);
    };
    match put_bytes(out, text.as_str().as_bytes(), more) {
        Ok(()) => Ok(()),
        Err(_) => Err(Unwritten::WriteFault),
    }
}
