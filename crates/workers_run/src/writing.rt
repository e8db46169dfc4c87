//! Writes the lines of a command.

ghost use Rattle.std.specs.Prelude.{◌≤◌, OnOk, OnErr, IsErrOf};
ghost use Rattle.std.specs.Io.KnownBytes.{Appends};
ghost use Rattle.nvm_base.specs.Parts.{AppendsPart};
ghost use Rattle.nvm_base.specs.Rose.{Rose};
ghost use Rattle.workers_session.specs.LineText.{line_text};
ghost use Rattle.workers_run.specs.WorkersRan.{lines_text};

use nvm_base::{Sink, write_whole};
use std::alloc::Global;
use workers_session::{WorkersLine, line_text};

/// Why a line wasn't written.
#[derive(Clone, Copy, PartialEq, Eq)]
pub(crate) enum Unwritten {
    NoMemory,
    WriteFault,
}

/// Writes the text of a line.
fn put_line<K: Sink>(alloc: Global, line: &WorkersLine, out: &mut K) -> Result<(), Unwritten>
    ensures whole { OnOk result (Appends (K.written out.old) (K.written out.new)
        (line_text line.now)) }
    ensures part { OnErr result (AppendsPart (K.written out.old) (K.written out.new)
        (line_text line.now)) }
    ensures write { IsErrOf result Unwritten.WriteFault
        → Rose (K.faults out.old) (K.faults out.new) }
    ensures count { K.faults out.old ≤ K.faults out.new }
{
    let Ok(text) = line_text(alloc, line) else {
        return Err(Unwritten::NoMemory);
    };
    match write_whole(out, text.as_str().as_bytes()) {
        Ok(()) => Ok(()),
        Err(_) => Err(Unwritten::WriteFault),
    }
}

/// Writes the texts of the lines, in their order.
pub(crate) fn put_lines<K: Sink>(
    alloc: Global,
    lines: &[WorkersLine],
    out: &mut K,
) -> Result<(), Unwritten>
    ensures whole { OnOk result (Appends (K.written out.old) (K.written out.new)
        (lines_text lines.now)) }
    ensures part { OnErr result (AppendsPart (K.written out.old) (K.written out.new)
        (lines_text lines.now)) }
    ensures write { IsErrOf result Unwritten.WriteFault
        → Rose (K.faults out.old) (K.faults out.new) }
    ensures count { K.faults out.old ≤ K.faults out.new }
{
    for line in lines {
        if let Err(why) = put_line(alloc, line, out) {
            return Err(why);
        }
    }
    Ok(())
}
