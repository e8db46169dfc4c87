//! Runs a script's commands and answers each before the next.

ghost use Rattle.std.specs.Prelude.{◌≡◌, ◌≤◌, false, IfOk, OnErr, IsErrOf};
ghost use Rattle.nvm_base.specs.Rose.{Rose};
ghost use Rattle.pool_layout.specs.Sizes.{pool_lines};
ghost use Rattle.session_run.specs.Commands.{RunsAndWrites, RunsPart};

use crate::strict::unmet_after;
use crate::writing::{Unwritten, put_answer};
use cnvm_script::Command;
use cnvm_session::{Program, Session, Traps};
use nvm_base::{Sink, Steps};
use pmem::Pmem;
use std::alloc::Global;
use std::sync::ledger::Ledger;

/// Runs the commands in order, and writes each answer before the next command; the sink may hold
/// them back up to the last. Tells whether one of the answers is a trap or a refusal.
pub(crate) fn answer_all<K: Sink, P: Pmem, L: Ledger>(
    alloc: Global,
    program: &Program,
    commands: &[Command],
    session: &mut Session,
    traps: &mut Traps,
    out: &mut K,
    dev: &mut P,
    steps: &mut Steps<L>,
) -> Result<bool, Unwritten>
    requires lines { (P.device dev.old).lines ≡ pool_lines program.now.image.parts.sizes }
    ensures whole { IfOk result (λ unmet. RunsAndWrites program.now commands.now session.old
        (P.device dev.old) (K.written out.old) steps.old false (P.device dev.new)
        (K.written out.new) steps.new unmet) }
    ensures part { OnErr result (RunsPart program.now commands.now session.old (P.device dev.old)
        (K.written out.old) steps.old (P.device dev.new) (K.written out.new) steps.new) }
    ensures write { IsErrOf result Unwritten.WriteFault
        → Rose (K.faults out.old) (K.faults out.new) }
    ensures lines { (P.device dev.new).lines ≡ pool_lines program.now.image.parts.sizes }
{
    let mut unmet = false;
    let mut left = commands.len();
    for given in commands {
        left = left.saturating_sub(1);
        let answer = session.command(alloc, program, given, dev, steps);
        traps.saw(&answer, session);
        unmet = unmet_after(unmet, &answer);
        if let Err(why) = put_answer(alloc, &answer, left > 0, out) {
            return Err(why);
        }
    }
    Ok(unmet)
}
