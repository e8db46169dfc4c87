//! Runs the commands of a script of workers, and writes the lines of each before the next.

ghost use Rattle.std.specs.Prelude.{◌≤◌, ◌⊎◌, OnOk, OnErr, IsErrOf};
ghost use Rattle.nvm_base.specs.Rose.{Rose};
ghost use Rattle.pmem.specs.Device.{FaultsRose};
ghost use Rattle.workers_session.specs.WorkersState.{IsReadyFor};
ghost use Rattle.workers_session.specs.WorkersCommands.{scene_of};
ghost use Rattle.workers_run.specs.WorkersRan.{RunsWorkers, BreaksOff, Unbegun, RunsNew};
ghost use Rattle.workers_run.specs.WorkersRan.{BreaksOffNew};

use crate::fault::RunFault;
use crate::writing::{Unwritten, put_lines};
use cnvm_session::{Answer, Program, Traps};
use nvm_base::{Sink, Steps};
use pmem::Pmem;
use pool_workers::MakeFault;
use std::alloc::Global;
use std::sync::ledger::Ledger;
use workers_script::WorkersCommand;
use workers_session::{WorkersLine, WorkersSession, create_workers};

/// Runs the commands on a new pool of compartments, one for each worker. The lines of each command
/// are written before the next.
pub fn run_workers<K: Sink, P: Pmem + Drop, L: Ledger>(
    alloc: Global,
    program: &Program,
    count: u32,
    commands: &[WorkersCommand],
    traps: &mut Traps,
    out: &mut K,
    dev: &mut P,
    steps: &mut Steps<L>,
) -> Result<(), RunFault>
    requires first { 1 ≤ count }
    requires last { count ≤ 8 }
    ensures whole { OnOk result (RunsNew program.now count commands.now (K.written out.old)
        (K.written out.new) (P.device dev.old) (P.device dev.new) steps.old steps.new) }
    ensures part { IsErrOf result RunFault.Write → BreaksOffNew program.now count commands.now
        (K.written out.old) (K.written out.new) (P.device dev.old) (P.device dev.new) steps.old
        steps.new }
    ensures device { IsErrOf result RunFault.Device → Unbegun MakeFault.Failed program.now count
        (K.written out.old) (K.written out.new) (P.device dev.old) (P.device dev.new) steps.old
        steps.new }
    ensures memory { IsErrOf result RunFault.NoMemory → Unbegun MakeFault.NoMemory program.now count
        (K.written out.old) (K.written out.new) (P.device dev.old) (P.device dev.new) steps.old
        steps.new ⊎ BreaksOffNew program.now count commands.now (K.written out.old)
        (K.written out.new) (P.device dev.old) (P.device dev.new) steps.old steps.new }
    ensures failed { IsErrOf result RunFault.Device
        → FaultsRose (P.device dev.old).faults (P.device dev.new).faults }
    ensures write { IsErrOf result RunFault.Write → Rose (K.faults out.old) (K.faults out.new) }
{
    let mut session = match create_workers(alloc, program, count, dev) {
        Ok(session) => session,
        Err(MakeFault::Failed) => return Err(RunFault::Device),
        Err(MakeFault::NoMemory) => return Err(RunFault::NoMemory),
    };
    match answer_workers(
        alloc,
        program,
        commands,
        &mut session,
        traps,
        out,
        dev,
        steps,
    ) {
        Ok(()) => Ok(()),
        Err(Unwritten::NoMemory) => Err(RunFault::NoMemory),
        Err(Unwritten::WriteFault) => Err(RunFault::Write),
    }
}

/// Runs the commands in order, and writes the lines of each before the next.
fn answer_workers<K: Sink, P: Pmem + Drop, L: Ledger>(
    alloc: Global,
    program: &Program,
    commands: &[WorkersCommand],
    session: &mut WorkersSession,
    traps: &mut Traps,
    out: &mut K,
    dev: &mut P,
    steps: &mut Steps<L>,
) -> Result<(), Unwritten>
    requires sound { IsReadyFor program.now.image session.old (P.device dev.old) }
    ensures whole { OnOk result (RunsWorkers program.now commands.now
        (scene_of session.old (P.device dev.old) steps.old) (K.written out.old)
        (scene_of session.new (P.device dev.new) steps.new) (K.written out.new)) }
    ensures part { OnErr result (BreaksOff program.now commands.now
        (scene_of session.old (P.device dev.old) steps.old) (K.written out.old)
        (scene_of session.new (P.device dev.new) steps.new) (K.written out.new)) }
    ensures write { IsErrOf result Unwritten.WriteFault
        → Rose (K.faults out.old) (K.faults out.new) }
{
    for given in commands {
        let Some(lines) = session.command(alloc, program, given, dev, steps) else {
            return Err(Unwritten::NoMemory);
        };
        note_traps(traps, lines.as_slice(), session);
        if let Err(why) = put_lines(alloc, lines.as_slice(), out) {
            return Err(why);
        }
    }
    Ok(())
}

/// Notes the first traps of these lines, and the first refused pick.
pub(crate) fn note_traps(traps: &mut Traps, lines: &[WorkersLine], session: &WorkersSession) {
    for line in lines {
        match line {
            WorkersLine::Own {
                worker,
                answer: Answer::Trap(kind) | Answer::RecoveredTrap(kind),
            } => {
                traps.ends(*kind, session.stop(*worker));
            }
            WorkersLine::Own {
                worker,
                answer: Answer::Aborted(kind) | Answer::RecoveredAborted(kind),
            } => traps.undoes(*kind, session.stop(*worker)),
            WorkersLine::Plain(Answer::RefusedPick(_)) => traps.refuses(session.pick_fault()),
            _ => (),
        }
    }
}
