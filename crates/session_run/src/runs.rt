//! Runs commands on a new pool, or on the pool of an image.

ghost use Rattle.std.specs.Prelude.{◌≡◌, ◌≢◌, ◌⊎◌};
ghost use Rattle.nvm_base.specs.Rose.{Rose};
ghost use Rattle.pmem.specs.Device as device;
ghost use Rattle.pool_layout.specs.Sizes.{pool_lines};
ghost use Rattle.session_run.specs.Commands.{CommandsEnd, RanAs, OpenedAs};
ghost use Rattle.session_run.specs.Strict.{IsAnswered};

use crate::commands::answer_all;
use crate::status::Status;
use crate::writing::{Unwritten, put_answer};
use cnvm_script::Script;
use cnvm_session::{Program, Session, StartFault, Traps, create, start_from};
use nvm_base::{Sink, Steps, Words};
use pmem::Pmem;
use std::alloc::Global;
use std::sync::ledger::Ledger;

/// Makes a new pool, runs the script's commands on it, and writes each answer before the next
/// command.
#[tactic(auto, using(crate::proofs::Running::keeps_same))]
pub fn run_created<K: Sink, P: Pmem, L: Ledger>(
    alloc: Global,
    program: &Program,
    script: &Script,
    traps: &mut Traps,
    out: &mut K,
    dev: &mut P,
    steps: &mut Steps<L>,
) -> Status
    ensures read { result ≢ Status.ReadFault }
    ensures usage { result ≢ Status.Usage }
    ensures write { result ≡ Status.WriteFault → Rose (K.faults out.old) (K.faults out.new) }
    ensures device { result ≡ Status.DeviceFault
        → device.FaultsRose (P.device dev.old).faults (P.device dev.new).faults }
    ensures ran { RanAs program.now script.now result (K.written out.old)
        (K.written out.new) (P.device dev.old) (P.device dev.new) steps.old steps.new }
    ensures lines { IsAnswered result
        → (P.device dev.new).lines ≡ pool_lines program.now.image.parts.sizes }
{
    let mut session = match create(program, dev) {
        Ok(session) => session,
        Err(StartFault::Failed) => return Status::DeviceFault,
        Err(StartFault::NoMemory) => return Status::NoMemory,
    };
    match answer_all(
        alloc,
        program,
        script.as_slice(),
        &mut session,
        traps,
        out,
        dev,
        steps,
    ) {
        Ok(unmet) => Status::answered(unmet),
        Err(Unwritten::NoMemory) => Status::NoMemory,
        Err(Unwritten::WriteFault) => Status::WriteFault,
    }
}

/// Opens the pool with these words, and writes how it was recovered; then runs the script's
/// commands, and writes each answer before the next. The words are let go once the pool is open.
pub fn run_from<K: Sink, P: Pmem, L: Ledger>(
    alloc: Global,
    program: &Program,
    script: &Script,
    words: Words,
    traps: &mut Traps,
    out: &mut K,
    dev: &mut P,
    steps: &mut Steps<L>,
) -> Status
    ensures read { result ≢ Status.ReadFault }
    ensures usage { result ≢ Status.Usage }
    ensures write { result ≡ Status.WriteFault → Rose (K.faults out.old) (K.faults out.new) }
    ensures device { result ≡ Status.DeviceFault
        → device.FaultsRose (P.device dev.old).faults (P.device dev.new).faults }
    ensures ran { OpenedAs program.now script.now words result
        (K.written out.old) (K.written out.new) (P.device dev.old) (P.device dev.new) steps.old
        steps.new }
    ensures lines { IsAnswered result
        → (P.device dev.new).lines ≡ pool_lines program.now.image.parts.sizes }
{
    let (mut session, answer) = match start_from(alloc, program, words.as_slice(), dev, steps) {
        Ok(started) => started,
        Err(StartFault::Failed) => return Status::DeviceFault,
        Err(StartFault::NoMemory) => return Status::NoMemory,
    };
    drop(words);
    traps.saw(&answer, &session);
    let more = !script.as_slice().is_empty();
    match put_answer(alloc, &answer, more, out) {
        Ok(()) => run_commands(alloc, program, script, &mut session, traps, out, dev, steps),
        Err(Unwritten::NoMemory) => Status::NoMemory,
        Err(Unwritten::WriteFault) => Status::WriteFault,
    }
}

/// Runs the commands on an open session.
fn run_commands<K: Sink, P: Pmem, L: Ledger>(
    alloc: Global,
    program: &Program,
    script: &Script,
    session: &mut Session,
    traps: &mut Traps,
    out: &mut K,
    dev: &mut P,
    steps: &mut Steps<L>,
) -> Status
    requires lines { (P.device dev.old).lines
        ≡ pool_lines program.now.image.parts.sizes }
    ensures status { IsAnswered result
        ⊎ ((result ≡ Status.NoMemory) ⊎ (result ≡ Status.WriteFault)) }
    ensures write { result ≡ Status.WriteFault → Rose (K.faults out.old) (K.faults out.new) }
    ensures ran { CommandsEnd program.now script.now result session.old
        (P.device dev.old) (K.written out.old) steps.old (P.device dev.new) (K.written out.new)
        steps.new }
    ensures lines { (P.device dev.new).lines
        ≡ pool_lines program.now.image.parts.sizes }
{
    match answer_all(
        alloc,
        program,
        script.as_slice(),
        session,
        traps,
        out,
        dev,
        steps,
    ) {
        Ok(unmet) => Status::answered(unmet),
        Err(Unwritten::NoMemory) => Status::NoMemory,
        Err(Unwritten::WriteFault) => Status::WriteFault,
    }
}
