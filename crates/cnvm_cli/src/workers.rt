//! Runs a script of workers.

ghost use Rattle.std.specs.Prelude.{◌≡◌, ◌≢◌, ◌≤◌, ◌⊎◌, Some, length, OnOk, IsErrOf};
ghost use Rattle.std.specs.Io.KnownBytes.{IsAtEnd, Keeps};
ghost use Rattle.nvm_base.specs.Rose.{Rose};
ghost use Rattle.pmem.specs.Device as device;
ghost use Rattle.workers_script.specs.WorkersGrammar.{workers_script_meaning};
ghost use Rattle.cnvm_cli.specs.WorkersMeant.{run_status};
ghost use Rattle.cnvm_cli.specs.inside.CrewEnds.{CrewReadAs};
ghost use Rattle.cnvm_cli.specs.inside.WorkersEnds.{WorkersRanAs, WorkersEnds};
ghost use Rattle.cnvm_cli.specs.inside.Texts.{ReadIn};
ghost use Rattle.session_run.specs.Strict.{IsAnswered};

use crate::reading::{read_program, read_text};
use crate::refused::{Refused, refuse};
use crate::traps::look_up;
use crate::world::World;
use cnvm_compile::{Asked, Compiled};
use cnvm_script::{SCRIPT_BYTES, ScriptFault};
use cnvm_session::{Program, Traps};
use nvm_base::{ReadAllFault, Sink, Source, Steps};
use pmem::Pmem;
use session_run::Status;
use std::alloc::Global;
use std::sync::ledger::Ledger;
use workers_run::{RunFault, run_workers};
use workers_script::{WorkersCommand, WorkersScript, read_workers};

/// The program and the commands of several workers that are to be run.
#[derive(Drop)]
pub(crate) struct Crew {
    pub(crate) compiled: Compiled,
    pub(crate) commands: WorkersScript,
}

/// Reads the program, and then the script.
pub(crate) fn read_crew<S: Source, T: Source>(
    alloc: Global,
    asked: Asked,
    program: &mut S,
    script: &mut T,
) -> Result<Crew, Refused>
    ensures told { CrewReadAs result asked (S.left program.old) (T.left script.old) }
    ensures program_end { OnOk result (IsAtEnd (S.left program.new)) }
    ensures script_end { OnOk result (IsAtEnd (T.left script.new)) }
    ensures read { IsErrOf result Refused.ReadFault
        → Rose (S.faults program.old) (S.faults program.new)
        ⊎ Rose (T.faults script.old) (T.faults script.new) }
    ensures usage { IsErrOf result Refused.Usage → ⊥ }
{
    let compiled = match read_program(alloc, program, asked) {
        Ok(compiled) => compiled,
        Err(why) => return Err(why),
    };
    match read_turns(alloc, script) {
        Ok(commands) => Ok(Crew { compiled, commands }),
        Err(why) => Err(why),
    }
}

/// Reads the program and the script, and runs the script's commands on a new pool of compartments,
/// one for each worker. Nothing is saved.
#[tactic(auto, using(session_run::proofs::Running::keeps_same))]
pub(crate) fn run_script<
    S: Source,
    T: Source,
    I: Source,
    K: Sink,
    O: Sink,
    P: Pmem + Drop,
    L: Ledger,
>(
    alloc: Global,
    asked: Asked,
    count: u32,
    world: &mut World<S, T, I, K, O, P>,
    steps: &mut Steps<L>,
) -> Status
    requires first { 1 ≤ count }
    requires last { count ≤ 8 }
    ensures read { result ≡ Status.ReadFault
        → Rose (S.faults world.old.program) (S.faults world.new.program)
        ⊎ Rose (T.faults world.old.script) (T.faults world.new.script) }
    ensures usage { result ≢ Status.Usage }
    ensures write { result ≡ Status.WriteFault
        → Rose (K.faults world.old.out) (K.faults world.new.out) }
    ensures device { result ≡ Status.DeviceFault
        → device.FaultsRose (P.device world.old.dev).faults (P.device world.new.dev).faults }
    ensures program_end { IsAnswered result → IsAtEnd (S.left world.new.program) }
    ensures script_end { IsAnswered result → IsAtEnd (T.left world.new.script) }
    ensures ends { WorkersEnds asked count (S.left world.old.program) (T.left world.old.script)
        result (K.written world.old.out) (K.written world.new.out) (P.device world.old.dev)
        (P.device world.new.dev) steps.old steps.new }
    ensures image { Keeps (O.written world.old.image_out) (O.written world.new.image_out) }
{
    match read_crew(alloc, asked, &mut world.program, &mut world.script) {
        Ok(crew) => {
            let status = run_turns(
                alloc,
                &crew.compiled.program,
                count,
                crew.commands.as_slice(),
                &mut world.traps,
                &mut world.out,
                &mut world.dev,
                steps,
            );
            look_up(alloc, &crew.compiled, &mut world.traps);
            status
        }
        Err(refused) => refuse(alloc, refused, &mut world.out),
    }
}

/// Reads the script to its end.
fn read_turns<T: Source>(alloc: Global, source: &mut T) -> Result<WorkersScript, Refused>
    ensures told { ReadIn workers_script_meaning result (T.left source.old) }
    ensures end { OnOk result (IsAtEnd (T.left source.new)) }
    ensures read { IsErrOf result Refused.ReadFault
        → Rose (T.faults source.old) (T.faults source.new) }
    ensures usage { IsErrOf result Refused.Usage → ⊥ }
{
    let text = match read_text(alloc, source, SCRIPT_BYTES) {
        Ok(text) => text,
        Err(ReadAllFault::ReadFault) => return Err(Refused::ReadFault),
        Err(ReadAllFault::Long) => return Err(Refused::LongScript),
        Err(ReadAllFault::NoMemory) => return Err(Refused::NoMemory),
    };
    turns_of(alloc, text.as_slice())
}

/// The commands of a script's text.
fn turns_of(alloc: Global, text: &[u8]) -> Result<WorkersScript, Refused>
    requires { length text.now ≤ SCRIPT_BYTES }
    ensures are { ReadIn workers_script_meaning result (Some text.now) }
    ensures read { IsErrOf result Refused.ReadFault → ⊥ }
    ensures usage { IsErrOf result Refused.Usage → ⊥ }
{
    match read_workers(alloc, text) {
        Ok(script) => Ok(script),
        Err(ScriptFault::BadLine(line)) => Err(Refused::Script(line)),
        Err(ScriptFault::NoMemory) => Err(Refused::NoMemory),
    }
}

/// Runs the commands.
fn run_turns<K: Sink, P: Pmem + Drop, L: Ledger>(
    alloc: Global,
    program: &Program,
    count: u32,
    commands: &[WorkersCommand],
    traps: &mut Traps,
    out: &mut K,
    dev: &mut P,
    steps: &mut Steps<L>,
) -> Status
    requires first { 1 ≤ count }
    requires last { count ≤ 8 }
    ensures read { result ≢ Status.ReadFault }
    ensures usage { result ≢ Status.Usage }
    ensures write { result ≡ Status.WriteFault → Rose (K.faults out.old) (K.faults out.new) }
    ensures device { result ≡ Status.DeviceFault
        → device.FaultsRose (P.device dev.old).faults (P.device dev.new).faults }
    ensures ran { WorkersRanAs program.now count commands.now result (K.written out.old)
        (K.written out.new) (P.device dev.old) (P.device dev.new) steps.old steps.new }
{
    status_of(run_workers(alloc, program, count, commands, traps, out, dev, steps))
}

/// The status of a run of workers.
pub(crate) fn status_of(ran: Result<(), RunFault>) -> Status
    ensures value { result ≡ run_status ran }
    ensures read { result ≢ Status.ReadFault }
    ensures usage { result ≢ Status.Usage }
    ensures write { result ≡ Status.WriteFault → IsErrOf ran RunFault.Write }
    ensures device { result ≡ Status.DeviceFault → IsErrOf ran RunFault.Device }
{
    match ran {
        Ok(()) => Status::Done,
        Err(RunFault::Device) => Status::DeviceFault,
        Err(RunFault::NoMemory) => Status::NoMemory,
        Err(RunFault::Write) => Status::WriteFault,
    }
}
