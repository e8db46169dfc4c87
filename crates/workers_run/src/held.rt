//! Runs a script of workers on the compartments of a file.

ghost use Rattle.std.specs.Prelude.{◌≡◌, ◌≤◌, ◌*◌, ◌^◌, OnOk, IfOk, IfErr, IsErrOf};
ghost use Rattle.std.specs.Io.KnownBytes.{Appends};
ghost use Rattle.nvm_base.specs.Rose.{Rose};
ghost use Rattle.cache_model.specs.Cache.{view};
ghost use Rattle.pm_machine.specs.HeapPool.{words_from};
ghost use Rattle.pool_layout.specs.Sizes as sizes_of;
ghost use Rattle.file_pmem.specs.File.{HoldsWords};
ghost use Rattle.file_pmem.specs.Mirror.{file_device};
ghost use Rattle.file_pmem.specs.declared.link.MirrorState.TheVariants.{Awake};
ghost use Rattle.workers_session.specs.WorkersState.{IsReadyFor};
ghost use Rattle.workers_session.specs.WorkersCommands.{scene_of};
ghost use Rattle.workers_run.specs.WorkersRan.{lines_text, RunsWorkers};
ghost use Rattle.workers_run.specs.WorkersHeld.{EndsAt, BreaksHeld, HeldAs, MadeAs, CreatesAll};

use crate::fault::RunFault;
use crate::run::note_traps;
use crate::writing::{Unwritten, put_lines};
use cnvm_session::{Program, StartFault, Traps, open_lines};
use file_pmem::{FilePmem, LineFile};
use nvm_base::{Sink, Steps, Words, write_whole};
use pmem::{Lines, Pmem};
use pool_layout::pool_lines;
use pool_workers::MakeFault;
use session_run::{CREATED, words_on};
use std::alloc::Global;
use std::sync::ledger::Ledger;
use workers_script::WorkersCommand;
use workers_session::{WorkersLine, WorkersSession, create_workers, idle_workers};

/// The number of lines of all compartments.
#[tactic(auto, using(crate::proofs::WorkersHolding::lines_least))]
pub fn crew_lines(program: &Program, count: u32) -> u64
    requires first { 1 ≤ count }
    requires last { count ≤ 8 }
    ensures value { result ≡ sizes_of.pool_lines program.now.image.parts.sizes * count }
    ensures least { 6 ≤ result }
    ensures small { result ≤ 2 ^ 30 }
{
    pool_lines(program.image.sizes()) * u64::from(count)
}

/// Writes the lines of a command, and sees whether the device is still mirrored in its file.
fn put_kept<K: Sink, N: Lines + Drop, F: LineFile + Drop>(
    alloc: Global,
    lines: &[WorkersLine],
    out: &mut K,
    dev: &FilePmem<N, F>,
) -> Result<(), RunFault>
    ensures whole { OnOk result (Appends (K.written out.old) (K.written out.new)
        (lines_text lines.now)) }
    ensures broken { IfErr result (λ why. EndsAt why dev.now.link.state (K.written out.old)
        (K.written out.new) (lines_text lines.now)) }
    ensures kept { OnOk result (dev.now.link.state ≡ Awake) }
    ensures write { IsErrOf result RunFault.Write → Rose (K.faults out.old) (K.faults out.new) }
    ensures count { K.faults out.old ≤ K.faults out.new }
{
    match put_lines(alloc, lines, out) {
        Err(Unwritten::NoMemory) => Err(RunFault::NoMemory),
        Err(Unwritten::WriteFault) => Err(RunFault::Write),
        Ok(()) if dev.keeps() => Ok(()),
        Ok(()) => Err(RunFault::Device),
    }
}

/// Runs the commands in order, and writes the lines of each before the next. It ends at the first
/// command after which the device isn't mirrored in its file.
fn answer_held<K: Sink, N: Lines + Drop, F: LineFile + Drop, L: Ledger>(
    alloc: Global,
    program: &Program,
    commands: &[WorkersCommand],
    session: &mut WorkersSession,
    traps: &mut Traps,
    out: &mut K,
    dev: &mut FilePmem<N, F>,
    steps: &mut Steps<L>,
) -> Result<(), RunFault>
    requires sound { IsReadyFor program.now.image session.old (file_device N.memory dev.old) }
    requires awake { dev.old.link.state ≡ Awake }
    ensures whole { OnOk result (RunsWorkers program.now commands.now
        (scene_of session.old (file_device N.memory dev.old) steps.old) (K.written out.old)
        (scene_of session.new (file_device N.memory dev.new) steps.new) (K.written out.new)) }
    ensures broken { IfErr result (λ why. BreaksHeld why dev.new.link.state program.now commands.now
        (scene_of session.old (file_device N.memory dev.old) steps.old) (K.written out.old)
        (scene_of session.new (file_device N.memory dev.new) steps.new) (K.written out.new)) }
    ensures kept { OnOk result (dev.new.link.state ≡ Awake) }
    ensures write { IsErrOf result RunFault.Write → Rose (K.faults out.old) (K.faults out.new) }
    ensures count { K.faults out.old ≤ K.faults out.new }
{
    for given in commands {
        let Some(lines) = session.command(alloc, program, given, dev, steps) else {
            return Err(RunFault::NoMemory);
        };
        note_traps(traps, lines.as_slice(), session);
        if let Err(why) = put_kept(alloc, lines.as_slice(), out, dev) {
            return Err(why);
        }
    }
    Ok(())
}

/// Opens the compartments with these words, which are those of the file, mirrors them in the file,
/// and writes how each was recovered; then runs the commands, and writes the lines of each before
/// the next.
#[tactic(auto, using(crate::proofs::WorkersHolding::held_runs))]
pub fn run_held<K: Sink, N: Lines + Drop, F: LineFile + Drop, L: Ledger>(
    alloc: Global,
    program: &Program,
    count: u32,
    commands: &[WorkersCommand],
    words: &[i64],
    file: F,
    traps: &mut Traps,
    out: &mut K,
    dev: &mut FilePmem<N, F>,
    steps: &mut Steps<L>,
) -> Result<(), RunFault>
    requires first { 1 ≤ count }
    requires last { count ≤ 8 }
    requires holds { HoldsWords (F.content file)
        (sizes_of.pool_lines program.now.image.parts.sizes * count) words.now }
    ensures ran { HeldAs program.now count commands.now words.now result dev.new.link.state
        (K.written out.old) (K.written out.new) (file_device N.memory dev.old)
        (file_device N.memory dev.new) steps.old steps.new }
    ensures write { IsErrOf result RunFault.Write → Rose (K.faults out.old) (K.faults out.new) }
{
    let Ok(mut session) = idle_workers(alloc, count) else {
        return Err(RunFault::NoMemory);
    };
    match open_lines(crew_lines(program, count), words, dev) {
        Ok(()) => (),
        Err(StartFault::Failed) => return Err(RunFault::Device),
        Err(StartFault::NoMemory) => return Err(RunFault::NoMemory),
    }
    dev.know();
    dev.hold(file);
    dev.wake();
    let Some(lines) = session.resume(alloc, program, dev, steps) else {
        return Err(RunFault::NoMemory);
    };
    note_traps(traps, lines.as_slice(), &session);
    if let Err(why) = put_kept(alloc, lines.as_slice(), out, dev) {
        return Err(why);
    }
    answer_held(
        alloc,
        program,
        commands,
        &mut session,
        traps,
        out,
        dev,
        steps,
    )
}

/// Creates compartments on a device, one for each worker, and gives the words of all of them.
#[tactic(auto, using(crate::proofs::WorkersHolding::created_lines))]
pub fn create_held<P: Pmem>(
    alloc: Global,
    program: &Program,
    count: u32,
    dev: &mut P,
) -> Result<(WorkersSession, Words), MakeFault>
    requires first { 1 ≤ count }
    requires last { count ≤ 8 }
    ensures creates { CreatesAll program.now count result (P.device dev.old) (P.device dev.new) }
    ensures sound { IfOk result (λ made. IsReadyFor program.now.image made.0 (P.device dev.new)) }
    ensures lines { OnOk result ((P.device dev.new).lines
        ≡ sizes_of.pool_lines program.now.image.parts.sizes * count) }
{
    let session = match create_workers(alloc, program, count, dev) {
        Ok(session) => session,
        Err(fault) => return Err(fault),
    };
    match words_on(alloc, crew_lines(program, count), dev) {
        Ok(words) => Ok((session, words)),
        Err(_) => Err(MakeFault::NoMemory),
    }
}

/// Mirrors new compartments in the file that was made of their words, and writes that they were
/// created; then runs the commands, and writes the lines of each before the next.
pub fn run_new<K: Sink, N: Lines + Drop, F: LineFile + Drop, L: Ledger>(
    alloc: Global,
    program: &Program,
    commands: &[WorkersCommand],
    mut session: WorkersSession,
    file: F,
    traps: &mut Traps,
    out: &mut K,
    dev: &mut FilePmem<N, F>,
    steps: &mut Steps<L>,
) -> Result<(), RunFault>
    requires sound { IsReadyFor program.now.image session (file_device N.memory dev.old) }
    requires holds { HoldsWords (F.content file) (file_device N.memory dev.old).lines
        (words_from (view (file_device N.memory dev.old).cache) 0
        (8 * (file_device N.memory dev.old).lines)) }
    ensures ran { MadeAs program.now commands.now
        (scene_of session (file_device N.memory dev.old) steps.old) result dev.new.link.state
        (K.written out.old) (K.written out.new) (file_device N.memory dev.new) steps.new }
    ensures write { IsErrOf result RunFault.Write → Rose (K.faults out.old) (K.faults out.new) }
{
    dev.know();
    dev.hold(file);
    dev.wake();
    if let Err(_) = write_whole(out, CREATED.as_bytes()) {
        return Err(RunFault::Write);
    }
    answer_held(
        alloc,
        program,
        commands,
        &mut session,
        traps,
        out,
        dev,
        steps,
    )
}
