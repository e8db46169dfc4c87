//! Several workers on one device.

ghost use Rattle.std.specs.Prelude.{◌≡◌, ◌≤◌, ◌<◌, ◌^◌, true, IfOk};
ghost use Rattle.workers_session.specs.WorkersState.{IsReadyFor};

use crate::picks;
use crate::rig::Left;
use crate::texts::{answer_line, text_of};
use cache_model::Choice;
use cnvm_session::{Answer, Program};
use nvm_base::{Steps, Text};
use pmem::{Phase, Pmem};
use pool_layout::{DONE, MARK, SEAL};
use pool_workers::first_line;
use std::alloc::{AllocError, Global};
use std::sync::ledger::Ledger;
use workers_script::WorkersCommand;
use workers_session::{WorkersLine, WorkersLines, WorkersSession, create_workers, line_text};

/// The number of workers.
pub(crate) const WORKERS: u32 = 3;

/// Gives a command, and takes its lines.
pub(crate) fn give<P: Pmem + Drop, L: Ledger>(
    alloc: Global,
    program: &Program,
    command: &WorkersCommand,
    session: &mut WorkersSession,
    dev: &mut P,
    steps: &mut Steps<L>,
) -> Result<WorkersLines, AllocError>
    requires sound { IsReadyFor program.now.image session.old (P.device dev.old) }
    ensures sound { IsReadyFor program.now.image session.new (P.device dev.new) }
{
    match session.command(alloc, program, command, dev, steps) {
        Some(lines) => Ok(lines),
        None => Err(AllocError),
    }
}

/// Gives all commands of a script.
fn give_all<P: Pmem + Drop, L: Ledger>(
    alloc: Global,
    program: &Program,
    script: &[WorkersCommand],
    session: &mut WorkersSession,
    dev: &mut P,
    steps: &mut Steps<L>,
) -> Result<(), AllocError>
    requires sound { IsReadyFor program.now.image session.old (P.device dev.old) }
    ensures sound { IsReadyFor program.now.image session.new (P.device dev.new) }
{
    for command in script {
        give(alloc, program, command, session, dev, steps)?;
    }
    Ok(())
}

/// Starts the workers on new pools, and gives all commands of a script.
pub(crate) fn begun<P: Pmem + Drop, L: Ledger>(
    alloc: Global,
    program: &Program,
    script: &[WorkersCommand],
    dev: &mut P,
    steps: &mut Steps<L>,
) -> Result<WorkersSession, AllocError>
    ensures sound { IfOk result (λ s. IsReadyFor program.now.image s (P.device dev.new)) }
{
    let Ok(mut session) = create_workers(alloc, program, WORKERS, dev) else {
        return Err(AllocError);
    };
    give_all(alloc, program, script, &mut session, dev, steps)?;
    Ok(session)
}

/// Gives power by a choice, and recovers nothing. The answer says whether the choice fits.
pub(crate) fn power<P: Pmem>(
    program: &Program,
    choice: &Choice,
    session: &WorkersSession,
    dev: &mut P,
) -> bool
    requires sound { IsReadyFor program.now.image session.now (P.device dev.old) }
    ensures sound { IsReadyFor program.now.image session.now (P.device dev.new) }
{
    picks::power(dev, choice)
}

/// A word of a worker's compartment; 0 if it doesn't exist, and while the device is off.
fn word_of<P: Pmem>(program: &Program, worker: u32, at: u64, dev: &P) -> i64
    requires worker { worker < 8 }
    requires small { at < 2 ^ 32 }
{
    let word = 8 * first_line(program.image.sizes(), worker) + at;
    if word / 8 >= dev.lines() {
        return 0;
    }
    match dev.load(word) {
        Some(value) => value,
        None => 0,
    }
}

/// What a power cut left of a worker's compartment.
pub(crate) fn left_of<P: Pmem>(program: &Program, worker: u32, dev: &P) -> Left
    requires { worker < 8 }
{
    Left {
        done: word_of(program, worker, DONE, dev),
        mark: word_of(program, worker, MARK, dev),
        seal: word_of(program, worker, SEAL, dev),
    }
}

/// The answer that names this worker.
fn own_answer(lines: &[WorkersLine], worker: u32) -> Option<&Answer> {
    for line in lines {
        if let WorkersLine::Own {
            worker: own,
            answer,
        } = line
        {
            if *own == worker {
                return Some(answer);
            }
        }
    }
    None
}

/// The text of the answer that names this worker.
pub(crate) fn own_text(
    alloc: Global,
    lines: &[WorkersLine],
    worker: u32,
) -> Result<Text, AllocError> {
    match own_answer(lines, worker) {
        Some(answer) => answer_line(alloc, answer),
        None => text_of(alloc, "no answer\n"),
    }
}

/// The text of the first line.
pub(crate) fn first_text(alloc: Global, lines: &[WorkersLine]) -> Result<Text, AllocError> {
    match lines.first() {
        Some(line) => line_text(alloc, line),
        None => text_of(alloc, "no line\n"),
    }
}

/// How many log records the answer that names this worker shows.
pub(crate) fn own_logged(lines: &[WorkersLine], worker: u32) -> u64 {
    match own_answer(lines, worker) {
        Some(Answer::Done { logged, .. }) => *logged,
        _ => 0,
    }
}

/// The phase of this worker's call in the answers after a cut: a worker without one had finished.
pub(crate) fn own_phase(lines: &[WorkersLine], worker: u32) -> Phase {
    match own_answer(lines, worker) {
        Some(Answer::Stopped(phase)) => *phase,
        _ => Phase::Sealed,
    }
}

/// Whether the power went.
pub(crate) fn is_stopped(lines: &[WorkersLine]) -> bool {
    for line in lines {
        if let WorkersLine::Own { answer, .. } = line {
            if matches!(answer, Answer::Stopped(_)) {
                return true;
            }
        }
    }
    false
}
