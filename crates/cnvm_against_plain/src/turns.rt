//! The calls of several workers in turns: uncut, and cut after each number of their events.

ghost use Rattle.std.specs.Prelude.{◌≡◌, ◌≤◌, ◌<◌};
ghost use Rattle.workers_session.specs.WorkersState.{IsReadyFor};

use crate::case::{Wanted, seal_seen, seal_told};
use crate::course::wanted_at;
use crate::crew::{
    WORKERS, begun, first_text, give, is_stopped, left_of, own_logged, own_phase, own_text, power,
};
use crate::cuts::{Keeps, MOST_EVENTS};
use crate::drive::{ASKED, refused};
use crate::picks::{Turning, rest_choice};
use crate::rig::Left;
use crate::tally::{Place, Tally};
use cache_model::{Choice, Rest};
use cnvm_compile::compile;
use cnvm_session::Program;
use nvm_base::{List, Steps};
use pmem::{Pmem, SimPmem};
use std::alloc::{AllocError, Global};
use std::sync::ledger::Ledger;
use workers_script::{WorkerList, WorkersCommand, read_workers};
use workers_session::{WorkersLine, WorkersLines, WorkersSession};

/// The orders of turns that are drawn.
const ORDERS: u64 = 4;

/// More turns than all calls of an order take.
const TURNS: u64 = 1200;

/// The last calls of all workers, in one order of their turns.
#[derive(Clone, Copy)]
struct Crew<'a> {
    /// The commands up to the begin of each worker's last call.
    script: &'a [WorkersCommand],
    /// The turns.
    turns: &'a WorkersCommand,
    /// What each call must answer and leave.
    wanted: &'a [Wanted],
    /// The number of the first call, counted from 1.
    first: u64,
}

/// Compares what a program and a script of workers do. If one of them is refused, that is a
/// difference.
pub(crate) fn drive_workers<L: Ledger>(
    alloc: Global,
    text: &[u8],
    script: &[u8],
    steps: &mut Steps<L>,
) -> Result<Tally, AllocError> {
    let mut tally = Tally::new(alloc);
    let Ok(compiled) = compile(alloc, text, ASKED) else {
        refused(alloc, "program", &mut tally)?;
        return Ok(tally);
    };
    let Ok(commands) = read_workers(alloc, script) else {
        refused(alloc, "script", &mut tally)?;
        return Ok(tally);
    };
    for order in 0..ORDERS {
        let turns = drawn(alloc, order)?;
        compared(
            alloc,
            &compiled.program,
            commands.as_slice(),
            &turns,
            &mut tally,
            steps,
        )?;
    }
    Ok(tally)
}

/// Turns in an order that is drawn from this seed.
fn drawn(alloc: Global, seed: u64) -> Result<WorkersCommand, AllocError> {
    let mut workers = WorkerList::new(alloc);
    let mut state = seed;
    for _ in 0..TURNS {
        state = state
            .wrapping_mul(6_364_136_223_846_793_005)
            .wrapping_add(1_442_695_040_888_963_407);
        let worker = (state / 8_589_934_592) % u64::from(WORKERS);
        workers.push(worker as u32)?;
    }
    Ok(WorkersCommand::Turn(workers))
}

/// Compares the calls in one order, uncut and cut.
fn compared<L: Ledger>(
    alloc: Global,
    program: &Program,
    script: &[WorkersCommand],
    turns: &WorkersCommand,
    tally: &mut Tally,
    steps: &mut Steps<L>,
) -> Result<(), AllocError> {
    let mut dev = SimPmem::new(alloc);
    let mut session = begun(alloc, program, script, &mut dev, steps)?;
    compared_on(
        alloc,
        program,
        script,
        turns,
        &mut session,
        &mut dev,
        tally,
        steps,
    )
}

/// The same, from the begin of each worker's last call.
fn compared_on<P: Pmem + Drop, L: Ledger>(
    alloc: Global,
    program: &Program,
    script: &[WorkersCommand],
    turns: &WorkersCommand,
    session: &mut WorkersSession,
    dev: &mut P,
    tally: &mut Tally,
    steps: &mut Steps<L>,
) -> Result<(), AllocError>
    requires sound { IsReadyFor program.now.image session.old (P.device dev.old) }
{
    let lines = give(alloc, program, turns, session, dev, steps)?;
    let lines = lines.as_slice();
    let wanted = all_wanted(alloc, program, script, lines)?;
    let crew = Crew {
        script,
        turns,
        wanted: wanted.as_slice(),
        first: begin_all(tally),
    };
    uncut(alloc, program, crew, lines, session, dev, tally, steps)?;
    cut_all(alloc, program, crew, tally, steps)
}

/// What is wanted of each worker's last call, by the number of records that its answer shows.
fn all_wanted(
    alloc: Global,
    program: &Program,
    script: &[WorkersCommand],
    lines: &[WorkersLine],
) -> Result<List<Wanted>, AllocError> {
    let mut all = List::new(alloc);
    for worker in 0..WORKERS {
        let logged = own_logged(lines, worker);
        all.push(wanted_at(alloc, program, script, worker, logged)?)?;
    }
    Ok(all)
}

/// Counts a call of each worker, and gives the number of the first.
fn begin_all(tally: &mut Tally) -> u64 {
    let first = tally.begin();
    for _ in 1..WORKERS {
        tally.begin();
    }
    first
}

/// Compares the answers without a cut, and the pools after them.
fn uncut<P: Pmem + Drop, L: Ledger>(
    alloc: Global,
    program: &Program,
    crew: Crew,
    lines: &[WorkersLine],
    session: &mut WorkersSession,
    dev: &mut P,
    tally: &mut Tally,
    steps: &mut Steps<L>,
) -> Result<(), AllocError>
    requires sound { IsReadyFor program.now.image session.old (P.device dev.old) }
{
    for worker in 0..WORKERS {
        let Some(wanted) = crew.wanted.get(worker as usize) else {
            return Err(AllocError);
        };
        let place = Place {
            call: crew.first.saturating_add(u64::from(worker)),
            at: 0,
            left: "uncut",
            what: "call",
        };
        let seen = own_text(alloc, lines, worker)?;
        tally.compare(alloc, place, wanted.answers.call.as_str(), seen.as_str())?;
        let pool = (wanted.after.pool.as_str(), wanted.after.last.as_str());
        compare_pool(
            alloc, program, place, worker, pool, session, dev, tally, steps,
        )?;
    }
    Ok(())
}

/// Compares what `show` and `last` answer for a worker.
fn compare_pool<P: Pmem + Drop, L: Ledger>(
    alloc: Global,
    program: &Program,
    place: Place,
    worker: u32,
    wanted: (&str, &str),
    session: &mut WorkersSession,
    dev: &mut P,
    tally: &mut Tally,
    steps: &mut Steps<L>,
) -> Result<(), AllocError>
    requires sound { IsReadyFor program.now.image session.old (P.device dev.old) }
    ensures sound { IsReadyFor program.now.image session.new (P.device dev.new) }
{
    let (shown, last) = wanted;
    let show_place = Place {
        what: "show",
        ..place
    };
    let show = WorkersCommand::Show(worker);
    compare_answer(
        alloc, program, show_place, &show, shown, session, dev, tally, steps,
    )?;
    let last_place = Place {
        what: "last",
        ..place
    };
    let command = WorkersCommand::Last(worker);
    compare_answer(
        alloc, program, last_place, &command, last, session, dev, tally, steps,
    )
}

/// Compares the first line of a command's answer.
fn compare_answer<P: Pmem + Drop, L: Ledger>(
    alloc: Global,
    program: &Program,
    place: Place,
    command: &WorkersCommand,
    wanted: &str,
    session: &mut WorkersSession,
    dev: &mut P,
    tally: &mut Tally,
    steps: &mut Steps<L>,
) -> Result<(), AllocError>
    requires sound { IsReadyFor program.now.image session.old (P.device dev.old) }
    ensures sound { IsReadyFor program.now.image session.new (P.device dev.new) }
{
    let lines = give(alloc, program, command, session, dev, steps)?;
    let seen = first_text(alloc, lines.as_slice())?;
    tally.compare(alloc, place, wanted, seen.as_str())
}

/// Cuts the calls after each number of their events.
fn cut_all<L: Ledger>(
    alloc: Global,
    program: &Program,
    crew: Crew,
    tally: &mut Tally,
    steps: &mut Steps<L>,
) -> Result<(), AllocError> {
    for at in 0..MOST_EVENTS {
        if !cut_at(alloc, program, crew, at, tally, steps)? {
            return Ok(());
        }
        tally.cut();
    }
    Ok(())
}

/// Cuts the calls after `at` events, in each way. The answer says whether they have more events.
fn cut_at<L: Ledger>(
    alloc: Global,
    program: &Program,
    crew: Crew,
    at: u64,
    tally: &mut Tally,
    steps: &mut Steps<L>,
) -> Result<bool, AllocError> {
    for keeps in [Keeps::Old, Keeps::New, Keeps::Turning] {
        if !cut(alloc, program, crew, at, keeps, tally, steps)? {
            return Ok(false);
        }
    }
    Ok(true)
}

/// Makes one cut, and compares everything after it. The answer says whether the calls have more
/// events than these.
fn cut<L: Ledger>(
    alloc: Global,
    program: &Program,
    crew: Crew,
    at: u64,
    keeps: Keeps,
    tally: &mut Tally,
    steps: &mut Steps<L>,
) -> Result<bool, AllocError> {
    let mut dev = SimPmem::new(alloc);
    let mut session = begun(alloc, program, crew.script, &mut dev, steps)?;
    cut_on(
        alloc,
        program,
        crew,
        at,
        keeps,
        &mut session,
        &mut dev,
        tally,
        steps,
    )
}

/// The same, from the begin of each worker's last call.
fn cut_on<P: Pmem + Turning + Drop, L: Ledger>(
    alloc: Global,
    program: &Program,
    crew: Crew,
    at: u64,
    keeps: Keeps,
    session: &mut WorkersSession,
    dev: &mut P,
    tally: &mut Tally,
    steps: &mut Steps<L>,
) -> Result<bool, AllocError>
    requires sound { IsReadyFor program.now.image session.old (P.device dev.old) }
{
    let lines = lines_of(alloc, program, crew, at, session, dev, steps)?;
    let lines = lines.as_slice();
    if !is_stopped(lines) {
        return Ok(false);
    }
    leave(alloc, program, at, keeps, session, dev)?;
    let place = Place {
        call: crew.first,
        at,
        left: keeps.name(),
        what: "seal",
    };
    settle(
        alloc, program, crew, place, lines, session, dev, tally, steps,
    )?;
    Ok(true)
}

/// What the turns answer if power is cut after `at` events.
fn lines_of<P: Pmem + Drop, L: Ledger>(
    alloc: Global,
    program: &Program,
    crew: Crew,
    at: u64,
    session: &mut WorkersSession,
    dev: &mut P,
    steps: &mut Steps<L>,
) -> Result<WorkersLines, AllocError>
    requires sound { IsReadyFor program.now.image session.old (P.device dev.old) }
    ensures sound { IsReadyFor program.now.image session.new (P.device dev.new) }
{
    let stop = WorkersCommand::Stop(at);
    give(alloc, program, &stop, session, dev, steps)?;
    give(alloc, program, crew.turns, session, dev, steps)
}

/// Gives power, with the versions that are to be kept.
fn leave<P: Pmem + Turning>(
    alloc: Global,
    program: &Program,
    at: u64,
    keeps: Keeps,
    session: &WorkersSession,
    dev: &mut P,
) -> Result<(), AllocError>
    requires sound { IsReadyFor program.now.image session.now (P.device dev.old) }
    ensures sound { IsReadyFor program.now.image session.now (P.device dev.new) }
{
    let choice = choice_of(alloc, at, keeps, dev)?;
    power(program, &choice, session, dev);
    Ok(())
}

fn choice_of<P: Turning>(
    alloc: Global,
    at: u64,
    keeps: Keeps,
    dev: &P,
) -> Result<Choice, AllocError> {
    match keeps {
        Keeps::Old => Ok(rest_choice(alloc, Rest::Old)),
        Keeps::New => Ok(rest_choice(alloc, Rest::New)),
        Keeps::Turning | Keeps::Twice => dev.turning_choice(alloc, at),
    }
}

/// What the power cut left of each compartment.
fn all_left<P: Pmem>(alloc: Global, program: &Program, dev: &P) -> Result<List<Left>, AllocError> {
    let mut all = List::new(alloc);
    for worker in 0..WORKERS {
        all.push(left_of(program, worker, dev))?;
    }
    Ok(all)
}

/// Recovers all compartments, and compares each.
fn settle<P: Pmem + Drop, L: Ledger>(
    alloc: Global,
    program: &Program,
    crew: Crew,
    place: Place,
    stopped: &[WorkersLine],
    session: &mut WorkersSession,
    dev: &mut P,
    tally: &mut Tally,
    steps: &mut Steps<L>,
) -> Result<(), AllocError>
    requires sound { IsReadyFor program.now.image session.old (P.device dev.old) }
{
    let all = all_left(alloc, program, dev)?;
    let again = WorkersCommand::Power(rest_choice(alloc, Rest::New));
    let recovered = give(alloc, program, &again, session, dev, steps)?;
    let seen = (stopped, recovered.as_slice());
    settle_all(
        alloc,
        program,
        crew,
        place,
        all.as_slice(),
        seen,
        session,
        dev,
        tally,
        steps,
    )
}

/// Compares each compartment, by what the power cut left of it and what was answered.
fn settle_all<P: Pmem + Drop, L: Ledger>(
    alloc: Global,
    program: &Program,
    crew: Crew,
    place: Place,
    all: &[Left],
    seen: (&[WorkersLine], &[WorkersLine]),
    session: &mut WorkersSession,
    dev: &mut P,
    tally: &mut Tally,
    steps: &mut Steps<L>,
) -> Result<(), AllocError>
    requires sound { IsReadyFor program.now.image session.old (P.device dev.old) }
{
    for worker in 0..WORKERS {
        let Some(left) = all.get(worker as usize) else {
            return Err(AllocError);
        };
        let Some(wanted) = crew.wanted.get(worker as usize) else {
            return Err(AllocError);
        };
        let place = Place {
            call: crew.first.saturating_add(u64::from(worker)),
            ..place
        };
        settle_one(
            alloc, program, wanted, place, worker, *left, seen, session, dev, tally, steps,
        )?;
    }
    Ok(())
}

/// Compares what became of a worker's call: the seal by the phase, the answer of the recovery, and
/// the pool by the seal.
fn settle_one<P: Pmem + Drop, L: Ledger>(
    alloc: Global,
    program: &Program,
    wanted: &Wanted,
    place: Place,
    worker: u32,
    left: Left,
    seen: (&[WorkersLine], &[WorkersLine]),
    session: &mut WorkersSession,
    dev: &mut P,
    tally: &mut Tally,
    steps: &mut Steps<L>,
) -> Result<(), AllocError>
    requires sound { IsReadyFor program.now.image session.old (P.device dev.old) }
    ensures sound { IsReadyFor program.now.image session.new (P.device dev.new) }
{
    let (stopped, recovered) = seen;
    let is_in = wanted.is_in(left);
    let phase = own_phase(stopped, worker);
    tally.compare(alloc, place, seal_told(phase, is_in), seal_seen(is_in))?;
    let recovery = Place {
        what: "recovery",
        ..place
    };
    let answer = own_text(alloc, recovered, worker)?;
    tally.compare(alloc, recovery, wanted.recovery(left), answer.as_str())?;
    let pool = (wanted.shown(left), wanted.last(left));
    compare_pool(
        alloc, program, place, worker, pool, session, dev, tally, steps,
    )
}
