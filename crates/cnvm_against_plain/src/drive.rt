//! Makes a script's calls on a program's pool, one after another.

use crate::case::{Before, Case, logged_of, wanted_of};
use crate::cuts::{compare_pool, cut_all};
use crate::rig::Rig;
use crate::tally::{Place, Tally};
use crate::texts::{answer_line, pool_lines_of};
use cnvm_compile::{Asked, compile};
use cnvm_script::{Command, read_script};
use cnvm_session::{Answer, Program, is_unsigned, rolls_back};
use interpreter::{PlainAnswer, plain_call};
use nvm_base::{Steps, Words};
use pool_map::Pool;
use std::alloc::{AllocError, Global};
use std::sync::ledger::Ledger;

/// The slots of each pool.
pub(crate) const SLOTS: u64 = 16;

/// The ticks of a call.
pub(crate) const TICKS: u64 = 3000;

/// What each program is compiled for.
pub(crate) const ASKED: Asked = Asked {
    slots: SLOTS,
    records: 72,
    ticks: TICKS,
};

/// Compares what a program and a script do. If one of them is refused, that is a difference.
pub(crate) fn drive<L: Ledger>(
    alloc: Global,
    text: &[u8],
    script: &[u8],
    steps: &mut Steps<L>,
) -> Result<Tally, AllocError> {
    let mut tally = Tally::new(alloc);
    let Ok(compiled) = compile(alloc, text, ASKED) else {
        refused(alloc, "program", &mut tally)?;
        return Ok(tally);
    };
    let Ok(commands) = read_script(alloc, script) else {
        refused(alloc, "script", &mut tally)?;
        return Ok(tally);
    };
    take_all(
        alloc,
        &compiled.program,
        commands.as_slice(),
        &mut tally,
        steps,
    )?;
    Ok(tally)
}

/// Takes all commands of a script, on a new pool.
fn take_all<L: Ledger>(
    alloc: Global,
    program: &Program,
    script: &[Command],
    tally: &mut Tally,
    steps: &mut Steps<L>,
) -> Result<(), AllocError> {
    let mut pool = Pool::empty(alloc, program.image.sizes().root_words(), SLOTS)?;
    let mut before = new_pool(alloc, program, &pool)?;
    for command in script {
        step(
            alloc,
            program,
            command,
            &mut pool,
            &mut before,
            tally,
            steps,
        )?;
    }
    Ok(())
}

/// A new pool, whose content is this one.
fn new_pool(alloc: Global, program: &Program, pool: &Pool) -> Result<Before, AllocError> {
    let Some(rig) = Rig::create(alloc, program) else {
        return Err(AllocError);
    };
    let words = rig.words(alloc)?;
    let shown = pool_lines_of(alloc, program.typed.shapes(), pool)?;
    Ok(Before {
        words,
        shown,
        done: 0,
        value: 0,
    })
}

pub(crate) fn refused(
    alloc: Global,
    what: &'static str,
    tally: &mut Tally,
) -> Result<(), AllocError> {
    let place = Place {
        call: 0,
        at: 0,
        left: "uncut",
        what,
    };
    tally.compare(alloc, place, "accepted\n", "refused\n")
}

/// Takes one command of the script. Only a call does something. A transaction that rolls back and
/// traps is done as well: the calls after it go on with the words that it leaves.
fn step<L: Ledger>(
    alloc: Global,
    program: &Program,
    command: &Command,
    pool: &mut Pool,
    before: &mut Before,
    tally: &mut Tally,
    steps: &mut Steps<L>,
) -> Result<(), AllocError> {
    let Command::Call { name, args } = command else {
        return Ok(());
    };
    let Some(tx) = program.typed.tx_number(name.as_str()) else {
        return refused(alloc, "transaction", tally);
    };
    let plain = plain_call(alloc, &program.typed, pool, tx, args.as_slice(), TICKS);
    let marked = rolls_back(program, tx);
    let words = compared(
        alloc, program, command, before, &plain, marked, tally, steps,
    )?;
    go_on(alloc, program, plain, marked, words, pool, before, tally)
}

/// The pool before the next call, by how this one ended and what it left.
fn go_on(
    alloc: Global,
    program: &Program,
    plain: PlainAnswer,
    marked: bool,
    words: Words,
    pool: &mut Pool,
    before: &mut Before,
    tally: &mut Tally,
) -> Result<(), AllocError> {
    match plain {
        PlainAnswer::Done(after, value) => {
            *before = Before {
                words,
                shown: pool_lines_of(alloc, program.typed.shapes(), &after)?,
                done: before.done.saturating_add(1),
                value,
            };
            *pool = after;
        }
        PlainAnswer::Trap(_) if marked => {
            before.words = words;
            before.done = before.done.saturating_add(1);
            tally.trap();
        }
        PlainAnswer::Trap(_) | PlainAnswer::NoMemory => tally.trap(),
    }
    Ok(())
}

/// The number of arguments of a call.
fn arguments_of(call: &Command) -> u64 {
    match call {
        Command::Call { args, .. } => args.as_slice().len() as u64,
        _ => 0,
    }
}

/// Whether the transaction of a call returns `uint64_t`.
fn returns_unsigned(program: &Program, call: &Command) -> bool {
    let Command::Call { name, .. } = call else {
        return false;
    };
    match program.typed.tx_number(name.as_str()) {
        None => false,
        Some(tx) => is_unsigned(program, tx),
    }
}

/// Compares one call, uncut and cut, and gives the words of the pool after it.
fn compared<L: Ledger>(
    alloc: Global,
    program: &Program,
    call: &Command,
    before: &Before,
    plain: &PlainAnswer,
    marked: bool,
    tally: &mut Tally,
    steps: &mut Steps<L>,
) -> Result<Words, AllocError> {
    let Some((mut rig, _)) = Rig::open(alloc, program, before.words.as_slice(), steps) else {
        return Err(AllocError);
    };
    compare_call(
        alloc, program, call, before, plain, marked, &mut rig, tally, steps,
    )?;
    rig.words(alloc)
}

/// The same, and leaves the pool after the call.
fn compare_call<L: Ledger>(
    alloc: Global,
    program: &Program,
    call: &Command,
    before: &Before,
    plain: &PlainAnswer,
    marked: bool,
    rig: &mut Rig,
    tally: &mut Tally,
    steps: &mut Steps<L>,
) -> Result<(), AllocError> {
    let answer = rig.command(alloc, program, call, steps);
    let unsigned = returns_unsigned(program, call);
    let logged = logged_of(&answer);
    let wanted = wanted_of(alloc, program, before, plain, marked, unsigned, logged)?;
    let case = Case {
        program,
        words: before.words.as_slice(),
        call,
        arguments: arguments_of(call),
        place: tally.begin(),
        wanted: &wanted,
    };
    uncut(alloc, case, &answer, rig, tally, steps)?;
    cut_all(alloc, case, tally, steps)
}

/// Makes the call without a cut.
fn uncut<L: Ledger>(
    alloc: Global,
    case: Case,
    answer: &Answer,
    rig: &mut Rig,
    tally: &mut Tally,
    steps: &mut Steps<L>,
) -> Result<(), AllocError> {
    let place = Place {
        call: case.place,
        at: 0,
        left: "uncut",
        what: "call",
    };
    let wanted = case.wanted;
    let seen = answer_line(alloc, answer)?;
    tally.compare(alloc, place, wanted.answers.call.as_str(), seen.as_str())?;
    let pool = (wanted.after.pool.as_str(), wanted.after.last.as_str());
    compare_pool(alloc, case, place, pool, rig, tally, steps)
}
