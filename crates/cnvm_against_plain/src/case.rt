//! One call, and what it must do.

use crate::rig::Left;
use crate::texts::{answer_line, last_line, pool_lines_of, text_of};
use cnvm_script::Command;
use cnvm_session::{Answer, Program};
use interpreter::PlainAnswer;
use nvm_base::Text;
use pmem::Phase;
use pool_map::TrapKind;
use std::alloc::{AllocError, Global};

/// The pool before a call: its words and its lines, and what `last` answers.
#[derive(Drop)]
pub(crate) struct Before {
    pub(crate) words: nvm_base::Words,
    pub(crate) shown: Text,
    pub(crate) done: i64,
    pub(crate) value: i64,
}

/// What `show` and `last` answer of a pool.
#[derive(Drop)]
pub(crate) struct Shown {
    pub(crate) pool: Text,
    pub(crate) last: Text,
}

/// What a call answers, what a recovery that runs it again, and what one that finds its mark, which
/// is empty where there is none.
#[derive(Drop)]
pub(crate) struct Answers {
    pub(crate) call: Text,
    redone: Text,
    marked: Text,
}

/// What a call must answer and leave, as the interpreter says.
#[derive(Drop)]
pub(crate) struct Wanted {
    /// The call's number, one more than the number of transactions before it.
    number: i64,
    pub(crate) answers: Answers,
    /// The pool after the call, and the one without it.
    pub(crate) after: Shown,
    before: Shown,
}

/// One call.
#[derive(Clone, Copy)]
pub(crate) struct Case<'a> {
    pub(crate) program: &'a Program,
    pub(crate) words: &'a [i64],
    pub(crate) call: &'a Command,
    pub(crate) arguments: u64,
    /// Its place in the script, counted from 1.
    pub(crate) place: u64,
    pub(crate) wanted: &'a Wanted,
}

/// How many log records the answer shows.
pub(crate) fn logged_of(answer: &Answer) -> u64 {
    match answer {
        Answer::Done { logged, .. } => *logged,
        _ => 0,
    }
}

impl Before {
    /// The number of the next call.
    fn number(&self) -> i64 {
        self.done.saturating_add(1)
    }

    /// What `show` and `last` answer of it, if this many transactions are done.
    fn shown(&self, alloc: Global, done: i64) -> Result<Shown, AllocError> {
        let pool = text_of(alloc, self.shown.as_str())?;
        let last = last_line(alloc, done, self.value)?;
        Ok(Shown { pool, last })
    }
}

/// What is wanted of a call that writes `logged` records, and of one whose transaction rolls back,
/// or returns `uint64_t`.
pub(crate) fn wanted_of(
    alloc: Global,
    program: &Program,
    before: &Before,
    plain: &PlainAnswer,
    rolls_back: bool,
    unsigned: bool,
    logged: u64,
) -> Result<Wanted, AllocError> {
    match plain {
        PlainAnswer::Done(pool, value) => {
            let shown = pool_lines_of(alloc, program.typed.shapes(), pool)?;
            ended(alloc, before, shown, *value, unsigned, logged)
        }
        PlainAnswer::Trap(kind) if rolls_back => undone(alloc, before, *kind),
        PlainAnswer::Trap(kind) => trapped(alloc, before, *kind),
        PlainAnswer::NoMemory => Err(AllocError),
    }
}

/// What is wanted with these answers, and this pool after the call.
fn wanted_with(
    alloc: Global,
    before: &Before,
    answers: Answers,
    after: Shown,
) -> Result<Wanted, AllocError> {
    Ok(Wanted {
        number: before.number(),
        answers,
        after,
        before: before.shown(alloc, before.done)?,
    })
}

/// The answers of a call that leaves no mark.
fn answers_of(alloc: Global, call: &Answer, redone: &Answer) -> Result<Answers, AllocError> {
    let call = answer_line(alloc, call)?;
    let redone = answer_line(alloc, redone)?;
    let marked = Text::new(alloc);
    Ok(Answers {
        call,
        redone,
        marked,
    })
}

/// A call that ends with a value.
fn ended(
    alloc: Global,
    before: &Before,
    pool: Text,
    value: i64,
    unsigned: bool,
    logged: u64,
) -> Result<Wanted, AllocError> {
    let last = last_line(alloc, before.number(), value)?;
    let after = Shown { pool, last };
    let done = Answer::Done {
        value,
        unsigned,
        logged,
    };
    let redone = Answer::RecoveredRedone {
        value,
        unsigned,
        logged,
    };
    let answers = answers_of(alloc, &done, &redone)?;
    wanted_with(alloc, before, answers, after)
}

/// A call that traps.
fn trapped(alloc: Global, before: &Before, kind: TrapKind) -> Result<Wanted, AllocError> {
    let mut answers = answers_of(alloc, &Answer::Trap(kind), &Answer::RecoveredTrap(kind))?;
    answers.marked = unusable(alloc, kind)?;
    let after = unusable_pool(alloc, kind)?;
    wanted_with(alloc, before, answers, after)
}

/// The answer of each command on a pool that is marked.
fn unusable(alloc: Global, kind: TrapKind) -> Result<Text, AllocError> {
    answer_line(alloc, &Answer::RefusedUnusable(kind))
}

fn unusable_pool(alloc: Global, kind: TrapKind) -> Result<Shown, AllocError> {
    let pool = unusable(alloc, kind)?;
    let last = unusable(alloc, kind)?;
    Ok(Shown { pool, last })
}

/// A call that traps and is rolled back: the pool and the last value are those from before it.
fn undone(alloc: Global, before: &Before, kind: TrapKind) -> Result<Wanted, AllocError> {
    let answers = answers_of(
        alloc,
        &Answer::Aborted(kind),
        &Answer::RecoveredAborted(kind),
    )?;
    let after = before.shown(alloc, before.number())?;
    wanted_with(alloc, before, answers, after)
}

/// The phase of a call that is cut after `at` events: the arguments and the function are stored,
/// their lines are flushed and fenced, and then the seal is stored, flushed and fenced.
pub(crate) fn phase_at(at: u64, arguments: u64) -> Phase {
    let lines = if arguments <= 7 {
        1
    } else if arguments <= 15 {
        2
    } else {
        3
    };
    let stored = arguments.saturating_add(lines).saturating_add(3);
    if at < stored {
        Phase::Unsealed
    } else if at < stored.saturating_add(2) {
        Phase::Sealing
    } else {
        Phase::Sealed
    }
}

impl Wanted {
    /// Whether the call is in the pool that the power cut left.
    pub(crate) fn is_in(&self, left: Left) -> bool {
        left.seal == self.number
    }

    /// What the recovery of what the power cut left must answer.
    pub(crate) fn recovery(&self, left: Left) -> &str {
        if left.mark != 0 {
            self.answers.marked.as_str()
        } else if left.seal == left.done.saturating_add(1) {
            self.answers.redone.as_str()
        } else {
            "recovered none\n"
        }
    }

    /// What `show` must then answer.
    pub(crate) fn shown(&self, left: Left) -> &str {
        if self.is_in(left) {
            self.after.pool.as_str()
        } else {
            self.before.pool.as_str()
        }
    }

    /// What `last` must then answer.
    pub(crate) fn last(&self, left: Left) -> &str {
        if self.is_in(left) {
            self.after.last.as_str()
        } else {
            self.before.last.as_str()
        }
    }
}

/// The text that says whether the seal must be there, by the phase of the cut; in phase sealing it
/// may be there or not.
pub(crate) fn seal_told(phase: Phase, is_in: bool) -> &'static str {
    match phase {
        Phase::Unsealed => "no seal\n",
        Phase::Sealed => "the seal\n",
        Phase::Sealing => seal_seen(is_in),
    }
}

/// The text that says whether the call's seal is in what the power cut left.
pub(crate) fn seal_seen(is_in: bool) -> &'static str {
    if is_in { "the seal\n" } else { "no seal\n" }
}
