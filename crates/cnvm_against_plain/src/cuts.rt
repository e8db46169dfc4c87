//! A call that is cut after each number of its events, and recovered.

use crate::case::{Case, phase_at, seal_seen, seal_told};
use crate::picks::rest_choice;
use crate::rig::Rig;
use crate::tally::{Place, Tally};
use crate::texts::answer_line;
use cache_model::{Choice, Rest};
use cnvm_script::Command;
use cnvm_session::Answer;
use nvm_base::Steps;
use std::alloc::{AllocError, Global};
use std::sync::ledger::Ledger;

/// More events than any call of the scripts has.
pub(crate) const MOST_EVENTS: u64 = 100_000;

/// A number of events that is never reached.
const NEVER: u64 = 4_294_967_295;

/// What a cut leaves of each line: the oldest version, the newest, versions in turn, or versions in
/// turn with the recovery cut as well.
#[derive(Clone, Copy, Debug, PartialEq, Eq)]
pub(crate) enum Keeps {
    Old,
    New,
    Turning,
    Twice,
}

impl Keeps {
    pub(crate) fn name(self) -> &'static str {
        match self {
            Keeps::Old => "old",
            Keeps::New => "new",
            Keeps::Turning => "turning",
            Keeps::Twice => "twice",
        }
    }
}

/// Cuts the call after each number of its events.
pub(crate) fn cut_all<L: Ledger>(
    alloc: Global,
    case: Case,
    tally: &mut Tally,
    steps: &mut Steps<L>,
) -> Result<(), AllocError> {
    for at in 0..MOST_EVENTS {
        if !cut_at(alloc, case, at, tally, steps)? {
            return Ok(());
        }
        tally.cut();
    }
    Ok(())
}

/// Cuts the call after `at` events, in each way. The answer says whether it has more events.
fn cut_at<L: Ledger>(
    alloc: Global,
    case: Case,
    at: u64,
    tally: &mut Tally,
    steps: &mut Steps<L>,
) -> Result<bool, AllocError> {
    for keeps in [Keeps::Old, Keeps::New, Keeps::Turning, Keeps::Twice] {
        if !cut(alloc, case, at, keeps, tally, steps)? {
            return Ok(false);
        }
    }
    Ok(true)
}

/// Makes one cut, and compares everything after it. The answer says whether the call has more
/// events than these.
fn cut<L: Ledger>(
    alloc: Global,
    case: Case,
    at: u64,
    keeps: Keeps,
    tally: &mut Tally,
    steps: &mut Steps<L>,
) -> Result<bool, AllocError> {
    let place = Place {
        call: case.place,
        at,
        left: keeps.name(),
        what: "opening",
    };
    let Some(mut rig) = opened(alloc, case, place, tally, steps)? else {
        return Ok(false);
    };
    cut_on(alloc, case, keeps, place, &mut rig, tally, steps)
}

/// The same, on the pool as it was before the call.
fn cut_on<L: Ledger>(
    alloc: Global,
    case: Case,
    keeps: Keeps,
    place: Place,
    rig: &mut Rig,
    tally: &mut Tally,
    steps: &mut Steps<L>,
) -> Result<bool, AllocError> {
    let place = Place {
        what: "call",
        ..place
    };
    if !is_cut(alloc, case, place, rig, tally, steps)? {
        return Ok(false);
    }
    leave(alloc, case, place.at, keeps, rig, steps)?;
    settle(alloc, case, place, rig, tally, steps)?;
    Ok(true)
}

/// Makes the call, whose power is to be cut, and compares its answer. The answer says whether the
/// cut came.
fn is_cut<L: Ledger>(
    alloc: Global,
    case: Case,
    place: Place,
    rig: &mut Rig,
    tally: &mut Tally,
    steps: &mut Steps<L>,
) -> Result<bool, AllocError> {
    rig.command(alloc, case.program, &Command::Stop(place.at), steps);
    let answer = rig.command(alloc, case.program, case.call, steps);
    let seen = answer_line(alloc, &answer)?;
    if !matches!(&answer, Answer::Stopped(_)) {
        let wanted = case.wanted.answers.call.as_str();
        tally.compare(alloc, place, wanted, seen.as_str())?;
        return Ok(false);
    }
    let stopped = Answer::Stopped(phase_at(place.at, case.arguments));
    let wanted = answer_line(alloc, &stopped)?;
    tally.compare(alloc, place, wanted.as_str(), seen.as_str())?;
    Ok(true)
}

/// Opens the pool as it was before the call.
pub(crate) fn opened<L: Ledger>(
    alloc: Global,
    case: Case,
    place: Place,
    tally: &mut Tally,
    steps: &mut Steps<L>,
) -> Result<Option<Rig>, AllocError> {
    match Rig::open(alloc, case.program, case.words, steps) {
        Some((rig, answer)) => {
            let seen = answer_line(alloc, &answer)?;
            tally.compare(alloc, place, "recovered none\n", seen.as_str())?;
            Ok(Some(rig))
        }
        None => {
            tally.compare(alloc, place, "recovered none\n", "no pool\n")?;
            Ok(None)
        }
    }
}

/// Gives power, with the versions that are to be kept. Nothing is recovered, except in a recovery
/// that is itself cut.
fn leave<L: Ledger>(
    alloc: Global,
    case: Case,
    at: u64,
    keeps: Keeps,
    rig: &mut Rig,
    steps: &mut Steps<L>,
) -> Result<(), AllocError> {
    if keeps == Keeps::Twice {
        cut_recovery(alloc, case, at, rig, steps)?;
    }
    let choice = choice_of(alloc, at, keeps, rig)?;
    rig.power(&choice);
    Ok(())
}

fn choice_of(alloc: Global, at: u64, keeps: Keeps, rig: &Rig) -> Result<Choice, AllocError> {
    match keeps {
        Keeps::Old => Ok(rest_choice(alloc, Rest::Old)),
        Keeps::New => Ok(rest_choice(alloc, Rest::New)),
        Keeps::Turning | Keeps::Twice => rig.turning_choice(alloc, at),
    }
}

/// Gives power, and cuts the recovery after some of its events, if it has that many.
fn cut_recovery<L: Ledger>(
    alloc: Global,
    case: Case,
    at: u64,
    rig: &mut Rig,
    steps: &mut Steps<L>,
) -> Result<(), AllocError> {
    let choice = rig.turning_choice(alloc, at.saturating_add(1))?;
    rig.power(&choice);
    rig.command(alloc, case.program, &Command::Stop(at % 29), steps);
    rig.recover(alloc, case.program, steps);
    rig.command(alloc, case.program, &Command::Stop(NEVER), steps);
    Ok(())
}

/// Recovers what the power cut left, and compares.
fn settle<L: Ledger>(
    alloc: Global,
    case: Case,
    place: Place,
    rig: &mut Rig,
    tally: &mut Tally,
    steps: &mut Steps<L>,
) -> Result<(), AllocError> {
    let left = rig.left();
    let is_in = case.wanted.is_in(left);
    let phase = phase_at(place.at, case.arguments);
    let seal = Place {
        what: "seal",
        ..place
    };
    tally.compare(alloc, seal, seal_told(phase, is_in), seal_seen(is_in))?;
    let recovery = Place {
        what: "recovery",
        ..place
    };
    let answer = rig.recover(alloc, case.program, steps);
    let seen = answer_line(alloc, &answer)?;
    tally.compare(alloc, recovery, case.wanted.recovery(left), seen.as_str())?;
    let wanted = (case.wanted.shown(left), case.wanted.last(left));
    compare_pool(alloc, case, place, wanted, rig, tally, steps)
}

/// Compares what `show` and `last` answer.
pub(crate) fn compare_pool<L: Ledger>(
    alloc: Global,
    case: Case,
    place: Place,
    wanted: (&str, &str),
    rig: &mut Rig,
    tally: &mut Tally,
    steps: &mut Steps<L>,
) -> Result<(), AllocError> {
    let (shown, last) = wanted;
    let show_place = Place {
        what: "show",
        ..place
    };
    compare_answer(
        alloc,
        case,
        show_place,
        &Command::Show,
        shown,
        rig,
        tally,
        steps,
    )?;
    let last_place = Place {
        what: "last",
        ..place
    };
    compare_answer(
        alloc,
        case,
        last_place,
        &Command::Last,
        last,
        rig,
        tally,
        steps,
    )
}

/// Compares the answer of a command.
fn compare_answer<L: Ledger>(
    alloc: Global,
    case: Case,
    place: Place,
    command: &Command,
    wanted: &str,
    rig: &mut Rig,
    tally: &mut Tally,
    steps: &mut Steps<L>,
) -> Result<(), AllocError> {
    let answer = rig.command(alloc, case.program, command, steps);
    let seen = answer_line(alloc, &answer)?;
    tally.compare(alloc, place, wanted, seen.as_str())
}
