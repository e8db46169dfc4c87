//! How an answer of `pool_workers` leaves the workers, and its line.

ghost use Rattle.std.specs.Prelude.{◌≡◌};
ghost use Rattle.workers_session.specs.WorkersCommands.{is_interrupted, ends_power, keeps_down};
ghost use Rattle.workers_session.specs.inside.Turning.{begin_line, begin_runs_out};

use crate::line::WorkersLine;
use cnvm_session::Answer;
use pool_workers::{BeginAnswer, TurnAnswer};
use recovery::RecoverAnswer;

/// The line after a begin.
pub(crate) fn begin_line(answer: BeginAnswer, worker: u32) -> WorkersLine
    ensures { result ≡ begin_line answer worker }
{
    match answer {
        BeginAnswer::Started => WorkersLine::Started(worker),
        BeginAnswer::Busy => WorkersLine::RefusedBusy(worker),
        BeginAnswer::Unusable(kind) => WorkersLine::Plain(Answer::RefusedUnusable(kind)),
        BeginAnswer::Numbers => WorkersLine::Plain(Answer::RefusedNumbers),
        // This never happens: the device is on unless all workers are down.
        BeginAnswer::Off => WorkersLine::Plain(Answer::RefusedDown),
        BeginAnswer::NoMemory => WorkersLine::Plain(Answer::NoMemory),
    }
}

/// Whether a begin found no memory.
pub(crate) fn begin_runs_out(answer: BeginAnswer) -> bool
    ensures { result ≡ begin_runs_out answer }
{
    match answer {
        BeginAnswer::NoMemory => true,
        BeginAnswer::Started
        | BeginAnswer::Busy
        | BeginAnswer::Unusable(_)
        | BeginAnswer::Numbers
        | BeginAnswer::Off => false,
    }
}

/// Whether a turn was interrupted.
pub(crate) fn is_interrupted(answer: TurnAnswer) -> bool
    ensures { result ≡ is_interrupted answer }
{
    match answer {
        TurnAnswer::Off | TurnAnswer::Failed | TurnAnswer::NoMemory => true,
        TurnAnswer::Idle
        | TurnAnswer::Went
        | TurnAnswer::Done { .. }
        | TurnAnswer::Trap(_)
        | TurnAnswer::Aborted(_) => false,
    }
}

/// Whether no compartment after this one is recovered.
pub(crate) fn ends_power(answer: RecoverAnswer) -> bool
    ensures { result ≡ ends_power answer }
{
    match answer {
        RecoverAnswer::Off(_) | RecoverAnswer::Failed | RecoverAnswer::NoMemory => true,
        RecoverAnswer::Clean
        | RecoverAnswer::Redone { .. }
        | RecoverAnswer::Trap(_)
        | RecoverAnswer::Aborted(_)
        | RecoverAnswer::Unusable(_)
        | RecoverAnswer::Numbers => false,
    }
}

/// Whether the workers stay down after this recovery.
pub(crate) fn keeps_down(answer: RecoverAnswer) -> bool
    ensures { result ≡ keeps_down answer }
{
    match answer {
        RecoverAnswer::Clean
        | RecoverAnswer::Redone { .. }
        | RecoverAnswer::Trap(_)
        | RecoverAnswer::Aborted(_)
        | RecoverAnswer::Unusable(_) => false,
        RecoverAnswer::Numbers
        | RecoverAnswer::Off(_)
        | RecoverAnswer::Failed
        | RecoverAnswer::NoMemory => true,
    }
}
