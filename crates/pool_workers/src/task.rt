//! An unfinished transaction.

ghost use Rattle.std.specs.Prelude.{◌≡◌, ◌<◌, ◌^◌, Some};
ghost use Rattle.pool_workers.specs.Task.{IsUncut, going, task_phase, task_tx};
ghost use Rattle.pool_workers.specs.inside.Task.{last_answer, last_task, is_last};

use crate::answer::TurnAnswer;
use crate::look::Look;
use nvm_base::Words;
use pm_machine::{End, Machine, Stop};
use pmem::{LogAnswer, Phase, Refusal};
use pool_map::TrapKind;

/// An unfinished transaction, by what its next turn plays.
#[derive(Drop)]
pub enum Task {
    /// The seal. The machine is at its start.
    Begun {
        tx: u64,
        args: Words,
        machine: Machine,
    },
    /// An instruction, in a pool with this attempt. At most `left` instructions are left.
    Running {
        tx: u64,
        machine: Machine,
        attempt: u64,
        left: u128,
    },
    /// The end of the run: it is retired, or the pool is marked.
    Ending {
        tx: u64,
        end: End,
        logged: u64,
    },
    /// Nothing: it only looks.
    Looking {
        tx: u64,
        look: Look,
    },
    /// Nothing: a turn was refused, in this phase of the seal.
    Cut {
        phase: Phase,
    },
}

/// A run that goes on. If no more instructions are allowed it ends as if it had no tick left.
pub(crate) fn going(tx: u64, machine: Machine, attempt: u64, left: u128) -> Task
    ensures going { result ≡ going tx machine attempt left }
    ensures uncut { IsUncut result }
{
    if left == 0 {
        return Task::Ending {
            tx,
            end: End::Trapped(TrapKind::Steps),
            logged: machine.logged(),
        };
    }
    Task::Running {
        tx,
        machine,
        attempt,
        left,
    }
}

/// What an instruction leaves of a run that stays in its place.
#[derive(Clone, Copy)]
pub(crate) enum Stepped {
    /// It goes on.
    On,
    /// It ended, or no more instructions are allowed.
    Over { end: End, logged: u64 },
    Refused(Refusal),
}

/// Cuts a transaction whose turn was refused.
pub(crate) fn cut(task: &mut Task, answer: TurnAnswer, phase: Phase) -> TurnAnswer
    ensures answer { result ≡ answer }
    ensures task { task.new ≡ Task.Cut phase }
{
    *task = Task::Cut { phase };
    answer
}

/// The answer of the last turn, which is this one if all of it was played.
pub(crate) fn last(task: &mut Task, played: LogAnswer, answer: TurnAnswer) -> TurnAnswer
    ensures answer { result ≡ last_answer played answer }
    ensures task { task.new ≡ last_task played task.old }
{
    match played {
        LogAnswer::Done => answer,
        LogAnswer::Off => cut(task, TurnAnswer::Off, Phase::Sealed),
        LogAnswer::Failed => cut(task, TurnAnswer::Failed, Phase::Sealed),
        LogAnswer::NoMemory => cut(task, TurnAnswer::NoMemory, Phase::Sealed),
    }
}

/// Whether a turn with this answer was the last one of a transaction.
pub(crate) fn is_last(answer: TurnAnswer) -> bool
    ensures { result ≡ is_last answer }
{
    match answer {
        TurnAnswer::Done { .. } | TurnAnswer::Trap(_) | TurnAnswer::Aborted(_) => true,
        TurnAnswer::Idle
        | TurnAnswer::Went
        | TurnAnswer::Off
        | TurnAnswer::Failed
        | TurnAnswer::NoMemory => false,
    }
}

/// How far the seal has come.
pub(crate) fn phase_of(task: &Task) -> Phase
    ensures { result ≡ task_phase task.now }
{
    match task {
        Task::Begun { .. } | Task::Looking { .. } => Phase::Unsealed,
        Task::Running { .. } | Task::Ending { .. } => Phase::Sealed,
        Task::Cut { phase } => *phase,
    }
}

/// The number of its transaction; 0 once a turn was refused.
pub(crate) fn tx_of(task: &Task) -> u64
    ensures { result ≡ task_tx task.now }
{
    match task {
        Task::Begun { tx, .. } => *tx,
        Task::Running { tx, .. } => *tx,
        Task::Ending { tx, .. } => *tx,
        Task::Looking { tx, .. } => *tx,
        Task::Cut { .. } => 0,
    }
}

/// Where the machine of a run stands.
pub(crate) fn stop_of(task: &Task) -> Option<Stop> {
    match task {
        Task::Running { machine, .. } => Some(machine.stop()),
        Task::Looking { look, .. } => look_stop(look),
        Task::Begun { .. } | Task::Ending { .. } | Task::Cut { .. } => None,
    }
}

/// Where the machine of a look stands.
fn look_stop(look: &Look) -> Option<Stop> {
    match look {
        Look::Going { machine, .. } => Some(machine.stop()),
        Look::Fresh { .. } | Look::Seen { .. } => None,
    }
}
