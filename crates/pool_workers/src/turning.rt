//! One turn of a transaction, on the pool of its compartment.

ghost use Rattle.std.specs.Prelude.{ℕ, ◌≡◌, ◌+◌, true, Some, []};
ghost use Rattle.pool_layout.specs.Sizes.{pool_lines};
ghost use Rattle.pool_workers.specs.declared.task.Task.TheVariants as task_of;
ghost use Rattle.pool_workers.specs.Task.{first_machine, sealed_task, Turned, IsTask, IsTaskOr};
ghost use Rattle.pool_workers.specs.Task.{IsUncut, IsUncutOr, IsGoing, ticks_of, going};
ghost use Rattle.pool_workers.specs.inside.Task.{IsBegun, left_task, stepped_left, stepped_answer};
ghost use Rattle.pool_workers.specs.inside.Task.{settled};

use crate::answer::TurnAnswer;
use crate::look::look_turn;
use crate::task::{Stepped, Task, cut, going, last};
use args_log::{SealAnswer, mark_unusable, retire, seal};
use clobber_log::{attempt, count};
use nvm_base::{Steps, Words};
use pm_machine::{End, Image, Machine, Policy, Went};
use pmem::{Phase, PmemWork, Refusal};
use pool_map::TrapKind;
use std::mem;
use std::sync::ledger::Ledger;

/// The run of a call that was sealed.
fn sealed<P: PmemWork>(image: &Image, tx: u64, mut machine: Machine, dev: &P) -> Task
    requires lines { (P.device dev.now).lines ≡ pool_lines image.now.parts.sizes }
    requires on { (P.device dev.now).on ≡ true }
    requires clean { machine.processor.dirty ≡ [] }
    ensures run { result ≡ sealed_task image.now tx machine (P.device dev.now).cache }
    ensures task { IsTask image.now result }
{
    let Some(attempt) = attempt(image.sizes(), dev) else {
        unreachable!()
    };
    let Some(count) = count(image.sizes(), dev, attempt) else {
        unreachable!()
    };
    machine.begin(Policy::EndPool, count);
    going(tx, machine, attempt, image.most())
}

/// The answer of the turn that seals a call, and what it leaves.
#[derive(Drop)]
struct SealTurn {
    answer: TurnAnswer,
    task: Task,
}

/// The turn that seals the call.
fn seal_turn<P: PmemWork>(
    image: &Image,
    tx: u64,
    args: Words,
    machine: Machine,
    dev: &mut P,
) -> SealTurn
    requires lines { (P.device dev.old).lines ≡ pool_lines image.now.parts.sizes }
    requires on { (P.device dev.old).on ≡ true }
    requires start { machine ≡ first_machine image.now tx args }
    ensures turned { Turned result.answer image.now (task_of.Begun tx args machine)
        (left_task result.answer result.task) (P.device dev.old) (P.device dev.new) }
    ensures uncut { IsGoing result.answer → IsUncutOr (left_task result.answer result.task) }
    ensures task { IsTask image.now result.task }
    ensures lines { (P.device dev.new).lines ≡ (P.device dev.old).lines }
{
    match seal(dev, tx, args.as_slice()) {
        SealAnswer::Done => SealTurn {
            answer: TurnAnswer::Went,
            task: sealed(image, tx, machine, dev),
        },
        SealAnswer::Off(phase) => SealTurn {
            answer: TurnAnswer::Off,
            task: Task::Cut { phase },
        },
        SealAnswer::Failed => SealTurn {
            answer: TurnAnswer::Failed,
            task: Task::Cut {
                phase: Phase::Unsealed,
            },
        },
        SealAnswer::NoMemory => SealTurn {
            answer: TurnAnswer::NoMemory,
            task: Task::Cut {
                phase: Phase::Unsealed,
            },
        },
    }
}

/// The first turn of a transaction, which seals its call.
fn first_turn<P: PmemWork>(image: &Image, task: &mut Task, dev: &mut P) -> TurnAnswer
    requires lines { (P.device dev.old).lines ≡ pool_lines image.now.parts.sizes }
    requires on { (P.device dev.old).on ≡ true }
    requires task { IsTask image.now task.old }
    requires begun { IsBegun task.old }
    ensures turned { Turned result image.now task.old (left_task result task.new)
        (P.device dev.old) (P.device dev.new) }
    ensures uncut { IsGoing result → IsUncutOr (left_task result task.new) }
    ensures task { IsTask image.now task.new }
    ensures lines { (P.device dev.new).lines ≡ (P.device dev.old).lines }
{
    let unsealed = Task::Cut {
        phase: Phase::Unsealed,
    };
    match mem::replace(task, unsealed) {
        Task::Begun { tx, args, machine } => {
            let SealTurn { answer, task: left } = seal_turn(image, tx, args, machine, dev);
            *task = left;
            answer
        }
        Task::Running { .. } | Task::Ending { .. } | Task::Looking { .. } | Task::Cut { .. } => {
            unreachable!()
        }
    }
}

/// Whether a run goes on. If no more instructions are allowed it ends as if it had no tick left.
fn goes_on(machine: &Machine, left: u128) -> Stepped
    ensures left { (tx a : ℕ) → stepped_left result tx machine.now a left
        ≡ going tx machine.now a left }
    ensures answer { stepped_answer result ≡ TurnAnswer.Went }
{
    if left == 0 {
        return Stepped::Over {
            end: End::Trapped(TrapKind::Steps),
            logged: machine.logged(),
        };
    }
    Stepped::On
}

/// One instruction of a run, after its record if it takes one.
fn step_turn<P: PmemWork>(
    image: &Image,
    tx: u64,
    machine: &mut Machine,
    attempt: u64,
    left: &mut u128,
    dev: &mut P,
) -> Stepped
    requires lines { (P.device dev.old).lines ≡ pool_lines image.now.parts.sizes }
    requires on { (P.device dev.old).on ≡ true }
    requires task { IsTask image.now (task_of.Running tx machine.old attempt left.old) }
    ensures turned { Turned (stepped_answer result) image.now
        (task_of.Running tx machine.old attempt left.old)
        (Some (stepped_left result tx machine.new attempt left.new))
        (P.device dev.old) (P.device dev.new) }
    ensures uncut { IsGoing (stepped_answer result) →
        IsUncut (stepped_left result tx machine.new attempt left.new) }
    ensures task { IsTask image.now (stepped_left result tx machine.new attempt left.new) }
    ensures lines { (P.device dev.new).lines ≡ (P.device dev.old).lines }
{
    match machine.step_on(image, attempt, dev) {
        Ok(Went::On) => {
            *left -= 1;
            goes_on(machine, *left)
        }
        Ok(Went::Ended(end)) => Stepped::Over {
            end,
            logged: machine.logged(),
        },
        Err(Refusal::Off) => Stepped::Refused(Refusal::Off),
        Err(Refusal::Failed) => Stepped::Refused(Refusal::Failed),
        Err(Refusal::NoMemory) => Stepped::Refused(Refusal::NoMemory),
    }
}

/// The answer of an instruction's turn. A run that doesn't go on gives its place to what follows.
fn settle(task: &mut Task, tx: u64, stepped: Stepped) -> TurnAnswer
    ensures answer { result ≡ stepped_answer stepped }
    ensures left { task.new ≡ settled stepped tx task.old }
{
    match stepped {
        Stepped::On => TurnAnswer::Went,
        Stepped::Over { end, logged } => {
            *task = Task::Ending { tx, end, logged };
            TurnAnswer::Went
        }
        Stepped::Refused(Refusal::Off) => cut(task, TurnAnswer::Off, Phase::Sealed),
        Stepped::Refused(Refusal::Failed) => cut(task, TurnAnswer::Failed, Phase::Sealed),
        Stepped::Refused(Refusal::NoMemory) => cut(task, TurnAnswer::NoMemory, Phase::Sealed),
    }
}

/// The turn that ends the call.
fn end_turn<P: PmemWork>(
    image: &Image,
    task: &mut Task,
    tx: u64,
    end: End,
    logged: u64,
    dev: &mut P,
) -> TurnAnswer
    requires lines { (P.device dev.old).lines ≡ pool_lines image.now.parts.sizes }
    requires on { (P.device dev.old).on ≡ true }
    requires task { task.old ≡ task_of.Ending tx end logged }
    ensures turned { Turned result image.now (task_of.Ending tx end logged)
        (left_task result task.new) (P.device dev.old) (P.device dev.new) }
    ensures uncut { IsGoing result → IsUncutOr (left_task result task.new) }
    ensures task { IsTask image.now task.new }
    ensures lines { (P.device dev.new).lines ≡ (P.device dev.old).lines }
{
    match end {
        End::Halted(value) => last(task, retire(dev, value), TurnAnswer::Done { value, logged }),
        End::Trapped(kind) => last(task, mark_unusable(dev, kind), TurnAnswer::Trap(kind)),
    }
}

/// The next turn of a transaction, on a device that is on. An instruction is one step.
pub(crate) fn advance<P: PmemWork, L: Ledger>(
    image: &Image,
    task: &mut Task,
    dev: &mut P,
    steps: &mut Steps<L>,
) -> TurnAnswer
    requires lines { (P.device dev.old).lines ≡ pool_lines image.now.parts.sizes }
    requires on { (P.device dev.old).on ≡ true }
    requires task { IsTask image.now task.old }
    requires uncut { IsUncut task.old }
    ensures turned { Turned result image.now task.old (left_task result task.new)
        (P.device dev.old) (P.device dev.new) }
    ensures cost { steps.new ≡ steps.old + ticks_of task.old }
    ensures uncut { IsGoing result → IsUncutOr (left_task result task.new) }
    ensures task { IsTask image.now task.new }
    ensures lines { (P.device dev.new).lines ≡ (P.device dev.old).lines }
{
    match task {
        Task::Running {
            tx,
            machine,
            attempt,
            left,
        } => {
            steps.tick();
            let tx = *tx;
            let stepped = step_turn(image, tx, machine, *attempt, left, dev);
            settle(task, tx, stepped)
        }
        Task::Begun { .. } => first_turn(image, task, dev),
        Task::Ending { tx, end, logged } => {
            let tx = *tx;
            let end = *end;
            let logged = *logged;
            end_turn(image, task, tx, end, logged, dev)
        }
        Task::Looking { look, .. } => look_turn(image, look, dev, steps),
        Task::Cut { .. } => TurnAnswer::Off,
    }
}
