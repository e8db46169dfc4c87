//! A transaction that only looks, and its turns.

ghost use Rattle.std.specs.Prelude.{ℕ, ◌≡◌, ◌+◌, ◌<◌, true};
ghost use Rattle.pool_layout.specs.Sizes.{pool_lines};
ghost use Rattle.pm_machine.specs.Runs.{heap_in};
ghost use Rattle.pool_workers.specs.declared.task.Task.TheVariants as task_of;
ghost use Rattle.pool_workers.specs.declared.look.Look.TheVariants as look_of;
ghost use Rattle.pool_workers.specs.Look.{going_look, going_past, seen_answer, look_ticks, HasLeft};
ghost use Rattle.pool_workers.specs.Task.{Turned, IsUncutOr};
ghost use Rattle.pool_workers.specs.inside.Task.{IsFresh, fresh_past, settled_look, left_task};

use crate::answer::TurnAnswer;
use nvm_base::Steps;
use pm_machine::{End, Image, Machine};
use pmem::PmemWork;
use pool_map::TrapKind;
use std::mem;
use std::sync::ledger::Ledger;

/// A transaction that only looks, by what its next turn does.
#[derive(Drop)]
pub enum Look {
    /// It begins. The machine is at its start.
    Fresh { machine: Machine },
    /// An instruction. At most `left` instructions are left.
    Going { machine: Machine, left: u128 },
    /// It is answered.
    Seen { end: End },
}

/// A look that goes on. If no more instructions are allowed it ends as if it had no tick left.
fn going_look(machine: Machine, left: u128) -> Look
    ensures going { result ≡ going_look machine left }
    ensures left { HasLeft result }
{
    if left == 0 {
        return Look::Seen {
            end: End::Trapped(TrapKind::Steps),
        };
    }
    Look::Going { machine, left }
}

/// The first turn, in the place of the seal.
fn fresh_turn(image: &Image, look: &mut Look)
    requires fresh { IsFresh look.old }
    ensures past { look.new ≡ fresh_past image.now look.old }
    ensures left { HasLeft look.new }
{
    let over = Look::Seen {
        end: End::Trapped(TrapKind::Steps),
    };
    match mem::replace(look, over) {
        Look::Fresh { machine } => *look = going_look(machine, image.most()),
        Look::Going { .. } | Look::Seen { .. } => unreachable!(),
    }
}

/// The answer of a look with this end.
fn seen_answer(end: End) -> TurnAnswer
    ensures { result ≡ seen_answer end }
{
    match end {
        End::Halted(value) => TurnAnswer::Done { value, logged: 0 },
        End::Trapped(kind) => TurnAnswer::Aborted(kind),
    }
}

/// One instruction of a look: its end, if it ends there.
fn going_turn<P: PmemWork>(
    image: &Image,
    machine: &mut Machine,
    left: &mut u128,
    dev: &mut P,
) -> Option<End>
    requires lines { (P.device dev.old).lines ≡ pool_lines image.now.parts.sizes }
    requires on { (P.device dev.old).on ≡ true }
    requires some { 0 < left.old }
    ensures same { P.device dev.new ≡ P.device dev.old }
    ensures past { settled_look result (look_of.Going machine.new left.new)
        ≡ going_past image.now machine.old left.old
        (heap_in image.now.parts.sizes (P.device dev.old).cache) }
    ensures left { HasLeft (settled_look result (look_of.Going machine.new left.new)) }
{
    if let Some(end) = machine.look_once(image, dev) {
        return Some(end);
    }
    *left -= 1;
    if *left == 0 {
        return Some(End::Trapped(TrapKind::Steps));
    }
    None
}

/// A look that has ended is left at its end.
fn settle_look(look: &mut Look, end: Option<End>)
    ensures { look.new ≡ settled_look end look.old }
{
    if let Some(end) = end {
        *look = Look::Seen { end };
    }
}

/// The next turn of a transaction that only looks, on a device that is on. Nothing is played. An
/// instruction is one step.
pub(crate) fn look_turn<P: PmemWork, L: Ledger>(
    image: &Image,
    look: &mut Look,
    dev: &mut P,
    steps: &mut Steps<L>,
) -> TurnAnswer
    requires lines { (P.device dev.old).lines ≡ pool_lines image.now.parts.sizes }
    requires on { (P.device dev.old).on ≡ true }
    requires left { HasLeft look.old }
    ensures turned { (tx : ℕ) → Turned result image.now (task_of.Looking tx look.old)
        (left_task result (task_of.Looking tx look.new)) (P.device dev.old) (P.device dev.new) }
    ensures cost { steps.new ≡ steps.old + look_ticks look.old }
    ensures uncut { (tx : ℕ) → IsUncutOr (left_task result (task_of.Looking tx look.new)) }
    ensures left { HasLeft look.new }
    ensures lines { (P.device dev.new).lines ≡ (P.device dev.old).lines }
{
    match look {
        Look::Going { machine, left } => {
            steps.tick();
            let end = going_turn(image, machine, left, dev);
            settle_look(look, end);
            TurnAnswer::Went
        }
        Look::Fresh { .. } => {
            fresh_turn(image, look);
            TurnAnswer::Went
        }
        Look::Seen { end } => seen_answer(*end),
    }
}
