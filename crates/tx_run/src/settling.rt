//! The part of a call after its seal.

ghost use Rattle.std.specs.Prelude.{◌≡◌, ◌+◌, ◌^◌, ◌<◌, ◌≤◌, true, false};
ghost use Rattle.cache_model.specs.Cache.{view};
ghost use Rattle.pool_layout.specs.Sizes.{heap_words, pool_lines};
ghost use Rattle.pm_machine.specs.Runs.{AreLines};
ghost use Rattle.tx_run.specs.Due.{run_steps, most_steps};
ghost use Rattle.tx_run.specs.Settled.{Settles};
ghost use Rattle.tx_run.specs.inside.Settled.{log_done, log_trap};

use crate::answer::Settled;
use crate::closing::close;
use args_log::retire;
use nvm_base::Steps;
use pm_machine::{Image, Machine, Policy, RunAnswer};
use pmem::{LogAnswer, PmemWork};
use pool_map::TrapKind;
use std::sync::ledger::Ledger;

/// The answer of a retirement.
#[tactic(auto, using(std::proofs::lemmas::Int::wraps))]
fn retired(answer: LogAnswer, value: i64, logged: u64) -> Settled
    ensures { result ≡ log_done answer value logged }
{
    match answer {
        LogAnswer::Done => Settled::Done { value, logged },
        LogAnswer::Off => Settled::Off,
        LogAnswer::Failed => Settled::Failed,
        LogAnswer::NoMemory => Settled::NoMemory,
    }
}

/// The answer after a trap.
fn trapped(answer: LogAnswer, policy: Policy, kind: TrapKind) -> Settled
    ensures { result ≡ log_trap answer policy kind }
{
    match answer {
        LogAnswer::Done => match policy {
            Policy::EndPool => Settled::Trap(kind),
            Policy::RollBack => Settled::Aborted(kind),
        },
        LogAnswer::Off => Settled::Off,
        LogAnswer::Failed => Settled::Failed,
        LogAnswer::NoMemory => Settled::NoMemory,
    }
}

/// Runs the machine of a sealed call, and retires the call, or, if the run trapped, marks the pool
/// or rolls the call back. On a device that is off the answer is `Off`, and nothing has changed.
pub fn settle<P: PmemWork, L: Ledger>(
    image: &Image,
    policy: Policy,
    machine: &mut Machine,
    dev: &mut P,
    steps: &mut Steps<L>,
) -> Settled
    requires lines { (P.device dev.old).lines ≡ pool_lines image.now.parts.sizes }
    requires dirty { AreLines (heap_words image.now.parts.sizes) machine.old.processor.dirty }
    ensures settled { (P.device dev.old).on ≡ true
        → Settles result policy image.now machine.old.processor (P.device dev.old)
        (P.device dev.new) steps.old steps.new }
    ensures bound { (P.device dev.old).on ≡ true
        → steps.new ≤ steps.old
        + run_steps policy image.now machine.old.processor (P.device dev.old).cache }
    ensures most { steps.new ≤ steps.old + most_steps policy image.now }
    ensures off { (P.device dev.old).on ≡ false → result ≡ Settled.Off }
    ensures same { (P.device dev.old).on ≡ false → P.device dev.new ≡ P.device dev.old }
    ensures lines { (P.device dev.new).lines ≡ (P.device dev.old).lines }
{
    match machine.run(image, policy, dev, steps) {
        RunAnswer::Halted(value) => retired(retire(dev, value), value, machine.logged()),
        RunAnswer::Trapped(kind) => {
            trapped(close(policy, image.sizes(), kind, dev, steps), policy, kind)
        }
        RunAnswer::Off => Settled::Off,
        RunAnswer::Failed => Settled::Failed,
        RunAnswer::NoMemory => Settled::NoMemory,
    }
}
