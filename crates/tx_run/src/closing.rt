//! The events after a run: the call is retired, the pool is marked, or the call is rolled back.

ghost use Rattle.std.specs.Prelude.{◌≡◌, ◌+◌, ◌≤◌, true, false};
ghost use Rattle.cache_model.specs.Cache.{view};
ghost use Rattle.pmem.specs.Played.{Played};
ghost use Rattle.pool_layout.specs.Sizes.{pool_lines};
ghost use Rattle.clobber_log.specs.Logs.{count_in};
ghost use Rattle.tx_run.specs.Due.{retiring_still, due_undo, trap_events, trap_steps};

use args_log::{mark_unusable, retire};
use clobber_log::restore;
use nvm_base::Steps;
use pm_machine::Policy;
use pmem::{LogAnswer, PmemWork};
use pool_layout::{LAST, Sizes};
use pool_map::TrapKind;
use std::sync::ledger::Ledger;

/// Retires the call. The last value stays as it is.
#[tactic(auto, using(std::proofs::lemmas::Int::wraps))]
fn retire_still<P: PmemWork>(dev: &mut P) -> LogAnswer
    requires lines { 6 ≤ (P.device dev.old).lines }
    requires on { (P.device dev.old).on ≡ true }
    ensures played { Played result (P.device dev.old) (retiring_still (P.device dev.old).cache)
        (P.device dev.new) }
    ensures lines { (P.device dev.new).lines ≡ (P.device dev.old).lines }
{
    match dev.load(LAST) {
        Some(last) => retire(dev, last),
        None => LogAnswer::Off,
    }
}

/// Restores the old value of each valid record, and retires the call with the last value as it is.
/// Each record takes a step.
fn undo<P: PmemWork, L: Ledger>(sizes: &Sizes, dev: &mut P, steps: &mut Steps<L>) -> LogAnswer
    requires lines { (P.device dev.old).lines ≡ pool_lines sizes.now }
    requires on { (P.device dev.old).on ≡ true }
    ensures played { Played result (P.device dev.old) (due_undo sizes.now (P.device dev.old).cache)
        (P.device dev.new) }
    ensures cost { result ≡ LogAnswer.Done →
        steps.new ≡ steps.old + count_in sizes.now (view (P.device dev.old).cache) }
    ensures bound { steps.new ≤
        steps.old + count_in sizes.now (view (P.device dev.old).cache) }
    ensures lines { (P.device dev.new).lines ≡ (P.device dev.old).lines }
{
    match restore(sizes, dev, steps) {
        LogAnswer::Done => retire_still(dev),
        LogAnswer::Off => LogAnswer::Off,
        LogAnswer::Failed => LogAnswer::Failed,
        LogAnswer::NoMemory => LogAnswer::NoMemory,
    }
}

/// Does what follows a trap: marks the pool, or rolls the call back.
pub(crate) fn close<P: PmemWork, L: Ledger>(
    policy: Policy,
    sizes: &Sizes,
    kind: TrapKind,
    dev: &mut P,
    steps: &mut Steps<L>,
) -> LogAnswer
    requires lines { (P.device dev.old).lines ≡ pool_lines sizes.now }
    requires on { (P.device dev.old).on ≡ true }
    ensures played { Played result (P.device dev.old)
        (trap_events policy sizes.now kind (P.device dev.old).cache) (P.device dev.new) }
    ensures cost { result ≡ LogAnswer.Done →
        steps.new ≡ steps.old + trap_steps policy sizes.now (P.device dev.old).cache }
    ensures bound { steps.new ≤
        steps.old + trap_steps policy sizes.now (P.device dev.old).cache }
    ensures lines { (P.device dev.new).lines ≡ (P.device dev.old).lines }
{
    match policy {
        Policy::EndPool => mark_unusable(dev, kind),
        Policy::RollBack => undo(sizes, dev, steps),
    }
}
