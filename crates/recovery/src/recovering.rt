//! A recovery from its start to its end.

ghost use Rattle.std.specs.Prelude.{◌≡◌, ◌+◌, ◌≤◌, ℕ, ℤ, true, length};
ghost use Rattle.cache_model.specs.Cache.{view};
ghost use Rattle.pool_layout.specs.Sizes.{pool_lines};
ghost use Rattle.pmem.specs.Played.{Played};
ghost use Rattle.clobber_log.specs.Logs.{count_in};
ghost use Rattle.args_log.specs.Pending.{HoldsArguments};
ghost use Rattle.recovery.specs.Found.{recorded};
ghost use Rattle.recovery.specs.Due.{due_clean, due_back};
ghost use Rattle.recovery.specs.Recovered.{redo_steps, Cleaned, Redid, IsRecovered};
ghost use Rattle.tx_run.specs.Due.{most_steps};

use crate::answer::RecoverAnswer;
use crate::looking::{Found, look};
use clobber_log::{reset, restore};
use nvm_base::Steps;
use pm_machine::{Image, Policy, Spare};
use pmem::{LogAnswer, Phase, PmemWork};
use pool_layout::{ARGUMENTS, Sizes};
use std::alloc::Global;
use std::sync::ledger::Ledger;
use tx_run::settle;

/// Begins the next attempt, if a record is valid.
fn clean<P: PmemWork>(sizes: &Sizes, dev: &mut P, count: u64) -> RecoverAnswer
    requires lines { (P.device dev.old).lines ≡ pool_lines sizes.now }
    requires on { (P.device dev.old).on ≡ true }
    ensures cleaned { Cleaned result (P.device dev.old)
        (due_clean sizes.now count (P.device dev.old).cache) (P.device dev.new) }
    ensures lines { (P.device dev.new).lines ≡ (P.device dev.old).lines }
{
    if count == 0 {
        return RecoverAnswer::Clean;
    }
    RecoverAnswer::cleaned(reset(sizes, dev))
}

/// If a record is valid, restores the logged words and begins the next attempt.
pub fn put_back<P: PmemWork, L: Ledger>(
    sizes: &Sizes,
    dev: &mut P,
    count: u64,
    steps: &mut Steps<L>,
) -> LogAnswer
    requires lines { (P.device dev.old).lines ≡ pool_lines sizes.now }
    requires on { (P.device dev.old).on ≡ true }
    requires count { count ≡ count_in sizes.now (view (P.device dev.old).cache) }
    ensures played { Played result (P.device dev.old)
        (due_back sizes.now count (P.device dev.old).cache) (P.device dev.new) }
    ensures cost { result ≡ LogAnswer.Done → steps.new ≡ steps.old + count }
    ensures bound { steps.new ≤ steps.old + count }
    ensures lines { (P.device dev.new).lines ≡ (P.device dev.old).lines }
{
    if count == 0 {
        return LogAnswer::Done;
    }
    match restore(sizes, dev, steps) {
        LogAnswer::Done => reset(sizes, dev),
        LogAnswer::Off => LogAnswer::Off,
        LogAnswer::Failed => LogAnswer::Failed,
        LogAnswer::NoMemory => LogAnswer::NoMemory,
    }
}

/// The first of the words, as many as the transaction has parameters.
pub fn given<'a>(image: &Image, tx: u64, args: &'a [i64; ARGUMENTS]) -> &'a [i64]
    requires first { 1 ≤ tx }
    requires last { tx ≤ length image.now.parts.txs }
    ensures { (w : ℕ → ℤ) → HoldsArguments w args.now → result.now ≡ recorded image.now tx w }
{
    let count = image.parameters(tx);
    if count < ARGUMENTS as u64 {
        &args[..count as usize]
    } else {
        &args[..ARGUMENTS]
    }
}

/// Runs a sealed call again. Memory for the machine's frames is allocated before the first event.
fn redo<P: PmemWork, L: Ledger>(
    alloc: Global,
    spare: &mut Spare,
    image: &Image,
    policy: Policy,
    tx: u64,
    args: &[i64],
    count: u64,
    dev: &mut P,
    steps: &mut Steps<L>,
) -> RecoverAnswer
    requires lines { (P.device dev.old).lines ≡ pool_lines image.now.parts.sizes }
    requires on { (P.device dev.old).on ≡ true }
    requires count { count ≡ count_in image.now.parts.sizes (view (P.device dev.old).cache) }
    requires first { 1 ≤ tx }
    requires last { tx ≤ length image.now.parts.txs }
    ensures redid { Redid result policy image.now tx args.now count (P.device dev.old)
        (P.device dev.new) steps.old steps.new }
    ensures bound { steps.new ≤
        steps.old + redo_steps policy image.now tx args.now count (P.device dev.old) }
    ensures most { steps.new ≤ steps.old + count + most_steps policy image.now }
    ensures lines { (P.device dev.new).lines ≡ (P.device dev.old).lines }
{
    let Some(machine) = spare.start(alloc, image, tx, args) else {
        return RecoverAnswer::NoMemory;
    };
    match put_back(image.sizes(), dev, count, steps) {
        LogAnswer::Done => RecoverAnswer::redone(settle(image, policy, machine, dev, steps)),
        LogAnswer::Off => RecoverAnswer::Off(Phase::Sealed),
        LogAnswer::Failed => RecoverAnswer::Failed,
        LogAnswer::NoMemory => RecoverAnswer::NoMemory,
    }
}

/// Recovers the pool of the image after a power cut.
///
/// A pool with a mark stays as it is. Otherwise, if records are valid, their old values are
/// restored if a call was sealed, and the next attempt begins; and a sealed call runs again from
/// its recorded arguments and is settled, by the policy of its transaction. A sealed record that
/// names no transaction of the image, which no pool of the image holds, is answered with `Numbers`,
/// without an event. On a device that is off the answer is `Off(Unsealed)`, and nothing has
/// changed. If no call was sealed it takes no step, else at most one for each valid record and
/// those of the run.
pub fn recover<P: PmemWork, L: Ledger>(
    alloc: Global,
    image: &Image,
    policy: Policy,
    dev: &mut P,
    steps: &mut Steps<L>,
) -> RecoverAnswer
    requires lines { (P.device dev.old).lines ≡ pool_lines image.now.parts.sizes }
    ensures recovered { IsRecovered result policy image.now (P.device dev.old) (P.device dev.new)
        steps.old steps.new }
    ensures most { steps.new
        ≤ steps.old + image.now.parts.sizes.records + most_steps policy image.now }
    ensures lines { (P.device dev.new).lines ≡ (P.device dev.old).lines }
{
    recover_with(alloc, &mut Spare::new(), image, policy, dev, steps)
}

/// Recovers the pool as `recover` does, with the machine that is kept.
pub fn recover_with<P: PmemWork, L: Ledger>(
    alloc: Global,
    spare: &mut Spare,
    image: &Image,
    policy: Policy,
    dev: &mut P,
    steps: &mut Steps<L>,
) -> RecoverAnswer
    requires lines { (P.device dev.old).lines ≡ pool_lines image.now.parts.sizes }
    ensures recovered { IsRecovered result policy image.now (P.device dev.old) (P.device dev.new)
        steps.old steps.new }
    ensures most { steps.new
        ≤ steps.old + image.now.parts.sizes.records + most_steps policy image.now }
    ensures lines { (P.device dev.new).lines ≡ (P.device dev.old).lines }
{
    match look(image, dev) {
        Found::Off => RecoverAnswer::Off(Phase::Unsealed),
        Found::Unusable(kind) => RecoverAnswer::Unusable(kind),
        Found::Numbers => RecoverAnswer::Numbers,
        Found::Unsealed { count } => clean(image.sizes(), dev, count),
        Found::Sealed { tx, args, count } => {
            let args = given(image, tx, &args);
            redo(alloc, spare, image, policy, tx, args, count, dev, steps)
        }
    }
}
