//! Restoring the old values of the log into the heap.

ghost use Rattle.std.specs.Prelude.{◌≡◌, ◌+◌, ◌<◌, ◌≤◌, ℕ, true, false, Some, OnOk, IfErr};
ghost use Rattle.std.specs.Option.{ForSome};
ghost use Rattle.cache_model.specs.Cache.{view};
ghost use Rattle.pmem.specs.Played.{PlaysAll, PlaysPart, Played};
ghost use Rattle.pool_layout.specs.Sizes.{pool_lines, heap_words};
ghost use Rattle.pool_layout.specs.Places.{at, pool_of};
ghost use Rattle.pool_layout.specs.declared.places.Place.TheVariants.{Heap};
ghost use Rattle.pool_layout.specs.Restored.{restored};
ghost use Rattle.clobber_log.specs.Logs.{attempt_in, count_in};
ghost use Rattle.clobber_log.specs.Restore.{as_heap_word, back_at, back_record, back_first};
ghost use Rattle.clobber_log.specs.Restore.{fence_after, first_events, IsUndoneFirst};
ghost use Rattle.clobber_log.specs.Restore.{restore_events};

use crate::valid::{attempt, count};
use nvm_base::Steps;
use pmem::events::{fence, flush, store};
use pmem::{LogAnswer, PmemWork, Refusal};
use pool_layout::{Sizes, heap_start, heap_words};
use std::sync::ledger::Ledger;

/// The heap word that a word names, if it names one.
#[tactic(auto, using(std::proofs::lemmas::Int::wraps))]
fn heap_word(sizes: &Sizes, word: i64) -> Option<u64>
    ensures value { result ≡ as_heap_word sizes.now word }
    ensures within { ForSome result (λ w. w < heap_words sizes.now) }
{
    match u64::try_from(word) {
        Err(_) => None,
        Ok(w) => { if w < heap_words(sizes) { Some(w) } else { None } }
    }
}

/// Stores a value at a heap word and flushes its line.
fn put_back<P: PmemWork>(sizes: &Sizes, dev: &mut P, w: u64, old: i64) -> Result<(), Refusal>
    requires inside { w < heap_words sizes.now }
    requires lines { (P.device dev.old).lines ≡ pool_lines sizes.now }
    ensures done { OnOk result (PlaysAll (P.device dev.old) (back_at sizes.now (Some w) old)
        (P.device dev.new)) }
    ensures refused { IfErr result
        (λ why. PlaysPart why (P.device dev.old) (back_at sizes.now (Some w) old)
        (P.device dev.new)) }
    ensures lines { (P.device dev.new).lines ≡ (P.device dev.old).lines }
{
    let word = heap_start(sizes) + w;
    store(dev, word, old)?;
    flush(dev, word / 8)
}

/// Restores record `i`: two events, or none if its word lies outside the heap.
fn restore_record<P: PmemWork>(sizes: &Sizes, dev: &mut P, i: u64) -> Result<(), Refusal>
    requires room { i < sizes.now.records }
    requires lines { (P.device dev.old).lines ≡ pool_lines sizes.now }
    requires on { (P.device dev.old).on ≡ true }
    ensures done { OnOk result (PlaysAll (P.device dev.old)
        (back_record sizes.now (view (P.device dev.old).cache) i) (P.device dev.new)) }
    ensures refused { IfErr result
        (λ why. PlaysPart why (P.device dev.old)
        (back_record sizes.now (view (P.device dev.old).cache) i) (P.device dev.new)) }
    ensures lines { (P.device dev.new).lines ≡ (P.device dev.old).lines }
{
    let first = 8 * (6 + i);
    let Some(word) = dev.load(first) else {
        return Err(Refusal::Off);
    };
    let Some(old) = dev.load(first + 1) else {
        return Err(Refusal::Off);
    };
    match heap_word(sizes, word) {
        None => Ok(()),
        Some(w) => put_back(sizes, dev, w, old),
    }
}

/// Restores the first `count` records, the newest first. Each takes one step.
fn restore_records<P: PmemWork, L: Ledger>(
    sizes: &Sizes,
    dev: &mut P,
    count: u64,
    steps: &mut Steps<L>,
) -> Result<(), Refusal>
    requires room { count ≤ sizes.now.records }
    requires lines { (P.device dev.old).lines ≡ pool_lines sizes.now }
    requires on { (P.device dev.old).on ≡ true }
    ensures done { OnOk result (PlaysAll (P.device dev.old)
        (back_first sizes.now (view (P.device dev.old).cache) count) (P.device dev.new)) }
    ensures refused { IfErr result
        (λ why. PlaysPart why (P.device dev.old)
        (back_first sizes.now (view (P.device dev.old).cache) count) (P.device dev.new)) }
    ensures heap { OnOk result (IsUndoneFirst sizes.now count (view (P.device dev.old).cache)
        (view (P.device dev.new).cache)) }
    ensures cost { OnOk result (steps.new ≡ steps.old + count) }
    ensures bound { steps.new ≤ steps.old + count }
    ensures lines { (P.device dev.new).lines ≡ (P.device dev.old).lines }
{
    let mut left = count;
    while left > 0 {
        left -= 1;
        steps.tick();
        if let Err(why) = restore_record(sizes, dev, left) {
            return Err(why);
        }
    }
    Ok(())
}

/// Fences, if any record was restored.
#[tactic(auto, using(cache_model::proofs::Views::view_fence))]
fn fence_after<P: PmemWork>(dev: &mut P, count: u64) -> Result<(), Refusal>
    ensures done { OnOk result (PlaysAll (P.device dev.old) (fence_after count)
        (P.device dev.new)) }
    ensures refused { IfErr result (λ why. PlaysPart why (P.device dev.old) (fence_after count)
        (P.device dev.new)) }
    ensures kept { OnOk result ((p : ℕ)
        → view (P.device dev.new).cache p ≡ view (P.device dev.old).cache p) }
    ensures lines { (P.device dev.new).lines ≡ (P.device dev.old).lines }
{
    if count == 0 {
        return Ok(());
    }
    fence(dev)
}

/// Restores the first `count` records, and fences.
#[tactic(auto, using(pmem::proofs::Glue::all_append, pmem::proofs::Glue::part_left, pmem::proofs::Glue::part_right))]
fn restore_first<P: PmemWork, L: Ledger>(
    sizes: &Sizes,
    dev: &mut P,
    count: u64,
    steps: &mut Steps<L>,
) -> Result<(), Refusal>
    requires room { count ≤ sizes.now.records }
    requires lines { (P.device dev.old).lines ≡ pool_lines sizes.now }
    requires on { (P.device dev.old).on ≡ true }
    ensures done { OnOk result (PlaysAll (P.device dev.old)
        (first_events sizes.now (view (P.device dev.old).cache) count) (P.device dev.new)) }
    ensures refused { IfErr result
        (λ why. PlaysPart why (P.device dev.old)
        (first_events sizes.now (view (P.device dev.old).cache) count) (P.device dev.new)) }
    ensures heap { OnOk result (IsUndoneFirst sizes.now count (view (P.device dev.old).cache)
        (view (P.device dev.new).cache)) }
    ensures cost { OnOk result (steps.new ≡ steps.old + count) }
    ensures bound { steps.new ≤ steps.old + count }
    ensures lines { (P.device dev.new).lines ≡ (P.device dev.old).lines }
{
    match restore_records(sizes, dev, count, steps) {
        Err(why) => Err(why),
        Ok(()) => fence_after(dev, count),
    }
}

/// Restores the old value of each valid record, from the newest to the oldest: two events for each,
/// and one fence if there is a record. Each record takes one step. A record whose word lies outside
/// the heap, which no pool holds, is skipped. On a device that is off the answer is `Off`, and
/// nothing has changed.
pub fn restore<P: PmemWork, L: Ledger>(
    sizes: &Sizes,
    dev: &mut P,
    steps: &mut Steps<L>,
) -> LogAnswer
    requires lines { (P.device dev.old).lines ≡ pool_lines sizes.now }
    ensures played { (P.device dev.old).on ≡ true
        → Played result (P.device dev.old)
        (restore_events sizes.now (view (P.device dev.old).cache)) (P.device dev.new) }
    ensures heap { result ≡ LogAnswer.Done → (w : ℕ) → w < heap_words sizes.now
        → view (P.device dev.new).cache (at (pool_of sizes.now) (Heap w))
        ≡ restored (pool_of sizes.now) (attempt_in sizes.now (view (P.device dev.old).cache))
        (view (P.device dev.old).cache) w }
    ensures off { (P.device dev.old).on ≡ false → result ≡ LogAnswer.Off }
    ensures same { (P.device dev.old).on ≡ false → P.device dev.new ≡ P.device dev.old }
    ensures cost { result ≡ LogAnswer.Done
        → steps.new ≡ steps.old + count_in sizes.now (view (P.device dev.old).cache) }
    ensures bound { steps.new ≤ steps.old + count_in sizes.now (view (P.device dev.old).cache) }
    ensures lines { (P.device dev.new).lines ≡ (P.device dev.old).lines }
{
    let Some(attempt) = attempt(sizes, dev) else {
        return LogAnswer::Off;
    };
    match count(sizes, dev, attempt) {
        None => LogAnswer::Off,
        Some(count) => LogAnswer::of(restore_first(sizes, dev, count, steps)),
    }
}
