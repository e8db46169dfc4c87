//! The end of a call: the line that finishes it, and the mark of a pool that a trap made unusable.

ghost use Rattle.std.specs.Prelude.{◌≡◌, ◌≤◌, true, false, OnOk, IfErr};
ghost use Rattle.cache_model.specs.Cache.{view};
ghost use Rattle.pmem.specs.Played.{PlaysAll, PlaysPart, Played};
ghost use Rattle.pool_layout.specs.declared.places.TheConstants.{DONE, ATTEMPT};
ghost use Rattle.pool_map.specs.Trap.{trap_number};
ghost use Rattle.args_log.specs.Next.{number_after};
ghost use Rattle.args_log.specs.Retire.{retire_events, mark_events};

use crate::following_number::following;
use pmem::events::{fence, flush, store};
use pmem::{LogAnswer, PmemWork, Refusal};
use pool_layout::{ATTEMPT, DONE, LAST, MARK};
use pool_map::TrapKind;

/// Stores line 2 of a finished call, and makes it durable.
#[tactic(auto, unfolding(crate::specs::Retire::retire_events))]
fn play_retire<P: PmemWork>(dev: &mut P, value: i64, done: i64, attempt: i64) -> Result<(), Refusal>
    requires lines { 6 ≤ (P.device dev.old).lines }
    ensures done { OnOk result (PlaysAll (P.device dev.old) (retire_events value done attempt)
        (P.device dev.new)) }
    ensures refused { IfErr result
        (λ why. PlaysPart why (P.device dev.old) (retire_events value done attempt)
        (P.device dev.new)) }
    ensures lines { (P.device dev.new).lines ≡ (P.device dev.old).lines }
{
    store(dev, LAST, value)?;
    store(dev, DONE, done)?;
    store(dev, ATTEMPT, attempt)?;
    flush(dev, 2)?;
    fence(dev)
}

/// Finishes the call whose transaction gave a value: five events. One more call is finished, and
/// the next attempt begins. On a device that is off the answer is `Off`, and nothing has changed.
pub fn retire<P: PmemWork>(dev: &mut P, value: i64) -> LogAnswer
    requires lines { 6 ≤ (P.device dev.old).lines }
    ensures played { (P.device dev.old).on ≡ true
        → Played result (P.device dev.old)
        (retire_events value (number_after (view (P.device dev.old).cache DONE))
        (number_after (view (P.device dev.old).cache ATTEMPT))) (P.device dev.new) }
    ensures off { (P.device dev.old).on ≡ false → result ≡ LogAnswer.Off }
    ensures same { (P.device dev.old).on ≡ false → P.device dev.new ≡ P.device dev.old }
    ensures lines { (P.device dev.new).lines ≡ (P.device dev.old).lines }
{
    let Some(done) = dev.load(DONE) else {
        return LogAnswer::Off;
    };
    let Some(attempt) = dev.load(ATTEMPT) else {
        return LogAnswer::Off;
    };
    LogAnswer::of(play_retire(dev, value, following(done), following(attempt)))
}

/// Stores the mark, and makes it durable.
#[tactic(auto, unfolding(crate::specs::Retire::mark_events))]
fn play_mark<P: PmemWork>(dev: &mut P, number: u32) -> Result<(), Refusal>
    requires lines { 6 ≤ (P.device dev.old).lines }
    ensures done { OnOk result (PlaysAll (P.device dev.old) (mark_events number)
        (P.device dev.new)) }
    ensures refused { IfErr result (λ why. PlaysPart why (P.device dev.old) (mark_events number)
        (P.device dev.new)) }
    ensures lines { (P.device dev.new).lines ≡ (P.device dev.old).lines }
{
    store(dev, MARK, i64::from(number))?;
    flush(dev, 2)?;
    fence(dev)
}

/// Makes the pool unusable by a trap: three events. On a device that is off the answer is `Off`,
/// and nothing has changed.
pub fn mark_unusable<P: PmemWork>(dev: &mut P, kind: TrapKind) -> LogAnswer
    requires lines { 6 ≤ (P.device dev.old).lines }
    ensures played { (P.device dev.old).on ≡ true
        → Played result (P.device dev.old) (mark_events (trap_number kind)) (P.device dev.new) }
    ensures off { (P.device dev.old).on ≡ false → result ≡ LogAnswer.Off }
    ensures same { (P.device dev.old).on ≡ false → P.device dev.new ≡ P.device dev.old }
    ensures lines { (P.device dev.new).lines ≡ (P.device dev.old).lines }
{
    let None = dev.load(MARK) else {
        return LogAnswer::of(play_mark(dev, kind.number()));
    };
    LogAnswer::Off
}
