//! The end of an attempt.

ghost use Rattle.std.specs.Prelude.{◌≡◌, ◌≤◌, ◌-◌, ◌^◌, OnOk, IfErr, true, false};
ghost use Rattle.cache_model.specs.Cache.{view};
ghost use Rattle.pmem.specs.Played.{PlaysAll, PlaysPart, Played};
ghost use Rattle.pool_layout.specs.Sizes.{pool_lines};
ghost use Rattle.clobber_log.specs.Reset.{reset_events};
ghost use Rattle.clobber_log.specs.Logs.{attempt_in};

use crate::valid::attempt;
use pmem::events::{fence, flush, store};
use pmem::{LogAnswer, PmemWork, Refusal};
use pool_layout::{ATTEMPT, Sizes};

/// Begins the attempt after `attempt`: three events.
fn begin_next<P: PmemWork>(sizes: &Sizes, dev: &mut P, attempt: u64) -> Result<(), Refusal>
    requires attempt { attempt ≤ 2 ^ 63 - 2 }
    requires lines { (P.device dev.old).lines ≡ pool_lines sizes.now }
    ensures done { OnOk result (PlaysAll (P.device dev.old) (reset_events sizes.now attempt)
        (P.device dev.new)) }
    ensures refused { IfErr result
        (λ why. PlaysPart why (P.device dev.old) (reset_events sizes.now attempt)
        (P.device dev.new)) }
    ensures lines { (P.device dev.new).lines ≡ (P.device dev.old).lines }
{
    store(dev, ATTEMPT, (attempt + 1) as i64)?;
    flush(dev, 2)?;
    fence(dev)
}

/// Ends the attempt, so that no record is valid any more: three events. On a device that is off the
/// answer is `Off`, and nothing has changed.
pub fn reset<P: PmemWork>(sizes: &Sizes, dev: &mut P) -> LogAnswer
    requires lines { (P.device dev.old).lines ≡ pool_lines sizes.now }
    ensures played { (P.device dev.old).on ≡ true
        → Played result (P.device dev.old)
        (reset_events sizes.now (attempt_in sizes.now (view (P.device dev.old).cache)))
        (P.device dev.new) }
    ensures off { (P.device dev.old).on ≡ false → result ≡ LogAnswer.Off }
    ensures same { (P.device dev.old).on ≡ false → P.device dev.new ≡ P.device dev.old }
    ensures lines { (P.device dev.new).lines ≡ (P.device dev.old).lines }
{
    match attempt(sizes, dev) {
        None => LogAnswer::Off,
        Some(attempt) => LogAnswer::of(begin_next(sizes, dev, attempt)),
    }
}
