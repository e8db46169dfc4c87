//! The number of valid records at the log's beginning.

ghost use Rattle.std.specs.Prelude.{◌≡◌, ◌-◌, ◌*◌, ◌+◌, ◌^◌, ◌<◌, ◌≤◌, true, false, IfSome, IsSome};
ghost use Rattle.std.specs.Prelude.{IsNone};
ghost use Rattle.cache_model.specs.Cache.{view};
ghost use Rattle.pool_layout.specs.Sizes.{pool_lines};
ghost use Rattle.pool_layout.specs.Places.{at, pool_of};
ghost use Rattle.pool_layout.specs.declared.places.Place.TheVariants.{RecordStamp};
ghost use Rattle.clobber_log.specs.Logs.{attempt_of, attempt_in};
ghost use Rattle.pool_layout.specs.Log.{count};

use pmem::PmemWork;
use pool_layout::{ATTEMPT, Sizes};

/// The greatest attempt whose stamp, which is one more, fits a word.
const MOST: u64 = 9223372036854775806;

/// The stamp of record `i`, or `None` while the device is off.
fn stamp<P: PmemWork>(sizes: &Sizes, dev: &P, i: u64) -> Option<i64>
    requires room { i < sizes.now.records }
    requires lines { (P.device dev.now).lines ≡ pool_lines sizes.now }
    ensures value { IfSome result (λ x.
        x ≡ view (P.device dev.now).cache (at (pool_of sizes.now) (RecordStamp i))) }
    ensures off { IsNone result → (P.device dev.now).on ≡ false }
{
    dev.load(8 * (6 + i) + 2)
}

/// The number of valid records before the first that isn't, or `None` while the device is off. It
/// reads no stamp after that one.
#[tactic(auto, unfolding(pool_layout::specs::Log::count))]
pub fn count<P: PmemWork>(sizes: &Sizes, dev: &P, attempt: u64) -> Option<u64>
    requires lines { (P.device dev.now).lines ≡ pool_lines sizes.now }
    requires attempt { attempt ≤ 2 ^ 63 - 2 }
    ensures value { IfSome result (λ n.
        n ≡ count (pool_of sizes.now) attempt (view (P.device dev.now).cache)) }
    ensures few { IfSome result (λ n. n ≤ sizes.now.records) }
    ensures off { IsNone result → (P.device dev.now).on ≡ false }
{
    let valid = (attempt + 1) as i64;
    for i in 0..sizes.records() {
        if stamp(sizes, dev, i)? != valid {
            return Some(i);
        }
    }
    Some(sizes.records())
}

/// A word as the number of an attempt. A word that is no attempt, which a pool never holds, counts
/// as the greatest.
fn attempt_of(word: i64) -> u64
    ensures value { result ≡ attempt_of word }
    ensures fits { result ≤ 2 ^ 63 - 2 }
{
    match u64::try_from(word) {
        Ok(number) => { if number < MOST { number } else { MOST } }
        Err(_) => MOST,
    }
}

/// The attempt of a pool, or `None` while the device is off.
pub fn attempt<P: PmemWork>(sizes: &Sizes, dev: &P) -> Option<u64>
    requires lines { (P.device dev.now).lines ≡ pool_lines sizes.now }
    ensures value { IfSome result (λ a. a ≡ attempt_in sizes.now (view (P.device dev.now).cache)) }
    ensures fits { IfSome result (λ a. a ≤ 2 ^ 63 - 2) }
    ensures on { IsSome result → (P.device dev.now).on ≡ true }
    ensures off { IsNone result → (P.device dev.now).on ≡ false }
{
    match dev.load(ATTEMPT) {
        Some(word) => Some(attempt_of(word)),
        None => None,
    }
}
