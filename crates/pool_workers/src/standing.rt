//! Whether the pool of a compartment takes a transaction.

ghost use Rattle.std.specs.Prelude.{◌≡◌, ◌<◌, ◌+◌, ◌*◌, ◌≤◌, ◌^◌, true, false, nat_lt, IfSome};
ghost use Rattle.std.specs.Prelude.{IsSome, IsNone};
ghost use Rattle.cache_model.specs.Cache.{view};
ghost use Rattle.pool_layout.specs.Sizes.{pool_lines};
ghost use Rattle.tx_run.specs.Standing as standing_law;
ghost use Rattle.pool_workers.specs.Compartment.{first_line, cache_in};

use crate::window::first_line;
use pmem::PmemWork;
use pool_layout::{ATTEMPT, DONE, MARK, Sizes};
use tx_run::{Standing, is_number, marked_kind};

/// A word of a compartment, counted from its first.
fn load_at<P: PmemWork>(sizes: &Sizes, worker: u32, dev: &P, word: u64) -> Option<i64>
    requires worker { worker < 8 }
    requires word { word < 48 }
    requires inside { first_line sizes.now worker + pool_lines sizes.now
        ≤ (P.device dev.now).lines }
    ensures value { IfSome result (λ v. v ≡
        view (cache_in (first_line sizes.now worker) (pool_lines sizes.now)
        (P.device dev.now).cache) word) }
    ensures on { IsSome result → (P.device dev.now).on ≡ true }
    ensures off { IsNone result → (P.device dev.now).on ≡ false }
{
    dev.load(8 * first_line(sizes, worker) + word)
}

/// Whether the compartment takes a transaction: checks its mark, its number of finished calls and
/// its attempt, in this order.
pub(crate) fn assess_at<P: PmemWork>(sizes: &Sizes, worker: u32, dev: &P) -> Standing
    requires worker { worker < 8 }
    requires inside { first_line sizes.now worker + pool_lines sizes.now
        ≤ (P.device dev.now).lines }
    ensures on { (P.device dev.now).on ≡ true →
        result ≡ standing_law.standing_of
        (view (cache_in (first_line sizes.now worker) (pool_lines sizes.now)
        (P.device dev.now).cache)) }
    ensures off { (P.device dev.now).on ≡ false → result ≡ Standing.Off }
{
    let Some(mark) = load_at(sizes, worker, dev, MARK) else {
        return Standing::Off;
    };
    if mark != 0 {
        return Standing::Unusable(marked_kind(mark));
    }
    let Some(done) = load_at(sizes, worker, dev, DONE) else {
        return Standing::Off;
    };
    let Some(attempt) = load_at(sizes, worker, dev, ATTEMPT) else {
        return Standing::Off;
    };
    if is_number(done) && is_number(attempt) {
        Standing::Ready
    } else {
        Standing::Numbers
    }
}
