//! What a recovery finds in a pool.

ghost use Rattle.std.specs.Prelude.{◌≡◌, ◌≤◌, ◌<◌, ℕ, ℤ, List, length, true, false};
ghost use Rattle.cache_model.specs.Cache.{view};
ghost use Rattle.pool_layout.specs.Sizes.{pool_lines};
ghost use Rattle.recovery.specs.Found.{IsOpen, Finds};

use args_log::{PendingAnswer, pending};
use clobber_log::{attempt, count};
use pm_machine::Image;
use pmem::PmemWork;
use pool_layout::{ARGUMENTS, MARK, NUMBER_LIMIT};
use pool_map::TrapKind;
use tx_run::marked_kind;

/// The content of a pool after a power cut.
#[derive(Clone, Copy, Drop)]
pub enum Found {
    Off,
    Unusable(TrapKind),
    /// Its records can't be restored, or its argument record names no transaction of the image.
    Numbers,
    /// No call was cut after its seal; `count` records are valid.
    Unsealed {
        count: u64,
    },
    /// A call was cut after its seal. `count` records are valid.
    Sealed {
        tx: u64,
        args: [i64; ARGUMENTS],
        count: u64,
    },
}

/// The content of the pool's argument record, if `count` records are valid.
fn record<P: PmemWork>(image: &Image, dev: &P, count: u64) -> Found
    requires lines { (P.device dev.now).lines ≡ pool_lines image.now.parts.sizes }
    requires few { count ≤ image.now.parts.sizes.records }
    requires open { IsOpen image.now count (view (P.device dev.now).cache) }
    ensures found { (P.device dev.now).on ≡ true
        → Finds result image.now (view (P.device dev.now).cache) }
    ensures off { (P.device dev.now).on ≡ false → result ≡ Found.Off }
    ensures names { (tx n : ℕ) (args : List ℤ) → result ≡ Found.Sealed tx args n
        → (1 ≤ tx) × (tx ≤ length image.now.parts.txs) × (n ≤ image.now.parts.sizes.records) }
{
    match pending(dev) {
        PendingAnswer::Off => Found::Off,
        PendingAnswer::Nothing => Found::Unsealed { count },
        PendingAnswer::Sealed { tx, args } => {
            if tx < 1 || image.txs() < tx {
                return Found::Numbers;
            }
            Found::Sealed { tx, args, count }
        }
    }
}

/// Checks the mark first, then the numbers, then the argument record. It plays no event.
pub fn look<P: PmemWork>(image: &Image, dev: &P) -> Found
    requires lines { (P.device dev.now).lines ≡ pool_lines image.now.parts.sizes }
    ensures found { (P.device dev.now).on ≡ true
        → Finds result image.now (view (P.device dev.now).cache) }
    ensures off { (P.device dev.now).on ≡ false → result ≡ Found.Off }
    ensures names { (tx n : ℕ) (args : List ℤ) → result ≡ Found.Sealed tx args n
        → (1 ≤ tx) × (tx ≤ length image.now.parts.txs) × (n ≤ image.now.parts.sizes.records) }
{
    let Some(mark) = dev.load(MARK) else {
        return Found::Off;
    };
    if mark != 0 {
        return Found::Unusable(marked_kind(mark));
    }
    let Some(attempt) = attempt(image.sizes(), dev) else {
        return Found::Off;
    };
    let Some(count) = count(image.sizes(), dev, attempt) else {
        return Found::Off;
    };
    if count != 0 && attempt >= NUMBER_LIMIT {
        return Found::Numbers;
    }
    record(image, dev, count)
}
