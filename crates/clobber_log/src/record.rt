//! One undo record of the log.

ghost use Rattle.std.specs.Prelude.{◌≡◌, ◌-◌, ◌+◌, ◌*◌, ◌^◌, ◌<◌, ◌≤◌, true, OnOk, IfErr};
ghost use Rattle.cache_model.specs.Cache.{view};
ghost use Rattle.pmem.specs.Played.{PlaysAll, PlaysPart};
ghost use Rattle.pool_layout.specs.Sizes.{pool_lines, heap_words};
ghost use Rattle.pool_layout.specs.Places.{at, pool_of};
ghost use Rattle.pool_layout.specs.declared.places.Place.TheVariants.{Heap};
ghost use Rattle.clobber_log.specs.Record.{record_events};

use pmem::events::{fence, flush, store};
use pmem::{PmemWork, Refusal};
use pool_layout::{Sizes, heap_start};

/// Appends record `i`, which keeps the old value of a heap word, stamped for the attempt after
/// `attempt`: five events.
pub fn append_record<P: PmemWork>(
    sizes: &Sizes,
    dev: &mut P,
    i: u64,
    attempt: u64,
    heap_word: u64,
) -> Result<(), Refusal>
    requires room { i < sizes.now.records }
    requires attempt { attempt ≤ 2 ^ 63 - 2 }
    requires inside { heap_word < heap_words sizes.now }
    requires lines { (P.device dev.old).lines ≡ pool_lines sizes.now }
    requires on { (P.device dev.old).on ≡ true }
    ensures done { OnOk result (PlaysAll (P.device dev.old)
        (record_events sizes.now i heap_word
        (view (P.device dev.old).cache (at (pool_of sizes.now) (Heap heap_word))) (attempt + 1))
        (P.device dev.new)) }
    ensures refused { IfErr result
        (λ why. PlaysPart why (P.device dev.old)
        (record_events sizes.now i heap_word
        (view (P.device dev.old).cache (at (pool_of sizes.now) (Heap heap_word))) (attempt + 1))
        (P.device dev.new)) }
    ensures lines { (P.device dev.new).lines ≡ (P.device dev.old).lines }
{
    let Some(old) = dev.load(heap_start(sizes) + heap_word) else {
        return Err(Refusal::Off);
    };
    let first = 8 * (6 + i);
    store(dev, first, heap_word as i64)?;
    store(dev, first + 1, old)?;
    store(dev, first + 2, (attempt + 1) as i64)?;
    flush(dev, 6 + i)?;
    fence(dev)
}
