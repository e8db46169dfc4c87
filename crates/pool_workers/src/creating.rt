//! A new pool of compartments.

ghost use Rattle.std.specs.Prelude.{◌≡◌, ◌≤◌, ◌<◌, ◌+◌, ◌*◌, ◌^◌, [], ◌∷◌, ◌++◌, None, replicate};
ghost use Rattle.std.specs.Prelude.{OnOk, IfOk, IfErr, IsErrOf};
ghost use Rattle.cache_model.specs.Event.{Store, Flush};
ghost use Rattle.pmem.specs.Device.{FaultsRose, blanked};
ghost use Rattle.pmem.specs.Played.{PlaysAll, PlaysPart};
ghost use Rattle.pool_layout.specs.Sizes as sizes_of;
ghost use Rattle.args_log.specs.Created.{sizes_events, digest_events, head_events};
ghost use Rattle.pool_workers.specs.Compartment.{first_line};
ghost use Rattle.pool_workers.specs.Making.{lifted_all, creations, Unmade};
ghost use Rattle.pool_workers.specs.inside.Making.{parts_at};

use crate::answer::MakeFault;
use crate::task::Task;
use crate::window::first_line;
use pmem::events::{fence, flush, store};
use pmem::{Pmem, PmemWork, Refusal};
use pool_layout::{Sizes, magic, pool_lines};
use std::alloc::{AllocError, Global};

/// Stores in the compartment that begins at line `first`.
fn put<P: PmemWork>(dev: &mut P, first: u64, word: u64, value: i64) -> Result<(), Refusal>
    requires small { first ≤ 2 ^ 30 }
    requires lines { first + 6 ≤ (P.device dev.old).lines }
    requires word { word < 48 }
    ensures done { OnOk result
        (PlaysAll (P.device dev.old) (Store (8 * first + word) value ∷ []) (P.device dev.new)) }
    ensures refused { IfErr result (λ why.
        PlaysPart why (P.device dev.old) (Store (8 * first + word) value ∷ [])
        (P.device dev.new)) }
    ensures lines { (P.device dev.new).lines ≡ (P.device dev.old).lines }
{
    store(dev, 8 * first + word, value)
}

/// Flushes in the compartment that begins at line `first`.
fn flush_in<P: PmemWork>(dev: &mut P, first: u64, line: u64) -> Result<(), Refusal>
    requires small { first ≤ 2 ^ 30 }
    requires lines { first + 6 ≤ (P.device dev.old).lines }
    requires line { line < 6 }
    ensures done { OnOk result
        (PlaysAll (P.device dev.old) (Flush (first + line) ∷ []) (P.device dev.new)) }
    ensures refused { IfErr result (λ why.
        PlaysPart why (P.device dev.old) (Flush (first + line) ∷ []) (P.device dev.new)) }
    ensures lines { (P.device dev.new).lines ≡ (P.device dev.old).lines }
{
    flush(dev, first + line)
}

/// The words of the first line.
#[tactic(auto, unfolding(args_log::specs::Created::sizes_events))]
fn store_sizes<P: PmemWork>(sizes: &Sizes, first: u64, dev: &mut P) -> Result<(), Refusal>
    requires small { first ≤ 2 ^ 30 }
    requires lines { first + 6 ≤ (P.device dev.old).lines }
    ensures done { OnOk result
        (PlaysAll (P.device dev.old) (lifted_all first (sizes_events sizes.now))
        (P.device dev.new)) }
    ensures refused { IfErr result (λ why.
        PlaysPart why (P.device dev.old) (lifted_all first (sizes_events sizes.now))
        (P.device dev.new)) }
    ensures lines { (P.device dev.new).lines ≡ (P.device dev.old).lines }
{
    put(dev, first, 0, magic())?;
    put(dev, first, 1, 2)?;
    put(dev, first, 2, sizes.slots() as i64)?;
    put(dev, first, 3, sizes.records() as i64)?;
    put(dev, first, 4, sizes.root_words() as i64)?;
    put(dev, first, 5, sizes.ticks() as i64)
}

/// The words of the second line.
#[tactic(auto, unfolding(args_log::specs::Created::digest_events))]
fn store_digest<P: PmemWork>(digest: &[i64; 4], first: u64, dev: &mut P) -> Result<(), Refusal>
    requires small { first ≤ 2 ^ 30 }
    requires lines { first + 6 ≤ (P.device dev.old).lines }
    ensures done { OnOk result
        (PlaysAll (P.device dev.old) (lifted_all first (digest_events digest.now))
        (P.device dev.new)) }
    ensures refused { IfErr result (λ why.
        PlaysPart why (P.device dev.old) (lifted_all first (digest_events digest.now))
        (P.device dev.new)) }
    ensures lines { (P.device dev.new).lines ≡ (P.device dev.old).lines }
{
    put(dev, first, 8, digest[0])?;
    put(dev, first, 9, digest[1])?;
    put(dev, first, 10, digest[2])?;
    put(dev, first, 11, digest[3])
}

/// Makes the first two lines durable.
fn settle<P: PmemWork>(first: u64, dev: &mut P) -> Result<(), Refusal>
    requires small { first ≤ 2 ^ 30 }
    requires lines { first + 6 ≤ (P.device dev.old).lines }
    ensures done { OnOk result
        (PlaysAll (P.device dev.old) (lifted_all first head_events) (P.device dev.new)) }
    ensures refused { IfErr result (λ why.
        PlaysPart why (P.device dev.old) (lifted_all first head_events) (P.device dev.new)) }
    ensures lines { (P.device dev.new).lines ≡ (P.device dev.old).lines }
{
    flush_in(dev, first, 0)?;
    flush_in(dev, first, 1)?;
    fence(dev)
}

/// Plays the events that create one compartment.
#[tactic(auto, using(pmem::proofs::Glue::all_append, pmem::proofs::Glue::part_left, pmem::proofs::Glue::part_right))]
fn create_at<P: PmemWork>(
    sizes: &Sizes,
    digest: &[i64; 4],
    first: u64,
    dev: &mut P,
) -> Result<(), Refusal>
    requires small { first ≤ 2 ^ 30 }
    requires lines { first + 6 ≤ (P.device dev.old).lines }
    ensures done { OnOk result
        (PlaysAll (P.device dev.old) (parts_at first sizes.now digest.now) (P.device dev.new)) }
    ensures refused { IfErr result (λ why.
        PlaysPart why (P.device dev.old) (parts_at first sizes.now digest.now)
        (P.device dev.new)) }
    ensures lines { (P.device dev.new).lines ≡ (P.device dev.old).lines }
{
    store_sizes(sizes, first, dev)?;
    store_digest(digest, first, dev)?;
    settle(first, dev)
}

/// Plays the events that create all compartments.
fn create_all<P: PmemWork>(
    sizes: &Sizes,
    digest: &[i64; 4],
    count: u32,
    dev: &mut P,
) -> Result<(), Refusal>
    requires count { count ≤ 8 }
    requires lines { (P.device dev.old).lines ≡ sizes_of.pool_lines sizes.now * count }
    ensures done { OnOk result
        (PlaysAll (P.device dev.old) (creations sizes.now digest.now 0 count)
        (P.device dev.new)) }
    ensures refused { IfErr result (λ why.
        PlaysPart why (P.device dev.old) (creations sizes.now digest.now 0 count)
        (P.device dev.new)) }
    ensures lines { (P.device dev.new).lines ≡ (P.device dev.old).lines }
{
    for worker in 0..count {
        if let Err(why) = create_at(sizes, digest, first_line(sizes, worker), dev) {
            return Err(why);
        }
    }
    Ok(())
}

/// Workers without a transaction.
pub(crate) fn idle(alloc: Global, count: u32) -> Result<Vec<Option<Task>>, AllocError>
    ensures { IfOk result (λ v. v.items ≡ replicate count None) }
{
    let mut tasks = Vec::new(alloc);
    for _ in 0..count {
        tasks.push(None)?;
    }
    Ok(tasks)
}

/// Creates `count` pools on blank lines. After a fault the events before it are done.
pub(crate) fn create_pools<P: Pmem>(
    sizes: &Sizes,
    digest: &[i64; 4],
    count: u32,
    dev: &mut P,
) -> Result<(), MakeFault>
    requires count { count ≤ 8 }
    ensures done { OnOk result
        (PlaysAll (blanked (sizes_of.pool_lines sizes.now * count) (P.device dev.old))
        (creations sizes.now digest.now 0 count) (P.device dev.new)) }
    ensures lines { OnOk result ((P.device dev.new).lines ≡ sizes_of.pool_lines sizes.now * count) }
    ensures refused { IfErr result (λ why. Unmade why sizes.now digest.now count (P.device dev.old)
        (P.device dev.new)) }
    ensures failed { IsErrOf result MakeFault.Failed →
        FaultsRose (P.device dev.old).faults (P.device dev.new).faults }
{
    if let Err(_) = dev.blank(pool_lines(sizes) * u64::from(count)) {
        return Err(MakeFault::NoMemory);
    }
    match create_all(sizes, digest, count, dev) {
        Ok(()) => Ok(()),
        Err(Refusal::NoMemory) => Err(MakeFault::NoMemory),
        Err(Refusal::Failed) => Err(MakeFault::Failed),
        // This never happens: the device was switched on.
        Err(Refusal::Off) => Err(MakeFault::Failed),
    }
}
