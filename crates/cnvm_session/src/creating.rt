//! Creates a new pool.

ghost use Rattle.std.specs.Prelude.{◌≡◌, ◌≢◌, ◌≤◌, OnOk, IfErr, IsErrOf};
ghost use Rattle.pmem.specs.Device.{FaultsRose, blanked};
ghost use Rattle.pmem.specs.Played.{PlaysAll, PlaysPart};
ghost use Rattle.pool_layout.specs.Sizes as sizes_of;
ghost use Rattle.args_log.specs.Created.{sizes_events, digest_events, head_events, creation_events};
ghost use Rattle.cnvm_session.specs.Unmade.{cause_of, IsUnmade};

use pmem::events::{fence, flush, store};
use pmem::{Pmem, PmemWork, Refusal};
use pool_layout::{Sizes, magic, pool_lines};

/// Why a pool couldn't be created or opened.
#[derive(Clone, Copy, Drop)]
pub enum StartFault {
    /// The device failed at an event.
    Failed,
    NoMemory,
}

impl StartFault {
    /// The cause of a refusal by a device that is on.
    pub(crate) fn of(refusal: Refusal) -> StartFault
        requires on { refusal ≢ Refusal.Off }
        ensures { cause_of result ≡ refusal }
    {
        match refusal {
            Refusal::NoMemory => StartFault::NoMemory,
            Refusal::Failed | Refusal::Off => StartFault::Failed,
        }
    }
}

/// Stores the words of the first line.
#[tactic(auto, unfolding(args_log::specs::Created::sizes_events))]
fn store_sizes<P: PmemWork>(sizes: &Sizes, dev: &mut P) -> Result<(), Refusal>
    requires { 6 ≤ (P.device dev.old).lines }
    ensures done { OnOk result (PlaysAll (P.device dev.old) (sizes_events sizes.now)
        (P.device dev.new)) }
    ensures refused { IfErr result (λ why. PlaysPart why (P.device dev.old) (sizes_events sizes.now)
        (P.device dev.new)) }
    ensures lines { (P.device dev.new).lines ≡ (P.device dev.old).lines }
{
    store(dev, 0, magic())?;
    store(dev, 1, 2)?;
    store(dev, 2, sizes.slots() as i64)?;
    store(dev, 3, sizes.records() as i64)?;
    store(dev, 4, sizes.root_words() as i64)?;
    store(dev, 5, sizes.ticks() as i64)
}

/// Stores the words of the second line.
#[tactic(auto, unfolding(args_log::specs::Created::digest_events))]
pub(crate) fn store_digest<P: PmemWork>(digest: &[i64; 4], dev: &mut P) -> Result<(), Refusal>
    requires { 6 ≤ (P.device dev.old).lines }
    ensures done { OnOk result (PlaysAll (P.device dev.old) (digest_events digest.now)
        (P.device dev.new)) }
    ensures refused { IfErr result
        (λ why. PlaysPart why (P.device dev.old) (digest_events digest.now) (P.device dev.new)) }
    ensures lines { (P.device dev.new).lines ≡ (P.device dev.old).lines }
{
    store(dev, 8, digest[0])?;
    store(dev, 9, digest[1])?;
    store(dev, 10, digest[2])?;
    store(dev, 11, digest[3])
}

/// Makes the first two lines durable.
fn settle<P: PmemWork>(dev: &mut P) -> Result<(), Refusal>
    requires { 6 ≤ (P.device dev.old).lines }
    ensures done { OnOk result (PlaysAll (P.device dev.old) head_events (P.device dev.new)) }
    ensures refused { IfErr result
        (λ why. PlaysPart why (P.device dev.old) head_events (P.device dev.new)) }
    ensures lines { (P.device dev.new).lines ≡ (P.device dev.old).lines }
{
    flush(dev, 0)?;
    flush(dev, 1)?;
    fence(dev)
}

/// Plays the events that create a pool.
#[tactic(auto, using(pmem::proofs::Glue::all_append, pmem::proofs::Glue::part_left, pmem::proofs::Glue::part_right))]
fn play_creation<P: PmemWork>(sizes: &Sizes, digest: &[i64; 4], dev: &mut P) -> Result<(), Refusal>
    requires { 6 ≤ (P.device dev.old).lines }
    ensures done { OnOk result (PlaysAll (P.device dev.old) (creation_events sizes.now digest.now)
        (P.device dev.new)) }
    ensures refused { IfErr result
        (λ why. PlaysPart why (P.device dev.old) (creation_events sizes.now digest.now)
        (P.device dev.new)) }
    ensures lines { (P.device dev.new).lines ≡ (P.device dev.old).lines }
{
    store_sizes(sizes, dev)?;
    store_digest(digest, dev)?;
    settle(dev)
}

/// Creates a pool of these sizes on blank lines, for the program with this digest.
pub fn create_pool<P: Pmem>(sizes: &Sizes, digest: &[i64; 4], dev: &mut P) -> Result<(), StartFault>
    ensures done { OnOk result (PlaysAll
        (blanked (sizes_of.pool_lines sizes.now) (P.device dev.old))
        (creation_events sizes.now digest.now) (P.device dev.new)) }
    ensures lines { OnOk result ((P.device dev.new).lines ≡ sizes_of.pool_lines sizes.now) }
    ensures refused { IfErr result (λ why. IsUnmade why (sizes_of.pool_lines sizes.now)
        (creation_events sizes.now digest.now) (P.device dev.old) (P.device dev.new)) }
    ensures failed { IsErrOf result StartFault.Failed
        → FaultsRose (P.device dev.old).faults (P.device dev.new).faults }
{
    if let Err(_) = dev.blank(pool_lines(sizes)) {
        return Err(StartFault::NoMemory);
    }
    match play_creation(sizes, digest, dev) {
        Ok(()) => Ok(()),
        Err(refusal) => Err(StartFault::of(refusal)),
    }
}
