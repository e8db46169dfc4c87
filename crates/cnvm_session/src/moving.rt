//! Makes a pool one of another program, whose pools have the same shapes.

ghost use Rattle.std.specs.Prelude.{◌≡◌, ◌≤◌, OnOk, IfErr};
ghost use Rattle.pmem.specs.Played.{PlaysAll, PlaysPart};
ghost use Rattle.cnvm_session.specs.Moving.{moving_events, safe_events};

use crate::creating::store_digest;
use pmem::events::{fence, flush};
use pmem::{PmemWork, Refusal};

/// The line of the digest.
const DIGEST_LINE: u64 = 1;

/// Makes the line of the digest durable.
fn settle_digest<P: PmemWork>(dev: &mut P) -> Result<(), Refusal>
    requires { 6 ≤ (P.device dev.old).lines }
    ensures done { OnOk result (PlaysAll (P.device dev.old) safe_events (P.device dev.new)) }
    ensures refused { IfErr result
        (λ why. PlaysPart why (P.device dev.old) safe_events (P.device dev.new)) }
    ensures lines { (P.device dev.new).lines ≡ (P.device dev.old).lines }
{
    flush(dev, DIGEST_LINE)?;
    fence(dev)
}

/// Gives the pool on the device this digest, and makes it durable.
#[tactic(auto, using(pmem::proofs::Glue::all_append, pmem::proofs::Glue::part_left, pmem::proofs::Glue::part_right))]
pub fn move_pool<P: PmemWork>(digest: &[i64; 4], dev: &mut P) -> Result<(), Refusal>
    requires { 6 ≤ (P.device dev.old).lines }
    ensures done { OnOk result (PlaysAll (P.device dev.old) (moving_events digest.now)
        (P.device dev.new)) }
    ensures refused { IfErr result
        (λ why. PlaysPart why (P.device dev.old) (moving_events digest.now) (P.device dev.new)) }
    ensures lines { (P.device dev.new).lines ≡ (P.device dev.old).lines }
{
    store_digest(digest, dev)?;
    settle_digest(dev)
}
