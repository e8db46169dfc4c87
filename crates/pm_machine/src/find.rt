//! The search for the least free slot.

ghost use Rattle.std.specs.Prelude.{◌≡◌, ◌≤◌, true, IsSome, IfSome};
ghost use Rattle.pool_layout.specs.Sizes.{pool_lines};
ghost use Rattle.pool_map.specs.declared.limits.TheConstants.{SLOTS};
ghost use Rattle.pm_machine.specs.inside.Found.{least_on, looks_on};

use pmem::PmemWork;
use pool_layout::{Sizes, heap_start, slot_word};

/// A slot, or 0 if none is free, and the number of headers that the search loads.
#[derive(Clone, Copy)]
pub struct Found {
    pub slot: u64,
    pub looks: u64,
}

/// The least free slot of a pool. On a device that is on there is always an answer.
#[tactic(auto, using(crate::proofs::Searches::found_least, crate::proofs::Searches::found_looks))]
pub fn search<P: PmemWork>(dev: &mut P, sizes: &Sizes) -> Option<Found>
    requires lines { (P.device dev.old).lines ≡ pool_lines sizes.now }
    requires on { (P.device dev.old).on ≡ true }
    ensures some { IsSome result }
    ensures slot { IfSome result (λ f. f.slot ≡ least_on sizes.now (P.device dev.old)) }
    ensures small { IfSome result (λ f. f.slot ≤ SLOTS) }
    ensures looks { IfSome result (λ f. f.looks ≡ looks_on sizes.now (P.device dev.old)) }
    ensures same { P.device dev.new ≡ P.device dev.old }
{
    let slots = sizes.slots();
    let used = dev.first_zero(
        heap_start(sizes) + slot_word(sizes, 1),
        sizes.slot_words(),
        slots,
    )?;
    if used < slots {
        Some(Found {
            slot: used + 1,
            looks: used + 1,
        })
    } else {
        Some(Found {
            slot: 0,
            looks: slots,
        })
    }
}
