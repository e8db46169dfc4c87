//! The functions that wait for a sweep: those whose entry grew since the last one.

ghost use Rattle.std.specs.Prelude.{◌≡◌, ◌<◌, ℕ, [], true, false, length, slice_set, IfOk};
ghost use Rattle.clobber_pass.specs.Sweep as sweeps;
ghost use Rattle.clobber_pass.specs.inside.Flow.{waits};

use crate::rows::Rows;
use std::alloc::{AllocError, Global};

/// The functions that have to be swept, at the start: each whose entry has a row.
pub fn waiting_at(alloc: Global, entries: &Rows, count: usize) -> Result<Vec<bool>, AllocError>
    ensures size { IfOk result (λ waiting. length waiting.items ≡ count) }
    ensures others { IfOk result (λ waiting. (f : ℕ) → waits waiting.items f ≡ false
        → sweeps.row_in entries.now f ≡ []) }
{
    let mut waiting = Vec::new(alloc);
    for function in 0..count {
        waiting.push(!entries.row(function).is_empty())?;
    }
    Ok(waiting)
}

/// Notes that a function has to be swept again.
#[tactic(auto, using(crate::proofs::bits::Bits::set_past))]
pub fn wake(waiting: &mut [bool], function: usize)
    ensures { waiting.new ≡ slice_set waiting.old function true }
{
    if function < waiting.len() {
        waiting[function] = true;
    }
}
