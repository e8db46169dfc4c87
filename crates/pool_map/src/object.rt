//! What a slot may hold.

ghost use Rattle.std.specs.Prelude.{◌≡◌, IfOk, pos, replicate};
ghost use Rattle.pool_map.specs.PoolMap.{blank_object};

use nvm_base::Words;
use std::alloc::{AllocError, Global};

/// An object in a slot.
#[derive(Drop)]
pub struct Object {
    /// The number of its struct, from 1 on.
    pub kind: u32,
    /// Its field words.
    pub fields: Words,
}

/// Words that are all 0.
pub(crate) fn zeros(alloc: Global, words: u64) -> Result<Words, AllocError>
    ensures { IfOk result (λ all. all ≡ replicate words (pos 0)) }
{
    let mut all = Words::new(alloc);
    for _ in 0..words {
        all.push(0)?;
    }
    Ok(all)
}

/// A copy of the words.
pub(crate) fn copied(alloc: Global, words: &Words) -> Result<Words, AllocError>
    ensures { IfOk result (λ all. all ≡ words.now) }
{
    let mut all = Words::new(alloc);
    for word in words.as_slice() {
        all.push(*word)?;
    }
    Ok(all)
}
