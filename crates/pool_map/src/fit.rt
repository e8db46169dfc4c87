//! Whether a pool has the words that the shapes ask for.

ghost use Rattle.std.specs.Prelude.{◌≡◌, ◌==◌, length};
ghost use Rattle.std.specs.Bool.{Decides};
ghost use Rattle.std.specs.List.{list_all};
ghost use Rattle.pool_map.specs.PoolFits.{words_of, struct_at, PoolFits};
ghost use Rattle.pool_map.specs.inside.PoolFits.{object_fits, slot_fits, pool_fits};

use crate::object::Object;
use crate::pool::Pool;
use crate::shapes::{FieldShape, Shapes, StructShape};

/// Whether the pool fits the shapes. It takes no memory.
#[tactic(auto, using(crate::proofs::FitTests::decides))]
pub fn fits(shapes: &Shapes, pool: &Pool) -> bool
    ensures { Decides result (PoolFits shapes.now pool.now) }
{
    pool_fits(shapes, pool)
}

fn pool_fits(shapes: &Shapes, pool: &Pool) -> bool
    ensures { result ≡ pool_fits shapes.now pool.now }
{
    has_words(shapes.root.as_slice(), pool.root_words())
        && slots_fit(shapes.structs.as_slice(), pool.slots())
}

fn slots_fit(structs: &[StructShape], slots: &[Option<Object>]) -> bool
    ensures { result ≡ list_all (slot_fits structs.now) slots.now }
{
    for slot in slots {
        if let Some(object) = slot {
            if !object_fits(structs, object) {
                return false;
            }
        }
    }
    true
}

fn object_fits(structs: &[StructShape], object: &Object) -> bool
    ensures { result ≡ object_fits structs.now object.now }
{
    if object.kind == 0 {
        return false;
    }
    match structs.get((object.kind - 1) as usize) {
        Some(shape) => has_words(shape.fields.as_slice(), object.fields.as_slice()),
        None => false,
    }
}

/// Whether there are as many words as the fields have.
fn has_words(fields: &[FieldShape], words: &[i64]) -> bool
    ensures { result ≡ (length words.now == words_of fields.now) }
{
    let mut left = words.len() as u64;
    for field in fields {
        let own = field.words();
        if own > left {
            return false;
        }
        left -= own;
    }
    left == 0
}
