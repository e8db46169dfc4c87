//! How wide the slots of a program's pools are.

ghost use Rattle.std.specs.Prelude.{◌≡◌, ◌≤◌, min};
ghost use Rattle.pool_map.specs.PoolFits.{words_of};
ghost use Rattle.pool_map.specs.Width.{most_words, slot_words};
ghost use Rattle.pool_map.specs.declared.limits.TheConstants.{OBJECT_WORDS, MOST_SLOT};

use crate::limits::{LEAST_SLOT, MOST_SLOT, OBJECT_WORDS};
use crate::shapes::{FieldShape, StructShape};

/// How many words the fields have, at most those of the largest object.
fn words_of(fields: &[FieldShape]) -> u64
    ensures { result ≡ min (words_of fields.now) OBJECT_WORDS }
{
    let mut words = 0u64;
    for field in fields {
        words = words.saturating_add(field.words());
    }
    words.min(OBJECT_WORDS)
}

/// How many words the largest struct has, at most those of the largest object.
fn most_words(structs: &[StructShape]) -> u64
    ensures value { result ≡ min (most_words structs.now) OBJECT_WORDS }
    ensures few { result ≤ OBJECT_WORDS }
{
    let mut most = 0u64;
    for shape in structs {
        most = most.max(words_of(shape.fields.as_slice()));
    }
    most
}

/// The words of a slot of a program with these structs. It takes no memory.
pub fn slot_words(structs: &[StructShape]) -> u64
    ensures value { result ≡ slot_words structs.now }
    ensures most { result ≤ MOST_SLOT }
{
    (8 * ((most_words(structs) + 8) / 8))
        .max(LEAST_SLOT)
        .min(MOST_SLOT)
}
