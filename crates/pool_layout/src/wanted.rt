//! The pool that an image must be of, and the reasons for which it may be refused.

ghost use Rattle.std.specs.Prelude.{◌≡◌};
ghost use Rattle.pool_layout.specs.declared.wanted.ImageFault.TheVariants.{NoMemory};

use crate::limits::Sizes;
use std::alloc::AllocError;

/// The pool that an image must be of: its sizes, the digest of its program's text, and the numbers
/// of the program's transactions and structs.
#[derive(Clone, Copy)]
pub struct Wanted {
    pub sizes: Sizes,
    pub digest: [i64; 4],
    pub txs: u64,
    pub structs: u64,
}

/// Why an image is refused: the first of these that applies, with the value found and the value
/// wanted. `Content` has the least word that breaks a rule of content, and its value.
#[derive(Clone, Copy, Debug, PartialEq, Eq)]
pub enum ImageFault {
    Short(u64, u64),
    Magic(i64, i64),
    Version(i64, i64),
    Sizes(i64, i64),
    Digest([i64; 4], [i64; 4]),
    Content(u64, i64),
    NoMemory,
}

impl From<AllocError> for ImageFault {
    ghost from_gives = { λ _ fault. fault ≡ NoMemory };

    fn from(_: AllocError) -> Self {
        ImageFault::NoMemory
    }
}
