//! The digest of a program's text.

ghost use Rattle.std.specs.Prelude.{◌≡◌};
ghost use Rattle.pool_layout.specs.Digest.{digest_of};

use crate::bytes::word_in;
use sha2::{Digest, Sha256};

/// SHA-256 of the text as four words, each of eight bytes in order, the lowest byte first.
pub fn digest(text: &[u8]) -> [i64; 4]
    ensures { result ≡ digest_of text.now }
{
    let bytes = Sha256::digest(text);
    [
        word_in(&bytes, 0),
        word_in(&bytes, 1),
        word_in(&bytes, 2),
        word_in(&bytes, 3),
    ]
}
