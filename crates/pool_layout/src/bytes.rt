//! Words as bytes: eight bytes to a word, the lowest first.

ghost use Rattle.std.specs.Prelude.{◌≡◌, ◌≤◌, ◌+◌, ◌*◌, ◌++◌, IfOk, OnOk, length, take};
ghost use Rattle.pool_layout.specs.Bytes as bytes_are;

use nvm_base::Bytes;
use std::alloc::{AllocError, Global};

/// The bytes of an image: those of each word, in order, and nothing else.
pub fn image_bytes(alloc: Global, words: &[i64]) -> Result<Bytes, AllocError>
    ensures { IfOk result (λ bytes. bytes ≡ bytes_are.bytes_of words.now) }
{
    let mut bytes = Bytes::new(alloc);
    for word in words {
        push_word(&mut bytes, *word)?;
    }
    Ok(bytes)
}

#[tactic(auto, unfolding(crate::specs::Bytes::bytes_of_word))]
fn push_word(bytes: &mut Bytes, word: i64) -> Result<(), AllocError>
    ensures { OnOk result (bytes.new ≡ bytes.old ++ bytes_are.bytes_of_word word) }
{
    bytes.extend(&word.to_le_bytes())
}

/// Puts the bytes of a word at place `k` of a piece of words.
#[tactic(auto, using(crate::proofs::Words::put_bytes), unfolding(crate::specs::Bytes::bytes_of_word))]
pub fn put_word(piece: &mut [u8], k: usize, word: i64)
    requires { 8 * k + 8 ≤ length piece.old }
    ensures put { take (8 * (k + 1)) piece.new
        ≡ take (8 * k) piece.old ++ bytes_are.bytes_of_word word }
    ensures length { length piece.new ≡ length piece.old }
{
    let at = 8 * k;
    piece[at..at + 8].copy_from_slice(&word.to_le_bytes());
}

/// Word `k` of these bytes.
#[tactic(auto, unfolding(crate::specs::Bytes::word_from))]
pub fn word_in(bytes: &[u8], k: u64) -> i64
    requires { 8 * k + 8 ≤ length bytes.now }
    ensures { result ≡ bytes_are.word_in bytes.now k }
{
    let at = (8 * k) as usize;
    i64::from_le_bytes([
        bytes[at],
        bytes[at + 1],
        bytes[at + 2],
        bytes[at + 3],
        bytes[at + 4],
        bytes[at + 5],
        bytes[at + 6],
        bytes[at + 7],
    ])
}
