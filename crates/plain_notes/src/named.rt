//! The name of a transaction among the tokens of a program.

use crate::spelled::{is, word_at};

/// The name of the transaction of this number, counted from 1 in the order of the text; an empty
/// one if there is none.
pub fn transaction_name<'a>(words: &[&'a [u8]], number: u64) -> &'a [u8] {
    let mut left = number;
    for (at, word) in words.iter().enumerate() {
        if is(word, "tx") {
            left = left.saturating_sub(1);
        } else if left == 0 && number > 0 && is(word, "(") {
            return before(words, at, 1);
        }
    }
    b""
}

/// The word `count` places earlier.
fn before<'a>(words: &[&'a [u8]], at: usize, count: usize) -> &'a [u8] {
    match at.checked_sub(count) {
        Some(at) => word_at(words, at),
        None => b"",
    }
}
