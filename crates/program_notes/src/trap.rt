//! The name of a transaction.

use crate::program::spelled;
use c_lexer::tokens;
use plain_notes::transaction_name;
use std::alloc::{AllocError, Global};

/// The name of the program's transaction of this number, counted from 1; an empty one if there is
/// none.
pub fn name_of(alloc: Global, text: &[u8], transaction: u64) -> Result<String, AllocError> {
    let Ok(list) = tokens(alloc, text) else {
        return Ok(String::new(alloc));
    };
    let words = spelled(alloc, text, &list)?;
    String::from_utf8_lossy(alloc, transaction_name(&words, transaction))
}
