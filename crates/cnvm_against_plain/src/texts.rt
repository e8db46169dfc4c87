//! Short texts.

use cnvm_session::{Answer, answer_text};
use nvm_base::Text;
use pool_map::{Pool, Shapes, fits, show_text};
use std::alloc::{AllocError, Global};

/// The line as a text of its own.
pub(crate) fn text_of(alloc: Global, line: &str) -> Result<Text, AllocError> {
    let mut text = Text::new(alloc);
    text.push(line)?;
    Ok(text)
}

/// The line of an answer.
pub(crate) fn answer_line(alloc: Global, answer: &Answer) -> Result<Text, AllocError> {
    answer_text(alloc, answer)
}

/// The lines of a pool.
pub(crate) fn pool_lines_of(
    alloc: Global,
    shapes: &Shapes,
    pool: &Pool,
) -> Result<Text, AllocError> {
    if fits(shapes, pool) {
        show_text(alloc, shapes, pool)
    } else {
        text_of(alloc, "the pool doesn't fit the program\n")
    }
}

/// The answer of `last`.
pub(crate) fn last_line(alloc: Global, done: i64, value: i64) -> Result<Text, AllocError> {
    answer_text(alloc, &Answer::Last { done, value })
}
