//! The refusals of definitions.

ghost use Rattle.std.specs.Prelude.{◌≡◌};
ghost use Rattle.c_constants.specs.declared.fault.ConstFault.TheVariants.{NoMemory};
ghost use Rattle.c_constants.specs.Parts as parts;
ghost use Rattle.c_lexer.specs.TokenList.{line_at, start_at};

use c_lexer::TokenList;
use std::alloc::{AllocError, AllocFailed};
use thiserror::Error;

/// Why the constants of a text can't be worked out. A place is a line, counted from 1, and the
/// number of bytes before it.
#[derive(Clone, Copy, Debug, PartialEq, Eq, Error)]
pub enum ConstFault {
    /// With this token, or the end, the tokens of a definition begin none.
    #[error("line {line}: no definition of constants goes on like this")]
    Syntax { line: u64, start: u64 },
    /// The first token of a definition whose weight is over 64.
    #[error("line {line}: this stands too deep")]
    TooDeep { line: u64, start: u64 },
    /// The name of a constant that has been defined already.
    #[error("line {line}: the constant is defined already")]
    Twice { line: u64, start: u64 },
    /// A name in an expression that no constant has.
    #[error("line {line}: no constant has this name")]
    UnknownName { line: u64, start: u64 },
    /// A `/` or `%` whose right side is 0, or a number of over 2^63 - 1; the place is its own.
    #[error("line {line}: the divisor is 0")]
    BadNumber { line: u64, start: u64 },
    /// More than 16,384 tokens are left.
    #[error("the program is too long")]
    TooLong,
    #[error("out of memory")]
    NoMemory,
}

impl From<AllocError> for ConstFault {
    ghost from_gives = { λ _ e. e ≡ NoMemory };

    fn from(_: AllocError) -> ConstFault {
        ConstFault::NoMemory
    }
}

impl<T: Drop> From<AllocFailed<T>> for ConstFault {
    ghost from_gives = { λ _ e. e ≡ NoMemory };

    fn from(_: AllocFailed<T>) -> ConstFault {
        ConstFault::NoMemory
    }
}

/// The line of a token, or of the end.
fn line(tokens: &TokenList, place: u64) -> u64
    ensures { result ≡ line_at tokens.now place }
{
    match tokens.get(place) {
        Some(placed) => placed.line,
        None => tokens.line(tokens.len()),
    }
}

/// The number of bytes before a token, or before the end.
fn start(tokens: &TokenList, place: u64) -> u64
    ensures { result ≡ start_at tokens.now place }
{
    match tokens.get(place) {
        Some(placed) => placed.start,
        None => tokens.start(tokens.len()),
    }
}

pub(crate) fn syntax(tokens: &TokenList, place: u64) -> ConstFault
    ensures { result ≡ parts.syntax tokens.now place }
{
    ConstFault::Syntax {
        line: line(tokens, place),
        start: start(tokens, place),
    }
}

pub(crate) fn too_deep(tokens: &TokenList, place: u64) -> ConstFault
    ensures { result ≡ parts.too_deep tokens.now place }
{
    ConstFault::TooDeep {
        line: line(tokens, place),
        start: start(tokens, place),
    }
}

pub(crate) fn named_twice(tokens: &TokenList, place: u64) -> ConstFault
    ensures { result ≡ parts.named_twice tokens.now place }
{
    ConstFault::Twice {
        line: line(tokens, place),
        start: start(tokens, place),
    }
}

pub(crate) fn unknown_name(tokens: &TokenList, place: u64) -> ConstFault
    ensures { result ≡ parts.unknown_name tokens.now place }
{
    ConstFault::UnknownName {
        line: line(tokens, place),
        start: start(tokens, place),
    }
}

pub(crate) fn bad_number(tokens: &TokenList, place: u64) -> ConstFault
    ensures { result ≡ parts.bad_number tokens.now place }
{
    ConstFault::BadNumber {
        line: line(tokens, place),
        start: start(tokens, place),
    }
}
