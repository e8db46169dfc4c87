//! What declarations see of a token.

ghost use Rattle.std.specs.Prelude.{◌≡◌};
ghost use Rattle.c_constants.specs.Declarations as declarations;

use c_lexer::{Mark, Token, Word};

/// A token without its text.
#[derive(Clone, Copy, Debug)]
pub(crate) enum Seen {
    /// `int64_t` or `uint64_t`
    Ints,
    /// `struct`
    Struct,
    Name,
    Comma,
    /// `(` or `[`
    Open,
    /// `)` or `]`
    Close,
    /// `;`, `{` or `}`: right after it a declaration may begin.
    Border,
    Other,
}

fn mark_seen(mark: Mark) -> Seen
    ensures { result ≡ declarations.mark_seen mark }
{
    match mark {
        Mark::Comma => Seen::Comma,
        Mark::OpenRound | Mark::OpenSquare => Seen::Open,
        Mark::CloseRound | Mark::CloseSquare => Seen::Close,
        Mark::Semicolon | Mark::OpenBrace | Mark::CloseBrace => Seen::Border,
        _ => Seen::Other,
    }
}

pub(crate) fn seen_of(token: &Token) -> Seen
    ensures { result ≡ declarations.seen_of token.now }
{
    match token {
        Token::Name(_) => Seen::Name,
        Token::Mark(mark) => mark_seen(*mark),
        Token::Word(Word::Int64 | Word::Uint64) => Seen::Ints,
        Token::Word(Word::Struct) => Seen::Struct,
        _ => Seen::Other,
    }
}
