//! What the definitions see of a token.

ghost use Rattle.std.specs.Prelude.{◌≡◌, ◌≢◌, ◌<◌, ◌≤◌, ◌+◌, length};
ghost use Rattle.c_constants.specs.Parts as parts;

use c_lexer::{Mark, Token, TokenList, Word};
use nvm_base::BinOp;

/// A token without its text and value.
#[derive(Clone, Copy, Debug)]
pub(crate) enum Part {
    Name,
    Number,
    /// A binary operator of constants; `-` is also a unary one.
    Operator(BinOp),
    /// `!`
    Not,
    /// `~`
    Tilde,
    /// `=`
    Assign,
    Comma,
    Semicolon,
    OpenRound,
    CloseRound,
    OpenBrace,
    CloseBrace,
    Enum,
    /// A token that has no part in definitions.
    Other,
    /// The end of the list.
    End,
}

fn mark_part(mark: Mark) -> Part
    ensures { result ≡ parts.mark_part mark }
{
    match mark {
        Mark::Star => Part::Operator(BinOp::Mul),
        Mark::Slash => Part::Operator(BinOp::Div),
        Mark::Percent => Part::Operator(BinOp::Rem),
        Mark::Plus => Part::Operator(BinOp::Add),
        Mark::Minus => Part::Operator(BinOp::Sub),
        Mark::ShiftLeft => Part::Operator(BinOp::Shl),
        Mark::ShiftRight => Part::Operator(BinOp::Shr),
        Mark::And => Part::Operator(BinOp::And),
        Mark::Xor => Part::Operator(BinOp::Xor),
        Mark::Or => Part::Operator(BinOp::Or),
        Mark::Not => Part::Not,
        Mark::Tilde => Part::Tilde,
        Mark::Assign => Part::Assign,
        Mark::Comma => Part::Comma,
        Mark::Semicolon => Part::Semicolon,
        Mark::OpenRound => Part::OpenRound,
        Mark::CloseRound => Part::CloseRound,
        Mark::OpenBrace => Part::OpenBrace,
        Mark::CloseBrace => Part::CloseBrace,
        _ => Part::Other,
    }
}

pub(crate) fn token_part(token: &Token) -> Part
    ensures { result ≡ parts.token_part token.now }
{
    match token {
        Token::Name(_) => Part::Name,
        Token::Number(_) => Part::Number,
        Token::Mark(mark) => mark_part(*mark),
        Token::Word(Word::Enum) => Part::Enum,
        _ => Part::Other,
    }
}

/// The part of the token at a place.
pub(crate) fn part_at(tokens: &TokenList, place: u64) -> Part
    ensures part { result ≡ parts.part_at tokens.now place }
    ensures inside { result ≢ Part.End → place < length tokens.now.tokens }
{
    match tokens.get(place) {
        Some(placed) => token_part(&placed.token),
        None => Part::End,
    }
}

/// The name at a place; an empty one if there is none.
pub(crate) fn name_at(tokens: &TokenList, place: u64) -> &str
    ensures { result.now ≡ parts.name_at tokens.now place }
{
    match tokens.get(place) {
        Some(placed) => match &placed.token {
            Token::Name(text) => text.as_str(),
            _ => "",
        },
        None => "",
    }
}

/// The number at a place; 0 if there is none.
pub(crate) fn token_number_at(tokens: &TokenList, place: u64) -> i64
    ensures { result ≡ parts.token_number_at tokens.now place }
{
    match tokens.get(place) {
        Some(placed) => match &placed.token {
            Token::Number(value) => *value,
            _ => 0,
        },
        None => 0,
    }
}

/// The place after a token; the end has none after it.
pub(crate) fn next_place(tokens: &TokenList, place: u64) -> u64
    ensures place { result ≡ parts.next_place tokens.now place }
    ensures onward { place ≤ result }
    ensures past { place < length tokens.now.tokens → result ≡ place + 1 }
    ensures inside { place ≤ length tokens.now.tokens → result ≤ length tokens.now.tokens }
{
    if place < tokens.len() {
        place + 1
    } else {
        place
    }
}
