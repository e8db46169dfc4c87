//! The tokens that stand for a constant's name.

ghost use Rattle.std.specs.Prelude.{◌≡◌, ◌⊎◌, IfOk};
ghost use Rattle.c_constants.specs.StandIns as stand_ins;

use crate::fault::ConstFault;
use crate::name::{Constant, constant_named};
use c_lexer::{MOST_TOKENS, Mark, Placed, Token, TokenList};
use nvm_base::Text;
use std::alloc::{AllocError, Global};

/// Puts one more token after all others, if there is room.
pub(crate) fn put_one(
    out: TokenList,
    token: Token,
    line: u64,
    start: u64,
) -> Result<TokenList, ConstFault>
    ensures { (result ≡ Err ConstFault.NoMemory) ⊎ (result ≡ stand_ins.put_one out
        (record { token = token; line = line; start = start })) }
{
    let mut out = out;
    if out.len() >= MOST_TOKENS as u64 {
        return Err(ConstFault::TooLong);
    }
    out.push(Placed { token, line, start })?;
    Ok(out)
}

/// Puts `(`, a mark, a number and `)`.
fn put_bracket(
    out: TokenList,
    mark: Mark,
    number: i64,
    line: u64,
    start: u64,
) -> Result<TokenList, ConstFault>
    ensures { (result ≡ Err ConstFault.NoMemory) ⊎ (result ≡ stand_ins.put_all out
        (stand_ins.placed_all line start (stand_ins.in_brackets mark number))) }
{
    let out = put_one(out, Token::Mark(Mark::OpenRound), line, start)?;
    let out = put_one(out, Token::Mark(mark), line, start)?;
    let out = put_one(out, Token::Number(number), line, start)?;
    put_one(out, Token::Mark(Mark::CloseRound), line, start)
}

/// Puts the tokens of a word.
fn put_word(out: TokenList, word: i64, line: u64, start: u64) -> Result<TokenList, ConstFault>
    ensures { (result ≡ Err ConstFault.NoMemory) ⊎ (result ≡ stand_ins.put_all out
        (stand_ins.placed_all line start (stand_ins.word_tokens word))) }
{
    if word >= 0 {
        return put_one(out, Token::Number(word), line, start);
    }
    if word == i64::MIN {
        return put_bracket(out, Mark::Tilde, i64::MAX, line, start);
    }
    put_bracket(out, Mark::Minus, -word, line, start)
}

/// A token like this one.
pub(crate) fn copied(alloc: Global, token: &Token) -> Result<Token, AllocError>
    ensures { IfOk result (λ t. t ≡ token.now) }
{
    match token {
        Token::Name(text) => {
            let mut copy = Text::new(alloc);
            copy.push(text.as_str())?;
            Ok(Token::Name(copy))
        }
        Token::Number(value) => Ok(Token::Number(*value)),
        Token::Mark(mark) => Ok(Token::Mark(*mark)),
        Token::Word(word) => Ok(Token::Word(*word)),
        Token::Reserved => Ok(Token::Reserved),
    }
}

/// The word that stands for a token.
fn constant_word(constants: &[Constant], token: &Token) -> Option<i64>
    ensures { result ≡ stand_ins.constant_word constants.now token.now }
{
    match token {
        Token::Name(text) => constant_named(constants, text.as_str()),
        _ => None,
    }
}

/// Puts a token, or the tokens that stand for it.
pub(crate) fn put_token(
    alloc: Global,
    constants: &[Constant],
    out: TokenList,
    placed: &Placed,
) -> Result<TokenList, ConstFault>
    ensures { (result ≡ Err ConstFault.NoMemory) ⊎ (result ≡ stand_ins.put_all out
        (stand_ins.stand_ins constants.now placed.now)) }
{
    match constant_word(constants, &placed.token) {
        Some(word) => put_word(out, word, placed.line, placed.start),
        None => {
            let token = copied(alloc, &placed.token)?;
            put_one(out, token, placed.line, placed.start)
        }
    }
}
