//! What the grammar sees of a token.

ghost use Rattle.std.specs.Prelude.{◌≡◌, ◌≢◌, ◌<◌, ◌≤◌, ◌+◌, length, IfOk};
ghost use Rattle.c_tree.specs.Kinds as kinds;
ghost use Rattle.c_tree.specs.ExprTree.{ident_of};

use crate::expr::{BinaryOp, IntType, Name};
use crate::stmt::{AssignOp, StepOp, UpdateOp};
use c_lexer::{Mark, Token, TokenList, Word};
use nvm_base::Text;
use std::alloc::{AllocError, Global};

/// A token without its text and value. Marks that the grammar treats alike are one kind.
#[derive(Clone, Copy, PartialEq, Eq)]
pub enum Kind {
    Name,
    Number,
    /// A binary operator; `-` is also a unary one, and `*` also belongs to types.
    Operator(BinaryOp),
    /// `!`
    Not,
    /// `~`
    Tilde,
    /// `->`
    Arrow,
    Question,
    Colon,
    Dot,
    Comma,
    Semicolon,
    OpenRound,
    CloseRound,
    OpenBrace,
    CloseBrace,
    OpenSquare,
    CloseSquare,
    Assign(AssignOp),
    Step(StepOp),
    /// `int64_t` or `uint64_t`
    Int(IntType),
    Void,
    Struct,
    Persistent,
    Root,
    Tx,
    Const,
    If,
    Else,
    While,
    Do,
    For,
    Break,
    Continue,
    Return,
    Null,
    PmNew,
    PmFree,
    Abort,
    /// A word that the grammar has no place for.
    Other,
    /// The end of the list.
    End,
}

fn mark_kind(mark: Mark) -> Kind
    ensures { result ≡ kinds.mark_kind mark }
{
    match mark {
        Mark::Arrow => Kind::Arrow,
        Mark::Increment => Kind::Step(StepOp::Up),
        Mark::Decrement => Kind::Step(StepOp::Down),
        Mark::AddAssign => Kind::Assign(AssignOp::Update(UpdateOp::Add)),
        Mark::SubAssign => Kind::Assign(AssignOp::Update(UpdateOp::Sub)),
        Mark::MulAssign => Kind::Assign(AssignOp::Update(UpdateOp::Mul)),
        Mark::DivAssign => Kind::Assign(AssignOp::Update(UpdateOp::Div)),
        Mark::RemAssign => Kind::Assign(AssignOp::Update(UpdateOp::Rem)),
        Mark::AndAssign => Kind::Assign(AssignOp::Update(UpdateOp::And)),
        Mark::XorAssign => Kind::Assign(AssignOp::Update(UpdateOp::Xor)),
        Mark::OrAssign => Kind::Assign(AssignOp::Update(UpdateOp::Or)),
        Mark::ShiftLeftAssign => Kind::Assign(AssignOp::Update(UpdateOp::ShiftLeft)),
        Mark::ShiftRightAssign => Kind::Assign(AssignOp::Update(UpdateOp::ShiftRight)),
        Mark::ShiftLeft => Kind::Operator(BinaryOp::ShiftLeft),
        Mark::ShiftRight => Kind::Operator(BinaryOp::ShiftRight),
        Mark::LessEqual => Kind::Operator(BinaryOp::LessEqual),
        Mark::GreaterEqual => Kind::Operator(BinaryOp::GreaterEqual),
        Mark::Equal => Kind::Operator(BinaryOp::Equal),
        Mark::NotEqual => Kind::Operator(BinaryOp::NotEqual),
        Mark::AndAnd => Kind::Operator(BinaryOp::Both),
        Mark::OrOr => Kind::Operator(BinaryOp::Either),
        Mark::Plus => Kind::Operator(BinaryOp::Add),
        Mark::Minus => Kind::Operator(BinaryOp::Sub),
        Mark::Star => Kind::Operator(BinaryOp::Mul),
        Mark::Slash => Kind::Operator(BinaryOp::Div),
        Mark::Percent => Kind::Operator(BinaryOp::Rem),
        Mark::Less => Kind::Operator(BinaryOp::Less),
        Mark::Greater => Kind::Operator(BinaryOp::Greater),
        Mark::And => Kind::Operator(BinaryOp::And),
        Mark::Xor => Kind::Operator(BinaryOp::Xor),
        Mark::Or => Kind::Operator(BinaryOp::Or),
        Mark::Not => Kind::Not,
        Mark::Tilde => Kind::Tilde,
        Mark::Assign => Kind::Assign(AssignOp::Set),
        Mark::Question => Kind::Question,
        Mark::Colon => Kind::Colon,
        Mark::Dot => Kind::Dot,
        Mark::Comma => Kind::Comma,
        Mark::Semicolon => Kind::Semicolon,
        Mark::OpenRound => Kind::OpenRound,
        Mark::CloseRound => Kind::CloseRound,
        Mark::OpenBrace => Kind::OpenBrace,
        Mark::CloseBrace => Kind::CloseBrace,
        Mark::OpenSquare => Kind::OpenSquare,
        Mark::CloseSquare => Kind::CloseSquare,
    }
}

fn word_kind(word: Word) -> Kind
    ensures { result ≡ kinds.word_kind word }
{
    match word {
        Word::Int64 => Kind::Int(IntType::Signed),
        Word::Uint64 => Kind::Int(IntType::Unsigned),
        Word::Void => Kind::Void,
        Word::Struct => Kind::Struct,
        Word::Enum => Kind::Other,
        Word::Persistent => Kind::Persistent,
        Word::Root => Kind::Root,
        Word::Tx => Kind::Tx,
        Word::Const => Kind::Const,
        Word::If => Kind::If,
        Word::Else => Kind::Else,
        Word::While => Kind::While,
        Word::Do => Kind::Do,
        Word::For => Kind::For,
        Word::Break => Kind::Break,
        Word::Continue => Kind::Continue,
        Word::Return => Kind::Return,
        Word::Null => Kind::Null,
        Word::PmNew => Kind::PmNew,
        Word::PmFree => Kind::PmFree,
        Word::Abort => Kind::Abort,
    }
}

fn token_kind(token: &Token) -> Kind
    ensures { result ≡ kinds.token_kind token.now }
{
    match token {
        Token::Name(_) => Kind::Name,
        Token::Number(_) => Kind::Number,
        Token::Mark(mark) => mark_kind(*mark),
        Token::Word(word) => word_kind(*word),
        Token::Reserved => Kind::Other,
    }
}

/// The kind of the token at a place.
pub fn kind_at(tokens: &TokenList, at: u64) -> Kind
    ensures value { result ≡ kinds.kind_at tokens.now.tokens at }
    ensures inside { result ≢ Kind.End → at < length tokens.now.tokens }
{
    match tokens.get(at) {
        Some(placed) => token_kind(&placed.token),
        None => Kind::End,
    }
}

/// The name at a place, or an empty one if there is none.
pub fn name_at(alloc: Global, tokens: &TokenList, at: u64) -> Result<Name, AllocError>
    ensures { IfOk result (λ n. ident_of n ≡ kinds.ident_at tokens.now.tokens at) }
{
    let mut text = Text::new(alloc);
    if let Some(placed) = tokens.get(at) {
        if let Token::Name(found) = &placed.token {
            text.push(found.as_str())?;
        }
    }
    Ok(Name { text, place: at })
}

/// The number at a place, or 0 if there is none.
pub fn value_at(tokens: &TokenList, at: u64) -> i64
    ensures { result ≡ kinds.value_at tokens.now.tokens at }
{
    match tokens.get(at) {
        Some(placed) => match &placed.token {
            Token::Number(value) => *value,
            _ => 0,
        },
        None => 0,
    }
}

/// The place after a token; at the end of the list it stays.
pub fn place_after(tokens: &TokenList, at: u64) -> u64
    ensures moves { at < length tokens.now.tokens → result ≡ at + 1 }
    ensures stays { at ≤ result }
{
    if at < tokens.len() { at + 1 } else { at }
}
