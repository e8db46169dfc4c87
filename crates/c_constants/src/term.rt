//! The values of expressions of constants.

ghost use Rattle.std.specs.Prelude.{◌≡◌, ◌<◌, ◌≤◌, ◌-◌, ℕ, length, IfOk};
ghost use Rattle.c_constants.specs.Names.{constant_named};
ghost use Rattle.c_constants.specs.Parts.{name_at};
ghost use Rattle.c_constants.specs.Terms as terms;

use crate::fault::{ConstFault, bad_number, syntax, too_deep, unknown_name};
use crate::name::{Constant, constant_named};
use crate::part::{Part, name_at, next_place, part_at, token_number_at};
use c_lexer::TokenList;
use nvm_base::{BinOp, sub};

/// The loosest level of operators.
const LOOSEST: u8 = 6;

/// What the weight may grow after the brace of a definition.
const ROOM: u64 = 63;

/// What has been read of an expression.
#[derive(Clone, Copy)]
pub(crate) struct Term {
    pub(crate) word: i64,
    /// What the weight may still grow.
    pub(crate) room: u64,
    /// The place after it.
    pub(crate) place: u64,
}

/// A unary operator.
#[derive(Clone, Copy)]
enum Sign {
    Negate,
    Not,
    Complement,
}

fn constant_level(op: BinOp) -> u8
    ensures level { result ≡ terms.constant_level op }
    ensures some { 0 < result }
{
    match op {
        BinOp::Mul | BinOp::Div | BinOp::Rem => 1,
        BinOp::Add | BinOp::Sub => 2,
        BinOp::Shl | BinOp::Shr => 3,
        BinOp::And => 4,
        BinOp::Xor => 5,
        _ => 6,
    }
}

/// The operator that a token is, if it is one of at most that level.
fn constant_operator(level: u8, part: Part) -> Option<BinOp>
    ensures { result ≡ terms.constant_operator level part }
{
    match part {
        Part::Operator(op) => {
            if constant_level(op) <= level {
                Some(op)
            } else {
                None
            }
        }
        _ => None,
    }
}

fn constant_sign(part: Part) -> Option<Sign>
    ensures { result ≡ terms.constant_sign part }
{
    match part {
        Part::Operator(BinOp::Sub) => Some(Sign::Negate),
        Part::Not => Some(Sign::Not),
        Part::Tilde => Some(Sign::Complement),
        _ => None,
    }
}

#[tactic(auto, using(std::proofs::lemmas::Int::wraps))]
fn signed_word(sign: Sign, word: i64) -> i64
    ensures { result ≡ terms.signed_word sign word }
{
    match sign {
        Sign::Negate => sub(0, word),
        Sign::Not => BinOp::Eq.apply(word, 0),
        Sign::Complement => BinOp::Xor.apply(-1, word),
    }
}

fn signed(sign: Sign, term: Term) -> Term
    ensures { result ≡ terms.signed sign term }
{
    Term {
        word: signed_word(sign, term.word),
        room: term.room,
        place: term.place,
    }
}

fn is_division(op: BinOp) -> bool
    ensures { result ≡ terms.is_division op }
{
    match op {
        BinOp::Div | BinOp::Rem => true,
        _ => false,
    }
}

/// Two sides joined by the operator that stands after the left one.
fn joined(tokens: &TokenList, op: BinOp, left: Term, right: Term) -> Result<Term, ConstFault>
    ensures joined { result ≡ terms.joined tokens.now op left right }
    ensures room { IfOk result (λ t. t.room ≤ right.room) }
    ensures place { IfOk result (λ t. t.place ≡ right.place) }
{
    if is_division(op) && right.word.cast_unsigned() == 0 {
        return Err(bad_number(tokens, left.place));
    }
    Ok(Term {
        word: op.apply(left.word, right.word),
        room: right.room,
        place: right.place,
    })
}

/// A number, which must be at most 2^63 - 1.
fn number_term(tokens: &TokenList, room: u64, place: u64) -> Result<Term, ConstFault>
    requires inside { place ≤ length tokens.now.tokens }
    ensures term { result ≡ terms.number_term tokens.now room place }
    ensures room { IfOk result (λ t. t.room ≤ room) }
    ensures onward { IfOk result (λ t. place ≤ t.place) }
    ensures inside { IfOk result (λ t. t.place ≤ length tokens.now.tokens) }
{
    let word = token_number_at(tokens, place);
    if word < 0 {
        return Err(bad_number(tokens, place));
    }
    Ok(Term {
        word,
        room,
        place: next_place(tokens, place),
    })
}

/// A constant of this name.
fn known_term(
    tokens: &TokenList,
    constants: &[Constant],
    room: u64,
    place: u64,
) -> Result<Term, ConstFault>
    requires inside { place ≤ length tokens.now.tokens }
    ensures term { result ≡ terms.known_term tokens.now room place
        (constant_named constants.now (name_at tokens.now place)) }
    ensures room { IfOk result (λ t. t.room ≤ room) }
    ensures onward { IfOk result (λ t. place ≤ t.place) }
    ensures inside { IfOk result (λ t. t.place ≤ length tokens.now.tokens) }
{
    match constant_named(constants, name_at(tokens, place)) {
        Some(word) => Ok(Term {
            word,
            room,
            place: next_place(tokens, place),
        }),
        None => Err(unknown_name(tokens, place)),
    }
}

/// The expression that a closing bracket follows.
fn closed(tokens: &TokenList, room: u64, term: Term) -> Result<Term, ConstFault>
    requires inside { term.place ≤ length tokens.now.tokens }
    ensures term { result ≡ terms.closed tokens.now room term }
    ensures room { IfOk result (λ t. t.room ≤ room) }
    ensures onward { IfOk result (λ t. term.place ≤ t.place) }
    ensures inside { IfOk result (λ t. t.place ≤ length tokens.now.tokens) }
{
    match part_at(tokens, term.place) {
        Part::CloseRound => Ok(Term {
            word: term.word,
            room,
            place: next_place(tokens, term.place),
        }),
        _ => Err(syntax(tokens, term.place)),
    }
}

/// A whole constant's expression.
pub(crate) fn expression(
    tokens: &TokenList,
    constants: &[Constant],
    place: u64,
) -> Result<Term, ConstFault>
    requires { place ≤ length tokens.now.tokens }
    ensures term { result ≡ terms.expression tokens.now constants.now place }
    ensures onward { IfOk result (λ t. place ≤ t.place) }
    ensures inside { IfOk result (λ t. t.place ≤ length tokens.now.tokens) }
{
    read_whole(tokens, constants, LOOSEST, ROOM, place)
}

/// An operand, and what is joined to it by operators of at most a level.
#[cycle(terms)]
fn read_whole(
    tokens: &TokenList,
    constants: &[Constant],
    level: u8,
    room: u64,
    place: u64,
) -> Result<Term, ConstFault>
    requires inside { place ≤ length tokens.now.tokens }
    ensures term { (steps : ℕ) → room < steps → result ≡
        terms.read_whole (terms.read_value steps tokens.now constants.now) level room place }
    ensures room { IfOk result (λ t. t.room ≤ room) }
    ensures onward { IfOk result (λ t. place ≤ t.place) }
    ensures inside { IfOk result (λ t. t.place ≤ length tokens.now.tokens) }
{
    match read_operand(tokens, constants, room, place) {
        Err(fault) => Err(fault),
        Ok(first) => grouped(tokens, constants, level, first),
    }
}

/// An expression in brackets.
#[cycle(terms)]
fn read_bracket(
    tokens: &TokenList,
    constants: &[Constant],
    room: u64,
    place: u64,
) -> Result<Term, ConstFault>
    requires inside { place ≤ length tokens.now.tokens }
    ensures term { (steps : ℕ) → room ≤ steps → result ≡
        terms.read_bracket (terms.read_value steps tokens.now constants.now) tokens.now room place }
    ensures room { IfOk result (λ t. t.room ≤ room) }
    ensures onward { IfOk result (λ t. place ≤ t.place) }
    ensures inside { IfOk result (λ t. t.place ≤ length tokens.now.tokens) }
{
    if room == 0 {
        return Err(too_deep(tokens, place));
    }
    let next = next_place(tokens, place);
    match read_whole(tokens, constants, LOOSEST, room - 1, next) {
        Err(fault) => Err(fault),
        Ok(term) => closed(tokens, room, term),
    }
}

/// An operand after a unary operator.
#[cycle(terms)]
fn unary(
    tokens: &TokenList,
    constants: &[Constant],
    room: u64,
    place: u64,
    part: Part,
) -> Result<Term, ConstFault>
    requires inside { place ≤ length tokens.now.tokens }
    ensures term { (steps : ℕ) → room ≤ steps → result ≡
        terms.unary (terms.read_value steps tokens.now constants.now) tokens.now room place
        (terms.constant_sign part) }
    ensures room { IfOk result (λ t. t.room ≤ room) }
    ensures onward { IfOk result (λ t. place ≤ t.place) }
    ensures inside { IfOk result (λ t. t.place ≤ length tokens.now.tokens) }
{
    match constant_sign(part) {
        None => Err(syntax(tokens, place)),
        Some(sign) => {
            if room == 0 {
                return Err(too_deep(tokens, place));
            }
            match read_operand(tokens, constants, room - 1, next_place(tokens, place)) {
                Err(fault) => Err(fault),
                Ok(term) => Ok(signed(sign, term)),
            }
        }
    }
}

/// An operand.
#[cycle(terms)]
#[tactic(auto, unfolding(crate::specs::Terms::read_value))]
fn read_operand(
    tokens: &TokenList,
    constants: &[Constant],
    room: u64,
    place: u64,
) -> Result<Term, ConstFault>
    requires inside { place ≤ length tokens.now.tokens }
    ensures term { (steps : ℕ) → room < steps → result ≡
        terms.read_value steps tokens.now constants.now (terms.Operand room place) }
    ensures room { IfOk result (λ t. t.room ≤ room) }
    ensures onward { IfOk result (λ t. place ≤ t.place) }
    ensures inside { IfOk result (λ t. t.place ≤ length tokens.now.tokens) }
{
    let part = part_at(tokens, place);
    match part {
        Part::Number => number_term(tokens, room, place),
        Part::Name => known_term(tokens, constants, room, place),
        Part::OpenRound => read_bracket(tokens, constants, room, place),
        _ => unary(tokens, constants, room, place, part),
    }
}

/// What is joined to a term by operators of at most a level.
#[cycle(terms)]
#[tactic(auto, unfolding(crate::specs::Terms::read_value))]
fn grouped(
    tokens: &TokenList,
    constants: &[Constant],
    level: u8,
    left: Term,
) -> Result<Term, ConstFault>
    requires inside { left.place ≤ length tokens.now.tokens }
    ensures term { (steps : ℕ) → left.room < steps → result ≡
        terms.read_value steps tokens.now constants.now (terms.Group level left) }
    ensures room { IfOk result (λ t. t.room ≤ left.room) }
    ensures onward { IfOk result (λ t. left.place ≤ t.place) }
    ensures inside { IfOk result (λ t. t.place ≤ length tokens.now.tokens) }
{
    match constant_operator(level, part_at(tokens, left.place)) {
        None => Ok(left),
        Some(op) => {
            if left.room == 0 {
                return Err(too_deep(tokens, left.place));
            }
            right_side(tokens, constants, level, op, left)
        }
    }
}

/// The right side of an operator, and what is joined to both sides.
#[cycle(terms)]
fn right_side(
    tokens: &TokenList,
    constants: &[Constant],
    level: u8,
    op: BinOp,
    left: Term,
) -> Result<Term, ConstFault>
    requires inside { left.place ≤ length tokens.now.tokens }
    requires some { 0 < left.room }
    ensures term { (steps : ℕ) → left.room ≤ steps → result ≡
        terms.joined_on (terms.read_value steps tokens.now constants.now) tokens.now level left op }
    ensures room { IfOk result (λ t. t.room ≤ left.room) }
    ensures onward { IfOk result (λ t. left.place ≤ t.place) }
    ensures inside { IfOk result (λ t. t.place ≤ length tokens.now.tokens) }
{
    let tighter = constant_level(op) - 1;
    let next = next_place(tokens, left.place);
    match read_whole(tokens, constants, tighter, left.room - 1, next) {
        Err(fault) => Err(fault),
        Ok(right) => match joined(tokens, op, left, right) {
            Err(fault) => Err(fault),
            Ok(both) => grouped(tokens, constants, level, both),
        },
    }
}
