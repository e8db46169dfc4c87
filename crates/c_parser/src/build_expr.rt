//! Expressions, built from tokens that were accepted before. For tokens that form no program, some
//! tree is built all the same.

ghost use Rattle.std.specs.Prelude.{◌≡◌, ◌<◌, ◌≤◌, ◌+◌, length, IfOk, OnOk, IsSome};
ghost use Rattle.c_tree.specs.Kinds as kinds;
ghost use Rattle.c_tree.specs.Operators.{level_of, op_at, sign_of};
ghost use Rattle.c_tree.specs.ExprTree as trees;
ghost use Rattle.c_tree.specs.ExprTree.{ident_of, expr_of, arguments_in};
ghost use Rattle.c_tree.specs.inside.ExprTree.{followed_by};
ghost use Rattle.c_tree.specs.Spelling.{Expression, Level, Unary, Postfix, Parts, Primary};
ghost use Rattle.c_tree.specs.Spelling.{SpellsArguments};
ghost use Rattle.c_parser.specs.inside.Fixes.{Fixes, IsFollowed, Over, Uncalled};
ghost use Rattle.c_parser.specs.inside.Pieces.{FromCondition, FromWord, cast_of};

use c_lexer::TokenList;
use c_tree::expr::{Argument, BinaryOp, Expr, IntType, Name, UnaryOp};
use c_tree::{Kind, kind_at, name_at, place_after, value_at};
use std::alloc::{AllocError, Global};

/// The levels of binary operators; 1 binds tightest.
pub const LEVELS: u8 = 10;

fn level(op: BinaryOp) -> u8
    ensures { result ≡ level_of op }
{
    match op {
        BinaryOp::Mul | BinaryOp::Div | BinaryOp::Rem => 1,
        BinaryOp::Add | BinaryOp::Sub => 2,
        BinaryOp::ShiftLeft | BinaryOp::ShiftRight => 3,
        BinaryOp::Less | BinaryOp::LessEqual | BinaryOp::Greater | BinaryOp::GreaterEqual => 4,
        BinaryOp::Equal | BinaryOp::NotEqual => 5,
        BinaryOp::And => 6,
        BinaryOp::Xor => 7,
        BinaryOp::Or => 8,
        BinaryOp::Both => 9,
        BinaryOp::Either => 10,
    }
}

/// The operator of a level at a place, if there is one.
fn operator_at(tokens: &TokenList, at: u64, wanted: u8) -> Option<BinaryOp>
    ensures op { result ≡ op_at wanted (kinds.kind_at tokens.now.tokens at) }
    ensures inside { IsSome result → at < length tokens.now.tokens }
{
    match kind_at(tokens, at) {
        Kind::Operator(op) => { if level(op) == wanted { Some(op) } else { None } }
        _ => None,
    }
}

/// The unary operator at a place, if there is one.
fn sign_at(tokens: &TokenList, at: u64) -> Option<UnaryOp>
    ensures sign { result ≡ sign_of (kinds.kind_at tokens.now.tokens at) }
    ensures inside { IsSome result → at < length tokens.now.tokens }
{
    match kind_at(tokens, at) {
        Kind::Operator(BinaryOp::Sub) => Some(UnaryOp::Negate),
        Kind::Not => Some(UnaryOp::Not),
        Kind::Tilde => Some(UnaryOp::Complement),
        _ => None,
    }
}

/// The type in the bracket that opens at a place, if a type's word stands right after it.
fn cast_at(tokens: &TokenList, at: u64) -> Option<IntType>
    ensures int { result ≡ cast_of (kinds.kind_at tokens.now.tokens at)
        (kinds.kind_at tokens.now.tokens (at + 1)) }
    ensures inside { IsSome result → at + 1 < length tokens.now.tokens }
{
    if kind_at(tokens, at) != Kind::OpenRound {
        return None;
    }
    match kind_at(tokens, place_after(tokens, at)) {
        Kind::Int(int) => Some(int),
        _ => None,
    }
}

fn make_binary(
    alloc: Global,
    op: BinaryOp,
    place: u64,
    left: Expr,
    right: Expr,
) -> Result<Expr, AllocError>
    ensures { IfOk result (λ e. expr_of e ≡ trees.Binary op place (expr_of left) (expr_of right)) }
{
    let left = Box::new(alloc, left)?;
    let right = Box::new(alloc, right)?;
    Ok(Expr::Binary {
        op,
        place,
        left,
        right,
    })
}

fn make_conditional(
    alloc: Global,
    condition: Expr,
    place: u64,
    left: Expr,
    right: Expr,
) -> Result<Expr, AllocError>
    ensures { IfOk result (λ e. expr_of e
        ≡ trees.Conditional (expr_of condition) place (expr_of left) (expr_of right)) }
{
    let condition = Box::new(alloc, condition)?;
    let left = Box::new(alloc, left)?;
    let right = Box::new(alloc, right)?;
    Ok(Expr::Conditional {
        condition,
        place,
        left,
        right,
    })
}

fn make_unary(alloc: Global, op: UnaryOp, place: u64, operand: Expr) -> Result<Expr, AllocError>
    ensures { IfOk result (λ e. expr_of e ≡ trees.Unary op place (expr_of operand)) }
{
    let operand = Box::new(alloc, operand)?;
    Ok(Expr::Unary { op, place, operand })
}

fn make_arrow(alloc: Global, base: Expr, place: u64, field: Name) -> Result<Expr, AllocError>
    ensures { IfOk result (λ e. expr_of e ≡ trees.Arrow (expr_of base) place (ident_of field)) }
{
    let base = Box::new(alloc, base)?;
    Ok(Expr::Arrow { base, place, field })
}

fn make_index(alloc: Global, base: Expr, place: u64, index: Expr) -> Result<Expr, AllocError>
    ensures { IfOk result (λ e. expr_of e ≡ trees.Index (expr_of base) place (expr_of index)) }
{
    let base = Box::new(alloc, base)?;
    let index = Box::new(alloc, index)?;
    Ok(Expr::Index { base, place, index })
}

fn make_call(name: Name, arguments: Vec<Argument>) -> Expr
    ensures { expr_of result ≡ trees.Call (ident_of name) (arguments_in arguments.items) }
{
    Expr::Call { name, arguments }
}

#[tactic(auto, using(crate::proofs::FixesExpr::trees))]
fn add_argument(all: &mut Vec<Argument>, first: u64, value: Expr) -> Result<(), AllocError>
    ensures { OnOk result ((es : trees.Arguments) → followed_by (arguments_in all.new.items) es
        ≡ followed_by (arguments_in all.old.items) (trees.More first (expr_of value) es)) }
{
    all.push(Argument { first, value })?;
    Ok(())
}

/// A whole expression, and the place after it.
#[cycle(expressions)]
#[tactic(auto, using(crate::proofs::FixesExpr::whole))]
pub fn expression(alloc: Global, tokens: &TokenList, at: u64) -> Result<(Expr, u64), AllocError>
    ensures stays { IfOk result (λ r. at ≤ r.1) }
    ensures fixes { IfOk result (λ r.
        Fixes (IsFollowed tokens.now.tokens (Over 11) (Expression tokens.now.tokens at)) r.1
        (expr_of r.0)) }
{
    let (condition, place) = binary(alloc, tokens, at, LEVELS)?;
    if kind_at(tokens, place) == Kind::Question {
        return sides(alloc, tokens, place, condition);
    }
    Ok((condition, place))
}

/// Both sides of a conditional expression, from its `?` on.
#[cycle(expressions)]
#[tactic(auto, using(crate::proofs::FixesExpr::conditions))]
fn sides(
    alloc: Global,
    tokens: &TokenList,
    at: u64,
    condition: Expr,
) -> Result<(Expr, u64), AllocError>
    requires question { kinds.kind_at tokens.now.tokens at ≡ Kind.Question }
    requires inside { at < length tokens.now.tokens }
    ensures stays { IfOk result (λ r. at ≤ r.1) }
    ensures fixes { IfOk result (λ r.
        Fixes (IsFollowed tokens.now.tokens (Over 11)
        (FromCondition tokens.now.tokens at (expr_of condition))) r.1 (expr_of r.0)) }
{
    let (left, colon) = expression(alloc, tokens, place_after(tokens, at))?;
    let (right, next) = expression(alloc, tokens, place_after(tokens, colon))?;
    Ok((make_conditional(alloc, condition, at, left, right)?, next))
}

/// Unaries joined by operators of levels 1 to `level`.
#[cycle(expressions)]
#[tactic(auto, using(crate::proofs::FixesExpr::binaries))]
fn binary(alloc: Global, tokens: &TokenList, at: u64, level: u8) -> Result<(Expr, u64), AllocError>
    ensures stays { IfOk result (λ r. at ≤ r.1) }
    ensures fixes { IfOk result (λ r.
        Fixes (IsFollowed tokens.now.tokens (Over level) (Level tokens.now.tokens level at)) r.1
        (expr_of r.0)) }
{
    if level == 0 {
        return unary(alloc, tokens, at);
    }
    let (first, next) = binary(alloc, tokens, at, level - 1)?;
    let mut left = first;
    let mut place = next;
    while let Some(op) = operator_at(tokens, place, level) {
        let (right, next) = binary(alloc, tokens, place_after(tokens, place), level - 1)?;
        left = make_binary(alloc, op, place, left, right)?;
        place = next;
    }
    Ok((left, place))
}

#[cycle(expressions)]
#[tactic(auto, using(crate::proofs::FixesExpr::unaries))]
fn unary(alloc: Global, tokens: &TokenList, at: u64) -> Result<(Expr, u64), AllocError>
    ensures stays { IfOk result (λ r. at ≤ r.1) }
    ensures fixes { IfOk result (λ r.
        Fixes (IsFollowed tokens.now.tokens (Over 0) (Unary tokens.now.tokens at)) r.1
        (expr_of r.0)) }
{
    if let Some(op) = sign_at(tokens, at) {
        let (operand, next) = unary(alloc, tokens, place_after(tokens, at))?;
        return Ok((make_unary(alloc, op, at, operand)?, next));
    }
    match cast_at(tokens, at) {
        None => postfix(alloc, tokens, at),
        Some(int) => cast(alloc, tokens, place_after(tokens, at), int),
    }
}

/// A cast, from its type's word on.
#[cycle(expressions)]
#[tactic(auto, using(crate::proofs::FixesExpr::casts))]
fn cast(alloc: Global, tokens: &TokenList, at: u64, int: IntType) -> Result<(Expr, u64), AllocError>
    requires word { kinds.kind_at tokens.now.tokens at ≡ Kind.Int int }
    requires inside { at < length tokens.now.tokens }
    ensures stays { IfOk result (λ r. at ≤ r.1) }
    ensures fixes { IfOk result (λ r.
        Fixes (IsFollowed tokens.now.tokens (Over 0) (FromWord tokens.now.tokens at int)) r.1
        (expr_of r.0)) }
{
    let close = place_after(tokens, at);
    let (operand, next) = unary(alloc, tokens, place_after(tokens, close))?;
    Ok((make_unary(alloc, UnaryOp::Cast(int), at, operand)?, next))
}

/// A primary with the fields and elements taken from it.
#[cycle(expressions)]
#[tactic(auto, using(crate::proofs::FixesExpr::postfixes))]
pub fn postfix(alloc: Global, tokens: &TokenList, at: u64) -> Result<(Expr, u64), AllocError>
    ensures stays { IfOk result (λ r. at ≤ r.1) }
    ensures fixes { IfOk result (λ r.
        Fixes (IsFollowed tokens.now.tokens (Over 0) (Postfix tokens.now.tokens at)) r.1
        (expr_of r.0)) }
{
    let (base, next) = primary(alloc, tokens, at)?;
    parts(alloc, tokens, next, base)
}

/// The fields and elements taken from the expression read so far.
#[cycle(expressions)]
#[tactic(auto, using(crate::proofs::FixesExpr::all_parts))]
fn parts(alloc: Global, tokens: &TokenList, at: u64, base: Expr) -> Result<(Expr, u64), AllocError>
    ensures stays { IfOk result (λ r. at ≤ r.1) }
    ensures fixes { IfOk result (λ r.
        Fixes (IsFollowed tokens.now.tokens (Over 0)
        (λ k t. Parts tokens.now.tokens at k (expr_of base) t)) r.1 (expr_of r.0)) }
{
    match kind_at(tokens, at) {
        Kind::Arrow => {
            let place = place_after(tokens, at);
            let field = name_at(alloc, tokens, place)?;
            let base = make_arrow(alloc, base, at, field)?;
            parts(alloc, tokens, place_after(tokens, place), base)
        }
        Kind::OpenSquare => {
            let (index, close) = expression(alloc, tokens, place_after(tokens, at))?;
            let base = make_index(alloc, base, at, index)?;
            parts(alloc, tokens, place_after(tokens, close), base)
        }
        _ => Ok((base, at)),
    }
}

#[cycle(expressions)]
#[tactic(auto, using(crate::proofs::FixesExpr::primaries))]
fn primary(alloc: Global, tokens: &TokenList, at: u64) -> Result<(Expr, u64), AllocError>
    ensures stays { IfOk result (λ r. at ≤ r.1) }
    ensures fixes { IfOk result (λ r.
        Fixes (IsFollowed tokens.now.tokens Uncalled (Primary tokens.now.tokens at)) r.1
        (expr_of r.0)) }
{
    let next = place_after(tokens, at);
    match kind_at(tokens, at) {
        Kind::Number => Ok((Expr::Number(value_at(tokens, at)), next)),
        Kind::Name => {
            let name = name_at(alloc, tokens, at)?;
            if kind_at(tokens, next) == Kind::OpenRound {
                let (all, end) = arguments(alloc, tokens, place_after(tokens, next))?;
                return Ok((make_call(name, all), end));
            }
            Ok((Expr::Variable(name), next))
        }
        Kind::Root => {
            let place = place_after(tokens, next);
            let name = name_at(alloc, tokens, place)?;
            Ok((Expr::Root(name), place_after(tokens, place)))
        }
        Kind::PmNew => {
            let place = place_after(tokens, place_after(tokens, next));
            let name = name_at(alloc, tokens, place)?;
            let end = place_after(tokens, place_after(tokens, place));
            Ok((Expr::New { place: at, name }, end))
        }
        Kind::OpenRound => {
            let (inner, close) = expression(alloc, tokens, next)?;
            Ok((inner, place_after(tokens, close)))
        }
        _ => Ok((Expr::Null, next)),
    }
}

/// The arguments of a call, from the place after its opening bracket to the place after the closing
/// one.
#[cycle(expressions)]
#[tactic(auto, using(crate::proofs::FixesExpr::all_arguments))]
fn arguments(alloc: Global, tokens: &TokenList, at: u64) -> Result<(Vec<Argument>, u64), AllocError>
    ensures stays { IfOk result (λ r. at ≤ r.1) }
    ensures fixes { IfOk result (λ r. Fixes (SpellsArguments tokens.now.tokens at) r.1
        (arguments_in r.0.items)) }
{
    let mut all = Vec::new(alloc);
    if kind_at(tokens, at) == Kind::CloseRound {
        return Ok((all, place_after(tokens, at)));
    }
    let (value, next) = expression(alloc, tokens, at)?;
    add_argument(&mut all, at, value)?;
    let mut place = next;
    'others: while kind_at(tokens, place) == Kind::Comma {
        let first = place_after(tokens, place);
        let (value, next) = expression(alloc, tokens, first)?;
        add_argument(&mut all, first, value)?;
        place = next;
    }
    Ok((all, place_after(tokens, place)))
}
