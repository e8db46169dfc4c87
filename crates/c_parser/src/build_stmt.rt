//! Statements, built from tokens that were accepted before.

ghost use Rattle.std.specs.Prelude.{◌≡◌, ◌<◌, ◌≤◌, ◌+◌, length, IfOk, OnOk, option_map, true};
ghost use Rattle.c_tree.specs.Kinds as kinds;
ghost use Rattle.c_tree.specs.ExprTree as exprs;
ghost use Rattle.c_tree.specs.ExprTree.{Ident, expr_of};
ghost use Rattle.c_tree.specs.StmtTree as trees;
ghost use Rattle.c_tree.specs.StmtTree.{Statements, type_tree, declaration_of, simple_of};
ghost use Rattle.c_tree.specs.StmtTree.{tree_of_first, stmt_of, statements_in};
ghost use Rattle.c_tree.specs.inside.StmtTree.{statements_then};
ghost use Rattle.c_tree.specs.StmtSpelling.{Typed, Declares, Bracketed, Simply, FirstPart};
ghost use Rattle.c_tree.specs.StmtSpelling.{ValuePart, ThirdPart};
ghost use Rattle.c_parser.specs.inside.Fixes.{Fixes, IsFollowed, Over, IsOfKind, ClosesSimple};
ghost use Rattle.c_parser.specs.inside.Pieces as pieces;
ghost use Rattle.c_parser.specs.inside.Pieces.{ActsOrCalls, for_of, SpellsFor, Stated, StatedAll};
ghost use Rattle.c_parser.specs.inside.Pieces.{SpellsChoice, SpellsWhile, SpellsDo, SpellsCounted};
ghost use Rattle.c_parser.specs.inside.Pieces.{SpellsPlain, int_of};

use crate::build_expr::{expression, postfix};
use c_lexer::TokenList;
use c_tree::expr::{Expr, IntType, Name};
use c_tree::stmt::{AssignOp, Declaration, First, Initial, Simple, StepOp, Stmt, TypeName};
use c_tree::{Kind, kind_at, name_at, place_after};
use std::alloc::{AllocError, Global};

/// The type of ints at a place; `int64_t` if there is none.
fn int_at(tokens: &TokenList, at: u64) -> IntType
    ensures { result ≡ int_of (kinds.kind_at tokens.now.tokens at) }
{
    match kind_at(tokens, at) {
        Kind::Int(int) => int,
        _ => IntType::Signed,
    }
}

/// A type, and the place after it.
#[tactic(auto, using(crate::proofs::FixesStmt::types))]
pub fn type_name(alloc: Global, tokens: &TokenList, at: u64) -> Result<(TypeName, u64), AllocError>
    ensures stays { IfOk result (λ r. at ≤ r.1) }
    ensures fixes { IfOk result (λ r. Fixes (Typed tokens.now.tokens at) r.1 (type_tree r.0)) }
    ensures moves { IfOk result (λ r. at < length tokens.now.tokens → at < r.1) }
{
    let next = place_after(tokens, at);
    if kind_at(tokens, at) == Kind::Struct {
        let name = name_at(alloc, tokens, next)?;
        return Ok((
            TypeName::Pointer(name),
            place_after(tokens, place_after(tokens, next)),
        ));
    }
    Ok((TypeName::Int(int_at(tokens, at)), next))
}

/// A declaration without its semicolon.
#[tactic(auto, using(crate::proofs::FixesStmt::declarations))]
fn declaration(alloc: Global, tokens: &TokenList, at: u64) -> Result<(Declaration, u64), AllocError>
    ensures stays { IfOk result (λ r. at ≤ r.1) }
    ensures fixes { IfOk result (λ r.
        Fixes (IsFollowed tokens.now.tokens (IsOfKind Kind.Semicolon)
        (Declares tokens.now.tokens at)) r.1 (declaration_of r.0)) }
    ensures moves { IfOk result (λ r. at < length tokens.now.tokens → at < r.1) }
{
    let (ty, place) = type_name(alloc, tokens, at)?;
    let name = name_at(alloc, tokens, place)?;
    let next = place_after(tokens, place);
    if kind_at(tokens, next) == Kind::Assign(AssignOp::Set) {
        let (value, end) = expression(alloc, tokens, place_after(tokens, next))?;
        let initial = Some(Initial { place: next, value });
        return Ok((Declaration { ty, name, initial }, end));
    }
    Ok((
        Declaration {
            ty,
            name,
            initial: None,
        },
        next,
    ))
}

/// An expression in brackets, and the place after them.
#[tactic(auto, using(crate::proofs::FixesStmt::bracketed_inner))]
fn bracketed(alloc: Global, tokens: &TokenList, at: u64) -> Result<(Expr, u64), AllocError>
    ensures stays { IfOk result (λ r. at ≤ r.1) }
    ensures fixes { IfOk result (λ r. Fixes (Bracketed tokens.now.tokens at) r.1 (expr_of r.0)) }
{
    let (inner, close) = expression(alloc, tokens, place_after(tokens, at))?;
    Ok((inner, place_after(tokens, close)))
}

/// The statement for a call that stands alone.
fn call_alone(target: Expr) -> Simple
    ensures { (n : Ident) (all : exprs.Arguments) → expr_of target ≡ exprs.Call n all
        → simple_of result ≡ trees.Call n all }
{
    match target {
        Expr::Call { name, arguments } => Simple::Call { name, arguments },
        other => Simple::Step {
            target: other,
            op: StepOp::Up,
            place: 0,
        },
    }
}

/// The action of a statement on its target.
#[tactic(auto, using(crate::proofs::FixesStmt::acted_on))]
fn acted(
    alloc: Global,
    tokens: &TokenList,
    at: u64,
    target: Expr,
) -> Result<(Simple, u64), AllocError>
    ensures stays { IfOk result (λ r. at ≤ r.1) }
    ensures fixes { IfOk result (λ r.
        Fixes (IsFollowed tokens.now.tokens ClosesSimple
        (λ k t. ActsOrCalls tokens.now.tokens at k (expr_of target) t)) r.1 (simple_of r.0)) }
{
    match kind_at(tokens, at) {
        Kind::Assign(op) => {
            let (value, end) = expression(alloc, tokens, place_after(tokens, at))?;
            Ok((
                Simple::Assign {
                    target,
                    op,
                    place: at,
                    value,
                },
                end,
            ))
        }
        Kind::Step(op) => Ok((
            Simple::Step {
                target,
                op,
                place: at,
            },
            place_after(tokens, at),
        )),
        _ => Ok((call_alone(target), at)),
    }
}

/// A simple statement without its semicolon.
#[tactic(auto, using(crate::proofs::FixesStmt::simples))]
fn simple(alloc: Global, tokens: &TokenList, at: u64) -> Result<(Simple, u64), AllocError>
    ensures stays { IfOk result (λ r. at ≤ r.1) }
    ensures fixes { IfOk result (λ r.
        Fixes (IsFollowed tokens.now.tokens ClosesSimple (Simply tokens.now.tokens at)) r.1
        (simple_of r.0)) }
{
    let next = place_after(tokens, at);
    match kind_at(tokens, at) {
        Kind::PmFree => {
            let (pointer, end) = bracketed(alloc, tokens, next)?;
            Ok((Simple::Free { place: at, pointer }, end))
        }
        Kind::Abort => Ok((
            Simple::Abort { place: at },
            place_after(tokens, place_after(tokens, next)),
        )),
        _ => {
            let (target, end) = postfix(alloc, tokens, at)?;
            acted(alloc, tokens, end, target)
        }
    }
}

fn make_if(condition: Expr, body: Box<Stmt>) -> Stmt
    ensures { stmt_of result ≡ trees.If (expr_of condition) (stmt_of body.value) }
{
    Stmt::If {
        condition,
        body,
        other: None,
    }
}

fn make_if_else(condition: Expr, body: Box<Stmt>, other: Box<Stmt>) -> Stmt
    ensures { stmt_of result ≡ trees.IfElse (expr_of condition) (stmt_of body.value)
        (stmt_of other.value) }
{
    Stmt::If {
        condition,
        body,
        other: Some(other),
    }
}

fn make_while(place: u64, condition: Expr, body: Box<Stmt>) -> Stmt
    ensures { stmt_of result ≡ trees.While place (expr_of condition) (stmt_of body.value) }
{
    Stmt::While {
        place,
        condition,
        body,
    }
}

fn make_do(place: u64, body: Box<Stmt>, condition: Expr) -> Stmt
    ensures { stmt_of result ≡ trees.Do place (stmt_of body.value) (expr_of condition) }
{
    Stmt::Do {
        place,
        body,
        condition,
    }
}

/// The three parts of a `for`.
#[derive(Drop)]
struct ForParts {
    first: Option<First>,
    condition: Option<Expr>,
    third: Option<Simple>,
}

fn make_for(place: u64, parts: ForParts, body: Box<Stmt>) -> Stmt
    ensures { stmt_of result ≡ trees.For place (for_of parts).first (for_of parts).condition
        (for_of parts).third (stmt_of body.value) }
{
    let ForParts {
        first,
        condition,
        third,
    } = parts;
    Stmt::For {
        place,
        first,
        condition,
        third,
        body,
    }
}

fn make_block(all: Vec<Stmt>) -> Stmt
    ensures { stmt_of result ≡ trees.Block (statements_in all.items) }
{
    Stmt::Block(all)
}

/// Appends one statement.
#[tactic(auto, using(crate::proofs::FixesStmt::stmt_trees))]
pub fn add_statement(all: &mut Vec<Stmt>, one: Stmt) -> Result<(), AllocError>
    ensures { OnOk result ((ss : Statements) → statements_then (statements_in all.new.items) ss
        ≡ statements_then (statements_in all.old.items) (trees.Then (stmt_of one) ss)) }
{
    all.push(one)?;
    Ok(())
}

/// The first part of a `for`, up to its semicolon.
#[tactic(auto, using(crate::proofs::FixesStmt::first_parts))]
fn first_part(
    alloc: Global,
    tokens: &TokenList,
    at: u64,
) -> Result<(Option<First>, u64), AllocError>
    ensures stays { IfOk result (λ r. at ≤ r.1) }
    ensures fixes { IfOk result (λ r.
        Fixes (IsFollowed tokens.now.tokens (IsOfKind Kind.Semicolon)
        (FirstPart tokens.now.tokens at)) r.1 (option_map tree_of_first r.0)) }
{
    match kind_at(tokens, at) {
        Kind::Semicolon => Ok((None, at)),
        Kind::Int(_) | Kind::Struct => {
            let (one, end) = declaration(alloc, tokens, at)?;
            Ok((Some(First::Declare(one)), end))
        }
        _ => {
            let (one, end) = simple(alloc, tokens, at)?;
            Ok((Some(First::Simple(one)), end))
        }
    }
}

/// An optional expression before a semicolon.
#[tactic(auto, using(crate::proofs::FixesStmt::value_parts))]
fn value_part(alloc: Global, tokens: &TokenList, at: u64) -> Result<(Option<Expr>, u64), AllocError>
    ensures stays { IfOk result (λ r. at ≤ r.1) }
    ensures fixes { IfOk result (λ r.
        Fixes (IsFollowed tokens.now.tokens (IsOfKind Kind.Semicolon)
        (ValuePart tokens.now.tokens at)) r.1 (option_map expr_of r.0)) }
{
    if kind_at(tokens, at) == Kind::Semicolon {
        return Ok((None, at));
    }
    let (value, end) = expression(alloc, tokens, at)?;
    Ok((Some(value), end))
}

/// The third part of a `for`, up to the closing bracket.
#[tactic(auto, using(crate::proofs::FixesStmt::third_parts))]
fn third_part(
    alloc: Global,
    tokens: &TokenList,
    at: u64,
) -> Result<(Option<Simple>, u64), AllocError>
    ensures stays { IfOk result (λ r. at ≤ r.1) }
    ensures fixes { IfOk result (λ r.
        Fixes (IsFollowed tokens.now.tokens (IsOfKind Kind.CloseRound)
        (ThirdPart tokens.now.tokens at)) r.1 (option_map simple_of r.0)) }
{
    if kind_at(tokens, at) == Kind::CloseRound {
        return Ok((None, at));
    }
    let (one, end) = simple(alloc, tokens, at)?;
    Ok((Some(one), end))
}

/// The three parts in their brackets, and the place after them.
#[tactic(auto, using(crate::proofs::FixesStmt::for_read))]
fn for_parts(alloc: Global, tokens: &TokenList, at: u64) -> Result<(ForParts, u64), AllocError>
    ensures stays { IfOk result (λ r. at ≤ r.1) }
    ensures fixes { IfOk result (λ r. Fixes (SpellsFor tokens.now.tokens at) r.1 (for_of r.0)) }
{
    let (first, end) = first_part(alloc, tokens, place_after(tokens, at))?;
    let (condition, end) = value_part(alloc, tokens, place_after(tokens, end))?;
    let (third, close) = third_part(alloc, tokens, place_after(tokens, end))?;
    let parts = ForParts {
        first,
        condition,
        third,
    };
    Ok((parts, place_after(tokens, close)))
}

/// The place after a token, but at least `least`.
fn beyond(tokens: &TokenList, at: u64, least: u64) -> u64
    ensures least { least ≤ result }
    ensures stays { at ≤ result }
    ensures moves { at < length tokens.now.tokens → least ≤ at + 1 → result ≡ at + 1 }
{
    let next = place_after(tokens, at);
    if next < least { least } else { next }
}

/// A statement that contains no other.
#[tactic(auto, using(crate::proofs::FixesStmt::plains))]
fn plain(alloc: Global, tokens: &TokenList, at: u64) -> Result<(Stmt, u64), AllocError>
    ensures stays { IfOk result (λ r. at ≤ r.1) }
    ensures fixes { IfOk result (λ r. Fixes (SpellsPlain tokens.now.tokens at) r.1 (stmt_of r.0)) }
    ensures moves { IfOk result (λ r. at < length tokens.now.tokens → at < r.1) }
{
    let next = place_after(tokens, at);
    match kind_at(tokens, at) {
        Kind::Semicolon => Ok((Stmt::Empty, next)),
        Kind::Int(_) | Kind::Struct => {
            let (one, end) = declaration(alloc, tokens, at)?;
            Ok((Stmt::Declare(one), place_after(tokens, end)))
        }
        Kind::Break => Ok((Stmt::Break, place_after(tokens, next))),
        Kind::Continue => Ok((Stmt::Continue, place_after(tokens, next))),
        Kind::Return => {
            let (value, end) = value_part(alloc, tokens, next)?;
            Ok((Stmt::Return { place: at, value }, place_after(tokens, end)))
        }
        _ => {
            let (one, end) = simple(alloc, tokens, at)?;
            Ok((Stmt::Simple(one), beyond(tokens, end, next)))
        }
    }
}

/// A statement, and the place after it.
#[cycle(statements)]
#[tactic(auto, using(crate::proofs::FixesStmt::statements))]
pub fn statement(alloc: Global, tokens: &TokenList, at: u64) -> Result<(Stmt, u64), AllocError>
    ensures stays { IfOk result (λ r. at ≤ r.1) }
    ensures fixes { IfOk result (λ r. Fixes (Stated tokens.now.tokens at) r.1 (stmt_of r.0)) }
    ensures moves { IfOk result (λ r. at < length tokens.now.tokens → at < r.1) }
{
    match kind_at(tokens, at) {
        Kind::OpenBrace => {
            let (all, end) = block(alloc, tokens, place_after(tokens, at))?;
            Ok((make_block(all), end))
        }
        Kind::If => choice(alloc, tokens, place_after(tokens, at)),
        Kind::While => repeated(alloc, tokens, at, place_after(tokens, at)),
        Kind::Do => repeated_after(alloc, tokens, at, place_after(tokens, at)),
        Kind::For => counted(alloc, tokens, at, place_after(tokens, at)),
        _ => plain(alloc, tokens, at),
    }
}

/// A statement that is part of another.
#[cycle(statements)]
fn body(alloc: Global, tokens: &TokenList, at: u64) -> Result<(Box<Stmt>, u64), AllocError>
    ensures stays { IfOk result (λ r. at ≤ r.1) }
    ensures fixes { IfOk result (λ r. Fixes (Stated tokens.now.tokens at) r.1 (stmt_of r.0.value)) }
{
    let (one, end) = statement(alloc, tokens, at)?;
    Ok((Box::new(alloc, one)?, end))
}

/// A choice, from the place after its `if`.
#[cycle(statements)]
#[tactic(auto, using(crate::proofs::FixesStmt::choices))]
fn choice(alloc: Global, tokens: &TokenList, at: u64) -> Result<(Stmt, u64), AllocError>
    ensures stays { IfOk result (λ r. at ≤ r.1) }
    ensures fixes { IfOk result (λ r. Fixes (SpellsChoice tokens.now.tokens at) r.1 (stmt_of r.0)) }
{
    let (condition, place) = bracketed(alloc, tokens, at)?;
    let (first, end) = body(alloc, tokens, place)?;
    if kind_at(tokens, end) == Kind::Else {
        let (other, end) = body(alloc, tokens, place_after(tokens, end))?;
        return Ok((make_if_else(condition, first, other), end));
    }
    Ok((make_if(condition, first), end))
}

/// A loop, from the place after its `while`, which stands at `word`.
#[cycle(statements)]
#[tactic(auto, using(crate::proofs::FixesStmt::while_read))]
fn repeated(
    alloc: Global,
    tokens: &TokenList,
    word: u64,
    at: u64,
) -> Result<(Stmt, u64), AllocError>
    ensures stays { IfOk result (λ r. at ≤ r.1) }
    ensures fixes { IfOk result (λ r. Fixes (SpellsWhile tokens.now.tokens word at) r.1
        (stmt_of r.0)) }
{
    let (condition, place) = bracketed(alloc, tokens, at)?;
    let (body, end) = body(alloc, tokens, place)?;
    Ok((make_while(word, condition, body), end))
}

/// A loop whose body comes first, from the place after its `do`, which stands at `word`.
#[cycle(statements)]
#[tactic(auto, using(crate::proofs::FixesStmt::do_read))]
fn repeated_after(
    alloc: Global,
    tokens: &TokenList,
    word: u64,
    at: u64,
) -> Result<(Stmt, u64), AllocError>
    ensures stays { IfOk result (λ r. at ≤ r.1) }
    ensures fixes { IfOk result (λ r. Fixes (SpellsDo tokens.now.tokens word at) r.1
        (stmt_of r.0)) }
{
    let (body, end) = body(alloc, tokens, at)?;
    let (condition, close) = bracketed(alloc, tokens, place_after(tokens, end))?;
    Ok((make_do(word, body, condition), place_after(tokens, close)))
}

/// A loop with three parts, from the place after its `for`, which stands at `word`.
#[cycle(statements)]
#[tactic(auto, using(crate::proofs::FixesStmt::counted_read))]
fn counted(alloc: Global, tokens: &TokenList, word: u64, at: u64) -> Result<(Stmt, u64), AllocError>
    ensures stays { IfOk result (λ r. at ≤ r.1) }
    ensures fixes { IfOk result (λ r. Fixes (SpellsCounted tokens.now.tokens word at) r.1
        (stmt_of r.0)) }
{
    let (parts, place) = for_parts(alloc, tokens, at)?;
    let (body, end) = body(alloc, tokens, place)?;
    Ok((make_for(word, parts, body), end))
}

/// The statements from the place after an opening brace to the place after the closing one.
#[cycle(statements)]
#[tactic(auto, using(crate::proofs::FixesStmt::blocks))]
pub fn block(alloc: Global, tokens: &TokenList, at: u64) -> Result<(Vec<Stmt>, u64), AllocError>
    ensures stays { IfOk result (λ r. at ≤ r.1) }
    ensures fixes { IfOk result (λ r.
        Fixes (StatedAll tokens.now.tokens at) r.1 (statements_in r.0.items)) }
{
    let mut all = Vec::new(alloc);
    let mut place = at;
    'each: while goes_on(tokens, place) {
        let (one, next) = statement(alloc, tokens, place)?;
        add_statement(&mut all, one)?;
        place = next;
    }
    Ok((all, place_after(tokens, place)))
}

/// Whether the token there is neither a closing brace nor the end.
pub fn goes_on(tokens: &TokenList, at: u64) -> bool
    ensures value { result ≡ pieces.goes_on (kinds.kind_at tokens.now.tokens at) }
    ensures inside { result ≡ true → at < length tokens.now.tokens }
{
    match kind_at(tokens, at) {
        Kind::CloseBrace | Kind::End => false,
        _ => true,
    }
}
