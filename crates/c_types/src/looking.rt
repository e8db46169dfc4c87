//! Which functions store, and the rule that those marked `const` don't.

ghost use Rattle.std.specs.Prelude.{◌≡◌, IfOk, OnOk, false, length, map, option_map};
ghost use Rattle.std.specs.Option.{option_map_or};
ghost use Rattle.c_tree.specs.ExprTree as expression;
ghost use Rattle.c_tree.specs.StmtTree as tree;
ghost use Rattle.c_tree.specs.ItemTree.{FunctionTree, function_tree};
ghost use Rattle.c_types.specs.Broken.{least_from};
ghost use Rattle.c_types.specs.Looking as looking;
ghost use Rattle.c_types.specs.Views.{tables_in};

use crate::broken::{Broken, Rule, expect};
use crate::program::Program;
use crate::transactions::is_const;
use c_tree::expr::{Argument, Expr, Name};
use c_tree::item::Function;
use c_tree::stmt::{Declaration, First, Simple, Stmt};
use std::alloc::{AllocError, Global};

/// Whether the function of that name is known to store.
fn is_known(program: &Program<'_>, known: &[bool], name: &Name) -> bool
    ensures { result ≡ looking.is_known (tables_in program.now) known.now name.now.text }
{
    match program.place_of_function(name.text.as_str()) {
        None => false,
        Some(at) => match known.get(at as usize) {
            None => false,
            Some(stores) => *stores,
        },
    }
}

fn is_variable(target: &Expr) -> bool
    ensures { result ≡ looking.is_variable (expression.expr_of target.now) }
{
    match target {
        Expr::Variable(_) => true,
        Expr::Number(_) => false,
        Expr::Null => false,
        Expr::Call { .. } => false,
        Expr::Root(_) => false,
        Expr::New { .. } => false,
        Expr::Arrow { .. } => false,
        Expr::Index { .. } => false,
        Expr::Unary { .. } => false,
        Expr::Binary { .. } => false,
        Expr::Conditional { .. } => false,
    }
}

/// Whether an expression stores, where `known` are the functions that do.
#[cycle(storing_values)]
fn exp_stores(program: &Program<'_>, known: &[bool], expr: &Expr) -> bool
    ensures { result ≡ looking.exp_stores (tables_in program.now) known.now
        (expression.expr_of expr.now) }
{
    match expr {
        Expr::Number(_) => false,
        Expr::Null => false,
        Expr::Variable(_) => false,
        Expr::Root(_) => false,
        Expr::New { .. } => true,
        Expr::Call { name, arguments } => {
            is_known(program, known, name) || arguments_store(program, known, arguments)
        }
        Expr::Arrow { base, .. } => exp_stores(program, known, base),
        Expr::Index { base, index, .. } => {
            exp_stores(program, known, base) || exp_stores(program, known, index)
        }
        Expr::Unary { operand, .. } => exp_stores(program, known, operand),
        Expr::Binary { left, right, .. } => {
            exp_stores(program, known, left) || exp_stores(program, known, right)
        }
        Expr::Conditional {
            condition,
            left,
            right,
            ..
        } => {
            exp_stores(program, known, condition)
                || exp_stores(program, known, left)
                || exp_stores(program, known, right)
        }
    }
}

#[cycle(storing_values)]
fn arguments_store(program: &Program<'_>, known: &[bool], all: &[Argument]) -> bool
    ensures { result ≡ looking.arguments_store (tables_in program.now) known.now
        (expression.arguments_in all.now) }
{
    for argument in all {
        if exp_stores(program, known, &argument.value) {
            return true;
        }
    }
    false
}

fn value_stores(program: &Program<'_>, known: &[bool], value: &Option<Expr>) -> bool
    ensures { result ≡ looking.value_stores (tables_in program.now) known.now
        (option_map expression.expr_of value.now) }
{
    match value {
        None => false,
        Some(value) => exp_stores(program, known, value),
    }
}

fn simple_stores(program: &Program<'_>, known: &[bool], simple: &Simple) -> bool
    ensures { result ≡ looking.simple_stores (tables_in program.now) known.now
        (tree.simple_of simple.now) }
{
    match simple {
        Simple::Assign { target, value, .. } => {
            !is_variable(target) || exp_stores(program, known, value)
        }
        Simple::Step { target, .. } => !is_variable(target),
        Simple::Call { name, arguments } => {
            is_known(program, known, name) || arguments_store(program, known, arguments)
        }
        Simple::Free { .. } => true,
        Simple::Abort { .. } => false,
    }
}

fn declaration_stores(program: &Program<'_>, known: &[bool], declaration: &Declaration) -> bool
    ensures { result ≡ looking.declaration_stores (tables_in program.now) known.now
        (tree.declaration_of declaration.now) }
{
    match &declaration.initial {
        None => false,
        Some(initial) => exp_stores(program, known, &initial.value),
    }
}

fn first_stores(program: &Program<'_>, known: &[bool], first: &Option<First>) -> bool
    ensures { result ≡ option_map_or (looking.first_stores (tables_in program.now) known.now)
        (option_map tree.tree_of_first first.now) false }
{
    match first {
        None => false,
        Some(part) => match part {
            First::Declare(declaration) => declaration_stores(program, known, declaration),
            First::Simple(simple) => simple_stores(program, known, simple),
        },
    }
}

fn third_stores(program: &Program<'_>, known: &[bool], third: &Option<Simple>) -> bool
    ensures { result ≡ option_map_or (looking.simple_stores (tables_in program.now) known.now)
        (option_map tree.simple_of third.now) false }
{
    match third {
        None => false,
        Some(simple) => simple_stores(program, known, simple),
    }
}

/// Whether a statement stores.
#[cycle(storing)]
fn statement_stores(program: &Program<'_>, known: &[bool], stmt: &Stmt) -> bool
    ensures { result ≡ looking.statement_stores (tables_in program.now) known.now
        (tree.stmt_of stmt.now) }
{
    match stmt {
        Stmt::Empty => false,
        Stmt::Break => false,
        Stmt::Continue => false,
        Stmt::Declare(declaration) => declaration_stores(program, known, declaration),
        Stmt::Simple(simple) => simple_stores(program, known, simple),
        Stmt::Block(all) => statements_store(program, known, all),
        Stmt::If {
            condition,
            body,
            other,
        } => {
            if exp_stores(program, known, condition) || statement_stores(program, known, body) {
                return true;
            }
            match other {
                None => false,
                Some(other) => statement_stores(program, known, other),
            }
        }
        Stmt::While {
            condition,
            body,
            ..
        } => exp_stores(program, known, condition) || statement_stores(program, known, body),
        Stmt::Do {
            condition,
            body,
            ..
        } => exp_stores(program, known, condition) || statement_stores(program, known, body),
        Stmt::For {
            first,
            condition,
            third,
            body,
            ..
        } => {
            first_stores(program, known, first)
                || value_stores(program, known, condition)
                || third_stores(program, known, third)
                || statement_stores(program, known, body)
        }
        Stmt::Return { value, .. } => value_stores(program, known, value),
    }
}

#[cycle(storing)]
fn statements_store(program: &Program<'_>, known: &[bool], all: &[Stmt]) -> bool
    ensures { result ≡ looking.statements_store (tables_in program.now) known.now
        (tree.statements_in all.now) }
{
    for stmt in all {
        if statement_stores(program, known, stmt) {
            return true;
        }
    }
    false
}

/// That no function is known to store.
fn none_known(alloc: Global, functions: &[&Function]) -> Result<Vec<bool>, AllocError>
    ensures { IfOk result (λ v. v.items ≡ map (λ (f : FunctionTree). false)
        (map function_tree (map (λ f. f.now) functions.now))) }
{
    let mut none = Vec::new(alloc);
    for _ in functions {
        none.push(false)?;
    }
    Ok(none)
}

/// Which functions store, by what is known of those that they call.
fn next_known(
    alloc: Global,
    program: &Program<'_>,
    functions: &[&Function],
    known: &[bool],
) -> Result<Vec<bool>, AllocError>
    ensures { IfOk result (λ v. v.items
        ≡ map (λ (f : FunctionTree). looking.statements_store (tables_in program.now)
        known.now f.body) (map function_tree (map (λ f. f.now) functions.now))) }
{
    let mut next = Vec::new(alloc);
    for function in functions {
        next.push(statements_store(program, known, &function.body))?;
    }
    Ok(next)
}

/// Which functions store. The rounds stop where one tells nothing new.
fn storing(alloc: Global, program: &Program<'_>) -> Result<Vec<bool>, AllocError>
    ensures { IfOk result (λ v. v.items ≡ looking.storing (tables_in program.now)) }
{
    let functions = program.functions();
    let mut known = none_known(alloc, functions)?;
    for _ in 0..functions.len() {
        let next = next_known(alloc, program, functions, &known)?;
        if next.as_slice() == known.as_slice() {
            return Ok(known);
        }
        known = next;
    }
    Ok(known)
}

/// Checks that a function that is marked `const` doesn't store.
fn look(program: &Program<'_>, known: &[bool], function: &Function, least: &mut Option<Broken>)
    ensures { least.new ≡ least_from least.old (looking.look_broken (tables_in program.now)
        known.now (function_tree function.now)) }
{
    let good = !is_const(function.mark) || !statements_store(program, known, &function.body);
    expect(least, good, function.name.place, Rule::BadTx);
}

/// Checks each of these functions that is marked `const`.
#[tactic(auto, using(crate::proofs::Told::told_append))]
fn look_at(
    program: &Program<'_>,
    known: &[bool],
    functions: &[&Function],
    least: &mut Option<Broken>,
)
    ensures { least.new ≡ least_from least.old (looking.looks_broken (tables_in program.now)
        known.now (map function_tree (map (λ f. f.now) functions.now))) }
{
    for function in functions {
        look(program, known, function, least);
    }
}

/// Checks that the functions that are marked `const` don't store.
pub fn looks(
    alloc: Global,
    program: &Program<'_>,
    least: &mut Option<Broken>,
) -> Result<(), AllocError>
    ensures { OnOk result (least.new ≡ least_from least.old
        (looking.looks_broken (tables_in program.now) (looking.storing (tables_in program.now))
        (tables_in program.now).functions)) }
{
    let known = storing(alloc, program)?;
    look_at(program, &known, program.functions(), least);
    Ok(())
}
