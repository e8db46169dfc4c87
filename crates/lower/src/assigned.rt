//! Whether a function assigns one of its parameters.

ghost use Rattle.std.specs.Prelude.{◌≡◌, option_map};
ghost use Rattle.c_tree.specs.ExprTree.{expr_of};
ghost use Rattle.c_tree.specs.StmtTree as tree;
ghost use Rattle.lower.specs.Assigned as meaning;

use crate::names::as_variable;
use c_tree::expr::Expr;
use c_tree::stmt::{First, Simple, Stmt};

/// Whether the statements of one block assign the variable of that name. After another declaration
/// of the name it means another variable.
#[cycle(assigned)]
#[tactic(auto, using(crate::proofs::Blocks::blocks))]
pub fn is_assigned(all: &[Stmt], name: &str) -> bool
    ensures { result ≡ meaning.is_assigned name.now (tree.statements_in all.now) }
{
    for stmt in all {
        if declares(stmt, name) {
            return false;
        }
        if assigns(stmt, name) {
            return true;
        }
    }
    false
}

fn declares(stmt: &Stmt, name: &str) -> bool
    ensures { result ≡ meaning.declares name.now (tree.stmt_of stmt.now) }
{
    match stmt {
        Stmt::Declare(declaration) => declaration.name.text.as_str() == name,
        Stmt::Empty => false,
        Stmt::Simple(_) => false,
        Stmt::Block(_) => false,
        Stmt::If { .. } => false,
        Stmt::While { .. } => false,
        Stmt::Do { .. } => false,
        Stmt::For { .. } => false,
        Stmt::Break => false,
        Stmt::Continue => false,
        Stmt::Return { .. } => false,
    }
}

#[cycle(assigned)]
#[tactic(auto, using(crate::proofs::Blocks::blocks))]
fn assigns(stmt: &Stmt, name: &str) -> bool
    ensures { result ≡ meaning.assigns_name name.now (tree.stmt_of stmt.now) }
{
    match stmt {
        Stmt::Simple(simple) => is_assignment(simple, name),
        Stmt::Block(all) => is_assigned(all, name),
        Stmt::If { body, other, .. } => {
            if assigns(body, name) {
                return true;
            }
            match other {
                None => false,
                Some(other) => assigns(other, name),
            }
        }
        Stmt::While { body, .. } => assigns(body, name),
        Stmt::Do { body, .. } => assigns(body, name),
        Stmt::For {
            first,
            third,
            body,
            ..
        } => {
            if first_declares(first, name) {
                return false;
            }
            first_assigns(first, name) || third_assigns(third, name) || assigns(body, name)
        }
        Stmt::Empty => false,
        Stmt::Declare(_) => false,
        Stmt::Break => false,
        Stmt::Continue => false,
        Stmt::Return { .. } => false,
    }
}

fn first_declares(first: &Option<First>, name: &str) -> bool
    ensures { result ≡ meaning.first_declares name.now (option_map tree.tree_of_first first.now) }
{
    match first {
        None => false,
        Some(part) => match part {
            First::Declare(declaration) => declaration.name.text.as_str() == name,
            First::Simple(_) => false,
        },
    }
}

fn first_assigns(first: &Option<First>, name: &str) -> bool
    ensures { result ≡ meaning.first_assigns name.now (option_map tree.tree_of_first first.now) }
{
    match first {
        None => false,
        Some(part) => match part {
            First::Declare(_) => false,
            First::Simple(simple) => is_assignment(simple, name),
        },
    }
}

fn third_assigns(third: &Option<Simple>, name: &str) -> bool
    ensures { result ≡ meaning.third_assigns name.now (option_map tree.simple_of third.now) }
{
    match third {
        None => false,
        Some(third) => is_assignment(third, name),
    }
}

fn is_assignment(simple: &Simple, name: &str) -> bool
    ensures { result ≡ meaning.is_assignment name.now (tree.simple_of simple.now) }
{
    match simple {
        Simple::Assign { target, .. } => is_named(target, name),
        Simple::Step { target, .. } => is_named(target, name),
        Simple::Call { .. } => false,
        Simple::Free { .. } => false,
        Simple::Abort { .. } => false,
    }
}

fn is_named(target: &Expr, name: &str) -> bool
    ensures { result ≡ meaning.is_named name.now (expr_of target.now) }
{
    match as_variable(target) {
        None => false,
        Some(variable) => variable.text.as_str() == name,
    }
}
