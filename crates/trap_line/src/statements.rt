//! The tokens of the instructions of statements.

ghost use Rattle.std.specs.Prelude.{◌≡◌, ◌++◌, ◌∷◌, [], option_map, OnOk};
ghost use Rattle.c_tree.specs.ExprTree.{expr_of};
ghost use Rattle.c_tree.specs.StmtTree as tree;
ghost use Rattle.lower.specs.Names.{variable_of};
ghost use Rattle.trap_line.specs.Spots as definitions;
ghost use Rattle.trap_line.specs.Spots.{stmt_spots, statements_spots, simple_spots, set_spots};
ghost use Rattle.trap_line.specs.Spots.{update_spots, initial_spots, first_spots, third_spots};
ghost use Rattle.trap_line.specs.Spots.{or_spots, never};

use crate::expressions::{access, push_call, push_expression, push_never, push_or, push_target};
use crate::spot::{Spot, Spots};
use c_tree::expr::Expr;
use c_tree::stmt::{AssignOp, First, Initial, Simple, Stmt};
use lower::as_variable;
use std::alloc::AllocError;

/// Appends those of the statements of one block.
#[cycle(statements)]
#[tactic(auto, using(crate::proofs::Trees::trees))]
pub(crate) fn push_statements(spots: &mut Spots, all: &[Stmt]) -> Result<(), AllocError>
    ensures { OnOk result (spots.new ≡ spots.old ++ statements_spots (tree.statements_in all.now)) }
{
    for stmt in all {
        push_statement(spots, stmt)?;
    }
    Ok(())
}

#[cycle(statements)]
#[tactic(auto, using(crate::proofs::Trees::trees))]
fn push_statement(spots: &mut Spots, stmt: &Stmt) -> Result<(), AllocError>
    ensures { OnOk result (spots.new ≡ spots.old ++ stmt_spots (tree.stmt_of stmt.now)) }
{
    match stmt {
        Stmt::Empty => Ok(()),
        Stmt::Declare(declaration) => push_initial(spots, &declaration.initial),
        Stmt::Simple(simple) => push_simple(spots, simple),
        Stmt::Block(all) => push_statements(spots, all),
        Stmt::If {
            condition,
            body,
            other,
        } => {
            push_expression(spots, condition)?;
            push_never(spots)?;
            push_statement(spots, body)?;
            match other {
                None => Ok(()),
                Some(other) => {
                    push_never(spots)?;
                    push_statement(spots, other)
                }
            }
        }
        Stmt::While {
            place,
            condition,
            body,
        } => {
            spots.push(Spot::at(*place))?;
            push_expression(spots, condition)?;
            push_never(spots)?;
            push_statement(spots, body)?;
            push_never(spots)
        }
        Stmt::Do {
            place,
            body,
            condition,
        } => {
            push_statement(spots, body)?;
            spots.push(Spot::at(*place))?;
            push_expression(spots, condition)?;
            push_never(spots)?;
            push_never(spots)
        }
        Stmt::For {
            place,
            first,
            condition,
            third,
            body,
        } => {
            push_first(spots, first)?;
            spots.push(Spot::at(*place))?;
            push_or(spots, condition.as_ref())?;
            push_never(spots)?;
            push_statement(spots, body)?;
            push_third(spots, third)?;
            push_never(spots)
        }
        Stmt::Break => push_never(spots),
        Stmt::Continue => push_never(spots),
        Stmt::Return { value, .. } => {
            push_or(spots, value.as_ref())?;
            push_never(spots)
        }
    }
}

/// Appends those of the first value of a variable.
fn push_initial(spots: &mut Spots, initial: &Option<Initial>) -> Result<(), AllocError>
    ensures { OnOk result (spots.new
        ≡ spots.old ++ initial_spots (option_map tree.initial_of initial.now)) }
{
    match initial {
        None => push_never(spots),
        Some(initial) => {
            push_expression(spots, &initial.value)?;
            push_never(spots)
        }
    }
}

fn push_first(spots: &mut Spots, first: &Option<First>) -> Result<(), AllocError>
    ensures { OnOk result (spots.new
        ≡ spots.old ++ first_spots (option_map tree.tree_of_first first.now)) }
{
    match first {
        None => Ok(()),
        Some(part) => match part {
            First::Declare(declaration) => push_initial(spots, &declaration.initial),
            First::Simple(simple) => push_simple(spots, simple),
        },
    }
}

fn push_third(spots: &mut Spots, third: &Option<Simple>) -> Result<(), AllocError>
    ensures { OnOk result (spots.new
        ≡ spots.old ++ third_spots (option_map tree.simple_of third.now)) }
{
    match third {
        None => Ok(()),
        Some(third) => push_simple(spots, third),
    }
}

/// Appends those of a simple statement.
fn push_simple(spots: &mut Spots, simple: &Simple) -> Result<(), AllocError>
    ensures { OnOk result (spots.new ≡ spots.old ++ simple_spots (tree.simple_of simple.now)) }
{
    match simple {
        Simple::Assign {
            target,
            op,
            place,
            value,
        } => match op {
            AssignOp::Set => push_set(spots, target, *place, value),
            AssignOp::Update(_) => push_update(spots, target, *place, Some(value)),
        },
        Simple::Step { target, place, .. } => push_update(spots, target, *place, None),
        Simple::Call { name, arguments } => push_call(spots, name, arguments),
        Simple::Free { place, pointer } => {
            push_expression(spots, pointer)?;
            spots.push(Spot::at(*place))
        }
        Simple::Abort { place } => spots.push(Spot::at(*place)),
    }
}

/// Appends those of `=`.
fn push_set(spots: &mut Spots, target: &Expr, place: u64, value: &Expr) -> Result<(), AllocError>
    ensures { OnOk result (spots.new ≡ spots.old ++ set_spots (variable_of (expr_of target.now))
        (expr_of target.now) place (expr_of value.now)) }
{
    match as_variable(target) {
        Some(_) => {
            push_expression(spots, value)?;
            push_never(spots)
        }
        None => {
            push_target(spots, target)?;
            push_expression(spots, value)?;
            spots.push(access(target, place))
        }
    }
}

/// Appends those of an assignment with an operator, `++` and `--`. A division's is the operator.
fn push_update(
    spots: &mut Spots,
    target: &Expr,
    place: u64,
    value: Option<&Expr>,
) -> Result<(), AllocError>
    ensures { OnOk result (spots.new ≡ spots.old ++ update_spots (variable_of (expr_of target.now))
        (expr_of target.now) place (option_map (λ e. expr_of e.now) value.entry)) }
{
    match as_variable(target) {
        Some(_) => {
            push_or(spots, value)?;
            spots.push(Spot::at(place))?;
            push_never(spots)
        }
        None => {
            push_target(spots, target)?;
            spots.push(access(target, 0))?;
            push_or(spots, value)?;
            spots.push(Spot::at(place))?;
            spots.push(access(target, place))
        }
    }
}
