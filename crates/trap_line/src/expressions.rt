//! The tokens of the instructions of expressions. Each function appends those of its code.

ghost use Rattle.std.specs.Prelude.{◌≡◌, ◌++◌, ◌∷◌, [], option_map, OnOk};
ghost use Rattle.c_tree.specs.ExprTree.{expr_of, ident_of, arguments_in};
ghost use Rattle.c_tree.specs.ExprTree as tree;
ghost use Rattle.lower.specs.Forms as forms;
ghost use Rattle.trap_line.specs.Spots as definitions;
ghost use Rattle.trap_line.specs.Spots.{exp_spots, target_spots, arguments_spots, form_spots};
ghost use Rattle.trap_line.specs.Spots.{or_spots, truth_spots, other_spots, never};

use crate::spot::{Spot, Spots};
use c_tree::expr::{Argument, BinaryOp, Expr, Name, UnaryOp};
use lower::{Form, form_of};
use std::alloc::AllocError;

/// An instruction that never traps.
pub(crate) fn push_never(spots: &mut Spots) -> Result<(), AllocError>
    ensures { OnOk result (spots.new ≡ spots.old ++ never ∷ []) }
{
    spots.push(Spot::at(0))
}

/// The token of a field, which a bad pointer is told at.
fn field_token(field: &Expr) -> u64
    ensures { result ≡ definitions.field_token (expr_of field.now) }
{
    match field {
        Expr::Arrow { place, .. } => *place,
        Expr::Root(name) => name.place,
        Expr::Number(_) => 0,
        Expr::Null => 0,
        Expr::Variable(_) => 0,
        Expr::Call { .. } => 0,
        Expr::New { .. } => 0,
        Expr::Index { .. } => 0,
        Expr::Unary { .. } => 0,
        Expr::Binary { .. } => 0,
        Expr::Conditional { .. } => 0,
    }
}

/// The tokens of an access to a target.
pub(crate) fn access(target: &Expr, log: u64) -> Spot
    ensures { result ≡ definitions.access (expr_of target.now) log }
{
    let (place, index) = match target {
        Expr::Arrow { place, .. } => (*place, *place),
        Expr::Root(name) => (name.place, name.place),
        Expr::Index { base, place, .. } => (field_token(base), *place),
        Expr::Number(_) => (0, 0),
        Expr::Null => (0, 0),
        Expr::Variable(_) => (0, 0),
        Expr::Call { .. } => (0, 0),
        Expr::New { .. } => (0, 0),
        Expr::Unary { .. } => (0, 0),
        Expr::Binary { .. } => (0, 0),
        Expr::Conditional { .. } => (0, 0),
    };
    Spot { place, index, log }
}

/// Appends those of an expression.
#[cycle(expressions)]
#[tactic(auto, using(crate::proofs::Trees::trees))]
pub(crate) fn push_expression(spots: &mut Spots, expr: &Expr) -> Result<(), AllocError>
    ensures { OnOk result (spots.new ≡ spots.old ++ exp_spots (expr_of expr.now)) }
{
    match expr {
        Expr::Number(_) => push_never(spots),
        Expr::Null => push_never(spots),
        Expr::Variable(_) => Ok(()),
        Expr::Call { name, arguments } => push_call(spots, name, arguments),
        Expr::Root(_) => spots.push(access(expr, 0)),
        Expr::New { place, .. } => spots.push(Spot::at(*place)),
        Expr::Arrow { base, .. } => {
            push_expression(spots, base)?;
            spots.push(access(expr, 0))
        }
        Expr::Index { base, index, .. } => {
            push_target(spots, base)?;
            push_expression(spots, index)?;
            spots.push(access(expr, 0))
        }
        Expr::Unary { op, operand, .. } => match op {
            UnaryOp::Negate => push_between(spots, operand),
            UnaryOp::Complement => push_between(spots, operand),
            UnaryOp::Cast(_) => push_expression(spots, operand),
            UnaryOp::Not => {
                push_expression(spots, operand)?;
                push_never(spots)?;
                push_never(spots)
            }
        },
        Expr::Binary {
            op,
            place,
            left,
            right,
        } => {
            push_expression(spots, left)?;
            push_right(spots, *op, *place, right)
        }
        Expr::Conditional {
            condition,
            left,
            right,
            ..
        } => {
            push_expression(spots, condition)?;
            push_never(spots)?;
            push_expression(spots, left)?;
            push_other_side(spots, right)
        }
    }
}

/// Appends those of a call: the arguments, the tick and the call.
#[cycle(expressions)]
#[tactic(auto, using(crate::proofs::Trees::trees))]
pub(crate) fn push_call(
    spots: &mut Spots,
    name: &Name,
    arguments: &[Argument],
) -> Result<(), AllocError>
    ensures { OnOk result (spots.new ≡ spots.old
        ++ exp_spots (tree.Call (ident_of name.now) (arguments_in arguments.now))) }
{
    push_arguments(spots, arguments)?;
    spots.push(Spot::at(name.place))?;
    spots.push(Spot::at(name.place))
}

#[cycle(expressions)]
#[tactic(auto, using(crate::proofs::Trees::trees))]
fn push_arguments(spots: &mut Spots, arguments: &[Argument]) -> Result<(), AllocError>
    ensures { OnOk result (spots.new
        ≡ spots.old ++ arguments_spots (arguments_in arguments.now)) }
{
    for argument in arguments {
        push_expression(spots, &argument.value)?;
    }
    Ok(())
}

/// Appends those of an operand between two instructions that never trap.
#[cycle(expressions)]
#[tactic(auto, using(crate::proofs::Trees::trees))]
fn push_between(spots: &mut Spots, operand: &Expr) -> Result<(), AllocError>
    ensures { OnOk result (spots.new
        ≡ spots.old ++ never ∷ (exp_spots (expr_of operand.now) ++ never ∷ [])) }
{
    push_never(spots)?;
    push_expression(spots, operand)?;
    push_never(spots)
}

/// Appends those of an operator and its right side.
#[cycle(expressions)]
#[tactic(auto, using(crate::proofs::Trees::trees))]
fn push_right(spots: &mut Spots, op: BinaryOp, place: u64, right: &Expr) -> Result<(), AllocError>
    ensures { OnOk result (spots.new ≡ spots.old
        ++ form_spots (forms.form_of op) place (exp_spots (expr_of right.now))) }
{
    match form_of(op) {
        Form::Both => {
            push_never(spots)?;
            push_expression(spots, right)?;
            push_truth(spots)
        }
        Form::Either => {
            push_never(spots)?;
            push_never(spots)?;
            push_expression(spots, right)?;
            push_truth(spots)
        }
        Form::Direct(_) => {
            push_expression(spots, right)?;
            spots.push(Spot::at(place))
        }
        Form::Exchanged(_) => {
            push_expression(spots, right)?;
            spots.push(Spot::at(place))
        }
    }
}

/// Appends those of the right side of `?`, with a copy after each side.
#[cycle(expressions)]
#[tactic(auto, using(crate::proofs::Trees::trees))]
fn push_other_side(spots: &mut Spots, right: &Expr) -> Result<(), AllocError>
    ensures { OnOk result (spots.new
        ≡ spots.old ++ other_spots (exp_spots (expr_of right.now))) }
{
    push_never(spots)?;
    push_never(spots)?;
    push_expression(spots, right)?;
    push_never(spots)
}

fn push_truth(spots: &mut Spots) -> Result<(), AllocError>
    ensures { OnOk result (spots.new ≡ spots.old ++ truth_spots) }
{
    push_never(spots)?;
    push_never(spots)?;
    push_never(spots)?;
    push_never(spots)
}

/// Appends those of the base and the index of a field or an element.
#[cycle(expressions)]
#[tactic(auto, using(crate::proofs::Trees::trees))]
pub(crate) fn push_target(spots: &mut Spots, target: &Expr) -> Result<(), AllocError>
    ensures { OnOk result (spots.new ≡ spots.old ++ target_spots (expr_of target.now)) }
{
    match target {
        Expr::Arrow { base, .. } => push_expression(spots, base),
        Expr::Index { base, index, .. } => {
            push_target(spots, base)?;
            push_expression(spots, index)
        }
        Expr::Root(_) => Ok(()),
        Expr::Number(_) => Ok(()),
        Expr::Null => Ok(()),
        Expr::Variable(_) => Ok(()),
        Expr::Call { .. } => Ok(()),
        Expr::New { .. } => Ok(()),
        Expr::Unary { .. } => Ok(()),
        Expr::Binary { .. } => Ok(()),
        Expr::Conditional { .. } => Ok(()),
    }
}

/// Appends those of an optional value, which is a constant if absent.
pub(crate) fn push_or(spots: &mut Spots, value: Option<&Expr>) -> Result<(), AllocError>
    ensures { OnOk result (spots.new
        ≡ spots.old ++ or_spots (option_map (λ e. expr_of e.now) value.entry)) }
{
    match value {
        None => push_never(spots),
        Some(value) => push_expression(spots, value),
    }
}
