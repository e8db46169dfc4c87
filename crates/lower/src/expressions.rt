//! The code of expressions. Each function appends code and returns the register that then holds the
//! value: the variable's own, or one that no other expression has.

ghost use Rattle.std.specs.Prelude.{◌≡◌, ℕ, false, ◌++◌, length, option_map, IfOk, OnOk};
ghost use Rattle.c_tree.specs.ExprTree.{expr_of, ident_of, arguments_in};
ghost use Rattle.c_tree.specs.ExprTree as tree;
ghost use Rattle.ir.specs.declared.instruction.Instruction.TheVariants as put;
ghost use Rattle.lower.specs.declared.form.Form.TheVariants as forms;
ghost use Rattle.lower.specs.inside.Added.{Put, ExprAdded, RightAdded, TargetAdded, ReadAdded};
ghost use Rattle.lower.specs.inside.Added.{LeftAdded, OtherAdded, ArgumentsAdded, OrAdded};
ghost use Rattle.lower.specs.inside.Added.{context_of};
ghost use Rattle.c_tree.specs.Program.{source_line};
ghost use Rattle.c_types.specs.Views.{tables_in};
ghost use Rattle.lower.specs.inside.Added as added;
ghost use Rattle.lower.specs.Lowers.{truth_code};
ghost use Rattle.lower.specs.Names as names;

use crate::code::Code;
use crate::form::{Form, form_of, typed_form};
use crate::names::{element, field_target, function_number, kind_named, no_target, root_target};
use crate::source::Source;
use crate::variables::Variables;
use c_tree::expr::{Argument, Expr, Name, UnaryOp};
use c_types::sides_type;
use ir::{Instruction, Target};
use nvm_base::{BinOp, Registers};
use std::alloc::AllocError;

/// Appends the code of an expression.
#[cycle(expressions)]
#[tactic(auto, using(crate::proofs::ExprAdds::expressions))]
pub fn add_expression(
    source: &Source<'_, '_>,
    variables: &Variables<'_>,
    code: &mut Code,
    expr: &Expr,
) -> Result<u32, AllocError>
    ensures { IfOk result (λ r. ExprAdded (context_of source.now) variables.now (expr_of expr.now)
        code.old code.new r) }
{
    match expr {
        Expr::Number(value) => add_constant(source, code, *value),
        Expr::Null => add_constant(source, code, 0),
        Expr::Variable(name) => Ok(variables.register_of(name.text.as_str())),
        Expr::Call { name, arguments } => add_call(source, variables, code, name, arguments),
        Expr::Root(_) => add_read(source, variables, code, expr),
        Expr::Arrow { .. } => add_read(source, variables, code, expr),
        Expr::Index { .. } => add_read(source, variables, code, expr),
        Expr::New { place, name } => add_new(source, code, *place, name),
        Expr::Unary { op, operand, .. } => add_unary(source, variables, code, *op, operand),
        Expr::Binary {
            op,
            left,
            right,
            ..
        } => {
            let int = sides_type(source.program, variables.scopes(), *op, left, right);
            let form = typed_form(int, form_of(*op));
            let on = add_expression(source, variables, code, left)?;
            add_right(source, variables, code, form, on, right)
        }
        Expr::Conditional {
            condition,
            left,
            right,
            ..
        } => {
            let on = add_expression(source, variables, code, condition)?;
            let left = add_left_side(source, variables, code, on, left)?;
            add_right_side(source, variables, code, left, right)
        }
    }
}

/// Appends a constant.
pub fn add_constant(source: &Source<'_, '_>, code: &mut Code, value: i64) -> Result<u32, AllocError>
    ensures { IfOk result (λ r. Put (context_of source.now) (λ to. put.Const to value) code.old
        code.new r) }
{
    let to = source.register(code.end() + 1);
    code.push(Instruction::Const { to, value })?;
    Ok(to)
}

/// Appends an operation on two registers.
pub fn add_operation(
    source: &Source<'_, '_>,
    code: &mut Code,
    op: BinOp,
    left: u32,
    right: u32,
) -> Result<u32, AllocError>
    ensures { IfOk result (λ r. Put (context_of source.now) (λ to. put.Bin op to left right)
        code.old code.new r) }
{
    let to = source.register(code.end() + 1);
    code.push(Instruction::Bin {
        op,
        to,
        left,
        right,
    })?;
    Ok(to)
}

/// Appends a load.
pub fn add_load(source: &Source<'_, '_>, code: &mut Code, target: Target) -> Result<u32, AllocError>
    ensures { IfOk result (λ r. Put (context_of source.now) (λ to. put.Load to target) code.old
        code.new r) }
{
    let to = source.register(code.end() + 1);
    code.push(Instruction::Load { to, target })?;
    Ok(to)
}

/// Appends a copy of a register into a new one.
pub fn add_copy(source: &Source<'_, '_>, code: &mut Code, from: u32) -> Result<u32, AllocError>
    ensures { IfOk result (λ r. Put (context_of source.now) (λ to. put.Copy to from) code.old
        code.new r) }
{
    let to = source.register(code.end() + 1);
    code.push(Instruction::Copy { to, from })?;
    Ok(to)
}

/// Appends an optional value, which is a constant if absent.
#[tactic(auto, using(crate::proofs::ExprAdds::expressions))]
pub fn add_or_constant(
    source: &Source<'_, '_>,
    variables: &Variables<'_>,
    code: &mut Code,
    value: &Option<Expr>,
    absent: i64,
) -> Result<u32, AllocError>
    ensures { IfOk result (λ r. OrAdded (context_of source.now) variables.now absent
        (option_map expr_of value.now) code.old code.new r) }
{
    match value {
        None => add_constant(source, code, absent),
        Some(value) => add_expression(source, variables, code, value),
    }
}

/// Appends a call: the arguments from left to right, a tick, and the call.
#[cycle(expressions)]
#[tactic(auto, using(crate::proofs::ExprAdds::expressions))]
pub fn add_call(
    source: &Source<'_, '_>,
    variables: &Variables<'_>,
    code: &mut Code,
    name: &Name,
    arguments: &[Argument],
) -> Result<u32, AllocError>
    ensures { IfOk result (λ r. ExprAdded (context_of source.now) variables.now
        (tree.Call (ident_of name.now) (arguments_in arguments.now)) code.old code.new r) }
{
    let args = add_arguments(source, variables, code, arguments)?;
    let to = source.register(code.end() + 2);
    let function = function_number(source.program, name);
    code.push(Instruction::Tick)?;
    code.push(Instruction::Call { to, function, args })?;
    Ok(to)
}

#[cycle(expressions)]
#[tactic(auto, using(crate::proofs::ExprAdds::expressions))]
fn add_arguments(
    source: &Source<'_, '_>,
    variables: &Variables<'_>,
    code: &mut Code,
    arguments: &[Argument],
) -> Result<Registers, AllocError>
    ensures { IfOk result (λ rs. ArgumentsAdded (context_of source.now) variables.now
        (arguments_in arguments.now) code.old code.new rs) }
{
    let mut registers = Registers::new(source.alloc);
    for argument in arguments {
        let register = add_expression(source, variables, code, &argument.value)?;
        registers.push(register)?;
    }
    Ok(registers)
}

/// Appends a new object. The line is that of `pm_new`.
fn add_new(
    source: &Source<'_, '_>,
    code: &mut Code,
    place: u64,
    name: &Name,
) -> Result<u32, AllocError>
    ensures { IfOk result (λ r. Put (context_of source.now)
        (λ to. put.New to (names.kind_named (tables_in source.now.program.now) name.now.text) false
        (source_line source.now.ast.now place)) code.old code.new r) }
{
    let to = source.register(code.end() + 1);
    code.push(Instruction::New {
        to,
        kind: kind_named(source.program, name),
        log_fill: false,
        line: source.ast.line(place),
    })?;
    Ok(to)
}

/// Appends a field or an element as a value: one load.
#[cycle(expressions)]
#[tactic(auto, using(crate::proofs::ExprAdds::expressions))]
fn add_read(
    source: &Source<'_, '_>,
    variables: &Variables<'_>,
    code: &mut Code,
    expr: &Expr,
) -> Result<u32, AllocError>
    ensures { IfOk result (λ r. ReadAdded (context_of source.now) variables.now (expr_of expr.now)
        code.old code.new r) }
{
    let target = add_target(source, variables, code, expr)?;
    add_load(source, code, target)
}

/// Appends the code of the base and the index of a field or an element, and returns its target.
#[cycle(expressions)]
#[tactic(auto, using(crate::proofs::ExprAdds::expressions))]
pub fn add_target(
    source: &Source<'_, '_>,
    variables: &Variables<'_>,
    code: &mut Code,
    expr: &Expr,
) -> Result<Target, AllocError>
    ensures { IfOk result (λ t. TargetAdded (context_of source.now) variables.now (expr_of expr.now)
        code.old code.new t) }
{
    match expr {
        Expr::Root(field) => Ok(root_target(source.program, field)),
        Expr::Arrow { base, field, .. } => {
            let register = add_expression(source, variables, code, base)?;
            let scopes = variables.scopes();
            Ok(field_target(source.program, scopes, base, register, field))
        }
        Expr::Index { base, index, .. } => {
            let array = add_target(source, variables, code, base)?;
            let register = add_expression(source, variables, code, index)?;
            Ok(element(array, register))
        }
        Expr::Number(_) => Ok(no_target()),
        Expr::Null => Ok(no_target()),
        Expr::Variable(_) => Ok(no_target()),
        Expr::Call { .. } => Ok(no_target()),
        Expr::New { .. } => Ok(no_target()),
        Expr::Unary { .. } => Ok(no_target()),
        Expr::Binary { .. } => Ok(no_target()),
        Expr::Conditional { .. } => Ok(no_target()),
    }
}

/// Appends a unary operation: `-e` is 0 - e, `~e` is -1 ^ e, `!e` is e == 0; a cast has no code.
#[cycle(expressions)]
#[tactic(auto, using(crate::proofs::ExprAdds::expressions))]
fn add_unary(
    source: &Source<'_, '_>,
    variables: &Variables<'_>,
    code: &mut Code,
    op: UnaryOp,
    operand: &Expr,
) -> Result<u32, AllocError>
    ensures { IfOk result (λ r. (place : ℕ)
        → ExprAdded (context_of source.now) variables.now
        (tree.Unary op place (expr_of operand.now)) code.old code.new r) }
{
    match op {
        UnaryOp::Negate => add_constant_first(source, variables, code, 0, BinOp::Sub, operand),
        UnaryOp::Complement => add_constant_first(source, variables, code, -1, BinOp::Xor, operand),
        UnaryOp::Cast(_) => add_expression(source, variables, code, operand),
        UnaryOp::Not => {
            let value = add_expression(source, variables, code, operand)?;
            let zero = add_constant(source, code, 0)?;
            add_operation(source, code, BinOp::Eq, value, zero)
        }
    }
}

/// Appends an operation on a constant and an expression.
#[cycle(expressions)]
#[tactic(auto, using(crate::proofs::ExprAdds::expressions))]
fn add_constant_first(
    source: &Source<'_, '_>,
    variables: &Variables<'_>,
    code: &mut Code,
    value: i64,
    op: BinOp,
    operand: &Expr,
) -> Result<u32, AllocError>
    ensures { IfOk result (λ r. added.FirstConstant (context_of source.now) variables.now value op
        (expr_of operand.now) code.old code.new r) }
{
    let left = add_constant(source, code, value)?;
    let right = add_expression(source, variables, code, operand)?;
    add_operation(source, code, op, left, right)
}

/// Appends an operator and its right side; the left side is in the register `on`.
#[cycle(expressions)]
#[tactic(auto, using(crate::proofs::ExprAdds::expressions))]
fn add_right(
    source: &Source<'_, '_>,
    variables: &Variables<'_>,
    code: &mut Code,
    form: Form,
    on: u32,
    right: &Expr,
) -> Result<u32, AllocError>
    ensures { IfOk result (λ r. RightAdded (context_of source.now) variables.now form on
        (expr_of right.now) code.old code.new r) }
{
    match form {
        Form::Both => add_both(source, variables, code, on, right),
        Form::Either => add_either(source, variables, code, on, right),
        Form::Direct(op) => {
            let right = add_expression(source, variables, code, right)?;
            add_operation(source, code, op, on, right)
        }
        Form::Exchanged(op) => {
            let right = add_expression(source, variables, code, right)?;
            add_operation(source, code, op, right, on)
        }
    }
}

/// Appends `&&`: if one side is 0 the rest is skipped and the value is 0, else it is 1.
#[cycle(expressions)]
#[tactic(auto, using(crate::proofs::ExprAdds::expressions))]
fn add_both(
    source: &Source<'_, '_>,
    variables: &Variables<'_>,
    code: &mut Code,
    on: u32,
    right: &Expr,
) -> Result<u32, AllocError>
    ensures { IfOk result (λ r. RightAdded (context_of source.now) variables.now forms.Both on
        (expr_of right.now) code.old code.new r) }
{
    let first = code.end();
    code.push(Instruction::Branch { on, place: 0 })?;
    let right = add_expression(source, variables, code, right)?;
    let second = code.end();
    let to = source.register(second + 4);
    add_outcome(code, right, to)?;
    let place = second + 3;
    code.set(first, Instruction::Branch { on, place });
    Ok(to)
}

/// Appends `||`: if the left side isn't 0 the right side is skipped.
#[cycle(expressions)]
#[tactic(auto, using(crate::proofs::ExprAdds::expressions))]
fn add_either(
    source: &Source<'_, '_>,
    variables: &Variables<'_>,
    code: &mut Code,
    on: u32,
    right: &Expr,
) -> Result<u32, AllocError>
    ensures { IfOk result (λ r. RightAdded (context_of source.now) variables.now forms.Either on
        (expr_of right.now) code.old code.new r) }
{
    let first = code.end();
    let place = first + 2;
    code.push(Instruction::Branch { on, place })?;
    code.push(Instruction::Jump { place: 0 })?;
    let right = add_expression(source, variables, code, right)?;
    let second = code.end();
    let to = source.register(second + 4);
    add_outcome(code, right, to)?;
    let place = second + 1;
    code.set(first + 1, Instruction::Jump { place });
    Ok(to)
}

/// Appends the left side of `?` after a branch over it; the condition is in the register `on`.
#[cycle(expressions)]
#[tactic(auto, using(crate::proofs::ExprAdds::expressions))]
fn add_left_side(
    source: &Source<'_, '_>,
    variables: &Variables<'_>,
    code: &mut Code,
    on: u32,
    left: &Expr,
) -> Result<u32, AllocError>
    ensures { IfOk result (λ r. LeftAdded (context_of source.now) variables.now on
        (expr_of left.now) code.old code.new r) }
{
    let first = code.end();
    code.push(Instruction::Branch { on, place: 0 })?;
    let left = add_expression(source, variables, code, left)?;
    let place = code.end() + 2;
    code.set(first, Instruction::Branch { on, place });
    Ok(left)
}

/// Appends the right side of `?`, and after each side a copy to the same register; the left side
/// is in the register `left`.
#[cycle(expressions)]
#[tactic(auto, using(crate::proofs::ExprAdds::expressions))]
fn add_right_side(
    source: &Source<'_, '_>,
    variables: &Variables<'_>,
    code: &mut Code,
    left: u32,
    right: &Expr,
) -> Result<u32, AllocError>
    ensures { IfOk result (λ r. OtherAdded (context_of source.now) variables.now left
        (expr_of right.now) code.old code.new r) }
{
    let second = code.end();
    code.push(Instruction::Copy { to: 0, from: left })?;
    code.push(Instruction::Jump { place: 0 })?;
    let from = add_expression(source, variables, code, right)?;
    let last = code.end();
    let to = source.register(last + 1);
    code.push(Instruction::Copy { to, from })?;
    code.set(second, Instruction::Copy { to, from: left });
    let place = last + 1;
    code.set(second + 1, Instruction::Jump { place });
    Ok(to)
}

/// Appends 1 if a register isn't 0, else 0: four instructions, of which the second assigns 1 and
/// the last assigns 0.
#[tactic(auto, using(crate::proofs::ExprAdds::expressions))]
fn add_outcome(code: &mut Code, on: u32, to: u32) -> Result<(), AllocError>
    ensures { OnOk result (code.new ≡ code.old ++ truth_code on to (length code.old)) }
{
    let first = code.end();
    let place = first + 3;
    code.push(Instruction::Branch { on, place })?;
    code.push(Instruction::Const { to, value: 1 })?;
    let place = first + 4;
    code.push(Instruction::Jump { place })?;
    code.push(Instruction::Const { to, value: 0 })
}
