//! The code of statements. Each function appends code. `again` is the target of `continue`; `break`
//! leads to a hole, which the loop fills.

ghost use Rattle.std.specs.Prelude.{◌≡◌, ◌≤◌, pos, option_map, Some, OnOk, IfOk};
ghost use Rattle.c_tree.specs.ExprTree.{expr_of};
ghost use Rattle.c_tree.specs.StmtTree as tree;
ghost use Rattle.c_tree.specs.declared.stmt.AssignOp.TheVariants as assign;
ghost use Rattle.lower.specs.inside.Added as added;
ghost use Rattle.lower.specs.inside.Added.{context_of};
ghost use Rattle.lower.specs.inside.Holes as holes;
ghost use Rattle.lower.specs.Lowers as lowers;

use crate::code::{Code, LEAVE, NEXT};
use crate::expressions::{
    add_call, add_constant, add_copy, add_expression, add_load, add_operation, add_or_constant,
    add_target,
};
use crate::form::operation_of;
use crate::names::{as_variable, kind_of_object};
use crate::source::Source;
use crate::variables::Variables;
use c_tree::expr::Expr;
use c_tree::stmt::{AssignOp, Declaration, First, Initial, Simple, StepOp, Stmt, UpdateOp};
use c_types::sides_type;
use ir::Instruction;
use nvm_base::BinOp;
use pool_map::TrapKind;
use std::alloc::AllocError;

/// Appends the statements of one block, in the innermost scope.
#[cycle(statements)]
#[tactic(auto, using(crate::proofs::StmtAdds::statements))]
pub fn add_statements<'a>(
    source: &Source<'_, 'a>,
    variables: &mut Variables<'a>,
    code: &mut Code,
    again: u32,
    all: &'a [Stmt],
) -> Result<(), AllocError>
    ensures { OnOk result (added.StatementsAdded (context_of source.now) variables.old
        (tree.statements_in all.now) holes.leave again code.old code.new variables.new) }
{
    for stmt in all {
        add_statement(source, variables, code, again, stmt)?;
    }
    Ok(())
}

#[cycle(statements)]
#[tactic(auto, using(crate::proofs::StmtAdds::statements))]
fn add_statement<'a>(
    source: &Source<'_, 'a>,
    variables: &mut Variables<'a>,
    code: &mut Code,
    again: u32,
    stmt: &'a Stmt,
) -> Result<(), AllocError>
    ensures { OnOk result (added.StmtAdded (context_of source.now) variables.old
        (tree.stmt_of stmt.now) holes.leave again code.old code.new variables.new) }
{
    match stmt {
        Stmt::Empty => Ok(()),
        Stmt::Declare(declaration) => add_declaration(source, variables, code, declaration),
        Stmt::Simple(simple) => add_simple(source, variables, code, simple),
        Stmt::Block(all) => add_block(source, variables, code, again, all),
        Stmt::If {
            condition,
            body,
            other,
        } => match other {
            None => add_if(source, variables, code, again, body, condition, 0),
            Some(other) => {
                add_if(source, variables, code, again, body, condition, 1)?;
                add_else(source, variables, code, again, other)
            }
        },
        Stmt::While {
            condition,
            body,
            ..
        } => add_while(source, variables, code, body, condition),
        Stmt::Do {
            body,
            condition,
            ..
        } => add_do(source, variables, code, body, condition),
        Stmt::For {
            first,
            condition,
            third,
            body,
            ..
        } => {
            variables.open(source.alloc)?;
            add_first(source, variables, code, first)?;
            add_for(source, variables, code, condition, third, body)?;
            variables.close();
            Ok(())
        }
        Stmt::Break => code.push(Instruction::Jump { place: LEAVE }),
        Stmt::Continue => code.push(Instruction::Jump { place: again }),
        Stmt::Return { value, .. } => add_return(source, variables, code, value),
    }
}

/// Appends a block in a scope of its own.
#[cycle(statements)]
#[tactic(auto, using(crate::proofs::StmtAdds::statements))]
fn add_block<'a>(
    source: &Source<'_, 'a>,
    variables: &mut Variables<'a>,
    code: &mut Code,
    again: u32,
    all: &'a [Stmt],
) -> Result<(), AllocError>
    ensures { OnOk result (added.StmtAdded (context_of source.now) variables.old
        (tree.Block (tree.statements_in all.now)) holes.leave again code.old code.new
        variables.new) }
{
    variables.open(source.alloc)?;
    add_statements(source, variables, code, again, all)?;
    variables.close();
    Ok(())
}

/// Appends a body in a scope of its own.
#[cycle(statements)]
#[tactic(auto, using(crate::proofs::StmtAdds::statements))]
fn add_body<'a>(
    source: &Source<'_, 'a>,
    variables: &mut Variables<'a>,
    code: &mut Code,
    again: u32,
    body: &'a Stmt,
) -> Result<(), AllocError>
    ensures { OnOk result (added.BodyAdded (context_of source.now) variables.old
        (tree.stmt_of body.now) holes.leave again code.old code.new variables.new) }
{
    variables.open(source.alloc)?;
    add_statement(source, variables, code, again, body)?;
    variables.close();
    Ok(())
}

/// Appends a condition and the body. If the condition is 0, the code goes on `afterwards` places
/// after the body.
#[cycle(statements)]
#[tactic(auto, using(crate::proofs::StmtAdds::statements))]
fn add_if<'a>(
    source: &Source<'_, 'a>,
    variables: &mut Variables<'a>,
    code: &mut Code,
    again: u32,
    body: &'a Stmt,
    condition: &Expr,
    afterwards: u32,
) -> Result<(), AllocError>
    requires { afterwards ≤ 1 }
    ensures { OnOk result (added.IfAdded (context_of source.now) variables.old
        (expr_of condition.now) (tree.stmt_of body.now) holes.leave again afterwards
        code.old code.new
        variables.new) }
{
    let on = add_expression(source, variables, code, condition)?;
    let first = code.end();
    code.push(Instruction::Branch { on, place: 0 })?;
    add_body(source, variables, code, again, body)?;
    let second = code.end();
    let place = second + afterwards;
    code.set(first, Instruction::Branch { on, place });
    Ok(())
}

/// Appends the `else` part, preceded by a jump over it.
#[cycle(statements)]
#[tactic(auto, using(crate::proofs::StmtAdds::statements))]
fn add_else<'a>(
    source: &Source<'_, 'a>,
    variables: &mut Variables<'a>,
    code: &mut Code,
    again: u32,
    other: &'a Stmt,
) -> Result<(), AllocError>
    ensures { OnOk result (added.ElseAdded (context_of source.now) variables.old
        (tree.stmt_of other.now) holes.leave again code.old code.new variables.new) }
{
    let first = code.end();
    code.push(Instruction::Jump { place: 0 })?;
    add_body(source, variables, code, again, other)?;
    let place = code.end();
    code.set(first, Instruction::Jump { place });
    Ok(())
}

/// Appends a tick, the condition, the body, and the jump back.
#[cycle(statements)]
#[tactic(auto, using(crate::proofs::StmtAdds::statements))]
fn add_while<'a>(
    source: &Source<'_, 'a>,
    variables: &mut Variables<'a>,
    code: &mut Code,
    body: &'a Stmt,
    condition: &Expr,
) -> Result<(), AllocError>
    ensures { OnOk result (added.WhileAdded (context_of source.now) variables.old
        (expr_of condition.now) (tree.stmt_of body.now) code.old code.new variables.new) }
{
    let top = code.end();
    code.push(Instruction::Tick)?;
    let on = add_expression(source, variables, code, condition)?;
    let first = code.end();
    code.push(Instruction::Branch { on, place: 0 })?;
    add_body(source, variables, code, top, body)?;
    let last = code.end();
    code.push(Instruction::Jump { place: top })?;
    let place = last + 1;
    code.set(first, Instruction::Branch { on, place });
    code.fill(LEAVE, first + 1, place);
    Ok(())
}

/// Appends the body, a tick, the condition, and the jump back to the body. `continue` leads to the
/// tick.
#[cycle(statements)]
#[tactic(auto, using(crate::proofs::StmtAdds::statements))]
fn add_do<'a>(
    source: &Source<'_, 'a>,
    variables: &mut Variables<'a>,
    code: &mut Code,
    body: &'a Stmt,
    condition: &Expr,
) -> Result<(), AllocError>
    ensures { OnOk result (added.DoAdded (context_of source.now) variables.old
        (tree.stmt_of body.now) (expr_of condition.now) code.old code.new variables.new) }
{
    let top = code.end();
    add_body(source, variables, code, NEXT, body)?;
    let again = code.end();
    code.fill(NEXT, top, again);
    code.push(Instruction::Tick)?;
    let on = add_expression(source, variables, code, condition)?;
    let place = code.end() + 2;
    code.push(Instruction::Branch { on, place })?;
    code.push(Instruction::Jump { place: top })?;
    code.fill(LEAVE, top, place);
    Ok(())
}

/// Appends a `for` after its first part: a tick, the condition, the body, the third part, and the
/// jump back. `continue` leads to the third part.
#[cycle(statements)]
#[tactic(auto, using(crate::proofs::StmtAdds::statements))]
fn add_for<'a>(
    source: &Source<'_, 'a>,
    variables: &mut Variables<'a>,
    code: &mut Code,
    condition: &Option<Expr>,
    third: &Option<Simple>,
    body: &'a Stmt,
) -> Result<(), AllocError>
    ensures { OnOk result (added.ForAdded (context_of source.now) variables.old
        (option_map expr_of condition.now) (option_map tree.simple_of third.now)
        (tree.stmt_of body.now) code.old code.new variables.new) }
{
    let top = code.end();
    code.push(Instruction::Tick)?;
    let on = add_or_constant(source, variables, code, condition, 1)?;
    let first = code.end();
    code.push(Instruction::Branch { on, place: 0 })?;
    add_body(source, variables, code, NEXT, body)?;
    let second = code.end();
    add_third(source, variables, code, third)?;
    let last = code.end();
    code.push(Instruction::Jump { place: top })?;
    let place = last + 1;
    code.set(first, Instruction::Branch { on, place });
    code.fill(NEXT, first + 1, second);
    code.fill(LEAVE, first + 1, place);
    Ok(())
}

/// Appends the first part of a `for`.
#[tactic(auto, using(crate::proofs::StmtAdds::statements))]
fn add_first<'a>(
    source: &Source<'_, 'a>,
    variables: &mut Variables<'a>,
    code: &mut Code,
    first: &'a Option<First>,
) -> Result<(), AllocError>
    ensures { OnOk result (added.FirstAdded (context_of source.now) variables.old
        (option_map tree.tree_of_first first.now) code.old code.new variables.new) }
{
    match first {
        None => Ok(()),
        Some(part) => match part {
            First::Declare(declaration) => add_declaration(source, variables, code, declaration),
            First::Simple(simple) => add_simple(source, variables, code, simple),
        },
    }
}

/// Appends the third part of a `for`.
#[tactic(auto, using(crate::proofs::StmtAdds::statements))]
fn add_third(
    source: &Source<'_, '_>,
    variables: &Variables<'_>,
    code: &mut Code,
    third: &Option<Simple>,
) -> Result<(), AllocError>
    ensures { OnOk result (added.ThirdAdded (context_of source.now) variables.now
        (option_map tree.simple_of third.now) code.old code.new) }
{
    match third {
        None => Ok(()),
        Some(third) => add_simple(source, variables, code, third),
    }
}

/// Appends a `return`, of 0 if it has no value.
#[tactic(auto, using(crate::proofs::StmtAdds::statements))]
fn add_return(
    source: &Source<'_, '_>,
    variables: &Variables<'_>,
    code: &mut Code,
    value: &Option<Expr>,
) -> Result<(), AllocError>
    ensures { OnOk result (added.ReturnAdded (context_of source.now) variables.now
        (option_map expr_of value.now) code.old code.new) }
{
    let from = add_or_constant(source, variables, code, value, 0)?;
    code.push(Instruction::Return { from })
}

/// Appends a declaration. The name is known only after its first value.
#[tactic(auto, using(crate::proofs::StmtAdds::statements))]
fn add_declaration<'a>(
    source: &Source<'_, 'a>,
    variables: &mut Variables<'a>,
    code: &mut Code,
    declaration: &'a Declaration,
) -> Result<(), AllocError>
    ensures { OnOk result (added.FirstAdded (context_of source.now) variables.old
        (Some (tree.Declare (tree.declaration_of declaration.now))) code.old code.new
        variables.new) }
{
    let register = add_initial(source, variables, code, &declaration.initial)?;
    let ty = source.program.declared_type(&declaration.ty);
    variables.declare(declaration.name.text.as_str(), ty, register)
}

/// Appends the first value of a variable; its register becomes the variable's.
#[tactic(auto, using(crate::proofs::StmtAdds::statements))]
fn add_initial(
    source: &Source<'_, '_>,
    variables: &Variables<'_>,
    code: &mut Code,
    initial: &Option<Initial>,
) -> Result<u32, AllocError>
    ensures { IfOk result (λ r. added.InitialAdded (context_of source.now) variables.now
        (option_map tree.initial_of initial.now) code.old code.new r) }
{
    match initial {
        None => add_constant(source, code, 0),
        Some(initial) => {
            let from = add_expression(source, variables, code, &initial.value)?;
            add_copy(source, code, from)
        }
    }
}

/// Appends a simple statement.
#[tactic(auto, using(crate::proofs::StmtAdds::statements))]
fn add_simple(
    source: &Source<'_, '_>,
    variables: &Variables<'_>,
    code: &mut Code,
    simple: &Simple,
) -> Result<(), AllocError>
    ensures { OnOk result (added.SimpleAdded (context_of source.now) variables.now
        (tree.simple_of simple.now) code.old code.new) }
{
    match simple {
        Simple::Assign {
            target,
            op,
            place,
            value,
        } => add_assign(source, variables, code, target, *op, *place, value),
        Simple::Step { target, op, place } => {
            let op = step_operation(*op);
            add_update(source, variables, code, target, *place, op, None)
        }
        Simple::Call { name, arguments } => {
            add_call(source, variables, code, name, arguments)?;
            Ok(())
        }
        Simple::Free { place, pointer } => add_free(source, variables, code, *place, pointer),
        Simple::Abort { .. } => code.push(Instruction::Trap {
            kind: TrapKind::Abort,
        }),
    }
}

/// Appends `=` or an assignment with an operator.
#[tactic(auto, using(crate::proofs::StmtAdds::statements))]
fn add_assign(
    source: &Source<'_, '_>,
    variables: &Variables<'_>,
    code: &mut Code,
    target: &Expr,
    op: AssignOp,
    place: u64,
    value: &Expr,
) -> Result<(), AllocError>
    ensures { OnOk result (added.SimpleAdded (context_of source.now) variables.now
        (tree.Assign (expr_of target.now) op place (expr_of value.now)) code.old code.new) }
{
    match op {
        AssignOp::Set => add_assignment(source, variables, code, target, place, value),
        AssignOp::Update(op) => {
            let scopes = variables.scopes();
            let int = sides_type(source.program, scopes, op.binary(), target, value);
            let op = operation_of(int, update_operation(op));
            add_update(source, variables, code, target, place, op, Some(value))
        }
    }
}

fn update_operation(op: UpdateOp) -> BinOp
    ensures { result ≡ lowers.update_operation op }
{
    match op {
        UpdateOp::Mul => BinOp::Mul,
        UpdateOp::Div => BinOp::Div,
        UpdateOp::Rem => BinOp::Rem,
        UpdateOp::Add => BinOp::Add,
        UpdateOp::Sub => BinOp::Sub,
        UpdateOp::ShiftLeft => BinOp::Shl,
        UpdateOp::ShiftRight => BinOp::Shr,
        UpdateOp::And => BinOp::And,
        UpdateOp::Xor => BinOp::Xor,
        UpdateOp::Or => BinOp::Or,
    }
}

fn step_operation(op: StepOp) -> BinOp
    ensures { result ≡ lowers.step_operation op }
{
    match op {
        StepOp::Up => BinOp::Add,
        StepOp::Down => BinOp::Sub,
    }
}

/// Appends `pm_free`. The line is that of the word.
#[tactic(auto, using(crate::proofs::StmtAdds::statements))]
fn add_free(
    source: &Source<'_, '_>,
    variables: &Variables<'_>,
    code: &mut Code,
    place: u64,
    pointer: &Expr,
) -> Result<(), AllocError>
    ensures { OnOk result (added.SimpleAdded (context_of source.now) variables.now
        (tree.Free place (expr_of pointer.now)) code.old code.new) }
{
    let from = add_expression(source, variables, code, pointer)?;
    let kind = kind_of_object(source.program, variables.scopes(), pointer);
    let line = source.ast.line(place);
    code.push(Instruction::Free { from, kind, line })
}

/// Appends `=`. The line is that of the operator.
#[tactic(auto, using(crate::proofs::StmtAdds::statements))]
fn add_assignment(
    source: &Source<'_, '_>,
    variables: &Variables<'_>,
    code: &mut Code,
    target: &Expr,
    place: u64,
    value: &Expr,
) -> Result<(), AllocError>
    ensures { OnOk result (added.SimpleAdded (context_of source.now) variables.now
        (tree.Assign (expr_of target.now) assign.Set place (expr_of value.now)) code.old code.new) }
{
    match as_variable(target) {
        Some(name) => {
            let from = add_expression(source, variables, code, value)?;
            let to = variables.register_of(name.text.as_str());
            code.push(Instruction::Copy { to, from })
        }
        None => {
            let target = add_target(source, variables, code, target)?;
            let from = add_expression(source, variables, code, value)?;
            let line = source.ast.line(place);
            code.push(Instruction::Store { target, from, line })
        }
    }
}

/// Appends an assignment with an operator, `++` or `--`: for a variable an operation and a copy,
/// for a field one load, an operation and one store.
#[tactic(auto, using(crate::proofs::StmtAdds::statements))]
fn add_update(
    source: &Source<'_, '_>,
    variables: &Variables<'_>,
    code: &mut Code,
    target: &Expr,
    place: u64,
    op: BinOp,
    value: Option<&Expr>,
) -> Result<(), AllocError>
    ensures { OnOk result (added.UpdateAdded (context_of source.now) variables.now
        (expr_of target.now) place op (option_map (λ e. expr_of e.now) value.entry) code.old
        code.new) }
{
    match as_variable(target) {
        Some(name) => {
            let right = add_amount(source, variables, code, value)?;
            let to = variables.register_of(name.text.as_str());
            let from = add_operation(source, code, op, to, right)?;
            code.push(Instruction::Copy { to, from })
        }
        None => {
            let target = add_target(source, variables, code, target)?;
            let left = add_load(source, code, target)?;
            let right = add_amount(source, variables, code, value)?;
            let from = add_operation(source, code, op, left, right)?;
            let line = source.ast.line(place);
            code.push(Instruction::Store { target, from, line })
        }
    }
}

/// Appends the amount by which a target changes: `++` and `--` have no value, and mean 1.
#[tactic(auto, using(crate::proofs::StmtAdds::statements))]
fn add_amount(
    source: &Source<'_, '_>,
    variables: &Variables<'_>,
    code: &mut Code,
    value: Option<&Expr>,
) -> Result<u32, AllocError>
    ensures { IfOk result (λ r. added.OrAdded (context_of source.now) variables.now (pos 1)
        (option_map (λ e. expr_of e.now) value.entry) code.old code.new r) }
{
    match value {
        None => add_constant(source, code, 1),
        Some(value) => add_expression(source, variables, code, value),
    }
}
