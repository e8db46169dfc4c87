//! The text of a tree: brackets stand round every node of an operator, and bodies between `<` and
//! `>`.

use c_tree::Ast;
use c_tree::expr::{Argument, BinaryOp, Expr, IntType, UnaryOp};
use c_tree::item::Item;
use c_tree::stmt::{AssignOp, Declaration, First, Simple, StepOp, Stmt, TypeName, UpdateOp};
use std::alloc::{AllocError, Global};

fn sign(op: BinaryOp) -> &'static str {
    match op {
        BinaryOp::Mul => "*",
        BinaryOp::Div => "/",
        BinaryOp::Rem => "%",
        BinaryOp::Add => "+",
        BinaryOp::Sub => "-",
        BinaryOp::ShiftLeft => "<<",
        BinaryOp::ShiftRight => ">>",
        BinaryOp::Less => "<",
        BinaryOp::LessEqual => "<=",
        BinaryOp::Greater => ">",
        BinaryOp::GreaterEqual => ">=",
        BinaryOp::Equal => "==",
        BinaryOp::NotEqual => "!=",
        BinaryOp::And => "&",
        BinaryOp::Xor => "^",
        BinaryOp::Or => "|",
        BinaryOp::Both => "&&",
        BinaryOp::Either => "||",
    }
}

fn unary_sign(op: UnaryOp) -> &'static str {
    match op {
        UnaryOp::Negate => "-",
        UnaryOp::Not => "!",
        UnaryOp::Complement => "~",
        UnaryOp::Cast(IntType::Signed) => "(int)",
        UnaryOp::Cast(IntType::Unsigned) => "(unsigned)",
    }
}

/// Prints an expression that nests at most so deep.
#[cycle(printing)]
fn show(alloc: Global, out: &mut String, expr: &Expr, depth: u64) -> Result<(), AllocError> {
    if depth == 0 {
        return Ok(());
    }
    match expr {
        Expr::Number(n) => out.push_str(format!(in alloc; "{}", *n)?.as_str())?,
        Expr::Null => out.push_str("NULL")?,
        Expr::Variable(name) => out.push_str(name.text.as_str())?,
        Expr::Call { name, arguments } => {
            out.push_str(name.text.as_str())?;
            show_all(alloc, out, arguments, depth - 1)?;
        }
        Expr::Root(name) => {
            out.push_str("root.")?;
            out.push_str(name.text.as_str())?;
        }
        Expr::New { name, .. } => {
            out.push_str("new ")?;
            out.push_str(name.text.as_str())?;
        }
        Expr::Arrow { base, field, .. } => {
            show(alloc, out, base, depth - 1)?;
            out.push_str("->")?;
            out.push_str(field.text.as_str())?;
        }
        Expr::Index { base, index, .. } => {
            show(alloc, out, base, depth - 1)?;
            out.push_str("[")?;
            show(alloc, out, index, depth - 1)?;
            out.push_str("]")?;
        }
        Expr::Unary { op, operand, .. } => {
            out.push_str("(")?;
            out.push_str(unary_sign(*op))?;
            show(alloc, out, operand, depth - 1)?;
            out.push_str(")")?;
        }
        Expr::Binary {
            op,
            left,
            right,
            ..
        } => {
            out.push_str("(")?;
            show(alloc, out, left, depth - 1)?;
            out.push_str(sign(*op))?;
            show(alloc, out, right, depth - 1)?;
            out.push_str(")")?;
        }
        Expr::Conditional {
            condition,
            left,
            right,
            ..
        } => {
            out.push_str("(")?;
            show(alloc, out, condition, depth - 1)?;
            out.push_str("?")?;
            show(alloc, out, left, depth - 1)?;
            out.push_str(":")?;
            show(alloc, out, right, depth - 1)?;
            out.push_str(")")?;
        }
    }
    Ok(())
}

#[cycle(printing)]
fn show_all(
    alloc: Global,
    out: &mut String,
    all: &[Argument],
    depth: u64,
) -> Result<(), AllocError> {
    out.push_str("{")?;
    if depth > 0 {
        for one in all {
            out.push_str(format!(in alloc; "{}:", one.first)?.as_str())?;
            show(alloc, out, &one.value, depth - 1)?;
            out.push_str(",")?;
        }
    }
    out.push_str("}")?;
    Ok(())
}

fn assign_sign(op: AssignOp) -> &'static str {
    match op {
        AssignOp::Set => "=",
        AssignOp::Update(UpdateOp::Mul) => "*=",
        AssignOp::Update(UpdateOp::Div) => "/=",
        AssignOp::Update(UpdateOp::Rem) => "%=",
        AssignOp::Update(UpdateOp::Add) => "+=",
        AssignOp::Update(UpdateOp::Sub) => "-=",
        AssignOp::Update(UpdateOp::ShiftLeft) => "<<=",
        AssignOp::Update(UpdateOp::ShiftRight) => ">>=",
        AssignOp::Update(UpdateOp::And) => "&=",
        AssignOp::Update(UpdateOp::Xor) => "^=",
        AssignOp::Update(UpdateOp::Or) => "|=",
    }
}

fn step_sign(op: StepOp) -> &'static str {
    match op {
        StepOp::Up => "++",
        StepOp::Down => "--",
    }
}

fn show_simple(alloc: Global, out: &mut String, simple: &Simple) -> Result<(), AllocError> {
    match simple {
        Simple::Assign {
            target,
            op,
            value,
            ..
        } => {
            show(alloc, out, target, 100)?;
            out.push_str(assign_sign(*op))?;
            show(alloc, out, value, 100)?;
        }
        Simple::Step { target, op, .. } => {
            show(alloc, out, target, 100)?;
            out.push_str(step_sign(*op))?;
        }
        Simple::Call { name, arguments } => {
            out.push_str("call ")?;
            out.push_str(name.text.as_str())?;
            show_all(alloc, out, arguments, 100)?;
        }
        Simple::Free { pointer, .. } => {
            out.push_str("free ")?;
            show(alloc, out, pointer, 100)?;
        }
        Simple::Abort { .. } => out.push_str("abort")?,
    }
    Ok(())
}

fn show_declaration(alloc: Global, out: &mut String, one: &Declaration) -> Result<(), AllocError> {
    match &one.ty {
        TypeName::Int(IntType::Signed) => out.push_str("int ")?,
        TypeName::Int(IntType::Unsigned) => out.push_str("unsigned ")?,
        TypeName::Pointer(name) => {
            out.push_str(name.text.as_str())?;
            out.push_str("*")?;
        }
    }
    out.push_str(one.name.text.as_str())?;
    if let Some(initial) = &one.initial {
        out.push_str("=")?;
        show(alloc, out, &initial.value, 100)?;
    }
    Ok(())
}

/// Prints a statement that nests at most so deep.
fn show_statement(
    alloc: Global,
    out: &mut String,
    stmt: &Stmt,
    depth: u64,
) -> Result<(), AllocError> {
    if depth == 0 {
        return Ok(());
    }
    match stmt {
        Stmt::Empty => out.push_str(";")?,
        Stmt::Declare(one) => {
            show_declaration(alloc, out, one)?;
            out.push_str(";")?;
        }
        Stmt::Simple(simple) => {
            show_simple(alloc, out, simple)?;
            out.push_str(";")?;
        }
        Stmt::Block(all) => {
            out.push_str("{")?;
            for one in all {
                show_statement(alloc, out, one, depth - 1)?;
            }
            out.push_str("}")?;
        }
        Stmt::If {
            condition,
            body,
            other,
        } => {
            out.push_str("if ")?;
            show(alloc, out, condition, 100)?;
            out.push_str("<")?;
            show_statement(alloc, out, body, depth - 1)?;
            if let Some(other) = other {
                out.push_str("|")?;
                show_statement(alloc, out, other, depth - 1)?;
            }
            out.push_str(">")?;
        }
        Stmt::While {
            condition,
            body,
            ..
        } => {
            out.push_str("while ")?;
            show(alloc, out, condition, 100)?;
            out.push_str("<")?;
            show_statement(alloc, out, body, depth - 1)?;
            out.push_str(">")?;
        }
        Stmt::Do {
            body,
            condition,
            ..
        } => {
            out.push_str("do<")?;
            show_statement(alloc, out, body, depth - 1)?;
            out.push_str(">while ")?;
            show(alloc, out, condition, 100)?;
            out.push_str(";")?;
        }
        Stmt::For {
            first,
            condition,
            third,
            body,
            ..
        } => {
            out.push_str("for ")?;
            match first {
                Some(First::Declare(one)) => show_declaration(alloc, out, one)?,
                Some(First::Simple(simple)) => show_simple(alloc, out, simple)?,
                None => {}
            }
            out.push_str(";")?;
            if let Some(condition) = condition {
                show(alloc, out, condition, 100)?;
            }
            out.push_str(";")?;
            if let Some(third) = third {
                show_simple(alloc, out, third)?;
            }
            out.push_str("<")?;
            show_statement(alloc, out, body, depth - 1)?;
            out.push_str(">")?;
        }
        Stmt::Break => out.push_str("break;")?,
        Stmt::Continue => out.push_str("continue;")?,
        Stmt::Return { value, .. } => {
            out.push_str("return")?;
            if let Some(value) = value {
                out.push_str(" ")?;
                show(alloc, out, value, 100)?;
            }
            out.push_str(";")?;
        }
    }
    Ok(())
}

/// Prints the bodies of a tree's functions, one after the other.
pub(crate) fn show_bodies(alloc: Global, out: &mut String, ast: &Ast) -> Result<(), AllocError> {
    for item in ast.items() {
        if let Item::Function(function) = item {
            for one in &function.body {
                show_statement(alloc, out, one, 100)?;
            }
        }
    }
    Ok(())
}
