//! The types of expressions, for the crates above.

ghost use Rattle.std.specs.Prelude.{◌≡◌};
ghost use Rattle.c_tree.specs.ExprTree.{expr_of};
ghost use Rattle.c_types.specs.Expressions as expressions;
ghost use Rattle.c_types.specs.Views.{tables_in};

use crate::expressions::{kind, value};
use crate::program::Program;
use crate::rules::computes_with;
use crate::scopes::Scopes;
use crate::value_type::{Kind, ValueType};
use c_tree::expr::{BinaryOp, Expr, IntType};

/// What an expression denotes in these scopes. It takes no memory.
pub fn kind_of(program: &Program<'_>, scopes: &Scopes<'_>, expr: &Expr) -> Kind
    ensures { result ≡ expressions.kind_of (tables_in program.now) scopes.now (expr_of expr.now) }
{
    let mut least = None;
    kind(program, scopes, expr, &mut least)
}

/// The type of an expression that is used as a value in these scopes. It takes no memory.
pub fn type_of(program: &Program<'_>, scopes: &Scopes<'_>, expr: &Expr) -> ValueType
    ensures { result ≡ expressions.type_of (tables_in program.now) scopes.now (expr_of expr.now) }
{
    let mut least = None;
    value(program, scopes, expr, &mut least)
}

/// The ints that a binary operator computes with, of the types of its sides in these scopes. It
/// takes no memory.
pub fn sides_type(
    program: &Program<'_>,
    scopes: &Scopes<'_>,
    op: BinaryOp,
    left: &Expr,
    right: &Expr,
) -> IntType
    ensures { result ≡ expressions.sides_type (tables_in program.now) scopes.now op
        (expr_of left.now) (expr_of right.now) }
{
    let left = type_of(program, scopes, left);
    let right = type_of(program, scopes, right);
    computes_with(op, left, right)
}
