//! The places of traps in a tree.

ghost use Rattle.std.specs.Prelude.{◌≡◌};
ghost use Rattle.c_tree.specs.ExprTree.{expr_of};
ghost use Rattle.c_tree.specs.StmtTree.{stmt_of};
ghost use Rattle.c_meaning.specs.Meaning.{field_place, target_place, element_place};
ghost use Rattle.interpreter.specs.inside.Resume.{loop_place};

use c_tree::expr::Expr;
use c_tree::stmt::Stmt;
use pool_map::TrapKind;

/// The place where a target traps in this way: an element by its index at the `[`, and else as its
/// field.
pub fn target_place(target: &Expr, kind: TrapKind) -> u64
    ensures { result ≡ target_place (expr_of target.now) kind }
{
    match target {
        Expr::Index { base, place, .. } => element_place(*place, field_place(base), kind),
        _ => field_place(target),
    }
}

fn element_place(place: u64, field: u64, kind: TrapKind) -> u64
    ensures { result ≡ element_place place field kind }
{
    match kind {
        TrapKind::Index => place,
        _ => field,
    }
}

/// The place of a field's `->` or, of the root, of its name. Any other expression names no field,
/// and has 0.
fn field_place(field: &Expr) -> u64
    ensures { result ≡ field_place (expr_of field.now) }
{
    match field {
        Expr::Arrow { place, .. } => *place,
        Expr::Root(name) => name.place,
        _ => 0,
    }
}

/// The place of a loop's word. Any other statement has 0.
pub fn loop_place(stmt: &Stmt) -> u64
    ensures { result ≡ loop_place (stmt_of stmt.now) }
{
    match stmt {
        Stmt::While { place, .. } => *place,
        Stmt::Do { place, .. } => *place,
        Stmt::For { place, .. } => *place,
        _ => 0,
    }
}
