//! The numbers that names mean in the code: functions, kinds and fields.

ghost use Rattle.std.specs.Prelude.{◌≡◌, option_map};
ghost use Rattle.c_tree.specs.ExprTree.{expr_of, ident_of};
ghost use Rattle.c_types.specs.Expressions as expressions;
ghost use Rattle.c_types.specs.Tables as tables;
ghost use Rattle.c_types.specs.Views.{tables_in};
ghost use Rattle.lower.specs.Names as names;

use c_tree::expr::{Expr, Name};
use c_types::{Program, Scopes, type_of};
use ir::Target;

/// The number for what doesn't exist. No function, kind, field or register has it.
pub const NOWHERE: u32 = u32::MAX;

/// The number of what was found at this place.
fn number_of(found: Option<u64>) -> u32
    ensures { result ≡ names.found_number found }
{
    match found {
        None => NOWHERE,
        Some(at) => at.min(u64::from(NOWHERE)) as u32,
    }
}

/// The number of a function.
pub fn function_number(program: &Program<'_>, name: &Name) -> u32
    ensures { result ≡ names.function_number (tables_in program.now) name.now.text }
{
    number_of(program.place_of_function(name.text.as_str()))
}

/// The kind of the objects of the struct at that place.
fn kind_at(program: &Program<'_>, found: Option<u64>) -> u32
    ensures { result ≡ names.struct_kind_at (tables_in program.now) found }
{
    match found {
        None => NOWHERE,
        Some(at) => number_of(Some(program.number_at(at))),
    }
}

/// The kind of the objects of the struct of that name.
pub fn kind_named(program: &Program<'_>, name: &Name) -> u32
    ensures { result ≡ names.kind_named (tables_in program.now) name.now.text }
{
    kind_at(program, program.struct_named(name.text.as_str()))
}

/// The kind of the objects that an expression points to.
pub fn kind_of_object(program: &Program<'_>, scopes: &Scopes<'_>, object: &Expr) -> u32
    ensures { result ≡ names.struct_kind_at (tables_in program.now)
        (tables.pointed_struct (expressions.type_of (tables_in program.now) scopes.now
        (expr_of object.now))) }
{
    kind_at(program, type_of(program, scopes, object).pointed_struct())
}

/// The number of a field of the struct at that place.
fn field_number(program: &Program<'_>, field: &Name, found: Option<u64>) -> u32
    ensures { result ≡ names.field_number (tables_in program.now) field.now.text found }
{
    match found {
        None => NOWHERE,
        Some(at) => match program.struct_at(at) {
            None => NOWHERE,
            Some(layout) => number_of(layout.place_of(field.text.as_str())),
        },
    }
}

/// A field of the root.
pub fn root_target(program: &Program<'_>, field: &Name) -> Target
    ensures { result ≡ names.root_target (tables_in program.now) field.now.text }
{
    Target::Root {
        field: field_number(program, field, program.root_struct()),
        index: None,
    }
}

/// A field of the object that the expression `object` points to, which is in the register `base`.
pub fn field_target(
    program: &Program<'_>,
    scopes: &Scopes<'_>,
    object: &Expr,
    base: u32,
    field: &Name,
) -> Target
    ensures { result ≡ names.field_target (tables_in program.now)
        (expressions.type_of (tables_in program.now) scopes.now (expr_of object.now)) base
        field.now.text }
{
    let found = type_of(program, scopes, object).pointed_struct();
    Target::Field {
        base,
        kind: kind_at(program, found),
        field: field_number(program, field, found),
        index: None,
    }
}

/// The element of an array field at the index in a register.
pub fn element(array: Target, register: u32) -> Target
    ensures { result ≡ names.element_target array register }
{
    match array {
        Target::Root { field, .. } => Target::Root {
            field,
            index: Some(register),
        },
        Target::Field {
            base,
            kind,
            field,
            ..
        } => Target::Field {
            base,
            kind,
            field,
            index: Some(register),
        },
    }
}

/// The target for what doesn't exist.
pub fn no_target() -> Target
    ensures { result ≡ names.no_target }
{
    Target::Root {
        field: NOWHERE,
        index: None,
    }
}

/// The name, if the expression is just a variable.
pub fn as_variable(expr: &Expr) -> Option<&Name>
    ensures { option_map (λ n. ident_of n.now) result ≡ names.variable_of (expr_of expr.now) }
{
    match expr {
        Expr::Variable(name) => Some(name),
        Expr::Number(_) => None,
        Expr::Null => None,
        Expr::Call { .. } => None,
        Expr::Root(_) => None,
        Expr::New { .. } => None,
        Expr::Arrow { .. } => None,
        Expr::Index { .. } => None,
        Expr::Unary { .. } => None,
        Expr::Binary { .. } => None,
        Expr::Conditional { .. } => None,
    }
}
