//! The rules that statements break.

ghost use Rattle.std.specs.Prelude.{◌≡◌, [], false, OnOk, not, is_some, option_map};
ghost use Rattle.std.specs.Option.{option_map_or};
ghost use Rattle.c_tree.specs.ExprTree.{expr_of, ident_of};
ghost use Rattle.c_tree.specs.StmtTree as tree;
ghost use Rattle.c_types.specs.Broken.{least_from, unless};
ghost use Rattle.c_types.specs.Fits as fits;
ghost use Rattle.c_types.specs.Tables as tables;
ghost use Rattle.c_types.specs.Expressions as expressions;
ghost use Rattle.c_types.specs.Statements as meaning;
ghost use Rattle.c_types.specs.inside.Statements as inside_meaning;
ghost use Rattle.c_types.specs.Views.{tables_in};

use crate::broken::{Broken, Rule, expect};
use crate::expressions::{call, pointer_to, value};
use crate::program::Program;
use crate::rules::{assigns, is_int, is_pointer, type_takes};
use crate::scopes::Scopes;
use crate::value_type::ValueType;
use c_tree::expr::{Expr, Name};
use c_tree::stmt::{Declaration, First, Initial, Simple, Stmt, TypeName};
use std::alloc::{AllocError, Global};

/// Checks the statements of one block in the innermost scope, in a function whose result has that
/// type or none.
#[cycle(statements)]
#[tactic(auto, using(crate::proofs::After::statements))]
pub fn statements<'a>(
    alloc: Global,
    program: &Program<'a>,
    gives: Option<ValueType>,
    scopes: &mut Scopes<'a>,
    all: &'a [Stmt],
    least: &mut Option<Broken>,
) -> Result<(), AllocError>
    ensures scopes { OnOk result (scopes.new ≡ inside_meaning.scopes_after_all
        (tables_in program.now) (tree.statements_in all.now) scopes.old) }
    ensures told { OnOk result (least.new ≡ least_from least.old
        (meaning.statements_broken (tables_in program.now) gives scopes.old
        (tree.statements_in all.now))) }
{
    for stmt in all {
        statement(alloc, program, gives, scopes, stmt, least)?;
    }
    Ok(())
}

#[cycle(statements)]
#[tactic(auto, using(crate::proofs::After::statements))]
fn statement<'a>(
    alloc: Global,
    program: &Program<'a>,
    gives: Option<ValueType>,
    scopes: &mut Scopes<'a>,
    stmt: &'a Stmt,
    least: &mut Option<Broken>,
) -> Result<(), AllocError>
    ensures scopes { OnOk result (scopes.new ≡ meaning.scopes_after (tables_in program.now)
        (tree.stmt_of stmt.now) scopes.old) }
    ensures told { OnOk result (least.new ≡ least_from least.old
        (meaning.statement_broken (tables_in program.now) gives scopes.old
        (tree.stmt_of stmt.now))) }
{
    match stmt {
        Stmt::Empty => Ok(()),
        Stmt::Break => Ok(()),
        Stmt::Continue => Ok(()),
        Stmt::Declare(declaration) => declare(program, scopes, declaration, least),
        Stmt::Simple(simple_stmt) => {
            simple(program, scopes, simple_stmt, least);
            Ok(())
        }
        Stmt::Block(all) => block(alloc, program, gives, scopes, all, least),
        Stmt::If {
            condition,
            body,
            other,
        } => {
            value(program, scopes, condition, least);
            inside(alloc, program, gives, scopes, body, least)?;
            match other {
                None => Ok(()),
                Some(other) => inside(alloc, program, gives, scopes, other, least),
            }
        }
        Stmt::While {
            condition,
            body,
            ..
        } => {
            value(program, scopes, condition, least);
            inside(alloc, program, gives, scopes, body, least)
        }
        Stmt::Do {
            body,
            condition,
            ..
        } => {
            inside(alloc, program, gives, scopes, body, least)?;
            value(program, scopes, condition, least);
            Ok(())
        }
        Stmt::For {
            first,
            condition,
            third,
            body,
            ..
        } => {
            scopes.open(alloc)?;
            begin(program, scopes, first, least)?;
            optional(program, scopes, condition, least);
            step(program, scopes, third, least);
            statement(alloc, program, gives, scopes, body, least)?;
            scopes.close();
            Ok(())
        }
        Stmt::Return { place, value } => {
            give(program, gives, scopes, *place, value, least);
            Ok(())
        }
    }
}

/// Checks a block in a scope of its own.
#[cycle(statements)]
#[tactic(auto, using(crate::proofs::After::statements))]
fn block<'a>(
    alloc: Global,
    program: &Program<'a>,
    gives: Option<ValueType>,
    scopes: &mut Scopes<'a>,
    all: &'a [Stmt],
    least: &mut Option<Broken>,
) -> Result<(), AllocError>
    ensures scopes { OnOk result (scopes.new ≡ scopes.old) }
    ensures told { OnOk result (least.new ≡ least_from least.old
        (meaning.statements_broken (tables_in program.now) gives (meaning.inner_scopes scopes.old)
        (tree.statements_in all.now))) }
{
    scopes.open(alloc)?;
    statements(alloc, program, gives, scopes, all, least)?;
    scopes.close();
    Ok(())
}

/// Checks a body in a scope of its own.
#[cycle(statements)]
#[tactic(auto, using(crate::proofs::After::statements))]
fn inside<'a>(
    alloc: Global,
    program: &Program<'a>,
    gives: Option<ValueType>,
    scopes: &mut Scopes<'a>,
    body: &'a Stmt,
    least: &mut Option<Broken>,
) -> Result<(), AllocError>
    ensures scopes { OnOk result (scopes.new ≡ scopes.old) }
    ensures told { OnOk result (least.new ≡ least_from least.old
        (meaning.statement_broken (tables_in program.now) gives (meaning.inner_scopes scopes.old)
        (tree.stmt_of body.now))) }
{
    scopes.open(alloc)?;
    statement(alloc, program, gives, scopes, body, least)?;
    scopes.close();
    Ok(())
}

/// Checks the first part of a `for`.
fn begin<'a>(
    program: &Program<'a>,
    scopes: &mut Scopes<'a>,
    first: &'a Option<First>,
    least: &mut Option<Broken>,
) -> Result<(), AllocError>
    ensures scopes { OnOk result (scopes.new
        ≡ option_map_or (λ f. meaning.scopes_after_first (tables_in program.now) f scopes.old)
        (option_map tree.tree_of_first first.now) scopes.old) }
    ensures told { OnOk result (least.new ≡ least_from least.old
        (option_map_or (meaning.first_broken (tables_in program.now) scopes.old)
        (option_map tree.tree_of_first first.now) [])) }
{
    match first {
        None => Ok(()),
        Some(part) => match part {
            First::Declare(declaration) => declare(program, scopes, declaration, least),
            First::Simple(part) => {
                simple(program, scopes, part, least);
                Ok(())
            }
        },
    }
}

/// Checks the condition of a `for`.
fn optional(
    program: &Program<'_>,
    scopes: &Scopes<'_>,
    expr: &Option<Expr>,
    least: &mut Option<Broken>,
)
    ensures { least.new ≡ least_from least.old
        (option_map_or (expressions.value_broken (tables_in program.now) scopes.now)
        (option_map expr_of expr.now) []) }
{
    match expr {
        None => {}
        Some(expr) => {
            value(program, scopes, expr, least);
        }
    }
}

/// Checks the third part of a `for`.
fn step(
    program: &Program<'_>,
    scopes: &Scopes<'_>,
    third: &Option<Simple>,
    least: &mut Option<Broken>,
)
    ensures { least.new ≡ least_from least.old
        (option_map_or (meaning.simple_broken (tables_in program.now) scopes.now)
        (option_map tree.simple_of third.now) []) }
{
    match third {
        None => {}
        Some(third) => simple(program, scopes, third, least),
    }
}

/// Checks a `return`, which has a value exactly in a function that gives one.
#[tactic(auto, using(crate::proofs::Told::told_append))]
fn give(
    program: &Program<'_>,
    gives: Option<ValueType>,
    scopes: &Scopes<'_>,
    place: u64,
    given: &Option<Expr>,
    least: &mut Option<Broken>,
)
    ensures { least.new ≡ least_from least.old
        (meaning.return_broken (tables_in program.now) gives scopes.now place
        (option_map expr_of given.now)) }
{
    match given {
        None => expect(least, !gives.is_some(), place, Rule::Mismatch),
        Some(expr) => {
            let given = value(program, scopes, expr, least);
            expect(least, gives_back(gives, given), place, Rule::Mismatch);
        }
    }
}

fn gives_back(gives: Option<ValueType>, given: ValueType) -> bool
    ensures { result ≡ option_map_or (λ ty. fits.type_takes ty given) gives false }
{
    match gives {
        None => false,
        Some(target) => type_takes(target, given),
    }
}

/// Checks a type as it is written.
pub fn written_type(program: &Program<'_>, ty: &TypeName, least: &mut Option<Broken>)
    ensures { least.new ≡ least_from least.old
        (meaning.type_broken (tables_in program.now) (tree.type_tree ty.now)) }
{
    match ty {
        TypeName::Int(_) => {}
        TypeName::Pointer(name) => {
            pointer_to(program, name, least);
        }
    }
}

/// Declares a name in the innermost scope.
pub fn declare_name<'a>(
    program: &Program<'a>,
    scopes: &mut Scopes<'a>,
    ty: &TypeName,
    name: &'a Name,
    least: &mut Option<Broken>,
) -> Result<(), AllocError>
    ensures scopes { OnOk result (scopes.new ≡ meaning.scope_declared name.now.text
        (tables.declared_type (tables_in program.now) (tree.type_tree ty.now)) scopes.old) }
    ensures told { least.new ≡ least_from least.old
        (unless (not (meaning.is_declared name.now.text scopes.old)) name.now.place Rule.Twice) }
{
    let again = scopes.is_declared(name.text.as_str());
    expect(least, !again, name.place, Rule::Twice);
    let declared = program.declared_type(ty);
    scopes.declare(name.text.as_str(), declared)
}

#[tactic(auto, using(crate::proofs::Told::told_append))]
fn declare<'a>(
    program: &Program<'a>,
    scopes: &mut Scopes<'a>,
    declaration: &'a Declaration,
    least: &mut Option<Broken>,
) -> Result<(), AllocError>
    ensures scopes { OnOk result (scopes.new ≡ meaning.scopes_after_declaration
        (tables_in program.now) (tree.declaration_of declaration.now) scopes.old) }
    ensures told { least.new ≡ least_from least.old
        (meaning.declaration_broken (tables_in program.now) scopes.old
        (tree.declaration_of declaration.now)) }
{
    let target = program.declared_type(&declaration.ty);
    written_type(program, &declaration.ty, least);
    initialize(program, scopes, target, &declaration.initial, least);
    declare_name(program, scopes, &declaration.ty, &declaration.name, least)
}

#[tactic(auto, using(crate::proofs::Told::told_append))]
fn initialize(
    program: &Program<'_>,
    scopes: &Scopes<'_>,
    target: ValueType,
    initial: &Option<Initial>,
    least: &mut Option<Broken>,
)
    ensures { least.new ≡ least_from least.old
        (option_map_or (meaning.initial_broken (tables_in program.now) scopes.now target)
        (option_map tree.initial_of initial.now) []) }
{
    match initial {
        None => {}
        Some(initial) => {
            let given = value(program, scopes, &initial.value, least);
            expect(
                least,
                type_takes(target, given),
                initial.place,
                Rule::Mismatch,
            );
        }
    }
}

/// Checks a simple statement.
#[tactic(auto, using(crate::proofs::Told::told_append))]
fn simple(program: &Program<'_>, scopes: &Scopes<'_>, stmt: &Simple, least: &mut Option<Broken>)
    ensures { least.new ≡ least_from least.old
        (meaning.simple_broken (tables_in program.now) scopes.now (tree.simple_of stmt.now)) }
{
    match stmt {
        Simple::Assign {
            target,
            op,
            place,
            value: given,
        } => {
            let to = value(program, scopes, target, least);
            let from = value(program, scopes, given, least);
            expect(least, assigns(*op, to, from), *place, Rule::Mismatch);
            expect(least, is_target(target), *place, Rule::NotAssignable);
        }
        Simple::Step { target, place, .. } => {
            let to = value(program, scopes, target, least);
            expect(least, is_int(to), *place, Rule::Mismatch);
            expect(least, is_target(target), *place, Rule::NotAssignable);
        }
        Simple::Call { name, arguments } => {
            call(program, scopes, name, arguments, false, least);
        }
        Simple::Free { place, pointer } => {
            let freed = value(program, scopes, pointer, least);
            expect(least, is_pointer(freed), *place, Rule::Mismatch);
        }
        Simple::Abort { .. } => {}
    }
}

/// Whether an expression can be assigned to: a variable, a field, or an element of a field.
fn is_target(expr: &Expr) -> bool
    ensures { result ≡ meaning.is_target (expr_of expr.now) }
{
    match expr {
        Expr::Variable(_) => true,
        Expr::Root(_) => true,
        Expr::Arrow { .. } => true,
        Expr::Index { base, .. } => is_field(base),
        Expr::Number(_) => false,
        Expr::Null => false,
        Expr::Call { .. } => false,
        Expr::New { .. } => false,
        Expr::Unary { .. } => false,
        Expr::Binary { .. } => false,
        Expr::Conditional { .. } => false,
    }
}

/// Whether an expression is a field of the root, or one reached by `->`.
fn is_field(expr: &Expr) -> bool
    ensures { result ≡ meaning.is_field (expr_of expr.now) }
{
    match expr {
        Expr::Root(_) => true,
        Expr::Arrow { .. } => true,
        Expr::Variable(_) => false,
        Expr::Index { .. } => false,
        Expr::Number(_) => false,
        Expr::Null => false,
        Expr::Call { .. } => false,
        Expr::New { .. } => false,
        Expr::Unary { .. } => false,
        Expr::Binary { .. } => false,
        Expr::Conditional { .. } => false,
    }
}
