//! The rules that structs, root declarations and functions break.

ghost use Rattle.std.specs.Prelude.{◌≡◌, ℕ, List, [], OnOk, map, option_map};
ghost use Rattle.std.specs.Option.{option_map_or};
ghost use Rattle.c_tree.specs.StmtTree as stmt;
ghost use Rattle.c_tree.specs.ItemTree.{field_tree, length_tree, parameter_of, function_tree};
ghost use Rattle.c_types.specs.Broken.{least_from};
ghost use Rattle.c_types.specs.Tables.{field_names};
ghost use Rattle.c_types.specs.Statements as statements;
ghost use Rattle.c_types.specs.Declarations as meaning;
ghost use Rattle.c_types.specs.Views.{tables_in, root_of};

use crate::broken::{Broken, Rule, expect};
use crate::fault::LimitKind;
use crate::layout::{Layout, is_at, is_length};
use crate::program::Program;
use crate::rules::is_int;
use crate::scopes::Scopes;
use crate::statements::{declare_name, statements, written_type};
use crate::value_type::ValueType;
use c_tree::item::{Field, Function, Length, Parameter, RootDecl};
use c_tree::stmt::TypeName;
use pool_map::{OBJECT_WORDS, ROOT_WORDS};
use std::alloc::{AllocError, Global};

/// Keeps the first rule that is broken in the declarations of structs, if it comes before the one
/// that is known.
#[tactic(auto, using(crate::proofs::Told::told_append))]
pub fn structs(program: &Program<'_>, structs: &[Layout<'_>], least: &mut Option<Broken>)
    ensures { least.new ≡ least_from least.old
        (meaning.structs_broken (tables_in program.now) 0 structs.now) }
{
    let mut at = 0u64;
    for layout in structs {
        whole_struct(program, at, layout, least);
        at += 1;
    }
}

#[tactic(auto, using(crate::proofs::Told::told_append))]
fn whole_struct(program: &Program<'_>, at: u64, layout: &Layout<'_>, least: &mut Option<Broken>)
    ensures { least.new ≡ least_from least.old
        (meaning.whole_struct_broken (tables_in program.now) at layout.now) }
{
    struct_at(program, at, layout, least);
    fields(program, layout, layout.fields(), least);
}

#[tactic(auto, using(crate::proofs::Told::told_append))]
fn struct_at(program: &Program<'_>, at: u64, layout: &Layout<'_>, least: &mut Option<Broken>)
    ensures { least.new ≡ least_from least.old
        (meaning.struct_broken (tables_in program.now) at layout.now) }
{
    let name = layout.name();
    let words = layout.words();
    let first = is_at(program.struct_named(name.text.as_str()), at);
    let root = is_at(program.root_struct(), at);
    expect(least, first, name.place, Rule::Twice);
    let rule = Rule::TooBig(LimitKind::Structs, 256);
    expect(least, !(at == 255), name.place, rule);
    let rule = Rule::TooBig(LimitKind::Struct, words);
    expect(least, root || words <= OBJECT_WORDS, name.place, rule);
    let rule = Rule::TooBig(LimitKind::Root, words);
    expect(least, !root || words <= ROOT_WORDS, name.place, rule);
}

#[tactic(auto, using(crate::proofs::Told::told_append))]
fn fields(program: &Program<'_>, layout: &Layout<'_>, fields: &[Field], least: &mut Option<Broken>)
    ensures { least.new ≡ least_from least.old
        (meaning.fields_broken (tables_in program.now) (field_names layout.now) 0
        (map field_tree fields.now)) }
{
    let mut at = 0u64;
    for field in fields {
        field_at(program, layout, at, field, least);
        at += 1;
    }
}

#[tactic(auto, using(crate::proofs::Told::told_append))]
fn field_at(
    program: &Program<'_>,
    layout: &Layout<'_>,
    at: u64,
    field: &Field,
    least: &mut Option<Broken>,
)
    ensures { least.new ≡ least_from least.old
        (meaning.field_broken (tables_in program.now) (field_names layout.now)
        at (field_tree field.now)) }
{
    written_type(program, &field.ty, least);
    let first = is_at(layout.place_of(field.name.text.as_str()), at);
    expect(least, first, field.name.place, Rule::Twice);
    length(&field.length, least);
}

fn length(length: &Option<Length>, least: &mut Option<Broken>)
    ensures { least.new ≡ least_from least.old
        (option_map_or meaning.length_broken (option_map length_tree length.now) []) }
{
    match length {
        None => {}
        Some(length) => {
            let rule = Rule::TooBig(LimitKind::Array, length.value.cast_unsigned());
            expect(least, is_length(length.value), length.place, rule);
        }
    }
}

/// Checks the root declarations.
#[tactic(auto, using(crate::proofs::Told::told_append))]
pub fn roots(program: &Program<'_>, roots: &[&RootDecl], least: &mut Option<Broken>)
    ensures { least.new ≡ least_from least.old
        (meaning.roots_broken (tables_in program.now) 0 (map (λ r. root_of r.now) roots.now)) }
{
    let mut at = 0u64;
    for root in roots {
        root_at(program, at, root, least);
        at += 1;
    }
}

#[tactic(auto, using(crate::proofs::Told::told_append))]
fn root_at(program: &Program<'_>, at: u64, root: &RootDecl, least: &mut Option<Broken>)
    ensures { least.new ≡ least_from least.old
        (meaning.root_item_broken (tables_in program.now) at (root_of root.now)) }
{
    let known = program.struct_named(root.name.text.as_str()).is_some();
    expect(least, known, root.name.place, Rule::UnknownName);
    expect(least, at == 0, root.place, Rule::Twice);
}

/// Keeps the first rule that is broken in the declarations of functions, if it comes before the
/// one that is known.
#[tactic(auto, using(crate::proofs::Told::told_append))]
pub fn functions<'a>(
    alloc: Global,
    program: &Program<'a>,
    functions: &[&'a Function],
    least: &mut Option<Broken>,
) -> Result<(), AllocError>
    ensures { OnOk result (least.new ≡ least_from least.old
        (meaning.functions_broken (tables_in program.now) 0
        (map function_tree (map (λ f. f.now) functions.now)))) }
{
    let mut at = 0u64;
    for function in functions {
        whole_function(alloc, program, at, function, least)?;
        at += 1;
    }
    Ok(())
}

#[tactic(auto, using(crate::proofs::Told::told_append))]
fn whole_function<'a>(
    alloc: Global,
    program: &Program<'a>,
    at: u64,
    function: &'a Function,
    least: &mut Option<Broken>,
) -> Result<(), AllocError>
    ensures { OnOk result (least.new ≡ least_from least.old
        (meaning.whole_function_broken (tables_in program.now) at (function_tree function.now))) }
{
    function_at(program, at, function, least);
    body(alloc, program, function, least)
}

#[tactic(auto, using(crate::proofs::Told::told_append))]
fn function_at(program: &Program<'_>, at: u64, function: &Function, least: &mut Option<Broken>)
    ensures { least.new ≡ least_from least.old
        (meaning.function_broken (tables_in program.now) at (function_tree function.now)) }
{
    written_result(program, &function.result_type, least);
    let name = &function.name;
    let first = is_at(program.place_of_function(name.text.as_str()), at);
    expect(least, first, name.place, Rule::Twice);
    let rule = Rule::TooBig(LimitKind::Functions, 1025);
    expect(least, !(at == 1024), name.place, rule);
    let good = is_transaction(program, function);
    expect(least, !function.tx || good, name.place, Rule::BadTx);
}

fn written_result(program: &Program<'_>, ty: &Option<TypeName>, least: &mut Option<Broken>)
    ensures { least.new ≡ least_from least.old
        (option_map_or (statements.type_broken (tables_in program.now))
        (option_map stmt.type_tree ty.now) []) }
{
    match ty {
        None => {}
        Some(ty) => written_type(program, ty, least),
    }
}

/// Whether a function gives an int and takes ints.
fn is_transaction(program: &Program<'_>, function: &Function) -> bool
    ensures { result ≡ meaning.is_transaction (tables_in program.now) (function_tree function.now) }
{
    match &function.result_type {
        None => false,
        Some(ty) => is_int(program.declared_type(ty)) && take_ints(program, &function.parameters),
    }
}

fn take_ints(program: &Program<'_>, parameters: &[Parameter]) -> bool
    ensures { result ≡ meaning.all_ints (tables_in program.now) (map parameter_of parameters.now) }
{
    for parameter in parameters {
        if !is_int(program.declared_type(&parameter.ty)) {
            return false;
        }
    }
    true
}

/// Checks the parameters and the outermost block, which share one scope.
#[tactic(auto, using(crate::proofs::Told::told_append))]
fn body<'a>(
    alloc: Global,
    program: &Program<'a>,
    function: &'a Function,
    least: &mut Option<Broken>,
) -> Result<(), AllocError>
    ensures { OnOk result (least.new ≡ least_from least.old
        (meaning.body_broken (tables_in program.now) (function_tree function.now))) }
{
    let mut scopes = Scopes::new(alloc);
    scopes.open(alloc)?;
    parameters(program, &mut scopes, &function.parameters, least)?;
    let gives = gives(program, &function.result_type);
    statements(alloc, program, gives, &mut scopes, &function.body, least)
}

fn gives(program: &Program<'_>, ty: &Option<TypeName>) -> Option<ValueType>
    ensures { result ≡ meaning.type_given (tables_in program.now)
        (option_map stmt.type_tree ty.now) }
{
    match ty {
        None => None,
        Some(ty) => Some(program.declared_type(ty)),
    }
}

#[tactic(auto, using(crate::proofs::Told::told_append))]
fn parameters<'a>(
    program: &Program<'a>,
    scopes: &mut Scopes<'a>,
    parameters: &'a [Parameter],
    least: &mut Option<Broken>,
) -> Result<(), AllocError>
    ensures scopes { OnOk result (scopes.new ≡ meaning.scopes_after_parameters
        (tables_in program.now) scopes.old (map parameter_of parameters.now)) }
    ensures told { OnOk result (least.new ≡ least_from least.old
        (meaning.parameters_broken (tables_in program.now) scopes.old 0
        (map parameter_of parameters.now))) }
{
    let mut at = 0u64;
    for parameter in parameters {
        parameter_at(program, scopes, at, parameter, least)?;
        at += 1;
    }
    Ok(())
}

#[tactic(auto, using(crate::proofs::Told::told_append))]
fn parameter_at<'a>(
    program: &Program<'a>,
    scopes: &mut Scopes<'a>,
    at: u64,
    parameter: &'a Parameter,
    least: &mut Option<Broken>,
) -> Result<(), AllocError>
    ensures scopes { OnOk result (scopes.new ≡ meaning.scopes_after_parameter
        (tables_in program.now) scopes.old (parameter_of parameter.now)) }
    ensures told { least.new ≡ least_from least.old
        (meaning.parameter_broken (tables_in program.now) scopes.old
        at (parameter_of parameter.now)) }
{
    written_type(program, &parameter.ty, least);
    let rule = Rule::TooBig(LimitKind::Parameters, 23);
    expect(least, !(at == 22), parameter.name.place, rule);
    declare_name(program, scopes, &parameter.ty, &parameter.name, least)
}
