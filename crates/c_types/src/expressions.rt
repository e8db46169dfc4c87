//! The types of expressions, and the rules that they break.

ghost use Rattle.std.specs.Prelude.{◌≡◌, ◌++◌, ◌&&◌, not, length, map, is_some, option_map, []};
ghost use Rattle.std.specs.Prelude.{◌∷◌};
ghost use Rattle.c_tree.specs.ExprTree.{expr_of, ident_of, arguments_in};
ghost use Rattle.c_tree.specs.ItemTree.{field_tree, function_tree, parameter_of};
ghost use Rattle.c_types.specs.Broken.{least_from, unless};
ghost use Rattle.c_types.specs.Fits as fits;
ghost use Rattle.c_types.specs.Tables as tables;
ghost use Rattle.c_types.specs.Expressions as meaning;
ghost use Rattle.c_types.specs.inside.Expressions as inside_meaning;
ghost use Rattle.c_types.specs.Views.{tables_in};

use crate::broken::{Broken, Rule, expect, note};
use crate::fault::LimitKind;
use crate::layout::is_length;
use crate::program::Program;
use crate::rules::{
    applies, binary_type, common_type, comparable, is_any, is_int, joins_types, type_takes,
    unary_type,
};
use crate::scopes::Scopes;
use crate::value_type::{Kind, ValueType};
use c_tree::expr::{Argument, BinaryOp, Expr, IntType, Name, UnaryOp};
use c_tree::item::{Field, Function, Parameter};

/// What an expression denotes.
#[cycle(expressions)]
#[tactic(auto, using(crate::proofs::Arguments::expressions))]
pub fn kind(
    program: &Program<'_>,
    scopes: &Scopes<'_>,
    expr: &Expr,
    least: &mut Option<Broken>,
) -> Kind
    ensures kind { result ≡ meaning.kind_of (tables_in program.now) scopes.now (expr_of expr.now) }
    ensures told { least.new ≡ least_from least.old
        (meaning.broken_in (tables_in program.now) scopes.now (expr_of expr.now)) }
{
    match expr {
        Expr::Number(word) => Kind::Value(ValueType::Int(number_type(*word))),
        Expr::Null => Kind::Value(ValueType::Null),
        Expr::Variable(name) => Kind::Value(variable(scopes, name, least)),
        Expr::Call { name, arguments } => {
            Kind::Value(call(program, scopes, name, arguments, true, least))
        }
        Expr::Root(field) => root_field(program, field, least),
        Expr::New { name, .. } => Kind::Value(pointer_to(program, name, least)),
        Expr::Arrow { base, place, field } => {
            let base = value(program, scopes, base, least);
            arrow(program, base, *place, field, least)
        }
        Expr::Index { base, place, index } => {
            let base = kind(program, scopes, base, least);
            let index = value(program, scopes, index, least);
            Kind::Value(element(base, *place, index, least))
        }
        Expr::Unary { op, place, operand } => {
            let operand = value(program, scopes, operand, least);
            Kind::Value(unary(*op, *place, operand, least))
        }
        Expr::Binary {
            op,
            place,
            left,
            right,
        } => {
            let left = value(program, scopes, left, least);
            let right = value(program, scopes, right, least);
            Kind::Value(binary(*op, *place, left, right, least))
        }
        Expr::Conditional {
            condition,
            place,
            left,
            right,
        } => {
            let tested = value(program, scopes, condition, least);
            let left = value(program, scopes, left, least);
            let right = value(program, scopes, right, least);
            Kind::Value(conditional(*place, tested, left, right, least))
        }
    }
}

/// The type of a number, of the word with its bits.
fn number_type(word: i64) -> IntType
    ensures { result ≡ meaning.number_type word }
{
    if word < 0 {
        IntType::Unsigned
    } else {
        IntType::Signed
    }
}

/// The type of an expression that is used as a value.
#[cycle(expressions)]
#[tactic(auto, using(crate::proofs::Arguments::expressions))]
pub fn value(
    program: &Program<'_>,
    scopes: &Scopes<'_>,
    expr: &Expr,
    least: &mut Option<Broken>,
) -> ValueType
    ensures kind { result ≡ meaning.type_of (tables_in program.now) scopes.now (expr_of expr.now) }
    ensures told { least.new ≡ least_from least.old
        (meaning.value_broken (tables_in program.now) scopes.now (expr_of expr.now)) }
{
    let found = kind(program, scopes, expr, least);
    as_value(found, least)
}

fn as_value(found: Kind, least: &mut Option<Broken>) -> ValueType
    ensures kind { result ≡ meaning.type_of_kind found }
    ensures told { least.new ≡ least_from least.old (meaning.unindexed found) }
{
    match found {
        Kind::Value(given) => given,
        Kind::Array { place, .. } => {
            note(least, place, Rule::Mismatch);
            ValueType::Any
        }
    }
}

/// The type of a call's result. `wanted` says that the result is used.
#[cycle(expressions)]
#[tactic(auto, using(crate::proofs::Arguments::expressions))]
pub fn call(
    program: &Program<'_>,
    scopes: &Scopes<'_>,
    name: &Name,
    arguments: &[Argument],
    wanted: bool,
    least: &mut Option<Broken>,
) -> ValueType
    ensures kind { result ≡ inside_meaning.call_kind (tables_in program.now) scopes.now wanted
        (ident_of name.now) (arguments_in arguments.now) }
    ensures told { least.new ≡ least_from least.old
        (meaning.call_rules (tables_in program.now) scopes.now wanted (ident_of name.now)
        (arguments_in arguments.now)) }
{
    match program.function_named(name.text.as_str()) {
        None => {
            note(least, name.place, Rule::UnknownName);
            pass(program, scopes, &[], arguments, least);
            ValueType::Any
        }
        Some(function) => {
            let count = arguments.len() as u64;
            let allowed = may_call(function, name.place, count, wanted, least);
            let passed = pass(program, scopes, &function.parameters, arguments, least);
            if allowed && passed {
                result_type(program, function)
            } else {
                ValueType::Any
            }
        }
    }
}

/// Whether every argument has a type that its parameter takes.
#[cycle(expressions)]
#[tactic(auto, using(crate::proofs::Arguments::expressions))]
fn pass(
    program: &Program<'_>,
    scopes: &Scopes<'_>,
    parameters: &[Parameter],
    arguments: &[Argument],
    least: &mut Option<Broken>,
) -> bool
    ensures kind { result ≡ meaning.all_taken (tables_in program.now) scopes.now
        (map parameter_of parameters.now) 0 (arguments_in arguments.now) }
    ensures told { least.new ≡ least_from least.old
        (meaning.broken_in_all (tables_in program.now) scopes.now (map parameter_of parameters.now)
        0 (arguments_in arguments.now)) }
{
    let mut passed = true;
    let mut at = 0u64;
    for argument in arguments {
        let given = value(program, scopes, &argument.value, least);
        let target = parameter_type(program, parameters, at);
        let taken = type_takes(target, given);
        expect(least, taken, argument.first, Rule::Mismatch);
        passed = and_passed(passed, taken, given);
        at += 1;
    }
    passed
}

fn and_passed(passed: bool, taken: bool, given: ValueType) -> bool
    ensures { result ≡ (passed && (taken && not (fits.is_any given))) }
{
    passed && taken && !is_any(given)
}

fn parameter_type(program: &Program<'_>, parameters: &[Parameter], at: u64) -> ValueType
    ensures { result ≡ meaning.parameter_type (tables_in program.now)
        (map parameter_of parameters.now) at }
{
    match parameters.get(at as usize) {
        None => ValueType::Any,
        Some(parameter) => program.declared_type(&parameter.ty),
    }
}

/// Whether a function may be called like this, apart from its arguments.
#[tactic(auto, using(crate::proofs::Told::told_append))]
fn may_call(
    function: &Function,
    place: u64,
    arguments: u64,
    wanted: bool,
    least: &mut Option<Broken>,
) -> bool
    ensures kind { result ≡ meaning.may_call wanted (function_tree function.now) arguments }
    ensures told { least.new ≡ least_from least.old
        (meaning.callee_broken wanted (function_tree function.now) arguments place) }
{
    let gives = !wanted || function.result_type.is_some();
    let counted = arguments == function.parameters.len() as u64;
    expect(least, gives, place, Rule::Mismatch);
    expect(least, counted, place, Rule::Arity);
    expect(least, !function.tx, place, Rule::BadTx);
    gives && counted && !function.tx
}

/// The type of a function's result. The result of a void function is used nowhere.
pub fn result_type(program: &Program<'_>, function: &Function) -> ValueType
    ensures { result ≡ meaning.result_type (tables_in program.now) (function_tree function.now) }
{
    match &function.result_type {
        None => ValueType::Any,
        Some(ty) => program.declared_type(ty),
    }
}

fn variable(scopes: &Scopes<'_>, name: &Name, least: &mut Option<Broken>) -> ValueType
    ensures kind { result ≡ meaning.variable_kind scopes.now (ident_of name.now) }
    ensures told { least.new ≡ least_from least.old
        (meaning.variable_broken scopes.now (ident_of name.now)) }
{
    match scopes.find(name.text.as_str()) {
        None => {
            note(least, name.place, Rule::UnknownName);
            ValueType::Any
        }
        Some(declared) => declared,
    }
}

/// The type of a pointer to the struct of that name, at the name's place.
pub fn pointer_to(program: &Program<'_>, name: &Name, least: &mut Option<Broken>) -> ValueType
    ensures kind { result ≡ tables.pointer_type (tables_in program.now) name.now.text }
    ensures told { least.new ≡ least_from least.old
        (meaning.pointer_broken (tables_in program.now) (ident_of name.now)) }
{
    match program.struct_named(name.text.as_str()) {
        None => note(least, name.place, Rule::UnknownName),
        Some(at) => {
            let words = program.words_at(at);
            let rule = Rule::TooBig(LimitKind::Pointer, words);
            expect(least, words <= program.pointed_limit(at), name.place, rule);
        }
    }
    program.pointer_type(name.text.as_str())
}

fn root_field(program: &Program<'_>, field: &Name, least: &mut Option<Broken>) -> Kind
    ensures kind { result ≡ meaning.root_kind (tables_in program.now) (ident_of field.now) }
    ensures told { least.new ≡ least_from least.old
        (meaning.root_broken (tables_in program.now) (ident_of field.now)) }
{
    match program.root_struct() {
        None => {
            expect(least, program.has_root(), field.place, Rule::UnknownName);
            Kind::Value(ValueType::Any)
        }
        Some(at) => member(program, at, field, least),
    }
}

fn arrow(
    program: &Program<'_>,
    base: ValueType,
    place: u64,
    field: &Name,
    least: &mut Option<Broken>,
) -> Kind
    ensures kind { result ≡ meaning.arrow_kind (tables_in program.now) base (ident_of field.now) }
    ensures told { least.new ≡ least_from least.old
        (meaning.arrow_broken (tables_in program.now) base place (ident_of field.now)) }
{
    match base {
        ValueType::Pointer(at) => member(program, at, field, least),
        ValueType::Int(_) => {
            note(least, place, Rule::Mismatch);
            Kind::Value(ValueType::Any)
        }
        ValueType::Null => {
            note(least, place, Rule::Mismatch);
            Kind::Value(ValueType::Any)
        }
        ValueType::Any => Kind::Value(ValueType::Any),
    }
}

/// What a field of the struct at that place denotes.
fn member(program: &Program<'_>, at: u64, name: &Name, least: &mut Option<Broken>) -> Kind
    ensures kind { result ≡ meaning.member_kind (tables_in program.now) at (ident_of name.now) }
    ensures told { least.new ≡ least_from least.old
        (meaning.member_broken (tables_in program.now) at (ident_of name.now)) }
{
    match find_member(program, at, name) {
        None => {
            note(least, name.place, Rule::UnknownName);
            Kind::Value(ValueType::Any)
        }
        Some(field) => field_kind(program, name.place, field),
    }
}

fn find_member<'a>(program: &Program<'a>, at: u64, name: &Name) -> Option<&'a Field>
    ensures { option_map (λ f. field_tree f.now) result ≡ meaning.member (tables_in program.now)
        at (ident_of name.now) }
{
    match program.struct_at(at) {
        None => None,
        Some(layout) => layout.field(name.text.as_str()),
    }
}

fn field_kind(program: &Program<'_>, place: u64, field: &Field) -> Kind
    ensures { result ≡ meaning.field_kind (tables_in program.now) place (field_tree field.now) }
{
    let declared = program.declared_type(&field.ty);
    match &field.length {
        None => Kind::Value(declared),
        Some(length) => {
            if is_any(declared) || !is_length(length.value) {
                Kind::Value(ValueType::Any)
            } else {
                Kind::Array {
                    element: declared,
                    place,
                }
            }
        }
    }
}

fn is_indexed(base: Kind) -> bool
    ensures { result ≡ meaning.is_indexed base }
{
    match base {
        Kind::Array { .. } => true,
        Kind::Value(ValueType::Any) => true,
        Kind::Value(ValueType::Int(_)) => false,
        Kind::Value(ValueType::Null) => false,
        Kind::Value(ValueType::Pointer(_)) => false,
    }
}

fn element_of(base: Kind) -> ValueType
    ensures { result ≡ meaning.element_of base }
{
    match base {
        Kind::Array { element, .. } => element,
        Kind::Value(_) => ValueType::Any,
    }
}

fn type_if(good: bool, ty: ValueType) -> ValueType
    ensures { result ≡ meaning.type_if good ty }
{
    if good { ty } else { ValueType::Any }
}

fn element(base: Kind, place: u64, index: ValueType, least: &mut Option<Broken>) -> ValueType
    ensures kind { result ≡ meaning.type_if (meaning.is_indexed base && fits.is_int index
        && not (fits.is_any index)) (meaning.element_of base) }
    ensures told { least.new ≡ least_from least.old
        (unless (meaning.is_indexed base && fits.is_int index) place Rule.Mismatch) }
{
    let indexed = is_indexed(base) && is_int(index);
    expect(least, indexed, place, Rule::Mismatch);
    type_if(indexed && !is_any(index), element_of(base))
}

fn unary(op: UnaryOp, place: u64, operand: ValueType, least: &mut Option<Broken>) -> ValueType
    ensures kind { result ≡ meaning.type_if (fits.applies op operand && not (fits.is_any operand))
        (fits.unary_type op operand) }
    ensures told { least.new ≡ least_from least.old
        (unless (fits.applies op operand) place Rule.Mismatch) }
{
    let applied = applies(op, operand);
    expect(least, applied, place, Rule::Mismatch);
    type_if(applied && !is_any(operand), unary_type(op, operand))
}

fn binary(
    op: BinaryOp,
    place: u64,
    left: ValueType,
    right: ValueType,
    least: &mut Option<Broken>,
) -> ValueType
    ensures kind { result ≡ meaning.type_if (fits.joins_types op left right
        && not (fits.is_any left) && not (fits.is_any right)) (fits.binary_type op left right) }
    ensures told { least.new ≡ least_from least.old
        (unless (fits.joins_types op left right) place Rule.Mismatch) }
{
    let joined = joins_types(op, left, right);
    expect(least, joined, place, Rule::Mismatch);
    let given = binary_type(op, left, right);
    type_if(joined && !is_any(left) && !is_any(right), given)
}

fn conditional(
    place: u64,
    tested: ValueType,
    left: ValueType,
    right: ValueType,
    least: &mut Option<Broken>,
) -> ValueType
    ensures kind { result ≡ meaning.conditional_type tested left right }
    ensures told { least.new ≡ least_from least.old
        (unless (fits.comparable left right) place Rule.Mismatch) }
{
    let fit = comparable(left, right);
    expect(least, fit, place, Rule::Mismatch);
    let known = !is_any(tested) && !is_any(left) && !is_any(right);
    type_if(fit && known, common_type(left, right))
}
