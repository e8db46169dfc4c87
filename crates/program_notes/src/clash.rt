//! Finds the types that don't fit at a token, and how many arguments a call gives.

use c_tree::Ast;
use c_tree::expr::{Argument, Expr, Name};
use c_tree::item::{Function, Item};
use c_tree::stmt::{Declaration, First, Initial, Simple, Stmt};
use c_types::{Kind, Program, Scopes, ValueType, kind_of, type_of};
use std::alloc::{AllocError, Global};

/// What stands at a token that breaks a rule.
#[derive(Clone, Copy)]
pub(crate) enum Clash {
    /// A binary operator or `?`, with the types of both sides.
    Sides(ValueType, ValueType),
    /// A unary operator, with the type of its operand.
    Operand(ValueType),
    /// `->` after a value of this type.
    Arrow(ValueType),
    /// `[` after what denotes this, with an index of this type.
    Index(Kind, ValueType),
    /// An array field without an index.
    Array,
    /// A call, by the number of its arguments.
    Call(u64),
    /// An argument of this type, where a parameter has that one.
    Argument {
        wanted: ValueType,
        given: ValueType,
    },
    /// A target of this type is given a value of that one.
    Gives {
        target: ValueType,
        given: ValueType,
    },
    /// A step of a target of this type.
    Step(ValueType),
    /// `return` in a function with this result, with a value of that type.
    Returns {
        wanted: Option<ValueType>,
        given: Option<ValueType>,
    },
    /// `pm_free` of a value of this type.
    Free(ValueType),
}

/// The token that is looked for, and the program around it.
#[derive(Clone, Copy)]
struct Look<'p, 'a> {
    program: &'p Program<'a>,
    place: u64,
    /// The result of the function.
    gives: Option<ValueType>,
}

/// What stands at the token of this place.
pub(crate) fn clash_at<'a>(
    alloc: Global,
    ast: &'a Ast,
    program: &Program<'a>,
    place: u64,
) -> Result<Option<Clash>, AllocError> {
    for item in ast.items() {
        if let Item::Function(function) = item {
            let found = in_function(alloc, program, function, place)?;
            if found.is_some() {
                return Ok(found);
            }
        }
    }
    Ok(None)
}

fn in_function<'a>(
    alloc: Global,
    program: &Program<'a>,
    function: &'a Function,
    place: u64,
) -> Result<Option<Clash>, AllocError> {
    let look = Look {
        program,
        place,
        gives: result_of(program, function),
    };
    let mut scopes = parameters(alloc, program, function)?;
    statements(alloc, &look, &mut scopes, &function.body)
}

fn result_of(program: &Program<'_>, function: &Function) -> Option<ValueType> {
    match &function.result_type {
        Some(ty) => Some(program.declared_type(ty)),
        None => None,
    }
}

/// The scope of a function's parameters.
fn parameters<'a>(
    alloc: Global,
    program: &Program<'a>,
    function: &'a Function,
) -> Result<Scopes<'a>, AllocError> {
    let mut scopes = Scopes::new(alloc);
    scopes.open(alloc)?;
    for parameter in &function.parameters {
        let ty = program.declared_type(&parameter.ty);
        scopes.declare(parameter.name.text.as_str(), ty)?;
    }
    Ok(scopes)
}

#[cycle(clash)]
fn statements<'a>(
    alloc: Global,
    look: &Look<'_, 'a>,
    scopes: &mut Scopes<'a>,
    all: &'a [Stmt],
) -> Result<Option<Clash>, AllocError> {
    for stmt in all {
        let found = statement(alloc, look, scopes, stmt)?;
        if found.is_some() {
            return Ok(found);
        }
    }
    Ok(None)
}

#[cycle(clash)]
fn statement<'a>(
    alloc: Global,
    look: &Look<'_, 'a>,
    scopes: &mut Scopes<'a>,
    stmt: &'a Stmt,
) -> Result<Option<Clash>, AllocError> {
    match stmt {
        Stmt::Empty | Stmt::Break | Stmt::Continue => Ok(None),
        Stmt::Declare(declaration) => declare(look, scopes, declaration),
        Stmt::Simple(one) => Ok(simple(look, scopes, one)),
        Stmt::Block(all) => block(alloc, look, scopes, all),
        Stmt::If {
            condition,
            body,
            other,
        } => {
            let found = expr(look, scopes, condition);
            let found = unless_found(alloc, look, scopes, found, body)?;
            match other {
                Some(other) => unless_found(alloc, look, scopes, found, other),
                None => Ok(found),
            }
        }
        Stmt::While {
            condition,
            body,
            ..
        } => {
            let found = expr(look, scopes, condition);
            unless_found(alloc, look, scopes, found, body)
        }
        Stmt::Do {
            body,
            condition,
            ..
        } => {
            let found = inside(alloc, look, scopes, body)?;
            Ok(found.or(expr(look, scopes, condition)))
        }
        Stmt::For {
            first,
            condition,
            third,
            body,
            ..
        } => {
            scopes.open(alloc)?;
            let found = head(look, scopes, first, condition, third)?;
            let found = unless_found(alloc, look, scopes, found, body)?;
            scopes.close();
            Ok(found)
        }
        Stmt::Return { place, value } => Ok(returned(look, scopes, *place, value)),
    }
}

#[cycle(clash)]
fn block<'a>(
    alloc: Global,
    look: &Look<'_, 'a>,
    scopes: &mut Scopes<'a>,
    all: &'a [Stmt],
) -> Result<Option<Clash>, AllocError> {
    scopes.open(alloc)?;
    let found = statements(alloc, look, scopes, all)?;
    scopes.close();
    Ok(found)
}

/// What was found before, or what the body has.
#[cycle(clash)]
fn unless_found<'a>(
    alloc: Global,
    look: &Look<'_, 'a>,
    scopes: &mut Scopes<'a>,
    found: Option<Clash>,
    body: &'a Stmt,
) -> Result<Option<Clash>, AllocError> {
    match found {
        Some(found) => Ok(Some(found)),
        None => inside(alloc, look, scopes, body),
    }
}

#[cycle(clash)]
fn inside<'a>(
    alloc: Global,
    look: &Look<'_, 'a>,
    scopes: &mut Scopes<'a>,
    body: &'a Stmt,
) -> Result<Option<Clash>, AllocError> {
    scopes.open(alloc)?;
    let found = statement(alloc, look, scopes, body)?;
    scopes.close();
    Ok(found)
}

/// Of the head of a `for`.
fn head<'a>(
    look: &Look<'_, 'a>,
    scopes: &mut Scopes<'a>,
    first: &'a Option<First>,
    condition: &Option<Expr>,
    third: &Option<Simple>,
) -> Result<Option<Clash>, AllocError> {
    let found = begin(look, scopes, first)?;
    let tested = match condition {
        Some(condition) => expr(look, scopes, condition),
        None => None,
    };
    let stepped = match third {
        Some(third) => simple(look, scopes, third),
        None => None,
    };
    Ok(found.or(tested).or(stepped))
}

fn begin<'a>(
    look: &Look<'_, 'a>,
    scopes: &mut Scopes<'a>,
    first: &'a Option<First>,
) -> Result<Option<Clash>, AllocError> {
    match first {
        None => Ok(None),
        Some(First::Declare(declaration)) => declare(look, scopes, declaration),
        Some(First::Simple(one)) => Ok(simple(look, scopes, one)),
    }
}

fn declare<'a>(
    look: &Look<'_, 'a>,
    scopes: &mut Scopes<'a>,
    declaration: &'a Declaration,
) -> Result<Option<Clash>, AllocError> {
    let target = look.program.declared_type(&declaration.ty);
    let found = match &declaration.initial {
        Some(initial) => initial_at(look, scopes, target, initial),
        None => None,
    };
    scopes.declare(declaration.name.text.as_str(), target)?;
    Ok(found)
}

fn initial_at(
    look: &Look<'_, '_>,
    scopes: &Scopes<'_>,
    target: ValueType,
    initial: &Initial,
) -> Option<Clash> {
    if initial.place == look.place {
        let given = type_of(look.program, scopes, &initial.value);
        return Some(Clash::Gives { target, given });
    }
    expr(look, scopes, &initial.value)
}

fn simple(look: &Look<'_, '_>, scopes: &Scopes<'_>, stmt: &Simple) -> Option<Clash> {
    match stmt {
        Simple::Assign {
            target,
            place,
            value,
            ..
        } => {
            if *place == look.place {
                return Some(given(look, scopes, target, value));
            }
            expr(look, scopes, target).or(expr(look, scopes, value))
        }
        Simple::Step { target, place, .. } => {
            if *place == look.place {
                return Some(Clash::Step(type_of(look.program, scopes, target)));
            }
            expr(look, scopes, target)
        }
        Simple::Call { name, arguments } => call(look, scopes, name, arguments),
        Simple::Free { place, pointer } => {
            if *place == look.place {
                return Some(Clash::Free(type_of(look.program, scopes, pointer)));
            }
            expr(look, scopes, pointer)
        }
        Simple::Abort { .. } => None,
    }
}

/// An assignment's both types.
fn given(look: &Look<'_, '_>, scopes: &Scopes<'_>, target: &Expr, value: &Expr) -> Clash {
    Clash::Gives {
        target: type_of(look.program, scopes, target),
        given: type_of(look.program, scopes, value),
    }
}

fn returned(
    look: &Look<'_, '_>,
    scopes: &Scopes<'_>,
    place: u64,
    value: &Option<Expr>,
) -> Option<Clash> {
    if place == look.place {
        return Some(Clash::Returns {
            wanted: look.gives,
            given: type_of_value(look, scopes, value),
        });
    }
    match value {
        Some(value) => expr(look, scopes, value),
        None => None,
    }
}

fn type_of_value(
    look: &Look<'_, '_>,
    scopes: &Scopes<'_>,
    value: &Option<Expr>,
) -> Option<ValueType> {
    match value {
        Some(value) => Some(type_of(look.program, scopes, value)),
        None => None,
    }
}

#[cycle(nodes)]
fn expr(look: &Look<'_, '_>, scopes: &Scopes<'_>, one: &Expr) -> Option<Clash> {
    match one {
        Expr::Number(_) | Expr::Null | Expr::Variable(_) | Expr::New { .. } => None,
        Expr::Root(name) => array(look, name.place),
        Expr::Call { name, arguments } => call(look, scopes, name, arguments),
        Expr::Arrow { base, place, field } => arrow(look, scopes, base, *place)
            .or(array(look, field.place))
            .or(expr(look, scopes, base)),
        Expr::Index { base, place, index } => indexed(look, scopes, base, *place, index)
            .or(expr(look, scopes, base))
            .or(expr(look, scopes, index)),
        Expr::Unary { place, operand, .. } => operand_of(look, scopes, operand, *place).or(expr(
            look, scopes, operand,
        )),
        Expr::Binary {
            place,
            left,
            right,
            ..
        } => sides(look, scopes, left, *place, right)
            .or(expr(look, scopes, left))
            .or(expr(look, scopes, right)),
        Expr::Conditional {
            condition,
            place,
            left,
            right,
        } => sides(look, scopes, left, *place, right)
            .or(expr(look, scopes, condition))
            .or(expr(look, scopes, left))
            .or(expr(look, scopes, right)),
    }
}

#[cycle(nodes)]
fn call(
    look: &Look<'_, '_>,
    scopes: &Scopes<'_>,
    name: &Name,
    arguments: &[Argument],
) -> Option<Clash> {
    if name.place == look.place {
        return Some(Clash::Call(arguments.len() as u64));
    }
    all_arguments(look, scopes, name.text.as_str(), arguments)
}

fn arrow(look: &Look<'_, '_>, scopes: &Scopes<'_>, base: &Expr, place: u64) -> Option<Clash> {
    if place == look.place {
        return Some(Clash::Arrow(type_of(look.program, scopes, base)));
    }
    None
}

fn indexed(
    look: &Look<'_, '_>,
    scopes: &Scopes<'_>,
    base: &Expr,
    place: u64,
    index: &Expr,
) -> Option<Clash> {
    if place == look.place {
        let kind = kind_of(look.program, scopes, base);
        return Some(Clash::Index(kind, type_of(look.program, scopes, index)));
    }
    None
}

fn operand_of(
    look: &Look<'_, '_>,
    scopes: &Scopes<'_>,
    operand: &Expr,
    place: u64,
) -> Option<Clash> {
    if place == look.place {
        return Some(Clash::Operand(type_of(look.program, scopes, operand)));
    }
    None
}

fn sides(
    look: &Look<'_, '_>,
    scopes: &Scopes<'_>,
    left: &Expr,
    place: u64,
    right: &Expr,
) -> Option<Clash> {
    if place == look.place {
        let left = type_of(look.program, scopes, left);
        return Some(Clash::Sides(left, type_of(look.program, scopes, right)));
    }
    None
}

fn array(look: &Look<'_, '_>, place: u64) -> Option<Clash> {
    if place == look.place {
        return Some(Clash::Array);
    }
    None
}

#[cycle(nodes)]
fn all_arguments(
    look: &Look<'_, '_>,
    scopes: &Scopes<'_>,
    name: &str,
    arguments: &[Argument],
) -> Option<Clash> {
    for (at, argument) in arguments.iter().enumerate() {
        let found = argument_at(look, scopes, wanted_at(look.program, name, at), argument).or(expr(
            look,
            scopes,
            &argument.value,
        ));
        if found.is_some() {
            return found;
        }
    }
    None
}

/// An argument at the place that is looked for, of another type than its parameter.
fn argument_at(
    look: &Look<'_, '_>,
    scopes: &Scopes<'_>,
    wanted: ValueType,
    argument: &Argument,
) -> Option<Clash> {
    if argument.first != look.place {
        return None;
    }
    let given = type_of(look.program, scopes, &argument.value);
    if wanted != given && given != ValueType::Any {
        return Some(Clash::Argument { wanted, given });
    }
    None
}

/// The type of a function's parameter.
fn wanted_at(program: &Program<'_>, name: &str, at: usize) -> ValueType {
    let Some(function) = program.function_named(name) else {
        return ValueType::Any;
    };
    match function.parameters.get(at) {
        Some(parameter) => program.declared_type(&parameter.ty),
        None => ValueType::Any,
    }
}
