//! Where the program declares what a refused token names or reaches into.

use crate::clash::{Clash, clash_at};
use crate::names::root_struct;
use crate::program::line_of;
use c_lexer::TokenList;
use c_tree::Ast;
use c_tree::item::Item;
use c_types::{Program, TypeFault, ValueType};
use plain_notes::Spelled;
use std::alloc::{AllocError, Global};

/// The note with the line of the function that takes another number of arguments, or of the struct
/// that has no such field.
pub(crate) fn declared(
    alloc: Global,
    list: &TokenList,
    ast: &Ast,
    near: &Spelled<'_>,
    fault: TypeFault,
) -> Result<Option<String>, AllocError> {
    match fault {
        TypeFault::Arity { .. } => {
            let place = place_of_function(ast, near.here());
            declared_at(alloc, list, near.here(), place)
        }
        TypeFault::UnknownName { .. } => match struct_before(alloc, ast, near)? {
            Some(name) => {
                let name = name.as_str();
                declared_at(alloc, list, name.as_bytes(), place_of_struct(ast, name))
            }
            None => Ok(None),
        },
        _ => Ok(None),
    }
}

fn declared_at(
    alloc: Global,
    list: &TokenList,
    name: &[u8],
    place: Option<u64>,
) -> Result<Option<String>, AllocError> {
    let Some(place) = place else {
        return Ok(None);
    };
    let name = String::from_utf8_lossy(alloc, name)?;
    let name = name.as_str();
    let line = line_of(list, place);
    Ok(Some(format!(in alloc; "`{name}` is declared in line {line}")?))
}

/// The place of the name of a function where it is declared.
fn place_of_function(ast: &Ast, name: &[u8]) -> Option<u64> {
    for item in ast.items() {
        if let Item::Function(function) = item {
            if function.name.text.as_str().as_bytes() == name {
                return Some(function.name.place);
            }
        }
    }
    None
}

/// The place of the name of a struct where it is declared.
fn place_of_struct(ast: &Ast, name: &str) -> Option<u64> {
    for item in ast.items() {
        if let Item::Struct(definition) = item {
            if definition.name.text.as_str() == name {
                return Some(definition.name.place);
            }
        }
    }
    None
}

/// The name of the struct that a field is looked for in: that of the root, or of the object before
/// an arrow.
pub(crate) fn struct_before(
    alloc: Global,
    ast: &Ast,
    near: &Spelled<'_>,
) -> Result<Option<String>, AllocError> {
    if near.before(1) == b".".as_slice() {
        return match root_struct(ast) {
            Some(name) => Ok(Some(String::from_str(alloc, name)?)),
            None => Ok(None),
        };
    }
    if near.before(1) == b"->".as_slice() {
        return pointed_at(alloc, ast, near.place.saturating_sub(1));
    }
    Ok(None)
}

/// The name of the struct that the value before an arrow points to.
fn pointed_at(alloc: Global, ast: &Ast, arrow: u64) -> Result<Option<String>, AllocError> {
    let program = Program::new(alloc, ast.items())?;
    let Some(Clash::Arrow(ValueType::Pointer(at))) = clash_at(alloc, ast, &program, arrow)? else {
        return Ok(None);
    };
    match program.struct_at(at) {
        Some(layout) => Ok(Some(String::from_str(alloc, layout.name().text.as_str())?)),
        None => Ok(None),
    }
}
