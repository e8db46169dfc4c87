//! The names of a program, and how types are told.

use c_tree::Ast;
use c_tree::expr::IntType;
use c_tree::item::Item;
use c_types::{Program, ValueType};
use plain_notes::{Spelled, is_one, nearest};
use std::alloc::{AllocError, Global};

/// The names of the program's functions.
pub(crate) fn functions<'a>(alloc: Global, ast: &'a Ast) -> Result<Vec<&'a [u8]>, AllocError> {
    let mut names = Vec::new(alloc);
    for item in ast.items() {
        if let Item::Function(function) = item {
            names.push(function.name.text.as_str().as_bytes())?;
        }
    }
    Ok(names)
}

/// The names of the program's structs.
pub(crate) fn structs<'a>(alloc: Global, ast: &'a Ast) -> Result<Vec<&'a [u8]>, AllocError> {
    let mut names = Vec::new(alloc);
    for item in ast.items() {
        if let Item::Struct(definition) = item {
            names.push(definition.name.text.as_str().as_bytes())?;
        }
    }
    Ok(names)
}

/// The names of the fields of the struct of that name, or of all structs.
pub(crate) fn fields<'a>(
    alloc: Global,
    ast: &'a Ast,
    of: Option<&str>,
) -> Result<Vec<&'a [u8]>, AllocError> {
    let mut names = Vec::new(alloc);
    for item in ast.items() {
        if let Item::Struct(definition) = item {
            let wanted = match of {
                None => true,
                Some(name) => definition.name.text.as_str() == name,
            };
            if wanted {
                for field in &definition.fields {
                    names.push(field.name.text.as_str().as_bytes())?;
                }
            }
        }
    }
    Ok(names)
}

/// The name of the root's struct.
pub(crate) fn root_struct(ast: &Ast) -> Option<&str> {
    for item in ast.items() {
        if let Item::Root(root) = item {
            return Some(root.name.text.as_str());
        }
    }
    None
}

/// Whether a name is one of these.
pub(crate) fn has_name(names: &[&[u8]], name: &[u8]) -> bool {
    for other in names {
        if *other == name {
            return true;
        }
    }
    false
}

/// A type in words.
pub(crate) fn type_text(
    alloc: Global,
    program: &Program<'_>,
    ty: ValueType,
) -> Result<String, AllocError> {
    match ty {
        ValueType::Int(IntType::Signed) => String::from_str(alloc, "an `int64_t`"),
        ValueType::Int(IntType::Unsigned) => String::from_str(alloc, "a `uint64_t`"),
        ValueType::Null => String::from_str(alloc, "`NULL`"),
        ValueType::Any => String::from_str(alloc, "a value of any type"),
        ValueType::Pointer(at) => match program.struct_at(at) {
            Some(layout) => {
                let name = layout.name().text.as_str();
                format!(in alloc; "a `struct {name} *`")
            }
            None => String::from_str(alloc, "a pointer"),
        },
    }
}

/// The note that names the nearest name, if one is near.
pub(crate) fn did_you_mean(
    alloc: Global,
    name: &[u8],
    names: &[&[u8]],
    head: &str,
) -> Result<Option<String>, AllocError> {
    match nearest(name, names) {
        Some(near) => {
            let near = String::from_utf8_lossy(alloc, near)?;
            let near = near.as_str();
            Ok(Some(format!(in alloc; "did you mean `{head}{near}`?")?))
        }
        None => Ok(None),
    }
}

/// The names that are declared in the function around a place: those after a type.
pub(crate) fn locals<'a>(alloc: Global, near: &Spelled<'a>) -> Result<Vec<&'a [u8]>, AllocError> {
    let mut names = Vec::new(alloc);
    for place in near.item_start()..item_end(near) {
        let one = Spelled {
            words: near.words,
            place,
        };
        if place != near.place && is_one(one.before(1), &["int64_t", "uint64_t", "*"]) {
            names.push(one.here())?;
        }
    }
    Ok(names)
}

/// The place of the last token of the item in which the token stands.
pub(crate) fn item_end(near: &Spelled<'_>) -> u64 {
    let mut depth = 0u64;
    let count = near.words.len() as u64;
    for place in near.item_start()..count {
        let one = Spelled {
            words: near.words,
            place,
        };
        depth = depth_after(depth, one.here());
        if depth == 0 && one.here() == b"}".as_slice() {
            return place;
        }
    }
    count
}

/// How many braces are open after this token.
fn depth_after(depth: u64, token: &[u8]) -> u64 {
    if token == b"{".as_slice() {
        depth.saturating_add(1)
    } else if token == b"}".as_slice() {
        depth.saturating_sub(1)
    } else {
        depth
    }
}
