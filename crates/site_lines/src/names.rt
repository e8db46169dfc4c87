//! The names in a listing's lines: of structs, of fields, and of what a store writes.

ghost use Rattle.std.specs.Prelude.{◌≡◌, ◌++◌, IfOk};
ghost use Rattle.site_lines.specs.Rows.{function_name, struct_name, field_name};
ghost use Rattle.site_lines.specs.Rows.{field_of_struct, target_name};

use ir::{IrFunction, Target};
use nvm_base::Text;
use pool_map::{FieldShapes, Shapes};
use std::alloc::{AllocError, Global};

/// Three pieces of text, one after another.
pub(crate) fn joined(
    alloc: Global,
    first: &str,
    middle: &str,
    last: &str,
) -> Result<Text, AllocError>
    ensures { IfOk result (λ text. text ≡ first.now ++ (middle.now ++ last.now)) }
{
    let mut text = Text::new(alloc);
    text.push(first)?;
    text.push(middle)?;
    text.push(last)?;
    Ok(text)
}

/// A target's name: `root.f`, or the struct's name and the field's.
pub(crate) fn target_name(
    alloc: Global,
    shapes: &Shapes,
    target: Target,
) -> Result<Text, AllocError>
    ensures { IfOk result (λ text. text ≡ target_name shapes.now target) }
{
    match target {
        Target::Root { field, .. } => joined(alloc, "root", ".", field_name(&shapes.root, field)),
        Target::Field { kind, field, .. } => joined(
            alloc,
            struct_name(shapes, kind),
            ".",
            field_of_struct(shapes, kind, field),
        ),
    }
}

/// The name of the function with that number, empty if there is none.
pub fn function_name(functions: &[IrFunction], number: u32) -> &str
    ensures { result.now ≡ function_name functions.now number }
{
    match functions.get(number as usize) {
        Some(function) => function.name.as_str(),
        None => "",
    }
}

/// The name of a field, empty if there is none.
pub fn field_name(fields: &FieldShapes, field: u32) -> &str
    ensures { result.now ≡ field_name fields.now field }
{
    match fields.as_slice().get(field as usize) {
        Some(field) => field.name.as_str(),
        None => "",
    }
}

/// The name of the struct with that number, empty if there is none.
pub fn struct_name(shapes: &Shapes, kind: u32) -> &str
    ensures { result.now ≡ struct_name shapes.now kind }
{
    if kind == 0 {
        return "";
    }
    match shapes.structs.as_slice().get((kind - 1) as usize) {
        Some(shape) => shape.name.as_str(),
        None => "",
    }
}

/// The name of a struct's field, empty if there is none.
pub fn field_of_struct(shapes: &Shapes, kind: u32, field: u32) -> &str
    ensures { result.now ≡ field_of_struct shapes.now kind field }
{
    if kind == 0 {
        return "";
    }
    match shapes.structs.as_slice().get((kind - 1) as usize) {
        Some(shape) => field_name(&shape.fields, field),
        None => "",
    }
}
