//! The shapes of a program's pool.

ghost use Rattle.std.specs.Prelude.{◌≡◌, IfOk, map, option_map};
ghost use Rattle.std.specs.Int.{w64, cast_unsigned};
ghost use Rattle.c_tree.specs.ItemTree.{field_tree, length_tree};
ghost use Rattle.c_tree.specs.StmtTree.{type_tree};
ghost use Rattle.c_types.specs.Shapes as meaning;
ghost use Rattle.c_types.specs.Views.{tables_in};

use crate::layout::Layout;
use crate::program::{Program, pointed_limit};
use c_tree::expr::IntType;
use c_tree::item::{Field, Length};
use c_tree::stmt::TypeName;
use nvm_base::Text;
use pool_map::{FieldShape, FieldShapes, Shapes, StructShape, StructShapes};
use std::alloc::{AllocError, Global};

/// The fields of the root and of each struct that has a number.
pub fn program_shapes(alloc: Global, program: &Program<'_>) -> Result<Shapes, AllocError>
    ensures { IfOk result (λ s. s ≡ meaning.shapes_in (tables_in program.now)) }
{
    let root = root_shapes(alloc, program)?;
    let structs = struct_shapes(alloc, program.root_struct(), program.structs())?;
    Ok(Shapes { root, structs })
}

fn root_shapes(alloc: Global, program: &Program<'_>) -> Result<FieldShapes, AllocError>
    ensures { IfOk result (λ s. s ≡ map meaning.field_shape
        (meaning.root_fields (tables_in program.now))) }
{
    match program.root_struct() {
        None => Ok(FieldShapes::new(alloc)),
        Some(at) => match program.struct_at(at) {
            None => Ok(FieldShapes::new(alloc)),
            Some(layout) => field_shapes(alloc, layout.fields()),
        },
    }
}

fn struct_shapes(
    alloc: Global,
    root: Option<u64>,
    structs: &[Layout<'_>],
) -> Result<StructShapes, AllocError>
    ensures { IfOk result (λ s.
        s ≡ map meaning.struct_shape (meaning.numbered root 0 structs.now)) }
{
    let mut shapes = StructShapes::new(alloc);
    let mut at = 0u64;
    for layout in structs {
        if layout.words() <= pointed_limit(root, at) {
            shapes.push(struct_shape(alloc, layout)?)?;
        }
        at += 1;
    }
    Ok(shapes)
}

fn struct_shape(alloc: Global, layout: &Layout<'_>) -> Result<StructShape, AllocError>
    ensures { IfOk result (λ s. s ≡ meaning.struct_shape layout.now) }
{
    let name = copied(alloc, layout.name().text.as_str())?;
    let fields = field_shapes(alloc, layout.fields())?;
    Ok(StructShape { name, fields })
}

fn field_shapes(alloc: Global, fields: &[Field]) -> Result<FieldShapes, AllocError>
    ensures { IfOk result (λ s. s ≡ map meaning.field_shape (map field_tree fields.now)) }
{
    let mut shapes = FieldShapes::new(alloc);
    for field in fields {
        shapes.push(field_shape(alloc, field)?)?;
    }
    Ok(shapes)
}

fn field_shape(alloc: Global, field: &Field) -> Result<FieldShape, AllocError>
    ensures { IfOk result (λ s. s ≡ meaning.field_shape (field_tree field.now)) }
{
    let name = copied(alloc, field.name.text.as_str())?;
    let length = length_shape(&field.length);
    Ok(FieldShape {
        name,
        unsigned: is_unsigned(&field.ty),
        length,
    })
}

/// Whether a type is `uint64_t`.
pub fn is_unsigned(ty: &TypeName) -> bool
    ensures { result ≡ meaning.is_unsigned (type_tree ty.now) }
{
    match ty {
        TypeName::Int(IntType::Unsigned) => true,
        _ => false,
    }
}

fn length_shape(length: &Option<Length>) -> Option<u64>
    ensures { result ≡ option_map (λ l. cast_unsigned w64 l.value)
        (option_map length_tree length.now) }
{
    match length {
        None => None,
        Some(length) => Some(length.value.cast_unsigned()),
    }
}

/// A copy of a text.
pub fn copied(alloc: Global, text: &str) -> Result<Text, AllocError>
    ensures { IfOk result (λ t. t ≡ text.now) }
{
    let mut copy = Text::new(alloc);
    copy.push(text)?;
    Ok(copy)
}
