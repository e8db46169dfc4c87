//! The shapes of a program's structs: their names, and their fields' names and lengths.

ghost use Rattle.std.specs.Prelude.{◌≡◌, IfOk};

use nvm_base::{List, Text};
use std::alloc::{AllocError, Global};

/// A field: one word, or an array of `length` words.
#[derive(Drop)]
pub struct FieldShape {
    pub name: Text,
    /// Whether its words are shown as numbers from 0 to 2^64 - 1.
    pub unsigned: bool,
    /// The number of elements of an array, or `None` for a field that isn't an array.
    pub length: Option<u64>,
}

impl FieldShape {
    ghost use Rattle.pool_map.specs.PoolFits.{words_of_field};

    /// The number of words of the field.
    pub(crate) fn words(&self) -> u64
        ensures { result ≡ words_of_field self.now }
    {
        self.length.unwrap_or(1)
    }
}

/// Fields, in the order of their declarations.
pub type FieldShapes = List<FieldShape>;

/// A struct that objects may have.
#[derive(Drop)]
pub struct StructShape {
    pub name: Text,
    pub fields: FieldShapes,
}

/// Structs, in the order of their numbers, from number 1 on.
pub type StructShapes = List<StructShape>;

/// The shapes that a program's pool has: the fields of the root, and the structs.
#[derive(Drop)]
pub struct Shapes {
    pub root: FieldShapes,
    pub structs: StructShapes,
}

/// A copy of a text.
fn text_copy(alloc: Global, text: &Text) -> Result<Text, AllocError>
    ensures { IfOk result (λ t. t ≡ text.now) }
{
    let mut copy = Text::new(alloc);
    copy.push(text.as_str())?;
    Ok(copy)
}

impl FieldShape {
    fn copy(&self, alloc: Global) -> Result<FieldShape, AllocError>
        ensures { IfOk result (λ f. f ≡ self.now) }
    {
        Ok(FieldShape {
            name: text_copy(alloc, &self.name)?,
            unsigned: self.unsigned,
            length: self.length,
        })
    }
}

fn fields_copy(alloc: Global, fields: &FieldShapes) -> Result<FieldShapes, AllocError>
    ensures { IfOk result (λ f. f ≡ fields.now) }
{
    let mut copy = FieldShapes::new(alloc);
    for field in fields.as_slice() {
        copy.push(field.copy(alloc)?)?;
    }
    Ok(copy)
}

impl StructShape {
    fn copy(&self, alloc: Global) -> Result<StructShape, AllocError>
        ensures { IfOk result (λ s. s ≡ self.now) }
    {
        Ok(StructShape {
            name: text_copy(alloc, &self.name)?,
            fields: fields_copy(alloc, &self.fields)?,
        })
    }
}

fn structs_copy(alloc: Global, structs: &StructShapes) -> Result<StructShapes, AllocError>
    ensures { IfOk result (λ s. s ≡ structs.now) }
{
    let mut copy = StructShapes::new(alloc);
    for shape in structs.as_slice() {
        copy.push(shape.copy(alloc)?)?;
    }
    Ok(copy)
}

impl Shapes {
    /// A copy of the shapes.
    pub fn copy(&self, alloc: Global) -> Result<Shapes, AllocError>
        ensures { IfOk result (λ s. s ≡ self.now) }
    {
        Ok(Shapes {
            root: fields_copy(alloc, &self.root)?,
            structs: structs_copy(alloc, &self.structs)?,
        })
    }
}
