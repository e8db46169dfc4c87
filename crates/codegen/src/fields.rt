//! The places of a field's words, counted from the first field word of the root or of an object.

ghost use Rattle.std.specs.Prelude.{◌≡◌, ◌+◌, ◌≤◌, IfSome, option_copied, option_map};
ghost use Rattle.pool_map.specs.PoolFits.{words_of_field, struct_at};
ghost use Rattle.codegen.specs.Fields as definitions;
ghost use Rattle.codegen.specs.Fields.{words_from, field_at, reach, element_at, object_words};

use pool_layout::Sizes;
use pool_map::{FieldShape, Shapes, StructShape};

/// A field's first word, and its number of elements if it is an array.
#[derive(Clone, Copy)]
pub struct FieldPlace {
    pub first: u32,
    pub length: Option<u32>,
}

/// A word, or an element of an array: the register of its index, and the array's length.
#[derive(Clone, Copy)]
pub enum At {
    Word,
    Element(u32, u32),
}

/// A field's first word, and which part of the field is meant.
#[derive(Clone, Copy)]
pub struct Reach {
    pub first: u32,
    pub at: At,
}

/// The word after a field that begins at `first`, if there is room for the field.
fn past(limit: u32, first: u32, field: &FieldShape) -> Option<u32>
    ensures value { result ≡ definitions.word_after_field limit first field.now }
    ensures within { IfSome result (λ _. first + words_of_field field.now ≤ limit) }
{
    let end = u64::from(first).checked_add(field.length.unwrap_or(1))?;
    if end <= u64::from(limit) {
        Some(end as u32)
    } else {
        None
    }
}

/// The number of words of the fields, if there is room for them.
pub fn words_of(limit: u32, fields: &[FieldShape]) -> Option<u32>
    ensures { result ≡ words_from limit 0 fields.now }
{
    let mut words = 0;
    for field in fields {
        words = past(limit, words, field)?;
    }
    Some(words)
}

fn elements(limit: u32, field: &FieldShape) -> Option<u32>
    requires { words_of_field field.now ≤ limit }
    ensures { result ≡ field.now.length }
{
    match field.length {
        None => None,
        Some(length) => Some(length as u32),
    }
}

/// The place of a field, if it exists and has room.
pub fn field_place(limit: u32, fields: &[FieldShape], field: u32) -> Option<FieldPlace>
    ensures { result ≡ field_at limit 0 fields.now field }
{
    let mut first = 0;
    let mut left = field;
    for shape in fields {
        let next = past(limit, first, shape)?;
        if left == 0 {
            let length = elements(limit, shape);
            return Some(FieldPlace { first, length });
        }
        left -= 1;
        first = next;
    }
    None
}

/// An index is given exactly for an array.
fn element_of(length: Option<u32>, index: Option<u32>) -> Option<At>
    ensures { result ≡ element_at length index }
{
    match (length, index) {
        (None, None) => Some(At::Word),
        (Some(length), Some(index)) => Some(At::Element(index, length)),
        (None, Some(_)) | (Some(_), None) => None,
    }
}

fn reach_of(place: Option<FieldPlace>, index: Option<u32>) -> Option<Reach>
    ensures { result ≡ reach place index }
{
    let place = place?;
    let at = element_of(place.length, index)?;
    Some(Reach {
        first: place.first,
        at,
    })
}

fn struct_shape(shapes: &Shapes, kind: u32) -> Option<&StructShape>
    ensures { option_copied result ≡ struct_at shapes.now.structs kind }
{
    if kind == 0 {
        return None;
    }
    shapes.structs.as_slice().get(kind as usize - 1)
}

/// How many field words a slot has room for.
fn room(sizes: &Sizes) -> u32
    ensures { result ≡ definitions.room sizes.now }
{
    (sizes.slot_words() - 1) as u32
}

/// The number of words of a struct, if it exists and a slot has room for it.
pub fn struct_words(sizes: &Sizes, shapes: &Shapes, kind: u32) -> Option<u32>
    ensures { result ≡ object_words sizes.now shapes.now kind }
{
    let shape = struct_shape(shapes, kind)?;
    words_of(room(sizes), shape.fields.as_slice())
}

/// The place that a field of the root means, if it exists.
pub fn root_reach(sizes: &Sizes, shapes: &Shapes, field: u32, index: Option<u32>) -> Option<Reach>
    ensures { result ≡ definitions.root_reach sizes.now shapes.now field index }
{
    let place = field_place(sizes.root_words() as u32, shapes.root.as_slice(), field);
    reach_of(place, index)
}

fn struct_place(sizes: &Sizes, shapes: &Shapes, kind: u32, field: u32) -> Option<FieldPlace>
    ensures { result ≡ definitions.struct_place sizes.now shapes.now kind field }
{
    let shape = struct_shape(shapes, kind)?;
    field_place(room(sizes), shape.fields.as_slice(), field)
}

/// The place that a field of a struct means, if it exists.
pub fn struct_reach(
    sizes: &Sizes,
    shapes: &Shapes,
    kind: u32,
    field: u32,
    index: Option<u32>,
) -> Option<Reach>
    ensures { result ≡ definitions.struct_reach sizes.now shapes.now kind field index }
{
    reach_of(struct_place(sizes, shapes, kind, field), index)
}
