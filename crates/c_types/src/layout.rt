//! A struct, the names of its fields, and the number of its words.

ghost use Rattle.std.specs.Prelude.{◌≡◌, ◌-◌, ◌^◌, min, IfOk, map, option_map, if◌then◌else◌};
ghost use Rattle.c_tree.specs.ExprTree.{ident_of};
ghost use Rattle.c_tree.specs.ItemTree.{FieldTree, field_tree};
ghost use Rattle.c_types.specs.Tables as tables;
ghost use Rattle.c_types.specs.Views.{struct_tree};

use crate::names::Names;
use c_tree::expr::Name;
use c_tree::item::{Field, StructDef};
use pool_map::ARRAY_LENGTH;
use std::alloc::{AllocError, Global};
use std::marker::Model;

/// A struct with the names of its fields and the number of its words, seen as the struct's tree.
#[derive(Drop)]
pub struct Layout<'a> {
    definition: &'a StructDef,
    names: Names<'a>,
    words: u64,
}

impl<'a> Model for Layout<'a> {
    ghost use Rattle.std.specs.Prelude.{◌≡◌};
    ghost use Rattle.c_types.specs.Tables.{StructTree, field_names, words_of_struct};
    ghost use Rattle.c_types.specs.Views.{struct_tree};

    ghost Value = { StructTree };

    ghost view = { λ l. struct_tree l.definition.now };

    ghost invariant = { λ l. (l.names ≡ field_names (struct_tree l.definition.now))
        × (l.words ≡ words_of_struct (struct_tree l.definition.now)) };
}

impl<'a> Layout<'a> {
    /// A struct's definition with the numbers of words of its fields, taken together.
    pub fn new(alloc: Global, definition: &'a StructDef) -> Result<Self, AllocError>
        ensures { IfOk result (λ l. l ≡ struct_tree definition.now) }
    {
        let names = field_names(alloc, &definition.fields)?;
        let words = words_of(&names, &definition.fields);
        Ok(Layout {
            definition,
            names,
            words,
        })
    }

    /// The struct's name.
    pub fn name(&self) -> &'a Name
        ensures { ident_of result.now ≡ self.now.name }
    {
        &self.definition.name
    }

    /// The struct's fields, in the order of the text.
    pub fn fields(&self) -> &'a [Field]
        ensures { map field_tree result.now ≡ self.now.fields }
    {
        &self.definition.fields
    }

    /// How many words an object of the struct has.
    pub fn words(&self) -> u64
        ensures { result ≡ tables.words_of_struct self.now }
    {
        self.words
    }

    /// The place of the first field of that name.
    pub fn place_of(&self, name: &str) -> Option<u64>
        ensures { result ≡ tables.index_of name.now (tables.field_names self.now) }
    {
        self.names.find(name)
    }

    /// The word at which the field at a place begins.
    pub fn word_of(&self, place: u64) -> u64
        ensures { result ≡ tables.field_start self.now place }
    {
        words_before(place, &self.definition.fields)
    }

    /// The first field of that name.
    pub fn field(&self, name: &str) -> Option<&'a Field>
        ensures { option_map (λ f. field_tree f.now) result ≡ tables.field_named self.now name.now }
    {
        let at = self.names.find(name)?;
        self.definition.fields.get(at as usize)
    }
}

fn field_names<'a>(alloc: Global, fields: &'a [Field]) -> Result<Names<'a>, AllocError>
    ensures { IfOk result (λ n. n ≡ map (λ (f : FieldTree). f.name.text)
        (map field_tree fields.now)) }
{
    let mut names = Names::new(alloc);
    for field in fields {
        names.push(field.name.text.as_str())?;
    }
    Ok(names)
}

/// The words of a struct's fields. A field that is declared again counts for nothing.
fn words_of(names: &Names<'_>, fields: &[Field]) -> u64
    ensures { result ≡ min (tables.words_from names.now 0 (map field_tree fields.now))
        (2 ^ 64 - 1) }
{
    let mut words = 0u64;
    let mut at = 0u64;
    for field in fields {
        words = words.saturating_add(counted_words(names, at, field));
        at += 1;
    }
    words
}

fn words_before(place: u64, fields: &[Field]) -> u64
    ensures { result ≡ min (tables.field_words_before place 0 (map field_tree fields.now))
        (2 ^ 64 - 1) }
{
    let mut words = 0u64;
    let mut at = 0u64;
    for field in fields {
        words = words.saturating_add(words_if(at < place, field));
        at += 1;
    }
    words
}

fn words_if(counts: bool, field: &Field) -> u64
    ensures { result ≡ (if counts then tables.field_words (field_tree field.now) else 0) }
{
    if counts { field_words(field) } else { 0 }
}

fn counted_words(names: &Names<'_>, at: u64, field: &Field) -> u64
    ensures { result ≡ tables.words_counted names.now at (field_tree field.now) }
{
    if is_at(names.find(field.name.text.as_str()), at) {
        field_words(field)
    } else {
        0
    }
}

/// Whether a name was found at exactly this place.
pub fn is_at(found: Option<u64>, at: u64) -> bool
    ensures { result ≡ tables.is_first found at }
{
    match found {
        None => false,
        Some(place) => at == place,
    }
}

/// The words of a field. An array of a refused length counts as one.
fn field_words(field: &Field) -> u64
    ensures { result ≡ tables.field_words (field_tree field.now) }
{
    match &field.length {
        None => 1,
        Some(length) => length_words(length.value),
    }
}

fn length_words(length: i64) -> u64
    ensures { result ≡ tables.length_words length }
{
    if is_length(length) {
        length.cast_unsigned()
    } else {
        1
    }
}

/// Whether an array may have this length.
pub fn is_length(length: i64) -> bool
    ensures { result ≡ tables.is_length length }
{
    1 <= length && length <= ARRAY_LENGTH as i64
}
