//! The text of a pool.

ghost use Rattle.std.specs.Prelude.{string_bytes, ◌≡◌, ◌++◌, OnOk, IfOk, length, IfSome, Some};
ghost use Rattle.std.specs.Prelude.{◌∷◌, [], codes};
ghost use Rattle.std.specs.Fmt.{decimal};
ghost use Rattle.std.specs.List.{AllByRecursion, join_by};
ghost use Rattle.pool_map.specs.PoolFits.{struct_at, words_of_field, words_of, ObjectFits};
ghost use Rattle.pool_map.specs.PoolFits.{PoolFits};
ghost use Rattle.pool_map.specs.PoolText.{value_text, word_text, field_text, fields_text};
ghost use Rattle.pool_map.specs.PoolText.{slot_line, slot_lines, pool_text};

use crate::object::Object;
use crate::pool::Pool;
use crate::shapes::{FieldShape, Shapes, StructShape};
use nvm_base::Text;
use std::alloc::{AllocError, Global};

/// The text of a pool that fits the shapes: a line for the root, and one for each object.
pub fn show_text(alloc: Global, shapes: &Shapes, pool: &Pool) -> Result<Text, AllocError>
    requires fits { PoolFits shapes.now pool.now }
    ensures { IfOk result (λ text. text ≡ pool_text shapes.now pool.now) }
{
    let mut text = Text::new(alloc);
    text.push("root")?;
    push_fields(alloc, &mut text, shapes.root.as_slice(), pool.root_words())?;
    text.push("\n")?;
    push_slots(alloc, &mut text, shapes.structs.as_slice(), pool.slots())?;
    Ok(text)
}

/// Writes the lines of the slots, the first of which is slot 1.
fn push_slots(
    alloc: Global,
    text: &mut Text,
    structs: &[StructShape],
    slots: &[Option<Object>],
) -> Result<(), AllocError>
    requires { AllByRecursion (λ slot. IfSome slot (ObjectFits structs.now)) slots.now }
    ensures { OnOk result (text.new ≡ text.old ++ slot_lines structs.now 1 slots.now) }
{
    let mut slot = 1;
    for object in slots {
        if let Some(object) = object {
            push_object(alloc, text, structs, slot, object)?;
        }
        slot += 1;
    }
    Ok(())
}

/// Writes the line of a slot with an object.
fn push_object(
    alloc: Global,
    text: &mut Text,
    structs: &[StructShape],
    slot: u64,
    object: &Object,
) -> Result<(), AllocError>
    requires { ObjectFits structs.now object.now }
    ensures { OnOk result (text.new ≡ text.old ++ slot_line structs.now slot (Some object.now)) }
{
    let shape = struct_of(structs, object);
    let head = format!(in alloc; "slot {slot} ")?;
    text.push(head.as_str())?;
    text.push(shape.name.as_str())?;
    push_fields(
        alloc,
        text,
        shape.fields.as_slice(),
        object.fields.as_slice(),
    )?;
    text.push("\n")?;
    Ok(())
}

/// The struct of an object.
fn struct_of<'a>(structs: &'a [StructShape], object: &Object) -> &'a StructShape
    requires { ObjectFits structs.now object.now }
    ensures { struct_at structs.now object.now.kind ≡ Some result.now }
{
    &structs[(object.kind - 1) as usize]
}

/// Writes ` F=V` for each field; the words come in the fields' order.
fn push_fields(
    alloc: Global,
    text: &mut Text,
    fields: &[FieldShape],
    words: &[i64],
) -> Result<(), AllocError>
    requires { length words.now ≡ words_of fields.now }
    ensures { OnOk result (text.new ≡ text.old ++ fields_text fields.now words.now) }
{
    let mut rest = words;
    for field in fields {
        let (own, others) = rest.split_at(field.words() as usize);
        push_field(alloc, text, field, own)?;
        rest = others;
    }
    Ok(())
}

/// Writes ` F=V` for a field with these words.
fn push_field(
    alloc: Global,
    text: &mut Text,
    field: &FieldShape,
    words: &[i64],
) -> Result<(), AllocError>
    requires { length words.now ≡ words_of_field field.now }
    ensures { OnOk result (text.new ≡ text.old ++ field_text field.now words.now) }
{
    text.push(" ")?;
    text.push(field.name.as_str())?;
    text.push("=")?;
    match field.length {
        None => push_word(alloc, text, field.unsigned, words[0]),
        Some(_) => push_array(alloc, text, field.unsigned, words),
    }
}

/// Writes an array's elements in brackets.
fn push_array(
    alloc: Global,
    text: &mut Text,
    unsigned: bool,
    words: &[i64],
) -> Result<(), AllocError>
    ensures { OnOk result (text.new ≡ text.old
        ++ (codes "[" ++ (join_by (word_text unsigned) (codes ",") words.now ++ codes "]"))) }
{
    text.push("[")?;
    push_elements(alloc, text, unsigned, words)?;
    text.push("]")?;
    Ok(())
}

/// Writes an array's elements, separated by commas.
fn push_elements(
    alloc: Global,
    text: &mut Text,
    unsigned: bool,
    words: &[i64],
) -> Result<(), AllocError>
    ensures { OnOk result (text.new
        ≡ text.old ++ join_by (word_text unsigned) (codes ",") words.now) }
{
    let [first, others @ ..] = words else {
        return Ok(());
    };
    push_word(alloc, text, unsigned, *first)?;
    for word in others {
        text.push(",")?;
        push_word(alloc, text, unsigned, *word)?;
    }
    Ok(())
}

/// Writes a word in decimal, as a number with its sign or as one from 0 on.
fn push_word(alloc: Global, text: &mut Text, unsigned: bool, word: i64) -> Result<(), AllocError>
    ensures { OnOk result (text.new ≡ text.old ++ word_text unsigned word) }
{
    let digits = word_digits(alloc, unsigned, word)?;
    text.push(digits.as_str())
}

/// The digits of a word, as a number with its sign or as one from 0 on.
fn word_digits(alloc: Global, unsigned: bool, word: i64) -> Result<String, AllocError>
    ensures { IfOk result (λ s. string_bytes s ≡ word_text unsigned word) }
{
    if unsigned {
        let number = word.cast_unsigned();
        return format!(in alloc; "{number}");
    }
    format!(in alloc; "{word}")
}
