//! Which struct of a program's former text differs in its new one.

ghost use Rattle.std.specs.Prelude.{◌≡◌, IfOk, map, option_map};
ghost use Rattle.c_tree.specs.ItemTree.{field_tree, length_tree};
ghost use Rattle.c_tree.specs.StmtTree.{type_tree};
ghost use Rattle.cnvm_session.specs.Former as former_is;
ghost use Rattle.c_types.specs.Shapes as shapes;
ghost use Rattle.c_types.specs.Views.{tables_in};

use crate::text::text_of;
use c_tree::expr::IntType;
use c_tree::item::{Field, Length};
use c_tree::stmt::TypeName;
use c_types::{Layout, Program, Typed};
use nvm_base::Text;
use pool_map::slot_words;
use std::alloc::{AllocError, Global};

/// The name of the first struct of the former program that isn't the same in the new one: the
/// root's, if the roots have other fields; else that of a numbered struct, or of a new one that is
/// too large for the former slots. `None` if there is none, so that a pool of the former program is
/// one of the new program too.
pub fn first_other(alloc: Global, former: &Typed, new: &Typed) -> Result<Option<Text>, AllocError>
    ensures { IfOk result (λ name. name ≡ former_is.first_other former.now new.now) }
{
    let room = slot_words(former.shapes().structs.as_slice()) - 1;
    let former = Program::new(alloc, former.ast().items())?;
    let new = Program::new(alloc, new.ast().items())?;
    match other_name(room, &former, &new) {
        None => Ok(None),
        Some(name) => Ok(Some(text_of(alloc, name)?)),
    }
}

/// The name of the first struct that isn't the same, if a former slot has room for this many words.
fn other_name<'a>(room: u64, former: &Program<'a>, new: &Program<'a>) -> Option<&'a str>
    ensures { option_map (λ s. s.now) result
        ≡ former_is.other_in room (tables_in former.now) (tables_in new.now) }
{
    if are_same_fields(root_fields(former), root_fields(new)) {
        numbered_other(room, former, new)
    } else {
        Some(root_name(former, new))
    }
}

/// The fields of the root.
fn root_fields<'a>(program: &Program<'a>) -> &'a [Field]
    ensures { map field_tree result.now ≡ shapes.root_fields (tables_in program.now) }
{
    let Some(at) = program.root_struct() else {
        return &[];
    };
    match program.struct_at(at) {
        None => &[],
        Some(layout) => layout.fields(),
    }
}

/// The name of the former root's struct, or of the new one's where there was no root.
fn root_name<'a>(former: &Program<'a>, new: &Program<'a>) -> &'a str
    ensures { result.now ≡ former_is.root_name (tables_in former.now) (tables_in new.now) }
{
    match (former.roots().first(), new.roots().first()) {
        (Some(root), _) => root.name.text.as_str(),
        (None, Some(root)) => root.name.text.as_str(),
        (None, None) => "",
    }
}

/// The name of the first numbered struct of the former ones that isn't the same at its place among
/// the new ones, or of the first one after these that is too large.
fn numbered_other<'a>(room: u64, former: &Program<'a>, new: &Program<'a>) -> Option<&'a str>
    ensures { option_map (λ s. s.now) result
        ≡ former_is.numbered_other room (shapes.numbered_in (tables_in former.now))
        (shapes.numbered_in (tables_in new.now)) }
{
    let mut place = 0u64;
    let mut next = 0u64;
    for layout in former.structs() {
        if layout.words() <= former.pointed_limit(place) {
            match after_same(layout, new, next) {
                None => return Some(layout.name().text.as_str()),
                Some(after) => next = after,
            }
        }
        place += 1;
    }
    first_wider(room, new, next)
}

/// The place after the first numbered struct from this place on, if that is the same as the former
/// one.
fn after_same(former: &Layout<'_>, new: &Program<'_>, from: u64) -> Option<u64>
    ensures { option_map (λ next. shapes.numbered_from next (tables_in new.now)) result
        ≡ former_is.after_same former.now (shapes.numbered_from from (tables_in new.now)) }
{
    let structs = new.structs();
    for at in from..structs.len() as u64 {
        if structs[at as usize].words() <= new.pointed_limit(at) {
            if is_same_struct(former, &structs[at as usize]) {
                return Some(at + 1);
            }
            return None;
        }
    }
    None
}

/// The name of the first numbered struct from this place on that has more words than these.
fn first_wider<'a>(room: u64, new: &Program<'a>, from: u64) -> Option<&'a str>
    ensures { option_map (λ s. s.now) result
        ≡ former_is.first_wider room (shapes.numbered_from from (tables_in new.now)) }
{
    let structs = new.structs();
    for at in from..structs.len() as u64 {
        let layout = &structs[at as usize];
        if layout.words() > room && layout.words() <= new.pointed_limit(at) {
            return Some(layout.name().text.as_str());
        }
    }
    None
}

/// Whether both structs have the same name and fields.
fn is_same_struct(former: &Layout<'_>, new: &Layout<'_>) -> bool
    ensures { result ≡ former_is.is_same_struct former.now new.now }
{
    former.name().text.as_str() == new.name().text.as_str()
        && are_same_fields(former.fields(), new.fields())
}

/// Whether these are the same fields, in the same order.
#[tactic(auto, using(crate::proofs::Same::other_length))]
fn are_same_fields(former: &[Field], new: &[Field]) -> bool
    ensures { result ≡ former_is.are_same_fields (map field_tree former.now)
        (map field_tree new.now) }
{
    if former.len() != new.len() {
        return false;
    }
    for (at, field) in former.iter().enumerate() {
        if !is_same_field(field, &new[at]) {
            return false;
        }
    }
    true
}

/// Whether both fields have the same type, name and length.
fn is_same_field(former: &Field, new: &Field) -> bool
    ensures { result ≡ former_is.is_same_field (field_tree former.now) (field_tree new.now) }
{
    is_same_type(&former.ty, &new.ty)
        && former.name.text.as_str() == new.name.text.as_str()
        && is_same_length(&former.length, &new.length)
}

/// Whether both are the same type of ints.
fn is_same_int(former: IntType, new: IntType) -> bool
    ensures { result ≡ former_is.is_same_int former new }
{
    match (former, new) {
        (IntType::Signed, IntType::Signed) | (IntType::Unsigned, IntType::Unsigned) => true,
        (IntType::Signed, IntType::Unsigned) | (IntType::Unsigned, IntType::Signed) => false,
    }
}

/// Whether both are the same type of ints, or pointers to structs of one name.
fn is_same_type(former: &TypeName, new: &TypeName) -> bool
    ensures { result ≡ former_is.is_same_type (type_tree former.now) (type_tree new.now) }
{
    match (former, new) {
        (TypeName::Int(former), TypeName::Int(new)) => is_same_int(*former, *new),
        (TypeName::Pointer(former), TypeName::Pointer(new)) => {
            former.text.as_str() == new.text.as_str()
        }
        _ => false,
    }
}

/// Whether both are arrays of one length, or neither is an array.
fn is_same_length(former: &Option<Length>, new: &Option<Length>) -> bool
    ensures { result ≡ former_is.is_same_length (option_map length_tree former.now)
        (option_map length_tree new.now) }
{
    match (former, new) {
        (None, None) => true,
        (Some(former), Some(new)) => former.value == new.value,
        _ => false,
    }
}
