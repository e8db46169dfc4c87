//! Words and objects of the pool, as expressions reach them: with the checks, in their order.

ghost use Rattle.std.specs.Prelude.{◌≡◌, IfOk, IsSome, option_map};
ghost use Rattle.c_tree.specs.ExprTree.{expr_of};
ghost use Rattle.c_types.specs.Tables as tables;
ghost use Rattle.c_types.specs.Views.{tables_in};
ghost use Rattle.pool_map.specs.PoolMap.{object_at, least_free};
ghost use Rattle.c_meaning.specs.Access as meaning;
ghost use Rattle.pool_map.specs.Checks as checks;
ghost use Rattle.interpreter.specs.inside.Answers.{QuietTrap};
ghost use Rattle.interpreter.specs.inside.Resume.{ObjectFreed};

use crate::locals::Locals;
use c_tree::expr::{Expr, Name};
use c_types::{Layout, Program, type_of};
use nvm_base::natural_of;
use pool_map::{Pool, PoolWord, TrapKind, element_in};
use std::alloc::AllocError;

/// The place of the struct that an expression points to.
fn struct_reached(program: &Program<'_>, locals: &Locals<'_>, pointer: &Expr) -> Option<u64>
    ensures { result ≡ meaning.struct_pointed_by (tables_in program.now) locals.now
        (expr_of pointer.now) }
{
    type_of(program, locals.scopes(), pointer).pointed_struct()
}

/// The kind of the objects of the struct at a place.
fn kind_at(program: &Program<'_>, at: Option<u64>) -> Option<u64>
    ensures { result ≡ option_map (tables.number_at (tables_in program.now)) at }
{
    match at {
        None => None,
        Some(at) => Some(program.number_at(at)),
    }
}

/// The slot of the object that a pointer leads to, after the checks null and stale.
fn slot_of(pool: &Pool, kind: Option<u64>, pointer: i64) -> Result<u64, TrapKind>
    ensures slot { result ≡ meaning.struct_slot pool.now kind pointer }
    ensures object { IfOk result (λ slot. IsSome (object_at pool.now slot)) }
    ensures quiet { QuietTrap result }
{
    if pointer == 0 {
        return Err(TrapKind::Null);
    }
    match u64::try_from(pointer) {
        Err(_) => Err(TrapKind::Stale),
        Ok(slot) => {
            if is_kind(pool, slot, kind) {
                Ok(slot)
            } else {
                Err(TrapKind::Stale)
            }
        }
    }
}

/// Whether a slot has an object of this kind.
fn is_kind(pool: &Pool, slot: u64, kind: Option<u64>) -> bool
    ensures { result ≡ meaning.is_struct_kind (object_at pool.now slot) kind }
{
    match pool.kind(slot) {
        None => false,
        Some(found) => match kind {
            None => false,
            Some(wanted) => found as u64 == wanted,
        },
    }
}

/// A word of a struct: that of a field, or of one of its elements after the check index.
#[tactic(auto, using(crate::proofs::Quiet::element_quiet))]
fn word_in(layout: &Layout<'_>, name: &str, index: Option<i64>) -> Result<u64, TrapKind>
    ensures value { result ≡ meaning.word_in_struct layout.now name.now index }
    ensures quiet { QuietTrap result }
{
    let first = first_word(layout, name);
    match index {
        None => Ok(first),
        Some(index) => match element_in(elements(layout, name), index) {
            Err(trap) => Err(trap),
            Ok(within) => Ok(first.saturating_add(within)),
        },
    }
}

fn first_word(layout: &Layout<'_>, name: &str) -> u64
    ensures { result ≡ meaning.first_word layout.now name.now }
{
    match layout.place_of(name) {
        None => 0,
        Some(place) => layout.word_of(place),
    }
}

/// The number of elements of an array field.
fn elements(layout: &Layout<'_>, name: &str) -> u64
    ensures { result ≡ meaning.field_elements layout.now name.now }
{
    match layout.field(name) {
        None => 0,
        Some(field) => match &field.length {
            None => 0,
            Some(length) => natural_of(length.value),
        },
    }
}

/// A word of the struct at a place.
fn word_at(
    program: &Program<'_>,
    at: Option<u64>,
    name: &str,
    index: Option<i64>,
) -> Result<u64, TrapKind>
    ensures value { result ≡ meaning.struct_word_at (tables_in program.now) at name.now index }
    ensures quiet { QuietTrap result }
{
    match at {
        None => Ok(0),
        Some(at) => match program.struct_at(at) {
            None => Ok(0),
            Some(layout) => word_in(layout, name, index),
        },
    }
}

/// A word of the object that a pointer leads to; its struct is the one at a place.
fn reached(
    program: &Program<'_>,
    pool: &Pool,
    at: Option<u64>,
    pointer: i64,
    name: &str,
    index: Option<i64>,
) -> Result<PoolWord, TrapKind>
    ensures value { result ≡ meaning.pointed_word (tables_in program.now) pool.now at pointer
        name.now index }
    ensures quiet { QuietTrap result }
{
    match slot_of(pool, kind_at(program, at), pointer) {
        Err(trap) => Err(trap),
        Ok(slot) => match word_at(program, at, name, index) {
            Err(trap) => Err(trap),
            Ok(word) => Ok(PoolWord::Field { slot, word }),
        },
    }
}

/// A word of the root.
fn of_root(program: &Program<'_>, name: &str, index: Option<i64>) -> Result<PoolWord, TrapKind>
    ensures value { result ≡ meaning.of_root (tables_in program.now) name.now index }
    ensures quiet { QuietTrap result }
{
    match word_at(program, program.root_struct(), name, index) {
        Err(trap) => Err(trap),
        Ok(word) => Ok(PoolWord::Root(word)),
    }
}

/// The word that a field names, or one of its elements if there is an index: a field of the root,
/// or a field of the object named by the pointer that the expression `base` gave. Any other
/// expression names no word, and leads nowhere.
pub fn word_named(
    program: &Program<'_>,
    locals: &Locals<'_>,
    pool: &Pool,
    field: &Expr,
    pointer: i64,
    index: Option<i64>,
) -> Result<PoolWord, TrapKind>
    ensures value { result ≡ meaning.word_named (tables_in program.now) locals.now pool.now
        (expr_of field.now) pointer index }
    ensures quiet { QuietTrap result }
{
    match field {
        Expr::Root(name) => of_root(program, name.text.as_str(), index),
        Expr::Arrow { base, field, .. } => {
            let at = struct_reached(program, locals, base);
            reached(program, pool, at, pointer, field.text.as_str(), index)
        }
        Expr::Number(_) => Err(TrapKind::Stale),
        Expr::Null => Err(TrapKind::Stale),
        Expr::Variable(_) => Err(TrapKind::Stale),
        Expr::Call { .. } => Err(TrapKind::Stale),
        Expr::New { .. } => Err(TrapKind::Stale),
        Expr::Index { .. } => Err(TrapKind::Stale),
        Expr::Unary { .. } => Err(TrapKind::Stale),
        Expr::Binary { .. } => Err(TrapKind::Stale),
        Expr::Conditional { .. } => Err(TrapKind::Stale),
    }
}

/// Makes a new object in the least free slot, and returns the slot's number, or 0 if no slot is
/// free. A kind and a slot that a word couldn't hold would need more memory than there is.
pub fn new_object(program: &Program<'_>, pool: &mut Pool, name: &Name) -> Result<i64, AllocError>
    ensures { IfOk result (λ pointer. meaning.new_object (tables_in program.now) pool.old
        name.now.text ≡ (pointer, pool.new)) }
{
    match program.struct_named(name.text.as_str()) {
        None => Ok(0),
        Some(at) => put_object(pool, program.number_at(at), program.words_at(at)),
    }
}

/// A new object of this kind, with `words` words.
fn put_object(pool: &mut Pool, kind: u64, words: u64) -> Result<i64, AllocError>
    ensures { IfOk result (λ pointer. checks.new_at pool.old kind words (least_free pool.old)
        ≡ (pointer, pool.new)) }
{
    pool_map::laws();
    let Some(slot) = pool.least_free() else {
        return Ok(0);
    };
    let (Ok(kind), Ok(pointer)) = (u32::try_from(kind), i64::try_from(slot)) else {
        return Err(AllocError);
    };
    pool.new_object(slot, kind, words)?;
    Ok(pointer)
}

/// Frees the object named by the pointer that the expression gave.
pub fn free_object(
    program: &Program<'_>,
    locals: &Locals<'_>,
    pool: &mut Pool,
    expr: &Expr,
    pointer: i64,
) -> Result<(), TrapKind>
    ensures value { ObjectFreed (meaning.free_object (tables_in program.now) locals.now pool.old
        (expr_of expr.now) pointer) result pool.new }
    ensures quiet { QuietTrap result }
{
    let at = struct_reached(program, locals, expr);
    match slot_of(pool, kind_at(program, at), pointer) {
        Err(trap) => Err(trap),
        Ok(slot) => {
            pool.free(slot);
            Ok(())
        }
    }
}
