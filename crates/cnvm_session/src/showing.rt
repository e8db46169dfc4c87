//! The pool that a device holds.

ghost use Rattle.std.specs.Prelude.{◌≡◌, ◌+◌, ◌++◌, ◌^◌, ◌<◌, ◌≤◌, Some, IfOk, OnOk, IfSome};
ghost use Rattle.std.specs.Prelude.{IfNone, true, option_map};
ghost use Rattle.cache_model.specs.Cache.{view};
ghost use Rattle.pool_layout.specs.Sizes.{pool_lines};
ghost use Rattle.c_types.specs.Shapes.{shapes_of};
ghost use Rattle.pool_map.specs.PoolFits.{words_of, struct_at, PoolFits};
ghost use Rattle.pool_map.specs.PoolText.{pool_text};
ghost use Rattle.pm_machine.specs.HeapPool.{heap_of, words_from, kind_in, object_with, object_in};
ghost use Rattle.pm_machine.specs.HeapPool.{objects_from, pool_in};

use crate::program::Program;
use nvm_base::{Text, Words};
use pmem::PmemWork;
use pool_layout::{Sizes, heap_start, heap_words, slot_word};
use pool_map::{FieldShape, Object, Pool, Shapes, StructShape, fits, show_text};
use std::alloc::{AllocError, Global};

/// A heap word; 0 past the heap's end, and while the device is off.
fn heap_word<P: PmemWork>(sizes: &Sizes, dev: &P, w: u64) -> i64
    requires lines { (P.device dev.now).lines ≡ pool_lines sizes.now }
    ensures { (P.device dev.now).on ≡ true
        → result ≡ heap_of sizes.now (view (P.device dev.now).cache) w }
{
    if w >= heap_words(sizes) {
        return 0;
    }
    match dev.load(heap_start(sizes) + w) {
        Some(word) => word,
        None => 0,
    }
}

/// The given number of heap words, from word `first` on.
fn heap_slice<P: PmemWork>(
    alloc: Global,
    sizes: &Sizes,
    dev: &P,
    first: u64,
    count: u64,
) -> Result<Words, AllocError>
    requires first { first < 2 ^ 32 }
    requires count { count < 2 ^ 32 }
    requires lines { (P.device dev.now).lines ≡ pool_lines sizes.now }
    ensures { (P.device dev.now).on ≡ true
        → IfOk result (λ all. all ≡ words_from (heap_of sizes.now (view (P.device dev.now).cache))
        first count) }
{
    let mut all = Words::new(alloc);
    for k in 0..count {
        all.push(heap_word(sizes, dev, first + k))?;
    }
    Ok(all)
}

/// How many words these fields have, if there are at most so many.
fn few_words(most: u64, fields: &[FieldShape]) -> Option<u64>
    ensures some { IfSome result (λ n. n ≡ words_of fields.now) }
    ensures few { IfSome result (λ n. n ≤ most) }
    ensures none { IfNone result (most < words_of fields.now) }
{
    let mut all = 0;
    for field in fields {
        let own = field.length.unwrap_or(1);
        if own > most - all {
            return None;
        }
        all += own;
    }
    Some(all)
}

/// The struct number in a header, if it may be one.
#[tactic(auto, using(std::proofs::lemmas::Int::wraps))]
fn kind_in(header: i64) -> Option<u32>
    ensures { result ≡ kind_in header }
{
    match u32::try_from(header) {
        Ok(kind) => { if kind < 256 { Some(kind) } else { None } }
        Err(_) => None,
    }
}

/// The struct with that number.
fn struct_at(structs: &[StructShape], kind: u32) -> Option<&StructShape>
    ensures { option_map (λ s. s.now) result ≡ struct_at structs.now kind }
{
    if kind == 0 {
        return None;
    }
    structs.get((kind - 1) as usize)
}

/// The object of that kind and struct whose header is heap word `start`.
fn object_with<P: PmemWork>(
    alloc: Global,
    sizes: &Sizes,
    dev: &P,
    start: u64,
    kind: u32,
    shape: &StructShape,
) -> Result<Option<Object>, AllocError>
    requires start { start < 2 ^ 31 }
    requires lines { (P.device dev.now).lines ≡ pool_lines sizes.now }
    ensures { (P.device dev.now).on ≡ true
        → IfOk result (λ o. o ≡ object_with sizes.now
        (heap_of sizes.now (view (P.device dev.now).cache)) start kind (Some shape.now)) }
{
    match few_words(sizes.slot_words() - 1, shape.fields.as_slice()) {
        None => Ok(None),
        Some(count) => {
            let fields = heap_slice(alloc, sizes, dev, start + 1, count)?;
            Ok(Some(Object { kind, fields }))
        }
    }
}

/// The object whose header is heap word `start`.
fn object_in<P: PmemWork>(
    alloc: Global,
    sizes: &Sizes,
    dev: &P,
    structs: &[StructShape],
    start: u64,
) -> Result<Option<Object>, AllocError>
    requires start { start < 2 ^ 31 }
    requires lines { (P.device dev.now).lines ≡ pool_lines sizes.now }
    ensures { (P.device dev.now).on ≡ true
        → IfOk result (λ o. o ≡ object_in sizes.now structs.now
        (heap_of sizes.now (view (P.device dev.now).cache)) start) }
{
    let Some(kind) = kind_in(heap_word(sizes, dev, start)) else {
        return Ok(None);
    };
    match struct_at(structs, kind) {
        None => Ok(None),
        Some(shape) => object_with(alloc, sizes, dev, start, kind, shape),
    }
}

/// Appends the objects of all slots to a pool.
fn push_objects<P: PmemWork>(
    alloc: Global,
    sizes: &Sizes,
    dev: &P,
    structs: &[StructShape],
    pool: &mut Pool,
) -> Result<(), AllocError>
    requires lines { (P.device dev.now).lines ≡ pool_lines sizes.now }
    ensures { (P.device dev.now).on ≡ true
        → OnOk result (pool.new ≡ record {
          root = pool.old.root;
          slots = pool.old.slots
              ++ objects_from sizes.now structs.now
              (heap_of sizes.now (view (P.device dev.now).cache)) 1
              sizes.now.slots;
        }) }
{
    for k in 0..sizes.slots() {
        let object = object_in(alloc, sizes, dev, structs, slot_word(sizes, k + 1))?;
        pool.push_slot(object)?;
    }
    Ok(())
}

/// The pool that a device holds, under these shapes; nothing is said of a device that is off.
pub fn pool_in<P: PmemWork>(
    alloc: Global,
    sizes: &Sizes,
    dev: &P,
    shapes: &Shapes,
) -> Result<Pool, AllocError>
    requires lines { (P.device dev.now).lines ≡ pool_lines sizes.now }
    ensures { (P.device dev.now).on ≡ true
        → IfOk result (λ pool. pool ≡ pool_in shapes.now sizes.now
        (heap_of sizes.now (view (P.device dev.now).cache))) }
{
    let root = heap_slice(alloc, sizes, dev, 0, sizes.root_words())?;
    let mut pool = Pool::of_root(alloc, root);
    push_objects(alloc, sizes, dev, shapes.structs.as_slice(), &mut pool)?;
    Ok(pool)
}

/// The text of the pool that a device holds. If its root isn't as large as the shapes say, the text
/// is empty.
fn shown<P: PmemWork>(
    alloc: Global,
    sizes: &Sizes,
    dev: &P,
    shapes: &Shapes,
) -> Result<Text, AllocError>
    requires lines { (P.device dev.now).lines ≡ pool_lines sizes.now }
    ensures { (P.device dev.now).on ≡ true
        → PoolFits shapes.now (pool_in shapes.now sizes.now
        (heap_of sizes.now (view (P.device dev.now).cache)))
        → IfOk result (λ text. text ≡ pool_text shapes.now
        (pool_in shapes.now sizes.now (heap_of sizes.now (view (P.device dev.now).cache)))) }
{
    let pool = pool_in(alloc, sizes, dev, shapes)?;
    if fits(shapes, &pool) {
        show_text(alloc, shapes, &pool)
    } else {
        Ok(Text::new(alloc))
    }
}

/// The text of the pool that a device holds, under the program's shapes. The device is on and holds
/// a pool of the program's sizes whose headers are valid; elsewhere nothing is said of the text.
pub fn pool_text<P: PmemWork>(alloc: Global, program: &Program, dev: &P) -> Result<Text, AllocError>
    requires lines { (P.device dev.now).lines ≡ pool_lines program.now.image.parts.sizes }
    ensures { (P.device dev.now).on ≡ true
        → PoolFits (shapes_of program.now.typed)
        (pool_in (shapes_of program.now.typed) program.now.image.parts.sizes
        (heap_of program.now.image.parts.sizes (view (P.device dev.now).cache)))
        → IfOk result (λ text. text ≡ pool_text (shapes_of program.now.typed)
        (pool_in (shapes_of program.now.typed) program.now.image.parts.sizes
        (heap_of program.now.image.parts.sizes (view (P.device dev.now).cache)))) }
{
    shown(alloc, program.image.sizes(), dev, program.typed.shapes())
}
