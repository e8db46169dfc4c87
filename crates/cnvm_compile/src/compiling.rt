//! Compiles a text to a program.

ghost use Rattle.std.specs.Prelude.{◌≡◌, ◌≤◌, [], IfOk, IfErr, length};
ghost use Rattle.ir.specs.WellFormed.{IsWellFormed};
ghost use Rattle.clobber_pass.specs.Logged.{IsExact};
ghost use Rattle.c_types.specs.Fault.{breaks};
ghost use Rattle.lower.specs.Program.{lowered};
ghost use Rattle.cnvm_compile.specs.Compilation.{IsCompiled};
ghost use Rattle.cnvm_compile.specs.FrontEnd.{RefusesText};
ghost use Rattle.cnvm_compile.specs.Made.{image_of};
ghost use Rattle.pool_map.specs.PoolFits.{words_of};
ghost use Rattle.cnvm_compile.specs.SizesAsked.{within, HasRoot, HasWidth, HasSizes};
ghost use Rattle.cnvm_session.specs.Pool.{sizes_of};
ghost use Rattle.pool_map.specs.declared.limits.TheConstants.{ROOT_WORDS};

use crate::asked::Asked;
use crate::front_end::{ProgramFault, typed_of};
use c_types::Typed;
use clobber_pass::{MarkTable, marks};
use cnvm_session::Program;
use codegen::emit;
use instrument::add_logs;
use ir::Ir;
use lower::lower;
use pool_layout::{Sizes, digest};
use pool_map::{RECORDS, ROOT_WORDS, SLOTS, Shapes, TICKS, slot_words};
use std::alloc::{AllocError, Global};

/// A compiled program, with its intermediate code without logs, and the marks of its stores.
#[derive(Drop)]
pub struct Compiled {
    pub program: Program,
    pub ir: Ir,
    pub marks: MarkTable,
}

/// The number, or the nearest one within these limits.
fn within(n: u64, least: u64, most: u64) -> u64
    requires { least ≤ most }
    ensures value { result ≡ within least most n }
    ensures least { least ≤ result }
    ensures most { result ≤ most }
{
    if n < least {
        return least;
    }
    if n > most {
        return most;
    }
    n
}

/// How many words the root has. A checked program's root has at least one, and at most those of
/// the limit.
fn root_words(shapes: &Shapes) -> u64
    ensures value { result ≡ within 1 ROOT_WORDS (words_of shapes.now.root) }
    ensures least { 1 ≤ result }
    ensures most { result ≤ ROOT_WORDS }
{
    let mut words = 0u64;
    for field in shapes.root.as_slice() {
        words = words.saturating_add(field.length.unwrap_or(1));
    }
    within(words, 1, ROOT_WORDS)
}

/// The program that a text is, for a pool of the sizes that are asked for.
pub fn compile(alloc: Global, text: &[u8], asked: Asked) -> Result<Compiled, ProgramFault>
    ensures compiled { IfOk result (λ compiled. IsCompiled asked text.now compiled) }
    ensures refused { IfErr result (λ fault. RefusesText text.now fault) }
{
    let typed = typed_of(alloc, text)?;
    let sizes = sizes_of(typed.shapes(), asked.slots, asked.records, asked.ticks);
    match back_end(alloc, typed, sizes, digest(text)) {
        Ok(compiled) => Ok(compiled),
        Err(_) => Err(ProgramFault::NoMemory),
    }
}

/// The sizes of a pool for these shapes.
fn sizes_of(shapes: &Shapes, slots: u64, records: u64, ticks: u64) -> Sizes
    ensures asked { HasSizes slots records ticks result }
    ensures root { HasRoot shapes.now result }
    ensures width { HasWidth shapes.now result }
{
    let slots = within(slots, 1, SLOTS);
    let records = within(records, 1, RECORDS);
    let ticks = within(ticks, 1, TICKS);
    let width = slot_words(shapes.structs.as_slice());
    match Sizes::new(slots, records, root_words(shapes), width, ticks) {
        Some(sizes) => sizes,
        None => unreachable!(),
    }
}

/// The code and the image of a checked tree.
fn back_end(
    alloc: Global,
    typed: Typed,
    sizes: Sizes,
    digest: [i64; 4],
) -> Result<Compiled, AllocError>
    requires { breaks typed ≡ [] }
    ensures tree { IfOk result (λ compiled. compiled.program.typed ≡ typed) }
    ensures sizes { IfOk result (λ compiled. sizes_of compiled.program ≡ sizes) }
    ensures digest { IfOk result (λ compiled. compiled.program.digest ≡ digest) }
    ensures ir { IfOk result (λ compiled. compiled.ir ≡ lowered typed) }
    ensures marks { IfOk result (λ compiled. IsExact compiled.ir.functions compiled.marks) }
    ensures well_formed { IfOk result (λ compiled. IsWellFormed compiled.ir) }
    ensures code { IfOk result (λ compiled. compiled.program.image.parts ≡
        image_of compiled.marks compiled.ir sizes (length typed.lines)) }
{
    let ir = lower(alloc, &typed)?;
    let marks = marks(alloc, &ir)?;
    let logged = add_logs(alloc, &ir, &marks)?;
    let image = emit(alloc, &logged, &sizes, typed.tokens())?;
    Ok(Compiled {
        program: Program {
            typed,
            image,
            digest,
        },
        ir,
        marks,
    })
}
