//! The code of a `pm_new` or a `pm_free` alone. A jump's target is counted from its start, and its
//! length as a target means the instruction after it.

ghost use Rattle.std.specs.Prelude.{◌≡◌, IfOk, map};
ghost use Rattle.pm_alloc.specs.Pieces.{new_or_trap, free_code};
ghost use Rattle.pm_alloc.specs.Placing.{placed};

use crate::local::Locals;
use crate::objects::{push_free, push_new};
use crate::placing::push_placed;
use pm_machine::Code;
use pool_layout::Sizes;
use std::alloc::{AllocError, Global};

/// A `pm_new`: the struct's number and its number of words, whether the fill is logged, the first
/// free register, and the register of the result. A struct has fewer words than a slot.
#[derive(Clone, Copy)]
pub struct NewShape {
    pub sizes: Sizes,
    pub kind: u32,
    pub words: u64,
    pub log_fill: bool,
    pub base: u32,
    pub to: u32,
}

/// A `pm_free`: the struct's number, the first free register, and the register of the pointer.
#[derive(Clone, Copy)]
pub struct FreeShape {
    pub sizes: Sizes,
    pub kind: u32,
    pub base: u32,
    pub from: u32,
}

fn place_alone(alloc: Global, base: u32, piece: &Locals) -> Result<Code, AllocError>
    ensures { IfOk result (λ code. code ≡ map (placed base 0) piece.now) }
{
    let mut code = Code::new(alloc);
    push_placed(&mut code, base, 0, piece.as_slice())?;
    Ok(code)
}

/// The code of a `pm_new`. It takes the least free slot and writes its header and zeros; if no slot
/// is free it stores nothing and gives 0.
pub fn new_fragment(alloc: Global, shape: &NewShape) -> Result<Code, AllocError>
    ensures { IfOk result (λ code.
        code ≡ map (placed shape.now.base 0)
        (new_or_trap shape.now.sizes shape.now.to shape.now.kind shape.now.words
        shape.now.log_fill)) }
{
    let mut piece = Locals::new(alloc);
    push_new(
        &mut piece,
        &shape.sizes,
        shape.to,
        shape.kind,
        shape.words,
        shape.log_fill,
    )?;
    place_alone(alloc, shape.base, &piece)
}

/// The code of a `pm_free`. It makes the checks of the pointer and writes 0 to the header.
pub fn free_fragment(alloc: Global, shape: &FreeShape) -> Result<Code, AllocError>
    ensures { IfOk result (λ code.
        code ≡ map (placed shape.now.base 0)
        (free_code shape.now.sizes shape.now.from shape.now.kind)) }
{
    let mut piece = Locals::new(alloc);
    push_free(&mut piece, &shape.sizes, shape.from, shape.kind)?;
    place_alone(alloc, shape.base, &piece)
}
