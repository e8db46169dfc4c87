//! The code that finds the word of a target: after it, temporary 0 and an offset make its address.

ghost use Rattle.std.specs.Prelude.{◌≡◌, ◌++◌, ◌∷◌, [], ◌<◌, ◌^◌, pos, OnOk, IfOk};
ghost use Rattle.pm_alloc.specs.declared.local.Local.TheVariants.{Trap};
ghost use Rattle.codegen.specs.Emit.{at_code, root_code, root_offset, object_code, object_offset};
ghost use Rattle.codegen.specs.Emit.{address_code, address_offset};

use crate::fields::{At, Reach, root_reach, struct_reach};
use ir::Target;
use pm_alloc::{Local, Locals, Reg, field_offset, push_index_check, push_pointer_check};
use pool_layout::Sizes;
use pool_map::Shapes;
use std::alloc::AllocError;

/// Appends the check of an index, if there is one, from place `place` of a piece on.
fn push_at(piece: &mut Locals, place: u32, at: At) -> Result<(), AllocError>
    requires { place < 2 ^ 31 }
    ensures { OnOk result (piece.new ≡ piece.old ++ at_code place at) }
{
    match at {
        At::Word => Ok(()),
        At::Element(index, length) => push_index_check(piece, place, index, length),
    }
}

/// Appends the code of a target that doesn't exist.
fn push_nowhere(piece: &mut Locals) -> Result<(), AllocError>
    ensures { OnOk result (piece.new ≡ piece.old ++ Trap 3 ∷ []) }
{
    piece.push(Local::Trap(3))
}

#[tactic(auto, using(std::proofs::lemmas::Int::wraps))]
fn push_root(piece: &mut Locals, reach: Option<Reach>) -> Result<Option<i64>, AllocError>
    ensures code { OnOk result (piece.new ≡ piece.old ++ root_code reach) }
    ensures offset { IfOk result (λ o. o ≡ root_offset reach) }
{
    match reach {
        None => {
            push_nowhere(piece)?;
            Ok(None)
        }
        Some(reach) => {
            piece.push(Local::Const(Reg::Temp(0), 0))?;
            push_at(piece, 1, reach.at)?;
            Ok(Some(i64::from(reach.first)))
        }
    }
}

#[tactic(auto, using(std::proofs::lemmas::Int::wraps))]
fn push_object(
    piece: &mut Locals,
    sizes: &Sizes,
    base: u32,
    kind: u32,
    reach: Option<Reach>,
) -> Result<Option<i64>, AllocError>
    ensures code { OnOk result (piece.new ≡ piece.old ++ object_code sizes.now base kind reach) }
    ensures offset { IfOk result (λ o. o ≡ object_offset sizes.now reach) }
{
    match reach {
        None => {
            push_nowhere(piece)?;
            Ok(None)
        }
        Some(reach) => {
            push_pointer_check(piece, sizes, base, kind)?;
            push_at(piece, 12, reach.at)?;
            Ok(Some(field_offset(sizes, reach.first.saturating_add(1))))
        }
    }
}

/// Appends the checks of a target, and returns the offset of its word from temporary 0; `None` if
/// the target doesn't exist and the code is a trap.
pub fn push_address(
    piece: &mut Locals,
    sizes: &Sizes,
    shapes: &Shapes,
    target: &Target,
) -> Result<Option<i64>, AllocError>
    ensures code { OnOk result (piece.new ≡ piece.old ++ address_code sizes.now shapes.now
        target.now) }
    ensures offset { IfOk result (λ o. o ≡ address_offset sizes.now shapes.now target.now) }
{
    match *target {
        Target::Root { field, index } => push_root(piece, root_reach(sizes, shapes, field, index)),
        Target::Field {
            base,
            kind,
            field,
            index,
        } => push_object(
            piece,
            sizes,
            base,
            kind,
            struct_reach(sizes, shapes, kind, field, index),
        ),
    }
}
