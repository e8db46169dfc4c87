//! Whether all that a fact or a place names exists.

ghost use Rattle.std.specs.Prelude.{◌≡◌, option_map, slice_get, is_some};
ghost use Rattle.ir.specs.WellFormed.{shape_field};
ghost use Rattle.ir.specs.Places.{instruction_at};
ghost use Rattle.walk_check.specs.Keeps as keeps;

use crate::certificate::Step;
use crate::follow::fact_of;
use ir::{Fact as WalkFact, Instruction, IrFunction};
use pool_map::{FieldShape, Shapes};

/// A field of a struct.
fn field_of(shapes: &Shapes, kind: u32, field: u32) -> Option<&FieldShape>
    ensures { option_map (λ f. f.now) result ≡ shape_field shapes.now kind field }
{
    if kind == 0 {
        return None;
    }
    match shapes.structs.as_slice().get(kind as usize - 1) {
        None => None,
        Some(shape) => shape.fields.as_slice().get(field as usize),
    }
}

fn is_field(shapes: &Shapes, kind: u32, field: u32) -> bool
    ensures { result ≡ is_some (shape_field shapes.now kind field) }
{
    field_of(shapes, kind, field).is_some()
}

fn is_root(shapes: &Shapes, field: u32) -> bool
    ensures { result ≡ is_some (slice_get shapes.now.root field) }
{
    shapes.root.as_slice().get(field as usize).is_some()
}

/// Whether the register, the struct and the field that a fact names exist.
pub fn is_there(shapes: &Shapes, body: &IrFunction, fact: WalkFact) -> bool
    ensures { result ≡ keeps.fact_is_there shapes.now body.now fact }
{
    match fact {
        WalkFact::Here | WalkFact::Freed => true,
        WalkFact::Unwritten {
            register,
            kind,
            field,
        } => register < body.registers && is_field(shapes, kind, field),
        WalkFact::RootUnwritten { field } | WalkFact::ReadRoot { field } => is_root(shapes, field),
        WalkFact::ReadField { kind, field } => is_field(shapes, kind, field),
    }
}

/// Whether all that each step's fact names exists.
pub fn all_there(shapes: &Shapes, body: &IrFunction, steps: &[Step]) -> bool
    ensures { result ≡ keeps.all_there shapes.now body.now steps.now }
{
    for step in steps {
        if !is_there(shapes, body, fact_of(step.fact)) {
            return false;
        }
    }
    true
}

/// The instruction at a place of a function.
pub fn instruction_at(functions: &[IrFunction], function: u32, place: u32) -> Option<&Instruction>
    ensures { option_map (λ i. i.now) result ≡ instruction_at functions.now function place }
{
    match functions.get(function as usize) {
        None => None,
        Some(body) => body.code.as_slice().get(place as usize),
    }
}
