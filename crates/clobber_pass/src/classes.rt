//! The classes of a program's stores.

ghost use Rattle.std.specs.Prelude.{◌≡◌, ◌++◌, ◌∷◌, [], ◌<◌, ℕ, true, Some, length, slice_get};
ghost use Rattle.std.specs.Prelude.{IfOk, OnOk};
ghost use Rattle.ir.specs.declared.instruction.Target.{Target};
ghost use Rattle.ir.specs.declared.instruction.Instruction.TheVariants.{Store};
ghost use Rattle.clobber_pass.specs.inside.Classes.{Has, HasAll, HasIn, HasStore, HasTarget};
ghost use Rattle.clobber_pass.specs.inside.Classes.{Keeps, KeepsStored};

use crate::topic::{StructField, TOPIC_FIELDS};
use ir::{Instruction, IrFunction, Target};
use nvm_base::List;
use std::alloc::{AllocError, Global};

/// The classes of stores, each once: of fields of the root only the first of each 16, and each
/// field of a struct.
#[derive(Drop)]
pub struct Stored {
    pub roots: List<u32>,
    pub fields: List<StructField>,
}

/// Whether a field of the root is in a list.
fn has_root(roots: &[u32], first: u32) -> bool
    ensures { result ≡ true → Has roots.now first }
{
    for index in 0..roots.len() {
        if roots[index] == first {
            return true;
        }
    }
    false
}

/// Adds a field of the root, if it isn't there.
#[tactic(auto, using(crate::proofs::Topical::keeps_none))]
fn add_root(roots: &mut List<u32>, first: u32) -> Result<(), AllocError>
    ensures has { OnOk result (Has roots.new first) }
    ensures kept { OnOk result (Keeps roots.old roots.new) }
{
    if has_root(roots.as_slice(), first) {
        return Ok(());
    }
    roots.push(first)?;
    Ok(())
}

/// Whether a struct's field is in a list.
fn has_field(fields: &[StructField], field: StructField) -> bool
    ensures { result ≡ true → Has fields.now field }
{
    for index in 0..fields.len() {
        if fields[index] == field {
            return true;
        }
    }
    false
}

/// Adds a struct's field, if it isn't there.
#[tactic(auto, using(crate::proofs::Topical::keeps_none))]
fn add_field(fields: &mut List<StructField>, field: StructField) -> Result<(), AllocError>
    ensures has { OnOk result (Has fields.new field) }
    ensures kept { OnOk result (Keeps fields.old fields.new) }
{
    if has_field(fields.as_slice(), field) {
        return Ok(());
    }
    fields.push(field)?;
    Ok(())
}

/// Adds the class of a target.
#[tactic(auto, using(crate::proofs::Topical::keeps_roots, crate::proofs::Topical::keeps_fields))]
fn add_target(stored: &mut Stored, target: Target) -> Result<(), AllocError>
    ensures has { OnOk result (HasTarget stored.new target) }
    ensures kept { OnOk result (KeepsStored stored.old stored.new) }
{
    match target {
        Target::Root { field, .. } => add_root(&mut stored.roots, field - field % TOPIC_FIELDS),
        Target::Field { kind, field, .. } => add_field(
            &mut stored.fields,
            StructField { kind, field },
        ),
    }
}

/// Adds the class of a store.
#[tactic(auto, using(crate::proofs::Topical::keeps_all))]
fn add_store(stored: &mut Stored, instruction: &Instruction) -> Result<(), AllocError>
    ensures has { OnOk result (HasStore stored.new instruction.now) }
    ensures kept { OnOk result (KeepsStored stored.old stored.new) }
{
    match instruction {
        Instruction::Store { target, .. } => add_target(stored, *target),
        _ => Ok(()),
    }
}

/// Adds the classes of a code's stores.
fn add_code(stored: &mut Stored, code: &[Instruction]) -> Result<(), AllocError>
    ensures has { OnOk result (HasIn stored.new code.now) }
    ensures kept { OnOk result (KeepsStored stored.old stored.new) }
{
    for place in 0..code.len() {
        add_store(stored, &code[place])?;
    }
    Ok(())
}

/// The classes of all stores.
pub fn stored_classes(alloc: Global, functions: &[IrFunction]) -> Result<Stored, AllocError>
    ensures { IfOk result (λ stored. HasAll functions.now stored) }
{
    let mut stored = Stored {
        roots: List::new(alloc),
        fields: List::new(alloc),
    };
    for function in 0..functions.len() {
        add_code(&mut stored, functions[function].code.as_slice())?;
    }
    Ok(stored)
}
