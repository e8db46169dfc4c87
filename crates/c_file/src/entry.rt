//! A transaction as its caller sees it.

ghost use Rattle.std.specs.Prelude.{◌≡◌, ◌++◌, OnOk, IfOk, string_bytes};
ghost use Rattle.c_file.specs.Pieces.{parameter, parameters_from, entry_name, entry_head};

use nvm_base::{List, Text};
use std::alloc::{AllocError, Global};

/// A transaction: its name, the function of the machine that it runs, the number of its parameters,
/// whether each is of `uint64_t`, whether a trap rolls it back, and whether it only looks.
#[derive(Drop)]
pub struct Entry {
    pub name: Text,
    pub function: u32,
    pub parameters: u32,
    pub types: List<bool>,
    pub rolls_back: bool,
    pub looks: bool,
}

#[tactic(auto, unfolding(crate::specs::Pieces::entry_name))]
fn push_name(text: &mut Text, prefix: &str, name: &str) -> Result<(), AllocError>
    ensures { OnOk result (text.new ≡ text.old ++ entry_name prefix.now name.now) }
{
    text.push("struct cnvm_answer ")?;
    text.push(prefix)?;
    text.push("_")?;
    text.push(name)?;
    text.push("(struct ")?;
    Ok(())
}

/// A parameter as the caller hands it in.
fn parameter(alloc: Global, unsigned: bool, place: usize) -> Result<String, AllocError>
    ensures { IfOk result (λ piece. string_bytes piece ≡ parameter unsigned place) }
{
    if unsigned {
        return format!(in alloc; ", uint64_t a{place}");
    }
    format!(in alloc; ", int64_t a{place}")
}

fn push_parameter(
    alloc: Global,
    text: &mut Text,
    unsigned: bool,
    place: usize,
) -> Result<(), AllocError>
    ensures { OnOk result (text.new ≡ text.old ++ parameter unsigned place) }
{
    let piece = parameter(alloc, unsigned, place)?;
    text.push(piece.as_str())
}

/// Writes the parameters of a transaction's function.
fn push_parameters(alloc: Global, text: &mut Text, types: &[bool]) -> Result<(), AllocError>
    ensures { OnOk result (text.new ≡ text.old ++ parameters_from 0 types.now) }
{
    for (place, unsigned) in types.iter().enumerate() {
        push_parameter(alloc, text, *unsigned, place)?;
    }
    Ok(())
}

/// Writes the head of a transaction's function.
#[tactic(auto, unfolding(crate::specs::Pieces::entry_head))]
pub(crate) fn push_head(
    alloc: Global,
    text: &mut Text,
    prefix: &str,
    entry: &Entry,
) -> Result<(), AllocError>
    ensures { OnOk result (text.new ≡ text.old ++ entry_head prefix.now entry.now) }
{
    push_name(text, prefix, entry.name.as_str())?;
    text.push(prefix)?;
    text.push("_pool *pool")?;
    push_parameters(alloc, text, entry.types.as_slice())?;
    text.push(")")?;
    Ok(())
}
