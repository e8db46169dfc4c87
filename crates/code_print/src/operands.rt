//! The parts of an instruction's text: registers, targets, operators and marks.

ghost use Rattle.std.specs.Prelude.{◌≡◌, ◌++◌, OnOk};
ghost use Rattle.code_print.specs.CodeText.{index_text, target_text, operator_text};
ghost use Rattle.code_print.specs.CodeText.{arguments_text, logged_or_plain};

use ir::Target;
use nvm_base::{BinOp, Text};
use pool_map::Shapes;
use site_lines::{field_name, field_of_struct, struct_name};
use std::alloc::{AllocError, Global};

/// Writes the register of an index.
fn push_index(alloc: Global, text: &mut Text, index: Option<u32>) -> Result<(), AllocError>
    ensures { OnOk result (text.new ≡ text.old ++ index_text index) }
{
    match index {
        None => Ok(()),
        Some(register) => {
            let index = format!(in alloc; "[r{register}]")?;
            text.push(index.as_str())
        }
    }
}

/// Writes a struct's field and the register of its base.
fn push_field(
    alloc: Global,
    text: &mut Text,
    shapes: &Shapes,
    base: u32,
    kind: u32,
    field: u32,
    index: Option<u32>,
) -> Result<(), AllocError>
    ensures { OnOk result (text.new
        ≡ text.old ++ target_text shapes.now (Target.Field base kind field index)) }
{
    let base = format!(in alloc; "r{base}:")?;
    text.push(base.as_str())?;
    text.push(struct_name(shapes, kind))?;
    text.push(".")?;
    text.push(field_of_struct(shapes, kind, field))?;
    push_index(alloc, text, index)
}

/// Writes what a load reads or a store writes.
pub(crate) fn push_target(
    alloc: Global,
    text: &mut Text,
    shapes: &Shapes,
    target: Target,
) -> Result<(), AllocError>
    ensures { OnOk result (text.new ≡ text.old ++ target_text shapes.now target) }
{
    match target {
        Target::Root { field, index } => {
            text.push("root.")?;
            text.push(field_name(&shapes.root, field))?;
            push_index(alloc, text, index)
        }
        Target::Field {
            base,
            kind,
            field,
            index,
        } => push_field(alloc, text, shapes, base, kind, field, index),
    }
}

/// The operator, as C spells it, and a `u` after it if it takes its sides as unsigned numbers.
pub(crate) fn operator_text(op: BinOp) -> &'static str
    ensures { result.now ≡ operator_text op }
{
    match op {
        BinOp::Add => "+",
        BinOp::Sub => "-",
        BinOp::Mul => "*",
        BinOp::Div => "/",
        BinOp::Rem => "%",
        BinOp::Shl => "<<",
        BinOp::Shr => ">>",
        BinOp::And => "&",
        BinOp::Or => "|",
        BinOp::Xor => "^",
        BinOp::Lt => "<",
        BinOp::Le => "<=",
        BinOp::Eq => "==",
        BinOp::Ne => "!=",
        BinOp::Ult => "<u",
        BinOp::Ule => "<=u",
        BinOp::Udiv => "/u",
        BinOp::Urem => "%u",
        BinOp::Ushr => ">>u",
    }
}

/// Whether a store is logged, in a word.
pub(crate) fn logged_or_plain(logged: bool) -> &'static str
    ensures { result.now ≡ logged_or_plain logged }
{
    if logged { "log" } else { "plain" }
}

/// Writes the registers of a call, each after a blank.
pub(crate) fn push_arguments(
    alloc: Global,
    text: &mut Text,
    arguments: &[u32],
) -> Result<(), AllocError>
    ensures { OnOk result (text.new ≡ text.old ++ arguments_text arguments.now) }
{
    for argument in arguments {
        let register = *argument;
        let argument = format!(in alloc; " r{register}")?;
        text.push(argument.as_str())?;
    }
    Ok(())
}
