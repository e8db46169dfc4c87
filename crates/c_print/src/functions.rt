//! The text of functions.

ghost use Rattle.std.specs.Prelude.{[], ◌∷◌, ◌≡◌, ◌++◌, ◌-◌, OnOk, IfOk, map};
ghost use Rattle.c_fragment.specs.Text.{lines_from, parameters_from, registers_from, signature};
ghost use Rattle.c_fragment.specs.Text.{function_text, heads_from, bodies_from, functions_text};
ghost use Rattle.c_fragment.specs.Translation.{statement_of, statements_from, c_function};

use crate::statements::push_statement;
use nvm_base::Text;
use pm_machine::{Function, Op};
use std::alloc::{AllocError, Global};

/// Writes an instruction on a line of its own, after its label.
fn push_line(alloc: Global, text: &mut Text, place: usize, op: &Op) -> Result<(), AllocError>
    ensures { OnOk result (text.new ≡ text.old
        ++ lines_from place (statement_of place op.now ∷ [])) }
{
    let label = format!(in alloc; "L{place}: ")?;
    text.push(label.as_str())?;
    push_statement(alloc, text, place, op)?;
    text.push("\n")
}

/// Writes each instruction on a line of its own.
fn push_lines(alloc: Global, text: &mut Text, code: &[Op]) -> Result<(), AllocError>
    ensures { OnOk result (text.new ≡ text.old ++ lines_from 0 (statements_from 0 code.now)) }
{
    for (place, op) in code.iter().enumerate() {
        push_line(alloc, text, place, op)?;
    }
    Ok(())
}

fn push_parameter(alloc: Global, text: &mut Text, r: u32) -> Result<(), AllocError>
    ensures { OnOk result (text.new ≡ text.old ++ parameters_from r 1) }
{
    let piece = format!(in alloc; ", uint64_t r{r}")?;
    text.push(piece.as_str())
}

fn push_parameters(alloc: Global, text: &mut Text, count: u32) -> Result<(), AllocError>
    ensures { OnOk result (text.new ≡ text.old ++ parameters_from 0 count) }
{
    for r in 0..count {
        push_parameter(alloc, text, r)?;
    }
    Ok(())
}

fn push_register(alloc: Global, text: &mut Text, r: u32) -> Result<(), AllocError>
    ensures { OnOk result (text.new ≡ text.old ++ registers_from r 1) }
{
    let piece = format!(in alloc; "    uint64_t r{r} = 0;\n")?;
    text.push(piece.as_str())
}

fn push_registers(
    alloc: Global,
    text: &mut Text,
    parameters: u32,
    registers: u32,
) -> Result<(), AllocError>
    ensures { OnOk result (text.new ≡ text.old
        ++ registers_from parameters (registers - parameters)) }
{
    for r in parameters..registers {
        push_register(alloc, text, r)?;
    }
    Ok(())
}

#[tactic(auto, unfolding(c_fragment::specs::Text::signature))]
fn push_signature(
    alloc: Global,
    text: &mut Text,
    prefix: &str,
    number: usize,
    parameters: u32,
) -> Result<(), AllocError>
    ensures { OnOk result (text.new ≡ text.old ++ signature prefix.now number parameters) }
{
    let piece = format!(in alloc; "static uint64_t cn_f{number}(struct ")?;
    text.push(piece.as_str())?;
    text.push(prefix)?;
    text.push("_pool *p")?;
    push_parameters(alloc, text, parameters)?;
    text.push(")")
}

fn push_function(
    alloc: Global,
    text: &mut Text,
    prefix: &str,
    number: usize,
    function: &Function,
) -> Result<(), AllocError>
    ensures { OnOk result (text.new ≡ text.old
        ++ function_text prefix.now number (c_function function.now)) }
{
    push_signature(alloc, text, prefix, number, function.parameters)?;
    text.push(" {\n")?;
    push_registers(alloc, text, function.parameters, function.registers)?;
    text.push("    uint64_t t = 0;\n")?;
    push_lines(alloc, text, function.code.as_slice())?;
    text.push("T: p->trap = t;\n    return 0;\n}\n")?;
    Ok(())
}

/// The text of one function.
pub fn print_function(
    alloc: Global,
    prefix: &str,
    number: usize,
    function: &Function,
) -> Result<Text, AllocError>
    ensures { IfOk result (λ text. text
        ≡ function_text prefix.now number (c_function function.now)) }
{
    let mut text = Text::new(alloc);
    push_function(alloc, &mut text, prefix, number, function)?;
    Ok(text)
}

fn push_heads(
    alloc: Global,
    text: &mut Text,
    prefix: &str,
    functions: &[Function],
) -> Result<(), AllocError>
    ensures { OnOk result (text.new ≡ text.old
        ++ heads_from prefix.now 0 (map c_function functions.now)) }
{
    for (number, function) in functions.iter().enumerate() {
        push_signature(alloc, text, prefix, number, function.parameters)?;
        text.push(";\n")?;
    }
    Ok(())
}

fn push_bodies(
    alloc: Global,
    text: &mut Text,
    prefix: &str,
    functions: &[Function],
) -> Result<(), AllocError>
    ensures { OnOk result (text.new ≡ text.old
        ++ bodies_from prefix.now 0 (map c_function functions.now)) }
{
    for (number, function) in functions.iter().enumerate() {
        push_function(alloc, text, prefix, number, function)?;
    }
    Ok(())
}

/// The text of an image's functions: each one's head, and then each function.
pub fn print_functions(
    alloc: Global,
    prefix: &str,
    functions: &[Function],
) -> Result<Text, AllocError>
    ensures { IfOk result (λ text. text
        ≡ functions_text prefix.now (map c_function functions.now)) }
{
    let mut text = Text::new(alloc);
    push_heads(alloc, &mut text, prefix, functions)?;
    push_bodies(alloc, &mut text, prefix, functions)?;
    Ok(text)
}
