//! The text of an instruction.

ghost use Rattle.std.specs.Prelude.{◌≡◌, ◌++◌, codes, OnOk};
ghost use Rattle.std.specs.Fmt.{decimal, signed_decimal};
ghost use Rattle.code_print.specs.CodeText.{instruction_text, target_text, operator_text};
ghost use Rattle.code_print.specs.CodeText.{arguments_text, logged_or_plain};

use crate::operands::{logged_or_plain, operator_text, push_arguments, push_target};
use clobber_pass::MarkTable;
use ir::{Instruction, Ir, Site, Target};
use nvm_base::{BinOp, Text};
use pool_map::Shapes;
use site_lines::{function_name, struct_name};
use std::alloc::{AllocError, Global};

/// Writes the instruction at a site.
pub(crate) fn push_instruction(
    alloc: Global,
    text: &mut Text,
    ir: &Ir,
    marks: &MarkTable,
    site: Site,
    instruction: &Instruction,
) -> Result<(), AllocError>
    ensures { OnOk result (text.new
        ≡ text.old ++ instruction_text ir.now marks.now site instruction.now) }
{
    let shapes = &ir.shapes;
    match instruction {
        Instruction::Const { to, value } => push_const(alloc, text, *to, *value),
        Instruction::Copy { to, from } => push_numbered(alloc, text, "r", *to, " = r", *from),
        Instruction::Bin {
            op,
            to,
            left,
            right,
        } => push_bin(alloc, text, *op, *to, *left, *right),
        Instruction::Jump { place } => push_word(alloc, text, "jump ", *place),
        Instruction::Branch { on, place } => {
            push_numbered(alloc, text, "if r", *on, " == 0 jump ", *place)
        }
        Instruction::Load { to, target } => push_load(alloc, text, shapes, *to, *target),
        Instruction::Store { target, from, .. } => {
            push_store(alloc, text, shapes, *target, *from, marks.logged(site))
        }
        Instruction::New { to, kind, .. } => {
            let fill = Site { fill: true, ..site };
            let name = struct_name(shapes, *kind);
            push_new(
                alloc,
                text,
                name,
                *to,
                marks.logged(site),
                marks.logged(fill),
            )
        }
        Instruction::Free { from, kind, .. } => {
            let name = struct_name(shapes, *kind);
            push_free(alloc, text, name, *from, marks.logged(site))
        }
        Instruction::Call { to, function, args } => {
            let name = function_name(ir.functions.as_slice(), *function);
            push_call(alloc, text, name, *to, args.as_slice())
        }
        Instruction::Return { from } => push_word(alloc, text, "return r", *from),
        Instruction::Tick => text.push("tick"),
        Instruction::Trap { kind } => {
            text.push("trap ")?;
            text.push(kind.name())
        }
        Instruction::Log { target } => {
            text.push("log ")?;
            push_target(alloc, text, shapes, *target)
        }
    }
}

/// Writes a word and a number.
fn push_word(alloc: Global, text: &mut Text, word: &str, number: u32) -> Result<(), AllocError>
    ensures { OnOk result (text.new ≡ text.old ++ (word.now ++ decimal number)) }
{
    let word = format!(in alloc; "{word}{number}")?;
    text.push(word.as_str())
}

/// Writes two numbers, each after a word.
fn push_numbered(
    alloc: Global,
    text: &mut Text,
    before: &str,
    first: u32,
    between: &str,
    second: u32,
) -> Result<(), AllocError>
    ensures { OnOk result (text.new ≡ text.old
        ++ (before.now ++ (decimal first ++ (between.now ++ decimal second)))) }
{
    let words = format!(in alloc; "{before}{first}{between}{second}")?;
    text.push(words.as_str())
}

fn push_const(alloc: Global, text: &mut Text, to: u32, value: i64) -> Result<(), AllocError>
    ensures { OnOk result (text.new ≡ text.old
        ++ (codes "r" ++ (decimal to ++ (codes " = " ++ signed_decimal value)))) }
{
    let set = format!(in alloc; "r{to} = {value}")?;
    text.push(set.as_str())
}

fn push_bin(
    alloc: Global,
    text: &mut Text,
    op: BinOp,
    to: u32,
    left: u32,
    right: u32,
) -> Result<(), AllocError>
    ensures { OnOk result (text.new ≡ text.old
        ++ (codes "r" ++ (decimal to ++ (codes " = r" ++ (decimal left
        ++ (codes " " ++ (operator_text op ++ (codes " r" ++ decimal right)))))))) }
{
    let op = operator_text(op);
    let set = format!(in alloc; "r{to} = r{left} {op} r{right}")?;
    text.push(set.as_str())
}

fn push_load(
    alloc: Global,
    text: &mut Text,
    shapes: &Shapes,
    to: u32,
    target: Target,
) -> Result<(), AllocError>
    ensures { OnOk result (text.new ≡ text.old
        ++ (codes "r" ++ (decimal to ++ (codes " = " ++ target_text shapes.now target)))) }
{
    let to = format!(in alloc; "r{to} = ")?;
    text.push(to.as_str())?;
    push_target(alloc, text, shapes, target)
}

fn push_store(
    alloc: Global,
    text: &mut Text,
    shapes: &Shapes,
    target: Target,
    from: u32,
    logged: bool,
) -> Result<(), AllocError>
    ensures { OnOk result (text.new ≡ text.old
        ++ (target_text shapes.now target ++ (codes " = r" ++ (decimal from
        ++ (codes " " ++ logged_or_plain logged))))) }
{
    push_target(alloc, text, shapes, target)?;
    let mark = logged_or_plain(logged);
    let from = format!(in alloc; " = r{from} {mark}")?;
    text.push(from.as_str())
}

/// Writes a `pm_new`: whether the old header and the old fields are logged.
fn push_new(
    alloc: Global,
    text: &mut Text,
    name: &str,
    to: u32,
    header: bool,
    fields: bool,
) -> Result<(), AllocError>
    ensures { OnOk result (text.new ≡ text.old
        ++ (codes "r" ++ (decimal to ++ (codes " = new " ++ (name.now
        ++ (codes " header " ++ (logged_or_plain header
        ++ (codes " fields " ++ logged_or_plain fields)))))))) }
{
    let header = logged_or_plain(header);
    let fields = logged_or_plain(fields);
    let new = format!(in alloc; "r{to} = new {name} header {header} fields {fields}")?;
    text.push(new.as_str())
}

fn push_free(
    alloc: Global,
    text: &mut Text,
    name: &str,
    from: u32,
    header: bool,
) -> Result<(), AllocError>
    ensures { OnOk result (text.new ≡ text.old
        ++ (codes "free r" ++ (decimal from ++ (codes " " ++ (name.now
        ++ (codes " header " ++ logged_or_plain header)))))) }
{
    let header = logged_or_plain(header);
    let free = format!(in alloc; "free r{from} {name} header {header}")?;
    text.push(free.as_str())
}

fn push_call(
    alloc: Global,
    text: &mut Text,
    name: &str,
    to: u32,
    arguments: &[u32],
) -> Result<(), AllocError>
    ensures { OnOk result (text.new ≡ text.old
        ++ (codes "r" ++ (decimal to ++ (codes " = call " ++ (name.now
        ++ arguments_text arguments.now))))) }
{
    let call = format!(in alloc; "r{to} = call {name}")?;
    text.push(call.as_str())?;
    push_arguments(alloc, text, arguments)
}
