//! The source line of an instruction, and the line of text that it has.

ghost use Rattle.std.specs.Prelude.{◌≡◌, ◌++◌, slice_get, OnOk};
ghost use Rattle.code_print.specs.CodeText as definitions;
ghost use Rattle.code_print.specs.CodeText.{spot_line, number_or_dash, place_text};

use crate::instructions::push_instruction;
use c_tree::Ast;
use clobber_pass::MarkTable;
use ir::{Instruction, Ir, Site};
use nvm_base::Text;
use site_lines::function_name;
use std::alloc::{AllocError, Global};
use trap_line::Spot;

/// The line of the token at which a trap of the instruction at a place is told.
fn spot_line(ast: &Ast, spots: &[Spot], place: usize) -> Option<u64>
    ensures { result ≡ spot_line ast.now (slice_get spots.now place) }
{
    match spots.get(place) {
        None => None,
        Some(spot) => {
            if spot.place == 0 {
                return None;
            }
            Some(ast.line(spot.place))
        }
    }
}

/// The source line of the instruction at a place.
pub(crate) fn own_line(
    ast: &Ast,
    spots: &[Spot],
    place: usize,
    instruction: &Instruction,
) -> Option<u64>
    ensures { result ≡ definitions.own_line ast.now (slice_get spots.now place) instruction.now }
{
    match instruction {
        Instruction::Store { line, .. } => Some(*line),
        Instruction::New { line, .. } => Some(*line),
        Instruction::Free { line, .. } => Some(*line),
        Instruction::Const { .. }
        | Instruction::Copy { .. }
        | Instruction::Bin { .. }
        | Instruction::Jump { .. }
        | Instruction::Branch { .. }
        | Instruction::Load { .. }
        | Instruction::Call { .. }
        | Instruction::Return { .. }
        | Instruction::Tick
        | Instruction::Trap { .. }
        | Instruction::Log { .. } => spot_line(ast, spots, place),
    }
}

/// Writes the number of a line, or `-`.
fn push_number(alloc: Global, text: &mut Text, line: Option<u64>) -> Result<(), AllocError>
    ensures { OnOk result (text.new ≡ text.old ++ number_or_dash line) }
{
    match line {
        None => text.push("-"),
        Some(line) => {
            let number = format!(in alloc; "{line}")?;
            text.push(number.as_str())
        }
    }
}

/// Writes the line of the instruction at a site.
pub(crate) fn push_line(
    alloc: Global,
    text: &mut Text,
    ir: &Ir,
    marks: &MarkTable,
    site: Site,
    line: Option<u64>,
    instruction: &Instruction,
) -> Result<(), AllocError>
    ensures { OnOk result (text.new
        ≡ text.old ++ place_text ir.now marks.now site line instruction.now) }
{
    let place = site.place;
    let start = format!(in alloc; " {place} line ")?;
    text.push(function_name(ir.functions.as_slice(), site.function))?;
    text.push(start.as_str())?;
    push_number(alloc, text, line)?;
    text.push(" ")?;
    push_instruction(alloc, text, ir, marks, site, instruction)?;
    text.push("\n")
}
