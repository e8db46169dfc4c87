//! The rows of a listing: the store sites of a program in code order, each with its line and what
//! is written there.

ghost use Rattle.std.specs.Prelude.{[], ◌∷◌, ◌≡◌, ◌++◌, ◌<◌, ◌^◌, length, OnOk, IfOk};
ghost use Rattle.ir.specs.WellFormed.{IsWellFormed};
ghost use Rattle.site_lines.specs.Rows.{row, rows_at, rows_from, rows_of};

use crate::names::{joined, struct_name, target_name};
use ir::{Instruction, Ir, Site};
use nvm_base::{List, Text};
use pool_map::Shapes;
use std::alloc::{AllocError, Global};

/// A store site, the line of its store, and what is written there, in words.
#[derive(Drop)]
pub struct Row {
    pub site: Site,
    pub line: u64,
    pub target: Text,
}

/// Rows.
pub type Rows = List<Row>;

/// The rows of a program.
pub fn rows_of(alloc: Global, ir: &Ir) -> Result<Rows, AllocError>
    requires { IsWellFormed ir.now }
    ensures { IfOk result (λ rows. rows ≡ rows_of ir.now.shapes 0 ir.now.functions) }
{
    let mut rows = Rows::new(alloc);
    for (number, function) in ir.functions.as_slice().iter().enumerate() {
        let code = function.code.as_slice();
        push_function(alloc, &mut rows, &ir.shapes, number as u32, code)?;
    }
    Ok(rows)
}

/// Appends the rows of one function.
fn push_function(
    alloc: Global,
    rows: &mut Rows,
    shapes: &Shapes,
    function: u32,
    code: &[Instruction],
) -> Result<(), AllocError>
    requires { length code.now < 2 ^ 31 }
    ensures { OnOk result (rows.new ≡ rows.old ++ rows_from shapes.now function 0 code.now) }
{
    for (place, instruction) in code.iter().enumerate() {
        let site = Site {
            function,
            place: place as u32,
            fill: false,
        };
        push_rows(alloc, rows, shapes, site, instruction)?;
    }
    Ok(())
}

/// Appends one row.
fn push_row(rows: &mut Rows, site: Site, line: u64, target: Text) -> Result<(), AllocError>
    ensures { OnOk result (rows.new ≡ rows.old ++ row site line target ∷ []) }
{
    rows.push(Row { site, line, target })
}

/// Appends the rows of one instruction: none, one, or two for a `new`.
pub(crate) fn push_rows(
    alloc: Global,
    rows: &mut Rows,
    shapes: &Shapes,
    site: Site,
    instruction: &Instruction,
) -> Result<(), AllocError>
    ensures { OnOk result (rows.new ≡ rows.old ++ rows_at shapes.now site instruction.now) }
{
    match instruction {
        Instruction::Store { target, line, .. } => {
            push_row(rows, site, *line, target_name(alloc, shapes, *target)?)
        }
        Instruction::New { kind, line, .. } => {
            let name = struct_name(shapes, *kind);
            push_row(rows, site, *line, joined(alloc, "new ", name, " header")?)?;
            let fill = Site { fill: true, ..site };
            push_row(rows, fill, *line, joined(alloc, "new ", name, " fields")?)
        }
        Instruction::Free { kind, line, .. } => {
            let name = struct_name(shapes, *kind);
            push_row(rows, site, *line, joined(alloc, "free ", name, " header")?)
        }
        Instruction::Const { .. }
        | Instruction::Copy { .. }
        | Instruction::Bin { .. }
        | Instruction::Jump { .. }
        | Instruction::Branch { .. }
        | Instruction::Load { .. }
        | Instruction::Call { .. }
        | Instruction::Return { .. }
        | Instruction::Tick
        | Instruction::Trap { .. }
        | Instruction::Log { .. } => Ok(()),
    }
}
