//! The listing of a program's store sites: which of them are logged.

ghost use Rattle.std.specs.Prelude.{◌≡◌, ◌++◌, length, flat_map, OnOk, IfOk};
ghost use Rattle.ir.specs.WellFormed.{IsWellFormed};
ghost use Rattle.cnvm_compile.specs.Listing.{row_line, logged_rows, listing};

use crate::compiling::Compiled;
use clobber_pass::MarkTable;
use nvm_base::Text;
use site_lines::{Row, push_head, rows_of};
use std::alloc::{AllocError, Global};

/// The listing: one line for each store site, in code order, and a last line with the number of
/// sites and of logged ones.
pub fn list_text(alloc: Global, compiled: &Compiled) -> Result<Text, AllocError>
    requires { IsWellFormed compiled.now.ir }
    ensures { IfOk result (λ text. text ≡ listing compiled.now.marks compiled.now.ir) }
{
    let rows = rows_of(alloc, &compiled.ir)?;
    let rows = rows.as_slice();
    let mut text = Text::new(alloc);
    push_lines(alloc, &mut text, compiled, rows)?;
    let sites = rows.len();
    let logged = logged_of(&compiled.marks, rows);
    let last = format!(in alloc; "sites {sites} logged {logged}\n")?;
    text.push(last.as_str())?;
    Ok(text)
}

/// Writes the line of each row.
fn push_lines(
    alloc: Global,
    text: &mut Text,
    compiled: &Compiled,
    rows: &[Row],
) -> Result<(), AllocError>
    ensures { OnOk result (text.new ≡ text.old
        ++ flat_map (row_line compiled.now.marks compiled.now.ir.functions) rows.now) }
{
    for row in rows {
        push_line(alloc, text, compiled, row)?;
    }
    Ok(())
}

/// Writes the line of a row.
fn push_line(
    alloc: Global,
    text: &mut Text,
    compiled: &Compiled,
    row: &Row,
) -> Result<(), AllocError>
    ensures { OnOk result (text.new ≡ text.old ++ row_line compiled.now.marks
        compiled.now.ir.functions row.now) }
{
    push_head(alloc, text, compiled.ir.functions.as_slice(), row)?;
    if compiled.marks.logged(row.site) {
        text.push(" log\n")
    } else {
        text.push(" plain\n")
    }
}

/// How many rows are of logged sites.
fn logged_of(marks: &MarkTable, rows: &[Row]) -> usize
    ensures { result ≡ length (logged_rows marks.now rows.now) }
{
    rows.iter().filter(|row| marks.logged(row.site)).count()
}
