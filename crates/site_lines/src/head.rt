//! The line of a store site, without its last word.

ghost use Rattle.std.specs.Prelude.{◌≡◌, ◌++◌, flat_map, OnOk};
ghost use Rattle.site_lines.specs.Rows.{row_head, matching_head, site_head};

use crate::names::function_name;
use crate::rows::{Row, Rows, push_rows};
use ir::{Ir, IrFunction, Site};
use nvm_base::Text;
use std::alloc::{AllocError, Global};

/// Writes a row's line without its last word: the function, the line, and what is written.
pub fn push_head(
    alloc: Global,
    text: &mut Text,
    functions: &[IrFunction],
    row: &Row,
) -> Result<(), AllocError>
    ensures { OnOk result (text.new ≡ text.old ++ row_head functions.now row.now) }
{
    let line = row.line;
    let number = format!(in alloc; " line {line} ")?;
    text.push(function_name(functions, row.site.function))?;
    text.push(number.as_str())?;
    text.push(row.target.as_str())
}

/// Writes the head of a row, if it is of a fill or not as asked.
fn push_alike(
    alloc: Global,
    text: &mut Text,
    functions: &[IrFunction],
    fill: bool,
    row: &Row,
) -> Result<(), AllocError>
    ensures { OnOk result (text.new ≡ text.old ++ matching_head functions.now fill row.now) }
{
    match (row.site.fill, fill) {
        (true, true) | (false, false) => push_head(alloc, text, functions, row),
        _ => Ok(()),
    }
}

fn push_matching(
    alloc: Global,
    text: &mut Text,
    functions: &[IrFunction],
    fill: bool,
    rows: &[Row],
) -> Result<(), AllocError>
    ensures { OnOk result (text.new
        ≡ text.old ++ flat_map (matching_head functions.now fill) rows.now) }
{
    for row in rows {
        push_alike(alloc, text, functions, fill, row)?;
    }
    Ok(())
}

/// Writes the line of a site without its last word, and nothing if there is no such site.
pub fn push_site_head(alloc: Global, text: &mut Text, ir: &Ir, site: Site) -> Result<(), AllocError>
    ensures { OnOk result (text.new ≡ text.old ++ site_head ir.now site) }
{
    let functions = ir.functions.as_slice();
    let Some(function) = functions.get(site.function as usize) else {
        return Ok(());
    };
    let Some(instruction) = function.code.as_slice().get(site.place as usize) else {
        return Ok(());
    };
    let header = Site {
        fill: false,
        ..site
    };
    let mut rows = Rows::new(alloc);
    push_rows(alloc, &mut rows, &ir.shapes, header, instruction)?;
    push_matching(alloc, text, functions, site.fill, rows.as_slice())
}
