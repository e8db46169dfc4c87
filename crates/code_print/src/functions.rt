//! The text of functions and of a whole program.

ghost use Rattle.std.specs.Prelude.{◌≡◌, ◌++◌, ◌<◌, ◌^◌, length, map, option_map, slice_get};
ghost use Rattle.std.specs.Prelude.{OnOk, IfOk};
ghost use Rattle.c_tree.specs.ItemTree.{function_tree};
ghost use Rattle.ir.specs.WellFormed.{IsWellFormed};
ghost use Rattle.code_print.specs.CodeText as definitions;
ghost use Rattle.code_print.specs.CodeText.{printed_from, kind_text, signature_text};
ghost use Rattle.code_print.specs.CodeText.{function_listing, printed_functions};

use crate::lines::{own_line, push_line};
use c_tree::Ast;
use c_tree::item::Function;
use c_types::{Program, Typed};
use clobber_pass::MarkTable;
use ir::{Instruction, Ir, IrFunction, Site};
use nvm_base::Text;
use std::alloc::{AllocError, Global};
use trap_line::{Spot, Spots, spots_of};

/// The function of this number.
#[tactic(auto, using(trap_line::proofs::Trees::found))]
fn function_at<'a>(functions: &[&'a Function], number: usize) -> Option<&'a Function>
    ensures { option_map (λ f. function_tree f.now) result
        ≡ slice_get (map function_tree (map (λ f. f.now) functions.now)) number }
{
    match functions.get(number) {
        None => None,
        Some(function) => Some(*function),
    }
}

/// The tokens of the instructions of the function of this number.
fn spots_at(alloc: Global, functions: &[&Function], number: usize) -> Result<Spots, AllocError>
    ensures { IfOk result (λ spots. spots ≡ definitions.spots_at
        (map function_tree (map (λ f. f.now) functions.now)) number) }
{
    match function_at(functions, number) {
        Some(function) => spots_of(alloc, function),
        None => Ok(Spots::new(alloc)),
    }
}

/// What the line of a function begins with.
fn kind_text(tx: bool) -> &'static str
    ensures { result.now ≡ kind_text tx }
{
    if tx { "tx " } else { "function " }
}

/// Writes the line of a function.
fn push_head(alloc: Global, text: &mut Text, function: &IrFunction) -> Result<(), AllocError>
    ensures { OnOk result (text.new ≡ text.old ++ signature_text function.now) }
{
    let parameters = function.parameters;
    let registers = function.registers;
    let kind = kind_text(function.tx);
    let name = function.name.as_str();
    let line = format!(in alloc; "{kind}{name} parameters {parameters} registers {registers}\n")?;
    text.push(line.as_str())
}

/// Writes the lines of the instructions of a function.
fn push_code(
    alloc: Global,
    text: &mut Text,
    ast: &Ast,
    ir: &Ir,
    marks: &MarkTable,
    spots: &[Spot],
    function: u32,
    code: &[Instruction],
) -> Result<(), AllocError>
    requires { length code.now < 2 ^ 31 }
    ensures { OnOk result (text.new ≡ text.old
        ++ printed_from ast.now ir.now marks.now spots.now function 0 code.now) }
{
    for (place, instruction) in code.iter().enumerate() {
        let site = Site {
            function,
            place: place as u32,
            fill: false,
        };
        let line = own_line(ast, spots, place, instruction);
        push_line(alloc, text, ir, marks, site, line, instruction)?;
    }
    Ok(())
}

/// Writes the function of this number. `functions` are those of the tree.
fn push_function(
    alloc: Global,
    text: &mut Text,
    ast: &Ast,
    functions: &[&Function],
    ir: &Ir,
    marks: &MarkTable,
    number: usize,
    function: &IrFunction,
) -> Result<(), AllocError>
    requires few { number < 2 ^ 31 }
    requires short { length function.now.code < 2 ^ 31 }
    ensures { OnOk result (text.new ≡ text.old
        ++ function_listing ast.now (map function_tree (map (λ f. f.now) functions.now)) ir.now
        marks.now number function.now) }
{
    push_head(alloc, text, function)?;
    let spots = spots_at(alloc, functions, number)?;
    let code = function.code.as_slice();
    push_code(
        alloc,
        text,
        ast,
        ir,
        marks,
        spots.as_slice(),
        number as u32,
        code,
    )
}

/// Writes all functions. `functions` are those of the tree.
fn push_functions(
    alloc: Global,
    text: &mut Text,
    ast: &Ast,
    functions: &[&Function],
    ir: &Ir,
    marks: &MarkTable,
) -> Result<(), AllocError>
    requires { IsWellFormed ir.now }
    ensures { OnOk result (text.new ≡ text.old
        ++ printed_functions ast.now (map function_tree (map (λ f. f.now) functions.now)) ir.now
        marks.now 0 ir.now.functions) }
{
    for (number, function) in ir.functions.as_slice().iter().enumerate() {
        push_function(alloc, text, ast, functions, ir, marks, number, function)?;
    }
    Ok(())
}

/// The text of a program's code: `ir` is the code of the tree, without logs, and `marks` are the
/// marks of its stores.
pub fn code_text(
    alloc: Global,
    typed: &Typed,
    ir: &Ir,
    marks: &MarkTable,
) -> Result<Text, AllocError>
    requires { IsWellFormed ir.now }
    ensures { IfOk result (λ text. text ≡ definitions.printed_code typed.now ir.now marks.now) }
{
    let ast = typed.ast();
    let program = Program::new(alloc, ast.items())?;
    let mut text = Text::new(alloc);
    push_functions(alloc, &mut text, ast, program.functions(), ir, marks)?;
    Ok(text)
}
