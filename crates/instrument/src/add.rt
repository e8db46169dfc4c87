//! Adding the logs to a program.

ghost use Rattle.std.specs.Prelude.{◌≡◌, ◌++◌, ◌<◌, ◌^◌, length, IfOk, OnOk};
ghost use Rattle.instrument.specs.Insert.{logs, led, own, logged_from, with_flags, logged_code};
ghost use Rattle.instrument.specs.Insert.{logged_function, logged_program};
ghost use Rattle.ir.specs.Short.{IsShort};
ghost use Rattle.ir.specs.WellFormed.{IsWellFormed};

use crate::places::{flag_at, flags, place_in, places};
use clobber_pass::MarkTable;
use ir::{Instruction, Instructions, Ir, IrFunction, IrFunctions};
use nvm_base::Text;
use std::alloc::{AllocError, Global};

fn text_copy(alloc: Global, text: &Text) -> Result<Text, AllocError>
    ensures { IfOk result (λ t. t ≡ text.now) }
{
    let mut copy = Text::new(alloc);
    copy.push(text.as_str())?;
    Ok(copy)
}

/// The instruction with its jumps mapped to their new places, and with the flag of a fill.
fn led(
    alloc: Global,
    places: &[u32],
    flag: bool,
    instruction: &Instruction,
) -> Result<Instruction, AllocError>
    ensures { IfOk result (λ i. i ≡ led places.now flag instruction.now) }
{
    match instruction {
        Instruction::Jump { place } => Ok(Instruction::Jump {
            place: place_in(places, *place),
        }),
        Instruction::Branch { on, place } => Ok(Instruction::Branch {
            on: *on,
            place: place_in(places, *place),
        }),
        Instruction::New { to, kind, line, .. } => Ok(Instruction::New {
            to: *to,
            kind: *kind,
            log_fill: flag,
            line: *line,
        }),
        _ => instruction.copy(alloc),
    }
}

/// Appends the log of an instruction, if it has one.
fn push_log(
    code: &mut Instructions,
    flag: bool,
    instruction: &Instruction,
) -> Result<(), AllocError>
    ensures { OnOk result (code.new ≡ code.old ++ logs flag instruction.now) }
{
    match instruction {
        Instruction::Store { target, .. } if flag => code.push(Instruction::Log {
            target: *target,
        }),
        _ => Ok(()),
    }
}

/// Appends the instruction itself. A log that was in the code before is left out.
fn push_own(
    alloc: Global,
    code: &mut Instructions,
    places: &[u32],
    flag: bool,
    instruction: &Instruction,
) -> Result<(), AllocError>
    ensures { OnOk result (code.new ≡ code.old ++ own places.now flag instruction.now) }
{
    match instruction {
        Instruction::Log { .. } => Ok(()),
        _ => code.push(led(alloc, places, flag, instruction)?),
    }
}

/// The instructions with their logs, given all new places.
fn logged_from(
    alloc: Global,
    places: &[u32],
    flags: &[bool],
    code: &[Instruction],
) -> Result<Instructions, AllocError>
    ensures { IfOk result (λ c. c ≡ logged_from places.now flags.now 0 code.now) }
{
    let mut logged = Instructions::new(alloc);
    for (k, instruction) in code.iter().enumerate() {
        let flag = flag_at(flags, k);
        push_log(&mut logged, flag, instruction)?;
        push_own(alloc, &mut logged, places, flag, instruction)?;
    }
    Ok(logged)
}

/// The code with the logs for these flags.
fn with_flags(
    alloc: Global,
    flags: &[bool],
    code: &[Instruction],
) -> Result<Instructions, AllocError>
    requires { length code.now < 2 ^ 31 }
    ensures { IfOk result (λ c. c ≡ with_flags flags.now code.now) }
{
    let places = places(alloc, flags, code)?;
    logged_from(alloc, places.as_slice(), flags, code)
}

/// The code of a function with its logs.
fn logged_code(
    alloc: Global,
    marks: &MarkTable,
    function: u32,
    code: &[Instruction],
) -> Result<Instructions, AllocError>
    requires { length code.now < 2 ^ 31 }
    ensures { IfOk result (λ c. c ≡ logged_code marks.now function code.now) }
{
    let flags = flags(alloc, marks, function, code)?;
    with_flags(alloc, flags.as_slice(), code)
}

fn logged_function(
    alloc: Global,
    marks: &MarkTable,
    number: u32,
    function: &IrFunction,
) -> Result<IrFunction, AllocError>
    requires { length function.now.code < 2 ^ 31 }
    ensures { IfOk result (λ f. f ≡ logged_function marks.now number function.now) }
{
    Ok(IrFunction {
        name: text_copy(alloc, &function.name)?,
        parameters: function.parameters,
        registers: function.registers,
        tx: function.tx,
        code: logged_code(alloc, marks, number, function.code.as_slice())?,
    })
}

/// The program with its logs.
fn logged_program(alloc: Global, ir: &Ir, marks: &MarkTable) -> Result<Ir, AllocError>
    requires { IsWellFormed ir.now }
    ensures { IfOk result (λ r. r ≡ logged_program marks.now ir.now) }
{
    let mut functions = IrFunctions::new(alloc);
    for (number, function) in ir.functions.as_slice().iter().enumerate() {
        functions.push(logged_function(alloc, marks, number as u32, function)?)?;
    }
    Ok(Ir {
        functions,
        shapes: ir.shapes.copy(alloc)?,
    })
}

/// The program with a log right before each store that the marks name, and with the flag of each
/// `new` whose fill they name. A log that was in the program before, and a flag that was set, are
/// left out. Each jump to such a store leads to its log. If each function has fewer than 2^30
/// instructions, the program is well formed with its logs too.
pub fn add_logs(alloc: Global, ir: &Ir, marks: &MarkTable) -> Result<Ir, AllocError>
    requires { IsWellFormed ir.now }
    ensures code { IfOk result (λ r. r ≡ logged_program marks.now ir.now) }
    ensures well_formed { IsShort ir.now → IfOk result (λ r. IsWellFormed r) }
{
    logged_program(alloc, ir, marks)
}
