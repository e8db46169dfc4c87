//! What of the file is the program's own.

ghost use Rattle.std.specs.Prelude.{◌≡◌, ◌++◌, ◌<◌, ◌^◌, OnOk, flat_map};
ghost use Rattle.pm_machine.specs.Checked.{most_registers};
ghost use Rattle.c_file.specs.Program.{number_line, five_sizes, sizes_text, counts_text};
ghost use Rattle.c_file.specs.Program.{digest_line, parameters_item, flag, flag_item, looks_item};
ghost use Rattle.c_file.specs.Program.{tables_text};
ghost use Rattle.c_file.specs.Program.{digest_number, digest_item, numbers_text, case_head};
ghost use Rattle.c_file.specs.Program.{case_text, cases_from, code_text};

use crate::entry::Entry;
use crate::pieces::{Wording, push_all};
use c_print::print_functions;
use nvm_base::Text;
use pm_machine::Function;
use pool_layout::{Sizes, Wanted};
use std::alloc::{AllocError, Global};

pub const NUMBERS_BEGIN: &str = "/* The program's numbers. */
enum {
";

pub const DIGEST: &str = "static const uint64_t cn_digest[4] = {";

/// The tables of the transactions, by their numbers.
pub const PARAMETERS: &str = "static const unsigned char cn_parameters[] = {";

pub const ROLLS_BACK: &str = "0};
static const unsigned char cn_rolls_back[] = {";

pub const LOOKS: &str = "0};
static const unsigned char cn_looks[] = {";

pub const FUNCTIONS: &str = r#"
/* ---------------------------------------------------------------- the program's functions
   A line for each of the machine's instructions, in its place: r is a register, L a place. */

#pragma GCC diagnostic ignored "-Wunused-label"
#pragma GCC diagnostic ignored "-Wunused-variable"
#pragma GCC diagnostic ignored "-Wunused-parameter"
#pragma GCC diagnostic ignored "-Wunused-but-set-variable"
#pragma GCC diagnostic ignored "-Wtautological-compare"
#ifdef __clang__
#pragma GCC diagnostic ignored "-Wself-assign"
#endif

"#;

pub const RUN_BEGINS: &str = "
static uint64_t cn_run(struct cn_pool *p, uint64_t tx, const uint64_t *args) {
    switch (tx) {
";

pub const RUN_ENDS: &str = "    default: return 0;
    }
}
";

#[tactic(auto, unfolding(crate::specs::Program::number_line))]
fn push_number(alloc: Global, text: &mut Text, name: &str, n: u64) -> Result<(), AllocError>
    ensures { OnOk result (text.new ≡ text.old ++ number_line name.now n) }
{
    let piece = format!(in alloc; "{n},\n")?;
    text.push(name)?;
    text.push(piece.as_str())
}

#[tactic(auto, unfolding(crate::specs::Program::five_sizes))]
fn push_five(
    alloc: Global,
    text: &mut Text,
    slots: u64,
    records: u64,
    root_words: u64,
    slot_words: u64,
    ticks: u64,
) -> Result<(), AllocError>
    ensures { OnOk result (text.new
        ≡ text.old ++ five_sizes slots records root_words slot_words ticks) }
{
    push_number(alloc, text, "    CN_SLOTS = ", slots)?;
    push_number(alloc, text, "    CN_LOG = ", records)?;
    push_number(alloc, text, "    CN_ROOT = ", root_words)?;
    push_number(alloc, text, "    CN_SLOT = ", slot_words)?;
    push_number(alloc, text, "    CN_TICKS = ", ticks)?;
    Ok(())
}

fn push_sizes(alloc: Global, text: &mut Text, sizes: &Sizes) -> Result<(), AllocError>
    ensures { OnOk result (text.new ≡ text.old ++ sizes_text sizes.now) }
{
    push_five(
        alloc,
        text,
        sizes.slots(),
        sizes.records(),
        sizes.root_words(),
        sizes.slot_words(),
        sizes.ticks(),
    )
}

#[tactic(auto, unfolding(crate::specs::Program::counts_text))]
fn push_counts(
    alloc: Global,
    text: &mut Text,
    txs: u64,
    structs: u64,
    registers: u32,
) -> Result<(), AllocError>
    ensures { OnOk result (text.new ≡ text.old ++ counts_text txs structs registers) }
{
    push_number(alloc, text, "    CN_TRANSACTIONS = ", txs)?;
    push_number(alloc, text, "    CN_STRUCTS = ", structs)?;
    push_number(alloc, text, "    CN_REGISTERS = ", registers as u64)?;
    text.push("};\n")?;
    Ok(())
}

/// The number of registers of the largest function.
fn most_registers(functions: &[Function]) -> u32
    ensures { result ≡ most_registers 0 functions.now }
{
    let mut most = 0;
    for function in functions {
        if most < function.registers {
            most = function.registers;
        }
    }
    most
}

#[tactic(auto, unfolding(crate::specs::Program::digest_number))]
fn push_digest_number(alloc: Global, text: &mut Text, word: u64) -> Result<(), AllocError>
    ensures { OnOk result (text.new ≡ text.old ++ digest_number word) }
{
    let piece = format!(in alloc; "UINT64_C({word}), ")?;
    text.push(piece.as_str())
}

fn push_digest_words(alloc: Global, text: &mut Text, digest: &[i64]) -> Result<(), AllocError>
    ensures { OnOk result (text.new ≡ text.old ++ flat_map digest_item digest.now) }
{
    for word in digest {
        push_digest_number(alloc, text, word.cast_unsigned())?;
    }
    Ok(())
}

#[tactic(auto, unfolding(crate::specs::Program::digest_line))]
fn push_digest(alloc: Global, text: &mut Text, digest: &[i64; 4]) -> Result<(), AllocError>
    ensures { OnOk result (text.new ≡ text.old ++ digest_line digest.now) }
{
    text.push(DIGEST)?;
    push_digest_words(alloc, text, digest.as_slice())?;
    text.push("};\n")?;
    Ok(())
}

fn push_parameters_item(alloc: Global, text: &mut Text, entry: &Entry) -> Result<(), AllocError>
    ensures { OnOk result (text.new ≡ text.old ++ parameters_item entry.now) }
{
    let parameters = entry.parameters;
    let piece = format!(in alloc; "{parameters}, ")?;
    text.push(piece.as_str())
}

fn push_parameters(alloc: Global, text: &mut Text, entries: &[Entry]) -> Result<(), AllocError>
    ensures { OnOk result (text.new ≡ text.old ++ flat_map parameters_item entries.now) }
{
    for entry in entries {
        push_parameters_item(alloc, text, entry)?;
    }
    Ok(())
}

fn push_flag(text: &mut Text, holds: bool) -> Result<(), AllocError>
    ensures { OnOk result (text.new ≡ text.old ++ flag holds) }
{
    if holds {
        text.push("1, ")
    } else {
        text.push("0, ")
    }
}

fn push_flags(text: &mut Text, entries: &[Entry]) -> Result<(), AllocError>
    ensures { OnOk result (text.new ≡ text.old ++ flat_map flag_item entries.now) }
{
    for entry in entries {
        push_flag(text, entry.rolls_back)?;
    }
    Ok(())
}

fn push_looks(text: &mut Text, entries: &[Entry]) -> Result<(), AllocError>
    ensures { OnOk result (text.new ≡ text.old ++ flat_map looks_item entries.now) }
{
    for entry in entries {
        push_flag(text, entry.looks)?;
    }
    Ok(())
}

#[tactic(auto, unfolding(crate::specs::Program::tables_text))]
fn push_tables(alloc: Global, text: &mut Text, entries: &[Entry]) -> Result<(), AllocError>
    ensures { OnOk result (text.new ≡ text.old ++ tables_text entries.now) }
{
    text.push(PARAMETERS)?;
    push_parameters(alloc, text, entries)?;
    text.push(ROLLS_BACK)?;
    push_flags(text, entries)?;
    text.push(LOOKS)?;
    push_looks(text, entries)?;
    text.push("0};\n")
}

/// Writes the program's numbers.
#[tactic(auto, unfolding(crate::specs::Program::numbers_text))]
pub(crate) fn push_numbers(
    alloc: Global,
    text: &mut Text,
    wanted: &Wanted,
    entries: &[Entry],
    functions: &[Function],
) -> Result<(), AllocError>
    ensures { OnOk result (text.new
        ≡ text.old ++ numbers_text wanted.now entries.now functions.now) }
{
    text.push(NUMBERS_BEGIN)?;
    push_sizes(alloc, text, &wanted.sizes)?;
    push_counts(
        alloc,
        text,
        wanted.txs,
        wanted.structs,
        most_registers(functions),
    )?;
    push_digest(alloc, text, &wanted.digest)?;
    push_tables(alloc, text, entries)
}

#[tactic(auto, unfolding(crate::specs::Program::case_head))]
fn push_case_head(
    alloc: Global,
    text: &mut Text,
    number: usize,
    function: u32,
) -> Result<(), AllocError>
    ensures { OnOk result (text.new ≡ text.old ++ case_head number function) }
{
    let piece = format!(in alloc; "    case {number}: return cn_f{function}(p")?;
    text.push(piece.as_str())
}

#[tactic(auto, unfolding(crate::specs::Program::case_text))]
fn push_case(alloc: Global, text: &mut Text, place: usize, entry: &Entry) -> Result<(), AllocError>
    requires { place < 2 ^ 63 }
    ensures { OnOk result (text.new ≡ text.old ++ case_text place entry.now) }
{
    push_case_head(alloc, text, place + 1, entry.function)?;
    push_all(alloc, text, Wording::Element, entry.parameters)?;
    text.push(");\n")?;
    Ok(())
}

/// Writes which function each transaction runs.
fn push_cases(alloc: Global, text: &mut Text, entries: &[Entry]) -> Result<(), AllocError>
    ensures { OnOk result (text.new ≡ text.old ++ cases_from 0 entries.now) }
{
    for (place, entry) in entries.iter().enumerate() {
        push_case(alloc, text, place, entry)?;
    }
    Ok(())
}

/// Writes the program's functions.
#[tactic(auto, unfolding(crate::specs::Program::code_text))]
pub(crate) fn push_code(
    alloc: Global,
    text: &mut Text,
    prefix: &str,
    entries: &[Entry],
    functions: &[Function],
) -> Result<(), AllocError>
    ensures { OnOk result (text.new ≡ text.old ++ code_text prefix.now entries.now functions.now) }
{
    let code = print_functions(alloc, prefix, functions)?;
    text.push(FUNCTIONS)?;
    text.push(code.as_str())?;
    text.push(RUN_BEGINS)?;
    push_cases(alloc, text, entries)?;
    text.push(RUN_ENDS)?;
    Ok(())
}
