//! The whole file.

ghost use Rattle.std.specs.Prelude.{◌≡◌, ◌++◌, OnOk, IfOk};
ghost use Rattle.c_file.specs.File.{short_name, runtime_words, runtime_files, before_text};
ghost use Rattle.c_file.specs.File.{file_text};

use crate::content::CONTENT;
use crate::entry::Entry;
use crate::events::EVENTS;
use crate::files::FILES;
use crate::header::push_header;
use crate::heap::HEAP;
use crate::notice::NOTICE;
use crate::numbers::NUMBERS;
use crate::outside::push_outside;
use crate::pieces::push_twice;
use crate::program::{push_code, push_numbers};
use crate::protocol::PROTOCOL;
use crate::state::STATE;
use nvm_base::Text;
use pm_machine::Function;
use pool_layout::Wanted;
use std::alloc::{AllocError, Global};

/// Between the prefixes of the line that gives the pool its short name.
pub const SHORT_MIDDLE: &str = "_pool by a short name. */\n#define cn_pool ";

#[tactic(auto, unfolding(crate::specs::File::short_name))]
fn push_short_name(text: &mut Text, prefix: &str) -> Result<(), AllocError>
    ensures { OnOk result (text.new ≡ text.old ++ short_name prefix.now) }
{
    push_twice(
        text,
        "\n/* The runtime calls struct ",
        SHORT_MIDDLE,
        "_pool\n\n",
        prefix,
    )
}

#[tactic(auto, unfolding(crate::specs::File::before_text))]
fn push_before(
    alloc: Global,
    text: &mut Text,
    prefix: &str,
    wanted: &Wanted,
    entries: &[Entry],
    functions: &[Function],
) -> Result<(), AllocError>
    ensures { OnOk result (text.new
        ≡ text.old ++ before_text prefix.now wanted.now entries.now functions.now) }
{
    text.push(NOTICE)?;
    push_header(alloc, text, prefix, entries)?;
    push_short_name(text, prefix)?;
    push_numbers(alloc, text, wanted, entries, functions)
}

#[tactic(auto, unfolding(crate::specs::File::runtime_words))]
fn push_words(text: &mut Text) -> Result<(), AllocError>
    ensures { OnOk result (text.new ≡ text.old ++ runtime_words) }
{
    text.push(STATE)?;
    text.push(EVENTS)?;
    text.push(NUMBERS)?;
    text.push(HEAP)
}

#[tactic(auto, unfolding(crate::specs::File::runtime_files))]
fn push_files(text: &mut Text) -> Result<(), AllocError>
    ensures { OnOk result (text.new ≡ text.old ++ runtime_files) }
{
    text.push(PROTOCOL)?;
    text.push(CONTENT)?;
    text.push(FILES)
}

fn push_file(
    alloc: Global,
    text: &mut Text,
    prefix: &str,
    wanted: &Wanted,
    entries: &[Entry],
    functions: &[Function],
) -> Result<(), AllocError>
    ensures { OnOk result (text.new
        ≡ text.old ++ file_text prefix.now wanted.now entries.now functions.now) }
{
    push_before(alloc, text, prefix, wanted, entries, functions)?;
    push_words(text)?;
    push_files(text)?;
    push_code(alloc, text, prefix, entries, functions)?;
    push_outside(alloc, text, prefix, entries)
}

/// The C file of a program: its names begin with a prefix, its pool must fit `wanted`, and its
/// transactions run these functions of the machine.
pub fn print_file(
    alloc: Global,
    prefix: &str,
    wanted: &Wanted,
    entries: &[Entry],
    functions: &[Function],
) -> Result<Text, AllocError>
    ensures { IfOk result (λ text. text
        ≡ file_text prefix.now wanted.now entries.now functions.now) }
{
    let mut text = Text::new(alloc);
    push_file(alloc, &mut text, prefix, wanted, entries, functions)?;
    Ok(text)
}
