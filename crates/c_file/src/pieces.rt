//! Pieces of text that several parts of the file have.

ghost use Rattle.std.specs.Prelude.{◌≡◌, ◌++◌, OnOk};
ghost use Rattle.c_file.specs.Pieces.{twice, worded, worded_from};

use nvm_base::Text;
use std::alloc::{AllocError, Global};

/// How an argument of a transaction is written: as a word, and out of the record.
#[derive(Clone, Copy)]
pub enum Wording {
    Argument,
    Element,
}

/// Writes three pieces with the prefix of the program's names between them.
#[tactic(auto, unfolding(crate::specs::Pieces::twice))]
pub(crate) fn push_twice(
    text: &mut Text,
    first: &str,
    middle: &str,
    last: &str,
    prefix: &str,
) -> Result<(), AllocError>
    ensures { OnOk result (text.new ≡ text.old ++ twice first.now middle.now last.now prefix.now) }
{
    text.push(first)?;
    text.push(prefix)?;
    text.push(middle)?;
    text.push(prefix)?;
    text.push(last)
}

fn push_argument(alloc: Global, text: &mut Text, k: u32) -> Result<(), AllocError>
    ensures { OnOk result (text.new ≡ text.old ++ worded Wording.Argument k) }
{
    let piece = format!(in alloc; "(uint64_t)a{k}, ")?;
    text.push(piece.as_str())
}

fn push_element(alloc: Global, text: &mut Text, k: u32) -> Result<(), AllocError>
    ensures { OnOk result (text.new ≡ text.old ++ worded Wording.Element k) }
{
    let piece = format!(in alloc; ", args[{k}]")?;
    text.push(piece.as_str())
}

fn push_worded(alloc: Global, text: &mut Text, how: Wording, k: u32) -> Result<(), AllocError>
    ensures { OnOk result (text.new ≡ text.old ++ worded how k) }
{
    match how {
        Wording::Argument => push_argument(alloc, text, k),
        Wording::Element => push_element(alloc, text, k),
    }
}

/// Writes so many arguments, the first one first.
pub(crate) fn push_all(
    alloc: Global,
    text: &mut Text,
    how: Wording,
    count: u32,
) -> Result<(), AllocError>
    ensures { OnOk result (text.new ≡ text.old ++ worded_from how 0 count) }
{
    for k in 0..count {
        push_worded(alloc, text, how, k)?;
    }
    Ok(())
}
