//! The functions that the header declares.

ghost use Rattle.std.specs.Prelude.{◌≡◌, ◌++◌, ◌<◌, ◌^◌, OnOk};
ghost use Rattle.c_file.specs.File.{making_defined, using_defined, call_text, entry_defined};
ghost use Rattle.c_file.specs.File.{defined_from, outside_text};

use crate::entry::{Entry, push_head};
use crate::header::{CREATE, OPEN};
use crate::pieces::{Wording, push_all, push_twice};
use nvm_base::Text;
use std::alloc::{AllocError, Global};

pub const OUTSIDE: &str = "
/* -------------------------------------------------------------- what the header declares */

";

/// The bodies of the functions on pools.
pub const CREATED: &str = " {
    return cn_create(path, sync, fault);
}

";

pub const OPENED: &str = " {
    return cn_open(path, sync, recovered, fault);
}

";

pub const CLOSED: &str = "_pool *pool) { cn_close(pool); }
";

pub const DONE: &str = "_pool *pool) { return cn_word(pool, CN_DONE); }
";

pub const LAST: &str = "_pool *pool) { return (int64_t)cn_word(pool, CN_LAST); }
";

pub const COUNTS_BEGIN: &str = "
#ifdef CNVM_COUNT
void ";

pub const COUNTS_END: &str = "_pool *pool, uint64_t *events) { cn_events(pool, events); }
#endif
";

/// The body of a transaction's function, up to its arguments.
pub const WORDS: &str = " {
    const uint64_t args[] = {";

#[tactic(auto, unfolding(crate::specs::File::making_defined))]
fn push_making(text: &mut Text, prefix: &str) -> Result<(), AllocError>
    ensures { OnOk result (text.new ≡ text.old ++ making_defined prefix.now) }
{
    push_twice(text, "struct ", "_pool *", CREATE, prefix)?;
    text.push(CREATED)?;
    push_twice(text, "struct ", "_pool *", OPEN, prefix)?;
    text.push(OPENED)
}

#[tactic(auto, unfolding(crate::specs::File::using_defined))]
fn push_using(text: &mut Text, prefix: &str) -> Result<(), AllocError>
    ensures { OnOk result (text.new ≡ text.old ++ using_defined prefix.now) }
{
    push_twice(text, "void ", "_pool_close(struct ", CLOSED, prefix)?;
    push_twice(text, "uint64_t ", "_pool_done(struct ", DONE, prefix)?;
    push_twice(text, "int64_t ", "_pool_last(struct ", LAST, prefix)?;
    push_twice(
        text,
        COUNTS_BEGIN,
        "_pool_events(struct ",
        COUNTS_END,
        prefix,
    )?;
    Ok(())
}

/// Writes the call of a transaction, after its arguments.
#[tactic(auto, unfolding(crate::specs::File::call_text))]
fn push_call(alloc: Global, text: &mut Text, number: usize) -> Result<(), AllocError>
    ensures { OnOk result (text.new ≡ text.old ++ call_text number) }
{
    let piece = format!(in alloc; "0}};\n    return cn_call(pool, {number}, args);\n}}\n")?;
    text.push(piece.as_str())
}

#[tactic(auto, unfolding(crate::specs::File::entry_defined))]
fn push_entry(
    alloc: Global,
    text: &mut Text,
    prefix: &str,
    place: usize,
    entry: &Entry,
) -> Result<(), AllocError>
    requires { place < 2 ^ 63 }
    ensures { OnOk result (text.new ≡ text.old ++ entry_defined prefix.now place entry.now) }
{
    text.push("\n")?;
    push_head(alloc, text, prefix, entry)?;
    text.push(WORDS)?;
    push_all(alloc, text, Wording::Argument, entry.parameters)?;
    push_call(alloc, text, place + 1)?;
    Ok(())
}

/// Writes the function of each transaction.
fn push_entries(
    alloc: Global,
    text: &mut Text,
    prefix: &str,
    entries: &[Entry],
) -> Result<(), AllocError>
    ensures { OnOk result (text.new ≡ text.old ++ defined_from prefix.now 0 entries.now) }
{
    for (place, entry) in entries.iter().enumerate() {
        push_entry(alloc, text, prefix, place, entry)?;
    }
    Ok(())
}

/// Writes the functions that the header declares.
#[tactic(auto, unfolding(crate::specs::File::outside_text))]
pub(crate) fn push_outside(
    alloc: Global,
    text: &mut Text,
    prefix: &str,
    entries: &[Entry],
) -> Result<(), AllocError>
    ensures { OnOk result (text.new ≡ text.old ++ outside_text prefix.now entries.now) }
{
    text.push(OUTSIDE)?;
    push_making(text, prefix)?;
    push_using(text, prefix)?;
    push_entries(alloc, text, prefix, entries)
}
