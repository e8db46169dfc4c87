//! The header.

ghost use Rattle.std.specs.Prelude.{◌≡◌, ◌++◌, OnOk, IfOk, flat_map};
ghost use Rattle.c_file.specs.Header.{guard_text, making_declared, using_declared, entry_declared};
ghost use Rattle.c_file.specs.Header.{declared_text, header_text};

use crate::entry::{Entry, push_head};
use crate::pieces::push_twice;
use crate::types::TYPES;
use nvm_base::Text;
use std::alloc::{AllocError, Global};

/// The guard of a program's declarations, between its prefixes and after them.
pub const GUARD_MIDDLE: &str = "\n#define CNVM_POOL_";

pub const GUARD_LAST: &str = "
#ifdef __cplusplus
extern \"C\" {
#endif

";

pub const HEADER_ENDS: &str = "
#ifdef __cplusplus
}
#endif
#endif
";

/// The heads of the functions that make and open a pool, after the prefix.
pub const CREATE: &str = "_pool_create(const char *path, int sync, struct cnvm_fault *fault)";

pub const OPEN: &str = "_pool_open(const char *path, int sync, struct cnvm_answer *recovered,
    struct cnvm_fault *fault)";

/// The declaration of the function that tells how many events there were, around the prefixes.
pub const COUNTS_FIRST: &str = "#ifdef CNVM_COUNT
/* stores, flushes and fences */
void ";

pub const COUNTS_LAST: &str = "_pool *pool, uint64_t *events);
#endif

";

#[tactic(auto, unfolding(crate::specs::Header::guard_text))]
fn push_guard(text: &mut Text, prefix: &str) -> Result<(), AllocError>
    ensures { OnOk result (text.new ≡ text.old ++ guard_text prefix.now) }
{
    push_twice(text, "#ifndef CNVM_POOL_", GUARD_MIDDLE, GUARD_LAST, prefix)
}

#[tactic(auto, unfolding(crate::specs::Header::making_declared))]
fn push_making(text: &mut Text, prefix: &str) -> Result<(), AllocError>
    ensures { OnOk result (text.new ≡ text.old ++ making_declared prefix.now) }
{
    push_twice(
        text,
        "/* A pool of the program ",
        ". */\nstruct ",
        "_pool;\n\n",
        prefix,
    )?;
    push_twice(text, "struct ", "_pool *", CREATE, prefix)?;
    text.push(";\n")?;
    push_twice(text, "struct ", "_pool *", OPEN, prefix)?;
    text.push(";\n")
}

#[tactic(auto, unfolding(crate::specs::Header::using_declared))]
fn push_using(text: &mut Text, prefix: &str) -> Result<(), AllocError>
    ensures { OnOk result (text.new ≡ text.old ++ using_declared prefix.now) }
{
    push_twice(
        text,
        "void ",
        "_pool_close(struct ",
        "_pool *pool);\n",
        prefix,
    )?;
    push_twice(
        text,
        "uint64_t ",
        "_pool_done(struct ",
        "_pool *pool);\n",
        prefix,
    )?;
    push_twice(
        text,
        "int64_t ",
        "_pool_last(struct ",
        "_pool *pool);\n",
        prefix,
    )?;
    push_twice(
        text,
        COUNTS_FIRST,
        "_pool_events(struct ",
        COUNTS_LAST,
        prefix,
    )?;
    Ok(())
}

#[tactic(auto, unfolding(crate::specs::Header::entry_declared))]
fn push_entry(alloc: Global, text: &mut Text, prefix: &str, entry: &Entry) -> Result<(), AllocError>
    ensures { OnOk result (text.new ≡ text.old ++ entry_declared prefix.now entry.now) }
{
    push_head(alloc, text, prefix, entry)?;
    text.push(";\n")
}

/// Writes the head of each transaction's function.
fn push_entries(
    alloc: Global,
    text: &mut Text,
    prefix: &str,
    entries: &[Entry],
) -> Result<(), AllocError>
    ensures { OnOk result (text.new
        ≡ text.old ++ flat_map (entry_declared prefix.now) entries.now) }
{
    for entry in entries {
        push_entry(alloc, text, prefix, entry)?;
    }
    Ok(())
}

#[tactic(auto, unfolding(crate::specs::Header::declared_text))]
fn push_declared(
    alloc: Global,
    text: &mut Text,
    prefix: &str,
    entries: &[Entry],
) -> Result<(), AllocError>
    ensures { OnOk result (text.new ≡ text.old ++ declared_text prefix.now entries.now) }
{
    push_guard(text, prefix)?;
    push_making(text, prefix)?;
    push_using(text, prefix)?;
    push_entries(alloc, text, prefix, entries)?;
    text.push(HEADER_ENDS)
}

/// Writes the header.
pub(crate) fn push_header(
    alloc: Global,
    text: &mut Text,
    prefix: &str,
    entries: &[Entry],
) -> Result<(), AllocError>
    ensures { OnOk result (text.new ≡ text.old ++ header_text prefix.now entries.now) }
{
    text.push(TYPES)?;
    push_declared(alloc, text, prefix, entries)
}

/// The header of a program with these transactions, whose names begin with a prefix.
pub fn print_header(alloc: Global, prefix: &str, entries: &[Entry]) -> Result<Text, AllocError>
    ensures { IfOk result (λ text. text ≡ header_text prefix.now entries.now) }
{
    let mut text = Text::new(alloc);
    push_header(alloc, &mut text, prefix, entries)?;
    Ok(text)
}
