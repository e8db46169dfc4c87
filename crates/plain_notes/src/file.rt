//! Messages of files.

use crate::told::Told;
use nvm_base::Reason;
use std::alloc::{AllocError, Global};

/// A file that can't be read.
pub fn unread(alloc: Global, path: &str, reason: Option<Reason>) -> Result<Told, AllocError> {
    let why = because(alloc, reason)?;
    of_cause(alloc, path, ": cannot be read: ", why.as_str(), "")
}

/// A file that can't be saved; the file that had its path before stands.
pub fn unsaved(alloc: Global, path: &str, reason: Option<Reason>) -> Result<Told, AllocError> {
    let note =
        "a file that was there before stands as it was; the new one is written beside it first";
    let why = unsaved_because(alloc, reason)?;
    of_cause(alloc, path, ": cannot be saved: ", why.as_str(), note)
}

fn unsaved_because(alloc: Global, reason: Option<Reason>) -> Result<String, AllocError> {
    match reason {
        Some(Reason::NotFound) => String::from_str(alloc, "its folder does not exist"),
        _ => because(alloc, reason),
    }
}

/// Standard output that can't be written.
pub fn unwritten(alloc: Global, reason: Option<Reason>) -> Result<Told, AllocError> {
    let why = because(alloc, reason)?;
    of_cause(
        alloc,
        "standard output",
        ": cannot be written: ",
        why.as_str(),
        "",
    )
}

/// What can't be done with a file, and why.
fn of_cause(
    alloc: Global,
    path: &str,
    what: &str,
    why: &str,
    note: &str,
) -> Result<Told, AllocError> {
    let mut text = String::from_str(alloc, path)?;
    text.push_str(what)?;
    text.push_str(why)?;
    Told::of(alloc, text.as_str(), &[note])
}

/// The reason in words, with the system's number where there are no better ones.
fn because(alloc: Global, reason: Option<Reason>) -> Result<String, AllocError> {
    match reason {
        Some(Reason::Other(Some(number))) => format!(in alloc; "error {number} of the system"),
        Some(reason) => String::from_str(alloc, reason.words()),
        None => String::from_str(alloc, "out of memory"),
    }
}
