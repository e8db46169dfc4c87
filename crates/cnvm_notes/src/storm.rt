//! The message of a storm in which a transaction trapped, or a check was broken.

use crate::lines::{first_line, unusable};
use crate::summary::with_line;
use plain_notes::{message_of, of_broken_check, of_storm_trap};
use std::alloc::{AllocError, Global};

/// The first call of `check` in a storm that didn't give 1: its round, counted from 1, and its
/// text, which may be empty.
#[derive(Clone, Copy)]
pub struct BrokenCheck<'a> {
    pub round: u64,
    pub call: &'a str,
}

/// The call of a storm that trapped: its round, counted from 1, its text, which may be empty, and
/// the line of the program.
#[derive(Clone, Copy)]
pub struct Stormed<'a> {
    pub round: u64,
    pub call: &'a str,
    pub line: Option<u64>,
}

/// Whether a storm's answers tell that a transaction trapped, so that it was over.
pub fn is_storm_over(answers: &[u8]) -> bool {
    kind_of(answers).is_some()
}

/// The trap that ended a storm, if its answers tell one.
fn kind_of(answers: &[u8]) -> Option<&[u8]> {
    let (_, rest) = first_line(answers);
    let (line, last) = first_line(rest);
    if line.starts_with(b"aborted ") {
        return unusable(first_line(last).0);
    }
    unusable(line)
}

/// The message of a storm's answers, where a check was broken or a transaction trapped.
pub fn storm_note(
    alloc: Global,
    program_path: &str,
    answers: &[u8],
    stormed: Stormed<'_>,
    broken: Option<BrokenCheck<'_>>,
) -> Result<Option<String>, AllocError> {
    let trapped = trap_note(alloc, program_path, answers, stormed)?;
    let Some(broken) = broken else {
        return Ok(trapped);
    };
    let told = of_broken_check(alloc, broken.round, broken.call)?;
    let mut message = message_of(alloc, &told)?;
    if let Some(trapped) = trapped {
        message.push_str(trapped.as_str())?;
    }
    Ok(Some(message))
}

/// The message of a storm's answers, where a transaction trapped.
fn trap_note(
    alloc: Global,
    program_path: &str,
    answers: &[u8],
    stormed: Stormed<'_>,
) -> Result<Option<String>, AllocError> {
    let Some(kind) = kind_of(answers) else {
        return Ok(None);
    };
    let kind = String::from_utf8_lossy(alloc, kind)?;
    let told = of_storm_trap(alloc, stormed.round, stormed.call, kind.as_str())?;
    let told = with_line(alloc, told, program_path, stormed.line)?;
    Ok(Some(message_of(alloc, &told)?))
}
