//! How a message is laid out: its head, the line of the text with a caret below, and the notes.

ghost use Rattle.std.specs.Prelude.{◌≡◌, ◌++◌, ℕ, List, IfOk, string_bytes};
ghost use Rattle.plain_notes.specs.Head.{file_head, head_text, plain_head};
ghost use Rattle.plain_notes.specs.Place.{place_of};

use crate::place::{Place, place_of};
use crate::told::Told;
use std::alloc::{AllocError, Global};

/// The most bytes of a line that are shown.
const SHOWN: usize = 160;

/// A message of a place in a text: `PATH:LINE:COLUMN: error: WHAT`, the text's line with a caret
/// below the place, and the notes.
pub fn message_at(
    alloc: Global,
    path: &str,
    text: &[u8],
    start: u64,
    told: &Told,
) -> Result<String, AllocError>
    ensures begins { IfOk result (λ s. (rest : List ℕ) × (string_bytes s
        ≡ head_text path.now (place_of text.now start) (string_bytes told.now.what) ++ rest)) }
{
    let place = place_of(text, start);
    let mut message = head_text(alloc, path, place, told.what.as_str())?;
    let rest = rest_text(alloc, text, start, told)?;
    message.push_str(rest.as_str())?;
    Ok(message)
}

/// The same, of a text of which only the line with the place is given.
pub fn message_in_line(
    alloc: Global,
    path: &str,
    line: &[u8],
    place: Place,
    told: &Told,
) -> Result<String, AllocError>
    ensures begins { IfOk result (λ s. (rest : List ℕ) × (string_bytes s
        ≡ head_text path.now place (string_bytes told.now.what) ++ rest)) }
{
    let mut message = head_text(alloc, path, place, told.what.as_str())?;
    let below = rest_in_line(alloc, line, place.column, told)?;
    message.push_str(below.as_str())?;
    Ok(message)
}

fn head_text(alloc: Global, path: &str, place: Place, what: &str) -> Result<String, AllocError>
    ensures { IfOk result (λ s. string_bytes s ≡ head_text path.now place what.now) }
{
    let Place { line, column } = place;
    format!(in alloc; "{path}:{line}:{column}: error: {what}\n")
}

/// A message without a place: `cnvm: WHAT`, and the notes.
pub fn message_of(alloc: Global, told: &Told) -> Result<String, AllocError>
    ensures begins { IfOk result (λ s. (rest : List ℕ) × (string_bytes s
        ≡ plain_head (string_bytes told.now.what) ++ rest)) }
{
    let mut message = plain_head(alloc, told.what.as_str())?;
    let notes = notes_text(alloc, told)?;
    message.push_str(notes.as_str())?;
    Ok(message)
}

fn plain_head(alloc: Global, what: &str) -> Result<String, AllocError>
    ensures { IfOk result (λ s. string_bytes s ≡ plain_head what.now) }
{
    format!(in alloc; "cnvm: {what}\n")
}

/// A message of a text as a whole: `cnvm: PATH: WHAT`.
pub fn message_of_file(alloc: Global, path: &str, what: &str) -> Result<String, AllocError>
    ensures { IfOk result (λ s. string_bytes s ≡ file_head path.now what.now) }
{
    format!(in alloc; "cnvm: {path}: {what}\n")
}

fn notes_text(alloc: Global, told: &Told) -> Result<String, AllocError> {
    let mut text = String::new(alloc);
    push_notes(alloc, &mut text, told)?;
    Ok(text)
}

/// What comes after the head.
fn rest_text(alloc: Global, text: &[u8], start: u64, told: &Told) -> Result<String, AllocError> {
    let mut rest = String::new(alloc);
    let start = text.len().min(start as usize);
    let (passed, left) = text.split_at(start);
    push_line(alloc, &mut rest, after_last(passed), before_first(left))?;
    push_notes(alloc, &mut rest, told)?;
    Ok(rest)
}

/// What comes after the head, where the column of the line is given.
fn rest_in_line(
    alloc: Global,
    line: &[u8],
    column: u64,
    told: &Told,
) -> Result<String, AllocError> {
    let mut rest = String::new(alloc);
    let start = line.len().min(column.saturating_sub(1) as usize);
    let (before, after) = line.split_at(start);
    push_line(alloc, &mut rest, before, after)?;
    push_notes(alloc, &mut rest, told)?;
    Ok(rest)
}

fn push_notes(alloc: Global, message: &mut String, told: &Told) -> Result<(), AllocError> {
    for note in &told.notes {
        let text = note.as_str();
        let line = format!(in alloc; "note: {text}\n")?;
        message.push_str(line.as_str())?;
    }
    Ok(())
}

/// The bytes after the last LF.
fn after_last(bytes: &[u8]) -> &[u8] {
    let mut line = bytes;
    for (at, byte) in bytes.iter().enumerate() {
        if *byte == b'\n' {
            line = &bytes[at + 1..];
        }
    }
    line
}

/// The bytes before the first LF.
fn before_first(bytes: &[u8]) -> &[u8] {
    for (at, byte) in bytes.iter().enumerate() {
        if *byte == b'\n' {
            return &bytes[..at];
        }
    }
    bytes
}

/// The text's line, whose parts before and after the place these are, and a caret below the place.
fn push_line(
    alloc: Global,
    message: &mut String,
    before: &[u8],
    after: &[u8],
) -> Result<(), AllocError> {
    let skipped = before.len().saturating_sub(SHOWN / 2);
    let before = before.split_at(skipped.min(before.len())).1;
    let after = after.split_at(after.len().min(SHOWN / 2)).0;
    message.push_str("    ")?;
    push_shown(alloc, message, before)?;
    push_shown(alloc, message, after)?;
    message.push_str("\n    ")?;
    push_blanks(alloc, message, before)?;
    message.push_str("^\n")?;
    Ok(())
}

/// The bytes as they are shown: what is no text and what moves the cursor is replaced.
pub fn push_shown(alloc: Global, to: &mut String, bytes: &[u8]) -> Result<(), AllocError> {
    let text = String::from_utf8_lossy(alloc, bytes)?;
    for one in text.as_str().chars() {
        if one == '\t' || !one.is_control() {
            to.push(one)?;
        } else if one != '\r' {
            to.push('\u{fffd}')?;
        }
    }
    Ok(())
}

/// Blanks that are as wide as the bytes where these are shown.
fn push_blanks(alloc: Global, to: &mut String, bytes: &[u8]) -> Result<(), AllocError> {
    let text = String::from_utf8_lossy(alloc, bytes)?;
    for one in text.as_str().chars() {
        if one == '\t' {
            to.push('\t')?;
        } else if one != '\r' {
            to.push(' ')?;
        }
    }
    Ok(())
}
