//! What a message of answers is put together from.

use cache_model::{BadPick, PickFault};
use plain_notes::{Told, message_of};
use std::alloc::{AllocError, Global};

/// Adds a message.
pub(crate) fn push_message(
    alloc: Global,
    message: &mut String,
    told: &Told,
) -> Result<(), AllocError> {
    let text = message_of(alloc, told)?;
    message.push_str(text.as_str())
}

/// The message of a trap, with the line of the program where it came, if it is known.
pub(crate) fn with_line(
    alloc: Global,
    told: Told,
    path: &str,
    line: Option<u64>,
) -> Result<Told, AllocError> {
    match line {
        Some(line) => {
            let note = format!(in alloc; "it came in {path}:{line}")?;
            told.with(alloc, note.as_str())
        }
        None => Ok(told),
    }
}

/// The refused commands: how many, the line of the first, a note on it, which may be empty, and
/// whether it is one of a pick.
#[derive(Clone, Copy)]
pub(crate) struct Refusals {
    count: u64,
    first: u64,
    note: &'static str,
    is_pick: bool,
}

impl Refusals {
    pub(crate) fn none() -> Refusals {
        Refusals {
            count: 0,
            first: 0,
            note: "",
            is_pick: false,
        }
    }

    /// The refusals with the command of this line, whose answer begins with these bytes.
    pub(crate) fn after(self, number: u64, answer: &[u8]) -> Refusals {
        if !answer.starts_with(b"refused ") {
            return self;
        }
        if self.count == 0 {
            return Refusals {
                count: 1,
                first: number,
                note: refusal_note(answer),
                is_pick: answer.starts_with(b"refused pick"),
            };
        }
        Refusals {
            count: self.count.saturating_add(1),
            ..self
        }
    }
}

/// What a refusal means; empty where another message tells it.
fn refusal_note(answer: &[u8]) -> &'static str {
    if answer.starts_with(b"refused unknown") {
        return "the program has no transaction of this name";
    }
    if answer.starts_with(b"refused arity") {
        return "the transaction takes another number of arguments";
    }
    if answer.starts_with(b"refused down") {
        return "the pool waits for `power`";
    }
    if answer.starts_with(b"refused worker") {
        return "there are as many workers as `--workers` says, counted from 0";
    }
    if answer.starts_with(b"refused busy") {
        return "the worker's call hasn't ended yet";
    }
    ""
}

/// What versions the line of a refused pick has.
fn pick_note(alloc: Global, fault: PickFault) -> Result<String, AllocError> {
    match fault {
        PickFault::Falling => {
            String::from_str(alloc, "picks name lines by rising numbers, each once")
        }
        PickFault::Missing(BadPick { line, versions: 0 }) => {
            format!(in alloc; "the pool has no line {line}")
        }
        PickFault::Missing(BadPick { line, versions: 1 }) => {
            format!(in alloc; "line {line} has one version, 0")
        }
        PickFault::Missing(BadPick { line, versions }) => {
            let newest = versions.saturating_sub(1);
            format!(in alloc; "line {line} has {versions} versions, 0 to {newest}")
        }
    }
}

/// Adds the number of refused commands, and the line of the first with its note: of a pick, what
/// versions its line has.
pub(crate) fn push_refused(
    alloc: Global,
    message: &mut String,
    path: &str,
    refusals: Refusals,
    pick: Option<PickFault>,
) -> Result<(), AllocError> {
    if refusals.count == 0 {
        return Ok(());
    }
    let line = refused_line(alloc, path, refusals.first, refusals.count)?;
    message.push_str(line.as_str())?;
    match pick {
        Some(fault) if refusals.is_pick => {
            let note = pick_note(alloc, fault)?;
            push_note(message, note.as_str())
        }
        _ => push_note(message, refusals.note),
    }
}

/// Adds a note as a line of its own, unless it is empty.
fn push_note(message: &mut String, note: &str) -> Result<(), AllocError> {
    if note.is_empty() {
        return Ok(());
    }
    message.push_str("note: ")?;
    message.push_str(note)?;
    message.push_str("\n")
}

fn refused_line(alloc: Global, path: &str, first: u64, refused: u64) -> Result<String, AllocError> {
    if refused == 1 {
        return format!(in alloc; "cnvm: {path}:{first}: a command was refused\n");
    }
    format!(in alloc; "cnvm: {path}:{first}: {refused} commands were refused, this one first\n")
}

pub(crate) fn unless_empty(message: String) -> Option<String> {
    if message.is_empty() {
        return None;
    }
    Some(message)
}
