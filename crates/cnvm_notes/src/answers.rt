//! The message of answers that are traps or refusals.

use crate::lines::{TrapEnd, after_dead, after_slots, any_tells, first_line, trap_end, unusable};
use crate::summary::{Refusals, push_message, push_refused, unless_empty, with_line};
use cache_model::PickFault;
use cnvm_script::{Command, next_line, read_line};
use plain_notes::{PoolLeft, Told, of_trap, of_unusable_image};
use std::alloc::{AllocError, Global};

/// The texts of a run that came to its end: what it read and what it answered.
#[derive(Clone, Copy)]
pub struct RunTexts<'a> {
    pub program_path: &'a str,
    pub script_path: &'a str,
    pub script: &'a [u8],
    pub answers: &'a [u8],
    /// Whether a pool was opened, so that the answer of its recovery comes first; its path, and
    /// the transaction whose arguments it has.
    pub opened: bool,
    pub image_path: &'a str,
    pub owed: &'a str,
    /// The path under which the pool was saved, or an empty one.
    pub saved: &'a str,
    /// The lines of the program of the first trap that ended the use of the pool, and of the first
    /// that was rolled back.
    pub ended: Option<u64>,
    pub undone: Option<u64>,
    /// Why the first refused pick was refused.
    pub pick: Option<PickFault>,
}

/// What the answers of a script tell: the first trap, the first call that was rolled back, and how
/// many calls were rolled back and commands refused.
#[derive(Drop)]
struct Found {
    trap: Option<Told>,
    undone: Option<Told>,
    undone_calls: u64,
    refusals: Refusals,
    /// The transaction that was called last.
    called: String,
}

/// The message of the answers that a script's commands were given, where one is a trap or a
/// refusal. Where no line tells one, the script isn't read again.
pub fn answers_note(alloc: Global, run: RunTexts<'_>) -> Result<Option<String>, AllocError> {
    if !any_tells(run.answers) {
        return Ok(None);
    }
    let mut found = found_of(alloc);
    let mut left = run.answers;
    if run.opened {
        left = after_opening(alloc, &mut found, run)?;
    }
    let mut rest = run.script;
    let mut number = 0u64;
    'lines: while !rest.is_empty() {
        let (line, others) = next_line(rest);
        number = number.saturating_add(1);
        rest = others;
        let Ok(Some(command)) = read_line(alloc, line) else {
            continue 'lines;
        };
        left = after_command(alloc, &mut found, run, number, command, left)?;
    }
    message(alloc, run, found)
}

/// Nothing is found yet.
fn found_of(alloc: Global) -> Found {
    Found {
        trap: None,
        undone: None,
        undone_calls: 0,
        refusals: Refusals::none(),
        called: String::new(alloc),
    }
}

/// The text of the answers after that of the recovery that opens an image.
fn after_opening<'a>(
    alloc: Global,
    found: &mut Found,
    run: RunTexts<'a>,
) -> Result<&'a [u8], AllocError> {
    let (line, others) = first_line(run.answers);
    if let Some(kind) = unusable(line) {
        let kind = String::from_utf8_lossy(alloc, kind)?;
        found.trap = Some(of_unusable_image(alloc, run.image_path, kind.as_str())?);
        return Ok(others);
    }
    found.called = String::from_str(alloc, run.owed)?;
    after_answer(alloc, found, run, 0, run.answers)
}

/// The text of the answers after that of this command.
fn after_command<'a>(
    alloc: Global,
    found: &mut Found,
    run: RunTexts<'_>,
    number: u64,
    command: Command,
    left: &'a [u8],
) -> Result<&'a [u8], AllocError> {
    let lines = lines_of(&command);
    if let Some(name) = called_by(&command) {
        if !left.starts_with(b"refused ") {
            found.called = String::from_str(alloc, name)?;
        }
    }
    match lines {
        Lines::None => Ok(left),
        Lines::One => after_answer(alloc, found, run, number, left),
        Lines::Pool => {
            let others = after_answer(alloc, found, run, number, after_dead(left))?;
            Ok(after_slots(others))
        }
    }
}

/// The lines of a command's answer.
#[derive(Clone, Copy)]
enum Lines {
    None,
    One,
    /// One, and one for each slot with an object; before these perhaps one of a trap.
    Pool,
}

fn lines_of(command: &Command) -> Lines {
    match command {
        Command::Stop(_) | Command::Fault(_) => Lines::None,
        Command::Show | Command::ShowDead => Lines::Pool,
        Command::Call { .. } | Command::Power(_) | Command::Last => Lines::One,
    }
}

/// The transaction that is called, if the command is a call.
fn called_by(command: &Command) -> Option<&str> {
    match command {
        Command::Call { name, .. } => Some(name.as_str()),
        _ => None,
    }
}

/// The text of the answers after the first line, which answers this line's command.
fn after_answer<'a>(
    alloc: Global,
    found: &mut Found,
    run: RunTexts<'_>,
    number: u64,
    left: &'a [u8],
) -> Result<&'a [u8], AllocError> {
    let (line, others) = first_line(left);
    if let Some(end) = trap_end(line) {
        note_trap(alloc, found, run, number, end)?;
    }
    found.refusals = found.refusals.after(number, line);
    Ok(others)
}

/// Adds the message of a trap, if it is the first of its sort.
fn note_trap(
    alloc: Global,
    found: &mut Found,
    run: RunTexts<'_>,
    number: u64,
    end: TrapEnd<'_>,
) -> Result<(), AllocError> {
    match end.left {
        PoolLeft::Unusable => {
            if found.trap.is_none() {
                found.trap = Some(trapped(alloc, run, number, found, end)?);
            }
        }
        PoolLeft::Restored => {
            found.undone_calls = found.undone_calls.saturating_add(1);
            if found.undone.is_none() {
                found.undone = Some(trapped(alloc, run, number, found, end)?);
            }
        }
    }
    Ok(())
}

/// The message of a trap in the last call.
fn trapped(
    alloc: Global,
    run: RunTexts<'_>,
    number: u64,
    found: &Found,
    end: TrapEnd<'_>,
) -> Result<Told, AllocError> {
    let kind = String::from_utf8_lossy(alloc, end.kind)?;
    let kind = kind.as_str();
    let called = found.called.as_str();
    let told = of_trap(alloc, run.script_path, number, called, kind, end.left)?;
    let line = match end.left {
        PoolLeft::Unusable => run.ended,
        PoolLeft::Restored => run.undone,
    };
    with_line(alloc, told, run.program_path, line)
}

fn message(alloc: Global, run: RunTexts<'_>, found: Found) -> Result<Option<String>, AllocError> {
    let Found {
        trap,
        undone,
        undone_calls,
        refusals,
        called: _called,
    } = found;
    let mut message = String::new(alloc);
    if let Some(undone) = undone {
        let told = with_calls(alloc, undone, undone_calls)?;
        push_message(alloc, &mut message, &told)?;
    }
    if let Some(trap) = trap {
        let told = with_saved(alloc, trap, run.saved)?;
        push_message(alloc, &mut message, &told)?;
    }
    push_refused(alloc, &mut message, run.script_path, refusals, run.pick)?;
    Ok(unless_empty(message))
}

/// The message of the first call that was rolled back.
fn with_calls(alloc: Global, undone: Told, calls: u64) -> Result<Told, AllocError> {
    if calls <= 1 {
        return Ok(undone);
    }
    let note = format!(in alloc; "{calls} calls were rolled back, this one first")?;
    undone.with(alloc, note.as_str())
}

/// The message of a trap that ends the use of the pool.
fn with_saved(alloc: Global, trap: Told, saved: &str) -> Result<Told, AllocError> {
    if saved.is_empty() {
        return Ok(trap);
    }
    let note = format!(in alloc; "{saved} holds this pool now")?;
    trap.with(alloc, note.as_str())
}
