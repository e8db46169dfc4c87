//! The texts of the answers.

ghost use Rattle.std.specs.Prelude.{◌≡◌, ◌++◌, IfOk, codes};
ghost use Rattle.std.specs.Fmt.{decimal, signed_decimal};
ghost use Rattle.pool_map.specs.PoolText.{word_text};
ghost use Rattle.pool_map.specs.Trap.{trap_name};
ghost use Rattle.cnvm_session.specs.AnswerText.{answer_text, phase_name};

use crate::answer::Answer;
use nvm_base::Text;
use pmem::Phase;
use std::alloc::{AllocError, Global};

/// The text of an answer: its line with the LF, nothing for `Silent`, and the pool's lines for
/// `Shown`, and for `ShownDead` after a line of their own.
pub fn answer_text(alloc: Global, answer: &Answer) -> Result<Text, AllocError>
    ensures { IfOk result (λ text. text ≡ answer_text answer.now) }
{
    match answer {
        Answer::Silent => text_of(alloc, ""),
        Answer::Done {
            value,
            unsigned,
            logged,
        } => number_text(alloc, "= ", *value, *unsigned, *logged),
        Answer::Trap(kind) => name_text(alloc, "trap ", kind.name()),
        Answer::Aborted(kind) => name_text(alloc, "aborted ", kind.name()),
        Answer::Stopped(phase) => name_text(alloc, "stopped ", phase_name(*phase)),
        Answer::DeviceFault => text_of(alloc, "device fault\n"),
        Answer::RecoveredNone => text_of(alloc, "recovered none\n"),
        Answer::RecoveredRedone {
            value,
            unsigned,
            logged,
        } => number_text(alloc, "recovered redone ", *value, *unsigned, *logged),
        Answer::RecoveredTrap(kind) => name_text(alloc, "recovered trap ", kind.name()),
        Answer::RecoveredAborted(kind) => name_text(alloc, "recovered aborted ", kind.name()),
        Answer::Shown(lines) => text_of(alloc, lines.as_str()),
        Answer::ShownDead { kind, text } => dead_text(alloc, kind.name(), text.as_str()),
        Answer::Last { done, value } => last_text(alloc, *done, *value),
        Answer::NoMemory => text_of(alloc, "no memory\n"),
        Answer::RefusedDown => text_of(alloc, "refused down\n"),
        Answer::RefusedUnusable(kind) => name_text(alloc, "refused unusable ", kind.name()),
        Answer::RefusedUnknown => text_of(alloc, "refused unknown\n"),
        Answer::RefusedArity => text_of(alloc, "refused arity\n"),
        Answer::RefusedNumbers => text_of(alloc, "refused numbers\n"),
        Answer::RefusedPick(line) => pick_text(alloc, *line),
    }
}

/// The name of a phase, as answers print it.
fn phase_name(phase: Phase) -> &'static str
    ensures { result.now ≡ phase_name phase }
{
    match phase {
        Phase::Unsealed => "unsealed",
        Phase::Sealing => "sealing",
        Phase::Sealed => "sealed",
    }
}

/// A copy of a text.
pub(crate) fn text_of(alloc: Global, line: &str) -> Result<Text, AllocError>
    ensures { IfOk result (λ text. text ≡ line.now) }
{
    let mut text = Text::new(alloc);
    text.push(line)?;
    Ok(text)
}

/// The head, followed by the name.
fn name_text(alloc: Global, head: &str, name: &str) -> Result<Text, AllocError>
    ensures { IfOk result (λ text. text ≡ head.now ++ (name.now ++ codes "\n")) }
{
    let mut text = text_of(alloc, head)?;
    text.push(name)?;
    text.push("\n")?;
    Ok(text)
}

/// The line of the trap, followed by the pool's lines.
fn dead_text(alloc: Global, name: &str, lines: &str) -> Result<Text, AllocError>
    ensures { IfOk result (λ text.
        text ≡ codes "dead " ++ (name.now ++ (codes "\n" ++ lines.now))) }
{
    let mut text = text_of(alloc, "dead ")?;
    text.push(name)?;
    text.push("\n")?;
    text.push(lines)?;
    Ok(text)
}

/// The head, followed by a value and the number of log records.
fn number_text(
    alloc: Global,
    head: &str,
    value: i64,
    unsigned: bool,
    logged: u64,
) -> Result<Text, AllocError>
    ensures { IfOk result (λ text.
        text ≡ head.now ++ (word_text unsigned value
        ++ (codes " log " ++ (decimal logged ++ codes "\n")))) }
{
    let line = if unsigned {
        let value = value.cast_unsigned();
        format!(in alloc; "{head}{value} log {logged}\n")?
    } else {
        format!(in alloc; "{head}{value} log {logged}\n")?
    };
    Ok(Text::of(line))
}

fn last_text(alloc: Global, done: i64, value: i64) -> Result<Text, AllocError>
    ensures { IfOk result (λ text.
        text ≡ codes "last " ++ (signed_decimal done
        ++ (codes " " ++ (signed_decimal value ++ codes "\n")))) }
{
    let line = format!(in alloc; "last {done} {value}\n")?;
    Ok(Text::of(line))
}

fn pick_text(alloc: Global, line: u64) -> Result<Text, AllocError>
    ensures { IfOk result (λ text. text ≡ codes "refused pick " ++ (decimal line ++ codes "\n")) }
{
    let line = format!(in alloc; "refused pick {line}\n")?;
    Ok(Text::of(line))
}
