//! The texts of the lines.

ghost use Rattle.std.specs.Prelude.{◌≡◌, ◌++◌, IfOk, codes};
ghost use Rattle.std.specs.Fmt.{decimal};
ghost use Rattle.cnvm_session.specs.AnswerText.{answer_text};
ghost use Rattle.workers_session.specs.LineText.{line_text};

use crate::line::WorkersLine;
use cnvm_session::{Answer, answer_text};
use nvm_base::Text;
use std::alloc::{AllocError, Global};

/// The text of a line, with its LF, or of the lines of a pool.
pub fn line_text(alloc: Global, line: &WorkersLine) -> Result<Text, AllocError>
    ensures { IfOk result (λ text. text ≡ line_text line.now) }
{
    match line {
        WorkersLine::Own { worker, answer } => own_text(alloc, *worker, answer),
        WorkersLine::Plain(answer) => answer_text(alloc, answer),
        WorkersLine::Started(worker) => started_text(alloc, *worker),
        WorkersLine::RefusedWorker(worker) => stranger_text(alloc, *worker),
        WorkersLine::RefusedBusy(worker) => busy_text(alloc, *worker),
        WorkersLine::RefusedAbort => copied(alloc, "refused abort\n"),
    }
}

/// The worker's number, followed by the text of its answer.
fn own_text(alloc: Global, worker: u32, answer: &Answer) -> Result<Text, AllocError>
    ensures { IfOk result (λ text.
        text ≡ decimal worker ++ (codes " " ++ answer_text answer.now)) }
{
    let own = answer_text(alloc, answer)?;
    let head = format!(in alloc; "{worker} ")?;
    let mut text = Text::new(alloc);
    text.push(head.as_str())?;
    text.push(own.as_str())?;
    Ok(text)
}

fn copied(alloc: Global, line: &str) -> Result<Text, AllocError>
    ensures { IfOk result (λ text. text ≡ line.now) }
{
    let mut text = Text::new(alloc);
    text.push(line)?;
    Ok(text)
}

fn started_text(alloc: Global, worker: u32) -> Result<Text, AllocError>
    ensures { IfOk result (λ text. text ≡ codes "started " ++ (decimal worker ++ codes "\n")) }
{
    let line = format!(in alloc; "started {worker}\n")?;
    copied(alloc, line.as_str())
}

fn stranger_text(alloc: Global, worker: u32) -> Result<Text, AllocError>
    ensures { IfOk result (λ text.
        text ≡ codes "refused worker " ++ (decimal worker ++ codes "\n")) }
{
    let line = format!(in alloc; "refused worker {worker}\n")?;
    copied(alloc, line.as_str())
}

fn busy_text(alloc: Global, worker: u32) -> Result<Text, AllocError>
    ensures { IfOk result (λ text. text ≡ codes "refused busy " ++ (decimal worker ++ codes "\n")) }
{
    let line = format!(in alloc; "refused busy {worker}\n")?;
    copied(alloc, line.as_str())
}
