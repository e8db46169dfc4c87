//! The lines that answer a command.

ghost use Rattle.std.specs.Prelude.{◌≡◌, ◌++◌, ◌∷◌, [], List, Some};
ghost use Rattle.workers_session.specs.Told.{GivesLines};
ghost use Rattle.workers_session.specs.inside.Turning.{Extends};

use cnvm_session::Answer;
use nvm_base::List;
use std::alloc::Global;

/// A line that answers a command. For the pool of `show` it stands for the lines of the pool.
#[derive(Drop)]
pub enum WorkersLine {
    /// An answer that names its worker.
    Own { worker: u32, answer: Answer },
    /// An answer that names no worker.
    Plain(Answer),
    /// The worker began its transaction.
    Started(u32),
    /// There is no worker with this number.
    RefusedWorker(u32),
    /// The worker has an unfinished transaction.
    RefusedBusy(u32),
    /// The transaction is marked `abort`; no worker runs one.
    RefusedAbort,
}

/// Lines, in their order.
pub type WorkersLines = List<WorkersLine>;

/// No line.
pub(crate) fn no_line(alloc: Global) -> Option<WorkersLines>
    ensures { result ≡ Some [] }
{
    Some(WorkersLines::new(alloc))
}

/// One more line, unless there was no memory for an earlier one.
pub(crate) fn add(told: Option<WorkersLines>, line: WorkersLine) -> Option<WorkersLines>
    ensures { Extends told result (line ∷ []) }
{
    let mut lines = told?;
    match lines.push(line) {
        Ok(()) => Some(lines),
        Err(_) => None,
    }
}

/// A single line.
pub(crate) fn one(alloc: Global, line: WorkersLine) -> Option<WorkersLines>
    ensures { GivesLines result (line ∷ []) }
{
    add(no_line(alloc), line)
}
