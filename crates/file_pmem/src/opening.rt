//! The words that a file holds when it is opened.

ghost use Rattle.std.specs.Prelude.{◌≡◌, ◌*◌, IfOk, IsErrOf, length};
ghost use Rattle.nvm_base.specs.Rose.{Rose};
ghost use Rattle.file_pmem.specs.File.{HoldsWords, HoldsNewest};

use crate::file::{FileAnswer, LineFile};
use nvm_base::Words;
use std::alloc::{AllocError, Global};

/// Why the words of a file weren't read.
#[derive(Clone, Copy, Debug, PartialEq, Eq, Drop)]
pub enum Unread {
    /// The file's count of faults rose.
    Failed,
    NoMemory,
}

impl From<AllocError> for Unread {
    ghost from_gives = { λ _ f. f ≡ NoMemory };

    fn from(_: AllocError) -> Self {
        Unread::NoMemory
    }
}

ghost use Rattle.file_pmem.specs.declared.opening.Unread.TheVariants.{NoMemory};

/// Makes all that the file holds safe, and then reads its first lines: what was written and not
/// synced before a process was killed might otherwise be read now and be lost later.
#[tactic(auto, using(crate::proofs::Reading::reading))]
pub fn words_in<F: LineFile>(alloc: Global, file: &mut F, lines: u64) -> Result<Words, Unread>
    ensures has { IfOk result (λ words. HoldsWords (F.content file.new) lines words) }
    ensures newest { IfOk result (λ words. HoldsNewest (F.content file.old) lines words) }
    ensures length { IfOk result (λ words. length words ≡ 8 * lines) }
    ensures failed { IsErrOf result Unread.Failed → Rose (F.faults file.old) (F.faults file.new) }
{
    let FileAnswer::Done = file.sync() else {
        return Err(Unread::Failed);
    };
    let mut words = Words::new(alloc);
    for line in 0..lines {
        let Some(read) = file.read_line(line) else {
            return Err(Unread::Failed);
        };
        words.extend(&read)?;
    }
    Ok(words)
}
