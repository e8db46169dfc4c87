//! The answers of a recovery.

ghost use Rattle.std.specs.Prelude.{◌≡◌};
ghost use Rattle.recovery.specs.inside.Recovered.{redo_answer, clean_answer};

use pmem::{LogAnswer, Phase};
use pool_map::TrapKind;
use tx_run::Settled;

/// The answer of a recovery.
///
/// After `Off`, `Failed` and `NoMemory` the events before the refused one are done. `Off` says
/// whether the pool is sealed; on a device that was off it is `Unsealed`.
#[derive(Clone, Copy, Debug, PartialEq, Eq, Drop)]
pub enum RecoverAnswer {
    /// No call was cut after its seal.
    Clean,
    /// The sealed call ran again and is retired; `logged` is the number of records that it took.
    Redone { value: i64, logged: u64 },
    /// The sealed call trapped, and the mark is durable.
    Trap(TrapKind),
    /// The sealed call trapped, and is rolled back.
    Aborted(TrapKind),
    /// The pool has a mark; there was no event.
    Unusable(TrapKind),
    /// Records are valid and the attempt isn't below 2^62; there was no event.
    Numbers,
    Off(Phase),
    Failed,
    NoMemory,
}

impl RecoverAnswer {
    /// The answer after the sealed call was settled.
    #[tactic(auto, using(std::proofs::lemmas::Int::wraps))]
    pub(crate) fn redone(settled: Settled) -> RecoverAnswer
        ensures { result ≡ redo_answer settled }
    {
        match settled {
            Settled::Done { value, logged } => RecoverAnswer::Redone { value, logged },
            Settled::Trap(kind) => RecoverAnswer::Trap(kind),
            Settled::Aborted(kind) => RecoverAnswer::Aborted(kind),
            Settled::Off => RecoverAnswer::Off(Phase::Sealed),
            Settled::Failed => RecoverAnswer::Failed,
            Settled::NoMemory => RecoverAnswer::NoMemory,
        }
    }

    /// The answer of a recovery that only begins the next attempt.
    pub(crate) fn cleaned(reset: LogAnswer) -> RecoverAnswer
        ensures { result ≡ clean_answer reset }
    {
        match reset {
            LogAnswer::Done => RecoverAnswer::Clean,
            LogAnswer::Off => RecoverAnswer::Off(Phase::Unsealed),
            LogAnswer::Failed => RecoverAnswer::Failed,
            LogAnswer::NoMemory => RecoverAnswer::NoMemory,
        }
    }
}
