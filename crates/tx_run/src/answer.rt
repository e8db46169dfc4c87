//! The answers of a call, and of its part after the seal.

ghost use Rattle.std.specs.Prelude.{◌≡◌};
ghost use Rattle.tx_run.specs.inside.Settled.{call_answer};

use pmem::Phase;
use pool_map::TrapKind;

/// The answer of a call.
///
/// After `Off`, `Failed` and `NoMemory` the events before the refused one are done. `Off` says how
/// far the seal had come, which is `Unsealed` if the device was off. `NoMemory` may also come
/// before the first event.
#[derive(Clone, Copy, Debug, PartialEq, Eq, Drop)]
pub enum CallAnswer {
    /// The call is retired; `logged` is the number of records that its run took.
    Done { value: i64, logged: u64 },
    /// The run trapped, and the mark is durable.
    Trap(TrapKind),
    /// The run trapped, and the call is rolled back.
    Aborted(TrapKind),
    Off(Phase),
    Failed,
    /// The pool has a mark; there was no event.
    Unusable(TrapKind),
    /// The number of finished calls or the attempt isn't below 2^62; there was no event.
    Numbers,
    NoMemory,
}

/// How a sealed call was settled: it was retired with the value of its run, or marked with its
/// trap, or rolled back, or a refusal cut it short.
#[derive(Clone, Copy, Drop)]
pub enum Settled {
    Done { value: i64, logged: u64 },
    Trap(TrapKind),
    Aborted(TrapKind),
    Off,
    Failed,
    NoMemory,
}

impl CallAnswer {
    /// The answer of a call that was sealed.
    #[tactic(auto, using(std::proofs::lemmas::Int::wraps))]
    pub(crate) fn of(settled: Settled) -> CallAnswer
        ensures { result ≡ call_answer settled }
    {
        match settled {
            Settled::Done { value, logged } => CallAnswer::Done { value, logged },
            Settled::Trap(kind) => CallAnswer::Trap(kind),
            Settled::Aborted(kind) => CallAnswer::Aborted(kind),
            Settled::Off => CallAnswer::Off(Phase::Sealed),
            Settled::Failed => CallAnswer::Failed,
            Settled::NoMemory => CallAnswer::NoMemory,
        }
    }
}
