//! The answers of a device, and of a list of its events.

ghost use Rattle.std.specs.Prelude.{◌≡◌};
ghost use Rattle.pmem.specs.Answer.{answer_of};

/// The answer of a flush or a fence.
#[derive(Clone, Copy, Drop)]
pub enum Event {
    Done,
    Off,
    Failed,
}

/// The answer of a store.
#[derive(Clone, Copy, Drop)]
pub enum StoreEvent {
    Done,
    Off,
    Failed,
    NoMemory,
}

/// The answer of a list of events: all were done, or some event was the first refused, for this
/// cause.
#[derive(Clone, Copy, Drop)]
pub enum LogAnswer {
    Done,
    Off,
    Failed,
    NoMemory,
}

/// Why an event wasn't done.
#[derive(Clone, Copy, Drop)]
pub enum Refusal {
    Off,
    Failed,
    NoMemory,
}

/// How far the seal of a call has come: no version of its line has it, some versions have it, or
/// all have it.
#[derive(Clone, Copy, Debug, PartialEq, Eq, Drop)]
pub enum Phase {
    Unsealed,
    Sealing,
    Sealed,
}

impl LogAnswer {
    /// The answer for this result of a list of events.
    pub fn of(played: Result<(), Refusal>) -> LogAnswer
        ensures { result ≡ answer_of played }
    {
        match played {
            Ok(()) => LogAnswer::Done,
            Err(Refusal::Off) => LogAnswer::Off,
            Err(Refusal::Failed) => LogAnswer::Failed,
            Err(Refusal::NoMemory) => LogAnswer::NoMemory,
        }
    }
}
