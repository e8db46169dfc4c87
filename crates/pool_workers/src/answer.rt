//! The answers of the calls.

use pool_map::TrapKind;

/// Why a pool of compartments couldn't be created. The events before the fault are done.
#[derive(Clone, Copy, Drop)]
pub enum MakeFault {
    /// The device failed at an event.
    Failed,
    NoMemory,
}

/// The answer when a worker is to begin a transaction. Only `Started` changes anything.
#[derive(Clone, Copy, Debug, PartialEq, Eq, Drop)]
pub enum BeginAnswer {
    Started,
    /// The worker has an unfinished transaction.
    Busy,
    /// The compartment has a mark.
    Unusable(TrapKind),
    /// The number of finished transactions or the attempt isn't below 2^62. It never comes for a
    /// transaction that only looks.
    Numbers,
    Off,
    NoMemory,
}

/// The answer of a turn. At `Off`, `Failed` and `NoMemory` the events before the refused one are
/// done.
#[derive(Clone, Copy, Debug, PartialEq, Eq, Drop)]
pub enum TurnAnswer {
    /// The worker has no transaction.
    Idle,
    /// A piece was played, and another follows.
    Went,
    /// The transaction is retired, or only looked; `logged` is the number of words of which its run
    /// has a record.
    Done { value: i64, logged: u64 },
    /// The run trapped, and the mark is durable.
    Trap(TrapKind),
    /// The run trapped. The transaction only looked, so nothing is lost.
    Aborted(TrapKind),
    Off,
    Failed,
    NoMemory,
}
