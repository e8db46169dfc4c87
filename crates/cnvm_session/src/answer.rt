//! What a command answers.

use nvm_base::Text;
use pmem::Phase;
use pool_map::TrapKind;

/// The answer of a command.
#[derive(Drop)]
pub enum Answer {
    /// `stop` and `fault` have no answer line.
    Silent,
    /// The transaction ended with this value, whose type is `uint64_t` if `unsigned`; its run wrote
    /// `logged` log records.
    Done {
        value: i64,
        unsigned: bool,
        logged: u64,
    },
    /// The transaction trapped.
    Trap(TrapKind),
    /// The transaction is marked `abort` and trapped: the pool's heap and last value are those from
    /// before the call, and the session stays ready.
    Aborted(TrapKind),
    /// The power went off, with the call's seal in this phase.
    Stopped(Phase),
    /// The device failed.
    DeviceFault,
    /// Nothing was owed.
    RecoveredNone,
    /// The owed transaction was run again, and ended with a value.
    RecoveredRedone {
        value: i64,
        unsigned: bool,
        logged: u64,
    },
    /// The owed transaction was run again, and trapped.
    RecoveredTrap(TrapKind),
    /// The owed transaction is marked `abort`, was run again and trapped: the pool's heap and last
    /// value are those from before it.
    RecoveredAborted(TrapKind),
    /// The lines of the pool.
    Shown(Text),
    /// The lines of a pool that this trap has ended.
    ShownDead {
        kind: TrapKind,
        text: Text,
    },
    /// How many transactions are done, and the value of the last.
    Last {
        done: i64,
        value: i64,
    },
    /// There was no memory for the command.
    NoMemory,
    /// The session is down, and waits for `power`.
    RefusedDown,
    /// A transaction trapped in this pool.
    RefusedUnusable(TrapKind),
    /// No transaction has the name.
    RefusedUnknown,
    /// The transaction takes a different number of arguments.
    RefusedArity,
    /// The number of transactions done, or of attempts, is at its limit.
    RefusedNumbers,
    /// The line of the first pick whose line or version doesn't exist.
    RefusedPick(u64),
}
