//! The effect of a machine step on the pool, as a value.

use pool_map::TrapKind;

/// The effect of one step on heap words and heap lines, both counted from the heap's start. A step
/// without such an effect, and an access outside the heap, is `Quiet`.
#[derive(Clone, Copy, Drop)]
pub enum Effect {
    Loads(u64),
    /// Loads slot headers: from this heap word on, so far apart, this many.
    Scans(u64, u64, u64),
    Stores(u64, i64),
    Logs(u64),
    Flushes(u64),
    Fences,
    Quiet,
}

/// How a run ends.
#[derive(Clone, Copy, PartialEq, Eq, Drop)]
pub enum End {
    Halted(i64),
    Trapped(TrapKind),
}
