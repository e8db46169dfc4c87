//! The answer of a call.

use pool_map::{Pool, TrapKind};

/// How a transaction ended.
#[derive(Drop)]
pub enum PlainAnswer {
    /// It returned: the pool after it, and its value.
    Done(Pool, i64),
    /// It trapped. Nothing is said of the pool then.
    Trap(TrapKind),
    NoMemory,
}
