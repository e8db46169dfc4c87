//! Whether a session takes calls.

use pool_map::TrapKind;

/// Whether a session takes calls.
#[derive(Clone, Copy, Drop)]
pub enum Mode {
    Ready,
    /// A command was interrupted; only `power` ends this.
    Down,
    /// A transaction trapped in this pool.
    Unusable(TrapKind),
}
