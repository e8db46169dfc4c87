//! A trap with its place.

use pool_map::TrapKind;

/// A trap, and the place of the token where it came, counted from 0.
#[derive(Clone, Copy, PartialEq, Eq)]
pub struct TrapAt {
    pub kind: TrapKind,
    pub place: u64,
}
