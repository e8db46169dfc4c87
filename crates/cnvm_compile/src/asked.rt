//! The sizes that a program is compiled for.

/// Slots, log records and ticks. A number outside the limits of a pool stands for the nearest
/// limit.
#[derive(Clone, Copy)]
pub struct Asked {
    pub slots: u64,
    pub records: u64,
    pub ticks: u64,
}
