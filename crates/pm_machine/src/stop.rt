//! Where a machine stands.

/// A place of a function of the image.
#[derive(Clone, Copy, Debug, PartialEq, Eq)]
pub struct Stop {
    pub function: u32,
    pub place: u64,
}
