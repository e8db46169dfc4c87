//! The limits of what a pool holds, for the rules of programs and for the layout of pools.

/// The most slots of a pool.
pub const SLOTS: u64 = 1_048_576;

/// The most records of a pool's log.
pub const RECORDS: u64 = 65_536;

/// The most ticks of a call.
pub const TICKS: u64 = 1_000_000;

/// The least words of a slot.
pub const LEAST_SLOT: u64 = 16;

/// The most words of a slot.
pub const MOST_SLOT: u64 = 512;

/// The most field words of an object. A slot has one more, the header.
pub const OBJECT_WORDS: u64 = MOST_SLOT - 1;

/// The most words of the root's struct if something points to it.
pub const POINTED_ROOT: u64 = LEAST_SLOT - 1;

/// The most words of the root.
pub const ROOT_WORDS: u64 = 65_536;

/// The most elements of an array.
pub const ARRAY_LENGTH: u64 = 65_536;
