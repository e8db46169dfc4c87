//! The argument record of a pool, and the line that finishes a call. It rests on `pmem`,
//! `pool_layout` and `pool_map`. Its one contract for the crates above: each call plays exactly the
//! events that `specs/` gives it, or the first of these up to the one that was refused.
#![tactic(auto)]

mod finishing;
mod following_number;
mod laws;
mod reading;
mod sealing;

pub use finishing::{mark_unusable, retire};
pub use laws::call_laws;
pub use reading::{PendingAnswer, pending};
pub use sealing::{SealAnswer, seal};
