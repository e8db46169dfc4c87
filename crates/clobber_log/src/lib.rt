//! The undo log, which keeps old values. It rests on `pmem` and `pool_layout`. Its one contract for
//! the crates above: appending a record, restoring the records and resetting the log play exactly
//! the events that `specs/` gives them, or the first of these up to the one that was refused.
#![tactic(auto)]

mod record;
mod renewal;
mod restoring;
mod valid;

pub use record::append_record;
pub use renewal::reset;
pub use restoring::restore;
pub use valid::{attempt, count};
