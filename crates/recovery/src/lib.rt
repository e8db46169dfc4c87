//! The recovery of a pool after a power cut: the old values of the log are restored, and a call
//! that was cut after its seal is run again. It rests on `tx_run` and on the two logs. Its one
//! contract for the crates above: a recovery plays exactly the events that `specs/Due.antt` gives
//! for the content of the pool, or the first of these up to the one that was refused.
#![tactic(auto)]

mod answer;
mod looking;
mod recovering;

pub use answer::RecoverAnswer;
pub use looking::{Found, look};
pub use recovering::{given, put_back, recover, recover_with};
