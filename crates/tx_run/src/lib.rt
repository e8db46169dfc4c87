//! One call of a transaction: its arguments are sealed, the machine runs, and the call is retired,
//! or, if the run trapped, the pool is marked or the call rolled back. It rests on the machine of
//! `pm_machine` and on the argument record of `args_log`. Its one contract for the crates above: a
//! call plays exactly the events that `specs/Due.antt` gives it, or the first of these up to the
//! one that was refused.
#![tactic(auto)]

mod answer;
mod calling;
mod closing;
mod looking;
mod settling;
mod standing;

pub use answer::{CallAnswer, Settled};
pub use calling::call;
pub use looking::{LookAnswer, look};
pub use settling::settle;
pub use standing::{Standing, assess, is_number, marked_kind};
