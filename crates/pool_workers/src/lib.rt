//! Several workers on one device: its pool has a compartment for each, which is a whole pool of its
//! own, and a worker's transaction is kept between turns. It rests on `recovery` and the crates
//! below it. Its one contract for the crates above: a turn plays the next piece of the due events
//! of its worker's compartment, or the first events of it up to the refused one, and of these
//! events the other compartments see only the fences.
#![tactic(auto)]

mod answer;
mod creating;
mod lens;
mod look;
mod opening;
mod standing;
mod task;
mod turning;
mod window;
mod workers;

pub use answer::{BeginAnswer, MakeFault, TurnAnswer};
pub use look::Look;
pub use task::Task;
pub use window::{Origin, Window, first_line};
pub use workers::Workers;
