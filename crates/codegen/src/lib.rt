//! The machine code of intermediate code. It rests on `ir`, on the pieces of `pm_alloc` and on the
//! images of `pm_machine`. Its one contract for the crates above: the image is that of the code's
//! definition, instruction by instruction, with these sizes, transactions and bound.
#![tactic(auto)]

mod addresses;
mod control;
mod emission;
mod fields;
mod functions;
mod instructions;
mod laws;
mod names;

pub use emission::emit;
pub use functions::places_of;
pub use laws::good_law;
