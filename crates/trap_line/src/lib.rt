//! The line of the source at which a run of a compiled program stopped. It rests on `lower`, whose
//! code it follows instruction by instruction, and on `codegen`, whose places it reads back. Its
//! one contract for the crates above: the line is that of the token of the instruction in whose
//! code the machine stands.
#![tactic(auto)]

mod expressions;
mod functions;
mod line;
mod spot;
mod statements;

pub use functions::spots_of;
pub use line::trap_line;
pub use spot::{Spot, Spots};
