//! Intermediate code (three-address code): a program between its tree and the machine. It rests on
//! `pool_map` and `nvm_base`. Its one contract for the crates above: the form of the code, its
//! store sites, and the walks through it.
#![tactic(auto)]

mod fact;
mod function;
mod instruction;
pub mod laws;
mod site;

pub use fact::{Back, Fact, Origins};
pub use function::{Instructions, Ir, IrFunction, IrFunctions};
pub use instruction::{Instruction, Target};
pub use site::{Site, Sites};
