//! What the command line asks for. It rests on `clap`, which reads the words, on `cnvm_script` for
//! numerals, and on `nvm_base`. Its one contract for the crates above: `plan_of` gives exactly the
//! plan of the words: `clap` reads them, and then each number is read.
#![tactic(auto)]

mod command;
mod plan;
mod prefix;
mod prints;
mod read;

pub use plan::{Plan, WordsFault};
pub use read::plan_of;
