//! The script that runs a program's transactions: its lines, and their commands. It rests on
//! `c_types`, `cache_model` and `nvm_base`. Its one contract for the crates above: `read_script`
//! gives exactly the commands of the grammar in `specs/Commands.antt`, or the first bad line.
#![tactic(auto)]

mod command;
mod cut;
mod fault;
mod name;
mod number;
mod read;
mod storm;

pub use command::{Command, Script};
pub use cut::{next_line, words_of};
pub use fault::{LineFault, ScriptFault};
pub use number::numeral;
pub use read::{SCRIPT_BYTES, is_word, read_call, read_event, read_line, read_power, read_script};
pub use storm::Storm;
