//! The program's edge: the words of the command line, files, standard output, a device in memory,
//! and what is told to a person. It rests on `cnvm_cli`, which does the work, and on the crates of
//! messages. Its one contract for the program above: the exit status is that of a call of `cnvm` on
//! these words.
#![tactic(auto)]

mod answer_sink;
mod exit;
mod line_notes;
mod notes;
mod script_source;

pub use exit::{exit_code, run_on};
