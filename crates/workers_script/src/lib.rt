//! The script of several workers on one device: its lines, and their commands. It rests on
//! `cnvm_script`, which has the lines, words, names, numbers and picks. Its one contract for the
//! crates above: `read_workers` gives exactly the commands of the grammar in
//! `specs/WorkersGrammar.antt`, or the first bad line.
#![tactic(auto)]

mod command;
mod read;

pub use command::{WorkerList, WorkersCommand, WorkersScript};
pub use read::{read_workers, read_workers_line};
