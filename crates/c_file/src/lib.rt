//! The C file and the header that `cnvm emit` prints: a program's transactions as functions, with
//! the runtime that keeps their pool. It rests on `c_print`. Its one contract for the crates above:
//! both texts are those of their definitions.
#![tactic(auto)]

mod content;
mod entry;
mod events;
mod file;
mod files;
mod header;
mod heap;
mod notice;
mod numbers;
mod outside;
mod pieces;
mod program;
mod protocol;
mod state;
mod types;

pub use entry::Entry;
pub use file::print_file;
pub use header::print_header;
