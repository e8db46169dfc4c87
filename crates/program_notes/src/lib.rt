//! What is told to a person of a program: which token was refused, where, and what to write
//! instead; and the errors of typing after the first. It rests on the front end, and on
//! `plain_notes`, which looks at spelled tokens and lays messages out. Its one contract for the
//! crates above: a message of a program begins with the line and the column of the refused token.
#![tactic(auto)]

mod clash;
mod declared;
mod names;
mod others;
mod program;
mod syntax;
mod trap;
mod typing;

pub use program::program_note;
pub use trap::name_of;
