//! The text of a program's intermediate code: a line for each function, and below it a line for
//! each instruction with its place and its source line. It rests on `ir`, on `site_lines` for
//! names, on `trap_line` for lines and on `clobber_pass` for marks. Its one contract for the crates
//! above: the text is exactly that of the code and its marks.
#![tactic(auto)]

mod functions;
mod instructions;
mod lines;
mod operands;

pub use functions::code_text;
