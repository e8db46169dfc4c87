//! The C file of a compiled program, and its header. It rests on `c_file`, which prints both, and
//! on `cnvm_compile`. Its one contract for the crates above: the text is made of the image's own
//! parts, each transaction of the image under the name of its source.
#![tactic(auto)]

mod emitting;
mod entries;
mod laws;
mod name;

pub use emitting::emit_text;
pub use laws::names_law;
