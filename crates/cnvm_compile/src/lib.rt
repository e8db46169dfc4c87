//! The compiler: from a program's text to its image, with its code and its marks. It rests on the
//! front end, the passes and `codegen`. Its one contract for the crates above: a text is refused
//! only as a stage of the front end refuses it, or for want of memory; and the program of an
//! accepted text is made from the one tree of its tokens, and agrees with its source.
#![tactic(auto)]

mod asked;
mod compiling;
mod complaint;
mod front_end;
mod laws;
mod lines;
mod listing;
mod told;

pub use asked::Asked;
pub use compiling::{Compiled, compile};
pub use complaint::{Complaint, complaint_line};
pub use front_end::ProgramFault;
pub use laws::answer_law;
pub use lines::line_at;
pub use listing::list_text;
pub use told::{Told, told_of};
