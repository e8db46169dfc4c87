//! Serves a session to lines that come one by one: each is answered before the next is read. It
//! rests on the session, on scripts' lines, on sources and sinks, and on devices over files. Its
//! one contract for the call above: how a serving ended says which lines were answered, and each
//! was answered as `specs/Serves.antt` says.
#![tactic(auto)]

mod answering;
mod bad_lines;
mod line_reader;
mod opening;
mod serving;
mod standing;

pub use bad_lines::{BadLines, NoNotes};
pub use line_reader::{LineReader, ReadLineFault};
pub use opening::{open_served, serve_created, serve_held, serve_made};
pub use serving::{Served, serve};
pub use standing::{InFile, InMemory, Watch};
