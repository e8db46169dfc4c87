//! Runs the commands of a script, or a storm, on the pool of a program, and writes the answers;
//! saves the pool as an image. It rests on the session. Its one contract for the call above: the
//! status, the lines written and what the device holds are those that the session's definitions
//! give.
#![tactic(auto)]

mod commands;
mod held;
mod image;
mod moving;
mod runs;
mod status;
mod storm;
mod strict;
mod writing;

pub use held::{CREATED, answer_script, create_held, open_held, run_held, run_new, start_held};
pub use image::{save, words_on};
pub use moving::move_held;
pub use runs::{run_created, run_from};
pub use status::Status;
pub use storm::{StormOrder, Tally, storm_over};
pub use strict::strict_status;
pub use writing::{put, tell};
