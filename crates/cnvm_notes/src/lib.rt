//! What is told to a person of a script that was refused, and of answers that are traps or
//! refusals. It rests on `cnvm_script` and `workers_script`, and on `plain_notes`, which says what
//! is wrong with a line and lays messages out. Its one contract for the crates above: the message
//! of a refused script begins with its first bad line. The line of a trap is given.
#![tactic(auto)]

mod answers;
mod lines;
mod refused_script;
mod storm;
mod summary;
mod workers;

pub use answers::{RunTexts, answers_note};
pub use refused_script::{line_note, script_note, workers_note};
pub use storm::{BrokenCheck, Stormed, is_storm_over, storm_note};
pub use workers::{WorkersTexts, workers_answers_note};
