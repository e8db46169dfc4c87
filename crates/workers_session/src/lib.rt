//! The commands of a script of workers, run on a pool of compartments, and the lines that answer
//! them. It rests on `pool_workers`, on `workers_script`, and on `cnvm_session` for programs and
//! answers. Its one contract for the crates above: each command does to the workers and the device
//! what `specs/WorkersCommands.antt` says, and `line_text` writes exactly the text of each line.
#![tactic(auto)]

mod line;
mod looking;
mod outcome;
mod session;
mod text;

pub use line::{WorkersLine, WorkersLines};
pub use session::{WorkersSession, create_workers, idle_workers};
pub use text::line_text;
