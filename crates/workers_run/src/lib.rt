//! A script of workers, run on a new pool of compartments or on those of a file: each command is
//! done, and its lines are written, before the next. It rests on `workers_session`, and on
//! `session_run` for what both write of a file. Its one contract for the crates above: what
//! `run_workers`, `run_held` and `run_new` do and write is one chain of commands, as
//! `specs/WorkersRan.antt` and `specs/WorkersHeld.antt` say.
#![tactic(auto)]

mod fault;
mod held;
mod run;
mod writing;

pub use fault::RunFault;
pub use held::{create_held, crew_lines, run_held, run_new};
pub use run::run_workers;
