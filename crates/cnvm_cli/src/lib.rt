//! The top call: it compiles a program, and then runs a script's commands on its pool and answers
//! each line, or answers lines as they come, lists the program's log marks and their reasons, runs
//! a storm, or prints the program as C or its code. It rests on the words, the compiler and the
//! session. Its one contract for the program above: the status and the lines written are those that
//! the words, the program, the script and the image call for.
#![tactic(auto)]

mod crew_reading;
mod former;
mod instructions;
mod native;
mod pool;
mod reading;
mod reasons;
mod refused;
mod run;
mod serving;
mod traps;
mod workers;
mod workers_pool;
mod world;

pub use cnvm_compile::{Asked, Compiled, ProgramFault, compile, list_text};
pub use cnvm_session::Traps;
pub use cnvm_words::{Plan, WordsFault, plan_of};
pub use refused::push_digest;
pub use run::cnvm;
pub use session_run::Status;
pub use world::World;
