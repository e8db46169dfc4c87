//! Runs the transactions of a program on a persistent pool: `cnvm run PROGRAM SCRIPT`. It rests on
//! `cnvm_exit`, which does the work, and ends with the status of the run.
#![tactic(auto)]

use std::process::ExitCode;

fn main(rt: HostRuntime) -> ExitCode {
    ExitCode::from(cnvm_exit::exit_code(&rt))
}
