//! Compares the compiled code with what the source means. For each call of each script it runs the
//! compiled transaction and the interpreter of the typed tree on the same pool, and compares the
//! value, the trap and the pool: uncut, and cut after each number of the call's events and
//! recovered. A cut leaves the oldest versions, the newest, or versions in turn; for the last way
//! the recovery is cut as well. After a cut the pool must be that before the call or that of the
//! interpreter; docs/PROTOCOL.md says which. A program is two files, `NAME.c` and `NAME.txt`; of
//! its script only the calls count. After the word `--workers` a program is `NAME.c` and
//! `NAME.workers`, a script of three workers whose last calls take turns in orders that are drawn;
//! they are cut after each number of the events of all three.
#![tactic(auto)]

mod case;
mod course;
mod crew;
mod cuts;
mod drive;
mod picks;
mod rig;
mod tally;
mod texts;
mod turns;

ghost use Rattle.std.specs.Prelude.{◌≡◌, ◌<◌};

use crate::tally::Tally;
use nvm_base::Steps;
use std::marker::Brand;
use std::process::ExitCode;
use std::rt::{Env, Files};
use std::sync::ledger::{Blank, Ledger};
use std::{env, fs, io};

/// What was compared of a program, whose script has this ending.
fn tally_of<R: Files + AllocGlobal, L: Ledger>(
    rt: &R,
    name: &str,
    ending: &'static str,
    steps: &mut Steps<L>,
) -> io::Result<Tally> {
    let alloc = rt.alloc();
    let program_path = format!(in alloc; "{name}.c")?;
    let script_path = format!(in alloc; "{name}.{ending}")?;
    let text = fs::read(rt, program_path.as_str())?;
    let script = fs::read(rt, script_path.as_str())?;
    let tally = if ending == "workers" {
        turns::drive_workers(alloc, &text, &script, steps)?
    } else {
        drive::drive(alloc, &text, &script, steps)?
    };
    Ok(tally)
}

/// Compares one program, and prints its line after its differences.
fn drive_one<R: Files + Print + AllocGlobal, L: Ledger>(
    rt: &R,
    name: &str,
    several: bool,
    steps: &mut Steps<L>,
) -> io::Result<()> {
    let tally = if several {
        tally_of(rt, name, "workers", steps)?
    } else {
        tally_of(rt, name, "txt", steps)?
    };
    let differences = tally.told();
    print!(rt; "{differences}")?;
    let line = tally.line(rt.alloc())?;
    let line = line.as_str();
    if several {
        println!(rt; "{name} workers {line}")
    } else {
        println!(rt; "{name} {line}")
    }
}

/// Compares the programs that the words name.
fn drive_all<R: Files + Print + Env + AllocGlobal, L: Ledger>(
    rt: &R,
    blank: Blank,
) -> io::Result<()>
    requires name { blank.name ≡ L.name }
    requires parts { blank.parts ≡ L.parts }
    requires some { 0 < blank.parts }
{
    let mut steps = Steps::<L>::new(blank);
    let mut names = env::args(rt)?;
    names.next();
    let mut several = false;
    for name in names {
        if name.as_str() == "--workers" {
            several = true;
        } else {
            drive_one(rt, name.as_str(), several, &mut steps)?;
        }
    }
    Ok(())
}

fn drive_words<R: Files + Print + Env + AllocGlobal>(rt: &R) -> io::Result<()> {
    drive_all::<R, Brand>(rt, Blank::new(1))
}

fn main(rt: HostRuntime) -> ExitCode {
    match drive_words(&rt) {
        Ok(()) => ExitCode::from(0),
        Err(_) => ExitCode::from(1),
    }
}
