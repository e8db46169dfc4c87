//! The traps and refused picks that a run answered: what, where its machine stopped, and which
//! versions there were. It is data for a message; no answer, no byte written and no status depends
//! on it.

use crate::answer::Answer;
use crate::session::Session;
use cache_model::PickFault;
use cnvm_script::Command;
use pm_machine::Stop;
use pool_map::TrapKind;
use std::alloc::Global;

/// A trap, where the machine stopped, and the line of the source there, once it is looked up.
#[derive(Clone, Copy)]
pub struct Trapped {
    pub kind: TrapKind,
    pub stop: Option<Stop>,
    pub line: Option<u64>,
}

/// A call of a storm: its round, counted from 1, and its text, if there was memory for it.
#[derive(Drop)]
pub struct StormCall {
    pub round: u64,
    pub call: Option<String>,
}

/// The first trap that ended the use of the pool, and the first that was rolled back; of a storm
/// also the round of the first, counted from 1, and the call, and the first call of `check` that
/// wasn't 1.
#[derive(Drop)]
pub struct Traps {
    pub ended: Option<Trapped>,
    pub undone: Option<Trapped>,
    pub round: u64,
    pub call: Option<String>,
    pub broken: Option<StormCall>,
    /// Why the first refused pick was refused.
    pub pick: Option<PickFault>,
}

impl Traps {
    /// No trap.
    pub fn new() -> Traps {
        Traps {
            ended: None,
            undone: None,
            round: 0,
            call: None,
            broken: None,
            pick: None,
        }
    }

    /// Takes the answer of a command, of which the session knows where its machine stopped. Tells
    /// whether it is the first that ends the use of the pool.
    pub fn saw(&mut self, answer: &Answer, session: &Session) -> bool {
        match answer {
            Answer::Trap(kind) | Answer::RecoveredTrap(kind) => self.ends(*kind, session.stop()),
            Answer::Aborted(kind) | Answer::RecoveredAborted(kind) => {
                self.undoes(*kind, session.stop());
                false
            }
            Answer::RefusedPick(_) => {
                self.refuses(session.pick_fault());
                false
            }
            _ => false,
        }
    }

    /// A trap that ended the use of a pool.
    pub fn ends(&mut self, kind: TrapKind, stop: Option<Stop>) -> bool {
        if self.ended.is_some() {
            return false;
        }
        self.ended = Some(trap_at(kind, stop));
        true
    }

    /// A trap that was rolled back.
    pub fn undoes(&mut self, kind: TrapKind, stop: Option<Stop>) {
        if self.undone.is_none() {
            self.undone = Some(trap_at(kind, stop));
        }
    }

    /// A pick that was refused.
    pub fn refuses(&mut self, fault: Option<PickFault>) {
        if self.pick.is_none() {
            self.pick = fault;
        }
    }

    /// Takes the answer of a command of a storm's round: `commands` are the round's up to it.
    pub fn saw_in_round(
        &mut self,
        alloc: Global,
        answer: &Answer,
        session: &Session,
        round: u64,
        commands: &[Command],
    ) {
        if self.saw(answer, session) {
            self.round = round;
            self.call = last_call(alloc, commands);
        }
    }

    /// Takes a broken check of a storm's round: `commands` are the round's up to it.
    pub fn saw_broken(&mut self, alloc: Global, round: u64, commands: &[Command]) {
        if self.broken.is_none() {
            let call = last_call(alloc, commands);
            self.broken = Some(StormCall { round, call });
        }
    }
}

fn trap_at(kind: TrapKind, stop: Option<Stop>) -> Trapped {
    Trapped {
        kind,
        stop,
        line: None,
    }
}

/// The last call of these commands, as a script has it. None too if there was no memory for it.
fn last_call(alloc: Global, commands: &[Command]) -> Option<String> {
    let mut last = None;
    for command in commands {
        if let Command::Call { .. } = command {
            last = Some(command);
        }
    }
    match last {
        Some(Command::Call { name, args }) => call_text(alloc, name.as_str(), args.as_slice()),
        _ => None,
    }
}

fn call_text(alloc: Global, name: &str, args: &[i64]) -> Option<String> {
    let mut text = String::from_str(alloc, name).ok()?;
    for arg in args {
        let word = format!(in alloc; " {arg}").ok()?;
        text.push_str(word.as_str()).ok()?;
    }
    Some(text)
}
