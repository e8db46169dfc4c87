//! The message of the answers to a script of workers.

use crate::lines::{TrapEnd, after_slots, first_line, trap_end, worker_answer};
use crate::summary::{Refusals, push_message, push_refused, unless_empty, with_line};
use cache_model::PickFault;
use cnvm_script::{is_word, next_line};
use nvm_base::Text;
use plain_notes::{PoolLeft, Told, of_worker_trap};
use std::alloc::{AllocError, Global};
use workers_script::{WorkersCommand, read_workers_line};

/// The texts of a run of workers that came to its end: what it read and what it answered.
#[derive(Clone, Copy)]
pub struct WorkersTexts<'a> {
    pub program_path: &'a str,
    pub script_path: &'a str,
    pub script: &'a [u8],
    pub answers: &'a [u8],
    /// Whether compartments were opened or made, so that the answers of that come first.
    pub opened: bool,
    /// The lines of the program of the first trap that ended the use of a compartment, and of the
    /// first that left it as it was.
    pub ended: Option<u64>,
    pub undone: Option<u64>,
    /// Why the first refused pick was refused.
    pub pick: Option<PickFault>,
}

/// A worker: its last call, and the line of the script that began it; 0 before the first.
#[derive(Drop)]
struct Worker {
    called: Text,
    line: u64,
}

/// What the answers tell: the first traps, the refusals, and whether the workers are down; and the
/// line of the command at hand.
#[derive(Drop)]
struct Found {
    trap: Option<Told>,
    undone: Option<Told>,
    refusals: Refusals,
    workers: Vec<Worker>,
    down: bool,
    number: u64,
}

/// The most workers that a line can name.
const WORKERS: u64 = 100;

/// The message of the answers that a script of workers was given, where one is a trap or a refusal.
pub fn workers_answers_note(
    alloc: Global,
    run: WorkersTexts<'_>,
) -> Result<Option<String>, AllocError> {
    let mut found = Found {
        trap: None,
        undone: None,
        refusals: Refusals::none(),
        workers: Vec::new(alloc),
        down: false,
        number: 0,
    };
    let mut left = after_opening(alloc, &mut found, run)?;
    let mut rest = run.script;
    'lines: while !rest.is_empty() {
        let (line, others) = next_line(rest);
        found.number = found.number.saturating_add(1);
        rest = others;
        let Ok(Some(command)) = read_workers_line(alloc, line) else {
            continue 'lines;
        };
        left = after_command(alloc, &mut found, run, command, left)?;
    }
    all_answers(alloc, &mut found, run, left)?;
    message(alloc, run, found)
}

/// The answers after those of the opening: `created`, or one for each compartment.
fn after_opening<'a>(
    alloc: Global,
    found: &mut Found,
    run: WorkersTexts<'a>,
) -> Result<&'a [u8], AllocError> {
    if !run.opened {
        return Ok(run.answers);
    }
    let (line, others) = first_line(run.answers);
    if is_word(line, "created") {
        return Ok(others);
    }
    after_turns(alloc, found, run, run.answers)
}

/// Takes the answers that are left.
fn all_answers(
    alloc: Global,
    found: &mut Found,
    run: WorkersTexts<'_>,
    left: &[u8],
) -> Result<(), AllocError> {
    let mut rest = left;
    'answers: while !rest.is_empty() {
        let (line, others) = next_line(rest);
        rest = others;
        found.answer(alloc, run, line)?;
    }
    Ok(())
}

fn message(
    alloc: Global,
    run: WorkersTexts<'_>,
    found: Found,
) -> Result<Option<String>, AllocError> {
    let Found {
        trap,
        undone,
        refusals,
        ..
    } = found;
    let mut message = String::new(alloc);
    if let Some(undone) = undone {
        push_message(alloc, &mut message, &undone)?;
    }
    if let Some(trap) = trap {
        push_message(alloc, &mut message, &trap)?;
    }
    push_refused(alloc, &mut message, run.script_path, refusals, run.pick)?;
    Ok(unless_empty(message))
}

/// The answers after those of this command.
fn after_command<'a>(
    alloc: Global,
    found: &mut Found,
    run: WorkersTexts<'_>,
    command: WorkersCommand,
    left: &'a [u8],
) -> Result<&'a [u8], AllocError> {
    let lines = lines_of(alloc, &command, left)?;
    if let Some(begun) = begun_by(command) {
        return after_start(alloc, found, run, begun, left);
    }
    match lines {
        Lines::None => Ok(left),
        Lines::One => after_one(alloc, found, run, left),
        Lines::Pool => {
            let others = after_one(alloc, found, run, left)?;
            Ok(after_slots(others))
        }
        Lines::Turns => after_turns(alloc, found, run, left),
    }
}

/// The lines of a command's answer.
#[derive(Clone, Copy)]
enum Lines {
    None,
    One,
    /// One, and one for each slot with an object.
    Pool,
    /// Those of turns.
    Turns,
}

fn lines_of(alloc: Global, command: &WorkersCommand, left: &[u8]) -> Result<Lines, AllocError> {
    match command {
        WorkersCommand::Stop(_) | WorkersCommand::Fault(_) => Ok(Lines::None),
        WorkersCommand::Start { .. } | WorkersCommand::Last(_) => Ok(Lines::One),
        WorkersCommand::Show(_) => Ok(Lines::Pool),
        WorkersCommand::Finish => Ok(Lines::Turns),
        WorkersCommand::Power(_) => Ok(one_if(left.starts_with(b"refused pick "))),
        WorkersCommand::Turn(workers) => {
            let answer = first_line(left).0;
            Ok(one_if(is_no_worker(alloc, answer, workers.as_slice())?))
        }
    }
}

/// One line if the command is refused, and else those of turns.
fn one_if(refused: bool) -> Lines {
    if refused { Lines::One } else { Lines::Turns }
}

/// What a `start` begins: a call of this worker.
#[derive(Drop)]
struct Begun {
    worker: u64,
    called: Text,
}

fn begun_by(command: WorkersCommand) -> Option<Begun> {
    match command {
        WorkersCommand::Start {
            worker,
            name,
            args: _args,
        } => Some(Begun {
            worker: u64::from(worker),
            called: name,
        }),
        WorkersCommand::Turn(_workers) => None,
        WorkersCommand::Finish => None,
        WorkersCommand::Stop(_left) => None,
        WorkersCommand::Fault(_at) => None,
        WorkersCommand::Power(_choice) => None,
        WorkersCommand::Show(_worker) => None,
        WorkersCommand::Last(_worker) => None,
    }
}

/// Whether the answer refuses one of these workers as one that there isn't.
fn is_no_worker(alloc: Global, answer: &[u8], workers: &[u32]) -> Result<bool, AllocError> {
    for worker in workers {
        let text = format!(in alloc; "refused worker {worker}")?;
        if answer == text.as_str().as_bytes() {
            return Ok(true);
        }
    }
    Ok(false)
}

/// The answers after that of a `start`.
fn after_start<'a>(
    alloc: Global,
    found: &mut Found,
    run: WorkersTexts<'_>,
    begun: Begun,
    left: &'a [u8],
) -> Result<&'a [u8], AllocError> {
    let Begun { worker, called } = begun;
    let (line, others) = first_line(left);
    let started = format!(in alloc; "started {worker}")?;
    if line == started.as_str().as_bytes() {
        found.start(alloc, worker, called)?;
        return Ok(others);
    }
    if line.starts_with(b"refused ") || is_word(line, "no memory") {
        return after_one(alloc, found, run, left);
    }
    Ok(left)
}

/// The answers after the first one.
fn after_one<'a>(
    alloc: Global,
    found: &mut Found,
    run: WorkersTexts<'_>,
    left: &'a [u8],
) -> Result<&'a [u8], AllocError> {
    let (line, others) = first_line(left);
    found.answer(alloc, run, line)?;
    Ok(others)
}

/// The answers after those of turns: one if the workers are down, since all turns are refused then,
/// and else each line of a worker and of the device.
fn after_turns<'a>(
    alloc: Global,
    found: &mut Found,
    run: WorkersTexts<'_>,
    left: &'a [u8],
) -> Result<&'a [u8], AllocError> {
    if found.down && left.starts_with(b"refused ") {
        return after_one(alloc, found, run, left);
    }
    let mut rest = left;
    'answers: while is_of_turn(first_line(rest).0) && !rest.is_empty() {
        let (line, others) = next_line(rest);
        rest = others;
        found.answer(alloc, run, line)?;
    }
    Ok(rest)
}

/// Whether a turn or a power cut has such an answer.
fn is_of_turn(line: &[u8]) -> bool {
    worker_answer(line).0.is_some() || is_want(line)
}

/// Whether the answer tells that the device failed, or that memory was wanted.
fn is_want(line: &[u8]) -> bool {
    is_word(line, "device fault") || is_word(line, "no memory")
}

impl Found {
    /// The worker begins a call.
    fn start(&mut self, alloc: Global, worker: u64, called: Text) -> Result<(), AllocError> {
        for _ in 0..WORKERS {
            if self.workers.len() as u64 <= worker {
                self.workers.push(Worker {
                    called: Text::new(alloc),
                    line: 0,
                })?;
            }
        }
        if let Some(own) = self.workers.get_mut(worker as usize) {
            own.called = called;
            own.line = self.number;
        }
        Ok(())
    }

    /// Takes an answer.
    fn answer(
        &mut self,
        alloc: Global,
        run: WorkersTexts<'_>,
        line: &[u8],
    ) -> Result<(), AllocError> {
        let (worker, answer) = worker_answer(line);
        self.refusals = self.refusals.after(self.number, answer);
        if is_want(answer) || answer.starts_with(b"stopped ") {
            self.down = true;
        }
        match worker {
            Some(worker) => self.answer_of(alloc, run, worker, answer),
            None => Ok(()),
        }
    }

    /// Takes an answer of this worker.
    fn answer_of(
        &mut self,
        alloc: Global,
        run: WorkersTexts<'_>,
        worker: u64,
        answer: &[u8],
    ) -> Result<(), AllocError> {
        if answer.starts_with(b"recovered ") || answer.starts_with(b"refused ") {
            self.down = false;
        }
        match trap_end(answer) {
            Some(end) => self.trapped(alloc, run, worker, end),
            None => Ok(()),
        }
    }

    /// Adds the message of a trap of this worker, if it is the first of its sort.
    fn trapped(
        &mut self,
        alloc: Global,
        run: WorkersTexts<'_>,
        worker: u64,
        end: TrapEnd<'_>,
    ) -> Result<(), AllocError> {
        let own = self.workers.get(worker as usize);
        match end.left {
            PoolLeft::Unusable => {
                if self.trap.is_none() {
                    self.trap = Some(trapped(alloc, run, own, worker, end)?);
                }
            }
            PoolLeft::Restored => {
                if self.undone.is_none() {
                    self.undone = Some(trapped(alloc, run, own, worker, end)?);
                }
            }
        }
        Ok(())
    }
}

/// The message of a trap of this worker.
fn trapped(
    alloc: Global,
    run: WorkersTexts<'_>,
    own: Option<&Worker>,
    worker: u64,
    end: TrapEnd<'_>,
) -> Result<Told, AllocError> {
    let kind = String::from_utf8_lossy(alloc, end.kind)?;
    let kind = kind.as_str();
    let line = match end.left {
        PoolLeft::Unusable => run.ended,
        PoolLeft::Restored => run.undone,
    };
    let path = run.script_path;
    let told = match own {
        Some(own) => {
            let called = own.called.as_str();
            of_worker_trap(alloc, path, own.line, called, worker, kind, end.left)?
        }
        None => of_worker_trap(alloc, path, 0, "", worker, kind, end.left)?,
    };
    with_line(alloc, told, run.program_path, line)
}
