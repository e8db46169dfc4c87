//! Reads the commands of lines and scripts.

ghost use Rattle.std.specs.Prelude.{◌≡◌, ◌∷◌, ◌++◌, map, OnOk, option_to_list};
ghost use Rattle.cnvm_script.specs.Reads.{Gives};
ghost use Rattle.cnvm_script.specs.Commands.{each};
ghost use Rattle.workers_script.specs.WorkersGrammar.{as_worker, worker_number, start_of, turn_of};
ghost use Rattle.workers_script.specs.WorkersGrammar.{power_with, worker_of, workers_command};
ghost use Rattle.workers_script.specs.WorkersGrammar.{workers_meaning, workers_line_meaning};
ghost use Rattle.workers_script.specs.WorkersGrammar.{workers_script_meaning, GivesWorkers};
ghost use Rattle.std.specs.Prelude.{option_and_then};
ghost use Rattle.cnvm_script.specs.Commands.{power_of};

use crate::command::{WorkerList, WorkersCommand, WorkersScript};
use cnvm_script::{
    Command, LineFault, ScriptFault, is_word, next_line, numeral, read_call, read_event,
    read_power, words_of,
};
use std::alloc::{AllocError, Global};

/// The commands of a script of workers, in order. `BadLine` names the first line that isn't in the
/// grammar.
#[tactic(auto, using(crate::proofs::WorkersScripts::after_nothing))]
pub fn read_workers(alloc: Global, bytes: &[u8]) -> Result<WorkersScript, ScriptFault>
    ensures { GivesWorkers result (workers_script_meaning bytes.now) }
{
    let mut script = WorkersScript::new(alloc);
    let mut rest = bytes;
    let mut number = 1u64;
    'lines: while !rest.is_empty() {
        let (line, others) = next_line(rest);
        let read = match read_workers_line(alloc, line) {
            Ok(read) => read,
            Err(LineFault::Bad) => return Err(ScriptFault::BadLine(number)),
            Err(LineFault::NoMemory) => return Err(ScriptFault::NoMemory),
        };
        add(&mut script, read)?;
        rest = others;
        number += 1;
    }
    Ok(script)
}

/// Appends a line's command, if the line has one.
fn add(script: &mut WorkersScript, read: Option<WorkersCommand>) -> Result<(), AllocError>
    ensures { OnOk result (script.new ≡ script.old ++ option_to_list read) }
{
    match read {
        Some(command) => script.push(command),
        None => Ok(()),
    }
}

/// The command of a line, or `None` for a line without words and for a remark.
pub fn read_workers_line(alloc: Global, line: &[u8]) -> Result<Option<WorkersCommand>, LineFault>
    ensures { Gives result (workers_line_meaning line.now) }
{
    let words = words_of(alloc, line)?;
    match words.as_slice() {
        [] => Ok(None),
        [word, others @ ..] => read_words(alloc, word, others),
    }
}

/// The command of a line's words.
fn read_words(
    alloc: Global,
    word: &[u8],
    others: &[&[u8]],
) -> Result<Option<WorkersCommand>, LineFault>
    ensures { Gives result (workers_meaning (word.now ∷ map (λ word. word.now) others.now)) }
{
    if !word.is_empty() && word[0] == b'#' {
        return Ok(None);
    }
    match read_command(alloc, word, others) {
        Ok(command) => Ok(Some(command)),
        Err(fault) => Err(fault),
    }
}

/// The command that the word names.
fn read_command(alloc: Global, word: &[u8], others: &[&[u8]]) -> Result<WorkersCommand, LineFault>
    ensures { Gives result (workers_command word.now (map (λ word. word.now) others.now)) }
{
    if is_word(word, "start") {
        return read_start(alloc, others);
    }
    if is_word(word, "turn") {
        return read_turn(alloc, others);
    }
    if is_word(word, "finish") && others.is_empty() {
        return Ok(WorkersCommand::Finish);
    }
    if is_word(word, "stop") {
        return Ok(WorkersCommand::Stop(read_event(others)?));
    }
    if is_word(word, "fault") {
        return Ok(WorkersCommand::Fault(read_event(others)?));
    }
    if is_word(word, "power") {
        return read_cut(alloc, others);
    }
    if is_word(word, "show") {
        return Ok(WorkersCommand::Show(read_worker(others)?));
    }
    if is_word(word, "last") {
        return Ok(WorkersCommand::Last(read_worker(others)?));
    }
    Err(LineFault::Bad)
}

fn as_worker(number: u64) -> Option<u32>
    ensures { result ≡ as_worker number }
{
    u32::try_from(number).ok()
}

/// The number of a worker.
fn worker_number(word: &[u8]) -> Option<u32>
    ensures { result ≡ worker_number word.now }
{
    as_worker(numeral(word, 2)?)
}

/// The single number after `show` and `last`.
fn read_worker(words: &[&[u8]]) -> Result<u32, LineFault>
    ensures { Gives result (worker_of (map (λ word. word.now) words.now)) }
{
    match words {
        [word] => worker_number(word).ok_or(LineFault::Bad),
        _ => Err(LineFault::Bad),
    }
}

/// The worker, the name and the arguments after `start`.
fn read_start(alloc: Global, words: &[&[u8]]) -> Result<WorkersCommand, LineFault>
    ensures { Gives result (start_of (map (λ word. word.now) words.now)) }
{
    let [word, call @ ..] = words else {
        return Err(LineFault::Bad);
    };
    let Some(worker) = worker_number(word) else {
        return Err(LineFault::Bad);
    };
    match read_call(alloc, call)? {
        Command::Call { name, args } => Ok(WorkersCommand::Start { worker, name, args }),
        Command::Stop(_)
        | Command::Fault(_)
        | Command::Power(_)
        | Command::Show
        | Command::ShowDead
        | Command::Last => Err(LineFault::Bad),
    }
}

/// The numbers after `turn`.
fn read_turn(alloc: Global, words: &[&[u8]]) -> Result<WorkersCommand, LineFault>
    ensures { Gives result (turn_of (map (λ word. word.now) words.now)) }
{
    if words.is_empty() {
        return Err(LineFault::Bad);
    }
    Ok(WorkersCommand::Turn(read_list(alloc, words)?))
}

fn read_list(alloc: Global, words: &[&[u8]]) -> Result<WorkerList, LineFault>
    ensures { Gives result (each worker_number (map (λ word. word.now) words.now)) }
{
    let mut workers = WorkerList::new(alloc);
    for word in words {
        let Some(worker) = worker_number(word) else {
            return Err(LineFault::Bad);
        };
        workers.push(worker)?;
    }
    Ok(workers)
}

/// The choice after `power`.
fn read_cut(alloc: Global, words: &[&[u8]]) -> Result<WorkersCommand, LineFault>
    ensures { Gives result (option_and_then power_with
        (power_of (map (λ word. word.now) words.now))) }
{
    match read_power(alloc, words)? {
        Command::Power(choice) => Ok(WorkersCommand::Power(choice)),
        Command::Call { .. }
        | Command::Stop(_)
        | Command::Fault(_)
        | Command::Show
        | Command::ShowDead
        | Command::Last => Err(LineFault::Bad),
    }
}
