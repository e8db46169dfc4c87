//! Reading the commands of lines and scripts.

ghost use Rattle.std.specs.Prelude.{◌≡◌, ◌∷◌, ◌++◌, map, bytes_eq, OnOk, option_to_list};
ghost use Rattle.cnvm_script.specs.Commands.{alone, call_command, choice_of, command, each};
ghost use Rattle.cnvm_script.specs.Commands.{event_of, if_dead, line_meaning, meaning, power_of};
ghost use Rattle.cnvm_script.specs.Commands.{rise, script_meaning, show_of};
ghost use Rattle.cnvm_script.specs.Number.{argument, pick};
ghost use Rattle.cnvm_script.specs.Reads.{Gives, GivesScript};

use crate::command::{Command, Script};
use crate::cut::{next_line, words_of};
use crate::fault::{LineFault, ScriptFault};
use crate::name::{Names, name_of};
use crate::number::{argument, event_number, pick};
use cache_model::{Choice, Pick, Picks, Rest};
use nvm_base::Words;
use std::alloc::{AllocError, Global};

/// The most bytes of a script that is run.
pub const SCRIPT_BYTES: usize = 1_048_576;

/// The commands of a script, in order. `BadLine` names the first line that isn't in the grammar.
#[tactic(auto, using(crate::proofs::Scripts::after_nothing))]
pub fn read_script(alloc: Global, bytes: &[u8]) -> Result<Script, ScriptFault>
    ensures { GivesScript result (script_meaning bytes.now) }
{
    let mut script = Script::new(alloc);
    let mut names = Names::new(alloc);
    let mut rest = bytes;
    let mut number = 1u64;
    'lines: while !rest.is_empty() {
        let (line, others) = next_line(rest);
        let read = match read_after(alloc, &mut names, line) {
            Ok(read) => read,
            Err(LineFault::Bad) => return Err(ScriptFault::BadLine(number)),
            Err(LineFault::NoMemory) => return Err(ScriptFault::NoMemory),
        };
        add(&mut script, read)?;
        rest = others;
        number += 1;
    }
    Ok(script)
}

/// Appends a line's command, if the line has one.
fn add(script: &mut Script, read: Option<Command>) -> Result<(), AllocError>
    ensures { OnOk result (script.new ≡ script.old ++ option_to_list read) }
{
    match read {
        Some(command) => script.push(command),
        None => Ok(()),
    }
}

/// The command of a line, or `None` for a line without words and for a remark.
pub fn read_line(alloc: Global, line: &[u8]) -> Result<Option<Command>, LineFault>
    ensures { Gives result (line_meaning line.now) }
{
    let mut names = Names::new(alloc);
    read_after(alloc, &mut names, line)
}

/// The same, after these names were read.
fn read_after(alloc: Global, names: &mut Names, line: &[u8]) -> Result<Option<Command>, LineFault>
    ensures { Gives result (line_meaning line.now) }
{
    let words = words_of(alloc, line)?;
    match words.as_slice() {
        [] => Ok(None),
        [word, others @ ..] => read_words(alloc, names, word, others),
    }
}

/// The command of a line's words.
fn read_words(
    alloc: Global,
    names: &mut Names,
    word: &[u8],
    others: &[&[u8]],
) -> Result<Option<Command>, LineFault>
    ensures { Gives result (meaning (word.now ∷ map (λ word. word.now) others.now)) }
{
    if !word.is_empty() && word[0] == b'#' {
        return Ok(None);
    }
    match read_command(alloc, names, word, others) {
        Ok(command) => Ok(Some(command)),
        Err(fault) => Err(fault),
    }
}

/// The command that the word names.
fn read_command(
    alloc: Global,
    names: &mut Names,
    word: &[u8],
    others: &[&[u8]],
) -> Result<Command, LineFault>
    ensures { Gives result (command word.now (map (λ word. word.now) others.now)) }
{
    if is_word(word, "call") {
        return call_of(alloc, names, others);
    }
    if is_word(word, "stop") {
        return Ok(Command::Stop(read_event(others)?));
    }
    if is_word(word, "fault") {
        return Ok(Command::Fault(read_event(others)?));
    }
    if is_word(word, "power") {
        return read_power(alloc, others);
    }
    if is_word(word, "show") {
        return read_show(others);
    }
    if is_word(word, "last") && others.is_empty() {
        return Ok(Command::Last);
    }
    Err(LineFault::Bad)
}

/// Whether a word is this text.
pub fn is_word(word: &[u8], text: &str) -> bool
    ensures { result ≡ bytes_eq word.now text.now }
{
    word == text.as_bytes()
}

/// The command of the words after `show`.
fn read_show(words: &[&[u8]]) -> Result<Command, LineFault>
    ensures { Gives result (show_of (map (λ word. word.now) words.now)) }
{
    match words {
        [] => Ok(Command::Show),
        [word] => if_dead(word),
        _ => Err(LineFault::Bad),
    }
}

/// The command of `show` with this word.
fn if_dead(word: &[u8]) -> Result<Command, LineFault>
    ensures { Gives result (if_dead word.now) }
{
    if is_word(word, "dead") {
        return Ok(Command::ShowDead);
    }
    Err(LineFault::Bad)
}

/// The single number after `stop` and `fault`.
pub fn read_event(words: &[&[u8]]) -> Result<u64, LineFault>
    ensures { Gives result (event_of (map (λ word. word.now) words.now)) }
{
    match words {
        [word] => event_number(word).ok_or(LineFault::Bad),
        _ => Err(LineFault::Bad),
    }
}

/// The name and the arguments after `call`.
pub fn read_call(alloc: Global, words: &[&[u8]]) -> Result<Command, LineFault>
    ensures { Gives result (call_command (map (λ word. word.now) words.now)) }
{
    let mut names = Names::new(alloc);
    call_of(alloc, &mut names, words)
}

/// The same, after these names were read.
fn call_of(alloc: Global, names: &mut Names, words: &[&[u8]]) -> Result<Command, LineFault>
    ensures { Gives result (call_command (map (λ word. word.now) words.now)) }
{
    let [name, args @ ..] = words else {
        return Err(LineFault::Bad);
    };
    let name = name_of(alloc, names, name)?;
    let args = read_args(alloc, args)?;
    Ok(Command::Call { name, args })
}

fn read_args(alloc: Global, words: &[&[u8]]) -> Result<Words, LineFault>
    ensures { Gives result (each argument (map (λ word. word.now) words.now)) }
{
    let mut args = Words::new(alloc);
    for word in words {
        let Some(value) = argument(word) else {
            return Err(LineFault::Bad);
        };
        args.push(value)?;
    }
    Ok(args)
}

/// The choice of a power cut: `old` or `new`, and the picks.
pub fn read_power(alloc: Global, words: &[&[u8]]) -> Result<Command, LineFault>
    ensures { Gives result (power_of (map (λ word. word.now) words.now)) }
{
    let [word, picks @ ..] = words else {
        return Err(LineFault::Bad);
    };
    if is_word(word, "old") {
        return read_choice(alloc, Rest::Old, picks);
    }
    if is_word(word, "new") {
        return read_choice(alloc, Rest::New, picks);
    }
    Err(LineFault::Bad)
}

fn read_choice(alloc: Global, rest: Rest, words: &[&[u8]]) -> Result<Command, LineFault>
    ensures { Gives result (choice_of rest (map (λ word. word.now) words.now)) }
{
    let picks = read_picks(alloc, words)?;
    if !rise(picks.as_slice()) {
        return Err(LineFault::Bad);
    }
    Ok(Command::Power(Choice { rest, picks }))
}

fn read_picks(alloc: Global, words: &[&[u8]]) -> Result<Picks, LineFault>
    ensures { Gives result (each pick (map (λ word. word.now) words.now)) }
{
    let mut picks = Picks::new(alloc);
    for word in words {
        let Some(one) = pick(word) else {
            return Err(LineFault::Bad);
        };
        picks.push(one)?;
    }
    Ok(picks)
}

/// Whether the lines of the picks rise strictly.
fn rise(picks: &[Pick]) -> bool
    ensures { result ≡ rise picks.now }
{
    let [first, others @ ..] = picks else {
        return true;
    };
    let mut line = first.line;
    for pick in others {
        if pick.line <= line {
            return false;
        }
        line = pick.line;
    }
    true
}
