//! The message of a script that is refused.

ghost use Rattle.std.specs.Prelude.{◌≡◌, ◌+◌, ◌≤◌, ℕ, IfOk, length, true};
ghost use Rattle.std.specs.Prelude.{option_map, string_bytes};
ghost use Rattle.cnvm_script.specs.Commands.{script_meaning};
ghost use Rattle.workers_script.specs.WorkersGrammar.{workers_script_meaning};
ghost use Rattle.plain_notes.specs.Head.{file_head};
ghost use Rattle.cnvm_notes.specs.RefusedLine.{begins_word, is_between_words, numbered_line};
ghost use Rattle.cnvm_notes.specs.RefusedLine.{TellsLine, TellsScript, long_script};

use cnvm_script::{SCRIPT_BYTES, ScriptFault, next_line, read_script};
use plain_notes::{Place, Told, message_in_line, message_of_file, of_line, of_workers_line};
use std::alloc::{AllocError, Global};
use workers_script::read_workers;

/// The message of a script's text, if it is refused. It begins with the path, the first bad line
/// and the column of a word, but for a text that is too long.
#[tactic(auto, using(crate::proofs::Refused::long, crate::proofs::Refused::at_line, crate::proofs::Refused::nothing))]
pub fn script_note(alloc: Global, path: &str, text: &[u8]) -> Result<Option<String>, AllocError>
    ensures tells { IfOk result (λ note. TellsScript path.now text.now (script_meaning text.now)
        (option_map string_bytes note)) }
{
    if text.len() > SCRIPT_BYTES {
        return Ok(Some(too_long(alloc, path)?));
    }
    match read_script(alloc, text) {
        Ok(_) => Ok(None),
        Err(ScriptFault::BadLine(number)) => {
            Ok(Some(line_note(alloc, path, number, line_at(text, number))?))
        }
        Err(ScriptFault::NoMemory) => Err(AllocError),
    }
}

/// The message of a refused line of this number. It begins with the path, the number and the column
/// of a word.
pub fn line_note(alloc: Global, path: &str, number: u64, line: &[u8]) -> Result<String, AllocError>
    ensures tells { IfOk result (λ s. TellsLine path.now line.now number (string_bytes s)) }
{
    let (at, told) = of_line(alloc, line)?;
    message_of_line(alloc, path, line, number, at, &told)
}

/// The message of the text of a script of workers, if it is refused.
#[tactic(auto, using(crate::proofs::Refused::long, crate::proofs::Refused::at_line, crate::proofs::Refused::nothing))]
pub fn workers_note(alloc: Global, path: &str, text: &[u8]) -> Result<Option<String>, AllocError>
    ensures tells { IfOk result (λ note. TellsScript path.now text.now
        (workers_script_meaning text.now) (option_map string_bytes note)) }
{
    if text.len() > SCRIPT_BYTES {
        return Ok(Some(too_long(alloc, path)?));
    }
    match read_workers(alloc, text) {
        Ok(_) => Ok(None),
        Err(ScriptFault::BadLine(number)) => {
            let line = line_at(text, number);
            let (at, told) = of_workers_line(alloc, line)?;
            Ok(Some(message_of_line(alloc, path, line, number, at, &told)?))
        }
        Err(ScriptFault::NoMemory) => Err(AllocError),
    }
}

fn too_long(alloc: Global, path: &str) -> Result<String, AllocError>
    ensures { IfOk result (λ s. string_bytes s ≡ file_head path.now long_script) }
{
    message_of_file(alloc, path, "the script has more than 1048576 bytes")
}

/// The line of this number, counted from 1.
fn line_at(text: &[u8], number: u64) -> &[u8]
    ensures { result.now ≡ numbered_line text.now number }
{
    let mut rest = text;
    let mut left = number.saturating_sub(1);
    'lines: while !rest.is_empty() {
        let (line, others) = next_line(rest);
        if left == 0 {
            return line;
        }
        left -= 1;
        rest = others;
    }
    rest
}

/// The message of a line of this number, at this byte of it.
fn message_of_line(
    alloc: Global,
    path: &str,
    line: &[u8],
    number: u64,
    at: u64,
    told: &Told,
) -> Result<String, AllocError>
    ensures { IfOk result (λ s. TellsLine path.now line.now number (string_bytes s)) }
{
    let column = word_column(line, at as usize);
    let place = Place {
        line: number,
        column,
    };
    message_in_line(alloc, path, line, place, told)
}

/// The column of the word that begins after `at` bytes of the line; of the line's end if none
/// does.
fn word_column(line: &[u8], at: usize) -> u64
    ensures { (before : ℕ) × ((result ≡ before + 1) × (begins_word line.now before ≡ true)) }
{
    if begins_word(line, at) {
        return at as u64 + 1;
    }
    line.len() as u64 + 1
}

/// Whether a word of the line begins after `at` bytes, or the line ends there.
fn begins_word(line: &[u8], at: usize) -> bool
    ensures value { result ≡ begins_word line.now at }
    ensures within { result ≡ true → at ≤ length line.now }
{
    if at >= line.len() {
        return at == line.len();
    }
    !is_blank(line[at]) && (at == 0 || is_blank(line[at - 1]))
}

fn is_blank(byte: u8) -> bool
    ensures { result ≡ is_between_words byte }
{
    byte == b' ' || byte == b'\t' || byte == b'\r'
}
