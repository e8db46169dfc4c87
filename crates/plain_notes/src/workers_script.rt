//! Messages of the lines of a script of workers.

use crate::script::{
    Fault, Others, Piece, line_part, no_command, of_alone, of_call, of_shared, of_unknown, told_of,
    words_of,
};
use crate::spelled::{is, is_one};
use crate::told::Told;
use std::alloc::{AllocError, Global};

/// The commands of a script of workers.
const COMMANDS: [&[u8]; 8] = [
    b"start", b"turn", b"finish", b"stop", b"fault", b"power", b"show", b"last",
];

const COMMANDS_NOTE: &str =
    "the commands are `start I NAME A..`, `turn I ..`, `finish`, `show I` and `last I`";

/// What a refused line of a script of workers needs, and the number of bytes of the line before the
/// word at fault.
pub fn of_workers_line(alloc: Global, line: &[u8]) -> Result<(u64, Told), AllocError> {
    let words = words_of(alloc, line)?;
    of_pieces(alloc, line, &words)
}

fn of_pieces(alloc: Global, line: &[u8], words: &[Piece]) -> Result<(u64, Told), AllocError> {
    let Some((first, words)) = words.split_first() else {
        return no_command(alloc);
    };
    let name = line_part(line, first);
    let others = Others { line, words };
    match of_command(name, &others) {
        Some(fault) => told_of(alloc, first.from, &fault),
        None => of_unknown(alloc, first.from, name, &COMMANDS, COMMANDS_NOTE),
    }
}

fn of_command<'a>(name: &'a [u8], others: &Others<'a>) -> Option<Fault<'a>> {
    if is(name, "start") {
        return Some(of_start(others));
    }
    if is(name, "turn") {
        return Some(of_turn(others));
    }
    if is(name, "finish") {
        return Some(of_alone(name, others));
    }
    if is_one(name, &["show", "last"]) {
        return Some(of_worker(name, others));
    }
    if is(name, "call") {
        let what = "`call` is no command of workers";
        let note = "write `start I NAME A..`, and then `turn I`";
        return Some(Fault::new(None, what, note));
    }
    of_shared(name, others)
}

fn of_start<'a>(others: &Others<'a>) -> Fault<'a> {
    if !is_worker(others.word(0)) {
        return no_worker(others, 0, "write `start 0 NAME A..` for the first worker");
    }
    if others.word(1).is_empty() {
        let what = "the name of a transaction is missing";
        return Fault::new(others.from(1), what, "write `start 0 NAME A..`");
    }
    let call = Others {
        line: others.line,
        words: others.words.split_first().map_or(&[][..], |parts| parts.1),
    };
    of_call(&call)
}

fn of_turn<'a>(others: &Others<'a>) -> Fault<'a> {
    for at in 0..others.words.len() {
        if !is_worker(others.word(at)) {
            return no_worker(others, at, TURN_NOTE);
        }
    }
    no_worker(others, 0, TURN_NOTE)
}

const TURN_NOTE: &str = "write `turn 0 1` for a turn of the first worker and one of the second";

fn of_worker<'a>(name: &'a [u8], others: &Others<'a>) -> Fault<'a> {
    if is_worker(others.word(0)) {
        let after = "` takes one number of a worker";
        return Fault::of(others.from(1), name, after, "").remarked(others);
    }
    let note = if is(name, "show") {
        "write `show 0` for the first worker"
    } else {
        "write `last 0` for the first worker"
    };
    no_worker(others, 0, note)
}

/// The word of this place, which is no number of a worker.
fn no_worker<'a>(others: &Others<'a>, at: usize, note: &'static str) -> Fault<'a> {
    let word = others.word(at);
    if word.is_empty() {
        return Fault::new(others.from(at), "the number of a worker is missing", note);
    }
    Fault::of(others.from(at), word, "` is no number of a worker", note).remarked(others)
}

/// Whether a word is one or two digits.
fn is_worker(word: &[u8]) -> bool {
    for byte in word {
        if !byte.is_ascii_digit() {
            return false;
        }
    }
    !word.is_empty() && word.len() <= 2
}
