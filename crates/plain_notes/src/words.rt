//! Messages of the words of the command line.

use crate::layout::push_shown;
use crate::near::nearest;
use crate::script::has;
use std::alloc::{AllocError, Global};

/// A number on the command line: its word, its limits, and what is told of them.
#[derive(Clone, Copy)]
struct Number {
    name: &'static str,
    least: u64,
    most: u64,
    limits: &'static str,
}

const SLOTS: Number = Number {
    name: "--slots",
    least: 1,
    most: 1_048_576,
    limits: "from 1 to 1048576",
};

const LOG: Number = Number {
    name: "--log",
    least: 1,
    most: 65_536,
    limits: "from 1 to 65536",
};

const TICKS: Number = Number {
    name: "--ticks",
    least: 1,
    most: 1_000_000,
    limits: "from 1 to 1000000",
};

const START: Number = Number {
    name: "START",
    least: 0,
    most: 2_147_483_647,
    limits: "from 0 to 2147483647",
};

const COUNT: Number = Number {
    name: "COUNT",
    least: 0,
    most: 20_000,
    limits: "from 0 to 20000",
};

const REACH: Number = Number {
    name: "--reach",
    least: 1,
    most: 1_000_000,
    limits: "from 1 to 1000000",
};

const WORKER_COUNT: Number = Number {
    name: "--workers",
    least: 1,
    most: 8,
    limits: "from 1 to 8",
};

/// The numbers by their words.
const NUMBERS: [Number; 7] = [SLOTS, LOG, TICKS, WORKER_COUNT, START, COUNT, REACH];

/// How the runtime's own names begin, up to a `_`.
const OWN_HEADS: [&[u8]; 4] = [b"cn", b"cnvm", b"CN", b"CNVM"];

/// The options that take no value.
const FLAGS: [&[u8]; 3] = [b"--header", b"--strict", b"--plain"];

/// One command: the names of its places, and its options.
#[derive(Clone, Copy)]
struct Shape {
    name: &'static str,
    places: &'static [&'static str],
    options: &'static [&'static [u8]],
}

const RUN: Shape = Shape {
    name: "run",
    places: &["PROGRAM", "SCRIPT"],
    options: &[
        b"--open",
        b"--save",
        b"--pool",
        b"--from",
        b"--strict",
        b"--slots",
        b"--log",
        b"--ticks",
    ],
};

const LIST: Shape = Shape {
    name: "list",
    places: &["PROGRAM"],
    options: &[],
};

const STORM: Shape = Shape {
    name: "storm",
    places: &["PROGRAM", "START", "COUNT"],
    options: &[b"--reach", b"--plain", b"--slots", b"--log", b"--ticks"],
};

const WHY: Shape = Shape {
    name: "why",
    places: &["PROGRAM"],
    options: &[],
};

const WORKERS: Shape = Shape {
    name: "workers",
    places: &["PROGRAM", "SCRIPT"],
    options: &[b"--workers", b"--pool", b"--slots", b"--log", b"--ticks"],
};

const SERVE: Shape = Shape {
    name: "serve",
    places: &["PROGRAM"],
    options: &[b"--pool", b"--from", b"--slots", b"--log", b"--ticks"],
};

const EMIT: Shape = Shape {
    name: "emit",
    places: &["PROGRAM"],
    options: &[b"--prefix", b"--header", b"--slots", b"--log", b"--ticks"],
};

const CODE: Shape = Shape {
    name: "code",
    places: &["PROGRAM"],
    options: &[],
};

const SHAPES: [Shape; 8] = [RUN, LIST, STORM, WHY, WORKERS, SERVE, EMIT, CODE];

/// The names of the commands.
const COMMANDS: [&[u8]; 8] = [
    b"run", b"list", b"storm", b"why", b"workers", b"serve", b"emit", b"code",
];

/// The commands and the options with their defaults.
const HELP: [&str; 30] = [
    "cnvm run PROGRAM SCRIPT          runs the script's calls on a new pool",
    "    SCRIPT                       a file, or - for standard input",
    "    --open IMAGE                 runs them on the pool of a saved image",
    "    --save IMAGE                 saves the pool at the end",
    "    --pool FILE                  keeps the pool in a file, without these two",
    "    --from OLD                   moves that pool from the program's former text",
    "    --strict                     gives status 10 where an answer is a trap or a refusal",
    "cnvm list PROGRAM                tells of each store whether it is logged",
    "cnvm storm PROGRAM START COUNT   runs rounds of drawn calls and power cuts",
    "    START                        chooses them, from 0 to 2147483647",
    "    COUNT                        how many, from 0 to 20000",
    "    --reach E                    cuts below E events, from 1 to 1000000; without it 32",
    "    --plain                      counts aborts and broken checks too",
    "cnvm why PROGRAM                 tells why each logged store is logged",
    "cnvm workers PROGRAM SCRIPT      runs the script's calls of several workers",
    "    --workers W                  how many, from 1 to 8; without it 2",
    "    --pool FILE                  keeps their pools in a file; without it in memory",
    "cnvm serve PROGRAM               answers each line of standard input before the next",
    "    --pool FILE                  keeps the pool in a file; without it in memory",
    "    --from OLD                   moves that pool from the program's former text",
    "cnvm emit PROGRAM                prints the transactions as a C file",
    "    --prefix NAME                begins its names; without it the file's name, or pool",
    "    --header                     prints the header of that file",
    "cnvm code PROGRAM                prints the intermediate code, with places and lines",
    "run, storm, workers, serve and emit have these options too:",
    "    --slots N                    slots for objects, from 1 to 1048576; without it 1024",
    "    --log N                      records of the log, from 1 to 65536; without it 256",
    "    --ticks N                    ticks of a call, from 1 to 1000000; without it 100000",
    "The value of an option is the next word, or stands after `=`.",
    "Each option is given once at most.",
];

/// What is wrong with the words, and what may stand there.
pub fn of_words(alloc: Global, words: &[String]) -> Result<String, AllocError> {
    let mut message = String::from_str(alloc, "cnvm: ")?;
    push_wrong(alloc, &mut message, words)?;
    message.push_str("\n")?;
    push_lines(&mut message, &HELP)?;
    Ok(message)
}

fn push_lines(message: &mut String, lines: &[&str]) -> Result<(), AllocError> {
    for line in lines {
        message.push_str("  ")?;
        message.push_str(line)?;
        message.push_str("\n")?;
    }
    Ok(())
}

fn push_wrong(alloc: Global, message: &mut String, words: &[String]) -> Result<(), AllocError> {
    let Some((first, rest)) = words.split_first() else {
        return message.push_str(
            "a command is missing: run, list, storm, why, workers, serve, emit or code",
        );
    };
    match shape_of(&SHAPES, first.as_str()) {
        Some(shape) => {
            let wrong = wrong_of(alloc, shape, rest)?;
            push_texts(alloc, message, &wrong)
        }
        None => push_no_command(alloc, message, first.as_str()),
    }
}

fn shape_of(shapes: &[Shape], name: &str) -> Option<Shape> {
    for shape in shapes {
        if shape.name == name {
            return Some(*shape);
        }
    }
    None
}

fn push_no_command(alloc: Global, message: &mut String, word: &str) -> Result<(), AllocError> {
    if is_help(word) {
        return message.push_str("the commands and their options:");
    }
    message.push_str(word)?;
    message.push_str(": there is no such command; ")?;
    match nearest(word.as_bytes(), &COMMANDS) {
        Some(near) => push_near(alloc, message, near),
        None => message.push_str("there are run, list, storm, why, workers, serve, emit and code"),
    }
}

fn push_near(alloc: Global, message: &mut String, near: &[u8]) -> Result<(), AllocError> {
    message.push_str("did you mean `")?;
    push_shown(alloc, message, near)?;
    message.push_str("`?")
}

fn is_help(word: &str) -> bool {
    word == "--help" || word == "-h" || word == "help"
}

/// What is wrong with a word: texts that are told one after the other, and the nearest word.
#[derive(Clone, Copy)]
struct Wrong<'a> {
    word: &'a str,
    middle: &'static str,
    other: &'a str,
    after: &'static str,
    limits: &'static str,
    near: Option<&'static [u8]>,
}

impl<'a> Wrong<'a> {
    /// What is wrong, told of this word alone.
    fn new(word: &'a str, after: &'static str) -> Wrong<'a> {
        Wrong {
            word,
            middle: "",
            other: "",
            after,
            limits: "",
            near: None,
        }
    }

    /// What a word is to the command of this name.
    fn of(word: &'a str, name: &'static str, after: &'static str) -> Wrong<'a> {
        Wrong {
            word,
            middle: ": `",
            other: name,
            after,
            limits: "",
            near: None,
        }
    }
}

fn push_texts(alloc: Global, message: &mut String, wrong: &Wrong<'_>) -> Result<(), AllocError> {
    message.push_str(wrong.word)?;
    message.push_str(wrong.middle)?;
    message.push_str(wrong.other)?;
    message.push_str(wrong.after)?;
    message.push_str(wrong.limits)?;
    match wrong.near {
        Some(near) => {
            message.push_str("; ")?;
            push_near(alloc, message, near)
        }
        None => Ok(()),
    }
}

/// The words of a command that were read: how many stood at places, the options, and the option
/// whose value is next.
#[derive(Drop)]
struct Read<'a> {
    shape: Shape,
    places: usize,
    given: Vec<&'a [u8]>,
    open: Option<&'a str>,
}

/// The first wrong word of a command.
fn wrong_of<'a>(alloc: Global, shape: Shape, words: &'a [String]) -> Result<Wrong<'a>, AllocError> {
    let mut read = Read {
        shape,
        places: 0,
        given: Vec::new(alloc),
        open: None,
    };
    for word in words {
        if let Some(wrong) = read.next(word.as_str())? {
            return Ok(wrong);
        }
    }
    Ok(read.end())
}

impl<'a> Read<'a> {
    /// Reads one more word, and tells what is wrong with it.
    fn next(&mut self, word: &'a str) -> Result<Option<Wrong<'a>>, AllocError> {
        if let Some(option) = self.open {
            self.open = None;
            return Ok(wrong_value(&NUMBERS, option, word));
        }
        if word.starts_with("--") {
            return self.option(word);
        }
        let wrong = wrong_place(self.shape, self.places, word);
        self.places = self.places.saturating_add(1);
        Ok(wrong)
    }

    fn option(&mut self, word: &'a str) -> Result<Option<Wrong<'a>>, AllocError> {
        let (option, value) = parts_of(word);
        let wrong = wrong_option(self.shape, &self.given, option, value);
        self.given.push(option.as_bytes())?;
        if value.is_none() && !has(&FLAGS, option.as_bytes()) {
            self.open = Some(option);
        }
        Ok(wrong)
    }

    /// What is missing at the end.
    fn end(&self) -> Wrong<'a> {
        match self.open {
            Some(option) => Wrong::new(option, ": its value is missing"),
            None => missing(self.shape, self.places, &self.given),
        }
    }
}

/// Whether a pool's file was given together with an image.
fn has_two_pools(given: &[&[u8]]) -> bool {
    has(given, b"--pool") && (has(given, b"--open") || has(given, b"--save"))
}

/// What is wrong with a word at a place.
fn wrong_place<'a>(shape: Shape, place: usize, word: &'a str) -> Option<Wrong<'a>> {
    match shape.places.get(place) {
        Some(wanted) => wrong_value(&NUMBERS, wanted, word),
        None => Some(Wrong::of(word, shape.name, "` takes no further word")),
    }
}

/// An option, and the value after its `=` if it has one.
fn parts_of(word: &str) -> (&str, Option<&str>) {
    let Some(at) = word.find("=") else {
        return (word, None);
    };
    match word.split_at_checked(at) {
        None => (word, None),
        Some((option, rest)) => (option, rest.strip_prefix("=")),
    }
}

/// What is wrong with an option, or with the value that stands after its `=`.
fn wrong_option<'a>(
    shape: Shape,
    given: &[&[u8]],
    option: &'a str,
    value: Option<&'a str>,
) -> Option<Wrong<'a>> {
    if !has(shape.options, option.as_bytes()) {
        return Some(Wrong {
            near: nearest(option.as_bytes(), shape.options),
            ..Wrong::of(option, shape.name, "` has no such option")
        });
    }
    if has(given, option.as_bytes()) {
        return Some(Wrong::new(option, ": is given twice"));
    }
    let value = value?;
    if has(&FLAGS, option.as_bytes()) {
        return Some(Wrong::new(option, ": takes no value"));
    }
    wrong_value(&NUMBERS, option, value)
}

/// What is wrong with the value of an option or of a place, if that is a number or a prefix.
fn wrong_value<'a>(numbers: &[Number], name: &str, value: &'a str) -> Option<Wrong<'a>> {
    if name == "--prefix" {
        return wrong_prefix(value);
    }
    for number in numbers {
        if number.name == name {
            return wrong_number(number, value);
        }
    }
    None
}

/// What is wrong with a number.
fn wrong_number<'a>(number: &Number, word: &'a str) -> Option<Wrong<'a>> {
    let after = match plain_number(word) {
        Some(value) if number.least <= value && value <= number.most => return None,
        Some(_) => " is not ",
        None => " is no number of 1 to 10 digits, ",
    };
    Some(Wrong {
        word: number.name,
        middle: ": ",
        other: word,
        after,
        limits: number.limits,
        near: None,
    })
}

/// What is wrong with a prefix.
fn wrong_prefix<'a>(word: &'a str) -> Option<Wrong<'a>> {
    let after = if !is_c_name(word.as_bytes()) {
        " is no name of C"
    } else if has(&OWN_HEADS, head_of(word.as_bytes())) {
        " begins the runtime's own names; choose another"
    } else {
        return None;
    };
    Some(Wrong {
        word: "--prefix",
        middle: ": ",
        other: word,
        after,
        limits: "",
        near: None,
    })
}

/// A name up to its first `_`.
fn head_of(name: &[u8]) -> &[u8] {
    let length = name.iter().take_while(|byte| **byte != b'_').count();
    &name[..length]
}

/// Whether this is a letter or `_`, and then letters, digits and `_`.
fn is_c_name(word: &[u8]) -> bool {
    let Some(first) = word.first() else {
        return false;
    };
    for byte in word {
        if !byte.is_ascii_alphanumeric() && *byte != b'_' {
            return false;
        }
    }
    !first.is_ascii_digit()
}

/// The number of 1 to 10 decimal digits.
fn plain_number(word: &str) -> Option<u64> {
    let digits = word.as_bytes();
    if digits.is_empty() || digits.len() > 10 {
        return None;
    }
    let mut value = 0u64;
    for digit in digits {
        if !digit.is_ascii_digit() {
            return None;
        }
        value = value
            .saturating_mul(10)
            .saturating_add(u64::from(digit.saturating_sub(b'0')));
    }
    Some(value)
}

/// The first place whose word is missing, or the options that don't go together.
fn missing<'a>(shape: Shape, places: usize, given: &[&[u8]]) -> Wrong<'a> {
    match shape.places.get(places) {
        Some(place) => Wrong::of(place, shape.name, "` needs this word"),
        None if has_two_pools(given) => {
            Wrong::new(
                "--pool",
                ": the pool is the file; leave `--open` and `--save` out",
            )
        }
        None => Wrong::new("", "these words ask for nothing that exists"),
    }
}
