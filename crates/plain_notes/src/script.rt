//! Messages of the lines of a script.

use crate::layout::push_shown;
use crate::near::nearest;
use crate::spelled::{is, is_one};
use crate::told::Told;
use std::alloc::{AllocError, Global};

/// The commands of a script.
const COMMANDS: [&[u8]; 6] = [b"call", b"stop", b"fault", b"power", b"show", b"last"];

const COMMANDS_NOTE: &str =
    "write `call NAME A..`, `stop K`, `fault K`, `power old P..`, `show`, `show dead` or `last`";

/// What a refused line of a script needs, and the number of bytes of the line before the word at
/// fault.
pub fn of_line(alloc: Global, line: &[u8]) -> Result<(u64, Told), AllocError> {
    let words = words_of(alloc, line)?;
    of_pieces(alloc, line, &words)
}

fn of_pieces(alloc: Global, line: &[u8], words: &[Piece]) -> Result<(u64, Told), AllocError> {
    let Some((first, words)) = words.split_first() else {
        return no_command(alloc);
    };
    let name = line_part(line, first);
    let others = Others { line, words };
    match of_command(name, &others) {
        Some(fault) => told_of(alloc, first.from, &fault),
        None => of_unknown(alloc, first.from, name, &COMMANDS, COMMANDS_NOTE),
    }
}

pub(crate) fn no_command(alloc: Global) -> Result<(u64, Told), AllocError> {
    Ok((0, Told::new(alloc, "no command")?))
}

/// A word of a line: the places of its first byte and after its last.
#[derive(Clone, Copy)]
pub(crate) struct Piece {
    pub from: usize,
    pub to: usize,
}

pub(crate) fn line_part<'a>(line: &'a [u8], piece: &Piece) -> &'a [u8] {
    let to = piece.to.min(line.len());
    let from = piece.from.min(to);
    &line[from..to]
}

/// The words of a line.
pub(crate) fn words_of(alloc: Global, line: &[u8]) -> Result<Vec<Piece>, AllocError> {
    let mut words = Vec::new(alloc);
    let mut from = None;
    for (at, byte) in line.iter().enumerate() {
        let blank = matches!(*byte, b' ' | b'\t' | b'\r');
        match from {
            None if !blank => from = Some(at),
            Some(start) if blank => {
                words.push(Piece {
                    from: start,
                    to: at,
                })?;
                from = None;
            }
            _ => (),
        }
    }
    if let Some(start) = from {
        words.push(Piece {
            from: start,
            to: line.len(),
        })?;
    }
    Ok(words)
}

/// The words of a command after its name.
#[derive(Clone, Copy)]
pub(crate) struct Others<'a> {
    pub line: &'a [u8],
    pub words: &'a [Piece],
}

impl<'a> Others<'a> {
    pub(crate) fn word(&self, at: usize) -> &'a [u8] {
        match self.words.get(at) {
            Some(piece) => line_part(self.line, piece),
            None => b"",
        }
    }

    pub(crate) fn from(&self, at: usize) -> Option<usize> {
        match self.words.get(at) {
            Some(piece) => Some(piece.from),
            None => Some(self.line.len()),
        }
    }
}

/// What is wrong with a line, chosen before anything is made: where a message points, if not at the
/// command; a word between two texts; and two notes, of which each may be empty.
#[derive(Clone, Copy)]
pub(crate) struct Fault<'a> {
    at: Option<usize>,
    before: &'static str,
    word: &'a [u8],
    after: &'static str,
    remark: &'static str,
    note: &'static str,
}

impl<'a> Fault<'a> {
    /// A fault that is told without a word of the line.
    pub(crate) fn new(at: Option<usize>, what: &'static str, note: &'static str) -> Fault<'a> {
        Fault {
            at,
            before: "",
            word: b"",
            after: what,
            remark: "",
            note,
        }
    }

    /// A fault that is told of this word, which stands before the text.
    pub(crate) fn of(
        at: Option<usize>,
        word: &'a [u8],
        after: &'static str,
        note: &'static str,
    ) -> Fault<'a> {
        Fault {
            at,
            before: "`",
            word,
            after,
            remark: "",
            note,
        }
    }

    /// The same, with a note where a remark stands after the command.
    pub(crate) fn remarked(self, others: &Others<'_>) -> Fault<'a> {
        Fault {
            remark: remark_note(others),
            ..self
        }
    }
}

/// The place and the message of what is wrong with a line whose command stands here.
pub(crate) fn told_of(
    alloc: Global,
    from: usize,
    fault: &Fault<'_>,
) -> Result<(u64, Told), AllocError> {
    let what = framed(alloc, fault.before, fault.word, fault.after)?;
    let told = Told::of(alloc, what.as_str(), &[fault.remark, fault.note])?;
    Ok((fault.at.unwrap_or(from) as u64, told))
}

/// A word, as it is shown, between two texts.
fn framed(alloc: Global, before: &str, word: &[u8], after: &str) -> Result<String, AllocError> {
    let mut text = String::from_str(alloc, before)?;
    push_shown(alloc, &mut text, word)?;
    text.push_str(after)?;
    Ok(text)
}

fn of_command<'a>(name: &'a [u8], others: &Others<'a>) -> Option<Fault<'a>> {
    if is(name, "call") {
        return Some(of_call(others));
    }
    if is_one(name, &["start", "turn", "finish"]) {
        let note = "it is a command of `cnvm workers`";
        return Some(Fault::of(None, name, NO_COMMAND, note));
    }
    of_shared(name, others)
}

/// A command that scripts of one and of several workers have in the same form.
pub(crate) fn of_shared<'a>(name: &'a [u8], others: &Others<'a>) -> Option<Fault<'a>> {
    if is(name, "power") {
        return Some(of_power(others));
    }
    if is_one(name, &["stop", "fault"]) {
        return Some(of_event(name, others));
    }
    if is(name, "show") {
        return Some(of_show(name, others));
    }
    if is(name, "last") {
        return Some(of_alone(name, others));
    }
    None
}

/// A command that takes the word `dead` and no other.
fn of_show<'a>(name: &'a [u8], others: &Others<'a>) -> Fault<'a> {
    let at = if is(others.word(0), "dead") { 1 } else { 0 };
    Fault::of(others.from(at), name, "` takes no word but `dead`", "").remarked(others)
}

/// A command that takes no words.
pub(crate) fn of_alone<'a>(name: &'a [u8], others: &Others<'a>) -> Fault<'a> {
    Fault::of(others.from(0), name, "` is alone on its line", "").remarked(others)
}

/// The note where a remark stands after a command.
fn remark_note(others: &Others<'_>) -> &'static str {
    for at in 0..others.words.len() {
        if is_remark(others.word(at)) {
            return REMARK_NOTE;
        }
    }
    ""
}

const REMARK_NOTE: &str = "a remark has a line of its own, which begins with `#`";

fn is_remark(word: &[u8]) -> bool {
    word.starts_with(b"#") || word.starts_with(b"//")
}

const NO_COMMAND: &str = "` is no command";

/// A word that is none of these commands, which the note lists.
pub(crate) fn of_unknown(
    alloc: Global,
    from: usize,
    name: &[u8],
    commands: &[&[u8]],
    note: &str,
) -> Result<(u64, Told), AllocError> {
    let small = lowered(alloc, name)?;
    let what = framed(alloc, "`", name, NO_COMMAND)?;
    let note = unknown_note(alloc, name, &small, commands, note)?;
    let told = Told::of(alloc, what.as_str(), &[note.as_str()])?;
    Ok((from as u64, told))
}

/// The word in small letters.
fn lowered(alloc: Global, word: &[u8]) -> Result<Vec<u8>, AllocError> {
    let mut small = Vec::new(alloc);
    for byte in word {
        small.push(byte.to_ascii_lowercase())?;
    }
    Ok(small)
}

const BYTE_ORDER_NOTE: &str = "the text begins with a byte order mark: save it without one";

/// The note of a word that is none of these commands.
fn unknown_note(
    alloc: Global,
    name: &[u8],
    small: &[u8],
    commands: &[&[u8]],
    note: &str,
) -> Result<String, AllocError> {
    if name.starts_with(b"//") {
        return String::from_str(alloc, "a remark begins with `#`");
    }
    if name.starts_with(b"\xEF\xBB\xBF") {
        return String::from_str(alloc, BYTE_ORDER_NOTE);
    }
    if has(commands, small) {
        return framed(alloc, "commands are small letters: write `", small, "`");
    }
    match nearest(small, commands) {
        Some(near) => framed(alloc, "did you mean `", near, "`?"),
        None => String::from_str(alloc, note),
    }
}

pub(crate) fn has(words: &[&[u8]], word: &[u8]) -> bool {
    for other in words {
        if *other == word {
            return true;
        }
    }
    false
}

pub(crate) fn of_call<'a>(others: &Others<'a>) -> Fault<'a> {
    let name = others.word(0);
    if name.is_empty() {
        let what = "the name of a transaction is missing";
        return Fault::new(others.from(0), what, "write `call NAME A..`");
    }
    if !is_name(name) {
        let note = if name.contains(&b'(') {
            "arguments stand without brackets and commas: write `add 5 7`"
        } else {
            ""
        };
        return Fault::of(others.from(0), name, "` is no name of a transaction", note);
    }
    of_arguments(others)
}

/// The first wrong argument of a call; if there is none, its name is wrong.
fn of_arguments<'a>(others: &Others<'a>) -> Fault<'a> {
    for at in 1..others.words.len() {
        if let Some(note) = wrong_argument(others.word(at)) {
            return Fault::of(others.from(at), others.word(at), "` is no argument", note);
        }
    }
    Fault::new(
        others.from(0),
        "this is no name of a transaction",
        "it is a word that C or the language reserves",
    )
}

/// Whether a word is letters, digits and `_`, and begins with no digit.
fn is_name(word: &[u8]) -> bool {
    for byte in word {
        if !byte.is_ascii_alphanumeric() && *byte != b'_' {
            return false;
        }
    }
    match word.first() {
        Some(byte) => !byte.is_ascii_digit(),
        None => false,
    }
}

/// How many digits a word has, if it has nothing else.
fn digits(word: &[u8]) -> Option<usize> {
    for byte in word {
        if !byte.is_ascii_digit() {
            return None;
        }
    }
    if word.is_empty() {
        return None;
    }
    Some(word.len())
}

fn wrong_argument(word: &[u8]) -> Option<&'static str> {
    let size = match word.split_first() {
        Some((first, rest)) if *first == b'-' => rest,
        _ => word,
    };
    match digits(size) {
        Some(count) if count < 19 => None,
        Some(count) if count > 20 => Some("an argument has at most 20 digits"),
        Some(count) if is_greater(size, greatest(count, size.len() < word.len())) => {
            Some("an argument is from -9223372036854775808 to 18446744073709551615")
        }
        Some(_) => None,
        None => Some(argument_note(word)),
    }
}

/// The greatest size of an argument of 19 or 20 digits, with a `-` or without.
fn greatest(digits: usize, is_negative: bool) -> &'static [u8] {
    match (digits, is_negative) {
        (19, true) => b"9223372036854775808",
        (19, false) => b"9999999999999999999",
        (_, true) => b"09223372036854775808",
        (_, false) => b"18446744073709551615",
    }
}

/// Whether a numeral is above another of as many digits.
fn is_greater(left: &[u8], right: &[u8]) -> bool {
    for (at, digit) in left.iter().enumerate() {
        let other = right.get(at).copied().unwrap_or(b'0');
        if *digit != other {
            return *digit > other;
        }
    }
    false
}

fn argument_note(word: &[u8]) -> &'static str {
    if is_remark(word) {
        return REMARK_NOTE;
    }
    if word.starts_with(b"0x") || word.starts_with(b"0X") || word.starts_with(b"-0x") {
        return "numbers are decimal: write 16 for 0x10";
    }
    if word.starts_with(b"+") {
        return "leave the `+` out";
    }
    if word.ends_with(b",") {
        return "arguments stand without commas";
    }
    if word.starts_with(b"(") || word.ends_with(b")") {
        return "arguments stand without brackets: write `add 5 7`";
    }
    "an argument is an optional `-` and 1 to 20 decimal digits"
}

pub(crate) fn of_event<'a>(name: &'a [u8], others: &Others<'a>) -> Fault<'a> {
    if others.words.len() > 1 {
        return Fault::of(others.from(1), name, "` takes one number", "").remarked(others);
    }
    if others.words.is_empty() {
        let note = if is(name, "stop") {
            "write `stop 0` for the next event"
        } else {
            "write `fault 0` for the next event"
        };
        return Fault::of(others.from(0), name, "` needs a number of events", note);
    }
    Fault::of(
        others.from(0),
        others.word(0),
        "` is no number of events",
        "a number of events has 1 to 10 decimal digits, and is at most 4294967295",
    )
}

pub(crate) fn of_power<'a>(others: &Others<'a>) -> Fault<'a> {
    if !is_one(others.word(0), &["old", "new"]) {
        return Fault::new(
            others.from(0),
            "`power` needs `old` or `new`",
            "each line keeps its oldest or its newest version, but for the picks after it",
        );
    }
    of_picks(others)
}

/// The first wrong pick of a power cut; if there is none, their order is wrong.
fn of_picks<'a>(others: &Others<'a>) -> Fault<'a> {
    for at in 1..others.words.len() {
        if !is_pick(others.word(at)) {
            let note = "a pick is `LINE:VERSION`, two numbers of 1 to 10 digits with no blank";
            let fault = Fault::of(others.from(at), others.word(at), "` is no pick", note);
            return fault.remarked(others);
        }
    }
    Fault::new(
        others.from(1),
        "the lines of these picks do not rise",
        "write the picks in the order of their lines, each line once",
    )
}

fn is_pick(word: &[u8]) -> bool {
    let mut parts = 0u64;
    let mut count = 0usize;
    for byte in word {
        if *byte == b':' {
            if count == 0 || count > 10 {
                return false;
            }
            parts = parts.saturating_add(1);
            count = 0;
        } else if byte.is_ascii_digit() {
            count = count.saturating_add(1);
        } else {
            return false;
        }
    }
    parts == 1 && count > 0 && count <= 10
}
