//! The tokens around a place, as they are spelled.

/// All tokens of a text, as they are spelled, and the place of one of them. Past the ends every
/// token is empty.
#[derive(Clone, Copy)]
pub struct Spelled<'a> {
    pub words: &'a [&'a [u8]],
    pub place: u64,
}

/// Where a token stands.
#[derive(Clone, Copy)]
pub(crate) enum Within {
    /// Between items, or in the first part of one.
    Top,
    /// In the brackets after a function's name.
    Parameters,
    /// In a struct.
    Fields,
    /// In a function's body.
    Body,
}

impl<'a> Spelled<'a> {
    /// The token itself.
    pub fn here(&self) -> &'a [u8] {
        self.word(self.place)
    }

    /// The token that is n tokens before.
    pub fn before(&self, count: u64) -> &'a [u8] {
        match self.place.checked_sub(count) {
            Some(place) => self.word(place),
            None => b"",
        }
    }

    /// The token that is n tokens after.
    pub fn after(&self, count: u64) -> &'a [u8] {
        self.word(self.place.saturating_add(count))
    }

    fn word(&self, place: u64) -> &'a [u8] {
        word_at(self.words, place as usize)
    }

    /// Where the token stands.
    pub(crate) fn within(&self) -> Within {
        let mut braces = 0u64;
        let mut rounds = 0u64;
        let mut fields = false;
        for (at, word) in self.words.iter().enumerate() {
            if at as u64 >= self.place {
                break;
            }
            if braces == 0 && is(word, "{") {
                fields = rounds == 0 && !is(self.word((at as u64).saturating_sub(1)), ")");
            }
            braces = depth_after(braces, word, "{", "}");
            rounds = depth_after(rounds, word, "(", ")");
        }
        if braces > 0 && fields {
            Within::Fields
        } else if braces > 0 {
            Within::Body
        } else if rounds > 0 {
            Within::Parameters
        } else {
            Within::Top
        }
    }

    /// The place of the first token of the item in which the token stands.
    pub fn item_start(&self) -> u64 {
        let mut start = 0u64;
        let mut braces = 0u64;
        let mut fields = false;
        let mut last: &[u8] = b"";
        for (at, word) in self.words.iter().enumerate() {
            if at as u64 >= self.place {
                break;
            }
            if braces == 0 && is(word, "{") {
                fields = !is(last, ")");
            }
            braces = depth_after(braces, word, "{", "}");
            if braces == 0 && (is(word, ";") || is(word, "}") && !fields) {
                start = (at as u64).saturating_add(1);
            }
            last = word;
        }
        start
    }

    /// The first token of the statement or declaration in which the token stands: the one after the
    /// last `;`, `{` or `}`.
    pub(crate) fn first(&self) -> &'a [u8] {
        let mut first: &[u8] = self.word(0);
        for (at, word) in self.words.iter().enumerate() {
            if at as u64 >= self.place {
                break;
            }
            if is_one(word, &[";", "{", "}"]) {
                first = self.word((at as u64).saturating_add(1));
            }
        }
        first
    }

    /// Whether the token stands in a declaration that is no statement of a block: in the first part
    /// of a `for`, or one that is a body.
    pub(crate) fn declares_alone(&self) -> bool {
        let mut back = 1u64;
        for _ in 0..self.place {
            let word = self.before(back);
            if is_one(word, &[";", "{", "}"]) {
                return false;
            }
            back = back.saturating_add(1);
            if is_one(word, &["int64_t", "uint64_t", "struct"]) && self.begins_alone(back) {
                return true;
            }
        }
        false
    }

    /// Whether the token that is n tokens before begins a body, or the brackets of a `for`.
    fn begins_alone(&self, back: u64) -> bool {
        let last = self.before(back);
        is_one(last, &[")", "else", "do"])
            || is(last, "(") && is(self.before(back.saturating_add(1)), "for")
    }

    /// Whether the token stands in the brackets of a `for`.
    pub(crate) fn in_for(&self) -> bool {
        let mut open = 0u64;
        let mut back = 1u64;
        for _ in 0..self.place {
            let word = self.before(back);
            if is(word, ")") {
                open = open.saturating_add(1);
            } else if is(word, "(") {
                if open == 0 {
                    return is(self.before(back.saturating_add(1)), "for");
                }
                open = open.saturating_sub(1);
            } else if is_one(word, &["{", "}"]) {
                return false;
            }
            back = back.saturating_add(1);
        }
        false
    }
}

/// The token of this place; an empty one past the end.
pub(crate) fn word_at<'a>(words: &[&'a [u8]], at: usize) -> &'a [u8] {
    match words.get(at) {
        Some(word) => word,
        None => b"",
    }
}

/// How many brackets of this kind are open after the token.
pub(crate) fn depth_after(depth: u64, word: &[u8], open: &str, close: &str) -> u64 {
    if is(word, open) {
        return depth.saturating_add(1);
    }
    if is(word, close) {
        return depth.saturating_sub(1);
    }
    depth
}

/// Whether a token is this word.
pub fn is(word: &[u8], text: &str) -> bool {
    word == text.as_bytes()
}

/// Whether a token is one of these words.
pub fn is_one(word: &[u8], texts: &[&str]) -> bool {
    for text in texts {
        if is(word, text) {
            return true;
        }
    }
    false
}

/// Whether a token begins as a name does.
pub(crate) fn is_name(word: &[u8]) -> bool {
    match word.first() {
        Some(byte) => byte.is_ascii_alphabetic() || *byte == b'_',
        None => false,
    }
}

/// Whether a token begins as a number does.
pub(crate) fn is_number(word: &[u8]) -> bool {
    match word.first() {
        Some(byte) => byte.is_ascii_digit(),
        None => false,
    }
}

/// The longest token that a text begins with: letters and digits, a mark of two or three bytes, or
/// one byte.
pub fn first_token(text: &[u8]) -> &[u8] {
    first_bytes(text, token_len(text))
}

/// So many of the first bytes, or all.
fn first_bytes(text: &[u8], count: usize) -> &[u8] {
    text.split_at(count.min(text.len())).0
}

fn token_len(text: &[u8]) -> usize {
    let run = word_len(text);
    if run > 0 {
        return run;
    }
    if is_one(first_bytes(text, 3), &["<<=", ">>="]) {
        3
    } else if is_one(first_bytes(text, 2), &PAIRS) {
        2
    } else {
        1
    }
}

/// The marks of two bytes.
const PAIRS: [&str; 19] = [
    "->", "++", "--", "+=", "-=", "*=", "/=", "%=", "&=", "^=", "|=", "<<", ">>", "<=", ">=", "==",
    "!=", "&&", "||",
];

/// How many letters, digits and `_` a text begins with.
fn word_len(text: &[u8]) -> usize {
    for (at, byte) in text.iter().enumerate() {
        if !byte.is_ascii_alphanumeric() && *byte != b'_' {
            return at;
        }
    }
    text.len()
}
