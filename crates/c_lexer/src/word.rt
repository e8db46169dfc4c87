//! The reserved words and their spellings.

ghost use Rattle.std.specs.Prelude.{◌≡◌, ℕ, List, map, IfOk};
ghost use Rattle.std.specs.Borrow.{Bor};
ghost use Rattle.std.specs.List.{list_any};
ghost use Rattle.c_lexer.specs.declared.token.Word.{Word};
ghost use Rattle.std.specs.Str.{bytes_eq, IsUtf8};
ghost use Rattle.c_lexer.specs.Words.{beside, word_spelled, is_never_accepted, word_token};

use crate::token::{Token, Word};
use nvm_base::Text;
use std::alloc::{AllocError, Global};
use std::str;

const WORDS: [(&str, Word); 21] = [
    ("int64_t", Word::Int64),
    ("uint64_t", Word::Uint64),
    ("void", Word::Void),
    ("struct", Word::Struct),
    ("enum", Word::Enum),
    ("persistent", Word::Persistent),
    ("root", Word::Root),
    ("tx", Word::Tx),
    ("const", Word::Const),
    ("if", Word::If),
    ("else", Word::Else),
    ("while", Word::While),
    ("do", Word::Do),
    ("for", Word::For),
    ("break", Word::Break),
    ("continue", Word::Continue),
    ("return", Word::Return),
    ("NULL", Word::Null),
    ("pm_new", Word::PmNew),
    ("pm_free", Word::PmFree),
    ("abort", Word::Abort),
];

const NEVER_ACCEPTED: [&str; 22] = [
    "auto", "case", "char", "default", "double", "extern", "float", "goto", "inline", "int",
    "long", "register", "restrict", "short", "signed", "sizeof", "static", "switch", "typedef",
    "union", "unsigned", "volatile",
];

fn first_spelled(run: &[u8], table: &[(&str, Word)]) -> Option<Word>
    ensures { result ≡ beside run.now
        (map (λ (row : Bor (List ℕ) × Word). (row.0.now, row.1)) table.now) }
{
    for (spelling, word) in table {
        if run == spelling.as_bytes() {
            return Some(*word);
        }
    }
    None
}

fn is_among(run: &[u8], table: &[&str]) -> bool
    ensures { result ≡ list_any (λ spelling. bytes_eq run.now spelling)
        (map (λ s. s.now) table.now) }
{
    for spelling in table {
        if run == spelling.as_bytes() {
            return true;
        }
    }
    false
}

/// The word of the profile that a run spells.
#[tactic(auto, unfolding(crate::specs::Words::word_spelled))]
fn profile_word(run: &[u8]) -> Option<Word>
    ensures { result ≡ word_spelled run.now }
{
    let table: [(&str, Word); 21] = WORDS;
    first_spelled(run, table.as_slice())
}

/// Whether the run is a word that C reserves and the profile never accepts.
#[tactic(auto, unfolding(crate::specs::Words::is_never_accepted))]
fn is_reserved(run: &[u8]) -> bool
    ensures { result ≡ is_never_accepted run.now }
{
    let table: [&str; 22] = NEVER_ACCEPTED;
    is_among(run, table.as_slice())
}

fn name(alloc: Global, run: &[u8]) -> Result<Text, AllocError>
    requires { IsUtf8 run.now }
    ensures { IfOk result (λ text. text ≡ run.now) }
{
    let mut text = Text::new(alloc);
    match str::from_utf8(run) {
        Ok(spelling) => text.push(spelling)?,
        Err(_) => unreachable!(),
    }
    Ok(text)
}

/// The token of a run of letters, digits and `_` that doesn't begin with a digit.
pub(crate) fn word_or_name(alloc: Global, run: &[u8]) -> Result<Token, AllocError>
    requires { IsUtf8 run.now }
    ensures { IfOk result (λ token. token ≡ word_token run.now) }
{
    if let Some(word) = profile_word(run) {
        return Ok(Token::Word(word));
    }
    if is_reserved(run) {
        return Ok(Token::Reserved);
    }
    Ok(Token::Name(name(alloc, run)?))
}
