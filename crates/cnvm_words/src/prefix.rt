//! The prefix of the names in an emitted C file.

ghost use Rattle.std.specs.Prelude.{◌≡◌, ◌≤◌, length};
ghost use Rattle.std.specs.List.{list_all};
ghost use Rattle.c_lexer.specs.Bytes.{begins_name, is_word_byte};
ghost use Rattle.cnvm_words.specs.Prefix.{is_name, head_len, head_of, is_own_head, is_prefix};
ghost use Rattle.cnvm_words.specs.Prefix.{default_prefix};

use std::path::Path;

/// A letter or `_`.
fn begins_name(byte: u8) -> bool
    ensures { result ≡ begins_name byte }
{
    byte.is_ascii_alphabetic() || byte == b'_'
}

/// A letter, a digit or `_`.
fn is_word_byte(byte: u8) -> bool
    ensures { result ≡ is_word_byte byte }
{
    byte.is_ascii_alphanumeric() || byte == b'_'
}

fn are_word_bytes(bytes: &[u8]) -> bool
    ensures { result ≡ list_all is_word_byte bytes.now }
{
    for byte in bytes {
        if !is_word_byte(*byte) {
            return false;
        }
    }
    true
}

fn is_name(text: &[u8]) -> bool
    ensures { result ≡ is_name text.now }
{
    match text {
        [] => false,
        [first, rest @ ..] => begins_name(*first) && are_word_bytes(rest),
    }
}

/// The number of bytes before the first `_`.
fn head_len(name: &[u8]) -> usize
    ensures width { result ≡ head_len name.now }
    ensures inside { result ≤ length name.now }
{
    name.iter().take_while(|byte| **byte != b'_').count()
}

/// A name up to its first `_`.
fn head_of(name: &[u8]) -> &[u8]
    ensures { result.now ≡ head_of name.now }
{
    &name[..head_len(name)]
}

/// Whether names of the runtime begin so.
fn is_own_head(head: &[u8]) -> bool
    ensures { result ≡ is_own_head head.now }
{
    head == "cn".as_bytes()
        || head == "cnvm".as_bytes()
        || head == "CN".as_bytes()
        || head == "CNVM".as_bytes()
}

/// Whether names may begin with this text and `_`.
pub(crate) fn is_prefix(text: &str) -> bool
    ensures { result ≡ is_prefix text.now }
{
    let bytes = text.as_bytes();
    is_name(bytes) && !is_own_head(head_of(bytes))
}

/// The prefix for the program at this path: the name of its file, or `pool`.
pub(crate) fn default_prefix(path: &str) -> &str
    ensures { result.now ≡ default_prefix path.now }
{
    match Path::new(path).file_stem() {
        Some(stem) if is_prefix(stem) => stem,
        _ => "pool",
    }
}
