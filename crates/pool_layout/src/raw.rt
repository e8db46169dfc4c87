//! The bytes of what may be an image, in order. They are kept as words, and never as bytes too.

ghost use Rattle.std.specs.Prelude.{◌≡◌, ◌<◌, ◌≤◌, ◌+◌, ◌*◌, ◌%◌, ◌^◌, ◌++◌, ◌∷◌, [], length, OnOk};
ghost use Rattle.pool_layout.specs.Bytes as bytes_are;
ghost use Rattle.pool_layout.specs.Image as image_is;
ghost use Rattle.pool_layout.specs.inside.Bytes as inside_bytes_are;

use crate::bytes::word_in;
use nvm_base::{Bytes, Words};
use std::alloc::{AllocError, Global};
use std::marker::Model;

/// Bytes that come piece by piece: whole words, and the bytes after the last of them.
#[derive(Drop)]
pub struct RawImage {
    words: Words,
    rest: Bytes,
}

impl Model for RawImage {
    ghost use Rattle.std.specs.Prelude.{ℕ, List, ◌++◌, ◌<◌, length};
    ghost use Rattle.pool_layout.specs.Bytes.{bytes_of};
    ghost use Rattle.pool_layout.specs.inside.Bytes.{AreWords};

    ghost Value = { List ℕ };

    ghost view = { λ i. bytes_of i.words ++ i.rest };

    ghost invariant = { λ i. AreWords i.words × (length i.rest < 8) };
}

impl RawImage {
    /// No bytes. It takes no memory.
    pub fn new(alloc: Global) -> Self
        ensures { result ≡ [] }
    {
        RawImage {
            words: Words::new(alloc),
            rest: Bytes::new(alloc),
        }
    }

    /// Makes room for so many more bytes, if there is memory for them.
    pub fn reserve(&mut self, more: usize)
        ensures { self.new ≡ self.old }
    {
        self.words.reserve(more / 8);
    }

    /// The number of bytes.
    pub fn len(&self) -> u64
        ensures value { result ≡ length self.now }
        ensures small { result < 2 ^ 63 }
    {
        let words = self.words.as_slice();
        let rest = self.rest.as_slice();
        8 * words.len() as u64 + rest.len() as u64
    }

    /// Word `k` of the bytes.
    pub fn word(&self, k: u64) -> i64
        requires { 8 * k + 8 ≤ length self.now }
        ensures { result ≡ bytes_are.word_in self.now k }
    {
        let words = self.words.as_slice();
        words[k as usize]
    }

    /// Adds the bytes of a piece.
    pub fn extend(&mut self, piece: &[u8]) -> Result<(), AllocError>
        ensures { OnOk result (self.new ≡ self.old ++ piece.now) }
    {
        push_all(&mut self.words, &mut self.rest, piece)
    }

    /// The words, if the bytes are whole words.
    pub(crate) fn into_words(self) -> Words
        requires { inside_bytes_are.AreWholeWords self }
        ensures bytes { bytes_are.bytes_of result ≡ self }
        ensures whole { 8 * length result ≡ length self }
        ensures words { image_is.image_words result ≡ bytes_are.word_in self }
    {
        let RawImage { words, rest } = self;
        drop(rest);
        words
    }
}

/// Puts a piece at the end of words and the bytes after them.
fn push_all(words: &mut Words, rest: &mut Bytes, piece: &[u8]) -> Result<(), AllocError>
    requires { length rest.old < 8 }
    ensures ok { OnOk result (bytes_are.bytes_of words.new ++ rest.new
        ≡ (bytes_are.bytes_of words.old ++ rest.old) ++ piece.now) }
    ensures words { inside_bytes_are.AreWords words.old → inside_bytes_are.AreWords words.new }
    ensures short { length rest.new < 8 }
{
    let gap = (8 - rest.as_slice().len()) % 8;
    let reaches = piece.len() >= gap;
    if reaches {
        let (first, others) = piece.split_at(gap);
        push_bytes(words, rest, first)?;
        return push_whole(words, rest, others);
    }
    push_bytes(words, rest, piece)
}

/// Puts a piece at the end of words after which no byte comes.
fn push_whole(words: &mut Words, rest: &mut Bytes, piece: &[u8]) -> Result<(), AllocError>
    requires { length rest.old ≡ 0 }
    ensures ok { OnOk result (bytes_are.bytes_of words.new ++ rest.new
        ≡ bytes_are.bytes_of words.old ++ piece.now) }
    ensures words { inside_bytes_are.AreWords words.old → inside_bytes_are.AreWords words.new }
    ensures short { length rest.new < 8 }
{
    let (whole, last) = piece.split_at(piece.len() / 8 * 8);
    push_words(words, whole)?;
    push_bytes(words, rest, last)
}

/// Puts some bytes, one by one, at the end of words and the bytes after them.
fn push_bytes(words: &mut Words, rest: &mut Bytes, bytes: &[u8]) -> Result<(), AllocError>
    requires { length rest.old < 8 }
    ensures ok { OnOk result (bytes_are.bytes_of words.new ++ rest.new
        ≡ (bytes_are.bytes_of words.old ++ rest.old) ++ bytes.now) }
    ensures end { OnOk result (length rest.new ≡ (length rest.old + length bytes.now) % 8) }
    ensures words { inside_bytes_are.AreWords words.old → inside_bytes_are.AreWords words.new }
    ensures short { length rest.new < 8 }
{
    for byte in bytes {
        push_byte(words, rest, *byte)?;
    }
    Ok(())
}

/// Puts a byte at the end of words and the bytes after them.
fn push_byte(words: &mut Words, rest: &mut Bytes, byte: u8) -> Result<(), AllocError>
    requires { length rest.old < 8 }
    ensures ok { OnOk result (bytes_are.bytes_of words.new ++ rest.new
        ≡ (bytes_are.bytes_of words.old ++ rest.old) ++ byte ∷ []) }
    ensures end { OnOk result (length rest.new ≡ (length rest.old + 1) % 8) }
    ensures words { inside_bytes_are.AreWords words.old → inside_bytes_are.AreWords words.new }
    ensures short { length rest.new < 8 }
{
    if rest.as_slice().len() == 7 {
        return end_word(words, rest, byte);
    }
    rest.push(byte)?;
    Ok(())
}

/// Puts the last byte of a word at the end of words and the seven bytes after them.
fn end_word(words: &mut Words, rest: &mut Bytes, byte: u8) -> Result<(), AllocError>
    requires { length rest.old ≡ 7 }
    ensures ok { OnOk result (bytes_are.bytes_of words.new ++ rest.new
        ≡ (bytes_are.bytes_of words.old ++ rest.old) ++ byte ∷ []) }
    ensures end { OnOk result (length rest.new ≡ (length rest.old + 1) % 8) }
    ensures words { inside_bytes_are.AreWords words.old → inside_bytes_are.AreWords words.new }
    ensures short { length rest.new < 8 }
{
    rest.push(byte)?;
    let pushed = push_words(words, rest.as_slice());
    rest.clear();
    pushed
}

/// Puts the words of these bytes at the end of words.
fn push_words(words: &mut Words, bytes: &[u8]) -> Result<(), AllocError>
    requires { inside_bytes_are.AreWholeWords bytes.now }
    ensures ok { OnOk result (bytes_are.bytes_of words.new
        ≡ bytes_are.bytes_of words.old ++ bytes.now) }
    ensures words { inside_bytes_are.AreWords words.old → inside_bytes_are.AreWords words.new }
{
    let count = bytes.len() as u64 / 8;
    for k in 0..count {
        words.push(word_in(bytes, k))?;
    }
    Ok(())
}
