//! Cutting texts into lines and words.

ghost use Rattle.std.specs.Prelude.{◌≡◌, ◌<◌, ◌≤◌, ◌∷◌, [], length, IfOk, map, codes, MatchOption};
ghost use Rattle.cnvm_script.specs.Pieces.{is_one_of, pieces};
ghost use Rattle.cnvm_script.specs.Lines.{lines, words_of_line, without_cr};

use std::alloc::{AllocError, Global};

/// Whether a byte is one of the stops.
fn is_one_of(stops: &[u8], byte: u8) -> bool
    ensures { result ≡ is_one_of stops.now byte }
{
    for stop in stops {
        if *stop == byte {
            return true;
        }
    }
    false
}

/// The text up to the first stop, and the text after that stop.
#[tactic(auto, using(crate::proofs::Cuts::cut_start, crate::proofs::Cuts::cut_step, crate::proofs::Cuts::cut_stop, crate::proofs::Cuts::cut_end))]
pub(crate) fn cut<'a>(text: &'a [u8], stops: &[u8]) -> (&'a [u8], Option<&'a [u8]>)
    ensures pieces { MatchOption result.1 (pieces stops.now text.now ≡ result.0.now ∷ [])
        (λ rest. pieces stops.now text.now ≡ result.0.now ∷ pieces stops.now rest.now) }
    ensures shorter { MatchOption result.1 (length result.0.now ≡ length text.now)
        (λ rest. length rest.now < length text.now) }
{
    for (at, byte) in text.iter().enumerate() {
        if is_one_of(stops, *byte) {
            return (&text[..at], Some(&text[at + 1..]));
        }
    }
    (text, None)
}

/// The first line of a text that isn't empty, and the text after it.
#[tactic(auto, using(crate::proofs::Cuts::ended_cut, crate::proofs::Cuts::ended_last))]
pub fn next_line<'a>(text: &'a [u8]) -> (&'a [u8], &'a [u8])
    requires { 0 < length text.now }
    ensures lines { lines text.now ≡ result.0.now ∷ lines result.1.now }
    ensures shorter { length result.1.now < length text.now }
{
    match cut(text, b"\n") {
        (line, Some(rest)) => (before_cr(line), rest),
        (line, None) => (line, &text[text.len()..]),
    }
}

/// The line without a CR as its last byte.
fn before_cr(line: &[u8]) -> &[u8]
    ensures { result.now ≡ without_cr line.now }
{
    let size = line.len();
    if size > 0 && line[size - 1] == b'\r' {
        return &line[..size - 1];
    }
    line
}

/// The words of a line.
pub fn words_of<'a>(alloc: Global, line: &'a [u8]) -> Result<Vec<&'a [u8]>, AllocError>
    ensures { IfOk result (λ all. map (λ word. word.now) all.items ≡ words_of_line line.now) }
{
    let mut all = Vec::new(alloc);
    let mut rest = line;
    'pieces: loop {
        let (word, others) = cut(rest, b" \t");
        if !word.is_empty() {
            all.push(word)?;
        }
        match others {
            Some(text) => rest = text,
            None => return Ok(all),
        }
    }
}
