//! Bytes that begin no token, and runs that are no numbers.

use crate::spelled::is;
use std::alloc::{AllocError, Global};

/// What to write instead of a byte that begins no token. `left` is the text from the byte on.
pub fn bad_byte(left: &[u8]) -> &'static str {
    let Some(byte) = left.first() else {
        return "the text ends here";
    };
    match *byte {
        b'"' => "there are no strings: a program works on numbers and objects",
        b'\'' => "there are no characters: write the number, as 97 for 'a'",
        b'#' => hash_note(left),
        b'\\' => "a line is not continued: leave the `\\` out",
        b'@' | b'$' | b'`' => "this byte has no meaning in the language",
        0..=31 | 127 => "a control byte has no meaning in the language",
        128..=255 => beyond_ascii(left),
        _ => "this byte has no meaning in the language",
    }
}

fn beyond_ascii(left: &[u8]) -> &'static str {
    if left.starts_with(b"\xEF\xBB\xBF") {
        return "the text begins with a byte order mark: save it without one";
    }
    "outside of comments a text is ASCII"
}

fn hash_note(left: &[u8]) -> &'static str {
    if left.starts_with(b"#define") {
        return "there are no macros: write `int64_t size() { return 64; }`, or the number itself";
    }
    "only lines that begin with `#include` are skipped: leave the others out"
}

/// What to write instead of a run of letters and digits that is no number.
pub fn bad_number(alloc: Global, run: &[u8]) -> Result<String, AllocError> {
    String::from_str(alloc, number_note(run))
}

fn number_note(run: &[u8]) -> &'static str {
    if is(run, "0x") || is(run, "0X") {
        return "hexadecimal digits follow `0x`";
    }
    if run.starts_with(b"0b") || run.starts_with(b"0B") {
        return "there are no binary numbers: write it in decimal or after `0x`";
    }
    if all_digits(run) && run.starts_with(b"0") {
        return "a number has no leading 0: write it in decimal, as 8 for `010`";
    }
    if all_digits(run) {
        return "the greatest number is 9223372036854775807; the least is `1 << 63`";
    }
    if ends_in_suffix(run) {
        return "a number has no suffix: leave the `L`, `U` or `u` out";
    }
    if run.starts_with(b"0x") || run.starts_with(b"0X") {
        return "after `0x` come hexadecimal digits, of at most ffffffffffffffff";
    }
    "a number is decimal digits, or `0x` and hexadecimal digits; a name begins with a letter"
}

fn all_digits(run: &[u8]) -> bool {
    for byte in run {
        if !byte.is_ascii_digit() {
            return false;
        }
    }
    true
}

/// Whether digits end in letters that C allows after a number.
fn ends_in_suffix(run: &[u8]) -> bool {
    match run.last() {
        Some(byte) => matches!(*byte, b'L' | b'l' | b'U' | b'u'),
        None => false,
    }
}
