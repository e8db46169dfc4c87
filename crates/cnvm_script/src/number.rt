//! Words that are numbers.

ghost use Rattle.std.specs.Prelude.{◌≡◌, ◌≤◌, ◌<◌, ◌*◌, ◌+◌, ◌^◌, IfSome, MatchOption, Some};
ghost use Rattle.std.specs.Prelude.{None, if◌then◌else◌};
ghost use Rattle.std.specs.Char.{is_ascii_digit, digit_value};
ghost use Rattle.cnvm_script.specs.Number.{bounded_numeral, long_numeral, at_most, as_negative};
ghost use Rattle.cnvm_script.specs.Number.{argument, event_number, pick_read, pick};

use crate::cut::cut;
use cache_model::Pick;

/// The value of a numeral of at most `most` digits; leading zeros count as digits.
pub fn numeral(word: &[u8], most: usize) -> Option<u64>
    requires { most ≤ 19 }
    ensures { result ≡ bounded_numeral most word.now }
{
    if word.is_empty() || word.len() > most {
        return None;
    }
    let mut value = 0u64;
    for byte in word {
        let Some(digit) = digit_of(*byte) else {
            return None;
        };
        value = value * 10 + digit;
    }
    Some(value)
}

/// The value of a decimal digit.
fn digit_of(byte: u8) -> Option<u64>
    ensures value { result ≡ (if is_ascii_digit byte then Some (digit_value byte) else None) }
    ensures small { IfSome result (λ digit. digit < 10) }
{
    if byte.is_ascii_digit() {
        return Some((byte - b'0') as u64);
    }
    None
}

/// A value with one more decimal digit; `None` if that is over 2^64 - 1.
fn with_digit(value: u64, digit: u64) -> Option<u64>
    ensures value { MatchOption result (2 ^ 64 ≤ value * 10 + digit)
        (λ more. more ≡ value * 10 + digit) }
    ensures small { IfSome result (λ more. more < 2 ^ 64) }
{
    value.checked_mul(10)?.checked_add(digit)
}

/// The value of a numeral of at most 20 digits; `None` if it is over 2^64 - 1.
#[tactic(auto, using(crate::proofs::Digits::long_numerals))]
fn long_numeral(word: &[u8]) -> Option<u64>
    ensures { result ≡ long_numeral word.now }
{
    if word.is_empty() || word.len() > 20 {
        return None;
    }
    let mut value = 0u64;
    for byte in word {
        let Some(digit) = digit_of(*byte) else {
            return None;
        };
        let Some(more) = with_digit(value, digit) else {
            return None;
        };
        value = more;
    }
    Some(value)
}

/// An argument: an optional `-` and digits, from -2^63 to 2^64 - 1. From 2^63 on it is the word
/// with the number's bits.
pub(crate) fn argument(word: &[u8]) -> Option<i64>
    ensures { result ≡ argument word.now }
{
    if !word.is_empty() && word[0] == b'-' {
        return as_negative(long_numeral(&word[1..])?);
    }
    Some(long_numeral(word)?.cast_signed())
}

fn as_negative(number: u64) -> Option<i64>
    ensures { result ≡ as_negative number }
{
    if number == 1 << 63 {
        return Some(i64::MIN);
    }
    let size = i64::try_from(number).ok()?;
    Some(-size)
}

/// The number of an event.
pub(crate) fn event_number(word: &[u8]) -> Option<u64>
    ensures { result ≡ event_number word.now }
{
    let number = numeral(word, 10)?;
    if number > 4_294_967_295 {
        return None;
    }
    Some(number)
}

/// A pick: a line, a colon and a version.
#[tactic(auto, using(crate::proofs::Cuts::pick_of_more))]
pub(crate) fn pick(word: &[u8]) -> Option<Pick>
    ensures { result ≡ pick word.now }
{
    let (line, rest) = cut(word, b":");
    let (version, more) = cut(rest?, b":");
    match more {
        Some(_) => None,
        None => picked(line, version),
    }
}

/// The pick of a line and a version.
fn picked(line: &[u8], version: &[u8]) -> Option<Pick>
    ensures { result ≡ pick_read (bounded_numeral 10 line.now) (bounded_numeral 10 version.now) }
{
    Some(Pick {
        line: numeral(line, 10)?,
        version: numeral(version, 10)?,
    })
}
