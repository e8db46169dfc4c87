//! The values of numbers.

ghost use Rattle.std.specs.Prelude.{◌≡◌, ◌+◌, ◌*◌, ◌<◌, ◌≤◌, MatchOption};
ghost use Rattle.c_lexer.specs.Numbers.{digits_after, numeral, number_of};

/// A value with one more digit; `None` if that is over the greatest.
fn with_digit(value: u64, base: u32, digit: u32, most: u64) -> Option<u64>
    ensures { MatchOption result (most < value * base + digit)
        (λ more. (more ≡ value * base + digit) × (more ≤ most)) }
{
    let more = value
        .checked_mul(u64::from(base))?
        .checked_add(u64::from(digit))?;
    if more > most {
        return None;
    }
    Some(more)
}

/// The word of digits in a base; `None` if a byte is no digit or the value is over the greatest.
#[tactic(auto, using(crate::proofs::Numbers::too_large_there))]
fn digits_value(digits: &[u8], base: u32, most: u64) -> Option<i64>
    requires least { 2 ≤ base }
    requires most { base ≤ 16 }
    ensures { result ≡ digits_after base most 0 digits.now }
{
    let mut value: u64 = 0;
    for byte in digits {
        let digit = char::from(*byte).to_digit(base)?;
        value = with_digit(value, base, digit, most)?;
    }
    Some(value.cast_signed())
}

/// The same, if there is at least one digit.
fn numeral(digits: &[u8], base: u32, most: u64) -> Option<i64>
    requires least { 2 ≤ base }
    requires most { base ≤ 16 }
    ensures { result ≡ numeral base most digits.now }
{
    if digits.is_empty() {
        return None;
    }
    digits_value(digits, base, most)
}

/// The word of a run of letters, digits and `_`, if it is a number.
#[tactic(auto, unfolding(crate::specs::Numbers::number_of))]
pub(crate) fn number_of(run: &[u8]) -> Option<i64>
    ensures { result ≡ number_of run.now }
{
    if run.starts_with(b"0x") || run.starts_with(b"0X") {
        return numeral(&run[2..], 16, u64::MAX);
    }
    if run.starts_with(b"0") && run.len() > 1 {
        return None;
    }
    numeral(run, 10, i64::MAX as u64)
}
