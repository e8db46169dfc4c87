//! The operations on 64-bit words, which wrap, and the number of a word.

ghost use Rattle.std.specs.Prelude.{◌≡◌, ◌≢◌, pos};
ghost use Rattle.nvm_base.specs.Naturals.{natural_of};
ghost use Rattle.nvm_base.specs.Operations as word;

/// `a + b`, wrapped.
#[tactic(auto, using(std::proofs::lemmas::Int::wraps))]
pub fn add(a: i64, b: i64) -> i64
    ensures { result ≡ word.add a b }
{
    a.wrapping_add(b)
}

/// `a - b`, wrapped.
#[tactic(auto, using(std::proofs::lemmas::Int::wraps))]
pub fn sub(a: i64, b: i64) -> i64
    ensures { result ≡ word.sub a b }
{
    a.wrapping_sub(b)
}

/// `a * b`, wrapped.
#[tactic(auto, using(std::proofs::lemmas::Int::wraps))]
pub fn mul(a: i64, b: i64) -> i64
    ensures { result ≡ word.mul a b }
{
    a.wrapping_mul(b)
}

/// `a / b`, truncated toward zero and wrapped.
#[tactic(auto, using(crate::proofs::WordLemmas::words))]
pub fn div(a: i64, b: i64) -> i64
    requires { b ≢ pos 0 }
    ensures { result ≡ word.div a b }
{
    a.wrapping_div(b)
}

/// The remainder of `a / b`, with the sign of `a`.
#[tactic(auto, using(crate::proofs::WordLemmas::words))]
pub fn rem(a: i64, b: i64) -> i64
    requires { b ≢ pos 0 }
    ensures { result ≡ word.rem a b }
{
    a.wrapping_rem(b)
}

/// `a` shifted to the left by `b` modulo 64.
#[tactic(auto, using(crate::proofs::WordLemmas::words))]
pub fn shl(a: i64, b: i64) -> i64
    ensures { result ≡ word.shl a b }
{
    a.wrapping_shl((b.cast_unsigned() % 64) as u32)
}

/// `a` shifted to the right by `b` modulo 64, copying the sign bit.
#[tactic(auto, using(crate::proofs::WordLemmas::words))]
pub fn shr(a: i64, b: i64) -> i64
    ensures { result ≡ word.shr a b }
{
    a.wrapping_shr((b.cast_unsigned() % 64) as u32)
}

/// 1 if `a < b`, else 0.
pub fn less(a: i64, b: i64) -> i64
    ensures { result ≡ word.less a b }
{
    i64::from(a < b)
}

/// 1 if `a < b` as unsigned numbers, else 0.
pub fn ult(a: i64, b: i64) -> i64
    ensures { result ≡ word.ult a b }
{
    i64::from(a.cast_unsigned() < b.cast_unsigned())
}

/// 1 if `a <= b` as unsigned numbers, else 0.
pub fn ule(a: i64, b: i64) -> i64
    ensures { result ≡ word.ule a b }
{
    i64::from(a.cast_unsigned() <= b.cast_unsigned())
}

/// `a / b` of unsigned numbers.
#[tactic(auto, using(crate::proofs::WordLemmas::words))]
pub fn udiv(a: i64, b: i64) -> i64
    requires { b ≢ pos 0 }
    ensures { result ≡ word.udiv a b }
{
    (a.cast_unsigned() / b.cast_unsigned()).cast_signed()
}

/// The remainder of `a / b` of unsigned numbers.
#[tactic(auto, using(crate::proofs::WordLemmas::words))]
pub fn urem(a: i64, b: i64) -> i64
    requires { b ≢ pos 0 }
    ensures { result ≡ word.urem a b }
{
    (a.cast_unsigned() % b.cast_unsigned()).cast_signed()
}

/// `a` shifted to the right by `b` modulo 64, with zeros put in.
#[tactic(auto, using(crate::proofs::WordLemmas::words))]
pub fn ushr(a: i64, b: i64) -> i64
    ensures { result ≡ word.ushr a b }
{
    a.cast_unsigned()
        .wrapping_shr((b.cast_unsigned() % 64) as u32)
        .cast_signed()
}

/// The word's number; 0 for a word below 0.
#[tactic(auto, using(std::proofs::lemmas::Int::wraps))]
pub fn natural_of(word: i64) -> u64
    ensures { result ≡ natural_of word }
{
    match u64::try_from(word) {
        Ok(number) => number,
        Err(_) => 0,
    }
}
