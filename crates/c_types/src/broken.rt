//! Broken rules, and which one is reported.

ghost use Rattle.std.specs.Prelude.{◌≡◌, List, [], ◌∷◌};
ghost use Rattle.c_types.specs.Broken.{rule_number, limit_number, limit_in, rule_before, is_before};
ghost use Rattle.c_types.specs.Broken.{lesser, least_from, broken_at, unless};

use crate::fault::LimitKind;

/// A rule that a program breaks.
#[derive(Clone, Copy)]
pub enum Rule {
    UnknownName,
    Twice,
    Mismatch,
    NotAssignable,
    Arity,
    /// A limit, and the value that exceeds it.
    TooBig(LimitKind, u64),
    NoRoot,
    BadTx,
}

/// A rule that is broken at the token of this place.
#[derive(Clone, Copy)]
pub struct Broken {
    pub place: u64,
    pub rule: Rule,
}

/// The number of a rule in the table of typing rules.
fn rule_number(rule: Rule) -> u64
    ensures { result ≡ rule_number rule }
{
    match rule {
        Rule::UnknownName => 1,
        Rule::Twice => 2,
        Rule::Mismatch => 3,
        Rule::NotAssignable => 4,
        Rule::Arity => 5,
        Rule::TooBig(_, _) => 6,
        Rule::NoRoot => 7,
        Rule::BadTx => 8,
    }
}

/// The place of a limit in the table of limits.
fn limit_number(limit: LimitKind) -> u64
    ensures { result ≡ limit_number limit }
{
    match limit {
        LimitKind::Array => 1,
        LimitKind::Struct => 2,
        LimitKind::Root => 3,
        LimitKind::Pointer => 4,
        LimitKind::Structs => 5,
        LimitKind::Functions => 6,
        LimitKind::Parameters => 7,
    }
}

/// That of the limit that a rule names, or 0.
fn limit_in(rule: Rule) -> u64
    ensures { result ≡ limit_in rule }
{
    match rule {
        Rule::TooBig(limit, _) => limit_number(limit),
        Rule::UnknownName => 0,
        Rule::Twice => 0,
        Rule::Mismatch => 0,
        Rule::NotAssignable => 0,
        Rule::Arity => 0,
        Rule::NoRoot => 0,
        Rule::BadTx => 0,
    }
}

/// Whether at one token the one rule is reported rather than the other: the one with the lesser
/// number, and of two limits the one listed first.
fn rule_before(one: Rule, other: Rule) -> bool
    ensures { result ≡ rule_before one other }
{
    let (number, against) = (rule_number(one), rule_number(other));
    number < against || (number == against && limit_in(one) < limit_in(other))
}

/// Whether the first is reported rather than the second.
fn comes_before(one: Broken, other: Broken) -> bool
    ensures { result ≡ is_before one other }
{
    one.place < other.place || (one.place == other.place && rule_before(one.rule, other.rule))
}

/// Notes a rule as broken, and keeps the least of the broken rules, which is the one reported.
pub fn note(least: &mut Option<Broken>, place: u64, rule: Rule)
    ensures { least.new ≡ least_from least.old (broken_at place rule) }
{
    let broken = Broken { place, rule };
    match *least {
        None => {
            *least = Some(broken);
        }
        Some(other) => {
            if comes_before(broken, other) {
                *least = Some(broken);
            }
        }
    }
}

/// Notes a rule as broken unless this holds.
pub fn expect(least: &mut Option<Broken>, holds: bool, place: u64, rule: Rule)
    ensures { least.new ≡ least_from least.old (unless holds place rule) }
{
    if !holds {
        note(least, place, rule);
    }
}
