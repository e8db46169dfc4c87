//! Which fact follows from which.

ghost use Rattle.std.specs.Prelude.{◌≡◌, ◌==◌, ◌+◌, ◌<◌, length, position, IfSome, not, is_some};
ghost use Rattle.ir.specs.declared.fact.Fact.TheVariants.{Unwritten as NotWritten};
ghost use Rattle.ir.specs.Table.{back};
ghost use Rattle.walk_check.specs.Facts as facts;
ghost use Rattle.walk_check.specs.Follow as follow;

use crate::certificate::{Class, Fact};
use crate::table::origins;
use ir::{Fact as WalkFact, Instruction, Origins, Target};

/// A certificate's fact as a fact of walks.
pub fn fact_of(fact: Fact) -> WalkFact
    ensures { result ≡ facts.fact_of fact }
{
    match fact {
        Fact::Start => WalkFact::Here,
        Fact::Unwritten(register, kind, field) => WalkFact::Unwritten {
            register,
            kind,
            field,
        },
        Fact::UnwrittenRoot(field) => WalkFact::RootUnwritten { field },
        Fact::Read(Class::Root(field)) => WalkFact::ReadRoot { field },
        Fact::Read(Class::Field(kind, field)) => WalkFact::ReadField { kind, field },
        Fact::Freed => WalkFact::Freed,
    }
}

/// A fact of walks, as a certificate's fact.
pub fn told(fact: WalkFact) -> Fact
    ensures { result ≡ facts.told fact }
{
    match fact {
        WalkFact::Here => Fact::Start,
        WalkFact::Unwritten {
            register,
            kind,
            field,
        } => Fact::Unwritten(register, kind, field),
        WalkFact::RootUnwritten { field } => Fact::UnwrittenRoot(field),
        WalkFact::ReadRoot { field } => Fact::Read(Class::Root(field)),
        WalkFact::ReadField { kind, field } => Fact::Read(Class::Field(kind, field)),
        WalkFact::Freed => Fact::Freed,
    }
}

/// Whether two facts are the same.
pub fn same(a: WalkFact, b: WalkFact) -> bool
    ensures { result ≡ facts.same a b }
{
    match (a, b) {
        (WalkFact::Here, WalkFact::Here) => true,
        (
            WalkFact::Unwritten {
                register: q,
                kind: t,
                field: y,
            },
            WalkFact::Unwritten {
                register: r,
                kind: s,
                field: x,
            },
        ) => q == r && (t == s && y == x),
        (WalkFact::RootUnwritten { field: y }, WalkFact::RootUnwritten { field: x }) => y == x,
        (WalkFact::ReadRoot { field: y }, WalkFact::ReadRoot { field: x }) => y == x,
        (WalkFact::ReadField { kind: t, field: y }, WalkFact::ReadField { kind: s, field: x }) => {
            t == s && y == x
        }
        (WalkFact::Freed, WalkFact::Freed) => true,
        _ => false,
    }
}

/// Whether a fact is one of those named.
pub fn among(fact: WalkFact, named: Origins) -> bool
    ensures { result ≡ facts.among fact named }
{
    match named {
        Origins::Nowhere => false,
        Origins::One(a) => same(fact, a),
        Origins::Two(a, b) => same(fact, a) || same(fact, b),
    }
}

/// Whether an instruction at one place leads to the other within its function.
pub fn leads(instruction: &Instruction, from: u32, to: u32) -> bool
    ensures { result ≡ follow.leads instruction.now from to }
{
    match instruction {
        Instruction::Jump { place } => to == *place,
        Instruction::Branch { place, .. } => is_next(from, to) || to == *place,
        Instruction::Call { .. } | Instruction::Return { .. } | Instruction::Trap { .. } => false,
        _ => is_next(from, to),
    }
}

/// Whether a place is right after another.
pub fn is_next(from: u32, to: u32) -> bool
    ensures { result ≡ (to == from + 1) }
{
    u64::from(to) == u64::from(from) + 1
}

/// Whether a load of an element of a root's array gives its class from Start.
fn array_read(instruction: &Instruction, a: WalkFact, b: WalkFact) -> bool
    ensures { result ≡ follow.array_read instruction.now a b }
{
    match instruction {
        Instruction::Load {
            target: Target::Root {
                field,
                index: Some(_),
            },
            ..
        } => match a {
            WalkFact::Here => match b {
                WalkFact::ReadRoot { field: read } => read == *field,
                _ => false,
            },
            _ => false,
        },
        _ => false,
    }
}

/// Whether after an instruction one fact follows from another.
pub fn along(instruction: &Instruction, a: WalkFact, b: WalkFact) -> bool
    ensures { result ≡ follow.along instruction.now a b }
{
    among(a, origins(instruction, b)) || array_read(instruction, a, b)
}

/// The first place of a register among the arguments.
fn first_at(args: &[u32], register: u32) -> Option<usize>
    ensures { result ≡ position (λ a. a == register) args.now }
{
    args.iter().position(|a| *a == register)
}

/// Whether a fact isn't about an argument, or is Start.
fn unpassed(args: &[u32], fact: WalkFact) -> bool
    ensures { result ≡ follow.unpassed args.now fact }
{
    match fact {
        WalkFact::Here => true,
        WalkFact::Unwritten { register, .. } => match first_at(args, register) {
            None => true,
            Some(_) => false,
        },
        _ => false,
    }
}

/// Whether a fact at a call is bound as the other at the called function's entry.
pub fn binds(args: &[u32], a: WalkFact, b: WalkFact) -> bool
    ensures { result ≡ follow.binds args.now a b }
{
    match b {
        WalkFact::Unwritten {
            register,
            kind,
            field,
        } => match args.get(register as usize) {
            None => false,
            Some(argument) => same(
                a,
                WalkFact::Unwritten {
                    register: *argument,
                    kind,
                    field,
                },
            ),
        },
        WalkFact::Here => unpassed(args, a),
        _ => same(a, b),
    }
}

/// Whether a fact says that a field isn't written through the parameter at this place.
fn is_parameter(place: usize, kind: u32, field: u32, fact: WalkFact) -> bool
    ensures { result ≡ facts.same (NotWritten place kind field) fact }
{
    match fact {
        WalkFact::Unwritten {
            register: r,
            kind: s,
            field: x,
        } => place == r as usize && (kind == s && field == x),
        _ => false,
    }
}

/// Whether one fact follows from another past a call, through a piece between these two facts.
pub fn passes(to: u32, args: &[u32], a: WalkFact, x: WalkFact, y: WalkFact, b: WalkFact) -> bool
    ensures { result ≡ follow.passes args.now a x y b (back to args.now b) }
{
    match b {
        WalkFact::Unwritten {
            register,
            kind,
            field,
        } => {
            if register == to {
                return same(WalkFact::Here, y) && binds(args, a, x);
            }
            match first_at(args, register) {
                Some(place) => is_parameter(place, kind, field, y) && binds(args, a, x),
                None => same(a, b) && (same(x, WalkFact::Here) && same(y, WalkFact::Here)),
            }
        }
        _ => same(b, y) && binds(args, a, x),
    }
}

/// The facts with which a store's target is unwritten.
pub fn unwritten_ends(target: Target) -> Origins
    ensures { result ≡ follow.unwritten_ends target }
{
    match target {
        Target::Root { field, index: None } => Origins::One(WalkFact::RootUnwritten { field }),
        Target::Root {
            field,
            index: Some(_),
        } => Origins::Two(WalkFact::RootUnwritten { field }, WalkFact::Here),
        Target::Field {
            base,
            kind,
            field,
            ..
        } => Origins::One(WalkFact::Unwritten {
            register: base,
            kind,
            field,
        }),
    }
}
