//! Facts at calls: where a fact after a call comes from.

ghost use Rattle.std.specs.Prelude.{◌≡◌, ◌==◌, position};
ghost use Rattle.ir.specs.Table as ir_table;
ghost use Rattle.walk_maker.specs.inside.Calls as calls;

use ir::{Back, Fact as WalkFact};

/// The number of the first argument that is this register.
fn first_at(args: &[u32], register: u32) -> Option<usize>
    ensures { result ≡ position (λ a. a == register) args.now }
{
    args.iter().position(|a| *a == register)
}

/// Where a fact right after a call comes from: the called function, or the place before the call.
pub(crate) fn back(parameters: u32, to: u32, args: &[u32], after: WalkFact) -> Back
    ensures { result ≡ calls.back_in parameters to args.now after }
{
    match after {
        WalkFact::Unwritten {
            register,
            kind,
            field,
        } => {
            if register == to {
                return Back::FromReturn(WalkFact::Here);
            }
            match first_at(args, register) {
                None => Back::Stays,
                Some(place) => from_place(parameters, place, kind, field),
            }
        }
        _ => Back::FromReturn(after),
    }
}

/// Where the fact about the argument at a place comes from.
fn from_place(parameters: u32, place: usize, kind: u32, field: u32) -> Back
    ensures { result ≡ calls.from_place parameters place kind field }
{
    if place < parameters as usize {
        Back::FromReturn(WalkFact::Unwritten {
            register: place as u32,
            kind,
            field,
        })
    } else {
        Back::Stays
    }
}

/// The fact that holds at the call if this one is to hold at the called function's entry.
pub(crate) fn at_call(args: &[u32], inside: WalkFact) -> WalkFact
    ensures { result ≡ ir_table.at_call args.now inside }
{
    match inside {
        WalkFact::Unwritten {
            register,
            kind,
            field,
        } => match args.get(register as usize) {
            None => WalkFact::Here,
            Some(argument) => WalkFact::Unwritten {
                register: *argument,
                kind,
                field,
            },
        },
        _ => inside,
    }
}

/// The fact that has to hold at the called function's return, so that this one holds after the
/// call.
pub(crate) fn exit_of(origin: Back) -> WalkFact
    ensures { result ≡ calls.exit_of origin }
{
    match origin {
        Back::FromReturn(fact) => fact,
        Back::Stays => WalkFact::Here,
    }
}

/// The fact at a call from which a fact after it follows, through a piece of a walk whose first
/// fact is `first`.
pub(crate) fn before_call(origin: Back, args: &[u32], first: WalkFact, after: WalkFact) -> WalkFact
    ensures { result ≡ calls.before_call origin args.now first after }
{
    match origin {
        Back::FromReturn(_) => at_call(args, first),
        Back::Stays => after,
    }
}
