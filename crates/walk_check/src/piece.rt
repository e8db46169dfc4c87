//! Whether a piece keeps the rules.

ghost use Rattle.std.specs.Prelude.{◌≡◌, true, Some, option_map, slice_get};
ghost use Rattle.walk_check.specs.Keeps as keeps;

use crate::certificate::{Fact, Piece, Step};
use crate::follow::{along, fact_of, is_next, leads, passes, same};
use crate::there::{all_there, instruction_at};
use ir::{Fact as WalkFact, Instruction, Ir, IrFunction};

/// The first step of a piece.
fn first_step(steps: &[Step]) -> Step
    ensures { result ≡ keeps.first_step steps.now }
{
    match steps.get(0) {
        Some(step) => *step,
        None => Step {
            place: 0,
            fact: Fact::Start,
            through: None,
        },
    }
}

/// The last step of a piece.
#[tactic(auto, using(crate::proofs::Last::last_step_get))]
fn last_step(steps: &[Step]) -> Step
    ensures { result ≡ keeps.last_step keeps.blank_step steps.now }
{
    match steps.last() {
        Some(step) => *step,
        None => Step {
            place: 0,
            fact: Fact::Start,
            through: None,
        },
    }
}

/// The fact with which a piece begins.
pub fn first_fact(piece: &Piece) -> WalkFact
    ensures { result ≡ keeps.first_fact piece.now }
{
    fact_of(first_step(piece.steps.as_slice()).fact)
}

/// The place at which a piece ends.
pub fn last_place(piece: &Piece) -> u32
    ensures { result ≡ keeps.last_place piece.now }
{
    last_step(piece.steps.as_slice()).place
}

/// The fact with which a piece ends.
pub fn last_fact(piece: &Piece) -> WalkFact
    ensures { result ≡ keeps.last_fact piece.now }
{
    fact_of(last_step(piece.steps.as_slice()).fact)
}

/// Whether the next step follows along an instruction.
fn goes(code: &[Instruction], a: Step, b: Step) -> bool
    ensures { result ≡ keeps.goes_along (slice_get code.now a.place) a b }
{
    match code.get(a.place as usize) {
        None => false,
        Some(instruction) => {
            leads(instruction, a.place, b.place)
                && along(instruction, fact_of(a.fact), fact_of(b.fact))
        }
    }
}

/// Whether the next step follows past a call, through a piece.
fn past_call(instruction: &Instruction, piece: &Piece, a: Step, b: Step) -> bool
    ensures { result ≡ keeps.past_call instruction.now piece.now a b }
{
    match instruction {
        Instruction::Call { to, function, args } => {
            piece.function == *function
                && (is_next(a.place, b.place)
                    && passes(
                        *to,
                        args.as_slice(),
                        fact_of(a.fact),
                        first_fact(piece),
                        last_fact(piece),
                        fact_of(b.fact),
                    ))
        }
        _ => false,
    }
}

/// Whether the next step follows past the call at the first one's place, through one of the pieces.
fn goes_past(code: &[Instruction], passed: &[Piece], n: u64, a: Step, b: Step) -> bool
    ensures { result ≡ keeps.goes_past (slice_get code.now a.place) (slice_get passed.now n) a b }
{
    match code.get(a.place as usize) {
        None => false,
        Some(instruction) => match passed.get(n as usize) {
            None => false,
            Some(piece) => past_call(instruction, piece, a, b),
        },
    }
}

/// Whether the next step follows.
pub fn follows(passed: &[Piece], body: &IrFunction, a: Step, b: Step) -> bool
    ensures { result ≡ keeps.follows passed.now body.now a b a.through }
{
    match a.through {
        None => goes(body.code.as_slice(), a, b),
        Some(number) => goes_past(body.code.as_slice(), passed, number, a, b),
    }
}

/// Whether a walk has a fact at an entry.
pub fn begun(opens: bool, body: &IrFunction, fact: WalkFact) -> bool
    ensures { result ≡ keeps.holds_at_entry opens body.now fact }
{
    match fact {
        WalkFact::Unwritten { register, .. } => opens || body.parameters <= register,
        WalkFact::RootUnwritten { .. } => opens,
        _ => false,
    }
}

/// Whether the second step is also at the entry, with a fact that a walk has there.
fn begins(opens: bool, body: &IrFunction, a: Step, b: Step) -> bool
    ensures { result ≡ keeps.begins_piece opens body.now a b }
{
    !a.through.is_some()
        && (b.place == 0
            && (same(fact_of(a.fact), WalkFact::Here) && begun(opens, body, fact_of(b.fact))))
}

/// Whether each step follows from the one before.
fn chain(passed: &[Piece], opens: bool, body: &IrFunction, first: Step, steps: &[Step]) -> bool
    ensures { result ≡ keeps.chain passed.now opens body.now true first steps.now }
{
    let mut entry = true;
    let mut here = first;
    for step in steps {
        if !((entry && begins(opens, body, here, *step)) || follows(passed, body, here, *step)) {
            return false;
        }
        entry = false;
        here = *step;
    }
    !here.through.is_some()
}

fn steps_keep(ir: &Ir, passed: &[Piece], opens: bool, steps: &[Step], body: &IrFunction) -> bool
    ensures { result ≡ keeps.steps_keep ir.now passed.now opens steps.now (Some body.now) }
{
    match steps.split_first() {
        None => false,
        Some((first, rest)) => {
            first.place == 0
                && (all_there(&ir.shapes, body, steps) && chain(passed, opens, body, *first, rest))
        }
    }
}

/// Whether a piece keeps the rules, with the pieces that may pass its calls.
pub fn piece_keeps(ir: &Ir, passed: &[Piece], opens: bool, piece: &Piece) -> bool
    ensures { result ≡ keeps.piece_keeps ir.now passed.now opens piece.now }
{
    match ir.functions.as_slice().get(piece.function as usize) {
        None => false,
        Some(body) => steps_keep(ir, passed, opens, piece.steps.as_slice(), body),
    }
}

fn is_return(instruction: Option<&Instruction>) -> bool
    ensures { result ≡ keeps.is_return (option_map (λ i. i.now) instruction.entry) }
{
    match instruction {
        Some(Instruction::Return { .. }) => true,
        _ => false,
    }
}

/// Whether a piece that passes calls keeps the rules: it ends at a return.
pub fn passing_keeps(ir: &Ir, earlier: &[Piece], piece: &Piece) -> bool
    ensures { result ≡ keeps.passing_keeps ir.now earlier.now piece.now }
{
    piece_keeps(ir, earlier, false, piece)
        && is_return(instruction_at(ir.functions.as_slice(), piece.function, last_place(piece)))
}
