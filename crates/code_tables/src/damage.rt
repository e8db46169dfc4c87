//! Damaged certificates: of fixed and of drawn programs, each kind of damage to the first reason
//! with two walks is refused as that reason.

ghost use Rattle.ir.specs.WellFormed.{IsWellFormed};

use crate::cases::{Case, case_program};
use crate::programs::program;
use crate::well_formed::is_well_formed;
use ir::{Ir, Site};
use std::alloc::{AllocError, Global};
use std::test::Fail;
use walk_check::{
    Certificate, CheckFault, Fact, Piece, Pieces, Reason, Reasons, Step, StepList, Walk, check,
};
use walk_maker::explain;

/// What is changed in a reason. A walk, a piece and a step are the first walk, its last piece and
/// that piece's last step.
#[derive(Clone, Copy, Debug, PartialEq, Eq)]
enum Damage {
    Nothing,
    PlaceRaised,
    FactExchanged,
    PassedThrough,
    FirstStepLeftOut,
    OtherFunction,
    NoPieces,
    WalksExchanged,
    OtherSite,
    SaidAlways,
    SaidPastFree,
}

/// How many programs are drawn.
const PROGRAMS: u64 = 2_500;

const KINDS: [Damage; 10] = [
    Damage::PlaceRaised,
    Damage::FactExchanged,
    Damage::PassedThrough,
    Damage::FirstStepLeftOut,
    Damage::OtherFunction,
    Damage::NoPieces,
    Damage::WalksExchanged,
    Damage::OtherSite,
    Damage::SaidAlways,
    Damage::SaidPastFree,
];

const CASES: [Case; 7] = [
    Case::ReadFirst,
    Case::LastOfTwo,
    Case::Recursion,
    Case::AfterRecursion,
    Case::BackEdge,
    Case::Alias,
    Case::RootArray,
];

fn changed_step(step: Step, damage: Damage) -> Step {
    match damage {
        Damage::PlaceRaised => Step {
            place: step.place.saturating_add(1),
            ..step
        },
        Damage::FactExchanged => Step {
            fact: Fact::Freed,
            ..step
        },
        Damage::PassedThrough => Step {
            through: Some(0),
            ..step
        },
        _ => step,
    }
}

/// The steps that are left, perhaps without the first one.
fn left(steps: &[Step], damage: Damage) -> &[Step] {
    match (steps.split_first(), damage) {
        (Some((_, rest)), Damage::FirstStepLeftOut) => rest,
        _ => steps,
    }
}

fn steps_with(alloc: Global, steps: &[Step], damage: Damage) -> Result<StepList, AllocError> {
    let mut list = StepList::new(alloc);
    let Some((last, before)) = left(steps, damage).split_last() else {
        return Ok(list);
    };
    list.extend(before)?;
    list.push(changed_step(*last, damage))?;
    Ok(list)
}

fn piece_with(alloc: Global, piece: &Piece, damage: Damage) -> Result<Piece, AllocError> {
    let function = match damage {
        Damage::OtherFunction => piece.function.saturating_add(1),
        _ => piece.function,
    };
    Ok(Piece {
        function,
        steps: steps_with(alloc, piece.steps.as_slice(), damage)?,
    })
}

/// The pieces, with this damage to the last.
fn pieces_with(alloc: Global, pieces: &[Piece], damage: Damage) -> Result<Pieces, AllocError> {
    let mut list = Pieces::new(alloc);
    let Some((last, before)) = pieces.split_last() else {
        return Ok(list);
    };
    for piece in before {
        list.push(piece_with(alloc, piece, Damage::Nothing)?)?;
    }
    list.push(piece_with(alloc, last, damage)?)?;
    Ok(list)
}

fn walk_with(alloc: Global, walk: &Walk, damage: Damage) -> Result<Walk, AllocError> {
    let pieces = match damage {
        Damage::NoPieces => Pieces::new(alloc),
        _ => pieces_with(alloc, walk.pieces.as_slice(), damage)?,
    };
    Ok(Walk { pieces })
}

fn clobber_with(
    alloc: Global,
    unwrites: &Walk,
    reads: &Walk,
    damage: Damage,
) -> Result<Reason, AllocError> {
    let first = walk_with(alloc, unwrites, damage)?;
    let second = walk_with(alloc, reads, Damage::Nothing)?;
    Ok(match damage {
        Damage::WalksExchanged => Reason::Clobber(second, first),
        Damage::SaidAlways => Reason::Always,
        Damage::SaidPastFree => Reason::PastFree(first),
        _ => Reason::Clobber(first, second),
    })
}

fn reason_with(alloc: Global, reason: &Reason, damage: Damage) -> Result<Reason, AllocError> {
    match reason {
        Reason::Always => Ok(Reason::Always),
        Reason::PastFree(walk) => Ok(Reason::PastFree(walk_with(alloc, walk, damage)?)),
        Reason::Clobber(unwrites, reads) => clobber_with(alloc, unwrites, reads, damage),
    }
}

fn site_with(site: Site, damage: Damage) -> Site {
    match damage {
        Damage::OtherSite => Site {
            place: site.place.saturating_add(1),
            ..site
        },
        _ => site,
    }
}

/// The reasons, with this damage to one of them.
fn reasons_with(
    alloc: Global,
    reasons: &[(Site, Reason)],
    at: usize,
    damage: Damage,
) -> Result<Reasons, AllocError> {
    let mut list = Reasons::new(alloc);
    for (number, reason) in reasons.iter().enumerate() {
        let damage = if number == at {
            damage
        } else {
            Damage::Nothing
        };
        let changed = reason_with(alloc, &reason.1, damage)?;
        list.push((site_with(reason.0, damage), changed))?;
    }
    Ok(list)
}

fn is_clobber(reason: &(Site, Reason)) -> bool {
    match reason.1 {
        Reason::Clobber(_, _) => true,
        _ => false,
    }
}

/// Whether the checker answers the certificate with this damage as it should.
fn is_told(
    alloc: Global,
    ir: &Ir,
    certificate: &Certificate,
    at: usize,
    damage: Damage,
) -> Result<bool, AllocError>
    requires { IsWellFormed ir.now }
{
    let changed = Certificate {
        passed: pieces_with(alloc, certificate.passed.as_slice(), Damage::Nothing)?,
        reasons: reasons_with(alloc, certificate.reasons.as_slice(), at, damage)?,
    };
    let wanted = match damage {
        Damage::Nothing => Ok(()),
        _ => Err(CheckFault::BadReason(at as u64)),
    };
    Ok(check(ir, &changed) == wanted)
}

/// The first kind of damage to a reason of a certificate that is reported wrongly.
fn wrong_kind(
    alloc: Global,
    ir: &Ir,
    certificate: &Certificate,
    at: usize,
) -> Result<Option<Damage>, AllocError>
    requires { IsWellFormed ir.now }
{
    if !is_told(alloc, ir, certificate, at, Damage::Nothing)? {
        return Ok(Some(Damage::Nothing));
    }
    for damage in KINDS {
        if !is_told(alloc, ir, certificate, at, damage)? {
            return Ok(Some(damage));
        }
    }
    Ok(None)
}

/// What came of the damage to a program's certificate.
#[derive(Clone, Copy, Debug, PartialEq, Eq)]
enum Verdict {
    Refused,
    /// No reason has two walks.
    NoWalks,
    Differs(Damage),
    /// The program isn't well formed.
    Unfit,
}

fn damage_well(alloc: Global, ir: &Ir) -> Result<Verdict, AllocError>
    requires { IsWellFormed ir.now }
{
    let certificate = explain(alloc, ir)?;
    let Some(at) = certificate.reasons.as_slice().iter().position(is_clobber) else {
        return Ok(Verdict::NoWalks);
    };
    match wrong_kind(alloc, ir, &certificate, at)? {
        None => Ok(Verdict::Refused),
        Some(damage) => Ok(Verdict::Differs(damage)),
    }
}

fn damage_checked(alloc: Global, ir: &Ir) -> Result<Verdict, AllocError> {
    if !is_well_formed(ir) {
        return Ok(Verdict::Unfit);
    }
    damage_well(alloc, ir)
}

fn damage_case(alloc: Global, case: Case) -> Result<Verdict, AllocError> {
    let ir = case_program(alloc, case)?;
    damage_checked(alloc, &ir)
}

fn damage_drawn(alloc: Global, number: u64) -> Result<Verdict, AllocError> {
    let ir = program(alloc, number)?;
    damage_checked(alloc, &ir)
}

/// The first fixed program with a damaged certificate that is reported wrongly.
fn wrong_case(alloc: Global) -> Result<Option<(Case, Verdict)>, AllocError> {
    for case in CASES {
        match damage_case(alloc, case)? {
            Verdict::Refused => {}
            other => return Ok(Some((case, other))),
        }
    }
    Ok(None)
}

/// The first drawn program with a damaged certificate that is reported wrongly.
fn wrong_drawn(alloc: Global, count: u64) -> Result<Option<(u64, Verdict)>, AllocError> {
    for number in 0..count {
        match damage_drawn(alloc, number)? {
            Verdict::Refused | Verdict::NoWalks => {}
            other => return Ok(Some((number, other))),
        }
    }
    Ok(None)
}

#[test]
fn each_damage_is_refused(rt: HostRuntime) -> Result<(), Fail> {
    assert_eq!(rt; wrong_case(rt.alloc()), Ok(None));
    Ok(())
}

#[test]
fn each_damage_of_drawn_programs_is_refused(rt: HostRuntime) -> Result<(), Fail> {
    assert_eq!(rt; wrong_drawn(rt.alloc(), PROGRAMS), Ok(None));
    Ok(())
}
