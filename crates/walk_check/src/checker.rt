//! The checker.

ghost use Rattle.std.specs.Prelude.{◌≡◌, None, Some, take, OnOk, IfErr, option_map, slice_get};
ghost use Rattle.ir.specs.WellFormed.{IsWellFormed};
ghost use Rattle.ir.specs.Places.{instruction_at};
ghost use Rattle.ir.specs.Clobber as clobber;
ghost use Rattle.walk_check.specs.Keeps as keeps;
ghost use Rattle.walk_check.specs.Law.{AllLogged};

use crate::certificate::{Certificate, Piece, Reason, Walk};
use crate::follow::unwritten_ends;
use crate::piece::passing_keeps;
use crate::there::instruction_at;
use crate::walk::walk_keeps;
use ir::{Fact as WalkFact, Instruction, Ir, Origins, Site, Target};

/// The first fault of a certificate, by number: the first bad piece among those that pass calls,
/// else the first bad reason.
#[derive(Clone, Copy, PartialEq, Eq)]
pub enum CheckFault {
    BadPiece(u64),
    BadReason(u64),
}

/// The fact with which a store's class is read.
fn read_ends(target: Target) -> Origins
    ensures { result ≡ Origins.One (clobber.read_fact target) }
{
    match target {
        Target::Root { field, .. } => Origins::One(WalkFact::ReadRoot { field }),
        Target::Field { kind, field, .. } => Origins::One(WalkFact::ReadField { kind, field }),
    }
}

fn is_header(instruction: &Instruction) -> bool
    ensures { result ≡ keeps.writes_header instruction.now }
{
    match instruction {
        Instruction::New { .. } | Instruction::Free { .. } => true,
        _ => false,
    }
}

fn is_new(instruction: &Instruction) -> bool
    ensures { result ≡ keeps.is_new instruction.now }
{
    match instruction {
        Instruction::New { .. } => true,
        _ => false,
    }
}

fn clobbers(
    ir: &Ir,
    passed: &[Piece],
    site: Site,
    store: &Instruction,
    unwrites: &Walk,
    reads: &Walk,
) -> bool
    ensures { result ≡ keeps.clobbers ir.now passed.now site store.now unwrites.now reads.now }
{
    match store {
        Instruction::Store { target, .. } => {
            walk_keeps(
                ir,
                passed,
                site,
                unwritten_ends(*target),
                unwrites.pieces.as_slice(),
            ) && walk_keeps(
                ir,
                passed,
                site,
                read_ends(*target),
                reads.pieces.as_slice(),
            )
        }
        _ => false,
    }
}

fn gives_reason(ir: &Ir, passed: &[Piece], site: Site, i: &Instruction, reason: &Reason) -> bool
    ensures { result ≡ keeps.gives_reason ir.now passed.now site (Some i.now) reason.now }
{
    match reason {
        Reason::Always => is_header(i) && !site.fill,
        Reason::PastFree(walk) => {
            (is_new(i) && site.fill)
                && walk_keeps(
                    ir,
                    passed,
                    site,
                    Origins::One(WalkFact::Freed),
                    walk.pieces.as_slice(),
                )
        }
        Reason::Clobber(unwrites, reads) => {
            !site.fill && clobbers(ir, passed, site, i, unwrites, reads)
        }
    }
}

/// Whether a reason keeps the rules.
fn reason_keeps(ir: &Ir, passed: &[Piece], site: Site, reason: &Reason) -> bool
    ensures { result ≡ keeps.reason_keeps ir.now passed.now site reason.now }
{
    match instruction_at(ir.functions.as_slice(), site.function, site.place) {
        None => false,
        Some(instruction) => gives_reason(ir, passed, site, instruction, reason),
    }
}

fn bad_piece(ir: &Ir, passed: &[Piece]) -> Option<u64>
    ensures { result ≡ keeps.bad_piece ir.now passed.now 0 passed.now }
{
    for (number, piece) in passed.iter().enumerate() {
        if !passing_keeps(ir, &passed[..number], piece) {
            return Some(number as u64);
        }
    }
    None
}

fn bad_reason(ir: &Ir, passed: &[Piece], reasons: &[(Site, Reason)]) -> Option<u64>
    ensures { result ≡ keeps.bad_reason ir.now passed.now 0 reasons.now }
{
    for (number, reason) in reasons.iter().enumerate() {
        if !reason_keeps(ir, passed, reason.0, &reason.1) {
            return Some(number as u64);
        }
    }
    None
}

/// Whether a certificate keeps the rules, and if not, what breaks them first. It takes no memory,
/// and reads only the code and the certificate.
#[tactic(auto, using(crate::proofs::Shown::all_logged))]
pub fn check(ir: &Ir, certificate: &Certificate) -> Result<(), CheckFault>
    requires { IsWellFormed ir.now }
    ensures ok { OnOk result (keeps.certificate_fault ir.now certificate.now ≡ None) }
    ensures err { IfErr result (λ e. keeps.certificate_fault ir.now certificate.now ≡ Some e) }
    ensures logged { OnOk result (AllLogged ir.now certificate.now) }
{
    let passed = certificate.passed.as_slice();
    if let Some(number) = bad_piece(ir, passed) {
        return Err(CheckFault::BadPiece(number));
    }
    if let Some(number) = bad_reason(ir, passed, certificate.reasons.as_slice()) {
        return Err(CheckFault::BadReason(number));
    }
    Ok(())
}
