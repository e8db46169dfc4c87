//! The certificates of drawn and of fixed programs: each is accepted by the checker, and lists
//! exactly the sites that the marks log.

ghost use Rattle.ir.specs.WellFormed.{IsWellFormed};

use crate::cases::{Case, case_program};
use crate::programs::program;
use crate::well_formed::is_well_formed;
use clobber_pass::{MarkTable, marks};
use ir::{Ir, Site};
use std::alloc::{AllocError, Global};
use std::test::Fail;
use walk_check::{Reason, check};
use walk_maker::explain;

/// How many programs are drawn.
const PROGRAMS: u64 = 2_500;

const CASES: [Case; 15] = [
    Case::WrittenFirst,
    Case::ReadFirst,
    Case::Fill,
    Case::FirstOfTwo,
    Case::LastOfTwo,
    Case::OtherCall,
    Case::Recursion,
    Case::AfterRecursion,
    Case::Else,
    Case::BackEdge,
    Case::TwoBackEdges,
    Case::Alias,
    Case::WrittenAlias,
    Case::RootArray,
    Case::ManyStores,
];

/// What came of the certificates. What differs is the first program's number.
#[derive(Clone, Copy, Debug, PartialEq, Eq)]
pub enum Verdict {
    Accepted { reasons: u64 },
    Refused { program: u64 },
    Differs { program: u64 },
    Unfit { program: u64 },
    NoMemory,
}

/// Whether the reasons are of exactly the logged ones among the sites, in their order.
fn lists_logged(sites: &[Site], table: &MarkTable, reasons: &[(Site, Reason)]) -> bool {
    let mut left = reasons;
    for site in sites {
        if table.logged(*site) {
            match left.split_first() {
                Some((reason, rest)) if reason.0 == *site => left = rest,
                _ => return false,
            }
        }
    }
    left.is_empty()
}

fn explain_well(alloc: Global, number: u64, ir: &Ir) -> Result<Verdict, AllocError>
    requires { IsWellFormed ir.now }
{
    let certificate = explain(alloc, ir)?;
    let table = marks(alloc, ir)?;
    let sites = ir.sites(alloc)?;
    let reasons = certificate.reasons.as_slice();
    if check(ir, &certificate).is_err() {
        return Ok(Verdict::Refused { program: number });
    }
    if !lists_logged(sites.as_slice(), &table, reasons) {
        return Ok(Verdict::Differs { program: number });
    }
    Ok(Verdict::Accepted {
        reasons: reasons.len() as u64,
    })
}

fn explain_checked(alloc: Global, number: u64, ir: &Ir) -> Result<Verdict, AllocError> {
    if !is_well_formed(ir) {
        return Ok(Verdict::Unfit { program: number });
    }
    explain_well(alloc, number, ir)
}

fn explain_drawn(alloc: Global, number: u64) -> Result<Verdict, AllocError> {
    let ir = program(alloc, number)?;
    explain_checked(alloc, number, &ir)
}

/// The certificates of the drawn programs, up to the first that differs.
fn explain_all(alloc: Global, count: u64) -> Verdict {
    let mut sum: u64 = 0;
    for number in 0..count {
        match explain_drawn(alloc, number) {
            Ok(Verdict::Accepted { reasons }) => sum = sum.saturating_add(reasons),
            Ok(other) => return other,
            Err(_) => return Verdict::NoMemory,
        }
    }
    Verdict::Accepted { reasons: sum }
}

fn explain_case(alloc: Global, case: Case) -> Result<Verdict, AllocError> {
    let ir = case_program(alloc, case)?;
    explain_checked(alloc, 0, &ir)
}

/// The first fixed program whose certificate differs.
fn wrong_case(alloc: Global) -> Result<Option<Case>, AllocError> {
    for case in CASES {
        match explain_case(alloc, case)? {
            Verdict::Accepted { .. } => {}
            _ => return Ok(Some(case)),
        }
    }
    Ok(None)
}

// 4,859 headers, and the 1,512 stores and fills for which walks call.
#[test]
fn certificates_are_accepted(rt: HostRuntime) -> Result<(), Fail> {
    let wanted = Verdict::Accepted { reasons: 6_371 };
    assert_eq!(rt; explain_all(rt.alloc(), PROGRAMS), wanted);
    Ok(())
}

#[test]
fn fixed_certificates_are_accepted(rt: HostRuntime) -> Result<(), Fail> {
    assert_eq!(rt; wrong_case(rt.alloc()), Ok(None));
    Ok(())
}
