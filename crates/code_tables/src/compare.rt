//! The marks of a program beside what walks call for, site by site.

ghost use Rattle.std.specs.Prelude.{◌≡◌, true};
ghost use Rattle.ir.specs.WellFormed.{IsWellFormed};

use crate::kept::{Class, class_of, is_written};
use crate::lines::CLASSES;
use crate::programs::program;
use crate::walks::{Spot, instruction_at, walks};
use crate::well_formed::is_well_formed;
use clobber_pass::{MarkTable, marks};
use ir::{Instruction, Ir, IrFunction, Site, Target};
use std::alloc::{AllocError, Global};
use std::test::Fail;

/// How many programs are drawn, and the first one's number.
const PROGRAMS: u64 = 2_500;

const FIRST: u64 = 1;

/// How many sites were compared, and how many of them are logged and are no header's.
#[derive(Clone, Copy, Debug, PartialEq, Eq)]
pub struct Tally {
    pub sites: u64,
    pub clobbers: u64,
}

/// What came of a comparison. Where a site differs, it is the first one of its program.
#[derive(Clone, Copy, Debug, PartialEq, Eq)]
pub enum Verdict {
    Same(Tally),
    Differs { program: u64, site: Site },
    /// The program isn't well formed, or has too many spots.
    Unfit { program: u64 },
    NoMemory,
}

/// Some walk comes to a store with its target not surely written, and some walk, the same or
/// another, with its class read before.
fn is_clobber(spots: &[Spot], site: Site, target: Target) -> bool {
    let mut unwritten = false;
    let mut read = false;
    for spot in spots {
        if spot.function == site.function && spot.place == site.place {
            unwritten = unwritten || !is_written(spot.kept, target);
            read = read || spot.kept.read;
        }
    }
    unwritten && read
}

/// Some walk comes to a new object past a free.
fn is_past_free(spots: &[Spot], site: Site) -> bool {
    for spot in spots {
        if spot.function == site.function && spot.place == site.place && spot.kept.freed {
            return true;
        }
    }
    false
}

/// Whether walks call for a log at a site. Of a store to another class nothing is said.
fn called_for(functions: &[IrFunction], class: Class, spots: &[Spot], site: Site) -> Option<bool> {
    match instruction_at(functions, site.function, site.place) {
        Some(Instruction::Store { target, .. }) => {
            if class_of(*target) == class {
                Some(is_clobber(spots, site, *target))
            } else {
                None
            }
        }
        Some(Instruction::New { .. }) => Some(!site.fill || is_past_free(spots, site)),
        Some(Instruction::Free { .. }) => Some(true),
        _ => Some(false),
    }
}

/// The first site that the marks and the walks of a class disagree on.
fn wrong_site(
    functions: &[IrFunction],
    class: Class,
    spots: &[Spot],
    sites: &[Site],
    table: &MarkTable,
) -> Option<Site> {
    for site in sites {
        if let Some(wanted) = called_for(functions, class, spots, *site) {
            if wanted != table.logged(*site) {
                return Some(*site);
            }
        }
    }
    None
}

fn is_header(functions: &[IrFunction], site: Site) -> bool {
    match instruction_at(functions, site.function, site.place) {
        Some(Instruction::Store { .. }) => false,
        _ => !site.fill,
    }
}

fn counted(functions: &[IrFunction], sites: &[Site], table: &MarkTable) -> Tally {
    let mut tally = Tally {
        sites: 0,
        clobbers: 0,
    };
    for site in sites {
        tally.sites = tally.sites.saturating_add(1);
        if table.logged(*site) && !is_header(functions, *site) {
            tally.clobbers = tally.clobbers.saturating_add(1);
        }
    }
    tally
}

/// Compares each site of well formed code.
fn compare_well(alloc: Global, number: u64, ir: &Ir) -> Result<Verdict, AllocError>
    requires { IsWellFormed ir.now }
{
    let table = marks(alloc, ir)?;
    let sites = ir.sites(alloc)?;
    let functions = ir.functions.as_slice();
    for class in CLASSES {
        let Some(spots) = walks(alloc, functions, class)? else {
            return Ok(Verdict::Unfit { program: number });
        };
        if let Some(site) = wrong_site(functions, class, &spots, sites.as_slice(), &table) {
            return Ok(Verdict::Differs {
                program: number,
                site,
            });
        }
    }
    Ok(Verdict::Same(counted(functions, sites.as_slice(), &table)))
}

/// Compares each site of a program.
pub fn compare(alloc: Global, number: u64, ir: &Ir) -> Result<Verdict, AllocError> {
    if !is_well_formed(ir) {
        return Ok(Verdict::Unfit { program: number });
    }
    compare_well(alloc, number, ir)
}

/// The mark of one site, in code that is well formed.
pub fn is_logged(alloc: Global, ir: &Ir, site: Site) -> Result<Option<bool>, AllocError> {
    if !is_well_formed(ir) {
        return Ok(None);
    }
    let table = marks(alloc, ir)?;
    Ok(Some(table.logged(site)))
}

fn compare_drawn(alloc: Global, number: u64) -> Result<Verdict, AllocError> {
    let ir = program(alloc, number)?;
    compare(alloc, number, &ir)
}

/// Compares the drawn programs, up to the first that differs.
fn compare_all(alloc: Global, count: u64) -> Verdict {
    let mut sum = Tally {
        sites: 0,
        clobbers: 0,
    };
    for number in 0..count {
        match compare_drawn(alloc, number) {
            Ok(Verdict::Same(tally)) => {
                sum.sites = sum.sites.saturating_add(tally.sites);
                sum.clobbers = sum.clobbers.saturating_add(tally.clobbers);
            }
            Ok(other) => return other,
            Err(_) => return Verdict::NoMemory,
        }
    }
    Verdict::Same(sum)
}

#[test]
fn marks_are_what_walks_call_for(rt: HostRuntime) -> Result<(), Fail> {
    let wanted = Verdict::Same(Tally {
        sites: 19_497,
        clobbers: 1_512,
    });
    assert_eq!(rt; compare_all(rt.alloc(), PROGRAMS), wanted);
    Ok(())
}
