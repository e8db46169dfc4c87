//! Certificates of many logged sites. Their searches share the walks that are found, so each takes
//! little more than what is new. The certificate is tested by the checker before it is given.

ghost use Rattle.std.specs.Prelude.{◌≡◌, [], None, IfOk, IfSome, OnOk};
ghost use Rattle.ir.specs.WellFormed.{IsWellFormed};
ghost use Rattle.walk_check.specs.Keeps.{certificate_fault};
ghost use Rattle.walk_check.specs.Law.{listed};
ghost use Rattle.walk_maker.specs.inside.Jumps.{AreAllJumps};
ghost use Rattle.walk_maker.specs.inside.Marked as marked_sites;

use crate::jumps::AllJumps;
use crate::reasons::{Kind, goal_at, kind_of, read, unwritten};
use crate::trails::{Trails, trail_to};
use clobber_pass::MarkTable;
use ir::{Fact as WalkFact, Ir, Site, Target};
use nvm_base::List;
use std::alloc::{AllocError, Global};
use walk_check::{Certificate, Pieces, Reason, Reasons, Walk, check, instruction_at};

/// Up to this number of logged sites each has a search of its own, which gives short walks.
const FEW: usize = 32;

/// Sites, in order.
pub(crate) type SiteList = List<Site>;

/// Appends a site if the marks log it.
fn push_marked(table: &MarkTable, site: Site, marked: &mut SiteList) -> Result<(), AllocError>
    ensures { OnOk result (marked.new ≡ marked_sites.with_marked table.now site marked.old) }
{
    if table.logged(site) {
        marked.push(site)
    } else {
        Ok(())
    }
}

/// Those of these sites that the marks log.
pub(crate) fn marked_among(
    alloc: Global,
    table: &MarkTable,
    sites: &[Site],
) -> Result<SiteList, AllocError>
    ensures { IfOk result (λ marked. marked ≡ marked_sites.all_marked table.now sites.now []) }
{
    let mut marked = SiteList::new(alloc);
    for site in sites {
        push_marked(table, *site, &mut marked)?;
    }
    Ok(marked)
}

/// A walk to a site at which a fact holds.
fn walk_over(
    alloc: Global,
    ir: &Ir,
    jumps: &AllJumps,
    trails: &mut Trails,
    passed: &mut Pieces,
    site: Site,
    fact: WalkFact,
) -> Result<Option<Walk>, AllocError>
    requires well { IsWellFormed ir.now }
    requires jumps { AreAllJumps ir.now.functions jumps.now }
{
    trail_to(alloc, ir, jumps, trails, passed, goal_at(site, fact))
}

/// Why a store is logged.
fn store_over(
    alloc: Global,
    ir: &Ir,
    jumps: &AllJumps,
    trails: &mut Trails,
    passed: &mut Pieces,
    site: Site,
    target: Target,
) -> Result<Option<Reason>, AllocError>
    requires well { IsWellFormed ir.now }
    requires jumps { AreAllJumps ir.now.functions jumps.now }
{
    let Some(unwrites) = walk_over(alloc, ir, jumps, trails, passed, site, unwritten(target))?
    else {
        return Ok(None);
    };
    let Some(reads) = walk_over(alloc, ir, jumps, trails, passed, site, read(target))? else {
        return Ok(None);
    };
    Ok(Some(Reason::Clobber(unwrites, reads)))
}

/// Why the fill of a new object is logged.
fn fill_over(
    alloc: Global,
    ir: &Ir,
    jumps: &AllJumps,
    trails: &mut Trails,
    passed: &mut Pieces,
    site: Site,
) -> Result<Option<Reason>, AllocError>
    requires well { IsWellFormed ir.now }
    requires jumps { AreAllJumps ir.now.functions jumps.now }
{
    match walk_over(alloc, ir, jumps, trails, passed, site, WalkFact::Freed)? {
        None => Ok(None),
        Some(walk) => Ok(Some(Reason::PastFree(walk))),
    }
}

/// Why a site is logged.
fn reason_over(
    alloc: Global,
    ir: &Ir,
    jumps: &AllJumps,
    trails: &mut Trails,
    passed: &mut Pieces,
    site: Site,
) -> Result<Option<Reason>, AllocError>
    requires well { IsWellFormed ir.now }
    requires jumps { AreAllJumps ir.now.functions jumps.now }
{
    let instruction = instruction_at(ir.functions.as_slice(), site.function, site.place);
    match kind_of(instruction, site.fill) {
        Kind::Store(target) => store_over(alloc, ir, jumps, trails, passed, site, target),
        Kind::Header => Ok(Some(Reason::Always)),
        Kind::Fill => fill_over(alloc, ir, jumps, trails, passed, site),
        Kind::Nothing => Ok(None),
    }
}

/// A reason for each of the sites, or nothing if one of them has none.
fn reasons_over(
    alloc: Global,
    ir: &Ir,
    jumps: &AllJumps,
    marked: &[Site],
    passed: &mut Pieces,
) -> Result<Option<Reasons>, AllocError>
    requires well { IsWellFormed ir.now }
    requires jumps { AreAllJumps ir.now.functions jumps.now }
    ensures { IfOk result (λ found. IfSome found (λ reasons.
        marked_sites.sites_in reasons ≡ marked.now)) }
{
    let mut trails = Trails::new(alloc)?;
    let mut reasons = Reasons::new(alloc);
    for site in marked {
        match reason_over(alloc, ir, jumps, &mut trails, passed, *site)? {
            None => return Ok(None),
            Some(reason) => reasons.push((*site, reason))?,
        }
    }
    Ok(Some(reasons))
}

/// A certificate that lists the sites. It is nothing if there are few sites, or if the one that
/// was made breaks a rule of the checker.
pub(crate) fn shared_certificate(
    alloc: Global,
    ir: &Ir,
    jumps: &AllJumps,
    marked: &[Site],
) -> Result<Option<Certificate>, AllocError>
    requires well { IsWellFormed ir.now }
    requires jumps { AreAllJumps ir.now.functions jumps.now }
    ensures lists { IfOk result (λ made. IfSome made (λ c. listed c ≡ marked.now)) }
    ensures keeps { IfOk result (λ made. IfSome made (λ c.
        certificate_fault ir.now c ≡ None)) }
{
    if marked.len() <= FEW {
        return Ok(None);
    }
    let mut passed = Pieces::new(alloc);
    let Some(reasons) = reasons_over(alloc, ir, jumps, marked, &mut passed)? else {
        return Ok(None);
    };
    let certificate = Certificate { passed, reasons };
    match check(ir, &certificate) {
        Err(_) => Ok(None),
        Ok(()) => Ok(Some(certificate)),
    }
}
