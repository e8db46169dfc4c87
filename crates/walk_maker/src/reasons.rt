//! Certificates: a reason for each logged site.

ghost use Rattle.std.specs.Prelude.{◌≡◌, None, OnOk, IfOk, option_map};
ghost use Rattle.ir.specs.Sites.{sites_of};
ghost use Rattle.ir.specs.Clobber.{unwritten, read_fact};
ghost use Rattle.ir.specs.WellFormed.{IsWellFormed};
ghost use Rattle.clobber_pass.specs.Logged.{IsExact};
ghost use Rattle.walk_check.specs.Keeps.{certificate_fault};
ghost use Rattle.walk_check.specs.Law.{listed};
ghost use Rattle.walk_check.specs.inside.Grown.{ArePassing};
ghost use Rattle.walk_maker.specs.Lists.{ListsLogged};
ghost use Rattle.walk_maker.specs.inside.Jumps.{AreAllJumps};
ghost use Rattle.walk_maker.specs.inside.Reasons as judged;

use crate::jumps::{AllJumps, all_jumps};
use crate::reading::pieces_of;
use crate::search::find_start;
use crate::shared::{marked_among, shared_certificate};
use crate::table::{Aim, Entry, Link, Table};
use clobber_pass::{MarkTable, marks};
use ir::{Fact as WalkFact, Instruction, Ir, Site, Target};
use std::alloc::{AllocError, Global};
use walk_check::{Certificate, Pieces, Reason, Reasons, Walk, instruction_at};

/// The entry from which a search goes back: a site, and the fact that is to hold there.
pub(crate) fn goal_at(site: Site, fact: WalkFact) -> Entry
    ensures { result ≡ judged.goal_at site fact }
{
    Entry {
        aim: Aim::ToSite,
        function: site.function,
        place: site.place,
        fact,
        link: Link::End,
    }
}

/// A walk that reaches a site with a fact, if there is any.
#[tactic(auto, using(crate::proofs::Found::found_walk, crate::proofs::Found::found_none))]
fn walk_to(
    alloc: Global,
    ir: &Ir,
    jumps: &AllJumps,
    passed: &mut Pieces,
    site: Site,
    fact: WalkFact,
) -> Result<Option<Walk>, AllocError>
    requires well { IsWellFormed ir.now }
    requires jumps { AreAllJumps ir.now.functions jumps.now }
    requires passing { ArePassing ir.now passed.old }
    requires there { judged.FactThere ir.now site fact }
    ensures { IfOk result (λ walk.
        judged.WalkGiven ir.now site fact passed.old passed.new walk) }
{
    let mut table = Table::of(alloc, goal_at(site, fact))?;
    match find_start(alloc, ir, jumps, &mut table, passed)? {
        None => Ok(None),
        Some(number) => {
            let functions = ir.functions.as_slice();
            let pieces = pieces_of(alloc, functions, table.as_slice(), number)?;
            Ok(Some(Walk { pieces }))
        }
    }
}

/// The fact that the target of a store isn't surely written.
pub(crate) fn unwritten(target: Target) -> WalkFact
    ensures { result ≡ unwritten target }
{
    match target {
        Target::Root { field, .. } => WalkFact::RootUnwritten { field },
        Target::Field {
            base,
            kind,
            field,
            ..
        } => WalkFact::Unwritten {
            register: base,
            kind,
            field,
        },
    }
}

/// The fact that a field of the store's class was read where it wasn't surely written.
pub(crate) fn read(target: Target) -> WalkFact
    ensures { result ≡ read_fact target }
{
    match target {
        Target::Root { field, .. } => WalkFact::ReadRoot { field },
        Target::Field { kind, field, .. } => WalkFact::ReadField { kind, field },
    }
}

/// Why a store is logged, if it is.
#[tactic(auto, using(crate::proofs::Judged::stores))]
fn store_reason(
    alloc: Global,
    ir: &Ir,
    jumps: &AllJumps,
    passed: &mut Pieces,
    site: Site,
    target: Target,
) -> Result<Option<Reason>, AllocError>
    requires well { IsWellFormed ir.now }
    requires jumps { AreAllJumps ir.now.functions jumps.now }
    requires passing { ArePassing ir.now passed.old }
    requires store { judged.StoresAt ir.now site target }
    ensures { IfOk result (λ reason.
        judged.ReasonGiven ir.now site passed.old passed.new reason) }
{
    match walk_to(alloc, ir, jumps, passed, site, unwritten(target))? {
        None => Ok(None),
        Some(unwrites) => match walk_to(alloc, ir, jumps, passed, site, read(target))? {
            None => Ok(None),
            Some(reads) => Ok(Some(Reason::Clobber(unwrites, reads))),
        },
    }
}

/// Why the fill of a new object is logged, if it is.
#[tactic(auto, using(crate::proofs::Judged::fills))]
fn fill_reason(
    alloc: Global,
    ir: &Ir,
    jumps: &AllJumps,
    passed: &mut Pieces,
    site: Site,
) -> Result<Option<Reason>, AllocError>
    requires well { IsWellFormed ir.now }
    requires jumps { AreAllJumps ir.now.functions jumps.now }
    requires passing { ArePassing ir.now passed.old }
    requires fill { judged.FillsAt ir.now site }
    ensures { IfOk result (λ reason.
        judged.ReasonGiven ir.now site passed.old passed.new reason) }
{
    match walk_to(alloc, ir, jumps, passed, site, WalkFact::Freed)? {
        None => Ok(None),
        Some(walk) => Ok(Some(Reason::PastFree(walk))),
    }
}

/// What is written at a site, as far as it decides whether it is logged.
#[derive(Clone, Copy, PartialEq, Eq)]
pub(crate) enum Kind {
    Store(Target),
    Header,
    Fill,
    Nothing,
}

pub(crate) fn kind_of(instruction: Option<&Instruction>, fill: bool) -> Kind
    ensures { result ≡ judged.written_kind (option_map (λ i. i.now) instruction.entry) fill }
{
    match (instruction, fill) {
        (Some(Instruction::Store { target, .. }), false) => Kind::Store(*target),
        (Some(Instruction::New { .. } | Instruction::Free { .. }), false) => Kind::Header,
        (Some(Instruction::New { .. }), true) => Kind::Fill,
        _ => Kind::Nothing,
    }
}

/// Why a site is logged, if it is.
#[tactic(auto, using(crate::proofs::Judged::kinds))]
fn reason_of(
    alloc: Global,
    ir: &Ir,
    jumps: &AllJumps,
    passed: &mut Pieces,
    site: Site,
) -> Result<Option<Reason>, AllocError>
    requires well { IsWellFormed ir.now }
    requires jumps { AreAllJumps ir.now.functions jumps.now }
    requires passing { ArePassing ir.now passed.old }
    ensures { IfOk result (λ reason.
        judged.ReasonGiven ir.now site passed.old passed.new reason) }
{
    let instruction = instruction_at(ir.functions.as_slice(), site.function, site.place);
    match kind_of(instruction, site.fill) {
        Kind::Store(target) => store_reason(alloc, ir, jumps, passed, site, target),
        Kind::Header => Ok(Some(Reason::Always)),
        Kind::Fill => fill_reason(alloc, ir, jumps, passed, site),
        Kind::Nothing => Ok(None),
    }
}

/// The reason of a site that the marks log. Other sites aren't looked at.
#[tactic(auto, using(crate::proofs::Judged::unmarked))]
fn marked_reason(
    alloc: Global,
    ir: &Ir,
    jumps: &AllJumps,
    table: &MarkTable,
    passed: &mut Pieces,
    site: Site,
) -> Result<Option<Reason>, AllocError>
    requires well { IsWellFormed ir.now }
    requires jumps { AreAllJumps ir.now.functions jumps.now }
    requires exact { IsExact ir.now.functions table.now }
    requires passing { ArePassing ir.now passed.old }
    ensures { IfOk result (λ reason.
        judged.ReasonGiven ir.now site passed.old passed.new reason) }
{
    if table.logged(site) {
        reason_of(alloc, ir, jumps, passed, site)
    } else {
        Ok(None)
    }
}

/// Appends a site and its reason, if there is one.
fn push_reason(reasons: &mut Reasons, site: Site, reason: Option<Reason>) -> Result<(), AllocError>
    ensures { OnOk result (reasons.new ≡ judged.with_reason reasons.old site reason) }
{
    match reason {
        None => Ok(()),
        Some(reason) => reasons.push((site, reason)),
    }
}

/// A certificate of those of these sites that are logged, in their order. Each is searched for by
/// itself.
fn each_certificate(
    alloc: Global,
    ir: &Ir,
    jumps: &AllJumps,
    table: &MarkTable,
    sites: &[Site],
) -> Result<Certificate, AllocError>
    requires well { IsWellFormed ir.now }
    requires jumps { AreAllJumps ir.now.functions jumps.now }
    requires exact { IsExact ir.now.functions table.now }
    ensures lists { IfOk result (λ c. ListsLogged ir.now.functions sites.now (listed c)) }
    ensures keeps { IfOk result (λ c. certificate_fault ir.now c ≡ None) }
{
    let mut passed = Pieces::new(alloc);
    let mut reasons = Reasons::new(alloc);
    for index in 0..sites.len() {
        let site = sites[index];
        let reason = marked_reason(alloc, ir, jumps, table, &mut passed, site)?;
        push_reason(&mut reasons, site, reason)?;
    }
    Ok(Certificate { passed, reasons })
}

/// A certificate of why the logged sites are logged: it lists exactly these, in code order, and
/// keeps the checker's rules. `Err` means only that the allocator refused memory.
pub fn explain(alloc: Global, ir: &Ir) -> Result<Certificate, AllocError>
    requires { IsWellFormed ir.now }
    ensures lists { IfOk result (λ c.
        ListsLogged ir.now.functions (sites_of 0 ir.now.functions) (listed c)) }
    ensures keeps { IfOk result (λ c. certificate_fault ir.now c ≡ None) }
{
    let table = marks(alloc, ir)?;
    let jumps = all_jumps(alloc, ir.functions.as_slice())?;
    let sites = ir.sites(alloc)?;
    let marked = marked_among(alloc, &table, sites.as_slice())?;
    match shared_certificate(alloc, ir, &jumps, marked.as_slice())? {
        Some(certificate) => Ok(certificate),
        None => each_certificate(alloc, ir, &jumps, &table, sites.as_slice()),
    }
}
