//! Trails: the spots of the walks that were found so far, each with the spot before it. A later
//! search may end at one of them, and takes over the walk up to it. No clause speaks of trails: a
//! certificate made of them is tested by the checker.

ghost use Rattle.ir.specs.WellFormed.{IsWellFormed};
ghost use Rattle.walk_maker.specs.inside.Jumps.{AreAllJumps};

use crate::expand::Later;
use crate::jumps::AllJumps;
use crate::reading::pieces_of;
use crate::search::{expand, is_start};
use crate::table::{BUCKETS, Entry, Link, Table, entry_at, make_room};
use ir::Ir;
use nvm_base::List;
use std::alloc::{AllocError, Global};
use walk_check::{Pieces, Walk};

/// A walk may reuse a walk that was found before if it then has at most so many steps for each
/// entry that the search looked at. So a short walk isn't given up for a long one.
const SPOTS_EACH: usize = 8;

/// All walks that were found so far, as one list of entries, each with a link to the entry before
/// it on its walk.
#[derive(Drop)]
pub(crate) struct Trails {
    spots: Table,
    /// For each entry of that list, how many entries its walk has up to it.
    lengths: List<usize>,
}

/// Where a search ended: at an entry from which a walk begins; or at one whose fact stands on a
/// walk that was found before, with the numbers of both.
#[derive(Clone, Copy)]
struct Met {
    number: usize,
    trail: Option<usize>,
}

fn with_link(entry: Entry, link: Link) -> Entry {
    Entry {
        aim: entry.aim,
        function: entry.function,
        place: entry.place,
        fact: entry.fact,
        link,
    }
}

impl Trails {
    /// No walk was found yet.
    pub(crate) fn new(alloc: Global) -> Result<Self, AllocError> {
        Ok(Trails {
            spots: Table::empty(alloc, BUCKETS)?,
            lengths: List::new(alloc),
        })
    }

    /// How many entries the walk has up to this one.
    fn length(&self, number: usize) -> usize {
        match self.lengths.get(number) {
            None => 0,
            Some(length) => *length,
        }
    }

    /// The number, on a walk that was found before, of an entry with the same fact; if that walk
    /// is short enough for a search that looked at `searched` entries.
    fn near(&self, entry: Entry, searched: usize) -> Option<usize> {
        let number = self.spots.number_of(entry)?;
        if self.length(number) / SPOTS_EACH <= searched {
            Some(number)
        } else {
            None
        }
    }

    /// How many entries the walk has before one with this link.
    fn length_before(&self, back: Link) -> usize {
        match back {
            Link::End => 0,
            Link::Next(before, _) | Link::Enter(before) => self.length(before),
        }
    }

    /// Adds an entry to the walks that were found, and gives its number there.
    fn lay(&mut self, alloc: Global, entry: Entry, back: Link) -> Result<usize, AllocError> {
        make_room(alloc, &mut self.spots)?;
        let number = self.spots.as_slice().len();
        let length = self.length_before(back).saturating_add(1);
        self.spots.push(with_link(entry, back))?;
        self.lengths.push(length)?;
        Ok(number)
    }
}

/// Searches until an entry is at a transaction's entry, or is on a walk that was found before and
/// is short enough.
fn seek_trail(
    alloc: Global,
    ir: &Ir,
    jumps: &AllJumps,
    trails: &Trails,
    table: &mut Table,
    passed: &mut Pieces,
) -> Result<Option<Met>, AllocError>
    requires well { IsWellFormed ir.now }
    requires jumps { AreAllJumps ir.now.functions jumps.now }
{
    for number in 0..usize::MAX {
        let entry = match entry_at(table.as_slice(), number) {
            None => return Ok(None),
            Some(entry) => entry,
        };
        let trail = trails.near(entry, number);
        if trail.is_some() || is_start(ir.functions.as_slice(), entry) {
            return Ok(Some(Met { number, trail }));
        }
        expand(alloc, ir, jumps, Later { number, entry }, table, passed)?;
    }
    Err(AllocError)
}

/// Where a search ends, if it does. It goes on as long as a round adds entries, since new pieces
/// may lead further.
fn meet(
    alloc: Global,
    ir: &Ir,
    jumps: &AllJumps,
    trails: &Trails,
    table: &mut Table,
    passed: &mut Pieces,
) -> Result<Option<Met>, AllocError>
    requires well { IsWellFormed ir.now }
    requires jumps { AreAllJumps ir.now.functions jumps.now }
{
    for _ in 0..usize::MAX {
        let entries = table.as_slice().len();
        let pieces = passed.as_slice().len();
        if let Some(met) = seek_trail(alloc, ir, jumps, trails, table, passed)? {
            return Ok(Some(met));
        }
        if table.as_slice().len() == entries && passed.as_slice().len() == pieces {
            return Ok(None);
        }
    }
    Err(AllocError)
}

/// The next entry of the walk, and the link by which the list of found walks goes back from it to
/// this one.
fn onward(link: Link, last: usize) -> Option<(usize, Link)> {
    match link {
        Link::End => None,
        Link::Next(next, through) => Some((next, Link::Next(last, through))),
        Link::Enter(next) => Some((next, Link::Enter(last))),
    }
}

/// Adds the walk, from where a search ended to where it was to come, to the walks that were found.
/// Gives the number of its last entry.
fn lay_walk(
    alloc: Global,
    trails: &mut Trails,
    entries: &[Entry],
    met: Met,
) -> Result<Option<usize>, AllocError> {
    let Some(first) = entry_at(entries, met.number) else {
        return Ok(None);
    };
    let mut last = match met.trail {
        Some(trail) => trail,
        None => trails.lay(alloc, first, Link::End)?,
    };
    let mut entry = first;
    for _ in 0..entries.len() {
        let Some((next, back)) = onward(entry.link, last) else {
            return Ok(Some(last));
        };
        entry = match entry_at(entries, next) {
            None => return Ok(None),
            Some(entry) => entry,
        };
        last = trails.lay(alloc, entry, back)?;
    }
    Ok(Some(last))
}

/// The walk up to an entry of the list, turned round: the entry itself first, and each one before
/// it with a link to the one after it.
fn path_to(alloc: Global, trails: &[Entry], number: usize) -> Result<List<Entry>, AllocError> {
    let mut path = List::new(alloc);
    let mut at = number;
    let mut link = Link::End;
    for count in 0..trails.len() {
        let Some(spot) = entry_at(trails, at) else {
            return Ok(path);
        };
        path.push(with_link(spot, link))?;
        match onward(spot.link, count) {
            None => return Ok(path),
            Some((before, ahead)) => {
                at = before;
                link = ahead;
            }
        }
    }
    Ok(path)
}

/// A walk on which the fact holds at the site. It reuses walks that were found before where it
/// comes to one, and is added to them.
pub(crate) fn trail_to(
    alloc: Global,
    ir: &Ir,
    jumps: &AllJumps,
    trails: &mut Trails,
    passed: &mut Pieces,
    goal: Entry,
) -> Result<Option<Walk>, AllocError>
    requires well { IsWellFormed ir.now }
    requires jumps { AreAllJumps ir.now.functions jumps.now }
{
    let mut table = Table::of(alloc, goal)?;
    let Some(met) = meet(alloc, ir, jumps, trails, &mut table, passed)? else {
        return Ok(None);
    };
    let Some(number) = lay_walk(alloc, trails, table.as_slice(), met)? else {
        return Ok(None);
    };
    let path = path_to(alloc, trails.spots.as_slice(), number)?;
    let spots = path.as_slice();
    let functions = ir.functions.as_slice();
    let pieces = pieces_of(alloc, functions, spots, spots.len().saturating_sub(1))?;
    Ok(Some(Walk { pieces }))
}
