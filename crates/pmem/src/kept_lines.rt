//! The lines that have older versions, in a list in which each line's place is known.

ghost use Rattle.std.specs.Prelude.{◌≡◌, ◌+◌, ◌<◌, cond, ℕ, Some, None, OnOk, OnErr, IfOk};
ghost use Rattle.std.specs.Prelude.{IfSome, IfNone, [], ◌∷◌, length, slice_get};
ghost use Rattle.std.specs.Ordering.{nat_cmp};
ghost use Rattle.std.specs.BTreeMap.{is_at};
ghost use Rattle.std.specs.Option.{option_map};
ghost use Rattle.pmem.specs.Sparse.{Older, kept_at};
ghost use Rattle.pmem.specs.inside.Sparse.{more_older, flush_older, fence_entry};
ghost use Rattle.pmem.specs.inside.Sparse.{count_of};
ghost use Rattle.pmem.specs.inside.Placed.{ArePlaced, AreApart, IsEntry};

use crate::older::Kept;
use std::alloc::{AllocError, Global};
use std::marker::Model;

/// How many buffers wait for a line at most.
const SPARE: usize = 256;

/// Lines with their older versions. A line's number in `places` is the place of its entry, if it
/// has one.
#[derive(Drop)]
pub struct KeptLines {
    alloc: Global,
    places: Vec<u32>,
    entries: Vec<(u64, Kept)>,
    spare: Vec<Kept>,
}

impl Model for KeptLines {
    ghost use Rattle.std.specs.Prelude.{List, ℕ};
    ghost use Rattle.pmem.specs.Sparse.{Older};
    ghost use Rattle.pmem.specs.inside.Placed.{ArePlaced};

    ghost Value = { List (ℕ × Older) };

    ghost view = { λ k. k.entries.items };

    ghost invariant = { λ k. ArePlaced k.places.items k.entries.items };
}

impl KeptLines {
    /// No entry, and no place for one. It takes no memory.
    #[tactic(auto, using(crate::proofs::Placed::placed_none))]
    pub fn empty(alloc: Global) -> Self
        ensures { result ≡ [] }
    {
        KeptLines {
            alloc,
            places: Vec::new(alloc),
            entries: Vec::new(alloc),
            spare: Vec::new(alloc),
        }
    }

    /// No entry, with a place for each of `count` lines.
    #[tactic(auto, using(crate::proofs::Placed::placed_none))]
    pub fn blank(alloc: Global, count: u64) -> Result<Self, AllocError>
        ensures { IfOk result (λ lines. lines ≡ []) }
    {
        let places = vec![in alloc; 0; count as usize]?;
        Ok(KeptLines {
            alloc,
            places,
            entries: Vec::new(alloc),
            spare: Vec::new(alloc),
        })
    }

    /// The number of lines.
    #[tactic(auto, using(crate::proofs::Placed::apart_placed))]
    pub fn len(&self) -> u64
        ensures len { result ≡ length self.now }
        ensures apart { AreApart self.now }
    {
        self.entries.len() as u64
    }

    /// The number of versions of a line.
    #[tactic(auto, using(crate::proofs::Placed::entry_within, crate::proofs::Placed::count_entry))]
    pub fn versions(&self, line: u64) -> u64
        ensures { result ≡ count_of (kept_at self.now line) }
    {
        match place_of(&self.places, &self.entries, line) {
            Some(place) => self.entries[place as usize].1.len() + 1,
            None => 1,
        }
    }

    /// Adds one version to the older ones of a line.
    #[tactic(auto, using(crate::proofs::Placed::entry_within, crate::proofs::Placed::placed_put, crate::proofs::Placed::keep_put, crate::proofs::Placed::same_put, crate::proofs::Placed::keep_push))]
    pub fn keep(&mut self, line: u64, version: [i64; 8]) -> Result<(), AllocError>
        ensures done { OnOk result ((q : ℕ) → kept_at self.new q ≡ cond (is_at (nat_cmp line) q)
            (Some (more_older (kept_at self.old line) version)) (kept_at self.old q)) }
        ensures refused { OnErr result ((q : ℕ) → kept_at self.new q ≡ kept_at self.old q) }
    {
        match place_of(&self.places, &self.entries, line) {
            Some(place) => {
                let entry = &mut self.entries[place as usize];
                entry.1.push(version)
            }
            None => {
                let kept = fresh(self.alloc, &mut self.spare, version)?;
                add(&mut self.places, &mut self.entries, line, kept)
            }
        }
    }

    /// Marks the newest version of a line.
    #[tactic(auto, using(crate::proofs::Placed::entry_within, crate::proofs::Placed::placed_put, crate::proofs::Placed::mark_put, crate::proofs::Placed::absent_mark))]
    pub fn mark(&mut self, line: u64)
        ensures { (q : ℕ) → kept_at self.new q ≡ cond (is_at (nat_cmp line) q)
            (option_map flush_older (kept_at self.old line)) (kept_at self.old q) }
    {
        if let Some(place) = place_of(&self.places, &self.entries, line) {
            let entry = &mut self.entries[place as usize];
            entry.1.flush();
        }
    }

    /// Fences one line, if it has older versions.
    #[tactic(auto, using(crate::proofs::Placed::entry_within, crate::proofs::Placed::placed_put, crate::proofs::Placed::entry_put, crate::proofs::Placed::fence_put, crate::proofs::Placed::fence_gone, crate::proofs::Placed::absent_fence))]
    pub fn fence(&mut self, line: u64)
        ensures { (q : ℕ) → kept_at self.new q ≡ cond (is_at (nat_cmp line) q)
            (fence_entry (kept_at self.old line)) (kept_at self.old q) }
    {
        let Some(place) = place_of(&self.places, &self.entries, line) else {
            return;
        };
        let entry = &mut self.entries[place as usize];
        entry.1.fence();
        if entry.1.has_older() {
            return;
        }
        let kept = remove_at(&mut self.places, &mut self.entries, place, line);
        put_aside(&mut self.spare, kept);
    }

    /// Takes one line out.
    #[tactic(auto, using(crate::proofs::Placed::pop_placed, crate::proofs::Placed::pop_some, crate::proofs::Placed::pop_each))]
    pub fn pop(&mut self) -> Option<(u64, Kept)>
        ensures none { IfNone result ((self.old ≡ []) × (self.new ≡ [])) }
        ensures some { IfSome result (λ e. (kept_at self.old e.0 ≡ Some e.1)
            × (length self.new + 1 ≡ length self.old)) }
        ensures gone { IfSome result (λ e. (q : ℕ) → kept_at self.new q
            ≡ cond (is_at (nat_cmp e.0) q) None (kept_at self.old q)) }
    {
        self.entries.pop()
    }

    /// Gives a buffer that a line no longer needs.
    pub fn give(&mut self, kept: Kept)
        ensures { self.new ≡ self.old }
    {
        put_aside(&mut self.spare, kept);
    }
}

/// The place of a line's entry, if it has one.
#[tactic(auto, using(crate::proofs::Placed::is_here, crate::proofs::Placed::absent_past, crate::proofs::Placed::absent_beyond, crate::proofs::Placed::absent_here))]
fn place_of(places: &Vec<u32>, entries: &Vec<(u64, Kept)>, line: u64) -> Option<u32>
    requires { ArePlaced places.now.items entries.now.items }
    ensures found { IfSome result (λ i. IsEntry entries.now.items i line) }
    ensures none { IfNone result (kept_at entries.now.items line ≡ None) }
{
    if line >= places.len() as u64 {
        return None;
    }
    let place = places[line as usize];
    if place as usize >= entries.len() {
        return None;
    }
    if entries[place as usize].0 == line {
        Some(place)
    } else {
        None
    }
}

/// The older versions of a line that had none: only this one, in a buffer that was used before if
/// there is one.
fn fresh(alloc: Global, spare: &mut Vec<Kept>, version: [i64; 8]) -> Result<Kept, AllocError>
    ensures { IfOk result (λ kept. kept ≡ record { older = version ∷ []; mark = None }) }
{
    match spare.pop() {
        Some(kept) => kept.again(version),
        None => Kept::one(alloc, version),
    }
}

/// Keeps a buffer for a later line, or gives it back if enough of them wait.
fn put_aside(spare: &mut Vec<Kept>, kept: Kept) {
    if spare.len() < SPARE {
        let _ = spare.push(kept);
    }
}

/// Adds an entry of a line that has none. Without memory, or for a line without a number, nothing
/// is added.
#[tactic(auto, using(crate::proofs::Placed::placed_push, crate::proofs::Placed::kept_push))]
fn add(
    places: &mut Vec<u32>,
    entries: &mut Vec<(u64, Kept)>,
    line: u64,
    kept: Kept,
) -> Result<(), AllocError>
    requires placed { ArePlaced places.old.items entries.old.items }
    requires none { kept_at entries.old.items line ≡ None }
    ensures placed { ArePlaced places.new.items entries.new.items }
    ensures done { OnOk result ((q : ℕ) → kept_at entries.new.items q
        ≡ cond (is_at (nat_cmp line) q) (Some kept) (kept_at entries.old.items q)) }
    ensures refused { OnErr result (entries.new.items ≡ entries.old.items) }
{
    let Ok(place) = u32::try_from(entries.len()) else {
        return Err(AllocError);
    };
    if line >= places.len() as u64 {
        return Err(AllocError);
    }
    entries.push((line, kept))?;
    places[line as usize] = place;
    Ok(())
}

/// Takes out the entry at a place, which is this line's. The last one takes its place.
#[tactic(auto, using(crate::proofs::Placed::placed_moved, crate::proofs::Placed::placed_last, crate::proofs::Placed::moved_within, crate::proofs::Placed::swap_gone, crate::proofs::Placed::entry_within))]
fn remove_at(places: &mut Vec<u32>, entries: &mut Vec<(u64, Kept)>, place: u32, line: u64) -> Kept
    requires placed { ArePlaced places.old.items entries.old.items }
    requires entry { IsEntry entries.old.items place line }
    ensures placed { ArePlaced places.new.items entries.new.items }
    ensures gone { (q : ℕ) → kept_at entries.new.items q
        ≡ cond (is_at (nat_cmp line) q) None (kept_at entries.old.items q) }
{
    let (_, kept) = entries.swap_remove(place as usize);
    if (place as usize) < entries.len() {
        let moved = entries[place as usize].0;
        places[moved as usize] = place;
    }
    kept
}
