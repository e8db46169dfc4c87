//! Tables of rows, which only grow.

ghost use Rattle.std.specs.Prelude.{◌≡◌, ◌<◌, ◌≤◌, ◌∷◌, ◌++◌, [], false, true, length, replicate};
ghost use Rattle.std.specs.Prelude.{slice_set, bit_or, ◌^◌, None, IfSome, Ok, IfOk, OnOk};
ghost use Rattle.clobber_pass.specs.Row as words;
ghost use Rattle.clobber_pass.specs.Sweep as sweeps;
ghost use Rattle.clobber_pass.specs.inside.Sweep as inside_sweeps;
ghost use Rattle.clobber_pass.specs.inside.Closed.{raised_in};
ghost use Rattle.clobber_pass.specs.inside.Room.{room, words_room};

use crate::row::word;
use std::alloc::{AllocError, Global};
use std::marker::Model;

/// A row for each place, empty if nothing reached it yet.
#[derive(Drop)]
pub struct Rows {
    rows: Vec<Vec<u16>>,
}

impl Model for Rows {
    ghost use Rattle.std.specs.Prelude.{List, ℕ, map};

    ghost Value = { List (List ℕ) };

    ghost view = { λ t. map (λ row. row.items) t.rows.items };
}

impl Rows {
    /// `count` empty rows.
    pub fn new(alloc: Global, count: usize) -> Result<Self, AllocError>
        ensures { IfOk result (λ rows. rows ≡ replicate count []) }
    {
        let mut rows = Rows::empty(alloc);
        for _ in 0..count {
            rows.push_empty(alloc)?;
        }
        Ok(rows)
    }

    /// No rows. It takes no memory.
    pub fn empty(alloc: Global) -> Self
        ensures { result ≡ [] }
    {
        Rows {
            rows: Vec::new(alloc),
        }
    }

    /// Appends one row.
    pub fn push(&mut self, row: Vec<u16>) -> Result<(), AllocError>
        ensures { OnOk result (self.new ≡ self.old ++ row.items ∷ []) }
    {
        self.rows.push(row)?;
        Ok(())
    }

    fn push_empty(&mut self, alloc: Global) -> Result<(), AllocError>
        ensures { OnOk result (self.new ≡ self.old ++ [] ∷ []) }
    {
        self.rows.push(Vec::new(alloc))?;
        Ok(())
    }

    /// The row of a place, empty if there is none.
    #[tactic(auto, using(crate::proofs::bits::Lookup::lookup))]
    pub fn row(&self, place: usize) -> &[u16]
        ensures { result.now ≡ sweeps.row_in self.now place }
    {
        match self.rows.get(place) {
            Some(row) => row,
            None => &[],
        }
    }

    /// Replaces `row` by the row of a place, if there is one.
    pub fn take(&self, place: usize, row: &mut Vec<u16>) -> Result<(), AllocError>
        ensures { OnOk result (row.new.items ≡ inside_sweeps.row_or (sweeps.row_in self.now place)
            row.old.items) }
    {
        if self.row(place).is_empty() {
            return Ok(());
        }
        rewrite(row, self.row(place))
    }

    /// Joins another row to the row of a place. An empty row becomes the other one. Returns whether
    /// the table grew.
    pub fn join(&mut self, alloc: Global, place: usize, more: &[u16]) -> Result<bool, AllocError>
        ensures row { IfOk result (λ _. self.new ≡ inside_sweeps.join_in self.old place more.now) }
        ensures same { result ≡ Ok false → self.new ≡ self.old }
        ensures grew { result ≡ Ok true → room self.new < room self.old }
        ensures room { IfOk result (λ _. room self.new ≤ room self.old) }
    {
        if self.row(place).is_empty() {
            self.fill(alloc, place, more)
        } else {
            Ok(self.meet(place, more))
        }
    }

    /// Joins a row to the row of a place, as far as that has slots.
    pub fn meet(&mut self, place: usize, more: &[u16]) -> bool
        ensures row { self.new ≡ inside_sweeps.meet_in self.old place more.now }
        ensures same { result ≡ false → self.new ≡ self.old }
        ensures grew { result ≡ true → room self.new < room self.old }
        ensures room { room self.new ≤ room self.old }
    {
        if place >= self.rows.len() {
            return false;
        }
        join_words(&mut self.rows[place], more)
    }

    /// Adds bits to a word of a place's row, if it is there. Returns whether any was new.
    pub fn raise(&mut self, place: usize, slot: usize, bits: u16) -> bool
        ensures row { self.new ≡ raised_in self.old place slot bits }
        ensures room { room self.new ≤ room self.old }
    {
        if place >= self.rows.len() {
            return false;
        }
        raise_in(&mut self.rows[place], slot, bits)
    }

    /// Writes the row of a place that has none.
    fn fill(&mut self, alloc: Global, place: usize, row: &[u16]) -> Result<bool, AllocError>
        requires { sweeps.row_in self.old place ≡ [] }
        ensures row { IfOk result (λ _. self.new ≡ slice_set self.old place row.now) }
        ensures same { result ≡ Ok false → self.new ≡ self.old }
        ensures grew { result ≡ Ok true → room self.new < room self.old }
        ensures room { IfOk result (λ _. room self.new ≤ room self.old) }
    {
        if place >= self.rows.len() || row.is_empty() {
            return Ok(false);
        }
        self.rows[place] = copied(alloc, row)?;
        Ok(true)
    }
}

/// Joins one row to another, as far as that has slots. Returns whether it grew.
fn join_words(row: &mut [u16], more: &[u16]) -> bool
    ensures row { row.new ≡ inside_sweeps.or_from more.now 0 row.old }
    ensures same { result ≡ false → row.new ≡ row.old }
    ensures grew { result ≡ true → words_room row.new < words_room row.old }
    ensures room { words_room row.new ≤ words_room row.old }
{
    let mut grew = false;
    for slot in 0..row.len() {
        if raise(row, slot, word(more, slot)) {
            grew = true;
        }
    }
    grew
}

/// Adds bits to a word. Returns whether any was new.
#[tactic(auto, using(crate::proofs::bits::Rooms::raising))]
fn raise(row: &mut [u16], slot: usize, bits: u16) -> bool
    requires { slot < length row.old }
    ensures row { row.new ≡ slice_set row.old slot (bit_or (words.word row.old slot) bits) }
    ensures same { result ≡ false → row.new ≡ row.old }
    ensures grew { result ≡ true → words_room row.new < words_room row.old }
    ensures room { words_room row.new ≤ words_room row.old }
{
    match raised(row[slot], bits) {
        Some(word) => {
            row[slot] = word;
            true
        }
        None => false,
    }
}

/// Adds bits to the word of a slot, if there is one. Returns whether any was new.
#[tactic(auto, using(crate::proofs::bits::Bits::set_past))]
fn raise_in(row: &mut [u16], slot: usize, bits: u16) -> bool
    ensures row { row.new ≡ slice_set row.old slot (bit_or (words.word row.old slot) bits) }
    ensures room { words_room row.new ≤ words_room row.old }
{
    if slot < row.len() {
        return raise(row, slot, bits);
    }
    false
}

/// The word with these bits added, or `None` if it has all of them.
#[tactic(auto, using(std::proofs::lemmas::Nat::le_or_l))]
fn raised(word: u16, bits: u16) -> Option<u16>
    ensures more { IfSome result (λ more. more ≡ bit_or word bits) }
    ensures rises { IfSome result (λ more. (word < more) × (word < 2 ^ 16)) }
    ensures none { result ≡ None → bit_or word bits ≡ word }
{
    let more = word | bits;
    if more > word { Some(more) } else { None }
}

/// Replaces the words of a row.
fn rewrite(row: &mut Vec<u16>, words: &[u16]) -> Result<(), AllocError>
    ensures { OnOk result (row.new.items ≡ words.now) }
{
    row.clear();
    row.extend_from_slice(words)?;
    Ok(())
}

/// A copy of the row.
pub fn copied(alloc: Global, row: &[u16]) -> Result<Vec<u16>, AllocError>
    ensures { IfOk result (λ all. all.items ≡ row.now) }
{
    let mut all = Vec::new(alloc);
    all.extend_from_slice(row)?;
    Ok(all)
}
