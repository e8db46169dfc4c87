//! The table of a search: the spots from which a walk can reach its aim, each with how it goes on.

ghost use Rattle.std.specs.Prelude.{◌≡◌, ◌++◌, ◌∷◌, ◌<◌, [], ℕ, length, OnOk, IfOk, Some};
ghost use Rattle.std.specs.Prelude.{slice_get, slice_set};
ghost use Rattle.walk_maker.specs.inside.Table as table;
ghost use Rattle.walk_maker.specs.inside.Buckets as buckets;

use ir::Fact as WalkFact;
use nvm_base::List;
use std::alloc::{AllocError, Global};
use std::marker::Model;
use walk_check::{Step, same, told};

/// Where a search wants to come: to the site; or to a return of the function with this fact.
#[derive(Clone, Copy)]
pub(crate) enum Aim {
    ToSite,
    ToReturn(WalkFact),
}

/// How a walk goes on from an entry: not at all, since it is where the search wanted to come; to
/// an entry that was found before, perhaps past a call whose piece has this number; or into the
/// called function, at an entry that was found before.
#[derive(Clone, Copy)]
pub(crate) enum Link {
    End,
    Next(usize, Option<u64>),
    Enter(usize),
}

/// A fact at a place of a function, from which a walk leads to where the search wanted to come.
#[derive(Clone, Copy)]
pub(crate) struct Entry {
    pub(crate) aim: Aim,
    pub(crate) function: u32,
    pub(crate) place: u32,
    pub(crate) fact: WalkFact,
    pub(crate) link: Link,
}

/// How many buckets a new table has.
pub(crate) const BUCKETS: usize = 1024;

/// The entries, in the order in which they were found. To find a fact at a place, only the entries
/// of its bucket are looked at, the last one first.
#[derive(Drop)]
pub(crate) struct Table {
    all: List<Entry>,
    /// For each bucket, a number above that of its last entry.
    lasts: List<usize>,
    /// For each entry, a number above that of the one before it in its bucket. The list ends where
    /// memory was wanting.
    befores: List<usize>,
}

impl Model for Table {
    ghost use Rattle.std.specs.Prelude.{List, length};
    ghost use Rattle.walk_maker.specs.declared.table.Entry.{Entry};
    ghost use Rattle.walk_maker.specs.inside.Buckets.{IsChained};

    ghost Value = { List Entry };

    ghost view = { λ t. t.all };

    ghost invariant = { λ t. IsChained (length t.lasts) t.all t.lasts t.befores };
}

/// What one look tells of a fact at a place: the entry is it; it isn't in the table; or it isn't
/// among the entries from a number on.
#[derive(Clone, Copy)]
enum Look {
    Known,
    New,
    Below(usize),
}

impl Table {
    /// The table of one entry.
    pub(crate) fn of(alloc: Global, entry: Entry) -> Result<Self, AllocError>
        ensures { IfOk result (λ t. t ≡ entry ∷ []) }
    {
        let mut table = Table::empty(alloc, BUCKETS)?;
        table.push(entry)?;
        Ok(table)
    }

    /// The table without entries.
    #[tactic(auto, using(crate::proofs::Chained::nothing_there))]
    pub(crate) fn empty(alloc: Global, buckets: usize) -> Result<Self, AllocError>
        ensures { IfOk result (λ t. t ≡ []) }
    {
        Ok(Table {
            all: List::new(alloc),
            lasts: zeros(alloc, buckets)?,
            befores: List::new(alloc),
        })
    }

    /// Whether the buckets have more than two entries each, taken together.
    fn is_crowded(&self) -> bool {
        self.all.as_slice().len() / 2 > self.lasts.as_slice().len()
    }

    /// How many buckets a table with more room has.
    fn more_buckets(&self) -> usize {
        self.lasts.as_slice().len().saturating_mul(8)
    }

    /// The entries.
    pub(crate) fn as_slice(&self) -> &[Entry]
        ensures { result.now ≡ self.now }
    {
        self.all.as_slice()
    }

    fn has(&self, entry: Entry) -> bool
        ensures { result ≡ table.has self.now entry }
    {
        has_chained(self.all.as_slice(), &self.lasts, &self.befores, entry)
    }

    pub(crate) fn push(&mut self, entry: Entry) -> Result<(), AllocError>
        ensures { OnOk result (self.new ≡ self.old ++ entry ∷ []) }
    {
        put(&mut self.all, &mut self.lasts, &mut self.befores, entry)
    }

    /// The number of the entry with the same aim, function, place and fact, if there is one.
    pub(crate) fn number_of(&self, entry: Entry) -> Option<usize> {
        let entries = self.all.as_slice();
        let bucket = bucket_of(self.lasts.as_slice().len(), entry);
        let mut above = number_at(&self.lasts, bucket, 0);
        for _ in 0..entries.len() {
            let number = above.checked_sub(1)?;
            if same_spot(entry_at(entries, number)?, entry) {
                return Some(number);
            }
            above = number_at(&self.befores, number, 0);
        }
        None
    }

    /// Adds an entry, unless one with the same aim, function, place and fact is there.
    fn insert(&mut self, entry: Entry) -> Result<(), AllocError>
        ensures { OnOk result (self.new ≡ table.added entry self.old) }
    {
        if self.has(entry) {
            return Ok(());
        }
        self.push(entry)
    }
}

/// The table of some entries.
fn table_of(alloc: Global, entries: &[Entry], buckets: usize) -> Result<Table, AllocError>
    ensures { IfOk result (λ t. t ≡ entries.now) }
{
    let mut table = Table::empty(alloc, buckets)?;
    for entry in entries {
        table.push(*entry)?;
    }
    Ok(table)
}

/// Makes more buckets where they have become full.
pub(crate) fn make_room(alloc: Global, table: &mut Table) -> Result<(), AllocError>
    ensures { OnOk result (table.new ≡ table.old) }
{
    if table.is_crowded() {
        *table = table_of(alloc, table.as_slice(), table.more_buckets())?;
    }
    Ok(())
}

/// Empty buckets: a 0 for each.
fn zeros(alloc: Global, buckets: usize) -> Result<List<usize>, AllocError> {
    let mut numbers = List::new(alloc);
    for _ in 0..buckets {
        numbers.push(0)?;
    }
    Ok(numbers)
}

/// Puts a number at the end, or leaves the list as it is where memory is wanting.
fn keep(numbers: &mut List<usize>, number: usize)
    ensures { buckets.IsNoted numbers.old number numbers.new }
{
    match numbers.push(number) {
        Ok(()) => (),
        Err(_) => (),
    }
}

/// Puts a number at the end of a list that has exactly `count` numbers.
fn keep_at(numbers: &mut List<usize>, count: usize, number: usize)
    ensures { buckets.IsNotedAt numbers.old count number numbers.new }
{
    if numbers.as_slice().len() == count {
        keep(numbers, number);
    }
}

/// Changes the number at a place, if the list is so long.
pub(crate) fn write_at(numbers: &mut List<usize>, place: usize, number: usize)
    ensures { numbers.new ≡ slice_set numbers.old place number }
{
    if place < numbers.as_slice().len() {
        numbers.set(place, number);
    }
}

/// The number at a place, or `other` if the list is shorter.
fn number_at(numbers: &List<usize>, place: usize, other: usize) -> usize
    ensures { result ≡ buckets.number_or_other numbers.now place other }
{
    match numbers.get(place) {
        None => other,
        Some(number) => *number,
    }
}

/// Puts an entry at the end, and keeps its number.
#[tactic(auto, using(crate::proofs::Chained::pushed))]
fn put(
    all: &mut List<Entry>,
    lasts: &mut List<usize>,
    befores: &mut List<usize>,
    entry: Entry,
) -> Result<(), AllocError>
    requires { buckets.IsChained (length lasts.old) all.old lasts.old befores.old }
    ensures chained { buckets.IsChained (length lasts.new) all.new lasts.new befores.new }
    ensures done { OnOk result (all.new ≡ all.old ++ entry ∷ []) }
{
    let count = all.as_slice().len();
    let bucket = bucket_of(lasts.as_slice().len(), entry);
    let last = number_at(lasts, bucket, count);
    all.push(entry)?;
    keep_at(befores, count, last);
    write_at(lasts, bucket, count + 1);
    Ok(())
}

/// Looks at the last entry before a number. The fact that is sought is at no entry from this
/// number on.
fn look_before(all: &[Entry], befores: &List<usize>, count: usize, entry: Entry, at: usize) -> Look
    requires past { buckets.IsPast all.now entry at }
    requires befores { buckets.AreAbove all.now count befores.now }
    ensures { buckets.LookTells all.now entry result }
{
    if at == 0 {
        return Look::New;
    }
    let Some(known) = entry_at(all, at - 1) else {
        return Look::Below(at - 1);
    };
    if same_spot(known, entry) {
        return Look::Known;
    }
    if bucket_of(count, known) == bucket_of(count, entry) {
        Look::Below(number_at(befores, at - 1, at - 1))
    } else {
        Look::Below(at - 1)
    }
}

/// Whether the fact of an entry is in a table with these entries and bucket lists.
fn has_chained(all: &[Entry], lasts: &List<usize>, befores: &List<usize>, entry: Entry) -> bool
    requires { buckets.IsChained (length lasts.now) all.now lasts.now befores.now }
    ensures { result ≡ table.has all.now entry }
{
    let count = lasts.as_slice().len();
    let mut at = number_at(lasts, bucket_of(count, entry), all.len());
    for _ in 0..all.len() {
        match look_before(all, befores, count, entry, at) {
            Look::Known => return true,
            Look::New => return false,
            Look::Below(next) => at = next,
        }
    }
    has_among(all, entry)
}

fn same_aim(a: Aim, b: Aim) -> bool
    ensures { result ≡ table.same_aim a b }
{
    match (a, b) {
        (Aim::ToSite, Aim::ToSite) => true,
        (Aim::ToReturn(x), Aim::ToReturn(y)) => same(x, y),
        _ => false,
    }
}

/// Whether two entries have the same aim, function, place and fact. Their links may differ.
fn same_spot(a: Entry, b: Entry) -> bool
    ensures { result ≡ table.same_spot a b }
{
    same_aim(a.aim, b.aim)
        && (a.function == b.function && (a.place == b.place && same(a.fact, b.fact)))
}

fn has_among(entries: &[Entry], entry: Entry) -> bool
    ensures { result ≡ table.has entries.now entry }
{
    entries.iter().any(|known| same_spot(*known, entry))
}

/// The register of which a fact speaks.
fn register_of(fact: WalkFact) -> u32
    ensures { result ≡ buckets.fact_register fact }
{
    match fact {
        WalkFact::Unwritten { register, .. } => register,
        _ => 0,
    }
}

/// The number of an entry's bucket among `count`, from its function, its place, and the register
/// of its fact.
#[tactic(auto, using(crate::proofs::Chained::bucket_is))]
fn bucket_of(count: usize, entry: Entry) -> usize
    ensures { result ≡ buckets.bucket_of count entry }
{
    let count = count.saturating_sub(1) as u64 + 1;
    let function = 61 * u64::from(entry.function);
    let register = 1009 * u64::from(register_of(entry.fact));
    ((u64::from(entry.place) + function + register) % count) as usize
}

/// Adds an entry, unless one with the same aim, function, place and fact is there.
pub(crate) fn add(entries: &mut Table, entry: Entry) -> Result<(), AllocError>
    ensures { OnOk result (entries.new ≡ table.added entry entries.old) }
{
    entries.insert(entry)
}

/// The entry of a number.
pub(crate) fn entry_at(entries: &[Entry], number: usize) -> Option<Entry>
    ensures { result ≡ slice_get entries.now number }
{
    match entries.get(number) {
        None => None,
        Some(entry) => Some(*entry),
    }
}

fn through_of(link: Link) -> Option<u64>
    ensures { result ≡ table.through_of link }
{
    match link {
        Link::Next(_, through) => through,
        Link::End | Link::Enter(_) => None,
    }
}

/// The step of a piece that an entry is.
pub(crate) fn step_of(entry: Entry) -> Step
    ensures { result ≡ table.step_of entry }
{
    Step {
        place: entry.place,
        fact: told(entry.fact),
        through: through_of(entry.link),
    }
}
