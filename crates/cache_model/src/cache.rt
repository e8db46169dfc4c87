//! The lines of a memory.

ghost use Rattle.std.specs.Prelude.{◌≡◌, ◌*◌, ◌<◌, Some, None, OnOk, OnErr, IfOk, IfErr, map};
ghost use Rattle.std.specs.Prelude.{length, [], ◌+◌, slice_index_or};
ghost use Rattle.cache_model.specs.Cache.{blank, view};
ghost use Rattle.cache_model.specs.Event.{Store, Flush, Fence};
ghost use Rattle.cache_model.specs.Play.{after};
ghost use Rattle.cache_model.specs.Collapse.{bad, is_good_pick, version_count, collapse, Rises};
ghost use Rattle.cache_model.specs.Lists.{blank_list, cache_from, memory_from, IsWhole};
ghost use Rattle.cache_model.specs.inside.Lists.{list_fence, list_picked, list_rest, AreIn};

use crate::choice::{BadPick, Choice, Pick, Rest};
use crate::line::Versions;
use std::alloc::{AllocError, Global};
use std::marker::Model;

/// Lines with their versions and marks.
#[derive(Drop)]
pub struct Cache {
    all: Vec<Versions>,
}

impl Model for Cache {
    ghost use Rattle.std.specs.Prelude.{List};
    ghost use Rattle.cache_model.specs.Lists.{ListLine, IsWhole};

    ghost Value = { List ListLine };

    ghost view = { λ c. c.all.items };

    ghost invariant = { λ c. IsWhole c.all.items };
}

impl Cache {
    /// Makes this many blank lines.
    pub fn new(alloc: Global, lines: u64) -> Result<Self, AllocError>
        ensures done { IfOk result (λ c. memory_from c ≡ record { lines = lines; cache = blank }) }
        ensures lines { IfOk result (λ c. length c ≡ lines) }
    {
        let mut all = Vec::new(alloc);
        for _ in 0..lines {
            all.push(Versions::blank(alloc))?;
        }
        Ok(Cache { all })
    }

    /// A memory of no lines. It allocates nothing.
    pub fn empty(alloc: Global) -> Self
        ensures { memory_from result ≡ record { lines = 0; cache = blank } }
    {
        Cache {
            all: Vec::new(alloc),
        }
    }

    /// The number of lines.
    pub fn lines(&self) -> u64
        ensures { result ≡ length self.now }
    {
        self.all.len() as u64
    }

    /// The word in the newest version of its line.
    #[tactic(auto, using(std::proofs::lemmas::Int::wraps, crate::proofs::Lists::view_list))]
    pub fn load(&self, word: u64) -> i64
        requires { word < 8 * length self.now }
        ensures { result ≡ view (cache_from self.now) word }
    {
        self.all[(word / 8) as usize].load((word % 8) as usize)
    }

    /// Appends a version to the word's line.
    #[tactic(auto, using(std::proofs::lemmas::Int::wraps, crate::proofs::Lists::store_memory))]
    pub fn store(&mut self, word: u64, value: i64) -> Result<(), AllocError>
        requires { word < 8 * length self.old }
        ensures done { OnOk result (memory_from self.new ≡ after (memory_from self.old)
            (Store word value)) }
        ensures refused { OnErr result (self.new ≡ self.old) }
        ensures lines { length self.new ≡ length self.old }
    {
        let line = &mut self.all[(word / 8) as usize];
        line.store((word % 8) as usize, value)?;
        Ok(())
    }

    /// Marks the newest version of the line for the next fence.
    pub fn flush(&mut self, line: u64)
        requires { line < length self.old }
        ensures done { memory_from self.new ≡ after (memory_from self.old) (Flush line) }
        ensures lines { length self.new ≡ length self.old }
    {
        let versions = &mut self.all[line as usize];
        versions.flush();
    }

    /// Drops the versions older than the mark, in every line that has one.
    pub fn fence(&mut self)
        ensures done { memory_from self.new ≡ after (memory_from self.old) Fence }
        ensures lines { length self.new ≡ length self.old }
    {
        fence_all(&mut self.all);
    }

    /// The line of the first pick whose line or version doesn't exist.
    fn bad_pick(&self, picks: &[Pick]) -> Option<u64>
        ensures { result ≡ bad (memory_from self.now) picks.now }
    {
        for pick in picks {
            if !self.has(*pick) {
                return Some(pick.line);
            }
        }
        None
    }

    /// The number of versions of a line.
    pub fn versions(&self, line: u64) -> u64
        requires { line < length self.now }
        ensures { result ≡ length (slice_index_or self.now line blank_list).older + 1 }
    {
        self.all[line as usize].len()
    }

    /// Whether the line exists and has the picked version.
    fn has(&self, pick: Pick) -> bool
        ensures { result ≡ is_good_pick (memory_from self.now) pick }
    {
        if pick.line >= self.lines() {
            return false;
        }
        pick.version < self.all[pick.line as usize].len()
    }

    /// The number of versions of a line, or 0 if there is no such line.
    fn version_count(&self, line: u64) -> u64
        ensures { result ≡ version_count (memory_from self.now) line }
    {
        if line >= self.lines() {
            return 0;
        }
        self.versions(line)
    }

    /// Cuts the power: each line keeps the version that the choice says. On `BadPick`, which names
    /// the first pick whose line or version doesn't exist, nothing changes. It takes no memory.
    pub fn collapse(&mut self, choice: &Choice) -> Result<(), BadPick>
        requires { Rises choice.now.picks }
        ensures fits { OnOk result (bad (memory_from self.old) choice.now.picks ≡ None) }
        ensures done { OnOk result (memory_from self.new ≡ collapse (memory_from self.old)
            choice.now) }
        ensures bad { IfErr result (λ pick. bad (memory_from self.old) choice.now.picks
            ≡ Some pick.line) }
        ensures versions { IfErr result (λ pick. pick.versions
            ≡ version_count (memory_from self.old) pick.line) }
        ensures refused { OnErr result (self.new ≡ self.old) }
        ensures lines { length self.new ≡ length self.old }
    {
        let picks = choice.picks.as_slice();
        if let Some(line) = self.bad_pick(picks) {
            let versions = self.version_count(line);
            return Err(BadPick { line, versions });
        }
        keep_picked(&mut self.all, picks);
        keep_rest(&mut self.all, choice.rest);
        Ok(())
    }
}

/// Fences each line.
fn fence_all(lines: &mut Vec<Versions>)
    ensures { lines.new.items ≡ map list_fence lines.old.items }
{
    for line in lines.iter_mut() {
        line.fence();
    }
}

/// Each picked line keeps the version that its pick names.
fn keep_picked(lines: &mut Vec<Versions>, picks: &[Pick])
    requires picks { AreIn (length lines.old.items) picks.now }
    requires whole { IsWhole lines.old.items }
    ensures kept { lines.new.items ≡ list_picked lines.old.items picks.now }
    ensures whole { IsWhole lines.new.items }
{
    for pick in picks {
        let line = &mut lines[pick.line as usize];
        line.keep(pick.version as usize);
    }
}

/// Each line keeps its oldest or its newest version.
fn keep_rest(lines: &mut Vec<Versions>, rest: Rest)
    requires { IsWhole lines.old.items }
    ensures kept { lines.new.items ≡ map (list_rest rest) lines.old.items }
    ensures whole { IsWhole lines.new.items }
{
    for line in lines.iter_mut() {
        line.keep_rest(rest);
    }
}
