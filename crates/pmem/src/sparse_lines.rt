//! Lines in one list of words, with older versions only for the lines that have any.

ghost use Rattle.std.specs.Prelude.{◌≡◌, ◌⊎◌, ◌*◌, ◌+◌, ◌/◌, ◌%◌, ◌<◌, ◌≤◌, ◌==◌, cond, ℕ, Some};
ghost use Rattle.std.specs.Prelude.{None, OnOk, OnErr, IfOk, IfErr, [], ◌∷◌, ◌++◌, true};
ghost use Rattle.std.specs.Prelude.{false, length, slice_range, slice_index_or, pos, nat_lt};
ghost use Rattle.std.specs.Prelude.{IfSome};
ghost use Rattle.std.specs.Ordering.{nat_cmp};
ghost use Rattle.std.specs.BTreeMap.{is_at};
ghost use Rattle.std.specs.Option.{option_map};
ghost use Rattle.cache_model.specs.Event.{Store, Flush, Fence};
ghost use Rattle.cache_model.specs.Play.{after};
ghost use Rattle.cache_model.specs.Cache.{blank, view};
ghost use Rattle.cache_model.specs.Collapse.{picked, kept, is_good_pick, version_count, bad};
ghost use Rattle.cache_model.specs.Collapse.{collapse};
ghost use Rattle.pmem.specs.Filled.{filled_memory};
ghost use Rattle.pmem.specs.Kept.{more_lines};
ghost use Rattle.pmem.specs.Sparse.{Older, sparse_line, sparse_cache, sparse_memory, newest_of};
ghost use Rattle.pmem.specs.Sparse.{kept_at};
ghost use Rattle.pmem.specs.inside.Sparse.{count_of, more_older, flush_older, fence_entry};
ghost use Rattle.pmem.specs.inside.Sparse.{fence_lines, AreListed, left_older};
ghost use Rattle.pmem.specs.inside.Sparse.{or_newest};
ghost use Rattle.pmem.specs.Zeros.{IsFirstZero};

use crate::full_words::FullWords;
use crate::kept_lines::KeptLines;
use crate::lines::Lines;
use crate::older::Kept;
use cache_model::{BadPick, Choice, Pick, Rest};
use std::alloc::{AllocError, Global};
use std::marker::Model;

/// The lines: newest words, older versions, lines flushed since the last fence, and what searches
/// remembered.
#[derive(Drop)]
pub struct SparseLines {
    count: u64,
    words: Vec<i64>,
    kept: KeptLines,
    marked: Vec<u64>,
    /// Whether a marked line isn't listed, since memory lacked.
    unlisted: bool,
    full: FullWords,
}

impl Model for SparseLines {
    ghost use Rattle.std.specs.Prelude.{◌≡◌, ◌⊎◌, true};
    ghost use Rattle.pmem.specs.Sparse.{Sparse, IsTidySparse};
    ghost use Rattle.pmem.specs.inside.Sparse.{AreListed};
    ghost use Rattle.pmem.specs.inside.Known.{IsKnown};

    ghost Value = { Sparse };

    ghost view = { λ s. record { count = s.count; words = s.words.items; kept = s.kept } };

    ghost invariant = { λ s.
        IsTidySparse (record { count = s.count; words = s.words.items; kept = s.kept })
        × ((s.unlisted ≡ true) ⊎ AreListed s.marked.items s.kept)
        × IsKnown s.words.items s.full };
}

impl SparseLines {
    /// Lines with these words, one version each.
    fn of_words(alloc: Global, words: &[i64]) -> Result<Self, AllocError>
        requires { length words.now % 8 ≡ 0 }
        ensures { IfOk result (λ s. sparse_memory s ≡ filled_memory words.now) }
    {
        let count = words.len() as u64 / 8;
        let kept = KeptLines::blank(alloc, count)?;
        let mut all = Vec::with_capacity(alloc, words.len())?;
        all.extend_from_slice(words)?;
        Ok(SparseLines {
            count,
            words: all,
            kept,
            marked: Vec::new(alloc),
            unlisted: false,
            full: FullWords::new(alloc),
        })
    }

    /// The number of lines with more than one version.
    pub fn kept(&self) -> u64
        ensures { result ≡ more_lines (sparse_memory self.now) }
    {
        self.kept.len()
    }

    /// The number of versions of a line.
    fn versions(&self, line: u64) -> u64
        ensures { result ≡ count_of (kept_at self.now.kept line) }
    {
        self.kept.versions(line)
    }

    /// Whether the line exists and has the picked version.
    fn has(&self, pick: Pick) -> bool
        ensures { result ≡ is_good_pick (sparse_memory self.now) pick }
    {
        if pick.line >= self.count() {
            return false;
        }
        pick.version < self.versions(pick.line)
    }

    /// The number of versions of a line, or 0 if there is no such line.
    fn version_count(&self, line: u64) -> u64
        ensures { result ≡ version_count (sparse_memory self.now) line }
    {
        if line >= self.count() {
            return 0;
        }
        self.versions(line)
    }

    /// The line of the first pick whose line or version doesn't exist.
    fn bad_pick(&self, picks: &[Pick]) -> Option<u64>
        ensures { result ≡ bad (sparse_memory self.now) picks.now }
    {
        for pick in picks {
            if !self.has(*pick) {
                return Some(pick.line);
            }
        }
        None
    }
}

impl Lines for SparseLines {
    ghost memory = { sparse_memory };

    fn count(&self) -> u64 {
        self.count
    }

    fn empty(alloc: Global) -> Self {
        SparseLines {
            count: 0,
            words: Vec::new(alloc),
            kept: KeptLines::empty(alloc),
            marked: Vec::new(alloc),
            unlisted: false,
            full: FullWords::new(alloc),
        }
    }

    fn blank(alloc: Global, count: u64) -> Result<Self, AllocError> {
        let Some(len) = count.checked_mul(8) else {
            return Err(AllocError);
        };
        let words = vec![in alloc; 0; len as usize]?;
        let kept = KeptLines::blank(alloc, count)?;
        Ok(SparseLines {
            count,
            words,
            kept,
            marked: Vec::new(alloc),
            unlisted: false,
            full: FullWords::new(alloc),
        })
    }

    fn filled(alloc: Global, words: &[i64]) -> Result<Option<Self>, AllocError> {
        Ok(Some(SparseLines::of_words(alloc, words)?))
    }

    fn load(&self, word: u64) -> i64 {
        self.words[word as usize]
    }

    fn first_zero(&mut self, word: u64, apart: u64, count: u64) -> u64 {
        self.full.first_zero(&self.words, word, apart, count)
    }

    fn store(&mut self, word: u64, value: i64) -> Result<(), AllocError> {
        let line = word / 8;
        let version = version_of(&self.words, line);
        self.kept.keep(line, version)?;
        self.words[word as usize] = value;
        self.full.store(word, value);
        Ok(())
    }

    fn flush(&mut self, line: u64) {
        let unlisted = self.unlisted;
        self.unlisted = mark_listed(&mut self.kept, &mut self.marked, unlisted, line);
    }

    fn fence(&mut self) {
        fence_marked(
            &mut self.kept,
            self.count,
            self.marked.as_slice(),
            self.unlisted,
        );
        self.marked.clear();
        self.unlisted = false;
    }

    fn collapse(&mut self, choice: &Choice) -> Result<(), BadPick> {
        let picks = choice.picks.as_slice();
        if let Some(line) = self.bad_pick(picks) {
            let versions = self.version_count(line);
            return Err(BadPick { line, versions });
        }
        leave_all(&mut self.words, &mut self.kept, choice.rest, picks);
        self.full.start_at(0, 1);
        Ok(())
    }
}

/// The newest version of a line.
fn version_of(words: &[i64], line: u64) -> [i64; 8]
    requires { 8 * line + 8 ≤ length words.now }
    ensures { result ≡ slice_range words.now (8 * line) (8 * line + 8) }
{
    let from = (8 * line) as usize;
    let mut version = [0; 8];
    version.copy_from_slice(&words[from..from + 8]);
    version
}

/// Overwrites the newest version of a line.
fn write_version(words: &mut Vec<i64>, line: u64, version: [i64; 8])
    requires { 8 * line + 8 ≤ length words.old.items }
    ensures wrote { (q : ℕ) → slice_index_or words.new.items q (pos 0) ≡ cond (q / 8 == line)
        (slice_index_or version (q % 8) (pos 0)) (slice_index_or words.old.items q (pos 0)) }
    ensures length { length words.new.items ≡ length words.old.items }
{
    let from = (8 * line) as usize;
    words[from..from + 8].copy_from_slice(&version);
}

/// Marks the newest version of a line, and lists the line. The answer is whether some marked line
/// isn't listed.
fn mark_listed(kept: &mut KeptLines, marked: &mut Vec<u64>, unlisted: bool, line: u64) -> bool
    ensures kept { (q : ℕ) → kept_at kept.new q ≡ cond (is_at (nat_cmp line) q)
        (option_map flush_older (kept_at kept.old line)) (kept_at kept.old q) }
    ensures listed { (result ≡ true) ⊎ ((unlisted ≡ false)
        × (marked.new.items ≡ marked.old.items ++ line ∷ [])) }
{
    kept.mark(line);
    match marked.push(line) {
        Ok(()) => unlisted,
        Err(_) => true,
    }
}

/// Fences the first `count` lines.
fn fence_all(kept: &mut KeptLines, count: u64)
    ensures { (q : ℕ) → kept_at kept.new q
        ≡ cond (nat_lt q count) (fence_entry (kept_at kept.old q)) (kept_at kept.old q) }
{
    for line in 0..count {
        kept.fence(line);
    }
}

/// Fences the listed lines.
fn fence_listed(kept: &mut KeptLines, lines: &[u64])
    ensures { (q : ℕ) → kept_at kept.new q
        ≡ fence_lines lines.now (kept_at kept.old) q }
{
    for line in lines {
        kept.fence(*line);
    }
}

/// Fences the lines that have a mark: those that are listed, or all if one isn't listed.
fn fence_marked(kept: &mut KeptLines, count: u64, lines: &[u64], unlisted: bool)
    requires few { (q : ℕ) (y : Older) → kept_at kept.old q ≡ Some y → q < count }
    requires listed { (unlisted ≡ true) ⊎ AreListed lines.now kept.old }
    requires more { (q : ℕ) (y : Older) → kept_at kept.old q ≡ Some y
        → 0 < length y.older }
    ensures { (q : ℕ) → kept_at kept.new q ≡ fence_entry (kept_at kept.old q) }
{
    if unlisted {
        fence_all(kept, count);
    } else {
        fence_listed(kept, lines);
    }
}

/// The version that the first pick of the line names.
fn pick_of(picks: &[Pick], line: u64) -> Option<u64>
    ensures { result ≡ picked picks.now line }
{
    for pick in picks {
        if pick.line == line {
            return Some(pick.version);
        }
    }
    None
}

/// Cuts one line to the version that the choice says.
fn leave_line(words: &mut Vec<i64>, line: u64, older: &Kept, rest: Rest, pick: Option<u64>)
    requires { 8 * line + 8 ≤ length words.old.items }
    ensures wrote { (l q : ℕ) → newest_of words.new.items l q
        ≡ or_newest l (newest_of words.old.items l)
        (cond (l == line) (left_older rest pick older.now) None) q }
    ensures length { length words.new.items ≡ length words.old.items }
{
    if let Some(version) = older.left(rest, pick) {
        write_version(words, line, version);
    }
}

/// Cuts each line to the version that the choice says. Lines without older versions stay as they
/// are.
fn leave_all(words: &mut Vec<i64>, lines: &mut KeptLines, rest: Rest, picks: &[Pick])
    requires { (l : ℕ) (y : Older) → kept_at lines.old l ≡ Some y
        → 8 * l + 8 ≤ length words.old.items }
    ensures none { lines.new ≡ [] }
    ensures length { length words.new.items ≡ length words.old.items }
    ensures left { (l q : ℕ) → newest_of words.new.items l q ≡ kept rest (picked picks.now l)
        (sparse_line words.old.items (kept_at lines.old l) l) q }
{
    'leaving: while let Some((line, older)) = lines.pop() {
        leave_line(words, line, &older, rest, pick_of(picks, line));
        lines.give(older);
    }
}
