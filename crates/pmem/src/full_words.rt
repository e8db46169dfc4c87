//! What searches for a word that is 0 leave known.

ghost use Rattle.std.specs.Prelude.{◌≡◌, ◌≢◌, ◌⊎◌, ◌*◌, ◌+◌, ◌/◌, ◌<◌, ◌≤◌, ℕ, List, ℤ, length};
ghost use Rattle.std.specs.Prelude.{pos, true, false, slice_set, slice_index_or, IfSome, IfNone};
ghost use Rattle.pmem.specs.Zeros.{IsFirstZero};
ghost use Rattle.pmem.specs.inside.Zeros.{AreFull};

use std::alloc::Global;

/// How many words share a flag.
const CHUNK: u64 = 128;

/// How many words share a flag of the upper level.
const AREA: u64 = 128 * CHUNK;

/// Words, a given number apart, that are known not to be 0: a run from where the searches began,
/// and whole chunks and areas, by a flag for each. One past the last flag has none.
#[derive(Drop)]
pub struct FullWords {
    first: u64,
    apart: u64,
    count: u64,
    chunks: Vec<bool>,
    areas: Vec<bool>,
    ghost some: { 1 ≤ apart },
}

impl FullWords {
    ghost use Rattle.pmem.specs.inside.Known.{IsKnown};

    /// Nothing is known. It takes no memory.
    pub fn new(alloc: Global) -> Self
        ensures { (words : List ℤ) → IsKnown words result }
    {
        FullWords {
            first: 0,
            apart: 1,
            count: 0,
            chunks: Vec::new(alloc),
            areas: Vec::new(alloc),
        }
    }

    /// Nothing is known of the words from this one on.
    pub fn start_at(&mut self, word: u64, apart: u64)
        requires { 1 ≤ apart }
        ensures first { self.new.first ≡ word }
        ensures apart { self.new.apart ≡ apart }
        ensures known { (words : List ℤ) → IsKnown words self.new }
    {
        self.first = word;
        self.apart = apart;
        self.count = 0;
        self.chunks.clear();
        self.areas.clear();
    }

    /// Forgets what a store makes untrue.
    pub fn store(&mut self, word: u64, value: i64)
        ensures { (words : List ℤ) → word < length words → IsKnown words self.old
            → IsKnown (slice_set words word value) self.new }
    {
        if value != 0 {
            return;
        }
        let Some(number) = self.number(word) else {
            return;
        };
        self.count = self.count.min(number);
        clear_flag(&mut self.chunks, number / CHUNK);
        clear_flag(&mut self.areas, number / AREA);
    }

    /// How many of `count` words that are so far apart, from `word` on, come before the first that
    /// is 0.
    pub fn first_zero(&mut self, words: &[i64], word: u64, apart: u64, count: u64) -> u64
        requires apart { 1 ≤ apart }
        requires inside { word + apart * count ≤ length words.now }
        requires known { IsKnown words.now self.old }
        ensures value { IsFirstZero (λ w. slice_index_or words.now w (pos 0)) word apart count
            result }
        ensures known { IsKnown words.now self.new }
    {
        if self.first != word || self.apart != apart {
            self.start_at(word, apart);
        }
        let found = self.search(words, count);
        self.count = self.count.max(found);
        found
    }

    /// How many of `count` words come before the first that is 0.
    fn search(&mut self, words: &[i64], count: u64) -> u64
        requires inside { self.old.first + self.old.apart * count ≤ length words.now }
        requires known { IsKnown words.now self.old }
        ensures first { self.new.first ≡ self.old.first }
        ensures apart { self.new.apart ≡ self.old.apart }
        ensures value { IsFirstZero (λ w. slice_index_or words.now w (pos 0)) self.old.first
            self.old.apart count result }
        ensures known { IsKnown words.now self.new }
    {
        let mut known = self.count.min(count);
        'searching: while known < count {
            let until = (AREA * (known / AREA + 1)).min(count);
            let found = self.search_area(words, known, until);
            if found < until {
                return found;
            }
            known = until;
        }
        count
    }

    /// How many of the words before `until` come before the first that is 0, if none of the first
    /// `known` is 0 and the others lie in one area.
    fn search_area(&mut self, words: &[i64], known: u64, until: u64) -> u64
        requires inside { self.old.first + self.old.apart * until ≤ length words.now }
        requires some { known < until }
        requires area { until ≤ AREA * (known / AREA + 1) }
        requires full { AreFull words.now self.old.first self.old.apart known }
        requires known { IsKnown words.now self.old }
        ensures first { self.new.first ≡ self.old.first }
        ensures apart { self.new.apart ≡ self.old.apart }
        ensures value { IsFirstZero (λ w. slice_index_or words.now w (pos 0)) self.old.first
            self.old.apart until result }
        ensures known { IsKnown words.now self.new }
    {
        let area = known / AREA;
        if is_set(&self.areas, area) {
            return until;
        }
        let found = self.search_chunks(words, known, until);
        if found == AREA * (area + 1) {
            set_flag(&mut self.areas, area);
        }
        found
    }

    /// How many of the words before `until` come before the first that is 0, if none of the first
    /// `known` is 0.
    fn search_chunks(&mut self, words: &[i64], known: u64, until: u64) -> u64
        requires inside { self.old.first + self.old.apart * until ≤ length words.now }
        requires some { known < until }
        requires full { AreFull words.now self.old.first self.old.apart known }
        requires known { IsKnown words.now self.old }
        ensures first { self.new.first ≡ self.old.first }
        ensures apart { self.new.apart ≡ self.old.apart }
        ensures value { IsFirstZero (λ w. slice_index_or words.now w (pos 0)) self.old.first
            self.old.apart until result }
        ensures known { IsKnown words.now self.new }
    {
        let mut known = known;
        'searching: while known < until {
            let end = (CHUNK * (known / CHUNK + 1)).min(until);
            let found = self.search_chunk(words, known, end);
            if found < end {
                return found;
            }
            known = end;
        }
        until
    }

    /// How many of the words before `until` come before the first that is 0, if none of the first
    /// `known` is 0 and the others lie in one chunk.
    fn search_chunk(&mut self, words: &[i64], known: u64, until: u64) -> u64
        requires inside { self.old.first + self.old.apart * until ≤ length words.now }
        requires some { known < until }
        requires chunk { until ≤ CHUNK * (known / CHUNK + 1) }
        requires full { AreFull words.now self.old.first self.old.apart known }
        requires known { IsKnown words.now self.old }
        ensures first { self.new.first ≡ self.old.first }
        ensures apart { self.new.apart ≡ self.old.apart }
        ensures value { IsFirstZero (λ w. slice_index_or words.now w (pos 0)) self.old.first
            self.old.apart until result }
        ensures known { IsKnown words.now self.new }
    {
        let chunk = known / CHUNK;
        if is_set(&self.chunks, chunk) {
            return until;
        }
        let found = first_zero_in(words, self.first, self.apart, until, known);
        if found == CHUNK * (chunk + 1) {
            set_flag(&mut self.chunks, chunk);
        }
        found
    }

    /// A word's number among those that are searched, if it is one of them.
    fn number(&self, word: u64) -> Option<u64>
        ensures some { IfSome result (λ i. self.now.first + self.now.apart * i ≡ word) }
        ensures none { IfNone result ((i : ℕ) → self.now.first + self.now.apart * i ≢ word) }
    {
        if word < self.first {
            return None;
        }
        let past = word - self.first;
        if past % self.apart == 0 {
            Some(past / self.apart)
        } else {
            None
        }
    }
}

/// How many of `count` words that are so far apart, from `word` on, come before the first that is
/// 0, if none of the first `known` is.
fn first_zero_in(words: &[i64], word: u64, apart: u64, count: u64, known: u64) -> u64
    requires apart { 1 ≤ apart }
    requires inside { word + apart * count ≤ length words.now }
    requires few { known ≤ count }
    requires known { AreFull words.now word apart known }
    ensures { IsFirstZero (λ w. slice_index_or words.now w (pos 0)) word apart count result }
{
    for n in known..count {
        if words[(word + apart * n) as usize] == 0 {
            return n;
        }
    }
    count
}

/// Whether a chunk has its flag.
fn is_set(chunks: &Vec<bool>, chunk: u64) -> bool
    ensures { result ≡ slice_index_or chunks.now.items chunk false }
{
    chunks.get(chunk as usize).copied().unwrap_or(false)
}

/// Sets the flag of a chunk. Without memory for one it isn't set.
#[tactic(auto, using(crate::proofs::Zeros::flag_set, crate::proofs::Zeros::flag_pushed))]
fn set_flag(chunks: &mut Vec<bool>, chunk: u64)
    ensures { (k : ℕ) → slice_index_or chunks.new.items k false ≡ true
        → (k ≡ chunk) ⊎ (slice_index_or chunks.old.items k false ≡ true) }
{
    let at = chunk as usize;
    if at < chunks.len() {
        chunks[at] = true;
    } else if at == chunks.len() {
        let _ = chunks.push(true);
    }
}

/// Takes the flag of a chunk away.
#[tactic(auto, using(crate::proofs::Zeros::flag_cleared, crate::proofs::Zeros::flag_past))]
fn clear_flag(chunks: &mut Vec<bool>, chunk: u64)
    ensures { (k : ℕ) → slice_index_or chunks.new.items k false ≡ true
        → (k ≢ chunk) × (slice_index_or chunks.old.items k false ≡ true) }
{
    let at = chunk as usize;
    if at < chunks.len() {
        chunks[at] = false;
    }
}
