//! The lines of a device in memory, which may be kept in more than one way.

ghost use Rattle.std.specs.Prelude.{◌≡◌, ◌+◌, ◌*◌, ◌%◌, ◌^◌, ◌<◌, ◌≤◌, length, None, Some, OnOk};
ghost use Rattle.std.specs.Prelude.{OnErr, IfOk, IfErr, IfSome};
ghost use Rattle.cache_model.specs.Cache.{Memory, blank, view};
ghost use Rattle.cache_model.specs.Event.{Store, Flush, Fence};
ghost use Rattle.cache_model.specs.Play.{after};
ghost use Rattle.cache_model.specs.Collapse.{bad, version_count, collapse, Rises};
ghost use Rattle.cache_model.specs.Lists.{memory_from};
ghost use Rattle.pmem.specs.Filled.{filled_memory};
ghost use Rattle.pmem.specs.Zeros.{IsFirstZero};

use cache_model::{BadPick, Cache, Choice};
use std::alloc::{AllocError, Global};

/// Lines with all their versions and marks. Each call does to them what the cache model says.
pub trait Lines {
    ghost memory: { Self → Memory };

    /// A memory of no lines. It allocates nothing.
    fn empty(alloc: Global) -> Self
        ensures { memory result ≡ record { lines = 0; cache = blank } };

    /// Makes `count` blank lines.
    fn blank(alloc: Global, count: u64) -> Result<Self, AllocError>
        ensures { IfOk result (λ s. memory s ≡ record { lines = count; cache = blank }) };

    /// Lines with these words, one version each, or `None` if this memory doesn't take words at
    /// once.
    fn filled(alloc: Global, words: &[i64]) -> Result<Option<Self>, AllocError>
        requires { length words.now % 8 ≡ 0 }
        ensures { IfOk result (λ found. IfSome found (λ s. memory s ≡ filled_memory words.now)) };

    /// The number of lines.
    fn count(&self) -> u64
        ensures { result ≡ (memory self.now).lines };

    /// The word in the newest version of its line.
    fn load(&self, word: u64) -> i64
        requires { word < 8 * (memory self.now).lines }
        ensures { result ≡ view (memory self.now).cache word };

    /// How many of `count` words that are so far apart, from `word` on, come before the first that
    /// is 0.
    fn first_zero(&mut self, word: u64, apart: u64, count: u64) -> u64
        requires apart { 1 ≤ apart }
        requires inside { word + apart * count ≤ 8 * (memory self.old).lines }
        requires fits { word + apart * count < 2 ^ 64 }
        ensures value { IsFirstZero (view (memory self.old).cache) word apart count result }
        ensures same { memory self.new ≡ memory self.old };

    /// Appends a version to the word's line.
    fn store(&mut self, word: u64, value: i64) -> Result<(), AllocError>
        requires { word < 8 * (memory self.old).lines }
        ensures done { OnOk result (memory self.new ≡ after (memory self.old) (Store word value)) }
        ensures refused { OnErr result (memory self.new ≡ memory self.old) };

    /// Marks the newest version of the line for the next fence.
    fn flush(&mut self, line: u64)
        requires { line < (memory self.old).lines }
        ensures { memory self.new ≡ after (memory self.old) (Flush line) };

    /// In every line with a mark, drops the versions older than the marked one.
    fn fence(&mut self)
        ensures { memory self.new ≡ after (memory self.old) Fence };

    /// Cuts each line to the version that the choice says. On `BadPick`, which names the first pick
    /// whose line or version doesn't exist, nothing changes. It takes no memory.
    fn collapse(&mut self, choice: &Choice) -> Result<(), BadPick>
        requires { Rises choice.now.picks }
        ensures fits { OnOk result (bad (memory self.old) choice.now.picks ≡ None) }
        ensures done { OnOk result (memory self.new ≡ collapse (memory self.old) choice.now) }
        ensures bad { IfErr result (λ pick. bad (memory self.old) choice.now.picks
            ≡ Some pick.line) }
        ensures versions { IfErr result (λ pick. pick.versions
            ≡ version_count (memory self.old) pick.line) }
        ensures refused { OnErr result (memory self.new ≡ memory self.old) };
}

/// How many of `count` words that are so far apart, from `word` on, come before the first that is
/// 0.
pub fn first_zero_of(cache: &Cache, word: u64, apart: u64, count: u64) -> u64
    requires apart { 1 ≤ apart }
    requires inside { word + apart * count ≤ 8 * length cache.now }
    requires fits { word + apart * count < 2 ^ 64 }
    ensures { IsFirstZero (view (memory_from cache.now).cache) word apart count result }
{
    for n in 0..count {
        if cache.load(word + apart * n) == 0 {
            return n;
        }
    }
    count
}

/// Every line with a list of its versions.
impl Lines for Cache {
    ghost memory = { memory_from };

    fn empty(alloc: Global) -> Self {
        Cache::empty(alloc)
    }

    fn blank(alloc: Global, count: u64) -> Result<Self, AllocError> {
        Cache::new(alloc, count)
    }

    fn filled(alloc: Global, words: &[i64]) -> Result<Option<Self>, AllocError> {
        Ok(None)
    }

    fn count(&self) -> u64 {
        self.lines()
    }

    fn load(&self, word: u64) -> i64 {
        Cache::load(self, word)
    }

    fn first_zero(&mut self, word: u64, apart: u64, count: u64) -> u64 {
        first_zero_of(self, word, apart, count)
    }

    fn store(&mut self, word: u64, value: i64) -> Result<(), AllocError> {
        Cache::store(self, word, value)
    }

    fn flush(&mut self, line: u64) {
        Cache::flush(self, line);
    }

    fn fence(&mut self) {
        Cache::fence(self);
    }

    fn collapse(&mut self, choice: &Choice) -> Result<(), BadPick> {
        Cache::collapse(self, choice)
    }
}
