//! The places of a pool: each word by its name, and its number in the pool.

ghost use Rattle.std.specs.Prelude.{◌≡◌, ◌<◌, ◌≤◌, ◌*◌};
ghost use Rattle.pool_layout.specs.Places.{at, layout_words, log_line, seal_word, pool_of};
ghost use Rattle.pool_layout.specs.Places.{IsPlace, PlacesApart, PlacesFit, HeapLines};
ghost use Rattle.pool_layout.specs.Places.{HeapApart, HeapFits, SizesAgree};

use crate::limits::Sizes;
use crate::measures::heap_words;

/// The number of words of lines 0 and 1.
pub const SUPER_WORDS: u64 = 16;

/// The word of the last value.
pub const LAST: u64 = 16;

/// The word that counts the finished calls.
pub const DONE: u64 = 17;

/// The word of the attempt.
pub const ATTEMPT: u64 = 18;

/// The word of the mark.
pub const MARK: u64 = 19;

/// The word of the function, at the start of the argument record.
pub const FUNCTION: u64 = 24;

/// The word of the first argument.
pub const FIRST_ARGUMENT: u64 = FUNCTION + 1;

/// The greatest number of arguments in the argument record.
pub const ARGUMENTS: usize = 22;

/// The word of the seal, at the end of the argument record.
pub const SEAL: u64 = 47;

/// The two versions of the layout. A pool is created and saved in the second. The argument record
/// is one line in the first version, and three lines in the second.
#[derive(Clone, Copy)]
pub enum Version {
    First,
    Second,
}

/// The layout of a pool of these sizes.
#[derive(Clone, Copy)]
pub struct Layout {
    pub version: Version,
    pub sizes: Sizes,
}

/// A word of a pool by its name. Arguments are counted from 1, `Argument(0)` is the function;
/// records and heap words are counted from 0. The spare words are never read.
#[derive(Clone, Copy, Debug, PartialEq, Eq)]
pub enum Place {
    /// Lines 0 and 1: magic, version, sizes, and the digest in words 8 to 11.
    Super(u64),
    Last,
    Done,
    Attempt,
    Mark,
    Spare(u64),
    Argument(u64),
    Seal,
    RecordWord(u64),
    RecordOld(u64),
    RecordStamp(u64),
    RecordSpare(u64, u64),
    Heap(u64),
}

/// A word of the heap by its name: a word of the root, or the header or a field of a slot. Slots
/// are counted from 1, fields from 0.
#[derive(Clone, Copy)]
pub enum HeapPlace {
    Root(u64),
    Header(u64),
    Field(u64, u64),
}

impl Version {
    /// The line of record 0.
    fn log_line(self) -> u64
        ensures { result ≡ log_line self }
    {
        match self {
            Version::First => 4,
            Version::Second => 6,
        }
    }

    /// The number of the seal's word in the pool.
    fn seal_word(self) -> u64
        ensures { result ≡ seal_word self }
    {
        match self {
            Version::First => 31,
            Version::Second => SEAL,
        }
    }
}

impl Layout {
    /// The layout of a pool that is created or saved.
    pub fn new(sizes: &Sizes) -> Self
        ensures { result ≡ pool_of sizes.now }
    {
        Layout {
            version: Version::Second,
            sizes: *sizes,
        }
    }

    /// The number of words of the pool.
    pub fn words(&self) -> u64
        ensures { result ≡ layout_words self.now }
    {
        8 * (self.version.log_line() + self.sizes.records()) + heap_words(&self.sizes)
    }

    /// The number of the word at this place.
    pub fn word(&self, place: Place) -> u64
        requires { IsPlace self.now place }
        ensures value { result ≡ at self.now place }
        ensures within { result < layout_words self.now }
    {
        let log = self.version.log_line();
        match place {
            Place::Super(k) => k,
            Place::Last => LAST,
            Place::Done => DONE,
            Place::Attempt => ATTEMPT,
            Place::Mark => MARK,
            Place::Spare(k) => 20 + k,
            Place::Argument(k) => FUNCTION + k,
            Place::Seal => self.version.seal_word(),
            Place::RecordWord(i) => 8 * (log + i),
            Place::RecordOld(i) => 8 * (log + i) + 1,
            Place::RecordStamp(i) => 8 * (log + i) + 2,
            Place::RecordSpare(i, k) => 8 * (log + i) + 3 + k,
            Place::Heap(w) => 8 * (log + self.sizes.records()) + w,
        }
    }

    /// The place of a word of the pool. Each word has one.
    pub fn place(&self, word: u64) -> Place
        requires { word < layout_words self.now }
        ensures valid { IsPlace self.now result }
        ensures same { at self.now result ≡ word }
    {
        let seal = self.version.seal_word();
        if word < FUNCTION {
            self.head_place(word)
        } else if word < seal {
            Place::Argument(word - FUNCTION)
        } else if word == seal {
            Place::Seal
        } else {
            self.tail_place(word)
        }
    }

    /// The place of a word of lines 0 to 2.
    fn head_place(&self, word: u64) -> Place
        requires { word < FUNCTION }
        ensures valid { IsPlace self.now result }
        ensures same { at self.now result ≡ word }
    {
        match word {
            LAST => Place::Last,
            DONE => Place::Done,
            ATTEMPT => Place::Attempt,
            MARK => Place::Mark,
            k if k < LAST => Place::Super(k),
            k => Place::Spare(k - 20),
        }
    }

    /// The place of a word after the seal.
    fn tail_place(&self, word: u64) -> Place
        requires after { 8 * log_line self.now.version ≤ word }
        requires inside { word < layout_words self.now }
        ensures valid { IsPlace self.now result }
        ensures same { at self.now result ≡ word }
    {
        let log = self.version.log_line();
        let heap = 8 * (log + self.sizes.records());
        if word >= heap {
            return Place::Heap(word - heap);
        }
        let i = word / 8 - log;
        match word % 8 {
            0 => Place::RecordWord(i),
            1 => Place::RecordOld(i),
            2 => Place::RecordStamp(i),
            k => Place::RecordSpare(i, k - 3),
        }
    }
}

/// Different places are different words, each within the pool, and each heap word has one line.
pub fn places_law()
    ensures apart { PlacesApart }
    ensures fit { PlacesFit }
    ensures lines { HeapLines }
    ensures heap_apart { HeapApart }
    ensures heap_fits { HeapFits }
    ensures sizes { SizesAgree }
{}
