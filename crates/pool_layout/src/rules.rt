//! The rules of content of an image, and the least word that breaks one. Of the slots only the
//! headers are looked at. No memory is allocated.

ghost use Rattle.std.specs.Prelude.{ℕ, ◌≡◌, ◌<◌, ◌≤◌, ◌*◌, ◌+◌, IfSome, IfNone, length, nat_le};
ghost use Rattle.pool_layout.specs.Bytes as bytes_are;
ghost use Rattle.pool_layout.specs.Places.{at, layout_words, IsPlace};
ghost use Rattle.pool_layout.specs.Content as content;
ghost use Rattle.pool_layout.specs.inside.Content as inside_content;
ghost use Rattle.pool_layout.specs.Image as image;

use crate::limits::{NUMBER_LIMIT, Sizes};
use crate::measures::{heap_words, slot_word};
use crate::places::{Layout, Place, Version};
use crate::raw::RawImage;

/// What the rules of content depend on: the layout, the number of transactions of the program, and
/// the number of its structs.
#[derive(Clone, Copy)]
pub struct Rules {
    pub layout: Layout,
    pub txs: u64,
    pub structs: u64,
}

impl Rules {
    /// The least word of the image that breaks a rule, or `None` if no word does.
    pub fn first_break(&self, bytes: &RawImage) -> Option<u64>
        requires { 8 * layout_words self.now.layout ≤ length bytes.now }
        ensures broken { IfSome result
            (λ w. content.IsFirstBreak self.now (bytes_are.word_in bytes.now) w) }
        ensures kept { IfNone result (content.KeepsRules self.now (bytes_are.word_in bytes.now)) }
    {
        match self.break_before_slots(bytes) {
            Some(word) => Some(word),
            None => self.broken_header(bytes),
        }
    }

    /// The least word before the slots that breaks a rule.
    #[tactic(auto, using(crate::proofs::Kept::slot_inside))]
    fn break_before_slots(&self, bytes: &RawImage) -> Option<u64>
        requires { 8 * layout_words self.now.layout ≤ length bytes.now }
        ensures broken { IfSome result
            (λ w. content.IsFirstBreak self.now (bytes_are.word_in bytes.now) w) }
        ensures kept { IfNone result
            (inside_content.KeepsToSlot self.now (bytes_are.word_in bytes.now) 1) }
    {
        let leading = self.leading(bytes);
        let slots = self
            .layout
            .word(Place::Heap(slot_word(&self.layout.sizes, 1)));
        for word in 0..slots {
            if self.breaks(bytes, leading, self.layout.place(word)) {
                return Some(word);
            }
        }
        None
    }

    /// The word of the first header that breaks a rule, if no word before the slots does.
    #[tactic(auto, using(crate::proofs::Kept::slot_inside))]
    fn broken_header(&self, bytes: &RawImage) -> Option<u64>
        requires whole { 8 * layout_words self.now.layout ≤ length bytes.now }
        requires before { inside_content.KeepsToSlot self.now (bytes_are.word_in bytes.now) 1 }
        ensures broken { IfSome result
            (λ w. content.IsFirstBreak self.now (bytes_are.word_in bytes.now) w) }
        ensures kept { IfNone result (content.KeepsRules self.now (bytes_are.word_in bytes.now)) }
    {
        for slot in 1..self.layout.sizes.slots() + 1 {
            let header = slot_word(&self.layout.sizes, slot);
            if self.breaks_heap(bytes, header) {
                return Some(self.layout.word(Place::Heap(header)));
            }
        }
        None
    }

    /// How many records, from the first on, are valid.
    fn leading(&self, bytes: &RawImage) -> u64
        requires { 8 * layout_words self.now.layout ≤ length bytes.now }
        ensures { inside_content.IsLeading self.now.layout (bytes_are.word_in bytes.now) result }
    {
        for i in 0..self.layout.sizes.records() {
            if !self.is_valid(bytes, i) {
                return i;
            }
        }
        self.layout.sizes.records()
    }

    /// Whether the word at this place breaks a rule.
    #[tactic(auto, unfolding(crate::specs::Content::breaks_rule))]
    fn breaks(&self, bytes: &RawImage, leading: u64, place: Place) -> bool
        requires whole { 8 * layout_words self.now.layout ≤ length bytes.now }
        requires inside { IsPlace self.now.layout place }
        requires led { inside_content.IsLeading self.now.layout
            (bytes_are.word_in bytes.now) leading }
        ensures { result ≡ content.breaks_rule self.now (bytes_are.word_in bytes.now) place }
    {
        match place {
            Place::Done => !is_within(0, NUMBER_LIMIT, self.word(bytes, Place::Done)),
            Place::Attempt => !is_within(0, NUMBER_LIMIT, self.word(bytes, Place::Attempt)),
            Place::Mark => !is_within(0, 8, self.word(bytes, Place::Mark)),
            Place::Argument(k) => self.breaks_argument(bytes, k),
            Place::Seal => self.layout.version == Version::First && self.is_sealed(bytes),
            Place::RecordWord(i) => self.breaks_word(bytes, i),
            Place::RecordOld(i) => self.breaks_old(bytes, i),
            Place::RecordStamp(i) => self.breaks_stamp(bytes, leading, i),
            Place::Heap(w) => self.breaks_heap(bytes, w),
            _ => false,
        }
    }

    #[tactic(auto, unfolding(crate::specs::Content::breaks_rule))]
    fn breaks_argument(&self, bytes: &RawImage, k: u64) -> bool
        requires whole { 8 * layout_words self.now.layout ≤ length bytes.now }
        requires inside { IsPlace self.now.layout (Place.Argument k) }
        ensures { result ≡ content.breaks_rule self.now (bytes_are.word_in bytes.now)
            (Place.Argument k) }
    {
        k == 0
            && self.is_sealed(bytes)
            && !is_within(1, self.txs, self.word(bytes, Place::Argument(k)))
    }

    #[tactic(auto, unfolding(crate::specs::Content::breaks_rule))]
    fn breaks_word(&self, bytes: &RawImage, i: u64) -> bool
        requires whole { 8 * layout_words self.now.layout ≤ length bytes.now }
        requires inside { i < self.now.layout.sizes.records }
        ensures { result ≡ content.breaks_rule self.now (bytes_are.word_in bytes.now)
            (Place.RecordWord i) }
    {
        self.is_sealed(bytes)
            && self.is_valid(bytes, i)
            && !in_heap(&self.layout.sizes, self.word(bytes, Place::RecordWord(i)))
    }

    #[tactic(auto, unfolding(crate::specs::Content::breaks_rule))]
    fn breaks_old(&self, bytes: &RawImage, i: u64) -> bool
        requires whole { 8 * layout_words self.now.layout ≤ length bytes.now }
        requires inside { i < self.now.layout.sizes.records }
        ensures { result ≡ content.breaks_rule self.now (bytes_are.word_in bytes.now)
            (Place.RecordOld i) }
    {
        self.is_sealed(bytes)
            && self.is_valid(bytes, i)
            && names_header(&self.layout.sizes, self.word(bytes, Place::RecordWord(i)))
            && !is_within(0, self.structs, self.word(bytes, Place::RecordOld(i)))
    }

    #[tactic(auto, unfolding(crate::specs::Content::breaks_rule))]
    fn breaks_stamp(&self, bytes: &RawImage, leading: u64, i: u64) -> bool
        requires whole { 8 * layout_words self.now.layout ≤ length bytes.now }
        requires inside { i < self.now.layout.sizes.records }
        requires led { inside_content.IsLeading self.now.layout
            (bytes_are.word_in bytes.now) leading }
        ensures { result ≡ content.breaks_rule self.now (bytes_are.word_in bytes.now)
            (Place.RecordStamp i) }
    {
        !is_stamp(
            self.word(bytes, Place::Attempt),
            self.word(bytes, Place::RecordStamp(i)),
        ) || (self.is_valid(bytes, i) && i > leading)
    }

    #[tactic(auto, unfolding(crate::specs::Content::breaks_rule))]
    fn breaks_heap(&self, bytes: &RawImage, w: u64) -> bool
        requires whole { 8 * layout_words self.now.layout ≤ length bytes.now }
        requires inside { IsPlace self.now.layout (Place.Heap w) }
        ensures { result ≡ content.breaks_rule self.now (bytes_are.word_in bytes.now)
            (Place.Heap w) }
    {
        is_header(&self.layout.sizes, w)
            && !is_within(0, self.structs, self.word(bytes, Place::Heap(w)))
    }

    /// Whether the seal is done plus 1.
    #[tactic(auto, using(std::proofs::lemmas::Int::wraps))]
    fn is_sealed(&self, bytes: &RawImage) -> bool
        requires { 8 * layout_words self.now.layout ≤ length bytes.now }
        ensures { result
            ≡ image.is_sealed_in self.now.layout.version (bytes_are.word_in bytes.now) }
    {
        is_next(self.word(bytes, Place::Seal), self.word(bytes, Place::Done))
    }

    /// Whether record `i` is valid.
    #[tactic(auto, using(std::proofs::lemmas::Int::wraps))]
    fn is_valid(&self, bytes: &RawImage, i: u64) -> bool
        requires whole { 8 * layout_words self.now.layout ≤ length bytes.now }
        requires inside { i < self.now.layout.sizes.records }
        ensures { result ≡ content.is_valid self.now.layout (bytes_are.word_in bytes.now) i }
    {
        is_next(
            self.word(bytes, Place::RecordStamp(i)),
            self.word(bytes, Place::Attempt),
        )
    }

    /// The word at this place.
    fn word(&self, bytes: &RawImage, place: Place) -> i64
        requires whole { 8 * layout_words self.now.layout ≤ length bytes.now }
        requires inside { IsPlace self.now.layout place }
        ensures { result ≡ bytes_are.word_in bytes.now (at self.now.layout place) }
    {
        bytes.word(self.layout.word(place))
    }
}

/// Whether a word is a number from `low` to `high`.
fn is_within(low: u64, high: u64, word: i64) -> bool
    ensures { result ≡ content.is_within low high word }
{
    match u64::try_from(word) {
        Ok(n) => low <= n && n <= high,
        Err(_) => false,
    }
}

/// Whether a word is one more than another.
fn is_next(word: i64, before: i64) -> bool
    ensures { result ≡ image.is_next word before }
{
    word > i64::MIN && word - 1 == before
}

/// Whether a word is from 0 to the attempt plus 1.
fn is_stamp(attempt: i64, word: i64) -> bool
    ensures { result ≡ content.is_stamp attempt word }
{
    word >= 0 && word - 1 <= attempt
}

/// Whether a word is the number of a heap word.
fn in_heap(sizes: &Sizes, word: i64) -> bool
    ensures { result ≡ content.in_heap sizes.now word }
{
    match u64::try_from(word) {
        Ok(w) => w < heap_words(sizes),
        Err(_) => false,
    }
}

/// Whether a word is the number of a header's heap word.
fn names_header(sizes: &Sizes, word: i64) -> bool
    ensures { result ≡ content.names_header sizes.now word }
{
    match u64::try_from(word) {
        Ok(w) => w < heap_words(sizes) && is_header(sizes, w),
        Err(_) => false,
    }
}

/// Whether a heap word is a slot's header.
fn is_header(sizes: &Sizes, w: u64) -> bool
    ensures { result ≡ content.is_header sizes.now w }
{
    let slots = slot_word(sizes, 1);
    w >= slots && (w - slots) % sizes.slot_words() == 0
}
