//! Reading an image.

ghost use Rattle.std.specs.Prelude.{◌≡◌, ◌≤◌, ◌*◌, IfOk, IfErr, OnOk, length};
ghost use Rattle.pool_layout.specs.Bytes as bytes_are;
ghost use Rattle.pool_layout.specs.Places.{layout_words, pool_of, IsPlace};
ghost use Rattle.pool_layout.specs.Moved as moved_are;
ghost use Rattle.pool_layout.specs.Opened.{IsOpened};
ghost use Rattle.pool_layout.specs.Fault.{version_of, needed, Accepts, IsFirstFault};

use crate::head::{early_fault, rules_for};
use crate::limits::Sizes;
use crate::places::{Layout, Place, Version};
use crate::raw::RawImage;
use crate::wanted::{ImageFault, Wanted};
use nvm_base::Words;
use std::alloc::{AllocError, Global};

/// The words of a saved pool, or why these bytes are no image of the wanted pool: the first fault
/// that applies, with its two values. A pool of the first version is moved to the second. Want of
/// memory is answered only if no fault applies.
pub fn read_image(alloc: Global, bytes: RawImage, wanted: &Wanted) -> Result<Words, ImageFault>
    ensures refused { IfErr result (λ fault. IsFirstFault wanted.now bytes fault) }
    ensures accepted { OnOk result (Accepts wanted.now bytes) }
    ensures second { IfOk result (λ all. version_of bytes ≡ Version.Second
        → bytes_are.bytes_of all ≡ bytes) }
    ensures first { IfOk result (λ all. version_of bytes ≡ Version.First
        → moved_are.AreMoved wanted.now.sizes (bytes_are.word_in bytes) all) }
    ensures opened { IfOk result (λ all. IsOpened wanted.now all) }
{
    if let Some(fault) = early_fault(&bytes, wanted) {
        return Err(fault);
    }
    let rules = rules_for(&bytes, wanted);
    if let Some(word) = rules.first_break(&bytes) {
        return Err(ImageFault::Content(word, bytes.word(word)));
    }
    match rules.layout.version {
        Version::First => Ok(read_first(alloc, &bytes, wanted)?),
        Version::Second => Ok(read_second(bytes, wanted)),
    }
}

/// The answer for an image of the first version to which no fault applies.
fn read_first(alloc: Global, bytes: &RawImage, wanted: &Wanted) -> Result<Words, AllocError>
    requires accepted { Accepts wanted.now bytes.now }
    requires whole { length bytes.now ≡ needed wanted.now bytes.now }
    requires version { version_of bytes.now ≡ Version.First }
    ensures moved { IfOk result (λ all.
        moved_are.AreMoved wanted.now.sizes (bytes_are.word_in bytes.now) all) }
    ensures opened { IfOk result (λ all. IsOpened wanted.now all) }
{
    moved_words(alloc, bytes, &wanted.sizes)
}

/// The answer for an image of the second version to which no fault applies.
fn read_second(bytes: RawImage, wanted: &Wanted) -> Words
    requires accepted { Accepts wanted.now bytes }
    requires whole { length bytes ≡ needed wanted.now bytes }
    requires version { version_of bytes ≡ Version.Second }
    ensures bytes { bytes_are.bytes_of result ≡ bytes }
    ensures opened { IsOpened wanted.now result }
{
    bytes.into_words()
}

/// The words of a pool of the first version, moved to the second.
fn moved_words(alloc: Global, bytes: &RawImage, sizes: &Sizes) -> Result<Words, AllocError>
    requires { 8 * layout_words (moved_are.first_layout sizes.now) ≤ length bytes.now }
    ensures { IfOk result (λ all. moved_are.AreMoved sizes.now (bytes_are.word_in bytes.now) all) }
{
    let to = Layout::new(sizes);
    let mut all = Words::new(alloc);
    for k in 0..to.words() {
        all.push(moved_word(bytes, sizes, to.place(k)))?;
    }
    Ok(all)
}

/// The word at a place of the moved pool.
#[tactic(auto, unfolding(crate::specs::Moved::moved))]
fn moved_word(bytes: &RawImage, sizes: &Sizes, place: Place) -> i64
    requires whole { 8 * layout_words (moved_are.first_layout sizes.now) ≤ length bytes.now }
    requires inside { IsPlace (pool_of sizes.now) place }
    ensures { result ≡ moved_are.moved sizes.now (bytes_are.word_in bytes.now) place }
{
    let from = Layout {
        version: Version::First,
        sizes: *sizes,
    };
    match place {
        Place::Super(1) => 2,
        Place::Super(_) | Place::Last | Place::Done | Place::Mark | Place::Heap(_) => {
            bytes.word(from.word(place))
        }
        _ => 0,
    }
}
