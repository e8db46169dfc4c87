//! The faults of an image that its length and its first two lines show.

ghost use Rattle.std.specs.Prelude.{◌≡◌, ◌<◌, ◌≤◌, ◌+◌, IfNone, length};
ghost use Rattle.pool_layout.specs.Good.{magic};
ghost use Rattle.pool_layout.specs.Fault as fault_of;

use crate::bytes::word_in;
use crate::places::{Layout, Version};
use crate::raw::RawImage;
use crate::rules::Rules;
use crate::wanted::{ImageFault, Wanted};

/// The rules of content for an image with these bytes.
pub fn rules_for(bytes: &RawImage, wanted: &Wanted) -> Rules
    ensures { result ≡ fault_of.rules_of wanted.now bytes.now }
{
    Rules {
        layout: Layout {
            version: version_of(bytes),
            sizes: wanted.sizes,
        },
        txs: wanted.txs,
        structs: wanted.structs,
    }
}

fn version_of(bytes: &RawImage) -> Version
    ensures { result ≡ fault_of.version_of bytes.now }
{
    if bytes.len() >= 16 && bytes.word(1) == 1 {
        Version::First
    } else {
        Version::Second
    }
}

/// The first fault before those of content that applies.
#[tactic(auto, unfolding(crate::specs::Fault::early_fault))]
pub fn early_fault(bytes: &RawImage, wanted: &Wanted) -> Option<ImageFault>
    ensures value { result ≡ fault_of.early_fault wanted.now bytes.now }
    ensures whole { IfNone result (length bytes.now ≡ fault_of.needed wanted.now bytes.now) }
{
    let short = short_fault(bytes, wanted);
    if short.is_some() {
        return short;
    }
    let magic = magic_fault(bytes);
    if magic.is_some() {
        return magic;
    }
    let version = version_fault(bytes);
    if version.is_some() {
        return version;
    }
    let sizes = sizes_fault(bytes, wanted);
    if sizes.is_some() {
        return sizes;
    }
    digest_fault(bytes, wanted)
}

fn short_fault(bytes: &RawImage, wanted: &Wanted) -> Option<ImageFault>
    ensures value { result ≡ fault_of.short_fault wanted.now bytes.now }
    ensures long { IfNone result (fault_of.needed wanted.now bytes.now ≤ length bytes.now) }
{
    let needed = needed(bytes, wanted);
    let found = bytes.len();
    if found < needed {
        Some(ImageFault::Short(found, needed))
    } else {
        None
    }
}

fn magic_fault(bytes: &RawImage) -> Option<ImageFault>
    requires { 8 ≤ length bytes.now }
    ensures { result ≡ fault_of.magic_fault bytes.now }
{
    let found = bytes.word(0);
    if found == magic() {
        None
    } else {
        Some(ImageFault::Magic(found, magic()))
    }
}

fn version_fault(bytes: &RawImage) -> Option<ImageFault>
    requires { 16 ≤ length bytes.now }
    ensures { result ≡ fault_of.version_fault bytes.now }
{
    let found = bytes.word(1);
    if found == 1 || found == 2 {
        None
    } else {
        Some(ImageFault::Version(found, 2))
    }
}

fn sizes_fault(bytes: &RawImage, wanted: &Wanted) -> Option<ImageFault>
    requires { 48 ≤ length bytes.now }
    ensures value { result ≡ fault_of.sizes_fault wanted.now bytes.now }
    ensures long { IfNone result (length bytes.now ≤ fault_of.needed wanted.now bytes.now) }
{
    let slots = size_fault(bytes, 2, wanted.sizes.slots());
    if slots.is_some() {
        return slots;
    }
    let records = size_fault(bytes, 3, wanted.sizes.records());
    if records.is_some() {
        return records;
    }
    let root_words = size_fault(bytes, 4, wanted.sizes.root_words());
    if root_words.is_some() {
        return root_words;
    }
    let ticks = size_fault(bytes, 5, wanted.sizes.ticks());
    if ticks.is_some() {
        return ticks;
    }
    length_fault(bytes, wanted)
}

/// The fault if word `k` of the first line isn't this size.
fn size_fault(bytes: &RawImage, k: u64, wanted: u64) -> Option<ImageFault>
    requires line { k < 6 }
    requires whole { 48 ≤ length bytes.now }
    requires small { wanted ≤ 1048576 }
    ensures { result ≡ fault_of.size_fault bytes.now k wanted }
{
    let found = bytes.word(k);
    if found == wanted as i64 {
        None
    } else {
        Some(ImageFault::Sizes(found, wanted as i64))
    }
}

fn length_fault(bytes: &RawImage, wanted: &Wanted) -> Option<ImageFault>
    ensures value { result ≡ fault_of.length_fault wanted.now bytes.now }
    ensures long { IfNone result (length bytes.now ≤ fault_of.needed wanted.now bytes.now) }
{
    let needed = needed(bytes, wanted);
    if bytes.len() > needed {
        Some(ImageFault::Sizes(bytes.len() as i64, needed as i64))
    } else {
        None
    }
}

fn digest_fault(bytes: &RawImage, wanted: &Wanted) -> Option<ImageFault>
    requires { 96 ≤ length bytes.now }
    ensures { result ≡ fault_of.digest_fault wanted.now bytes.now }
{
    let found = found_digest(bytes);
    if found == wanted.digest {
        None
    } else {
        Some(ImageFault::Digest(found, wanted.digest))
    }
}

/// The digest: words 8 to 11.
fn found_digest(bytes: &RawImage) -> [i64; 4]
    requires { 96 ≤ length bytes.now }
    ensures { result ≡ fault_of.digest_in bytes.now }
{
    [bytes.word(8), bytes.word(9), bytes.word(10), bytes.word(11)]
}

/// The digest of an image that begins with these bytes.
pub fn digest_in(bytes: &[u8]) -> [i64; 4]
    requires { 96 ≤ length bytes.now }
    ensures { result ≡ fault_of.digest_in bytes.now }
{
    [
        word_in(bytes, 8),
        word_in(bytes, 9),
        word_in(bytes, 10),
        word_in(bytes, 11),
    ]
}

/// The number of bytes of an image of the version that these bytes begin with.
fn needed(bytes: &RawImage, wanted: &Wanted) -> u64
    ensures value { result ≡ fault_of.needed wanted.now bytes.now }
    ensures least { 640 ≤ result + 128 }
    ensures most { result ≤ 4299686272 }
{
    8 * rules_for(bytes, wanted).layout.words()
}

/// The first word of a pool: the bytes `CNVMPOOL`, the lowest byte first.
pub fn magic() -> i64
    ensures { result ≡ magic }
{
    word_in(b"CNVMPOOL", 0)
}
