//! Messages of images.

use crate::told::Told;
use crate::trap::trap_words;
use std::alloc::{AllocError, Global};

/// Why an image was refused: what the file says, and what the program wants.
#[derive(Clone, Copy, PartialEq, Eq)]
pub enum ImageRefusal {
    /// The bytes that it has, and those that are needed.
    Short(u64, u64),
    /// It doesn't begin as an image does.
    Magic,
    /// It is of the first version; only the second is known.
    Version(i64, i64),
    /// It has the first size; the second was asked for, by this option if there is one.
    Sizes(Option<&'static str>, i64, i64),
    /// It was made from another text.
    Digest,
    /// A word has a value that no pool has there.
    Content(u64, i64),
}

/// The digest of the text that an image was made from, and of the given text. The first is empty
/// where the image is too short to have one.
#[derive(Clone, Copy)]
pub struct Digests<'a> {
    pub found: &'a str,
    pub wanted: &'a str,
}

/// The message of an image that was refused. `is_image` says whether the file begins as an image
/// does.
pub fn of_image(
    alloc: Global,
    path: &str,
    refusal: ImageRefusal,
    is_image: bool,
    digests: Digests<'_>,
) -> Result<Told, AllocError> {
    if !is_image {
        return of_no_image(alloc, path);
    }
    let told = of_refusal(alloc, path, refusal)?;
    let is_said = matches!(refusal, ImageRefusal::Digest);
    with_digests(alloc, told, is_said, digests)
}

fn of_no_image(alloc: Global, path: &str) -> Result<Told, AllocError> {
    let what = path_text(alloc, path, "is no image of a pool")?;
    let note = "an image is a file that `--save` wrote: its first word is the mark of a pool";
    Told::of(alloc, what.as_str(), &[note])
}

fn path_text(alloc: Global, path: &str, text: &str) -> Result<String, AllocError> {
    format!(in alloc; "{path}: {text}")
}

/// Adds both digests to the message, and says that they differ if it doesn't yet.
fn with_digests(
    alloc: Global,
    told: Told,
    is_said: bool,
    digests: Digests<'_>,
) -> Result<Told, AllocError> {
    let Digests { found, wanted } = digests;
    if found.is_empty() {
        return with_digest(alloc, told, "the given text", wanted);
    }
    if found == wanted {
        return with_digest(alloc, told, "the image's text and of the given one", wanted);
    }
    let told = with_difference(alloc, told, is_said)?;
    let told = with_digest(alloc, told, "the image's text", found)?;
    with_digest(alloc, told, "the given text", wanted)
}

/// Says that the texts differ, if it isn't said yet.
fn with_difference(alloc: Global, told: Told, is_said: bool) -> Result<Told, AllocError> {
    if is_said {
        return Ok(told);
    }
    told.with(alloc, "the image was made from another text of the program")
}

fn with_digest(alloc: Global, told: Told, of: &str, digest: &str) -> Result<Told, AllocError> {
    let note = format!(in alloc; "the digest of {of} is {digest}")?;
    told.with(alloc, note.as_str())
}

/// The message of an opened image whose pool a trap of this kind made unusable.
pub fn of_unusable_image(alloc: Global, path: &str, kind: &str) -> Result<Told, AllocError> {
    let words = trap_words(kind);
    let what = format!(in alloc; "{path}: is of an unusable pool: a transaction trapped: {words}")?;
    let note = "the pool takes no more calls: open an image that was saved before the trap";
    Told::of(alloc, what.as_str(), &[note])
}

fn of_refusal(alloc: Global, path: &str, refusal: ImageRefusal) -> Result<Told, AllocError> {
    let text = refusal_text(alloc, refusal)?;
    let what = path_text(alloc, path, text.as_str())?;
    let note = refusal_note(alloc, refusal)?;
    Told::of(alloc, what.as_str(), &[note.as_str()])
}

/// What is wrong with the image.
fn refusal_text(alloc: Global, refusal: ImageRefusal) -> Result<String, AllocError> {
    match refusal {
        ImageRefusal::Short(found, needed) => short_text(alloc, found, needed),
        ImageRefusal::Magic => String::from_str(alloc, "is no image of a pool"),
        ImageRefusal::Version(found, wanted) => version_text(alloc, found, wanted),
        ImageRefusal::Sizes(Some(option), found, wanted) => {
            option_text(alloc, option, found, wanted)
        }
        ImageRefusal::Sizes(None, found, wanted) => size_text(alloc, found, wanted),
        ImageRefusal::Digest => {
            String::from_str(alloc, "was made from another text of the program")
        }
        ImageRefusal::Content(word, value) => content_text(alloc, word, value),
    }
}

fn short_text(alloc: Global, found: u64, needed: u64) -> Result<String, AllocError> {
    format!(in alloc; "has {found} bytes where the pool needs {needed}")
}

fn version_text(alloc: Global, found: i64, wanted: i64) -> Result<String, AllocError> {
    format!(in alloc; "is of version {found}, where this program reads up to {wanted}")
}

fn option_text(alloc: Global, option: &str, found: i64, wanted: i64) -> Result<String, AllocError> {
    format!(in alloc; "was saved with `{option} {found}`, and {wanted} is asked for")
}

fn size_text(alloc: Global, found: i64, wanted: i64) -> Result<String, AllocError> {
    format!(in alloc; "has the size {found}, and the program's pool {wanted}")
}

fn content_text(alloc: Global, word: u64, value: i64) -> Result<String, AllocError> {
    format!(in alloc; "is damaged: no pool has {value} in its word {word}")
}

/// What to do about it; an empty text if nothing is told.
fn refusal_note(alloc: Global, refusal: ImageRefusal) -> Result<String, AllocError> {
    match refusal {
        ImageRefusal::Sizes(Some(option), found, _) => option_note(alloc, option, found),
        _ => String::from_str(alloc, plain_note(refusal)),
    }
}

fn option_note(alloc: Global, option: &str, found: i64) -> Result<String, AllocError> {
    format!(in alloc; "give `{option} {found}`: an image keeps the sizes of its pool")
}

fn plain_note(refusal: ImageRefusal) -> &'static str {
    match refusal {
        ImageRefusal::Short(_, _) => {
            "it was cut short, or saved with other `--slots` or `--log`: give the same again"
        }
        ImageRefusal::Digest => {
            "a changed comment is another text: take the one that the image was saved with"
        }
        ImageRefusal::Sizes(_, _, _) => "the image is of another program, or it is damaged",
        ImageRefusal::Content(_, _) => "take another image of the pool",
        ImageRefusal::Magic | ImageRefusal::Version(_, _) => "",
    }
}
