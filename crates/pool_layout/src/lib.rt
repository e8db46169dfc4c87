//! The layout of a pool: its sizes, the place of each of its words, the digest of a program's text
//! and the bytes of a saved image. It rests on the lists of `nvm_base` and on SHA-256. Its one
//! contract for the crates above: different places are different words, each word of a pool has a
//! place, and an image is read exactly if it is valid.
#![tactic(auto)]

mod bytes;
mod fingerprint;
mod head;
mod image_laws;
mod limits;
mod measures;
mod places;
mod raw;
mod read;
mod rules;
mod taking;
mod wanted;

pub use bytes::{image_bytes, put_word};
pub use fingerprint::digest;
pub use head::{digest_in, magic};
pub use image_laws::{moved_law, opens_law, restored_law};
pub use limits::{NUMBER_LIMIT, Sizes};
pub use measures::{heap_start, heap_words, pool_lines, slot_word};
pub use places::{
    ARGUMENTS, ATTEMPT, DONE, FIRST_ARGUMENT, FUNCTION, HeapPlace, LAST, Layout, MARK, Place, SEAL,
    SUPER_WORDS, Version, places_law,
};
pub use raw::RawImage;
pub use read::read_image;
pub use rules::Rules;
pub use taking::read_onto;
pub use wanted::{ImageFault, Wanted};
