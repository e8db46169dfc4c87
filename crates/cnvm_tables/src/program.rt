//! The program of the tables, and an image of its pool.

use pool_layout::{digest, image_bytes};
use std::alloc::{AllocError, Global};

/// A counter. A call of `inc` has 20 events, and the creation of its pool has 13.
pub(crate) const COUNTER: &str = "struct R { int64_t n; };\n\
     persistent struct R root;\n\
     tx int64_t inc(int64_t d) { root.n = root.n + d; return root.n; }\n";

/// The words, other than 0 and the digest, of the counter's pool with one slot and one record after
/// one call of `inc` with 5.
const CALLED: [(usize, i64); 14] = [
    (0, 5498700876356144707),
    (1, 2),
    (2, 1),
    (3, 1),
    (4, 1),
    (5, 100_000),
    (16, 5),
    (17, 1),
    (18, 1),
    (24, 1),
    (25, 5),
    (47, 1),
    (50, 1),
    (56, 5),
];

/// The same pool after that call was cut right after the store of the counter.
const STOPPED: [(usize, i64); 14] = [
    (0, 5498700876356144707),
    (1, 2),
    (2, 1),
    (3, 1),
    (4, 1),
    (5, 100_000),
    (16, 0),
    (17, 0),
    (18, 0),
    (24, 1),
    (25, 5),
    (47, 1),
    (50, 1),
    (56, 5),
];

/// The image of the pool after a call.
pub(crate) fn called_image(alloc: Global) -> Result<Vec<u8>, AllocError> {
    image_of(alloc, CALLED)
}

/// The image of the pool after a call that was cut.
pub(crate) fn stopped_image(alloc: Global) -> Result<Vec<u8>, AllocError> {
    image_of(alloc, STOPPED)
}

/// The image with these words.
fn image_of(alloc: Global, words: [(usize, i64); 14]) -> Result<Vec<u8>, AllocError> {
    let mut all = vec![in alloc; 0i64; 80]?;
    let own = digest(COUNTER.as_bytes());
    for (place, word) in [(8, own[0]), (9, own[1]), (10, own[2]), (11, own[3])] {
        put(&mut all, place, word);
    }
    for (place, word) in words {
        put(&mut all, place, word);
    }
    Vec::from_slice(alloc, image_bytes(alloc, &all)?.as_slice())
}

fn put(all: &mut Vec<i64>, place: usize, word: i64) {
    if let Some(old) = all.get_mut(place) {
        *old = word;
    }
}
