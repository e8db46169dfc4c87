//! What a run reads and writes.

use cnvm_session::Traps;

/// What a run reads and writes: the program, its former text, the script and an image; the answers
/// and an image; the device; and the traps that it answered, which no clause names.
#[derive(Drop)]
pub struct World<S, T, I, K, O, P> {
    pub program: S,
    pub former: S,
    pub script: T,
    pub image_in: I,
    pub out: K,
    pub image_out: O,
    pub dev: P,
    pub traps: Traps,
}
