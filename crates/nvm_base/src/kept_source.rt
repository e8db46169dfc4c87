//! A source that keeps a copy of what is read from it, or of the first bytes.

ghost use Rattle.std.specs.Prelude.{◌≡◌, ◌++◌, ◌-◌, length, take, true};

use crate::list::Bytes;
use crate::source::{ReadAnswer, Source};
use std::alloc::Global;

/// A source over another, which keeps a copy of the bytes that were read, at most so many. Clauses
/// see what they see of the other.
#[derive(Drop)]
pub struct KeptSource<S> {
    pub(crate) source: S,
    kept: Bytes,
    most: usize,
    /// How many bytes were read.
    count: u64,
    /// Whether there was memory for each byte that is to be kept.
    whole: bool,
}

impl<S: Source> KeptSource<S> {
    /// A source that keeps what is read from the other one; nothing yet.
    pub fn new(alloc: Global, source: S) -> Self
        ensures { result.source ≡ source }
    {
        KeptSource::first(alloc, source, usize::MAX)
    }

    /// A source that keeps so many of the first bytes that are read from the other one; none yet.
    pub fn first(alloc: Global, source: S, most: usize) -> Self
        ensures { result.source ≡ source }
    {
        KeptSource {
            source,
            kept: Bytes::new(alloc),
            most,
            count: 0,
            whole: true,
        }
    }

    /// The source that is read.
    pub fn source(&self) -> &S
        ensures { result.now ≡ self.now.source }
    {
        &self.source
    }

    /// How many bytes were read so far.
    pub fn count(&self) -> u64 {
        self.count
    }

    /// The bytes that were read so far, or the first of them. `None` if there was no memory to keep
    /// them.
    pub fn kept(&self) -> Option<&[u8]> {
        if self.whole {
            Some(self.kept.as_slice())
        } else {
            None
        }
    }

    /// Keeps these bytes too, as far as they are among the first.
    #[tactic(auto, using(std::proofs::lemmas::List::take_min))]
    fn keep(&mut self, piece: &[u8])
        ensures whole { self.new.whole ≡ true → self.old.whole ≡ true }
        ensures kept { self.new.whole ≡ true → self.new.kept
            ≡ self.old.kept ++ take (self.old.most - length self.old.kept) piece.now }
        ensures same { self.new.source ≡ self.old.source }
    {
        let room = self.most.saturating_sub(self.kept.as_slice().len());
        let (first, _) = piece.split_at(room.min(piece.len()));
        self.whole = self.whole && self.kept.extend(first).is_ok();
        self.count = self.count.saturating_add(piece.len() as u64);
    }
}

impl<S: Source> Source for KeptSource<S> {
    ghost left = { λ s. S.left s.source };

    ghost faults = { λ s. S.faults s.source };

    fn read(&mut self, piece: &mut [u8]) -> ReadAnswer {
        let answer = self.source.read(piece);
        if let ReadAnswer::Count(count) = answer {
            self.keep(&piece[..count]);
        }
        answer
    }
}
