//! A sink that keeps a copy of what is written to it.

ghost use Rattle.std.specs.Prelude.{◌≡◌, ◌++◌, true};

use crate::list::Bytes;
use crate::output::WriteFault;
use crate::sink::{Sink, WriteAnswer};
use std::alloc::Global;

/// A sink over another, which keeps a copy of the bytes that the other took. Clauses see what they
/// see of the other.
#[derive(Drop)]
pub struct KeptSink<K> {
    pub(crate) sink: K,
    kept: Bytes,
    /// Whether every byte is kept: there was memory for each.
    whole: bool,
}

impl<K: Sink> KeptSink<K> {
    /// A sink that keeps what is written to the other one; nothing yet.
    pub fn new(alloc: Global, sink: K) -> Self
        ensures { result.sink ≡ sink }
    {
        KeptSink {
            sink,
            kept: Bytes::new(alloc),
            whole: true,
        }
    }

    /// The sink that is written to.
    pub fn sink(&self) -> &K
        ensures { result.now ≡ self.now.sink }
    {
        &self.sink
    }

    /// All bytes that were written so far. `None` if there was no memory to keep them.
    pub fn kept(&self) -> Option<&[u8]> {
        if self.whole {
            Some(self.kept.as_slice())
        } else {
            None
        }
    }

    /// Keeps these bytes too.
    fn keep(&mut self, piece: &[u8])
        ensures whole { self.new.whole ≡ true → self.old.whole ≡ true }
        ensures kept { self.new.whole ≡ true → self.new.kept ≡ self.old.kept ++ piece.now }
        ensures same { self.new.sink ≡ self.old.sink }
    {
        self.whole = self.whole && self.kept.extend(piece).is_ok();
    }
}

impl<K: Sink> Sink for KeptSink<K> {
    ghost written = { λ s. K.written s.sink };

    ghost faults = { λ s. K.faults s.sink };

    fn write(&mut self, piece: &[u8]) -> WriteAnswer {
        let answer = self.sink.write(piece);
        if let WriteAnswer::Count(count) = answer {
            self.keep(&piece[..count]);
        }
        answer
    }

    fn finish(&mut self) -> Result<(), WriteFault> {
        self.sink.finish()
    }
}
