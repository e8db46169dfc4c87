//! A sink that takes one byte per write.

ghost use Rattle.std.specs.Prelude.{◌≡◌, ◌<◌, ◌≤◌, Some, length, take};
ghost use Rattle.std.specs.Io.KnownBytes.{Appends, Keeps};
ghost use Rattle.nvm_base.specs.Answers.{IfWritten, OnWriteFailed};
ghost use Rattle.nvm_base.specs.Rose.{Rose};

use nvm_base::{Sink, WriteAnswer};
use std::alloc::Global;

/// A sink that takes one byte per write, and fails one of its writes; writes are numbered from 0.
#[derive(Drop)]
pub(crate) struct ByteSink {
    bytes: Vec<u8>,
    calls: u64,
    fail: u64,
    faults: u64,
}

impl ByteSink {
    /// An empty sink that fails the write with this number.
    pub(crate) fn new(alloc: Global, fail: u64) -> Self {
        ByteSink {
            bytes: Vec::new(alloc),
            calls: 0,
            fail,
            faults: 0,
        }
    }

    /// What was written.
    pub(crate) fn bytes(&self) -> &[u8] {
        &self.bytes
    }
}

impl Sink for ByteSink {
    ghost written = { λ s. Some s.bytes.items };

    ghost faults = { λ s. s.faults };

    fn write(&mut self, piece: &[u8]) -> WriteAnswer
        requires { 0 < length piece.now }
        ensures some { IfWritten result (λ n. 0 < n) }
        ensures within { IfWritten result (λ n. n ≤ length piece.now) }
        ensures bytes { IfWritten result
            (λ n. Appends (Some self.old.bytes.items) (Some self.new.bytes.items)
            (take n piece.now)) }
        ensures kept { OnWriteFailed result
            (Keeps (Some self.old.bytes.items) (Some self.new.bytes.items)) }
        ensures failed { OnWriteFailed result (Rose self.old.faults self.new.faults) }
        ensures count { self.old.faults ≤ self.new.faults }
    {
        let call = self.calls;
        self.calls = self.calls.saturating_add(1);
        if call == self.fail {
            self.faults = self.faults.saturating_add(1);
            return WriteAnswer::Failed;
        }
        let taken = self.bytes.extend_from_slice(&piece[..1]);
        if taken.is_err() {
            self.faults = self.faults.saturating_add(1);
            return WriteAnswer::Failed;
        }
        WriteAnswer::Count(1)
    }
}
