//! A sink in memory, with room for a fixed number of bytes, which fails at chosen writes.

ghost use Rattle.std.specs.Prelude.{◌≡◌, ◌<◌, ◌≤◌, [], List, Some, length, take, IfOk};
ghost use Rattle.std.specs.Io.KnownBytes.{Appends, Keeps};
ghost use Rattle.nvm_base.specs.Answers.{IfWritten, OnWriteFailed};
ghost use Rattle.nvm_base.specs.Rose.{Rose};
ghost use Rattle.nvm_base.specs.Writer.{write_of, after_write};

use crate::sink::{Sink, WriteAnswer};
use std::alloc::{AllocError, Global};
use std::marker::Model;

/// A sink in memory. The chosen writes (numbered from 0) fail, and so does one that doesn't fit.
#[derive(Drop)]
pub struct MemSink {
    bytes: Vec<u8>,
    used: usize,
    fail: Vec<u64>,
    calls: u64,
    faults: u64,
}

impl Model for MemSink {
    ghost use Rattle.std.specs.Prelude.{◌≤◌, vec_len, take};
    ghost use Rattle.nvm_base.specs.Writer.{Writer};

    ghost Value = { Writer };

    ghost view = { λ s. record {
      written = take s.used s.bytes.items;
      room = vec_len s.bytes;
      fail = s.fail.items;
      calls = s.calls;
      faults = s.faults;
    } };

    ghost invariant = { λ s. s.used ≤ vec_len s.bytes };
}

impl MemSink {
    /// An empty sink with room for `room` bytes, which it allocates here. It fails the writes whose
    /// numbers are in `fail`.
    pub fn new(alloc: Global, room: usize, fail: &[u64]) -> Result<Self, AllocError>
        ensures { IfOk result (λ s. s ≡ record {
          written = [];
          room = room;
          fail = fail.now;
          calls = 0;
          faults = 0;
        }) }
    {
        let bytes = vec![in alloc; 0; room]?;
        let fail = Vec::from_slice(alloc, fail)?;
        Ok(MemSink {
            bytes,
            used: 0,
            fail,
            calls: 0,
            faults: 0,
        })
    }

    /// What was written.
    pub fn bytes(&self) -> &[u8]
        ensures { result.now ≡ self.now.written }
    {
        &self.bytes[..self.used]
    }
}

impl Sink for MemSink {
    ghost written = { λ s. Some s.written };

    ghost faults = { λ s. s.faults };

    fn write(&mut self, piece: &[u8]) -> WriteAnswer
        requires { 0 < length piece.now }
        ensures answer { result ≡ write_of self.old (length piece.now) }
        ensures after { self.new ≡ after_write self.old piece.now result }
        ensures some { IfWritten result (λ n. 0 < n) }
        ensures within { IfWritten result (λ n. n ≤ length piece.now) }
        ensures bytes { IfWritten result
            (λ n. Appends (Some self.old.written) (Some self.new.written) (take n piece.now)) }
        ensures kept { OnWriteFailed result
            (Keeps (Some self.old.written) (Some self.new.written)) }
        ensures failed { OnWriteFailed result (Rose self.old.faults self.new.faults) }
        ensures count { self.old.faults ≤ self.new.faults }
    {
        let call = self.calls;
        self.calls = self.calls.saturating_add(1);
        let room = self.bytes.len() - self.used;
        if self.fail.contains(&call) || room == 0 {
            self.faults = self.faults.saturating_add(1);
            return WriteAnswer::Failed;
        }
        let count = piece.len().min(room);
        let end = self.used + count;
        self.bytes[self.used..end].copy_from_slice(&piece[..count]);
        self.used = end;
        WriteAnswer::Count(count)
    }
}
