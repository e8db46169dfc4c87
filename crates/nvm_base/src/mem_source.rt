//! A source over bytes in memory, which fails at chosen reads.

ghost use Rattle.std.specs.Prelude.{◌≡◌, ◌<◌, ◌≤◌, List, Some, length, take, IfOk, slice_range};
ghost use Rattle.std.specs.Io.KnownBytes.{Consumes, IsAtEnd, Keeps};
ghost use Rattle.nvm_base.specs.Answers.{IfRead, OnReadFailed};
ghost use Rattle.nvm_base.specs.Reader.{read_of, after_read};
ghost use Rattle.nvm_base.specs.Rose.{Rose};

use crate::source::{ReadAnswer, Source};
use std::alloc::{AllocError, Global};
use std::marker::Model;

/// A source in memory. The chosen reads (numbered from 0) fail; each other gives at most a fixed
/// number of bytes.
#[derive(Drop)]
pub struct MemSource {
    bytes: Vec<u8>,
    at: usize,
    most: usize,
    fail: Vec<u64>,
    calls: u64,
    faults: u64,
}

impl Model for MemSource {
    ghost use Rattle.std.specs.Prelude.{◌≤◌, ◌<◌, vec_len, drop};
    ghost use Rattle.nvm_base.specs.Reader.{Reader};

    ghost Value = { Reader };

    ghost view = { λ s. record {
      left = drop s.at s.bytes.items;
      most = s.most;
      fail = s.fail.items;
      calls = s.calls;
      faults = s.faults;
    } };

    ghost invariant = { λ s. (s.at ≤ vec_len s.bytes) × (0 < s.most) };
}

impl MemSource {
    /// A source of these bytes that gives at most `most` of them per read, and fails the reads
    /// whose numbers are in `fail`.
    pub fn new(alloc: Global, bytes: &[u8], most: usize, fail: &[u64]) -> Result<Self, AllocError>
        requires { 0 < most }
        ensures { IfOk result (λ s. s ≡ record {
          left = bytes.now;
          most = most;
          fail = fail.now;
          calls = 0;
          faults = 0;
        }) }
    {
        let bytes = Vec::from_slice(alloc, bytes)?;
        let fail = Vec::from_slice(alloc, fail)?;
        Ok(MemSource {
            bytes,
            at: 0,
            most,
            fail,
            calls: 0,
            faults: 0,
        })
    }
}

impl Source for MemSource {
    ghost left = { λ s. Some s.left };

    ghost faults = { λ s. s.faults };

    fn read(&mut self, piece: &mut [u8]) -> ReadAnswer
        requires { 0 < length piece.old }
        ensures answer { result ≡ read_of self.old (length piece.old) }
        ensures after { self.new ≡ after_read self.old result }
        ensures moved { IfRead result (λ n. take n piece.new ≡ take n self.old.left) }
        ensures within { IfRead result (λ n. n ≤ length piece.new) }
        ensures bytes { IfRead result (λ n. Consumes (Some self.old.left) (Some self.new.left)
            (take n piece.new)) }
        ensures end { result ≡ ReadAnswer.Count 0 → IsAtEnd (Some self.new.left) }
        ensures kept { OnReadFailed result (Keeps (Some self.old.left) (Some self.new.left)) }
        ensures failed { OnReadFailed result (Rose self.old.faults self.new.faults) }
        ensures count { self.old.faults ≤ self.new.faults }
    {
        let call = self.calls;
        self.calls = self.calls.saturating_add(1);
        if self.fail.contains(&call) {
            self.faults = self.faults.saturating_add(1);
            return ReadAnswer::Failed;
        }
        let count = self.most.min(piece.len()).min(self.bytes.len() - self.at);
        piece[..count].copy_from_slice(&self.bytes[self.at..self.at + count]);
        self.at += count;
        ReadAnswer::Count(count)
    }
}
