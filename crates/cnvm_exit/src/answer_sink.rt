//! A sink with a copy of what went through, up to a limit. It holds bytes back, to write many at
//! once.

ghost use Rattle.std.specs.Prelude.{◌≡◌, ◌<◌, ◌≤◌, ◌++◌, [], length, take, OnOk, OnErr};
ghost use Rattle.std.specs.Prelude.{if◌then◌else◌};
ghost use Rattle.std.specs.Io.KnownBytes.{Appends, Keeps, append_known};
ghost use Rattle.nvm_base.specs.Answers.{IfWritten, OnWriteFailed};
ghost use Rattle.nvm_base.specs.Rose.{Rose};

use nvm_base::{Bytes, Sink, WriteAnswer, WriteFault};
use std::alloc::Global;

/// How many bytes are held back at most.
const MOST_HELD: usize = 8192;

/// A sink over another, and a copy of the bytes that it took, if they aren't too many. Clauses see
/// what they see of the other, with the bytes that are held back. `finish` writes these.
#[derive(Drop)]
pub(crate) struct AnswerSink<K> {
    pub(crate) sink: K,
    held: Vec<u8>,
    kept: Bytes,
    most: usize,
    /// Whether every byte is kept: there was memory for each, and they are no more than `most`.
    whole: bool,
}

impl<K: Sink> AnswerSink<K> {
    pub(crate) fn new(alloc: Global, sink: K, most: usize) -> Self
        ensures { result.sink ≡ sink }
    {
        AnswerSink {
            sink,
            held: Vec::new(alloc),
            kept: Bytes::new(alloc),
            most,
            whole: true,
        }
    }

    /// The sink that is written to.
    pub(crate) fn sink(&self) -> &K
        ensures { result.now ≡ self.now.sink }
    {
        &self.sink
    }

    /// All bytes that were taken so far. `None` if not all are kept.
    pub(crate) fn kept(&self) -> Option<&[u8]> {
        if self.whole {
            Some(self.kept.as_slice())
        } else {
            None
        }
    }

    /// Keeps these bytes too.
    fn keep(&mut self, piece: &[u8])
        ensures sink { self.new.sink ≡ self.old.sink }
        ensures held { self.new.held ≡ self.old.held }
    {
        let fits = piece.len() <= self.most.saturating_sub(self.kept.as_slice().len());
        self.whole = self.whole && fits && self.kept.extend(piece).is_ok();
    }

    /// Holds these bytes back, if there is room and memory for them.
    fn hold(&mut self, piece: &[u8]) -> bool
        ensures sink { self.new.sink ≡ self.old.sink }
        ensures held { self.new.held.items ≡ (if result then self.old.held.items ++ piece.now
            else self.old.held.items) }
    {
        let room = MOST_HELD.saturating_sub(self.held.len());
        piece.len() <= room && self.held.extend_from_slice(piece).is_ok()
    }
}

/// Writes the first of the bytes that are held back.
#[tactic(auto, using(crate::proofs::Held::sent, crate::proofs::Held::kept_on))]
fn send_some<K: Sink>(sink: &mut K, held: &mut Vec<u8>) -> Result<(), WriteFault>
    requires { 0 < length held.old.items }
    ensures taken { Keeps (append_known (K.written sink.old) held.old.items)
        (append_known (K.written sink.new) held.new.items) }
    ensures fewer { OnOk result (length held.new.items < length held.old.items) }
    ensures failed { OnErr result (Rose (K.faults sink.old) (K.faults sink.new)) }
    ensures count { K.faults sink.old ≤ K.faults sink.new }
{
    match sink.write(held.as_slice()) {
        WriteAnswer::Count(count) => {
            held.drain(..count);
            Ok(())
        }
        WriteAnswer::Failed => Err(WriteFault),
    }
}

/// Writes all bytes that are held back.
#[tactic(auto, using(crate::proofs::Held::keeps_same, crate::proofs::Held::keeps_both))]
fn send<K: Sink>(sink: &mut K, held: &mut Vec<u8>) -> Result<(), WriteFault>
    ensures taken { Keeps (append_known (K.written sink.old) held.old.items)
        (append_known (K.written sink.new) held.new.items) }
    ensures all { OnOk result (held.new.items ≡ []) }
    ensures failed { OnErr result (Rose (K.faults sink.old) (K.faults sink.new)) }
    ensures count { K.faults sink.old ≤ K.faults sink.new }
{
    'sending: while !held.is_empty() {
        if let Err(fault) = send_some(sink, held) {
            return Err(fault);
        }
    }
    Ok(())
}

/// Writes all bytes that are held back, and then the first of the piece.
#[tactic(auto, using(crate::proofs::Held::after_sent, crate::proofs::Held::kept_after))]
fn write_past<K: Sink>(sink: &mut K, held: &mut Vec<u8>, piece: &[u8]) -> WriteAnswer
    requires { 0 < length piece.now }
    ensures some { IfWritten result (λ n. 0 < n) }
    ensures within { IfWritten result (λ n. n ≤ length piece.now) }
    ensures bytes { IfWritten result
        (λ n. Appends (append_known (K.written sink.old) held.old.items)
        (append_known (K.written sink.new) held.new.items) (take n piece.now)) }
    ensures kept { OnWriteFailed result (Keeps (append_known (K.written sink.old) held.old.items)
        (append_known (K.written sink.new) held.new.items)) }
    ensures failed { OnWriteFailed result (Rose (K.faults sink.old) (K.faults sink.new)) }
    ensures count { K.faults sink.old ≤ K.faults sink.new }
{
    match send(sink, held) {
        Ok(()) => sink.write(piece),
        Err(_) => WriteAnswer::Failed,
    }
}

impl<K: Sink> AnswerSink<K> {
    /// Accepts the first of the bytes: holds them back, or writes them after those held back.
    #[tactic(auto, using(crate::proofs::Held::held_too, std::proofs::lemmas::List::take_all))]
    fn accept(&mut self, piece: &[u8]) -> WriteAnswer
        requires { 0 < length piece.now }
        ensures some { IfWritten result (λ n. 0 < n) }
        ensures within { IfWritten result (λ n. n ≤ length piece.now) }
        ensures bytes { IfWritten result
            (λ n. Appends (append_known (K.written self.old.sink) self.old.held.items)
            (append_known (K.written self.new.sink) self.new.held.items) (take n piece.now)) }
        ensures kept { OnWriteFailed result
            (Keeps (append_known (K.written self.old.sink) self.old.held.items)
            (append_known (K.written self.new.sink) self.new.held.items)) }
        ensures failed { OnWriteFailed result
            (Rose (K.faults self.old.sink) (K.faults self.new.sink)) }
        ensures count { K.faults self.old.sink ≤ K.faults self.new.sink }
    {
        if self.hold(piece) {
            return WriteAnswer::Count(piece.len());
        }
        write_past(&mut self.sink, &mut self.held, piece)
    }
}

impl<K: Sink> Sink for AnswerSink<K> {
    ghost use Rattle.std.specs.Io.KnownBytes.{append_known};

    ghost written = { λ s. append_known (K.written s.sink) s.held.items };

    ghost faults = { λ s. K.faults s.sink };

    fn write(&mut self, piece: &[u8]) -> WriteAnswer {
        let answer = self.accept(piece);
        if let WriteAnswer::Count(count) = answer {
            self.keep(&piece[..count]);
        }
        answer
    }

    #[tactic(auto, using(crate::proofs::Held::kept_after))]
    fn finish(&mut self) -> Result<(), WriteFault> {
        match send(&mut self.sink, &mut self.held) {
            Ok(()) => self.sink.finish(),
            Err(fault) => Err(fault),
        }
    }
}
