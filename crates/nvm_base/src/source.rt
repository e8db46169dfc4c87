//! Where bytes come from: a trait of sources, whose reads may fail.

ghost use Rattle.std.specs.Prelude.{◌≡◌, ℕ, List, Option, Some, None, ◌<◌, ◌≤◌, length, take, drop};
ghost use Rattle.std.specs.Io.KnownBytes.{Consumes, IsAtEnd, Keeps};
ghost use Rattle.nvm_base.specs.Answers.{IfRead, OnReadFailed};
ghost use Rattle.nvm_base.specs.Rose.{Rose};

/// The answer of a read.
#[derive(Clone, Copy)]
pub enum ReadAnswer {
    /// This many bytes were put at the front of the piece; 0 means the end of input.
    Count(usize),
    /// Nothing was taken, and the source's count of faults rose.
    Failed,
}

/// A source of bytes. Clauses see its count of faults, and the bytes that are left (`None` if the
/// source doesn't show them).
pub trait Source {
    ghost left: { Self → Option (List ℕ) };

    ghost faults: { Self → ℕ };

    /// Moves the next bytes to the front of the piece, as many as it answers; 0 only if none is
    /// left.
    fn read(&mut self, piece: &mut [u8]) -> ReadAnswer
        requires { 0 < length piece.old }
        ensures within { IfRead result (λ n. n ≤ length piece.new) }
        ensures bytes { IfRead result (λ n.
            Consumes (left self.old) (left self.new) (take n piece.new)) }
        ensures end { result ≡ ReadAnswer.Count 0 → IsAtEnd (left self.new) }
        ensures kept { OnReadFailed result (Keeps (left self.old) (left self.new)) }
        ensures failed { OnReadFailed result (Rose (faults self.old) (faults self.new)) }
        ensures count { faults self.old ≤ faults self.new };
}
