//! Where bytes go: a trait of sinks, whose writes may fail.

ghost use Rattle.std.specs.Prelude.{◌≡◌, ℕ, List, Option, Some, None, ◌<◌, ◌≤◌, length, take};
ghost use Rattle.std.specs.Prelude.{OnErr};
ghost use Rattle.std.specs.Io.KnownBytes.{Appends, Keeps};
ghost use Rattle.nvm_base.specs.Answers.{IfWritten, OnWriteFailed};
ghost use Rattle.nvm_base.specs.Rose.{Rose};

use crate::output::WriteFault;

/// The answer of a write.
#[derive(Clone, Copy)]
pub enum WriteAnswer {
    /// This many bytes from the front of the piece were written, at least one.
    Count(usize),
    /// Nothing was written, and the sink's count of faults rose.
    Failed,
}

/// A sink of bytes. Clauses see its count of faults, and the bytes that were written to it (`None`
/// if the sink doesn't show them).
pub trait Sink {
    ghost written: { Self → Option (List ℕ) };

    ghost faults: { Self → ℕ };

    /// Writes the first bytes of the piece, as many as it answers.
    fn write(&mut self, piece: &[u8]) -> WriteAnswer
        requires { 0 < length piece.now }
        ensures some { IfWritten result (λ n. 0 < n) }
        ensures within { IfWritten result (λ n. n ≤ length piece.now) }
        ensures bytes { IfWritten result
            (λ n. Appends (written self.old) (written self.new) (take n piece.now)) }
        ensures kept { OnWriteFailed result (Keeps (written self.old) (written self.new)) }
        ensures failed { OnWriteFailed result (Rose (faults self.old) (faults self.new)) }
        ensures count { faults self.old ≤ faults self.new };

    /// Commits what was written, for sinks that need it: a file that replaces an older one does so
    /// here, and a sink that holds bytes back writes them.
    fn finish(&mut self) -> Result<(), WriteFault>
        ensures kept { Keeps (written self.old) (written self.new) }
        ensures failed { OnErr result (Rose (faults self.old) (faults self.new)) }
        ensures count { faults self.old ≤ faults self.new }
    {
        Ok(())
    }
}
