//! Standard error as a sink. It shows clauses no content.

ghost use Rattle.std.specs.Prelude.{◌≡◌, None};

use crate::sink::{Sink, WriteAnswer};
use std::str;

/// Standard error, for texts. Its count of faults rises at each error, and at bytes that are no
/// text.
#[derive(Drop)]
pub struct StdNotes<'a, R: Eprint> {
    rt: &'a R,
    faults: u64,
}

impl<'a, R: Eprint> StdNotes<'a, R> {
    /// Notes that go to the runtime's standard error.
    pub fn new(rt: &'a R) -> Self
        ensures { result.faults ≡ 0 }
    {
        StdNotes { rt, faults: 0 }
    }

    /// Whether all of the text was printed.
    fn print(&self, piece: &[u8]) -> bool {
        match str::from_utf8(piece) {
            Ok(text) => self.rt.eprint(text).is_ok(),
            Err(_) => false,
        }
    }
}

impl<R: Eprint> Sink for StdNotes<'_, R> {
    ghost written = { λ _. None };

    ghost faults = { λ s. s.faults };

    fn write(&mut self, piece: &[u8]) -> WriteAnswer {
        if self.print(piece) {
            return WriteAnswer::Count(piece.len());
        }
        self.faults = self.faults.saturating_add(1);
        WriteAnswer::Failed
    }
}
