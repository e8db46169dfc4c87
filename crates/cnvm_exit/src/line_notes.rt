//! Messages of lines that are no command, on standard error.

use crate::notes::put_bytes;
use cnvm_notes::line_note;
use nvm_base::StdNotes;
use session_serve::BadLines;
use std::alloc::Global;

/// What standard input is called in a message.
pub(crate) const INPUT: &str = "standard input";

/// Standard error, for messages of bad lines.
#[derive(Drop)]
pub(crate) struct LineNotes<'a, R: Eprint> {
    alloc: Global,
    notes: StdNotes<'a, R>,
}

impl<'a, R: Eprint> LineNotes<'a, R> {
    pub(crate) fn new(alloc: Global, rt: &'a R) -> Self {
        LineNotes {
            alloc,
            notes: StdNotes::new(rt),
        }
    }
}

impl<R: Eprint> BadLines for LineNotes<'_, R> {
    fn tell(&mut self, number: u64, line: &[u8]) {
        match line_note(self.alloc, INPUT, number, line) {
            Ok(note) => put_bytes(&mut self.notes, note.as_str().as_bytes()),
            Err(_) => put_bytes(&mut self.notes, b"cnvm: out of memory\n"),
        }
    }
}
