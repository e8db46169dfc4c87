//! Who is told of lines that are no command.

/// A port for messages: no clause depends on it.
pub trait BadLines {
    /// This line, the one of this number counted from 1, is no command.
    fn tell(&mut self, number: u64, line: &[u8]);
}

/// Nobody is told.
#[derive(Drop)]
pub struct NoNotes;

impl BadLines for NoNotes {
    fn tell(&mut self, _: u64, _: &[u8]) {}
}
