//! The scanner's position.

ghost use Rattle.std.specs.Prelude.{◌≡◌, ◌+◌, ◌<◌, ◌≤◌, ◌^◌, length};
ghost use Rattle.c_lexer.specs.inside.Spots.{spot_past};

use crate::byte::is_indent;

/// What the bytes before a place determine.
#[derive(Clone, Copy)]
pub(crate) struct Spot {
    /// The line, counted from 1.
    pub(crate) line: u64,
    /// The number of bytes before the place.
    pub(crate) at: u64,
    /// Whether only spaces and tabs come before the place on its line.
    pub(crate) fresh: bool,
}

impl Spot {
    /// Moves past a piece of the text.
    pub(crate) fn pass(&mut self, piece: &[u8])
        requires line { self.old.line + length piece.now < 2 ^ 64 }
        requires at { self.old.at + length piece.now < 2 ^ 64 }
        ensures spot { self.new ≡ spot_past self.old piece.now }
        ensures line { self.new.line ≤ self.old.line + length piece.now }
        ensures at { self.new.at ≡ self.old.at + length piece.now }
    {
        for byte in piece {
            self.at += 1;
            if *byte == b'\n' {
                self.line += 1;
                self.fresh = true;
            } else {
                self.fresh = self.fresh && is_indent(*byte);
            }
        }
    }
}
