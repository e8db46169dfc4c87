//! A text that clauses see as its bytes.

ghost use Rattle.std.specs.Prelude.{ℕ, List, [], ◌++◌, ◌≡◌, OnOk, OnErr, string_bytes};

use std::alloc::{AllocError, Global};
use std::marker::Model;

/// A text that clauses see as its bytes. Where there is no memory to grow, it stays as it was.
#[derive(Drop)]
pub struct Text {
    all: String,
}

impl Model for Text {
    ghost Value = { List ℕ };

    ghost view = { λ t. string_bytes t.all };
}

impl Text {
    /// The empty text. It takes no memory.
    pub fn new(alloc: Global) -> Self
        ensures { result ≡ [] }
    {
        Text {
            all: String::new(alloc),
        }
    }

    /// The text of a string, in the string's memory.
    pub fn of(all: String) -> Self
        ensures { result ≡ string_bytes all }
    {
        Text { all }
    }

    /// Appends a piece of text.
    pub fn push(&mut self, piece: &str) -> Result<(), AllocError>
        ensures ok { OnOk result (self.new ≡ self.old ++ piece.now) }
        ensures err { OnErr result (self.new ≡ self.old) }
    {
        self.all.push_str(piece)?;
        Ok(())
    }

    /// The text so far.
    pub fn as_str(&self) -> &str
        ensures { result.now ≡ self.now }
    {
        &self.all
    }
}
