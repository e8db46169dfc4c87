//! Words that grew and are to be carried on.

ghost use Rattle.std.specs.Prelude.{◌≡◌, ◌++◌, ◌∷◌, [], None, IfSome, OnOk};
ghost use Rattle.clobber_pass.specs.inside.Carrying.{grown_from};

use std::alloc::{AllocError, Global};
use std::marker::Model;

/// Bits that a slot has got at a place.
#[derive(Clone, Copy)]
pub struct Grown {
    pub place: usize,
    pub slot: usize,
    pub word: u16,
}

/// Bits that have still to be carried on to the places after theirs, the newest first.
#[derive(Drop)]
pub struct Growth {
    all: Vec<Grown>,
}

impl Model for Growth {
    ghost use Rattle.std.specs.Prelude.{List};
    ghost use Rattle.clobber_pass.specs.declared.growth.Grown.{Grown};

    ghost Value = { List Grown };

    ghost view = { λ g. g.all.items };
}

impl Growth {
    /// No words. It takes no memory.
    pub fn new(alloc: Global) -> Self
        ensures { result ≡ [] }
    {
        Growth {
            all: Vec::new(alloc),
        }
    }

    /// Adds a word.
    pub fn push(&mut self, grown: Grown) -> Result<(), AllocError>
        ensures { OnOk result (self.new ≡ self.old ++ grown ∷ []) }
    {
        self.all.push(grown)?;
        Ok(())
    }

    /// Takes the newest word.
    pub fn pop(&mut self) -> Option<Grown>
        ensures some { IfSome result (λ grown. self.old ≡ self.new ++ grown ∷ []) }
        ensures none { result ≡ None → self.new ≡ self.old }
    {
        self.all.pop()
    }

    /// Adds all words of a row.
    pub fn push_row(&mut self, place: usize, row: &[u16]) -> Result<(), AllocError>
        ensures { OnOk result (self.new ≡ self.old ++ grown_from place 0 row.now) }
    {
        for (slot, word) in row.iter().enumerate() {
            self.push(Grown {
                place,
                slot,
                word: *word,
            })?;
        }
        Ok(())
    }
}
