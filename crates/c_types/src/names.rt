//! A list of names, to be looked up by name.

ghost use Rattle.std.specs.Prelude.{◌≡◌, [], ◌∷◌, ◌++◌, OnOk};
ghost use Rattle.c_types.specs.Tables.{index_of};

use std::alloc::{AllocError, Global};
use std::collections::BTreeMap;
use std::marker::Model;

/// The names of one kind of thing, in the order of their declarations, seen as the list of them.
#[derive(Drop)]
pub struct Names<'a> {
    all: Vec<&'a str>,
    first: BTreeMap<&'a str, u64>,
}

impl<'a> Model for Names<'a> {
    ghost use Rattle.std.specs.Prelude.{◌≡◌, ℕ, List, map};
    ghost use Rattle.std.specs.BTreeMap.{get_by};
    ghost use Rattle.std.specs.Ordering.{nat_cmp};
    ghost use Rattle.std.specs.Cmp.Lexicographic.{slice_cmp};
    ghost use Rattle.c_types.specs.Tables.{index_of};

    ghost Value = { List (List ℕ) };

    ghost view = { λ n. map (λ s. s.now) n.all.items };

    ghost invariant = { λ n. (q : List ℕ) → get_by (λ k. slice_cmp nat_cmp q k.now) n.first
        ≡ index_of q (map (λ s. s.now) n.all.items) };
}

impl<'a> Names<'a> {
    /// The empty list. It takes no memory.
    pub fn new(alloc: Global) -> Self
        ensures { result ≡ [] }
    {
        Names {
            all: Vec::new(alloc),
            first: BTreeMap::new(alloc),
        }
    }

    /// Appends a name.
    pub fn push(&mut self, name: &'a str) -> Result<(), AllocError>
        ensures { OnOk result (self.new ≡ self.old ++ name.now ∷ []) }
    {
        let at = self.all.len() as u64;
        let known = self.first.contains_key(name);
        self.all.push(name)?;
        if known {
            return Ok(());
        }
        match self.first.insert(name, at) {
            Ok(_) => Ok(()),
            Err(_) => {
                self.all.pop();
                Err(AllocError)
            }
        }
    }

    /// The place of the first declaration of a name.
    pub fn find(&self, name: &str) -> Option<u64>
        ensures { result ≡ index_of name.now self.now }
    {
        self.first.get(name).copied()
    }
}
