//! The rows of each function.

ghost use Rattle.std.specs.Prelude.{◌≡◌, ◌<◌, ◌≤◌, ◌∷◌, ◌++◌, [], true, false, Ok, IfOk, OnOk};
ghost use Rattle.std.specs.Prelude.{option_map, slice_get, slice_set, length};
ghost use Rattle.clobber_pass.specs.inside.Closed.{joined_exits, no_exits};
ghost use Rattle.clobber_pass.specs.inside.Room.{all_room};
ghost use Rattle.clobber_pass.specs.inside.Sweep as inside_sweeps;

use crate::row::word;
use crate::rows::Rows;
use ir::IrFunction;
use std::alloc::{AllocError, Global};
use std::marker::Model;

/// A table of rows for each function.
#[derive(Drop)]
pub struct Tables {
    functions: Vec<Rows>,
}

impl Model for Tables {
    ghost use Rattle.std.specs.Prelude.{List, ℕ};

    ghost Value = { List (List (List ℕ)) };

    ghost view = { λ t. t.functions.items };
}

impl Tables {
    /// A word of a function's row, or 0 if there is none.
    #[tactic(auto, using(crate::proofs::bits::Lookup::lookup))]
    pub fn word(&self, function: usize, row: usize, slot: usize) -> u16
        ensures { result ≡ inside_sweeps.exit (inside_sweeps.exits_of self.now function) row slot }
    {
        match self.functions.get(function) {
            Some(rows) => word(rows.row(row), slot),
            None => 0,
        }
    }

    /// Joins another row to a row of a function. Returns whether it grew.
    #[tactic(auto, using(crate::proofs::bits::Rooms::all_rooms))]
    pub fn join(
        &mut self,
        alloc: Global,
        function: usize,
        row: usize,
        more: &[u16],
    ) -> Result<bool, AllocError>
        ensures row { IfOk result (λ _. self.new ≡ joined_exits self.old function row more.now) }
        ensures same { result ≡ Ok false → (self.new ≡ self.old)
            × (joined_exits self.old function row more.now ≡ self.old) }
        ensures grew { result ≡ Ok true → all_room self.new < all_room self.old }
        ensures room { IfOk result (λ _. all_room self.new ≤ all_room self.old) }
    {
        if function >= self.functions.len() {
            return Ok(false);
        }
        self.functions[function].join(alloc, row, more)
    }

    /// For each function a table with an empty row for each column of its entry.
    pub fn new(alloc: Global, functions: &[IrFunction]) -> Result<Self, AllocError>
        ensures { IfOk result (λ t. t ≡ no_exits functions.now) }
    {
        let mut tables = Tables {
            functions: Vec::new(alloc),
        };
        for body in functions {
            tables.push(Rows::new(alloc, body.parameters as usize + 2)?)?;
        }
        Ok(tables)
    }

    /// The table of a function.
    #[tactic(auto, using(crate::proofs::bits::Lookup::lookup))]
    pub fn table(&self, function: usize) -> Option<&Rows>
        ensures { option_map (λ t. t.now) result ≡ slice_get self.now function }
    {
        self.functions.get(function)
    }

    /// No tables. It takes no memory.
    pub fn empty(alloc: Global) -> Self
        ensures { result ≡ [] }
    {
        Tables {
            functions: Vec::new(alloc),
        }
    }

    /// `count` tables without rows.
    pub fn blank(alloc: Global, count: usize) -> Result<Self, AllocError>
        ensures { IfOk result (λ tables. length tables ≡ count) }
    {
        let mut tables = Tables::empty(alloc);
        for _ in 0..count {
            tables.push(Rows::empty(alloc))?;
        }
        Ok(tables)
    }

    /// Writes the table of a function.
    pub fn set(&mut self, function: usize, rows: Rows)
        requires { function < length self.old }
        ensures { self.new ≡ slice_set self.old function rows }
    {
        self.functions[function] = rows;
    }

    /// Appends the table of one more function.
    pub fn push(&mut self, rows: Rows) -> Result<(), AllocError>
        ensures { OnOk result (self.new ≡ self.old ++ rows ∷ []) }
    {
        self.functions.push(rows)?;
        Ok(())
    }
}
