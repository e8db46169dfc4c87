//! Where a pool's file is: a port that opens the file or makes it.

ghost use Rattle.std.specs.Prelude.{ℕ, ◌≡◌, ◌≤◌, Option};
ghost use Rattle.nvm_base.specs.Rose.{Rose};
ghost use Rattle.file_pmem.specs.Found.{Found, Opens, Makes, MadeHolds};
ghost use Rattle.file_pmem.specs.declared.pools.Held.TheVariants as held;
ghost use Rattle.file_pmem.specs.declared.pools.Made.TheVariants as made;

use crate::file::LineFile;

/// What the name of a pool's file leads to.
#[derive(Drop)]
pub enum Held<F> {
    /// There is no such file.
    Missing,
    /// The file, which is held from now on.
    Held(F),
    /// The file is held already.
    Busy,
    /// The port's count of faults rose.
    Failed,
}

/// The answer of making a pool's file.
#[derive(Drop)]
pub enum Made<F> {
    /// The file, which is held from now on.
    Made(F),
    /// There is a file of this name.
    Busy,
    /// The port's count of faults rose.
    Failed,
}

/// A port to the file of a pool, under one name. Clauses see what the name leads to (`None` if the
/// port doesn't tell) and the port's count of faults.
pub trait Pools {
    type File: LineFile + Drop;

    ghost found: { Self → Option Found };

    ghost faults: { Self → ℕ };

    /// Opens the file and holds it, so that no other process does.
    fn hold(&mut self) -> Held<Self::File>
        ensures answer { Opens Self.File.content result (found self.old) (found self.new) }
        ensures rose { result ≡ held.Failed → Rose (faults self.old) (faults self.new) }
        ensures count { faults self.old ≤ faults self.new };

    /// Makes the file with these words, line after line, and holds it. The name leads to it only
    /// once it is whole and safe. Words past the last whole line are left out.
    fn make(&mut self, words: &[i64]) -> Made<Self::File>
        ensures answer { Makes result (found self.old) (found self.new) }
        ensures holds { MadeHolds Self.File.content words.now result }
        ensures rose { result ≡ made.Failed → Rose (faults self.old) (faults self.new) }
        ensures count { faults self.old ≤ faults self.new };
}
