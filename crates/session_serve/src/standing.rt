//! Who sees whether a device is given up.

ghost use Rattle.std.specs.Prelude.{◌≡◌, true, false};
ghost use Rattle.file_pmem.specs.declared.link.MirrorState.TheVariants.{Awake};

use file_pmem::{FilePmem, LineFile};
use pmem::Lines;

/// Sees whether a device is given up, as one in a file is that refused a write.
pub trait Watch<P> {
    ghost kept: { P → Type 0 };

    /// Whether the device isn't given up.
    fn stands(&self, dev: &P) -> bool
        ensures stands { result ≡ true → kept dev.now }
        ensures given_up { result ≡ false → kept dev.now → ⊥ };
}

/// Of a device in memory, which is never given up.
#[derive(Drop)]
pub struct InMemory;

impl<P> Watch<P> for InMemory {
    ghost kept = { λ _. Unit {0} };

    fn stands(&self, _: &P) -> bool {
        true
    }
}

/// Of a device over a file, which is kept while the file mirrors it.
#[derive(Drop)]
pub struct InFile;

impl<L: Lines + Drop, F: LineFile + Drop> Watch<FilePmem<L, F>> for InFile {
    ghost kept = { λ d. d.link.state ≡ Awake };

    fn stands(&self, dev: &FilePmem<L, F>) -> bool {
        dev.keeps()
    }
}
