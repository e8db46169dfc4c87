//! What a session runs.

ghost use Rattle.std.specs.Prelude.{◌≡◌};
ghost use Rattle.cnvm_session.specs.Pool.{wanted_of};

use c_types::Typed;
use pm_machine::Image;
use pool_layout::Wanted;

/// A compiled program: its tree, of which a session uses only the names, the numbers of parameters,
/// the marks `abort` and the shapes; its code, with the sizes of its pool; and the digest of its
/// text.
#[derive(Drop)]
pub struct Program {
    pub typed: Typed,
    pub image: Image,
    pub digest: [i64; 4],
}

impl Program {
    /// The pool that an image must fit.
    pub fn wanted(&self) -> Wanted
        ensures { result ≡ wanted_of self.now }
    {
        Wanted {
            sizes: *self.image.sizes(),
            digest: self.digest,
            txs: self.typed.txs(),
            structs: self.typed.structs(),
        }
    }
}
