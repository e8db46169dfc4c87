//! The source of a function's code, and its registers.
//!
//! A function's first registers hold its arguments. Every other register is named by a place of the
//! code: the value whose code ends at that place. So no two variables or values share one.

ghost use Rattle.std.specs.Prelude.{◌≡◌, ◌+◌, ◌<◌, ◌^◌};

use c_tree::Ast;
use c_types::Program;
use std::alloc::Global;

/// The tree with its lines, the meaning of its names, and the number of the function's parameters.
#[derive(Drop)]
pub struct Source<'s, 'a> {
    pub alloc: Global,
    pub ast: &'s Ast,
    pub program: &'s Program<'a>,
    pub parameters: u16,
}

impl<'s, 'a> Source<'s, 'a> {
    /// The register of the value whose code ends at this place.
    pub fn register(&self, place: u32) -> u32
        requires { place < 2 ^ 31 }
        ensures { result ≡ self.now.parameters + place }
    {
        u32::from(self.parameters) + place
    }
}
