//! The text that is printed.

ghost use Rattle.std.specs.Prelude.{◌≡◌, IfOk};
ghost use Rattle.cnvm_emit.specs.Emitted.{HasText, emitted};

use crate::entries::entries_of;
use c_file::{print_file, print_header};
use cnvm_compile::Compiled;
use nvm_base::Text;
use std::alloc::{AllocError, Global};

/// The C file of a program, or its header. All names that it declares begin with the prefix.
#[tactic(auto, using(crate::proofs::Listed::few, crate::proofs::Listed::named, crate::proofs::Listed::made))]
pub fn emit_text(
    alloc: Global,
    compiled: &Compiled,
    prefix: &str,
    header: bool,
) -> Result<Text, AllocError>
    requires { HasText compiled.now }
    ensures { IfOk result (λ text. text ≡ emitted compiled.now.program prefix.now header) }
{
    let Compiled { program, ir, .. } = compiled;
    let entries = entries_of(alloc, &program.typed, ir)?;
    if header {
        return print_header(alloc, prefix, &entries);
    }
    let wanted = program.wanted();
    let functions = program.image.functions().as_slice();
    print_file(alloc, prefix, &wanted, &entries, functions)
}
