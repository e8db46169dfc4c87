//! The line of the source at which a run stopped.

ghost use Rattle.std.specs.Prelude.{◌≡◌, IfOk};
ghost use Rattle.ir.specs.WellFormed.{IsWellFormed};
ghost use Rattle.cnvm_compile.specs.Lines.{line_at};

use crate::compiling::Compiled;
use instrument::add_logs;
use pm_machine::Stop;
use pool_map::TrapKind;
use std::alloc::{AllocError, Global};
use trap_line::trap_line;

/// The line of a trap of this kind at a stop of the program's machine code; None if the code has no
/// such place.
pub fn line_at(
    alloc: Global,
    compiled: &Compiled,
    stop: Stop,
    kind: TrapKind,
) -> Result<Option<u64>, AllocError>
    requires { IsWellFormed compiled.now.ir }
    ensures { IfOk result (λ line. line ≡ line_at compiled.now stop kind) }
{
    let logged = add_logs(alloc, &compiled.ir, &compiled.marks)?;
    let Compiled { program, .. } = compiled;
    trap_line(
        alloc,
        &program.typed,
        &logged,
        program.image.sizes(),
        stop,
        kind,
    )
}
