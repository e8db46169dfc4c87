//! The lines of the source at which a run's traps came.

ghost use Rattle.ir.specs.WellFormed.{IsWellFormed};

use cnvm_compile::{Compiled, line_at};
use cnvm_session::{Trapped, Traps};
use std::alloc::Global;

/// Looks up the lines of the traps that this program's code has answered since the last time. One
/// for which there is no memory isn't told.
pub(crate) fn look_up(alloc: Global, compiled: &Compiled, traps: &mut Traps)
    requires { IsWellFormed compiled.now.ir }
{
    traps.ended = with_line(alloc, compiled, traps.ended);
    traps.undone = with_line(alloc, compiled, traps.undone);
}

fn with_line(alloc: Global, compiled: &Compiled, trapped: Option<Trapped>) -> Option<Trapped>
    requires { IsWellFormed compiled.now.ir }
{
    let trapped = trapped?;
    let line = match trapped.stop {
        Some(stop) => match line_at(alloc, compiled, stop, trapped.kind) {
            Ok(line) => line,
            Err(_) => None,
        },
        None => trapped.line,
    };
    Some(Trapped {
        line,
        stop: None,
        ..trapped
    })
}
