//! Native code is the machine's run: the printed functions of a transaction run as the machine
//! does, by the transaction's policy, where the code is printable; and each compiled program meets
//! that premise, by what `machine_law` asks of such programs. It rests on `pm_machine` and
//! `c_fragment`. Its one contract for the crates above: the laws of `specs/Printed.antt` and
//! `specs/Law.antt`.
#![tactic(auto)]

ghost use Rattle.native_law.specs.Printed.{PrintedRunLaw, PrintedEventsLaw};
ghost use Rattle.native_law.specs.Law.{CompiledRunLaw, CompiledEventsLaw};

use nvm_base::BinOp;
use pm_machine::Op;

/// The run of the printed functions is the machine's. The function does nothing.
pub fn printed_law()
    ensures run { PrintedRunLaw }
    ensures events { PrintedEventsLaw }
{}

/// A run of the printed functions of a compiled program is its machine's. The function does
/// nothing.
pub fn compiled_law()
    ensures run { CompiledRunLaw }
    ensures events { CompiledEventsLaw }
{}
