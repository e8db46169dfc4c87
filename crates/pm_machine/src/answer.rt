//! The answers of a run.

ghost use Rattle.std.specs.Prelude.{◌≡◌};
ghost use Rattle.pm_machine.specs.inside.Answers.{run_answer};

use crate::effect::End;
use pmem::Refusal;
use pool_map::TrapKind;

/// The answer of a run: its end, or the refusal of an event.
#[derive(Clone, Copy, PartialEq, Eq, Drop)]
pub enum RunAnswer {
    Halted(i64),
    Trapped(TrapKind),
    Off,
    Failed,
    NoMemory,
}

impl RunAnswer {
    /// The answer of a run with this result.
    #[tactic(auto, using(std::proofs::lemmas::Int::wraps))]
    pub(crate) fn of(ran: Result<End, Refusal>) -> RunAnswer
        ensures { result ≡ run_answer ran }
    {
        match ran {
            Ok(End::Halted(value)) => RunAnswer::Halted(value),
            Ok(End::Trapped(kind)) => RunAnswer::Trapped(kind),
            Err(Refusal::Off) => RunAnswer::Off,
            Err(Refusal::Failed) => RunAnswer::Failed,
            Err(Refusal::NoMemory) => RunAnswer::NoMemory,
        }
    }
}
