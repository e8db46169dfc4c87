//! The machine's runs in terms of the crash law: its laws apply to a sound run, and the due events
//! are those of the run. It rests on `pm_machine` and `crash_law`. Its one contract for the crates
//! above: the laws of `specs/Law.antt`.
#![tactic(auto)]

ghost use Rattle.run_law.specs.Law.{JoinLaw, RunLaw, RecordsSoundLaw, DueRunLaw, RestoredLaw};

/// A sound run's events, and those after it, are those of the crash law; a run with its records is
/// sound if the run without them is. The function does nothing.
pub fn law()
    ensures join { JoinLaw }
    ensures run { RunLaw }
    ensures records { RecordsSoundLaw }
    ensures due { DueRunLaw }
    ensures restored { RestoredLaw }
{}
