//! The crash law of a call and of its recovery, on definitions alone: power may fail at any event,
//! any number of times. It rests on the laws of `cache_model` and on the places and logs of
//! `pool_layout`. Its one contract for the crates above: after each event the pool is as it was, or
//! the call is owed, or has come to its end: with a value, with a trap, or undone.
#![tactic(auto)]

ghost use Rattle.crash_law.specs.Law.{AgainLaw, CallLaw, CleanLaw, AddedFencesLaw, RedoLaw};
ghost use Rattle.crash_law.specs.Law.{RestLaw, TraceLaw, UndoneCountLaw};

/// The laws of a power cut at any event of a call or of a recovery, any number of times. The
/// function does nothing.
pub fn law()
    ensures call { CallLaw }
    ensures redo { RedoLaw }
    ensures clean { CleanLaw }
    ensures rest { RestLaw }
    ensures again { AgainLaw }
    ensures fences { AddedFencesLaw }
    ensures trace { TraceLaw }
    ensures count { UndoneCountLaw }
{}
