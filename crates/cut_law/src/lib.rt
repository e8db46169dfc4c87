//! What a power cut during a call or a recovery leaves. It rests on `tx_run` and `recovery`, whose
//! calls play exactly the due events, and on the laws of `run_law` and `crash_law`. Its one
//! contract for the crates above: after each event the pool is as it was, or the call is owed, or
//! has come to its end.
#![tactic(auto)]

ghost use Rattle.cut_law.specs.Law.{DueCallLaw, CutCallLaw, CutRedoLaw, CutCleanLaw, RestLaw};
ghost use Rattle.cut_law.specs.Law.{CutAgainLaw};
ghost use Rattle.cut_law.specs.Leaves.{CallLeavesLaw, RedoLeavesLaw};
ghost use Rattle.cut_law.specs.Faults.{CallFaults, RedoFaults, CleanFaults};

/// The events that a call and a recovery play are the crash law's due lists; so after each of them
/// every image is one that the law names. The function does nothing.
pub fn law()
    ensures due { DueCallLaw }
    ensures cut { CutCallLaw }
    ensures redo { CutRedoLaw }
    ensures clean { CutCleanLaw }
    ensures rest { RestLaw }
    ensures again { CutAgainLaw }
    ensures called { CallLeavesLaw }
    ensures redid { RedoLeavesLaw }
{}

/// The count of faults never falls in a call or a recovery, and `Failed` is answered only if it
/// rose. The function does nothing.
pub fn faults()
    ensures call { CallFaults }
    ensures redo { RedoFaults }
    ensures clean { CleanFaults }
{}
