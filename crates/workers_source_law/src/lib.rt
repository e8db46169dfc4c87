//! Several workers on one device do what the source says. It rests on `session_law`, which says so
//! of one session, and on `workers_law`, by which a transaction that was played turn by turn is a
//! call on its worker's own compartment. Its one contract for the crates above: where the image
//! agrees with its source, a run of a script of workers, on new compartments or on images that are
//! opened, is a chain of steps with one state of the source for each compartment, which only its
//! own worker's lines change.
#![tactic(auto)]

ghost use Rattle.workers_source_law.specs.Law.{WorkersLaw, WorkersPartLaw, OpenedWorkersLaw};
ghost use Rattle.workers_source_law.specs.Law.{OpenedWorkersPartLaw, ArgsLaw};
ghost use Rattle.workers_source_law.specs.Reopened.{NewHeldLaw, NewHeldPartLaw, OpenedHeldLaw};
ghost use Rattle.workers_source_law.specs.Reopened.{OpenedHeldPartLaw, ReopenedLaw};
ghost use Rattle.workers_source_law.specs.Reopened.{ReopenedPartLaw};
ghost use Rattle.workers_source_law.specs.FaultsTold.{ToldFaultLaw, RunFaultLaw};
ghost use Rattle.workers_source_law.specs.Alone.{AloneLaw, AlonePartLaw, AsCallLaw};
ghost use Rattle.workers_source_law.specs.OwnHistory.{OwnSealedLaw, OwnHistoryLaw, OwnPoolLaw};
ghost use Rattle.workers_source_law.specs.OwnHistory.{AloneNewLaw};

/// Each line of a script of workers is what the source gives. The function does nothing.
pub fn source_law()
    ensures run { WorkersLaw }
    ensures part { WorkersPartLaw }
    ensures opened { OpenedWorkersLaw }
    ensures opened_part { OpenedWorkersPartLaw }
    ensures words { ArgsLaw }
{}

/// What a crash leaves of the file of several workers is recovered as what a power cut leaves of
/// their device, over any number of processes. The function does nothing.
pub fn reopen_law()
    ensures new { NewHeldLaw }
    ensures new_part { NewHeldPartLaw }
    ensures opened { OpenedHeldLaw }
    ensures opened_part { OpenedHeldPartLaw }
    ensures reopened { ReopenedLaw }
    ensures reopened_part { ReopenedPartLaw }
{}

/// The count of faults never falls, and a command tells that the device failed only where it rose.
/// The function does nothing.
pub fn fault_law()
    ensures command { ToldFaultLaw }
    ensures run { RunFaultLaw }
{}

/// Each worker is as if it were alone: its own lines, and no others, lead from its first state to
/// its last, and are those of a session. It finishes each transaction that it began at most once,
/// in order. The function does nothing.
pub fn alone_law()
    ensures run { AloneLaw }
    ensures part { AlonePartLaw }
    ensures call { AsCallLaw }
    ensures sealed { OwnSealedLaw }
    ensures history { OwnHistoryLaw }
    ensures pool { OwnPoolLaw }
    ensures new { AloneNewLaw }
{}
