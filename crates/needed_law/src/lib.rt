//! Checks of the definitions themselves. It rests on `crash_law`, `cut_law` and `session_law`, and
//! asks of them: is each event of the protocol needed, can the premises be met, and does the source
//! give one answer? Its one contract for the crates above: the laws that answer this.
#![tactic(auto)]

ghost use Rattle.needed_law.specs.Needed.{PayloadLaw, SealLaw, RecordLaw, RunEndLaw, RetireLaw};
ghost use Rattle.needed_law.specs.Needed.{MarkLaw, UndoLaw, BackLaw, AttemptLaw, TidyUpLaw};
ghost use Rattle.needed_law.specs.Needed.{IdleFenceLaw, MarkAloneLaw};
ghost use Rattle.needed_law.specs.Met.{MetLaw, TrialsLaw};
ghost use Rattle.needed_law.specs.MetRuns.{RunsMetLaw};
ghost use Rattle.needed_law.specs.MetSession.{SessionMetLaw};
ghost use Rattle.needed_law.specs.Answered.{OneAnswerLaw, PowerRefusedLaw, UncutOpeningLaw};

/// Each flush, each fence and each order of stores is needed; but for a fence after a fence, and
/// for the place of the mark. The function does nothing.
pub fn needed()
    ensures payload { PayloadLaw }
    ensures seal { SealLaw }
    ensures log { RecordLaw }
    ensures run { RunEndLaw }
    ensures retirement { RetireLaw }
    ensures mark { MarkLaw }
    ensures undo { UndoLaw }
    ensures back { BackLaw }
    ensures attempt { AttemptLaw }
    ensures tidy { TidyUpLaw }
    ensures idle { IdleFenceLaw }
    ensures mark_alone { MarkAloneLaw }
{}

/// The trials meet the premises of the crash law, and with all their events they keep what it
/// says; a run of the machine meets those of the laws of cuts, and a new pool those of the laws of
/// sessions. The function does nothing.
pub fn met()
    ensures premises { MetLaw }
    ensures trials { TrialsLaw }
    ensures runs { RunsMetLaw }
    ensures session { SessionMetLaw }
{}

/// The source gives one answer of each kind; a refused `power` does no more than it says; and no
/// opening is cut. The function does nothing.
pub fn answered()
    ensures one { OneAnswerLaw }
    ensures refused { PowerRefusedLaw }
    ensures uncut { UncutOpeningLaw }
{}
