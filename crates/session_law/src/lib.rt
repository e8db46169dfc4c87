//! A session does what the source says. It rests on `cnvm_session`, whose commands are answered by
//! the machine's image and the device, on the meaning of `c_meaning`, and on the laws of `cut_law`.
//! Its one contract for the crates above: where the image agrees with its source, a session is a
//! chain of steps, each answered as the source says; a transaction that was cut is done exactly if
//! it was sealed, each is done at most once, and the pool is what the source gives after those that
//! are done.
#![tactic(auto)]

ghost use Rattle.session_law.specs.Law.{SessionLaw, SealedLaw, PhaseLaw, StepsLaw, CreatedLaw};
ghost use Rattle.session_law.specs.Law.{OpenedLaw, SessionRunLaw, KeptLaw, HistoryLaw, BegunLaw};
ghost use Rattle.session_law.specs.Law.{WholeLaw, UnchangedLaw, BoundLaw, ScriptLaw, DeterminedLaw};
ghost use Rattle.session_law.specs.Law.{FullLaw, RecoveryPhaseLaw};
ghost use Rattle.session_law.specs.Law.{LedLaw, FullLogLaw, ExactLaw, HeldRunLaw};
ghost use Rattle.session_law.specs.Law.{RollbackLaw, LookLaw};
ghost use Rattle.session_law.specs.Ends.{EndsLaw};

/// Each command of a session is answered as the source says. The function does nothing.
pub fn law()
    ensures session { SessionLaw }
    ensures sealed { SealedLaw }
    ensures phase { PhaseLaw }
    ensures recovery_phase { RecoveryPhaseLaw }
    ensures steps { StepsLaw }
    ensures created { CreatedLaw }
    ensures opened { OpenedLaw }
    ensures run { SessionRunLaw }
    ensures kept { KeptLaw }
    ensures history { HistoryLaw }
    ensures begun { BegunLaw }
    ensures whole { WholeLaw }
    ensures unchanged { UnchangedLaw }
    ensures bound { BoundLaw }
    ensures script { ScriptLaw }
    ensures determined { DeterminedLaw }
    ensures full { FullLaw }
    ensures full_log { FullLogLaw }
    ensures led { LedLaw }
    ensures exact { ExactLaw }
    ensures held_run { HeldRunLaw }
    ensures rollback { RollbackLaw }
    ensures ends { EndsLaw }
    ensures look { LookLaw }
{}
