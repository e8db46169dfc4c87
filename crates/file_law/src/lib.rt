//! The pool of a file after a killed process or a loss of power, and one that is moved from its
//! program's former text to the new one. It rests on `session_law` and `file_pmem`, and has no
//! code. Its one contract for the crates above: the laws of `specs/`.
#![tactic(auto)]

ghost use Rattle.file_law.specs.Law.{ReopenLaw};
ghost use Rattle.file_law.specs.Moved.{FormerShapesLaw, SizesLaw, MovedLaw, MovingCutLaw};
ghost use Rattle.file_law.specs.Moved.{UnowedLaw, MovingReopenLaw};

/// What a crash leaves of a session's file is recovered as after a power cut of the session. The
/// function does nothing.
pub fn law()
    ensures { ReopenLaw }
{}

/// A moved pool holds what it held, and a crash in the move loses nothing of it. The function does
/// nothing.
pub fn moved_law()
    ensures shapes { FormerShapesLaw }
    ensures sizes { SizesLaw }
    ensures moved { MovedLaw }
    ensures cut { MovingCutLaw }
    ensures unowed { UnowedLaw }
    ensures reopen { MovingReopenLaw }
{}
