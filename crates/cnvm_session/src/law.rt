//! The laws of commands, for the crates above.

ghost use Rattle.cnvm_session.specs.Laws.{SessionRestLaw, OneLaw, GoodLaw, RefusedLaw, MostLaw};

/// The laws of commands: a power cut of a pool at rest, a refused command, and the most steps of
/// any command. The function does nothing.
pub fn laws()
    ensures rest { SessionRestLaw }
    ensures one { OneLaw }
    ensures good { GoodLaw }
    ensures refused { RefusedLaw }
    ensures most { MostLaw }
{}
