//! Laws about the events of a call: how many they are, and how far its seal has come.

ghost use Rattle.args_log.specs.Lengths.{SealLength, RetireLength, MarkLength};
ghost use Rattle.args_log.specs.PhaseLaw.{UnsealedLaw, SealingLaw, SealPhaseLaw};

/// A seal of m arguments in p lines has m + p + 5 events, a retirement 5 and a mark 3. The phase
/// that a seal answers is that of the versions of its line. The function does nothing.
pub fn call_laws()
    ensures seal { SealLength }
    ensures retire { RetireLength }
    ensures mark { MarkLength }
    ensures unsealed { UnsealedLaw }
    ensures sealing { SealingLaw }
    ensures sealed { SealPhaseLaw }
{}
