//! What a checked program never does while it runs: it never asks for what isn't there. So where
//! the meaning gives a value only to be total, that value is never met. It rests on `c_meaning` and
//! `rules_law`, and has no code. Its one contract: the laws of `specs/`.
#![tactic(auto)]

ghost use Rattle.sound_law.specs.Law.{SoundLaw, NeverFullLaw, LooksLaw};

/// A transaction of a checked tree, called with its arguments on a pool that fits, finds all that
/// it asks for, and leaves a pool that fits; no transaction traps by its source with a full log;
/// and one that is marked `const` leaves the pool as it was. The function does nothing.
pub fn law()
    ensures sound { SoundLaw }
    ensures never_full { NeverFullLaw }
    ensures looks { LooksLaw }
{}
