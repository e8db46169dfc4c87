//! What a user of a program may believe: a session as a chain of steps that names the language,
//! scripts and answers, the pool as the source sees it, and of the device only cache lines, the
//! number of events, the counts and the seal. It stands on `session_law`. Its one contract: the
//! laws of `specs/`, each a clause of a function that does nothing.
#![tactic(auto)]

ghost use Rattle.user_law.specs.Stays.{StaysLaw, UserLookLaw, UserWholeLaw, UserKeptLaw, HeadLaw};
ghost use Rattle.user_law.specs.Stays.{RunHeadLaw};
ghost use Rattle.user_law.specs.Ends.{UserUninterruptedLaw, QuietScriptLaw, UserCallEndsLaw};
ghost use Rattle.user_law.specs.Ends.{UserRecoveryEndsLaw};
ghost use Rattle.user_law.specs.Determined.{OneStateLaw, OneEndLaw, SameAnswersLaw, SameScriptLaw};
ghost use Rattle.user_law.specs.Determined.{SameOutputLaw, SomeEndLaw, OnePickLaw};
ghost use Rattle.user_law.specs.Met.{StepMetLaw, RunMetLaw, CallMetLaw, LookMetLaw, CutMetLaw};
ghost use Rattle.user_law.specs.Met.{CountNeededLaw};
ghost use Rattle.user_law.specs.Seen.{KeepsLaw, PlayedLaw, MeantLaw, SealKeptLaw, StepLaw, RanLaw};

/// Of each chain, whatever the device and the machine are: once an image had the seal of a call,
/// the history of each later moment that takes calls has the call, over any number of cuts and
/// faults; a call that only looks changes nothing; and the pool is the one to which the history
/// leads. It does nothing.
pub fn chain_law()
    ensures stays { StaysLaw }
    ensures look { UserLookLaw }
    ensures whole { UserWholeLaw }
    ensures kept { UserKeptLaw }
    ensures head { HeadLaw }
    ensures run { RunHeadLaw }
{}

/// Of each chain: where no cut and no fault is armed, no command is cut off, and each call and each
/// recovery ends, unless memory is wanting, a number is at its end, or a pick doesn't fit. It does
/// nothing.
pub fn end_law()
    ensures uninterrupted { UserUninterruptedLaw }
    ensures script { QuietScriptLaw }
    ensures call { UserCallEndsLaw }
    ensures recovery { UserRecoveryEndsLaw }
{}

/// Each step of a session of the machine is one of the user's, and so is each session. It does
/// nothing.
pub fn seen_law()
    ensures keeps { KeepsLaw }
    ensures played { PlayedLaw }
    ensures meant { MeantLaw }
    ensures seal { SealKeptLaw }
    ensures step { StepLaw }
    ensures ran { RanLaw }
{}

/// An answer tells what the user knows after it, and a command has one end. So where each command
/// comes to its end, a script has one list of answers, whatever the devices are. It does nothing.
pub fn determined_law()
    ensures state { OneStateLaw }
    ensures end { OneEndLaw }
    ensures some { SomeEndLaw }
    ensures pick { OnePickLaw }
    ensures answers { SameAnswersLaw }
    ensures script { SameScriptLaw }
    ensures output { SameOutputLaw }
{}

/// The premises of the laws of chains can be met: by a new pool, a run of each text that has a
/// meaning, a call that comes to its end, one that only looks, and one that is cut off at its seal.
/// It does nothing.
pub fn met_law()
    ensures step { StepMetLaw }
    ensures run { RunMetLaw }
    ensures call { CallMetLaw }
    ensures look { LookMetLaw }
    ensures cut { CutMetLaw }
    ensures count { CountNeededLaw }
{}
