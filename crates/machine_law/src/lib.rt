//! The machine's run of emitted code follows the run of its intermediate code, step by step, and
//! is sound. It rests on `codegen`, which has the emitted code, and on `code_meaning`, and has no
//! code. Its one contract for the crates above: the laws of `specs/`, each a clause of a function
//! that does nothing. `specs/emitted` speaks of the machine's code alone, `specs/pieces` of the
//! piece of one instruction, run alone, and `specs/matching` of whole runs.
#![tactic(auto)]

ghost use Rattle.machine_law.specs.emitted.Dirty.{StaysCleanLaw, FewLines, GrowLaw};
ghost use Rattle.machine_law.specs.emitted.Moments.{RunsLaw};
ghost use Rattle.machine_law.specs.emitted.Pairs.{EmitsPairs, PairedLaw};
ghost use Rattle.machine_law.specs.emitted.Placed.{PlacedLaw};
ghost use Rattle.machine_law.specs.emitted.Returns.{ReturnLaw};
ghost use Rattle.machine_law.specs.emitted.Standing.{StandsLaw};
ghost use Rattle.machine_law.specs.emitted.Steps.{ForwardCode, ForwardLaw, SettlesLaw};
ghost use Rattle.machine_law.specs.emitted.Tidy.{TidyLaw};
ghost use Rattle.machine_law.specs.emitted.TidyCode.{EmitsTidy, SoundRunLaw};
ghost use Rattle.machine_law.specs.pieces.Law.{PieceLaw};
ghost use Rattle.machine_law.specs.pieces.Pools.{FitsLaw, HeadersLaw, PoolLaw};
ghost use Rattle.machine_law.specs.pieces.Shows.{ShowsLaw};
ghost use Rattle.machine_law.specs.pieces.Words.{WordsLaw};
ghost use Rattle.machine_law.specs.matching.Law.{KeepLaw};
ghost use Rattle.machine_law.specs.matching.Match.{MatchLaw};

/// A run by moments is the machine's run.
pub fn runs_law()
    ensures { RunsLaw }
{}

/// A piece of code in its place runs as it runs alone.
pub fn placed_law()
    ensures { PlacedLaw }
{}

/// In emitted code a STORE comes right after each LOG, and in its run each LOG is followed by its
/// STORE.
pub fn paired_law()
    ensures code { EmitsPairs }
    ensures run { PairedLaw }
{}

/// A run of tidy code flushes and fences only at its end.
pub fn tidy_law()
    ensures { TidyLaw }
{}

/// The piece of each instruction that stays in its function is at its place in the emitted code.
pub fn stands_law()
    ensures { StandsLaw }
{}

/// Emitted code is tidy, and each run of one of its transactions is sound, apart from which stores
/// are logged.
pub fn sound_law()
    ensures code { EmitsTidy }
    ensures run { SoundRunLaw }
{}

/// Each instruction that stays in its function, and fills no object by a loop, has a piece that
/// only leads forward, of at most 39 instructions for slots of 16 words; from any place of such a
/// piece the machine reaches the place after it, or an end, in at most as many steps as the piece
/// has instructions left. From the start of each piece it does so too, also where it has a loop.
pub fn forward_law()
    ensures code { ForwardCode }
    ensures run { ForwardLaw }
    ensures settles { SettlesLaw }
{}

/// FLUSH, FENCE and HALT flush each dirty line once, in order, fence and halt, in three steps more
/// than there are dirty lines.
pub fn return_law()
    ensures { ReturnLaw }
{}

/// In a run no line is dirty twice, and each is a line of the heap; so at most as many lines are
/// dirty as the heap has. A step makes at most one more dirty.
pub fn dirty_law()
    ensures run { StaysCleanLaw }
    ensures few { FewLines }
    ensures grow { GrowLaw }
{}

/// The piece of each instruction that stays in its function does what the instruction does.
pub fn piece_law()
    ensures { PieceLaw }
{}

/// If effects show deeds part by part, they show them together.
pub fn shows_law()
    ensures { ShowsLaw }
{}

/// A heap with valid headers stands for exactly one pool that fits; each instruction leaves a pool
/// that fits, and if all values of a state are words, so are those of the next.
pub fn pools_law()
    ensures pool { PoolLaw }
    ensures headers { HeadersLaw }
    ensures fits { FitsLaw }
    ensures words { WordsLaw }
{}

/// From states that match, one step of the code and at most 40 steps of the machine, or more where
/// slots are wider (and, at an end, one more for each dirty line), lead to states that match, or to
/// the same end.
pub fn step_law()
    ensures { MatchLaw }
{}

/// The machine's run of a transaction of emitted code ends as its intermediate code does, with a
/// heap that stands for the code's pool and loads and stores that show the code's.
pub fn keep_law()
    ensures { KeepLaw }
{}
