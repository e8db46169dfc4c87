//! The laws of workers on one device, on definitions alone: whatever the order of their turns, and
//! wherever a power cut stops them. It rests on `pool_workers`, whose turns play the pieces of the
//! due events, and on the laws of `crash_law` and `cut_law`. Its one contract for the crates above:
//! each compartment, and so its images, is as its own worker's transaction alone would leave it,
//! except for fences.
#![tactic(auto)]

ghost use Rattle.workers_law.specs.AsCall.{CalledLaw};
ghost use Rattle.workers_law.specs.Compartments.{EventLaw, CompartmentLaw, CompartmentImagesLaw};
ghost use Rattle.workers_law.specs.CutTurns.{CutTurnsLaw, CutPiecesLaw};
ghost use Rattle.workers_law.specs.Fate.{FateLaw};
ghost use Rattle.workers_law.specs.Faults.{TurnFaults};
ghost use Rattle.workers_law.specs.LookTurns.{LookTurnsLaw};
ghost use Rattle.workers_law.specs.WithinPool.{InsideLaw};
ghost use Rattle.workers_law.specs.Interleaving.{InterleavingLaw};
ghost use Rattle.workers_law.specs.Phases.{TurnPhaseLaw};
ghost use Rattle.workers_law.specs.Power.{PowerLaw, FencedLaw, MarksLaw, CompartmentsCreatedLaw};
ghost use Rattle.workers_law.specs.Standing.{LeftLaw, SameViewLaw, TurnsLaw, ShownImagesLaw};

/// A compartment is changed by its own worker alone, except for fences; so its images are those of
/// its own worker's events. The function does nothing.
pub fn law()
    ensures event { EventLaw }
    ensures compartment { CompartmentLaw }
    ensures images { CompartmentImagesLaw }
    ensures inside { InsideLaw }
{}

/// A transaction turn by turn: its pieces are its due list, whatever fences come in between; so the
/// images of its compartment are those of its own due list. One that only looks changes nothing.
/// The function does nothing.
pub fn turn_law()
    ensures left { LeftLaw }
    ensures view { SameViewLaw }
    ensures turns { TurnsLaw }
    ensures images { ShownImagesLaw }
    ensures fate { FateLaw }
    ensures looks { LookTurnsLaw }
    ensures called { CalledLaw }
    ensures cut { CutTurnsLaw }
    ensures pieces { CutPiecesLaw }
{}

/// The effect of a power cut and a fence on a compartment, and the content of a new pool of
/// compartments. The function does nothing.
pub fn device_law()
    ensures power { PowerLaw }
    ensures fenced { FencedLaw }
    ensures marks { MarksLaw }
    ensures created { CompartmentsCreatedLaw }
{}

/// The phase that is answered for a transaction is that of the seal's line in its compartment. The
/// function does nothing.
pub fn phase_law()
    ensures { TurnPhaseLaw }
{}

/// Every interleaving of turns, and each cut of it. The function does nothing.
pub fn interleaving_law()
    ensures { InterleavingLaw }
{}

/// The count of faults never falls in a turn, and `Failed` is answered only if it rose. The
/// function does nothing.
pub fn fault_law()
    ensures { TurnFaults }
{}
