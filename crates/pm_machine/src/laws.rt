//! The laws of the machine's runs, for the crates above.

ghost use Rattle.pm_machine.specs.Find.{FindLaw};
ghost use Rattle.pm_machine.specs.Law.{FuelLaw, RecordsLaw, ExactLaw, Agreement, DueLaw};
ghost use Rattle.pm_machine.specs.Law.{AlikeDueLaw, LookLaw};

/// More fuel doesn't change a run that finished; a run with its records is the run without, with a
/// record before each effect that takes one, and ends with a full log exactly if these are too
/// many; heaps that are alike for a run have the same run; the due events of a run on a cache are
/// those of the run on its heap; FIND finds the least free slot; and a run whose effects are those
/// of a look is one. The function does nothing.
pub fn machine_laws()
    ensures fuel { FuelLaw }
    ensures records { RecordsLaw }
    ensures exact { ExactLaw }
    ensures agreement { Agreement }
    ensures due { DueLaw }
    ensures alike { AlikeDueLaw }
    ensures find { FindLaw }
    ensures looks { LookLaw }
{}
