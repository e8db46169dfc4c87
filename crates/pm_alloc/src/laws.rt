//! Laws about the code of `pm_new`, of `pm_free` and of the checks of a pointer, run alone, as
//! clauses.

ghost use Rattle.pm_alloc.specs.Free.{FreeLaw, PointerLaw};
ghost use Rattle.pm_alloc.specs.New.{NewCodeLaw};
ghost use Rattle.pm_alloc.specs.Search.{SearchLaw};

/// The code of `pm_new` finds the least free slot in its first step, which only loads headers.
pub fn search_law()
    ensures { SearchLaw }
{}

/// The code of `pm_new` makes an object in the least free slot, or gives 0 if none is free, in at
/// most 39 steps and 10 for each word of a slot past the 16th.
pub fn new_law()
    ensures { NewCodeLaw }
{}

/// The checks of a pointer trap as null or stale, or go on with its slot times the words of one, in
/// at most 11 steps.
pub fn pointer_law()
    ensures { PointerLaw }
{}

/// The code of `pm_free` traps as the checks do, or sets the header to 0, in at most 14 steps.
pub fn free_law()
    ensures { FreeLaw }
{}
