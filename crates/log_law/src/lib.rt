//! Which stores of intermediate code are logged, and that code with its logs does what the code
//! does. It rests on `ir`, whose walks say which stores are logged, on `code_meaning` and on
//! `instrument`, and has no code. Its one contract for the crates above: the laws of `specs/`,
//! each a clause of a function that does nothing.
#![tactic(auto)]

ghost use Rattle.log_law.specs.covered.Law.{CoverLaw, FirstLaw, HeaderLaw, PartLaw};
ghost use Rattle.log_law.specs.inserted.Law.{MovedDeedsLaw, LoggedEndLaw, FillLaw, OriginLaw};
ghost use Rattle.log_law.specs.inserted.Law.{LoggedStoreLaw};

/// The first store to each word that was loaded before any store to it comes from a logged site,
/// and so does each store to a header; and the same holds for each first part of a run. The
/// function does nothing.
pub fn cover_law()
    ensures cover { CoverLaw }
    ensures headers { HeaderLaw }
    ensures first { FirstLaw }
    ensures part { PartLaw }
{}

/// Code with its logs has the same end, and the same loads and stores at the moved sites, in at
/// most twice the steps; a store that the marks name comes right after a log of its target, and a
/// `new` has the flag of its fill; and there is no other log and no other instruction, even if the
/// code had logs before; and each instruction stands at its place. The function does nothing.
pub fn insert_law()
    ensures end { LoggedEndLaw }
    ensures deeds { MovedDeedsLaw }
    ensures store { LoggedStoreLaw }
    ensures fill { FillLaw }
    ensures origin { OriginLaw }
{}
