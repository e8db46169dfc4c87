//! Properties of the code that is lowered from a tree: its length, and what it has if the tree
//! breaks no typing rule. It rests on `c_types` and `lower`, and has no code. Its one contract for
//! the crates above: the laws of `specs/`, each a clause of a function that does nothing.
#![tactic(auto)]

ghost use Rattle.tree_law.specs.sizes.Law.{AllowedLaw, SizeLaw};
ghost use Rattle.tree_law.specs.checked.Law.{CallsLaw, ConstantsLaw, EntriesLaw, LimitsLaw};
ghost use Rattle.tree_law.specs.checked.Law.{LogsLaw, RootHasWordLaw, ShapesLaw};

/// The code of a tree has at most four instructions for each of its tokens, and so no more than the
/// bound on steps allows for. The function does nothing.
pub fn size_law()
    ensures size { SizeLaw }
    ensures allowed { AllowedLaw }
{}

/// A checked program's structs, root and functions are as small as the typing rules require, and no
/// function of its code calls a transaction or has a log. The constants of its code are words, and
/// the functions marked as transactions are the tree's. The function does nothing.
pub fn checked_law()
    ensures shapes { ShapesLaw }
    ensures root { RootHasWordLaw }
    ensures calls { CallsLaw }
    ensures logs { LogsLaw }
    ensures limits { LimitsLaw }
    ensures constants { ConstantsLaw }
    ensures entries { EntriesLaw }
{}
