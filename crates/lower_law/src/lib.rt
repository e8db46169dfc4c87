//! Lowering keeps the meaning: the intermediate code that `lower` makes of a tree without a broken
//! rule does what `c_meaning` says that the tree means, and never assigns its parameters. It rests
//! on both and on `code_meaning`, and has no code. Its one contract for the crates above: the laws
//! of `specs/`.
#![tactic(auto)]

ghost use Rattle.lower_law.specs.Accesses.{AccessesLaw};
ghost use Rattle.lower_law.specs.Law.{LowerLaw, TransactionLaw};
ghost use Rattle.lower_law.specs.Parameters.{ParametersLaw};

/// The code of a checked tree does what the tree means, by the tree's accesses in their order, and
/// assigns no parameter's register. The function does nothing.
pub fn law()
    ensures lower { LowerLaw }
    ensures accesses { AccessesLaw }
    ensures transaction { TransactionLaw }
    ensures parameters { ParametersLaw }
{}
