//! What the typing rules say, apart from the order in which a tree is gone over. `specs/typed` has
//! types as rules over an accepted tree; `specs/rules` has the rules as a relation, row by row of
//! their table. It stands on `c_types`, and has no code. Its one contract: the laws of `specs/`,
//! each a clause of a function that does nothing.
#![tactic(auto)]

ghost use Rattle.rules_law.specs.typed.Law.{AcceptedLaw, CompleteLaw, TypeLaw};
ghost use Rattle.rules_law.specs.rules.Law.{RowsLaw, ToldLaw, StoresLaw, TypesLaw, ArraysLaw};
ghost use Rattle.rules_law.specs.rules.Law.{TypedLaw};

/// A program that breaks no typing rule is well typed, and a well typed one breaks none. A typed
/// expression's type is the one that `c_types` finds. It does nothing.
pub fn typed_law()
    ensures accepted { AcceptedLaw }
    ensures complete { CompleteLaw }
    ensures types { TypeLaw }
{}

/// What `c_types` lists of a tree is exactly what the rows of the rules give, so the refusal that
/// is reported is the least of them. The functions that it finds to store are those that do. The
/// types and arrays that it finds are those that the rules give, also where a rule is broken. It
/// does nothing.
pub fn rules_law()
    ensures rows { RowsLaw }
    ensures told { ToldLaw }
    ensures stores { StoresLaw }
    ensures types { TypesLaw }
    ensures arrays { ArraysLaw }
    ensures typed { TypedLaw }
{}
