//! Laws of the definitions, as clauses.

ghost use Rattle.c_types.specs.LeastLaw.{LeastIsTold};

/// The broken rule that is reported is the least of those that are broken.
pub fn least_law()
    ensures { LeastIsTold }
{}
