//! A law of the definitions, as a clause.

ghost use Rattle.codegen.specs.Law.{EmitsGood};

/// No place of the code of a well formed program is bad code for the machine.
pub fn good_law()
    ensures { EmitsGood }
{}
