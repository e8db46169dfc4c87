//! The law of a text's refusals, for a reader of `compile`'s clauses.

ghost use Rattle.cnvm_compile.specs.OneAnswer.{OneAnswer};

/// One text has one answer of the front end: at most one refusal, none of the lexer, the constants
/// or the parser if it has a tree, and none at all if it has a tree that breaks no rule; want of
/// memory is left aside. The function does nothing.
pub fn answer_law()
    ensures { OneAnswer }
{}
