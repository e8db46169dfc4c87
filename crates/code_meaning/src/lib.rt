//! The meaning of intermediate code over pools, its loads and stores, and which stores are logged.
//! It rests on `ir`, `pool_map` and `pool_layout`, and has no code. Its one contract for the crates
//! above: the definitions of `specs/`, and the law that the effects of a run don't depend on the
//! number of steps it was allowed.
#![tactic(auto)]

ghost use Rattle.code_meaning.specs.Law.{DeedsLaw, EndLaw};

/// A run that ended has one end and one list of loads and stores, whatever number of steps it was
/// allowed. The function does nothing.
pub fn law()
    ensures end { EndLaw }
    ensures deeds { DeedsLaw }
{}
