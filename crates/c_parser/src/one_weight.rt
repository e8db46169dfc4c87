//! The laws of the tokens' weights.

ghost use Rattle.c_parser.specs.WeightLaw.{OneWeightEach, EqualWeights};

/// Each token of a program has one weight, which depends only on the tokens so far. The function
/// does nothing.
pub fn weight_law()
    ensures each { OneWeightEach }
    ensures equal { EqualWeights }
{}
