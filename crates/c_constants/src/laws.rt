//! The law of the tokens that are left, for the laws of the crates above.

ghost use Rattle.c_constants.specs.Laws.{TokensLeftLaw};

/// Of a list whose numbers are words at most 16,384 tokens are left, and their numbers are words.
/// The function does nothing.
pub fn left_law()
    ensures { TokensLeftLaw }
{}
