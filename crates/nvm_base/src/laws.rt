//! Laws of the words that contracts cite. The functions do nothing; their clauses are the laws.

ghost use Rattle.std.specs.Prelude.{ℤ};
ghost use Rattle.nvm_base.specs.WordLaws.{UnsignedIsModulo, PlacesIsModulo, ShiftRoundsDown};
ghost use Rattle.nvm_base.specs.WordLaws.{EqCompares, AndIsBitwise, OrIsBitwise, XorIsBitwise};
ghost use Rattle.nvm_base.specs.Wrap.{Wraps};
ghost use Rattle.nvm_base.specs.Division.{DivisionLaw};

/// A number wraps to the one word that differs from it by a multiple of 2^64.
pub fn wrap_law()
    ensures { (x : ℤ) → Wraps x }
{}

/// The meaning of the operations' words.
pub fn word_laws()
    ensures unsigned { UnsignedIsModulo }
    ensures places { PlacesIsModulo }
    ensures shift { ShiftRoundsDown }
    ensures equal { EqCompares }
    ensures and { AndIsBitwise }
    ensures or { OrIsBitwise }
    ensures xor { XorIsBitwise }
{}

/// A quotient is truncated toward zero, and the rest is what the quotient leaves.
pub fn division_law()
    ensures { DivisionLaw }
{}
