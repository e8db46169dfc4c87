//! The laws of the definitions, for the crates above.

ghost use Rattle.pool_map.specs.Laws.{ObjectLaw, NewLaw, FieldLaw, RootLaw, LeastLaw};

/// The laws of the pool's map. The function does nothing.
pub fn laws()
    ensures object { ObjectLaw }
    ensures new { NewLaw }
    ensures field { FieldLaw }
    ensures root { RootLaw }
    ensures least { LeastLaw }
{}
