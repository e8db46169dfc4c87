//! The laws of the definitions, for the crates above.

ghost use Rattle.cache_model.specs.Laws.{StoreLaw, FlushLaw, FenceLaw, PlayLaw, CollapseLaw};

/// The laws of events and of power cuts. The function does nothing.
pub fn cache_laws()
    ensures store { StoreLaw }
    ensures flush { FlushLaw }
    ensures fence { FenceLaw }
    ensures play { PlayLaw }
    ensures collapse { CollapseLaw }
{}
