//! The law of names, for a reader of `emit_text`'s clause.

ghost use Rattle.cnvm_emit.specs.Law.{AreApart, AreFree};

/// Two transactions of different names have functions of different names, and none has the name of
/// a function on pools. The function does nothing.
pub fn names_law()
    ensures apart { AreApart }
    ensures free { AreFree }
{}
