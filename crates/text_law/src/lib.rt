//! What a program's text means to its user, once for all of its runs: its declarations, and how
//! many log records each call takes. It stands on `user_law` and `compiled_law`. Its one contract:
//! the laws of `specs/Law.antt`, each a clause of a function that does nothing.
#![tactic(auto)]

ghost use Rattle.text_law.specs.Law.{TextLaw, UserRunLaw};

/// Of a compiled text: one function counts the log records of its calls, whatever the sizes of the
/// pool, the script and the device are; and each session on a new pool is a run as its user sees
/// it. It does nothing.
pub fn text_law()
    ensures text { TextLaw }
    ensures run { UserRunLaw }
{}
