//! What the call `cnvm` means to its user: a run on a new pool is a chain of the user's steps, by
//! the one meaning of the program's text. It stands on `cnvm_cli`, whose clause `source` says what
//! a call means, and on `text_law`. Its one contract: the laws of `specs/Law.antt`, each a clause
//! of a function that does nothing.
#![tactic(auto)]

ghost use Rattle.call_law.specs.Law.{MeaningLaw, UserCallLaw, UserPartLaw};

/// A text that is accepted has one meaning for all of its calls. By it a call that runs a script on
/// a new pool, and saves nothing, is a run as its user sees it; where its writing failed, it is the
/// first part of one. It does nothing.
pub fn call_law()
    ensures meaning { MeaningLaw }
    ensures call { UserCallLaw }
    ensures part { UserPartLaw }
{}
