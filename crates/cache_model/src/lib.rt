//! A model of persistent memory: cache lines of eight words that keep their older versions until a
//! fence drops them. It rests on the standard library alone. Its one contract for the crates above:
//! each call does to the cache what `specs/Play.antt` and `specs/Collapse.antt` say, and nothing
//! else.
#![tactic(auto)]

mod cache;
mod choice;
mod laws;
mod line;

pub use cache::Cache;
pub use choice::{BadPick, Choice, Pick, PickFault, Picks, Rest};
pub use laws::cache_laws;
