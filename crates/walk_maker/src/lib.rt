//! The maker of certificates. For each store site it walks back from the store, through the facts
//! that give a fact, to a transaction's entry. It rests on `walk_check`, whose rules it tries. Its
//! one contract for the crates above: the certificate lists exactly the logged sites, in code
//! order, and keeps the checker's rules; and its text is exact.
#![tactic(auto)]

mod calls;
mod expand;
mod jumps;
mod reading;
mod reasons;
mod search;
mod shared;
mod table;
mod text;
mod trails;

pub use reasons::explain;
pub use text::why_text;
