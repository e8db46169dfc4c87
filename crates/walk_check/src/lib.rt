//! Certificates of why a store is logged, and their checker. It rests on `ir` alone, and knows no
//! analysis. Its one contract for the crates above: `check` says exactly what is wrong first, and
//! if it answers Ok, each listed site is logged. Its rules are public, for makers of certificates.
#![tactic(auto)]

mod certificate;
mod checker;
mod follow;
pub mod laws;
mod piece;
mod table;
mod there;
mod walk;

pub use certificate::{
    Certificate, Class, Fact, Piece, Pieces, Reason, Reasons, Step, StepList, Walk,
};
pub use checker::{CheckFault, check};
pub use follow::{binds, fact_of, leads, same, told};
pub use piece::{begun, first_fact, follows, last_fact};
pub use table::origins;
pub use there::{instruction_at, is_there};
