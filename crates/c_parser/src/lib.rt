//! From the tokens of a program to its tree. It rests on `c_tree`, which says what tree the tokens
//! spell. Its one contract for the crates above: `parse` answers exactly that tree, if no token of
//! it is too heavy, and refuses any other list at the first token that continues no program or is
//! too deep.
#![tactic(auto)]

mod build_expr;
mod build_item;
mod build_stmt;
mod fault;
mod judge;
mod one_weight;
mod parser;
mod want;

pub use fault::ParseFault;
pub use one_weight::weight_law;
pub use parser::parse;
