//! The tree of a program, and the grammar: which tokens spell which tree. It rests on `c_lexer`.
//! `c_parser` makes the tree; the typing rules, the meaning and the compiler read it.
#![tactic(auto)]

mod ast;
pub mod expr;
pub mod item;
mod kind;
pub mod stmt;

pub use ast::Ast;
pub use kind::{Kind, kind_at, name_at, place_after, value_at};
