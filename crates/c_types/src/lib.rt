//! The typing rules of a program. It rests on `c_tree`'s trees and gives `pool_map`'s shapes. Its
//! one contract for the crates above: `check` answers a tree that breaks no rule, or the rule that
//! is broken at the least token, and at that token the one with the least number.
#![tactic(auto)]

mod broken;
mod checking;
mod declarations;
mod expressions;
mod fault;
mod laws;
mod layout;
mod looking;
mod names;
mod program;
mod rules;
mod scopes;
mod shapes;
mod statements;
mod transactions;
mod typed;
mod typing;
mod value_type;

pub use checking::check;
pub use fault::{LimitKind, TypeFault};
pub use laws::least_law;
pub use layout::Layout;
pub use program::Program;
pub use scopes::Scopes;
pub use typed::Typed;
pub use typing::{kind_of, sides_type, type_of};
pub use value_type::{Kind, ValueType};
