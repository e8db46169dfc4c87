//! From a checked tree to intermediate code. It rests on `c_types`, whose tables say what a name
//! means, and on `ir`, whose instructions it writes. Its one contract for the crates above: `lower`
//! answers the code that the definition gives for a tree that keeps the typing rules, one function
//! for each of the program's, in their order, and that code is well formed.
#![tactic(auto)]

mod assigned;
mod code;
mod expressions;
mod form;
mod functions;
mod names;
mod source;
mod statements;
mod variables;

pub use assigned::is_assigned;
pub use form::{Form, form_of};
pub use functions::lower;
pub use names::as_variable;
