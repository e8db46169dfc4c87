//! The machine's code for `pm_new` and `pm_free`, and the checks and stores that they share with
//! all other code that reaches objects. It rests on `pm_machine` and `pool_layout`. Its one
//! contract for the crates above: each piece of code is that of its definition, whatever shape it
//! is asked for.
#![tactic(auto)]

mod checks;
mod fragment;
mod laws;
mod local;
mod objects;
mod placing;
mod stores;

pub use checks::{push_index_check, push_pointer_check};
pub use fragment::{FreeShape, NewShape, free_fragment, new_fragment};
pub use laws::{free_law, new_law, pointer_law, search_law};
pub use local::{Local, Locals, Reg};
pub use objects::{push_free, push_new};
pub use placing::{push_placed, sum};
pub use stores::{field_offset, push_store};
