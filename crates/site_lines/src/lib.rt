//! The lines of a program's store sites: the function, the source line, and what is written there.
//! It rests on `ir`. Its one contract for the crates above: the rows of all sites in code order,
//! and the line of a row or of a site, but for its last word.
#![tactic(auto)]

mod head;
mod names;
mod rows;

pub use head::{push_head, push_site_head};
pub use names::{field_name, field_of_struct, function_name, struct_name};
pub use rows::{Row, Rows, rows_of};
