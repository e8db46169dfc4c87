//! Which stores are logged: a dataflow analysis. It rests on `ir`, whose walks say what a clobber
//! write is. A sweep goes through a function's code in order and changes one row of bits in place,
//! 16 fields at once; rows are joined at the targets of jumps, and sweeps are repeated until a
//! fixpoint is reached. What passes through a called function is a row for each column of its
//! entry, and what walks bring to a function is a row at its entry; a function is swept again only
//! if one of these grew. Its one contract for the crates above: in well formed code exactly the
//! sites are marked that have to be logged.
#![tactic(auto)]

mod calling;
mod carry;
mod classes;
mod entry;
mod flow;
mod growth;
mod mark_topics;
mod marking;
mod order;
mod passes;
mod place_marks;
mod row;
mod rows;
mod step;
mod sweep;
mod table;
mod tables;
mod topic;
mod waiting;

pub use marking::{MarkTable, marks};
