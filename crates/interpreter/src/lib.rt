//! An interpreter of the checked tree, with which every compiled run is compared. It rests on
//! `c_meaning`, which says what a tree means, and on the pool of `pool_map`, and knows no machine,
//! log or device. Its one contract for the crates above: `plain_call` runs one transaction on a
//! copy of a pool and answers what the tree means, and `trap_place` tells the place where it traps.
#![tactic(auto)]

mod access;
mod answer;
mod entry;
mod expressions;
mod fault;
mod interpreter;
mod locals;
mod operators;
mod places;
mod run;
mod stacks;
mod statements;
mod work;

pub use answer::PlainAnswer;
pub use interpreter::{plain_call, trap_place};
