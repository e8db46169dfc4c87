//! What a checked tree means: a transaction's value or trap, the pool after it, and its accesses to
//! the pool. It rests on the tables of `c_types` and on the pool of `pool_map`. It holds
//! definitions, and no code but the type of a trap with its place; `interpreter` runs those of the
//! meaning, and the laws speak of all.
#![tactic(auto)]

mod trap_at;

pub use trap_at::TrapAt;
