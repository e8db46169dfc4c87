//! A device of persistent memory: cache lines that may lose power or fail at any store, flush or
//! fence. It rests on the cache model. Its one contract for the crates above: which event is done,
//! which is refused and how, and the device after it, by `specs/Device.antt` and
//! `specs/Played.antt`.
#![tactic(auto)]

mod answer;
mod device;
pub mod events;
mod fail;
mod full_words;
mod kept_lines;
mod laws;
mod lines;
mod mem;
mod older;
mod sparse_lines;
mod switch;

pub use answer::{Event, LogAnswer, Phase, Refusal, StoreEvent};
pub use device::{Pmem, PmemWork};
pub use fail::FailPmem;
pub use laws::device_laws;
pub use lines::Lines;
pub use mem::{MemPmem, SimPmem, SparsePmem};
pub use sparse_lines::SparseLines;
pub use switch::Switch;
