//! The machine: its instructions, a checked program of them, and a run on a device. It rests on
//! `clobber_log`, `pool_map` and `nvm_base`. Its one contract for the crates above: each step is
//! one line of the machine's table, on the device's view.
#![tactic(auto)]

mod answer;
mod effect;
mod find;
mod frame;
mod frames;
mod image;
mod laws;
mod machine;
mod op;
mod playing;
mod processor;
mod records;
mod silent;
mod spare;
mod stop;

pub use answer::RunAnswer;
pub use effect::{Effect, End};
pub use find::Found;
pub use frame::{Frame, RegisterWords};
pub use frames::Frames;
pub use image::{Image, ImageParts, ImageRefused};
pub use laws::machine_laws;
pub use machine::{Machine, Went};
pub use op::{Code, Function, Functions, Op, TxEntry, TxList};
pub use records::Policy;
pub use spare::Spare;
pub use stop::Stop;
