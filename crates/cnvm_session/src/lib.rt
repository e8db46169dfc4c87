//! The commands of a script, run on the pool of a program, and their answers. It rests on `tx_run`
//! and `recovery`, and on `c_types` for the program's names, shapes and marks. Its one contract for
//! the crates above: each command does to the session and the device what `specs/Commands.antt`
//! says, and `answer_text` writes exactly the line of each answer.
#![tactic(auto)]

mod answer;
mod creating;
mod former;
mod law;
mod marks;
mod mode;
mod moving;
mod opening;
mod outcome;
mod program;
mod session;
mod showing;
mod text;
mod traps;

pub use answer::Answer;
pub use creating::StartFault;
pub use former::first_other;
pub use law::laws;
pub use marks::{is_unsigned, looks, owes_marked, owes_unsigned, policy_of, rolls_back};
pub use mode::Mode;
pub use moving::move_pool;
pub use opening::{open_lines, open_pool};
pub use outcome::answer_of_recovery;
pub use program::Program;
pub use session::{Session, create, first_fallen, parameters, resume, start_from};
pub use showing::{pool_in, pool_text};
pub use text::answer_text;
pub use traps::{StormCall, Trapped, Traps};
