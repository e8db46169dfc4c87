//! The fragment of C that a machine's code is printed as: its text and its meaning. It rests on
//! the machine's instructions, and has no code. Its one contract for the crates above: the
//! definitions of `specs/`.
#![tactic(auto)]

use nvm_base::BinOp;
use pm_machine::Op;
