//! The commands of a script.

use cache_model::Choice;
use nvm_base::{List, Text, Words};

/// One command.
#[derive(Drop)]
pub enum Command {
    /// Runs a transaction.
    Call { name: Text, args: Words },
    /// The power goes off after n events.
    Stop(u64),
    /// The device fails after n events.
    Fault(u64),
    /// A power cut, and its choice.
    Power(Choice),
    /// Prints the pool.
    Show,
    /// Prints the pool, also one that a trap has ended.
    ShowDead,
    /// Prints what the last transaction left.
    Last,
}

/// Commands, in their order.
pub type Script = List<Command>;
