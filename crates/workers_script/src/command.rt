//! The commands of a script of workers.

use cache_model::Choice;
use nvm_base::{List, Text, Words};

/// Numbers of workers, in the order of their turns.
pub type WorkerList = List<u32>;

/// One command. Workers are counted from 0.
#[derive(Drop)]
pub enum WorkersCommand {
    /// The worker begins a transaction.
    Start {
        worker: u32,
        name: Text,
        args: Words,
    },
    /// These workers have a turn each, in this order.
    Turn(WorkerList),
    /// All workers have turns in rounds, until each is idle.
    Finish,
    /// The power goes off after n events.
    Stop(u64),
    /// The device fails after n events.
    Fault(u64),
    /// A power cut, and its choice.
    Power(Choice),
    /// Prints the pool of a worker.
    Show(u32),
    /// Prints what the last transaction of a worker left.
    Last(u32),
}

/// Commands, in their order.
pub type WorkersScript = List<WorkersCommand>;
