//! Messages of traps and refused commands.

use crate::told::Told;
use std::alloc::{AllocError, Global};

/// A trap by the name that answers print, in words, and with its remedy.
#[derive(Clone, Copy)]
struct Trap {
    name: &'static str,
    words: &'static str,
    remedy: &'static str,
}

/// All traps.
const TRAPS: [Trap; 8] = [
    Trap {
        name: "null",
        words: "a pointer that is NULL was followed or freed",
        remedy: "test what `pm_new` and a search give",
    },
    Trap {
        name: "stale",
        words: "a pointer led to a slot that is free or holds another struct",
        remedy: "set each pointer to NULL when its object is freed",
    },
    Trap {
        name: "index",
        words: "an index was outside of its array",
        remedy: "test an argument before it is an index",
    },
    Trap {
        name: "divide",
        words: "a number was divided by 0",
        remedy: "test the divisor before `/` and `%`",
    },
    Trap {
        name: "steps",
        words: "the transaction needs more ticks than it has",
        remedy: "do less in one call, or give more with `--ticks`, up to 1000000, to a new pool",
    },
    Trap {
        name: "abort",
        words: "`abort()` was reached",
        remedy: "return a value of its own where nothing is broken",
    },
    Trap {
        name: "logfull",
        words: "a store has to be logged, and the log is full",
        remedy: "do less in one call, or give a new pool more records with `--log`, up to 65536",
    },
    Trap {
        name: "depth",
        words: "more than 256 functions would be open",
        remedy: "write a loop in place of the recursion",
    },
];

/// What a trap leaves of the pool.
#[derive(Clone, Copy)]
pub enum PoolLeft {
    /// It takes no more calls.
    Unusable,
    /// It is as it was before the call.
    Restored,
}

/// The trap of this name in words.
pub(crate) fn trap_words(kind: &str) -> &str {
    match trap_of(&TRAPS, kind) {
        Some(trap) => trap.words,
        None => kind,
    }
}

fn trap_of(traps: &[Trap], kind: &str) -> Option<Trap> {
    for trap in traps {
        if trap.name == kind {
            return Some(*trap);
        }
    }
    None
}

/// The message of a trap in a call of this transaction, from this line of the script. Line 0 is the
/// recovery that opens an image.
pub fn of_trap(
    alloc: Global,
    script: &str,
    line: u64,
    transaction: &str,
    kind: &str,
    left: PoolLeft,
) -> Result<Told, AllocError> {
    let call = call_text(alloc, script, line, transaction)?;
    trapped(alloc, call.as_str(), kind, left)
}

/// The message of a trap in a transaction of this worker, begun by this line of the script. An
/// empty transaction isn't known.
pub fn of_worker_trap(
    alloc: Global,
    script: &str,
    line: u64,
    transaction: &str,
    worker: u64,
    kind: &str,
    left: PoolLeft,
) -> Result<Told, AllocError> {
    let call = worker_text(alloc, script, line, transaction, worker)?;
    trapped(alloc, call.as_str(), kind, left)
}

/// The call of a worker in words.
fn worker_text(
    alloc: Global,
    script: &str,
    line: u64,
    transaction: &str,
    worker: u64,
) -> Result<String, AllocError> {
    if transaction.is_empty() {
        return format!(in alloc; "worker {worker}");
    }
    format!(in alloc; "{script}:{line}: `{transaction}` of worker {worker}")
}

/// The message of a storm in which this call of this round trapped. An empty call isn't known.
pub fn of_storm_trap(
    alloc: Global,
    round: u64,
    call: &str,
    kind: &str,
) -> Result<Told, AllocError> {
    let call = storm_text(alloc, round, call)?;
    let told = trapped(alloc, call.as_str(), kind, PoolLeft::Unusable)?;
    told.with(alloc, "so the storm was over: each later call was refused")
}

/// The message of a storm in which this call of `check` in this round didn't give 1. An empty call
/// isn't known.
pub fn of_broken_check(alloc: Global, round: u64, call: &str) -> Result<Told, AllocError> {
    let call = storm_text(alloc, round, call)?;
    let what = format!(in alloc; "{call} gave another value than 1")?;
    let note = "`tools/shrink` prints a short script that shows it";
    Told::of(alloc, what.as_str(), &[note])
}

/// The call of a storm in words.
fn storm_text(alloc: Global, round: u64, call: &str) -> Result<String, AllocError> {
    if call.is_empty() {
        return String::from_str(alloc, "the storm: a transaction");
    }
    format!(in alloc; "the storm, round {round}: `{call}`")
}

fn trapped(alloc: Global, call: &str, kind: &str, left: PoolLeft) -> Result<Told, AllocError> {
    let words = trap_words(kind);
    let what = format!(in alloc; "{call} trapped: {words}")?;
    match trap_of(&TRAPS, kind) {
        Some(trap) => Told::of(alloc, what.as_str(), &[remedy(trap, left), left_note(left)]),
        None => Told::new(alloc, what.as_str()),
    }
}

/// The remedy of a trap. `abort()` in a transaction that rolls back needs none.
fn remedy(trap: Trap, left: PoolLeft) -> &'static str {
    match left {
        PoolLeft::Restored if trap.name == "abort" => "",
        _ => trap.remedy,
    }
}

/// What is left of the pool.
fn left_note(left: PoolLeft) -> &'static str {
    match left {
        PoolLeft::Unusable => "the pool takes no more calls; the stores before the trap stand",
        PoolLeft::Restored => {
            "the pool was restored as it was before the call, and takes further calls"
        }
    }
}

/// The call in words.
fn call_text(
    alloc: Global,
    script: &str,
    line: u64,
    transaction: &str,
) -> Result<String, AllocError> {
    if line == 0 {
        return opening_text(alloc, transaction);
    }
    if transaction.is_empty() {
        return format!(in alloc; "{script}:{line}: the owed transaction");
    }
    format!(in alloc; "{script}:{line}: `{transaction}`")
}

/// The recovery that opens an image, in words.
fn opening_text(alloc: Global, transaction: &str) -> Result<String, AllocError> {
    if transaction.is_empty() {
        return String::from_str(alloc, "the recovery of the opened image");
    }
    format!(in alloc; "the recovery of the opened image: `{transaction}`")
}
