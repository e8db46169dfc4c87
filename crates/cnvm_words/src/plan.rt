//! What the words ask for, and why they may be refused.

use nvm_base::Text;
use std::alloc::AllocError;

/// What the command line asks for. `plan_of` keeps the numbers within their limits.
#[derive(Drop)]
pub enum Plan {
    /// Runs the script's commands on the program. `slots` is from 1 to 1,048,576, `records` from 1
    /// to 65,536 and `ticks` from 1 to 1,000,000. With `strict` an answer that is a trap or a
    /// refusal changes the status.
    Run {
        program_path: Text,
        script_path: Text,
        slots: u64,
        records: u64,
        ticks: u64,
        start_image: Option<Text>,
        end_image: Option<Text>,
        strict: bool,
    },
    /// Runs the script's commands on the pool of a file, which may be one of the program's former
    /// text. The sizes and `strict` are as for `Run`.
    RunPool {
        program_path: Text,
        script_path: Text,
        slots: u64,
        records: u64,
        ticks: u64,
        pool_path: Text,
        former_path: Option<Text>,
        strict: bool,
    },
    /// Answers lines as they come, on a new pool in memory. The sizes are as for `Run`.
    Serve {
        program_path: Text,
        slots: u64,
        records: u64,
        ticks: u64,
    },
    /// Answers lines as they come, on the pool of a file, as for `RunPool`.
    ServePool {
        program_path: Text,
        slots: u64,
        records: u64,
        ticks: u64,
        pool_path: Text,
        former_path: Option<Text>,
    },
    /// Prints the log marks of the program.
    List {
        program_path: Text,
    },
    /// Runs a generated script. `start` is at most 2,147,483,647, `count` at most 20,000, and
    /// `reach` from 1 to 1,000,000. With `plain` more is counted.
    Storm {
        program_path: Text,
        start: u64,
        count: u64,
        reach: u64,
        plain: bool,
        slots: u64,
        records: u64,
        ticks: u64,
    },
    /// Prints why each logged store of the program is logged.
    Why {
        program_path: Text,
    },
    /// Runs a script of several workers on one device. `workers` is from 1 to 8.
    Workers {
        program_path: Text,
        script_path: Text,
        workers: u64,
        slots: u64,
        records: u64,
        ticks: u64,
    },
    /// Runs a script of several workers on the compartments of a file. `workers` is from 1 to 8.
    WorkersPool {
        program_path: Text,
        script_path: Text,
        workers: u64,
        slots: u64,
        records: u64,
        ticks: u64,
        pool_path: Text,
    },
    /// Prints the program's transactions as C, or the header of that file. All names in it begin
    /// with the prefix, which is a name.
    Emit {
        program_path: Text,
        prefix: Text,
        header: bool,
        slots: u64,
        records: u64,
        ticks: u64,
    },
    /// Prints the program's intermediate code.
    Code {
        program_path: Text,
    },
}

/// Why words give no plan.
#[derive(Clone, Copy)]
pub enum WordsFault {
    /// The words ask for nothing that exists.
    Usage,
    NoMemory,
}

ghost use Rattle.cnvm_words.specs.declared.plan.WordsFault.TheVariants.{NoMemory};
ghost use Rattle.std.specs.Prelude.{◌≡◌};

impl From<AllocError> for WordsFault {
    ghost from_gives = { λ _ f. f ≡ NoMemory };

    fn from(_: AllocError) -> Self {
        WordsFault::NoMemory
    }
}
