//! Adding the logs to the code. It rests on `ir` and `clobber_pass`, whose marks say which stores
//! are logged. Its one contract for the crates above: a log comes right before a store, and a `new`
//! has its flag, exactly if the marks say so, and nothing else of the code is changed.
#![tactic(auto)]

mod add;
mod places;

pub use add::add_logs;
