//! Which transactions are marked `abort` or `const`, or return `uint64_t`, and whether a pool owes
//! one of the first or the last.

ghost use Rattle.std.specs.Prelude.{◌≡◌, ◌≤◌, true};
ghost use Rattle.cache_model.specs.Cache.{view};
ghost use Rattle.pool_layout.specs.Image.{is_sealed};
ghost use Rattle.cnvm_session.specs.Marks.{rolls_back_of, looks_of, policy_of, owes_marked};
ghost use Rattle.cnvm_session.specs.Marks.{unsigned_of, owes_unsigned};

use crate::program::Program;
use args_log::{PendingAnswer, pending};
use pm_machine::Policy;
use pmem::PmemWork;

/// Whether the transaction of that number is marked `abort`; no number past the last is.
#[tactic(auto, using(crate::proofs::Marking::marks))]
pub fn rolls_back(program: &Program, tx: u64) -> bool
    ensures { result ≡ rolls_back_of program.now tx }
{
    if tx < 1 || program.typed.txs() < tx {
        false
    } else {
        program.typed.rolls_back(tx)
    }
}

/// Whether the transaction of that number is marked `const`; no number past the last is.
#[tactic(auto, using(crate::proofs::Marking::looking))]
pub fn looks(program: &Program, tx: u64) -> bool
    ensures { result ≡ looks_of program.now tx }
{
    if tx < 1 || program.typed.txs() < tx {
        false
    } else {
        program.typed.looks(tx)
    }
}

/// What becomes of a trap: a marked transaction is rolled back, another one ends the pool.
pub fn policy_of(marked: bool) -> Policy
    ensures { result ≡ policy_of marked }
{
    if marked {
        Policy::RollBack
    } else {
        Policy::EndPool
    }
}

/// Whether a pool is sealed with a marked transaction.
pub fn owes_marked<P: PmemWork>(program: &Program, dev: &P) -> bool
    requires lines { 6 ≤ (P.device dev.now).lines }
    requires on { (P.device dev.now).on ≡ true }
    ensures value { result ≡ owes_marked program.now (P.device dev.now) }
    ensures sealed { result ≡ true → is_sealed (view (P.device dev.now).cache) ≡ true }
{
    match pending(dev) {
        PendingAnswer::Sealed { tx, args: _ } => rolls_back(program, tx),
        PendingAnswer::Nothing | PendingAnswer::Off => false,
    }
}

/// Whether the transaction of that number returns `uint64_t`; no number past the last does.
#[tactic(auto, using(crate::proofs::Marking::types))]
pub fn is_unsigned(program: &Program, tx: u64) -> bool
    ensures { result ≡ unsigned_of program.now tx }
{
    if tx < 1 || program.typed.txs() < tx {
        false
    } else {
        program.typed.unsigned(tx)
    }
}

/// Whether a pool is sealed with a transaction that returns `uint64_t`.
pub fn owes_unsigned<P: PmemWork>(program: &Program, dev: &P) -> bool
    requires lines { 6 ≤ (P.device dev.now).lines }
    requires on { (P.device dev.now).on ≡ true }
    ensures value { result ≡ owes_unsigned program.now (P.device dev.now) }
{
    match pending(dev) {
        PendingAnswer::Sealed { tx, args: _ } => is_unsigned(program, tx),
        PendingAnswer::Nothing | PendingAnswer::Off => false,
    }
}
