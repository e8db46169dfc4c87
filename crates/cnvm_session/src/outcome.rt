//! How the answer of a call or of a recovery leaves a session.

ghost use Rattle.std.specs.Prelude.{◌≡◌};
ghost use Rattle.cnvm_session.specs.Outcomes.{answer_of_call, mode_of_call, answer_of_recovery};
ghost use Rattle.cnvm_session.specs.Outcomes.{mode_of_recovery, answer_of_look, mode_of_look};

use crate::answer::Answer;
use crate::mode::Mode;
use pmem::Phase;
use recovery::RecoverAnswer;
use tx_run::{CallAnswer, LookAnswer};

/// What a command answers after a call, by whether the transaction returns `uint64_t`.
#[tactic(auto, using(std::proofs::lemmas::Int::wraps))]
pub fn answer_of_call(unsigned: bool, tx_answer: CallAnswer) -> Answer
    ensures { result ≡ answer_of_call unsigned tx_answer }
{
    match tx_answer {
        CallAnswer::Done { value, logged } => Answer::Done {
            value,
            unsigned,
            logged,
        },
        CallAnswer::Trap(kind) => Answer::Trap(kind),
        CallAnswer::Aborted(kind) => Answer::Aborted(kind),
        CallAnswer::Off(phase) => Answer::Stopped(phase),
        CallAnswer::Failed => Answer::DeviceFault,
        CallAnswer::Unusable(kind) => Answer::RefusedUnusable(kind),
        CallAnswer::Numbers => Answer::RefusedNumbers,
        CallAnswer::NoMemory => Answer::NoMemory,
    }
}

/// The mode after a call of a session that was ready.
pub fn mode_of_call(tx_answer: CallAnswer) -> Mode
    ensures { result ≡ mode_of_call tx_answer }
{
    match tx_answer {
        CallAnswer::Done { .. } | CallAnswer::Aborted(_) | CallAnswer::Numbers => Mode::Ready,
        CallAnswer::Trap(kind) => Mode::Unusable(kind),
        CallAnswer::Unusable(kind) => Mode::Unusable(kind),
        CallAnswer::Off(_) | CallAnswer::Failed | CallAnswer::NoMemory => Mode::Down,
    }
}

/// What a command answers after a look, by whether the transaction returns `uint64_t`.
#[tactic(auto, using(std::proofs::lemmas::Int::wraps))]
pub fn answer_of_look(unsigned: bool, seen: LookAnswer) -> Answer
    ensures { result ≡ answer_of_look unsigned seen }
{
    match seen {
        LookAnswer::Done(value) => Answer::Done {
            value,
            unsigned,
            logged: 0,
        },
        LookAnswer::Aborted(kind) => Answer::Aborted(kind),
        LookAnswer::Off => Answer::Stopped(Phase::Unsealed),
        LookAnswer::NoMemory => Answer::NoMemory,
    }
}

/// The mode after a look of a session that was ready.
pub fn mode_of_look(seen: LookAnswer) -> Mode
    ensures { result ≡ mode_of_look seen }
{
    match seen {
        LookAnswer::Done(_) | LookAnswer::Aborted(_) => Mode::Ready,
        LookAnswer::Off | LookAnswer::NoMemory => Mode::Down,
    }
}

/// What a command answers after a recovery, by whether the owed transaction returns `uint64_t`.
#[tactic(auto, using(std::proofs::lemmas::Int::wraps))]
pub fn answer_of_recovery(unsigned: bool, tx_answer: RecoverAnswer) -> Answer
    ensures { result ≡ answer_of_recovery unsigned tx_answer }
{
    match tx_answer {
        RecoverAnswer::Clean => Answer::RecoveredNone,
        RecoverAnswer::Redone { value, logged } => Answer::RecoveredRedone {
            value,
            unsigned,
            logged,
        },
        RecoverAnswer::Trap(kind) => Answer::RecoveredTrap(kind),
        RecoverAnswer::Aborted(kind) => Answer::RecoveredAborted(kind),
        RecoverAnswer::Unusable(kind) => Answer::RefusedUnusable(kind),
        RecoverAnswer::Numbers => Answer::RefusedNumbers,
        RecoverAnswer::Off(phase) => Answer::Stopped(phase),
        RecoverAnswer::Failed => Answer::DeviceFault,
        RecoverAnswer::NoMemory => Answer::NoMemory,
    }
}

/// The mode after a recovery.
pub fn mode_of_recovery(tx_answer: RecoverAnswer) -> Mode
    ensures { result ≡ mode_of_recovery tx_answer }
{
    match tx_answer {
        RecoverAnswer::Clean | RecoverAnswer::Redone { .. } | RecoverAnswer::Aborted(_) => {
            Mode::Ready
        }
        RecoverAnswer::Trap(kind) => Mode::Unusable(kind),
        RecoverAnswer::Unusable(kind) => Mode::Unusable(kind),
        RecoverAnswer::Numbers
        | RecoverAnswer::Off(_)
        | RecoverAnswer::Failed
        | RecoverAnswer::NoMemory => Mode::Down,
    }
}
