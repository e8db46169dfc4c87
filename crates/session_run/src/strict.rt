//! Which answers a strict run doesn't take.

ghost use Rattle.std.specs.Prelude.{◌≡◌, ◌⊎◌, ◌||◌};
ghost use Rattle.session_run.specs.Strict.{is_refused, strict_status};

use crate::status::Status;
use cnvm_session::Answer;

/// Whether this is a trap that ends the use of the pool, a refusal, a device that failed, or want
/// of memory.
fn is_refused(answer: &Answer) -> bool
    ensures { result ≡ is_refused answer.now }
{
    match answer {
        Answer::Trap(_) | Answer::RecoveredTrap(_) => true,
        Answer::DeviceFault | Answer::NoMemory => true,
        Answer::RefusedDown | Answer::RefusedUnusable(_) | Answer::RefusedUnknown => true,
        Answer::RefusedArity | Answer::RefusedNumbers | Answer::RefusedPick(_) => true,
        _ => false,
    }
}

/// Whether this answer is such, or one before it was.
pub(crate) fn unmet_after(unmet: bool, answer: &Answer) -> bool
    ensures { result ≡ (unmet || is_refused answer.now) }
{
    unmet || is_refused(answer)
}

/// The status of a run that ended with this one. Without strictness an answer that isn't as it
/// should be changes nothing.
pub fn strict_status(strict: bool, ran: Status) -> Status
    ensures value { result ≡ strict_status strict ran }
    ensures same { (result ≡ ran) ⊎ ((result ≡ Status.Done) × (ran ≡ Status.Unmet)) }
{
    match ran {
        Status::Unmet if !strict => Status::Done,
        _ => ran,
    }
}
