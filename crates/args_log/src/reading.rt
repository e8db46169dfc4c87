//! The call that a pool's record holds.

ghost use Rattle.std.specs.Prelude.{◌≡◌, ◌≤◌, ◌<◌, ◌+ℤ◌, pos, true, false, IfSome, IsSome, IsNone};
ghost use Rattle.std.specs.Ordering.{int_eq};
ghost use Rattle.cache_model.specs.Cache.{view};
ghost use Rattle.pool_layout.specs.Image.{is_sealed};
ghost use Rattle.args_log.specs.Pending.{HoldsArguments};
ghost use Rattle.args_log.specs.Reading.{Reads};

use nvm_base::natural_of;
use pmem::PmemWork;
use pool_layout::{ARGUMENTS, DONE, FIRST_ARGUMENT, FUNCTION, SEAL};

/// The content of a pool's record: no sealed call, or the number of its transaction and its
/// argument words, including those after the last argument.
#[derive(Clone, Copy, Drop)]
pub enum PendingAnswer {
    Nothing,
    Sealed { tx: u64, args: [i64; ARGUMENTS] },
    Off,
}

/// Whether a seal is one more than the number of finished calls.
fn is_next(seal: i64, done: i64) -> bool
    ensures { result ≡ int_eq seal (done +ℤ pos 1) }
{
    done < i64::MAX && seal == done + 1
}

/// Whether the record is sealed, or `None` while the device is off.
fn sealed<P: PmemWork>(dev: &P) -> Option<bool>
    requires lines { 6 ≤ (P.device dev.now).lines }
    ensures value { IfSome result (λ b. b ≡ is_sealed (view (P.device dev.now).cache)) }
    ensures on { IsSome result → (P.device dev.now).on ≡ true }
    ensures off { IsNone result → (P.device dev.now).on ≡ false }
{
    let seal = dev.load(SEAL)?;
    let done = dev.load(DONE)?;
    Some(is_next(seal, done))
}

/// A word of a device that is on.
fn word<P: PmemWork>(dev: &P, word: u64) -> i64
    requires inside { word < 48 }
    requires lines { 6 ≤ (P.device dev.now).lines }
    requires on { (P.device dev.now).on ≡ true }
    ensures { result ≡ view (P.device dev.now).cache word }
{
    match dev.load(word) {
        Some(word) => word,
        None => unreachable!(),
    }
}

/// The argument words of a device that is on.
fn arguments<P: PmemWork>(dev: &P) -> [i64; ARGUMENTS]
    requires lines { 6 ≤ (P.device dev.now).lines }
    requires on { (P.device dev.now).on ≡ true }
    ensures { HoldsArguments (view (P.device dev.now).cache) result }
{
    let mut args = [0; ARGUMENTS];
    for k in 0..ARGUMENTS {
        args[k] = word(dev, FIRST_ARGUMENT + k as u64);
    }
    args
}

/// The sealed record of a device that is on.
fn record<P: PmemWork>(dev: &P) -> PendingAnswer
    requires lines { 6 ≤ (P.device dev.now).lines }
    requires on { (P.device dev.now).on ≡ true }
    requires sealed { is_sealed (view (P.device dev.now).cache) ≡ true }
    ensures { Reads result (view (P.device dev.now).cache) }
{
    let tx = natural_of(word(dev, FUNCTION));
    let args = arguments(dev);
    PendingAnswer::Sealed { tx, args }
}

/// The sealed call that waits in the pool's record, if there is one. It takes no memory and plays
/// no event.
pub fn pending<P: PmemWork>(dev: &P) -> PendingAnswer
    requires lines { 6 ≤ (P.device dev.now).lines }
    ensures read { (P.device dev.now).on ≡ true → Reads result (view (P.device dev.now).cache) }
    ensures off { (P.device dev.now).on ≡ false → result ≡ PendingAnswer.Off }
{
    match sealed(dev) {
        None => PendingAnswer::Off,
        Some(false) => PendingAnswer::Nothing,
        Some(true) => record(dev),
    }
}
