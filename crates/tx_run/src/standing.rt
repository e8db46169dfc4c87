//! Whether a pool takes a call.

ghost use Rattle.std.specs.Prelude.{◌≡◌, ◌≤◌, true, false, IfSome, IsNone, nat_lt, ◌^◌};
ghost use Rattle.cache_model.specs.Cache.{view};
ghost use Rattle.pool_map.specs.Trap.{trap_of};
ghost use Rattle.pm_machine.specs.Machine.{trap_at};
ghost use Rattle.tx_run.specs.Standing.{trap_of_mark, is_number, standing_of};

use pmem::PmemWork;
use pool_layout::{ATTEMPT, DONE, MARK, NUMBER_LIMIT};
use pool_map::TrapKind;

/// Whether a pool takes a call, according to its line 2.
#[derive(Clone, Copy, Drop)]
pub enum Standing {
    Ready,
    Unusable(TrapKind),
    Numbers,
    Off,
}

/// The trap of a mark. A mark that is no trap's number, which no pool holds, counts as `Depth`.
#[tactic(auto, using(std::proofs::lemmas::Int::wraps))]
pub fn marked_kind(mark: i64) -> TrapKind
    ensures { result ≡ trap_of_mark mark }
{
    match u32::try_from(mark) {
        Ok(number) => kind_at(number),
        Err(_) => TrapKind::Depth,
    }
}

/// The trap of a number, or `Depth` if there is none.
fn kind_at(number: u32) -> TrapKind
    ensures { result ≡ trap_at (trap_of number) }
{
    match TrapKind::of_number(number) {
        Some(kind) => kind,
        None => TrapKind::Depth,
    }
}

/// Whether a word is a number from 0 to 2^62 - 1, as a pool that takes a call has for its finished
/// calls and its attempt.
pub fn is_number(word: i64) -> bool
    ensures { result ≡ is_number word }
{
    match u64::try_from(word) {
        Ok(number) => number < NUMBER_LIMIT,
        Err(_) => false,
    }
}

/// Whether a pool takes a call: checks its mark, its number of finished calls and its attempt, in
/// this order.
pub fn assess<P: PmemWork>(dev: &P) -> Standing
    requires lines { 6 ≤ (P.device dev.now).lines }
    ensures on { (P.device dev.now).on ≡ true
        → result ≡ standing_of (view (P.device dev.now).cache) }
    ensures off { (P.device dev.now).on ≡ false → result ≡ Standing.Off }
{
    let Some(mark) = dev.load(MARK) else {
        return Standing::Off;
    };
    if mark != 0 {
        return Standing::Unusable(marked_kind(mark));
    }
    let Some(done) = dev.load(DONE) else {
        return Standing::Off;
    };
    let Some(attempt) = dev.load(ATTEMPT) else {
        return Standing::Off;
    };
    if is_number(done) && is_number(attempt) {
        Standing::Ready
    } else {
        Standing::Numbers
    }
}
