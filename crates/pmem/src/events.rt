//! The three events of a device as results, so that code can play a list of them with `?`.

ghost use Rattle.std.specs.Prelude.{◌≡◌, ◌*◌, ◌<◌, [], ◌∷◌, OnOk, IfErr};
ghost use Rattle.cache_model.specs.Event.{Store, Flush, Fence};
ghost use Rattle.pmem.specs.Played.{PlaysAll, RefusesEvent};

use crate::answer::{Event, Refusal, StoreEvent};
use crate::device::PmemWork;

/// Stores a value at a word.
pub fn store<P: PmemWork>(dev: &mut P, word: u64, value: i64) -> Result<(), Refusal>
    requires { word < 8 * (P.device dev.old).lines }
    ensures done { OnOk result (PlaysAll (P.device dev.old) (Store word value ∷ [])
        (P.device dev.new)) }
    ensures refused { IfErr result (λ why. RefusesEvent why (P.device dev.old) (Store word value)
        (P.device dev.new)) }
    ensures lines { (P.device dev.new).lines ≡ (P.device dev.old).lines }
{
    match dev.store(word, value) {
        StoreEvent::Done => Ok(()),
        StoreEvent::Off => Err(Refusal::Off),
        StoreEvent::Failed => Err(Refusal::Failed),
        StoreEvent::NoMemory => Err(Refusal::NoMemory),
    }
}

/// Flushes a line.
pub fn flush<P: PmemWork>(dev: &mut P, line: u64) -> Result<(), Refusal>
    requires { line < (P.device dev.old).lines }
    ensures done { OnOk result (PlaysAll (P.device dev.old) (Flush line ∷ []) (P.device dev.new)) }
    ensures refused { IfErr result (λ why. RefusesEvent why (P.device dev.old) (Flush line)
        (P.device dev.new)) }
    ensures lines { (P.device dev.new).lines ≡ (P.device dev.old).lines }
{
    match dev.flush(line) {
        Event::Done => Ok(()),
        Event::Off => Err(Refusal::Off),
        Event::Failed => Err(Refusal::Failed),
    }
}

/// Fences all lines.
pub fn fence<P: PmemWork>(dev: &mut P) -> Result<(), Refusal>
    ensures done { OnOk result (PlaysAll (P.device dev.old) (Fence ∷ []) (P.device dev.new)) }
    ensures refused { IfErr result (λ why. RefusesEvent why (P.device dev.old) Fence
        (P.device dev.new)) }
    ensures lines { (P.device dev.new).lines ≡ (P.device dev.old).lines }
{
    match dev.fence() {
        Event::Done => Ok(()),
        Event::Off => Err(Refusal::Off),
        Event::Failed => Err(Refusal::Failed),
    }
}
