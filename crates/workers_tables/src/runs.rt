//! A run of workers in rounds or in a given order, up to a cut, and the recovery of all
//! compartments.

ghost use Rattle.std.specs.Prelude.{◌≡◌, ◌≤◌, ◌<◌, ◌^◌, true, false, length};
ghost use Rattle.pool_workers.specs.Crew.{AreTasks, AreUncut, HasCompartments};
ghost use Rattle.pool_workers.specs.Task.{IsGoing};

use cache_model::{Choice, Picks, Rest};
use nvm_base::Steps;
use pm_machine::{Image, Policy};
use pmem::{Phase, Pmem, PmemWork};
use pool_layout::{DONE, heap_start};
use pool_workers::{TurnAnswer, Workers, first_line};
use recovery::RecoverAnswer;
use std::alloc::Global;
use std::sync::ledger::Ledger;

/// The last answers of the workers' turns, their phases, the answers of their recoveries, and what
/// their compartments hold afterwards: heap word 0 and the number of finished calls.
#[derive(Clone, Copy, Debug, PartialEq, Eq)]
pub struct Seen {
    pub turns: [TurnAnswer; 8],
    pub phases: [Option<Phase>; 8],
    pub recovered: [RecoverAnswer; 8],
    pub counters: [Option<i64>; 8],
    pub done: [Option<i64>; 8],
}

/// A power cut that leaves each line at its oldest version, or each at its newest.
fn power<P: Pmem>(alloc: Global, dev: &mut P, rest: Rest)
    ensures { (P.device dev.new).lines ≡ (P.device dev.old).lines }
{
    let choice = Choice {
        rest,
        picks: Picks::new(alloc),
    };
    let _ = dev.power(&choice);
}

/// Whether a turn was refused.
fn is_refused(answer: TurnAnswer) -> bool
    ensures { result ≡ false → IsGoing answer }
{
    match answer {
        TurnAnswer::Off | TurnAnswer::Failed | TurnAnswer::NoMemory => true,
        TurnAnswer::Idle
        | TurnAnswer::Went
        | TurnAnswer::Done { .. }
        | TurnAnswer::Trap(_)
        | TurnAnswer::Aborted(_) => false,
    }
}

/// One turn of each worker, up to the first that is refused. Records the answer of each worker that
/// wasn't idle.
fn round<P: Pmem + Drop, L: Ledger>(
    workers: &mut Workers,
    image: &Image,
    dev: &mut P,
    steps: &mut Steps<L>,
    seen: &mut [TurnAnswer; 8],
) -> bool
    requires tasks { AreTasks image.now workers.old }
    requires uncut { AreUncut workers.old }
    requires lines { HasCompartments image.now workers.old (P.device dev.old) }
    ensures tasks { AreTasks image.now workers.new }
    ensures uncut { result ≡ true → AreUncut workers.new }
    ensures lines { HasCompartments image.now workers.new (P.device dev.new) }
    ensures count { length workers.new ≡ length workers.old }
{
    for worker in 0..workers.count() {
        let answer = workers.turn(image, worker, dev, steps);
        if answer != TurnAnswer::Idle {
            seen[(worker % 8) as usize] = answer;
        }
        if is_refused(answer) {
            return false;
        }
    }
    true
}

/// Rounds, up to the first turn that is refused.
fn rounds<P: Pmem + Drop, L: Ledger>(
    workers: &mut Workers,
    image: &Image,
    dev: &mut P,
    steps: &mut Steps<L>,
) -> [TurnAnswer; 8]
    requires tasks { AreTasks image.now workers.old }
    requires uncut { AreUncut workers.old }
    requires lines { HasCompartments image.now workers.old (P.device dev.old) }
    ensures tasks { AreTasks image.now workers.new }
    ensures lines { HasCompartments image.now workers.new (P.device dev.new) }
    ensures count { length workers.new ≡ length workers.old }
{
    let mut seen = [TurnAnswer::Idle; 8];
    for _ in 0..20 {
        if !round(workers, image, dev, steps, &mut seen) {
            return seen;
        }
    }
    seen
}

/// Turns of two workers in an order, up to the first that is refused. Digit k of the order in base
/// 2 is the worker whose turn comes after k others; there are at most 20.
fn ordered<P: Pmem + Drop, L: Ledger>(
    workers: &mut Workers,
    image: &Image,
    order: u64,
    dev: &mut P,
    steps: &mut Steps<L>,
) -> [TurnAnswer; 8]
    requires two { 2 ≤ length workers.old }
    requires tasks { AreTasks image.now workers.old }
    requires uncut { AreUncut workers.old }
    requires lines { HasCompartments image.now workers.old (P.device dev.old) }
    ensures tasks { AreTasks image.now workers.new }
    ensures lines { HasCompartments image.now workers.new (P.device dev.new) }
    ensures count { length workers.new ≡ length workers.old }
{
    let mut seen = [TurnAnswer::Idle; 8];
    let mut left = order;
    for _ in 0..20 {
        let worker = (left % 2) as u32;
        let answer = workers.turn(image, worker, dev, steps);
        if answer != TurnAnswer::Idle {
            seen[(worker % 8) as usize] = answer;
        }
        if is_refused(answer) {
            return seen;
        }
        left /= 2;
    }
    seen
}

/// Each worker begins the first transaction, with its own number plus one as the argument.
pub fn begin_all<P: Pmem>(workers: &mut Workers, image: &Image, dev: &P)
    requires txs { 1 ≤ length image.now.parts.txs }
    requires tasks { AreTasks image.now workers.old }
    requires uncut { AreUncut workers.old }
    requires lines { HasCompartments image.now workers.old (P.device dev.now) }
    ensures tasks { AreTasks image.now workers.new }
    ensures uncut { AreUncut workers.new }
    ensures lines { HasCompartments image.now workers.new (P.device dev.now) }
    ensures count { length workers.new ≡ length workers.old }
{
    for worker in 0..workers.count() {
        let _ = workers.begin(image, worker, 1, &[i64::from(worker) + 1], false, dev);
    }
}

/// Recovers each compartment, from 0 on.
fn recover_all<P: Pmem + Drop, L: Ledger>(
    workers: &mut Workers,
    image: &Image,
    dev: &mut P,
    steps: &mut Steps<L>,
) -> [RecoverAnswer; 8]
    requires tasks { AreTasks image.now workers.old }
    requires lines { HasCompartments image.now workers.old (P.device dev.old) }
    ensures tasks { AreTasks image.now workers.new }
    ensures lines { HasCompartments image.now workers.new (P.device dev.new) }
    ensures count { length workers.new ≡ length workers.old }
{
    let mut seen = [RecoverAnswer::Clean; 8];
    for worker in 0..workers.count() {
        seen[(worker % 8) as usize] = workers.recover_one(
            image,
            worker,
            Policy::EndPool,
            dev,
            steps,
        );
    }
    seen
}

/// A word of a compartment, if it lies within the device.
fn word_of<P: Pmem>(image: &Image, dev: &P, worker: u32, at: u64) -> Option<i64>
    requires worker { worker < 8 }
    requires small { at < 2 ^ 32 }
{
    let word = 8 * first_line(image.sizes(), worker) + at;
    if word / 8 < dev.lines() {
        dev.load(word)
    } else {
        None
    }
}

/// The same word of each compartment.
fn words_at<P: Pmem>(image: &Image, dev: &P, at: u64) -> [Option<i64>; 8]
    requires { at < 2 ^ 32 }
{
    let mut seen = [None; 8];
    for worker in 0..8 {
        seen[(worker % 8) as usize] = word_of(image, dev, worker, at);
    }
    seen
}

/// The phases of the workers.
fn phases(workers: &Workers) -> [Option<Phase>; 8] {
    let mut seen = [None; 8];
    for worker in 0..workers.count() {
        seen[(worker % 8) as usize] = workers.phase(worker);
    }
    seen
}

/// A power cut after these last answers, and the recovery of all compartments.
fn recovered<P: Pmem + Drop, L: Ledger>(
    alloc: Global,
    workers: &mut Workers,
    image: &Image,
    turns: [TurnAnswer; 8],
    rest: Rest,
    dev: &mut P,
    steps: &mut Steps<L>,
) -> Seen
    requires tasks { AreTasks image.now workers.old }
    requires lines { HasCompartments image.now workers.old (P.device dev.old) }
    ensures tasks { AreTasks image.now workers.new }
    ensures lines { HasCompartments image.now workers.new (P.device dev.new) }
    ensures count { length workers.new ≡ length workers.old }
{
    let phases = phases(workers);
    power(alloc, dev, rest);
    dev.arm(1000);
    let recovered = recover_all(workers, image, dev, steps);
    let counters = words_at(image, dev, heap_start(image.sizes()));
    let done = words_at(image, dev, DONE);
    Seen {
        turns,
        phases,
        recovered,
        counters,
        done,
    }
}

/// Rounds up to a turn that is refused; then a power cut, and the recovery of all compartments.
pub fn cut_and_recover<P: Pmem + Drop, L: Ledger>(
    alloc: Global,
    workers: &mut Workers,
    image: &Image,
    rest: Rest,
    dev: &mut P,
    steps: &mut Steps<L>,
) -> Seen
    requires tasks { AreTasks image.now workers.old }
    requires uncut { AreUncut workers.old }
    requires lines { HasCompartments image.now workers.old (P.device dev.old) }
    ensures tasks { AreTasks image.now workers.new }
    ensures lines { HasCompartments image.now workers.new (P.device dev.new) }
    ensures count { length workers.new ≡ length workers.old }
{
    let turns = rounds(workers, image, dev, steps);
    recovered(alloc, workers, image, turns, rest, dev, steps)
}

/// The same after turns of two workers in an order, as `ordered` reads it.
pub fn order_and_recover<P: Pmem + Drop, L: Ledger>(
    alloc: Global,
    workers: &mut Workers,
    image: &Image,
    order: u64,
    rest: Rest,
    dev: &mut P,
    steps: &mut Steps<L>,
) -> Seen
    requires two { 2 ≤ length workers.old }
    requires tasks { AreTasks image.now workers.old }
    requires uncut { AreUncut workers.old }
    requires lines { HasCompartments image.now workers.old (P.device dev.old) }
    ensures tasks { AreTasks image.now workers.new }
    ensures lines { HasCompartments image.now workers.new (P.device dev.new) }
    ensures count { length workers.new ≡ length workers.old }
{
    let turns = ordered(workers, image, order, dev, steps);
    recovered(alloc, workers, image, turns, rest, dev, steps)
}

/// Whether a compartment holds what the phase of its worker's transaction and the power cut leave:
/// nothing of a transaction that wasn't sealed, and all of one that was sealed or that ended. Its
/// value is the worker's number plus one, and it leaves this counter.
pub fn is_right(seen: &Seen, rest: Rest, worker: u32, counter: i64) -> bool {
    let at = (worker % 8) as usize;
    let value = i64::from(worker % 8) + 1;
    let phase = seen.phases[at];
    let recovered = seen.recovered[at];
    let whole = match phase {
        None | Some(Phase::Sealed) => true,
        Some(Phase::Unsealed) => false,
        Some(Phase::Sealing) => rest == Rest::New,
    };
    let answered = match recovered {
        RecoverAnswer::Clean => phase.is_none() || rest == Rest::New || !whole,
        RecoverAnswer::Redone { value: redone, .. } => whole && redone == value,
        _ => false,
    };
    answered
        && seen.counters[at] == Some(if whole { counter } else { 0 })
        && seen.done[at] == Some(i64::from(whole))
}

/// Whether a compartment holds its worker's transaction whole or not at all, as its recovery says.
pub fn is_whole_or_not(seen: &Seen, worker: u32) -> bool {
    let at = (worker % 8) as usize;
    let value = i64::from(worker % 8) + 1;
    let recovered = seen.recovered[at];
    match recovered {
        RecoverAnswer::Clean => seen.counters[at] == Some(0) || seen.counters[at] == Some(value),
        RecoverAnswer::Redone { value: redone, .. } => redone == value
            && seen.counters[at] == Some(value),
        _ => false,
    }
}
