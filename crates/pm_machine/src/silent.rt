//! A stretch of a run whose instructions have no event. They change the registers, the ticks and
//! the place alone, so nothing else of the machine stands in its loop, and no outcome goes through
//! memory. Only registers that are kept are written; else the stretch ends there.

ghost use Rattle.std.specs.Prelude.{◌≡◌, ◌^◌, ◌<◌, ◌≤◌, ◌+◌, ◌+ℤ◌, ℕ, pos, IfSome, IfNone, length};
ghost use Rattle.std.specs.Prelude.{slice_index_or, slice_get, slice_set, if◌then◌else◌};
ghost use Rattle.std.specs.Option.{ForSome};
ghost use Rattle.std.specs.Int.{w64, int_wrap};
ghost use Rattle.std.specs.Ordering.{int_eq};
ghost use Rattle.pool_layout.specs.Sizes.{heap_words, pool_lines};
ghost use Rattle.pm_machine.specs.Machine.{State, execute, load, word_at, moved_to, passed};
ghost use Rattle.pm_machine.specs.Runs.{heap_in};
ghost use Rattle.pm_machine.specs.inside.Kept.{all_words};
ghost use Rattle.pm_machine.specs.inside.Runs.{GoesSilently, StretchLeads, StretchLooks};
ghost use Rattle.pm_machine.specs.inside.Runs.{worked};

use crate::image::Image;
use crate::op::Op;
use crate::processor::word_at;
use nvm_base::Steps;
use pmem::PmemWork;
use std::sync::ledger::Ledger;

/// How far a run has come: the place in the open function, the ticks left, and the steps left.
#[derive(Clone, Copy)]
pub struct Reached {
    pub place: usize,
    pub ticks: u64,
    pub left: u128,
}

/// The word of a register; 0 if it isn't kept.
#[tactic(auto, using(crate::proofs::Registers::word_kept, crate::proofs::Registers::word_blank))]
fn get(kept: &[i64], r: u32) -> i64
    ensures { (n : ℕ) → result ≡ slice_index_or (all_words n kept.now) r (pos 0) }
{
    let register = r as usize;
    if register < kept.len() {
        kept[register]
    } else {
        0
    }
}

/// Writes a register, if it is kept, and gives the next place.
#[tactic(auto, using(crate::proofs::Registers::kept_set))]
fn put(kept: &mut [i64], r: u32, word: i64, place: usize) -> Option<usize>
    requires { place < 2 ^ 63 }
    ensures next { IfSome result (λ p. p ≡ place + 1) }
    ensures set { IfSome result (λ _. (n : ℕ)
        → all_words n kept.new ≡ slice_set (all_words n kept.old) r word) }
    ensures left { IfNone result (kept.new ≡ kept.old) }
    ensures size { length kept.new ≡ length kept.old }
{
    let register = r as usize;
    if register < kept.len() {
        kept[register] = word;
        Some(place + 1)
    } else {
        None
    }
}

/// The heap word at the address in a register and an offset from it.
#[tactic(auto, using(std::proofs::lemmas::Int::wraps))]
fn target(kept: &[i64], image: &Image, a: u32, o: i64) -> Option<u64>
    ensures value { (n : ℕ) → result ≡ word_at (heap_words image.now.parts.sizes)
        (int_wrap w64 (slice_index_or (all_words n kept.now) a (pos 0) +ℤ o)) }
    ensures within { ForSome result (λ w. w < heap_words image.now.parts.sizes) }
{
    word_at(image.heap_words(), get(kept, a).wrapping_add(o))
}

/// The place after a jump that is taken if a register is 0.
fn branch(kept: &[i64], a: u32, t: u32, place: usize) -> usize
    requires { place < 2 ^ 63 }
    ensures { (n ticks : ℕ) (s : State) → worked s (all_words n kept.now) ticks result
        ≡ (if int_eq (slice_index_or (all_words n kept.now) a (pos 0)) (pos 0)
        then moved_to (worked s (all_words n kept.now) ticks place) t
        else passed (worked s (all_words n kept.now) ticks place)) }
{
    if get(kept, a) == 0 {
        t as usize
    } else {
        place + 1
    }
}

/// Loads a heap word to a register, or 0, and gives the next place.
fn load<P: PmemWork>(
    dev: &P,
    image: &Image,
    kept: &mut [i64],
    r: u32,
    word: Option<u64>,
    place: usize,
) -> Option<usize>
    requires place { place < 2 ^ 63 }
    requires lines { (P.device dev.now).lines ≡ pool_lines image.now.parts.sizes }
    requires within { ForSome word (λ w. w < heap_words image.now.parts.sizes) }
    ensures done { (n ticks : ℕ) (s : State) → IfSome result (λ p.
        GoesSilently (worked s (all_words n kept.new) ticks p)
        (load (heap_in image.now.parts.sizes (P.device dev.now).cache)
        (worked s (all_words n kept.old) ticks place) r word)) }
    ensures left { IfNone result (kept.new ≡ kept.old) }
    ensures size { length kept.new ≡ length kept.old }
{
    match word {
        None => put(kept, r, 0, place),
        Some(w) => match dev.load(image.heap_start() + w) {
            None => None,
            Some(x) => put(kept, r, x, place),
        },
    }
}

/// Does an instruction that goes on without an event, and gives the next place. Before any other
/// it does nothing.
#[tactic(auto, using(std::proofs::lemmas::Int::wraps))]
fn act<P: PmemWork>(
    dev: &P,
    image: &Image,
    op: &Op,
    kept: &mut [i64],
    ticks: &mut u64,
    place: usize,
) -> Option<usize>
    requires place { place < 2 ^ 63 }
    requires lines { (P.device dev.now).lines ≡ pool_lines image.now.parts.sizes }
    ensures done { (n : ℕ) (s : State) → IfSome result (λ p.
        GoesSilently (worked s (all_words n kept.new) ticks.new p) (execute image.now
        (heap_in image.now.parts.sizes (P.device dev.now).cache)
        (worked s (all_words n kept.old) ticks.old place) (Some op.now))) }
    ensures left { IfNone result (kept.new ≡ kept.old) }
    ensures ticks { IfNone result (ticks.new ≡ ticks.old) }
    ensures size { length kept.new ≡ length kept.old }
{
    match op {
        Op::Const { r, v } => put(kept, *r, *v, place),
        Op::Mov { r, a } => {
            let x = get(kept, *a);
            put(kept, *r, x, place)
        }
        Op::Bin { op, r, a, b } => {
            let x = op.apply(get(kept, *a), get(kept, *b));
            put(kept, *r, x, place)
        }
        Op::Jmp { t } => Some(*t as usize),
        Op::Jz { a, t } => Some(branch(kept, *a, *t, place)),
        Op::Load { r, a, o } => {
            let word = target(kept, image, *a, *o);
            load(dev, image, kept, *r, word, place)
        }
        Op::Tick => {
            if *ticks == 0 {
                return None;
            }
            *ticks -= 1;
            Some(place + 1)
        }
        Op::Store { .. }
        | Op::Find { .. }
        | Op::Log { .. }
        | Op::Flush
        | Op::Fence
        | Op::Call { .. }
        | Op::Ret { .. }
        | Op::Trap { .. }
        | Op::Halt { .. } => None,
    }
}

/// Does the instruction at a place if it goes on without an event, and gives the next place.
fn step<P: PmemWork>(
    dev: &P,
    image: &Image,
    code: &[Op],
    kept: &mut [i64],
    ticks: &mut u64,
    place: usize,
) -> Option<usize>
    requires lines { (P.device dev.now).lines ≡ pool_lines image.now.parts.sizes }
    ensures done { (n : ℕ) (s : State) → IfSome result (λ p.
        GoesSilently (worked s (all_words n kept.new) ticks.new p) (execute image.now
        (heap_in image.now.parts.sizes (P.device dev.now).cache)
        (worked s (all_words n kept.old) ticks.old place) (slice_get code.now place))) }
    ensures left { IfNone result (kept.new ≡ kept.old) }
    ensures ticks { IfNone result (ticks.new ≡ ticks.old) }
    ensures size { length kept.new ≡ length kept.old }
{
    match code.get(place) {
        None => None,
        Some(op) => act(dev, image, op, kept, ticks, place),
    }
}

/// Does the next instructions of a function, up to the first that has an event, ends the run or
/// changes the function, and as long as steps are left.
pub(crate) fn run_kept<P: PmemWork, L: Ledger>(
    dev: &P,
    image: &Image,
    function: u32,
    kept: &mut [i64],
    from: Reached,
    steps: &mut Steps<L>,
) -> Reached
    requires lines { (P.device dev.now).lines ≡ pool_lines image.now.parts.sizes }
    ensures leads { (n : ℕ) → StretchLeads image.now (P.device dev.now) function
        (all_words n kept.new) result steps.new (all_words n kept.old) from steps.old }
    ensures looks { (n : ℕ) → StretchLooks image.now (P.device dev.now) function
        (all_words n kept.new) result steps.new (all_words n kept.old) from steps.old }
    ensures spent { steps.new + result.left ≡ steps.old + from.left }
    ensures fewer { result.left ≤ from.left }
    ensures size { length kept.new ≡ length kept.old }
{
    let code = image.code(function);
    let mut place = from.place;
    let mut ticks = from.ticks;
    let mut left = from.left;
    while left > 0 {
        let Some(next) = step(dev, image, code, kept, &mut ticks, place) else {
            break;
        };
        place = next;
        left -= 1;
        steps.tick();
    }
    Reached { place, ticks, left }
}
