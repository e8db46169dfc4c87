//! One table of steps for every device, with what each step must show.

ghost use Rattle.cache_model.specs.Collapse.{Rises};

use cache_model::{Choice, Pick, Picks, Rest};
use pmem::{Event, FailPmem, Pmem, PmemWork, SimPmem, SparsePmem, StoreEvent};
use std::alloc::{AllocError, Global};
use std::test::Fail;

#[derive(Clone, Copy, Debug, PartialEq, Eq, Drop)]
enum Step {
    Store(u64, i64),
    Flush(u64),
    Fence,
    Load(u64),
    Arm(u64),
    Fault(u64),
    Power(Rest),
    PowerPick(Rest, u64, u64),
}

#[derive(Clone, Copy, Debug, PartialEq, Eq, Drop)]
enum Seen {
    Done,
    Off,
    Failed,
    NoMemory,
    Word(i64),
    Bad(u64),
    OutOfRange,
}

fn flush_or_fence(event: Event) -> Seen {
    match event {
        Event::Done => Seen::Done,
        Event::Off => Seen::Off,
        Event::Failed => Seen::Failed,
    }
}

fn stored(event: StoreEvent) -> Seen {
    match event {
        StoreEvent::Done => Seen::Done,
        StoreEvent::Off => Seen::Off,
        StoreEvent::Failed => Seen::Failed,
        StoreEvent::NoMemory => Seen::NoMemory,
    }
}

fn power<P: Pmem>(dev: &mut P, rest: Rest, picks: Picks) -> Seen
    requires { Rises picks }
{
    match dev.power(&Choice { rest, picks }) {
        Ok(()) => Seen::Done,
        Err(bad) => Seen::Bad(bad.line),
    }
}

fn take_step<P: Pmem>(alloc: Global, dev: &mut P, step: Step) -> Result<Seen, AllocError> {
    let lines = dev.lines();
    Ok(match step {
        Step::Store(word, value) if word / 8 < lines => stored(dev.store(word, value)),
        Step::Flush(line) if line < lines => flush_or_fence(dev.flush(line)),
        Step::Fence => flush_or_fence(dev.fence()),
        Step::Load(word) if word / 8 < lines => match dev.load(word) {
            Some(value) => Seen::Word(value),
            None => Seen::Off,
        },
        Step::Arm(k) => {
            dev.arm(k);
            Seen::Done
        }
        Step::Fault(k) => {
            dev.arm_fault(k);
            Seen::Done
        }
        Step::Power(rest) => power(dev, rest, Picks::new(alloc)),
        Step::PowerPick(rest, line, version) => {
            let mut picks = Picks::new(alloc);
            picks.push(Pick { line, version })?;
            power(dev, rest, picks)
        }
        _ => Seen::OutOfRange,
    })
}

/// The index of the first step that shows something else.
fn first_wrong<P: Pmem>(
    alloc: Global,
    dev: &mut P,
    table: &[(Step, Seen)],
) -> Result<Option<usize>, AllocError> {
    for (i, (step, want)) in table.iter().enumerate() {
        if take_step(alloc, dev, *step)? != *want {
            return Ok(Some(i));
        }
    }
    Ok(None)
}

const STEPS: [(Step, Seen); 76] = [
    // a store is seen at once, and is lost by a cut that keeps the first versions
    (Step::Store(3, 7), Seen::Done),
    (Step::Load(3), Seen::Word(7)),
    (Step::Power(Rest::Old), Seen::Done),
    (Step::Load(3), Seen::Word(0)),
    // a flush and a fence keep it
    (Step::Store(3, 7), Seen::Done),
    (Step::Flush(0), Seen::Done),
    (Step::Fence, Seen::Done),
    (Step::Power(Rest::Old), Seen::Done),
    (Step::Load(3), Seen::Word(7)),
    // a fence alone drops nothing
    (Step::Store(3, 8), Seen::Done),
    (Step::Fence, Seen::Done),
    (Step::Power(Rest::Old), Seen::Done),
    (Step::Load(3), Seen::Word(7)),
    // a store after the flush isn't kept by it
    (Step::Store(3, 9), Seen::Done),
    (Step::Flush(0), Seen::Done),
    (Step::Store(3, 10), Seen::Done),
    (Step::Fence, Seen::Done),
    (Step::Power(Rest::Old), Seen::Done),
    (Step::Load(3), Seen::Word(9)),
    // a pick names a version from the oldest; a line has only what it has
    (Step::Store(8, 1), Seen::Done),
    (Step::Store(8, 2), Seen::Done),
    (Step::Store(8, 3), Seen::Done),
    (Step::PowerPick(Rest::New, 1, 4), Seen::Bad(1)),
    (Step::Load(8), Seen::Word(3)),
    (Step::PowerPick(Rest::New, 1, 1), Seen::Done),
    (Step::Load(8), Seen::Word(1)),
    (Step::PowerPick(Rest::New, 1, 1), Seen::Bad(1)),
    (Step::PowerPick(Rest::New, 4, 0), Seen::Bad(4)),
    // a store of the same value is a version too
    (Step::Store(8, 1), Seen::Done),
    (Step::PowerPick(Rest::Old, 1, 1), Seen::Done),
    // the power goes at the event after those that are left
    (Step::Arm(2), Seen::Done),
    (Step::Store(0, 1), Seen::Done),
    (Step::Flush(0), Seen::Done),
    (Step::Fence, Seen::Off),
    (Step::Load(0), Seen::Off),
    (Step::Flush(0), Seen::Off),
    (Step::Power(Rest::New), Seen::Done),
    (Step::Load(0), Seen::Word(1)),
    (Step::Fence, Seen::Done),
    // an event that finds the device off takes away what is left
    (Step::Arm(0), Seen::Done),
    (Step::Store(0, 5), Seen::Off),
    (Step::Arm(0), Seen::Done),
    (Step::Fence, Seen::Off),
    (Step::Power(Rest::Old), Seen::Done),
    (Step::Load(0), Seen::Word(1)),
    // a fault changes no line and is spent
    (Step::Fault(1), Seen::Done),
    (Step::Store(1, 4), Seen::Done),
    (Step::Flush(0), Seen::Failed),
    (Step::Flush(0), Seen::Done),
    (Step::Fence, Seen::Done),
    (Step::Power(Rest::Old), Seen::Done),
    (Step::Load(1), Seen::Word(4)),
    (Step::Fault(0), Seen::Done),
    (Step::Store(2, 6), Seen::Failed),
    (Step::Load(2), Seen::Word(0)),
    // the power goes first, and the fault waits for it
    (Step::Arm(0), Seen::Done),
    (Step::Fault(0), Seen::Done),
    (Step::Fence, Seen::Off),
    (Step::Power(Rest::New), Seen::Done),
    (Step::Fence, Seen::Failed),
    (Step::Fence, Seen::Done),
    // a later fault takes the place of an earlier one
    (Step::Fault(0), Seen::Done),
    (Step::Fault(2), Seen::Done),
    (Step::Fence, Seen::Done),
    (Step::Fence, Seen::Done),
    (Step::Fence, Seen::Failed),
    // a fault takes none of the events that are left, and a power none either
    (Step::Arm(1), Seen::Done),
    (Step::Fault(0), Seen::Done),
    (Step::Fence, Seen::Failed),
    (Step::Power(Rest::New), Seen::Done),
    (Step::Fence, Seen::Done),
    (Step::Fence, Seen::Off),
    (Step::Power(Rest::New), Seen::Done),
    // the least word in the last place
    (Step::Store(31, i64::MIN), Seen::Done),
    (Step::Load(31), Seen::Word(i64::MIN)),
    (Step::Store(32, 1), Seen::OutOfRange),
];

const FAILS_AT_THREE: [(Step, Seen); 10] = [
    (Step::Store(0, 1), Seen::Done),
    (Step::Arm(0), Seen::Done),
    (Step::Fence, Seen::Off),
    (Step::Power(Rest::New), Seen::Done),
    (Step::Store(0, 2), Seen::Done),
    (Step::Flush(0), Seen::Done),
    (Step::Fence, Seen::Failed),
    (Step::Fence, Seen::Done),
    (Step::Fault(0), Seen::Done),
    (Step::Fence, Seen::Failed),
];

#[test]
fn devices_do_each_step(rt: HostRuntime) -> Result<(), Fail> {
    let mut sim = SimPmem::new(rt.alloc());
    sim.blank(4)?;
    assert_eq!(rt; first_wrong(rt.alloc(), &mut sim, &STEPS)?, None);
    let taken = sim.take();
    assert_eq!(rt; (taken.lines(), sim.lines()), (4, 0));

    let mut sparse = SparsePmem::new(rt.alloc());
    sparse.blank(4)?;
    assert_eq!(rt; first_wrong(rt.alloc(), &mut sparse, &STEPS)?, None);
    let taken = sparse.take();
    assert_eq!(rt; (taken.lines(), taken.kept(), sparse.lines()), (4, 1, 0));

    let mut fail = FailPmem::new(rt.alloc(), 3);
    fail.blank(4)?;
    assert_eq!(rt; first_wrong(rt.alloc(), &mut fail, &FAILS_AT_THREE)?, None);
    Ok(())
}

/// How many lines have more than one version, counted line by line.
fn kept_of(sim: &SimPmem) -> u64 {
    let mut kept: u64 = 0;
    for line in 0..sim.lines() {
        if sim.versions(line) > 1 {
            kept = kept.saturating_add(1);
        }
    }
    kept
}

/// The step that a drawn number stands for, over 16 lines.
fn step_of(drawn: u64) -> Step {
    let (small, large) = ((drawn >> 40) % 128, drawn >> 20);
    let rest = if large.is_multiple_of(2) {
        Rest::Old
    } else {
        Rest::New
    };
    match (drawn >> 33) % 64 {
        0..=37 => Step::Store(small, (large % 9) as i64),
        38..=50 => Step::Flush(small % 16),
        51..=55 => Step::Fence,
        56 => Step::Arm(small),
        57 => Step::Fault(small),
        58 => Step::Power(rest),
        59 => Step::PowerPick(rest, small % 17, large % 5),
        _ => Step::Load(small),
    }
}

/// The number of the first drawn step that the two devices show otherwise, with what each shows; a
/// device that is off gets power.
fn first_other(
    alloc: Global,
    sim: &mut SimPmem,
    sparse: &mut SparsePmem,
) -> Result<Option<(u64, Seen, Seen)>, AllocError> {
    let mut drawn: u64 = 7;
    let mut step = Step::Fence;
    for i in 0..10_000 {
        let one = take_step(alloc, sim, step)?;
        let other = take_step(alloc, sparse, step)?;
        if one != other || kept_of(sim) != sparse.kept() {
            return Ok(Some((i, one, other)));
        }
        drawn = drawn
            .wrapping_mul(6_364_136_223_846_793_005)
            .wrapping_add(1_442_695_040_888_963_407);
        step = match one {
            Seen::Off => Step::PowerPick(Rest::Old, (drawn >> 40) % 16, (drawn >> 50) % 4),
            _ => step_of(drawn),
        };
    }
    Ok(None)
}

#[test]
fn two_devices_show_the_same(rt: HostRuntime) -> Result<(), Fail> {
    let mut sim = SimPmem::new(rt.alloc());
    let mut sparse = SparsePmem::new(rt.alloc());
    sim.blank(16)?;
    sparse.blank(16)?;
    assert_eq!(rt; first_other(rt.alloc(), &mut sim, &mut sparse)?, None);
    assert!(rt;
        sparse.kept() > 0,
        "some line keeps older versions at the end"
    );
    Ok(())
}
