//! Two workers with a short call each, in every order of their turns, uncut and cut at each event.

ghost use Rattle.std.specs.Prelude.{◌≡◌, ◌≤◌, ◌<◌, length};
ghost use Rattle.pool_workers.specs.Crew.{AreTasks, AreUncut, HasCompartments};

use crate::program::program;
use crate::runs::{Seen, is_right, order_and_recover};
use crate::tables::DIGEST;
use cache_model::Rest;
use nvm_base::Steps;
use pm_machine::Image;
use pmem::{Pmem, SparsePmem};
use pool_workers::Workers;
use std::alloc::Global;
use std::marker::Brand;
use std::sync::ledger::{Blank, Ledger};
use std::test::Fail;

/// The transaction that stores its argument. A call of it takes 7 turns: its seal, the store, the
/// flush, the end of the flushes, the fence, its end, and its retirement.
const PUT: u64 = 2;

/// The transaction that gives its argument and stores nothing. A call of it takes 3 turns.
const GIVE: u64 = 3;

/// The events of a call of each: 7 seal it, 3 are its own, and 5 retire it; or 7 and 5.
const EVENTS: u64 = 27;

/// The number of orders, and the number of runs that leave a wrong state.
#[derive(Clone, Copy, Debug, PartialEq, Eq)]
struct Counted {
    orders: u64,
    wrong: u64,
}

/// A worker begins a transaction with one argument.
fn begin_with<P: Pmem>(
    workers: &mut Workers,
    image: &Image,
    worker: u32,
    tx: u64,
    value: i64,
    dev: &P,
)
    requires worker { worker < length workers.old }
    requires first { 1 ≤ tx }
    requires last { tx ≤ length image.now.parts.txs }
    requires tasks { AreTasks image.now workers.old }
    requires uncut { AreUncut workers.old }
    requires lines { HasCompartments image.now workers.old (P.device dev.now) }
    ensures tasks { AreTasks image.now workers.new }
    ensures uncut { AreUncut workers.new }
    ensures lines { HasCompartments image.now workers.new (P.device dev.now) }
    ensures count { length workers.new ≡ length workers.old }
{
    let _ = workers.begin(image, worker, tx, &[value], false, dev);
}

/// Worker 0 begins a call of `PUT`, and worker 1 of this transaction. They take turns in this
/// order, and the power goes off after `stop` events.
fn order_run<L: Ledger>(
    alloc: Global,
    image: &Image,
    second: u64,
    order: u64,
    stop: u64,
    rest: Rest,
    steps: &mut Steps<L>,
) -> Option<Seen>
    requires txs { 3 ≤ length image.now.parts.txs }
    requires first { 1 ≤ second }
    requires last { second ≤ 3 }
{
    let mut dev = SparsePmem::new(alloc);
    let Ok(mut workers) = Workers::create(alloc, image, DIGEST, 2, &mut dev) else {
        return None;
    };
    begin_with(&mut workers, image, 0, PUT, 1, &dev);
    begin_with(&mut workers, image, 1, second, 2, &dev);
    dev.arm(stop);
    Some(order_and_recover(alloc, &mut workers, image, order, rest, &mut dev, steps))
}

/// Whether the first `turns` turns of an order give worker 1 its `second` turns, and no later one
/// gives it one.
fn is_whole(order: u64, turns: u64, second: u64) -> bool {
    let mut left = order;
    let mut given: u64 = 0;
    for _ in 0..turns {
        if left % 2 == 1 {
            given = given.saturating_add(1);
        }
        left /= 2;
    }
    left == 0 && given == second
}

/// Runs every order of two calls of `PUT`, and cuts none.
fn uncut_orders<L: Ledger>(alloc: Global, blank: Blank) -> Option<Counted>
    requires name { blank.name ≡ L.name }
    requires parts { blank.parts ≡ L.parts }
    requires some { 0 < blank.parts }
{
    let image = program(alloc)?;
    let mut steps: Steps<L> = Steps::new(blank);
    let mut counted = Counted {
        orders: 0,
        wrong: 0,
    };
    for order in 0..16384 {
        if !is_whole(order, 14, 7) {
            continue;
        }
        counted.orders = counted.orders.saturating_add(1);
        let seen = order_run(alloc, &image, PUT, order, 1000, Rest::Old, &mut steps)?;
        let over = seen.phases == [None; 8];
        if !over || !is_right(&seen, Rest::Old, 0, 1) || !is_right(&seen, Rest::Old, 1, 2) {
            counted.wrong = counted.wrong.saturating_add(1);
        }
    }
    Some(counted)
}

/// The number of cuts of this order of a call of `PUT` and one of `GIVE` that leave a wrong state.
fn wrong_cuts<L: Ledger>(
    alloc: Global,
    image: &Image,
    order: u64,
    rest: Rest,
    steps: &mut Steps<L>,
) -> Option<u64>
    requires { 3 ≤ length image.now.parts.txs }
{
    let mut wrong: u64 = 0;
    for stop in 0..=EVENTS {
        let seen = order_run(alloc, image, GIVE, order, stop, rest, steps)?;
        let over = seen.phases == [None; 8];
        let right = is_right(&seen, rest, 0, 1) && is_right(&seen, rest, 1, 0);
        if !right || over != (stop == EVENTS) {
            wrong = wrong.saturating_add(1);
        }
    }
    Some(wrong)
}

/// Cuts every order of a call of `PUT` and one of `GIVE` at each event.
fn cut_orders<L: Ledger>(alloc: Global, blank: Blank) -> Option<Counted>
    requires name { blank.name ≡ L.name }
    requires parts { blank.parts ≡ L.parts }
    requires some { 0 < blank.parts }
{
    let image = program(alloc)?;
    let mut steps: Steps<L> = Steps::new(blank);
    let mut counted = Counted {
        orders: 0,
        wrong: 0,
    };
    for order in 0..1024 {
        if !is_whole(order, 10, 3) {
            continue;
        }
        counted.orders = counted.orders.saturating_add(1);
        let old = wrong_cuts(alloc, &image, order, Rest::Old, &mut steps)?;
        let new = wrong_cuts(alloc, &image, order, Rest::New, &mut steps)?;
        counted.wrong = counted.wrong.saturating_add(old).saturating_add(new);
    }
    Some(counted)
}

#[test]
fn every_order_of_two_calls_ends(rt: HostRuntime) -> Result<(), Fail> {
    let wanted = Some(Counted {
        orders: 3432,
        wrong: 0,
    });
    assert_eq!(rt; uncut_orders::<Brand>(rt.alloc(), Blank::new(1)), wanted);
    Ok(())
}

#[test]
fn each_cut_of_every_order_leaves_what_it_should(rt: HostRuntime) -> Result<(), Fail> {
    let wanted = Some(Counted {
        orders: 120,
        wrong: 0,
    });
    assert_eq!(rt; cut_orders::<Brand>(rt.alloc(), Blank::new(1)), wanted);
    Ok(())
}
