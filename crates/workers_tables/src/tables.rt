//! Several workers on one device, in turns, cut and recovered.

ghost use Rattle.std.specs.Prelude.{◌≡◌, ◌≤◌, ◌<◌, length};

use crate::program::program;
use crate::runs::{Seen, begin_all, cut_and_recover, is_right, is_whole_or_not};
use cache_model::Rest;
use nvm_base::Steps;
use pm_machine::Image;
use pmem::{FailPmem, Pmem, SparsePmem};
use pool_workers::{MakeFault, Workers};
use std::alloc::Global;
use std::marker::Brand;
use std::sync::ledger::{Blank, Ledger};
use std::test::Fail;

/// The digest of the program; no recovery reads it.
pub const DIGEST: [i64; 4] = [1, 2, 3, 4];

/// Workers that all begin and take turns in rounds, with a power cut after `stop` events.
fn cut_run<P: Pmem + Drop, L: Ledger>(
    alloc: Global,
    image: &Image,
    count: u32,
    stop: u64,
    rest: Rest,
    dev: &mut P,
    steps: &mut Steps<L>,
) -> Result<Seen, MakeFault>
    requires txs { 2 ≤ length image.now.parts.txs }
    requires first { 1 ≤ count }
    requires last { count ≤ 8 }
{
    let mut workers = match Workers::create(alloc, image, DIGEST, count, dev) {
        Ok(workers) => workers,
        Err(fault) => return Err(fault),
    };
    begin_all(&mut workers, image, dev);
    dev.arm(stop);
    Ok(cut_and_recover(alloc, &mut workers, image, rest, dev, steps))
}

/// The first number of events after which a cut of two workers leaves a wrong state.
fn wrong_cut<L: Ledger>(alloc: Global, rest: Rest, steps: &mut Steps<L>) -> Option<u64> {
    let Some(image) = program(alloc) else {
        return Some(0);
    };
    for stop in 0..80 {
        let mut dev = SparsePmem::new(alloc);
        let Ok(seen) = cut_run(alloc, &image, 2, stop, rest, &mut dev, steps) else {
            return Some(stop);
        };
        if !is_right(&seen, rest, 0, 1) || !is_right(&seen, rest, 1, 2) {
            return Some(stop);
        }
    }
    None
}

/// The first number of an event at which a failing device leaves a wrong state. The first 26 events
/// create the compartments.
fn wrong_failure<L: Ledger>(alloc: Global, rest: Rest, steps: &mut Steps<L>) -> Option<u64> {
    let Some(image) = program(alloc) else {
        return Some(0);
    };
    for at in 0..110 {
        let mut dev = FailPmem::new(alloc, at);
        let right = match cut_run(alloc, &image, 2, 1000, rest, &mut dev, steps) {
            Ok(seen) => at >= 26 && is_whole_or_not(&seen, 0) && is_whole_or_not(&seen, 1),
            Err(fault) => at < 26 && fault == MakeFault::Failed,
        };
        if !right {
            return Some(at);
        }
    }
    None
}

/// Both searches, with the oldest versions left and with the newest.
fn wrong_runs<L: Ledger>(alloc: Global, blank: Blank) -> [Option<u64>; 4]
    requires name { blank.name ≡ L.name }
    requires parts { blank.parts ≡ L.parts }
    requires some { 0 < blank.parts }
{
    let mut steps: Steps<L> = Steps::new(blank);
    [
        wrong_cut(alloc, Rest::Old, &mut steps),
        wrong_cut(alloc, Rest::New, &mut steps),
        wrong_failure(alloc, Rest::Old, &mut steps),
        wrong_failure(alloc, Rest::New, &mut steps),
    ]
}

#[test]
fn each_cut_and_each_failure_leaves_what_it_should(rt: HostRuntime) -> Result<(), Fail> {
    assert_eq!(rt; wrong_runs::<Brand>(rt.alloc(), Blank::new(1)), [None; 4]);
    Ok(())
}
