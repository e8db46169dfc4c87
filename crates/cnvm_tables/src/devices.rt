//! Devices that fail at one event, tried for each event.

ghost use Rattle.std.specs.Prelude.{◌≡◌, ◌<◌};

use crate::program::{COUNTER, stopped_image};
use crate::runs::{NONE, run};
use cnvm_cli::Status;
use nvm_base::Steps;
use pmem::FailPmem;
use std::alloc::{AllocError, Global};
use std::marker::Brand;
use std::sync::ledger::{Blank, Ledger};
use std::test::Fail;

/// The first event and the one past the last, and how a run ends if its device fails there.
type Failing = (u64, u64, Status, &'static str);

/// Creation has 13 events and a call 20.
const CREATED: [Failing; 4] = [
    (0, 13, Status::DeviceFault, ""),
    (13, 33, Status::Done, "device fault\nrefused down\n"),
    (33, 53, Status::Done, "= 5 log 1\ndevice fault\n"),
    (53, 54, Status::Done, "= 5 log 1\n= 6 log 1\n"),
];

/// An image with 15 words other than 0, in 6 lines, is written by 22 events, and its recovery has
/// 19.
const OPENED: [Failing; 3] = [
    (0, 22, Status::DeviceFault, ""),
    (22, 41, Status::Done, "device fault\nrefused down\n"),
    (41, 42, Status::Done, "recovered redone 5 log 1\nlast 1 5\n"),
];

/// The first event of a row at which the run ends differently from what the row says.
fn wrong_failing<L: Ledger>(
    alloc: Global,
    more: &[&str],
    script: &str,
    image: &[u8],
    row: Failing,
    steps: &mut Steps<L>,
) -> Result<Option<u64>, AllocError> {
    let (first, end, status, wanted) = row;
    for at in first..end {
        let dev = FailPmem::new(alloc, at);
        let ended = run(alloc, more, COUNTER, script, image, NONE, dev, steps)?;
        if !ended.is(status, wanted.as_bytes()) {
            return Ok(Some(at));
        }
    }
    Ok(None)
}

/// The first such event for a run that creates a pool.
fn wrong_created<L: Ledger>(
    alloc: Global,
    steps: &mut Steps<L>,
) -> Result<Option<u64>, AllocError> {
    let script = "call inc 5\ncall inc 1\n";
    for row in CREATED {
        if let Some(at) = wrong_failing(alloc, &[], script, &[], row, steps)? {
            return Ok(Some(at));
        }
    }
    Ok(None)
}

/// The first such event for a run that opens an image.
fn wrong_opened<L: Ledger>(alloc: Global, steps: &mut Steps<L>) -> Result<Option<u64>, AllocError> {
    let image = stopped_image(alloc)?;
    let more = ["--open", "Z"];
    for row in OPENED {
        if let Some(at) = wrong_failing(alloc, &more, "last\n", image.as_slice(), row, steps)? {
            return Ok(Some(at));
        }
    }
    Ok(None)
}

/// Both runs.
fn wrong_events<L: Ledger>(
    alloc: Global,
    blank: Blank,
) -> Result<(Option<u64>, Option<u64>), AllocError>
    requires name { blank.name ≡ L.name }
    requires parts { blank.parts ≡ L.parts }
    requires some { 0 < blank.parts }
{
    let mut steps: Steps<L> = Steps::new(blank);
    let created = wrong_created(alloc, &mut steps)?;
    let opened = wrong_opened(alloc, &mut steps)?;
    Ok((created, opened))
}

#[test]
fn each_event_may_fail(rt: HostRuntime) -> Result<(), Fail> {
    let wrong = wrong_events::<Brand>(rt.alloc(), Blank::new(1))?;
    assert_eq!(rt; wrong, (None, None));
    Ok(())
}
