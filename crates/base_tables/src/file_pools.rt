//! The places of a pool's file, and the device of a pool over a file that is held.

use cache_model::{Choice, Picks, Rest};
use file_pmem::{FilePmem, Held, LineFile, Made, MemFile, MemPools, Place, Pools, words_in};
use pmem::{Event, Pmem, PmemWork, SparseLines, StoreEvent};
use std::alloc::{AllocError, Global};
use std::test::Fail;

type Device = FilePmem<SparseLines, MemFile>;

/// The words of two lines.
const WORDS: [i64; 16] = [3, 0, 0, 0, 0, 0, 0, 0, 0, 0, 0, 0, 0, 0, 0, -4];

#[derive(Clone, Copy, Debug, PartialEq, Eq, Drop)]
enum Answer {
    File,
    Missing,
    Busy,
    Failed,
}

fn held<P: Pools>(pools: &mut P) -> Answer {
    match pools.hold() {
        Held::Held(_) => Answer::File,
        Held::Missing => Answer::Missing,
        Held::Busy => Answer::Busy,
        Held::Failed => Answer::Failed,
    }
}

fn made<P: Pools>(pools: &mut P) -> Answer {
    match pools.make(&WORDS) {
        Made::Made(_) => Answer::File,
        Made::Busy => Answer::Busy,
        Made::Failed => Answer::Failed,
    }
}

/// Whether the file has exactly these two lines.
fn has_words<F: LineFile>(alloc: Global, file: &mut F) -> bool {
    match words_in(alloc, file, 2) {
        Ok(words) => words.as_slice() == WORDS.as_slice(),
        Err(_) => false,
    }
}

#[test]
fn a_place_answers_by_what_is_there(rt: HostRuntime) -> Result<(), Fail> {
    let alloc = rt.alloc();
    let mut pools = MemPools::new(alloc, Place::Nothing, &[1, 3])?;
    assert_eq!(rt; held(&mut pools), Answer::Missing);
    assert_eq!(rt; held(&mut pools), Answer::Failed);
    assert_eq!(rt; held(&mut pools), Answer::Missing);
    assert_eq!(rt; made(&mut pools), Answer::Failed);
    assert_eq!(rt; made(&mut pools), Answer::File);
    assert_eq!(rt; made(&mut pools), Answer::Busy);
    assert_eq!(rt; held(&mut pools), Answer::Busy);
    pools.put(Place::There(MemFile::new(alloc, 2, &[])?));
    assert_eq!(rt; made(&mut pools), Answer::Busy);
    assert_eq!(rt; held(&mut pools), Answer::File);
    assert_eq!(rt; held(&mut pools), Answer::Busy);
    Ok(())
}

#[test]
fn a_file_that_is_made_has_its_words(rt: HostRuntime) -> Result<(), Fail> {
    let alloc = rt.alloc();
    let mut pools = MemPools::new(alloc, Place::Nothing, &[])?;
    match pools.make(&WORDS) {
        Made::Made(mut file) => assert_eq!(rt; has_words(alloc, &mut file), true),
        Made::Busy | Made::Failed => assert_eq!(rt; "a file", "none"),
    }
    Ok(())
}

/// The copies of word 3 that a crash may leave: their number, and the newest.
fn copies(dev: &Device) -> (u64, i64) {
    let Some(file) = dev.file() else {
        return (0, 0);
    };
    let mut seen = (0, 0);
    for at in 0..9 {
        match file.copy(0, at) {
            Some(words) => seen = (at + 1, words[3]),
            None => return seen,
        }
    }
    seen
}

#[derive(Clone, Copy, Debug, PartialEq, Eq, Drop)]
enum Placed {
    Done,
    Failed,
    Other,
}

/// Stores word 3 and flushes its line, if the device has two lines.
fn put(dev: &mut Device, value: i64) -> Placed {
    if dev.lines() < 2 {
        return Placed::Other;
    }
    match (dev.store(3, value), dev.flush(0)) {
        (StoreEvent::Done, Event::Done) => Placed::Done,
        (StoreEvent::Failed, Event::Failed) => Placed::Failed,
        _ => Placed::Other,
    }
}

#[test]
fn a_sleeping_file_is_written_once_it_wakes(rt: HostRuntime) -> Result<(), Fail> {
    let alloc = rt.alloc();
    let mut dev = Device::new(alloc);
    assert_eq!(rt; dev.keeps(), false);
    dev.hold(MemFile::new(alloc, 2, &[])?);
    dev.blank(2)?;
    assert_eq!(rt; put(&mut dev, 7), Placed::Done);
    assert_eq!(rt; copies(&dev), (1, 0));
    assert_eq!(rt; dev.keeps(), false);
    Ok(())
}

/// A device of two lines over a file that is awake and fails these calls.
fn awake(alloc: Global, fail: &[u64]) -> Result<Device, AllocError> {
    let mut dev = FilePmem::new(alloc);
    dev.begin(2, MemFile::new(alloc, 2, fail)?)?;
    Ok(dev)
}

/// A device of two lines whose file was lost at a fence, after it had a new copy of word 3.
fn lost(alloc: Global) -> Result<Device, AllocError> {
    let mut dev = awake(alloc, &[1])?;
    put(&mut dev, 7);
    dev.fence();
    Ok(dev)
}

/// Whether the power cut that leaves the oldest versions is done.
fn is_cut(alloc: Global, dev: &mut Device) -> bool {
    let choice = Choice {
        rest: Rest::Old,
        picks: Picks::new(alloc),
    };
    dev.power(&choice).is_ok()
}

#[test]
fn a_refused_fence_loses_the_file(rt: HostRuntime) -> Result<(), Fail> {
    let mut dev = lost(rt.alloc())?;
    assert_eq!(rt; dev.keeps(), false);
    assert_eq!(rt; dev.is_lost(), true);
    assert_eq!(rt; put(&mut dev, 8), Placed::Failed);
    assert_eq!(rt; copies(&dev), (2, 7));
    Ok(())
}

#[test]
fn a_power_cut_gives_a_lost_file_up(rt: HostRuntime) -> Result<(), Fail> {
    let mut dev = lost(rt.alloc())?;
    assert_eq!(rt; is_cut(rt.alloc(), &mut dev), true);
    assert_eq!(rt; dev.is_lost(), true);
    assert_eq!(rt; put(&mut dev, 8), Placed::Failed);
    assert_eq!(rt; copies(&dev), (2, 7));
    Ok(())
}

#[test]
fn a_blank_device_lets_a_lost_file_go(rt: HostRuntime) -> Result<(), Fail> {
    let mut dev = lost(rt.alloc())?;
    dev.blank(2)?;
    assert_eq!(rt; dev.is_lost(), false);
    assert_eq!(rt; copies(&dev), (0, 0));
    assert_eq!(rt; put(&mut dev, 9), Placed::Done);
    Ok(())
}

#[test]
fn a_device_that_is_taken_keeps_its_file(rt: HostRuntime) -> Result<(), Fail> {
    let alloc = rt.alloc();
    let mut dev = awake(alloc, &[])?;
    let mut taken = dev.take();
    assert_eq!(rt; (dev.keeps(), dev.lines()), (false, 0));
    assert_eq!(rt; (taken.keeps(), taken.lines()), (true, 2));
    assert_eq!(rt; put(&mut taken, 7), Placed::Done);
    assert_eq!(rt; copies(&taken), (2, 7));
    Ok(())
}
