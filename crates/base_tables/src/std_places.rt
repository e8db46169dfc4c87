//! The place of a pool's file in the file system.

use file_pmem::{Held, Made, Pools, StdPools, words_in};
use std::alloc::Global;
use std::fs::{self, Files};
use std::process;
use std::test::Fail;

/// The words of two lines.
const WORDS: [i64; 16] = [3, 0, 0, 0, 0, 0, 0, 0, 0, 0, 0, 0, 0, 0, 0, -4];

/// What a place answers, in words.
fn held<P: Pools>(alloc: Global, pools: &mut P) -> &'static str {
    match pools.hold() {
        Held::Held(mut file) => match words_in(alloc, &mut file, 2) {
            Ok(words) if words.as_slice() == WORDS.as_slice() => "these words",
            _ => "other words",
        },
        Held::Missing => "missing",
        Held::Busy => "busy",
        Held::Failed => "failed",
    }
}

#[test]
fn a_file_is_made_held_and_opened(rt: HostRuntime) -> Result<(), Fail> {
    let alloc = rt.alloc();
    let name = format!(in alloc; "/tmp/cnvm_places_{}.pool", process::id(rt.process()))?;
    let path = name.as_str();
    let mut pools = StdPools::new(&rt, path);
    assert_eq!(rt; held(alloc, &mut pools), "missing");
    let Made::Made(first) = pools.make(&WORDS) else {
        return Err(Fail::from("not made"));
    };
    assert_eq!(rt; held(alloc, &mut pools), "busy");
    assert_eq!(rt; matches!(pools.make(&WORDS), Made::Busy), true);
    drop(first);
    assert_eq!(rt; held(alloc, &mut pools), "these words");
    assert_eq!(rt; held(alloc, &mut pools), "these words");
    fs::remove_file(&rt, path)?;
    assert_eq!(rt; held(alloc, &mut pools), "missing");
    let mut nowhere = StdPools::new(&rt, "/tmp/no_such_folder/a.pool");
    assert_eq!(rt; matches!(nowhere.make(&WORDS), Made::Failed), true);
    Ok(())
}
