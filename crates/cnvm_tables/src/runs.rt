//! A run of the top call over sources and sinks in memory.

use crate::byte_sink::ByteSink;
use cnvm_cli::{Status, Traps, World, cnvm};
use file_pmem::{FilePmem, MemFile, MemPools, Place};
use nvm_base::{MemSource, Steps};
use pmem::{Pmem, SparseLines};
use session_serve::NoNotes;
use std::alloc::{AllocError, Global};
use std::sync::ledger::Ledger;

/// A number that no read or write has.
pub(crate) const NEVER: u64 = 1_000_000_000;

/// Which read or write of each source and sink fails.
#[derive(Clone, Copy, Debug, PartialEq, Eq)]
pub(crate) struct Fails {
    pub(crate) program: u64,
    pub(crate) script: u64,
    pub(crate) image_in: u64,
    pub(crate) out: u64,
    pub(crate) image_out: u64,
}

/// No read or write fails.
pub(crate) const NONE: Fails = Fails {
    program: NEVER,
    script: NEVER,
    image_in: NEVER,
    out: NEVER,
    image_out: NEVER,
};

/// How a run ended, what it wrote, and the image that it saved.
#[derive(Drop)]
pub(crate) struct Ended {
    pub(crate) status: Status,
    pub(crate) out: Vec<u8>,
    pub(crate) image: Vec<u8>,
}

impl Ended {
    /// Whether the run ended so, with this output.
    pub(crate) fn is(&self, status: Status, out: &[u8]) -> bool {
        self.status == status && self.out.as_slice() == out
    }
}

fn push_words(alloc: Global, words: &mut Vec<String>, more: &[&str]) -> Result<(), AllocError> {
    for word in more {
        words.push(format!(in alloc; "{word}")?)?;
    }
    Ok(())
}

/// A run of a script with these words after the two paths, on one slot and one record. Each read
/// gives one byte, and each write takes one.
pub(crate) fn run<P: Pmem + Drop, L: Ledger>(
    alloc: Global,
    more: &[&str],
    program: &str,
    script: &str,
    image: &[u8],
    fails: Fails,
    dev: P,
    steps: &mut Steps<L>,
) -> Result<Ended, AllocError> {
    let mut words = Vec::new(alloc);
    let first = ["run", "A.c", "script", "--slots", "1", "--log", "1"];
    push_words(alloc, &mut words, &first)?;
    push_words(alloc, &mut words, more)?;
    let mut world = World {
        program: MemSource::new(alloc, program.as_bytes(), 1, &[fails.program])?,
        former: MemSource::new(alloc, b"", 1, &[])?,
        script: MemSource::new(alloc, script.as_bytes(), 1, &[fails.script])?,
        image_in: MemSource::new(alloc, image, 1, &[fails.image_in])?,
        out: ByteSink::new(alloc, fails.out),
        image_out: ByteSink::new(alloc, fails.image_out),
        dev,
        traps: Traps::new(),
    };
    let mut pools = MemPools::new(alloc, Place::Nothing, &[])?;
    let mut held = FilePmem::<SparseLines, MemFile>::new(alloc);
    let mut bad = NoNotes;
    let status = cnvm(
        alloc, &words, &mut world, &mut pools, &mut held, &mut bad, steps,
    );
    Ok(Ended {
        status,
        out: Vec::from_slice(alloc, world.out.bytes())?,
        image: Vec::from_slice(alloc, world.image_out.bytes())?,
    })
}
