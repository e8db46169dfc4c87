//! Saves a pool as an image.

ghost use Rattle.std.specs.Prelude.{◌≡◌, ◌⊎◌, ◌+◌, ◌*◌, ◌^◌, ◌<◌, ◌≤◌, true, IfOk, OnOk, OnErr};
ghost use Rattle.std.specs.Io.KnownBytes.{Appends};
ghost use Rattle.nvm_base.specs.Parts.{AppendsPart};
ghost use Rattle.nvm_base.specs.Rose.{Rose};
ghost use Rattle.cache_model.specs.Cache.{view};
ghost use Rattle.pool_layout.specs.Bytes.{bytes_of};
ghost use Rattle.pool_layout.specs.Sizes as sizes_of;
ghost use Rattle.pm_machine.specs.HeapPool.{words_from};
ghost use Rattle.session_run.specs.Told.{TellsAs};
ghost use Rattle.session_run.specs.Saved.{on_again, saved_bytes};

use crate::status::Status;
use cache_model::{Choice, Picks, Rest};
use nvm_base::{Sink, Words, WriteFault, write_all};
use pmem::{Pmem, PmemWork};
use pool_layout::{Sizes, pool_lines, put_word};
use std::alloc::{AllocError, Global};

/// How many words are written at once.
const PIECE: u64 = 2048;

/// How many bytes these words have.
const PIECE_BYTES: usize = 16_384;

/// Saves the newest version of every line of a pool of these sizes. A device that is off is first
/// powered on, and each line keeps its newest version. The status is this one, unless the sink
/// failed.
#[tactic(auto, using(crate::proofs::Running::keeps_same))]
pub fn save<O: Sink, P: Pmem>(
    alloc: Global,
    sizes: &Sizes,
    status: Status,
    out: &mut O,
    dev: &mut P,
) -> Status
    requires lines { (P.device dev.old).lines ≡ sizes_of.pool_lines sizes.now }
    ensures power { P.device dev.new ≡ on_again (P.device dev.old) }
    ensures saved { TellsAs status (saved_bytes (P.device dev.old)) result (O.written out.old)
        (O.written out.new) }
    ensures status { (result ≡ status)
        ⊎ ((result ≡ Status.NoMemory) ⊎ (result ≡ Status.WriteFault)) }
    ensures write { result ≡ Status.WriteFault → (status ≡ Status.WriteFault)
        ⊎ Rose (O.faults out.old) (O.faults out.new) }
{
    power_on(alloc, dev);
    match write_lines(pool_lines(sizes), out, dev) {
        Ok(()) => status,
        Err(_) => Status::WriteFault,
    }
}

/// Writes the newest version of so many lines, which are all that the device has, piece by piece,
/// and ends the sink. It takes no memory.
fn write_lines<O: Sink, P: PmemWork>(lines: u64, out: &mut O, dev: &P) -> Result<(), WriteFault>
    requires on { (P.device dev.now).on ≡ true }
    requires lines { (P.device dev.now).lines ≡ lines }
    requires small { lines ≤ 2 ^ 30 }
    ensures ok { OnOk result (Appends (O.written out.old) (O.written out.new)
        (bytes_of (words_from (view (P.device dev.now).cache) 0 (8 * lines)))) }
    ensures part { OnErr result (AppendsPart (O.written out.old) (O.written out.new)
        (bytes_of (words_from (view (P.device dev.now).cache) 0 (8 * lines)))) }
    ensures fault { OnErr result (Rose (O.faults out.old) (O.faults out.new)) }
    ensures count { O.faults out.old ≤ O.faults out.new }
{
    let words = 8 * lines;
    let mut from = 0;
    'writing: while from < words {
        let count = PIECE.min(words - from);
        match write_piece(from, count, out, dev) {
            Ok(()) => from += count,
            Err(fault) => return Err(fault),
        }
    }
    out.finish()
}

/// Writes the newest versions of so many words, from this one on.
fn write_piece<O: Sink, P: PmemWork>(
    from: u64,
    count: u64,
    out: &mut O,
    dev: &P,
) -> Result<(), WriteFault>
    requires on { (P.device dev.now).on ≡ true }
    requires few { count ≤ 2048 }
    requires inside { from + count ≤ 8 * (P.device dev.now).lines }
    requires small { (P.device dev.now).lines ≤ 2 ^ 30 }
    ensures ok { OnOk result (Appends (O.written out.old) (O.written out.new)
        (bytes_of (words_from (view (P.device dev.now).cache) from count))) }
    ensures part { OnErr result (AppendsPart (O.written out.old) (O.written out.new)
        (bytes_of (words_from (view (P.device dev.now).cache) from count))) }
    ensures fault { OnErr result (Rose (O.faults out.old) (O.faults out.new)) }
    ensures count { O.faults out.old ≤ O.faults out.new }
{
    let mut piece = [0; PIECE_BYTES];
    for k in 0..count {
        put_word(&mut piece, k as usize, newest(dev, from + k));
    }
    write_all(out, &piece[..8 * count as usize])
}

/// Powers on a device that is off; each line keeps its newest version.
fn power_on<P: Pmem>(alloc: Global, dev: &mut P)
    requires lines { 0 < (P.device dev.old).lines }
    ensures { P.device dev.new ≡ on_again (P.device dev.old) }
{
    if dev.load(0).is_some() {
        return;
    }
    let choice = Choice {
        rest: Rest::New,
        picks: Picks::new(alloc),
    };
    match dev.power(&choice) {
        Ok(()) => (),
        // No pick can be bad, since there is none.
        Err(_) => (),
    }
}

/// The newest version of so many lines, which are all that the device has.
pub fn words_on<P: PmemWork>(alloc: Global, lines: u64, dev: &P) -> Result<Words, AllocError>
    requires on { (P.device dev.now).on ≡ true }
    requires lines { (P.device dev.now).lines ≡ lines }
    requires small { lines ≤ 2 ^ 30 }
    ensures { IfOk result (λ words. words ≡ words_from (view (P.device dev.now).cache) 0
        (8 * (P.device dev.now).lines)) }
{
    let mut words = Words::new(alloc);
    for k in 0..8 * lines {
        words.push(newest(dev, k))?;
    }
    Ok(words)
}

/// The newest version of every line of a pool of these sizes.
pub(crate) fn words_of<P: PmemWork>(
    alloc: Global,
    sizes: &Sizes,
    dev: &P,
) -> Result<Words, AllocError>
    requires on { (P.device dev.now).on ≡ true }
    requires lines { (P.device dev.now).lines ≡ sizes_of.pool_lines sizes.now }
    ensures { IfOk result (λ words. words ≡ words_from (view (P.device dev.now).cache) 0
        (8 * (P.device dev.now).lines)) }
{
    words_on(alloc, pool_lines(sizes), dev)
}

/// A word in the newest version of its line.
fn newest<P: PmemWork>(dev: &P, word: u64) -> i64
    requires on { (P.device dev.now).on ≡ true }
    requires word { word < 8 * (P.device dev.now).lines }
    ensures { result ≡ view (P.device dev.now).cache word }
{
    match dev.load(word) {
        Some(value) => value,
        // This never happens: the device is on.
        None => 0,
    }
}
