//! Opens a pool, or several on one device, from an image.

ghost use Rattle.std.specs.Prelude.{◌≡◌, ◌≤◌, ◌+◌, ◌*◌, ◌^◌, ◌<◌, take, drop, length, OnOk};
ghost use Rattle.std.specs.Prelude.{IfErr, IsErrOf};
ghost use Rattle.std.specs.List.{list_any};
ghost use Rattle.pmem.specs.Device.{FaultsRose, blanked};
ghost use Rattle.pmem.specs.Played.{PlaysAll, PlaysPart};
ghost use Rattle.pool_layout.specs.Sizes as sizes_of;
ghost use Rattle.cnvm_session.specs.Opening.{is_other, store_of, stores_of, has_other, flush_of};
ghost use Rattle.cnvm_session.specs.Opening.{flushes_of, opening_events};
ghost use Rattle.cnvm_session.specs.Unmade.{IsUnmade};

use crate::creating::StartFault;
use pmem::events::{fence, flush, store};
use pmem::{Pmem, PmemWork, Refusal};
use pool_layout::{Sizes, pool_lines};

/// Stores a word, unless it is 0.
fn store_word<P: PmemWork>(dev: &mut P, words: &[i64], place: u64) -> Result<(), Refusal>
    requires place { place < 8 * (P.device dev.old).lines }
    requires words { place < length words.now }
    ensures done { OnOk result (PlaysAll (P.device dev.old) (store_of words.now place)
        (P.device dev.new)) }
    ensures refused { IfErr result
        (λ why. PlaysPart why (P.device dev.old) (store_of words.now place) (P.device dev.new)) }
    ensures lines { (P.device dev.new).lines ≡ (P.device dev.old).lines }
{
    let word = words[place as usize];
    if word == 0 {
        return Ok(());
    }
    store(dev, place, word)
}

/// Stores the words that aren't 0, in order.
fn store_words<P: PmemWork>(dev: &mut P, words: &[i64]) -> Result<(), Refusal>
    requires { length words.now ≤ 8 * (P.device dev.old).lines }
    ensures done { OnOk result (PlaysAll (P.device dev.old)
        (stores_of words.now 0 (length words.now)) (P.device dev.new)) }
    ensures refused { IfErr result
        (λ why. PlaysPart why (P.device dev.old) (stores_of words.now 0 (length words.now))
        (P.device dev.new)) }
    ensures lines { (P.device dev.new).lines ≡ (P.device dev.old).lines }
{
    for place in 0..words.len() as u64 {
        if let Err(why) = store_word(dev, words, place) {
            return Err(why);
        }
    }
    Ok(())
}

/// Whether one of the words isn't 0.
fn any_other(words: &[i64]) -> bool
    ensures { result ≡ list_any is_other words.now }
{
    for word in words {
        if *word != 0 {
            return true;
        }
    }
    false
}

/// The eight words of a line.
fn line_words(words: &[i64], line: u64) -> &[i64]
    requires { 8 * line + 8 ≤ length words.now }
    ensures { result.now ≡ take 8 (drop (8 * line) words.now) }
{
    let (_, rest) = words.split_at(8 * line as usize);
    let (own, _) = rest.split_at(8);
    own
}

/// Flushes a line if it has a word other than 0.
fn flush_line<P: PmemWork>(dev: &mut P, words: &[i64], line: u64) -> Result<(), Refusal>
    requires line { line < (P.device dev.old).lines }
    requires words { 8 * line + 8 ≤ length words.now }
    ensures done { OnOk result (PlaysAll (P.device dev.old) (flush_of words.now line)
        (P.device dev.new)) }
    ensures refused { IfErr result
        (λ why. PlaysPart why (P.device dev.old) (flush_of words.now line) (P.device dev.new)) }
    ensures lines { (P.device dev.new).lines ≡ (P.device dev.old).lines }
{
    if any_other(line_words(words, line)) {
        flush(dev, line)
    } else {
        Ok(())
    }
}

/// Flushes the lines that have a word other than 0, in order.
fn flush_lines<P: PmemWork>(dev: &mut P, words: &[i64], lines: u64) -> Result<(), Refusal>
    requires lines { lines ≤ (P.device dev.old).lines }
    requires words { 8 * lines ≤ length words.now }
    ensures done { OnOk result (PlaysAll (P.device dev.old) (flushes_of words.now 0 lines)
        (P.device dev.new)) }
    ensures refused { IfErr result
        (λ why. PlaysPart why (P.device dev.old) (flushes_of words.now 0 lines)
        (P.device dev.new)) }
    ensures lines { (P.device dev.new).lines ≡ (P.device dev.old).lines }
{
    for line in 0..lines {
        if let Err(why) = flush_line(dev, words, line) {
            return Err(why);
        }
    }
    Ok(())
}

/// Plays the events that write an image.
#[tactic(auto, using(crate::proofs::Writing::joined), unfolding(crate::specs::Opening::opening_events))]
fn play_opening<P: PmemWork>(dev: &mut P, words: &[i64], lines: u64) -> Result<(), Refusal>
    requires lines { lines ≡ (P.device dev.old).lines }
    requires words { length words.now ≡ 8 * lines }
    ensures done { OnOk result (PlaysAll (P.device dev.old) (opening_events lines words.now)
        (P.device dev.new)) }
    ensures refused { IfErr result
        (λ why. PlaysPart why (P.device dev.old) (opening_events lines words.now)
        (P.device dev.new)) }
    ensures lines { (P.device dev.new).lines ≡ (P.device dev.old).lines }
{
    store_words(dev, words)?;
    flush_lines(dev, words, lines)?;
    fence(dev)
}

/// Writes the words of an image on so many blank lines, by its events.
fn write_lines<P: Pmem>(lines: u64, words: &[i64], dev: &mut P) -> Result<(), StartFault>
    requires words { length words.now ≡ 8 * lines }
    ensures done { OnOk result (PlaysAll (blanked lines (P.device dev.old))
        (opening_events lines words.now) (P.device dev.new)) }
    ensures lines { OnOk result ((P.device dev.new).lines ≡ lines) }
    ensures refused { IfErr result (λ why. IsUnmade why lines (opening_events lines words.now)
        (P.device dev.old) (P.device dev.new)) }
    ensures failed { IsErrOf result StartFault.Failed
        → FaultsRose (P.device dev.old).faults (P.device dev.new).faults }
{
    if let Err(_) = dev.blank(lines) {
        return Err(StartFault::NoMemory);
    }
    match play_opening(dev, words, lines) {
        Ok(()) => Ok(()),
        Err(refusal) => Err(StartFault::of(refusal)),
    }
}

/// Writes the words of an image on so many blank lines; a device that can takes them at once. An
/// image with another number of words is answered as `NoMemory` and changes nothing; reading an
/// image never gives one.
pub fn open_lines<P: Pmem>(lines: u64, words: &[i64], dev: &mut P) -> Result<(), StartFault>
    requires small { lines ≤ 2 ^ 30 }
    ensures done { OnOk result (PlaysAll (blanked lines (P.device dev.old))
        (opening_events lines words.now) (P.device dev.new)) }
    ensures whole { OnOk result (length words.now ≡ 8 * lines) }
    ensures lines { OnOk result ((P.device dev.new).lines ≡ lines) }
    ensures refused { IfErr result (λ why. IsUnmade why lines (opening_events lines words.now)
        (P.device dev.old) (P.device dev.new)) }
    ensures failed { IsErrOf result StartFault.Failed
        → FaultsRose (P.device dev.old).faults (P.device dev.new).faults }
{
    if words.len() as u64 != 8 * lines {
        return Err(StartFault::NoMemory);
    }
    let Ok(done) = dev.fill(words) else {
        return Err(StartFault::NoMemory);
    };
    if done {
        return Ok(());
    }
    write_lines(lines, words, dev)
}

/// Opens a pool of these sizes on blank lines, with the words of an image, as `open_lines` does.
pub fn open_pool<P: Pmem>(sizes: &Sizes, words: &[i64], dev: &mut P) -> Result<(), StartFault>
    ensures done { OnOk result (PlaysAll
        (blanked (sizes_of.pool_lines sizes.now) (P.device dev.old))
        (opening_events (sizes_of.pool_lines sizes.now) words.now) (P.device dev.new)) }
    ensures lines { OnOk result ((P.device dev.new).lines ≡ sizes_of.pool_lines sizes.now) }
    ensures refused { IfErr result (λ why. IsUnmade why (sizes_of.pool_lines sizes.now)
        (opening_events (sizes_of.pool_lines sizes.now) words.now) (P.device dev.old)
        (P.device dev.new)) }
    ensures failed { IsErrOf result StartFault.Failed
        → FaultsRose (P.device dev.old).faults (P.device dev.new).faults }
{
    open_lines(pool_lines(sizes), words, dev)
}
