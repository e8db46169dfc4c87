//! Reads the images of several workers' pools, which stand one after another.

ghost use Rattle.std.specs.Prelude.{◌≡◌, ◌≤◌, ◌<◌, ◌*◌, ◌^◌, take, drop, IsErrOf};
ghost use Rattle.nvm_base.specs.Rose.{Rose};
ghost use Rattle.pool_layout.specs.Sizes as sizes_of;
ghost use Rattle.cnvm_cli.specs.CrewOpened.{bytes_within, image_size, last_version};
ghost use Rattle.cnvm_cli.specs.inside.CrewEnds.{CrewIs, CrewImageReadAs};
ghost use Rattle.cnvm_cli.specs.inside.Opened.{ImageIs};

use crate::reading::words_of;
use crate::refused::Refused;
use cnvm_session::Program;
use nvm_base::{Source, UpToFault, Words, read_up_to};
use pool_layout::{RawImage, pool_lines};
use std::alloc::Global;

/// The length of an image in bytes.
fn image_size(program: &Program) -> usize
    ensures value { result ≡ image_size program.now }
    ensures small { result ≤ 2 ^ 33 }
{
    64 * pool_lines(program.image.sizes()) as usize
}

/// Where the version stands of the last image among the words of all.
#[tactic(auto, using(crate::proofs::CrewWords::last_place, crate::proofs::CrewWords::images_bound))]
pub(crate) fn last_version(program: &Program, count: u32) -> usize
    requires first { 1 ≤ count }
    requires last { count ≤ 8 }
    ensures place { result ≡ last_version program.now count }
    ensures within { result < 8 * (sizes_of.pool_lines program.now.image.parts.sizes * count) }
{
    8 * (pool_lines(program.image.sizes()) as usize * (count as usize - 1)) + 1
}

/// Reads the images of so many pools of the program, at most one byte past the last.
#[tactic(auto, using(crate::proofs::CrewWords::images_bound))]
pub(crate) fn read_crew_words<I: Source>(
    alloc: Global,
    source: &mut I,
    program: &Program,
    count: u32,
) -> Result<Words, Refused>
    requires first { 1 ≤ count }
    requires last { count ≤ 8 }
    ensures told { CrewImageReadAs program.now count result (I.left source.old) }
    ensures read { IsErrOf result Refused.ReadFault
        → Rose (I.faults source.old) (I.faults source.new) }
    ensures usage { IsErrOf result Refused.Usage → ⊥ }
{
    let most = image_size(program) * count as usize + 1;
    let bytes = match read_up_to(alloc, source, most) {
        Ok(bytes) => bytes,
        Err(UpToFault::ReadFault) => return Err(Refused::ReadFault),
        Err(UpToFault::NoMemory) => return Err(Refused::NoMemory),
    };
    crew_words(alloc, bytes.as_slice(), program, count)
}

/// The words of the images, or why the first that is refused is.
fn crew_words(alloc: Global, bytes: &[u8], program: &Program, count: u32) -> Result<Words, Refused>
    requires first { 1 ≤ count }
    requires last { count ≤ 8 }
    ensures are { CrewIs program.now count result bytes.now }
    ensures read { IsErrOf result Refused.ReadFault → ⊥ }
    ensures usage { IsErrOf result Refused.Usage → ⊥ }
{
    let mut words = Words::new(alloc);
    for worker in 0..count {
        let image = bytes_within(bytes, program, count, worker);
        let own = match words_of_bytes(alloc, image, program) {
            Ok(own) => own,
            Err(why) => return Err(why),
        };
        if let Err(_) = words.extend(own.as_slice()) {
            return Err(Refused::NoMemory);
        }
    }
    Ok(words)
}

/// The words of one image, whose bytes are these.
fn words_of_bytes(alloc: Global, bytes: &[u8], program: &Program) -> Result<Words, Refused>
    ensures are { ImageIs program.now result bytes.now }
    ensures read { IsErrOf result Refused.ReadFault → ⊥ }
    ensures usage { IsErrOf result Refused.Usage → ⊥ }
{
    let mut image = RawImage::new(alloc);
    match image.extend(bytes) {
        Ok(()) => words_of(alloc, image, program),
        Err(_) => Err(Refused::NoMemory),
    }
}

/// The bytes of a worker's image; those of the last one are all that are left.
#[tactic(auto, using(crate::proofs::CrewWords::images_bound))]
fn bytes_within<'a>(bytes: &'a [u8], program: &Program, count: u32, worker: u32) -> &'a [u8]
    requires few { count ≤ 8 }
    requires known { worker < count }
    ensures { result.now ≡ bytes_within program.now count worker bytes.now }
{
    let size = image_size(program);
    let rest = bytes_past(bytes, size * worker as usize);
    if worker + 1 < count {
        return first_bytes(rest, size);
    }
    rest
}

/// The first bytes, at most so many.
#[tactic(auto, using(std::proofs::lemmas::List::take_min))]
fn first_bytes(bytes: &[u8], most: usize) -> &[u8]
    ensures { result.now ≡ take most bytes.now }
{
    let (first, _) = bytes.split_at(most.min(bytes.len()));
    first
}

/// The bytes after the first so many.
#[tactic(auto, using(std::proofs::lemmas::List::drop_min))]
fn bytes_past(bytes: &[u8], most: usize) -> &[u8]
    ensures { result.now ≡ drop most bytes.now }
{
    let (_, rest) = bytes.split_at(most.min(bytes.len()));
    rest
}
