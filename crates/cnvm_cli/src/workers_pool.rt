//! Runs a script of workers on the compartments of a file.

ghost use Rattle.std.specs.Prelude.{◌≡◌, ◌≢◌, ◌≤◌, ◌*◌, Option, length, pos, slice_index_or};
ghost use Rattle.std.specs.Io.KnownBytes.{IsAtEnd};
ghost use Rattle.nvm_base.specs.Rose.{Rose};
ghost use Rattle.file_pmem.specs.Found.{Found};
ghost use Rattle.pool_layout.specs.Sizes.{pool_lines};
ghost use Rattle.cnvm_cli.specs.CrewOpened.{last_version};
ghost use Rattle.cnvm_cli.specs.PoolSide.{held_by, pool_side, IsKept};
ghost use Rattle.cnvm_cli.specs.World.{told_by};
ghost use Rattle.cnvm_cli.specs.inside.CrewEnds.{CrewEnds, CrewFoundEnds, CrewMissingEnds};
ghost use Rattle.cnvm_cli.specs.inside.CrewEnds.{CrewImageEnds, CrewWordsEnd};
ghost use Rattle.session_run.specs.Strict.{IsAnswered};

use crate::crew_reading::{last_version, read_crew_words};
use crate::pool::are_same;
use crate::refused::{Refused, refuse};
use crate::traps::look_up;
use crate::workers::{Crew, read_crew, status_of};
use crate::world::World;
use cnvm_compile::Asked;
use cnvm_session::{Program, Traps};
use file_pmem::{FilePmem, Held, LineFile, Made, Pools, Unread, words_in};
use nvm_base::{Sink, Source, Steps};
use pmem::Lines;
use pool_layout::ImageFault;
use pool_workers::MakeFault;
use session_run::Status;
use std::alloc::Global;
use std::sync::ledger::Ledger;
use workers_run::{create_held, crew_lines, run_held, run_new};

/// Reads the two texts, and runs the script's commands on the compartments of the port's file, one
/// for each worker.
pub(crate) fn run_crew_file<
    S: Source,
    T: Source,
    I: Source,
    K: Sink,
    O: Sink,
    P: Drop,
    N: Lines + Drop,
    G: Pools,
    L: Ledger,
>(
    alloc: Global,
    asked: Asked,
    count: u32,
    world: &mut World<S, T, I, K, O, P>,
    pools: &mut G,
    dev: &mut FilePmem<N, G::File>,
    steps: &mut Steps<L>,
) -> Status
    requires first { 1 ≤ count }
    requires last { count ≤ 8 }
    ensures usage { result ≢ Status.Usage }
    ensures write { result ≡ Status.WriteFault
        → Rose (K.faults world.old.out) (K.faults world.new.out) }
    ensures program_end { IsAnswered result → IsAtEnd (S.left world.new.program) }
    ensures script_end { IsAnswered result → IsAtEnd (T.left world.new.script) }
    ensures image { world.new.image_out ≡ world.old.image_out }
    ensures device { world.new.dev ≡ world.old.dev }
    ensures kept { IsKept (held_by N.memory G.File.content dev.new) }
    ensures ends { CrewEnds asked count (told_by S.left T.left I.left world.old world.new) result
        (pool_side (G.found pools.old) (K.written world.old.out) (held_by N.memory G.File.content
        dev.old) steps.old) (pool_side (G.found pools.new) (K.written world.new.out)
        (held_by N.memory G.File.content dev.new) steps.new) }
{
    match read_crew(alloc, asked, &mut world.program, &mut world.script) {
        Ok(crew) => {
            let status = run_found(
                alloc,
                &crew,
                count,
                pools,
                &mut world.image_in,
                &mut world.traps,
                &mut world.out,
                dev,
                steps,
            );
            look_up(alloc, &crew.compiled, &mut world.traps);
            dev.know();
            status
        }
        Err(refused) => {
            dev.know();
            refuse(alloc, refused, &mut world.out)
        }
    }
}

/// Runs the commands on the compartments of the file that the name leads to, or on new ones.
fn run_found<I: Source, K: Sink, N: Lines + Drop, G: Pools, L: Ledger>(
    alloc: Global,
    crew: &Crew,
    count: u32,
    pools: &mut G,
    image: &mut I,
    traps: &mut Traps,
    out: &mut K,
    dev: &mut FilePmem<N, G::File>,
    steps: &mut Steps<L>,
) -> Status
    requires first { 1 ≤ count }
    requires last { count ≤ 8 }
    ensures usage { result ≢ Status.Usage }
    ensures write { result ≡ Status.WriteFault → Rose (K.faults out.old) (K.faults out.new) }
    ensures ends { CrewFoundEnds crew.now.compiled.program count crew.now.commands
        (I.left image.old) result
        (pool_side (G.found pools.old) (K.written out.old) (held_by N.memory G.File.content dev.old)
        steps.old) (pool_side (G.found pools.new) (K.written out.new)
        (held_by N.memory G.File.content dev.new) steps.new) }
{
    match pools.hold() {
        Held::Missing => run_missing(alloc, crew, count, pools, traps, out, dev, steps),
        Held::Held(file) => { run_images(alloc, crew, count, file, image, traps, out, dev, steps) }
        Held::Busy => refuse(alloc, Refused::Busy, out),
        Held::Failed => Status::ReadFault,
    }
}

/// Creates compartments, makes a file of their words, and runs the commands on them.
fn run_missing<K: Sink, N: Lines + Drop, G: Pools, L: Ledger>(
    alloc: Global,
    crew: &Crew,
    count: u32,
    pools: &mut G,
    traps: &mut Traps,
    out: &mut K,
    dev: &mut FilePmem<N, G::File>,
    steps: &mut Steps<L>,
) -> Status
    requires first { 1 ≤ count }
    requires last { count ≤ 8 }
    ensures usage { result ≢ Status.Usage }
    ensures write { result ≡ Status.WriteFault → Rose (K.faults out.old) (K.faults out.new) }
    ensures ends { CrewMissingEnds crew.now.compiled.program count crew.now.commands result
        (pool_side (G.found pools.old) (K.written out.old) (held_by N.memory G.File.content dev.old)
        steps.old) (pool_side (G.found pools.new) (K.written out.new)
        (held_by N.memory G.File.content dev.new) steps.new) }
{
    let program = &crew.compiled.program;
    let (session, words) = match create_held(alloc, program, count, dev) {
        Ok(created) => created,
        Err(MakeFault::Failed) => return Status::DeviceFault,
        Err(MakeFault::NoMemory) => return Status::NoMemory,
    };
    let commands = crew.commands.as_slice();
    match pools.make(words.as_slice()) {
        Made::Made(file) => status_of(run_new(
            alloc, program, commands, session, file, traps, out, dev, steps,
        )),
        Made::Busy => refuse(alloc, Refused::Busy, out),
        Made::Failed => Status::DeviceFault,
    }
}

/// Checks the images of a file that is held, and runs the commands on their pools.
fn run_images<I: Source, K: Sink, N: Lines + Drop, F: LineFile + Drop, L: Ledger>(
    alloc: Global,
    crew: &Crew,
    count: u32,
    file: F,
    image: &mut I,
    traps: &mut Traps,
    out: &mut K,
    dev: &mut FilePmem<N, F>,
    steps: &mut Steps<L>,
) -> Status
    requires first { 1 ≤ count }
    requires last { count ≤ 8 }
    ensures usage { result ≢ Status.Usage }
    ensures write { result ≡ Status.WriteFault → Rose (K.faults out.old) (K.faults out.new) }
    ensures ends { (found : Option Found) → CrewImageEnds crew.now.compiled.program count
        crew.now.commands (I.left image.old) (F.content file) result
        (pool_side found (K.written out.old) (held_by N.memory F.content dev.old) steps.old)
        (pool_side found (K.written out.new) (held_by N.memory F.content dev.new) steps.new) }
{
    let words = match read_crew_words(alloc, image, &crew.compiled.program, count) {
        Ok(words) => words,
        Err(why) => return refuse(alloc, why, out),
    };
    run_words(
        alloc,
        crew,
        count,
        file,
        words.as_slice(),
        traps,
        out,
        dev,
        steps,
    )
}

/// Runs the commands on the pools of a file that is held, if it holds these words.
fn run_words<K: Sink, N: Lines + Drop, F: LineFile + Drop, L: Ledger>(
    alloc: Global,
    crew: &Crew,
    count: u32,
    mut file: F,
    words: &[i64],
    traps: &mut Traps,
    out: &mut K,
    dev: &mut FilePmem<N, F>,
    steps: &mut Steps<L>,
) -> Status
    requires first { 1 ≤ count }
    requires last { count ≤ 8 }
    ensures usage { result ≢ Status.Usage }
    ensures write { result ≡ Status.WriteFault → Rose (K.faults out.old) (K.faults out.new) }
    ensures ends { (found : Option Found) → CrewWordsEnd crew.now.compiled.program count
        crew.now.commands words.now (F.content file) result
        (pool_side found (K.written out.old) (held_by N.memory F.content dev.old) steps.old)
        (pool_side found (K.written out.new) (held_by N.memory F.content dev.new) steps.new) }
{
    let program = &crew.compiled.program;
    let held = match words_in(alloc, &mut file, crew_lines(program, count)) {
        Ok(held) => held,
        Err(Unread::Failed) => return Status::ReadFault,
        Err(Unread::NoMemory) => return Status::NoMemory,
    };
    let held = held.as_slice();
    if are_same(held, words) {
        let commands = crew.commands.as_slice();
        return status_of(run_held(
            alloc, program, count, commands, held, file, traps, out, dev, steps,
        ));
    }
    refuse(alloc, other_images(held, program, count), out)
}

/// The refusal of pools whose words aren't those of the images, by the version of the last one.
fn other_images(held: &[i64], program: &Program, count: u32) -> Refused
    requires first { 1 ≤ count }
    requires last { count ≤ 8 }
    requires whole { length held.now ≡ 8 * (pool_lines program.now.image.parts.sizes * count) }
    ensures { result ≡ Refused.Image (ImageFault.Version
        (slice_index_or held.now (last_version program.now count) (pos 0)) (pos 2)) }
{
    Refused::Image(ImageFault::Version(held[last_version(program, count)], 2))
}
