//! Runs a script on the pool of a file.

ghost use Rattle.std.specs.Prelude.{◌≡◌, ◌≢◌, ◌<◌, Option, true, false, length, pos};
ghost use Rattle.std.specs.Ordering.{int_eq};
ghost use Rattle.std.specs.Cmp.Lexicographic.{pointwise};
ghost use Rattle.std.specs.Prelude.{slice_index_or};
ghost use Rattle.std.specs.Io.KnownBytes.{IsAtEnd};
ghost use Rattle.nvm_base.specs.Rose.{Rose};
ghost use Rattle.file_pmem.specs.File.{HoldsWords};
ghost use Rattle.file_pmem.specs.Found.{Found};
ghost use Rattle.pool_layout.specs.Sizes.{pool_lines};
ghost use Rattle.session_run.specs.Strict.{IsAnswered};
ghost use Rattle.cnvm_cli.specs.PoolSide.{held_by, pool_side, IsKept};
ghost use Rattle.cnvm_cli.specs.World.{told_by};
ghost use Rattle.cnvm_cli.specs.inside.FormerEnds.{ComesFromText, IsUsable};
ghost use Rattle.cnvm_cli.specs.inside.PoolEnds.{FileEnds, FoundEnds, MissingEnds, ImageEnds};
ghost use Rattle.cnvm_cli.specs.inside.PoolEnds.{WordsEnd, EitherEnds, MovedEnds, RunsMoved};

use crate::former::{FormerPool, Owned, Unheld, former_file, read_owned, take_over};
use crate::reading::read_words;
use crate::refused::{Refused, refuse};
use crate::run::{Job, read_job};
use crate::traps::look_up;
use crate::world::World;
use cnvm_compile::Asked;
use cnvm_script::Script;
use cnvm_session::{Program, StartFault, Traps};
use file_pmem::{FilePmem, Held, LineFile, Made, Pools, Unread, words_in};
use nvm_base::{Sink, Source, Steps, Words};
use pmem::Lines;
use pool_layout::{ImageFault, pool_lines};
use session_run::{Status, answer_script, create_held, open_held, run_held, run_new};
use std::alloc::Global;
use std::sync::ledger::Ledger;

/// Reads the two texts, and runs the script's commands on the pool of the port's file.
pub(crate) fn run_file<
    S: Source,
    T: Source,
    I: Source,
    K: Sink,
    O: Sink,
    P: Drop,
    N: Lines + Drop,
    G: Pools,
    L: Ledger,
>(
    alloc: Global,
    asked: Asked,
    moves: bool,
    world: &mut World<S, T, I, K, O, P>,
    pools: &mut G,
    dev: &mut FilePmem<N, G::File>,
    steps: &mut Steps<L>,
) -> Status
    ensures usage { result ≢ Status.Usage }
    ensures write { result ≡ Status.WriteFault
        → Rose (K.faults world.old.out) (K.faults world.new.out) }
    ensures program_end { IsAnswered result → IsAtEnd (S.left world.new.program) }
    ensures script_end { IsAnswered result → IsAtEnd (T.left world.new.script) }
    ensures image { world.new.image_out ≡ world.old.image_out }
    ensures device { world.new.dev ≡ world.old.dev }
    ensures kept { IsKept (held_by N.memory G.File.content dev.new) }
    ensures ends { FileEnds asked moves (told_by S.left T.left I.left world.old world.new) result
        (pool_side (G.found pools.old) (K.written world.old.out) (held_by N.memory G.File.content
        dev.old) steps.old) (pool_side (G.found pools.new) (K.written world.new.out)
        (held_by N.memory G.File.content dev.new) steps.new) }
{
    match read_job(alloc, asked, &mut world.program, &mut world.script) {
        Ok(job) => {
            let status = run_found(
                alloc,
                asked,
                moves,
                &job,
                pools,
                &mut world.former,
                &mut world.image_in,
                &mut world.traps,
                &mut world.out,
                dev,
                steps,
            );
            look_up(alloc, &job.compiled, &mut world.traps);
            dev.know();
            status
        }
        Err(refused) => {
            dev.know();
            refuse(alloc, refused, &mut world.out)
        }
    }
}

/// Runs the commands on the pool of the file that the name leads to, or on a new one.
fn run_found<S: Source, I: Source, K: Sink, N: Lines + Drop, G: Pools, L: Ledger>(
    alloc: Global,
    asked: Asked,
    moves: bool,
    job: &Job,
    pools: &mut G,
    former: &mut S,
    image: &mut I,
    traps: &mut Traps,
    out: &mut K,
    dev: &mut FilePmem<N, G::File>,
    steps: &mut Steps<L>,
) -> Status
    requires { ComesFromText asked job.now.compiled }
    ensures usage { result ≢ Status.Usage }
    ensures write { result ≡ Status.WriteFault → Rose (K.faults out.old) (K.faults out.new) }
    ensures ends { FoundEnds asked moves job.now.compiled.program job.now.script
        (S.left former.old) (I.left image.old) result
        (pool_side (G.found pools.old) (K.written out.old) (held_by N.memory G.File.content dev.old)
        steps.old) (pool_side (G.found pools.new) (K.written out.new)
        (held_by N.memory G.File.content dev.new) steps.new) }
{
    let program = &job.compiled.program;
    let script = &job.script;
    match pools.hold() {
        Held::Missing => run_missing(alloc, program, script, pools, traps, out, dev, steps),
        Held::Held(file) => {
            if moves {
                run_either(
                    alloc, asked, job, file, former, image, traps, out, dev, steps,
                )
            } else {
                run_image(alloc, program, script, file, image, traps, out, dev, steps)
            }
        }
        Held::Busy => refuse(alloc, Refused::Busy, out),
        Held::Failed => Status::ReadFault,
    }
}

/// Creates a pool, makes a file of its words, and runs the commands on it.
fn run_missing<K: Sink, N: Lines + Drop, G: Pools, L: Ledger>(
    alloc: Global,
    program: &Program,
    script: &Script,
    pools: &mut G,
    traps: &mut Traps,
    out: &mut K,
    dev: &mut FilePmem<N, G::File>,
    steps: &mut Steps<L>,
) -> Status
    ensures usage { result ≢ Status.Usage }
    ensures write { result ≡ Status.WriteFault → Rose (K.faults out.old) (K.faults out.new) }
    ensures ends { MissingEnds program.now script.now result (pool_side (G.found pools.old)
        (K.written out.old) (held_by N.memory G.File.content dev.old) steps.old)
        (pool_side (G.found pools.new) (K.written out.new) (held_by N.memory G.File.content dev.new)
        steps.new) }
{
    let (session, words) = match create_held(alloc, program, dev) {
        Ok(created) => created,
        Err(StartFault::Failed) => return Status::DeviceFault,
        Err(StartFault::NoMemory) => return Status::NoMemory,
    };
    match pools.make(words.as_slice()) {
        Made::Made(file) => run_new(
            alloc, program, script, session, file, traps, out, dev, steps,
        ),
        Made::Busy => refuse(alloc, Refused::Busy, out),
        Made::Failed => Status::DeviceFault,
    }
}

/// Checks the image of a file that is held, and runs the commands on it.
fn run_image<I: Source, K: Sink, N: Lines + Drop, F: LineFile + Drop, L: Ledger>(
    alloc: Global,
    program: &Program,
    script: &Script,
    file: F,
    image: &mut I,
    traps: &mut Traps,
    out: &mut K,
    dev: &mut FilePmem<N, F>,
    steps: &mut Steps<L>,
) -> Status
    ensures usage { result ≢ Status.Usage }
    ensures write { result ≡ Status.WriteFault → Rose (K.faults out.old) (K.faults out.new) }
    ensures ends { (found : Option Found) → ImageEnds program.now script.now (I.left image.old)
        (F.content file) result (pool_side found (K.written out.old) (held_by N.memory F.content
        dev.old) steps.old) (pool_side found (K.written out.new) (held_by N.memory F.content
        dev.new) steps.new) }
{
    let words = match read_words(alloc, image, program) {
        Ok(words) => words,
        Err(why) => return refuse(alloc, why, out),
    };
    run_words(alloc, program, script, file, words, traps, out, dev, steps)
}

/// Runs the commands on the pool of a file that is held, if it holds these words, which are let go
/// once they were compared.
fn run_words<K: Sink, N: Lines + Drop, F: LineFile + Drop, L: Ledger>(
    alloc: Global,
    program: &Program,
    script: &Script,
    mut file: F,
    words: Words,
    traps: &mut Traps,
    out: &mut K,
    dev: &mut FilePmem<N, F>,
    steps: &mut Steps<L>,
) -> Status
    ensures usage { result ≢ Status.Usage }
    ensures write { result ≡ Status.WriteFault → Rose (K.faults out.old) (K.faults out.new) }
    ensures ends { (found : Option Found) → WordsEnd program.now script.now words
        (F.content file) result (pool_side found (K.written out.old) (held_by N.memory F.content
        dev.old) steps.old) (pool_side found (K.written out.new) (held_by N.memory F.content
        dev.new) steps.new) }
{
    let held = match words_in(alloc, &mut file, pool_lines(program.image.sizes())) {
        Ok(held) => held,
        Err(Unread::Failed) => return Status::ReadFault,
        Err(Unread::NoMemory) => return Status::NoMemory,
    };
    let same = are_same(held.as_slice(), words.as_slice());
    drop(words);
    if same {
        return run_held(alloc, program, script, held, file, traps, out, dev, steps);
    }
    refuse(alloc, other_words(held.as_slice()), out)
}

/// Checks the image of a file that is held, and runs the commands on it; it may be of the
/// program's former text.
fn run_either<S: Source, I: Source, K: Sink, N: Lines + Drop, F: LineFile + Drop, L: Ledger>(
    alloc: Global,
    asked: Asked,
    job: &Job,
    file: F,
    former: &mut S,
    image: &mut I,
    traps: &mut Traps,
    out: &mut K,
    dev: &mut FilePmem<N, F>,
    steps: &mut Steps<L>,
) -> Status
    requires { ComesFromText asked job.now.compiled }
    ensures usage { result ≢ Status.Usage }
    ensures write { result ≡ Status.WriteFault → Rose (K.faults out.old) (K.faults out.new) }
    ensures ends { (found : Option Found) → EitherEnds asked job.now.compiled.program
        job.now.script (S.left former.old) (I.left image.old) (F.content file) result
        (pool_side found (K.written out.old) (held_by N.memory F.content dev.old) steps.old)
        (pool_side found (K.written out.new) (held_by N.memory F.content dev.new) steps.new) }
{
    let program = &job.compiled.program;
    match read_owned(alloc, asked, program, former, image) {
        Ok(Owned::Own(words)) => run_words(
            alloc,
            program,
            &job.script,
            file,
            words,
            traps,
            out,
            dev,
            steps,
        ),
        Ok(Owned::Former(pool)) => { run_moved(alloc, job, &pool, file, traps, out, dev, steps) }
        Err(why) => refuse(alloc, why, out),
    }
}

/// Runs the commands on a pool of the program's former text, if the file holds its words.
fn run_moved<K: Sink, N: Lines + Drop, F: LineFile + Drop, L: Ledger>(
    alloc: Global,
    job: &Job,
    pool: &FormerPool,
    file: F,
    traps: &mut Traps,
    out: &mut K,
    dev: &mut FilePmem<N, F>,
    steps: &mut Steps<L>,
) -> Status
    requires { IsUsable job.now.compiled.program pool.now }
    ensures usage { result ≢ Status.Usage }
    ensures write { result ≡ Status.WriteFault → Rose (K.faults out.old) (K.faults out.new) }
    ensures ends { (found : Option Found) → MovedEnds job.now.compiled.program job.now.script
        pool.now (F.content file) result (pool_side found (K.written out.old)
        (held_by N.memory F.content dev.old) steps.old) (pool_side found (K.written out.new)
        (held_by N.memory F.content dev.new) steps.new) }
{
    match former_file(alloc, pool, file) {
        Ok(file) => run_former(alloc, job, pool, file, traps, out, dev, steps),
        Err(Unheld::Status(status)) => status,
        Err(Unheld::Refused(why)) => refuse(alloc, why, out),
    }
}

/// Opens a pool of the program's former text, which the file holds, moves it, and runs the commands
/// on it.
fn run_former<K: Sink, N: Lines + Drop, F: LineFile + Drop, L: Ledger>(
    alloc: Global,
    job: &Job,
    pool: &FormerPool,
    file: F,
    traps: &mut Traps,
    out: &mut K,
    dev: &mut FilePmem<N, F>,
    steps: &mut Steps<L>,
) -> Status
    requires usable { IsUsable job.now.compiled.program pool.now }
    requires holds { HoldsWords (F.content file)
        (pool_lines pool.now.compiled.program.image.parts.sizes) pool.now.words }
    ensures usage { result ≢ Status.Usage }
    ensures write { result ≡ Status.WriteFault → Rose (K.faults out.old) (K.faults out.new) }
    ensures ends { (found : Option Found) → RunsMoved pool.now.compiled.program
        job.now.compiled.program job.now.script result (pool_side found (K.written out.old)
        (held_by N.memory F.content dev.old) steps.old) (pool_side found (K.written out.new)
        (held_by N.memory F.content dev.new) steps.new) pool.now.words }
{
    let old = &pool.compiled.program;
    let words = pool.words.as_slice();
    let opened = open_held(alloc, old, words, file, traps, out, dev, steps);
    look_up(alloc, &pool.compiled, traps);
    let mut session = match opened {
        Ok(session) => session,
        Err(status) => return status,
    };
    let program = &job.compiled.program;
    let script = &job.script;
    if let Err(status) = take_over(alloc, program, &pool.other, &session, out, dev) {
        return status;
    }
    answer_script(alloc, program, script, &mut session, traps, out, dev, steps)
}

/// Tells whether a file's words are those that the image was made with.
pub(crate) fn are_same(held: &[i64], given: &[i64]) -> bool
    ensures value { result ≡ pointwise int_eq held.now given.now }
    ensures same { result ≡ true → held.now ≡ given.now }
    ensures other { result ≡ false → held.now ≢ given.now }
{
    held == given
}

/// The refusal of a pool whose words aren't those of the image: its second word is its version.
pub(crate) fn other_words(held: &[i64]) -> Refused
    requires { 1 < length held.now }
    ensures { result ≡ Refused.Image (ImageFault.Version (slice_index_or held.now 1 (pos 0))
        (pos 2)) }
{
    Refused::Image(ImageFault::Version(held[1], 2))
}
