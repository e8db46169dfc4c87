//! Serves lines as they come, in memory or on the pool of a file.

ghost use Rattle.std.specs.Prelude.{◌≡◌, ◌≢◌, ◌⊎◌, Ok, Err, Option, IsErrOf};
ghost use Rattle.std.specs.Io.KnownBytes.{IsAtEnd, Keeps};
ghost use Rattle.nvm_base.specs.Rose.{Rose};
ghost use Rattle.file_pmem.specs.File.{HoldsWords};
ghost use Rattle.file_pmem.specs.Found.{Found};
ghost use Rattle.pool_layout.specs.Sizes.{pool_lines};
ghost use Rattle.pmem.specs.Device as device;
ghost use Rattle.cnvm_cli.specs.PoolSide.{held_by, pool_side, IsKept};
ghost use Rattle.cnvm_cli.specs.Serve.{StatusOf};
ghost use Rattle.cnvm_cli.specs.World.{told_by};
ghost use Rattle.cnvm_cli.specs.inside.FormerEnds.{ComesFromText, IsUsable};
ghost use Rattle.cnvm_cli.specs.inside.ServeEnds.{MemoryEnds, ServeEnds, ServeFound, ServeMissing};
ghost use Rattle.cnvm_cli.specs.inside.ServeEnds.{ServeImage, ServeWords, ServeEither};
ghost use Rattle.cnvm_cli.specs.inside.ServeEnds.{ServeMoved, ServesMoved};
ghost use Rattle.session_run.specs.Strict.{IsAnswered};

use crate::former::{FormerPool, Owned, Unheld, former_file, read_owned, take_over};
use crate::pool::{are_same, other_words};
use crate::reading::{read_program, read_words};
use crate::refused::{Refused, refuse};
use crate::traps::look_up;
use crate::world::World;
use cnvm_compile::{Asked, Compiled};
use cnvm_session::{Program, StartFault, Traps};
use file_pmem::{FilePmem, Held, LineFile, Made, Pools, Unread, words_in};
use nvm_base::{Sink, Source, Steps};
use pmem::{Lines, Pmem};
use pool_layout::pool_lines;
use session_run::{Status, create_held};
use session_serve::{
    BadLines, InFile, Served, open_served, serve, serve_created, serve_held, serve_made,
};
use std::alloc::Global;
use std::sync::ledger::Ledger;

/// Reads the program, and answers the lines of the script's source on a new pool in memory.
#[tactic(auto, using(session_run::proofs::Running::keeps_same))]
pub(crate) fn serve_memory<
    S: Source,
    T: Source,
    I: Source,
    K: Sink,
    O: Sink,
    P: Pmem,
    B: BadLines,
    L: Ledger,
>(
    alloc: Global,
    asked: Asked,
    world: &mut World<S, T, I, K, O, P>,
    bad: &mut B,
    steps: &mut Steps<L>,
) -> Status
    ensures read { result ≡ Status.ReadFault
        → Rose (S.faults world.old.program) (S.faults world.new.program)
        ⊎ Rose (T.faults world.old.script) (T.faults world.new.script) }
    ensures usage { result ≢ Status.Usage }
    ensures write { result ≡ Status.WriteFault
        → Rose (K.faults world.old.out) (K.faults world.new.out) }
    ensures device { result ≡ Status.DeviceFault
        → device.FaultsRose (P.device world.old.dev).faults (P.device world.new.dev).faults }
    ensures program_end { IsAnswered result → IsAtEnd (S.left world.new.program) }
    ensures script_end { IsAnswered result → IsAtEnd (T.left world.new.script) }
    ensures ends { MemoryEnds asked (told_by S.left T.left I.left world.old world.new) result
        (K.written world.old.out) (K.written world.new.out) (P.device world.old.dev)
        (P.device world.new.dev) steps.old steps.new }
    ensures image { Keeps (O.written world.old.image_out) (O.written world.new.image_out) }
{
    match read_program(alloc, &mut world.program, asked) {
        Ok(compiled) => {
            let served = serve_created(
                alloc,
                &compiled.program,
                &mut world.script,
                &mut world.traps,
                &mut world.out,
                &mut world.dev,
                bad,
                steps,
            );
            look_up(alloc, &compiled, &mut world.traps);
            status_of(alloc, served, &mut world.out)
        }
        Err(refused) => refuse(alloc, refused, &mut world.out),
    }
}

/// The status of a serving. A line that is too long, or an input of too many lines, is told as a
/// script that is too long.
#[tactic(auto, using(session_run::proofs::Running::keeps_same))]
fn status_of<K: Sink>(alloc: Global, served: Result<Served, StartFault>, out: &mut K) -> Status
    ensures status { StatusOf served result (K.written out.old) (K.written out.new) }
    ensures usage { result ≢ Status.Usage }
    ensures done { IsAnswered result → served ≡ Ok Served.Done }
    ensures read { result ≡ Status.ReadFault → served ≡ Ok Served.ReadFault }
    ensures write { result ≡ Status.WriteFault → (served ≡ Ok Served.WriteFault)
        ⊎ Rose (K.faults out.old) (K.faults out.new) }
    ensures device { result ≡ Status.DeviceFault → (served ≡ Ok Served.GivenUp)
        ⊎ IsErrOf served StartFault.Failed }
    ensures quiet { served ≡ Ok Served.WriteFault → K.faults out.new ≡ K.faults out.old }
{
    match served {
        Ok(Served::Done) => Status::Done,
        Ok(Served::ReadFault) => Status::ReadFault,
        Ok(Served::LongLine) => refuse(alloc, Refused::LongScript, out),
        Ok(Served::ManyLines) => refuse(alloc, Refused::LongScript, out),
        Ok(Served::NoMemory) => Status::NoMemory,
        Ok(Served::WriteFault) => Status::WriteFault,
        Ok(Served::GivenUp) => Status::DeviceFault,
        Err(StartFault::Failed) => Status::DeviceFault,
        Err(StartFault::NoMemory) => Status::NoMemory,
    }
}

/// Reads the program, and answers the lines of the script's source on the pool of the port's file.
pub(crate) fn serve_file<
    S: Source,
    T: Source,
    I: Source,
    K: Sink,
    O: Sink,
    P: Drop,
    N: Lines + Drop,
    G: Pools,
    B: BadLines,
    L: Ledger,
>(
    alloc: Global,
    asked: Asked,
    moves: bool,
    world: &mut World<S, T, I, K, O, P>,
    pools: &mut G,
    dev: &mut FilePmem<N, G::File>,
    bad: &mut B,
    steps: &mut Steps<L>,
) -> Status
    ensures usage { result ≢ Status.Usage }
    ensures write { result ≡ Status.WriteFault
        → Rose (K.faults world.old.out) (K.faults world.new.out) }
    ensures program_end { IsAnswered result → IsAtEnd (S.left world.new.program) }
    ensures script_end { IsAnswered result → IsAtEnd (T.left world.new.script) }
    ensures image { world.new.image_out ≡ world.old.image_out }
    ensures device { world.new.dev ≡ world.old.dev }
    ensures kept { IsKept (held_by N.memory G.File.content dev.new) }
    ensures ends { ServeEnds asked moves (told_by S.left T.left I.left world.old world.new) result
        (pool_side (G.found pools.old) (K.written world.old.out) (held_by N.memory G.File.content
        dev.old) steps.old) (pool_side (G.found pools.new) (K.written world.new.out)
        (held_by N.memory G.File.content dev.new) steps.new) }
{
    match read_program(alloc, &mut world.program, asked) {
        Ok(compiled) => {
            let status = serve_found(
                alloc,
                asked,
                moves,
                &compiled,
                pools,
                &mut world.former,
                &mut world.image_in,
                &mut world.script,
                &mut world.traps,
                &mut world.out,
                dev,
                bad,
                steps,
            );
            look_up(alloc, &compiled, &mut world.traps);
            dev.know();
            status
        }
        Err(refused) => {
            dev.know();
            refuse(alloc, refused, &mut world.out)
        }
    }
}

/// Answers lines on the pool of the file that the name leads to, or on a new one.
fn serve_found<
    S: Source,
    I: Source,
    T: Source,
    K: Sink,
    N: Lines + Drop,
    G: Pools,
    B: BadLines,
    L: Ledger,
>(
    alloc: Global,
    asked: Asked,
    moves: bool,
    compiled: &Compiled,
    pools: &mut G,
    former: &mut S,
    image: &mut I,
    lines: &mut T,
    traps: &mut Traps,
    out: &mut K,
    dev: &mut FilePmem<N, G::File>,
    bad: &mut B,
    steps: &mut Steps<L>,
) -> Status
    requires { ComesFromText asked compiled.now }
    ensures usage { result ≢ Status.Usage }
    ensures write { result ≡ Status.WriteFault → Rose (K.faults out.old) (K.faults out.new) }
    ensures end { IsAnswered result → IsAtEnd (T.left lines.new) }
    ensures ends { ServeFound asked moves compiled.now.program (T.left lines.old)
        (T.left lines.new) (S.left former.old) (I.left image.old) result
        (pool_side (G.found pools.old) (K.written out.old)
        (held_by N.memory G.File.content dev.old) steps.old) (pool_side (G.found pools.new)
        (K.written out.new) (held_by N.memory G.File.content dev.new) steps.new) }
{
    let program = &compiled.program;
    match pools.hold() {
        Held::Missing => serve_missing(alloc, program, pools, lines, traps, out, dev, bad, steps),
        Held::Held(file) => {
            if moves {
                serve_either(
                    alloc, asked, compiled, file, former, image, lines, traps, out, dev, bad, steps,
                )
            } else {
                serve_image(
                    alloc, program, file, image, lines, traps, out, dev, bad, steps,
                )
            }
        }
        Held::Busy => refuse(alloc, Refused::Busy, out),
        Held::Failed => Status::ReadFault,
    }
}

/// Creates a pool, makes a file of its words, and answers lines on it.
fn serve_missing<T: Source, K: Sink, N: Lines + Drop, G: Pools, B: BadLines, L: Ledger>(
    alloc: Global,
    program: &Program,
    pools: &mut G,
    lines: &mut T,
    traps: &mut Traps,
    out: &mut K,
    dev: &mut FilePmem<N, G::File>,
    bad: &mut B,
    steps: &mut Steps<L>,
) -> Status
    ensures usage { result ≢ Status.Usage }
    ensures write { result ≡ Status.WriteFault → Rose (K.faults out.old) (K.faults out.new) }
    ensures end { IsAnswered result → IsAtEnd (T.left lines.new) }
    ensures ends { ServeMissing program.now (T.left lines.old) (T.left lines.new) result
        (pool_side (G.found pools.old) (K.written out.old) (held_by N.memory G.File.content
        dev.old) steps.old) (pool_side (G.found pools.new) (K.written out.new)
        (held_by N.memory G.File.content dev.new) steps.new) }
{
    let (session, words) = match create_held(alloc, program, dev) {
        Ok(created) => created,
        Err(StartFault::Failed) => return Status::DeviceFault,
        Err(StartFault::NoMemory) => return Status::NoMemory,
    };
    match pools.make(words.as_slice()) {
        Made::Made(file) => {
            let served = serve_made(
                alloc, program, session, file, lines, traps, out, dev, bad, steps,
            );
            status_of(alloc, Ok(served), out)
        }
        Made::Busy => refuse(alloc, Refused::Busy, out),
        Made::Failed => Status::DeviceFault,
    }
}

/// Checks the image of a file that is held, and answers lines on it.
fn serve_image<
    I: Source,
    T: Source,
    K: Sink,
    N: Lines + Drop,
    F: LineFile + Drop,
    B: BadLines,
    L: Ledger,
>(
    alloc: Global,
    program: &Program,
    file: F,
    image: &mut I,
    lines: &mut T,
    traps: &mut Traps,
    out: &mut K,
    dev: &mut FilePmem<N, F>,
    bad: &mut B,
    steps: &mut Steps<L>,
) -> Status
    ensures usage { result ≢ Status.Usage }
    ensures write { result ≡ Status.WriteFault → Rose (K.faults out.old) (K.faults out.new) }
    ensures end { IsAnswered result → IsAtEnd (T.left lines.new) }
    ensures ends { (found : Option Found) → ServeImage program.now (T.left lines.old)
        (T.left lines.new) (I.left image.old) (F.content file) result (pool_side found
        (K.written out.old) (held_by N.memory F.content dev.old) steps.old) (pool_side found
        (K.written out.new) (held_by N.memory F.content dev.new) steps.new) }
{
    let words = match read_words(alloc, image, program) {
        Ok(words) => words,
        Err(why) => return refuse(alloc, why, out),
    };
    serve_words(
        alloc,
        program,
        file,
        words.as_slice(),
        lines,
        traps,
        out,
        dev,
        bad,
        steps,
    )
}

/// Answers lines on the pool of a file that is held, if it holds these words.
fn serve_words<T: Source, K: Sink, N: Lines + Drop, F: LineFile + Drop, B: BadLines, L: Ledger>(
    alloc: Global,
    program: &Program,
    mut file: F,
    words: &[i64],
    lines: &mut T,
    traps: &mut Traps,
    out: &mut K,
    dev: &mut FilePmem<N, F>,
    bad: &mut B,
    steps: &mut Steps<L>,
) -> Status
    ensures usage { result ≢ Status.Usage }
    ensures write { result ≡ Status.WriteFault → Rose (K.faults out.old) (K.faults out.new) }
    ensures end { IsAnswered result → IsAtEnd (T.left lines.new) }
    ensures ends { (found : Option Found) → ServeWords program.now (T.left lines.old)
        (T.left lines.new) words.now (F.content file) result (pool_side found
        (K.written out.old) (held_by N.memory F.content dev.old) steps.old) (pool_side found
        (K.written out.new) (held_by N.memory F.content dev.new) steps.new) }
{
    let held = match words_in(alloc, &mut file, pool_lines(program.image.sizes())) {
        Ok(held) => held,
        Err(Unread::Failed) => return Status::ReadFault,
        Err(Unread::NoMemory) => return Status::NoMemory,
    };
    let held = held.as_slice();
    if are_same(held, words) {
        let served = serve_held(
            alloc, program, held, file, lines, traps, out, dev, bad, steps,
        );
        return status_of(alloc, served, out);
    }
    refuse(alloc, other_words(held), out)
}

/// Checks the image of a file that is held, and answers lines on it; it may be of the program's
/// former text.
fn serve_either<
    S: Source,
    I: Source,
    T: Source,
    K: Sink,
    N: Lines + Drop,
    F: LineFile + Drop,
    B: BadLines,
    L: Ledger,
>(
    alloc: Global,
    asked: Asked,
    compiled: &Compiled,
    file: F,
    former: &mut S,
    image: &mut I,
    lines: &mut T,
    traps: &mut Traps,
    out: &mut K,
    dev: &mut FilePmem<N, F>,
    bad: &mut B,
    steps: &mut Steps<L>,
) -> Status
    requires { ComesFromText asked compiled.now }
    ensures usage { result ≢ Status.Usage }
    ensures write { result ≡ Status.WriteFault → Rose (K.faults out.old) (K.faults out.new) }
    ensures end { IsAnswered result → IsAtEnd (T.left lines.new) }
    ensures ends { (found : Option Found) → ServeEither asked compiled.now.program
        (T.left lines.old) (T.left lines.new) (S.left former.old) (I.left image.old)
        (F.content file) result (pool_side found (K.written out.old)
        (held_by N.memory F.content dev.old) steps.old) (pool_side found (K.written out.new)
        (held_by N.memory F.content dev.new) steps.new) }
{
    let program = &compiled.program;
    match read_owned(alloc, asked, program, former, image) {
        Ok(Owned::Own(words)) => serve_words(
            alloc,
            program,
            file,
            words.as_slice(),
            lines,
            traps,
            out,
            dev,
            bad,
            steps,
        ),
        Ok(Owned::Former(pool)) => serve_moved(
            alloc, program, &pool, file, lines, traps, out, dev, bad, steps,
        ),
        Err(why) => refuse(alloc, why, out),
    }
}

/// Answers lines on a pool of the program's former text, if the file holds its words.
fn serve_moved<T: Source, K: Sink, N: Lines + Drop, F: LineFile + Drop, B: BadLines, L: Ledger>(
    alloc: Global,
    program: &Program,
    pool: &FormerPool,
    file: F,
    lines: &mut T,
    traps: &mut Traps,
    out: &mut K,
    dev: &mut FilePmem<N, F>,
    bad: &mut B,
    steps: &mut Steps<L>,
) -> Status
    requires { IsUsable program.now pool.now }
    ensures usage { result ≢ Status.Usage }
    ensures write { result ≡ Status.WriteFault → Rose (K.faults out.old) (K.faults out.new) }
    ensures end { IsAnswered result → IsAtEnd (T.left lines.new) }
    ensures ends { (found : Option Found) → ServeMoved program.now pool.now (T.left lines.old)
        (T.left lines.new) (F.content file) result (pool_side found (K.written out.old)
        (held_by N.memory F.content dev.old) steps.old) (pool_side found (K.written out.new)
        (held_by N.memory F.content dev.new) steps.new) }
{
    match former_file(alloc, pool, file) {
        Ok(file) => serve_former(
            alloc, program, pool, file, lines, traps, out, dev, bad, steps,
        ),
        Err(Unheld::Status(status)) => status,
        Err(Unheld::Refused(why)) => refuse(alloc, why, out),
    }
}

/// Opens a pool of the program's former text, which the file holds, moves it, and answers lines on
/// it.
fn serve_former<T: Source, K: Sink, N: Lines + Drop, F: LineFile + Drop, B: BadLines, L: Ledger>(
    alloc: Global,
    program: &Program,
    pool: &FormerPool,
    file: F,
    lines: &mut T,
    traps: &mut Traps,
    out: &mut K,
    dev: &mut FilePmem<N, F>,
    bad: &mut B,
    steps: &mut Steps<L>,
) -> Status
    requires usable { IsUsable program.now pool.now }
    requires holds { HoldsWords (F.content file)
        (pool_lines pool.now.compiled.program.image.parts.sizes) pool.now.words }
    ensures usage { result ≢ Status.Usage }
    ensures write { result ≡ Status.WriteFault → Rose (K.faults out.old) (K.faults out.new) }
    ensures end { IsAnswered result → IsAtEnd (T.left lines.new) }
    ensures ends { (found : Option Found) → ServesMoved (T.left lines.old) (T.left lines.new)
        pool.now.compiled.program program.now result (pool_side found (K.written out.old)
        (held_by N.memory F.content dev.old) steps.old) (pool_side found (K.written out.new)
        (held_by N.memory F.content dev.new) steps.new) pool.now.words }
{
    let old = &pool.compiled.program;
    let words = pool.words.as_slice();
    let opened = open_served(alloc, old, words, file, traps, out, dev, steps);
    look_up(alloc, &pool.compiled, traps);
    let mut session = match opened {
        Ok(session) => session,
        Err(ended) => return status_of(alloc, ended, out),
    };
    if let Err(status) = take_over(alloc, program, &pool.other, &session, out, dev) {
        return status;
    }
    let served = serve(
        alloc,
        program,
        &mut session,
        lines,
        traps,
        out,
        dev,
        &InFile,
        bad,
        steps,
    );
    status_of(alloc, Ok(served), out)
}
