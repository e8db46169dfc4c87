//! Opens a pool, writes the answer of the opening, and serves lines.

ghost use Rattle.std.specs.Prelude.{◌≡◌, ◌*◌, ◌≤◌, Ok, Err, OnOk, IfOk, IfErr, IsErrOf};
ghost use Rattle.std.specs.Io.KnownBytes.{IsAtEnd};
ghost use Rattle.nvm_base.specs.Rose.{Rose};
ghost use Rattle.cache_model.specs.Cache.{view};
ghost use Rattle.pmem.specs.Device.{FaultsRose};
ghost use Rattle.pm_machine.specs.HeapPool.{words_from};
ghost use Rattle.pool_layout.specs.Sizes.{pool_lines};
ghost use Rattle.cnvm_session.specs.declared.mode.Mode.TheVariants.{Ready};
ghost use Rattle.file_pmem.specs.File.{HoldsWords};
ghost use Rattle.file_pmem.specs.Mirror.{file_device};
ghost use Rattle.file_pmem.specs.declared.link.MirrorState.TheVariants.{Awake};
ghost use Rattle.session_serve.specs.Begins.{NewServed, CreatedServed, OpenedServed, OpensTold};
ghost use Rattle.session_serve.specs.Begins.{OpeningEnds};

use crate::answering::{Unanswered, put_answer};
use crate::bad_lines::BadLines;
use crate::serving::{Served, serve};
use crate::standing::{InFile, InMemory, Watch};
use cnvm_session::{Program, Session, StartFault, Traps, create};
use file_pmem::{FilePmem, LineFile};
use nvm_base::{Sink, Source, Steps, write_whole};
use pmem::{Lines, Pmem};
use session_run::start_held;
use std::alloc::Global;
use std::sync::ledger::Ledger;

/// What is written first where a pool was made.
const CREATED: &str = "created\n\n";

/// Makes a new pool, tells so, and answers the lines of the input.
#[tactic(auto, using(session_run::proofs::Running::keeps_same))]
pub fn serve_created<S: Source, K: Sink, P: Pmem, B: BadLines, L: Ledger>(
    alloc: Global,
    program: &Program,
    source: &mut S,
    traps: &mut Traps,
    out: &mut K,
    dev: &mut P,
    bad: &mut B,
    steps: &mut Steps<L>,
) -> Result<Served, StartFault>
    ensures served { CreatedServed result (S.left source.old) (S.left source.new) program.now
        (P.device dev.old) (K.written out.old) steps.old (P.device dev.new) (K.written out.new)
        steps.new }
    ensures end { result ≡ Ok Served.Done → IsAtEnd (S.left source.new) }
    ensures read { result ≡ Ok Served.ReadFault
        → Rose (S.faults source.old) (S.faults source.new) }
    ensures write { result ≡ Ok Served.WriteFault → Rose (K.faults out.old) (K.faults out.new) }
    ensures count { K.faults out.old ≤ K.faults out.new }
    ensures never { result ≡ Ok Served.GivenUp → ⊥ }
    ensures failed { IsErrOf result StartFault.Failed
        → FaultsRose (P.device dev.old).faults (P.device dev.new).faults }
{
    match create(program, dev) {
        Ok(session) => Ok(serve_new(
            alloc, program, session, source, traps, out, dev, &InMemory, bad, steps,
        )),
        Err(fault) => Err(fault),
    }
}

/// Tells that the pool on the device was created, and answers the lines of the input.
fn serve_new<S: Source, K: Sink, P: Pmem, W: Watch<P>, B: BadLines, L: Ledger>(
    alloc: Global,
    program: &Program,
    mut session: Session,
    source: &mut S,
    traps: &mut Traps,
    out: &mut K,
    dev: &mut P,
    watch: &W,
    bad: &mut B,
    steps: &mut Steps<L>,
) -> Served
    requires ready { session ≡ Ready }
    requires lines { (P.device dev.old).lines ≡ pool_lines program.now.image.parts.sizes }
    ensures served { NewServed result (S.left source.old) (S.left source.new) program.now
        (P.device dev.old) (K.written out.old) steps.old (P.device dev.new) (K.written out.new)
        steps.new }
    ensures end { result ≡ Served.Done → IsAtEnd (S.left source.new) }
    ensures read { result ≡ Served.ReadFault → Rose (S.faults source.old) (S.faults source.new) }
    ensures write { result ≡ Served.WriteFault → Rose (K.faults out.old) (K.faults out.new) }
    ensures count { K.faults out.old ≤ K.faults out.new }
    ensures given_up { result ≡ Served.GivenUp → W.kept dev.new → ⊥ }
    ensures done_kept { result ≡ Served.Done → W.kept dev.new }
    ensures read_kept { result ≡ Served.ReadFault → W.kept dev.new }
{
    if let Err(_) = write_whole(out, CREATED.as_bytes()) {
        return Served::WriteFault;
    }
    if !watch.stands(dev) {
        return Served::GivenUp;
    }
    serve(
        alloc,
        program,
        &mut session,
        source,
        traps,
        out,
        dev,
        watch,
        bad,
        steps,
    )
}

/// Mirrors a new pool in the file that was made of its words, tells that it was created, and
/// answers the lines of the input.
pub fn serve_made<S: Source, K: Sink, N: Lines + Drop, F: LineFile + Drop, B: BadLines, L: Ledger>(
    alloc: Global,
    program: &Program,
    session: Session,
    file: F,
    source: &mut S,
    traps: &mut Traps,
    out: &mut K,
    dev: &mut FilePmem<N, F>,
    bad: &mut B,
    steps: &mut Steps<L>,
) -> Served
    requires ready { session ≡ Ready }
    requires lines { (file_device N.memory dev.old).lines
        ≡ pool_lines program.now.image.parts.sizes }
    requires holds { HoldsWords (F.content file) (file_device N.memory dev.old).lines
        (words_from (view (file_device N.memory dev.old).cache) 0
        (8 * (file_device N.memory dev.old).lines)) }
    ensures served { NewServed result (S.left source.old) (S.left source.new) program.now
        (file_device N.memory dev.old) (K.written out.old) steps.old (file_device N.memory dev.new)
        (K.written out.new) steps.new }
    ensures end { result ≡ Served.Done → IsAtEnd (S.left source.new) }
    ensures read { result ≡ Served.ReadFault → Rose (S.faults source.old) (S.faults source.new) }
    ensures write { result ≡ Served.WriteFault → Rose (K.faults out.old) (K.faults out.new) }
    ensures count { K.faults out.old ≤ K.faults out.new }
    ensures given_up { result ≡ Served.GivenUp → dev.new.link.state ≡ Awake → ⊥ }
    ensures done_kept { result ≡ Served.Done → dev.new.link.state ≡ Awake }
    ensures read_kept { result ≡ Served.ReadFault → dev.new.link.state ≡ Awake }
{
    dev.know();
    dev.hold(file);
    dev.wake();
    serve_new(
        alloc, program, session, source, traps, out, dev, &InFile, bad, steps,
    )
}

/// Opens the pool with these words, which are those of the file, mirrors it in the file, and tells
/// how it was recovered. Or serving ends so before the first line.
pub fn open_served<K: Sink, N: Lines + Drop, F: LineFile + Drop, L: Ledger>(
    alloc: Global,
    program: &Program,
    words: &[i64],
    file: F,
    traps: &mut Traps,
    out: &mut K,
    dev: &mut FilePmem<N, F>,
    steps: &mut Steps<L>,
) -> Result<Session, Result<Served, StartFault>>
    requires holds { HoldsWords (F.content file)
        (pool_lines program.now.image.parts.sizes) words.now }
    ensures opened { IfOk result (λ session. OpensTold program.now words.now session
        dev.new.link.state (K.written out.old) (K.written out.new)
        (file_device N.memory dev.old) (file_device N.memory dev.new) steps.old steps.new) }
    ensures lines { OnOk result ((file_device N.memory dev.new).lines
        ≡ pool_lines program.now.image.parts.sizes) }
    ensures ended { IfErr result (λ ended. OpeningEnds ended program.now words.now
        (K.written out.old) (K.written out.new) (file_device N.memory dev.old)
        (file_device N.memory dev.new) steps.old steps.new) }
    ensures undone { result ≡ Err (Ok Served.Done) → ⊥ }
    ensures read { result ≡ Err (Ok Served.ReadFault) → ⊥ }
    ensures write { result ≡ Err (Ok Served.WriteFault)
        → Rose (K.faults out.old) (K.faults out.new) }
    ensures given_up { result ≡ Err (Ok Served.GivenUp) → dev.new.link.state ≡ Awake → ⊥ }
    ensures count { K.faults out.old ≤ K.faults out.new }
{
    let (session, answer) = match start_held(alloc, program, words, file, dev, steps) {
        Ok(started) => started,
        Err(fault) => return Err(Err(fault)),
    };
    traps.saw(&answer, &session);
    match put_answer(alloc, &answer, out) {
        Err(Unanswered::Unwritten) => Err(Ok(Served::WriteFault)),
        Err(_) => Err(Ok(Served::NoMemory)),
        Ok(()) if dev.keeps() => Ok(session),
        Ok(()) => Err(Ok(Served::GivenUp)),
    }
}

/// Opens the pool with these words, which are those of the file, mirrors it in the file, tells how
/// it was recovered, and answers the lines of the input.
pub fn serve_held<S: Source, K: Sink, N: Lines + Drop, F: LineFile + Drop, B: BadLines, L: Ledger>(
    alloc: Global,
    program: &Program,
    words: &[i64],
    file: F,
    source: &mut S,
    traps: &mut Traps,
    out: &mut K,
    dev: &mut FilePmem<N, F>,
    bad: &mut B,
    steps: &mut Steps<L>,
) -> Result<Served, StartFault>
    requires holds { HoldsWords (F.content file)
        (pool_lines program.now.image.parts.sizes) words.now }
    ensures served { OpenedServed result (S.left source.old) (S.left source.new) program.now
        words.now (file_device N.memory dev.old) (K.written out.old) steps.old
        (file_device N.memory dev.new) (K.written out.new) steps.new }
    ensures end { result ≡ Ok Served.Done → IsAtEnd (S.left source.new) }
    ensures read { result ≡ Ok Served.ReadFault
        → Rose (S.faults source.old) (S.faults source.new) }
    ensures write { result ≡ Ok Served.WriteFault → Rose (K.faults out.old) (K.faults out.new) }
    ensures count { K.faults out.old ≤ K.faults out.new }
    ensures given_up { result ≡ Ok Served.GivenUp → dev.new.link.state ≡ Awake → ⊥ }
    ensures done_kept { result ≡ Ok Served.Done → dev.new.link.state ≡ Awake }
    ensures read_kept { result ≡ Ok Served.ReadFault → dev.new.link.state ≡ Awake }
{
    match open_served(alloc, program, words, file, traps, out, dev, steps) {
        Ok(mut session) => Ok(serve(
            alloc,
            program,
            &mut session,
            source,
            traps,
            out,
            dev,
            &InFile,
            bad,
            steps,
        )),
        Err(ended) => ended,
    }
}
