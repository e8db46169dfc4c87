//! Runs commands on the pool of a file.

ghost use Rattle.std.specs.Prelude.{◌≡◌, ◌≢◌, ◌≤◌, ◌*◌, [], false, OnOk, OnErr, IfOk, IfErr};
ghost use Rattle.std.specs.Prelude.{IsErrOf};
ghost use Rattle.std.specs.Io.KnownBytes.{Appends};
ghost use Rattle.nvm_base.specs.Rose.{Rose};
ghost use Rattle.cache_model.specs.Cache.{view};
ghost use Rattle.pm_machine.specs.HeapPool.{words_from};
ghost use Rattle.pool_layout.specs.Sizes.{pool_lines};
ghost use Rattle.cnvm_session.specs.declared.mode.Mode.TheVariants.{Ready};
ghost use Rattle.cnvm_session.specs.Opening.{opening_events};
ghost use Rattle.cnvm_session.specs.Outcomes.{Opens};
ghost use Rattle.cnvm_session.specs.Unmade.{IsUnmade};
ghost use Rattle.file_pmem.specs.File.{HoldsWords};
ghost use Rattle.file_pmem.specs.Mirror.{file_device};
ghost use Rattle.file_pmem.specs.declared.link.MirrorState.TheVariants.{Awake};
ghost use Rattle.cnvm_session.specs.AnswerText.{answer_text};
ghost use Rattle.session_run.specs.Commands.{RunsAndWrites};
ghost use Rattle.session_run.specs.Held.{EndsAt, BreaksOff, status_of, HeldAs, CreatesWords};
ghost use Rattle.session_run.specs.Held.{OpensTold, AnswersAs, NewAs};

use crate::image::words_of;
use crate::status::Status;
use crate::strict::unmet_after;
use crate::writing::{Unwritten, put_answer};
use cnvm_script::{Command, Script};
use cnvm_session::{Answer, Program, Session, StartFault, Traps, create, open_pool, resume};
use file_pmem::{FilePmem, LineFile};
use nvm_base::{Sink, Steps, Words, write_whole};
use pmem::{Lines, Pmem};
use std::alloc::Global;
use std::sync::ledger::Ledger;

/// What is written first where a pool's file was made.
pub const CREATED: &str = "created\n";

/// Why not all commands were answered.
#[derive(Clone, Copy, PartialEq, Eq)]
pub(crate) enum Unheld {
    /// There was no memory for the lines of the answer at hand.
    NoMemory,
    /// The answer at hand wasn't written.
    WriteFault,
    /// The answer at hand was written, and the device isn't mirrored in its file any more.
    GivenUp,
}

/// Writes an answer, and sees whether the device is still mirrored in its file.
fn answer_kept<K: Sink, N: Lines + Drop, F: LineFile + Drop>(
    alloc: Global,
    answer: &Answer,
    out: &mut K,
    dev: &FilePmem<N, F>,
) -> Result<(), Unheld>
    ensures whole { OnOk result (Appends (K.written out.old) (K.written out.new)
        (answer_text answer.now)) }
    ensures broken { IfErr result (λ why. EndsAt why dev.now.link.state (K.written out.old)
        (K.written out.new) (answer_text answer.now)) }
    ensures kept { OnOk result (dev.now.link.state ≡ Awake) }
    ensures write { IsErrOf result Unheld.WriteFault
        → Rose (K.faults out.old) (K.faults out.new) }
    ensures count { K.faults out.old ≤ K.faults out.new }
{
    match put_answer(alloc, answer, false, out) {
        Err(Unwritten::NoMemory) => Err(Unheld::NoMemory),
        Err(Unwritten::WriteFault) => Err(Unheld::WriteFault),
        Ok(()) if dev.keeps() => Ok(()),
        Ok(()) => Err(Unheld::GivenUp),
    }
}

/// Runs the commands in order, and writes each answer before the next command. It ends at the
/// first answer after which the device isn't mirrored in its file. Tells whether one of the answers
/// is a trap or a refusal.
fn answer_held<K: Sink, N: Lines + Drop, F: LineFile + Drop, L: Ledger>(
    alloc: Global,
    program: &Program,
    commands: &[Command],
    session: &mut Session,
    traps: &mut Traps,
    out: &mut K,
    dev: &mut FilePmem<N, F>,
    steps: &mut Steps<L>,
) -> Result<bool, Unheld>
    requires lines { (file_device N.memory dev.old).lines
        ≡ pool_lines program.now.image.parts.sizes }
    requires awake { dev.old.link.state ≡ Awake }
    ensures whole { IfOk result (λ unmet. RunsAndWrites program.now commands.now session.old
        (file_device N.memory dev.old) (K.written out.old) steps.old false
        (file_device N.memory dev.new) (K.written out.new) steps.new unmet) }
    ensures broken { IfErr result (λ why. BreaksOff why dev.new.link.state program.now commands.now
        session.old (file_device N.memory dev.old) (K.written out.old) steps.old
        (file_device N.memory dev.new) (K.written out.new) steps.new) }
    ensures kept { OnOk result (dev.new.link.state ≡ Awake) }
    ensures write { IsErrOf result Unheld.WriteFault
        → Rose (K.faults out.old) (K.faults out.new) }
    ensures lines { (file_device N.memory dev.new).lines
        ≡ pool_lines program.now.image.parts.sizes }
{
    let mut unmet = false;
    for given in commands {
        let answer = session.command(alloc, program, given, dev, steps);
        traps.saw(&answer, session);
        unmet = unmet_after(unmet, &answer);
        if let Err(why) = answer_kept(alloc, &answer, out, dev) {
            return Err(why);
        }
    }
    Ok(unmet)
}

/// The status of a run of commands.
fn status_of(answered: Result<bool, Unheld>) -> Status
    ensures { result ≡ status_of answered }
{
    match answered {
        Ok(unmet) => Status::answered(unmet),
        Err(Unheld::NoMemory) => Status::NoMemory,
        Err(Unheld::WriteFault) => Status::WriteFault,
        Err(Unheld::GivenUp) => Status::DeviceFault,
    }
}

/// Opens the pool with these words, which are those of the file, mirrors it in the file, and gives
/// the answer of the recovery that opens it.
pub fn start_held<N: Lines + Drop, F: LineFile + Drop, L: Ledger>(
    alloc: Global,
    program: &Program,
    words: &[i64],
    file: F,
    dev: &mut FilePmem<N, F>,
    steps: &mut Steps<L>,
) -> Result<(Session, Answer), StartFault>
    requires holds { HoldsWords (F.content file)
        (pool_lines program.now.image.parts.sizes) words.now }
    ensures opens { IfOk result (λ r. Opens program.now words.now (file_device N.memory dev.old) r.1
        r.0 (file_device N.memory dev.new) steps.old steps.new) }
    ensures lines { OnOk result ((file_device N.memory dev.new).lines
        ≡ pool_lines program.now.image.parts.sizes) }
    ensures refused { IfErr result (λ why. IsUnmade why (pool_lines program.now.image.parts.sizes)
        (opening_events (pool_lines program.now.image.parts.sizes) words.now)
        (file_device N.memory dev.old) (file_device N.memory dev.new)) }
    ensures unstepped { OnErr result (steps.new ≡ steps.old) }
{
    match open_pool(program.image.sizes(), words, dev) {
        Ok(()) => (),
        Err(fault) => return Err(fault),
    }
    dev.know();
    dev.hold(file);
    dev.wake();
    Ok(resume(alloc, program, dev, steps))
}

/// Opens the pool with these words, which are those of the file, mirrors it in the file, and writes
/// how it was recovered. Or a run ends so before its first command.
pub fn open_held<K: Sink, N: Lines + Drop, F: LineFile + Drop, L: Ledger>(
    alloc: Global,
    program: &Program,
    words: &[i64],
    file: F,
    traps: &mut Traps,
    out: &mut K,
    dev: &mut FilePmem<N, F>,
    steps: &mut Steps<L>,
) -> Result<Session, Status>
    requires holds { HoldsWords (F.content file)
        (pool_lines program.now.image.parts.sizes) words.now }
    ensures opened { IfOk result (λ session. OpensTold program.now words.now session
        dev.new.link.state (K.written out.old) (K.written out.new) (file_device N.memory dev.old)
        (file_device N.memory dev.new) steps.old steps.new) }
    ensures lines { OnOk result ((file_device N.memory dev.new).lines
        ≡ pool_lines program.now.image.parts.sizes) }
    ensures ended { IfErr result (λ status. HeldAs program.now [] words.now status
        dev.new.link.state (K.written out.old) (K.written out.new) (file_device N.memory dev.old)
        (file_device N.memory dev.new) steps.old steps.new) }
    ensures undone { IsErrOf result Status.Done → ⊥ }
    ensures unmet { IsErrOf result Status.Unmet → ⊥ }
    ensures read { IsErrOf result Status.ReadFault → ⊥ }
    ensures usage { IsErrOf result Status.Usage → ⊥ }
    ensures busy { IsErrOf result Status.PoolBusy → ⊥ }
    ensures write { IsErrOf result Status.WriteFault → Rose (K.faults out.old) (K.faults out.new) }
    ensures count { K.faults out.old ≤ K.faults out.new }
{
    let (session, answer) = match start_held(alloc, program, words, file, dev, steps) {
        Ok(started) => started,
        Err(StartFault::Failed) => return Err(Status::DeviceFault),
        Err(StartFault::NoMemory) => return Err(Status::NoMemory),
    };
    traps.saw(&answer, &session);
    match answer_kept(alloc, &answer, out, dev) {
        Ok(()) => Ok(session),
        Err(why) => Err(status_of(Err(why))),
    }
}

/// Runs the script's commands on a pool that is mirrored in its file, and writes each answer before
/// the next.
pub fn answer_script<K: Sink, N: Lines + Drop, F: LineFile + Drop, L: Ledger>(
    alloc: Global,
    program: &Program,
    script: &Script,
    session: &mut Session,
    traps: &mut Traps,
    out: &mut K,
    dev: &mut FilePmem<N, F>,
    steps: &mut Steps<L>,
) -> Status
    requires lines { (file_device N.memory dev.old).lines
        ≡ pool_lines program.now.image.parts.sizes }
    requires awake { dev.old.link.state ≡ Awake }
    ensures read { result ≢ Status.ReadFault }
    ensures usage { result ≢ Status.Usage }
    ensures busy { result ≢ Status.PoolBusy }
    ensures write { result ≡ Status.WriteFault → Rose (K.faults out.old) (K.faults out.new) }
    ensures answered { AnswersAs program.now script.now session.old result dev.new.link.state
        (K.written out.old) (K.written out.new) (file_device N.memory dev.old)
        (file_device N.memory dev.new) steps.old steps.new }
{
    let commands = script.as_slice();
    status_of(answer_held(alloc, program, commands, session, traps, out, dev, steps))
}

/// Opens the pool with these words, which are those of the file, mirrors it in the file, and writes
/// how it was recovered; then runs the script's commands, and writes each answer before the next.
/// The words are let go once the pool is open.
pub fn run_held<K: Sink, N: Lines + Drop, F: LineFile + Drop, L: Ledger>(
    alloc: Global,
    program: &Program,
    script: &Script,
    words: Words,
    file: F,
    traps: &mut Traps,
    out: &mut K,
    dev: &mut FilePmem<N, F>,
    steps: &mut Steps<L>,
) -> Status
    requires holds { HoldsWords (F.content file)
        (pool_lines program.now.image.parts.sizes) words }
    ensures read { result ≢ Status.ReadFault }
    ensures usage { result ≢ Status.Usage }
    ensures busy { result ≢ Status.PoolBusy }
    ensures write { result ≡ Status.WriteFault → Rose (K.faults out.old) (K.faults out.new) }
    ensures ran { HeldAs program.now script.now words result dev.new.link.state
        (K.written out.old) (K.written out.new) (file_device N.memory dev.old)
        (file_device N.memory dev.new) steps.old steps.new }
{
    match open_held(
        alloc,
        program,
        words.as_slice(),
        file,
        traps,
        out,
        dev,
        steps,
    ) {
        Ok(mut session) => {
            drop(words);
            answer_script(alloc, program, script, &mut session, traps, out, dev, steps)
        }
        Err(status) => status,
    }
}

/// Creates a pool on a device, and gives its words.
pub fn create_held<P: Pmem>(
    alloc: Global,
    program: &Program,
    dev: &mut P,
) -> Result<(Session, Words), StartFault>
    ensures creates { CreatesWords program.now result (P.device dev.old) (P.device dev.new) }
    ensures lines { OnOk result ((P.device dev.new).lines
        ≡ pool_lines program.now.image.parts.sizes) }
{
    let session = match create(program, dev) {
        Ok(session) => session,
        Err(fault) => return Err(fault),
    };
    match words_of(alloc, program.image.sizes(), dev) {
        Ok(words) => Ok((session, words)),
        Err(_) => Err(StartFault::NoMemory),
    }
}

/// Mirrors a new pool in the file that was made of its words, and writes that it was created; then
/// runs the script's commands, and writes each answer before the next.
pub fn run_new<K: Sink, N: Lines + Drop, F: LineFile + Drop, L: Ledger>(
    alloc: Global,
    program: &Program,
    script: &Script,
    mut session: Session,
    file: F,
    traps: &mut Traps,
    out: &mut K,
    dev: &mut FilePmem<N, F>,
    steps: &mut Steps<L>,
) -> Status
    requires ready { session ≡ Ready }
    requires lines { (file_device N.memory dev.old).lines
        ≡ pool_lines program.now.image.parts.sizes }
    requires holds { HoldsWords (F.content file) (file_device N.memory dev.old).lines
        (words_from (view (file_device N.memory dev.old).cache) 0
        (8 * (file_device N.memory dev.old).lines)) }
    ensures read { result ≢ Status.ReadFault }
    ensures usage { result ≢ Status.Usage }
    ensures busy { result ≢ Status.PoolBusy }
    ensures write { result ≡ Status.WriteFault → Rose (K.faults out.old) (K.faults out.new) }
    ensures ran { NewAs program.now script.now result dev.new.link.state
        (K.written out.old) (K.written out.new) (file_device N.memory dev.old)
        (file_device N.memory dev.new) steps.old steps.new }
{
    dev.know();
    dev.hold(file);
    dev.wake();
    if let Err(_) = write_whole(out, CREATED.as_bytes()) {
        return Status::WriteFault;
    }
    answer_script(alloc, program, script, &mut session, traps, out, dev, steps)
}
