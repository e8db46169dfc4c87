//! A storm: a generated script, and how its commands were answered.

ghost use Rattle.std.specs.Prelude.{◌≡◌, ◌≢◌, ◌<◌, ◌≤◌, ◌-◌, ◌^◌, min, length, OnOk};
ghost use Rattle.std.specs.Prelude.{OnErr, IfOk, IsErrOf, string_bytes};
ghost use Rattle.std.specs.Io.KnownBytes.{Appends};
ghost use Rattle.nvm_base.specs.Parts.{AppendsPart};
ghost use Rattle.nvm_base.specs.Rose.{Rose};
ghost use Rattle.pmem.specs.Device as device;
ghost use Rattle.pool_layout.specs.Sizes.{pool_lines};
ghost use Rattle.c_types.specs.Shapes.{transactions_of};
ghost use Rattle.session_run.specs.Stormed.{command_counted, answer_counted, broken_counted};
ghost use Rattle.session_run.specs.Stormed.{counted, is_check, is_broken, any_broken, with_count};
ghost use Rattle.session_run.specs.Stormed.{tally_text, with_plain, summary_text, no_tally};
ghost use Rattle.session_run.specs.Storms.{CountsAnswers, Rounds, RoundsPart, Rages};
ghost use Rattle.session_run.specs.Storms.{RagesPart, TallyAll, TallyPart, StormsAll};
ghost use Rattle.session_run.specs.Storms.{StormsPart, StormStarves, StormedAs};

use crate::status::Status;
use crate::writing::{Unwritten, put_answer};
use cnvm_script::{Command, Storm};
use cnvm_session::{Answer, Program, Session, StartFault, Traps, create};
use nvm_base::{Sink, Steps, write_whole};
use pmem::Pmem;
use std::alloc::{AllocError, Global};
use std::sync::ledger::Ledger;

/// What a storm is asked to run: the rounds that `start` chooses, `count` of them, each cut after
/// fewer events than `reach`. With `plain` it also writes how many calls were rolled back, and how
/// many checks were broken.
#[derive(Clone, Copy)]
pub struct StormOrder {
    pub start: u64,
    pub count: u64,
    pub reach: u64,
    pub plain: bool,
}

/// How many commands were answered in each way. `broken` are the calls of a transaction `check`
/// that gave another value than 1.
#[derive(Clone, Copy, PartialEq, Eq)]
pub struct Tally {
    pub calls: u64,
    pub done: u64,
    pub stopped: u64,
    pub redone: u64,
    pub none: u64,
    pub trapped: u64,
    pub other: u64,
    pub aborted: u64,
    pub broken: u64,
}

impl Tally {
    fn new() -> Tally
        ensures { result ≡ no_tally }
    {
        Tally {
            calls: 0,
            done: 0,
            stopped: 0,
            redone: 0,
            none: 0,
            trapped: 0,
            other: 0,
            aborted: 0,
            broken: 0,
        }
    }

    /// Counts one command, and how it was answered.
    fn count(&mut self, command: &Command, answer: &Answer)
        ensures { self.new ≡ counted command.now answer.now self.old }
    {
        self.count_command(command);
        self.count_answer(answer);
        self.count_broken(command, answer);
    }

    fn count_command(&mut self, command: &Command)
        ensures { self.new ≡ command_counted command.now self.old }
    {
        match command {
            Command::Call { .. } => self.calls = self.calls.saturating_add(1),
            Command::Stop(_) => (),
            Command::Fault(_) => (),
            Command::Power(_) => (),
            Command::Show => (),
            Command::ShowDead => (),
            Command::Last => (),
        }
    }

    /// An answer without a line doesn't count.
    fn count_answer(&mut self, answer: &Answer)
        ensures { self.new ≡ answer_counted answer.now self.old }
    {
        match answer {
            Answer::Silent => (),
            Answer::Done { .. } => self.done = self.done.saturating_add(1),
            Answer::Stopped(_) => self.stopped = self.stopped.saturating_add(1),
            Answer::RecoveredRedone { .. } => self.redone = self.redone.saturating_add(1),
            Answer::RecoveredNone => self.none = self.none.saturating_add(1),
            Answer::Trap(_) | Answer::RecoveredTrap(_) => {
                self.trapped = self.trapped.saturating_add(1)
            }
            Answer::Aborted(_) => {
                self.other = self.other.saturating_add(1);
                self.aborted = self.aborted.saturating_add(1)
            }
            _ => self.other = self.other.saturating_add(1),
        }
    }

    fn count_broken(&mut self, command: &Command, answer: &Answer)
        ensures { self.new ≡ broken_counted command.now answer.now self.old }
    {
        if is_broken(command, answer) {
            self.broken = self.broken.saturating_add(1);
        }
    }
}

/// Whether this is a call of a transaction named `check`.
fn is_check(command: &Command) -> bool
    ensures { result ≡ is_check command.now }
{
    match command {
        Command::Call { name, .. } => name.as_str() == "check",
        _ => false,
    }
}

/// Whether this is such a call that gave another value than 1.
fn is_broken(command: &Command, answer: &Answer) -> bool
    ensures { result ≡ is_broken command.now answer.now }
{
    match answer {
        Answer::Done { value, .. } => *value != 1 && is_check(command),
        _ => false,
    }
}

/// Makes a new pool, runs a storm on it, and writes the summary and the answer of `last`.
pub fn storm_over<K: Sink, P: Pmem, L: Ledger>(
    alloc: Global,
    program: &Program,
    order: StormOrder,
    traps: &mut Traps,
    out: &mut K,
    dev: &mut P,
    steps: &mut Steps<L>,
) -> Status
    requires { 1 ≤ order.reach }
    ensures read { result ≢ Status.ReadFault }
    ensures usage { result ≢ Status.Usage }
    ensures write { result ≡ Status.WriteFault → Rose (K.faults out.old) (K.faults out.new) }
    ensures device { result ≡ Status.DeviceFault
        → device.FaultsRose (P.device dev.old).faults (P.device dev.new).faults }
    ensures storms { StormedAs program.now order result (K.written out.old)
        (K.written out.new) (P.device dev.old) (P.device dev.new) steps.old steps.new }
{
    let mut session = match create(program, dev) {
        Ok(session) => session,
        Err(StartFault::Failed) => return Status::DeviceFault,
        Err(StartFault::NoMemory) => return Status::NoMemory,
    };
    match storm(alloc, program, order, &mut session, traps, out, dev, steps) {
        Ok(unmet) => Status::answered(unmet),
        Err(Unwritten::NoMemory) => Status::NoMemory,
        Err(Unwritten::WriteFault) => Status::WriteFault,
    }
}

/// Runs the rounds, and writes the summary and the answer of `last`. Tells whether a check was
/// broken.
fn storm<K: Sink, P: Pmem, L: Ledger>(
    alloc: Global,
    program: &Program,
    order: StormOrder,
    session: &mut Session,
    traps: &mut Traps,
    out: &mut K,
    dev: &mut P,
    steps: &mut Steps<L>,
) -> Result<bool, Unwritten>
    requires lines { (P.device dev.old).lines ≡ pool_lines program.now.image.parts.sizes }
    requires reach { 1 ≤ order.reach }
    ensures whole { IfOk result (λ unmet. StormsAll program.now order unmet session.old
        (P.device dev.old) (K.written out.old) steps.old (P.device dev.new) (K.written out.new)
        steps.new) }
    ensures part { OnErr result (StormStarves program.now order session.old
        (P.device dev.old) (K.written out.old) steps.old (P.device dev.new) (K.written out.new)
        steps.new) }
    ensures fault { IsErrOf result Unwritten.WriteFault
        → StormsPart program.now order session.old (P.device dev.old) (K.written out.old)
        steps.old (P.device dev.new) (K.written out.new) steps.new }
    ensures write { IsErrOf result Unwritten.WriteFault
        → Rose (K.faults out.old) (K.faults out.new) }
{
    let mut tally = Tally::new();
    match rounds(
        alloc, program, order, session, traps, &mut tally, dev, steps,
    ) {
        Ok(()) => put_counts(
            alloc,
            program,
            &tally,
            order.plain,
            session,
            out,
            dev,
            steps,
        ),
        Err(_) => Err(Unwritten::NoMemory),
    }
}

/// Writes the summary and the answer of `last`. Tells whether a check was broken.
fn put_counts<K: Sink, P: Pmem, L: Ledger>(
    alloc: Global,
    program: &Program,
    tally: &Tally,
    plain: bool,
    session: &mut Session,
    out: &mut K,
    dev: &mut P,
    steps: &mut Steps<L>,
) -> Result<bool, Unwritten>
    requires lines { (P.device dev.old).lines ≡ pool_lines program.now.image.parts.sizes }
    ensures whole { IfOk result (λ unmet. TallyAll program.now plain tally.now session.old
        (P.device dev.old) (K.written out.old) steps.old (P.device dev.new) (K.written out.new)
        steps.new × (unmet ≡ any_broken tally.now)) }
    ensures part { OnErr result (TallyPart program.now plain tally.now session.old
        (P.device dev.old) (K.written out.old) steps.old (P.device dev.new) (K.written out.new)
        steps.new) }
    ensures write { IsErrOf result Unwritten.WriteFault
        → Rose (K.faults out.old) (K.faults out.new) }
{
    if let Err(why) = put_tally(alloc, tally, plain, out) {
        return Err(why);
    }
    let last = session.command(alloc, program, &Command::Last, dev, steps);
    match put_answer(alloc, &last, false, out) {
        Ok(()) => Ok(tally.broken != 0),
        Err(why) => Err(why),
    }
}

/// Runs the rounds if the program has a transaction; else nothing is run.
fn rounds<P: Pmem, L: Ledger>(
    alloc: Global,
    program: &Program,
    order: StormOrder,
    session: &mut Session,
    traps: &mut Traps,
    tally: &mut Tally,
    dev: &mut P,
    steps: &mut Steps<L>,
) -> Result<(), AllocError>
    requires lines { (P.device dev.old).lines ≡ pool_lines program.now.image.parts.sizes }
    requires reach { 1 ≤ order.reach }
    ensures rages { OnOk result (Rages program.now order tally.old session.old
        (P.device dev.old) steps.old tally.new session.new (P.device dev.new) steps.new) }
    ensures part { OnErr result (RagesPart program.now order tally.old session.old
        (P.device dev.old) steps.old (P.device dev.new) steps.new) }
    ensures lines { (P.device dev.new).lines ≡ (P.device dev.old).lines }
{
    if program.typed.txs() == 0 {
        return Ok(());
    }
    let mut storm = Storm::new(seed(order.start));
    run_rounds(
        alloc, program, order, &mut storm, session, traps, tally, dev, steps,
    )
}

/// The number at which the generator starts.
fn seed(start: u64) -> u32
    ensures { result ≡ min start (2 ^ 32 - 1) }
{
    match u32::try_from(start) {
        Ok(seed) => seed,
        Err(_) => u32::MAX,
    }
}

/// Runs the rounds of a program that has a transaction.
fn run_rounds<P: Pmem, L: Ledger>(
    alloc: Global,
    program: &Program,
    order: StormOrder,
    storm: &mut Storm,
    session: &mut Session,
    traps: &mut Traps,
    tally: &mut Tally,
    dev: &mut P,
    steps: &mut Steps<L>,
) -> Result<(), AllocError>
    requires lines { (P.device dev.old).lines ≡ pool_lines program.now.image.parts.sizes }
    requires some { 0 < length (transactions_of program.now.typed) }
    requires reach { 1 ≤ order.reach }
    ensures rounds { OnOk result (Rounds program.now order.reach storm.old order.count tally.old
        session.old (P.device dev.old) steps.old tally.new session.new (P.device dev.new)
        steps.new) }
    ensures part { OnErr result (RoundsPart program.now order.reach storm.old order.count tally.old
        session.old (P.device dev.old) steps.old (P.device dev.new) steps.new) }
    ensures lines { (P.device dev.new).lines ≡ (P.device dev.old).lines }
{
    for round in 0..order.count {
        let script = storm.round(alloc, &program.typed, order.reach)?;
        run_round(
            alloc,
            program,
            round + 1,
            script.as_slice(),
            session,
            traps,
            tally,
            dev,
            steps,
        );
    }
    Ok(())
}

/// Runs the commands of a round, and counts each.
fn run_round<P: Pmem, L: Ledger>(
    alloc: Global,
    program: &Program,
    round: u64,
    commands: &[Command],
    session: &mut Session,
    traps: &mut Traps,
    tally: &mut Tally,
    dev: &mut P,
    steps: &mut Steps<L>,
)
    requires lines { (P.device dev.old).lines ≡ pool_lines program.now.image.parts.sizes }
    ensures counts { CountsAnswers program.now commands.now tally.old session.old (P.device dev.old)
        steps.old tally.new session.new (P.device dev.new) steps.new }
    ensures lines { (P.device dev.new).lines ≡ (P.device dev.old).lines }
{
    for (at, command) in commands.iter().enumerate() {
        let answer = session.command(alloc, program, command, dev, steps);
        tally.count(command, &answer);
        see(alloc, traps, &answer, session, round, &commands[..at + 1]);
    }
}

/// Takes the answer of the last of these commands of a round, for a message.
fn see(
    alloc: Global,
    traps: &mut Traps,
    answer: &Answer,
    session: &Session,
    round: u64,
    commands: &[Command],
) {
    traps.saw_in_round(alloc, answer, session, round, commands);
    if let Some(command) = commands.last() {
        if is_broken(command, answer) {
            traps.saw_broken(alloc, round, commands);
        }
    }
}

/// Writes the summary.
fn put_tally<K: Sink>(
    alloc: Global,
    tally: &Tally,
    plain: bool,
    out: &mut K,
) -> Result<(), Unwritten>
    ensures whole { OnOk result (Appends (K.written out.old) (K.written out.new)
        (summary_text plain tally.now)) }
    ensures part { OnErr result (AppendsPart (K.written out.old) (K.written out.new)
        (summary_text plain tally.now)) }
    ensures write { IsErrOf result Unwritten.WriteFault
        → Rose (K.faults out.old) (K.faults out.new) }
    ensures count { K.faults out.old ≤ K.faults out.new }
{
    let Ok(text) = summary(alloc, tally, plain) else {
        return Err(Unwritten::NoMemory);
    };
    match write_whole(out, text.as_str().as_bytes()) {
        Ok(()) => Ok(()),
        Err(_) => Err(Unwritten::WriteFault),
    }
}

/// The summary's lines.
fn summary(alloc: Global, tally: &Tally, plain: bool) -> Result<String, AllocError>
    ensures { IfOk result (λ s. string_bytes s ≡ summary_text plain tally.now) }
{
    let mut text = tally_line(alloc, tally)?;
    if !plain {
        return Ok(text);
    }
    push_plain(alloc, &mut text, tally)?;
    Ok(text)
}

/// Appends the line of what is counted besides.
fn push_plain(alloc: Global, text: &mut String, tally: &Tally) -> Result<(), AllocError>
    ensures { OnOk result (string_bytes text.new ≡ with_plain (string_bytes text.old) tally.now) }
{
    push_count(alloc, text, "aborted ", tally.aborted)?;
    push_count(alloc, text, " broken ", tally.broken)?;
    text.push_str("\n")
}

fn tally_line(alloc: Global, tally: &Tally) -> Result<String, AllocError>
    ensures { IfOk result (λ s. string_bytes s ≡ tally_text tally.now) }
{
    let Tally {
        calls,
        done,
        stopped,
        redone,
        none,
        trapped,
        other,
        ..
    } = *tally;
    let mut line = String::new(alloc);
    push_count(alloc, &mut line, "storm calls ", calls)?;
    push_count(alloc, &mut line, " done ", done)?;
    push_count(alloc, &mut line, " stopped ", stopped)?;
    push_count(alloc, &mut line, " redone ", redone)?;
    push_count(alloc, &mut line, " none ", none)?;
    push_count(alloc, &mut line, " trapped ", trapped)?;
    push_count(alloc, &mut line, " other ", other)?;
    line.push_str("\n")?;
    Ok(line)
}

/// Appends the name of a count, followed by the count.
fn push_count(alloc: Global, line: &mut String, name: &str, count: u64) -> Result<(), AllocError>
    ensures { OnOk result (string_bytes line.new ≡ with_count (string_bytes line.old)
        name.now count) }
{
    let number = format!(in alloc; "{count}")?;
    line.push_str(name)?;
    line.push_str(number.as_str())?;
    Ok(())
}
