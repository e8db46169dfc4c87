//! A session: a pool of a program, and what each command does to it.

ghost use Rattle.std.specs.Prelude.{ℕ, ◌≡◌, ◌+◌, ◌≤◌, ◌<◌, true, false, length, IfOk, IfErr};
ghost use Rattle.std.specs.Prelude.{IfNone, IsSome, OnOk, OnErr, IsErrOf};
ghost use Rattle.cache_model.specs.Cache.{view};
ghost use Rattle.cache_model.specs.Collapse.{Rises};
ghost use Rattle.pmem.specs.Device.{FaultsRose, blanked, powered};
ghost use Rattle.pmem.specs.Played.{PlaysAll};
ghost use Rattle.pool_layout.specs.declared.places.TheConstants.{FUNCTION};
ghost use Rattle.pool_layout.specs.Sizes.{pool_lines};
ghost use Rattle.pool_layout.specs.Image.{is_sealed};
ghost use Rattle.args_log.specs.Created.{creation_events};
ghost use Rattle.cnvm_session.specs.Opening.{opening_events};
ghost use Rattle.cnvm_session.specs.Unmade.{IsUnmade};
ghost use Rattle.cnvm_session.specs.Moving.{is_recovered};
ghost use Rattle.c_types.specs.Shapes.{shapes_of};
ghost use Rattle.cnvm_session.specs.Marks.{rolls_back_of, owes_marked};
ghost use Rattle.cnvm_session.specs.Outcomes.{RunsBy, Looks, RunsAs, Runs, RecoversBy, Recovers};
ghost use Rattle.cnvm_session.specs.Outcomes.{Opens};
ghost use Rattle.cnvm_session.specs.Steps.{bounded_steps, most_of_command, most_of_program};
ghost use Rattle.cnvm_session.specs.Commands.{Lasts, Tells, Shows, TellsDead, ShowsDead};
ghost use Rattle.cnvm_session.specs.Commands.{tx_parameters, CallsTo, Calls, fallen, Powers};
ghost use Rattle.cnvm_session.specs.Commands.{Commanded};

use crate::answer::Answer;
use crate::creating::{StartFault, create_pool};
use crate::marks::{is_unsigned, looks, owes_marked, owes_unsigned, policy_of, rolls_back};
use crate::mode::Mode;
use crate::opening::open_pool;
use crate::outcome::{
    answer_of_call, answer_of_look, answer_of_recovery, mode_of_call, mode_of_look,
    mode_of_recovery,
};
use crate::program::Program;
use crate::showing::pool_text;
use cache_model::{Choice, Pick, PickFault};
use cnvm_script::Command;
use nvm_base::Steps;
use pm_machine::{Image, Spare, Stop};
use pmem::{Pmem, PmemWork};
use pool_layout::{DONE, LAST};
use pool_map::TrapKind;
use recovery::recover_with;
use std::alloc::Global;
use std::marker::Model;
use std::sync::ledger::Ledger;
use tx_run::{call, look};

/// A pool of a program and whether it takes calls, seen as the latter. The pool's words are on the
/// device. The machine of a call is kept for the next.
#[derive(Drop)]
pub struct Session {
    mode: Mode,
    spare: Spare,
    pick_fault: Option<PickFault>,
}

impl Model for Session {
    ghost use Rattle.cnvm_session.specs.declared.mode.Mode.{Mode};

    ghost Value = { Mode };

    ghost view = { λ s. s.mode };
}

impl Session {
    /// A session that has no machine yet.
    fn in_mode(mode: Mode) -> Session
        ensures { result ≡ mode }
    {
        Session {
            mode,
            spare: Spare::new(),
            pick_fault: None,
        }
    }

    /// Whether nothing is owed: the pool takes calls, or a trap has ended it.
    pub fn is_recovered(&self) -> bool
        ensures { result ≡ is_recovered self.now }
    {
        match self.mode {
            Mode::Ready | Mode::Unusable(_) => true,
            Mode::Down => false,
        }
    }

    /// Where the last run of a transaction ended, if there was one: after an answer that tells a
    /// trap, where it trapped.
    pub fn stop(&self) -> Option<Stop> {
        self.spare.stop()
    }

    /// After an answer that refuses a pick: why.
    pub fn pick_fault(&self) -> Option<PickFault> {
        self.pick_fault
    }
}

/// Starts a session on a new pool of the program: its root words are 0, its slots are free, and no
/// transaction is finished. After a fault the events before it stay done; if there was no memory
/// for the lines, nothing has changed.
pub fn create<P: Pmem>(program: &Program, dev: &mut P) -> Result<Session, StartFault>
    ensures ready { IfOk result (λ session. session ≡ Mode.Ready) }
    ensures done { OnOk result (PlaysAll
        (blanked (pool_lines program.now.image.parts.sizes) (P.device dev.old))
        (creation_events program.now.image.parts.sizes program.now.digest) (P.device dev.new)) }
    ensures lines { OnOk result ((P.device dev.new).lines
        ≡ pool_lines program.now.image.parts.sizes) }
    ensures refused { IfErr result (λ why. IsUnmade why (pool_lines program.now.image.parts.sizes)
        (creation_events program.now.image.parts.sizes program.now.digest) (P.device dev.old)
        (P.device dev.new)) }
    ensures failed { IsErrOf result StartFault.Failed
        → FaultsRose (P.device dev.old).faults (P.device dev.new).faults }
{
    match create_pool(program.image.sizes(), &program.digest, dev) {
        Ok(()) => Ok(Session::in_mode(Mode::Ready)),
        Err(fault) => Err(fault),
    }
}

/// Starts a session on the pool of an image's words, and gives the answer of the recovery that
/// opens it. After a fault the events before it stay done; if there was no memory for the lines,
/// nothing has changed.
pub fn start_from<P: Pmem, L: Ledger>(
    alloc: Global,
    program: &Program,
    words: &[i64],
    dev: &mut P,
    steps: &mut Steps<L>,
) -> Result<(Session, Answer), StartFault>
    ensures opens { IfOk result (λ r. Opens program.now words.now (P.device dev.old) r.1 r.0
        (P.device dev.new) steps.old steps.new) }
    ensures most { OnOk result (steps.new ≤ steps.old + most_of_program program.now) }
    ensures lines { OnOk result ((P.device dev.new).lines
        ≡ pool_lines program.now.image.parts.sizes) }
    ensures refused { IfErr result (λ why. IsUnmade why (pool_lines program.now.image.parts.sizes)
        (opening_events (pool_lines program.now.image.parts.sizes) words.now) (P.device dev.old)
        (P.device dev.new)) }
    ensures unstepped { OnErr result (steps.new ≡ steps.old) }
    ensures failed { IsErrOf result StartFault.Failed
        → FaultsRose (P.device dev.old).faults (P.device dev.new).faults }
{
    match open_pool(program.image.sizes(), words, dev) {
        Err(fault) => Err(fault),
        Ok(()) => Ok(resume(alloc, program, dev, steps)),
    }
}

/// Starts a session on the pool that lies on the device, and gives the answer of the recovery that
/// opens it.
pub fn resume<P: PmemWork, L: Ledger>(
    alloc: Global,
    program: &Program,
    dev: &mut P,
    steps: &mut Steps<L>,
) -> (Session, Answer)
    requires lines { (P.device dev.old).lines ≡ pool_lines program.now.image.parts.sizes }
    requires on { (P.device dev.old).on ≡ true }
    ensures recovers { Recovers program.now (P.device dev.old) result.1 result.0
        (P.device dev.new) steps.old steps.new }
    ensures fault { result.1 ≡ Answer.DeviceFault
        → FaultsRose (P.device dev.old).faults (P.device dev.new).faults }
    ensures most { steps.new ≤ steps.old + bounded_steps
        (owes_marked program.now (P.device dev.old)) program.now.image }
    ensures lines { (P.device dev.new).lines ≡ (P.device dev.old).lines }
{
    let mut session = Session::in_mode(Mode::Down);
    let answer = session.recover(alloc, program, dev, steps);
    (session, answer)
}

/// How many parameters a transaction of the image has, for any number.
pub fn parameters(image: &Image, tx: u64) -> Option<u64>
    ensures value { result ≡ tx_parameters image.now tx }
    ensures first { IsSome result → 1 ≤ tx }
    ensures last { IsSome result → tx ≤ length image.now.parts.txs }
{
    if tx < 1 || image.txs() < tx {
        None
    } else {
        Some(image.parameters(tx))
    }
}

/// The line of the first pick whose line isn't above that of the pick before it.
pub fn first_fallen(picks: &[Pick]) -> Option<u64>
    ensures value { result ≡ fallen 0 picks.now }
    ensures none { IfNone result (Rises picks.now) }
{
    let mut next: u128 = 0;
    for pick in picks {
        if u128::from(pick.line) < next {
            return Some(pick.line);
        }
        next = u128::from(pick.line) + 1;
    }
    None
}

impl Session {
    /// Does a command of the script, and gives its answer. A choice whose picks don't rise is
    /// refused with the first pick that doesn't; no script gives one. A transaction that the image
    /// doesn't have is unknown. One that is marked `abort` and traps is undone, and one that is
    /// marked `const` only looks; the session stays ready.
    pub fn command<P: Pmem, L: Ledger>(
        &mut self,
        alloc: Global,
        program: &Program,
        command: &Command,
        dev: &mut P,
        steps: &mut Steps<L>,
    ) -> Answer
        requires lines { (P.device dev.old).lines ≡ pool_lines program.now.image.parts.sizes }
        ensures does { Commanded program.now command.now self.old (P.device dev.old) result self.new
            (P.device dev.new) steps.old steps.new }
        ensures count { (P.device dev.old).faults ≤ (P.device dev.new).faults }
        ensures fault { result ≡ Answer.DeviceFault
            → FaultsRose (P.device dev.old).faults (P.device dev.new).faults }
        ensures most { steps.new ≤
            steps.old + most_of_command program.now command.now (P.device dev.old) }
        ensures lines { (P.device dev.new).lines ≡ (P.device dev.old).lines }
    {
        match command {
            Command::Call { name, args } => {
                self.call(alloc, program, name.as_str(), args.as_slice(), dev, steps)
            }
            Command::Stop(k) => {
                dev.arm(*k);
                Answer::Silent
            }
            Command::Fault(k) => {
                dev.arm_fault(*k);
                Answer::Silent
            }
            Command::Power(choice) => self.power(alloc, program, choice, dev, steps),
            Command::Show => self.show(alloc, program, dev),
            Command::ShowDead => self.show_dead(alloc, program, dev),
            Command::Last => self.last(dev),
        }
    }

    /// Calls the transaction of that name.
    fn call<P: PmemWork, L: Ledger>(
        &mut self,
        alloc: Global,
        program: &Program,
        name: &str,
        args: &[i64],
        dev: &mut P,
        steps: &mut Steps<L>,
    ) -> Answer
        requires lines { (P.device dev.old).lines ≡ pool_lines program.now.image.parts.sizes }
        ensures calls { Calls program.now name.now args.now self.old (P.device dev.old) result
            self.new (P.device dev.new) steps.old steps.new }
        ensures count { (P.device dev.old).faults ≤ (P.device dev.new).faults }
        ensures fault { result ≡ Answer.DeviceFault
            → FaultsRose (P.device dev.old).faults (P.device dev.new).faults }
        ensures most { steps.new ≤ steps.old + bounded_steps false program.now.image }
        ensures lines { (P.device dev.new).lines ≡ (P.device dev.old).lines }
    {
        match self.mode {
            Mode::Down => Answer::RefusedDown,
            Mode::Unusable(kind) => Answer::RefusedUnusable(kind),
            Mode::Ready => match program.typed.tx_number(name) {
                None => Answer::RefusedUnknown,
                Some(tx) => self.call_to(alloc, program, tx, args, dev, steps),
            },
        }
    }

    /// Calls a transaction by its number, in a session that is ready.
    fn call_to<P: PmemWork, L: Ledger>(
        &mut self,
        alloc: Global,
        program: &Program,
        tx: u64,
        args: &[i64],
        dev: &mut P,
        steps: &mut Steps<L>,
    ) -> Answer
        requires ready { self.old ≡ Mode.Ready }
        requires lines { (P.device dev.old).lines ≡ pool_lines program.now.image.parts.sizes }
        ensures calls { CallsTo (tx_parameters program.now.image tx) program.now tx args.now
            (P.device dev.old) result self.new (P.device dev.new) steps.old steps.new }
        ensures count { (P.device dev.old).faults ≤ (P.device dev.new).faults }
        ensures fault { result ≡ Answer.DeviceFault
            → FaultsRose (P.device dev.old).faults (P.device dev.new).faults }
        ensures most { steps.new ≤ steps.old + bounded_steps false program.now.image }
        ensures lines { (P.device dev.new).lines ≡ (P.device dev.old).lines }
    {
        let Some(count) = parameters(&program.image, tx) else {
            return Answer::RefusedUnknown;
        };
        if count != args.len() as u64 {
            return Answer::RefusedArity;
        }
        self.run(alloc, program, tx, args, dev, steps)
    }

    /// Runs a call that is accepted.
    fn run<P: PmemWork, L: Ledger>(
        &mut self,
        alloc: Global,
        program: &Program,
        tx: u64,
        args: &[i64],
        dev: &mut P,
        steps: &mut Steps<L>,
    ) -> Answer
        requires ready { self.old ≡ Mode.Ready }
        requires first { 1 ≤ tx }
        requires last { tx ≤ length program.now.image.parts.txs }
        requires lines { (P.device dev.old).lines ≡ pool_lines program.now.image.parts.sizes }
        ensures runs { Runs program.now tx args.now (P.device dev.old) result self.new
            (P.device dev.new) steps.old steps.new }
        ensures count { (P.device dev.old).faults ≤ (P.device dev.new).faults }
        ensures fault { result ≡ Answer.DeviceFault
            → FaultsRose (P.device dev.old).faults (P.device dev.new).faults }
        ensures most { steps.new ≤ steps.old + bounded_steps false program.now.image }
        ensures lines { (P.device dev.new).lines ≡ (P.device dev.old).lines }
    {
        self.run_as(
            looks(program, tx),
            rolls_back(program, tx),
            is_unsigned(program, tx),
            alloc,
            &program.image,
            tx,
            args,
            dev,
            steps,
        )
    }

    /// Runs a call, by its transaction's marks.
    #[tactic(auto, using(crate::proofs::Bounding::look_ends))]
    fn run_as<P: PmemWork, L: Ledger>(
        &mut self,
        only_looks: bool,
        marked: bool,
        unsigned: bool,
        alloc: Global,
        image: &Image,
        tx: u64,
        args: &[i64],
        dev: &mut P,
        steps: &mut Steps<L>,
    ) -> Answer
        requires first { 1 ≤ tx }
        requires last { tx ≤ length image.now.parts.txs }
        requires lines { (P.device dev.old).lines ≡ pool_lines image.now.parts.sizes }
        ensures runs { RunsAs only_looks marked unsigned image.now tx args.now (P.device dev.old)
            result self.new (P.device dev.new) steps.old steps.new }
        ensures count { (P.device dev.old).faults ≤ (P.device dev.new).faults }
        ensures fault { result ≡ Answer.DeviceFault
            → FaultsRose (P.device dev.old).faults (P.device dev.new).faults }
        ensures most { steps.new ≤ steps.old + bounded_steps false image.now }
        ensures lines { (P.device dev.new).lines ≡ (P.device dev.old).lines }
    {
        if only_looks {
            self.look(unsigned, alloc, image, tx, args, dev, steps)
        } else {
            self.run_by(marked, unsigned, alloc, image, tx, args, dev, steps)
        }
    }

    /// Runs a transaction that only looks.
    #[tactic(auto, using(crate::proofs::Calls::look_no_fault))]
    fn look<P: PmemWork, L: Ledger>(
        &mut self,
        unsigned: bool,
        alloc: Global,
        image: &Image,
        tx: u64,
        args: &[i64],
        dev: &mut P,
        steps: &mut Steps<L>,
    ) -> Answer
        requires first { 1 ≤ tx }
        requires last { tx ≤ length image.now.parts.txs }
        requires lines { (P.device dev.old).lines ≡ pool_lines image.now.parts.sizes }
        ensures looks { Looks unsigned image.now tx args.now (P.device dev.old) result self.new
            (P.device dev.new) steps.old steps.new }
        ensures same { P.device dev.new ≡ P.device dev.old }
        ensures fault { result ≡ Answer.DeviceFault → ⊥ }
        ensures most { steps.new ≤ steps.old + image.now.parts.most }
    {
        let seen = look(alloc, &mut self.spare, image, tx, args, dev, steps);
        self.mode = mode_of_look(seen);
        answer_of_look(unsigned, seen)
    }

    /// Runs a call, by whether its transaction is marked.
    #[tactic(auto, using(crate::proofs::Bounding::call_within))]
    fn run_by<P: PmemWork, L: Ledger>(
        &mut self,
        marked: bool,
        unsigned: bool,
        alloc: Global,
        image: &Image,
        tx: u64,
        args: &[i64],
        dev: &mut P,
        steps: &mut Steps<L>,
    ) -> Answer
        requires first { 1 ≤ tx }
        requires last { tx ≤ length image.now.parts.txs }
        requires lines { (P.device dev.old).lines ≡ pool_lines image.now.parts.sizes }
        ensures runs { RunsBy marked unsigned image.now tx args.now (P.device dev.old) result
            self.new (P.device dev.new) steps.old steps.new }
        ensures count { (P.device dev.old).faults ≤ (P.device dev.new).faults }
        ensures fault { result ≡ Answer.DeviceFault
            → FaultsRose (P.device dev.old).faults (P.device dev.new).faults }
        ensures most { steps.new ≤ steps.old + bounded_steps false image.now }
        ensures lines { (P.device dev.new).lines ≡ (P.device dev.old).lines }
    {
        let policy = policy_of(marked);
        let tx_answer = call(alloc, &mut self.spare, image, policy, tx, args, dev, steps);
        self.mode = mode_of_call(tx_answer);
        answer_of_call(unsigned, tx_answer)
    }

    /// Cuts the power, and recovers what the cut leaves.
    fn power<P: Pmem, L: Ledger>(
        &mut self,
        alloc: Global,
        program: &Program,
        choice: &Choice,
        dev: &mut P,
        steps: &mut Steps<L>,
    ) -> Answer
        requires lines { (P.device dev.old).lines ≡ pool_lines program.now.image.parts.sizes }
        ensures powers { Powers program.now choice.now self.old (P.device dev.old) result
            self.new (P.device dev.new) steps.old steps.new }
        ensures count { (P.device dev.old).faults ≤ (P.device dev.new).faults }
        ensures fault { result ≡ Answer.DeviceFault
            → FaultsRose (P.device dev.old).faults (P.device dev.new).faults }
        ensures most { steps.new ≤ steps.old + bounded_steps
            (owes_marked program.now (powered choice.now (P.device dev.old))) program.now.image }
        ensures lines { (P.device dev.new).lines ≡ (P.device dev.old).lines }
    {
        if let Some(line) = first_fallen(choice.picks.as_slice()) {
            self.pick_fault = Some(PickFault::Falling);
            return Answer::RefusedPick(line);
        }
        match dev.power(choice) {
            Err(pick) => {
                self.pick_fault = Some(PickFault::Missing(pick));
                Answer::RefusedPick(pick.line)
            }
            Ok(()) => self.recover(alloc, program, dev, steps),
        }
    }

    /// Recovers what a power cut left.
    fn recover<P: PmemWork, L: Ledger>(
        &mut self,
        alloc: Global,
        program: &Program,
        dev: &mut P,
        steps: &mut Steps<L>,
    ) -> Answer
        requires lines { (P.device dev.old).lines ≡ pool_lines program.now.image.parts.sizes }
        requires on { (P.device dev.old).on ≡ true }
        ensures recovers { Recovers program.now (P.device dev.old) result self.new
            (P.device dev.new) steps.old steps.new }
        ensures count { (P.device dev.old).faults ≤ (P.device dev.new).faults }
        ensures fault { result ≡ Answer.DeviceFault
            → FaultsRose (P.device dev.old).faults (P.device dev.new).faults }
        ensures most { steps.new ≤ steps.old + bounded_steps
            (owes_marked program.now (P.device dev.old)) program.now.image }
        ensures lines { (P.device dev.new).lines ≡ (P.device dev.old).lines }
    {
        self.recover_by(
            owes_marked(program, dev),
            owes_unsigned(program, dev),
            alloc,
            &program.image,
            dev,
            steps,
        )
    }

    /// Recovers a pool, by whether it owes a marked transaction.
    #[tactic(auto, using(crate::proofs::Bounding::recovery_within))]
    fn recover_by<P: PmemWork, L: Ledger>(
        &mut self,
        marked: bool,
        unsigned: bool,
        alloc: Global,
        image: &Image,
        dev: &mut P,
        steps: &mut Steps<L>,
    ) -> Answer
        requires lines { (P.device dev.old).lines ≡ pool_lines image.now.parts.sizes }
        ensures recovers { RecoversBy marked unsigned image.now (P.device dev.old) result self.new
            (P.device dev.new) steps.old steps.new }
        ensures count { (P.device dev.old).faults ≤ (P.device dev.new).faults }
        ensures fault { result ≡ Answer.DeviceFault
            → FaultsRose (P.device dev.old).faults (P.device dev.new).faults }
        ensures most { steps.new ≤ steps.old + bounded_steps marked image.now }
        ensures lines { (P.device dev.new).lines ≡ (P.device dev.old).lines }
    {
        let tx_answer = recover_with(alloc, &mut self.spare, image, policy_of(marked), dev, steps);
        self.mode = mode_of_recovery(tx_answer);
        answer_of_recovery(unsigned, tx_answer)
    }

    /// The lines of the pool.
    fn show<P: PmemWork>(&mut self, alloc: Global, program: &Program, dev: &P) -> Answer
        requires lines { (P.device dev.now).lines ≡ pool_lines program.now.image.parts.sizes }
        ensures fault { result ≡ Answer.DeviceFault → ⊥ }
        ensures shows { (k : ℕ) → Shows (shapes_of program.now.typed) program.now.image.parts.sizes
            self.old (P.device dev.now) result self.new (P.device dev.now) k k }
    {
        match self.mode {
            Mode::Down => Answer::RefusedDown,
            Mode::Unusable(kind) => Answer::RefusedUnusable(kind),
            Mode::Ready => self.ready_pool(alloc, program, dev),
        }
    }

    /// The lines of the pool, also of one that a trap has ended.
    fn show_dead<P: PmemWork>(&mut self, alloc: Global, program: &Program, dev: &P) -> Answer
        requires lines { (P.device dev.now).lines ≡ pool_lines program.now.image.parts.sizes }
        ensures fault { result ≡ Answer.DeviceFault → ⊥ }
        ensures shows { (k : ℕ) → ShowsDead (shapes_of program.now.typed)
            program.now.image.parts.sizes self.old (P.device dev.now) result self.new
            (P.device dev.now) k k }
    {
        match self.mode {
            Mode::Down => Answer::RefusedDown,
            Mode::Unusable(kind) => dead_pool(alloc, program, kind, dev),
            Mode::Ready => self.ready_pool(alloc, program, dev),
        }
    }

    /// The lines of a pool that takes calls. Without memory for them the session is down.
    fn ready_pool<P: PmemWork>(&mut self, alloc: Global, program: &Program, dev: &P) -> Answer
        requires ready { self.old ≡ Mode.Ready }
        requires lines { (P.device dev.now).lines ≡ pool_lines program.now.image.parts.sizes }
        ensures fault { result ≡ Answer.DeviceFault → ⊥ }
        ensures tells { Tells (shapes_of program.now.typed) program.now.image.parts.sizes
            (P.device dev.now) result self.new }
    {
        match pool_text(alloc, program, dev) {
            Ok(text) => Answer::Shown(text),
            Err(_) => {
                self.mode = Mode::Down;
                Answer::NoMemory
            }
        }
    }

    /// How many transactions are finished, and the value of the last.
    fn last<P: PmemWork>(&self, dev: &P) -> Answer
        requires lines { 6 ≤ (P.device dev.now).lines }
        ensures fault { result ≡ Answer.DeviceFault → ⊥ }
        ensures lasts { (k : ℕ) → Lasts self.now (P.device dev.now) result self.now
            (P.device dev.now) k k }
    {
        match self.mode {
            Mode::Down => Answer::RefusedDown,
            Mode::Unusable(kind) => Answer::RefusedUnusable(kind),
            Mode::Ready => {
                let done = word(dev, DONE);
                let value = word(dev, LAST);
                Answer::Last { done, value }
            }
        }
    }
}

/// The lines of a pool that this trap has ended. Without memory for them it stays as it is.
fn dead_pool<P: PmemWork>(alloc: Global, program: &Program, kind: TrapKind, dev: &P) -> Answer
    requires lines { (P.device dev.now).lines ≡ pool_lines program.now.image.parts.sizes }
    ensures fault { result ≡ Answer.DeviceFault → ⊥ }
    ensures tells { TellsDead (shapes_of program.now.typed) program.now.image.parts.sizes kind
        (P.device dev.now) result }
{
    match pool_text(alloc, program, dev) {
        Ok(text) => Answer::ShownDead { kind, text },
        Err(_) => Answer::NoMemory,
    }
}

/// A word of line 2, and 0 while the device is off.
fn word<P: PmemWork>(dev: &P, place: u64) -> i64
    requires place { place < FUNCTION }
    requires lines { 6 ≤ (P.device dev.now).lines }
    ensures { (P.device dev.now).on ≡ true → result ≡ view (P.device dev.now).cache place }
{
    match dev.load(place) {
        Some(word) => word,
        None => 0,
    }
}
