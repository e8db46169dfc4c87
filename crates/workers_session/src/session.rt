//! The workers of a program on one device, and what each command does to them.

ghost use Rattle.std.specs.Prelude.{ℕ, ◌≡◌, ◌+◌, ◌*◌, ◌≤◌, ◌<◌, ◌++◌, true, false, length, None};
ghost use Rattle.std.specs.Prelude.{Some, IfOk, IfErr, IfNone, IsNone, OnOk, IsErrOf, List};
ghost use Rattle.std.specs.Prelude.{[], ◌∷◌, replicate};
ghost use Rattle.pmem.specs.Device.{FaultsRose, blanked, powered};
ghost use Rattle.pmem.specs.Played.{PlaysAll};
ghost use Rattle.pool_layout.specs.Sizes.{pool_lines};
ghost use Rattle.pool_workers.specs.Crew.{task_at, AreTasks, OtherTasksStay, HasCompartments};
ghost use Rattle.pool_workers.specs.Crew.{standing_at};
ghost use Rattle.pool_workers.specs.Making.{creations, Unmade};
ghost use Rattle.recovery.specs.declared.answer.RecoverAnswer.{RecoverAnswer};
ghost use Rattle.workers_session.specs.Told.{GivesLines};
ghost use Rattle.workers_session.specs.declared.line.WorkersLine.{WorkersLine as Line};
ghost use Rattle.workers_session.specs.WorkersState.{IsReadyFor, unready, marked_line, refusal_at};
ghost use Rattle.workers_session.specs.WorkersState.{stranger_in};
ghost use Rattle.workers_session.specs.WorkersCommands.{scene_of, BeginsAs, Starts, ShowsWorker};
ghost use Rattle.workers_session.specs.WorkersCommands.{LastsWorker, TurnsOnce, TurnList};
ghost use Rattle.workers_session.specs.WorkersCommands.{TurnsGiven, FinishesAll, AreIdle};
ghost use Rattle.workers_session.specs.WorkersCommands.{ends_power, RecoversOne, RecoversFrom};
ghost use Rattle.workers_session.specs.WorkersCommands.{recovered_line};
ghost use Rattle.workers_session.specs.WorkersCommands.{Resumes, PowersAll, WorkersCommanded};
ghost use Rattle.workers_session.specs.WorkersCommands.{stopped_line};
ghost use Rattle.workers_session.specs.WorkersCommands.{stopped_lines, turn_lines, round_from};
ghost use Rattle.workers_session.specs.WorkersCommands.{rounds_of};
ghost use Rattle.workers_session.specs.inside.Turning.{Extends, turns_in, busy_one, busy_first};

use crate::line::{WorkersLine, WorkersLines, add, no_line, one};
use crate::looking::{last_of, owed_in, standing_of, text_of};
use crate::outcome::{begin_line, begin_runs_out, ends_power, is_interrupted, keeps_down};
use cache_model::{Choice, PickFault};
use cnvm_session::{
    Answer, Program, answer_of_recovery, first_fallen, is_unsigned, looks, parameters, policy_of,
    rolls_back,
};
use nvm_base::Steps;
use pm_machine::{Image, Stop};
use pmem::Pmem;
use pool_workers::{MakeFault, TurnAnswer, Workers};
use std::alloc::{AllocError, Global};
use std::marker::{Brand, Model};
use std::sync::ledger::Ledger;
use tx_run::Standing;
use workers_script::WorkersCommand;

/// The workers of a device, and whether all of them are down. They are seen as both.
#[derive(Drop)]
pub struct WorkersSession {
    workers: Workers,
    down: bool,
    pick_fault: Option<PickFault>,
}

impl Model for WorkersSession {
    ghost use Rattle.workers_session.specs.WorkersState.{WorkersState};

    ghost Value = { WorkersState };

    ghost view = { λ s. record { tasks = s.workers; down = s.down } };
}

/// Starts `count` workers, each on a new pool of the program in a compartment of its own. After a
/// fault the events before it stay done.
pub fn create_workers<P: Pmem>(
    alloc: Global,
    program: &Program,
    count: u32,
    dev: &mut P,
) -> Result<WorkersSession, MakeFault>
    requires first { 1 ≤ count }
    requires last { count ≤ 8 }
    ensures up { IfOk result (λ s. s ≡ record { tasks = replicate count None; down = false }) }
    ensures done { OnOk result (PlaysAll
        (blanked (pool_lines program.now.image.parts.sizes * count) (P.device dev.old))
        (creations program.now.image.parts.sizes program.now.digest 0 count)
        (P.device dev.new)) }
    ensures sound { IfOk result (λ s. IsReadyFor program.now.image s (P.device dev.new)) }
    ensures refused { IfErr result (λ why. Unmade why program.now.image.parts.sizes
        program.now.digest count (P.device dev.old) (P.device dev.new)) }
    ensures failed { IsErrOf result MakeFault.Failed
        → FaultsRose (P.device dev.old).faults (P.device dev.new).faults }
{
    match Workers::create(alloc, &program.image, program.digest, count, dev) {
        Ok(workers) => Ok(WorkersSession {
            workers,
            down: false,
            pick_fault: None,
        }),
        Err(fault) => Err(fault),
    }
}

/// `count` workers that are down and have no transaction, for compartments that lie on a device.
#[tactic(auto, using(crate::proofs::Crews::idle_long))]
pub fn idle_workers(alloc: Global, count: u32) -> Result<WorkersSession, AllocError>
    requires last { count ≤ 8 }
    ensures idle { IfOk result (λ s. s ≡ record { tasks = replicate count None; down = true }) }
    ensures count { IfOk result (λ s. length s.tasks ≡ count) }
{
    let workers = Workers::idle(alloc, count)?;
    Ok(WorkersSession {
        workers,
        down: true,
        pick_fault: None,
    })
}

impl WorkersSession {
    /// Where the machine of a worker did its last instruction: after a trap, where that came.
    pub fn stop(&self, worker: u32) -> Option<Stop> {
        self.workers.stop(worker)
    }

    /// After a line that refuses a pick: why.
    pub fn pick_fault(&self) -> Option<PickFault> {
        self.pick_fault
    }

    /// Opens the pools in the compartments of a device: each is recovered, from 0 on, as after a
    /// power cut. Gives the lines; `None` if there was no memory to hold them.
    #[tactic(auto, using(crate::proofs::Crews::idle_tasks, crate::proofs::Crews::idle_resumes))]
    pub fn resume<P: Pmem + Drop, L: Ledger>(
        &mut self,
        alloc: Global,
        program: &Program,
        dev: &mut P,
        steps: &mut Steps<L>,
    ) -> Option<WorkersLines>
        requires few { length self.old.tasks ≤ 8 }
        requires idle { self.old.tasks ≡ replicate (length self.old.tasks) None }
        requires lines { HasCompartments program.now.image self.old.tasks (P.device dev.old) }
        requires on { (P.device dev.old).on ≡ true }
        ensures resumes { (lines : List Line) × GivesLines result lines
            × Resumes program.now (length self.old.tasks) (P.device dev.old) steps.old lines
            (scene_of self.new (P.device dev.new) steps.new) }
        ensures sound { IsReadyFor program.now.image self.new (P.device dev.new) }
    {
        self.recover_all(program, no_line(alloc), dev, steps)
    }

    /// Does a command of a script, and gives its lines; `None` if there was no memory to hold them.
    pub fn command<P: Pmem + Drop, L: Ledger>(
        &mut self,
        alloc: Global,
        program: &Program,
        command: &WorkersCommand,
        dev: &mut P,
        steps: &mut Steps<L>,
    ) -> Option<WorkersLines>
        requires sound { IsReadyFor program.now.image self.old (P.device dev.old) }
        ensures does { (lines : List Line) × GivesLines result lines
            × WorkersCommanded program.now command.now
            (scene_of self.old (P.device dev.old) steps.old) lines
            (scene_of self.new (P.device dev.new) steps.new) }
        ensures sound { IsReadyFor program.now.image self.new (P.device dev.new) }
    {
        match command {
            WorkersCommand::Start { worker, name, args } => {
                one(
                    alloc,
                    self.start(program, *worker, name.as_str(), args.as_slice(), dev),
                )
            }
            WorkersCommand::Turn(workers) => {
                self.turns(alloc, program, workers.as_slice(), dev, steps)
            }
            WorkersCommand::Finish => self.finish(alloc, program, dev, steps),
            WorkersCommand::Stop(k) => {
                dev.arm(*k);
                no_line(alloc)
            }
            WorkersCommand::Fault(k) => {
                dev.arm_fault(*k);
                no_line(alloc)
            }
            WorkersCommand::Power(choice) => self.power(alloc, program, choice, dev, steps),
            WorkersCommand::Show(worker) => one(alloc, self.show(alloc, program, *worker, dev)),
            WorkersCommand::Last(worker) => one(alloc, self.last(&program.image, *worker, dev)),
        }
    }

    /// Why a worker takes no command, in this order: all are down, there is no such worker, or it
    /// has an unfinished transaction.
    fn unready(&self, worker: u32) -> Option<WorkersLine>
        ensures value { result ≡ unready self.now worker }
        ensures known { IsNone result → worker < length self.now.tasks }
        ensures idle { IsNone result → task_at self.now.tasks worker ≡ None }
        ensures up { IsNone result → self.now.down ≡ false }
    {
        if self.down {
            return Some(WorkersLine::Plain(Answer::RefusedDown));
        }
        if worker >= self.workers.count() {
            return Some(WorkersLine::RefusedWorker(worker));
        }
        match self.workers.phase(worker) {
            Some(_) => Some(WorkersLine::RefusedBusy(worker)),
            None => None,
        }
    }

    /// Why a worker takes no command; last, its compartment has a mark.
    fn refusal<P: Pmem + Drop>(
        &self,
        image: &Image,
        worker: u32,
        dev: &mut P,
    ) -> Option<WorkersLine>
        requires sound { IsReadyFor image.now self.now (P.device dev.old) }
        ensures value { result ≡ refusal_at image.now self.now worker (P.device dev.old) }
        ensures known { IsNone result → worker < length self.now.tasks }
        ensures idle { IsNone result → task_at self.now.tasks worker ≡ None }
        ensures up { IsNone result → self.now.down ≡ false }
        ensures unmarked { IsNone result
            → marked_line (standing_at image.now worker (P.device dev.old)) ≡ None }
        ensures same { P.device dev.new ≡ P.device dev.old }
    {
        if let Some(line) = self.unready(worker) {
            return Some(line);
        }
        match standing_of::<P, Brand>(image, worker, dev) {
            Standing::Unusable(kind) => { Some(WorkersLine::Plain(Answer::RefusedUnusable(kind))) }
            Standing::Ready | Standing::Numbers | Standing::Off => None,
        }
    }

    /// Begins the transaction of that name.
    fn start<P: Pmem + Drop>(
        &mut self,
        program: &Program,
        worker: u32,
        name: &str,
        args: &[i64],
        dev: &mut P,
    ) -> WorkersLine
        requires sound { IsReadyFor program.now.image self.old (P.device dev.old) }
        ensures starts { (k : ℕ) → Starts
            (refusal_at program.now.image self.old worker (P.device dev.old)) program.now worker
            name.now args.now (scene_of self.old (P.device dev.old) k) (result ∷ [])
            (scene_of self.new (P.device dev.new) k) }
        ensures sound { IsReadyFor program.now.image self.new (P.device dev.new) }
    {
        if let Some(line) = self.refusal(&program.image, worker, dev) {
            return line;
        }
        let Some(tx) = program.typed.tx_number(name) else {
            return WorkersLine::Plain(Answer::RefusedUnknown);
        };
        let Some(count) = parameters(&program.image, tx) else {
            return WorkersLine::Plain(Answer::RefusedUnknown);
        };
        if rolls_back(program, tx) {
            return WorkersLine::RefusedAbort;
        }
        if count != args.len() as u64 {
            return WorkersLine::Plain(Answer::RefusedArity);
        }
        self.begin(&program.image, worker, tx, args, looks(program, tx), dev)
    }

    /// Begins a transaction of a worker that takes one, by whether it only looks.
    fn begin<P: Pmem>(
        &mut self,
        image: &Image,
        worker: u32,
        tx: u64,
        args: &[i64],
        looks: bool,
        dev: &P,
    ) -> WorkersLine
        requires sound { IsReadyFor image.now self.old (P.device dev.now) }
        requires known { worker < length self.old.tasks }
        requires idle { task_at self.old.tasks worker ≡ None }
        requires up { self.old.down ≡ false }
        requires unmarked { marked_line (standing_at image.now worker (P.device dev.now)) ≡ None }
        requires first { 1 ≤ tx }
        requires last { tx ≤ length image.now.parts.txs }
        ensures begins { (k : ℕ) → BeginsAs (standing_at image.now worker (P.device dev.now))
            looks image.now worker tx args.now (scene_of self.old (P.device dev.now) k)
            (result ∷ []) (scene_of self.new (P.device dev.now) k) }
        ensures sound { IsReadyFor image.now self.new (P.device dev.now) }
    {
        let answer = self.workers.begin(image, worker, tx, args, looks, dev);
        self.down = begin_runs_out(answer);
        begin_line(answer, worker)
    }

    /// The first of these numbers that no worker has.
    fn stranger(&self, workers: &[u32]) -> Option<u32>
        ensures { result ≡ stranger_in (length self.now.tasks) workers.now }
    {
        let count = self.workers.count();
        for worker in workers {
            if *worker >= count {
                return Some(*worker);
            }
        }
        None
    }

    /// A turn of each of these workers, in this order, up to one that is interrupted.
    fn turns<P: Pmem + Drop, L: Ledger>(
        &mut self,
        alloc: Global,
        program: &Program,
        workers: &[u32],
        dev: &mut P,
        steps: &mut Steps<L>,
    ) -> Option<WorkersLines>
        requires sound { IsReadyFor program.now.image self.old (P.device dev.old) }
        ensures does { (lines : List Line) × GivesLines result lines
            × TurnsGiven self.old.down program.now workers.now
            (scene_of self.old (P.device dev.old) steps.old) lines
            (scene_of self.new (P.device dev.new) steps.new) }
        ensures sound { IsReadyFor program.now.image self.new (P.device dev.new) }
    {
        if self.down {
            return one(alloc, WorkersLine::Plain(Answer::RefusedDown));
        }
        if let Some(worker) = self.stranger(workers) {
            return one(alloc, WorkersLine::RefusedWorker(worker));
        }
        self.turn_list(program, workers, no_line(alloc), dev, steps)
    }

    /// A turn of each of these workers, up to one that is interrupted.
    fn turn_list<P: Pmem + Drop, L: Ledger>(
        &mut self,
        program: &Program,
        workers: &[u32],
        told: Option<WorkersLines>,
        dev: &mut P,
        steps: &mut Steps<L>,
    ) -> Option<WorkersLines>
        requires sound { IsReadyFor program.now.image self.old (P.device dev.old) }
        requires up { self.old.down ≡ false }
        requires known { stranger_in (length self.old.tasks) workers.now ≡ None }
        ensures does { (lines : List Line) × Extends told result lines
            × TurnList program.now workers.now
            (scene_of self.old (P.device dev.old) steps.old) lines
            (scene_of self.new (P.device dev.new) steps.new) }
        ensures sound { IsReadyFor program.now.image self.new (P.device dev.new) }
    {
        let mut told = told;
        for worker in workers {
            told = self.turn(program, *worker, told, dev, steps);
            if self.down {
                return told;
            }
        }
        told
    }

    /// Turns of all workers in rounds, until each is idle or one is interrupted.
    fn finish<P: Pmem + Drop, L: Ledger>(
        &mut self,
        alloc: Global,
        program: &Program,
        dev: &mut P,
        steps: &mut Steps<L>,
    ) -> Option<WorkersLines>
        requires sound { IsReadyFor program.now.image self.old (P.device dev.old) }
        ensures does { (lines : List Line) × GivesLines result lines
            × FinishesAll self.old.down program.now (scene_of self.old (P.device dev.old) steps.old)
            lines (scene_of self.new (P.device dev.new) steps.new) }
        ensures sound { IsReadyFor program.now.image self.new (P.device dev.new) }
    {
        if self.down {
            return one(alloc, WorkersLine::Plain(Answer::RefusedDown));
        }
        self.rounds(program, no_line(alloc), dev, steps)
    }

    /// Turns in rounds, until each worker is idle or a turn is interrupted.
    fn rounds<P: Pmem + Drop, L: Ledger>(
        &mut self,
        program: &Program,
        told: Option<WorkersLines>,
        dev: &mut P,
        steps: &mut Steps<L>,
    ) -> Option<WorkersLines>
        requires sound { IsReadyFor program.now.image self.old (P.device dev.old) }
        requires up { self.old.down ≡ false }
        ensures does { (lines : List Line) × Extends told result lines
            × FinishesAll false program.now (scene_of self.old (P.device dev.old) steps.old)
            lines (scene_of self.new (P.device dev.new) steps.new) }
        ensures sound { IsReadyFor program.now.image self.new (P.device dev.new) }
    {
        let mut told = told;
        'rounds: while !self.is_over() {
            told = self.round(program, told, dev, steps);
        }
        told
    }

    /// Whether no turn is left: each worker is idle, or all are down.
    fn is_over(&self) -> bool
        ensures idle { result ≡ true → self.now.down ≡ false → AreIdle self.now.tasks }
        ensures up { result ≡ false → self.now.down ≡ false }
        ensures busy { result ≡ false → 0 < busy_first (length self.now.tasks) self.now.tasks }
    {
        self.down || self.are_idle()
    }

    /// The number of workers.
    fn count(&self) -> u32
        ensures { result ≡ length self.now.tasks }
    {
        self.workers.count()
    }

    /// Whether no worker has an unfinished transaction.
    fn are_idle(&self) -> bool
        ensures idle { result ≡ true → AreIdle self.now.tasks }
        ensures busy { result ≡ false → 0 < busy_first (length self.now.tasks) self.now.tasks }
    {
        for worker in 0..self.workers.count() {
            if self.workers.phase(worker).is_some() {
                return false;
            }
        }
        true
    }

    /// A turn of each worker, up to one that is interrupted.
    fn round<P: Pmem + Drop, L: Ledger>(
        &mut self,
        program: &Program,
        told: Option<WorkersLines>,
        dev: &mut P,
        steps: &mut Steps<L>,
    ) -> Option<WorkersLines>
        requires sound { IsReadyFor program.now.image self.old (P.device dev.old) }
        requires up { self.old.down ≡ false }
        ensures does { (lines : List Line) × Extends told result lines
            × TurnList program.now (round_from 0 (length self.old.tasks))
            (scene_of self.old (P.device dev.old) steps.old) lines
            (scene_of self.new (P.device dev.new) steps.new) }
        ensures sound { IsReadyFor program.now.image self.new (P.device dev.new) }
        ensures count { length self.new.tasks ≡ length self.old.tasks }
        ensures fewer { self.new.down ≡ false → turns_in program.now.image.parts.most self.new.tasks
            + busy_first (length self.old.tasks) self.old.tasks
            ≤ turns_in program.now.image.parts.most self.old.tasks }
    {
        let mut told = told;
        for worker in 0..self.count() {
            told = self.turn(program, worker, told, dev, steps);
            if self.down {
                return told;
            }
        }
        told
    }

    /// A turn of a worker. If it is interrupted, all workers are down.
    fn turn<P: Pmem + Drop, L: Ledger>(
        &mut self,
        program: &Program,
        worker: u32,
        told: Option<WorkersLines>,
        dev: &mut P,
        steps: &mut Steps<L>,
    ) -> Option<WorkersLines>
        requires sound { IsReadyFor program.now.image self.old (P.device dev.old) }
        requires up { self.old.down ≡ false }
        requires known { worker < length self.old.tasks }
        ensures does { (lines : List Line) × Extends told result lines
            × TurnsOnce program.now worker (scene_of self.old (P.device dev.old) steps.old) lines
            (scene_of self.new (P.device dev.new) steps.new) }
        ensures sound { IsReadyFor program.now.image self.new (P.device dev.new) }
        ensures count { length self.new.tasks ≡ length self.old.tasks }
        ensures others { OtherTasksStay worker self.old.tasks self.new.tasks }
        ensures fewer { self.new.down ≡ false → turns_in program.now.image.parts.most self.new.tasks
            + busy_one (task_at self.old.tasks worker)
            ≤ turns_in program.now.image.parts.most self.old.tasks }
    {
        let unsigned = is_unsigned(program, self.workers.tx(worker));
        let answer = self.workers.turn(&program.image, worker, dev, steps);
        self.down = is_interrupted(answer);
        self.turned(unsigned, answer, worker, told)
    }

    /// The lines of a turn, by whether its transaction returns `uint64_t`.
    fn turned(
        &self,
        unsigned: bool,
        answer: TurnAnswer,
        worker: u32,
        told: Option<WorkersLines>,
    ) -> Option<WorkersLines>
        ensures { Extends told result (turn_lines unsigned answer worker self.now.tasks) }
    {
        match answer {
            TurnAnswer::Idle | TurnAnswer::Went => told,
            TurnAnswer::Done { value, logged } => {
                let answer = Answer::Done {
                    value,
                    unsigned,
                    logged,
                };
                add(told, WorkersLine::Own { worker, answer })
            }
            TurnAnswer::Trap(kind) => {
                let answer = Answer::Trap(kind);
                add(told, WorkersLine::Own { worker, answer })
            }
            TurnAnswer::Aborted(kind) => {
                let answer = Answer::Aborted(kind);
                add(told, WorkersLine::Own { worker, answer })
            }
            TurnAnswer::Off => self.stopped(told),
            TurnAnswer::Failed => add(told, WorkersLine::Plain(Answer::DeviceFault)),
            TurnAnswer::NoMemory => add(told, WorkersLine::Plain(Answer::NoMemory)),
        }
    }

    /// A line for each unfinished transaction.
    fn stopped(&self, told: Option<WorkersLines>) -> Option<WorkersLines>
        ensures { Extends told result (stopped_lines 0 self.now.tasks) }
    {
        let mut told = told;
        for worker in 0..self.workers.count() {
            told = self.stopped_at(worker, told);
        }
        told
    }

    fn stopped_at(&self, worker: u32, told: Option<WorkersLines>) -> Option<WorkersLines>
        requires { worker < length self.now.tasks }
        ensures { Extends told result (stopped_line worker (task_at self.now.tasks worker)) }
    {
        match self.workers.phase(worker) {
            Some(phase) => {
                let answer = Answer::Stopped(phase);
                add(told, WorkersLine::Own { worker, answer })
            }
            None => told,
        }
    }

    /// Cuts the power, and recovers what the cut leaves.
    fn power<P: Pmem + Drop, L: Ledger>(
        &mut self,
        alloc: Global,
        program: &Program,
        choice: &Choice,
        dev: &mut P,
        steps: &mut Steps<L>,
    ) -> Option<WorkersLines>
        requires sound { IsReadyFor program.now.image self.old (P.device dev.old) }
        ensures does { (lines : List Line) × GivesLines result lines
            × PowersAll program.now choice.now
            (scene_of self.old (P.device dev.old) steps.old) lines
            (scene_of self.new (P.device dev.new) steps.new) }
        ensures sound { IsReadyFor program.now.image self.new (P.device dev.new) }
    {
        if let Some(line) = first_fallen(choice.picks.as_slice()) {
            self.pick_fault = Some(PickFault::Falling);
            return one(alloc, WorkersLine::Plain(Answer::RefusedPick(line)));
        }
        match dev.power(choice) {
            Err(pick) => {
                self.pick_fault = Some(PickFault::Missing(pick));
                one(alloc, WorkersLine::Plain(Answer::RefusedPick(pick.line)))
            }
            Ok(()) => self.recover_all(program, no_line(alloc), dev, steps),
        }
    }

    /// Recovers each compartment, from 0 on, up to a recovery that is interrupted. The workers are
    /// up again if none was, and each compartment's pool is recovered or has a mark.
    fn recover_all<P: Pmem + Drop, L: Ledger>(
        &mut self,
        program: &Program,
        told: Option<WorkersLines>,
        dev: &mut P,
        steps: &mut Steps<L>,
    ) -> Option<WorkersLines>
        requires few { length self.old.tasks ≤ 8 }
        requires tasks { AreTasks program.now.image self.old.tasks }
        requires lines { HasCompartments program.now.image self.old.tasks (P.device dev.old) }
        requires on { (P.device dev.old).on ≡ true }
        ensures does { (lines : List Line) × Extends told result lines
            × RecoversFrom program.now 0 (length self.old.tasks)
            (scene_of (record { tasks = self.old.tasks; down = false }) (P.device dev.old)
            steps.old) lines (scene_of self.new (P.device dev.new) steps.new) }
        ensures sound { IsReadyFor program.now.image self.new (P.device dev.new) }
    {
        self.down = false;
        self.recoveries(program, told, dev, steps)
    }

    /// Recovers each compartment, from 0 on, up to a recovery that is interrupted.
    fn recoveries<P: Pmem + Drop, L: Ledger>(
        &mut self,
        program: &Program,
        told: Option<WorkersLines>,
        dev: &mut P,
        steps: &mut Steps<L>,
    ) -> Option<WorkersLines>
        requires few { length self.old.tasks ≤ 8 }
        requires tasks { AreTasks program.now.image self.old.tasks }
        requires lines { HasCompartments program.now.image self.old.tasks (P.device dev.old) }
        requires on { (P.device dev.old).on ≡ true }
        ensures does { (lines : List Line) × Extends told result lines
            × RecoversFrom program.now 0 (length self.old.tasks)
            (scene_of self.old (P.device dev.old) steps.old) lines
            (scene_of self.new (P.device dev.new) steps.new) }
        ensures sound { IsReadyFor program.now.image self.new (P.device dev.new) }
    {
        let mut told = told;
        for worker in 0..self.count() {
            let (more, ends) = self.recover(program, worker, told, dev, steps);
            told = more;
            if ends {
                return told;
            }
        }
        told
    }

    /// Recovers a compartment, by the mark and the type of the transaction that it owes. Gives the
    /// lines, and whether no compartment after it is recovered.
    fn recover<P: Pmem + Drop, L: Ledger>(
        &mut self,
        program: &Program,
        worker: u32,
        told: Option<WorkersLines>,
        dev: &mut P,
        steps: &mut Steps<L>,
    ) -> (Option<WorkersLines>, bool)
        requires worker { worker < length self.old.tasks }
        requires few { length self.old.tasks ≤ 8 }
        requires tasks { AreTasks program.now.image self.old.tasks }
        requires lines { HasCompartments program.now.image self.old.tasks (P.device dev.old) }
        requires on { (P.device dev.old).on ≡ true }
        ensures recovers { (a : RecoverAnswer) × RecoversOne program.now worker a
            (scene_of self.old (P.device dev.old) steps.old)
            (scene_of self.new (P.device dev.new) steps.new)
            × Extends told result.0 (recovered_line program.now worker a
            (scene_of self.old (P.device dev.old) steps.old) ∷ [])
            × (result.1 ≡ ends_power a) × (result.1 ≡ true → self.new.down ≡ true) }
        ensures on { result.1 ≡ false → (P.device dev.new).on ≡ true }
        ensures dropped { task_at self.new.tasks worker ≡ None }
        ensures others { OtherTasksStay worker self.old.tasks self.new.tasks }
        ensures count { length self.new.tasks ≡ length self.old.tasks }
        ensures tasks { AreTasks program.now.image self.new.tasks }
        ensures lines { HasCompartments program.now.image self.new.tasks (P.device dev.new) }
    {
        let (marked, unsigned) = owed_in::<P, Brand>(program, worker, dev);
        let policy = policy_of(marked);
        let answer = self
            .workers
            .recover_one(&program.image, worker, policy, dev, steps);
        self.down = self.down || keeps_down(answer);
        let own = WorkersLine::Own {
            worker,
            answer: answer_of_recovery(unsigned, answer),
        };
        (add(told, own), ends_power(answer))
    }

    /// The pool of a worker.
    fn show<P: Pmem + Drop>(
        &mut self,
        alloc: Global,
        program: &Program,
        worker: u32,
        dev: &mut P,
    ) -> WorkersLine
        requires sound { IsReadyFor program.now.image self.old (P.device dev.old) }
        ensures shows { (k : ℕ) → ShowsWorker
            (refusal_at program.now.image self.old worker (P.device dev.old)) program.now worker
            (scene_of self.old (P.device dev.old) k) (result ∷ [])
            (scene_of self.new (P.device dev.new) k) }
        ensures sound { IsReadyFor program.now.image self.new (P.device dev.new) }
    {
        if let Some(line) = self.refusal(&program.image, worker, dev) {
            return line;
        }
        match text_of::<P, Brand>(alloc, program, worker, dev) {
            Ok(text) => WorkersLine::Plain(Answer::Shown(text)),
            Err(_) => {
                self.down = true;
                WorkersLine::Plain(Answer::NoMemory)
            }
        }
    }

    /// How many transactions of a worker are finished, and the value of the last.
    fn last<P: Pmem + Drop>(&self, image: &Image, worker: u32, dev: &mut P) -> WorkersLine
        requires sound { IsReadyFor image.now self.now (P.device dev.old) }
        ensures lasts { (k : ℕ) → LastsWorker
            (refusal_at image.now self.now worker (P.device dev.old)) image.now worker
            (scene_of self.now (P.device dev.old) k) (result ∷ [])
            (scene_of self.now (P.device dev.new) k) }
        ensures same { P.device dev.new ≡ P.device dev.old }
    {
        if let Some(line) = self.refusal(image, worker, dev) {
            return line;
        }
        let (done, value) = last_of::<P, Brand>(image, worker, dev);
        WorkersLine::Plain(Answer::Last { done, value })
    }
}
