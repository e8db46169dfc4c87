//! The workers of a device.

ghost use Rattle.std.specs.Prelude.{◌≡◌, ◌≢◌, ◌+◌, ◌*◌, ◌≤◌, ◌<◌, true, false, Some, None, length};
ghost use Rattle.std.specs.Prelude.{slice_set, option_map, IfOk, IfErr, OnOk, IsErrOf, replicate};
ghost use Rattle.std.specs.Option.{option_map_or};
ghost use Rattle.pmem.specs.Device.{FaultsRose, blanked};
ghost use Rattle.pmem.specs.Played.{PlaysAll};
ghost use Rattle.pool_layout.specs.Sizes.{pool_lines};
ghost use Rattle.pool_map.specs.declared.trap.TrapKind.{TrapKind};
ghost use Rattle.pmem.specs.declared.answer.Phase.TheVariants as at_phase;
ghost use Rattle.tx_run.specs.Due.{most_steps};
ghost use Rattle.tx_run.specs.declared.standing.Standing.TheVariants as stands;
ghost use Rattle.recovery.specs.Recovered.{IsRecovered};
ghost use Rattle.pool_workers.specs.declared.answer.BeginAnswer.TheVariants as begins;
ghost use Rattle.pool_workers.specs.declared.task.Task.{Task};
ghost use Rattle.pool_workers.specs.Task.{first_task, IsUncutOr, IsGoing, ticks_of, task_phase};
ghost use Rattle.pool_workers.specs.Task.{task_tx};
ghost use Rattle.pool_workers.specs.Making.{creations, Unmade};
ghost use Rattle.pool_workers.specs.Crew.{task_at, AreTasks, OtherTasksStay, compartment};
ghost use Rattle.pool_workers.specs.Crew.{HasCompartments, StaysAside, standing_at, Begins, TurnOf};

use crate::answer::{BeginAnswer, MakeFault, TurnAnswer};
use crate::creating::{create_pools, idle};
use crate::look::Look;
use crate::opening::{recover_on, turn_task};
use crate::standing::assess_at;
use crate::task::{Task, is_last, phase_of, stop_of, tx_of};
use crate::window::first_line;
use nvm_base::{Steps, Words};
use pm_machine::{Image, Machine, Policy, Spare, Stop};
use pmem::{Phase, Pmem, PmemWork};
use recovery::RecoverAnswer;
use std::alloc::{AllocError, Global};
use std::marker::{Brand, Model};
use std::sync::ledger::Ledger;
use tx_run::Standing;

/// The workers of a device, one for each compartment, from 1 to 8, with the unfinished transaction
/// of each. It is seen as the list of these. Beside them stands where the machine of each worker
/// did its last instruction, which no clause names.
#[derive(Drop)]
pub struct Workers {
    alloc: Global,
    tasks: Vec<Option<Task>>,
    stops: [Option<Stop>; 8],
}

impl Model for Workers {
    ghost use Rattle.std.specs.Prelude.{◌≤◌, vec_len};
    ghost use Rattle.pool_workers.specs.Crew.{Tasks};

    ghost Value = { Tasks };

    ghost view = { λ w. w.tasks.items };

    ghost invariant = { λ w. vec_len w.tasks ≤ 8 };
}

/// A copy of a list of words.
fn copied(alloc: Global, words: &[i64]) -> Result<Words, AllocError>
    ensures { IfOk result (λ all. all ≡ words.now) }
{
    let mut all = Words::new(alloc);
    for word in words {
        all.push(*word)?;
    }
    Ok(all)
}

/// A transaction at its start. The memory for the machine's frames is allocated here.
#[tactic(auto, using(crate::proofs::Turns::first_is))]
fn new_task(
    alloc: Global,
    image: &Image,
    tx: u64,
    args: &[i64],
    looks: bool,
) -> Result<Task, AllocError>
    requires first { 1 ≤ tx }
    requires last { tx ≤ length image.now.parts.txs }
    ensures { IfOk result (λ t. t ≡ first_task looks image.now tx args.now) }
{
    let mut machine = Machine::new(alloc, image, tx, args)?;
    machine.begin(Policy::EndPool, 0);
    if looks {
        return Ok(Task::Looking {
            tx,
            look: Look::Fresh { machine },
        });
    }
    let args = copied(alloc, args)?;
    Ok(Task::Begun { tx, args, machine })
}

/// Notes where a machine of a worker stands, if it has one.
fn note(stops: &mut [Option<Stop>; 8], worker: u32, stop: Option<Stop>) {
    if let (Some(noted), Some(_)) = (stops.get_mut(worker as usize), stop) {
        *noted = stop;
    }
}

impl Workers {
    /// Where the machine of a worker did its last instruction: after a trap, where that came.
    pub fn stop(&self, worker: u32) -> Option<Stop> {
        *self.stops.get(worker as usize)?
    }

    fn put_task(&mut self, worker: u32, task: Option<Task>)
        requires { worker < length self.old }
        ensures { self.new ≡ slice_set self.old worker task }
    {
        self.tasks[worker as usize] = task;
    }

    fn drop_task(&mut self, worker: u32)
        requires { worker < length self.old }
        ensures { self.new ≡ slice_set self.old worker None }
    {
        self.put_task(worker, None);
    }

    /// How far the seal of the worker's transaction has come, and `None` exactly if it has no
    /// transaction. It takes no memory.
    pub fn phase(&self, worker: u32) -> Option<Phase>
        requires worker { worker < length self.now }
        ensures { result ≡ option_map task_phase (task_at self.now worker) }
    {
        match &self.tasks[worker as usize] {
            None => None,
            Some(task) => Some(phase_of(task)),
        }
    }

    /// The number of the worker's transaction; 0 if it has none, or its turn was refused.
    pub fn tx(&self, worker: u32) -> u64
        requires worker { worker < length self.now }
        ensures { result ≡ option_map_or task_tx (task_at self.now worker) 0 }
    {
        match &self.tasks[worker as usize] {
            None => 0,
            Some(task) => tx_of(task),
        }
    }

    /// `count` workers without a transaction, for compartments that lie on a device.
    pub fn idle(alloc: Global, count: u32) -> Result<Workers, AllocError>
        requires last { count ≤ 8 }
        ensures idle { IfOk result (λ w. w ≡ replicate count None) }
    {
        let tasks = idle(alloc, count)?;
        Ok(Workers {
            alloc,
            tasks,
            stops: [None; 8],
        })
    }

    /// Creates `count` pools on blank lines, for the program with this digest. No worker has a
    /// transaction. After a fault the events before it are done; `Failed` is answered only if the
    /// device's count of faults rose.
    pub fn create<P: Pmem>(
        alloc: Global,
        image: &Image,
        digest: [i64; 4],
        count: u32,
        dev: &mut P,
    ) -> Result<Workers, MakeFault>
        requires first { 1 ≤ count }
        requires last { count ≤ 8 }
        ensures done { OnOk result
            (PlaysAll (blanked (pool_lines image.now.parts.sizes * count) (P.device dev.old))
            (creations image.now.parts.sizes digest 0 count) (P.device dev.new)) }
        ensures idle { IfOk result (λ w. w ≡ replicate count None) }
        ensures tasks { IfOk result (λ w. AreTasks image.now w) }
        ensures lines { IfOk result (λ w. HasCompartments image.now w (P.device dev.new)) }
        ensures refused { IfErr result (λ why.
            Unmade why image.now.parts.sizes digest count (P.device dev.old) (P.device dev.new)) }
        ensures failed { IsErrOf result MakeFault.Failed →
            FaultsRose (P.device dev.old).faults (P.device dev.new).faults }
    {
        let Ok(workers) = Workers::idle(alloc, count) else {
            return Err(MakeFault::NoMemory);
        };
        match create_pools(image.sizes(), &digest, count, dev) {
            Ok(()) => Ok(workers),
            Err(fault) => Err(fault),
        }
    }

    /// The number of workers.
    pub fn count(&self) -> u32
        ensures value { result ≡ length self.now }
        ensures few { result ≤ 8 }
    {
        self.tasks.len() as u32
    }

    /// The next turn of a worker: the seal, one instruction, or the retirement or the mark. One
    /// that only looks has as many turns and plays nothing. The answer is `Idle` exactly if the
    /// worker has no transaction. It is `Off` on a device that is off, where nothing has changed,
    /// and if the power went at an event. An instruction is one step.
    pub fn turn<P: Pmem + Drop, L: Ledger>(
        &mut self,
        image: &Image,
        worker: u32,
        dev: &mut P,
        steps: &mut Steps<L>,
    ) -> TurnAnswer
        requires worker { worker < length self.old }
        requires tasks { AreTasks image.now self.old }
        requires uncut { IsUncutOr (task_at self.old worker) }
        requires lines { HasCompartments image.now self.old (P.device dev.old) }
        ensures idle { task_at self.old worker ≡ None →
            (result ≡ TurnAnswer.Idle) × (self.new ≡ self.old)
            × (P.device dev.new ≡ P.device dev.old) × (steps.new ≡ steps.old) }
        ensures turned { (t : Task) → task_at self.old worker ≡ Some t →
            (P.device dev.old).on ≡ true →
            TurnOf image.now worker result self.old self.new (P.device dev.old) (P.device dev.new)
            × (steps.new ≡ steps.old + ticks_of t) }
        ensures off { (t : Task) → task_at self.old worker ≡ Some t →
            (P.device dev.old).on ≡ false →
            (result ≡ TurnAnswer.Off) × (task_at self.new worker ≡ Some t)
            × (P.device dev.new ≡ P.device dev.old) × (steps.new ≡ steps.old) }
        ensures uncut { IsGoing result → IsUncutOr (task_at self.new worker) }
        ensures most { steps.new ≤ steps.old + 1 }
        ensures others { OtherTasksStay worker self.old self.new }
        ensures count { length self.new ≡ length self.old }
        ensures tasks { AreTasks image.now self.new }
        ensures aside { StaysAside image.now worker (P.device dev.old) (P.device dev.new) }
        ensures lines { HasCompartments image.now self.new (P.device dev.new) }
    {
        let answer = match &mut self.tasks[worker as usize] {
            None => return TurnAnswer::Idle,
            Some(task) => {
                note(&mut self.stops, worker, stop_of(task));
                turn_task(image, worker, task, dev, steps)
            }
        };
        if is_last(answer) {
            self.drop_task(worker);
        }
        answer
    }

    /// Recovers a worker's compartment, with the answers of `recover`, by the policy of the
    /// transaction that it owes. It first drops the worker's transaction, whatever the answer is
    /// then. On a device that is off no line has changed.
    pub fn recover_one<P: Pmem + Drop, L: Ledger>(
        &mut self,
        image: &Image,
        worker: u32,
        policy: Policy,
        dev: &mut P,
        steps: &mut Steps<L>,
    ) -> RecoverAnswer
        requires worker { worker < length self.old }
        requires tasks { AreTasks image.now self.old }
        requires lines { HasCompartments image.now self.old (P.device dev.old) }
        ensures recovered { IsRecovered result policy image.now
            (compartment image.now worker (P.device dev.old))
            (compartment image.now worker (P.device dev.new)) steps.old steps.new }
        ensures off { (P.device dev.old).on ≡ false →
            (result ≡ RecoverAnswer.Off at_phase.Unsealed)
            × (P.device dev.new ≡ P.device dev.old) × (steps.new ≡ steps.old) }
        ensures dropped { task_at self.new worker ≡ None }
        ensures most { steps.new
            ≤ steps.old + image.now.parts.sizes.records + most_steps policy image.now }
        ensures others { OtherTasksStay worker self.old self.new }
        ensures count { length self.new ≡ length self.old }
        ensures tasks { AreTasks image.now self.new }
        ensures aside { StaysAside image.now worker (P.device dev.old) (P.device dev.new) }
        ensures lines { HasCompartments image.now self.new (P.device dev.new) }
    {
        self.drop_task(worker);
        let mut spare = Spare::new();
        let answer = recover_on::<P, L, Brand>(
            self.alloc, &mut spare, image, worker, policy, dev, steps,
        );
        note(&mut self.stops, worker, spare.stop());
        answer
    }

    /// Begins a transaction, counted from 1, with as many arguments as it has parameters, which
    /// only looks, or doesn't. It checks first whether the worker is busy, then the device, then
    /// the mark of its compartment, then the numbers, unless it only looks. It plays no event.
    pub fn begin<P: Pmem>(
        &mut self,
        image: &Image,
        worker: u32,
        tx: u64,
        args: &[i64],
        looks: bool,
        dev: &P,
    ) -> BeginAnswer
        requires worker { worker < length self.old }
        requires tasks { AreTasks image.now self.old }
        requires lines { HasCompartments image.now self.old (P.device dev.now) }
        requires first { 1 ≤ tx }
        requires last { tx ≤ length image.now.parts.txs }
        ensures busy { (t : Task) → task_at self.old worker ≡ Some t →
            (result ≡ BeginAnswer.Busy) × (self.new ≡ self.old) }
        ensures off { task_at self.old worker ≡ None → (P.device dev.now).on ≡ false →
            (result ≡ BeginAnswer.Off) × (self.new ≡ self.old) }
        ensures unusable { (kind : TrapKind) → task_at self.old worker ≡ None →
            (P.device dev.now).on ≡ true →
            standing_at image.now worker (P.device dev.now) ≡ stands.Unusable kind →
            (result ≡ begins.Unusable kind) × (self.new ≡ self.old) }
        ensures numbers { looks ≡ false → task_at self.old worker ≡ None →
            (P.device dev.now).on ≡ true →
            standing_at image.now worker (P.device dev.now) ≡ stands.Numbers →
            (result ≡ BeginAnswer.Numbers) × (self.new ≡ self.old) }
        ensures ready { task_at self.old worker ≡ None → (P.device dev.now).on ≡ true →
            standing_at image.now worker (P.device dev.now) ≡ stands.Ready →
            Begins result looks image.now tx args.now (task_at self.new worker) }
        ensures unnumbered { looks ≡ true → task_at self.old worker ≡ None →
            (P.device dev.now).on ≡ true →
            standing_at image.now worker (P.device dev.now) ≡ stands.Numbers →
            Begins result looks image.now tx args.now (task_at self.new worker) }
        ensures uncut { IsUncutOr (task_at self.old worker) → IsUncutOr (task_at self.new worker) }
        ensures others { OtherTasksStay worker self.old self.new }
        ensures count { length self.new ≡ length self.old }
        ensures tasks { AreTasks image.now self.new }
    {
        if let Some(_) = &self.tasks[worker as usize] {
            return BeginAnswer::Busy;
        }
        match assess_at(image.sizes(), worker, dev) {
            Standing::Ready => {}
            Standing::Off => return BeginAnswer::Off,
            Standing::Unusable(kind) => return BeginAnswer::Unusable(kind),
            Standing::Numbers => {
                if !looks {
                    return BeginAnswer::Numbers;
                }
            }
        }
        match new_task(self.alloc, image, tx, args, looks) {
            Ok(task) => {
                self.put_task(worker, Some(task));
                BeginAnswer::Started
            }
            Err(_) => BeginAnswer::NoMemory,
        }
    }
}
