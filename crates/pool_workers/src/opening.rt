//! A turn and a recovery of one compartment of a device, through a window.

ghost use Rattle.std.specs.Prelude.{◌≡◌, ◌+◌, ◌≤◌, ◌<◌, true, false};
ghost use Rattle.pool_layout.specs.Sizes.{pool_lines};
ghost use Rattle.pmem.specs.declared.answer.Phase.TheVariants as at_phase;
ghost use Rattle.tx_run.specs.Due.{most_steps};
ghost use Rattle.recovery.specs.Recovered.{IsRecovered};
ghost use Rattle.pool_workers.specs.Compartment.{first_line};
ghost use Rattle.pool_workers.specs.Task.{Turned, IsTask, IsUncut, IsUncutOr, IsGoing, ticks_of};
ghost use Rattle.pool_workers.specs.Crew.{compartment, HasCompartment, StaysAside};
ghost use Rattle.pool_workers.specs.inside.Task.{left_task};

use crate::answer::TurnAnswer;
use crate::lens::{Lens, Loan};
use crate::task::Task;
use crate::turning::advance;
use crate::window::{Origin, Window, first_line};
use nvm_base::Steps;
use pm_machine::{Image, Policy, Spare};
use pmem::{Phase, Pmem};
use pool_layout::{LAST, pool_lines};
use recovery::{RecoverAnswer, recover_with};
use std::alloc::Global;
use std::marker::{Brand, PhantomData};
use std::sync::ledger::Ledger;

/// The next turn of a worker's transaction. On a device that is off nothing has changed.
fn turn_on<'a, P: Pmem, L: Ledger, O: Loan>(
    image: &Image,
    worker: u32,
    task: &mut Task,
    dev: &'a mut P,
    steps: &mut Steps<L>,
) -> (TurnAnswer, &'a mut P)
    requires worker { worker < 8 }
    requires name { O.name ≡ dev.ghost_name }
    requires first { O.first ≡ first_line image.now.parts.sizes worker }
    requires lines { O.lines ≡ pool_lines image.now.parts.sizes }
    requires whole { O.whole ≡ P.device dev.old }
    requires inside { HasCompartment image.now worker (P.device dev.old) }
    requires task { IsTask image.now task.old }
    requires uncut { IsUncut task.old }
    ensures same_reference { result.1.ghost_name ≡ dev.entry.ghost_name }
    ensures turned { (P.device dev.old).on ≡ true →
        Turned result.0 image.now task.old (left_task result.0 task.new)
        (compartment image.now worker (P.device dev.old))
        (compartment image.now worker (P.device result.1.now)) }
    ensures cost { (P.device dev.old).on ≡ true → steps.new ≡ steps.old + ticks_of task.old }
    ensures off { (P.device dev.old).on ≡ false → result.0 ≡ TurnAnswer.Off }
    ensures kept { (P.device dev.old).on ≡ false → task.new ≡ task.old }
    ensures same { (P.device dev.old).on ≡ false → P.device result.1.now ≡ P.device dev.old }
    ensures still { (P.device dev.old).on ≡ false → steps.new ≡ steps.old }
    ensures uncut { IsGoing result.0 → IsUncutOr (left_task result.0 task.new) }
    ensures task { IsTask image.now task.new }
    ensures aside { StaysAside image.now worker (P.device dev.old) (P.device result.1.now) }
{
    let Some(_) = dev.load(LAST) else {
        return (TurnAnswer::Off, dev);
    };
    let mut lens: Lens<'a, P, O> = Lens {
        dev,
        first: first_line(image.sizes(), worker),
        count: pool_lines(image.sizes()),
        fenced: false,
        of: PhantomData,
    };
    let answer = advance(image, task, &mut lens, steps);
    let Lens {
        dev,
        first: _,
        count: _,
        fenced: _,
        of: _,
    } = lens;
    (answer, dev)
}

/// The next turn of a worker's transaction. On a device that is off nothing has changed.
pub(crate) fn turn_task<P: Pmem, L: Ledger>(
    image: &Image,
    worker: u32,
    task: &mut Task,
    dev: &mut P,
    steps: &mut Steps<L>,
) -> TurnAnswer
    requires worker { worker < 8 }
    requires inside { HasCompartment image.now worker (P.device dev.old) }
    requires task { IsTask image.now task.old }
    requires uncut { IsUncut task.old }
    ensures turned { (P.device dev.old).on ≡ true →
        Turned result image.now task.old (left_task result task.new)
        (compartment image.now worker (P.device dev.old))
        (compartment image.now worker (P.device dev.new)) }
    ensures cost { (P.device dev.old).on ≡ true → steps.new ≡ steps.old + ticks_of task.old }
    ensures off { (P.device dev.old).on ≡ false → result ≡ TurnAnswer.Off }
    ensures kept { (P.device dev.old).on ≡ false → task.new ≡ task.old }
    ensures same { (P.device dev.old).on ≡ false → P.device dev.new ≡ P.device dev.old }
    ensures still { (P.device dev.old).on ≡ false → steps.new ≡ steps.old }
    ensures uncut { IsGoing result → IsUncutOr (left_task result task.new) }
    ensures task { IsTask image.now task.new }
    ensures aside { StaysAside image.now worker (P.device dev.old) (P.device dev.new) }
{
    let (answer, _) = turn_on::<P, L, Brand>(image, worker, task, dev, steps);
    answer
}

/// The recovery of a worker's compartment, by the policy of its owed transaction. On a device that
/// is off nothing has changed.
pub(crate) fn recover_on<P: Pmem + Drop, L: Ledger, O: Origin>(
    alloc: Global,
    spare: &mut Spare,
    image: &Image,
    worker: u32,
    policy: Policy,
    dev: &mut P,
    steps: &mut Steps<L>,
) -> RecoverAnswer
    requires worker { worker < 8 }
    requires first { O.first ≡ first_line image.now.parts.sizes worker }
    requires lines { O.lines ≡ pool_lines image.now.parts.sizes }
    requires whole { O.whole ≡ P.device dev.old }
    requires inside { HasCompartment image.now worker (P.device dev.old) }
    ensures recovered { IsRecovered result policy image.now
        (compartment image.now worker (P.device dev.old))
        (compartment image.now worker (P.device dev.new)) steps.old steps.new }
    ensures off { (P.device dev.old).on ≡ false → result ≡ RecoverAnswer.Off at_phase.Unsealed }
    ensures same { (P.device dev.old).on ≡ false → P.device dev.new ≡ P.device dev.old }
    ensures still { (P.device dev.old).on ≡ false → steps.new ≡ steps.old }
    ensures most { steps.new
        ≤ steps.old + image.now.parts.sizes.records + most_steps policy image.now }
    ensures aside { StaysAside image.now worker (P.device dev.old) (P.device dev.new) }
{
    let Some(_) = dev.load(LAST) else {
        return RecoverAnswer::Off(Phase::Unsealed);
    };
    let mut window: Window<P, O> = Window::new(dev.take(), image.sizes(), worker);
    let answer = recover_with(alloc, spare, image, policy, &mut window, steps);
    *dev = window.into_device();
    answer
}
