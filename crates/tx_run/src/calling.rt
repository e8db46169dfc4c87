//! A call from its start to its end.

ghost use Rattle.std.specs.Prelude.{◌≡◌, ◌+◌, ◌≤◌, true, length};
ghost use Rattle.pool_layout.specs.Sizes.{pool_lines};
ghost use Rattle.pm_machine.specs.Machine.{start};
ghost use Rattle.tx_run.specs.Due.{most_steps};
ghost use Rattle.tx_run.specs.Called.{call_steps, Called, IsTxCalled};

use crate::answer::CallAnswer;
use crate::settling::settle;
use crate::standing::{Standing, assess};
use args_log::{SealAnswer, seal};
use nvm_base::Steps;
use pm_machine::{Image, Machine, Policy, Spare};
use pmem::{Phase, PmemWork};
use std::alloc::Global;
use std::sync::ledger::Ledger;

/// Seals the call of a machine that is at its start, and settles it.
fn run<P: PmemWork, L: Ledger>(
    image: &Image,
    policy: Policy,
    machine: &mut Machine,
    tx: u64,
    args: &[i64],
    dev: &mut P,
    steps: &mut Steps<L>,
) -> CallAnswer
    requires lines { (P.device dev.old).lines ≡ pool_lines image.now.parts.sizes }
    requires start { machine.old.processor ≡ start image.now tx args.now }
    requires on { (P.device dev.old).on ≡ true }
    ensures called { Called result policy image.now tx args.now (P.device dev.old)
        (P.device dev.new) steps.old steps.new }
    ensures bound { steps.new ≤
        steps.old + call_steps policy image.now tx args.now (P.device dev.old) }
    ensures most { steps.new ≤ steps.old + most_steps policy image.now }
    ensures lines { (P.device dev.new).lines ≡ (P.device dev.old).lines }
{
    match seal(dev, tx, args) {
        SealAnswer::Done => CallAnswer::of(settle(image, policy, machine, dev, steps)),
        SealAnswer::Off(phase) => CallAnswer::Off(phase),
        SealAnswer::Failed => CallAnswer::Failed,
        SealAnswer::NoMemory => CallAnswer::NoMemory,
    }
}

/// Calls a transaction, counted from 1, with as many arguments as it has parameters, on the pool of
/// the image. The mark is checked first, then the numbers; then the kept machine is started, which
/// takes memory for its frames only the first time, the arguments are sealed, the machine runs, and
/// its value is retired, or its trap marked, or the call is rolled back, as the policy says. On a
/// device that is off the answer is `Off(Unsealed)`, and nothing has changed. A call that is
/// refused takes no step, and any other at most those of its run, and one for each record that is
/// put back.
pub fn call<P: PmemWork, L: Ledger>(
    alloc: Global,
    spare: &mut Spare,
    image: &Image,
    policy: Policy,
    tx: u64,
    args: &[i64],
    dev: &mut P,
    steps: &mut Steps<L>,
) -> CallAnswer
    requires lines { (P.device dev.old).lines ≡ pool_lines image.now.parts.sizes }
    requires first { 1 ≤ tx }
    requires last { tx ≤ length image.now.parts.txs }
    ensures called { IsTxCalled result policy image.now tx args.now (P.device dev.old)
        (P.device dev.new) steps.old steps.new }
    ensures most { steps.new ≤ steps.old + most_steps policy image.now }
    ensures lines { (P.device dev.new).lines ≡ (P.device dev.old).lines }
{
    match assess(dev) {
        Standing::Ready => {}
        Standing::Off => return CallAnswer::Off(Phase::Unsealed),
        Standing::Unusable(kind) => return CallAnswer::Unusable(kind),
        Standing::Numbers => return CallAnswer::Numbers,
    }
    match spare.start(alloc, image, tx, args) {
        Some(machine) => run(image, policy, machine, tx, args, dev, steps),
        None => CallAnswer::NoMemory,
    }
}
