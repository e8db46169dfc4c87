//! A call of a transaction that only looks: its run alone, without an event.

ghost use Rattle.std.specs.Prelude.{◌≡◌, ◌+◌, ◌≤◌, length};
ghost use Rattle.pool_layout.specs.Sizes.{pool_lines};
ghost use Rattle.tx_run.specs.Looked.{look_answer, IsLooked};

use nvm_base::Steps;
use pm_machine::{End, Image, Spare};
use pmem::PmemWork;
use pool_layout::MARK;
use pool_map::TrapKind;
use std::alloc::Global;
use std::sync::ledger::Ledger;

/// The answer of a look.
#[derive(Clone, Copy, Debug, PartialEq, Eq, Drop)]
pub enum LookAnswer {
    /// The run ended with this value.
    Done(i64),
    /// The run trapped.
    Aborted(TrapKind),
    Off,
    NoMemory,
}

impl LookAnswer {
    /// The answer of a run with this end.
    #[tactic(auto, using(std::proofs::lemmas::Int::wraps))]
    fn of(end: End) -> LookAnswer
        ensures { result ≡ look_answer end }
    {
        match end {
            End::Halted(value) => LookAnswer::Done(value),
            End::Trapped(kind) => LookAnswer::Aborted(kind),
        }
    }
}

/// Runs a transaction that only looks, counted from 1, with as many arguments as it has parameters,
/// on the pool of the image. The device stays as it was. Neither the mark nor the numbers make a
/// difference, and memory is taken for the machine's frames only, the first time.
pub fn look<P: PmemWork, L: Ledger>(
    alloc: Global,
    spare: &mut Spare,
    image: &Image,
    tx: u64,
    args: &[i64],
    dev: &mut P,
    steps: &mut Steps<L>,
) -> LookAnswer
    requires lines { (P.device dev.old).lines ≡ pool_lines image.now.parts.sizes }
    requires first { 1 ≤ tx }
    requires last { tx ≤ length image.now.parts.txs }
    ensures looked { IsLooked result image.now tx args.now (P.device dev.old) steps.old steps.new }
    ensures same { P.device dev.new ≡ P.device dev.old }
    ensures most { steps.new ≤ steps.old + image.now.parts.most }
{
    let Some(_) = dev.load(MARK) else {
        return LookAnswer::Off;
    };
    match spare.start(alloc, image, tx, args) {
        Some(machine) => LookAnswer::of(machine.look(image, dev, steps)),
        None => LookAnswer::NoMemory,
    }
}
