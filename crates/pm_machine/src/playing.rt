//! A machine on a pool: a run to its end.

ghost use Rattle.std.specs.Prelude.{◌≡◌, ◌+◌, ◌^◌, ◌<◌, ◌≤◌, true, false, length};
ghost use Rattle.pool_layout.specs.Sizes.{heap_words, pool_lines};
ghost use Rattle.pm_machine.specs.Runs.{AreLines, due_on};
ghost use Rattle.pm_machine.specs.Answers.{RunsOn};

use crate::answer::RunAnswer;
use crate::image::Image;
use crate::machine::Machine;
use crate::records::Policy;
use clobber_log::{attempt, count};
use nvm_base::Steps;
use pmem::PmemWork;
use std::sync::ledger::Ledger;

impl Machine {
    /// Runs to the end, or to the refused event, in at most `most` steps of the image. A run that
    /// hasn't ended by then, which no compiled program has, ends with the trap steps. On a device
    /// that is off the answer is `Off`, and nothing has changed. The policy says which stores take
    /// a record.
    pub fn run<P: PmemWork, L: Ledger>(
        &mut self,
        image: &Image,
        policy: Policy,
        dev: &mut P,
        steps: &mut Steps<L>,
    ) -> RunAnswer
        requires lines { (P.device dev.old).lines ≡ pool_lines image.now.parts.sizes }
        requires dirty { AreLines (heap_words image.now.parts.sizes) self.old.processor.dirty }
        ensures ran { (P.device dev.old).on ≡ true
            → RunsOn result policy image.now self.old.processor
            (length self.new.records.words) (P.device dev.old) (P.device dev.new)
            steps.old steps.new }
        ensures bound { (P.device dev.old).on ≡ true
            → steps.new ≤ steps.old + (due_on policy image.now self.old.processor
            (P.device dev.old).cache).steps }
        ensures most { steps.new ≤ steps.old + image.now.parts.most }
        ensures off { (P.device dev.old).on ≡ false → result ≡ RunAnswer.Off }
        ensures same { (P.device dev.old).on ≡ false → P.device dev.new ≡ P.device dev.old }
        ensures faults { (P.device dev.old).faults ≤ (P.device dev.new).faults }
        ensures lines { (P.device dev.new).lines ≡ (P.device dev.old).lines }
    {
        let Some(attempt) = attempt(image.sizes(), dev) else {
            return RunAnswer::Off;
        };
        let Some(count) = count(image.sizes(), dev, attempt) else {
            return RunAnswer::Off;
        };
        self.begin(policy, count);
        RunAnswer::of(self.run_on(image, attempt, dev, steps))
    }
}
