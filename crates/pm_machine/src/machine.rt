//! A run in progress on a device: each step takes the record that it asks for, and plays its
//! events.

ghost use Rattle.std.specs.Prelude.{◌≡◌, ◌^◌, ◌<◌, ◌≤◌, ◌+◌, ◌-◌, true, false, IfOk, IfErr, OnOk};
ghost use Rattle.std.specs.Prelude.{OnErr, IfSome, length, ◌==◌, Some, []};
ghost use Rattle.pool_layout.specs.Sizes.{heap_words, pool_lines};
ghost use Rattle.pmem.specs.Played.{PlaysAll, PlaysPart};
ghost use Rattle.pm_machine.specs.Machine.{step, start};
ghost use Rattle.pm_machine.specs.Logging.{has_room, unlisted, noted, turn_of};
ghost use Rattle.pm_machine.specs.Effects.{events_of};
ghost use Rattle.std.specs.Option.{ForSome};
ghost use Rattle.pm_machine.specs.Runs.{heap_in, AreLines, IsTurn, IfEnded, due, due_step, end_of};
ghost use Rattle.pm_machine.specs.Looking.{look_of, IsLook};
ghost use Rattle.pm_machine.specs.Stops.{stop_in};
ghost use Rattle.pm_machine.specs.inside.Runs.{IsInRange, HasRoomFor, taken_events};
ghost use Rattle.pm_machine.specs.inside.Runs.{IsStep, bare_events};

use crate::effect::{Effect, End};
use crate::image::Image;
use crate::processor::{Processor, Progress};
use crate::records::{Policy, Records, bare};
use crate::stop::Stop;
use clobber_log::append_record;
use nvm_base::Steps;
use pmem::events::{fence, flush, store};
use pmem::{PmemWork, Refusal};
use pool_layout::{Sizes, heap_start};
use pool_map::TrapKind;
use std::alloc::{AllocError, Global};
use std::sync::ledger::Ledger;

/// A run goes on, or has ended.
#[derive(Clone, Copy, Drop)]
pub enum Went {
    On,
    Ended(End),
}

/// A run in progress: where it stands, and the words of which it has a record. The memory for its
/// frames is allocated at the start.
#[derive(Drop)]
pub struct Machine {
    processor: Processor,
    records: Records,
}

/// Plays the events of an effect; there are `count` records so far.
fn perform<P: PmemWork>(
    dev: &mut P,
    sizes: &Sizes,
    attempt: u64,
    count: u64,
    effect: Effect,
) -> Result<(), Refusal>
    requires range { IsInRange (heap_words sizes.now) effect }
    requires room { HasRoomFor sizes.now.records count effect }
    requires attempt { attempt ≤ 2 ^ 63 - 2 }
    requires lines { (P.device dev.old).lines ≡ pool_lines sizes.now }
    requires on { (P.device dev.old).on ≡ true }
    ensures done { OnOk result (PlaysAll (P.device dev.old)
        (events_of sizes.now attempt count (heap_in sizes.now (P.device dev.old).cache) effect)
        (P.device dev.new)) }
    ensures refused { IfErr result
        (λ why. PlaysPart why (P.device dev.old)
        (events_of sizes.now attempt count (heap_in sizes.now (P.device dev.old).cache) effect)
        (P.device dev.new)) }
    ensures lines { (P.device dev.new).lines ≡ (P.device dev.old).lines }
{
    match effect {
        Effect::Stores(w, x) => store(dev, heap_start(sizes) + w, x),
        Effect::Logs(w) => append_record(sizes, dev, count, attempt, w),
        Effect::Flushes(l) => flush(dev, 6 + sizes.records() + l),
        Effect::Fences => fence(dev),
        Effect::Loads(_) | Effect::Scans(..) | Effect::Quiet => Ok(()),
    }
}

impl Records {
    /// Plays the record of a word, if one is asked for and there is none. `false` if the log has no
    /// room for it.
    fn take<P: PmemWork>(
        &mut self,
        dev: &mut P,
        sizes: &Sizes,
        attempt: u64,
        asked: Option<u64>,
    ) -> Result<bool, Refusal>
        requires within { ForSome asked (λ w. w < heap_words sizes.now) }
        requires attempt { attempt ≤ 2 ^ 63 - 2 }
        requires lines { (P.device dev.old).lines ≡ pool_lines sizes.now }
        requires on { (P.device dev.old).on ≡ true }
        ensures room { IfOk result (λ r. r ≡ has_room sizes.now.records self.old
            (unlisted self.old.words asked)) }
        ensures noted { IfOk result (λ r. r ≡ true
            → self.new ≡ noted self.old (unlisted self.old.words asked)) }
        ensures done { IfOk result (λ r. r ≡ true → PlaysAll (P.device dev.old)
            (taken_events sizes.now attempt self.old
            (heap_in sizes.now (P.device dev.old).cache) (unlisted self.old.words asked))
            (P.device dev.new)) }
        ensures full { IfOk result (λ r. r ≡ false → P.device dev.new ≡ P.device dev.old) }
        ensures same { IfOk result (λ r. r ≡ false → self.new ≡ self.old) }
        ensures refused { IfErr result (λ why. PlaysPart why (P.device dev.old)
            (taken_events sizes.now attempt self.old
            (heap_in sizes.now (P.device dev.old).cache) (unlisted self.old.words asked))
            (P.device dev.new)) }
        ensures needed { OnErr result (has_room sizes.now.records self.old
            (unlisted self.old.words asked) ≡ true) }
        ensures lines { (P.device dev.new).lines ≡ (P.device dev.old).lines }
    {
        let Some(word) = self.unlisted(asked) else {
            return Ok(true);
        };
        let count = self.count();
        if count >= sizes.records() {
            return Ok(false);
        }
        if self.note(word).is_err() {
            return Err(Refusal::NoMemory);
        }
        append_record(sizes, dev, count, attempt, word)?;
        Ok(true)
    }
}

impl Machine {
    /// A machine at the first place of a transaction. The memory for all its frames is allocated
    /// here. Transactions are counted from 1.
    pub fn new(alloc: Global, image: &Image, tx: u64, args: &[i64]) -> Result<Machine, AllocError>
        requires first { 1 ≤ tx }
        requires last { tx ≤ length image.now.parts.txs }
        ensures { IfOk result (λ m. m.processor ≡ start image.now tx args.now) }
    {
        let processor = Processor::new(alloc, image, tx, args)?;
        Ok(Machine {
            processor,
            records: Records::new(alloc),
        })
    }

    /// Takes a machine that was used, whatever became of its run, to the first place of a
    /// transaction, if its frames have the size of the image's. Else the answer is `false`, and it
    /// stays as it was. It takes no memory.
    pub fn restart(&mut self, image: &Image, tx: u64, args: &[i64]) -> bool
        requires first { 1 ≤ tx }
        requires last { tx ≤ length image.now.parts.txs }
        ensures fits { result ≡ (self.old.processor.size == image.now.largest) }
        ensures started { result ≡ true → self.new.processor ≡ start image.now tx args.now }
        ensures left { result ≡ false → self.new ≡ self.old }
    {
        self.processor.restart(image, tx, args)
    }

    /// Begins a run on a log with `count` records.
    pub fn begin(&mut self, policy: Policy, count: u64)
        ensures processor { self.new.processor ≡ self.old.processor }
        ensures records { self.new.records
            ≡ record { policy = policy; count = count; words = [] } }
    {
        self.records.begin(policy, count);
    }

    /// How many words the run has records of.
    pub fn logged(&self) -> u64
        ensures { result ≡ length self.now.records.words }
    {
        self.records.taken()
    }

    /// Where the machine stands.
    pub fn stop(&self) -> Stop
        ensures { result ≡ stop_in self.now.processor }
    {
        self.processor.stop()
    }

    /// One step without its record.
    fn go_on<P: PmemWork>(
        &mut self,
        image: &Image,
        attempt: u64,
        dev: &mut P,
    ) -> Result<Went, Refusal>
        requires lines { (P.device dev.old).lines ≡ pool_lines image.now.parts.sizes }
        requires on { (P.device dev.old).on ≡ true }
        requires attempt { attempt ≤ 2 ^ 63 - 2 }
        requires dirty { AreLines (heap_words image.now.parts.sizes) self.old.processor.dirty }
        ensures records { self.new.records ≡ self.old.records }
        ensures meaning { IfOk result (λ w. IsStep w self.new.processor
            (step image.now self.old.processor
            (heap_in image.now.parts.sizes (P.device dev.old).cache))) }
        ensures done { OnOk result (PlaysAll (P.device dev.old)
            (bare_events image.now attempt self.old.records.count self.old.processor
            (P.device dev.old).cache) (P.device dev.new)) }
        ensures refused { IfErr result (λ why. PlaysPart why (P.device dev.old)
            (bare_events image.now attempt self.old.records.count self.old.processor
            (P.device dev.old).cache) (P.device dev.new)) }
        ensures lines { (P.device dev.new).lines ≡ (P.device dev.old).lines }
    {
        let progress = match self.processor.step(dev, image) {
            Ok(progress) => progress,
            Err(why) => return Err(why),
        };
        match progress {
            Progress::Ended(end) => Ok(Went::Ended(end)),
            Progress::Did(effect) => {
                perform(
                    dev,
                    image.sizes(),
                    attempt,
                    self.records.count(),
                    bare(effect),
                )?;
                Ok(Went::On)
            }
        }
    }

    /// One step, after its record if it takes one, on a pool with this attempt. Where the log is
    /// full, the run ends before the step. After an end or a refusal the machine has to be
    /// restarted before it is used again.
    pub fn step_on<P: PmemWork>(
        &mut self,
        image: &Image,
        attempt: u64,
        dev: &mut P,
    ) -> Result<Went, Refusal>
        requires lines { (P.device dev.old).lines ≡ pool_lines image.now.parts.sizes }
        requires on { (P.device dev.old).on ≡ true }
        requires attempt { attempt ≤ 2 ^ 63 - 2 }
        requires dirty { AreLines (heap_words image.now.parts.sizes) self.old.processor.dirty }
        ensures meaning { IfOk result (λ w. IsTurn w self.new.records self.new.processor
            (turn_of image.now self.old.records self.old.processor
            (heap_in image.now.parts.sizes (P.device dev.old).cache))) }
        ensures done { OnOk result (PlaysAll (P.device dev.old)
            (due_step image.now attempt self.old.records self.old.processor
            (P.device dev.old).cache) (P.device dev.new)) }
        ensures refused { IfErr result (λ why. PlaysPart why (P.device dev.old)
            (due_step image.now attempt self.old.records self.old.processor
            (P.device dev.old).cache) (P.device dev.new)) }
        ensures ended { IfOk result (λ w. IfEnded w (self.new.records ≡ self.old.records)) }
        ensures lines { (P.device dev.new).lines ≡ (P.device dev.old).lines }
    {
        let asked = self.processor.asked(image, self.records.policy());
        let room = match self.records.take(dev, image.sizes(), attempt, asked) {
            Ok(room) => room,
            Err(why) => return Err(why),
        };
        if !room {
            return Ok(Went::Ended(End::Trapped(TrapKind::LogFull)));
        }
        self.go_on(image, attempt, dev)
    }

    /// Runs to the end, or to the refused event, in at most `most` steps. A run that hasn't ended
    /// by then ends as if it had no tick left.
    pub(crate) fn run_on<P: PmemWork, L: Ledger>(
        &mut self,
        image: &Image,
        attempt: u64,
        dev: &mut P,
        steps: &mut Steps<L>,
    ) -> Result<End, Refusal>
        requires lines { (P.device dev.old).lines ≡ pool_lines image.now.parts.sizes }
        requires on { (P.device dev.old).on ≡ true }
        requires attempt { attempt ≤ 2 ^ 63 - 2 }
        requires dirty { AreLines (heap_words image.now.parts.sizes) self.old.processor.dirty }
        ensures meaning { IfOk result (λ e. e ≡ end_of (due image.now attempt image.now.parts.most
            self.old.records self.old.processor (P.device dev.old).cache).fate) }
        ensures whole { OnOk result (PlaysAll (P.device dev.old)
            (due image.now attempt image.now.parts.most self.old.records self.old.processor
            (P.device dev.old).cache).events (P.device dev.new)) }
        ensures part { IfErr result (λ why. PlaysPart why (P.device dev.old)
            (due image.now attempt image.now.parts.most self.old.records self.old.processor
            (P.device dev.old).cache).events (P.device dev.new)) }
        ensures cost { OnOk result (steps.new ≡ steps.old
            + (due image.now attempt image.now.parts.most self.old.records self.old.processor
            (P.device dev.old).cache).steps) }
        ensures bound { steps.new ≤ steps.old
            + (due image.now attempt image.now.parts.most self.old.records self.old.processor
            (P.device dev.old).cache).steps }
        ensures most { steps.new ≤ steps.old + image.now.parts.most }
        ensures records { OnOk result (self.new.records.count
            ≡ (due image.now attempt image.now.parts.most self.old.records self.old.processor
            (P.device dev.old).cache).records) }
        ensures taken { OnOk result (length self.new.records.words + self.old.records.count
            ≡ self.new.records.count + length self.old.records.words) }
        ensures lines { (P.device dev.new).lines ≡ (P.device dev.old).lines }
    {
        let mut left = self.processor.run_silently(image, dev, image.most(), steps);
        while left > 0 {
            left -= 1;
            steps.tick();
            let went = match self.step_on(image, attempt, dev) {
                Ok(went) => went,
                Err(why) => return Err(why),
            };
            match went {
                Went::On => {}
                Went::Ended(end) => return Ok(end),
            }
            left = self.processor.run_silently(image, dev, left, steps);
        }
        Ok(End::Trapped(TrapKind::Steps))
    }

    /// One step of a run that only looks: its end, if it ends there. Nothing is played.
    pub fn look_once<P: PmemWork>(&mut self, image: &Image, dev: &mut P) -> Option<End>
        requires lines { (P.device dev.old).lines ≡ pool_lines image.now.parts.sizes }
        requires on { (P.device dev.old).on ≡ true }
        ensures same { P.device dev.new ≡ P.device dev.old }
        ensures meaning { IsLook result self.new.processor (step image.now self.old.processor
            (heap_in image.now.parts.sizes (P.device dev.old).cache)) }
        ensures records { self.new.records ≡ self.old.records }
    {
        self.processor.look(dev, image)
    }

    /// Runs to the end as a run that only looks, in at most the image's steps: nothing is played,
    /// and the device stays as it was. The machine has to be restarted before it is used again.
    pub fn look<P: PmemWork, L: Ledger>(
        &mut self,
        image: &Image,
        dev: &mut P,
        steps: &mut Steps<L>,
    ) -> End
        requires lines { (P.device dev.old).lines ≡ pool_lines image.now.parts.sizes }
        requires on { (P.device dev.old).on ≡ true }
        ensures same { P.device dev.new ≡ P.device dev.old }
        ensures end { result ≡ (look_of image.now image.now.parts.most self.old.processor
            (heap_in image.now.parts.sizes (P.device dev.old).cache)).end }
        ensures cost { steps.new ≡ steps.old + (look_of image.now image.now.parts.most
            self.old.processor (heap_in image.now.parts.sizes (P.device dev.old).cache)).steps }
        ensures most { steps.new ≤ steps.old + image.now.parts.most }
    {
        let mut left = self.processor.run_silently(image, dev, image.most(), steps);
        while left > 0 {
            left -= 1;
            steps.tick();
            match self.processor.look(dev, image) {
                None => {}
                Some(end) => return end,
            }
            left = self.processor.run_silently(image, dev, left, steps);
        }
        End::Trapped(TrapKind::Steps)
    }
}
