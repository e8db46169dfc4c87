//! The processor of a machine: where a run stands, and the effect of one line of the table on it.
//! It stores nothing to the device and knows no log.

ghost use Rattle.std.specs.Prelude.{◌≡◌, ◌≢◌, IfErr, IsOk, true, List, suc, ◌+◌, ◌-◌, ◌*◌, ◌/◌};
ghost use Rattle.std.specs.Prelude.{◌^◌, replicate, ◌<◌, ◌≤◌, ◌++◌, ◌∷◌, [], ℕ, pos, Option, Some};
ghost use Rattle.std.specs.Prelude.{None, IfOk, IfSome, IfNone, OnOk, OnErr, IsErrOf, length, take};
ghost use Rattle.std.specs.Prelude.{drop, map, slice_get, option_copied, IsSome, if◌then◌else◌};
ghost use Rattle.std.specs.Prelude.{◌==◌, false, nat_eq};
ghost use Rattle.std.specs.Option.{ForSome};
ghost use Rattle.std.specs.Ordering.{int_eq};
ghost use Rattle.indexmap.specs.IndexSet.{insert_key};
ghost use Rattle.pool_map.specs.declared.trap.TrapKind.TheVariants as trap;
ghost use Rattle.pool_map.specs.Trap.{trap_of};
ghost use Rattle.pool_layout.specs.Sizes.{heap_words, pool_lines};
ghost use Rattle.pmem.specs.Played.{PlaysAll, PlaysPart};
ghost use Rattle.pm_machine.specs.declared.effect.Effect.TheVariants.{Quiet};
ghost use Rattle.pm_machine.specs.declared.processor.Progress.TheVariants as progress;
ghost use Rattle.pm_machine.specs.declared.effect.End.TheVariants.{Halted, Trapped};
ghost use Rattle.pm_machine.specs.Machine.{State, read_register, passed, moved_to, written, stored};
ghost use Rattle.pm_machine.specs.Machine.{cleaned, registers_placed, entered, returned, return};
ghost use Rattle.pm_machine.specs.Machine.{load, find, store, log, flush, call, execute, Goes};
ghost use Rattle.pm_machine.specs.Machine.{Ends, tick_spent, address_index, word_at, target, fetch};
ghost use Rattle.pm_machine.specs.Machine.{step, trap_at, start, registers_filled};
ghost use Rattle.pm_machine.specs.Effects.{events_of, records_past};
ghost use Rattle.pm_machine.specs.Runs.{heap_in, outcome_of, effect_of, effect_in, AreLines, due};
ghost use Rattle.pm_machine.specs.Runs.{end_of, due_step};
ghost use Rattle.cache_model.specs.Cache.{Words};
ghost use Rattle.pm_machine.specs.Logging.{asks};
ghost use Rattle.pm_machine.specs.Stops.{stop_in};
ghost use Rattle.pm_machine.specs.Looking.{is_look, IsLook};
ghost use Rattle.pm_machine.specs.inside.Runs.{IsStore, IsInRange, RestLeads, RestLooks};

use crate::effect::{Effect, End};
use crate::find::search;
use crate::frame::{Frame, RegisterWords};
use crate::frames::{CALLERS, Frames};
use crate::image::Image;
use crate::op::Op;
use crate::records::Policy;
use crate::silent::Reached;
use crate::stop::Stop;
use clobber_log::append_record;
use indexmap::IndexSet;
use nvm_base::Steps;
use pmem::events::{fence, flush, store};
use pmem::{PmemWork, Refusal};
use pool_layout::{Sizes, heap_start, slot_word};
use pool_map::TrapKind;
use std::alloc::{AllocError, Global};
use std::marker::Model;
use std::mem;
use std::sync::ledger::Ledger;

/// A step goes on with an effect, or ends the run.
#[derive(Clone, Copy, Drop)]
pub(crate) enum Progress {
    Did(Effect),
    Ended(End),
}

/// A run in progress: the open function, those below it, the ticks left, and the dirty lines. The
/// memory for its frames is allocated at the start; the next function to be opened gets the spare
/// registers.
#[derive(Drop)]
pub(crate) struct Processor {
    top: Frame,
    below: Frames,
    spare: RegisterWords,
    ticks: u64,
    /// The lines stored to, in the order of first stores, and how many of them have been flushed.
    lines: IndexSet<u64>,
    flushed: usize,
}

impl Model for Processor {
    ghost use Rattle.std.specs.Prelude.{◌≡◌, ◌≤◌, length, drop};
    ghost use Rattle.pm_machine.specs.Machine.{State};

    ghost Value = { State };

    ghost view = { λ m. record {
      top = m.top;
      below = m.below.frames;
      ticks = m.ticks;
      dirty = drop m.flushed m.lines.keys;
      size = length m.top.registers;
    } };

    ghost invariant = { λ m. (m.below.size ≡ length m.top.registers)
        × (length m.spare ≡ length m.top.registers)
        × (m.flushed ≤ length m.lines.keys) };
}

fn index_of(x: i64) -> Option<u64>
    ensures { result ≡ address_index x }
{
    match u64::try_from(x) {
        Ok(w) => Some(w),
        Err(_) => None,
    }
}

#[tactic(auto, using(std::proofs::lemmas::Int::wraps))]
pub(crate) fn word_at(heap_words: u64, x: i64) -> Option<u64>
    ensures value { result ≡ word_at heap_words x }
    ensures within { ForSome result (λ w. w < heap_words) }
{
    match index_of(x) {
        None => None,
        Some(w) => { if w < heap_words { Some(w) } else { None } }
    }
}

/// Removes the first lines of a set. Compiled code stores nothing after its flushes, so there are
/// none.
#[tactic(auto, using(crate::proofs::DirtyLines::one_out))]
fn drop_first(lines: &mut IndexSet<u64>, count: usize)
    ensures { lines.new.keys ≡ drop count lines.old.keys }
{
    for _ in 0..count {
        let _ = lines.shift_remove_index(0);
    }
}

/// Whether a line is the last of the set, as that of a store to the object of the store before.
#[tactic(auto, using(crate::proofs::DirtyLines::put_again))]
fn is_last(lines: &IndexSet<u64>, line: u64) -> bool
    ensures { result ≡ true → insert_key nat_eq lines.now.keys line ≡ lines.now.keys }
{
    match lines.last() {
        Some(last) => *last == line,
        None => false,
    }
}

/// Puts a line at the end of the set, unless it is there.
fn put_line(lines: &mut IndexSet<u64>, line: u64) -> Result<(), AllocError>
    ensures ok { OnOk result (lines.new.keys ≡ insert_key nat_eq lines.old.keys line) }
    ensures err { OnErr result (lines.new.keys ≡ lines.old.keys) }
{
    if !is_last(lines, line) {
        lines.insert(line)?;
    }
    Ok(())
}

/// The line at a place of the set.
#[tactic(auto, using(crate::proofs::DirtyLines::first_in, std::proofs::lemmas::Option::slice_get_past))]
fn line_at(lines: &IndexSet<u64>, at: usize) -> Option<u64>
    ensures value { result ≡ slice_get (drop at lines.now.keys) 0 }
    ensures within { IsSome result → at < length lines.now.keys }
    ensures small { IsSome result → at < 2 ^ 63 }
{
    if at < lines.len() {
        lines.get_index(at).copied()
    } else {
        None
    }
}

impl Processor {
    fn read(&self, r: u32) -> i64
        ensures { result ≡ read_register self.now r }
    {
        self.top.registers.get(r as usize)
    }

    fn write(&mut self, r: u32, v: i64)
        requires { self.old.top.place < 2 ^ 63 }
        ensures { self.new ≡ written self.old r v }
    {
        self.top.registers.set(r as usize, v);
        self.top.place += 1;
    }

    fn pass(&mut self)
        requires { self.old.top.place < 2 ^ 63 }
        ensures { self.new ≡ passed self.old }
    {
        self.top.place += 1;
    }

    fn jump(&mut self, t: u32)
        ensures { self.new ≡ moved_to self.old t }
    {
        self.top.place = t as usize;
    }

    #[tactic(auto, using(std::proofs::lemmas::Int::wraps))]
    fn target(&self, image: &Image, a: u32, o: i64) -> Option<u64>
        ensures value { result ≡ target image.now self.now a o }
        ensures within { ForSome result (λ w. w < heap_words image.now.parts.sizes) }
    {
        word_at(image.heap_words(), self.read(a).wrapping_add(o))
    }

    fn store(&mut self, w: u64) -> Result<(), AllocError>
        requires { self.old.top.place < 2 ^ 63 }
        ensures ok { OnOk result (self.new ≡ stored self.old w) }
        ensures err { OnErr result (self.new ≡ self.old) }
    {
        drop_first(&mut self.lines, self.flushed);
        self.flushed = 0;
        put_line(&mut self.lines, w / 8)?;
        self.top.place += 1;
        Ok(())
    }

    #[tactic(auto, using(crate::proofs::DirtyLines::next_out))]
    fn clean(&mut self) -> Option<u64>
        ensures value { result ≡ slice_get self.old.dirty 0 }
        ensures some { IfSome result (λ _. self.new ≡ cleaned self.old) }
        ensures none { IfNone result (self.new ≡ self.old) }
    {
        let line = line_at(&self.lines, self.flushed)?;
        self.flushed += 1;
        Some(line)
    }

    fn spend(&mut self)
        requires place { self.old.top.place < 2 ^ 63 }
        requires some { 0 < self.old.ticks }
        ensures { self.new ≡ tick_spent self.old }
    {
        self.top.place += 1;
        self.ticks -= 1;
    }
}

/// Writes the words of the named registers, one after another, from register 0 on.
fn place(from: &RegisterWords, to: &mut RegisterWords, args: &[u32])
    ensures placed { to.new ≡ registers_placed from.now to.old 0 args.now }
    ensures size { length to.new ≡ length to.old }
{
    for (i, arg) in args.iter().enumerate() {
        to.set(i, from.get(*arg as usize));
    }
}

impl Processor {
    /// Opens a function on the spare registers, if there is room for its caller.
    fn enter(&mut self, image: &Image, r: u32, f: u32, args: &[u32]) -> bool
        requires { self.old.top.place < 2 ^ 63 }
        ensures meaning { (if result then Goes Quiet self.new else Ends (Trapped trap.Depth))
            ≡ call self.old r f args.now }
    {
        if self.below.len() == CALLERS {
            return false;
        }
        self.spare.clear();
        place(&self.top.registers, &mut self.spare, args);
        self.spare.keep_first(image.registers(f));
        self.top.place += 1;
        self.below.push(&self.top);
        mem::swap(&mut self.top.registers, &mut self.spare);
        self.top.function = f;
        self.top.place = 0;
        self.top.to = r;
        true
    }

    /// Ends the open function, or the run, with the value of a register.
    fn leave(&mut self, a: u32) -> Progress
        ensures meaning { outcome_of result self.new ≡ return self.old (read_register self.old a)
            (slice_get self.old.below (length self.old.below - 1)) }
    {
        let value = self.read(a);
        let to = self.top.to;
        if self.below.pop(&mut self.top) {
            self.top.registers.set(to as usize, value);
            Progress::Did(Effect::Quiet)
        } else {
            Progress::Ended(End::Halted(value))
        }
    }
}

/// The instruction at the machine's place.
fn fetch<'a>(image: &'a Image, machine: &Processor) -> Option<&'a Op>
    ensures value { option_copied result ≡ fetch image.now machine.now }
    ensures inside { IsSome result → machine.now.top.place < 2 ^ 63 }
{
    let function = image.functions().get(machine.top.function as usize)?;
    function.code.get(machine.top.place)
}

impl Processor {
    fn load<P: PmemWork>(
        &mut self,
        dev: &P,
        image: &Image,
        r: u32,
        word: Option<u64>,
    ) -> Result<Progress, Refusal>
        requires place { self.old.top.place < 2 ^ 63 }
        requires lines { (P.device dev.now).lines ≡ pool_lines image.now.parts.sizes }
        requires on { (P.device dev.now).on ≡ true }
        requires within { ForSome word (λ w. w < heap_words image.now.parts.sizes) }
        ensures meaning { IfOk result (λ p.
            outcome_of p self.new ≡ load (heap_in image.now.parts.sizes (P.device dev.now).cache)
            self.old r word) }
        ensures never { IsOk result }
    {
        match word {
            None => {
                self.write(r, 0);
                Ok(Progress::Did(Effect::Quiet))
            }
            Some(w) => match dev.load(image.heap_start() + w) {
                None => Err(Refusal::Off),
                Some(x) => {
                    self.write(r, x);
                    Ok(Progress::Did(Effect::Loads(w)))
                }
            },
        }
    }

    fn find<P: PmemWork>(&mut self, dev: &mut P, image: &Image, r: u32) -> Result<Progress, Refusal>
        requires place { self.old.top.place < 2 ^ 63 }
        requires lines { (P.device dev.old).lines ≡ pool_lines image.now.parts.sizes }
        requires on { (P.device dev.old).on ≡ true }
        ensures meaning { IfOk result (λ p.
            outcome_of p self.new ≡ find image.now
            (heap_in image.now.parts.sizes (P.device dev.old).cache) self.old r) }
        ensures never { IsOk result }
        ensures same { P.device dev.new ≡ P.device dev.old }
    {
        match search(dev, image.sizes()) {
            None => Err(Refusal::Off),
            Some(found) => {
                self.write(r, found.slot as i64);
                Ok(Progress::Did(Effect::Scans(
                    slot_word(image.sizes(), 1),
                    image.sizes().slot_words(),
                    found.looks,
                )))
            }
        }
    }

    fn put(&mut self, x: i64, word: Option<u64>) -> Result<Progress, Refusal>
        requires { self.old.top.place < 2 ^ 63 }
        ensures meaning { IfOk result (λ p. outcome_of p self.new ≡ store self.old x word) }
        ensures only { OnErr result (IsErrOf result Refusal.NoMemory) }
        ensures wants { OnErr result (IsStore (effect_in (store self.old x word))) }
        ensures err { OnErr result (self.new ≡ self.old) }
    {
        match word {
            None => {
                self.pass();
                Ok(Progress::Did(Effect::Quiet))
            }
            Some(w) => match self.store(w) {
                Ok(()) => Ok(Progress::Did(Effect::Stores(w, x))),
                Err(_) => Err(Refusal::NoMemory),
            },
        }
    }

    /// Decides a LOG.
    fn log(&mut self, word: Option<u64>) -> Progress
        requires { self.old.top.place < 2 ^ 63 }
        ensures { outcome_of result self.new ≡ log self.old word }
    {
        self.pass();
        match word {
            None => Progress::Did(Effect::Quiet),
            Some(w) => Progress::Did(Effect::Logs(w)),
        }
    }

    fn flush(&mut self) -> Progress
        requires { self.old.top.place < 2 ^ 63 }
        ensures meaning { outcome_of result self.new ≡ flush self.old (slice_get self.old.dirty 0) }
    {
        match self.clean() {
            None => {
                self.pass();
                Progress::Did(Effect::Quiet)
            }
            Some(l) => Progress::Did(Effect::Flushes(l)),
        }
    }

    fn call(&mut self, image: &Image, r: u32, f: u32, args: &[u32]) -> Progress
        requires { self.old.top.place < 2 ^ 63 }
        ensures meaning { outcome_of result self.new ≡ call self.old r f args.now }
    {
        if self.enter(image, r, f, args) {
            Progress::Did(Effect::Quiet)
        } else {
            Progress::Ended(End::Trapped(TrapKind::Depth))
        }
    }

    fn tick(&mut self) -> Progress
        requires { self.old.top.place < 2 ^ 63 }
        ensures meaning { outcome_of result self.new
            ≡ (if self.old.ticks == 0 then Ends (Trapped trap.Steps)
            else Goes Quiet (tick_spent self.old)) }
    {
        if self.ticks == 0 {
            Progress::Ended(End::Trapped(TrapKind::Steps))
        } else {
            self.spend();
            Progress::Did(Effect::Quiet)
        }
    }

    fn branch(&mut self, a: u32, t: u32)
        requires { self.old.top.place < 2 ^ 63 }
        ensures { self.new ≡ (if int_eq (read_register self.old a) (pos 0) then moved_to self.old t
            else passed self.old) }
    {
        if self.read(a) == 0 {
            self.jump(t);
        } else {
            self.pass();
        }
    }
}

fn trapped(k: u32) -> Progress
    ensures { result ≡ progress.Ended (Trapped (trap_at (trap_of k))) }
{
    match TrapKind::of_number(k) {
        Some(kind) => Progress::Ended(End::Trapped(kind)),
        None => Progress::Ended(End::Trapped(TrapKind::Depth)),
    }
}

impl Processor {
    /// One line of the table, without its events and its record.
    fn act<P: PmemWork>(&mut self, dev: &mut P, image: &Image, op: &Op) -> Result<Progress, Refusal>
        requires place { self.old.top.place < 2 ^ 63 }
        requires lines { (P.device dev.old).lines ≡ pool_lines image.now.parts.sizes }
        requires on { (P.device dev.old).on ≡ true }
        ensures same { P.device dev.new ≡ P.device dev.old }
        ensures meaning { IfOk result (λ p.
            outcome_of p self.new ≡ execute image.now
            (heap_in image.now.parts.sizes (P.device dev.old).cache) self.old (Some op.now)) }
        ensures only { OnErr result (IsErrOf result Refusal.NoMemory) }
        ensures wants { OnErr result (IsStore
            (effect_in (execute image.now (heap_in image.now.parts.sizes (P.device dev.old).cache)
            self.old (Some op.now)))) }
        ensures err { OnErr result (self.new ≡ self.old) }
    {
        let quiet = Ok(Progress::Did(Effect::Quiet));
        match op {
            Op::Const { r, v } => {
                self.write(*r, *v);
                quiet
            }
            Op::Mov { r, a } => {
                let x = self.read(*a);
                self.write(*r, x);
                quiet
            }
            Op::Bin { op, r, a, b } => {
                let x = op.apply(self.read(*a), self.read(*b));
                self.write(*r, x);
                quiet
            }
            Op::Jmp { t } => {
                self.jump(*t);
                quiet
            }
            Op::Jz { a, t } => {
                self.branch(*a, *t);
                quiet
            }
            Op::Load { r, a, o } => {
                let word = self.target(image, *a, *o);
                self.load(dev, image, *r, word)
            }
            Op::Store { a, o, b } => {
                let word = self.target(image, *a, *o);
                self.put(self.read(*b), word)
            }
            Op::Find { r } => self.find(dev, image, *r),
            Op::Log { a, o } => {
                let word = self.target(image, *a, *o);
                Ok(self.log(word))
            }
            Op::Flush => Ok(self.flush()),
            Op::Fence => {
                self.pass();
                Ok(Progress::Did(Effect::Fences))
            }
            Op::Call { r, f, args } => Ok(self.call(image, *r, *f, args.as_slice())),
            Op::Ret { a } => Ok(self.leave(*a)),
            Op::Tick => Ok(self.tick()),
            Op::Trap { k } => Ok(trapped(*k)),
            Op::Halt { a } => Ok(Progress::Ended(End::Halted(self.read(*a)))),
        }
    }

    /// One step, without its events and its record.
    pub(crate) fn step<P: PmemWork>(
        &mut self,
        dev: &mut P,
        image: &Image,
    ) -> Result<Progress, Refusal>
        requires lines { (P.device dev.old).lines ≡ pool_lines image.now.parts.sizes }
        requires on { (P.device dev.old).on ≡ true }
        ensures same { P.device dev.new ≡ P.device dev.old }
        ensures meaning { IfOk result (λ p. outcome_of p self.new ≡ step image.now self.old
            (heap_in image.now.parts.sizes (P.device dev.old).cache)) }
        ensures only { OnErr result (IsErrOf result Refusal.NoMemory) }
        ensures wants { OnErr result (IsStore
            (effect_in (step image.now self.old
            (heap_in image.now.parts.sizes (P.device dev.old).cache)))) }
        ensures err { OnErr result (self.new ≡ self.old) }
    {
        match fetch(image, self) {
            None => Ok(Progress::Ended(End::Trapped(TrapKind::Depth))),
            Some(op) => self.act(dev, image, op),
        }
    }
}

impl Processor {
    /// A machine at the first place of a transaction. The memory for all its frames is allocated
    /// here. Transactions are counted from 1.
    pub(crate) fn new(
        alloc: Global,
        image: &Image,
        tx: u64,
        args: &[i64],
    ) -> Result<Processor, AllocError>
        requires first { 1 ≤ tx }
        requires last { tx ≤ length image.now.parts.txs }
        ensures { IfOk result (λ m. m ≡ start image.now tx args.now) }
    {
        let size = image.largest();
        let mut machine = Processor {
            top: Frame {
                function: 0,
                place: 0,
                to: 0,
                registers: RegisterWords::blank(alloc, size)?,
            },
            below: Frames::new(alloc, size)?,
            spare: RegisterWords::blank(alloc, size)?,
            ticks: 0,
            lines: IndexSet::new(alloc),
            flushed: 0,
        };
        machine.begin(image, tx, args);
        Ok(machine)
    }

    /// Whether the machine's frames have the size of the image's.
    fn fits(&self, image: &Image) -> bool
        ensures { result ≡ (self.now.size == image.now.largest) }
    {
        self.below.size() == image.largest()
    }

    /// Goes to the first place of a transaction. It takes no memory.
    fn begin(&mut self, image: &Image, tx: u64, args: &[i64])
        requires size { self.old.size ≡ image.now.largest }
        requires first { 1 ≤ tx }
        requires last { tx ≤ length image.now.parts.txs }
        ensures { self.new ≡ start image.now tx args.now }
    {
        self.top.function = image.function(tx);
        self.top.place = 0;
        self.top.to = 0;
        self.top.registers.clear();
        fill(&mut self.top.registers, args);
        self.top
            .registers
            .keep_first(image.registers(self.top.function));
        self.below.clear();
        self.ticks = image.sizes().ticks();
        self.lines.truncate(0);
        self.flushed = 0;
    }

    /// Takes a machine that was used, whatever became of its run, to the first place of a
    /// transaction, if its frames have the size of the image's. Else the answer is `false`, and it
    /// stays as it was. It takes no memory.
    pub(crate) fn restart(&mut self, image: &Image, tx: u64, args: &[i64]) -> bool
        requires first { 1 ≤ tx }
        requires last { tx ≤ length image.now.parts.txs }
        ensures fits { result ≡ (self.old.size == image.now.largest) }
        ensures started { result ≡ true → self.new ≡ start image.now tx args.now }
        ensures left { result ≡ false → self.new ≡ self.old }
    {
        if !self.fits(image) {
            return false;
        }
        self.begin(image, tx, args);
        true
    }

    /// Does the next instructions that have no event, in at most `left` steps, and gives the steps
    /// left after them.
    pub(crate) fn run_silently<P: PmemWork, L: Ledger>(
        &mut self,
        image: &Image,
        dev: &P,
        left: u128,
        steps: &mut Steps<L>,
    ) -> u128
        requires lines { (P.device dev.now).lines ≡ pool_lines image.now.parts.sizes }
        ensures leads { RestLeads image.now (P.device dev.now) result steps.new self.new left
            steps.old self.old }
        ensures looks { RestLooks image.now (P.device dev.now) result steps.new self.new left
            steps.old self.old }
        ensures spent { steps.new + result ≡ steps.old + left }
        ensures fewer { result ≤ left }
        ensures dirty { self.new.dirty ≡ self.old.dirty }
    {
        let from = Reached {
            place: self.top.place,
            ticks: self.ticks,
            left,
        };
        let function = self.top.function;
        let registers = &mut self.top.registers;
        let to = registers.run_silently(dev, image, function, from, steps);
        self.top.place = to.place;
        self.ticks = to.ticks;
        to.left
    }

    /// One step of a run that only looks: its end, if it ends.
    pub(crate) fn look<P: PmemWork>(&mut self, dev: &mut P, image: &Image) -> Option<End>
        requires lines { (P.device dev.old).lines ≡ pool_lines image.now.parts.sizes }
        requires on { (P.device dev.old).on ≡ true }
        ensures same { P.device dev.new ≡ P.device dev.old }
        ensures meaning { IsLook result self.new (step image.now self.old
            (heap_in image.now.parts.sizes (P.device dev.old).cache)) }
    {
        match self.step(dev, image) {
            Ok(Progress::Ended(end)) => Some(end),
            Ok(Progress::Did(effect)) => look_past(effect),
            Err(_) => Some(End::Trapped(TrapKind::Depth)),
        }
    }

    /// The word that the next instruction asks a record of.
    pub(crate) fn asked(&self, image: &Image, policy: Policy) -> Option<u64>
        ensures value { (heap : Words) → result
            ≡ asks policy (effect_in (step image.now self.now heap)) }
        ensures within { ForSome result (λ w. w < heap_words image.now.parts.sizes) }
    {
        match fetch(image, self)? {
            Op::Log { a, o } => self.target(image, *a, *o),
            Op::Store { a, o, b: _ } => match policy {
                Policy::EndPool => None,
                Policy::RollBack => self.target(image, *a, *o),
            },
            _ => None,
        }
    }

    /// Where the machine stands.
    pub(crate) fn stop(&self) -> Stop
        ensures { result ≡ stop_in self.now }
    {
        Stop {
            function: self.top.function,
            place: self.top.place as u64,
        }
    }
}

/// The end of a run that only looks at an effect, if it ends there.
fn look_past(effect: Effect) -> Option<End>
    ensures { result ≡ (if is_look effect then None else Some (Trapped trap.Depth)) }
{
    match effect {
        Effect::Loads(_) | Effect::Fences | Effect::Quiet => None,
        Effect::Scans(..) | Effect::Stores(..) | Effect::Logs(_) | Effect::Flushes(_) => {
            Some(End::Trapped(TrapKind::Depth))
        }
    }
}

/// Writes words into the first registers, one after another.
fn fill(to: &mut RegisterWords, words: &[i64])
    ensures filled { to.new ≡ registers_filled to.old 0 words.now }
    ensures size { length to.new ≡ length to.old }
{
    for (i, word) in words.iter().enumerate() {
        to.set(i, *word);
    }
}
