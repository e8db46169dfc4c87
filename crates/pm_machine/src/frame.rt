//! An open function of the machine, and the words of its registers.

ghost use Rattle.std.specs.Prelude.{◌≡◌, ◌≤◌, ◌<◌, ◌-◌, ◌++◌, length, pos, replicate};
ghost use Rattle.std.specs.Prelude.{slice_index_or, slice_set, IfOk, vec_capacity, ◌+◌};
ghost use Rattle.pool_layout.specs.Sizes.{pool_lines};
ghost use Rattle.pm_machine.specs.inside.Runs.{StretchLeads, StretchLooks};

use crate::image::Image;
use crate::silent::{Reached, run_kept};
use nvm_base::Steps;
use pmem::PmemWork;
use std::alloc::{AllocError, Global};
use std::marker::Model;
use std::sync::ledger::Ledger;

/// The registers of a frame. Only those up to a little past the last written one are kept; all
/// others read as 0. So a call's cost depends on the registers that it writes.
#[derive(Drop)]
pub struct RegisterWords {
    kept: Vec<i64>,
    count: usize,
}

impl Model for RegisterWords {
    ghost use Rattle.std.specs.Prelude.{◌≤◌, ◌-◌, ◌++◌, ℤ, pos, List, length, replicate};
    ghost use Rattle.std.specs.Prelude.{vec_capacity};

    ghost Value = { List ℤ };

    ghost view = { λ w. w.kept.items ++ replicate (w.count - length w.kept.items) (pos 0) };

    ghost invariant = { λ w. (length w.kept.items ≤ w.count) × (w.count ≤ vec_capacity w.kept) };
}

/// How many words are kept from a newly written register on.
const MORE: usize = 64;

/// Appends words; there is room for them.
fn append(words: &mut Vec<i64>, more: &[i64])
    requires room { length words.old.items + length more.now ≤ vec_capacity words.old }
    ensures items { words.new.items ≡ words.old.items ++ more.now }
    ensures capacity { vec_capacity words.old ≤ vec_capacity words.new }
{
    let _ = words.extend_from_slice(more);
}

/// Appends zeros; there is room for them.
fn add_zeros(words: &mut Vec<i64>, count: usize)
    requires few { count ≤ 64 }
    requires room { length words.old.items + count ≤ vec_capacity words.old }
    ensures items { words.new.items ≡ words.old.items ++ replicate count (pos 0) }
    ensures capacity { vec_capacity words.old ≤ vec_capacity words.new }
{
    let zeros = [0; MORE];
    append(words, &zeros[..count]);
}

/// Keeps more words, up to this register and a few more; there is room for all `count` of them.
#[tactic(auto, using(std::proofs::lemmas::List::take_all, crate::proofs::Registers::zeros_kept))]
fn keep(words: &mut Vec<i64>, register: usize, count: usize)
    requires past { length words.old.items ≤ register }
    requires inside { register < count }
    requires room { count ≤ vec_capacity words.old }
    ensures same { words.new.items ++ replicate (count - length words.new.items) (pos 0)
        ≡ words.old.items ++ replicate (count - length words.old.items) (pos 0) }
    ensures more { register < length words.new.items }
    ensures few { length words.new.items ≤ count }
    ensures capacity { vec_capacity words.old ≤ vec_capacity words.new }
{
    let end = register + (count - register).min(MORE);
    let more = end - words.len();
    if more <= MORE {
        add_zeros(words, more);
    } else {
        let _ = words.resize(end, 0);
    }
}

impl RegisterWords {
    /// `count` registers, all 0.
    pub fn blank(alloc: Global, count: u32) -> Result<Self, AllocError>
        ensures { IfOk result (λ w. w ≡ replicate count (pos 0)) }
    {
        let kept = Vec::with_capacity(alloc, count as usize)?;
        Ok(RegisterWords {
            kept,
            count: count as usize,
        })
    }

    /// The word of a register, or 0 if there is no such register.
    #[tactic(auto, using(crate::proofs::Registers::word_kept, crate::proofs::Registers::word_blank))]
    pub fn get(&self, register: usize) -> i64
        ensures { result ≡ slice_index_or self.now register (pos 0) }
    {
        if register < self.kept.len() {
            self.kept[register]
        } else {
            0
        }
    }

    /// Writes a register, if it exists.
    #[tactic(auto, using(crate::proofs::Registers::kept_set, crate::proofs::Registers::kept_past, crate::proofs::Registers::more_set, std::proofs::lemmas::Int::wraps))]
    pub fn set(&mut self, register: usize, word: i64)
        ensures { self.new ≡ slice_set self.old register word }
    {
        if register < self.kept.len() {
            self.kept[register] = word;
        } else if register < self.count {
            keep(&mut self.kept, register, self.count);
            self.kept[register] = word;
        }
    }

    /// The words of the first registers; all others are 0.
    #[tactic(auto, using(crate::proofs::Registers::kept_split, crate::proofs::Registers::kept_length))]
    pub fn used(&self) -> &[i64]
        ensures few { length result.now ≤ length self.now }
        ensures words { self.now ≡ result.now
            ++ replicate (length self.now - length result.now) (pos 0) }
    {
        &self.kept
    }

    /// Writes words into the first registers, and 0 into all others.
    #[tactic(auto, using(crate::proofs::Registers::kept_length))]
    pub(crate) fn refill(&mut self, words: &[i64])
        requires { length words.now ≤ length self.old }
        ensures words { self.new ≡ words.now
            ++ replicate (length self.old - length words.now) (pos 0) }
        ensures size { length self.new ≡ length self.old }
    {
        self.kept.clear();
        let _ = self.kept.extend_from_slice(words);
    }

    /// Keeps at least so many words, if there are as many registers.
    pub(crate) fn keep_first(&mut self, least: usize)
        ensures { self.new ≡ self.old }
    {
        if self.kept.len() < least && least <= self.count {
            keep(&mut self.kept, least - 1, self.count);
        }
    }

    /// Does the next instructions of a function that have no event, as long as they write only
    /// registers that are kept, and as long as steps are left.
    #[tactic(auto, using(crate::proofs::Registers::kept_length))]
    pub(crate) fn run_silently<P: PmemWork, L: Ledger>(
        &mut self,
        dev: &P,
        image: &Image,
        function: u32,
        from: Reached,
        steps: &mut Steps<L>,
    ) -> Reached
        requires lines { (P.device dev.now).lines ≡ pool_lines image.now.parts.sizes }
        ensures leads { StretchLeads image.now (P.device dev.now) function self.new result
            steps.new self.old from steps.old }
        ensures looks { StretchLooks image.now (P.device dev.now) function self.new result
            steps.new self.old from steps.old }
        ensures spent { steps.new + result.left ≡ steps.old + from.left }
        ensures fewer { result.left ≤ from.left }
        ensures size { length self.new ≡ length self.old }
    {
        run_kept(dev, image, function, self.kept.as_mut_slice(), from, steps)
    }

    /// Sets all registers to 0.
    #[tactic(auto, using(crate::proofs::Registers::kept_length))]
    pub fn clear(&mut self)
        ensures { self.new ≡ replicate (length self.old) (pos 0) }
    {
        self.kept.clear();
    }
}

/// An open function: its number, the place in it, the caller's register for its result, and its
/// registers.
#[derive(Drop)]
pub struct Frame {
    pub function: u32,
    pub place: usize,
    pub to: u32,
    pub registers: RegisterWords,
}
