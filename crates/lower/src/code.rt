//! The code of a function while it is written. A jump whose target isn't known yet leads to a hole,
//! which is a place that no code has, and is filled once the place is known.

ghost use Rattle.std.specs.Prelude.{◌≡◌, ◌≤◌, ◌+◌, ◌^◌, [], ◌∷◌, ◌++◌, length, OnOk, slice_set};
ghost use Rattle.lower.specs.inside.Holes as holes;
ghost use Rattle.lower.specs.inside.Holes.{fill_from};

use crate::names::NOWHERE;
use ir::{Instruction, Instructions};
use std::alloc::{AllocError, Global};
use std::marker::Model;

/// The hole for a jump out of the innermost loop.
pub const LEAVE: u32 = NOWHERE;

/// The hole for a `continue` in a `for`, to its third part, or in a `do`, to its tick.
pub const NEXT: u32 = u32::MAX - 1;

/// The greatest number of instructions of a function. No text of the language comes near it.
const MOST: usize = 1 << 29;

/// The instructions written so far, seen as a list.
#[derive(Drop)]
pub struct Code {
    all: Instructions,
}

impl Model for Code {
    ghost use Rattle.std.specs.Prelude.{◌≤◌, ◌^◌, List, length};
    ghost use Rattle.ir.specs.declared.instruction.Instruction.{Instruction};

    ghost Value = { List Instruction };

    ghost view = { λ c. c.all };

    ghost invariant = { λ c. length c.all ≤ 2 ^ 29 };
}

impl Code {
    /// No code. It takes no memory.
    pub fn new(alloc: Global) -> Self
        ensures { result ≡ [] }
    {
        Code {
            all: Instructions::new(alloc),
        }
    }

    /// The place after the last instruction.
    pub fn end(&self) -> u32
        ensures place { result ≡ length self.now }
        ensures small { length self.now ≤ 2 ^ 29 }
    {
        self.all.as_slice().len() as u32
    }

    /// Appends one instruction. A function of over 2^29 instructions counts as want of memory.
    pub fn push(&mut self, instruction: Instruction) -> Result<(), AllocError>
        ensures { OnOk result (self.new ≡ self.old ++ instruction ∷ []) }
    {
        if self.all.as_slice().len() >= MOST {
            return Err(AllocError);
        }
        self.all.push(instruction)
    }

    /// Overwrites an instruction. At a place without one it changes nothing.
    pub fn set(&mut self, place: u32, instruction: Instruction)
        ensures code { self.new ≡ slice_set self.old place instruction }
        ensures long { length self.new ≡ length self.old }
    {
        if (place as usize) < self.all.as_slice().len() {
            self.all.set(place as usize, instruction);
        }
    }

    /// Makes the jumps to a hole, from a place of the code on, lead to a place.
    #[tactic(auto, using(crate::proofs::Fills::fills))]
    pub fn fill(&mut self, hole: u32, from: u32, place: u32)
        ensures { self.new ≡ fill_from hole from place self.old }
    {
        for at in from..self.end() {
            self.fill_at(hole, at, place);
        }
    }

    #[tactic(auto, using(crate::proofs::Fills::fills))]
    fn fill_at(&mut self, hole: u32, at: u32, place: u32)
        ensures filled { fill_from hole (at + 1) place self.new ≡ fill_from hole at place self.old }
        ensures long { length self.new ≡ length self.old }
    {
        if self.is_hole_at(hole, at) {
            self.set(at, Instruction::Jump { place });
        }
    }

    fn is_hole_at(&self, hole: u32, at: u32) -> bool
        ensures { result ≡ holes.is_hole_at hole self.now at }
    {
        match self.all.as_slice().get(at as usize) {
            None => false,
            Some(instruction) => is_hole(instruction, hole),
        }
    }

    /// The finished code.
    pub fn into_instructions(self) -> Instructions
        ensures { result ≡ self }
    {
        self.all
    }
}

fn is_hole(instruction: &Instruction, hole: u32) -> bool
    ensures { result ≡ holes.is_hole hole instruction.now }
{
    match instruction {
        Instruction::Jump { place } => *place == hole,
        Instruction::Const { .. }
        | Instruction::Copy { .. }
        | Instruction::Bin { .. }
        | Instruction::Branch { .. }
        | Instruction::Load { .. }
        | Instruction::Store { .. }
        | Instruction::New { .. }
        | Instruction::Free { .. }
        | Instruction::Call { .. }
        | Instruction::Return { .. }
        | Instruction::Tick
        | Instruction::Trap { .. }
        | Instruction::Log { .. } => false,
    }
}
