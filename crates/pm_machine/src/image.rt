//! A checked program of the machine.

ghost use Rattle.std.specs.Prelude.{◌≡◌, ◌<◌, ◌≤◌, ◌^◌, ◌+◌, Some, None, IfSome, IfNone, IfOk};
ghost use Rattle.std.specs.Prelude.{IfErr, OnOk, length, slice_get, nat_lt, ◌-◌, IsErrOf};
ghost use Rattle.std.specs.Prelude.{IsSomeAnd, ℕ};
ghost use Rattle.std.specs.List.{list_all, AllByRecursion};
ghost use Rattle.pm_machine.specs.Checked.{takes_arguments, op_is_there, is_end, is_good_op};
ghost use Rattle.pm_machine.specs.Checked.{bad_from, bad_in, bad_of, most_registers};
ghost use Rattle.pm_machine.specs.Transactions.{entry_function};
ghost use Rattle.pm_machine.specs.inside.Code.{code_of};
ghost use Rattle.pool_layout.specs.Sizes as sizes_of;
ghost use Rattle.pm_machine.specs.Few.{AreFew};

use crate::op::{Function, Functions, Op, TxList};
use pool_layout::{Sizes, heap_start, heap_words};
use std::alloc::Global;

/// The parts of an image. `most` is a number of steps that no run of it exceeds.
#[derive(Drop)]
pub struct ImageParts {
    pub functions: Functions,
    pub sizes: Sizes,
    pub txs: TxList,
    pub structs: u64,
    pub most: u128,
}

/// Why parts make no image. `BadCode` has the first function and place that break a rule.
#[derive(Clone, Copy, Drop)]
pub enum ImageRefused {
    BadCode(u32, u32),
    NoMemory,
}

/// A checked program of the machine.
#[derive(Drop)]
pub struct Image {
    parts: ImageParts,
    /// The number of registers of the largest function, which every frame has.
    largest: u32,
    /// The pool's word where the heap begins, and the number of heap words.
    heap_start: u64,
    heap_words: u64,
    ghost good: { bad_of parts.functions 0 parts.functions ≡ None },
    ghost most: { largest ≡ most_registers 0 parts.functions },
    ghost start: { heap_start ≡ sizes_of.heap_start parts.sizes },
    ghost words: { heap_words ≡ sizes_of.heap_words parts.sizes },
}

fn all_below(registers: &[u32], count: u32) -> bool
    ensures { result ≡ list_all (λ a. nat_lt a count) registers.now }
{
    for register in registers {
        if *register >= count {
            return false;
        }
    }
    true
}

/// Whether the function exists and has this many parameters.
fn takes(functions: &Functions, number: u32, arguments: usize) -> bool
    ensures { result ≡ takes_arguments (slice_get functions.now number) arguments }
{
    match functions.get(number as usize) {
        None => false,
        Some(function) => function.parameters as usize == arguments,
    }
}

/// Whether all that the instruction names exists, in a function with this many registers and
/// `places` instructions.
fn is_there(functions: &Functions, registers: u32, places: usize, op: &Op) -> bool
    ensures { result ≡ op_is_there functions.now registers places op.now }
{
    match op {
        Op::Const { r, .. } | Op::Find { r } => *r < registers,
        Op::Mov { r, a } => *r < registers && *a < registers,
        Op::Bin { r, a, b, .. } => *r < registers && *a < registers && *b < registers,
        Op::Jmp { t } => (*t as usize) < places,
        Op::Jz { a, t } => *a < registers && (*t as usize) < places,
        Op::Load { r, a, .. } => *r < registers && *a < registers,
        Op::Store { a, b, .. } => *a < registers && *b < registers,
        Op::Log { a, .. } | Op::Ret { a } | Op::Halt { a } => *a < registers,
        Op::Flush | Op::Fence | Op::Tick => true,
        Op::Call { r, f, args } => {
            *r < registers
                && all_below(args.as_slice(), registers)
                && takes(functions, *f, args.as_slice().len())
        }
        Op::Trap { k } => 0 < *k && *k < 9,
    }
}

/// Whether the run doesn't go on to the place after the instruction.
fn is_end(op: &Op) -> bool
    ensures { result ≡ is_end op.now }
{
    match op {
        Op::Jmp { .. } | Op::Ret { .. } | Op::Trap { .. } | Op::Halt { .. } => true,
        Op::Const { .. }
        | Op::Mov { .. }
        | Op::Bin { .. }
        | Op::Jz { .. }
        | Op::Load { .. }
        | Op::Store { .. }
        | Op::Find { .. }
        | Op::Log { .. }
        | Op::Flush
        | Op::Fence
        | Op::Call { .. }
        | Op::Tick => false,
    }
}

fn is_good(functions: &Functions, function: &Function, place: usize, op: &Op) -> bool
    requires { place < length function.now.code }
    ensures { result ≡ is_good_op functions.now function.now place op.now }
{
    let places = function.code.as_slice().len();
    is_there(functions, function.registers, places, op) && (place + 1 < places || is_end(op))
}

/// The first bad place of a function.
fn bad_in(functions: &Functions, function: &Function) -> Option<u32>
    requires { length function.now.code < 2 ^ 32 }
    ensures { result ≡ bad_in functions.now function.now }
{
    let code = function.code.as_slice();
    if function.parameters > function.registers || code.is_empty() {
        return Some(0);
    }
    for (place, op) in code.iter().enumerate() {
        if !is_good(functions, function, place, op) {
            return Some(place as u32);
        }
    }
    None
}

/// The first bad place of all functions.
fn first_bad(functions: &Functions) -> Option<(u32, u32)>
    requires { AreFew functions.now }
    ensures bad { IfSome result (λ b. bad_of functions.now 0 functions.now ≡ Some (b.0, b.1)) }
    ensures good { IfNone result (bad_of functions.now 0 functions.now ≡ None) }
{
    for (number, function) in functions.as_slice().iter().enumerate() {
        if let Some(place) = bad_in(functions, function) {
            return Some((number as u32, place));
        }
    }
    None
}

fn most_registers(functions: &Functions) -> u32
    ensures { result ≡ most_registers 0 functions.now }
{
    let mut most = 0;
    for function in functions.as_slice() {
        if most < function.registers {
            most = function.registers;
        }
    }
    most
}

impl Image {
    /// The image of parts that break no rule; the parts are consumed also if they are refused. It
    /// takes no memory.
    pub fn new(_alloc: Global, parts: ImageParts) -> Result<Image, ImageRefused>
        requires few { AreFew parts.functions }
        ensures ok { IfOk result (λ i. i.parts ≡ parts) }
        ensures good { OnOk result (bad_of parts.functions 0 parts.functions ≡ None) }
        ensures bad { (f p : ℕ) → IsErrOf result (ImageRefused.BadCode f p)
            → bad_of parts.functions 0 parts.functions ≡ Some (f, p) }
    {
        if let Some((function, place)) = first_bad(&parts.functions) {
            return Err(ImageRefused::BadCode(function, place));
        }
        let largest = most_registers(&parts.functions);
        let heap_start = heap_start(&parts.sizes);
        let heap_words = heap_words(&parts.sizes);
        Ok(Image {
            parts,
            largest,
            heap_start,
            heap_words,
        })
    }

    /// The functions, which `Image::new` has checked.
    pub fn functions(&self) -> &Functions
        ensures { result.now ≡ self.now.parts.functions }
    {
        &self.parts.functions
    }

    /// The sizes of the pools on which the image runs.
    pub fn sizes(&self) -> &Sizes
        ensures { result.now ≡ self.now.parts.sizes }
    {
        &self.parts.sizes
    }

    /// A number of steps that no run exceeds.
    pub fn most(&self) -> u128
        ensures { result ≡ self.now.parts.most }
    {
        self.parts.most
    }

    /// The number of registers of a frame.
    pub(crate) fn largest(&self) -> u32
        ensures { result ≡ self.now.largest }
    {
        self.largest
    }

    /// The pool's word where the heap begins.
    pub(crate) fn heap_start(&self) -> u64
        ensures { result ≡ sizes_of.heap_start self.now.parts.sizes }
    {
        self.heap_start
    }

    /// The number of heap words.
    pub(crate) fn heap_words(&self) -> u64
        ensures { result ≡ sizes_of.heap_words self.now.parts.sizes }
    {
        self.heap_words
    }

    /// The instructions of a function; none if there is no such function.
    pub(crate) fn code(&self, function: u32) -> &[Op]
        ensures { result.now ≡ code_of self.now.parts.functions function }
    {
        match self.parts.functions.get(function as usize) {
            None => &[],
            Some(function) => function.code.as_slice(),
        }
    }

    /// The number of registers of a function; 0 if there is no such function.
    pub(crate) fn registers(&self, function: u32) -> usize {
        match self.parts.functions.get(function as usize) {
            None => 0,
            Some(function) => function.registers as usize,
        }
    }

    /// The function of a transaction.
    pub(crate) fn function(&self, tx: u64) -> u32
        requires first { 1 ≤ tx }
        requires last { tx ≤ length self.now.parts.txs }
        ensures { result ≡ entry_function (slice_get self.now.parts.txs (tx - 1)) }
    {
        self.parts.txs.as_slice()[tx as usize - 1].function
    }

    /// The number of transactions.
    pub fn txs(&self) -> u64
        ensures { result ≡ length self.now.parts.txs }
    {
        self.parts.txs.as_slice().len() as u64
    }

    /// The number of parameters of a transaction. Transactions are counted from 1.
    pub fn parameters(&self, tx: u64) -> u64
        requires first { 1 ≤ tx }
        requires last { tx ≤ length self.now.parts.txs }
        ensures { IsSomeAnd (slice_get self.now.parts.txs (tx - 1)) (λ e. result ≡ e.parameters) }
    {
        self.parts.txs.as_slice()[tx as usize - 1].parameters as u64
    }

    /// The number of numbered structs.
    pub fn structs(&self) -> u64
        ensures { result ≡ self.now.parts.structs }
    {
        self.parts.structs
    }
}
