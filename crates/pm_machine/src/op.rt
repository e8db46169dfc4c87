//! The machine's instructions. Each comment gives the effect: `R[r]` is the word of register r,
//! `H[w]` is heap word w, and addresses wrap.

use nvm_base::{BinOp, List, Registers};

/// An instruction. Registers, functions and places are counted from 0.
#[derive(Drop)]
pub enum Op {
    /// `R[r] := v`
    Const { r: u32, v: i64 },
    /// `R[r] := R[a]`
    Mov { r: u32, a: u32 },
    /// `R[r] := R[a] op R[b]`; a division by 0 gives 0
    Bin { op: BinOp, r: u32, a: u32, b: u32 },
    /// go to t
    Jmp { t: u32 },
    /// go to t if `R[a]` is 0
    Jz { a: u32, t: u32 },
    /// `R[r] := H[R[a] + o]`; 0 outside the heap
    Load { r: u32, a: u32, o: i64 },
    /// `H[R[a] + o] := R[b]`, one event, and its line becomes dirty; nothing outside the heap
    Store { a: u32, o: i64, b: u32 },
    /// `R[r] :=` the least slot whose header is 0, or 0 if there is none; loads the headers from
    /// slot 1 on, up to and including that slot's
    Find { r: u32 },
    /// append an undo record of `H[R[a] + o]`, five events; trap 7 if the log is full; nothing
    /// outside the heap
    Log { a: u32, o: i64 },
    /// flush the first dirty line, one event, and stay; go on if none is dirty
    Flush,
    /// a fence, one event
    Fence,
    /// open function f with these registers as arguments, its result to `R[r]`; trap 8 if 256
    /// functions are open
    Call { r: u32, f: u32, args: Registers },
    /// end the open function with `R[a]`; in the outermost one, like HALT
    Ret { a: u32 },
    /// one tick less; trap 5 if none is left
    Tick,
    /// end the run with trap k
    Trap { k: u32 },
    /// end the run with `R[a]`
    Halt { a: u32 },
}

/// The instructions of a function.
pub type Code = List<Op>;

/// A function of the machine.
#[derive(Drop)]
pub struct Function {
    pub parameters: u32,
    pub registers: u32,
    pub code: Code,
}

/// Functions, by their numbers from 0 on.
pub type Functions = List<Function>;

/// A transaction: its function, and the number of its parameters.
#[derive(Clone, Copy)]
pub struct TxEntry {
    pub function: u32,
    pub parameters: u32,
}

/// Transactions, by their numbers from 1 on.
pub type TxList = List<TxEntry>;
