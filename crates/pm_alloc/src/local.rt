//! Code before it has a place: its jumps are counted from its own start, and its temporary
//! registers have names of their own.

ghost use Rattle.std.specs.Prelude.{◌≡◌};
ghost use Rattle.pm_alloc.specs.declared.local.Local.TheVariants.{Const, Load};

use nvm_base::{BinOp, List};

/// A register: one of the function's own, or one of eight temporary ones.
#[derive(Clone, Copy)]
pub enum Reg {
    Own(u32),
    Temp(u32),
}

/// An instruction of the machine before it has a place.
#[derive(Clone, Copy)]
pub enum Local {
    Const(Reg, i64),
    Mov(Reg, Reg),
    Bin(BinOp, Reg, Reg, Reg),
    Jmp(u32),
    Jz(Reg, u32),
    Load(Reg, Reg, i64),
    Store(Reg, i64, Reg),
    Find(Reg),
    Log(Reg, i64),
    Tick,
    Trap(u32),
}

impl Local {
    /// `r := value`. The value is passed through a call, so that in a list of instructions it is
    /// the plain number.
    #[tactic(auto, using(std::proofs::lemmas::Int::wraps))]
    pub fn constant(r: Reg, value: i64) -> Local
        ensures { result ≡ Const r value }
    {
        Local::Const(r, value)
    }

    /// `r :=` the heap word at `a + offset`.
    #[tactic(auto, using(std::proofs::lemmas::Int::wraps))]
    pub fn load(r: Reg, a: Reg, offset: i64) -> Local
        ensures { result ≡ Load r a offset }
    {
        Local::Load(r, a, offset)
    }
}

/// A piece of such code. Its length as a jump's target means the instruction after it.
pub type Locals = List<Local>;
