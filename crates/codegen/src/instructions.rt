//! The code of an instruction that stays in its function.

ghost use Rattle.std.specs.Prelude.{◌≡◌, ◌++◌, OnOk, IfOk};
ghost use Rattle.codegen.specs.Emit.{divides, bin_code, load_code, assign_code, make_code};
ghost use Rattle.codegen.specs.Emit.{local_code};

use crate::addresses::push_address;
use crate::fields::struct_words;
use ir::{Instruction, Target};
use nvm_base::BinOp;
use pm_alloc::{Local, Locals, Reg, push_free, push_new, push_store};
use pool_layout::Sizes;
use pool_map::Shapes;
use std::alloc::{AllocError, Global};

fn divides(op: BinOp) -> bool
    ensures { result ≡ divides op }
{
    match op {
        BinOp::Div | BinOp::Rem | BinOp::Udiv | BinOp::Urem => true,
        BinOp::Add
        | BinOp::Sub
        | BinOp::Mul
        | BinOp::Shl
        | BinOp::Shr
        | BinOp::And
        | BinOp::Or
        | BinOp::Xor
        | BinOp::Lt
        | BinOp::Le
        | BinOp::Eq
        | BinOp::Ne
        | BinOp::Ult
        | BinOp::Ule
        | BinOp::Ushr => false,
    }
}

/// Appends an operation, after a check of the divisor if it has one: trap 4 if that is 0.
fn push_bin(piece: &mut Locals, op: BinOp, to: u32, left: u32, right: u32) -> Result<(), AllocError>
    ensures { OnOk result (piece.new ≡ piece.old ++ bin_code op to left right) }
{
    let operation = Local::Bin(op, Reg::Own(to), Reg::Own(left), Reg::Own(right));
    if divides(op) {
        return piece.extend(&[
            Local::Jz(Reg::Own(right), 2),
            Local::Jmp(3),
            Local::Trap(4),
            operation,
        ]);
    }
    piece.push(operation)
}

#[tactic(auto, using(std::proofs::lemmas::Int::wraps))]
fn push_load(
    piece: &mut Locals,
    sizes: &Sizes,
    shapes: &Shapes,
    to: u32,
    target: &Target,
) -> Result<(), AllocError>
    ensures { OnOk result (piece.new ≡ piece.old ++ load_code sizes.now shapes.now to target.now) }
{
    match push_address(piece, sizes, shapes, target)? {
        None => Ok(()),
        Some(offset) => piece.push(Local::load(Reg::Own(to), Reg::Temp(0), offset)),
    }
}

#[tactic(auto, using(std::proofs::lemmas::Int::wraps))]
fn push_assignment(
    piece: &mut Locals,
    sizes: &Sizes,
    shapes: &Shapes,
    logged: bool,
    target: &Target,
    from: u32,
) -> Result<(), AllocError>
    ensures { OnOk result (piece.new ≡ piece.old ++ assign_code sizes.now shapes.now logged
        target.now from) }
{
    match push_address(piece, sizes, shapes, target)? {
        None => Ok(()),
        Some(offset) => push_store(piece, logged, Reg::Temp(0), offset, Reg::Own(from)),
    }
}

/// Appends the code of a `pm_new`, which is a trap if the struct doesn't exist.
fn push_make(
    piece: &mut Locals,
    sizes: &Sizes,
    shapes: &Shapes,
    to: u32,
    kind: u32,
    logged: bool,
) -> Result<(), AllocError>
    ensures { OnOk result (piece.new ≡ piece.old ++ make_code sizes.now shapes.now to kind logged) }
{
    match struct_words(sizes, shapes, kind) {
        None => piece.push(Local::Trap(2)),
        Some(words) => push_new(piece, sizes, to, kind, u64::from(words), logged),
    }
}

/// Appends the code of an instruction; `logged` says whether a log comes right before it. An
/// instruction that leads elsewhere has no code here, and a log has its code in its store.
#[tactic(auto, using(std::proofs::lemmas::Int::wraps))]
fn push_local(
    piece: &mut Locals,
    sizes: &Sizes,
    shapes: &Shapes,
    logged: bool,
    instruction: &Instruction,
) -> Result<(), AllocError>
    ensures { OnOk result (piece.new ≡ piece.old ++ local_code sizes.now shapes.now logged
        instruction.now) }
{
    match instruction {
        Instruction::Const { to, value } => piece.push(Local::constant(Reg::Own(*to), *value)),
        Instruction::Copy { to, from } => piece.push(Local::Mov(Reg::Own(*to), Reg::Own(*from))),
        Instruction::Bin {
            op,
            to,
            left,
            right,
        } => push_bin(piece, *op, *to, *left, *right),
        Instruction::Load { to, target } => push_load(piece, sizes, shapes, *to, target),
        Instruction::Store { target, from, .. } => {
            push_assignment(piece, sizes, shapes, logged, target, *from)
        }
        Instruction::New {
            to,
            kind,
            log_fill,
            ..
        } => push_make(piece, sizes, shapes, *to, *kind, *log_fill),
        Instruction::Free { from, kind, .. } => push_free(piece, sizes, *from, *kind),
        Instruction::Tick => piece.push(Local::Tick),
        Instruction::Trap { kind } => piece.push(Local::Trap(kind.number())),
        Instruction::Jump { .. }
        | Instruction::Branch { .. }
        | Instruction::Call { .. }
        | Instruction::Return { .. }
        | Instruction::Log { .. } => Ok(()),
    }
}

/// The code of an instruction that stays in its function, as a piece of its own.
pub fn local_piece(
    alloc: Global,
    sizes: &Sizes,
    shapes: &Shapes,
    logged: bool,
    instruction: &Instruction,
) -> Result<Locals, AllocError>
    ensures { IfOk result (λ p. p ≡ local_code sizes.now shapes.now logged instruction.now) }
{
    let mut piece = Locals::new(alloc);
    push_local(&mut piece, sizes, shapes, logged, instruction)?;
    Ok(piece)
}
