//! Functions and whole programs of intermediate code.

use crate::instruction::Instruction;
use nvm_base::{List, Text};
use pool_map::Shapes;

/// The instructions of a function.
pub type Instructions = List<Instruction>;

/// A function. Its first registers hold its arguments, all others 0.
#[derive(Drop)]
pub struct IrFunction {
    pub name: Text,
    pub parameters: u32,
    pub registers: u32,
    pub tx: bool,
    pub code: Instructions,
}

/// The functions of a program, in the order of the document.
pub type IrFunctions = List<IrFunction>;

/// A program of intermediate code, with the shapes of its structs.
#[derive(Drop)]
pub struct Ir {
    pub functions: IrFunctions,
    pub shapes: Shapes,
}
