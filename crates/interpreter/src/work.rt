//! The work list of the interpreter. Its frames are in allocated memory, since a program may have
//! 256 functions open, each in the middle of a deep expression.

use c_tree::expr::{Argument, BinaryOp, Expr, IntType, Name, UnaryOp};
use c_tree::item::Function;
use c_tree::stmt::{Declaration, Simple, Stmt};

/// A task on an expression.
#[derive(Clone, Copy)]
pub enum ExprTask {
    /// Pushes its value.
    Eval,
    /// Pops the left side of `&&`; this is its right side.
    Both,
    /// Pops the left side of `||`; this is its right side.
    Either,
    /// Pops the target's operands, makes the checks and pushes the word there.
    Load,
    /// Does as `Load` does, but leaves the operands on the stack.
    Fetch,
    /// Pops a word and then the target's operands; makes the checks and stores the word.
    Store,
    /// Pops the pointer that it gave, and frees the object; the place is that of `pm_free`.
    Free(u64),
}

/// A task on a statement.
#[derive(Clone, Copy)]
pub enum StmtTask {
    /// Executes it.
    Exec,
    /// Pops the condition of an `if`, and chooses.
    Choose,
    /// Begins a turn of a loop.
    Turn,
    /// Pops the condition of a turn.
    Test,
    /// Comes after the body of a turn, and after the first round of a `do`.
    Again,
}

/// A task on the waiting words.
#[derive(Clone, Copy)]
pub enum WordTask {
    /// Pushes this word.
    Put(i64),
    /// Pops a word and forgets it.
    Forget,
    /// Pops an operand and pushes the operator's result.
    Unary(UnaryOp),
    /// Pops the right operand and the left one, and pushes the operator's result on ints of this
    /// type; the place is that of the operator.
    Binary(BinaryOp, IntType, u64),
    /// Pops a word and pushes 0 if it is 0, else 1.
    Truth,
}

/// One item of the work list. Values wait on a stack of their own; 'pops' and 'pushes' mean that
/// stack.
#[derive(Clone, Copy)]
pub enum Work<'a> {
    Expr(ExprTask, &'a Expr),
    Stmt(StmtTask, &'a Stmt),
    /// Pops the condition of `?`, and evaluates the left side or the right one.
    Sides(&'a Expr, &'a Expr),
    /// Pushes the values of arguments, in their order.
    Arguments(&'a [Argument]),
    /// The remaining statements of a block.
    Rest(&'a [Stmt]),
    /// A simple statement.
    Simple(&'a Simple),
    /// Pops the first word of a new local.
    Declare(&'a Declaration),
    /// Pops a word and assigns it to a local.
    Assign(&'a Name),
    /// Pops n arguments, and opens the function; the place is that of its name in the call.
    Call(u64, &'a Function, usize),
    /// Ends the open function, and pushes its value.
    Leave,
    /// Forgets the locals of a scope, so that n are left.
    Close(usize),
    Word(WordTask),
    /// Pops the value of a `return`.
    Give,
}

/// How the last statement ended.
#[derive(Clone, Copy)]
pub enum Flow {
    Next,
    Break,
    Continue,
    Return(i64),
}
