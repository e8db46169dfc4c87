//! Statements.

ghost use Rattle.std.specs.Prelude.{◌≡◌};
ghost use Rattle.c_tree.specs.Operators.{update_binary};

use crate::expr::{Argument, BinaryOp, Expr, IntType, Name};

/// A type as it is written in the text.
#[derive(Drop)]
pub enum TypeName {
    /// `int64_t` or `uint64_t`
    Int(IntType),
    /// `struct NAME *`
    Pointer(Name),
}

/// The value after a `=`, with the place of the `=`.
#[derive(Drop)]
pub struct Initial {
    pub place: u64,
    pub value: Expr,
}

/// `TYPE NAME = VALUE`, where the value is optional.
#[derive(Drop)]
pub struct Declaration {
    pub ty: TypeName,
    pub name: Name,
    pub initial: Option<Initial>,
}

/// The operation of an assignment that updates its target.
#[derive(Clone, Copy, PartialEq, Eq)]
pub enum UpdateOp {
    /// `*=`
    Mul,
    /// `/=`
    Div,
    /// `%=`
    Rem,
    /// `+=`
    Add,
    /// `-=`
    Sub,
    /// `<<=`
    ShiftLeft,
    /// `>>=`
    ShiftRight,
    /// `&=`
    And,
    /// `^=`
    Xor,
    /// `|=`
    Or,
}

impl UpdateOp {
    /// The binary operator of the operation, with the target on its left.
    pub fn binary(self) -> BinaryOp
        ensures { result ≡ update_binary self }
    {
        match self {
            UpdateOp::Mul => BinaryOp::Mul,
            UpdateOp::Div => BinaryOp::Div,
            UpdateOp::Rem => BinaryOp::Rem,
            UpdateOp::Add => BinaryOp::Add,
            UpdateOp::Sub => BinaryOp::Sub,
            UpdateOp::ShiftLeft => BinaryOp::ShiftLeft,
            UpdateOp::ShiftRight => BinaryOp::ShiftRight,
            UpdateOp::And => BinaryOp::And,
            UpdateOp::Xor => BinaryOp::Xor,
            UpdateOp::Or => BinaryOp::Or,
        }
    }
}

/// The action of an assignment on its target.
#[derive(Clone, Copy, PartialEq, Eq)]
pub enum AssignOp {
    /// `=`
    Set,
    /// An operator before the `=`.
    Update(UpdateOp),
}

/// The action of a step on its target.
#[derive(Clone, Copy, PartialEq, Eq)]
pub enum StepOp {
    /// `++`
    Up,
    /// `--`
    Down,
}

/// A simple statement. The `place` is that of its operator or word.
#[derive(Drop)]
pub enum Simple {
    Assign {
        target: Expr,
        op: AssignOp,
        place: u64,
        value: Expr,
    },
    Step {
        target: Expr,
        op: StepOp,
        place: u64,
    },
    Call {
        name: Name,
        arguments: Vec<Argument>,
    },
    /// `pm_free(POINTER)`
    Free {
        place: u64,
        pointer: Expr,
    },
    /// `abort()`
    Abort {
        place: u64,
    },
}

/// The first part of a `for`.
#[derive(Drop)]
pub enum First {
    Declare(Declaration),
    Simple(Simple),
}

/// A statement.
#[derive(Drop)]
pub enum Stmt {
    /// A lone `;`.
    Empty,
    Declare(Declaration),
    Simple(Simple),
    Block(Vec<Stmt>),
    If {
        condition: Expr,
        body: Box<Stmt>,
        other: Option<Box<Stmt>>,
    },
    /// A `while`; the place is that of the word.
    While {
        place: u64,
        condition: Expr,
        body: Box<Stmt>,
    },
    /// A `do`; the place is that of the word.
    Do {
        place: u64,
        body: Box<Stmt>,
        condition: Expr,
    },
    /// A `for`; the place is that of the word.
    For {
        place: u64,
        first: Option<First>,
        condition: Option<Expr>,
        third: Option<Simple>,
        body: Box<Stmt>,
    },
    Break,
    Continue,
    /// A `return`; the place is that of the word.
    Return {
        place: u64,
        value: Option<Expr>,
    },
}
