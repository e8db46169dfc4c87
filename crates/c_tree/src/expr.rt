//! Expressions. A place is a token's place in the list of tokens, counted from 0. Brackets around
//! an expression leave no node.

use nvm_base::Text;

/// A name and its place.
#[derive(Drop)]
pub struct Name {
    pub text: Text,
    pub place: u64,
}

/// A type of ints, which have 64 bits.
#[derive(Clone, Copy, PartialEq, Eq)]
pub enum IntType {
    /// `int64_t`
    Signed,
    /// `uint64_t`
    Unsigned,
}

/// A unary operator.
#[derive(Clone, Copy)]
pub enum UnaryOp {
    /// `-`
    Negate,
    /// `!`
    Not,
    /// `~`
    Complement,
    /// `(int64_t)` and `(uint64_t)`
    Cast(IntType),
}

/// A binary operator.
#[derive(Clone, Copy, PartialEq, Eq)]
pub enum BinaryOp {
    Mul,
    Div,
    Rem,
    Add,
    Sub,
    ShiftLeft,
    ShiftRight,
    Less,
    LessEqual,
    Greater,
    GreaterEqual,
    Equal,
    NotEqual,
    And,
    Xor,
    Or,
    /// `&&`
    Both,
    /// `||`
    Either,
}

/// An argument of a call. `first` is the place of its first token, which may be a bracket.
#[derive(Drop)]
#[cycle(expression)]
pub struct Argument {
    pub first: u64,
    pub value: Expr,
}

/// An expression. The `place` of a node is that of its operator, its `?`, its `[` or its word; of
/// a cast it is that of its type's word.
#[derive(Drop)]
#[cycle(expression)]
pub enum Expr {
    /// A number, as the word with its bits.
    Number(i64),
    /// `NULL`
    Null,
    Variable(Name),
    Call {
        name: Name,
        arguments: Vec<Argument>,
    },
    /// `root.FIELD`
    Root(Name),
    /// `pm_new(struct NAME)`
    New {
        place: u64,
        name: Name,
    },
    /// `BASE->FIELD`
    Arrow {
        base: Box<Expr>,
        place: u64,
        field: Name,
    },
    /// `BASE[INDEX]`
    Index {
        base: Box<Expr>,
        place: u64,
        index: Box<Expr>,
    },
    Unary {
        op: UnaryOp,
        place: u64,
        operand: Box<Expr>,
    },
    Binary {
        op: BinaryOp,
        place: u64,
        left: Box<Expr>,
        right: Box<Expr>,
    },
    /// `CONDITION ? LEFT : RIGHT`
    Conditional {
        condition: Box<Expr>,
        place: u64,
        left: Box<Expr>,
        right: Box<Expr>,
    },
}
