//! The items at the top level of a program.

use crate::expr::Name;
use crate::stmt::{Stmt, TypeName};

/// The length of an array, with the place of its number.
#[derive(Drop)]
pub struct Length {
    pub value: i64,
    pub place: u64,
}

/// A field of a struct.
#[derive(Drop)]
pub struct Field {
    pub ty: TypeName,
    pub name: Name,
    pub length: Option<Length>,
}

/// `struct NAME { FIELDS };`
#[derive(Drop)]
pub struct StructDef {
    pub name: Name,
    pub fields: Vec<Field>,
}

/// `persistent struct NAME root;`, with the place of `root`.
#[derive(Drop)]
pub struct RootDecl {
    pub name: Name,
    pub place: u64,
}

/// A parameter of a function.
#[derive(Drop)]
pub struct Parameter {
    pub ty: TypeName,
    pub name: Name,
}

/// The mark of a function.
#[derive(Clone, Copy, Debug, PartialEq, Eq)]
pub enum Marked {
    /// None.
    Plain,
    /// `abort`: where it traps it is rolled back.
    Abort,
    /// `const`: it only looks.
    Const,
}

/// A function. Its result is absent if it is `void`.
#[derive(Drop)]
pub struct Function {
    /// Whether it is a transaction.
    pub tx: bool,
    /// The mark of a transaction; any other function is plain.
    pub mark: Marked,
    pub result_type: Option<TypeName>,
    pub name: Name,
    pub parameters: Vec<Parameter>,
    pub body: Vec<Stmt>,
}

/// An item of a program.
#[derive(Drop)]
pub enum Item {
    Struct(StructDef),
    Root(RootDecl),
    Function(Function),
}
