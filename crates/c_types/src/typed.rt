//! A tree that breaks no typing rule, and what it provides.

ghost use Rattle.std.specs.Prelude.{◌≡◌, ◌≤◌, ◌-◌, IfOk, length, map, option_map, suc, slice_get};
ghost use Rattle.std.specs.Prelude.{Some, false};
ghost use Rattle.std.specs.Option.{option_map_or};
ghost use Rattle.c_types.specs.Shapes.{is_unsigned};
ghost use Rattle.c_tree.specs.ItemTree.{FunctionTree};
ghost use Rattle.c_types.specs.Tables.{index_of};
ghost use Rattle.c_types.specs.Shapes.{shapes_of, transactions_of};
ghost use Rattle.c_types.specs.Transactions.{entry_of, parameter_types, is_abort, is_const};
ghost use Rattle.c_types.specs.declared.transactions.Transaction as kept;

use crate::program::Program;
use crate::shapes::program_shapes;
use crate::transactions::{Transaction, is_abort, is_const, transactions};
use c_tree::Ast;
use pool_map::Shapes;
use std::alloc::{AllocError, Global};
use std::marker::Model;

/// A tree that `check` accepted, seen as the tree. Its methods take no memory.
#[derive(Drop)]
pub struct Typed {
    ast: Ast,
    shapes: Shapes,
    transactions: Vec<Transaction>,
}

impl Model for Typed {
    ghost use Rattle.std.specs.Prelude.{◌≡◌, map};
    ghost use Rattle.std.specs.Coded.{codes};
    ghost use Rattle.c_tree.specs.contracts.expr.Expr as expression;
    ghost use Rattle.c_tree.specs.contracts.stmt.Stmt as statement;
    ghost use Rattle.c_tree.specs.Program as tree;
    ghost use Rattle.c_types.specs.Shapes.{shapes_of, transactions_of};
    ghost use Rattle.c_types.specs.Transactions.{entry_of};

    ghost Value = { tree.Program };

    ghost coded = { Prim.hlevel (codes, expression.the_row.coded, statement.the_row.coded) };

    ghost view = { λ t. t.ast };

    ghost invariant = { λ t. (t.shapes ≡ shapes_of t.ast)
        × (t.transactions.items ≡ map entry_of (transactions_of t.ast)) };
}

impl Typed {
    /// Wraps the tree, whatever rules it breaks.
    pub(crate) fn new(alloc: Global, ast: Ast) -> Result<Typed, AllocError>
        ensures { IfOk result (λ t. t ≡ ast) }
    {
        let (shapes, transactions) = told(alloc, &ast)?;
        Ok(Typed {
            ast,
            shapes,
            transactions,
        })
    }

    /// The tree that was checked.
    pub fn ast(&self) -> &Ast
        ensures { result.now ≡ self.now }
    {
        &self.ast
    }

    /// The shapes of the root and of the numbered structs.
    pub fn shapes(&self) -> &Shapes
        ensures { result.now ≡ shapes_of self.now }
    {
        &self.shapes
    }

    /// The number of the transaction of that name, counted from 1.
    pub fn tx_number(&self, name: &str) -> Option<u64>
        ensures { result ≡ option_map suc
            (index_of name.now (map (λ (f : FunctionTree). f.name.text)
            (transactions_of self.now))) }
    {
        number_of(&self.transactions, name)
    }

    /// The number of transactions.
    pub fn txs(&self) -> u64
        ensures { result ≡ length (transactions_of self.now) }
    {
        self.transactions.len() as u64
    }

    /// The name of a transaction.
    pub fn tx_name(&self, tx: u64) -> &str
        requires from { 1 ≤ tx }
        requires to { tx ≤ length (transactions_of self.now) }
        ensures { Some result.now ≡ option_map (λ f. f.name.text)
            (slice_get (transactions_of self.now) (tx - 1)) }
    {
        self.transactions[(tx - 1) as usize].name.as_str()
    }

    /// The number of a transaction's parameters.
    pub fn parameters(&self, tx: u64) -> u64
        requires from { 1 ≤ tx }
        requires to { tx ≤ length (transactions_of self.now) }
        ensures { Some result ≡ option_map (λ f. length f.parameters)
            (slice_get (transactions_of self.now) (tx - 1)) }
    {
        self.transactions[(tx - 1) as usize].parameters
    }

    /// Whether a transaction rolls back where it traps.
    pub fn rolls_back(&self, tx: u64) -> bool
        requires from { 1 ≤ tx }
        requires to { tx ≤ length (transactions_of self.now) }
        ensures { Some result ≡ option_map (λ f. is_abort f.mark)
            (slice_get (transactions_of self.now) (tx - 1)) }
    {
        is_abort(self.transactions[(tx - 1) as usize].mark)
    }

    /// Whether a transaction only looks: it is marked `const`.
    pub fn looks(&self, tx: u64) -> bool
        requires from { 1 ≤ tx }
        requires to { tx ≤ length (transactions_of self.now) }
        ensures { Some result ≡ option_map (λ f. is_const f.mark)
            (slice_get (transactions_of self.now) (tx - 1)) }
    {
        is_const(self.transactions[(tx - 1) as usize].mark)
    }

    /// Whether each parameter of a transaction is of `uint64_t`.
    pub fn parameter_types(&self, tx: u64) -> &[bool]
        requires from { 1 ≤ tx }
        requires to { tx ≤ length (transactions_of self.now) }
        ensures { Some result.now ≡ option_map parameter_types
            (slice_get (transactions_of self.now) (tx - 1)) }
    {
        self.transactions[(tx - 1) as usize].types.as_slice()
    }

    /// Whether a transaction returns `uint64_t`.
    pub fn unsigned(&self, tx: u64) -> bool
        requires from { 1 ≤ tx }
        requires to { tx ≤ length (transactions_of self.now) }
        ensures { Some result ≡ option_map (λ f. option_map_or is_unsigned f.result_type false)
            (slice_get (transactions_of self.now) (tx - 1)) }
    {
        self.transactions[(tx - 1) as usize].unsigned
    }

    /// The number of numbered structs.
    pub fn structs(&self) -> u64
        ensures { result ≡ length (shapes_of self.now).structs }
    {
        self.shapes.structs.as_slice().len() as u64
    }

    /// The number of tokens.
    pub fn tokens(&self) -> u64
        ensures { result ≡ length self.now.lines }
    {
        self.ast.tokens()
    }
}

fn told(alloc: Global, ast: &Ast) -> Result<(Shapes, Vec<Transaction>), AllocError>
    ensures shapes { IfOk result (λ p. p.0 ≡ shapes_of ast.now) }
    ensures transactions { IfOk result (λ p. p.1.items ≡ map entry_of (transactions_of ast.now)) }
{
    let program = Program::new(alloc, ast.items())?;
    let shapes = program_shapes(alloc, &program)?;
    let transactions = transactions(alloc, program.functions())?;
    Ok((shapes, transactions))
}

fn number_of(transactions: &[Transaction], name: &str) -> Option<u64>
    ensures { result ≡ option_map suc
        (index_of name.now (map (λ (t : kept.Transaction). t.name) transactions.now)) }
{
    let mut number = 1u64;
    for transaction in transactions {
        if name == transaction.name.as_str() {
            return Some(number);
        }
        number += 1;
    }
    None
}
