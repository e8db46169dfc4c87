//! The tree of a whole program.

ghost use Rattle.std.specs.Prelude.{◌≡◌, IfOk, length, map};
ghost use Rattle.c_tree.specs.Program.{source_line};

use crate::item::Item;
use c_lexer::TokenList;
use std::alloc::{AllocError, Global};
use std::marker::Model;

/// The tree of a program, with the lines of its tokens.
#[derive(Drop)]
pub struct Ast {
    items: Vec<Item>,
    lines: Vec<u64>,
    end: u64,
}

impl Model for Ast {
    ghost use Rattle.c_tree.specs.Program.{Program};
    ghost use Rattle.c_tree.specs.contracts.expr.Expr as expression;
    ghost use Rattle.c_tree.specs.contracts.stmt.Stmt as statement;
    ghost use Rattle.std.specs.Coded.{codes};

    ghost Value = { Program };

    ghost coded = { Prim.hlevel (codes, expression.the_row.coded, statement.the_row.coded) };

    ghost view = { λ a. record { all = a.items.items; lines = a.lines.items; last = a.end } };
}

impl Ast {
    /// The tree of these items, with the lines of their tokens.
    #[tactic(auto, using(crate::proofs::Lines::lines))]
    pub fn new(alloc: Global, items: Vec<Item>, tokens: &TokenList) -> Result<Self, AllocError>
        ensures items { IfOk result (λ a. a.all ≡ items.items) }
        ensures last { IfOk result (λ a. a.last ≡ tokens.now.last) }
        ensures lines { IfOk result (λ a. a.lines ≡ map (λ placed. placed.line) tokens.now.tokens) }
    {
        let mut lines = Vec::new(alloc);
        for place in 0..tokens.len() {
            lines.push(tokens.line(place))?;
        }
        let end = tokens.line(tokens.len());
        Ok(Ast { items, lines, end })
    }

    /// The items of the program, in the order of the text.
    pub fn items(&self) -> &[Item]
        ensures { result.now ≡ self.now.all }
    {
        &self.items
    }

    /// The number of the program's tokens.
    pub fn tokens(&self) -> u64
        ensures { result ≡ length self.now.lines }
    {
        self.lines.len() as u64
    }

    /// The line of the token at a place; at the number of tokens, the line of the text's end.
    pub fn line(&self, place: u64) -> u64
        ensures { result ≡ source_line self.now place }
    {
        match self.lines.get(place as usize) {
            Some(line) => *line,
            None => self.end,
        }
    }
}
