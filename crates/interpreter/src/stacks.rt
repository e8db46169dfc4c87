//! The stacks of a run. Contracts see each as a list that begins with its top.

ghost use Rattle.std.specs.Prelude.{◌≡◌, [], ◌∷◌, OnOk, length, reverse, take, drop};
ghost use Rattle.nvm_base.specs.Stacks.{Popped};

use crate::locals::Locals;
use crate::work::Work;
use std::alloc::{AllocError, Global};
use std::marker::Model;

/// The work list.
#[derive(Drop)]
pub struct Plan<'a> {
    all: Vec<Work<'a>>,
}

impl<'a> Model for Plan<'a> {
    ghost use Rattle.std.specs.Prelude.{List, reverse};
    ghost use Rattle.std.specs.Coded.{codes};
    ghost use Rattle.c_tree.specs.contracts.expr.Expr as expression;
    ghost use Rattle.c_tree.specs.contracts.stmt.Stmt as statement;
    ghost use Rattle.interpreter.specs.declared.work.Work.{Work};

    ghost Value = { List Work };

    ghost coded = { Prim.hlevel (codes, expression.the_row.coded, statement.the_row.coded) };

    ghost view = { λ p. reverse p.all.items };
}

impl<'a> Plan<'a> {
    /// The empty work list. It takes no memory.
    pub fn new(alloc: Global) -> Self
        ensures { result ≡ [] }
    {
        Plan {
            all: Vec::new(alloc),
        }
    }

    /// Puts an item at the front.
    #[tactic(auto, using(crate::proofs::Tops::tops))]
    pub fn push(&mut self, work: Work<'a>) -> Result<(), AllocError>
        ensures { OnOk result (self.new ≡ work.entry ∷ self.old) }
    {
        self.all.push(work)?;
        Ok(())
    }

    /// Pops the next item of the work list.
    #[tactic(auto, using(crate::proofs::Tops::tops))]
    pub fn pop(&mut self) -> Option<Work<'a>>
        ensures { Popped result self.new self.old }
    {
        self.all.pop()
    }
}

/// The waiting values.
#[derive(Drop)]
pub struct Values {
    all: Vec<i64>,
}

impl Model for Values {
    ghost use Rattle.std.specs.Prelude.{List, ℤ, reverse};

    ghost Value = { List ℤ };

    ghost view = { λ v. reverse v.all.items };
}

impl Values {
    /// No waiting value. It takes no memory.
    pub fn new(alloc: Global) -> Self
        ensures { result ≡ [] }
    {
        Values {
            all: Vec::new(alloc),
        }
    }

    /// Pushes a value.
    #[tactic(auto, using(crate::proofs::Tops::tops))]
    pub fn push(&mut self, value: i64) -> Result<(), AllocError>
        ensures { OnOk result (self.new ≡ value ∷ self.old) }
    {
        self.all.push(value)?;
        Ok(())
    }

    /// Pops a value.
    #[tactic(auto, using(crate::proofs::Tops::tops))]
    pub fn pop(&mut self) -> Option<i64>
        ensures { Popped result self.new self.old }
    {
        self.all.pop()
    }

    /// The newest values, `count` of them at most, oldest first.
    #[tactic(auto, using(crate::proofs::Tops::tops))]
    pub fn newest(&self, count: usize) -> &[i64]
        ensures { result.now ≡ reverse (take count self.now) }
    {
        let first = self.all.len().saturating_sub(count);
        &self.all[first..]
    }

    /// Pops the newest values, `count` of them at most.
    #[tactic(auto, using(crate::proofs::Tops::tops))]
    pub fn forget(&mut self, count: usize)
        ensures { self.new ≡ drop count self.old }
    {
        let first = self.all.len().saturating_sub(count);
        self.all.truncate(first);
    }
}

/// The locals of the functions below the open one.
#[derive(Drop)]
pub struct Frames<'a> {
    all: Vec<Locals<'a>>,
}

impl<'a> Model for Frames<'a> {
    ghost use Rattle.std.specs.Prelude.{List, reverse};
    ghost use Rattle.c_meaning.specs.Locals.{Local};

    ghost Value = { List (List Local) };

    ghost view = { λ f. reverse f.all.items };
}

impl<'a> Frames<'a> {
    /// No waiting function. It takes no memory.
    pub fn new(alloc: Global) -> Self
        ensures { result ≡ [] }
    {
        Frames {
            all: Vec::new(alloc),
        }
    }

    /// The number of waiting functions.
    pub fn count(&self) -> usize
        ensures { result ≡ length self.now }
    {
        self.all.len()
    }

    /// Pushes a function's locals.
    #[tactic(auto, using(crate::proofs::Tops::tops))]
    pub fn push(&mut self, locals: Locals<'a>) -> Result<(), AllocError>
        ensures { OnOk result (self.new ≡ locals.entry ∷ self.old) }
    {
        self.all.push(locals)?;
        Ok(())
    }

    /// Pops a function's locals.
    #[tactic(auto, using(crate::proofs::Tops::tops))]
    pub fn pop(&mut self) -> Option<Locals<'a>>
        ensures { Popped result self.new self.old }
    {
        self.all.pop()
    }
}
