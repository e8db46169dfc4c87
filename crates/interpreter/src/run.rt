//! A run in progress.

ghost use Rattle.std.specs.Prelude.{◌≡◌, [], ◌∷◌, IfOk, OnOk, map, take, drop, reverse};
ghost use Rattle.c_tree.specs.ExprTree.{expr_of};
ghost use Rattle.c_tree.specs.StmtTree.{statements_in};
ghost use Rattle.c_tree.specs.ItemTree.{function_tree, parameter_of};
ghost use Rattle.c_types.specs.Tables.{Tables};
ghost use Rattle.c_types.specs.Views.{tables_in};
ghost use Rattle.c_meaning.specs.Locals as local;
ghost use Rattle.c_meaning.specs.Meaning as meaning;
ghost use Rattle.c_meaning.specs.Access as access;
ghost use Rattle.interpreter.specs.inside.Todo as todo;
ghost use Rattle.interpreter.specs.declared.work.Work.TheVariants as work;
ghost use Rattle.interpreter.specs.inside.Resume.{calls, newest, pointer_in, index_operand, under};
ghost use Rattle.interpreter.specs.inside.Resume.{with_index, planned, plan_going, resumed};
ghost use Rattle.interpreter.specs.inside.Resume.{resumed_with, with_operands, with_end, entering};
ghost use Rattle.interpreter.specs.inside.Resume.{left_function, StepLeads, Taken, Ticked};
ghost use Rattle.interpreter.specs.inside.Answers.{Quiet, QuietAt};

use crate::access::word_named;
use crate::fault::Fault;
use crate::locals::{Locals, bound};
use crate::places::target_place;
use crate::stacks::{Frames, Plan, Values};
use crate::work::{ExprTask, StmtTask, Work};
use c_meaning::TrapAt;
use c_tree::expr::Expr;
use c_tree::item::Function;
use c_tree::stmt::Stmt;
use c_types::Program;
use pool_map::{Pool, PoolWord, TrapKind};
use std::alloc::{AllocError, Global};
use std::marker::Model;
use std::mem;

/// The greatest number of open functions.
const OPEN: usize = 256;

/// The operands of a target: the pointer that leads to it, and its index.
#[derive(Clone, Copy)]
pub struct Operands {
    pub pointer: i64,
    pub index: Option<i64>,
}

/// A run in progress: the work list, last item first, and the waiting values; the locals of the
/// open function and of those below it; the pool and the ticks left.
#[derive(Drop)]
pub struct Run<'a> {
    pub plan: Plan<'a>,
    pub values: Values,
    pub top: Locals<'a>,
    pub below: Frames<'a>,
    pub pool: Pool,
    pub ticks: u64,
}

impl<'a> Model for Run<'a> {
    ghost use Rattle.std.specs.Coded.{codes};
    ghost use Rattle.c_tree.specs.contracts.expr.Expr as expression;
    ghost use Rattle.c_tree.specs.contracts.stmt.Stmt as statement;
    ghost use Rattle.interpreter.specs.inside.Resume.{ResumeState};

    ghost Value = { ResumeState };

    ghost coded = { Prim.hlevel (codes, expression.the_row.coded, statement.the_row.coded) };

    ghost view = { λ r. record {
      plan = r.plan;
      values = r.values;
      top = r.top;
      below = r.below;
      pool = r.pool;
      ticks = r.ticks;
    } };
}

impl<'a> Run<'a> {
    /// A run with an empty work list and one open function. It takes no memory.
    pub fn new(alloc: Global, pool: Pool, top: Locals<'a>, ticks: u64) -> Self
        ensures { result ≡ record {
          plan = [];
          values = [];
          top = top.entry;
          below = [];
          pool = pool;
          ticks = ticks;
        } }
    {
        Run {
            plan: Plan::new(alloc),
            values: Values::new(alloc),
            top,
            below: Frames::new(alloc),
            pool,
            ticks,
        }
    }

    /// Puts an item at the front of the work list.
    pub fn plan(&mut self, work: Work<'a>) -> Result<(), AllocError>
        ensures { OnOk result (self.new ≡ planned work.entry self.old) }
    {
        self.plan.push(work)?;
        Ok(())
    }

    /// Pops the next item of the work list.
    pub fn next(&mut self) -> Option<Work<'a>>
        ensures { Taken result self.new self.old }
    {
        self.plan.pop()
    }

    /// Puts a task on an expression before all other tasks.
    pub fn plan_expr(&mut self, task: ExprTask, expr: &'a Expr) -> Result<(), AllocError>
        ensures { OnOk result (self.new ≡ planned (work.Expr task expr.entry) self.old) }
    {
        self.plan(Work::Expr(task, expr))
    }

    /// Puts a task on a statement before all other tasks.
    pub fn plan_stmt(&mut self, task: StmtTask, stmt: &'a Stmt) -> Result<(), AllocError>
        ensures { OnOk result (self.new ≡ planned (work.Stmt task stmt.entry) self.old) }
    {
        self.plan(Work::Stmt(task, stmt))
    }

    /// Adds a value to those that are evaluated.
    pub fn give(&mut self, value: i64) -> Result<(), AllocError>
        ensures { OnOk result (self.new ≡ record self.old { values = value ∷ self.old.values }) }
    {
        self.values.push(value)?;
        Ok(())
    }

    /// Pops the newest value, or gives 0 if none waits.
    pub fn take(&mut self) -> i64
        ensures value { result ≡ newest self.old.values }
        ensures others { self.new ≡ record self.old { values = drop 1 self.old.values } }
    {
        match self.values.pop() {
            None => 0,
            Some(value) => value,
        }
    }

    /// Takes a tick, for the token at a place.
    pub fn tick(&mut self, place: u64) -> Result<(), TrapAt>
        ensures { Ticked place result self.new self.old }
    {
        if self.ticks == 0 {
            let kind = TrapKind::Steps;
            return Err(TrapAt { kind, place });
        }
        self.ticks -= 1;
        Ok(())
    }

    /// Plans the evaluation of a target's operands: the pointer that leads to it, or 0 in its
    /// place, and then its index.
    pub fn plan_operands(&mut self, target: &'a Expr) -> Result<(), AllocError>
        ensures { (t : Tables) → OnOk result
            (resumed t self.new ≡ with_operands t self.old
            (meaning.operands_of t (calls t self.old.below) (expr_of target.now) self.old.top
            self.old.pool self.old.ticks)) }
    {
        match target {
            Expr::Index { base, index, .. } => {
                self.plan_expr(ExprTask::Eval, index)?;
                self.plan_pointer(base)
            }
            Expr::Arrow { base, .. } => self.plan_expr(ExprTask::Eval, base),
            _ => self.give(0),
        }
    }

    fn plan_pointer(&mut self, field: &'a Expr) -> Result<(), AllocError>
        ensures { (t : Tables) → OnOk result
            (resumed t self.new ≡ resumed_with t self.old
            (meaning.pointer_of t (calls t self.old.below) (expr_of field.now) self.old.top
            self.old.pool self.old.ticks)) }
    {
        match field {
            Expr::Arrow { base, .. } => self.plan_expr(ExprTask::Eval, base),
            _ => self.give(0),
        }
    }

    /// Pops a target's operands.
    pub fn take_operands(&mut self, target: &Expr) -> Operands
        ensures pointer { result.pointer ≡ pointer_in (expr_of target.now) self.old.values }
        ensures index { result.index ≡ index_operand (expr_of target.now) self.old.values }
        ensures others { self.new ≡ record self.old
            { values = under (expr_of target.now) self.old.values } }
    {
        match target {
            Expr::Index { .. } => {
                let index = self.take();
                let pointer = self.take();
                Operands {
                    pointer,
                    index: Some(index),
                }
            }
            _ => {
                let pointer = self.take();
                Operands {
                    pointer,
                    index: None,
                }
            }
        }
    }

    /// Pushes a target's operands again.
    pub fn give_operands(&mut self, operands: Operands) -> Result<(), AllocError>
        ensures { OnOk result (self.new ≡ record self.old
            { values = with_index operands.index (operands.pointer ∷ self.old.values) }) }
    {
        self.give(operands.pointer)?;
        match operands.index {
            None => Ok(()),
            Some(index) => self.give(index),
        }
    }

    /// The word that a target names, after the checks.
    pub fn locate(
        &self,
        program: &Program<'a>,
        target: &Expr,
        operands: Operands,
    ) -> Result<PoolWord, TrapAt>
        ensures value { result ≡ meaning.located (tables_in program.now) self.now.top
            self.now.pool (expr_of target.now) operands.pointer operands.index }
        ensures quiet { QuietAt result }
    {
        let field = match target {
            Expr::Index { base, .. } => base,
            _ => target,
        };
        let Operands { pointer, index } = operands;
        match word_named(program, &self.top, &self.pool, field, pointer, index) {
            Ok(word) => Ok(word),
            Err(kind) => Err(TrapAt {
                kind,
                place: target_place(target, kind),
            }),
        }
    }

    /// Opens a function, whose arguments are the `count` newest values, for the call at a place.
    /// It takes a tick, and then room among the open functions.
    pub fn call(
        &mut self,
        alloc: Global,
        program: &Program<'a>,
        place: u64,
        function: &'a Function,
        count: usize,
    ) -> Result<(), Fault>
        ensures quiet { Quiet result }
        ensures does { StepLeads (tables_in program.now)
            (todo.Call place (function_tree function.now) count) self.old result self.new }
    {
        self.tick(place)?;
        if self.below.count() >= OPEN - 1 {
            let kind = TrapKind::Depth;
            return Err(Fault::Trapped(TrapAt { kind, place }));
        }
        self.open(alloc, program, function, count)?;
        Ok(())
    }

    /// Opens a function.
    fn open(
        &mut self,
        alloc: Global,
        program: &Program<'a>,
        function: &'a Function,
        count: usize,
    ) -> Result<(), AllocError>
        ensures { OnOk result (resumed (tables_in program.now) self.new
            ≡ entering (tables_in program.now) (function_tree function.now) count self.old) }
    {
        let locals = self.bind(alloc, program, function, count)?;
        self.enter(locals)?;
        self.begin(function)
    }

    /// The locals of a function at its start: its parameters, with the `count` newest values.
    fn bind(
        &mut self,
        alloc: Global,
        program: &Program<'a>,
        function: &'a Function,
        count: usize,
    ) -> Result<Locals<'a>, AllocError>
        ensures locals { IfOk result (λ ls.
            ls ≡ local.bound (tables_in program.now)
            (map parameter_of function.now.parameters.items) (reverse (take count self.old.values))
            []) }
        ensures others { OnOk result (self.new ≡ record self.old
            { values = drop count self.old.values }) }
    {
        let arguments = self.values.newest(count);
        let locals = bound(alloc, program, &function.parameters, arguments)?;
        self.values.forget(count);
        Ok(locals)
    }

    /// Makes these the locals of the open function, above the others.
    fn enter(&mut self, locals: Locals<'a>) -> Result<(), AllocError>
        ensures { OnOk result (self.new ≡ record self.old {
          top = locals.entry;
          below = self.old.top
              ∷ self.old.below;
        }) }
    {
        let caller = mem::replace(&mut self.top, locals);
        self.below.push(caller)?;
        Ok(())
    }

    /// Plans the body of a function whose parameters are bound.
    pub fn begin(&mut self, function: &'a Function) -> Result<(), AllocError>
        ensures { (t : Tables) → OnOk result
            (resumed t self.new ≡ with_end t (planned work.Leave self.old)
            (meaning.ends_of t (calls t self.old.below) (statements_in function.now.body.items)
            self.old.top self.old.pool self.old.ticks)) }
    {
        self.plan(Work::Leave)?;
        self.plan(Work::Rest(&function.body))
    }

    /// Ends the open function.
    pub fn leave(&mut self, alloc: Global, value: i64) -> Result<(), AllocError>
        ensures { (t : Tables) → OnOk result
            (resumed t self.new ≡ left_function (plan_going t self.old) self.old.values
            self.old.below (meaning.Got value self.old.pool self.old.ticks)) }
    {
        let caller = match self.below.pop() {
            None => Locals::new(alloc),
            Some(caller) => caller,
        };
        mem::replace(&mut self.top, caller);
        self.give(value)
    }
}
