//! Evaluating expressions.

ghost use Rattle.std.specs.Prelude.{◌≡◌, OnOk};
ghost use Rattle.c_tree.specs.ExprTree as tree;
ghost use Rattle.c_tree.specs.ExprTree.{expr_of, ident_of, arguments_in};
ghost use Rattle.c_types.specs.Tables.{Tables};
ghost use Rattle.c_types.specs.Views.{tables_in};
ghost use Rattle.interpreter.specs.declared.work.ExprTask.TheVariants as task;
ghost use Rattle.interpreter.specs.declared.work.WordTask.TheVariants as word_task;
ghost use Rattle.c_meaning.specs.Meaning.{value_of, binary_means};
ghost use Rattle.interpreter.specs.inside.Todo as todo;
ghost use Rattle.interpreter.specs.inside.Resume.{calls, todo_begun, resumed, resumed_with};
ghost use Rattle.interpreter.specs.inside.Resume.{loaded_from, StepLeads};
ghost use Rattle.interpreter.specs.inside.Answers.{Quiet};

use crate::access::{free_object, new_object};
use crate::fault::Fault;
use crate::operators::{binary, unary};
use crate::run::Run;
use crate::work::{ExprTask, WordTask, Work};
use c_meaning::TrapAt;
use c_tree::expr::{Argument, BinaryOp, Expr, IntType, Name, UnaryOp};
use c_types::{Program, sides_type};
use pool_map::TrapKind;
use std::alloc::AllocError;

impl<'a> Run<'a> {
    /// Begins to evaluate an expression.
    pub fn eval(&mut self, program: &Program<'a>, expr: &'a Expr) -> Result<(), AllocError>
        ensures { OnOk result (resumed (tables_in program.now) self.new
            ≡ todo_begun (tables_in program.now) (todo.Expr task.Eval (expr_of expr.now))
            self.old) }
    {
        match expr {
            Expr::Number(value) => self.give(*value),
            Expr::Null => self.give(0),
            Expr::Variable(name) => {
                let value = self.top.find(name.text.as_str());
                self.give(value)
            }
            Expr::Call { name, arguments } => self.plan_call(program, name, arguments),
            Expr::New { name, .. } => {
                let pointer = new_object(program, &mut self.pool, name)?;
                self.give(pointer)
            }
            Expr::Root(_) => self.plan_load(expr),
            Expr::Arrow { .. } => self.plan_load(expr),
            Expr::Index { .. } => self.plan_load(expr),
            Expr::Unary { op, operand, .. } => {
                self.plan(Work::Word(WordTask::Unary(*op)))?;
                self.plan_expr(ExprTask::Eval, operand)
            }
            Expr::Binary {
                op,
                place,
                left,
                right,
            } => {
                let int = sides_type(program, self.top.scopes(), *op, left, right);
                self.plan_binary(*op, int, *place, left, right)
            }
            Expr::Conditional {
                condition,
                left,
                right,
                ..
            } => {
                self.plan(Work::Sides(left, right))?;
                self.plan_expr(ExprTask::Eval, condition)
            }
        }
    }

    /// Plans `&&` and `||`, whose right side waits until the left side is known.
    fn plan_binary(
        &mut self,
        op: BinaryOp,
        int: IntType,
        place: u64,
        left: &'a Expr,
        right: &'a Expr,
    ) -> Result<(), AllocError>
        ensures { (t : Tables) → OnOk result
            (resumed t self.new ≡ resumed_with t self.old
            (binary_means op int place (value_of t (calls t self.old.below) (expr_of left.now)
            self.old.top self.old.pool self.old.ticks) (λ p k.
            value_of t (calls t self.old.below) (expr_of right.now) self.old.top p k))) }
    {
        match op {
            BinaryOp::Both => {
                self.plan_expr(ExprTask::Both, right)?;
                self.plan_expr(ExprTask::Eval, left)
            }
            BinaryOp::Either => {
                self.plan_expr(ExprTask::Either, right)?;
                self.plan_expr(ExprTask::Eval, left)
            }
            _ => {
                self.plan(Work::Word(WordTask::Binary(op, int, place)))?;
                self.plan_expr(ExprTask::Eval, right)?;
                self.plan_expr(ExprTask::Eval, left)
            }
        }
    }

    fn plan_load(&mut self, expr: &'a Expr) -> Result<(), AllocError>
        ensures { (t : Tables) → OnOk result
            (resumed t self.new ≡ resumed_with t self.old
            (loaded_from t (calls t self.old.below) (expr_of expr.now) self.old.top self.old.pool
            self.old.ticks)) }
    {
        self.plan_expr(ExprTask::Load, expr)?;
        self.plan_operands(expr)
    }

    /// Plans a call. A call of a function that doesn't exist gives 0.
    pub fn plan_call(
        &mut self,
        program: &Program<'a>,
        name: &Name,
        arguments: &'a [Argument],
    ) -> Result<(), AllocError>
        ensures { OnOk result (resumed (tables_in program.now) self.new
            ≡ resumed_with (tables_in program.now) self.old
            (value_of (tables_in program.now) (calls (tables_in program.now) self.old.below)
            (tree.Call (ident_of name.now) (arguments_in arguments.now)) self.old.top self.old.pool
            self.old.ticks)) }
    {
        match program.function_named(name.text.as_str()) {
            None => self.give(0),
            Some(function) => {
                self.plan(Work::Call(name.place, function, arguments.len()))?;
                self.plan(Work::Arguments(arguments))
            }
        }
    }

    /// Plans to evaluate the arguments of a call, from the first on.
    pub fn arguments(&mut self, all: &'a [Argument]) -> Result<(), AllocError>
        ensures { (t : Tables) → OnOk result
            (resumed t self.new ≡ todo_begun t (todo.Arguments (arguments_in all.now)) self.old) }
    {
        match all.split_first() {
            None => Ok(()),
            Some((first, others)) => {
                self.plan(Work::Arguments(others))?;
                self.plan_expr(ExprTask::Eval, &first.value)
            }
        }
    }

    /// Replaces the last value by that of a unary operator on it.
    pub fn unary(&mut self, op: UnaryOp) -> Result<(), AllocError>
        ensures { (t : Tables) → OnOk result
            (resumed t self.new ≡ todo_begun t (todo.Word (word_task.Unary op)) self.old) }
    {
        let operand = self.take();
        self.give(unary(op, operand))
    }

    /// Replaces the last two values by that of a binary operator on them. A zero divisor is the
    /// trap of the place.
    pub fn binary(&mut self, op: BinaryOp, int: IntType, place: u64) -> Result<(), Fault>
        ensures quiet { Quiet result }
        ensures does { (t : Tables) → StepLeads t (todo.Word (word_task.Binary op int place))
            self.old result self.new }
    {
        let right = self.take();
        let left = self.take();
        match binary(op, int, left, right) {
            None => Err(Fault::Trapped(TrapAt {
                kind: TrapKind::Divide,
                place,
            })),
            Some(value) => {
                self.give(value)?;
                Ok(())
            }
        }
    }

    /// Goes on with the right side of `&&`, unless the left one is 0 or `NULL`.
    pub fn both(&mut self, right: &'a Expr) -> Result<(), AllocError>
        ensures { (t : Tables) → OnOk result
            (resumed t self.new ≡ todo_begun t (todo.Expr task.Both (expr_of right.now)) self.old) }
    {
        if self.take() == 0 {
            return self.give(0);
        }
        self.plan(Work::Word(WordTask::Truth))?;
        self.plan_expr(ExprTask::Eval, right)
    }

    /// Goes on with the right side of `||`, if the left one is 0 or `NULL`.
    pub fn either(&mut self, right: &'a Expr) -> Result<(), AllocError>
        ensures { (t : Tables) → OnOk result
            (resumed t self.new ≡ todo_begun t (todo.Expr task.Either (expr_of right.now))
            self.old) }
    {
        if self.take() != 0 {
            return self.give(1);
        }
        self.plan(Work::Word(WordTask::Truth))?;
        self.plan_expr(ExprTask::Eval, right)
    }

    /// Goes on with one side of `c ? a : b`, by the last value.
    pub fn sides(&mut self, left: &'a Expr, right: &'a Expr) -> Result<(), AllocError>
        ensures { (t : Tables) → OnOk result
            (resumed t self.new ≡ todo_begun t
            (todo.Sides (expr_of left.now) (expr_of right.now)) self.old) }
    {
        if self.take() == 0 {
            return self.plan_expr(ExprTask::Eval, right);
        }
        self.plan_expr(ExprTask::Eval, left)
    }

    /// Replaces the last value by 0 where it is 0 or `NULL`, and by 1 where it is not.
    pub fn truth(&mut self) -> Result<(), AllocError>
        ensures { (t : Tables) → OnOk result
            (resumed t self.new ≡ todo_begun t (todo.Word word_task.Truth) self.old) }
    {
        if self.take() == 0 {
            return self.give(0);
        }
        self.give(1)
    }

    /// Replaces the last values, a pointer and an index as far as the expression has them, by what
    /// the pool has there.
    pub fn load(&mut self, program: &Program<'a>, expr: &Expr) -> Result<(), Fault>
        ensures quiet { Quiet result }
        ensures does { StepLeads (tables_in program.now) (todo.Expr task.Load (expr_of expr.now))
            self.old result self.new }
    {
        let operands = self.take_operands(expr);
        let word = self.locate(program, expr, operands)?;
        let value = self.pool.load(word);
        self.give(value)?;
        Ok(())
    }

    /// The same, and leaves pointer and index where they are, for an assignment with an operator.
    pub fn fetch(&mut self, program: &Program<'a>, expr: &Expr) -> Result<(), Fault>
        ensures quiet { Quiet result }
        ensures does { StepLeads (tables_in program.now) (todo.Expr task.Fetch (expr_of expr.now))
            self.old result self.new }
    {
        let operands = self.take_operands(expr);
        let word = self.locate(program, expr, operands)?;
        let value = self.pool.load(word);
        self.give_operands(operands)?;
        self.give(value)?;
        Ok(())
    }

    /// Checks pointer and index, and stores the last value there.
    #[tactic(auto, using(crate::proofs::Resume::traps))]
    pub fn store(&mut self, program: &Program<'a>, expr: &Expr) -> Result<(), Fault>
        ensures quiet { Quiet result }
        ensures does { StepLeads (tables_in program.now) (todo.Expr task.Store (expr_of expr.now))
            self.old result self.new }
    {
        let value = self.take();
        let operands = self.take_operands(expr);
        let place = self.locate(program, expr, operands)?;
        self.pool.store(place, value);
        Ok(())
    }

    /// Stores the last value to a local.
    pub fn assign(&mut self, name: &Name)
        ensures { (t : Tables) → resumed t self.new ≡ todo_begun t (todo.Assign name.now.text)
            self.old }
    {
        let value = self.take();
        self.top.assign(name.text.as_str(), value);
    }

    /// Checks the pointer, and frees its object.
    #[tactic(auto, using(crate::proofs::Resume::traps))]
    pub fn free(&mut self, program: &Program<'a>, place: u64, pointer: &Expr) -> Result<(), Fault>
        ensures quiet { Quiet result }
        ensures does { StepLeads (tables_in program.now)
            (todo.Expr (task.Free place) (expr_of pointer.now)) self.old result self.new }
    {
        let word = self.take();
        match free_object(program, &self.top, &mut self.pool, pointer, word) {
            Ok(()) => Ok(()),
            Err(kind) => Err(Fault::Trapped(TrapAt { kind, place })),
        }
    }
}
