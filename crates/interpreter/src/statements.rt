//! Executing statements.

ghost use Rattle.std.specs.Prelude.{◌≡◌, pos, None, OnOk, IfOk, option_map};
ghost use Rattle.std.specs.Option.{option_map_or};
ghost use Rattle.c_tree.specs.ExprTree.{expr_of};
ghost use Rattle.c_tree.specs.StmtTree.{stmt_of, statements_in, simple_of, tree_of_first};
ghost use Rattle.c_tree.specs.StmtTree.{declaration_of};
ghost use Rattle.c_types.specs.Tables.{Tables};
ghost use Rattle.c_types.specs.Views.{tables_in};
ghost use Rattle.interpreter.specs.declared.work.ExprTask.TheVariants as expr_task;
ghost use Rattle.interpreter.specs.declared.work.StmtTask.TheVariants as task;
ghost use Rattle.interpreter.specs.declared.work.Work.TheVariants as work;
ghost use Rattle.interpreter.specs.declared.work.WordTask.TheVariants as word_task;
ghost use Rattle.c_meaning.specs.Meaning as meaning;
ghost use Rattle.c_meaning.specs.Meaning.{target_local, value_of};
ghost use Rattle.interpreter.specs.inside.Todo as todo;
ghost use Rattle.interpreter.specs.inside.Resume.{calls, planned, todo_begun, resumed, resumed_at};
ghost use Rattle.interpreter.specs.inside.Resume.{resumed_with, with_end, scoped, condition_in};
ghost use Rattle.interpreter.specs.inside.Resume.{body_end, right_of, StepLeads, LeadsToOutcome};
ghost use Rattle.interpreter.specs.inside.Answers.{Quiet};

use crate::fault::Fault;
use crate::locals::Locals;
use crate::places::loop_place;
use crate::run::Run;
use crate::work::{ExprTask, Flow, StmtTask, WordTask, Work};
use c_meaning::TrapAt;
use c_tree::expr::{BinaryOp, Expr, IntType, Name};
use c_tree::stmt::{AssignOp, Declaration, First, Simple, StepOp, Stmt};
use c_types::{Program, sides_type};
use pool_map::TrapKind;
use std::alloc::{AllocError, Global};
use std::mem;

/// The local that a target is, if it is one.
fn local_of(target: &Expr) -> Option<&Name>
    ensures { option_map (λ name. name.now.text) result ≡ target_local
        (expr_of target.now) }
{
    match target {
        Expr::Variable(name) => Some(name),
        _ => None,
    }
}

impl<'a> Run<'a> {
    /// Begins a statement, and says how it ended, if it did.
    pub fn exec(&mut self, program: &Program<'a>, stmt: &'a Stmt) -> Result<Flow, Fault>
        ensures quiet { Quiet result }
        ensures does { LeadsToOutcome result
            (with_end (tables_in program.now) self.old
            (meaning.end_of_stmt (tables_in program.now)
            (calls (tables_in program.now) self.old.below) (stmt_of stmt.now) self.old.top
            self.old.pool self.old.ticks))
            (λ how. resumed_at (tables_in program.now) how self.new) }
    {
        match stmt {
            Stmt::Empty => Ok(Flow::Next),
            Stmt::Declare(declaration) => {
                self.plan_declaration(declaration)?;
                Ok(Flow::Next)
            }
            Stmt::Simple(simple) => {
                self.simple(program, simple)?;
                Ok(Flow::Next)
            }
            Stmt::Block(all) => {
                self.plan_block(all)?;
                Ok(Flow::Next)
            }
            Stmt::If { condition, .. } => {
                self.plan_stmt(StmtTask::Choose, stmt)?;
                self.plan_expr(ExprTask::Eval, condition)?;
                Ok(Flow::Next)
            }
            Stmt::While { .. } => {
                self.plan_stmt(StmtTask::Turn, stmt)?;
                Ok(Flow::Next)
            }
            Stmt::Do { .. } => {
                self.plan_stmt(StmtTask::Again, stmt)?;
                self.plan_body(stmt)?;
                Ok(Flow::Next)
            }
            Stmt::For { first, .. } => {
                self.plan_for(stmt, first)?;
                Ok(Flow::Next)
            }
            Stmt::Break => Ok(Flow::Break),
            Stmt::Continue => Ok(Flow::Continue),
            Stmt::Return { value, .. } => Ok(self.plan_return(value)?),
        }
    }

    /// Plans the end of a scope that begins here.
    fn plan_close(&mut self) -> Result<(), AllocError>
        ensures { OnOk result (self.new ≡ scoped self.old) }
    {
        let count = self.top.count();
        self.plan(Work::Close(count))
    }

    fn plan_block(&mut self, all: &'a [Stmt]) -> Result<(), AllocError>
        ensures { OnOk result (self.new ≡ planned (work.Rest all.entry) (scoped self.old)) }
    {
        self.plan_close()?;
        self.plan(Work::Rest(all))
    }

    /// Plans a `for`, which is a scope around its parts.
    fn plan_for(&mut self, stmt: &'a Stmt, first: &'a Option<First>) -> Result<(), AllocError>
        ensures { (t : Tables) → OnOk result
            (resumed t self.new ≡ with_end t
            (planned (work.Stmt task.Turn stmt.entry) (scoped self.old))
            (meaning.end_of_first t (calls t self.old.below) (option_map tree_of_first first.now)
            self.old.top self.old.pool self.old.ticks)) }
    {
        self.plan_close()?;
        self.plan_stmt(StmtTask::Turn, stmt)?;
        self.plan_first(first)
    }

    fn plan_return(&mut self, value: &'a Option<Expr>) -> Result<Flow, AllocError>
        ensures { (t : Tables) → IfOk result
            (λ how. resumed_at t how self.new ≡ with_end t self.old
            (meaning.return_end t (calls t self.old.below) (option_map expr_of value.now)
            self.old.top self.old.pool self.old.ticks)) }
    {
        match value {
            None => Ok(Flow::Return(0)),
            Some(value) => {
                self.plan(Work::Give)?;
                self.plan_expr(ExprTask::Eval, value)?;
                Ok(Flow::Next)
            }
        }
    }

    fn plan_first(&mut self, first: &'a Option<First>) -> Result<(), AllocError>
        ensures { (t : Tables) → OnOk result
            (resumed t self.new ≡ with_end t self.old
            (meaning.end_of_first t (calls t self.old.below) (option_map tree_of_first first.now)
            self.old.top self.old.pool self.old.ticks)) }
    {
        match first {
            None => Ok(()),
            Some(first) => match first {
                First::Declare(declaration) => self.plan_declaration(declaration),
                First::Simple(simple) => self.plan(Work::Simple(simple)),
            },
        }
    }

    /// Plans a declaration. A local without an initial value becomes 0.
    fn plan_declaration(&mut self, declaration: &'a Declaration) -> Result<(), AllocError>
        ensures { (t : Tables) → OnOk result
            (resumed t self.new ≡ with_end t self.old
            (meaning.declaration_end t (calls t self.old.below) (declaration_of declaration.now)
            self.old.top self.old.pool self.old.ticks)) }
    {
        self.plan(Work::Declare(declaration))?;
        match &declaration.initial {
            None => self.give(0),
            Some(initial) => self.plan_expr(ExprTask::Eval, &initial.value),
        }
    }

    pub fn declare(
        &mut self,
        alloc: Global,
        program: &Program<'a>,
        declaration: &'a Declaration,
    ) -> Result<(), AllocError>
        ensures { OnOk result (resumed (tables_in program.now) self.new
            ≡ todo_begun (tables_in program.now) (todo.Declare (declaration_of declaration.now))
            self.old) }
    {
        let value = self.take();
        let declared = program.declared_type(&declaration.ty);
        let name = declaration.name.text.as_str();
        let locals = mem::replace(&mut self.top, Locals::new(alloc));
        let more = locals.with(alloc, name, declared, value)?;
        mem::replace(&mut self.top, more);
        Ok(())
    }

    /// Plans the statements of a block, one after another.
    pub fn rest(&mut self, all: &'a [Stmt]) -> Result<(), AllocError>
        ensures { (t : Tables) → OnOk result
            (resumed t self.new ≡ todo_begun t (todo.Rest (statements_in all.now)) self.old) }
    {
        match all.split_first() {
            None => Ok(()),
            Some((first, others)) => {
                self.plan(Work::Rest(others))?;
                self.plan_stmt(StmtTask::Exec, first)
            }
        }
    }

    /// Goes on with one side of an `if`, by the last value.
    pub fn choose(&mut self, stmt: &'a Stmt) -> Result<(), AllocError>
        ensures { (t : Tables) → OnOk result
            (resumed t self.new ≡ todo_begun t (todo.Stmt task.Choose (stmt_of stmt.now))
            self.old) }
    {
        let condition = self.take();
        match stmt {
            Stmt::If { body, other, .. } => {
                if condition != 0 {
                    return self.inside(body);
                }
                match other {
                    None => Ok(()),
                    Some(other) => self.inside(other),
                }
            }
            _ => Ok(()),
        }
    }

    /// Plans a body, after which its locals are forgotten.
    fn inside(&mut self, body: &'a Stmt) -> Result<(), AllocError>
        ensures { OnOk result (self.new ≡ planned (work.Stmt task.Exec body.entry)
            (scoped self.old)) }
    {
        self.plan_close()?;
        self.plan_stmt(StmtTask::Exec, body)
    }

    /// Plans a turn, which takes a tick before its condition.
    #[tactic(auto, using(crate::proofs::Resume::traps))]
    pub fn turn(&mut self, stmt: &'a Stmt) -> Result<(), Fault>
        ensures quiet { Quiet result }
        ensures does { (t : Tables) → StepLeads t (todo.Stmt task.Turn (stmt_of stmt.now)) self.old
            result self.new }
    {
        self.tick(loop_place(stmt))?;
        self.plan_stmt(StmtTask::Test, stmt)?;
        self.plan_condition(stmt)?;
        Ok(())
    }

    /// Plans the condition of a loop; an absent one holds.
    fn plan_condition(&mut self, stmt: &'a Stmt) -> Result<(), AllocError>
        ensures { (t : Tables) → OnOk result
            (resumed t self.new ≡ resumed_with t self.old
            (meaning.condition_of t (calls t self.old.below) (condition_in (stmt_of stmt.now))
            self.old.top self.old.pool self.old.ticks)) }
    {
        match stmt {
            Stmt::While { condition, .. } => self.plan_expr(ExprTask::Eval, condition),
            Stmt::Do { condition, .. } => self.plan_expr(ExprTask::Eval, condition),
            Stmt::For {
                condition: Some(condition),
                ..
            } => self.plan_expr(ExprTask::Eval, condition),
            _ => self.give(1),
        }
    }

    /// Goes on with a loop's body, or ends the loop, by the last value.
    pub fn test(&mut self, stmt: &'a Stmt) -> Result<(), AllocError>
        ensures { (t : Tables) → OnOk result
            (resumed t self.new ≡ todo_begun t (todo.Stmt task.Test (stmt_of stmt.now)) self.old) }
    {
        if self.take() == 0 {
            return Ok(());
        }
        self.plan_stmt(StmtTask::Again, stmt)?;
        self.plan_body(stmt)
    }

    /// Plans the body of a loop.
    fn plan_body(&mut self, stmt: &'a Stmt) -> Result<(), AllocError>
        ensures { (t : Tables) → OnOk result
            (resumed t self.new ≡ with_end t self.old
            (body_end t (calls t self.old.below) (stmt_of stmt.now) self.old.top self.old.pool
            self.old.ticks)) }
    {
        match stmt {
            Stmt::While { body, .. } => self.inside(body),
            Stmt::Do { body, .. } => self.inside(body),
            Stmt::For { body, .. } => self.inside(body),
            _ => Ok(()),
        }
    }

    /// Plans the third part of a `for`, which comes between two turns.
    pub fn again(&mut self, stmt: &'a Stmt) -> Result<(), AllocError>
        ensures { (t : Tables) → OnOk result
            (resumed t self.new ≡ todo_begun t (todo.Stmt task.Again (stmt_of stmt.now)) self.old) }
    {
        self.plan_stmt(StmtTask::Turn, stmt)?;
        match stmt {
            Stmt::For {
                third: Some(third),
                ..
            } => self.plan(Work::Simple(third)),
            _ => Ok(()),
        }
    }

    /// Begins a simple statement.
    #[tactic(auto, using(crate::proofs::Resume::traps))]
    pub fn simple(&mut self, program: &Program<'a>, simple: &'a Simple) -> Result<(), Fault>
        ensures quiet { Quiet result }
        ensures does { StepLeads (tables_in program.now) (todo.Simple (simple_of simple.now))
            self.old result self.new }
    {
        match simple {
            Simple::Assign {
                target,
                op,
                place,
                value,
            } => {
                self.plan_assign(program, target, *op, *place, value)?;
                Ok(())
            }
            Simple::Step { target, op, place } => {
                self.plan_step(target, *op, *place)?;
                Ok(())
            }
            Simple::Call { name, arguments } => {
                self.plan(Work::Word(WordTask::Forget))?;
                self.plan_call(program, name, arguments)?;
                Ok(())
            }
            Simple::Free { place, pointer } => {
                self.plan_expr(ExprTask::Free(*place), pointer)?;
                self.plan_expr(ExprTask::Eval, pointer)?;
                Ok(())
            }
            Simple::Abort { place } => Err(Fault::Trapped(TrapAt {
                kind: TrapKind::Abort,
                place: *place,
            })),
        }
    }

    fn plan_assign(
        &mut self,
        program: &Program<'a>,
        target: &'a Expr,
        op: AssignOp,
        place: u64,
        value: &'a Expr,
    ) -> Result<(), AllocError>
        ensures { OnOk result
            (resumed (tables_in program.now) self.new ≡ with_end (tables_in program.now) self.old
            (meaning.assign_end (tables_in program.now)
            (calls (tables_in program.now) self.old.below) op place (expr_of target.now)
            (expr_of value.now) self.old.top self.old.pool self.old.ticks)) }
    {
        match op {
            AssignOp::Set => self.plan_set(target, value),
            AssignOp::Update(op) => {
                let op = op.binary();
                let int = sides_type(program, self.top.scopes(), op, target, value);
                self.plan_update(target, op, int, place, Some(value))
            }
        }
    }

    fn plan_step(&mut self, target: &'a Expr, op: StepOp, place: u64) -> Result<(), AllocError>
        ensures { (t : Tables) → OnOk result
            (resumed t self.new ≡ with_end t self.old
            (meaning.steps t (calls t self.old.below) op place (expr_of target.now) self.old.top
            self.old.pool self.old.ticks)) }
    {
        match op {
            StepOp::Up => self.plan_update(target, BinaryOp::Add, IntType::Signed, place, None),
            StepOp::Down => self.plan_update(target, BinaryOp::Sub, IntType::Signed, place, None),
        }
    }

    /// Plans the target's base and index, the right side, and then the store with its checks.
    fn plan_set(&mut self, target: &'a Expr, value: &'a Expr) -> Result<(), AllocError>
        ensures { (t : Tables) → OnOk result
            (resumed t self.new ≡ with_end t self.old
            (meaning.assign_to t (calls t self.old.below)
            (target_local (expr_of target.now)) (expr_of target.now)
            (λ p k. value_of t (calls t self.old.below) (expr_of value.now) self.old.top p k)
            self.old.top self.old.pool self.old.ticks)) }
    {
        match local_of(target) {
            Some(name) => {
                self.plan(Work::Assign(name))?;
                self.plan_expr(ExprTask::Eval, value)
            }
            None => {
                self.plan_expr(ExprTask::Store, target)?;
                self.plan_expr(ExprTask::Eval, value)?;
                self.plan_operands(target)
            }
        }
    }

    /// Plans base and index, once; the load of the word there; the right side; and then the store,
    /// with the checks again.
    fn plan_update(
        &mut self,
        target: &'a Expr,
        op: BinaryOp,
        int: IntType,
        place: u64,
        right: Option<&'a Expr>,
    ) -> Result<(), AllocError>
        ensures { (t : Tables) → OnOk result
            (resumed t self.new ≡ with_end t self.old
            (meaning.update t (calls t self.old.below) (target_local (expr_of target.now))
            (expr_of target.now) op int place (λ p k.
            right_of t (calls t self.old.below) (option_map (λ e. expr_of e.now) right.entry)
            self.old.top p k) self.old.top self.old.pool self.old.ticks)) }
    {
        match local_of(target) {
            Some(name) => {
                self.plan(Work::Assign(name))?;
                self.plan_right(op, int, place, right)?;
                self.plan_expr(ExprTask::Eval, target)
            }
            None => {
                self.plan_expr(ExprTask::Store, target)?;
                self.plan_right(op, int, place, right)?;
                self.plan_expr(ExprTask::Fetch, target)?;
                self.plan_operands(target)
            }
        }
    }

    /// Plans the right side of an operator, which is 1 if none is written.
    fn plan_right(
        &mut self,
        op: BinaryOp,
        int: IntType,
        place: u64,
        right: Option<&'a Expr>,
    ) -> Result<(), AllocError>
        ensures { OnOk result (self.new
            ≡ planned (option_map_or (λ e. work.Expr expr_task.Eval e) right.entry
            (work.Word (word_task.Put (pos 1))))
            (planned (work.Word (word_task.Binary op int place)) self.old)) }
    {
        self.plan(Work::Word(WordTask::Binary(op, int, place)))?;
        match right {
            None => self.plan(Work::Word(WordTask::Put(1))),
            Some(right) => self.plan_expr(ExprTask::Eval, right),
        }
    }
}
