//! Calling a transaction.

ghost use Rattle.std.specs.Prelude.{◌≡◌, ◌≢◌, Some, IfOk, option_map, alloc_error};
ghost use Rattle.c_tree.specs.ItemTree.{function_tree};
ghost use Rattle.c_tree.specs.Program.{tree_of};
ghost use Rattle.c_tree.specs.ExprTree.{expr_of};
ghost use Rattle.c_tree.specs.StmtTree.{stmt_of};
ghost use Rattle.c_types.specs.Tables.{Tables, tables_of};
ghost use Rattle.c_types.specs.Views.{tables_in};
ghost use Rattle.pool_map.specs.declared.trap.TrapKind.TheVariants as trap;
ghost use Rattle.interpreter.specs.declared.answer.PlainAnswer.TheVariants as answer;
ghost use Rattle.interpreter.specs.Answers.{PlainAnswers};
ghost use Rattle.interpreter.specs.inside.Answers.{Quiet, RunGives};
ghost use Rattle.interpreter.specs.inside.Answers as inside_answers;
ghost use Rattle.interpreter.specs.declared.work.Flow.TheVariants as flow;
ghost use Rattle.c_meaning.specs.Meaning.{Got};
ghost use Rattle.c_meaning.specs.Transaction.{transaction, run_transaction, transaction_means};
ghost use Rattle.c_meaning.specs.Transaction as meaning;
ghost use Rattle.interpreter.specs.inside.Todo as todo;
ghost use Rattle.interpreter.specs.inside.Todo.{todo_of};
ghost use Rattle.interpreter.specs.inside.Resume.{todo_begun, begun_at, resumed, resumed_at};
ghost use Rattle.interpreter.specs.inside.Resume.{newest, LeadsToOutcome, StepLeads};

use crate::answer::PlainAnswer;
use crate::fault::Fault;
use crate::locals::bound;
use crate::run::Run;
use crate::work::{ExprTask, Flow, StmtTask, WordTask, Work};
use c_tree::expr::Expr;
use c_tree::item::Function;
use c_tree::stmt::Stmt;
use c_types::{Program, Typed};
use pool_map::Pool;
use std::alloc::{AllocError, Global};

/// Runs transaction `tx`, counted from 1, with these arguments and ticks, on a copy of the pool. It
/// interprets the tree, without machine or log; so the trap logfull never occurs. A word that the
/// pool lacks reads as 0 and is not written; a missing argument is 0; a transaction that doesn't
/// exist does nothing and gives 0.
pub fn plain_call(
    alloc: Global,
    typed: &Typed,
    pool: &Pool,
    tx: u64,
    args: &[i64],
    ticks: u64,
) -> PlainAnswer
    ensures quiet { result ≢ answer.Trap trap.LogFull }
    ensures exact { PlainAnswers result (transaction_means (tables_of (tree_of typed.now)) pool.now
        tx args.now ticks) }
{
    let Ok(program) = Program::new(alloc, typed.ast().items()) else {
        return PlainAnswer::NoMemory;
    };
    let Ok(copy) = pool.copy() else {
        return PlainAnswer::NoMemory;
    };
    match transaction(&program, tx) {
        None => PlainAnswer::Done(copy, 0),
        Some(function) => answer_of(run(alloc, &program, copy, function, args, ticks)),
    }
}

fn answer_of(ended: Result<(Pool, i64), Fault>) -> PlainAnswer
    requires { Quiet ended }
    ensures quiet { result ≢ answer.Trap trap.LogFull }
    ensures exact { result ≡ inside_answers.plain_answer ended }
{
    match ended {
        Ok((pool, value)) => PlainAnswer::Done(pool, value),
        Err(Fault::Trapped(trap)) => PlainAnswer::Trap(trap.kind),
        Err(Fault::NoMemory) => PlainAnswer::NoMemory,
    }
}

/// The place where transaction `tx` traps, run as `plain_call` runs it: that of its token in the
/// list of tokens, counted from 0. It is none if nothing traps. Where the ticks have run out, the
/// token is the name in a call or the word of a loop; where a call is too deep, it is its name.
pub fn trap_place(
    alloc: Global,
    typed: &Typed,
    pool: &Pool,
    tx: u64,
    args: &[i64],
    ticks: u64,
) -> Result<Option<u64>, AllocError>
    ensures { IfOk result (λ place. place ≡ meaning.trap_place (tables_of (tree_of typed.now))
        pool.now tx args.now ticks) }
{
    let Ok(program) = Program::new(alloc, typed.ast().items()) else {
        return Err(AllocError);
    };
    let Ok(copy) = pool.copy() else {
        return Err(AllocError);
    };
    match transaction(&program, tx) {
        None => Ok(None),
        Some(function) => place_of(run(alloc, &program, copy, function, args, ticks)),
    }
}

fn place_of(ended: Result<(Pool, i64), Fault>) -> Result<Option<u64>, AllocError>
    ensures { result ≡ inside_answers.place_answer ended alloc_error }
{
    match ended {
        Ok(_) => Ok(None),
        Err(Fault::Trapped(trap)) => Ok(Some(trap.place)),
        Err(Fault::NoMemory) => Err(AllocError),
    }
}

fn run<'a>(
    alloc: Global,
    program: &Program<'a>,
    pool: Pool,
    function: &'a Function,
    args: &[i64],
    ticks: u64,
) -> Result<(Pool, i64), Fault>
    ensures quiet { Quiet result }
    ensures exact { RunGives result (run_transaction (tables_in program.now)
        (Some (function_tree function.now)) pool args.now ticks) }
{
    let top = bound(alloc, program, &function.parameters, args)?;
    let mut run = Run::new(alloc, pool, top, ticks);
    run.begin(function)?;
    finish(alloc, program, &mut run)?;
    let value = run.take();
    Ok((run.pool, value))
}

/// The transaction of that number.
#[tactic(auto, using(crate::proofs::Numbers::numbers))]
fn transaction<'a>(program: &Program<'a>, tx: u64) -> Option<&'a Function>
    ensures { option_map (λ f. function_tree f.now) result
        ≡ transaction (tables_in program.now) tx }
{
    let mut left = tx;
    for function in program.functions() {
        if function.tx {
            if left == 1 {
                return Some(*function);
            }
            left = left.saturating_sub(1);
        }
    }
    None
}

/// Works off the work list until it is empty. Each turn of a loop and each call takes a tick, and
/// between two ticks there are fewer items than the program has nodes, so the last answer is never
/// reached.
fn finish<'a>(alloc: Global, program: &Program<'a>, run: &mut Run<'a>) -> Result<(), Fault>
    ensures quiet { Quiet result }
    ensures exact { LeadsToOutcome result (resumed (tables_in program.now) run.old)
        (λ _. Got (newest run.new.values) run.new.pool run.new.ticks) }
{
    let mut how = Flow::Next;
    for _ in 0..u64::MAX {
        match run.next() {
            None => return Ok(()),
            Some(work) => how = run.go_on(alloc, program, how, work)?,
        }
    }
    Err(Fault::NoMemory)
}

impl<'a> Run<'a> {
    /// Does one item, according to how the last statement ended, and says how it ends now.
    fn go_on(
        &mut self,
        alloc: Global,
        program: &Program<'a>,
        how: Flow,
        work: Work<'a>,
    ) -> Result<Flow, Fault>
        ensures quiet { Quiet result }
        ensures does { LeadsToOutcome result
            (begun_at (tables_in program.now) (todo_of work.entry) how self.old)
            (λ how. resumed_at (tables_in program.now) how self.new) }
    {
        match how {
            Flow::Next => self.step(alloc, program, work),
            Flow::Break => Ok(self.break_past(alloc, work)?),
            Flow::Continue => Ok(self.continue_past(alloc, work)?),
            Flow::Return(value) => Ok(self.return_past(alloc, value, work)?),
        }
    }

    fn break_past(&mut self, alloc: Global, work: Work<'a>) -> Result<Flow, AllocError>
        ensures { (t : Tables) → IfOk result
            (λ how. resumed_at t how self.new ≡ begun_at t (todo_of work.entry) flow.Break
            self.old) }
    {
        match work {
            Work::Close(count) => {
                self.top.close_to(count);
                Ok(Flow::Break)
            }
            Work::Stmt(StmtTask::Again, _) => Ok(Flow::Next),
            Work::Leave => {
                self.leave(alloc, 0)?;
                Ok(Flow::Next)
            }
            _ => Ok(Flow::Break),
        }
    }

    fn continue_past(&mut self, alloc: Global, work: Work<'a>) -> Result<Flow, AllocError>
        ensures { (t : Tables) → IfOk result
            (λ how. resumed_at t how self.new ≡ begun_at t (todo_of work.entry) flow.Continue
            self.old) }
    {
        match work {
            Work::Close(count) => {
                self.top.close_to(count);
                Ok(Flow::Continue)
            }
            Work::Stmt(StmtTask::Again, turn) => {
                self.again(turn)?;
                Ok(Flow::Next)
            }
            Work::Leave => {
                self.leave(alloc, 0)?;
                Ok(Flow::Next)
            }
            _ => Ok(Flow::Continue),
        }
    }

    fn return_past(&mut self, alloc: Global, value: i64, work: Work<'a>) -> Result<Flow, AllocError>
        ensures { (t : Tables) → IfOk result
            (λ how. resumed_at t how self.new ≡ begun_at t (todo_of work.entry) (flow.Return value)
            self.old) }
    {
        match work {
            Work::Leave => {
                self.leave(alloc, value)?;
                Ok(Flow::Next)
            }
            _ => Ok(Flow::Return(value)),
        }
    }

    fn step(&mut self, alloc: Global, program: &Program<'a>, work: Work<'a>) -> Result<Flow, Fault>
        ensures quiet { Quiet result }
        ensures does { LeadsToOutcome result
            (todo_begun (tables_in program.now) (todo_of work.entry) self.old)
            (λ how. resumed_at (tables_in program.now) how self.new) }
    {
        match work {
            Work::Expr(task, expr) => self.on_expr(program, task, expr)?,
            Work::Stmt(task, stmt) => return self.on_stmt(program, task, stmt),
            Work::Word(task) => self.on_word(task)?,
            Work::Sides(left, right) => self.sides(left, right)?,
            Work::Arguments(all) => self.arguments(all)?,
            Work::Rest(all) => self.rest(all)?,
            Work::Simple(simple) => self.simple(program, simple)?,
            Work::Declare(declaration) => self.declare(alloc, program, declaration)?,
            Work::Assign(name) => self.assign(name),
            Work::Call(place, function, count) => {
                self.call(alloc, program, place, function, count)?;
            }
            Work::Leave => self.leave(alloc, 0)?,
            Work::Close(count) => self.top.close_to(count),
            Work::Give => return Ok(Flow::Return(self.take())),
        }
        Ok(Flow::Next)
    }

    fn on_expr(
        &mut self,
        program: &Program<'a>,
        task: ExprTask,
        expr: &'a Expr,
    ) -> Result<(), Fault>
        ensures quiet { Quiet result }
        ensures does { StepLeads (tables_in program.now) (todo.Expr task (expr_of expr.now))
            self.old result self.new }
    {
        match task {
            ExprTask::Eval => Ok(self.eval(program, expr)?),
            ExprTask::Both => Ok(self.both(expr)?),
            ExprTask::Either => Ok(self.either(expr)?),
            ExprTask::Load => self.load(program, expr),
            ExprTask::Fetch => self.fetch(program, expr),
            ExprTask::Store => self.store(program, expr),
            ExprTask::Free(place) => self.free(program, place, expr),
        }
    }

    fn on_stmt(
        &mut self,
        program: &Program<'a>,
        task: StmtTask,
        stmt: &'a Stmt,
    ) -> Result<Flow, Fault>
        ensures quiet { Quiet result }
        ensures does { LeadsToOutcome result
            (todo_begun (tables_in program.now) (todo.Stmt task (stmt_of stmt.now)) self.old)
            (λ how. resumed_at (tables_in program.now) how self.new) }
    {
        match task {
            StmtTask::Exec => return self.exec(program, stmt),
            StmtTask::Choose => self.choose(stmt)?,
            StmtTask::Turn => self.turn(stmt)?,
            StmtTask::Test => self.test(stmt)?,
            StmtTask::Again => self.again(stmt)?,
        }
        Ok(Flow::Next)
    }

    fn on_word(&mut self, task: WordTask) -> Result<(), Fault>
        ensures quiet { Quiet result }
        ensures does { (t : Tables) → StepLeads t (todo.Word task) self.old result self.new }
    {
        match task {
            WordTask::Put(word) => Ok(self.give(word)?),
            WordTask::Unary(op) => Ok(self.unary(op)?),
            WordTask::Binary(op, int, place) => self.binary(op, int, place),
            WordTask::Truth => Ok(self.truth()?),
            WordTask::Forget => {
                self.take();
                Ok(())
            }
        }
    }
}
