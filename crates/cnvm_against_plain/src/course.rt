//! What a script of workers means for one of them.

use crate::case::{Before, Wanted, wanted_of};
use crate::drive::{SLOTS, TICKS};
use crate::texts::pool_lines_of;
use cnvm_session::Program;
use interpreter::{PlainAnswer, plain_call};
use nvm_base::Words;
use pool_map::Pool;
use std::alloc::{AllocError, Global};
use std::mem;
use workers_script::WorkersCommand;

/// The calls of a worker so far: its pool before the last of them, and what that one does, as the
/// interpreter says.
#[derive(Drop)]
struct Course {
    pool: Pool,
    plain: PlainAnswer,
    done: i64,
    value: i64,
}

/// What is wanted of the last call of a worker, which writes `logged` records. All calls before it
/// end with values.
pub(crate) fn wanted_at(
    alloc: Global,
    program: &Program,
    script: &[WorkersCommand],
    worker: u32,
    logged: u64,
) -> Result<Wanted, AllocError> {
    let mut course = Course {
        pool: Pool::empty(alloc, program.image.sizes().root_words(), SLOTS)?,
        plain: PlainAnswer::NoMemory,
        done: 0,
        value: 0,
    };
    for command in script {
        take(alloc, program, command, worker, &mut course)?;
    }
    let before = Before {
        words: Words::new(alloc),
        shown: pool_lines_of(alloc, program.typed.shapes(), &course.pool)?,
        done: course.done,
        value: course.value,
    };
    wanted_of(alloc, program, &before, &course.plain, false, false, logged)
}

/// Takes one command of the script. Only a call of the worker does something.
fn take(
    alloc: Global,
    program: &Program,
    command: &WorkersCommand,
    worker: u32,
    course: &mut Course,
) -> Result<(), AllocError> {
    let WorkersCommand::Start {
        worker: own,
        name,
        args,
    } = command
    else {
        return Ok(());
    };
    if *own != worker {
        return Ok(());
    }
    let Some(tx) = program.typed.tx_number(name.as_str()) else {
        return Err(AllocError);
    };
    if let PlainAnswer::Done(pool, value) = mem::replace(&mut course.plain, PlainAnswer::NoMemory) {
        course.pool = pool;
        course.value = value;
        course.done = course.done.saturating_add(1);
    }
    course.plain = plain_call(
        alloc,
        &program.typed,
        &course.pool,
        tx,
        args.as_slice(),
        TICKS,
    );
    Ok(())
}
