//! The call graph.

ghost use Rattle.std.specs.Prelude.{◌≡◌, ◌++◌, ◌∷◌, [], ◌==◌, ◌<◌, true, false, length, replicate};
ghost use Rattle.std.specs.Prelude.{slice_set, if◌then◌else◌, IfOk, OnOk};
ghost use Rattle.clobber_pass.specs.inside.Calling.{all_called, edges_at, edges_from, edges_in};
ghost use Rattle.clobber_pass.specs.inside.Calling.{woken};

use crate::waiting::wake;
use ir::{Instruction, IrFunction};
use nvm_base::List;
use std::alloc::{AllocError, Global};

/// One function calls another. Both are numbers of functions.
#[derive(Clone, Copy)]
pub struct Edge {
    pub caller: usize,
    pub called: usize,
}

/// The calls of a program.
pub type Edges = List<Edge>;

/// Adds the call of an instruction, if it is one.
fn add_call(edges: &mut Edges, caller: usize, instruction: &Instruction) -> Result<(), AllocError>
    ensures { OnOk result (edges.new ≡ edges.old ++ edges_at caller instruction.now) }
{
    match instruction {
        Instruction::Call { function, .. } => edges.push(Edge {
            caller,
            called: *function as usize,
        }),
        _ => Ok(()),
    }
}

/// Adds the calls of a code.
fn add_code(edges: &mut Edges, caller: usize, code: &[Instruction]) -> Result<(), AllocError>
    ensures { OnOk result (edges.new ≡ edges.old ++ edges_in caller code.now) }
{
    for instruction in code {
        add_call(edges, caller, instruction)?;
    }
    Ok(())
}

/// The calls of all functions.
pub fn call_edges(alloc: Global, functions: &[IrFunction]) -> Result<Edges, AllocError>
    ensures { IfOk result (λ edges. edges ≡ edges_from 0 functions.now) }
{
    let mut edges = Edges::new(alloc);
    for (caller, body) in functions.iter().enumerate() {
        add_code(&mut edges, caller, body.code.as_slice())?;
    }
    Ok(edges)
}

/// Makes each caller of a function wait.
pub fn wake_callers(edges: &[Edge], called: usize, waiting: &mut [bool])
    ensures { waiting.new ≡ woken edges.now called waiting.old }
{
    for edge in edges {
        wake_caller(edge, called, waiting);
    }
}

fn wake_caller(edge: &Edge, called: usize, waiting: &mut [bool])
    ensures { waiting.new ≡ (if edge.now.called == called
        then slice_set waiting.old edge.now.caller true else waiting.old) }
{
    if edge.called == called {
        wake(waiting, edge.caller);
    }
}

/// The waiting list of `count` functions, in which each called function waits.
pub fn called_wait(alloc: Global, edges: &[Edge], count: usize) -> Result<Vec<bool>, AllocError>
    ensures { IfOk result (λ waiting.
        waiting.items ≡ all_called edges.now (replicate count false)) }
{
    let mut waiting = vec![in alloc; false; count]?;
    for edge in edges {
        wake(&mut waiting, edge.called);
    }
    Ok(waiting)
}
