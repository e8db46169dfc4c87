//! The order in which functions are swept: called functions come first. It is a hint: the marks are
//! the same in any order, which rounds through all functions see to.

use crate::calling::Edge;
use ir::Ir;
use std::alloc::{AllocError, Global};

/// A bound on the work of this loop, which makes only an order. Functions that it leaves out are
/// swept nevertheless.
pub const MOST_TURNS: u32 = u32::MAX;

/// What is to be done next: a function is reached, or everything that it calls has been done.
#[derive(Clone, Copy)]
enum Turn {
    Meet(usize),
    Leave(usize),
}

/// The functions that are still to be done, while calls are followed. The newest is done first.
#[derive(Drop)]
struct Walk {
    met: Vec<bool>,
    turns: Vec<Turn>,
    order: Vec<usize>,
}

impl Walk {
    /// Puts the functions that a function calls before all others.
    fn meet_called(&mut self, edges: &[Edge], caller: usize) -> Result<(), AllocError> {
        for edge in edges {
            if edge.caller == caller {
                self.turns.push(Turn::Meet(edge.called))?;
            }
        }
        Ok(())
    }

    /// Reaches a function, and goes on with what it calls, unless it was reached before.
    fn meet(&mut self, edges: &[Edge], function: usize) -> Result<(), AllocError> {
        if function >= self.met.len() || self.met[function] {
            return Ok(());
        }
        self.met[function] = true;
        self.turns.push(Turn::Leave(function))?;
        self.meet_called(edges, function)
    }

    /// Does what is next.
    fn take(&mut self, edges: &[Edge], turn: Turn) -> Result<(), AllocError> {
        match turn {
            Turn::Meet(function) => self.meet(edges, function),
            Turn::Leave(function) => self.leave(function),
        }
    }

    /// Puts a function into the order, since all that it calls stands there.
    fn leave(&mut self, function: usize) -> Result<(), AllocError> {
        self.order.push(function)?;
        Ok(())
    }

    /// Follows the calls from one function on.
    fn walk_from(&mut self, edges: &[Edge], function: usize) -> Result<(), AllocError> {
        self.meet(edges, function)?;
        for _ in 0..MOST_TURNS {
            let Some(turn) = self.turns.pop() else {
                return Ok(());
            };
            self.take(edges, turn)?;
        }
        Ok(())
    }
}

/// The functions, each after those that it calls, but where calls go in circles.
pub fn call_order(alloc: Global, ir: &Ir, edges: &[Edge]) -> Result<Vec<usize>, AllocError> {
    let count = ir.functions.as_slice().len();
    let mut walk = Walk {
        met: vec![in alloc; false; count]?,
        turns: Vec::new(alloc),
        order: Vec::new(alloc),
    };
    for function in 0..count {
        walk.walk_from(edges, function)?;
    }
    Ok(walk.order)
}
