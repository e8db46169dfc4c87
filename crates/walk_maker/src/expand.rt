//! The spots before a spot. Each is tried by the checker's own rules before it is added.

ghost use Rattle.std.specs.Prelude.{◌≡◌, ◌<◌, ◌^◌, Some, length, slice_get, OnOk};
ghost use Rattle.ir.specs.WellFormed.{IsWellFormed};
ghost use Rattle.walk_maker.specs.inside.Expand as expand;
ghost use Rattle.walk_maker.specs.inside.Jumps as lands;

use crate::calls::{at_call, back, before_call, exit_of};
use crate::jumps::{AllJumps, first_jump, jumps_to, next_jump};
use crate::reading::entry_fact;
use crate::table::{Aim, Entry, Link, Table, add, step_of};
use ir::{Back, Fact as WalkFact, Instruction, Ir, IrFunction, Origins};
use std::alloc::AllocError;
use walk_check::{Piece, binds, first_fact, follows, is_there, last_fact, leads, origins, same};

/// An entry of the table, with its number there.
#[derive(Clone, Copy)]
pub(crate) struct Later {
    pub(crate) number: usize,
    pub(crate) entry: Entry,
}

/// A call on the way to a later fact: its place, the function that it calls, and where the later
/// fact comes from.
#[derive(Clone, Copy)]
struct Passed {
    place: u32,
    function: u32,
    origin: Back,
}

/// The entry for a fact at a place of the same function, with a link to the later entry.
fn next_to(later: Later, place: u32, fact: WalkFact, through: Option<u64>) -> Entry
    ensures { result ≡ expand.next_to later place fact through }
{
    Entry {
        aim: later.entry.aim,
        function: later.entry.function,
        place,
        fact,
        link: Link::Next(later.number, through),
    }
}

/// Adds a fact at a place if the later fact follows from it.
fn try_step(
    ir: &Ir,
    passed: &[Piece],
    body: &IrFunction,
    later: Entry,
    before: Entry,
    table: &mut Table,
) -> Result<(), AllocError>
    ensures { OnOk result (table.new
        ≡ expand.step_tried ir.now passed.now body.now later before table.old) }
{
    if is_there(&ir.shapes, body, before.fact)
        && follows(passed, body, step_of(before), step_of(later))
    {
        add(table, before)
    } else {
        Ok(())
    }
}

/// Adds those of these facts at a place from which the later fact follows.
fn try_origins(
    ir: &Ir,
    passed: &[Piece],
    body: &IrFunction,
    later: Later,
    place: u32,
    named: Origins,
    table: &mut Table,
) -> Result<(), AllocError>
    ensures { OnOk result (table.new
        ≡ expand.tried_origins ir.now passed.now body.now later place named table.old) }
{
    match named {
        Origins::Nowhere => Ok(()),
        Origins::One(a) => {
            let before = next_to(later, place, a, None);
            try_step(ir, passed, body, later.entry, before, table)
        }
        Origins::Two(a, b) => {
            let first = next_to(later, place, a, None);
            let second = next_to(later, place, b, None);
            try_step(ir, passed, body, later.entry, first, table)?;
            try_step(ir, passed, body, later.entry, second, table)
        }
    }
}

/// Adds each return of a function, with the fact that has to hold there.
fn add_returns(
    function: u32,
    exit: WalkFact,
    code: &[Instruction],
    table: &mut Table,
) -> Result<(), AllocError>
    requires { length code.now < 2 ^ 31 }
    ensures { OnOk result (table.new ≡ expand.returns_added function exit 0 code.now table.old) }
{
    for (place, instruction) in code.iter().enumerate() {
        add_return(function, exit, place as u32, instruction, table)?;
    }
    Ok(())
}

fn add_return(
    function: u32,
    exit: WalkFact,
    place: u32,
    instruction: &Instruction,
    table: &mut Table,
) -> Result<(), AllocError>
    ensures { OnOk result (table.new
        ≡ expand.return_added function exit place instruction.now table.old) }
{
    match instruction {
        Instruction::Return { .. } => add(
            table,
            Entry {
                aim: Aim::ToReturn(exit),
                function,
                place,
                fact: exit,
                link: Link::End,
            },
        ),
        _ => Ok(()),
    }
}

/// Adds the fact at a call from which a piece of a walk leads, through the called function, to the
/// later fact.
fn try_through(
    ir: &Ir,
    passed: &[Piece],
    body: &IrFunction,
    later: Later,
    call: Passed,
    args: &[u32],
    number: usize,
    piece: &Piece,
    table: &mut Table,
) -> Result<(), AllocError>
    ensures { OnOk result (table.new ≡ expand.through_tried ir.now passed.now body.now later call
        args.now number piece.now table.old) }
{
    if piece.function == call.function && same(last_fact(piece), exit_of(call.origin)) {
        let fact = before_call(call.origin, args, first_fact(piece), later.entry.fact);
        let before = next_to(later, call.place, fact, Some(number as u64));
        try_step(ir, passed, body, later.entry, before, table)
    } else {
        Ok(())
    }
}

/// Adds the facts at a call from which the pieces that are known so far lead to the later fact.
fn try_pieces(
    ir: &Ir,
    passed: &[Piece],
    body: &IrFunction,
    later: Later,
    call: Passed,
    args: &[u32],
    table: &mut Table,
) -> Result<(), AllocError>
    ensures { OnOk result (table.new ≡ expand.throughs_tried ir.now passed.now body.now later call
        args.now 0 passed.now table.old) }
{
    for (number, piece) in passed.iter().enumerate() {
        try_through(ir, passed, body, later, call, args, number, piece, table)?;
    }
    Ok(())
}

/// Adds what may lead past a call to the later fact: the returns of the called function, and the
/// facts at the call from which known pieces lead there.
fn try_past(
    ir: &Ir,
    passed: &[Piece],
    body: &IrFunction,
    later: Later,
    place: u32,
    call: &Instruction,
    table: &mut Table,
) -> Result<(), AllocError>
    requires { IsWellFormed ir.now }
    ensures { OnOk result (table.new
        ≡ expand.past_tried ir.now passed.now body.now later place call.now table.old) }
{
    let Instruction::Call { to, function, args } = call else {
        return Ok(());
    };
    let args = args.as_slice();
    let Some(callee) = ir.functions.as_slice().get(*function as usize) else {
        return Ok(());
    };
    let origin = back(callee.parameters, *to, args, later.entry.fact);
    let call = Passed {
        place,
        function: *function,
        origin,
    };
    let exit = exit_of(origin);
    if is_there(&ir.shapes, callee, exit) {
        add_returns(*function, exit, callee.code.as_slice(), table)?;
    }
    try_pieces(ir, passed, body, later, call, args, table)
}

/// Adds each fact at `place` from which the later fact follows in one step.
fn try_before(
    ir: &Ir,
    passed: &[Piece],
    body: &IrFunction,
    later: Later,
    place: u32,
    instruction: &Instruction,
    table: &mut Table,
) -> Result<(), AllocError>
    requires { IsWellFormed ir.now }
    ensures { OnOk result (table.new
        ≡ expand.before_tried ir.now passed.now body.now later place instruction.now table.old) }
{
    if u64::from(later.entry.place) == u64::from(place) + 1 {
        try_past(ir, passed, body, later, place, instruction, table)?;
    }
    if leads(instruction, place, later.entry.place) {
        let named = origins(instruction, later.entry.fact);
        try_origins(ir, passed, body, later, place, named, table)
    } else {
        Ok(())
    }
}

/// The first place, from `at` on, of an instruction that may lead to `place`. No jump before
/// `jump` leads there.
fn candidate(place: usize, at: usize, jump: usize) -> usize
    ensures { result ≡ lands.candidate place at jump }
{
    if at < place && place <= jump {
        place - 1
    } else {
        later_of(at, jump)
    }
}

fn later_of(at: usize, jump: usize) -> usize
    ensures { result ≡ lands.later_of at jump }
{
    if at < jump { jump } else { at }
}

/// A place before which no jump leads to `place`, for the places after `next`. `jump` is such a
/// place for `next` itself.
fn jump_after(
    jumps: &AllJumps,
    function: u32,
    place: u32,
    jump: usize,
    next: usize,
    instruction: &Instruction,
) -> usize
    ensures { result ≡ lands.jump_after jumps.now function place jump next instruction.now }
{
    if next == jump && jumps_to(instruction, place) {
        next_jump(jumps, function, next)
    } else {
        jump
    }
}

/// Adds each fact, at whatever place of the same function, from which the later fact follows in
/// one step.
pub(crate) fn try_all_before(
    ir: &Ir,
    jumps: &AllJumps,
    passed: &[Piece],
    body: &IrFunction,
    later: Later,
    table: &mut Table,
) -> Result<(), AllocError>
    requires well { IsWellFormed ir.now }
    requires jumps { lands.AreAllJumps ir.now.functions jumps.now }
    requires body { slice_get ir.now.functions later.entry.function ≡ Some body.now }
    requires short { length body.now.code < 2 ^ 31 }
    ensures { OnOk result (table.new
        ≡ expand.all_before_tried ir.now passed.now body.now later 0 body.now.code table.old) }
{
    let code = body.code.as_slice();
    let function = later.entry.function;
    let place = later.entry.place;
    let mut at = 0;
    let mut jump = first_jump(jumps, function, place);
    for _ in 0..code.len() {
        let next = candidate(place as usize, at, jump);
        if next >= code.len() {
            return Ok(());
        }
        let instruction = &code[next];
        try_before(ir, passed, body, later, next as u32, instruction, table)?;
        jump = jump_after(jumps, function, place, jump, next, instruction);
        at = next + 1;
    }
    Ok(())
}

/// Adds the fact at a call from which the later fact, at the called function's entry, follows.
fn try_caller(
    ir: &Ir,
    body: &IrFunction,
    function: u32,
    later: Later,
    bound: WalkFact,
    place: u32,
    instruction: &Instruction,
    table: &mut Table,
) -> Result<(), AllocError>
    ensures { OnOk result (table.new ≡ expand.caller_tried ir.now body.now function later bound
        place instruction.now table.old) }
{
    let Instruction::Call {
        function: called,
        args,
        ..
    } = instruction
    else {
        return Ok(());
    };
    let args = args.as_slice();
    let fact = at_call(args, later.entry.fact);
    if *called == later.entry.function
        && (is_there(&ir.shapes, body, fact) && binds(args, fact, bound))
    {
        add(
            table,
            Entry {
                aim: Aim::ToSite,
                function,
                place,
                fact,
                link: Link::Enter(later.number),
            },
        )
    } else {
        Ok(())
    }
}

/// Adds these facts for each call in one function.
fn try_callers_in(
    ir: &Ir,
    body: &IrFunction,
    function: u32,
    later: Later,
    bound: WalkFact,
    table: &mut Table,
) -> Result<(), AllocError>
    requires { length body.now.code < 2 ^ 31 }
    ensures { OnOk result (table.new ≡ expand.callers_in_tried ir.now body.now function later bound
        0 body.now.code table.old) }
{
    for (place, instruction) in body.code.as_slice().iter().enumerate() {
        try_caller(
            ir,
            body,
            function,
            later,
            bound,
            place as u32,
            instruction,
            table,
        )?;
    }
    Ok(())
}

/// Adds the facts, at all calls of a function, from which the later fact at its entry follows.
pub(crate) fn try_callers(
    ir: &Ir,
    callee: &IrFunction,
    later: Later,
    table: &mut Table,
) -> Result<(), AllocError>
    requires { IsWellFormed ir.now }
    ensures { OnOk result (table.new ≡ expand.callers_tried ir.now later
        (expand.bound_fact callee.now later) 0 ir.now.functions table.old) }
{
    let bound = entry_fact(false, callee, later.entry.fact);
    for (number, body) in ir.functions.as_slice().iter().enumerate() {
        try_callers_in(ir, body, number as u32, later, bound, table)?;
    }
    Ok(())
}
