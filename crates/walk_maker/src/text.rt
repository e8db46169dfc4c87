//! The text of a certificate.

ghost use Rattle.std.specs.Prelude.{◌≡◌, ◌≤◌, ◌++◌, if◌then◌else◌, flat_map, OnOk, IfOk};
ghost use Rattle.walk_maker.specs.WhyText as why;

use ir::{Ir, Site};
use nvm_base::Text;
use pool_map::Shapes;
use site_lines::{field_name, field_of_struct, function_name, push_site_head, struct_name};
use std::alloc::{AllocError, Global};
use walk_check::{Certificate, Class, Fact, Piece, Reason, Step, Walk};

/// The text of a certificate: a line for each piece that passes calls; for each reason the line of
/// its site, and its walks; and a last line with the numbers of reasons.
pub fn why_text(alloc: Global, ir: &Ir, certificate: &Certificate) -> Result<Text, AllocError>
    ensures { IfOk result (λ text. text ≡ why.why_text ir.now certificate.now) }
{
    let reasons = certificate.reasons.as_slice();
    let mut text = Text::new(alloc);
    push_passed(alloc, &mut text, ir, certificate.passed.as_slice())?;
    push_reasons(alloc, &mut text, ir, reasons)?;
    push_last(alloc, &mut text, reasons)?;
    Ok(text)
}

/// Writes a struct's field as `S.f`.
fn push_field(text: &mut Text, shapes: &Shapes, kind: u32, field: u32) -> Result<(), AllocError>
    ensures { OnOk result (text.new ≡ text.old ++ why.struct_field_text shapes.now kind field) }
{
    text.push(struct_name(shapes, kind))?;
    text.push(".")?;
    text.push(field_of_struct(shapes, kind, field))
}

/// Writes that a struct's field isn't written through a register.
fn push_unwritten(
    alloc: Global,
    text: &mut Text,
    shapes: &Shapes,
    register: u32,
    kind: u32,
    field: u32,
) -> Result<(), AllocError>
    ensures { OnOk result (text.new
        ≡ text.old ++ why.unwritten_text shapes.now register kind field) }
{
    let start = format!(in alloc; "unwritten r{register} ")?;
    text.push(start.as_str())?;
    text.push(struct_name(shapes, kind))?;
    text.push(".")?;
    text.push(field_of_struct(shapes, kind, field))
}

fn push_class(text: &mut Text, shapes: &Shapes, class: Class) -> Result<(), AllocError>
    ensures { OnOk result (text.new ≡ text.old ++ why.class_text shapes.now class) }
{
    match class {
        Class::Root(field) => {
            text.push("root.")?;
            text.push(field_name(&shapes.root, field))
        }
        Class::Field(kind, field) => push_field(text, shapes, kind, field),
    }
}

fn push_fact(alloc: Global, text: &mut Text, shapes: &Shapes, fact: Fact) -> Result<(), AllocError>
    ensures { OnOk result (text.new ≡ text.old ++ why.fact_text shapes.now fact) }
{
    match fact {
        Fact::Start => text.push("start"),
        Fact::Unwritten(register, kind, field) => {
            push_unwritten(alloc, text, shapes, register, kind, field)
        }
        Fact::UnwrittenRoot(field) => {
            text.push("unwritten ")?;
            push_class(text, shapes, Class::Root(field))
        }
        Fact::Read(class) => {
            text.push("read ")?;
            push_class(text, shapes, class)
        }
        Fact::Freed => text.push("freed"),
    }
}

/// Writes the number of the piece that passes a call.
fn push_via(alloc: Global, text: &mut Text, through: Option<u64>) -> Result<(), AllocError>
    ensures { OnOk result (text.new ≡ text.old ++ why.via_text through) }
{
    match through {
        None => Ok(()),
        Some(number) => {
            let via = format!(in alloc; " via {number}")?;
            text.push(via.as_str())
        }
    }
}

fn push_step(alloc: Global, text: &mut Text, shapes: &Shapes, step: Step) -> Result<(), AllocError>
    ensures { OnOk result (text.new ≡ text.old ++ why.step_text shapes.now step) }
{
    let place = step.place;
    let start = format!(in alloc; " {place} ")?;
    text.push(start.as_str())?;
    push_fact(alloc, text, shapes, step.fact)?;
    push_via(alloc, text, step.through)
}

fn push_steps(
    alloc: Global,
    text: &mut Text,
    shapes: &Shapes,
    steps: &[Step],
) -> Result<(), AllocError>
    ensures { OnOk result (text.new ≡ text.old ++ flat_map (why.step_text shapes.now) steps.now) }
{
    for step in steps {
        push_step(alloc, text, shapes, *step)?;
    }
    Ok(())
}

/// Writes a piece's function and its steps.
fn push_piece(alloc: Global, text: &mut Text, ir: &Ir, piece: &Piece) -> Result<(), AllocError>
    ensures { OnOk result (text.new ≡ text.old ++ why.piece_text ir.now piece.now) }
{
    text.push(function_name(ir.functions.as_slice(), piece.function))?;
    push_steps(alloc, text, &ir.shapes, piece.steps.as_slice())?;
    text.push("\n")
}

fn push_numbered(
    alloc: Global,
    text: &mut Text,
    ir: &Ir,
    number: usize,
    piece: &Piece,
) -> Result<(), AllocError>
    ensures { OnOk result (text.new ≡ text.old ++ why.numbered_text ir.now number piece.now) }
{
    let start = format!(in alloc; "piece {number} ")?;
    text.push(start.as_str())?;
    push_piece(alloc, text, ir, piece)
}

/// Writes a line for each piece that passes calls.
fn push_passed(alloc: Global, text: &mut Text, ir: &Ir, passed: &[Piece]) -> Result<(), AllocError>
    ensures { OnOk result (text.new ≡ text.old ++ why.passed_text ir.now 0 passed.now) }
{
    for (number, piece) in passed.iter().enumerate() {
        push_numbered(alloc, text, ir, number, piece)?;
    }
    Ok(())
}

fn push_in(alloc: Global, text: &mut Text, ir: &Ir, piece: &Piece) -> Result<(), AllocError>
    ensures { OnOk result (text.new ≡ text.old ++ why.in_text ir.now piece.now) }
{
    text.push("in ")?;
    push_piece(alloc, text, ir, piece)
}

fn push_pieces(alloc: Global, text: &mut Text, ir: &Ir, pieces: &[Piece]) -> Result<(), AllocError>
    ensures { OnOk result (text.new ≡ text.old ++ flat_map (why.in_text ir.now) pieces.now) }
{
    for piece in pieces {
        push_in(alloc, text, ir, piece)?;
    }
    Ok(())
}

/// Writes a walk: a line `walk`, and a line for each of its pieces.
fn push_walk(alloc: Global, text: &mut Text, ir: &Ir, walk: &Walk) -> Result<(), AllocError>
    ensures { OnOk result (text.new ≡ text.old ++ why.walk_text ir.now walk.now) }
{
    text.push("walk\n")?;
    push_pieces(alloc, text, ir, walk.pieces.as_slice())
}

/// Writes the last word of a reason's line, and its walks.
fn push_walks(alloc: Global, text: &mut Text, ir: &Ir, reason: &Reason) -> Result<(), AllocError>
    ensures { OnOk result (text.new ≡ text.old ++ why.walks_text ir.now reason.now) }
{
    match reason {
        Reason::Always => text.push(" always\n"),
        Reason::PastFree(walk) => {
            text.push(" past free\n")?;
            push_walk(alloc, text, ir, walk)
        }
        Reason::Clobber(unwrites, reads) => {
            text.push(" clobber\n")?;
            push_walk(alloc, text, ir, unwrites)?;
            push_walk(alloc, text, ir, reads)
        }
    }
}

fn push_reason(
    alloc: Global,
    text: &mut Text,
    ir: &Ir,
    reason: &(Site, Reason),
) -> Result<(), AllocError>
    ensures { OnOk result (text.new ≡ text.old ++ why.reason_text ir.now reason.now) }
{
    push_site_head(alloc, text, ir, reason.0)?;
    push_walks(alloc, text, ir, &reason.1)
}

fn push_reasons(
    alloc: Global,
    text: &mut Text,
    ir: &Ir,
    reasons: &[(Site, Reason)],
) -> Result<(), AllocError>
    ensures { OnOk result (text.new ≡ text.old ++ flat_map (why.reason_text ir.now) reasons.now) }
{
    for reason in reasons {
        push_reason(alloc, text, ir, reason)?;
    }
    Ok(())
}

fn says_always(reason: &Reason) -> bool
    ensures { result ≡ why.says_always reason.now }
{
    match reason {
        Reason::Always => true,
        Reason::PastFree(_) => false,
        Reason::Clobber(_, _) => false,
    }
}

fn says_past_free(reason: &Reason) -> bool
    ensures { result ≡ why.says_past_free reason.now }
{
    match reason {
        Reason::Always => false,
        Reason::PastFree(_) => true,
        Reason::Clobber(_, _) => false,
    }
}

fn says_clobber(reason: &Reason) -> bool
    ensures { result ≡ why.says_clobber reason.now }
{
    match reason {
        Reason::Always => false,
        Reason::PastFree(_) => false,
        Reason::Clobber(_, _) => true,
    }
}

fn one_if(holds: bool) -> usize
    ensures value { result ≡ if holds then 1 else 0 }
    ensures small { result ≤ 1 }
{
    if holds { 1 } else { 0 }
}

fn always_in(reasons: &[(Site, Reason)]) -> usize
    ensures { result ≡ why.reasons_counted why.says_always reasons.now }
{
    let mut count = 0;
    for reason in reasons {
        count += one_if(says_always(&reason.1));
    }
    count
}

fn past_free_in(reasons: &[(Site, Reason)]) -> usize
    ensures { result ≡ why.reasons_counted why.says_past_free reasons.now }
{
    let mut count = 0;
    for reason in reasons {
        count += one_if(says_past_free(&reason.1));
    }
    count
}

fn clobber_in(reasons: &[(Site, Reason)]) -> usize
    ensures { result ≡ why.reasons_counted why.says_clobber reasons.now }
{
    let mut count = 0;
    for reason in reasons {
        count += one_if(says_clobber(&reason.1));
    }
    count
}

/// Writes how many reasons there are, and how many of each kind.
fn push_last(alloc: Global, text: &mut Text, reasons: &[(Site, Reason)]) -> Result<(), AllocError>
    ensures { OnOk result (text.new ≡ text.old ++ why.reasons_line reasons.now) }
{
    let all = reasons.len();
    let always = always_in(reasons);
    let free = past_free_in(reasons);
    let clobber = clobber_in(reasons);
    let last = format!(in alloc; "reasons {all} always {always} free {free} clobber {clobber}\n")?;
    text.push(last.as_str())
}
