//! The marks of all topics.

ghost use Rattle.std.specs.Prelude.{◌≡◌, ◌<◌, ◌≤◌, ℕ, length, min, OnOk};
ghost use Rattle.ir.specs.WellFormed.{IsWellFormed};
ghost use Rattle.clobber_pass.specs.inside.Calling.{edges_from};
ghost use Rattle.clobber_pass.specs.inside.Marking.{KeepsRows, Marks};
ghost use Rattle.clobber_pass.specs.inside.Classes.{FieldsMarked, OthersMarked, RootMarked};
ghost use Rattle.clobber_pass.specs.inside.Classes.{RootsMarked, TopicMarked};

use crate::calling::Edge;
use crate::rows::Rows;
use crate::table::mark_topic;
use crate::topic::{StructField, TOPIC_FIELDS, Topic};
use ir::Ir;
use std::alloc::{AllocError, Global};

/// Marks 16 fields of the root, from the first one on.
#[tactic(auto, using(crate::proofs::marked::AllTopics::root_marked))]
fn mark_root(
    alloc: Global,
    ir: &Ir,
    first: u32,
    edges: &[Edge],
    order: &[usize],
    table: &mut Rows,
) -> Result<(), AllocError>
    requires well { IsWellFormed ir.now }
    requires edges { edges.now ≡ edges_from 0 ir.now.functions }
    requires marks { Marks ir.now.functions table.old }
    ensures marks { OnOk result (Marks ir.now.functions table.new) }
    ensures kept { OnOk result (KeepsRows table.old table.new) }
    ensures marked { OnOk result (RootMarked ir.now.functions table.new first) }
{
    mark_topic(alloc, ir, Topic::Root { first }, edges, order, table)
}

/// Marks the root's fields.
pub fn mark_roots(
    alloc: Global,
    ir: &Ir,
    roots: &[u32],
    edges: &[Edge],
    order: &[usize],
    table: &mut Rows,
) -> Result<(), AllocError>
    requires well { IsWellFormed ir.now }
    requires edges { edges.now ≡ edges_from 0 ir.now.functions }
    requires marks { Marks ir.now.functions table.old }
    ensures marks { OnOk result (Marks ir.now.functions table.new) }
    ensures kept { OnOk result (KeepsRows table.old table.new) }
    ensures marked { OnOk result (RootsMarked ir.now.functions roots.now table.new) }
{
    for index in 0..roots.len() {
        mark_root(alloc, ir, roots[index], edges, order, table)?;
    }
    Ok(())
}

/// Marks the first 16 fields of a list.
#[tactic(auto, using(crate::proofs::marked::AllTopics::topic_marked))]
fn mark_some(
    alloc: Global,
    ir: &Ir,
    all: &[StructField],
    edges: &[Edge],
    order: &[usize],
    table: &mut Rows,
) -> Result<(), AllocError>
    requires well { IsWellFormed ir.now }
    requires edges { edges.now ≡ edges_from 0 ir.now.functions }
    requires marks { Marks ir.now.functions table.old }
    ensures marks { OnOk result (Marks ir.now.functions table.new) }
    ensures kept { OnOk result (KeepsRows table.old table.new) }
    ensures marked { OnOk result (TopicMarked ir.now.functions all.now table.new) }
{
    mark_topic(alloc, ir, Topic::Fields { all }, edges, order, table)
}

/// Marks the fields of structs, 16 at once.
pub fn mark_fields(
    alloc: Global,
    ir: &Ir,
    fields: &[StructField],
    edges: &[Edge],
    order: &[usize],
    table: &mut Rows,
) -> Result<(), AllocError>
    requires well { IsWellFormed ir.now }
    requires edges { edges.now ≡ edges_from 0 ir.now.functions }
    requires marks { Marks ir.now.functions table.old }
    ensures marks { OnOk result (Marks ir.now.functions table.new) }
    ensures kept { OnOk result (KeepsRows table.old table.new) }
    ensures marked { OnOk result (FieldsMarked ir.now.functions fields.now table.new) }
{
    let mut left = fields;
    while !left.is_empty() {
        let (all, others) = left.split_at(left.len().min(TOPIC_FIELDS as usize));
        mark_some(alloc, ir, all, edges, order, table)?;
        left = others;
    }
    Ok(())
}
