//! The marks of a program.

ghost use Rattle.std.specs.Prelude.{◌≡◌, ◌<◌, IfOk, OnOk};
ghost use Rattle.ir.specs.WellFormed.{IsWellFormed};
ghost use Rattle.clobber_pass.specs.Row.{has_bit};
ghost use Rattle.clobber_pass.specs.Logged.{IsExact, is_logged};
ghost use Rattle.clobber_pass.specs.declared.topic.Topic.TheVariants.{Frees};
ghost use Rattle.clobber_pass.specs.inside.Calling.{edges_from};
ghost use Rattle.clobber_pass.specs.inside.Marking.{AllMarked, Marks, Headers};
ghost use Rattle.clobber_pass.specs.inside.Classes.{RootsMarked, FieldsMarked};

use crate::calling::{Edge, call_edges};
use crate::classes::{Stored, stored_classes};
use crate::mark_topics::{mark_fields, mark_roots};
use crate::order::call_order;
use crate::row::word;
use crate::rows::Rows;
use crate::table::{header_table, mark_topic};
use crate::topic::Topic;
use ir::{Ir, Site};
use std::alloc::{AllocError, Global};

/// For each store site, whether it is logged.
#[derive(Drop)]
pub struct MarkTable {
    rows: Rows,
}

/// Whether a bit of a word is set.
#[tactic(auto, using(std::proofs::lemmas::Nat::Bits::shr_and_one), unfolding(crate::specs::Row::has_bit))]
fn has_bit(bit: u32, word: u16) -> bool
    requires { bit < 16 }
    ensures { result ≡ has_bit bit word }
{
    (word >> bit) & 1 == 1
}

impl MarkTable {
    /// Whether the store at a site is logged. A site that doesn't exist isn't logged.
    pub fn logged(&self, site: Site) -> bool
        ensures { result ≡ is_logged self.now site }
    {
        let word = word(self.rows.row(site.function as usize), site.place as usize);
        if site.fill {
            has_bit(1, word)
        } else {
            has_bit(0, word)
        }
    }
}

/// Marks the sites of each topic in a table that has the headers' marks.
fn mark_all(
    alloc: Global,
    ir: &Ir,
    stored: &Stored,
    calls: &[Edge],
    order: &[usize],
    table: &mut Rows,
) -> Result<(), AllocError>
    requires well { IsWellFormed ir.now }
    requires edges { calls.now ≡ edges_from 0 ir.now.functions }
    requires marks { Marks ir.now.functions table.old }
    requires headers { Headers ir.now.functions table.old }
    ensures marks { OnOk result (Marks ir.now.functions table.new) }
    ensures headers { OnOk result (Headers ir.now.functions table.new) }
    ensures frees { OnOk result (AllMarked ir.now.functions Frees table.new) }
    ensures roots { OnOk result (RootsMarked ir.now.functions stored.now.roots table.new) }
    ensures fields { OnOk result (FieldsMarked ir.now.functions stored.now.fields table.new) }
{
    mark_topic(alloc, ir, Topic::Frees, calls, order, table)?;
    mark_roots(alloc, ir, stored.roots.as_slice(), calls, order, table)?;
    mark_fields(alloc, ir, stored.fields.as_slice(), calls, order, table)?;
    Ok(())
}

/// Marks the sites whose old values have to be logged, and no others: a store, if some walk reaches
/// it with its target not surely written, and some walk reaches it with its class read before; the
/// fill of a new object, if some walk reaches it after a free; and each store to a header. `Err`
/// means only that the allocator refused memory.
pub fn marks(alloc: Global, ir: &Ir) -> Result<MarkTable, AllocError>
    requires { IsWellFormed ir.now }
    ensures { IfOk result (λ table. IsExact ir.now.functions table) }
{
    let stored = stored_classes(alloc, ir.functions.as_slice())?;
    let edges = call_edges(alloc, ir.functions.as_slice())?;
    let mut table = header_table(alloc, ir.functions.as_slice())?;
    let calls = edges.as_slice();
    let order = call_order(alloc, ir, calls)?;
    mark_all(alloc, ir, &stored, calls, &order, &mut table)?;
    Ok(MarkTable { rows: table })
}
