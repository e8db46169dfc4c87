//! The transactions as the C file has them.

ghost use Rattle.std.specs.Prelude.{◌≡◌, ◌++◌, ◌<◌, ◌≤◌, ◌^◌, ◌-◌, IfOk, OnOk, Some, length};
ghost use Rattle.std.specs.Prelude.{option_map, slice_get};
ghost use Rattle.c_types.specs.Shapes.{transactions_of};
ghost use Rattle.codegen.specs.Emit.{tx_of, txs_from};
ghost use Rattle.cnvm_emit.specs.Entries.{entry_of, entries_from};

use crate::name::c_name;
use c_file::Entry;
use c_types::Typed;
use ir::{Ir, IrFunction};
use nvm_base::List;
use pm_machine::{TxEntry, TxList};
use std::alloc::{AllocError, Global};

fn push_tx(txs: &mut TxList, number: u32, function: &IrFunction) -> Result<(), AllocError>
    ensures { OnOk result (txs.new ≡ txs.old ++ tx_of number function.now) }
{
    if function.tx {
        return txs.push(TxEntry {
            function: number,
            parameters: function.parameters,
        });
    }
    Ok(())
}

/// The functions that are transactions.
fn transactions(alloc: Global, functions: &[IrFunction]) -> Result<TxList, AllocError>
    requires { length functions.now < 2 ^ 32 }
    ensures { IfOk result (λ txs. txs ≡ txs_from 0 functions.now) }
{
    let mut txs = TxList::new(alloc);
    for (number, function) in functions.iter().enumerate() {
        push_tx(&mut txs, number as u32, function)?;
    }
    Ok(txs)
}

fn copied(alloc: Global, types: &[bool]) -> Result<List<bool>, AllocError>
    ensures { IfOk result (λ list. list ≡ types.now) }
{
    let mut list = List::new(alloc);
    list.extend(types)?;
    Ok(list)
}

/// The entry of a transaction of this number.
fn entry_of(alloc: Global, typed: &Typed, number: u64, tx: TxEntry) -> Result<Entry, AllocError>
    requires from { 1 ≤ number }
    requires to { number ≤ length (transactions_of typed.now) }
    ensures { IfOk result (λ entry. Some entry ≡ option_map (entry_of tx)
        (slice_get (transactions_of typed.now) (number - 1))) }
{
    Ok(Entry {
        name: c_name(alloc, typed.tx_name(number))?,
        function: tx.function,
        parameters: tx.parameters,
        types: copied(alloc, typed.parameter_types(number))?,
        rolls_back: typed.rolls_back(number),
        looks: typed.looks(number),
    })
}

/// The entry of each transaction.
fn entries_with(alloc: Global, typed: &Typed, txs: &[TxEntry]) -> Result<Vec<Entry>, AllocError>
    requires { length txs.now ≤ length (transactions_of typed.now) }
    ensures { IfOk result (λ entries. entries.items
        ≡ entries_from txs.now (transactions_of typed.now)) }
{
    let mut entries = Vec::new(alloc);
    for (place, tx) in txs.iter().enumerate() {
        entries.push(entry_of(alloc, typed, place as u64 + 1, *tx)?)?;
    }
    Ok(entries)
}

/// The transactions of a program's code under the names of its tree.
pub(crate) fn entries_of(alloc: Global, typed: &Typed, ir: &Ir) -> Result<Vec<Entry>, AllocError>
    requires few { length ir.now.functions < 2 ^ 32 }
    requires named { length (txs_from 0 ir.now.functions) ≤ length (transactions_of typed.now) }
    ensures { IfOk result (λ entries. entries.items
        ≡ entries_from (txs_from 0 ir.now.functions) (transactions_of typed.now)) }
{
    let txs = transactions(alloc, ir.functions.as_slice())?;
    entries_with(alloc, typed, txs.as_slice())
}
