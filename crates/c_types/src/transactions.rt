//! The transactions of a program, by name and number.

ghost use Rattle.std.specs.Prelude.{◌≡◌, IfOk, map, option_map, false};
ghost use Rattle.std.specs.Option.{option_map_or};
ghost use Rattle.c_tree.specs.StmtTree.{type_tree};
ghost use Rattle.c_types.specs.Shapes.{is_unsigned};
ghost use Rattle.c_tree.specs.ItemTree.{function_tree, parameter_of};
ghost use Rattle.c_types.specs.Shapes.{transactions_in};
ghost use Rattle.c_types.specs.Transactions.{entry_of, is_abort, is_const};

use crate::shapes::{copied, is_unsigned};
use c_tree::item::{Function, Marked, Parameter};
use c_tree::stmt::TypeName;
use nvm_base::{List, Text};
use std::alloc::{AllocError, Global};

/// A transaction's name, the number of its parameters, whether each is of `uint64_t`, its mark, and
/// whether it returns `uint64_t`.
#[derive(Drop)]
pub struct Transaction {
    pub name: Text,
    pub parameters: u64,
    pub types: List<bool>,
    pub mark: Marked,
    pub unsigned: bool,
}

/// The transactions among the functions, in the order of the text.
pub fn transactions(alloc: Global, functions: &[&Function]) -> Result<Vec<Transaction>, AllocError>
    ensures { IfOk result (λ v. v.items
        ≡ map entry_of (transactions_in (map function_tree (map (λ f. f.now) functions.now)))) }
{
    let mut all = Vec::new(alloc);
    for function in functions {
        if function.tx {
            all.push(entry(alloc, function)?)?;
        }
    }
    Ok(all)
}

/// Whether each parameter is of `uint64_t`.
fn parameter_types(alloc: Global, parameters: &[Parameter]) -> Result<List<bool>, AllocError>
    ensures { IfOk result (λ types. types
        ≡ map (λ p. is_unsigned p.ty) (map parameter_of parameters.now)) }
{
    let mut types = List::new(alloc);
    for parameter in parameters {
        types.push(is_unsigned(&parameter.ty))?;
    }
    Ok(types)
}

fn is_unsigned_result(ty: &Option<TypeName>) -> bool
    ensures { result ≡ option_map_or is_unsigned (option_map type_tree ty.now) false }
{
    match ty {
        None => false,
        Some(ty) => is_unsigned(ty),
    }
}

fn entry(alloc: Global, function: &Function) -> Result<Transaction, AllocError>
    ensures { IfOk result (λ t. t ≡ entry_of (function_tree function.now)) }
{
    let name = copied(alloc, function.name.text.as_str())?;
    let parameters = function.parameters.len() as u64;
    let types = parameter_types(alloc, &function.parameters)?;
    Ok(Transaction {
        name,
        parameters,
        types,
        mark: function.mark,
        unsigned: is_unsigned_result(&function.result_type),
    })
}

/// Whether a transaction with this mark rolls back where it traps.
pub(crate) fn is_abort(mark: Marked) -> bool
    ensures { result ≡ is_abort mark }
{
    match mark {
        Marked::Abort => true,
        Marked::Plain | Marked::Const => false,
    }
}

/// Whether a function with this mark only looks.
pub(crate) fn is_const(mark: Marked) -> bool
    ensures { result ≡ is_const mark }
{
    match mark {
        Marked::Const => true,
        Marked::Plain | Marked::Abort => false,
    }
}
