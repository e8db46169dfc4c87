//! Checking a whole tree.

ghost use Rattle.std.specs.Prelude.{◌≡◌, [], None, Some, OnOk, IfOk, IfErr, ◌⊎◌};
ghost use Rattle.c_tree.specs.ItemTree.{items_in};
ghost use Rattle.c_types.specs.declared.fault.TypeFault.TheVariants.{NoMemory};
ghost use Rattle.c_types.specs.Broken.{least_from, least_broken};
ghost use Rattle.c_types.specs.Declarations.{broken_of, broken};
ghost use Rattle.c_types.specs.Fault.{fault_of, breaks, refusal};
ghost use Rattle.c_types.specs.Views.{tables_in};

use crate::broken::{Broken, Rule, expect};
use crate::declarations::{functions, roots, structs};
use crate::fault::TypeFault;
use crate::looking::looks;
use crate::program::Program;
use crate::typed::Typed;
use c_tree::Ast;
use c_tree::item::Item;
use std::alloc::{AllocError, Global};

/// Checks a tree against the typing rules. If no rule is broken, the answer is `Ok` with the given
/// tree; otherwise it is the rule broken at the least token, and at that token the one with the
/// least number, with the token's line and place. The tree is consumed also if it is refused.
#[tactic(auto, using(crate::proofs::Told::laws))]
pub fn check(alloc: Global, ast: Ast) -> Result<Typed, TypeFault>
    ensures kept { IfOk result (λ typed. breaks ast ≡ []) }
    ensures tree { IfOk result (λ typed. typed ≡ ast) }
    ensures refused { IfErr result (λ fault. (fault ≡ NoMemory) ⊎ (refusal ast ≡ Some fault)) }
{
    match least_broken(alloc, ast.items(), ast.tokens())? {
        None => {
            let typed = Typed::new(alloc, ast)?;
            Ok(typed)
        }
        Some(told) => Err(fault_at(told, ast.line(told.place))),
    }
}

fn fault_at(told: Broken, line: u64) -> TypeFault
    ensures { result ≡ fault_of told line }
{
    let place = told.place;
    match told.rule {
        Rule::UnknownName => TypeFault::UnknownName { line, place },
        Rule::Twice => TypeFault::Twice { line, place },
        Rule::Mismatch => TypeFault::Mismatch { line, place },
        Rule::NotAssignable => TypeFault::NotAssignable { line, place },
        Rule::Arity => TypeFault::Arity { line, place },
        Rule::TooBig(limit, value) => TypeFault::TooBig {
            line,
            place,
            limit,
            value,
        },
        Rule::NoRoot => TypeFault::NoRoot { line, place },
        Rule::BadTx => TypeFault::BadTx { line, place },
    }
}

/// The broken rule to report, if one is broken; `end` is the place after the last token.
fn least_broken(alloc: Global, items: &[Item], end: u64) -> Result<Option<Broken>, AllocError>
    ensures { IfOk result (λ found. found ≡ least_broken (broken end (items_in items.now))) }
{
    let program = Program::new(alloc, items)?;
    let mut found = None;
    examine(alloc, &program, end, &mut found)?;
    Ok(found)
}

#[tactic(auto, using(crate::proofs::Told::told_append))]
fn examine(
    alloc: Global,
    program: &Program<'_>,
    end: u64,
    found: &mut Option<Broken>,
) -> Result<(), AllocError>
    ensures { OnOk result (found.new ≡ least_from found.old
        (broken_of end (tables_in program.now))) }
{
    structs(program, program.structs(), found);
    roots(program, program.roots(), found);
    expect(found, program.has_root(), end, Rule::NoRoot);
    functions(alloc, program, program.functions(), found)?;
    looks(alloc, program, found)
}
