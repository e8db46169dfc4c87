//! The image of a program.

ghost use Rattle.std.specs.Prelude.{◌≡◌, ◌++◌, ◌<◌, ◌^◌, length, map, OnOk, IfOk};
ghost use Rattle.ir.specs.WellFormed.{IsWellFormed};
ghost use Rattle.codegen.specs.Emit as definitions;
ghost use Rattle.codegen.specs.Emit.{function_of, txs_from, most_steps, parts_of};

use crate::functions::machine_function;
use ir::{Ir, IrFunction};
use pm_machine::{Functions, Image, ImageParts, ImageRefused, TxEntry, TxList};
use pool_layout::Sizes;
use pool_map::Shapes;
use std::alloc::{AllocError, Global};

#[tactic(auto, using(crate::proofs::Written::functions_step))]
fn machine_functions(
    alloc: Global,
    sizes: &Sizes,
    shapes: &Shapes,
    functions: &[IrFunction],
) -> Result<Functions, AllocError>
    ensures { IfOk result (λ f. f ≡ map (function_of sizes.now shapes.now) functions.now) }
{
    let mut emitted = Functions::new(alloc);
    for function in functions {
        emitted.push(machine_function(alloc, sizes, shapes, function)?)?;
    }
    Ok(emitted)
}

fn push_tx(txs: &mut TxList, number: u32, function: &IrFunction) -> Result<(), AllocError>
    ensures { OnOk result (txs.new ≡ txs.old ++ definitions.tx_of number function.now) }
{
    if function.tx {
        return txs.push(TxEntry {
            function: number,
            parameters: function.parameters,
        });
    }
    Ok(())
}

/// The functions that are transactions.
fn transactions(alloc: Global, functions: &[IrFunction]) -> Result<TxList, AllocError>
    requires { length functions.now < 2 ^ 32 }
    ensures { IfOk result (λ t. t ≡ txs_from 0 functions.now) }
{
    let mut txs = TxList::new(alloc);
    for (number, function) in functions.iter().enumerate() {
        push_tx(&mut txs, number as u32, function)?;
    }
    Ok(txs)
}

/// The bound on the steps of a run.
#[tactic(auto, using(crate::proofs::Bound::products))]
fn most_steps(sizes: &Sizes, tokens: u64) -> u128
    ensures { result ≡ most_steps sizes.now tokens }
{
    let ticks = 256 * u128::from(sizes.ticks() + 1);
    let code = 64 * u128::from(tokens) + 256;
    ticks * code * u128::from(80 + 20 * (sizes.slot_words() - 16))
}

fn image_parts(alloc: Global, ir: &Ir, sizes: &Sizes, tokens: u64) -> Result<ImageParts, AllocError>
    requires { length ir.now.functions < 2 ^ 32 }
    ensures { IfOk result (λ p. p ≡ parts_of ir.now sizes.now tokens) }
{
    let functions = ir.functions.as_slice();
    let txs = transactions(alloc, functions)?;
    let functions = machine_functions(alloc, sizes, &ir.shapes, functions)?;
    Ok(ImageParts {
        functions,
        sizes: *sizes,
        txs,
        structs: ir.shapes.structs.as_slice().len() as u64,
        most: most_steps(sizes, tokens),
    })
}

/// The image of a well formed program, for a pool of these sizes and a text of this many tokens.
#[tactic(auto, using(crate::proofs::Few::functions_few, crate::proofs::Good::program_good))]
pub fn emit(alloc: Global, ir: &Ir, sizes: &Sizes, tokens: u64) -> Result<Image, AllocError>
    requires { IsWellFormed ir.now }
    ensures { IfOk result (λ i. i.parts ≡ parts_of ir.now sizes.now tokens) }
{
    let parts = image_parts(alloc, ir, sizes, tokens)?;
    match Image::new(alloc, parts) {
        Ok(image) => Ok(image),
        Err(ImageRefused::NoMemory) => Err(AllocError),
        Err(ImageRefused::BadCode(_, _)) => unreachable!(),
    }
}
