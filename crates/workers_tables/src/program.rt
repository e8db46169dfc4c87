//! A program of three transactions on heap word 0.

ghost use Rattle.std.specs.Prelude.{◌≡◌, ◌≤◌, ◌<◌, ◌^◌, length, IfOk, IfSome};
ghost use Rattle.pm_machine.specs.Few.{AreFew};

use nvm_base::BinOp;
use pm_machine::{Code, Function, Functions, Image, ImageParts, Op, TxEntry, TxList};
use pool_layout::Sizes;
use std::alloc::{AllocError, Global};

/// `n += d; return n;`: the old value is logged before it is overwritten.
fn inc_code(alloc: Global) -> Result<Code, AllocError>
    ensures { IfOk result (λ c. length c < 2 ^ 32) }
{
    let mut code = Code::new(alloc);
    code.push(Op::Const { r: 1, v: 0 })?;
    code.push(Op::Load { r: 2, a: 1, o: 0 })?;
    code.push(Op::Bin {
        op: BinOp::Add,
        r: 2,
        a: 2,
        b: 0,
    })?;
    code.push(Op::Log { a: 1, o: 0 })?;
    code.push(Op::Store { a: 1, o: 0, b: 2 })?;
    code.push(Op::Flush)?;
    code.push(Op::Fence)?;
    code.push(Op::Halt { a: 2 })?;
    Ok(code)
}

/// `n = d; return d;`: nothing is logged, and the address is the 0 that register 1 begins with.
fn put_code(alloc: Global) -> Result<Code, AllocError>
    ensures { IfOk result (λ c. length c < 2 ^ 32) }
{
    let mut code = Code::new(alloc);
    code.push(Op::Store { a: 1, o: 0, b: 0 })?;
    code.push(Op::Flush)?;
    code.push(Op::Fence)?;
    code.push(Op::Halt { a: 0 })?;
    Ok(code)
}

/// `return d;`
fn give_code(alloc: Global) -> Result<Code, AllocError>
    ensures { IfOk result (λ c. length c < 2 ^ 32) }
{
    let mut code = Code::new(alloc);
    code.push(Op::Halt { a: 0 })?;
    Ok(code)
}

/// A function of one parameter.
fn function_of(code: Code) -> Function
    ensures { result ≡ record { parameters = 1; registers = 3; code = code } }
{
    Function {
        parameters: 1,
        registers: 3,
        code,
    }
}

fn parts(alloc: Global, sizes: Sizes) -> Result<ImageParts, AllocError>
    ensures few { IfOk result (λ p. AreFew p.functions) }
    ensures txs { IfOk result (λ p. 3 ≤ length p.txs) }
{
    let inc = inc_code(alloc)?;
    let put = put_code(alloc)?;
    let give = give_code(alloc)?;
    let mut functions = Functions::new(alloc);
    functions.push(function_of(inc))?;
    functions.push(function_of(put))?;
    functions.push(function_of(give))?;
    let mut txs = TxList::new(alloc);
    txs.push(TxEntry {
        function: 0,
        parameters: 1,
    })?;
    txs.push(TxEntry {
        function: 1,
        parameters: 1,
    })?;
    txs.push(TxEntry {
        function: 2,
        parameters: 1,
    })?;
    Ok(ImageParts {
        functions,
        sizes,
        txs,
        structs: 0,
        most: 1000,
    })
}

/// The program, for the smallest compartments.
pub fn program(alloc: Global) -> Option<Image>
    ensures { IfSome result (λ i. 3 ≤ length i.parts.txs) }
{
    let sizes = Sizes::new(1, 1, 1, 16, 100)?;
    let Ok(parts) = parts(alloc, sizes) else {
        return None;
    };
    match Image::new(alloc, parts) {
        Ok(image) => Some(image),
        Err(_) => None,
    }
}
