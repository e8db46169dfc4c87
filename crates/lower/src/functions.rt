//! The code of functions and programs.

ghost use Rattle.std.specs.Prelude.{◌≡◌, ◌<◌, ◌^◌, [], length, map, IfOk, OnOk};
ghost use Rattle.std.specs.List.{AllByRecursion};
ghost use Rattle.c_tree.specs.ItemTree.{function_tree, parameter_of};
ghost use Rattle.c_tree.specs.StmtTree.{statements_in};
ghost use Rattle.c_types.specs.Fault.{breaks};
ghost use Rattle.c_types.specs.Views.{tables_in};
ghost use Rattle.ir.specs.WellFormed.{IsWellFormed};
ghost use Rattle.lower.specs.inside.Added.{ParameterAdded, ParametersAdded, context_of};
ghost use Rattle.lower.specs.Program as programs;
ghost use Rattle.lower.specs.inside.Program.{function_end, IsCounted, TakesFew};
ghost use Rattle.lower.specs.Program.{lowered};
ghost use Rattle.ir.specs.Short.{IsShort};

use crate::assigned::is_assigned;
use crate::code::{Code, LEAVE};
use crate::expressions::{add_constant, add_copy};
use crate::source::Source;
use crate::statements::add_statements;
use crate::variables::Variables;
use c_tree::Ast;
use c_tree::item::Function;
use c_types::{Program, Typed};
use ir::{Instruction, Ir, IrFunction, IrFunctions};
use nvm_base::Text;
use std::alloc::{AllocError, Global};

/// The code of a program that breaks no typing rule: one function for each of the program's, in
/// their order, with no log and every flag off. The error is want of memory, which is also answered
/// if a function has over 2^29 instructions.
#[tactic(auto, using(crate::proofs::Few::few_functions))]
pub fn lower(alloc: Global, typed: &Typed) -> Result<Ir, AllocError>
    requires { breaks typed.now ≡ [] }
    ensures code { IfOk result (λ ir. ir ≡ lowered typed.now) }
    ensures well_formed { IfOk result (λ ir. IsWellFormed ir) }
    ensures short { IfOk result (λ ir. IsShort ir) }
{
    let ast = typed.ast();
    let program = Program::new(alloc, ast.items())?;
    let functions = lower_functions(alloc, ast, &program, program.functions())?;
    let shapes = typed.shapes().copy(alloc)?;
    Ok(Ir { functions, shapes })
}

/// The functions, in the order of the text.
fn lower_functions<'s, 'a>(
    alloc: Global,
    ast: &'s Ast,
    program: &'s Program<'a>,
    functions: &[&'a Function],
) -> Result<IrFunctions, AllocError>
    requires few { AllByRecursion TakesFew (map function_tree (map (λ f. f.now) functions.now)) }
    ensures code { IfOk result (λ us.
        us ≡ map (programs.lowered_function (tables_in program.now) ast.now)
        (map function_tree (map (λ f. f.now) functions.now))) }
    ensures counted { IfOk result (λ us.
        AllByRecursion (IsCounted (tables_in program.now) ast.now)
        (map function_tree (map (λ f. f.now) functions.now))) }
{
    let mut lowered = IrFunctions::new(alloc);
    for function in functions {
        lowered.push(lower_function(alloc, ast, program, function)?)?;
    }
    Ok(lowered)
}

/// A function's name, registers and code.
#[tactic(auto, using(crate::proofs::Whole::parameters))]
fn lower_function<'s, 'a>(
    alloc: Global,
    ast: &'s Ast,
    program: &'s Program<'a>,
    function: &'a Function,
) -> Result<IrFunction, AllocError>
    requires few { length function.now.parameters.items < 2 ^ 16 }
    ensures code { IfOk result (λ u. u ≡ programs.lowered_function (tables_in program.now) ast.now
        (function_tree function.now)) }
    ensures counted { IfOk result (λ u. IsCounted (tables_in program.now) ast.now
        (function_tree function.now)) }
{
    let source = Source {
        alloc,
        ast,
        program,
        parameters: function.parameters.len() as u16,
    };
    let code = function_code(&source, function)?;
    let mut name = Text::new(alloc);
    name.push(function.name.text.as_str())?;
    Ok(IrFunction {
        name,
        parameters: u32::from(source.parameters),
        registers: source.register(code.end()),
        tx: function.tx,
        code: code.into_instructions(),
    })
}

/// The code of a function: copies of the parameters that it assigns, its body, and the return of 0.
fn function_code<'a>(source: &Source<'_, 'a>, function: &'a Function) -> Result<Code, AllocError>
    requires few { length function.now.parameters.items < 2 ^ 16 }
    ensures code { IfOk result (λ c. c ≡ programs.function_code (context_of source.now)
        (function_tree function.now)) }
    ensures long { IfOk result (λ c.
        length c ≡ function_end (function_tree function.now)) }
{
    let mut variables = Variables::new(source.alloc);
    let mut code = Code::new(source.alloc);
    variables.open(source.alloc)?;
    add_parameters(source, &mut variables, &mut code, function)?;
    add_statements(source, &mut variables, &mut code, LEAVE, &function.body)?;
    let end = code.end();
    code.fill(LEAVE, 0, end);
    let from = add_constant(source, &mut code, 0)?;
    code.push(Instruction::Return { from })?;
    Ok(code)
}

/// Declares the parameters.
fn add_parameters<'a>(
    source: &Source<'_, 'a>,
    variables: &mut Variables<'a>,
    code: &mut Code,
    function: &'a Function,
) -> Result<(), AllocError>
    requires few { length function.now.parameters.items < 2 ^ 16 }
    ensures { OnOk result (ParametersAdded (context_of source.now)
        (statements_in function.now.body.items) (map parameter_of function.now.parameters.items)
        variables.old code.old code.new variables.new) }
{
    let mut number = 0u32;
    for parameter in &function.parameters {
        let name = parameter.name.text.as_str();
        let assigned = is_assigned(&function.body, name);
        let register = add_parameter(source, code, assigned, number)?;
        let ty = source.program.declared_type(&parameter.ty);
        variables.declare(name, ty, register)?;
        number += 1;
    }
    Ok(())
}

/// The register of a parameter. A parameter that the function assigns gets a second register, which
/// every use means, so the first is never assigned.
#[tactic(auto, using(crate::proofs::FunctionAdds::functions))]
fn add_parameter(
    source: &Source<'_, '_>,
    code: &mut Code,
    assigned: bool,
    number: u32,
) -> Result<u32, AllocError>
    ensures { IfOk result (λ r. ParameterAdded (context_of source.now) assigned number code.old
        code.new r) }
{
    if assigned {
        return add_copy(source, code, number);
    }
    Ok(number)
}
