//! The tokens of the instructions of a function.

ghost use Rattle.std.specs.Prelude.{◌≡◌, ◌++◌, map, IfOk, OnOk};
ghost use Rattle.c_tree.specs.StmtTree.{statements_in};
ghost use Rattle.c_tree.specs.ItemTree.{function_tree, parameter_of};
ghost use Rattle.trap_line.specs.Spots.{function_spots, parameters_spots};

use crate::expressions::push_never;
use crate::spot::Spots;
use crate::statements::push_statements;
use c_tree::item::Function;
use lower::is_assigned;
use std::alloc::{AllocError, Global};

/// The tokens of each instruction of a function's code.
pub fn spots_of(alloc: Global, function: &Function) -> Result<Spots, AllocError>
    ensures { IfOk result (λ spots. spots ≡ function_spots (function_tree function.now)) }
{
    let mut spots = Spots::new(alloc);
    push_parameters(&mut spots, function)?;
    push_statements(&mut spots, &function.body)?;
    push_never(&mut spots)?;
    push_never(&mut spots)?;
    Ok(spots)
}

/// Appends those of the copies of the parameters that the function assigns.
fn push_parameters(spots: &mut Spots, function: &Function) -> Result<(), AllocError>
    ensures { OnOk result (spots.new ≡ spots.old ++ parameters_spots
        (statements_in function.now.body.items)
        (map parameter_of function.now.parameters.items)) }
{
    for parameter in &function.parameters {
        if is_assigned(&function.body, parameter.name.text.as_str()) {
            push_never(spots)?;
        }
    }
    Ok(())
}
