//! The store sites of a program: the places where it writes into the pool.

ghost use Rattle.std.specs.Prelude.{◌++◌, ◌≡◌, ◌<◌, ◌^◌, length, OnOk, IfOk};
ghost use Rattle.ir.specs.Sites.{sites_at, sites_from, sites_of};
ghost use Rattle.ir.specs.WellFormed.{IsWellFormed};

use crate::function::{Ir, IrFunction};
use crate::instruction::Instruction;
use nvm_base::List;
use std::alloc::{AllocError, Global};

/// A store, a `pm_free`, or the header or the fill of a `pm_new`, by its function and place. `fill`
/// is true only for the field words of a `pm_new`.
#[derive(Clone, Copy, Debug, PartialEq, Eq)]
pub struct Site {
    pub function: u32,
    pub place: u32,
    pub fill: bool,
}

/// Store sites.
pub type Sites = List<Site>;

/// Appends the sites of one instruction.
fn push_sites(
    sites: &mut Sites,
    function: u32,
    place: u32,
    instruction: &Instruction,
) -> Result<(), AllocError>
    ensures { OnOk result (sites.new ≡ sites.old ++ sites_at function place instruction.now) }
{
    let site = Site {
        function,
        place,
        fill: false,
    };
    match instruction {
        Instruction::Store { .. } | Instruction::Free { .. } => sites.push(site),
        Instruction::New { .. } => {
            sites.push(site)?;
            sites.push(Site {
                function,
                place,
                fill: true,
            })
        }
        Instruction::Const { .. }
        | Instruction::Copy { .. }
        | Instruction::Bin { .. }
        | Instruction::Jump { .. }
        | Instruction::Branch { .. }
        | Instruction::Load { .. }
        | Instruction::Call { .. }
        | Instruction::Return { .. }
        | Instruction::Tick
        | Instruction::Trap { .. }
        | Instruction::Log { .. } => Ok(()),
    }
}

/// Appends the sites of one function.
fn push_function(sites: &mut Sites, function: u32, code: &[Instruction]) -> Result<(), AllocError>
    requires { length code.now < 2 ^ 31 }
    ensures { OnOk result (sites.new ≡ sites.old ++ sites_from function 0 code.now) }
{
    for (place, instruction) in code.iter().enumerate() {
        push_sites(sites, function, place as u32, instruction)?;
    }
    Ok(())
}

impl Ir {
    /// All store sites, in code order.
    pub fn sites(&self, alloc: Global) -> Result<Sites, AllocError>
        requires { IsWellFormed self.now }
        ensures { IfOk result (λ s. s ≡ sites_of 0 self.now.functions) }
    {
        let mut sites = Sites::new(alloc);
        for (number, function) in self.functions.as_slice().iter().enumerate() {
            push_function(&mut sites, number as u32, function.code.as_slice())?;
        }
        Ok(sites)
    }
}
