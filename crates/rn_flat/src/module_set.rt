// The set of the modules that the files become.
ghost use Rattle.std.specs.Prelude.{◌≡◌, IfOk, OnOk};
ghost use Rattle.rn_modset.specs.Contributions.{member};
ghost use Rattle.rn_modset.specs.Sets.{with_member};
ghost use Rattle.rn_flat.specs.ModuleSets.{IsSetOf, lifted_member};

use rn_lift::LiftedModule;
use rn_modset::{AddFault, Contribution, ModuleSet};
use std::alloc::{AllocError, Global};

/// The revision that each module has.
pub const REVISION: u64 = 1;

/// Why modules are no set.
#[derive(Debug, Drop, PartialEq, Eq)]
pub struct ModuleFault {
    /// The number of the module that can't be added.
    pub module: usize,
    /// Why the module can't be added.
    pub fault: AddFault,
}

/// The set of the modules, each in revision 1. The fault is that of the first module that can't be added.
pub fn set_of(alloc: Global, modules: &[LiftedModule]) -> Result<ModuleSet, ModuleFault>
    ensures { IfOk result (IsSetOf modules.now) }
{
    let mut set = ModuleSet::new(alloc);
    for (number, module) in modules.iter().enumerate() {
        if let Err(fault) = add_module(alloc, &mut set, module) {
            return Err(ModuleFault {
                module: number,
                fault,
            });
        }
    }
    Ok(set)
}

/// Adds a module in revision 1.
fn add_module(alloc: Global, set: &mut ModuleSet, lifted: &LiftedModule) -> Result<(), AddFault>
    ensures { OnOk result (set.new ≡ with_member set.old (lifted_member lifted.now)) }
{
    let Ok(contribution) = contribution(alloc, lifted) else {
        return Err(AddFault::Memory);
    };
    match set.add(contribution) {
        Ok(_) => Ok(()),
        Err((_, fault)) => Err(fault),
    }
}

/// A module as a contribution.
fn contribution(alloc: Global, lifted: &LiftedModule) -> Result<Contribution, AllocError>
    ensures { IfOk result (λ one. member one ≡ lifted_member lifted.now) }
{
    Ok(Contribution {
        name: String::from_str(alloc, lifted.name.as_str())?,
        revision: REVISION,
        text: Some(lifted.text.as_bytes().to_vec(alloc)?),
    })
}
