// From files to the set of the modules that they become.
ghost use Rattle.std.specs.Prelude.{IfOk};
ghost use Rattle.rn_flat.specs.ModuleSets.{IsSetOf};

use crate::flat_fault::{FlatFault, refusal_fault};
use crate::module_set::set_of;
use rn_files::{SourceFile, Sources};
use rn_lift::{Lifted, lift};
use rn_modset::{AddFault, ModuleSet};
use rn_report::{Format, Messages, lift_messages, set_message, source_pages};
use rn_scopes::{LiftFault, LiftFaultKind, Lifting};
use std::alloc::{AllocError, Global};

/// The modules that the files become, or why they become none.
pub fn lift_sources(alloc: Global, sources: &Sources) -> Result<Lifted, LiftFault> {
    let mut files = Vec::new(alloc);
    for file in sources.files.as_slice() {
        files.push(Lifting {
            name: file.name.as_str(),
            text: file.text.as_str(),
            outline: &file.outline,
            targets: file.targets.as_slice(),
        })?;
    }
    lift(alloc, files.as_slice(), sources.roots.as_slice())
}

/// The modules that the files become. `Refused` where they become none.
pub fn lift_files(alloc: Global, sources: &Sources, format: Format) -> Result<Lifted, FlatFault> {
    match lift_sources(alloc, sources) {
        Ok(lifted) => Ok(lifted),
        Err(fault) => Err(lift_fault(alloc, sources, &fault, format)?),
    }
}

/// The fault of lifting.
pub fn lift_fault(
    alloc: Global,
    sources: &Sources,
    fault: &LiftFault,
    format: Format,
) -> Result<FlatFault, AllocError> {
    if fault.kind == LiftFaultKind::Memory {
        return Ok(FlatFault::Memory);
    }
    let files = sources.files.as_slice();
    let told = lift_messages(alloc, files, fault)?;
    fault_with_messages(alloc, files, &told, format)
}

/// The files are refused, with what is told of them.
pub fn fault_with_messages(
    alloc: Global,
    files: &[SourceFile],
    told: &Messages,
    format: Format,
) -> Result<FlatFault, AllocError> {
    let pages = source_pages(alloc, files)?;
    refusal_fault(alloc, pages.as_slice(), told, format)
}

/// The set of the modules.
pub fn module_set(
    alloc: Global,
    lifted: &Lifted,
    files: &[SourceFile],
    format: Format,
) -> Result<ModuleSet, FlatFault>
    ensures { IfOk result (IsSetOf lifted.now.modules.items) }
{
    match set_of(alloc, lifted.modules.as_slice()) {
        Ok(set) => Ok(set),
        Err(fault) if fault.fault == AddFault::Memory => Err(FlatFault::Memory),
        Err(fault) => {
            let message = set_message(alloc, lifted, fault.module, &fault.fault)?;
            let told = Messages::of_message(alloc, message)?;
            Err(fault_with_messages(alloc, files, &told, format)?)
        }
    }
}
