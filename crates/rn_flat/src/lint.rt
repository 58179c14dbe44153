// Looking for faults of files that may be parts of a schema.
use crate::flat_fault::FlatFault;
use crate::gathering::{fault_with_messages, lift_fault, lift_sources, module_set};
use crate::module_set::REVISION;
use rn_assemble::{Diagnosis, Finding, Refusal, assemble_short, diagnose};
use rn_files::{SourceFile, Sources};
use rn_lift::Lifted;
use rn_modset::{AddFault, Contribution, ModuleSet};
use rn_report::{Format, refusal_messages_of_parts};
use rn_scopes::LiftFaultKind;
use std::alloc::{AllocError, Global};

/// The name of the module that defines what the files lack. No file has it: names of files have two digits behind `%`.
const ADDED: &str = "%";

/// Looks for faults of the files. `Refused` where there are any. They may be parts of a schema: that nothing defines the
/// start, a name or what `parent` means, is no fault. Where an except refers to such a name, no fault of the files
/// together is looked for.
pub fn lint(alloc: Global, sources: &Sources, format: Format) -> Result<(), FlatFault> {
    let lifted = match lift_sources(alloc, sources) {
        Ok(lifted) => lifted,
        Err(fault) if is_lack(fault.kind) => return Ok(()),
        Err(fault) => return Err(lift_fault(alloc, sources, &fault, format)?),
    };
    let files = sources.files.as_slice();
    let set = module_set(alloc, &lifted, files, format)?;
    match assemble_short(alloc, &set) {
        Ok(_) => Ok(()),
        Err(Refusal::NoStart | Refusal::Undefined { .. }) => {
            lint_completed(alloc, set, &lifted, files, format)
        }
        Err(refusal) => Err(parts_fault(alloc, &set, &lifted, files, &refusal, format)?),
    }
}

/// Whether a fault of lifting is that a name is not defined.
fn is_lack(kind: LiftFaultKind) -> bool {
    matches!(kind, LiftFaultKind::Undefined | LiftFaultKind::NoParent)
}

/// Looks for the faults of modules that would be there if something defined what their set lacks.
fn lint_completed(
    alloc: Global,
    set: ModuleSet,
    lifted: &Lifted,
    files: &[SourceFile],
    format: Format,
) -> Result<(), FlatFault> {
    let Some(completed) = completed_set(alloc, set)? else {
        return Ok(());
    };
    match assemble_short(alloc, &completed) {
        Ok(_) | Err(Refusal::NoStart | Refusal::Undefined { .. }) => Ok(()),
        Err(refusal) => {
            let set = module_set(alloc, lifted, files, format)?;
            Err(parts_fault(alloc, &set, lifted, files, &refusal, format)?)
        }
    }
}

/// The set with one module more, which defines what is lacking; `None` where there is no room for one.
fn completed_set(alloc: Global, set: ModuleSet) -> Result<Option<ModuleSet>, AllocError> {
    let text = match diagnose(alloc, &set, None) {
        Ok(diagnosis) => completion(alloc, &diagnosis)?,
        Err(Refusal::Memory) => return Err(AllocError),
        Err(_) => return Ok(None),
    };
    let added = Contribution {
        name: String::from_str(alloc, ADDED)?,
        revision: REVISION,
        text: Some(text.into_bytes()),
    };
    let mut set = set;
    match set.add(added) {
        Ok(_) => Ok(Some(set)),
        Err((_, AddFault::Memory)) => Err(AllocError),
        Err(_) => Ok(None),
    }
}

/// A module that defines what is lacking.
fn completion(alloc: Global, diagnosis: &Diagnosis<'_>) -> Result<String, AllocError> {
    let mut text = String::new(alloc);
    for finding in &diagnosis.findings {
        match finding {
            Finding::NoStart => push_start(alloc, &mut text, diagnosis)?,
            Finding::Undefined { name, .. } => {
                text.push_str(format!(in alloc; "\\{name} = notAllowed\n")?.as_str())?;
            }
            _ => {}
        }
    }
    Ok(text)
}

/// Appends a start that refers to each definition, so that all are looked at.
fn push_start(
    alloc: Global,
    text: &mut String,
    diagnosis: &Diagnosis<'_>,
) -> Result<(), AllocError> {
    text.push_str("start = notAllowed")?;
    for name in diagnosis.defined_names(alloc)? {
        text.push_str(format!(in alloc; " | \\{name}")?.as_str())?;
    }
    text.push_str("\n")
}

/// The fault of parts of a schema that are refused; the set is that of the modules.
fn parts_fault(
    alloc: Global,
    set: &ModuleSet,
    lifted: &Lifted,
    files: &[SourceFile],
    refusal: &Refusal,
    format: Format,
) -> Result<FlatFault, AllocError> {
    if *refusal == Refusal::Memory {
        return Ok(FlatFault::Memory);
    }
    let told = refusal_messages_of_parts(alloc, files, lifted, set, refusal)?;
    fault_with_messages(alloc, files, &told, format)
}
