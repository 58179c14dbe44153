// References in excepts: the parts that they are, the names that they mean, and whether these are data
// (RELAX NG 2001, 7.1.4).
use crate::scope_definitions::{Definition, ScopedName};
use rn_outline::{FilePart, FilePartKind, OutlineMethod};
use rn_scopes::{LiftFault, LiftFaultKind, Plan, Units};
use std::alloc::{AllocError, Global};

/// A part that is replaced, in the file of a place.
#[derive(Clone, Copy)]
pub(crate) struct Reference {
    pub(crate) place: usize,
    pub(crate) part: usize,
}

/// The file of a place.
pub(crate) fn file_of(units: &Units<'_>, plan: &Plan, place: usize) -> usize {
    let unit = plan.places.get(place).map(|place| place.unit);
    match unit.and_then(|unit| units.units.get(unit)) {
        Some(unit) => unit.file,
        None => 0,
    }
}

fn part_at<'a>(units: &Units<'a>, plan: &Plan, at: Reference) -> Option<&'a FilePart> {
    units
        .files
        .get(file_of(units, plan, at.place))?
        .part(at.part)
}

/// The fault of a reference whose name nothing defines.
pub(crate) fn undefined(units: &Units<'_>, plan: &Plan, reference: Reference) -> LiftFault {
    LiftFault {
        file: file_of(units, plan, reference.place),
        at: part_at(units, plan, reference).map_or(0, |part| part.at.from),
        kind: LiftFaultKind::Undefined,
    }
}

/// The name that a reference means, if it means one.
pub(crate) fn key_of(
    alloc: Global,
    units: &Units<'_>,
    plan: &Plan,
    reference: Reference,
) -> Result<Option<ScopedName>, AllocError> {
    let Reference { place, part } = reference;
    let Some(found) = part_at(units, plan, reference) else {
        return Ok(None);
    };
    let Some(scope) = plan.scope_meant(place, part, &found.kind) else {
        return Ok(None);
    };
    let name = units.name_meant(file_of(units, plan, place), &found.kind);
    Ok(Some(ScopedName::new(alloc, scope, name)?))
}

/// Whether an except may hold the combination of definitions.
pub(crate) fn are_data(units: &Units<'_>, plan: &Plan, standing: &[Definition]) -> bool {
    standing.iter().all(|definition| {
        let at = Reference {
            place: definition.place,
            part: definition.part,
        };
        match part_at(units, plan, at) {
            Some(part) => is_data(&part.kind, standing.len() > 1),
            None => false,
        }
    })
}

fn is_data(kind: &FilePartKind, is_combined: bool) -> bool {
    match kind {
        FilePartKind::Define {
            method,
            only_data,
            ..
        }
        | FilePartKind::Start {
            method,
            only_data,
            ..
        } => *only_data && !(is_combined && *method == OutlineMethod::Interleave),
        _ => false,
    }
}
