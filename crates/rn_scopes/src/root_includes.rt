// Which files are included by the grammars of the roots.

use crate::marks::{mark_row, spread};
use crate::units::{Unit, Units};
use rn_outline::FilePartKind;
use std::alloc::{AllocError, Global};

/// Of each file, whether the roots, or what they include, include it.
pub(crate) fn included_files(
    alloc: Global,
    units: &Units<'_>,
    roots: &[usize],
) -> Result<Vec<bool>, AllocError> {
    let includes = includes(alloc, units)?;
    let mut included = vec![in alloc; false; includes.len()]?;
    let mut waiting = Vec::new(alloc);
    for root in roots {
        if let Some(row) = includes.get(*root) {
            mark_row(&mut included, &mut waiting, row.as_slice())?;
        }
    }
    spread(included, waiting, includes.as_slice())
}

/// Of each file, the files that its own grammar includes.
fn includes(alloc: Global, units: &Units<'_>) -> Result<Vec<Vec<usize>>, AllocError> {
    let mut includes = Vec::new(alloc);
    for file in 0..units.files.len() {
        let own = units.number(file, 0).and_then(|unit| units.units.get(unit));
        includes.push(match own {
            Some(unit) => includes_of(alloc, units, unit)?,
            None => Vec::new(alloc),
        })?;
    }
    Ok(includes)
}

/// The files that a unit includes.
fn includes_of(alloc: Global, units: &Units<'_>, unit: &Unit) -> Result<Vec<usize>, AllocError> {
    let mut files = Vec::new(alloc);
    for number in &unit.parts {
        if let (Some(file), Some(part)) = (units.target(unit, *number), units.part(unit, *number)) {
            if matches!(&part.kind, FilePartKind::Include { .. }) {
                files.push(file)?;
            }
        }
    }
    Ok(files)
}
