// What replaces bytes of a file.
ghost use Rattle.std.specs.Prelude.{◌≡◌, All, IfOk, MatchOption, OnOk};
ghost use Rattle.rn_lift.specs.LiftedModules.{OthersStay};
ghost use Rattle.rn_lift.specs.inside.Planned.{AddsEdit, IsEditOf, StaysAt};

use crate::excepts::Spliced;
use crate::module_texts::{PlaceView, unsound_fault};
use rn_outline::Span;
use rn_scopes::{LiftFault, Unit};
use std::alloc::Global;

/// What replaces a part of a file, or its name.
#[derive(Drop)]
pub(crate) struct Edit {
    /// The index of the part in the file's outline.
    pub(crate) part: usize,
    pub(crate) span: Span,
    pub(crate) text: String,
}

/// What replaces parts of a unit, or their names.
pub(crate) fn edits_of(
    alloc: Global,
    view: &PlaceView<'_, '_>,
    unit: &Unit,
    spliced: &Spliced,
) -> Result<Vec<Edit>, LiftFault>
    ensures edits { IfOk result (λ v. All (IsEditOf view.now) v.items) }
    ensures covered { IfOk result (λ v. view.now.basis.grammar ≡ 0
        → OthersStay view.now.basis view.now.given.now.file.outline.now.parts.items v.items) }
{
    if view.basis.grammar == 0 {
        return edits_of_file(alloc, view, spliced);
    }
    let mut edits = Vec::new(alloc);
    for number in &unit.parts {
        add_edit(alloc, view, &mut edits, *number, spliced)?;
    }
    Ok(edits)
}

/// What replaces parts of a file, or their names, where the unit is the file's own grammar: all parts are looked
/// through.
fn edits_of_file(
    alloc: Global,
    view: &PlaceView<'_, '_>,
    spliced: &Spliced,
) -> Result<Vec<Edit>, LiftFault>
    ensures edits { IfOk result (λ v. All (IsEditOf view.now) v.items) }
    ensures covered { IfOk result (λ v.
        OthersStay view.now.basis view.now.given.now.file.outline.now.parts.items v.items) }
{
    let given = view.given;
    let outline = given.file.outline;
    let mut edits = Vec::new(alloc);
    for number in 0..outline.parts.len() {
        add_edit(alloc, view, &mut edits, number, spliced)?;
    }
    Ok(edits)
}

/// Adds what replaces the part of this index, if something does.
fn add_edit(
    alloc: Global,
    view: &PlaceView<'_, '_>,
    edits: &mut Vec<Edit>,
    number: usize,
    spliced: &Spliced,
) -> Result<(), LiftFault>
    ensures { OnOk result (AddsEdit view.now number edits.old.items edits.new.items) }
{
    let found = edit_of(alloc, view, number, spliced)?;
    let Some(edit) = found else {
        return Ok(());
    };
    edits.push(edit)?;
    Ok(())
}

/// What replaces the part of this index, or its name.
fn edit_of(
    alloc: Global,
    view: &PlaceView<'_, '_>,
    number: usize,
    spliced: &Spliced,
) -> Result<Option<Edit>, LiftFault>
    ensures { IfOk result (λ r. MatchOption r (StaysAt view.now number)
        (λ e. IsEditOf view.now e × (e.part ≡ number))) }
{
    let given = view.given;
    let outline = given.file.outline;
    let part = outline.parts.get(number).ok_or(unsound_fault())?;
    if part.grammar != view.basis.grammar {
        return Ok(None);
    }
    match view.text_for(alloc, number, part, spliced)? {
        Some(text) => Ok(Some(Edit {
            part: number,
            span: part.mark(),
            text,
        })),
        None => Ok(None),
    }
}
