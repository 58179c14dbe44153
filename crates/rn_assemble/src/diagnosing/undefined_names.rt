// Names that are referred to and not defined, with their first references (RELAX NG 2001, 4.18).
ghost use Rattle.std.specs.Prelude.{◌≡◌, ◌∷◌, [], IfOk, List, length};
ghost use Rattle.rn_pattern.specs.declared.references.Reach.TheVariants.{Everywhere};
ghost use Rattle.rn_assemble.specs.Components.{NamedModule};
ghost use Rattle.rn_assemble.specs.inside.Diagnosing.{AddsUnmarked, AreReferred, AreUndefined, KeepsNames};
ghost use Rattle.rn_assemble.specs.inside.Pieces.{AreKnownBy, OfKeys};
ghost use Rattle.rn_assemble.specs.inside.Referred.{marked_references, names_within, references_at};
ghost use Rattle.rn_assemble.specs.inside.Rows.{AreRows};
ghost use Rattle.rn_assemble.specs.inside.Views.{names_of};

use super::places::{ComponentPlace, ReferencePlace};
use crate::by_key::references::{has_mark, live_marks, marks_of, refer};
use crate::by_key::settling_order::defined_keys;
use crate::including::segments::Segments;
use crate::reading::key_rows::{KeyRows, WrittenComponent};
use crate::reading::keys::{KeyId, Keys};
use rn_pattern::Reach;
use std::alloc::{AllocError, Global};

/// A name that nothing defines, and a reference to it.
#[derive(Clone, Copy)]
pub(crate) struct UndefinedName<'s> {
    pub name: &'s str,
    pub reference: ReferencePlace,
}

/// The names that definitions which are left refer to and nothing defines, each with the first reference, in order.
pub(crate) fn undefined_names<'s>(
    alloc: Global,
    keys: &Keys<'s>,
    rows: &KeyRows<'s>,
    segments: &Segments<'_, '_, '_>,
) -> Result<Vec<UndefinedName<'s>>, AllocError>
    requires { AreKnownBy (names_of keys.now) rows.now segments.now }
    ensures names { OfKeys keys.now rows.now segments.now (λ names cs. IfOk result (λ found.
        AreUndefined cs found.items)) }
    ensures places { (modules : List NamedModule)
        → AreRows modules (names_of keys.now) rows.now.rows.items
        → IfOk result (λ found. AreReferred modules found.items) }
{
    let defined = defined_keys(alloc, rows, segments)?;
    let is_defined = marks_of(alloc, rows.len(), &defined)?;
    let mut found = Vec::new(alloc);
    let mut pieces = Vec::new(alloc);
    for number in 0..rows.len() {
        let row = rows.row(KeyId(number));
        segments.live_pieces(row, &mut pieces)?;
        let is_live = live_marks(alloc, row.len(), &pieces)?;
        push_undefined(alloc, keys, &is_defined, row, &is_live, &mut found)?;
    }
    put_in_order(&mut found)?;
    Ok(found)
}

/// Puts the names in order, and leaves the first reference to each.
fn put_in_order(found: &mut Vec<UndefinedName<'_>>) -> Result<(), AllocError>
    ensures { IfOk result (λ _. KeepsNames found.old.items found.new.items) }
{
    found.sort_by_key(|one: &UndefinedName<'_>| (one.name, one.reference))?;
    found.dedup_by(|later, before| later.name == before.name);
    Ok(())
}

/// Adds the references of components with a mark to names that aren't defined.
fn push_undefined<'s>(
    alloc: Global,
    keys: &Keys<'s>,
    is_defined: &[bool],
    row: &[WrittenComponent<'s>],
    is_live: &[bool],
    found: &mut Vec<UndefinedName<'s>>,
) -> Result<(), AllocError>
    requires { length is_live.now ≡ length row.now }
    ensures { IfOk result (λ _. AddsUnmarked row.now (names_of keys.now) is_defined.now
        (names_within Everywhere (marked_references is_live.now row.now))
        found.old.items found.new.items) }
{
    for index in 0..row.len() {
        if is_live[index] {
            push_undefined_of(alloc, keys, is_defined, &row[index], found)?;
        }
    }
    Ok(())
}

/// Adds the references of a component to names that aren't defined.
fn push_undefined_of<'s>(
    alloc: Global,
    keys: &Keys<'s>,
    is_defined: &[bool],
    component: &WrittenComponent<'s>,
    found: &mut Vec<UndefinedName<'s>>,
) -> Result<(), AllocError>
    ensures { IfOk result (λ _. AddsUnmarked (component.now ∷ []) (names_of keys.now)
        is_defined.now (names_within Everywhere (references_at component.now)) found.old.items
        found.new.items) }
{
    let mut references = Vec::new(alloc);
    refer(&component.body, Reach::OutsideElements, &mut references)?;
    for number in 0..references.len() {
        let name = references[number].name;
        if !has_mark(is_defined, keys.find(name)) {
            let component = ComponentPlace::of(component);
            let reference = ReferencePlace { component, number };
            found.push(UndefinedName { name, reference })?;
        }
    }
    Ok(())
}
