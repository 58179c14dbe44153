// What stands against combining a set, all of it (RELAX NG 2001, 4.7, 4.17 and 4.18).
ghost use Rattle.std.specs.Prelude.{◌≡◌, ◌<◌, ◌∷◌, [], List, IfOk, IsTrue, length};
ghost use Rattle.std.specs.List.Sorted.{IsStrictlySortedBy};
ghost use Rattle.rn_text.specs.Texts.{Text};
ghost use Rattle.rn_assemble.specs.Components.{Component, NamedModule};
ghost use Rattle.rn_assemble.specs.Diagnosed.{AreFindings, ArePlaced, finding_refusal, key_numbered};
ghost use Rattle.rn_assemble.specs.Refusal as refusals;
ghost use Rattle.rn_assemble.specs.inside.Checked.{AreExpanded};
ghost use Rattle.rn_assemble.specs.inside.Diagnosing.{AddsLack, AddsLacks, AddsRank, AreLacks, KeepsLacks, OfExpanded, SaysPlainTwice, lack_cmp};
ghost use Rattle.rn_assemble.specs.inside.Pieces.{AreAllPieces, AreKnown, AreKnownBy, IsKnownRow, OfRow, overrides_in};
ghost use Rattle.rn_assemble.specs.inside.Rows.{AreRows};
ghost use Rattle.rn_assemble.specs.inside.Runs.{IsOrderedRow};
ghost use Rattle.rn_assemble.specs.inside.Segments.{AreSegmentsOf, IsLackOf};
ghost use Rattle.rn_assemble.specs.inside.Views.{names_of};

use super::occurrences::{Occurrence, depths_of, first_two, parting_includes};
use super::places::{ComponentPlace, IncludePlace, ReferencePlace};
use super::undefined_names::undefined_names;
use crate::including::pieces::{Piece, first_own, lacks};
use crate::including::segments::{FollowedInclude, Segments};
use crate::reading::key_rows::{KeyRows, WrittenComponent};
use crate::reading::keys::{KeyId, Keys, START};
use rn_syntax::Method;
use std::alloc::{AllocError, Global};

/// Something that stands against a set, of the kinds of which all can be found at once. The kinds are in the order in
/// which a set is refused for them.
#[derive(Clone, Copy, Debug, PartialEq, Eq)]
pub enum Finding<'s> {
    /// An include defines a key that the included module, with all that it includes, lacks (4.7).
    Override {
        /// The key.
        key: KeyId,
        /// The first of the include's definitions of the key.
        component: ComponentPlace,
        /// The include.
        include: IncludePlace,
    },
    /// A key has two definitions by `=` (4.17).
    PlainTwice {
        /// The key.
        key: KeyId,
        /// The first of them.
        first: ComponentPlace,
        /// The second; the same where its module comes twice.
        second: ComponentPlace,
        /// Where it is the same, the includes at which its two ways part.
        parting: Option<(IncludePlace, IncludePlace)>,
    },
    /// A key has definitions by `|=` and by `&=` (4.17).
    MixedMethods {
        /// The key.
        key: KeyId,
        /// The first definition by `|=`.
        choice: ComponentPlace,
        /// The first one by `&=`.
        interleave: ComponentPlace,
    },
    /// Nothing defines the start (4.18).
    NoStart,
    /// A name is referred to and not defined (4.18).
    Undefined {
        /// The name.
        name: &'s str,
        /// The first reference to it.
        reference: ReferencePlace,
    },
}

/// What stands against the set, each once, in the order in which it would be refused for it.
pub(crate) fn findings<'s>(
    alloc: Global,
    keys: &Keys<'s>,
    rows: &KeyRows<'s>,
    segments: &Segments<'_, '_, '_>,
) -> Result<Vec<Finding<'s>>, AllocError>
    requires { AreKnownBy (names_of keys.now) rows.now segments.now }
    ensures findings { (modules : List NamedModule)
        → AreExpanded modules (names_of keys.now) rows.now segments.now
        → IfOk result (λ found. AreFindings modules ([] ∷ names_of keys.now) found.items) }
    ensures places { (modules : List NamedModule)
        → AreExpanded modules (names_of keys.now) rows.now segments.now
        → IfOk result (λ found. ArePlaced modules ([] ∷ names_of keys.now) found.items) }
{
    let mut found = Vec::new(alloc);
    push_overrides(alloc, rows, segments, &mut found)?;
    let depths = depths_of(alloc, segments)?;
    push_plain_twice(alloc, rows, segments, &depths, &mut found)?;
    push_mixed(alloc, rows, segments, &depths, &mut found)?;
    push_no_start(alloc, rows, segments, &mut found)?;
    push_undefined_names(alloc, keys, rows, segments, &mut found)?;
    Ok(found)
}

/// Adds the includes' definitions of what the included modules lack.
fn push_overrides(
    alloc: Global,
    rows: &KeyRows<'_>,
    segments: &Segments<'_, '_, '_>,
    found: &mut Vec<Finding<'_>>,
) -> Result<(), AllocError>
    requires { AreKnown rows.now segments.now }
    ensures { OfExpanded rows.now segments.now (λ modules names. IfOk result (λ _.
        AddsRank modules names 5 found.old.items found.new.items)) }
{
    let lacks = lacks_of(alloc, rows, segments)?;
    for lack in &lacks {
        found.push(Finding::Override {
            key: lack.key,
            component: lack.component,
            include: lack.include,
        })?;
    }
    Ok(())
}

/// Adds the names that are referred to and not defined.
fn push_undefined_names<'s>(
    alloc: Global,
    keys: &Keys<'s>,
    rows: &KeyRows<'s>,
    segments: &Segments<'_, '_, '_>,
    found: &mut Vec<Finding<'s>>,
) -> Result<(), AllocError>
    requires { AreKnownBy (names_of keys.now) rows.now segments.now }
    ensures { (modules : List NamedModule)
        → AreExpanded modules (names_of keys.now) rows.now segments.now
        → IfOk result (λ _. AddsRank modules (names_of keys.now) 9
        found.old.items found.new.items) }
{
    let names = undefined_names(alloc, keys, rows, segments)?;
    for undefined in &names {
        found.push(Finding::Undefined {
            name: undefined.name,
            reference: undefined.reference,
        })?;
    }
    Ok(())
}

/// An include's definition of a key that the included module lacks.
#[derive(Clone, Copy)]
struct Lack {
    key: KeyId,
    component: ComponentPlace,
    include: IncludePlace,
}

/// The includes' definitions of what the included modules lack: of each module and key the first.
fn lacks_of(
    alloc: Global,
    rows: &KeyRows<'_>,
    segments: &Segments<'_, '_, '_>,
) -> Result<Vec<Lack>, AllocError>
    requires { AreKnown rows.now segments.now }
    ensures lacks { (modules : List NamedModule) (names : List Text) (cs : List Component)
        → AreRows modules names rows.now.rows.items → AreSegmentsOf modules segments.now cs
        → IfOk result (λ found. AreLacks modules names segments.now (length rows.now.rows.items)
        found.items) }
    ensures in_order { IfOk result (λ found. IsStrictlySortedBy lack_cmp found.items) }
{
    let mut found = Vec::new(alloc);
    let mut pieces = Vec::new(alloc);
    for number in 0..rows.len() {
        let row = rows.row(KeyId(number));
        segments.all_pieces(row, &mut pieces)?;
        if segments.has_own(row) {
            push_lacks(KeyId(number), row, &pieces, segments, &mut found)?;
        }
    }
    put_in_order(&mut found)?;
    Ok(found)
}

/// Puts the lacks in the order of modules, keys and definitions, and leaves the first of each module and key.
fn put_in_order(found: &mut Vec<Lack>) -> Result<(), AllocError>
    ensures { IfOk result (λ _. KeepsLacks found.old.items found.new.items) }
{
    found.sort_by_key(|lack: &Lack| (lack.include.module, lack.key, lack.component.number))?;
    found.dedup_by(|later, before| {
        later.include.module == before.include.module && later.key == before.key
    });
    Ok(())
}

/// Adds what the includes lack of a key; `pieces` has all pieces of it.
fn push_lacks(
    key: KeyId,
    row: &[WrittenComponent<'_>],
    pieces: &[Piece],
    segments: &Segments<'_, '_, '_>,
    found: &mut Vec<Lack>,
) -> Result<(), AllocError>
    requires known { IsKnownRow row.now segments.now }
    requires all { AreAllPieces segments.now.list.items row.now pieces.now }
    ensures { OfRow row.now segments.now (λ modules k cs. IfOk result (λ _. AddsLacks
        (λ b. IsLackOf modules segments.now.list.items b k) row.now key.0
        segments.now.brought.items found.old.items found.new.items)) }
{
    for include in &segments.brought {
        if lacks(row, pieces, include) {
            push_lack(key, row, include, found)?;
        }
    }
    Ok(())
}

/// Adds the include's first definition of a key that it overrides.
fn push_lack(
    key: KeyId,
    row: &[WrittenComponent<'_>],
    include: &FollowedInclude,
    found: &mut Vec<Lack>,
) -> Result<(), AllocError>
    requires row_ordered { IsOrderedRow row.now }
    requires overrides { IsTrue (overrides_in row.now include.now) }
    ensures { IfOk result (λ _. AddsLack row.now key.0 include.now found.old.items
        found.new.items) }
{
    if let Some(component) = first_own(row, include) {
        found.push(Lack {
            key,
            component: ComponentPlace::of(component),
            include: IncludePlace {
                module: include.module,
                number: include.number,
            },
        })?;
    }
    Ok(())
}

/// Adds the keys with two definitions by `=`.
fn push_plain_twice(
    alloc: Global,
    rows: &KeyRows<'_>,
    segments: &Segments<'_, '_, '_>,
    depths: &[usize],
    found: &mut Vec<Finding<'_>>,
) -> Result<(), AllocError>
    requires known { AreKnown rows.now segments.now }
    requires depths { length depths.now ≡ length segments.now.list.items }
    ensures { OfExpanded rows.now segments.now (λ modules names. IfOk result (λ _.
        AddsRank modules names 6 found.old.items found.new.items)) }
{
    let mut pieces = Vec::new(alloc);
    for number in 0..rows.len() {
        let key = KeyId(number);
        let row = rows.row(key);
        segments.live_pieces(row, &mut pieces)?;
        let plain = first_two(alloc, row, &pieces, depths, Some(Method::Plain))?;
        if plain.len() > 1 {
            found.push(plain_twice(key, row, segments, plain[0], plain[1]))?;
        }
    }
    Ok(())
}

/// That a key has two definitions by `=`, or one that comes twice.
fn plain_twice<'s>(
    key: KeyId,
    row: &[WrittenComponent<'_>],
    segments: &Segments<'_, '_, '_>,
    first: Occurrence,
    second: Occurrence,
) -> Finding<'s>
    requires first { first.index < length row.now }
    requires second { second.index < length row.now }
    ensures refusal { (modules : List NamedModule) (names : List Text)
        → finding_refusal modules names result ≡ refusals.plain_twice (key_numbered names key.0) }
    ensures places { SaysPlainTwice key row.now first.index second.index result }
{
    let parting = if first.index == second.index {
        parting_includes(segments, first.segment, second.segment)
    } else {
        None
    };
    Finding::PlainTwice {
        key,
        first: ComponentPlace::of(&row[first.index]),
        second: ComponentPlace::of(&row[second.index]),
        parting,
    }
}

/// Adds the keys with definitions by `|=` and by `&=`.
fn push_mixed(
    alloc: Global,
    rows: &KeyRows<'_>,
    segments: &Segments<'_, '_, '_>,
    depths: &[usize],
    found: &mut Vec<Finding<'_>>,
) -> Result<(), AllocError>
    requires known { AreKnown rows.now segments.now }
    requires depths { length depths.now ≡ length segments.now.list.items }
    ensures { OfExpanded rows.now segments.now (λ modules names. IfOk result (λ _.
        AddsRank modules names 7 found.old.items found.new.items)) }
{
    let mut pieces = Vec::new(alloc);
    for number in 0..rows.len() {
        let key = KeyId(number);
        let row = rows.row(key);
        segments.live_pieces(row, &mut pieces)?;
        let choices = first_two(alloc, row, &pieces, depths, Some(Method::Choice))?;
        let interleaves = first_two(alloc, row, &pieces, depths, Some(Method::Interleave))?;
        if !choices.is_empty() && !interleaves.is_empty() {
            found.push(Finding::MixedMethods {
                key,
                choice: ComponentPlace::of(&row[choices[0].index]),
                interleave: ComponentPlace::of(&row[interleaves[0].index]),
            })?;
        }
    }
    Ok(())
}

/// Adds that nothing defines the start, where that is so.
fn push_no_start(
    alloc: Global,
    rows: &KeyRows<'_>,
    segments: &Segments<'_, '_, '_>,
    found: &mut Vec<Finding<'_>>,
) -> Result<(), AllocError>
    requires { AreKnown rows.now segments.now }
    ensures { OfExpanded rows.now segments.now (λ modules names. IfOk result (λ _.
        AddsRank modules names 8 found.old.items found.new.items)) }
{
    let mut pieces = Vec::new(alloc);
    segments.live_pieces(rows.row(START), &mut pieces)?;
    if pieces.is_empty() {
        found.push(Finding::NoStart)?;
    }
    Ok(())
}
