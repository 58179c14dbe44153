// The references of all components, and names that are referred to but not defined (RELAX NG 2001, 4.18 and 4.19).
ghost use Rattle.std.specs.Prelude.{ℕ, ◌≡◌, ◌+◌, ◌<◌, ◌≤◌, ◌↔◌, ◌⊎◌, ◌++◌, [], Bool, true, false, List, length, map, option_map, slice_index_or, IfOk, MatchResult, OnOk};
ghost use Rattle.std.specs.List.{AllByRecursion};
ghost use Rattle.std.specs.Option.{option_map_or};
ghost use Rattle.rn_text.specs.Texts.{Text, text_cmp};
ghost use Rattle.rn_graph.specs.Graph.{AllBelow, IsGraph, rows_of};
ghost use Rattle.rn_pattern.specs.References.{IsUndefined};
ghost use Rattle.rn_pattern.specs.declared.references.Reach.TheVariants.{Everywhere, OutsideElements};
ghost use Rattle.rn_syntax.specs.View.{pattern_view, patterns_view};
ghost use Rattle.rn_assemble.specs.Combine.{joined_grammar};
ghost use Rattle.rn_assemble.specs.Components.{Component};
ghost use Rattle.rn_assemble.specs.Least.{IsLeast};
ghost use Rattle.rn_assemble.specs.declared.including.pieces.Piece as specs_piece;
ghost use Rattle.rn_assemble.specs.declared.reading.keys.KeyId.{KeyId};
ghost use Rattle.rn_assemble.specs.inside.Pieces.{AreKnownBy, OfKeys};
ghost use Rattle.rn_assemble.specs.inside.ReferenceOrder.{AreDefinedKeys};
ghost use Rattle.rn_assemble.specs.inside.Referred.{AreAllReferences, AreLiveMarks, AreMarksOf, AreNumbers, AreRowsOrLeast, IsLeastUndefined, KeepsLeast, all_references, lesser_text, marked_references, names_within, number_within, reference_view, references};
ghost use Rattle.rn_assemble.specs.inside.Views.{key_numbers, names_of};

use crate::including::pieces::Piece;
use crate::including::segments::Segments;
use crate::reading::key_rows::{KeyRows, WrittenComponent};
use crate::reading::keys::{KeyId, Keys};
use crate::refusal::Refusal;
use rn_pattern::{NodeReferences, Reach, ReferenceRows};
use rn_syntax::Pat;
use std::alloc::{AllocError, Global};

/// A reference of a pattern: its name, and the narrowest reach that takes it in.
#[derive(Clone, Copy)]
pub(crate) struct Reference<'s> {
    pub name: &'s str,
    pub reach: Reach,
}

/// The references of all components, by keys. `Undefined` names the least name that is referred to and has no component;
/// `defined` are the keys of the names that have some.
pub(crate) fn references_of<'s>(
    alloc: Global,
    keys: &Keys<'s>,
    rows: &KeyRows<'s>,
    segments: &Segments<'_, '_, '_>,
    defined: &[KeyId],
) -> Result<ReferenceRows, Refusal>
    requires { AreKnownBy (names_of keys.now) rows.now segments.now }
    ensures everywhere { IfOk result (λ r. IsGraph (rows_of r.everywhere)) }
    ensures everywhere_size { IfOk result (λ r. length (rows_of r.everywhere)
        ≡ length (names_of keys.now) + 1) }
    ensures outside { IfOk result (λ r. IsGraph (rows_of r.outside)) }
    ensures outside_size { IfOk result (λ r. length (rows_of r.outside)
        ≡ length (names_of keys.now) + 1) }
    ensures found { OfKeys keys.now rows.now segments.now
        (λ names cs. AreDefinedKeys names cs (key_numbers defined.now) → MatchResult result
        (λ r. AreAllReferences names cs (rows_of r.everywhere) (rows_of r.outside))
        (IsLeastUndefined cs)) }
{
    match reference_rows(alloc, keys, rows, segments, defined)? {
        (_, Some(name)) => Err(undefined_name(alloc, name)),
        (found, None) => Ok(found),
    }
}

/// The references of all components, by keys, and the least name that is referred to and has no component, if there is
/// one; `defined` are the keys of the names that have some.
pub(crate) fn reference_rows<'s>(
    alloc: Global,
    keys: &Keys<'s>,
    rows: &KeyRows<'s>,
    segments: &Segments<'_, '_, '_>,
    defined: &[KeyId],
) -> Result<(ReferenceRows, Option<&'s str>), AllocError>
    requires { AreKnownBy (names_of keys.now) rows.now segments.now }
    ensures everywhere { IfOk result (λ r. IsGraph (rows_of r.0.everywhere)) }
    ensures everywhere_size { IfOk result (λ r. length (rows_of r.0.everywhere)
        ≡ length (names_of keys.now) + 1) }
    ensures outside { IfOk result (λ r. IsGraph (rows_of r.0.outside)) }
    ensures outside_size { IfOk result (λ r. length (rows_of r.0.outside)
        ≡ length (names_of keys.now) + 1) }
    ensures found { OfKeys keys.now rows.now segments.now
        (λ names cs. AreDefinedKeys names cs (key_numbers defined.now) → IfOk result
        (λ r. AreRowsOrLeast names cs r.0 (option_map (λ s. s.now) r.1))) }
{
    let is_defined = marks_of(alloc, rows.len(), defined)?;
    let mut pieces = Vec::new(alloc);
    let mut references = Vec::new(alloc);
    let mut row = NodeReferences::new(alloc);
    let mut undefined = None;
    let mut found = ReferenceRows::with_capacity(alloc, rows.len())?;
    for number in 0..rows.len() {
        let written = rows.row(KeyId(number));
        segments.live_pieces(written, &mut pieces)?;
        references_in(alloc, written, &pieces, &mut references)?;
        row_of(keys, &is_defined, &references, &mut undefined, &mut row)?;
        found.push_row(&row)?;
    }
    Ok((found, undefined))
}

/// For each of so many keys, whether it is one of these.
pub(crate) fn marks_of(alloc: Global, count: usize, keys: &[KeyId]) -> Result<Vec<bool>, AllocError>
    ensures { IfOk result (λ marks. AreMarksOf (key_numbers keys.now) count marks.items) }
{
    let mut marks = vec![in alloc; false; count]?;
    for key in keys {
        if key.0 < marks.len() {
            marks[key.0] = true;
        }
    }
    Ok(marks)
}

/// The refusal of a set for an undefined name.
fn undefined_name(alloc: Global, name: &str) -> Refusal
    ensures { (cs : List Component) → IsLeast text_cmp (IsUndefined (joined_grammar cs)) name.now
        → IsLeastUndefined cs result }
{
    match String::from_str(alloc, name) {
        Ok(name) => Refusal::Undefined { name },
        Err(_) => Refusal::Memory,
    }
}

/// Puts the references of these pieces' components into `found`, in the place of what it held; of each component once.
fn references_in<'s>(
    alloc: Global,
    row: &[WrittenComponent<'s>],
    pieces: &[Piece],
    found: &mut Vec<Reference<'s>>,
) -> Result<(), AllocError>
    requires { AllByRecursion (λ (p : specs_piece.Piece). (p.from ≤ p.to) × (p.to ≤ length row.now))
        pieces.now }
    ensures { OnOk result ((marks : List Bool) × AreLiveMarks pieces.now (length row.now) marks
        × (map reference_view found.new.items ≡ marked_references marks row.now)) }
{
    found.clear();
    let is_live = live_marks(alloc, row.len(), pieces)?;
    for index in 0..row.len() {
        if is_live[index] {
            refer(&row[index].body, Reach::OutsideElements, found)?;
        }
    }
    Ok(())
}

/// For each of so many components, whether a piece has it.
pub(crate) fn live_marks(
    alloc: Global,
    count: usize,
    pieces: &[Piece],
) -> Result<Vec<bool>, AllocError>
    requires { AllByRecursion (λ (p : specs_piece.Piece). (p.from ≤ p.to) × (p.to ≤ count))
        pieces.now }
    ensures { IfOk result (λ marks. AreLiveMarks pieces.now count marks.items) }
{
    let mut marks = vec![in alloc; false; count]?;
    for piece in pieces {
        mark_all(marks.as_mut_slice(), piece.from, piece.to);
    }
    Ok(marks)
}

/// Marks the numbers from one up to another.
fn mark_all(marks: &mut [bool], from: usize, to: usize)
    requires ordered { from ≤ to }
    requires within { to ≤ length marks.old }
    ensures size { length marks.new ≡ length marks.old }
    ensures marked { (n : ℕ) → (slice_index_or marks.new n false ≡ true)
        ↔ ((slice_index_or marks.old n false ≡ true) ⊎ ((from ≤ n) × (n < to))) }
{
    marks[from..to].fill(true);
}

/// Adds the references of a pattern that stands in that reach.
#[cycle(refer)]
pub(crate) fn refer<'s>(
    pattern: &Pat<'s>,
    reach: Reach,
    found: &mut Vec<Reference<'s>>,
) -> Result<(), AllocError>
    ensures { OnOk result (map reference_view found.new.items
        ≡ map reference_view found.old.items ++ references reach (pattern_view pattern.now)) }
{
    match pattern {
        Pat::Ref(name) => {
            found.push(Reference { name: *name, reach })?;
            Ok(())
        }
        Pat::Element(named) => refer(&named.content, Reach::Everywhere, found),
        Pat::Attribute(named) => refer(&named.content, reach, found),
        Pat::List(content)
        | Pat::Mixed(content)
        | Pat::DatumBut(_, _, content)
        | Pat::Repeated(_, content) => refer(content, reach, found),
        Pat::Chain(_, members) => refer_all(members, reach, found),
        Pat::Empty | Pat::NotAllowed | Pat::Text | Pat::Value(_) | Pat::Datum(_) => Ok(()),
    }
}

#[cycle(refer)]
fn refer_all<'s>(
    patterns: &[Pat<'s>],
    reach: Reach,
    found: &mut Vec<Reference<'s>>,
) -> Result<(), AllocError>
    ensures { OnOk result (map reference_view found.new.items
        ≡ map reference_view found.old.items
        ++ all_references reach (patterns_view patterns.now)) }
{
    'patterns: for pattern in patterns {
        refer(pattern, reach, found)?;
    }
    Ok(())
}

/// Puts the keys that are referred to into `row`, in the place of what it held. `undefined` gets the least of the names
/// that have no component, and of the one held before; `is_defined` has a mark for each key that has some.
fn row_of<'s>(
    keys: &Keys<'s>,
    is_defined: &[bool],
    references: &[Reference<'s>],
    undefined: &mut Option<&'s str>,
    row: &mut NodeReferences,
) -> Result<(), AllocError>
    ensures everywhere_within { OnOk result (AllBelow (length (names_of keys.now) + 1)
        row.new.everywhere.items) }
    ensures everywhere { OnOk result (AreNumbers (names_of keys.now)
        (names_within Everywhere (map reference_view references.now)) row.new.everywhere.items) }
    ensures outside_within { OnOk result (AllBelow (length (names_of keys.now) + 1)
        row.new.outside.items) }
    ensures outside { OnOk result (AreNumbers (names_of keys.now)
        (names_within OutsideElements (map reference_view references.now)) row.new.outside.items) }
    ensures least { OnOk result (KeepsLeast (names_of keys.now) is_defined.now
        (names_within Everywhere (map reference_view references.now))
        (option_map (λ s. s.now) undefined.old) (option_map (λ s. s.now) undefined.new)) }
{
    row.clear();
    for reference in references {
        let key = keys.find(reference.name);
        add_key(row, key, reference.reach)?;
        if !has_mark(is_defined, key) {
            *undefined = Some(lesser_name(*undefined, reference.name));
        }
    }
    Ok(())
}

/// Whether the key of a name, if the name has one, has a mark.
pub(crate) fn has_mark(marks: &[bool], key: Option<KeyId>) -> bool
    ensures { result ≡ option_map_or (λ (k : KeyId). slice_index_or marks.now k.0 false) key false }
{
    match key {
        Some(key) => marks.get(key.0).copied().unwrap_or(false),
        None => false,
    }
}

/// Adds the key of a name that a reference with this narrowest reach refers to, if the name has one.
fn add_key(row: &mut NodeReferences, key: Option<KeyId>, reach: Reach) -> Result<(), AllocError>
    ensures everywhere { OnOk result (row.new.everywhere.items
        ≡ row.old.everywhere.items ++ number_within Everywhere reach key) }
    ensures outside { OnOk result (row.new.outside.items
        ≡ row.old.outside.items ++ number_within OutsideElements reach key) }
{
    match key {
        Some(key) => row.add(key.0, reach),
        None => Ok(()),
    }
}

/// The lesser of two names, or the one that there is.
pub(crate) fn lesser_name<'s>(held: Option<&'s str>, other: &'s str) -> &'s str
    ensures { result.now ≡ lesser_text (option_map (λ s. s.now) held.entry) other.now }
{
    let Some(held) = held else {
        return other;
    };
    if other < held { other } else { held }
}
