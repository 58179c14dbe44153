// The components of each key resolved and joined (RELAX NG 2001, 4.8 to 4.15 and 4.17).
ghost use Rattle.std.specs.Prelude.{◌≡◌, ◌+◌, ◌≤◌, ◌∷◌, ◌++◌, [], true, false, List, IfOk, MatchResult, OnOk, Some, bytes_eq, length, map, take, drop};
ghost use Rattle.std.specs.List.{AllByRecursion, list_any};
ghost use Rattle.std.specs.List.Sorted.{IsStrictlySortedBy};
ghost use Rattle.rn_text.specs.Texts.{Text, text_cmp};
ghost use Rattle.rn_syntax.specs.View.{boxed_view};
ghost use Rattle.rn_pattern.specs.Tree.{Tree};
ghost use Rattle.rn_pattern.specs.View.{pattern_view, shared_view};
ghost use Rattle.rn_assemble.specs.Combine as spec;
ghost use Rattle.rn_assemble.specs.Components as specs;
ghost use Rattle.rn_assemble.specs.DefinitionsView.{definitions_view};
ghost use Rattle.rn_assemble.specs.Refusal.{BreaksNameRules};
ghost use Rattle.rn_assemble.specs.Resolve.{resolved_pattern};
ghost use Rattle.rn_assemble.specs.inside.ContextBindings.{InContext};
ghost use Rattle.rn_assemble.specs.inside.JoinedDefinitions.{AreDefinitions};
ghost use Rattle.rn_assemble.specs.inside.Joining.{CanBeJoined, IsJoinedGrammar, IsMisnamed};
ghost use Rattle.rn_assemble.specs.inside.Patterns.{AddsResolved, AreResolved, IsJoined, IsJoinedTo, IsResolved, lesser, numbers_from};
ghost use Rattle.rn_assemble.specs.inside.Pieces.{IsKnownRow, IsOnlyComponent, IsPiece, OfKeys, OfPieces, OfRow};
ghost use Rattle.rn_assemble.specs.inside.ReferenceOrder.{AreDefinedKeys};
ghost use Rattle.rn_assemble.specs.inside.Rows.{AreNameRows, AreRows};
ghost use Rattle.rn_assemble.specs.inside.Segments.{AreSegmentsOf};
ghost use Rattle.rn_assemble.specs.inside.Tied.{AreTied};
ghost use Rattle.rn_assemble.specs.inside.Views.{key_number, key_numbers, names_of};

use crate::by_key::checks::uses;
use crate::grammar::{Definitions, Grammar};
use crate::including::pieces::Piece;
use crate::including::segments::Segments;
use crate::reading::key_rows::{KeyRows, WrittenComponent};
use crate::reading::keys::{KeyId, Keys, START};
use crate::refusal::Refusal;
use crate::resolving::context::Context;
use crate::resolving::nodes::{choice, interleave};
use crate::resolving::resolution::resolve_pattern;
use indexmap::IndexMap;
use rn_pattern::name_classes::keeps_name_rules;
use rn_pattern::{Pattern, Seed, new_shared};
use rn_syntax::Method;
use std::alloc::{AllocError, Global};
use std::rc::Rc;

/// The pattern to which the components of a key are joined.
#[derive(Drop)]
struct Joined {
    pattern: Pattern,
    /// For each member of the list, the index of the first one that is the same component in the same context. Empty
    /// where no component stands twice, and where an index takes more than 32 bits.
    firsts: Vec<u32>,
}

/// The grammar to which the components of all keys are joined, its definitions in the order of `defined`. The components
/// of each key are dropped once they were resolved. The order in which the definitions can be settled is given, and the
/// seed by which their names are hashed.
pub(crate) fn joined_grammar(
    alloc: Global,
    keys: &Keys<'_>,
    rows: KeyRows<'_>,
    segments: &Segments<'_, '_, '_>,
    defined: &[KeyId],
    order: Vec<usize>,
    seed: &Seed,
) -> Result<Grammar, Refusal>
    requires { (ms : List specs.NamedModule) × (cs : List specs.Component)
        × IsStrictlySortedBy text_cmp (names_of keys.now)
        × AreRows ms (names_of keys.now) rows.rows.items × AreSegmentsOf ms segments.now cs
        × CanBeJoined (names_of keys.now) cs (key_numbers defined.now) order.items }
    ensures { OfKeys keys.now rows.entry segments.now
        (λ names cs. AreDefinedKeys names cs (key_numbers defined.now)
        → specs.has_key specs.start_key cs ≡ true
        → MatchResult result (IsJoinedGrammar cs) (IsMisnamed cs)) }
{
    let mut rows = rows;
    let row = rows.take(alloc, START);
    let Some(start) = join_key(alloc, row.as_slice(), segments)? else {
        return Err(Refusal::NameClass {
            key: keys.key(alloc, START)?,
        });
    };
    drop(row);
    let (defs, firsts) = definitions(alloc, keys, &mut rows, segments, defined, seed)?;
    Ok(Grammar {
        start: start.pattern,
        defs,
        start_firsts: start.firsts,
        firsts,
        order,
    })
}

/// The definitions of the names with these keys, in their order, and the first members of each. `NameClass` names the
/// least one that breaks the restrictions on name classes, whichever came first.
fn definitions(
    alloc: Global,
    keys: &Keys<'_>,
    rows: &mut KeyRows<'_>,
    segments: &Segments<'_, '_, '_>,
    defined: &[KeyId],
    seed: &Seed,
) -> Result<(Definitions, Vec<Vec<u32>>), Refusal>
    requires { (ms : List specs.NamedModule) × (cs : List specs.Component)
        × IsStrictlySortedBy text_cmp (names_of keys.now)
        × AreNameRows ms (names_of keys.now) rows.old.rows.items × AreSegmentsOf ms segments.now cs
        × AreDefinedKeys (names_of keys.now) cs (key_numbers defined.now) }
    ensures { (ms : List specs.NamedModule) (cs : List specs.Component)
        → IsStrictlySortedBy text_cmp (names_of keys.now)
        → AreNameRows ms (names_of keys.now) rows.old.rows.items → AreSegmentsOf ms segments.now cs
        → AreDefinedKeys (names_of keys.now) cs (key_numbers defined.now)
        → ¬ BreaksNameRules cs specs.start_key → MatchResult result
        (λ made. AreDefinitions cs made.0.entries made.1.items) (IsMisnamed cs) }
{
    let mut defs = IndexMap::with_capacity_and_hasher(alloc, defined.len(), *seed)?;
    let mut firsts = Vec::with_capacity(alloc, defined.len())?;
    let mut least = None;
    for key in defined {
        let row = rows.take(alloc, *key);
        match join_key(alloc, row.as_slice(), segments)? {
            Some(joined) => {
                firsts.push(joined.firsts)?;
                define(alloc, &mut defs, keys.name(*key), joined.pattern)?;
            }
            None => least = Some(lesser(least, *key)),
        }
    }
    match least {
        Some(key) => Err(Refusal::NameClass {
            key: keys.key(alloc, key)?,
        }),
        None => Ok((defs, firsts)),
    }
}

/// The lesser of a key and the one that there may be.
fn lesser(held: Option<KeyId>, other: KeyId) -> KeyId
    ensures { Some result.0 ≡ lesser other.0 (key_number held) }
{
    match held {
        Some(held) if held <= other => held,
        _ => other,
    }
}

/// Adds the definition of a name, behind those of others.
fn define(
    alloc: Global,
    defs: &mut Definitions,
    name: &str,
    body: Pattern,
) -> Result<(), AllocError>
    ensures { OnOk result (list_any (bytes_eq name.now)
        (map (λ (d : Text × Tree). d.0) (definitions_view defs.old.entries)) ≡ false
        → definitions_view defs.new.entries ≡ definitions_view defs.old.entries
        ++ (name.now, pattern_view body) ∷ []) }
{
    let name = String::from_str(alloc, name)?;
    defs.insert(name, body)?;
    Ok(())
}

/// What the components of a key are joined to; none where one of them breaks the restrictions on name classes. `row` has
/// the components that modules define under the key.
fn join_key(
    alloc: Global,
    row: &[WrittenComponent<'_>],
    segments: &Segments<'_, '_, '_>,
) -> Result<Option<Joined>, AllocError>
    requires { IsKnownRow row.now segments.now }
    ensures { OfRow row.now segments.now (λ modules k cs. IfOk result (IsJoined cs k)) }
{
    let mut pieces = Vec::new(alloc);
    segments.live_pieces(row, &mut pieces)?;
    if let Some(piece) = only_component(&pieces) {
        let context = segments.list[piece.segment].context;
        return join_one(alloc, context, &row[piece.from]);
    }
    let Some(members) = members_of(alloc, row, segments, &pieces)? else {
        return Ok(None);
    };
    let firsts = firsts_of(alloc, row, segments, &pieces)?;
    let pattern = if uses(Method::Interleave, row, &pieces) {
        interleave(members)
    } else {
        choice(members)
    };
    Ok(Some(Joined { pattern, firsts }))
}

/// The piece that has the only component of these pieces, if there is but one.
fn only_component(pieces: &[Piece]) -> Option<Piece>
    ensures { IsOnlyComponent pieces.now result }
{
    if pieces.len() != 1 {
        return None;
    }
    let piece = pieces[0];
    if piece.to.saturating_sub(piece.from) == 1 {
        Some(piece)
    } else {
        None
    }
}

/// The pattern of the only component of a key.
fn join_one(
    alloc: Global,
    context: Context<'_, '_>,
    component: &WrittenComponent<'_>,
) -> Result<Option<Joined>, AllocError>
    ensures { InContext context.entry (λ inherited ds. IfOk result
        (IsJoinedTo (resolved_pattern inherited ds (boxed_view component.now.body)))) }
{
    match resolve(alloc, context, component)? {
        Some(pattern) => Ok(Some(Joined {
            pattern,
            firsts: Vec::new(alloc),
        })),
        None => Ok(None),
    }
}

/// A component's pattern with its names resolved; none where it breaks the restrictions on name classes.
fn resolve(
    alloc: Global,
    context: Context<'_, '_>,
    component: &WrittenComponent<'_>,
) -> Result<Option<Pattern>, AllocError>
    ensures { InContext context.entry (λ inherited ds. IfOk result
        (IsResolved (resolved_pattern inherited ds (boxed_view component.now.body)))) }
{
    let pattern = resolve_pattern(alloc, context, &component.body)?;
    if keeps_name_rules(&pattern) {
        Ok(Some(pattern))
    } else {
        Ok(None)
    }
}

/// The patterns of the components of these pieces, in their order. Each component is resolved once in each context.
fn members_of(
    alloc: Global,
    row: &[WrittenComponent<'_>],
    segments: &Segments<'_, '_, '_>,
    pieces: &[Piece],
) -> Result<Option<Vec<Rc<Pattern>>>, AllocError>
    requires known { IsKnownRow row.now segments.now }
    requires pieces { AllByRecursion (IsPiece segments.now.list.items row.now) pieces.now }
    ensures { OfPieces row.now segments.now pieces.now (λ modules k cs. IfOk result
        (AreResolved (spec.bodies k cs))) }
{
    let mut begins = vec![in alloc; None; segments.list.len()]?;
    let mut members = Vec::with_capacity(alloc, count_of(pieces))?;
    for piece in pieces {
        let segment = segments.list[piece.segment];
        let components = &row[piece.from..piece.to];
        match begins[segment.first] {
            Some(begin) => repeat(&mut members, begin, components.len())?,
            None => {
                begins[segment.first] = Some(members.len());
                if !push_resolved(alloc, segment.context, components, &mut members)? {
                    return Ok(None);
                }
            }
        }
    }
    Ok(Some(members))
}

/// How many components these pieces have, or a lesser number.
fn count_of(pieces: &[Piece]) -> usize {
    let mut count = 0usize;
    for piece in pieces {
        count = count.saturating_add(piece.to.saturating_sub(piece.from));
    }
    count
}

/// Adds so many members from an index on once more.
fn repeat(members: &mut Vec<Rc<Pattern>>, begin: usize, count: usize) -> Result<(), AllocError>
    requires { begin + count ≤ length members.old.items }
    ensures { IfOk result (λ _. map shared_view members.new.items
        ≡ map shared_view members.old.items
        ++ take count (drop begin (map shared_view members.old.items))) }
{
    for index in begin..begin + count {
        let member = members[index].clone()?;
        members.push(member)?;
    }
    Ok(())
}

/// Adds the components' patterns with their names resolved. Answers whether all keep the restrictions on name classes.
fn push_resolved(
    alloc: Global,
    context: Context<'_, '_>,
    components: &[WrittenComponent<'_>],
    members: &mut Vec<Rc<Pattern>>,
) -> Result<bool, AllocError>
    ensures { InContext context.entry (λ inherited ds. IfOk result (AddsResolved inherited ds
        components.now members.old.items members.new.items)) }
{
    for component in components {
        let Some(pattern) = resolve(alloc, context, component)? else {
            return Ok(false);
        };
        members.push(new_shared(alloc, pattern)?)?;
    }
    Ok(true)
}

/// For each component of these pieces, the index of the first one that is the same in the same context. Empty where none
/// stands twice, and where an index takes more than 32 bits.
fn firsts_of(
    alloc: Global,
    row: &[WrittenComponent<'_>],
    segments: &Segments<'_, '_, '_>,
    pieces: &[Piece],
) -> Result<Vec<u32>, AllocError>
    requires known { IsKnownRow row.now segments.now }
    requires pieces { AllByRecursion (IsPiece segments.now.list.items row.now) pieces.now }
    ensures { OfPieces row.now segments.now pieces.now (λ modules k cs. IfOk result
        (λ firsts. AreTied firsts.items (spec.bodies k cs))) }
{
    let mut begins = vec![in alloc; None; segments.list.len()]?;
    let mut firsts = Vec::with_capacity(alloc, count_of(pieces))?;
    let mut is_repeated = false;
    for piece in pieces {
        let first = segments.list[piece.segment].first;
        let begin = match begins[first] {
            Some(begin) => {
                is_repeated = true;
                begin
            }
            None => firsts.len(),
        };
        begins[first] = Some(begin);
        if !push_indices(&mut firsts, begin, piece.to - piece.from)? {
            return Ok(Vec::new(alloc));
        }
    }
    if is_repeated {
        Ok(firsts)
    } else {
        Ok(Vec::new(alloc))
    }
}

/// Adds so many indices from one on. Answers whether each takes no more than 32 bits.
fn push_indices(firsts: &mut Vec<u32>, begin: usize, count: usize) -> Result<bool, AllocError>
    ensures { IfOk result (λ b. b ≡ true → firsts.new.items ≡ firsts.old.items
        ++ numbers_from begin count) }
{
    for offset in 0..count {
        let Ok(index) = u32::try_from(begin.saturating_add(offset)) else {
            return Ok(false);
        };
        firsts.push(index)?;
    }
    Ok(true)
}
