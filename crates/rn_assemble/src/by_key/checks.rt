// What stands against combining the components of keys (RELAX NG 2001, 4.7, 4.17 and 4.18).
ghost use Rattle.std.specs.Prelude.{◌≡◌, ◌<◌, ◌↔◌, Contains, List, IfOk, IfSome, IsTrue, MatchResult, count_by, length, map};
ghost use Rattle.std.specs.List.{list_any};
ghost use Rattle.std.specs.List.Sorted.{IsStrictlySortedBy};
ghost use Rattle.rn_text.specs.Texts.{Text, text_cmp};
ghost use Rattle.rn_assemble.specs.declared.reading.key_rows.WrittenComponent as code;
ghost use Rattle.rn_assemble.specs.declared.including.segments.FollowedInclude.{FollowedInclude};
ghost use Rattle.rn_assemble.specs.Combine as spec;
ghost use Rattle.rn_assemble.specs.Components as specs;
ghost use Rattle.rn_assemble.specs.Refusal.{Lacks};
ghost use Rattle.rn_assemble.specs.inside.Bringing.{IsLackIn};
ghost use Rattle.rn_assemble.specs.inside.Checked.{IsLacking};
ghost use Rattle.rn_assemble.specs.inside.Lacking.{IsLeastLack, IsLesser};
ghost use Rattle.rn_assemble.specs.inside.Methods.{CanCombine, HasFault, IsLeastNumber, IsUncombined, is_method};
ghost use Rattle.rn_assemble.specs.inside.Pieces.{AreKnown, AreKnownBy, AreSomePieces, OfKeys, OfRows, WithPieces};
ghost use Rattle.rn_assemble.specs.inside.Rows.{AreRows};
ghost use Rattle.rn_assemble.specs.inside.Segments.{AreSegmentsOf};
ghost use Rattle.rn_assemble.specs.inside.Views.{AreInOrder, AreNamed, names_of};

use crate::including::pieces::Piece;
use crate::including::segments::Segments;
use crate::reading::key_rows::{KeyRows, WrittenComponent};
use crate::reading::keys::{KeyId, Keys, START};
use crate::reading::named_modules::{ModuleId, NamedModule};
use crate::refusal::Refusal;
use rn_syntax::Method;
use std::alloc::{AllocError, Global};

/// An include of a module that has no component of a key which the include's own components have.
#[derive(Clone, Copy)]
pub(crate) struct Lack {
    pub module: ModuleId,
    pub key: KeyId,
}

/// What stands against combining the components of a key (RELAX NG 2001, 4.17).
#[derive(Clone, Copy)]
enum MethodFault {
    /// Two of them are plain.
    PlainTwice,
    /// They use both methods.
    Mixed,
}

/// Refuses the least override of what isn't there: the least module, and the least key of it (RELAX NG 2001, 4.7).
pub(crate) fn check_overrides(
    alloc: Global,
    modules: &[NamedModule<'_>],
    keys: &Keys<'_>,
    rows: &KeyRows<'_>,
    segments: &Segments<'_, '_, '_>,
) -> Result<(), Refusal>
    requires in_order { AreInOrder modules.now }
    requires known { AreKnownBy (names_of keys.now) rows.now segments.now }
    requires named { (ms : List specs.NamedModule) × AreNamed ms modules.now
        × ((b : FollowedInclude) → Contains segments.now.brought.items b
        → b.«module».0 < length ms) }
    ensures { (ms : List specs.NamedModule) (cs : List specs.Component) → AreNamed ms modules.now
        → IsStrictlySortedBy text_cmp (names_of keys.now)
        → AreRows ms (names_of keys.now) rows.now.rows.items → AreSegmentsOf ms segments.now cs
        → ((y : Text) (k : specs.Key) → IsLackIn ms segments.now.list.items
        segments.now.brought.items y k ↔ Lacks ms y k)
        → MatchResult result (λ _. (y : Text) (k : specs.Key) → ¬ Lacks ms y k) (IsLacking ms) }
{
    match least_lack(alloc, rows, segments)? {
        None => Ok(()),
        Some(lack) => Err(Refusal::Override {
            module: String::from_str(alloc, modules[lack.module.0].name)?,
            key: keys.key(alloc, lack.key)?,
        }),
    }
}

/// The least override of what isn't there: of the least module, the least key.
fn least_lack(
    alloc: Global,
    rows: &KeyRows<'_>,
    segments: &Segments<'_, '_, '_>,
) -> Result<Option<Lack>, AllocError>
    requires { AreKnown rows.now segments.now }
    ensures within { IfOk result (λ o. IfSome o (λ l. (l.key.0 < length rows.now.rows.items)
        × ((b : FollowedInclude) × Contains segments.now.brought.items b
        × (b.«module».0 ≡ l.«module».0)))) }
    ensures least { (ms : List specs.NamedModule) (names : List Text) (cs : List specs.Component)
        → IsStrictlySortedBy text_cmp (map (λ (m : specs.NamedModule). m.name) ms)
        → IsStrictlySortedBy text_cmp names
        → AreRows ms names rows.now.rows.items → AreSegmentsOf ms segments.now cs
        → IfOk result (IsLeastLack ms names (IsLackIn ms segments.now.list.items
        segments.now.brought.items)) }
{
    let mut least: Option<Lack> = None;
    let mut pieces = Vec::new(alloc);
    for number in 0..rows.len() {
        let row = rows.row(KeyId(number));
        segments.all_pieces(row, &mut pieces)?;
        if let Some(module) = segments.least_lacking(row, &pieces) {
            let key = KeyId(number);
            least = Some(lesser_lack(least, Lack { module, key }));
        }
    }
    Ok(least)
}

/// The lack of the lesser module; of one module, the one that was met before.
fn lesser_lack(held: Option<Lack>, other: Lack) -> Lack
    ensures { IsLesser held other result }
{
    match held {
        Some(held) if held.module <= other.module => held,
        _ => other,
    }
}

/// Refuses the least key with two plain components, the least with both methods, and components without a start
/// (RELAX NG 2001, 4.17 and 4.18).
pub(crate) fn check_methods(
    alloc: Global,
    keys: &Keys<'_>,
    rows: &KeyRows<'_>,
    segments: &Segments<'_, '_, '_>,
) -> Result<(), Refusal>
    requires { AreKnownBy (names_of keys.now) rows.now segments.now }
    ensures { OfKeys keys.now rows.now segments.now
        (λ names cs. MatchResult result (λ _. CanCombine cs) (IsUncombined cs)) }
{
    if let Some(key) = least_at_fault(alloc, MethodFault::PlainTwice, rows, segments)? {
        return Err(Refusal::PlainTwice {
            key: keys.key(alloc, key)?,
        });
    }
    if let Some(key) = least_at_fault(alloc, MethodFault::Mixed, rows, segments)? {
        return Err(Refusal::MixedMethods {
            key: keys.key(alloc, key)?,
        });
    }
    let mut pieces = Vec::new(alloc);
    segments.live_pieces(rows.row(START), &mut pieces)?;
    if pieces.is_empty() {
        return Err(Refusal::NoStart);
    }
    Ok(())
}

/// The least key that has the fault.
fn least_at_fault(
    alloc: Global,
    fault: MethodFault,
    rows: &KeyRows<'_>,
    segments: &Segments<'_, '_, '_>,
) -> Result<Option<KeyId>, AllocError>
    requires { AreKnown rows.now segments.now }
    ensures { OfRows rows.now segments.now (λ names cs. IfOk result
        (IsLeastNumber names (HasFault fault cs))) }
{
    let mut pieces = Vec::new(alloc);
    for number in 0..rows.len() {
        let row = rows.row(KeyId(number));
        segments.live_pieces(row, &mut pieces)?;
        if has_fault(fault, row, &pieces) {
            return Ok(Some(KeyId(number)));
        }
    }
    Ok(None)
}

/// Whether the components of these pieces have the fault.
fn has_fault(fault: MethodFault, row: &[WrittenComponent<'_>], pieces: &[Piece]) -> bool
    requires { AreSomePieces row.now pieces.now }
    ensures { WithPieces row.now pieces.now (λ k cs. IsTrue result ↔ HasFault fault cs k) }
{
    match fault {
        MethodFault::PlainTwice => is_plain_twice(row, pieces),
        MethodFault::Mixed => is_mixed(row, pieces),
    }
}

/// Whether two components of these pieces are plain.
fn is_plain_twice(row: &[WrittenComponent<'_>], pieces: &[Piece]) -> bool
    requires { AreSomePieces row.now pieces.now }
    ensures { WithPieces row.now pieces.now (λ k cs. IsTrue result ↔ spec.IsPlainTwice k cs) }
{
    let mut count = 0usize;
    for piece in pieces {
        count = count.saturating_add(count_plain(&row[piece.from..piece.to]));
    }
    count > 1
}

/// Whether components of these pieces use both methods.
fn is_mixed(row: &[WrittenComponent<'_>], pieces: &[Piece]) -> bool
    requires { AreSomePieces row.now pieces.now }
    ensures { WithPieces row.now pieces.now (λ k cs. IsTrue result ↔ spec.IsMixed k cs) }
{
    uses(Method::Choice, row, pieces) && uses(Method::Interleave, row, pieces)
}

/// How many of the components are plain.
fn count_plain(components: &[WrittenComponent<'_>]) -> usize
    ensures { result
        ≡ count_by (λ (w : code.WrittenComponent). spec.is_plain w.method) components.now }
{
    let mut count = 0usize;
    for component in components {
        if component.method == Method::Plain {
            count = count.saturating_add(1);
        }
    }
    count
}

/// Whether some component of these pieces uses the method.
pub(crate) fn uses(method: Method, row: &[WrittenComponent<'_>], pieces: &[Piece]) -> bool
    requires { AreSomePieces row.now pieces.now }
    ensures { WithPieces row.now pieces.now (λ k cs. result ≡ spec.uses (is_method method) k cs) }
{
    for piece in pieces {
        if some_uses(method, &row[piece.from..piece.to]) {
            return true;
        }
    }
    false
}

/// Whether some of the components uses the method.
fn some_uses(method: Method, components: &[WrittenComponent<'_>]) -> bool
    ensures { result
        ≡ list_any (λ (w : code.WrittenComponent). is_method method w.method) components.now }
{
    components.iter().any(|component: &WrittenComponent<'_>| component.method == method)
}
