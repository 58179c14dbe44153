// What a set is made of, and what stands against it.
ghost use Rattle.std.specs.Prelude.{◌≡◌, ◌+◌, ◌<◌, ◌∷◌, [], IfErr, IfOk, List, length};
ghost use Rattle.std.specs.List.{AllByRecursion};
ghost use Rattle.rn_assemble.specs.Components as specs;
ghost use Rattle.rn_assemble.specs.Diagnosed.{AreFindings, ArePlaced, IsFirstFinding, IsTrueFor, key_names};
ghost use Rattle.rn_assemble.specs.Refusal as refusals;
ghost use Rattle.rn_assemble.specs.Refusal.{AreModules, IsFirst};
ghost use Rattle.rn_assemble.specs.Refused.{IsFirstRefusal};
ghost use Rattle.rn_assemble.specs.inside.Checked.{IsFirstOfModules};
ghost use Rattle.rn_assemble.specs.inside.Contained.{AreFlat};
ghost use Rattle.rn_assemble.specs.inside.Pieces.{AreKnownBy, IsKnownRow};
ghost use Rattle.rn_assemble.specs.inside.Views.{AreInOrder, modules_view, names_of, texts_of};

use super::findings::{Finding, findings};
use super::left_definitions::left_definitions;
use super::loops::loop_of;
use super::occurrences::{depths_of, first_two};
use super::places::{ComponentPlace, LeftDefinition};
use crate::including::inclusion::included_roots;
use crate::including::segments::Segments;
use crate::reading::contents::contents_of;
use crate::reading::key_rows::{KeyRows, WrittenComponent};
use crate::reading::keys::{KeyId, Keys, START, seed_of};
use crate::reading::named_modules::{NamedModule, read_modules, split_items};
use crate::refusal::{Key, Refusal};
use crate::resolving::constants::Constants;
use rn_modset::ModuleSet;
use rn_pattern::Seed;
use std::alloc::{AllocError, Global};

/// The definitions of a set, and what stands against it.
#[derive(Drop)]
pub struct Diagnosis<'s> {
    /// The name of each key, in the order of keys; no bytes for the start, which is the first.
    pub names: Vec<&'s str>,
    /// The definitions that are left, each once, in the order in which they are combined.
    pub definitions: Vec<LeftDefinition>,
    /// What stands against the set, of the kinds of which all can be found; in the order in which it is refused for them.
    pub findings: Vec<Finding<'s>>,
    /// Of a refusal for a loop, the definitions of a shortest one; for a name class, the first definition of its key; else
    /// nothing.
    pub way: Vec<ComponentPlace>,
}

impl<'s> Diagnosis<'s> {
    /// The name of a key: no bytes for the start, and for a key of another set.
    pub fn name(&self, key: KeyId) -> &'s str {
        match self.names.get(key.0) {
            Some(name) => name,
            None => "",
        }
    }

    /// The names that have a definition which is left, in order.
    pub fn defined_names(&self, alloc: Global) -> Result<Vec<&'s str>, AllocError> {
        let is_defined = self.defined_marks(alloc)?;
        let mut names = Vec::new(alloc);
        for number in START.0 + 1..self.names.len() {
            if is_defined.get(number).copied().unwrap_or(false) {
                names.push(self.names[number])?;
            }
        }
        Ok(names)
    }

    /// For each key, whether it has a definition which is left.
    fn defined_marks(&self, alloc: Global) -> Result<Vec<bool>, AllocError> {
        let mut marks = vec![in alloc; false; self.names.len()]?;
        for definition in &self.definitions {
            if let Some(mark) = marks.get_mut(definition.key.0) {
                *mark = true;
            }
        }
        Ok(marks)
    }
}

/// The definitions of a set, all that stands against it, and where a refusal of it is, if one is given. The first finding is
/// the set's refusal, where that is of a kind of which all can be found. Refused as [`assemble`](crate::assemble) refuses
/// the set for its texts and includes; `Memory` where memory runs out.
pub fn diagnose<'s>(
    alloc: Global,
    set: &'s ModuleSet,
    refusal: Option<&Refusal>,
) -> Result<Diagnosis<'s>, Refusal>
    ensures err { IfErr result (IsFirstRefusal set.now) }
    ensures findings { (modules : List specs.NamedModule) → AreModules set.now modules → IfOk result
        (λ d. AreFindings modules (key_names d) d.findings.items) }
    ensures first { (modules : List specs.NamedModule) (r : refusals.Refusal)
        → AreModules set.now modules → IsFirst set.now r → IsTrueFor modules r → IfOk result
        (λ d. IsFirstFinding modules (key_names d) d.findings.items r) }
    ensures places { (modules : List specs.NamedModule) → AreModules set.now modules → IfOk result
        (λ d. ArePlaced modules (key_names d) d.findings.items) }
{
    let modules = read_modules(alloc, set)?;
    diagnose_modules(alloc, modules, refusal, &seed_of(set))
}

/// The definitions of the modules, and what stands against them. The names of definitions are hashed by the seed.
fn diagnose_modules<'s>(
    alloc: Global,
    modules: Vec<NamedModule<'s>>,
    refusal: Option<&Refusal>,
    seed: &Seed,
) -> Result<Diagnosis<'s>, Refusal>
    requires in_order { AreInOrder modules.items }
    requires flat { AllByRecursion (λ (m : specs.NamedModule). AreFlat m.tree.items)
        (modules_view modules.items) }
    ensures err { IfErr result (IsFirstOfModules (modules_view modules.entry.items)) }
    ensures findings { IfOk result (λ d. AreFindings (modules_view modules.entry.items)
        (key_names d) d.findings.items) }
    ensures places { IfOk result (λ d. ArePlaced (modules_view modules.entry.items)
        (key_names d) d.findings.items) }
{
    let roots = included_roots(alloc, modules.as_slice())?;
    let keys = Keys::new(alloc, modules.as_slice(), seed)?;
    let constants = Constants::new(alloc)?;
    let (modules, items) = split_items(alloc, modules)?;
    let (contents, rows) = contents_of(alloc, modules.as_slice(), items, &keys, &constants)?;
    let segments = Segments::of_roots(alloc, contents.as_slice(), &constants, roots.as_slice())?;
    Ok(Diagnosis {
        names: names_of_keys(alloc, &keys)?,
        definitions: left_definitions(alloc, &rows, &segments)?,
        findings: findings(alloc, &keys, &rows, &segments)?,
        way: way_of(alloc, &keys, &rows, &segments, refusal)?,
    })
}

/// The name of each key.
fn names_of_keys<'s>(alloc: Global, keys: &Keys<'s>) -> Result<Vec<&'s str>, AllocError>
    ensures { IfOk result (λ names. texts_of names.items ≡ [] ∷ names_of keys.now) }
{
    let mut names = Vec::with_capacity(alloc, keys.len())?;
    names.push("")?;
    for number in START.0 + 1..keys.len() {
        names.push(keys.name(KeyId(number)))?;
    }
    Ok(names)
}

/// Where a refusal is of which not all can be found.
fn way_of<'s>(
    alloc: Global,
    keys: &Keys<'s>,
    rows: &KeyRows<'s>,
    segments: &Segments<'_, '_, '_>,
    refusal: Option<&Refusal>,
) -> Result<Vec<ComponentPlace>, AllocError>
    requires { AreKnownBy (names_of keys.now) rows.now segments.now }
{
    match refusal {
        Some(Refusal::Recursive { name }) => loop_of(alloc, keys, rows, segments, name),
        Some(Refusal::NameClass { key }) => {
            first_of(alloc, rows.row(number_of(keys, key)), segments)
        }
        _ => Ok(Vec::new(alloc)),
    }
}

/// The number of a key; of a name that no module defines, that of start.
fn number_of(keys: &Keys<'_>, key: &Key) -> KeyId
    ensures { result.0 < length (names_of keys.now) + 1 }
{
    match key {
        Key::Start => START,
        Key::Define(name) => keys.find(name).unwrap_or(START),
    }
}

/// The first definition of a key that is left, if there is one.
fn first_of(
    alloc: Global,
    row: &[WrittenComponent<'_>],
    segments: &Segments<'_, '_, '_>,
) -> Result<Vec<ComponentPlace>, AllocError>
    requires { IsKnownRow row.now segments.now }
{
    let mut pieces = Vec::new(alloc);
    segments.live_pieces(row, &mut pieces)?;
    let depths = depths_of(alloc, segments)?;
    let found = first_two(alloc, row, &pieces, &depths, None)?;
    let mut places = Vec::new(alloc);
    if let Some(first) = found.first() {
        places.push(ComponentPlace::of(&row[first.index]))?;
    }
    Ok(places)
}
