// Which definitions a name has in a scope, once overrides are done (RELAX NG 2001, 4.7).

use rn_outline::FilePartKind;
use rn_scopes::{Plan, ROOT, Unit, Units};
use std::alloc::{AllocError, Global};
use std::collections::{BTreeMap, BTreeSet};

/// A name in a scope; the empty one is the start.
#[derive(PartialEq, Eq, PartialOrd, Ord, Drop)]
pub(crate) struct ScopedName {
    scope: usize,
    name: String,
}

impl ScopedName {
    pub(crate) fn new(alloc: Global, scope: usize, name: &str) -> Result<Self, AllocError> {
        Ok(ScopedName {
            scope,
            name: String::from_str(alloc, name)?,
        })
    }

    pub(crate) fn copy(&self, alloc: Global) -> Result<Self, AllocError> {
        ScopedName::new(alloc, self.scope, self.name.as_str())
    }
}

/// A part that is a definition, at a place.
#[derive(Clone, Copy)]
pub(crate) struct Definition {
    pub(crate) place: usize,
    pub(crate) part: usize,
    /// The part that is its include, for an override.
    within: Option<usize>,
}

#[derive(Drop)]
pub(crate) struct Definitions {
    /// The definitions of each name, in the order of places and parts; once the overridden ones are dropped, in the
    /// order of a walk.
    rows: BTreeMap<ScopedName, Vec<Definition>>,
    /// The names of which overridden definitions are not dropped yet.
    overridden: BTreeSet<ScopedName>,
}

impl Definitions {
    /// All definitions of all places; none, where no reference is in an except.
    pub(crate) fn of(alloc: Global, units: &Units<'_>, plan: &Plan) -> Result<Self, AllocError> {
        let mut definitions = Definitions {
            rows: BTreeMap::new(alloc),
            overridden: BTreeSet::new(alloc),
        };
        if !units.have_excepts() {
            return Ok(definitions);
        }
        for (number, place) in plan.places.iter().enumerate() {
            if let Some(unit) = units.units.get(place.unit) {
                definitions.add_place(alloc, units, unit, number, place.scope)?;
            }
        }
        Ok(definitions)
    }

    fn add_place(
        &mut self,
        alloc: Global,
        units: &Units<'_>,
        unit: &Unit,
        place: usize,
        scope: usize,
    ) -> Result<(), AllocError> {
        for number in &unit.parts {
            let Some(part) = units.part(unit, *number) else {
                continue;
            };
            let within = match &part.kind {
                FilePartKind::Define { within, .. } | FilePartKind::Start { within, .. } => *within,
                _ => continue,
            };
            let key = ScopedName::new(alloc, scope, units.name_meant(unit.file, &part.kind))?;
            let definition = Definition {
                place,
                part: *number,
                within,
            };
            self.add(alloc, key, definition)?;
        }
        Ok(())
    }

    fn add(
        &mut self,
        alloc: Global,
        key: ScopedName,
        definition: Definition,
    ) -> Result<(), AllocError> {
        if definition.within.is_some() {
            self.overridden.insert(key.copy(alloc)?)?;
        }
        if let Some(row) = self.rows.get_mut(&key) {
            return Ok(row.push(definition)?);
        }
        let mut row = Vec::new(alloc);
        row.push(definition)?;
        self.rows.insert(key, row)?;
        Ok(())
    }

    /// The definitions of a name that no include overrides.
    pub(crate) fn standing_definitions(
        &mut self,
        alloc: Global,
        units: &Units<'_>,
        plan: &Plan,
        key: &ScopedName,
    ) -> Result<&[Definition], AllocError> {
        if self.overridden.contains(key) {
            self.drop_overridden(alloc, units, plan, key)?;
        }
        match self.rows.get(key) {
            Some(row) => Ok(row.as_slice()),
            None => Ok(&[]),
        }
    }

    /// Keeps the live definitions of an overridden name alone. It is done once for each name.
    fn drop_overridden(
        &mut self,
        alloc: Global,
        units: &Units<'_>,
        plan: &Plan,
        key: &ScopedName,
    ) -> Result<(), AllocError> {
        if let Some(row) = self.rows.get_mut(key) {
            *row = found_by_walk(alloc, units, plan, row.as_slice(), key.scope)?;
        }
        self.overridden.remove(key);
        Ok(())
    }
}

/// Of the definitions of a name in a scope, those to which includes lead that don't override it.
fn found_by_walk(
    alloc: Global,
    units: &Units<'_>,
    plan: &Plan,
    all: &[Definition],
    scope: usize,
) -> Result<Vec<Definition>, AllocError> {
    let mut walk = Walk::new(alloc, plan, scope)?;
    for _ in 0..plan.places.len() {
        let Some(number) = walk.waiting.pop() else {
            break;
        };
        walk.visit(units, plan, all, number)?;
    }
    Ok(walk.found)
}

/// A walk along includes, from the places that bring in a scope.
#[derive(Drop)]
struct Walk {
    waiting: Vec<usize>,
    is_seen: Vec<bool>,
    found: Vec<Definition>,
}

impl Walk {
    fn new(alloc: Global, plan: &Plan, scope: usize) -> Result<Self, AllocError> {
        let mut walk = Walk {
            waiting: Vec::new(alloc),
            is_seen: vec![in alloc; false; plan.places.len()]?,
            found: Vec::new(alloc),
        };
        if scope == ROOT {
            for root in &plan.roots {
                walk.add(*root)?;
            }
        } else if let Some(scope) = plan.scopes.get(scope) {
            walk.add(scope.entry)?;
        }
        Ok(walk)
    }

    /// Adds a place to what waits, once.
    fn add(&mut self, place: usize) -> Result<(), AllocError> {
        if let Some(is_seen) = self.is_seen.get_mut(place) {
            if !*is_seen {
                *is_seen = true;
                self.waiting.push(place)?;
            }
        }
        Ok(())
    }

    /// Finds the definitions of a place, and goes on along its includes that don't override the name.
    fn visit(
        &mut self,
        units: &Units<'_>,
        plan: &Plan,
        all: &[Definition],
        number: usize,
    ) -> Result<(), AllocError> {
        let Some(place) = plan.places.get(number) else {
            return Ok(());
        };
        let here = definitions_of_place(all, number);
        for definition in here {
            self.found.push(*definition)?;
        }
        for link in &place.links {
            let is_open = here
                .iter()
                .all(|definition| definition.within != Some(link.part));
            if is_open && units.is_include(place.unit, link.part) {
                self.add(link.to)?;
            }
        }
        Ok(())
    }
}

/// Of definitions in the order of places, those of a place.
fn definitions_of_place(all: &[Definition], place: usize) -> &[Definition] {
    let from = all.partition_point(|definition| definition.place < place);
    let to = all.partition_point(|definition| definition.place <= place);
    all.get(from..to).unwrap_or(&[])
}
