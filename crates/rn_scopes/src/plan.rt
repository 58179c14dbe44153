// From the roots to a plan: the scopes and places that they make, and the links between them (RELAX NG 2001, 4.6, 4.7).
ghost use Rattle.std.specs.Prelude.{IfOk, string_bytes};
ghost use Rattle.rn_scopes.specs.UnitFiles.{files_of};
ghost use Rattle.rn_scopes.specs.FreeNames.{AreFree};

use crate::free_names::are_free;
use crate::lift_fault::{LiftFault, LiftFaultKind};
use crate::linking::{Here, NamedFile, fault};
use crate::marks::is_marked;
use crate::namespaces::Namespaces;
use crate::own_names::Names;
use crate::root_includes::included_files;
use crate::scopes::{Link, PlacedUnit, PlacedUnitKey, Plan, ROOT, Scope, ScopeKey};
use crate::units::Units;
use rn_outline::{FilePart, FilePartKind, Span};
use std::alloc::{AllocError, Global};
use std::collections::BTreeMap;

/// The most modules that files may make, without those that bring in scopes: as many as a set has contributions,
/// `MAX_CONTRIBUTIONS` of rn_modset, which this crate does not use.
pub const MAX_PLACES: usize = 1_024;

/// Which modules files become, of which some are roots: the scopes and places that the roots make,
/// with all that they lead to (RELAX NG 2001, 4.6, 4.7, 4.18). Files that no root reaches have no
/// place.
///
/// Refused with the first fault: `NoFile`, `IncludedPattern`, `Prefix`, `NoParent`, `Many`, in the
/// order of places and parts; `Outline` where a nested grammar's number is none of its outline;
/// `Unsound` where a generated name is not free. `Memory` comes only where memory runs out.
pub fn make_plan(alloc: Global, units: &Units<'_>, roots: &[usize]) -> Result<Plan, LiftFault>
    ensures free { IfOk result (λ p.
        AreFree (files_of units.now) p.names.made_stems (string_bytes p.names.start)) }
{
    let mut plan = Plan::new(alloc, units)?;
    plan.add_roots(alloc, units, roots)?;
    plan.link_all(alloc, units)?;
    plan.name_scopes(alloc)?;
    if are_free(units, &plan.names) {
        Ok(plan)
    } else {
        Err(fault(0, 0, LiftFaultKind::Unsound))
    }
}

impl Plan {
    fn new(alloc: Global, units: &Units<'_>) -> Result<Self, LiftFault> {
        let mut scopes = Vec::new(alloc);
        scopes.push(Scope {
            stem: String::new(alloc),
            reference_scope: ROOT,
            parent: None,
            namespace: 0,
            entry: 0,
            module: String::new(alloc),
            file: 0,
            at: 0,
        })?;
        Ok(Plan {
            scopes,
            places: Vec::new(alloc),
            roots: Vec::new(alloc),
            namespaces: Namespaces::new(alloc)?,
            names: Names::of(alloc, units)?,
            scope_numbers: BTreeMap::new(alloc),
            place_numbers: BTreeMap::new(alloc),
        })
    }

    fn add_roots(
        &mut self,
        alloc: Global,
        units: &Units<'_>,
        roots: &[usize],
    ) -> Result<(), LiftFault> {
        let included = included_files(alloc, units, roots)?;
        for root in roots {
            self.add_root(alloc, units, *root, included.as_slice())?;
        }
        Ok(())
    }

    /// Makes the links of all places, those that are made on the way too. There are never more than [`MAX_PLACES`].
    fn link_all(&mut self, alloc: Global, units: &Units<'_>) -> Result<(), LiftFault> {
        for number in 0..MAX_PLACES {
            if number >= self.places.len() {
                break;
            }
            self.link(alloc, units, number)?;
        }
        Ok(())
    }

    /// Names the modules that bring in scopes.
    fn name_scopes(&mut self, alloc: Global) -> Result<(), AllocError> {
        for scope in self.scopes.iter_mut().skip(1) {
            scope.module = self.names.entry(alloc, scope.stem.as_str())?;
        }
        Ok(())
    }

    /// Adds the place of a root. One that a root includes has its places there, where it needs the
    /// namespace that it inherits.
    fn add_root(
        &mut self,
        alloc: Global,
        units: &Units<'_>,
        file: usize,
        included: &[bool],
    ) -> Result<(), LiftFault> {
        let Some(unit) = units.number(file, 0) else {
            return Ok(());
        };
        if units.needs_namespace(unit) && is_marked(included, file) {
            return Ok(());
        }
        let place = self.place(alloc, units, unit, ROOT, 0)?;
        self.roots.push(place)?;
        Ok(())
    }

    /// Makes the links of a place, and the scopes and places that they lead to.
    fn link(&mut self, alloc: Global, units: &Units<'_>, place: usize) -> Result<(), LiftFault> {
        let Some(here) = self.here(units, place) else {
            return Ok(());
        };
        let Some(unit) = units.units.get(here.unit) else {
            return Ok(());
        };
        for number in &unit.parts {
            if let Some(part) = units.part(unit, *number) {
                let target = units.target(unit, *number);
                self.link_part(alloc, units, here, *number, target, part)?;
            }
        }
        Ok(())
    }

    fn here(&self, units: &Units<'_>, place: usize) -> Option<Here> {
        let PlacedUnit {
            unit,
            scope,
            namespace,
            ..
        } = self.places.get(place)?;
        Some(Here {
            place,
            unit: *unit,
            scope: *scope,
            namespace: *namespace,
            file: units.units.get(*unit)?.file,
        })
    }

    fn link_part(
        &mut self,
        alloc: Global,
        units: &Units<'_>,
        here: Here,
        number: usize,
        target: Option<usize>,
        part: &FilePart,
    ) -> Result<(), LiftFault> {
        let to = match &part.kind {
            FilePartKind::Include {
                inherit,
                literal_at,
                ..
            } => {
                let named = NamedFile::new(target, *inherit, literal_at.from);
                self.included_place(alloc, units, here, named)?
            }
            FilePartKind::External {
                inherit,
                literal_at,
                ..
            } => {
                let named = NamedFile::new(target, *inherit, literal_at.from);
                self.placed_scope(alloc, units, here, named)?
            }
            FilePartKind::Grammar { number, .. } => {
                self.nested_scope(alloc, units, here, *number, part.at.from)?
            }
            FilePartKind::Parent { .. } => return self.has_parent(here, part.at.from),
            _ => return Ok(()),
        };
        self.add_link(here.place, number, to)
    }

    fn add_link(&mut self, place: usize, part: usize, to: usize) -> Result<(), LiftFault> {
        if let Some(place) = self.places.get_mut(place) {
            place.links.push(Link { part, to })?;
        }
        Ok(())
    }

    /// Whether there is a grammar around that of a place.
    fn has_parent(&self, here: Here, at: usize) -> Result<(), LiftFault> {
        match self.scopes.get(here.scope) {
            Some(Scope { parent: None, .. }) => {
                Err(fault(here.file, at, LiftFaultKind::NoParent))
            }
            _ => Ok(()),
        }
    }

    /// The place that an include leads to.
    fn included_place(
        &mut self,
        alloc: Global,
        units: &Units<'_>,
        here: Here,
        named: NamedFile,
    ) -> Result<usize, LiftFault> {
        let unit = named.unit(units, here)?;
        if units.is_pattern(unit) {
            return Err(fault(here.file, named.at, LiftFaultKind::IncludedPattern));
        }
        let handed = self.handed_namespace(alloc, units, here, named.inherit)?;
        self.place(
            alloc,
            units,
            unit,
            here.scope,
            handed.unwrap_or(here.namespace),
        )
    }

    /// The scope that an external leads to.
    fn placed_scope(
        &mut self,
        alloc: Global,
        units: &Units<'_>,
        here: Here,
        named: NamedFile,
    ) -> Result<usize, LiftFault> {
        let unit = named.unit(units, here)?;
        let Some(namespace) = self.handed_namespace(alloc, units, here, named.inherit)? else {
            let at = named.inherit.map_or(named.at, |prefix| prefix.from);
            return Err(fault(here.file, at, LiftFaultKind::Prefix));
        };
        self.scope(alloc, units, here, unit, namespace, named.at)
    }

    /// The scope that a nested grammar leads to.
    fn nested_scope(
        &mut self,
        alloc: Global,
        units: &Units<'_>,
        here: Here,
        grammar: usize,
        at: usize,
    ) -> Result<usize, LiftFault> {
        match units.number(here.file, grammar) {
            Some(unit) => self.scope(alloc, units, here, unit, here.namespace, at),
            None => Err(fault(here.file, at, LiftFaultKind::Outline)),
        }
    }

    fn handed_namespace(
        &mut self,
        alloc: Global,
        units: &Units<'_>,
        here: Here,
        inherit: Option<Span>,
    ) -> Result<Option<usize>, LiftFault> {
        match units.files.get(here.file) {
            Some(given) => Ok(
                self.namespaces
                    .handed_namespace(alloc, given, inherit, here.namespace)?,
            ),
            None => Ok(None),
        }
    }

    /// The scope of a unit that is placed in another one: there is one for each namespace that it
    /// inherits, and for each grammar around it, where it says `parent` or is a pattern (RELAX NG 2001,
    /// 4.6, 4.18).
    fn scope(
        &mut self,
        alloc: Global,
        units: &Units<'_>,
        here: Here,
        unit: usize,
        namespace: usize,
        at: usize,
    ) -> Result<usize, LiftFault> {
        let around = self.reference_scope_of(here.scope);
        let key = ScopeKey {
            unit,
            namespace,
            around: units.depends_on_around(unit).then_some(around),
        };
        if let Some(number) = self.scope_numbers.get(&key) {
            return Ok(*number);
        }
        let number = self.scopes.len();
        self.scope_numbers.insert(key, number)?;
        let scope = self.made_scope(alloc, units, here, unit, namespace, at)?;
        self.scopes.push(scope)?;
        let entry = self.place(alloc, units, unit, number, namespace)?;
        if let Some(scope) = self.scopes.get_mut(number) {
            scope.entry = entry;
        }
        Ok(number)
    }

    fn made_scope(
        &mut self,
        alloc: Global,
        units: &Units<'_>,
        here: Here,
        unit: usize,
        namespace: usize,
        at: usize,
    ) -> Result<Scope, LiftFault> {
        let around = self.reference_scope_of(here.scope);
        let (reference_scope, parent) = if units.is_pattern(unit) {
            (around, self.parent_of(around))
        } else {
            (self.scopes.len(), Some(around))
        };
        Ok(Scope {
            stem: self.names.stem(alloc, units, unit)?,
            reference_scope,
            parent,
            namespace,
            entry: 0,
            module: String::new(alloc),
            file: here.file,
            at,
        })
    }

    /// The place of a unit in a scope: one for each namespace that it inherits, where it needs that. `Many`, where it
    /// would be one more than [`MAX_PLACES`].
    fn place(
        &mut self,
        alloc: Global,
        units: &Units<'_>,
        unit: usize,
        scope: usize,
        namespace: usize,
    ) -> Result<usize, LiftFault> {
        let namespace = if units.needs_namespace(unit) {
            namespace
        } else {
            0
        };
        let key = PlacedUnitKey {
            unit,
            namespace,
            scope,
        };
        if let Some(number) = self.place_numbers.get(&key) {
            return Ok(*number);
        }
        if self.places.len() >= MAX_PLACES {
            return Err(fault(0, 0, LiftFaultKind::Many));
        }
        let module = self.module_name(alloc, units, unit, scope)?;
        let number = self.places.len();
        self.place_numbers.insert(key, number)?;
        self.places.push(PlacedUnit {
            unit,
            scope,
            namespace,
            module,
            links: Vec::new(alloc),
        })?;
        Ok(number)
    }

    fn module_name(
        &mut self,
        alloc: Global,
        units: &Units<'_>,
        unit: usize,
        scope: usize,
    ) -> Result<String, LiftFault> {
        match self.scopes.get(scope) {
            Some(scope) => Ok(self.names.module(alloc, units, unit, scope.stem.as_str())?),
            None => Ok(String::new(alloc)),
        }
    }
}
