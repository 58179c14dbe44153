// Scopes, and the places of units in them.
ghost use Rattle.std.specs.Prelude.{◌≡◌};
ghost use Rattle.rn_scopes.specs.ScopeEntries.{entry_of};

use crate::namespaces::Namespaces;
use crate::own_names::Names;
use rn_outline::FilePartKind;
use std::collections::BTreeMap;

/// The scope of the roots, whose names are as they are written.
pub const ROOT: usize = 0;

/// A grammar in its surroundings, or a pattern that is a file.
#[derive(Drop)]
pub struct Scope {
    /// What is before the dot of the scope's names; nothing, for the roots.
    pub stem: String,
    /// The index of the scope that references mean: itself, for a grammar; that around it, for a pattern.
    pub reference_scope: usize,
    /// The index of the scope that `parent` means.
    pub parent: Option<usize>,
    /// The index of the namespace that the scope inherits.
    pub(crate) namespace: usize,
    /// The index of the scope's first place, which brings in the others.
    pub entry: usize,
    /// The name of the module that brings the scope in; nothing, for the roots.
    pub module: String,
    /// The index of the file that has the external or nested grammar for which the scope was made.
    pub file: usize,
    /// The byte of that file's text where the external or the grammar begins.
    pub at: usize,
}

/// A unit in a scope, which becomes a module.
#[derive(Drop)]
pub struct PlacedUnit {
    /// The index of the unit.
    pub unit: usize,
    /// The index of the scope.
    pub scope: usize,
    /// The index of the namespace that the unit inherits; 0, where the unit does not need it.
    pub(crate) namespace: usize,
    /// The name of the module.
    pub module: String,
    /// What the parts of the unit lead to, in their order.
    pub links: Vec<Link>,
}

/// What a part leads to: an include to a place; an external and a nested grammar to a scope.
#[derive(Clone, Copy)]
pub struct Link {
    /// The index of the part in its file's outline.
    pub part: usize,
    /// The index of the place or the scope that the part leads to.
    pub to: usize,
}

#[derive(Clone, Copy, PartialEq, Eq, PartialOrd, Ord, Drop)]
pub(crate) struct ScopeKey {
    pub(crate) unit: usize,
    pub(crate) namespace: usize,
    pub(crate) around: Option<usize>,
}

#[derive(Clone, Copy, PartialEq, Eq, PartialOrd, Ord, Drop)]
pub(crate) struct PlacedUnitKey {
    pub(crate) unit: usize,
    pub(crate) namespace: usize,
    pub(crate) scope: usize,
}

/// Which modules files become, and what leads where.
#[derive(Drop)]
pub struct Plan {
    /// The scopes, of which the first is that of the roots.
    pub scopes: Vec<Scope>,
    /// The places, in the order in which they were reached from the roots.
    pub places: Vec<PlacedUnit>,
    /// The places of the roots.
    pub roots: Vec<usize>,
    pub(crate) namespaces: Namespaces,
    /// The names generated for scopes and modules.
    pub names: Names,
    pub(crate) scope_numbers: BTreeMap<ScopeKey, usize>,
    pub(crate) place_numbers: BTreeMap<PlacedUnitKey, usize>,
}

impl Plan {
    /// The index of the scope that `parent` means in a scope.
    pub fn parent_of(&self, scope: usize) -> Option<usize> {
        self.scopes.get(scope)?.parent
    }

    /// The namespace that a scope inherits.
    pub fn namespace_of(&self, scope: &Scope) -> &str {
        self.namespaces.uri(scope.namespace)
    }

    /// The name of the module of a scope's first place.
    pub fn entry_of(&self, scope: &Scope) -> &str
        ensures { result.now ≡ entry_of self.now scope.now }
    {
        match self.places.get(scope.entry) {
            Some(place) => place.module.as_str(),
            None => "",
        }
    }

    /// The index of the scope that references in a scope mean.
    pub fn reference_scope_of(&self, scope: usize) -> usize
        ensures { scope ≡ ROOT → result ≡ ROOT }
    {
        if scope == ROOT {
            return ROOT;
        }
        match self.scopes.get(scope) {
            Some(scope) => scope.reference_scope,
            None => ROOT,
        }
    }

    /// What is before the dot of names in a scope.
    pub fn stem_of(&self, scope: usize) -> &str {
        match self.scopes.get(scope) {
            Some(scope) => scope.stem.as_str(),
            None => "",
        }
    }

    /// The index of the scope in which a part of a place means a name, or the start.
    pub fn scope_meant(&self, place: usize, part: usize, kind: &FilePartKind) -> Option<usize> {
        let scope = self.places.get(place)?.scope;
        match kind {
            FilePartKind::Reference { .. } => Some(self.reference_scope_of(scope)),
            FilePartKind::Parent { .. } => self.parent_of(scope),
            FilePartKind::External { .. } | FilePartKind::Grammar { .. } => self.leads_to(
                place, part,
            ),
            _ => None,
        }
    }

    /// The index of the place or the scope that a part of a place leads to; `None` where it leads to none.
    pub fn leads_to(&self, place: usize, part: usize) -> Option<usize> {
        let links = self.places.get(place)?.links.as_slice();
        let number = links.binary_search_by(|link| link.part.cmp(&part)).ok()?;
        Some(links.get(number)?.to)
    }
}
