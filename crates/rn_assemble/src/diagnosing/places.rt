// How definitions and includes of modules are named: by numbers.
ghost use Rattle.std.specs.Prelude.{◌≡◌};
ghost use Rattle.rn_assemble.specs.inside.Diagnosing.{place_of};

use crate::reading::key_rows::WrittenComponent;
use crate::reading::keys::KeyId;
use crate::reading::named_modules::ModuleId;

/// A definition of a module: a define or a start.
#[derive(Clone, Copy, Debug, PartialEq, Eq, PartialOrd, Ord)]
pub struct ComponentPlace {
    /// The number of the module.
    pub module: ModuleId,
    /// The number of the definition among those of the module, in the order of the text; those of includes count.
    pub number: usize,
}

impl ComponentPlace {
    /// Where a component is.
    pub(crate) fn of(component: &WrittenComponent<'_>) -> ComponentPlace
        ensures { result ≡ place_of component.now }
    {
        ComponentPlace {
            module: component.module,
            number: component.number,
        }
    }
}

/// An include of a module.
#[derive(Clone, Copy, Debug, PartialEq, Eq, PartialOrd, Ord)]
pub struct IncludePlace {
    /// The number of the module.
    pub module: ModuleId,
    /// The number of the include among those of the module, in the order of the text.
    pub number: usize,
}

/// A reference in a definition.
#[derive(Clone, Copy, Debug, PartialEq, Eq, PartialOrd, Ord)]
pub struct ReferencePlace {
    /// The definition.
    pub component: ComponentPlace,
    /// The number of the reference among those of the definition, in the order of the text.
    pub number: usize,
}

/// A definition that is left in a set: no include overrides it, at least where one instance brings its module (RELAX NG
/// 2001, 4.7).
#[derive(Clone, Copy, Debug, PartialEq, Eq)]
pub struct LeftDefinition {
    /// The key that it defines.
    pub key: KeyId,
    /// Where it is.
    pub component: ComponentPlace,
}
