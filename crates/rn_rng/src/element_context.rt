// What an element is in: how many elements, and what it inherits there (RELAX NG 2001, 4.3, 4.9 and 4.12).
ghost use Rattle.std.specs.Prelude.{◌≡◌, ◌≢◌, false, Some, None, IsTrue};
ghost use Rattle.rn_rng.specs.Layout as layout;
ghost use Rattle.rn_rng.specs.declared.namespaces.UriSource.TheVariants.{Empty, Xsd};

use crate::lines::deeper;
use crate::namespaces::UriSource;
use rn_syntax::Operator;

/// What an element is in.
#[derive(Clone, Copy)]
pub(crate) struct ElementContext {
    /// How many elements are open, as [`deeper`] counts them.
    pub level: usize,
    /// The connector in which the children of the element around are already.
    pub wrapper: Option<Operator>,
    /// The nearest `ns` around, or the empty one where there is none.
    pub namespace: UriSource,
    /// The nearest `datatypeLibrary` around.
    pub library: UriSource,
}

impl ElementContext {
    /// The context in the root, at this level.
    pub fn at(level: usize) -> ElementContext
        ensures { result ≡ record
            { level = level; wrapper = None; namespace = Empty; library = Xsd } }
    {
        ElementContext {
            level,
            wrapper: None,
            namespace: UriSource::Empty,
            library: UriSource::Xsd,
        }
    }

    /// Whether children are in this connector already.
    pub fn is_in(self, operator: Operator) -> bool
        ensures yes { IsTrue result → self.wrapper ≡ Some operator }
        ensures no { result ≡ false → self.wrapper ≢ Some operator }
    {
        match self.wrapper {
            Some(wrapper) => wrapper == operator,
            None => false,
        }
    }

    /// The context in an element that gives nothing.
    pub fn inside(self) -> ElementContext
        ensures { result ≡ record self { level = layout.deeper self.level; wrapper = None } }
    {
        ElementContext {
            level: deeper(self.level),
            wrapper: None,
            namespace: self.namespace,
            library: self.library,
        }
    }

    /// The same context, where children are in this connector already.
    pub fn wrapped(self, wrapper: Operator) -> ElementContext
        ensures { result ≡ record self { wrapper = Some wrapper } }
    {
        ElementContext {
            level: self.level,
            wrapper: Some(wrapper),
            namespace: self.namespace,
            library: self.library,
        }
    }

    /// The same context, where children are in no connector.
    pub fn alone(self) -> ElementContext
        ensures { result ≡ record self { wrapper = None } }
    {
        ElementContext {
            level: self.level,
            wrapper: None,
            namespace: self.namespace,
            library: self.library,
        }
    }

    /// The same context under another `ns`.
    pub fn under(self, namespace: UriSource) -> ElementContext
        ensures { result ≡ record self { namespace = namespace } }
    {
        ElementContext {
            level: self.level,
            wrapper: self.wrapper,
            namespace,
            library: self.library,
        }
    }

    /// The same context under another `datatypeLibrary`.
    pub fn with_library(self, library: UriSource) -> ElementContext
        ensures { result ≡ record self { library = library } }
    {
        ElementContext {
            level: self.level,
            wrapper: self.wrapper,
            namespace: self.namespace,
            library,
        }
    }
}
