// Namespaces that are inherited, by index.

use crate::input_files::InputFile;
use crate::outline_bindings::Namespace;
use rn_outline::{Span, name_in};
use std::alloc::{AllocError, Global};
use std::collections::BTreeMap;

/// Namespaces, each with its index. The empty one is 0.
#[derive(Drop)]
pub(crate) struct Namespaces {
    uris: Vec<String>,
    numbers: BTreeMap<String, usize>,
}

impl Namespaces {
    pub(crate) fn new(alloc: Global) -> Result<Self, AllocError> {
        let mut namespaces = Namespaces {
            uris: Vec::new(alloc),
            numbers: BTreeMap::new(alloc),
        };
        namespaces.number(alloc, "")?;
        Ok(namespaces)
    }

    /// The index of a namespace. It gets one here, if it has none yet.
    pub(crate) fn number(&mut self, alloc: Global, uri: &str) -> Result<usize, AllocError> {
        if let Some(number) = self.numbers.get(uri) {
            return Ok(*number);
        }
        let number = self.uris.len();
        self.uris.push(String::from_str(alloc, uri)?)?;
        self.numbers.insert(String::from_str(alloc, uri)?, number)?;
        Ok(number)
    }

    /// The namespace of an index; the empty one, if none has it.
    pub(crate) fn uri(&self, number: usize) -> &str {
        match self.uris.get(number) {
            Some(uri) => uri.as_str(),
            None => "",
        }
    }

    /// The index of the namespace that a file's declaration means, if the file inherits this one.
    fn resolve(
        &mut self,
        alloc: Global,
        namespace: Namespace<'_>,
        handed: usize,
    ) -> Result<usize, AllocError> {
        match namespace {
            Namespace::Literal(uri) => self.number(alloc, uri),
            Namespace::Inherited => Ok(handed),
        }
    }

    /// The namespace inherited through an external or an include of a file (RELAX NG 2001, 4.8), if the file inherits
    /// this one: that of the prefix after `inherit =`, or the default one. `None` where nothing binds the prefix.
    pub(crate) fn handed_namespace(
        &mut self,
        alloc: Global,
        given: &InputFile<'_>,
        inherit: Option<Span>,
        handed: usize,
    ) -> Result<Option<usize>, AllocError> {
        let outline = given.file.outline;
        let namespace = match inherit {
            None => Some(given.bindings.default_namespace(outline)),
            Some(prefix) => given
                .bindings
                .namespace(outline, name_in(given.file.text, prefix)),
        };
        match namespace {
            Some(namespace) => Ok(Some(self.resolve(alloc, namespace, handed)?)),
            None => Ok(None),
        }
    }
}
