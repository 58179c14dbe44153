// Namespaces and datatype libraries of a document.
ghost use Rattle.std.specs.Prelude.{◌≡◌, ◌==◌, ℕ, IfOk, OnOk, Some, slice_get, unwrap_or};
ghost use Rattle.rn_xml.specs.DocumentTrees.{uri_at_index};
ghost use Rattle.rn_translate.specs.Terms.{uri as uri_namespace};
ghost use Rattle.rn_translate.specs.inside.PrintedTerms.{uri_text};
ghost use Rattle.rn_translate.specs.inside.UriTables.{AreIndexed, HasAdded, HasUri, HasUrisOf, IsTable, gives_uri};
ghost use Rattle.rn_translate.specs.inside.Meanings.{uri_meant};

use rn_xml::{XmlAttribute, XmlDocument};
use std::alloc::{AllocError, Global};
use std::collections::BTreeMap;

/// The namespace of `xml:`.
const XML_URI: &str = "http://www.w3.org/XML/1998/namespace";

/// The library of XML Schema's datatypes, to which the prefix `xsd` is bound (compact syntax, section 2).
const XSD_URI: &str = "http://www.w3.org/2001/XMLSchema-datatypes";

/// A namespace or a datatype library, by its index among the URIs.
#[derive(Clone, Copy, Debug, PartialEq, Eq)]
pub(crate) struct Uri {
    /// The index.
    pub index: usize,
}

impl Uri {
    /// The namespace that a schema inherits where it is included, since it gives none (RELAX NG 2001, 4.9).
    pub const INHERITED: Uri = Uri { index: 0 };

    /// No namespace, and the built-in library.
    pub const EMPTY: Uri = Uri { index: 1 };

    /// The namespace of `xml:`.
    pub const XML: Uri = Uri { index: 2 };

    /// The library of XML Schema's datatypes.
    pub const XSD: Uri = Uri { index: 3 };

    /// Whether this is that URI.
    pub fn is(self, other: Uri) -> bool
        ensures { result ≡ (self.index == other.index) }
    {
        self.index == other.index
    }
}

/// URIs, each once.
#[derive(Drop)]
pub(crate) struct Uris<'d> {
    texts: Vec<&'d str>,
    indices: BTreeMap<&'d str, usize>,
}

impl<'d> Uris<'d> {
    /// The URIs that mean something by themselves.
    fn new(alloc: Global) -> Result<Uris<'d>, AllocError>
        ensures { IfOk result (λ uris. IsTable uris) }
    {
        let mut uris = Uris {
            texts: Vec::new(alloc),
            indices: BTreeMap::new(alloc),
        };
        uris.texts.push("")?;
        uris.add("")?;
        uris.add(XML_URI)?;
        uris.add(XSD_URI)?;
        Ok(uris)
    }

    /// Adds a URI, if it isn't there yet.
    fn add(&mut self, text: &'d str) -> Result<(), AllocError>
        ensures { AreIndexed self.old → OnOk result (HasAdded self.old self.new text.entry) }
    {
        if self.indices.get(text).is_some() {
            return Ok(());
        }
        let index = self.texts.len();
        self.texts.push(text)?;
        self.indices.insert(text, index)?;
        Ok(())
    }

    /// All URIs that elements of a document can mean: its namespaces, and those that `ns` and `datatypeLibrary` give.
    pub fn of(alloc: Global, document: &'d XmlDocument<'_>) -> Result<Uris<'d>, AllocError>
        ensures table { IfOk result (λ uris. IsTable uris) }
        ensures has { IfOk result (λ uris. HasUrisOf uris document.now) }
    {
        let mut uris = Uris::new(alloc)?;
        'namespaces: for uri in &document.uris {
            uris.add(uri.as_str())?;
        }
        'attributes: for attribute in &document.attributes {
            if gives_uri(attribute) {
                uris.add(attribute.value.as_str())?;
            }
        }
        Ok(uris)
    }

    /// The URIs of a document's namespaces, each at its index. The document is that of which the URIs are.
    pub fn namespaces(
        &self,
        alloc: Global,
        document: &XmlDocument<'_>,
    ) -> Result<Vec<Uri>, AllocError>
        ensures { IsTable self.now → HasUrisOf self.now document.now → IfOk result (λ known.
            (k : ℕ) → uri_meant self.now (unwrap_or (slice_get known.items k) Uri.EMPTY)
            ≡ Some (uri_namespace (uri_at_index document.now k))) }
    {
        let mut namespaces = Vec::new(alloc);
        'namespaces: for uri in &document.uris {
            namespaces.push(self.uri(uri.as_str()))?;
        }
        Ok(namespaces)
    }

    /// The text of a URI; none of the inherited one.
    pub fn text(&self, uri: Uri) -> &'d str
        ensures { result.now ≡ uri_text self.now uri }
    {
        self.texts.get(uri.index).copied().unwrap_or("")
    }

    /// The URI with this text; the empty one where none has it.
    pub fn uri(&self, text: &str) -> Uri
        ensures { AreIndexed self.now → HasUri self.now text.now
            → uri_meant self.now result ≡ Some (uri_namespace text.now) }
    {
        match self.indices.get(text) {
            Some(index) => Uri { index: *index },
            None => Uri::EMPTY,
        }
    }
}

/// Whether an attribute may give the URI of a namespace or a library.
fn gives_uri(attribute: &XmlAttribute<'_>) -> bool
    ensures { result ≡ gives_uri attribute.now.name.local.now }
{
    attribute.name.local == "ns" || attribute.name.local == "datatypeLibrary"
}
