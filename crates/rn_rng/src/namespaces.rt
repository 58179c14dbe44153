// The namespaces and datatype libraries of a module, and where they are inherited (RELAX NG 2001, 4.3 and 4.9).
ghost use Rattle.std.specs.Prelude.{◌≡◌, [], bytes_eq, map, unwrap_or, IfOk};
ghost use Rattle.rn_syntax.specs.BindingDeclarations.{bound};
ghost use Rattle.rn_syntax.specs.Places as places;
ghost use Rattle.rn_syntax.specs.View.{datatype_view, declaration_view, uri_view};
ghost use Rattle.rn_assemble.specs.Resolve.{default_of, namespace_of, type_library, uri_text};
ghost use Rattle.rn_rng.specs.Translation as translation;
ghost use Rattle.rn_rng.specs.Translation.{library_attributes, ns_attributes, xml_prefix};

use crate::tag::Attribute;
use rn_syntax::{Bindings, Datatype, Declaration, Uri, XML_URI, XSD_URI};
use std::alloc::{AllocError, Global};

/// A URI, by what says it: so two that one declaration binds are known to be the same without comparing them.
#[derive(Clone, Copy, PartialEq, Eq)]
pub(crate) enum UriSource {
    /// The empty URI.
    Empty,
    /// The namespace of prefix `xml`.
    Xml,
    /// The library of datatype prefix `xsd`.
    Xsd,
    /// The URI of the declaration of this number.
    Declared(usize),
}

/// The declarations of a module that inherits no namespace.
#[derive(Drop)]
pub(crate) struct Namespaces<'m, 'a> {
    pub declarations: &'m [Declaration<'a>],
    pub bindings: Bindings<'m, 'a>,
    ghost same: { bound bindings ≡ map declaration_view declarations.now },
}

impl<'m, 'a> Namespaces<'m, 'a> {
    ghost use Rattle.rn_rng.specs.inside.Views.{given, optional_view, uri_of};

    /// What these declarations bind. It fails only where memory is refused.
    pub fn new(
        alloc: Global,
        declarations: &'m [Declaration<'a>],
    ) -> Result<Namespaces<'m, 'a>, AllocError>
        ensures { IfOk result (λ n. given n ≡ map declaration_view declarations.now) }
    {
        Ok(Namespaces {
            declarations,
            bindings: Bindings::new(alloc, declarations)?,
        })
    }

    /// The URI of the declaration of a number; none for an inherited namespace.
    fn declared(&self, number: usize) -> &str
        ensures { result.now ≡ uri_text [] (places.uri_at (given self.now) number) }
    {
        let declarations = self.declarations;
        if number < declarations.len() {
            declaration_uri(&declarations[number])
        } else {
            ""
        }
    }

    /// The text of a URI.
    pub fn uri(&self, source: UriSource) -> &str
        ensures { result.now ≡ uri_of self.now source }
    {
        match source {
            UriSource::Empty => "",
            UriSource::Xml => XML_URI,
            UriSource::Xsd => XSD_URI,
            UriSource::Declared(number) => self.declared(number),
        }
    }

    /// The namespace of elements without prefix.
    pub fn default_namespace(&self) -> UriSource
        ensures { uri_of self.now result ≡ default_of [] (given self.now) }
    {
        match self.bindings.default() {
            Some(number) => UriSource::Declared(number),
            None => UriSource::Empty,
        }
    }

    /// The namespace of a prefix; none for one that is not bound.
    pub fn namespace(&self, prefix: &str) -> UriSource
        ensures { uri_of self.now result ≡ namespace_of [] (given self.now) prefix.now }
    {
        if prefix == "xml" {
            return UriSource::Xml;
        }
        match self.bindings.namespace(prefix) {
            Some(number) => UriSource::Declared(number),
            None => UriSource::Empty,
        }
    }

    /// The datatype library of a prefix; the empty one for a prefix that is not bound.
    fn prefixed_library(&self, prefix: &str) -> UriSource
        ensures { uri_of self.now result
            ≡ unwrap_or (places.library_of (given self.now) prefix.now) [] }
    {
        if prefix == "xsd" {
            return UriSource::Xsd;
        }
        match self.bindings.library(prefix) {
            Some(number) => UriSource::Declared(number),
            None => UriSource::Empty,
        }
    }

    /// The library of a datatype.
    pub fn library(&self, datatype: &Datatype<'_>) -> UriSource
        ensures { uri_of self.now result
            ≡ type_library [] (given self.now) (datatype_view datatype.now) }
    {
        match datatype {
            Datatype::String(_) | Datatype::Token(_) => UriSource::Empty,
            Datatype::Named(prefix, _) => self.prefixed_library(prefix.name),
        }
    }

    /// Whether two URIs are the same.
    pub fn are_same(&self, one: UriSource, other: UriSource) -> bool
        ensures { result ≡ bytes_eq (uri_of self.now one) (uri_of self.now other) }
    {
        one == other || self.uri(one) == self.uri(other)
    }

    /// Whether a namespace is that of prefix `xml`.
    fn is_xml(&self, namespace: UriSource) -> bool
        ensures { result ≡ bytes_eq (uri_of self.now namespace) places.xml_uri }
    {
        self.are_same(namespace, UriSource::Xml)
    }

    /// Whether a name needs an `ns` where it would take this namespace without one.
    pub fn needs_ns(&self, taken: UriSource, namespace: UriSource) -> bool
        ensures { result ≡ translation.needs_ns (uri_of self.now taken)
            (uri_of self.now namespace) }
    {
        !self.are_same(namespace, taken) && !self.is_xml(namespace)
    }

    /// The prefix before a name of the namespace, with its colon.
    pub fn prefix_of(&self, namespace: UriSource) -> &'static str
        ensures { result.now ≡ xml_prefix (uri_of self.now namespace) }
    {
        if self.is_xml(namespace) { "xml:" } else { "" }
    }

    /// The attribute with the namespace of a name, where it would take this one without it.
    pub fn ns_attribute(&self, taken: UriSource, namespace: UriSource) -> Option<Attribute<'_>>
        ensures { optional_view result ≡ ns_attributes (uri_of self.now taken)
            (uri_of self.now namespace) }
    {
        if self.needs_ns(taken, namespace) {
            Some(Attribute::new("ns", self.uri(namespace)))
        } else {
            None
        }
    }

    /// The attribute with the library of a datatype, where it would inherit this one without it.
    pub fn library_attribute(&self, taken: UriSource, library: UriSource) -> Option<Attribute<'_>>
        ensures { optional_view result ≡ library_attributes (uri_of self.now taken)
            (uri_of self.now library) }
    {
        if self.are_same(library, taken) {
            None
        } else {
            Some(Attribute::new("datatypeLibrary", self.uri(library)))
        }
    }
}

/// The URI of a declaration.
fn declaration_uri<'u>(declaration: &'u Declaration<'_>) -> &'u str
    ensures { result.now ≡ uri_text [] (places.uri_of (declaration_view declaration.now)) }
{
    match declaration {
        Declaration::Namespace(_, uri) => text_of_uri(uri),
        Declaration::Default(_, _, uri) => text_of_uri(uri),
        Declaration::Datatypes(_, uri) => uri.as_str(),
    }
}

/// The text of a URI; none for the inherited one.
fn text_of_uri<'u>(uri: &'u Uri<'_>) -> &'u str
    ensures { result.now ≡ uri_text [] (uri_view uri.now) }
{
    match uri {
        Uri::Literal(text) => text.as_str(),
        Uri::Inherited => "",
    }
}

/// A name with its namespace.
#[derive(Clone, Copy)]
pub(crate) struct QualifiedName<'a> {
    pub namespace: UriSource,
    pub local: &'a str,
}
