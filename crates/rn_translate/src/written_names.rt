// Names in a schema, and how they are written in the compact text (RELAX NG 2001, 4.2 and 4.8 to 4.10).
ghost use Rattle.std.specs.Prelude.{◌≡◌, ◌∷◌, ◌==◌, [], true, false, IfNone, OnOk, Some, bytes_eq, codes, option_map, slice_get, unwrap_or};
ghost use Rattle.std.specs.Option.{option_map_or};
ghost use Rattle.std.specs.Str.{chars};
ghost use Rattle.rn_text.specs.Characters.{is_ncname};
ghost use Rattle.rn_xml.specs.XmlTags.{Scope, uri_in};
ghost use Rattle.rn_translate.specs.Terms.{Namespace, datatype, identifier, local as local_term, uri as uri_namespace};
ghost use Rattle.rn_translate.specs.SchemaElements.{prefix_and_local, prefix_uri, qualified};
ghost use Rattle.rn_translate.specs.Layouts.{name_term};
ghost use Rattle.rn_translate.specs.inside.UriTables.{IsTable};
ghost use Rattle.rn_translate.specs.inside.Meanings.{Adds, uri_meant};
ghost use Rattle.rn_translate.specs.inside.ElementsMeant.{IsInScope};

use crate::content::may_have;
use crate::document_parts::{is_rng, trimmed};
use crate::kinds::Kind;
use crate::rng_fault::{RngFault, RngFaultKind, shown};
use crate::terms::Term;
use crate::translator::Translator;
use crate::uris::Uri;
use rn_text::is_ncname;
use rn_xml::{NO_NAMESPACE, XML_NAMESPACE, XmlAttribute, XmlElement};

/// The part of a qualified name before its colon, if it has one, and the rest.
fn split_name(name: &str) -> (Option<&str>, &str)
    ensures parts { option_map (λ prefix. (prefix.now, result.1.now)) result.0
        ≡ prefix_and_local name.now }
    ensures whole { IfNone result.0 (result.1.now ≡ name.now) }
{
    match name.split_once(':') {
        Some((prefix, local)) => (Some(prefix), local),
        None => (None, name),
    }
}

impl<'d, 'a> Translator<'d, 'a> {
    /// Looks at the attributes of an element, in text order. Refused at the first that the element doesn't have, or that
    /// has a value which it can't have.
    pub fn check_attributes(&self, element: &XmlElement<'a>, kind: Kind) -> Result<(), RngFault> {
        for attribute in self.document.attributes_of(element) {
            self.check_attribute(kind, attribute)?;
        }
        Ok(())
    }

    fn check_attribute(&self, kind: Kind, attribute: &XmlAttribute<'a>) -> Result<(), RngFault> {
        let (uri, local) = (attribute.name.uri, attribute.name.local);
        if uri == XML_NAMESPACE && local == "base" {
            return Err(RngFault::new(attribute.at, RngFaultKind::Base));
        }
        if uri == NO_NAMESPACE && may_have(kind, local) {
            return self.check_value(kind, attribute);
        }
        if uri == NO_NAMESPACE || is_rng(self.document, uri) {
            return Err(self.unknown_attribute(kind, attribute)?);
        }
        Ok(())
    }

    /// The fault of an attribute that an element doesn't have.
    fn unknown_attribute(
        &self,
        kind: Kind,
        attribute: &XmlAttribute<'a>,
    ) -> Result<RngFault, RngFault> {
        let (prefix, local) = (attribute.name.prefix, attribute.name.local);
        let written = if prefix.is_empty() {
            shown(self.alloc, local)?
        } else {
            let written = format!(in self.alloc; "{prefix}:{local}")?;
            shown(self.alloc, written.as_str())?
        };
        let kind = RngFaultKind::Attribute {
            element: kind,
            name: written,
        };
        Ok(RngFault::new(attribute.at, kind))
    }

    /// Looks at the value of an attribute of RELAX NG.
    fn check_value(&self, kind: Kind, attribute: &XmlAttribute<'a>) -> Result<(), RngFault> {
        let (at, value) = (attribute.value_at, attribute.value.as_str());
        match attribute.name.local.as_bytes() {
            b"name" if matches!(kind, Kind::Element | Kind::Attribute) => self.check_name(
                at, value,
            ),
            b"name" | b"type" => self.check_local_name(at, trimmed(value)),
            b"combine" => match trimmed(value).as_bytes() {
                b"choice" | b"interleave" => Ok(()),
                _ => Err(RngFault::new(at, RngFaultKind::Combine)),
            },
            b"href" if value.contains('#') => Err(RngFault::new(at, RngFaultKind::Fragment)),
            _ => Ok(()),
        }
    }

    /// Looks at a name without a colon.
    fn check_local_name(&self, at: usize, name: &str) -> Result<(), RngFault>
        ensures { OnOk result (is_ncname (chars name.now) ≡ true) }
    {
        if is_ncname(name) {
            return Ok(());
        }
        let name = shown(self.alloc, name)?;
        Err(RngFault::new(at, RngFaultKind::Name(name)))
    }

    /// Looks at a name that may have a prefix.
    pub fn check_name(&self, at: usize, text: &str) -> Result<(), RngFault> {
        let (prefix, local) = split_name(trimmed(text));
        self.check_local_name(at, local)?;
        let Some(prefix) = prefix else {
            return Ok(());
        };
        self.check_local_name(at, prefix)?;
        if self.declared_uri(prefix).is_some() {
            return Ok(());
        }
        let prefix = shown(self.alloc, prefix)?;
        Err(RngFault::new(at, RngFaultKind::Prefix(prefix)))
    }

    /// The namespace of a name; without a prefix it is the given one.
    fn name_namespace(&self, prefix: Option<&str>, unprefixed: Uri) -> Uri
        ensures { (scope : Scope) (n : Namespace) → IsInScope self.now scope
            → uri_meant self.now.uris unprefixed ≡ Some n → uri_meant self.now.uris result
            ≡ Some (option_map_or (λ x. uri_namespace (prefix_uri scope x.now)) prefix.entry n) }
    {
        match prefix {
            None => unprefixed,
            Some("xml") => Uri::XML,
            Some(prefix) => self.bound_namespace(prefix),
        }
    }

    /// The namespace that a prefix other than `xml` is bound to here; none where it isn't bound.
    fn bound_namespace(&self, prefix: &str) -> Uri
        ensures { (scope : Scope) → IsInScope self.now scope
            → bytes_eq prefix.now (codes "xml") ≡ false → uri_meant self.now.uris result
            ≡ Some (uri_namespace (unwrap_or (uri_in scope prefix.now) [])) }
    {
        match self.scopes.find(prefix) {
            Some(index) => self.declared_namespace(index),
            None => Uri::EMPTY,
        }
    }

    /// The namespace of the declaration of this index; none where there is no declaration.
    fn declared_namespace(&self, index: usize) -> Uri
        ensures { result ≡ option_map_or
            (λ it. unwrap_or (slice_get self.now.document_uris.items it.uri) Uri.EMPTY)
            (slice_get self.now.document.now.declarations.items index) Uri.EMPTY }
    {
        match self.document.declarations.get(index) {
            Some(declaration) => self.document_uri(declaration.uri),
            None => Uri::EMPTY,
        }
    }

    /// The URI of the document's namespace of this index; the empty one where there is none.
    fn document_uri(&self, index: usize) -> Uri
        ensures { result ≡ unwrap_or (slice_get self.now.document_uris.items index) Uri.EMPTY }
    {
        self.document_uris.get(index).copied().unwrap_or(Uri::EMPTY)
    }

    /// The namespace that a prefix means here, by its index in the document, if it is declared.
    fn declared_uri(&self, prefix: &str) -> Option<usize> {
        self.scopes
            .uri_of(self.document.declarations.as_slice(), prefix)
    }

    /// Writes a name of the document, which without a prefix is in the namespace `unprefixed`. In the compact text a name
    /// without a prefix is in the namespace `bare`.
    pub fn put_name(
        &mut self,
        at: usize,
        text: &'d str,
        unprefixed: Uri,
        bare: Uri,
    ) -> Result<(), RngFault>
        ensures { (scope : Scope) (n m : Namespace) → IsInScope self.old scope
            → uri_meant self.old.uris unprefixed ≡ Some n → uri_meant self.old.uris bare ≡ Some m
            → OnOk result (Adds self.old self.new
            (name_term m (qualified scope n text.now) ∷ [])) }
    {
        let (prefix, local) = split_name(trimmed(text));
        let namespace = self.name_namespace(prefix, unprefixed);
        self.put_name_in(at, namespace, local, bare)
    }

    /// Writes a name of a namespace, where a name without a prefix is in the namespace `bare`.
    fn put_name_in(
        &mut self,
        at: usize,
        namespace: Uri,
        local: &'d str,
        bare: Uri,
    ) -> Result<(), RngFault>
        ensures { (n m : Namespace) → IsTable self.old.uris
            → uri_meant self.old.uris namespace ≡ Some n → uri_meant self.old.uris bare ≡ Some m
            → OnOk result (Adds self.old self.new (name_term m (n, local.now) ∷ [])) }
    {
        if namespace.is(bare) {
            return self.put_local_name(at, local);
        }
        self.check_local_name(at, local)?;
        self.put(at, Term::Named(namespace, local))
    }

    /// Writes a name without a colon.
    pub fn put_local_name(&mut self, at: usize, name: &'d str) -> Result<(), RngFault>
        ensures { OnOk result (Adds self.old self.new (local_term name.now ∷ [])) }
    {
        self.check_local_name(at, name)?;
        self.put(at, Term::Local(name))
    }

    /// Writes the name of a definition.
    pub fn put_identifier(&mut self, at: usize, name: &'d str) -> Result<(), RngFault>
        ensures { OnOk result (Adds self.old self.new (identifier name.now ∷ [])) }
    {
        self.check_local_name(at, name)?;
        self.put(at, Term::Identifier(name))
    }

    /// Writes the name of a datatype of a library (4.3 and 4.4).
    pub fn put_datatype(&mut self, at: usize, name: &'d str, library: Uri) -> Result<(), RngFault>
        ensures { (n : Namespace) → uri_meant self.old.uris library ≡ Some n
            → OnOk result (Adds self.old self.new (datatype n name.now ∷ [])) }
    {
        self.check_local_name(at, name)?;
        self.put(at, Term::Datatype(library, name))
    }
}
