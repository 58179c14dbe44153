// The tables of a document, filled in text order.
ghost use Rattle.std.specs.Prelude.{◌≡◌, ◌+◌, ◌<◌, ◌≤◌, ◌∷◌, ◌++◌, [], Some, None, List, String, length, string_bytes, string_len, slice_get, slice_set, vec_len, IfOk, MatchOption, OnOk};
ghost use Rattle.std.specs.declared.alloc.Global.{Global as GlobalAlloc};
ghost use Rattle.rn_xml.specs.DocumentTables.{AreTables};
ghost use Rattle.rn_xml.specs.declared.document.XmlAttribute.{XmlAttribute};
ghost use Rattle.rn_xml.specs.declared.document.XmlDeclaration.{XmlDeclaration};
ghost use Rattle.rn_xml.specs.declared.document.XmlElement.{XmlElement};
ghost use Rattle.rn_xml.specs.declared.document.XmlText.{XmlText};
ghost use Rattle.rn_xml.specs.inside.Parents.{AreRowsFrom, MayHaveParent};
ghost use Rattle.rn_xml.specs.inside.WrittenAttributes.{unnamed_of};

use crate::characters::QName;
use crate::document::{
    NO_NAMESPACE, Rows, XmlAttribute, XmlDeclaration, XmlDocument, XmlElement, XmlName, XmlText,
};
use crate::indices::Indices;
use std::alloc::{AllocError, Global};

/// The name of the namespace of `xml:` (Namespaces in XML 1.0, 3).
pub(crate) const XML_URI: &str = "http://www.w3.org/XML/1998/namespace";

/// The tables of a document as far as it is read.
#[derive(Drop)]
pub(crate) struct Tables<'a> {
    pub(crate) document: XmlDocument<'a>,
    pub(crate) uris: Indices,
    ghost sound: { AreTables document },
}

/// The name as it is written, of no namespace so far.
fn unnamed(name: QName<'_>) -> XmlName<'_>
    ensures uri { result.uri ≡ 0 }
    ensures prefix { result.prefix ≡ name.entry.prefix }
    ensures local { result.local ≡ name.entry.local }
{
    XmlName {
        uri: NO_NAMESPACE,
        prefix: name.prefix,
        local: name.local,
    }
}

/// Where the rows of an element begin whose tag is read.
#[derive(Clone, Copy)]
pub(crate) struct FirstRows {
    pub(crate) attributes: usize,
    pub(crate) declarations: usize,
}

/// The rows from this one on of a table that has so many; none if it has fewer.
fn rows_from(from: usize, count: usize) -> Rows
    ensures ordered { result.from ≤ result.to }
    ensures are { AreRowsFrom from count result }
{
    Rows {
        from: from.min(count),
        to: count,
    }
}

impl<'a> Tables<'a> {
    ghost use Rattle.rn_xml.specs.inside.KnownTexts.{KnowsUris, uri_in_table};

    /// Empty tables; no namespace and that of `xml:` have their URIs.
    pub(crate) fn new(alloc: Global) -> Result<Self, AllocError>
        ensures elements { IfOk result (λ tables. tables.document.elements.items ≡ []) }
        ensures texts { IfOk result (λ tables. tables.document.texts.items ≡ []) }
        ensures uris { IfOk result KnowsUris }
    {
        let mut names = Vec::new(alloc);
        names.push(String::new(alloc))?;
        names.push(String::from_str(alloc, XML_URI)?)?;
        let mut uris = Indices::new(alloc);
        uris.insert("", 0)?;
        uris.insert(XML_URI, 1)?;
        let document = XmlDocument {
            uris: names,
            elements: Vec::new(alloc),
            attributes: Vec::new(alloc),
            declarations: Vec::new(alloc),
            texts: Vec::new(alloc),
        };
        Ok(Tables { document, uris })
    }

    /// The index of the URI, a new one if it has none.
    fn uri(&mut self, alloc: Global, uri: &str) -> Result<usize, AllocError>
        ensures ok { IfOk result (λ index. index < vec_len self.new.document.uris) }
        ensures rest { self.new.document
            ≡ record self.old.document { uris = self.new.document.uris } }
        ensures longer { OnOk result ((more : List (String GlobalAlloc))
            × (self.new.document.uris.items ≡ self.old.document.uris.items ++ more)) }
        ensures knows { OnOk result (KnowsUris self.old → KnowsUris self.new) }
        ensures is { IfOk result (λ index. KnowsUris self.old
            → uri_in_table self.new.document index ≡ Some uri.now) }
    {
        if let Some(index) = self.uris.find(uri) {
            if index < self.document.uris.len() {
                return Ok(index);
            }
        }
        let index = self.document.uris.len();
        self.document.uris.push(String::from_str(alloc, uri)?)?;
        self.uris.insert(uri, index)?;
        Ok(index)
    }

    /// Adds an element whose `<` is at this byte, with the attributes and declarations from these on.
    pub(crate) fn add_element(
        &mut self,
        name: XmlName<'a>,
        at: usize,
        parent: Option<usize>,
        first: FirstRows,
    ) -> Result<usize, AllocError>
        requires uri { name.uri < vec_len self.old.document.uris }
        requires parent { MayHaveParent (vec_len self.old.document.elements) parent }
        ensures rest { self.new.document
            ≡ record self.old.document { elements = self.new.document.elements } }
        ensures uris { self.new.uris ≡ self.old.uris }
        ensures index { IfOk result (λ index. index ≡ vec_len self.old.document.elements) }
        ensures ok { IfOk result (λ index. vec_len self.new.document.elements ≡ index + 1) }
        ensures more { vec_len self.old.document.elements ≤ vec_len self.new.document.elements }
        ensures added { OnOk result ((row : XmlElement)
            × (self.new.document.elements.items ≡ self.old.document.elements.items ++ row ∷ [])
            × (row.name ≡ name.entry) × (row.at ≡ at) × (row.parent ≡ parent)
            × AreRowsFrom first.attributes (vec_len self.old.document.attributes) row.attributes
            × AreRowsFrom first.declarations (vec_len self.old.document.declarations)
            row.declarations) }
    {
        let index = self.document.elements.len();
        let element = XmlElement {
            name,
            at,
            parent,
            attributes: rows_from(first.attributes, self.document.attributes.len()),
            declarations: rows_from(first.declarations, self.document.declarations.len()),
            end: index + 1,
        };
        self.document.elements.push(element)?;
        Ok(index)
    }

    /// Adds a declaration of this prefix for this URI, and answers its index.
    pub(crate) fn declare(
        &mut self,
        alloc: Global,
        prefix: &'a str,
        uri: &str,
        at: usize,
    ) -> Result<usize, AllocError>
        ensures rest { self.new.document ≡ record self.old.document
            { uris = self.new.document.uris; declarations = self.new.document.declarations } }
        ensures longer { OnOk result ((more : List (String GlobalAlloc))
            × (self.new.document.uris.items ≡ self.old.document.uris.items ++ more)) }
        ensures knows { OnOk result (KnowsUris self.old → KnowsUris self.new) }
        ensures index { IfOk result (λ index. index ≡ vec_len self.old.document.declarations) }
        ensures added { OnOk result ((row : XmlDeclaration)
            × (self.new.document.declarations.items ≡ self.old.document.declarations.items
            ++ row ∷ [])
            × (row.prefix.now ≡ prefix.now)
            × (KnowsUris self.old → uri_in_table self.new.document row.uri ≡ Some uri.now)) }
    {
        let uri = self.uri(alloc, uri)?;
        let index = self.document.declarations.len();
        self.document
            .declarations
            .push(XmlDeclaration { prefix, uri, at })?;
        Ok(index)
    }

    /// Adds an attribute, of no namespace so far.
    pub(crate) fn add_attribute(
        &mut self,
        name: QName<'a>,
        at: usize,
        value: String,
        value_at: usize,
    ) -> Result<(), AllocError>
        ensures rest { self.new.document ≡ record self.old.document
            { attributes = self.new.document.attributes } }
        ensures uris { self.new.uris ≡ self.old.uris }
        ensures added { OnOk result ((row : XmlAttribute)
            × (self.new.document.attributes.items ≡ self.old.document.attributes.items ++ row ∷ [])
            × (unnamed_of row ≡ record {
              prefix = name.entry.prefix.now;
              local = name.entry.local.now;
              value = string_bytes value;
            })) }
    {
        let attribute = XmlAttribute {
            name: unnamed(name),
            at,
            value,
            value_at,
        };
        self.document.attributes.push(attribute)?;
        Ok(())
    }

    /// Adds a text of this element.
    pub(crate) fn add_text(
        &mut self,
        parent: usize,
        at: usize,
        content: String,
    ) -> Result<(), AllocError>
        requires parent { parent < vec_len self.old.document.elements }
        requires some { 0 < string_len content }
        ensures rest { self.new.document
            ≡ record self.old.document { texts = self.new.document.texts } }
        ensures uris { self.new.uris ≡ self.old.uris }
        ensures added { OnOk result ((row : XmlText)
            × (self.new.document.texts.items ≡ self.old.document.texts.items ++ row ∷ [])
            × (row.parent ≡ parent) × (row.at ≡ at) × (row.content ≡ content)) }
    {
        self.document.texts.push(XmlText {
            parent,
            at,
            content,
        })?;
        Ok(())
    }

    /// How many attributes there are.
    pub(crate) fn attribute_count(&self) -> usize
        ensures { result ≡ vec_len self.now.document.attributes }
    {
        self.document.attributes.len()
    }

    /// Where the rows of an element begin that is read next.
    pub(crate) fn first_rows(&self) -> FirstRows
        ensures attributes { result.attributes ≡ vec_len self.now.document.attributes }
        ensures declarations { result.declarations ≡ vec_len self.now.document.declarations }
    {
        FirstRows {
            attributes: self.document.attributes.len(),
            declarations: self.document.declarations.len(),
        }
    }

    /// The element of this index, if there is one.
    pub(crate) fn element(&self, index: usize) -> Option<XmlElement<'a>>
        ensures { result ≡ slice_get self.now.document.elements.items index }
    {
        self.document.elements.get(index).copied()
    }

    /// The name and the place of the attribute of this index, if there is one.
    pub(crate) fn attribute(&self, index: usize) -> Option<(XmlName<'a>, usize)>
        ensures { MatchOption result (slice_get self.now.document.attributes.items index ≡ None)
            (λ p. (a : XmlAttribute) × (slice_get self.now.document.attributes.items index ≡ Some a)
            × (p.0 ≡ a.name)) }
    {
        let attribute = self.document.attributes.get(index)?;
        Some((attribute.name, attribute.at))
    }

    /// The attribute has this namespace.
    pub(crate) fn name_attribute(&mut self, index: usize, uri: usize)
        requires { uri < vec_len self.old.document.uris }
        ensures rest { self.new.document ≡ record self.old.document
            { attributes = self.new.document.attributes } }
        ensures uris { self.new.uris ≡ self.old.uris }
        ensures named { (a : XmlAttribute)
            → slice_get self.old.document.attributes.items index ≡ Some a →
            self.new.document.attributes.items
            ≡ slice_set self.old.document.attributes.items index
            (record a { name = record a.name { uri = uri } }) }
    {
        if let Some(attribute) = self.document.attributes.get_mut(index) {
            attribute.name.uri = uri;
        }
    }

    /// The element ends: its last descendant is the last element so far.
    pub(crate) fn end_element(&mut self, index: usize)
        ensures rest { self.new.document
            ≡ record self.old.document { elements = self.new.document.elements } }
        ensures uris { self.new.uris ≡ self.old.uris }
        ensures count { vec_len self.new.document.elements ≡ vec_len self.old.document.elements }
        ensures ended { (e : XmlElement)
            → slice_get self.old.document.elements.items index ≡ Some e →
            self.new.document.elements.items
            ≡ slice_set self.old.document.elements.items index
            (record e { end = length self.old.document.elements.items }) }
    {
        let end = self.document.elements.len();
        if index < end {
            let mut element = self.document.elements[index];
            element.end = end;
            self.document.elements[index] = element;
        }
    }
}
