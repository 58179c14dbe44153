// From the text of a catalog to its entries.

use crate::bases::{attribute, base_of};
use crate::catalog::{CATALOG_NAMESPACE, Catalog, CatalogEntry};
use crate::catalog_fault::{CatalogFault, CatalogFaultKind};
use crate::doctype::without_doctype;
use crate::entry_forms::{EntryForm, Form, form_of};
use rn_xml::{XmlDocument, XmlElement, read_document};
use std::alloc::Global;

/// What may be in an element.
#[derive(Clone, Copy)]
enum Room {
    /// Nothing that is looked at.
    Closed,
    /// Entries, which have this base.
    Open(Option<usize>),
}

/// A fault at an element.
fn fault_at(element: &XmlElement<'_>, kind: CatalogFaultKind) -> CatalogFault {
    CatalogFault {
        at: element.at,
        kind,
    }
}

/// What an element is, if it is of the namespace of catalogs. Those of others are of no matter (XML Catalogs 1.1, 6.3).
fn form_in(
    document: &XmlDocument<'_>,
    element: &XmlElement<'_>,
) -> Result<Option<Form>, CatalogFault> {
    let uri = document.uris.get(element.name.uri);
    if !uri.is_some_and(|uri| uri.as_str() == CATALOG_NAMESPACE) {
        return Ok(None);
    }
    match form_of(element.name.local) {
        Some(form) => Ok(Some(form)),
        None => Err(fault_at(element, CatalogFaultKind::Element)),
    }
}

/// The value of an attribute that an entry needs, and its place.
fn needed<'d, 'a>(
    document: &'d XmlDocument<'a>,
    element: &XmlElement<'a>,
    name: &'static str,
) -> Result<(&'d str, usize), CatalogFault> {
    match attribute(document, element, name) {
        Some(attribute) => Ok((attribute.value.as_str(), attribute.value_at)),
        None => Err(fault_at(element, CatalogFaultKind::Attribute(name))),
    }
}

/// The entry that an element is, with this base.
fn entry_of<'a>(
    alloc: Global,
    document: &XmlDocument<'a>,
    element: &XmlElement<'a>,
    form: EntryForm,
    base: Option<usize>,
) -> Result<CatalogEntry, CatalogFault> {
    let key = match form.key {
        Some(name) => needed(document, element, name)?.0,
        None => "",
    };
    let (target, at) = needed(document, element, form.target)?;
    Ok(CatalogEntry {
        kind: form.kind,
        key: String::from_str(alloc, key)?,
        target: String::from_str(alloc, target)?,
        base,
        at,
    })
}

/// Takes an element in, which is in such a room, and answers what may be in it.
fn take_element<'a>(
    alloc: Global,
    document: &XmlDocument<'a>,
    element: &XmlElement<'a>,
    room: Room,
    catalog: &mut Catalog,
) -> Result<Room, CatalogFault> {
    let Room::Open(outer) = room else {
        return Ok(Room::Closed);
    };
    match form_in(document, element)? {
        Some(Form::Holder) if element.parent.is_none() || element.name.local == "group" => {
            let base = base_of(alloc, document, element, outer, &mut catalog.bases)?;
            Ok(Room::Open(base))
        }
        Some(Form::Holder) => Err(fault_at(element, CatalogFaultKind::Element)),
        Some(Form::Entry(form)) => {
            let base = base_of(alloc, document, element, outer, &mut catalog.bases)?;
            let entry = entry_of(alloc, document, element, form, base)?;
            catalog.entries.push(entry)?;
            Ok(Room::Closed)
        }
        Some(Form::Other) | None => Ok(Room::Closed),
    }
}

/// Refuses a document whose root is no catalog.
fn check_root(document: &XmlDocument<'_>) -> Result<(), CatalogFault> {
    let Some(root) = document.elements.first() else {
        return Ok(());
    };
    let uri = document.uris.get(root.name.uri);
    if root.name.local == "catalog" && uri.is_some_and(|uri| uri.as_str() == CATALOG_NAMESPACE) {
        Ok(())
    } else {
        Err(fault_at(root, CatalogFaultKind::Root))
    }
}

/// The entries of a document.
fn entries_of(alloc: Global, document: &XmlDocument<'_>) -> Result<Catalog, CatalogFault> {
    check_root(document)?;
    let mut catalog = Catalog {
        bases: Vec::new(alloc),
        entries: Vec::new(alloc),
    };
    let mut rooms: Vec<Room> = Vec::new(alloc);
    for element in &document.elements {
        let around = match element.parent {
            Some(parent) => rooms.get(parent).copied().unwrap_or(Room::Closed),
            None => Room::Open(None),
        };
        rooms.push(take_element(alloc, document, element, around, &mut catalog)?)?;
    }
    Ok(catalog)
}

/// The entries of the catalog that a text is. A document type declaration that names an external subset and declares
/// nothing is passed over, as catalogs mostly have one; with declarations of its own it is a fault, as are all faults of
/// [`rn_xml::read_document`].
///
/// Refused, too, are a root that is no `catalog`, an element of the namespace of catalogs that has no name of theirs, and
/// an entry that lacks an attribute; what is first in the text is answered. Entries of public identifiers, `prefer`,
/// attributes that catalogs don't have, and elements of other namespaces with all that is in them leave nothing.
pub fn read_catalog(alloc: Global, text: &str) -> Result<Catalog, CatalogFault> {
    match without_doctype(alloc, text)? {
        Some(text) => {
            let document = read_document(alloc, text.as_str())?;
            entries_of(alloc, &document)
        }
        None => {
            let document = read_document(alloc, text)?;
            entries_of(alloc, &document)
        }
    }
}
