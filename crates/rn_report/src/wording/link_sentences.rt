// Sentences on what leads to no file: words, folders and references; and on catalogs.
use super::check_sentences::{MEMORY, limit_sentence};
use super::fault_messages::document_sentence;
use crate::message_kinds::MessageKind;
use crate::report::{Page, shown_place};
use rn_files::{CatalogFaultKind, FaultPlace, LinkFault, MAX_SOURCES, ReferenceFault, Tried};
use rn_modset::MAX_NAME;
use std::alloc::{AllocError, Global};

/// What is said of a document with another root.
const NO_CATALOG: &str =
    "this is no catalog: its root is not `catalog` of the namespace urn:oasis:names:tc:entity:xmlns:xml:catalog";

/// What a message on what leads to no file is about.
pub(crate) fn link_kind(fault: LinkFault) -> MessageKind {
    match fault {
        LinkFault::File(_) => MessageKind::Unreadable,
        LinkFault::Reference(_) | LinkFault::Outside => MessageKind::Reference,
        LinkFault::Name | LinkFault::Count => MessageKind::Limit,
        LinkFault::Twice => MessageKind::Duplicate,
        LinkFault::Memory => MessageKind::Memory,
    }
}

/// The sentence on what leads to no file. Words and folders are named before it, so what was tried is told of others.
pub(crate) fn link_sentence(
    alloc: Global,
    place: FaultPlace,
    fault: LinkFault,
    tried: &Tried,
) -> Result<String, AllocError> {
    match place {
        FaultPlace::Text { .. } | FaultPlace::Catalogs => tried_sentence(alloc, fault, tried),
        FaultPlace::Word(_) | FaultPlace::Root | FaultPlace::Current => {
            untried_sentence(alloc, fault)
        }
    }
}

/// The sentence on a reference that leads to no file, with what was tried for it.
fn tried_sentence(alloc: Global, fault: LinkFault, tried: &Tried) -> Result<String, AllocError> {
    let place = shown_place(alloc, tried.place.as_str())?;
    let uri = match &tried.uri {
        Some(uri) => Some(shown_place(alloc, uri.as_str())?),
        None => None,
    };
    match (fault, uri) {
        (LinkFault::File(fault), Some(uri)) => {
            format!(in alloc; "{place}: {fault}; {uri} leads there")
        }
        (LinkFault::File(fault), None) => format!(in alloc; "{place}: {fault}"),
        (LinkFault::Reference(ReferenceFault::Scheme), _) => {
            format!(in alloc; "no --map or --catalog says where {place} lies")
        }
        (LinkFault::Reference(ReferenceFault::Elsewhere), Some(uri)) => {
            format!(in alloc; "a catalog leads from {uri} to {place}, and nothing is fetched")
        }
        (LinkFault::Reference(ReferenceFault::Delegated), Some(uri)) => {
            format!(in alloc; "a catalog leaves {uri} to {place}, which must be given by --catalog")
        }
        (fault, _) => untried_sentence(alloc, fault),
    }
}

/// The sentence on what leads to no file, without what was tried.
fn untried_sentence(alloc: Global, fault: LinkFault) -> Result<String, AllocError> {
    match fault {
        LinkFault::Reference(fault) => format!(in alloc; "{fault}"),
        LinkFault::File(fault) => format!(in alloc; "{fault}"),
        LinkFault::Outside => String::from_str(alloc, "the file is not below the root folder"),
        LinkFault::Name => {
            let before = "the name of the file, below the root folder, is longer than";
            limit_sentence(alloc, before, MAX_NAME, "bytes")
        }
        LinkFault::Twice => String::from_str(alloc, "another file has the same name"),
        LinkFault::Count => limit_sentence(alloc, "there are more than", MAX_SOURCES, "files"),
        LinkFault::Memory => String::from_str(alloc, MEMORY),
    }
}

/// The sentence on a text that is no catalog.
pub(crate) fn catalog_sentence(
    alloc: Global,
    pages: &[Page<'_>],
    place: FaultPlace,
    kind: CatalogFaultKind,
) -> Result<String, AllocError> {
    match kind {
        CatalogFaultKind::Document(kind) => document_sentence(alloc, pages, place, kind),
        CatalogFaultKind::Root => String::from_str(alloc, NO_CATALOG),
        CatalogFaultKind::Element => {
            String::from_str(alloc, "this is no element of a catalog, or not here")
        }
        CatalogFaultKind::Attribute(name) => {
            format!(in alloc; "the attribute `{name}` is missing")
        }
        CatalogFaultKind::Memory => String::from_str(alloc, MEMORY),
    }
}

/// The sentence on a catalog that another one names at a URI which is no file's.
pub(crate) fn far_catalog_sentence(alloc: Global, uri: &str) -> Result<String, AllocError> {
    let uri = shown_place(alloc, uri)?;
    format!(in alloc; "the catalog {uri} is no file, and nothing is fetched")
}
