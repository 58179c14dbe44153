//! Catalogs of OASIS XML Catalogs 1.1: which URIs stand for which files.
//!
//! [`read_catalog`] makes the entries of a catalog of the text of its file, in text order, with their places. Nothing is
//! looked up, resolved or fetched here. Time and memory grow with the text; nothing recurses.
#![tactic(auto)]

mod bases;
mod catalog;
mod catalog_fault;
mod catalog_reader;
mod doctype;
mod entry_forms;

pub use catalog::{CATALOG_NAMESPACE, Catalog, CatalogBase, CatalogEntry, EntryKind};
pub use catalog_fault::{CatalogFault, CatalogFaultKind};
pub use catalog_reader::read_catalog;
pub use doctype::without_doctype;
