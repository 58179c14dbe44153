// Why a text is no catalog.

use rn_xml::{XmlFault, XmlFaultKind};
use std::alloc::{AllocError, AllocFailed};

/// What is wrong with a catalog.
#[derive(Clone, Copy, Debug, PartialEq, Eq)]
pub enum CatalogFaultKind {
    /// It is no document of XML that is read.
    Document(XmlFaultKind),
    /// Its root is not `catalog` of the namespace of catalogs.
    Root,
    /// An element of that namespace that catalogs don't have, or not there.
    Element,
    /// An entry has no attribute of this name.
    Attribute(&'static str),
    /// Memory was refused. The place means nothing.
    Memory,
}

/// Why a text is no catalog: the first fault. A document that is not well-formed is told as such, wherever the fault is.
#[derive(Clone, Copy, Debug, PartialEq, Eq)]
pub struct CatalogFault {
    /// How many bytes of the text stand before the fault.
    pub at: usize,
    /// What is wrong there.
    pub kind: CatalogFaultKind,
}

impl From<AllocError> for CatalogFault {
    fn from(_: AllocError) -> Self {
        CatalogFault {
            at: 0,
            kind: CatalogFaultKind::Memory,
        }
    }
}

impl<T: Drop> From<AllocFailed<T>> for CatalogFault {
    fn from(_: AllocFailed<T>) -> Self {
        CatalogFault {
            at: 0,
            kind: CatalogFaultKind::Memory,
        }
    }
}

impl From<XmlFault> for CatalogFault {
    fn from(fault: XmlFault) -> Self {
        let kind = match fault.kind {
            XmlFaultKind::Memory => CatalogFaultKind::Memory,
            kind => CatalogFaultKind::Document(kind),
        };
        CatalogFault { at: fault.at, kind }
    }
}
