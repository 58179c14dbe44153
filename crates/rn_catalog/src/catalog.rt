// What a catalog says (XML Catalogs 1.1, section 6).

/// The namespace of the elements of a catalog (XML Catalogs 1.1, section 6).
pub const CATALOG_NAMESPACE: &str = "urn:oasis:names:tc:entity:xmlns:xml:catalog";

/// What an entry is for (XML Catalogs 1.1, 6.5). The names are those of its elements.
#[derive(Clone, Copy, Debug, PartialEq, Eq)]
pub enum EntryKind {
    /// The URI is that of the entry.
    Uri,
    /// The URI begins as the entry says, and that front is replaced.
    RewriteUri,
    /// The URI ends as the entry says.
    UriSuffix,
    /// A URI that begins so is looked for in another catalog alone.
    DelegateUri,
    /// The system identifier is that of the entry.
    System,
    /// The system identifier begins as the entry says, and that front is replaced.
    RewriteSystem,
    /// The system identifier ends as the entry says.
    SystemSuffix,
    /// A system identifier that begins so is looked for in another catalog alone.
    DelegateSystem,
    /// A further catalog, for what this one doesn't know.
    NextCatalog,
}

/// An `xml:base` of a catalog.
#[derive(Debug, Drop, PartialEq, Eq)]
pub struct CatalogBase {
    /// The number of the one around it, among those of the catalog; `None` where the catalog's own URI is the base.
    pub outer: Option<usize>,
    /// The value, which is a reference from the base around it.
    pub reference: String,
}

/// An entry of a catalog.
#[derive(Debug, Drop, PartialEq, Eq)]
pub struct CatalogEntry {
    /// What the entry is for.
    pub kind: EntryKind,
    /// The URI or the identifier that it is for, or the front or the end of one; empty of a further catalog.
    pub key: String,
    /// Where it leads: a reference from its base.
    pub target: String,
    /// The number of its base among those of the catalog; `None` where that is the catalog's own URI.
    pub base: Option<usize>,
    /// How many bytes of the text stand before the value that says where it leads.
    pub at: usize,
}

/// The entries of a catalog, in text order; those of groups are among them (XML Catalogs 1.1, 6.5.2).
#[derive(Debug, Drop, PartialEq, Eq)]
pub struct Catalog {
    /// The bases, each after the one around it.
    pub bases: Vec<CatalogBase>,
    /// The entries.
    pub entries: Vec<CatalogEntry>,
}
