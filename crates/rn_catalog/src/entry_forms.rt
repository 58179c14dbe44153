// The elements of a catalog, with the attributes that they need (XML Catalogs 1.1, 6.5).

use crate::catalog::EntryKind;

/// What an element of the namespace of catalogs is.
#[derive(Clone, Copy)]
pub(crate) enum Form {
    /// `catalog` or `group`: entries are in it.
    Holder,
    /// An entry that is of no matter for URIs and system identifiers: of public identifiers.
    Other,
    /// An entry.
    Entry(EntryForm),
}

/// What an entry is made of.
#[derive(Clone, Copy)]
pub(crate) struct EntryForm {
    pub(crate) kind: EntryKind,
    /// The attribute for what it is for; `None` of a further catalog.
    pub(crate) key: Option<&'static str>,
    /// The attribute that says where it leads.
    pub(crate) target: &'static str,
}

/// An entry of this kind, with these attributes.
const fn entry(kind: EntryKind, key: &'static str, target: &'static str) -> Option<Form> {
    Some(Form::Entry(EntryForm {
        kind,
        key: Some(key),
        target,
    }))
}

/// What the element of this name is.
pub(crate) fn form_of(name: &str) -> Option<Form> {
    match name {
        "catalog" | "group" => Some(Form::Holder),
        "public" | "delegatePublic" => Some(Form::Other),
        "uri" => entry(EntryKind::Uri, "name", "uri"),
        "rewriteURI" => entry(EntryKind::RewriteUri, "uriStartString", "rewritePrefix"),
        "uriSuffix" => entry(EntryKind::UriSuffix, "uriSuffix", "uri"),
        "delegateURI" => entry(EntryKind::DelegateUri, "uriStartString", "catalog"),
        "system" => entry(EntryKind::System, "systemId", "uri"),
        "rewriteSystem" => entry(
            EntryKind::RewriteSystem,
            "systemIdStartString",
            "rewritePrefix",
        ),
        "systemSuffix" => entry(EntryKind::SystemSuffix, "systemIdSuffix", "uri"),
        "delegateSystem" => entry(EntryKind::DelegateSystem, "systemIdStartString", "catalog"),
        "nextCatalog" => Some(Form::Entry(EntryForm {
            kind: EntryKind::NextCatalog,
            key: None,
            target: "catalog",
        })),
        _ => None,
    }
}
