// Texts of catalogs, and the entries or the fault that they have, by XML Catalogs 1.1, section 6.
use rn_catalog::{Catalog, CatalogFault, CatalogFaultKind, read_catalog};
use std::alloc::{AllocError, Global};
use std::process::Abort;

/// What a text comes to, in one line.
fn answer_line(alloc: Global, text: &str) -> Result<String, AllocError> {
    match read_catalog(alloc, text) {
        Ok(catalog) => entries_line(alloc, &catalog),
        Err(
            CatalogFault {
                kind: CatalogFaultKind::Memory,
                ..
            },
        ) => Err(AllocError),
        Err(CatalogFault { at, kind }) => format!(in alloc; "{at} {kind:?}"),
    }
}

/// The bases and the entries of a catalog.
fn entries_line(alloc: Global, catalog: &Catalog) -> Result<String, AllocError> {
    let mut out = String::new(alloc);
    for base in &catalog.bases {
        let (outer, reference) = (base.outer, &base.reference);
        write!(out, "base {outer:?} {reference} ")?;
    }
    for entry in &catalog.entries {
        let (kind, key, target) = (entry.kind, &entry.key, &entry.target);
        let (base, at) = (entry.base, entry.at);
        write!(out, "{kind:?} {key} {target} {base:?} {at};")?;
    }
    Ok(out)
}

/// The root of a catalog with the namespace of catalogs as its default, of 61 bytes.
const ROOT: &str = "<catalog xmlns='urn:oasis:names:tc:entity:xmlns:xml:catalog'>";

/// What is in a catalog, and what it comes to. Places are those of the whole text.
static CONTENTS: [(&str, &str); 12] = [
    ("<uri name='a' uri='b'/>", "Uri a b None 80;"),
    (
        "<rewriteURI uriStartString='a' rewritePrefix='b'/><uriSuffix uriSuffix='c' uri='d'/>",
        "RewriteUri a b None 107;UriSuffix c d None 141;",
    ),
    (
        "<system systemId='a' uri='b'/><systemSuffix systemIdSuffix='c' uri='d'/>",
        "System a b None 87;SystemSuffix c d None 129;",
    ),
    (
        "<rewriteSystem systemIdStartString='a' rewritePrefix='b'/>",
        "RewriteSystem a b None 115;",
    ),
    (
        "<delegateURI uriStartString='a' catalog='b'/><delegateSystem systemIdStartString='c' catalog='d'/>",
        "DelegateUri a b None 102;DelegateSystem c d None 155;",
    ),
    (
        "<public publicId='a' uri='b'/><delegatePublic publicIdStartString='c' catalog='d'/><nextCatalog catalog='e'/>",
        "NextCatalog  e None 166;",
    ),
    (
        "<group xml:base='g/' prefer='public'><uri name='a' uri='b' xml:base='e'/><group><uri name='c' uri='d'/></group></group>",
        "base None g/ base Some(0) e Uri a b Some(1) 117;Uri c d Some(0) 160;",
    ),
    (
        "<x xmlns='y'><uri xmlns='urn:oasis:names:tc:entity:xmlns:xml:catalog' name='a' uri='b'/></x>",
        "",
    ),
    ("<uri name='a'/>", "61 Attribute(\"uri\")"),
    ("<uri uri='a'/>", "61 Attribute(\"name\")"),
    (
        "<rewriteUri uriStartString='a' rewritePrefix='b'/>",
        "61 Element",
    ),
    ("<group><catalog/></group>", "68 Element"),
];

#[test]
fn catalogs_have_entries(rt: HostRuntime) {
    each_comes_to(&rt, ROOT, &CONTENTS, "</catalog>");
}

/// What stands before the root, and what the catalog comes to. Places are those of the whole text.
static FRONTS: [(&str, &str); 7] = [
    (
        "<?xml version='1.0'?>\n<!-- <!DOCTYPE a> --><?p?>\n",
        "Uri a b None 129;",
    ),
    ("<!DOCTYPE catalog>", "Uri a b None 98;"),
    ("<!DOCTYPE catalog SYSTEM 'a>'>", "Uri a b None 110;"),
    (
        "<!DOCTYPE catalog\nPUBLIC \"é\" \"b\" >",
        "Uri a b None 115;",
    ),
    ("<!DOCTYPE catalog [ ]>", "0 Document(Doctype)"),
    (
        "<!DOCTYPE catalog SYSTEM 'a'><!DOCTYPE b>",
        "29 Document(Doctype)",
    ),
    ("<!DOCTYPE catalog SYSTEM a>", "0 Document(Doctype)"),
];

#[test]
fn fronts_are_passed_over(rt: HostRuntime) {
    let root =
        "<catalog xmlns='urn:oasis:names:tc:entity:xmlns:xml:catalog'><uri name='a' uri='b'/></catalog>";
    each_comes_to(&rt, "", &FRONTS, root);
}

/// Texts that are no catalogs.
static ROOTS: [(&str, &str); 4] = [
    ("<catalog/>", "0 Root"),
    (
        " <uri xmlns='urn:oasis:names:tc:entity:xmlns:xml:catalog'/>",
        "1 Root",
    ),
    ("", "0 Document(NoRoot)"),
    ("<catalog>", "0 Document(NotClosed)"),
];

#[test]
fn other_roots_are_refused(rt: HostRuntime) {
    each_comes_to(&rt, "", &ROOTS, "");
}

/// Each text, with what stands before and behind it, comes to this.
fn each_comes_to(
    rt: &(impl Abort + AllocGlobal),
    before: &str,
    rows: &[(&str, &str)],
    behind: &str,
) {
    for (text, wanted) in rows {
        let whole = match format!(in rt.alloc(); "{before}{text}{behind}") {
            Ok(whole) => whole,
            Err(_) => panic!(rt; "out of memory"),
        };
        match answer_line(rt.alloc(), whole.as_str()) {
            Ok(found) => assert!(rt; found.as_str() == *wanted, "{text}: {found}"),
            Err(_) => panic!(rt; "out of memory"),
        }
    }
}
