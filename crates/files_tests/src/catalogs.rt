// Catalogs and maps: where they lead, by XML Catalogs 1.1, sections 7.1.2 and 7.2.2.
use crate::asked_files::each_answered;

/// Each kind of entry; the first catalog before the second, entries for URIs before those for system identifiers, the whole URI before
/// its front and that before its end, the longest before the shorter.
static ENTRIES: [(&str, &str); 7] = [
    (
        "file\t/w/a.rnc\tinclude 'urn:x' include 'urn:y:b' include 'http://h/z/c.rnc'\nfile\t/w/1\t\nfile\t/w/m/b\t\nfile\t/w/3\t\nfile\t/w/c.xml\t<catalog xmlns='urn:oasis:names:tc:entity:xmlns:xml:catalog'><uri name='urn:x' uri='1'/><rewriteURI uriStartString='urn:y:' rewritePrefix='m/'/><uriSuffix uriSuffix='z/c.rnc' uri='3'/></catalog>\nword\ta.rnc\ncatalog\tc.xml",
        "a.rnc [1, 2, 3] urn:x [] urn:y:b [] http://h/z/c.rnc [] roots [0]",
    ),
    (
        "file\t/w/a.rnc\tinclude 'urn:x' include 'urn:y:b' include 'http://h/z/c.rnc'\nfile\t/w/1\t\nfile\t/w/m/b\t\nfile\t/w/3\t\nfile\t/w/c.xml\t<catalog xmlns='urn:oasis:names:tc:entity:xmlns:xml:catalog'><system systemId='urn:x' uri='1'/><rewriteSystem systemIdStartString='urn:y:' rewritePrefix='m/'/><systemSuffix systemIdSuffix='z/c.rnc' uri='3'/></catalog>\nword\ta.rnc\ncatalog\tc.xml",
        "a.rnc [1, 2, 3] urn:x [] urn:y:b [] http://h/z/c.rnc [] roots [0]",
    ),
    (
        "file\t/w/a.rnc\tinclude 'urn:x:b' include 'urn:x:c' include 'urn:x:y:d'\nfile\t/w/m/b\tinclude 'urn:1'\nfile\t/w/1\t\nfile\t/w/m/c\t\nfile\t/w/n/d\t\nfile\t/w/c.xml\t<catalog xmlns='urn:oasis:names:tc:entity:xmlns:xml:catalog'><uriSuffix uriSuffix=':b' uri='none'/><rewriteURI uriStartString='urn:x:' rewritePrefix='m/'/><rewriteURI uriStartString='urn:x:y:' rewritePrefix='n/'/><system systemId='urn:x:c' uri='none'/></catalog>\nfile\t/w/d.xml\t<catalog xmlns='urn:oasis:names:tc:entity:xmlns:xml:catalog'><uri name='urn:x:b' uri='none'/><uri name='urn:1' uri='1'/></catalog>\nword\ta.rnc\ncatalog\tc.xml\ncatalog\td.xml",
        "a.rnc [1, 2, 3] urn:x:b [4] urn:x:c [] urn:x:y:d [] urn:1 [] roots [0]",
    ),
    (
        "file\t/w/a.rnc\tinclude 'urn:x:b'\nfile\t/w/m/pre-b\t\nfile\t/w/c.xml\t<catalog xmlns='urn:oasis:names:tc:entity:xmlns:xml:catalog'><rewriteURI uriStartString='urn:x:' rewritePrefix='m/pre-'/></catalog>\nword\ta.rnc\ncatalog\tc.xml",
        "a.rnc [1] urn:x:b [] roots [0]",
    ),
    (
        "file\t/w/a.rnc\tinclude 'urn:x' include 'urn:y' include 'urn:z'\nfile\t/w/k/g/e/1\t\nfile\t/o/2\t\nfile\t/w/k/3 3\t\nfile\t/w/k/c.xml\t<catalog xmlns='urn:oasis:names:tc:entity:xmlns:xml:catalog'><group xml:base='g/'><uri xml:base='e/' name='urn:x' uri='1'/><uri xml:base='file:///o/' name='urn:y' uri='2'/></group><uri xml:base='' name='urn:z' uri='3%203'/></catalog>\nword\ta.rnc\ncatalog\tk/c.xml",
        "a.rnc [1, 2, 3] urn:x [] urn:y [] urn:z [] roots [0]",
    ),
    (
        "file\t/w/a.rnc\tinclude 'urn:x' include 'urn:y' include 'urn:z'\nfile\t/w/1\t\nfile\t/w/k/2\t\nfile\t/w/3\t\nfile\t/w/c.xml\t<catalog xmlns='urn:oasis:names:tc:entity:xmlns:xml:catalog'><nextCatalog catalog='k/n.xml'/><uri name='urn:x' uri='1'/><nextCatalog catalog='k/m.xml'/></catalog>\nfile\t/w/k/n.xml\t<catalog xmlns='urn:oasis:names:tc:entity:xmlns:xml:catalog'><uri name='urn:x' uri='none'/><uri name='urn:y' uri='2'/><nextCatalog catalog='m.xml'/></catalog>\nfile\t/w/k/m.xml\t<catalog xmlns='urn:oasis:names:tc:entity:xmlns:xml:catalog'><uri name='urn:y' uri='none'/></catalog>\nfile\t/w/d.xml\t<catalog xmlns='urn:oasis:names:tc:entity:xmlns:xml:catalog'><uri name='urn:z' uri='3'/></catalog>\nword\ta.rnc\ncatalog\tc.xml\ncatalog\td.xml",
        "a.rnc [1, 2, 3] urn:x [] urn:y [] urn:z [] roots [0]",
    ),
    (
        "file\t/w/a.rnc\tinclude 'urn:x:b'\nfile\t/w/m/b\t\nfile\t/w/c.xml\t<catalog xmlns='urn:oasis:names:tc:entity:xmlns:xml:catalog'><uri name='urn:x:b' uri='none'/></catalog>\nword\ta.rnc\ncatalog\tc.xml\nmap\turn:x:\tm",
        "a.rnc [1] urn:x:b [] roots [0]",
    ),
];

#[test]
fn entries_lead_to_files(rt: HostRuntime) {
    each_answered(&rt, &ENTRIES);
}

/// References as they are written, and what lies beside a file that a map found at a URI without folders.
static BESIDE: [(&str, &str); 3] = [
    (
        "file\t/w/a.rnc\tinclude 'b.rnc'\nfile\t/w/k/b.rnc\tinclude 'd/c.rnc'\nfile\t/w/k/d/c.rnc\t\nfile\t/w/c.xml\t<catalog xmlns='urn:oasis:names:tc:entity:xmlns:xml:catalog'><uri name='b.rnc' uri='k/b.rnc'/></catalog>\nword\ta.rnc\ncatalog\tc.xml",
        "a.rnc [1] b.rnc [2] k/d/c.rnc [] roots [0]",
    ),
    (
        "file\t/w/a.rnc\tinclude 'urn:x:b'\nfile\t/w/k/b\tinclude 'c'\nfile\t/w/k/c\t\nword\ta.rnc\nmap\turn:x:\tk",
        "a.rnc [1] urn:x:b [2] k/c [] roots [0]",
    ),
    (
        "file\t/w/a.rnc\tinclude 'urn:x:b'\nfile\t/w/k/b\tinclude 'c'\nfile\t/w/k/c\t\nword\ta.rnc\nroot\t/w\nmap\turn:x:\t/w/k",
        "a.rnc [1] urn:x:b [2] k/c [] roots [0]",
    ),
];

#[test]
fn files_beside_are_found(rt: HostRuntime) {
    each_answered(&rt, &BESIDE);
}

/// Entries that lead nowhere, above their folder, or out of it by a link while a root folder is given.
static BOUNDS: [(&str, &str); 5] = [
    (
        "file\t/w/a.rnc\tinclude 'urn:x' include 'urn:y:b' include 'urn:z:c'\nfile\t/w/c.xml\t<catalog xmlns='urn:oasis:names:tc:entity:xmlns:xml:catalog'><uri name='urn:x' uri='http://h/x'/><rewriteURI uriStartString='urn:y:' rewritePrefix='https://h/'/><delegateURI uriStartString='urn:z:' catalog='d.xml'/><uri name='urn:none' uri='?'/></catalog>\nword\ta.rnc\ncatalog\tc.xml",
        "Text { file: 0, at: 8 } Reference(Elsewhere) \"http://h/x\" for \"urn:x\";Text { file: 0, at: 24 } Reference(Elsewhere) \"https://h/b\" for \"urn:y:b\";Text { file: 0, at: 42 } Reference(Delegated) \"file:///w/d.xml\" for \"urn:z:c\";",
    ),
    (
        "file\t/w/a.rnc\tinclude 'urn:x:..' include 'urn:x:%2e%2e/b' include 'urn:x:a%2Fb' include 'urn:x:none'\nfile\t/w/m/b\t\nfile\t/w/c.xml\t<catalog xmlns='urn:oasis:names:tc:entity:xmlns:xml:catalog'><rewriteURI uriStartString='urn:x:' rewritePrefix='m/'/></catalog>\nword\ta.rnc\ncatalog\tc.xml",
        "Text { file: 0, at: 8 } Reference(Above);Text { file: 0, at: 27 } Reference(Above);Text { file: 0, at: 52 } Reference(Byte);Text { file: 0, at: 74 } File(Missing) \"m/none\" for \"urn:x:none\";",
    ),
    (
        "file\t/w/a.rnc\tinclude 'urn:x:./b'\nfile\t/w/m/.b\t\nfile\t/w/c.xml\t<catalog xmlns='urn:oasis:names:tc:entity:xmlns:xml:catalog'><rewriteURI uriStartString='urn:x:' rewritePrefix='m/.'/></catalog>\nword\ta.rnc\ncatalog\tc.xml",
        "Text { file: 0, at: 8 } Reference(Above);",
    ),
    (
        "file\t/w/r/a.rnc\tinclude 'urn:x' include 'urn:y'\nlink\t/w/m/1\t/w/o\nfile\t/w/o\tstart = ^\nfile\t/w/m/2\t\nfile\t/w/c.xml\t<catalog xmlns='urn:oasis:names:tc:entity:xmlns:xml:catalog'><uri name='urn:x' uri='m/1'/><uri name='urn:y' uri='m/2'/></catalog>\nword\tr/a.rnc\nroot\tr\ncatalog\tc.xml",
        "Text { file: 0, at: 8 } Outside;",
    ),
    (
        "file\t/w/a.rnc\tinclude 'http://h/ab'\nfile\t/w/m/b\t\nword\ta.rnc\nmap\thttp://h/a\tm",
        "a.rnc [1] http://h/ab [] roots [0]",
    ),
];

#[test]
fn entries_bound_what_they_find(rt: HostRuntime) {
    each_answered(&rt, &BOUNDS);
}

/// Catalogs that are refused.
static REFUSED: [(&str, &str); 7] = [
    (
        "word\ta.rnc\ncatalog\tnone.xml",
        "Catalogs File(Missing) \"none.xml\";",
    ),
    (
        "pipe\t/w/c.xml\t\nword\ta.rnc\ncatalog\tc.xml",
        "Catalogs File(Special) \"c.xml\";",
    ),
    (
        "file\t/w/k/c.xml\t<catalog xmlns='urn:oasis:names:tc:entity:xmlns:xml:catalog'><nextCatalog catalog='n.xml'/></catalog>\nword\ta.rnc\ncatalog\tk/c.xml",
        "k/c.xml Text { file: 0, at: 83 } File(Missing) \"k/n.xml\";",
    ),
    (
        "file\t/w/c.xml\t<catalog xmlns='urn:oasis:names:tc:entity:xmlns:xml:catalog'><nextCatalog catalog='k/n.xml'/></catalog>\nfile\t/w/k/n.xml\t<catalog xmlns='urn:oasis:names:tc:entity:xmlns:xml:catalog'><nextCatalog catalog='../c.xml'/></catalog>\nword\ta.rnc\ncatalog\tc.xml",
        "k/n.xml Text { file: 0, at: 83 } CatalogLoop;",
    ),
    (
        "file\t/w/c.xml\t<catalog xmlns='urn:oasis:names:tc:entity:xmlns:xml:catalog'><nextCatalog catalog='http://h/c.xml'/></catalog>\nword\ta.rnc\ncatalog\tc.xml",
        "c.xml Text { file: 0, at: 83 } FarCatalog(\"http://h/c.xml\");",
    ),
    (
        "file\t/w/c.xml\t<catalog/>\nword\ta.rnc\ncatalog\tc.xml",
        "c.xml Text { file: 0, at: 0 } Catalog(Root);",
    ),
    (
        "file\t/w/c.xml\t<catalog\nword\ta.rnc\ncatalog\tc.xml",
        "c.xml Text { file: 0, at: 8 } Catalog(Document(Tag));",
    ),
];

#[test]
fn catalogs_are_refused(rt: HostRuntime) {
    each_answered(&rt, &REFUSED);
}
