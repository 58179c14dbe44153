// Rows of a document, a line `=>`, and the lines of its tables, or of its fault.
use rn_xml::{XmlDocument, read_document};
use std::alloc::{AllocError, Global};
use std::process::Abort;

/// The name of the namespace of this index.
fn uri<'d>(document: &'d XmlDocument<'_>, index: usize) -> &'d str {
    match document.uris.get(index) {
        Some(uri) => uri.as_str(),
        None => "none",
    }
}

/// The lines of the tables: an element, attribute, declaration or text each.
fn table_lines(alloc: Global, document: &XmlDocument<'_>) -> Result<String, AllocError> {
    let mut out = String::new(alloc);
    for e in &document.elements {
        let uri = uri(document, e.name.uri);
        let parent = e.parent.map_or(-1, |p| i64::try_from(p).unwrap_or(-1));
        writeln!(
            out,
            "element {} {uri:?} at {} in {parent} end {}",
            e.name.local, e.at, e.end
        )?;
    }
    for a in &document.attributes {
        let uri = uri(document, a.name.uri);
        writeln!(
            out,
            "attribute {} {uri:?} at {} is {:?} at {}",
            a.name.local,
            a.at,
            a.value.as_str(),
            a.value_at
        )?;
    }
    for d in &document.declarations {
        let uri = uri(document, d.uri);
        writeln!(out, "prefix {:?} {uri:?} at {}", d.prefix, d.at)?;
    }
    for t in &document.texts {
        writeln!(
            out,
            "text {:?} in {} at {}",
            t.content.as_str(),
            t.parent,
            t.at
        )?;
    }
    Ok(out)
}

/// The lines of a document, or of its fault.
pub fn lines(alloc: Global, text: &str) -> Result<String, AllocError> {
    match read_document(alloc, text) {
        Ok(document) => table_lines(alloc, &document),
        Err(fault) => format!(in alloc; "{:?} at {}\n", fault.kind, fault.at),
    }
}

/// Asks of each row that its document has its lines. A row ends before a line `--`.
pub fn each_row(rt: &(impl Abort + AllocGlobal), rows: &str) {
    let mut count = 0usize;
    for row in rows.split("\n--\n") {
        let (text, wanted) = row.split_once("\n=>\n").expect(rt, "a row has no arrow");
        let got = lines(rt.alloc(), text).expect(rt, "no memory");
        assert_eq!(rt;
            got.as_str().trim_end_matches('\n'),
            wanted.trim_end_matches('\n'),
            "{text}"
        );
        count = count.saturating_add(1);
    }
    assert!(rt; count > 1, "there are no rows");
}

/// Asks that a text has these lines.
pub fn has_lines(rt: &(impl Abort + AllocGlobal), text: &str, wanted: &str) {
    let got = lines(rt.alloc(), text).expect(rt, "no memory");
    assert_eq!(rt; got.as_str().trim_end_matches('\n'), wanted, "{text:?}");
}
