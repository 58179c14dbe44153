// Rows of a document in the XML syntax, a line `=>`, and its compact text, or the sentence of its fault.
use rn_translate::{RngFault, Translated, compact_text};
use rn_xml::read_document;
use std::process::Abort;

/// What comes before the items of a row that has no root of its own.
const HEAD: &str = r#"<grammar xmlns="http://relaxng.org/ns/structure/1.0">"#;

/// What comes after them.
const END: &str = "</grammar>";

/// The mark before the place of a fault.
const MARK: &str = "@@";

/// The translation of a document, or its fault.
pub fn translated(rt: &(impl Abort + AllocGlobal), document: &str) -> Result<Translated, RngFault> {
    let read = read_document(rt.alloc(), document).expect(rt, "no document");
    compact_text(rt.alloc(), document, &read)
}

/// The document of a row: items alone are put in a grammar.
fn whole(rt: &(impl Abort + AllocGlobal), row: &str) -> String {
    let (tag, _) = row.split_once('>').expect(rt, "no tag");
    let has_root = tag.contains("xmlns=");
    let parts = if has_root {
        ["", row, ""]
    } else {
        [HEAD, row, END]
    };
    let mut document = String::new(rt.alloc());
    for part in parts {
        document.push_str(part).expect(rt, "no memory");
    }
    document
}

/// Asks of each row that its document is translated as its text. A row ends before a line `--`.
pub fn each_row(rt: &(impl Abort + AllocGlobal), rows: &str) {
    let mut count = 0usize;
    for row in rows.split("\n--\n") {
        let (items, text) = row.split_once("\n=>\n").expect(rt, "a row has no arrow");
        let document = whole(rt, items);
        let made = translated(rt, document.as_str()).expect(rt, "no text");
        let text = text.trim_matches('\n');
        assert_eq!(rt; made.text.as_str().trim_end_matches('\n'), text, "{items}");
        count = count.saturating_add(1);
    }
    assert!(rt; count > 1, "there are no rows");
}

/// Asks of each row that its document has the fault of its sentence where the mark is. A row ends before a line `--`.
pub fn each_fault(rt: &(impl Abort + AllocGlobal), rows: &str) {
    let mut count = 0usize;
    for row in rows.split("\n--\n") {
        let (marked, sentence) = row.split_once("\n=>\n").expect(rt, "a row has no arrow");
        let marked = whole(rt, marked);
        let (before, behind) = marked.as_str().split_once(MARK).expect(rt, "no mark");
        let mut document = String::from_str(rt.alloc(), before).expect(rt, "no memory");
        document.push_str(behind).expect(rt, "no memory");
        let fault = translated(rt, document.as_str()).expect_err(rt, "no fault");
        let told = fault.kind.to_string(rt.alloc()).expect(rt, "no memory");
        assert_eq!(rt; told.as_str(), sentence.trim_matches('\n'), "{row}");
        assert_eq!(rt; fault.at, before.len(), "{row}");
        count = count.saturating_add(1);
    }
    assert!(rt; count > 1, "there are no rows");
}
