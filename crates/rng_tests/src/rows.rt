// Rows of a schema in the compact syntax, a line `=>`, and the lines of its grammar in the XML syntax.
use rn_rng::schema_xml;
use std::process::Abort;

/// What stands before the lines of a row.
const HEAD: &str = r#"<?xml version="1.0" encoding="UTF-8"?>
<grammar xmlns="http://relaxng.org/ns/structure/1.0" datatypeLibrary="http://www.w3.org/2001/XMLSchema-datatypes">
"#;

/// What stands behind them.
const END: &str = "\n</grammar>\n";

/// Asks of each row that its schema is written as its lines. A row ends before a line `--`.
pub fn each_row(rt: &(impl Abort + AllocGlobal), rows: &str) {
    let mut count = 0usize;
    for row in rows.split("\n--\n") {
        let (schema, lines) = row.split_once("\n=>\n").expect(rt, "a row has no arrow");
        let xml = schema_xml(rt.alloc(), schema).expect(rt, "no XML");
        let got = xml.as_str();
        let body = got.strip_prefix(HEAD).expect(rt, "another head");
        let body = body.strip_suffix(END).expect(rt, "another end");
        assert_eq!(rt; body, lines.trim_end_matches('\n'), "{schema}");
        count = count.saturating_add(1);
    }
    assert!(rt; count > 1, "there are no rows");
}
