// Where the pieces of a compact text come from.
use crate::rows::translated;
use std::process::Abort;

const SCHEMA: &str = r#"<grammar xmlns="http://relaxng.org/ns/structure/1.0" datatypeLibrary="u">
  <start combine="choice"><element name="a" ns="v"><data type="t"/></element></start>
</grammar>
"#;

/// Asks that the first of these words in the compact text comes from the first of those in the document.
fn comes_from(rt: &(impl Abort + AllocGlobal), made: &str, written: &str) {
    let schema = translated(rt, SCHEMA).expect(rt, "no text");
    let at = schema.text.as_str().find(made).expect(rt, "not made");
    let from = SCHEMA.find(written).expect(rt, "not written");
    assert_eq!(rt; schema.origins.origin(at), from, "{made}");
}

#[test]
fn pieces(rt: HostRuntime) {
    comes_from(&rt, "start", "<start");
    comes_from(&rt, "|=", "choice");
    comes_from(&rt, "element", "<element");
    comes_from(&rt, "n1:a", "a\" ns");
    comes_from(&rt, "d1:t", "t\"/>");
    comes_from(&rt, "}", "<element");
    comes_from(&rt, "namespace n1", "a\" ns");
    comes_from(&rt, "datatypes d1", "t\"/>");
}

#[test]
fn whole_text(rt: HostRuntime) {
    let schema = translated(&rt, SCHEMA).expect(&rt, "no text");
    let text = "namespace n1 = \"v\"\ndatatypes d1 = \"u\"\nstart |= element n1:a { d1:t }\n";
    assert_eq!(rt; schema.text.as_str(), text);
}
