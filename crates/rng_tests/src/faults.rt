// Texts that are no flat schema, and lines that are indented no further. A text that would be too long is a row of tests/flat.sh.
use rn_rng::{XmlFault, schema_xml};
use std::alloc::AllocError;
use std::process::Abort;

/// Whether a text is refused as no flat schema.
fn is_no_schema(rt: &(impl Abort + AllocGlobal), text: &str) -> bool {
    matches!(schema_xml(rt.alloc(), text), Err(XmlFault::NoSchema))
}

#[test]
fn no_schemas(rt: HostRuntime) {
    assert!(rt; is_no_schema(&rt, "start = "));
    assert!(rt; is_no_schema(&rt, "start = ~ a"));
    assert!(rt; is_no_schema(&rt, "start = p:a"));
    assert!(rt; is_no_schema(&rt, "include \"a.rnc\""));
    assert!(rt; is_no_schema(&rt, "div { include \"a.rnc\" { start = a } } start = b"));
}

// At most 64 spaces stand before a tag.
#[test]
fn deep(rt: HostRuntime) -> Result<(), AllocError> {
    let opening = "list { ".repeat(rt.alloc(), 40)?;
    let closing = "} ".repeat(rt.alloc(), 40)?;
    let text = format!(in rt.alloc(); "start = {opening}empty {closing}")?;
    let xml = schema_xml(rt.alloc(), text.as_str()).expect(&rt, "no XML");
    let last = format!(in rt.alloc(); "\n{:64}<list>\n{:64}<empty/>\n{:64}</list>\n", "", "", "")?;
    assert!(rt; xml.as_str().contains(last.as_str()));
    let last = format!(in rt.alloc(); "\n{:62}<list>\n{:64}<list>\n{:64}<list>\n", "", "", "")?;
    assert!(rt; xml.as_str().contains(last.as_str()));
    let more = format!(in rt.alloc(); "\n{:65}", "")?;
    assert!(rt; !xml.as_str().contains(more.as_str()));
    Ok(())
}
