// Documents that are hard to read: small ones of each kind.
use crate::rows::lines;
use rn_xml::{MAX_DEPTH, read_document};
use std::alloc::AllocError;

// As many elements may be open as are allowed, and no more.
#[test]
fn deep(rt: HostRuntime) -> Result<(), AllocError> {
    let opening = "<a>".repeat(rt.alloc(), MAX_DEPTH)?;
    let closing = "</a>".repeat(rt.alloc(), MAX_DEPTH)?;
    let text = format!(in rt.alloc(); "{opening}{closing}")?;
    assert!(rt; read_document(rt.alloc(), text.as_str()).is_ok());
    let text = format!(in rt.alloc(); "{opening}<b/>{closing}")?;
    let got = lines(rt.alloc(), text.as_str())?;
    assert_eq!(rt; got.as_str(), "Deep at 1536\n");
    let fault = read_document(rt.alloc(), text.as_str())
        .err()
        .expect(&rt, "a document");
    let got = format!(in rt.alloc(); "{}", fault.sentence(text.as_str()))?;
    assert_eq!(rt; got.as_str(), "more than 512 elements are open");
    Ok(())
}

// Many prefixes in scope, each used once.
#[test]
fn prefixes(rt: HostRuntime) -> Result<(), AllocError> {
    let mut text = String::from_str(rt.alloc(), "<a")?;
    for i in 0..2000u32 {
        write!(text, " xmlns:p{i}='u{i}'")?;
    }
    text.push_str(">")?;
    for i in 0..2000u32 {
        write!(text, "<p{i}:b/>")?;
    }
    text.push_str("</a>")?;
    let read = read_document(rt.alloc(), text.as_str()).expect(&rt, "a fault");
    assert_eq!(rt; read.elements.len(), 2001);
    assert_eq!(rt; read.uris.len(), 2002);
    Ok(())
}

// Many attributes of one element, and then one of them again.
#[test]
fn attributes(rt: HostRuntime) -> Result<(), AllocError> {
    let mut text = String::from_str(rt.alloc(), "<a")?;
    for i in 0..2000u32 {
        write!(text, " b{i}=''")?;
    }
    let good = format!(in rt.alloc(); "{text}/>")?;
    let read = read_document(rt.alloc(), good.as_str()).expect(&rt, "a fault");
    assert_eq!(rt; read.attributes.len(), 2000);
    let bad = format!(in rt.alloc(); "{text} b1999=''/>")?;
    let wanted = format!(in rt.alloc(); "Repeated at {}\n", text.len().saturating_add(1))?;
    assert_eq!(rt; lines(rt.alloc(), bad.as_str())?.as_str(), wanted.as_str());
    Ok(())
}
