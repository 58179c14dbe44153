// Bytes, their text, and the encodings that are refused.
use rn_xml::{decode, is_xml};
use std::alloc::{AllocError, Global};
use std::process::Abort;

/// The text of the bytes, or the text before the fault and the fault.
fn decoded(alloc: Global, bytes: &[u8]) -> Result<String, AllocError> {
    match decode(alloc, bytes) {
        Ok(text) => Ok(text),
        Err(undecoded) => {
            let fault = undecoded.fault;
            format!(in alloc;
                "{} then {:?} at {}",
                undecoded.text.as_str(),
                fault.kind,
                fault.at
            )
        }
    }
}

/// Asks that bytes are decoded so.
fn has_text(rt: &(impl Abort + AllocGlobal), bytes: &[u8], wanted: &str) {
    let got = decoded(rt.alloc(), bytes).expect(rt, "no memory");
    assert_eq!(rt; got.as_str(), wanted);
}

#[test]
fn read(rt: HostRuntime) {
    has_text(&rt, b"<a/>", "<a/>");
    has_text(&rt, b"\xEF\xBB\xBF<a/>", "<a/>");
    has_text(&rt, b"\xFE\xFF\0<\0a\0/\0>", "<a/>");
    has_text(&rt, b"\xFF\xFE<\0\xE9\0/\0>\0", "<\u{E9}/>");
    has_text(&rt, b"\xFE\xFF\0<\xD8\x3D\xDE\x00", "<\u{1F600}");
    has_text(
        &rt,
        b"<?xml version='1.0' encoding='iso-8859-1'?><\xE9/>",
        "<?xml version='1.0' encoding='iso-8859-1'?><\u{E9}/>",
    );
    has_text(
        &rt,
        b"<?xml version='1.0' encoding='US-ASCII'?><a/>",
        "<?xml version='1.0' encoding='US-ASCII'?><a/>",
    );
    has_text(
        &rt,
        b"<?xml version='1.0' encoding='utf-8'?><\xC3\xA9/>",
        "<?xml version='1.0' encoding='utf-8'?><\u{E9}/>",
    );
    has_text(&rt, b"\xFF\xFE<\0\x3D\xD8\x00\xDE", "<\u{1F600}");
    has_text(&rt, b"\xEF\xBB\xBF\xEF\xBB\xBF<a/>", "\u{FEFF}<a/>");
    has_text(&rt, b"", "");
}

#[test]
fn refused(rt: HostRuntime) {
    has_text(&rt, b"<\xE9/>", "< then NotEncoded(Utf8) at 1");
    has_text(
        &rt,
        b"<?xml version='1.0' encoding='US-ASCII'?><\xC3\xA9/>",
        "<?xml version='1.0' encoding='US-ASCII'?>< then NotEncoded(Ascii) at 42",
    );
    has_text(&rt, b"<\xC0\xAF/>", "< then NotEncoded(Utf8) at 1");
    has_text(&rt, b"<\xED\xA0\x80/>", "< then NotEncoded(Utf8) at 1");
    has_text(&rt, b"<\xF4\x90\x80\x80/>", "< then NotEncoded(Utf8) at 1");
    has_text(&rt, b"<a\xE2\x82", "<a then NotEncoded(Utf8) at 2");
    has_text(&rt, b"\xFE\xFF\0<\0", "< then NotEncoded(Utf16) at 1");
    has_text(&rt, b"\xFE\xFF\0<\xD8", "< then NotEncoded(Utf16) at 1");
    has_text(&rt, b"\xFE\xFF\0<\xD8\x3D", "< then NotEncoded(Utf16) at 1");
    has_text(
        &rt,
        b"\xFE\xFF\0<\xD8\x3D\0a",
        "< then NotEncoded(Utf16) at 1",
    );
    has_text(&rt, b"\xFF\xFE<\0\x3D", "< then NotEncoded(Utf16) at 1");
    has_text(
        &rt,
        b"\xFE\xFF\0<\xDC\x00\0a",
        "< then NotEncoded(Utf16) at 1",
    );
    has_text(&rt, b"\xFF\xFE<\0\x00\xD8", "< then NotEncoded(Utf16) at 1");
    has_text(
        &rt,
        b"<?xml version='1.0' encoding='UTF-16'?><a/>",
        "<?xml version='1.0' encoding='UTF-16'?><a/> then NotEncoded(Utf16) at 30",
    );
    has_text(
        &rt,
        b"<?xml version='1.0' encoding='windows-1252'?><a/>",
        "<?xml version='1.0' encoding='windows-1252'?><a/> then Encoding at 30",
    );
}

// What begins with `<`, behind a mark and white space.
#[test]
fn told_apart(rt: HostRuntime) {
    assert!(rt; is_xml(b"<a/>"));
    assert!(rt; is_xml(b" \r\n\t<a/>"));
    assert!(rt; is_xml(b"\xEF\xBB\xBF <a/>"));
    assert!(rt; is_xml(b"\xFE\xFF\0 \0<"));
    assert!(rt; is_xml(b"\xFF\xFE\n\0<\0"));
    assert!(rt; !is_xml(b""));
    assert!(rt; !is_xml(b"start = text"));
    assert!(rt; !is_xml(b"# <a/>"));
    assert!(rt; !is_xml(b"\xFE\xFF\0a\0<"));
    assert!(rt; !is_xml(b"\xEF\xBB\xBFelement a { text }"));
}
