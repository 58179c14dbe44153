// The texts of segments, and the literals of texts, which are read back.
use rn_text::{Kind, Token, literal, tokens, write_literal};
use std::alloc::{AllocError, Global};
use std::process::Abort;

/// Segments, or another token, and the text of each.
static SEGMENTS: [(&str, &str); 10] = [
    ("''", ""),
    ("\"\"\"\"\"\"", ""),
    ("'\\xx{41}'", "A"),
    ("'\\x{00022}\\x'", "\"\\x"),
    ("\"\"\"a\"b\r\nc\rd\n\"\"\"", "a\"b\nc\nd\n"),
    ("'''\r\r\n\n'''", "\n\n\n"),
    ("'\\x{D}\\x{a}'", "\r\n"),
    ("\"\\x{10FFFF}\"", "\u{10FFFF}"),
    ("'\\\\x{42}\\'", "\\B\\"),
    ("name", ""),
];

/// The literal of a source's first token, whatever its kind, has this text.
fn first_is_read(rt: &(impl Abort + AllocGlobal), given: &str, wanted: &str) {
    let found = tokens(rt.alloc(), given.as_bytes()).expect(rt, "a fault");
    let first = found.as_slice().first().expect(rt, "no token");
    let text = literal(rt.alloc(), first).expect(rt, "no memory");
    assert_eq!(rt; text.as_str(), wanted, "{given}");
}

#[test]
fn segments_are_read(rt: HostRuntime) {
    for (given, wanted) in &SEGMENTS {
        first_is_read(&rt, given, wanted);
    }
}

/// Texts, and the literal that is written for each.
static LITERALS: [(&str, &str); 9] = [
    ("", "\"\""),
    ("a\\xx", "\"a\\\" ~ \"xx\""),
    ("\\x{41}", "\"\\\" ~ \"x{41}\""),
    ("\\\\", "\"\\\\\""),
    ("\"\"a", "'\"\"' ~ \"a\""),
    ("a\"b\nc", "\"a\" ~ '\"' ~ \"b\\x{A}c\""),
    ("'\t\r", "\"'\\x{9}\\x{D}\""),
    ("\"", "'\"'"),
    ("x\\\"x", "\"x\\\" ~ '\"' ~ \"x\""),
];

/// The literal of a text.
fn written_literal(alloc: Global, text: &str) -> Result<String, AllocError> {
    let mut out = String::new(alloc);
    write_literal(&mut out, text)?;
    Ok(out)
}

/// The text of the segments among tokens.
fn text_of_segments(alloc: Global, found: &[Token]) -> Result<String, AllocError> {
    let mut read = String::new(alloc);
    for token in found {
        if token.kind == Kind::Segment {
            read.push_str(literal(alloc, token)?.as_str())?;
        }
    }
    Ok(read)
}

/// A text has this literal, which is read back.
fn is_written(rt: &(impl Abort + AllocGlobal), given: &str, wanted: &str) {
    let found = written_literal(rt.alloc(), given).expect(rt, "no memory");
    assert_eq!(rt; found.as_str(), wanted, "{given}");
    let found = tokens(rt.alloc(), wanted.as_bytes()).expect(rt, "a fault");
    let read = text_of_segments(rt.alloc(), found.as_slice()).expect(rt, "no memory");
    assert_eq!(rt; read.as_str(), given, "{wanted}");
}

#[test]
fn literals_are_written(rt: HostRuntime) {
    for (given, wanted) in &LITERALS {
        is_written(&rt, given, wanted);
    }
}
