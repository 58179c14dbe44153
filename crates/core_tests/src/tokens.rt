// The tokens of sources, or their faults, and long sources.
use crate::samples::repeated;
use rn_text::{Token, read_tokens, tokens};
use std::alloc::{AllocError, Global};
use std::process::Abort;

/// The kind, the text and the place of a token.
fn token_line(alloc: Global, token: &Token) -> Result<String, AllocError> {
    let (kind, text, start, end) = (token.kind, token.text, token.start, token.end);
    format!(in alloc; "{kind:?} {text} {start} {end};")
}

/// The kinds, texts and places of tokens.
fn token_lines(alloc: Global, found: &[Token]) -> Result<String, AllocError> {
    let mut out = String::new(alloc);
    for token in found {
        out.push_str(token_line(alloc, token)?.as_str())?;
    }
    Ok(out)
}

/// The kinds, texts and places of a source's tokens, or its fault.
fn tokens_or_fault(alloc: Global, src: &[u8]) -> Result<String, AllocError> {
    match tokens(alloc, src) {
        Ok(found) => token_lines(alloc, found.as_slice()),
        Err(fault) => format!(in alloc; "{fault:?}"),
    }
}

/// A source has these tokens, or this fault.
fn is_cut(rt: &(impl Abort + AllocGlobal), src: &[u8], wanted: &str) {
    let found = tokens_or_fault(rt.alloc(), src).expect(rt, "no memory");
    assert_eq!(rt; found.as_str(), wanted);
}

/// Sources, and their tokens in words or their faults.
static SOURCES: [(&str, &str); 38] = [
    ("", ""),
    ("a:b c:*", "Prefixed a:b 0 3;AnyOf c:* 4 7;"),
    ("a :b", "Lexical { at: 2 }"),
    ("a: b", "Lexical { at: 1 }"),
    ("a:1", "Lexical { at: 1 }"),
    ("a:b:c", "Lexical { at: 3 }"),
    ("a\\x{41}", "Lexical { at: 1 }"),
    ("\\xx{41}", "Lexical { at: 0 }"),
    ("\"\\x{0}\"", "Lexical { at: 0 }"),
    ("\"\\x{}\"", "Lexical { at: 0 }"),
    ("\"\\x{41\"", "Lexical { at: 0 }"),
    ("'\\x{110000}'", "Lexical { at: 0 }"),
    ("'\\x{D800}'", "Lexical { at: 0 }"),
    ("'\\x{100000041}'", "Lexical { at: 0 }"),
    ("|==", "Symbol |= 0 2;Symbol = 2 3;"),
    (
        "&=&>>>>",
        "Symbol &= 0 2;Symbol & 2 3;Symbol >> 3 5;Symbol >> 5 7;",
    ),
    (">", "Lexical { at: 0 }"),
    ("# x", ""),
    ("## x\ry#\nz", "Name y 5 6;Name z 8 9;"),
    ("start = \"\\x{22}\"", "Lexical { at: 8 }"),
    (
        "start = '\\x{22}'",
        "Keyword start 0 5;Symbol = 6 7;Segment '\\x{22}' 8 16;",
    ),
    ("'\\x{27}'", "Lexical { at: 0 }"),
    ("\"\"\"\\x{22}\"\"\"", "Lexical { at: 0 }"),
    ("\"\"\"\\x{27}\"\"\"", "Segment \"\"\"\\x{27}\"\"\" 0 12;"),
    ("'''\\x{00027}'''", "Lexical { at: 0 }"),
    ("start = \"a", "Lexical { at: 8 }"),
    ("\"a\nb\"", "Lexical { at: 0 }"),
    ("'a\rb'", "Lexical { at: 0 }"),
    ("'''a\r\nb'''", "Segment '''a\r\nb''' 0 10;"),
    (
        "\"\"\"a\"b\"\"\" \"\"",
        "Segment \"\"\"a\"b\"\"\" 0 9;Segment \"\" 10 12;",
    ),
    ("\"\"\"a", "Lexical { at: 0 }"),
    ("\"\"\"\"\"\"\"", "Lexical { at: 6 }"),
    ("\"'\"'\"'", "Segment \"'\" 0 3;Segment '\"' 3 6;"),
    (
        "\\start >> a \\xy",
        "Quoted \\start 0 6;Symbol >> 7 9;Name a 10 11;Quoted \\xy 12 15;",
    ),
    (
        "start:a starts list:*",
        "Prefixed start:a 0 7;Name starts 8 14;AnyOf list:* 15 21;",
    ),
    ("\u{FEFF}a", "Name a 3 4;"),
    ("\u{FEFF}\u{FEFF}a", "Name \u{FEFF}a 3 7;"),
    (
        "\u{3b1}\u{301}\u{b7}-1 \u{10000}",
        "Name \u{3b1}\u{301}\u{b7}-1 0 8;Name \u{10000} 9 13;",
    ),
];

#[test]
fn sources_are_cut(rt: HostRuntime) {
    for (source, wanted) in &SOURCES {
        is_cut(&rt, source.as_bytes(), wanted);
    }
}

/// The source's tokens take the place of those that are held: they are these, or there is this fault.
fn is_cut_behind<'a>(
    rt: &(impl Abort + AllocGlobal),
    found: &mut Vec<Token<'a>>,
    src: &'a [u8],
    wanted: &str,
) {
    let lines = match read_tokens(src, found) {
        Ok(()) => token_lines(rt.alloc(), found.as_slice()),
        Err(fault) => format!(in rt.alloc(); "{fault:?}"),
    };
    assert_eq!(rt; lines.expect(rt, "no memory").as_str(), wanted);
}

#[test]
fn sources_are_cut_one_behind_the_other(rt: HostRuntime) {
    let mut found = Vec::new(rt.alloc());
    for (source, wanted) in &SOURCES {
        is_cut_behind(&rt, &mut found, source.as_bytes(), wanted);
    }
}

/// Bytes that have no tokens, and their faults.
static FAULTS: [(&[u8], &str); 5] = [
    (b"start = text\xFF", "Encoding { at: 12 }"),
    (b"a\xE2\x82", "Encoding { at: 1 }"),
    (b"\x01\xFF", "Encoding { at: 1 }"),
    (b"| > a\x01", "Lexical { at: 5 }"),
    (b"a\xEF\xBF\xBE", "Lexical { at: 1 }"),
];

#[test]
fn faults_have_their_places(rt: HostRuntime) {
    for (source, wanted) in &FAULTS {
        is_cut(&rt, source, wanted);
    }
}

/// Sources of about 4 MB: a piece, how often it stands, and how many tokens it then makes.
static LONG: [(&str, usize, usize); 3] = [
    ("abcdefgh", 524288, 1),
    ("| ", 2000000, 2000000),
    ("\"\" # ' \n", 500000, 500000),
];

/// How many tokens a source has.
fn count_of_tokens(rt: &(impl Abort + AllocGlobal), src: &str) -> usize {
    tokens(rt.alloc(), src.as_bytes())
        .expect(rt, "a fault")
        .len()
}

/// A source of so many pieces between quotes has so many tokens.
fn has_tokens(
    rt: &(impl Abort + AllocGlobal),
    quotes: &str,
    piece: &str,
    times: usize,
    wanted: usize,
) {
    let source = repeated(rt.alloc(), quotes, piece, times, quotes).expect(rt, "no memory");
    assert_eq!(rt; count_of_tokens(rt, source.as_str()), wanted);
}

#[test]
fn long_sources_are_read(rt: HostRuntime) {
    for (piece, times, wanted) in &LONG {
        has_tokens(&rt, "", piece, *times, *wanted);
    }
    has_tokens(&rt, "'''", "\\x{41}\\xx'\"", 349525, 1);
}
