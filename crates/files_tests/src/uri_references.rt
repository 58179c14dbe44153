// References that are resolved as RFC 3986, section 5.4, has them, and references that name no file.
use crate::comparing::{expect_text, same_for};
use rn_files::{remove_dot_segments, resolve};
use std::alloc::{AllocError, Global};

/// References in `http://a/b/c/d;p`, and the URIs that they stand for. All but the last ten are those of RFC 3986, sections 5.4.1 and
/// 5.4.2, without their queries and fragments; these have characters that are escaped, an escape, a host with dot segments, and dots that
/// are spelled as escapes.
static RESOLVED: [(&str, &str); 41] = [
    ("g:h", "g:h"),
    ("g", "http://a/b/c/g"),
    ("./g", "http://a/b/c/g"),
    ("g/", "http://a/b/c/g/"),
    ("/g", "http://a/g"),
    ("//g", "http://g"),
    (";x", "http://a/b/c/;x"),
    ("g;x", "http://a/b/c/g;x"),
    (".", "http://a/b/c/"),
    ("./", "http://a/b/c/"),
    ("..", "http://a/b/"),
    ("../", "http://a/b/"),
    ("../g", "http://a/b/g"),
    ("../..", "http://a/"),
    ("../../", "http://a/"),
    ("../../g", "http://a/g"),
    ("../../../g", "http://a/g"),
    ("../../../../g", "http://a/g"),
    ("/./g", "http://a/g"),
    ("/../g", "http://a/g"),
    ("g.", "http://a/b/c/g."),
    (".g", "http://a/b/c/.g"),
    ("g..", "http://a/b/c/g.."),
    ("..g", "http://a/b/c/..g"),
    ("./../g", "http://a/b/g"),
    ("./g/.", "http://a/b/c/g/"),
    ("g/./h", "http://a/b/c/g/h"),
    ("g/../h", "http://a/b/c/h"),
    ("g;x=1/./y", "http://a/b/c/g;x=1/y"),
    ("g;x=1/../y", "http://a/b/c/y"),
    ("http:g", "http:g"),
    ("a b\u{e9}\\", "http://a/b/c/a%20b%C3%A9%5C"),
    ("a%20b", "http://a/b/c/a%20b"),
    ("//h/./x/../y", "http://h/y"),
    ("%2e/g", "http://a/b/c/g"),
    ("%2E%2e/g", "http://a/b/g"),
    (".%2e/g", "http://a/b/g"),
    ("%2E./g", "http://a/b/g"),
    ("%2e%2e/%2e%2e/%2e%2e/g", "http://a/g"),
    ("g%2eh", "http://a/b/c/g%2eh"),
    ("%252e%252e/g", "http://a/b/c/%252e%252e/g"),
];

/// References that stand for no URI of a file.
static REFUSED: [(&str, &str); 8] = [
    ("", "Empty"),
    ("?q", "Query"),
    ("g?y", "Query"),
    ("#s", "Fragment"),
    ("g?y#s", "Fragment"),
    ("%", "Escape"),
    ("a%2", "Escape"),
    ("a%zz", "Escape"),
];

/// The URI that a reference stands for in a file with a URI, or its fault.
fn uri_or_fault(alloc: Global, base: &str, reference: &str) -> Result<String, AllocError> {
    match resolve(alloc, base, reference) {
        Ok(uri) => Ok(uri),
        Err(fault) => format!(in alloc; "{fault:?}"),
    }
}

#[test]
fn references_are_resolved_as_the_standard_says(rt: HostRuntime) {
    for (reference, wanted) in &RESOLVED {
        let found = expect_text(&rt, uri_or_fault(rt.alloc(), "http://a/b/c/d;p", reference));
        same_for(&rt, reference, found.as_str(), wanted);
    }
}

#[test]
fn references_without_a_file_are_refused(rt: HostRuntime) {
    for (reference, wanted) in &REFUSED {
        let found = expect_text(&rt, uri_or_fault(rt.alloc(), "file:///a/b", reference));
        same_for(&rt, reference, found.as_str(), wanted);
    }
}

/// Bases, references and the URIs that they stand for.
static BASES: [(&str, &str, &str); 5] = [
    ("http://a", "g", "http://a/g"),
    ("file:///w/a.rnc", "b.rnc", "file:///w/b.rnc"),
    ("file:///w/a.rnc", "../../b.rnc", "file:///b.rnc"),
    ("file:///w/a.rnc", "//h/b.rnc", "file://h/b.rnc"),
    ("urn:a:b", "c", "urn:c"),
];

#[test]
fn references_are_resolved_against_other_bases(rt: HostRuntime) {
    for (base, reference, wanted) in &BASES {
        let found = expect_text(&rt, uri_or_fault(rt.alloc(), base, reference));
        same_for(&rt, base, found.as_str(), wanted);
    }
}

/// Paths, without their dot segments (the first two are the standard's, section 5.2.4).
static PATHS: [(&str, &str); 15] = [
    ("/a/b/c/./../../g", "/a/g"),
    ("mid/content=5/../6", "mid/6"),
    ("", ""),
    ("..", ""),
    ("../a/./b", "a/b"),
    ("./../.", ""),
    ("/..", "/"),
    ("/a//../b", "/a/b"),
    ("/a/..", "/"),
    ("/a/b/.", "/a/b/"),
    ("a//b", "a//b"),
    ("//", "//"),
    ("a/..", "/"),
    ("a/../b", "/b"),
    ("..//a", "/a"),
];

#[test]
fn dot_segments_are_removed(rt: HostRuntime) {
    for (path, wanted) in &PATHS {
        let found = expect_text(&rt, remove_dot_segments(rt.alloc(), path));
        same_for(&rt, path, found.as_str(), wanted);
    }
}
