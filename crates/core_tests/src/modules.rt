// What a text's module is: brackets, and the literals of its includes.
use crate::samples::repeated;
use rn_syntax::{Item, Module, SyntaxFault, includes, parse};
use rn_text::{Token, tokens};
use std::alloc::{AllocError, Global};
use std::borrow::CowStr;
use std::process::Abort;

/// The tokens of a text.
fn tokens_of<'a>(rt: &(impl Abort + AllocGlobal), text: &'a str) -> Vec<Token<'a>> {
    tokens(rt.alloc(), text.as_bytes()).expect(rt, "no tokens")
}

/// The module of tokens.
fn module_of<'a>(rt: &(impl Abort + AllocGlobal), tokens: &[Token<'a>]) -> Module<'a> {
    parse(rt.alloc(), tokens).expect(rt, "no module")
}

/// The fault of a text whose tokens are good.
fn fault(rt: &(impl Abort + AllocGlobal), text: &str) -> Option<SyntaxFault> {
    let tokens = tokens_of(rt, text);
    parse(rt.alloc(), tokens.as_slice()).err()
}

/// A text that opens this many brackets and closes them.
fn nested(
    alloc: Global,
    front: &str,
    open: &str,
    inner: &str,
    close: &str,
    count: usize,
) -> Result<String, AllocError> {
    let opened = repeated(alloc, front, open, count, inner)?;
    repeated(alloc, opened.as_str(), close, count, "")
}

/// Texts of brackets: what stands before them, a bracket, what is inside, its closing one, the place in bytes of the one that
/// is too deep, and whether so many as are allowed make a module.
static BRACKETS: [(&str, &str, &str, &str, usize, bool); 5] = [
    ("start = ", "(", "text", ")", 264, true),
    ("start = ", "list {", "text", "}", 8 + 256 * 6 + 5, true),
    ("", "div {", "", "}", 256 * 5 + 4, true),
    ("a ", "[", "", "]", 258, true),
    ("start = ", "(", "", "", 264, false),
];

#[test]
fn brackets_are_too_deep(rt: HostRuntime) {
    for (front, open, inner, close, at, _) in &BRACKETS {
        let text = nested(rt.alloc(), front, open, inner, close, 257).expect(&rt, "no memory");
        let found = fault(&rt, text.as_str());
        assert!(rt; found == Some(SyntaxFault::Deep { at: *at }), "{front}");
    }
}

#[test]
fn the_deepest_brackets_are_read(rt: HostRuntime) {
    for (front, open, inner, close, _, is_module) in &BRACKETS {
        let text = nested(rt.alloc(), front, open, inner, close, 256).expect(&rt, "no memory");
        let at_end = Some(SyntaxFault::Syntax { at: text.len() });
        let wanted = if *is_module { None } else { at_end };
        assert!(rt; fault(&rt, text.as_str()) == wanted, "{front}");
    }
}

#[test]
fn literals_of_includes_are_listed(rt: HostRuntime) {
    let text =
        "include 'a' { } div { include \"b\" ~ 'c' div { include \"l\\x{69}b\" } } include \"\\x\"";
    let tokens = tokens_of(&rt, text);
    let module = module_of(&rt, tokens.as_slice());
    let found = includes(rt.alloc(), &module).expect(&rt, "no memory");
    assert!(rt; found.as_slice() == ["a", "bc", "lib", "\\x"].as_slice());
}

/// Whether the literal of the only include of a module has this text, and whether it is a slice of its source.
fn has_borrowed(module: &Module, text: &str) -> Option<(bool, bool)> {
    let [item] = module.items.as_slice() else {
        return None;
    };
    let Item::Include(include) = item else {
        return None;
    };
    let is_text = include.wanted.as_str() == text;
    match include.wanted {
        CowStr::Borrowed(_) => Some((is_text, true)),
        CowStr::Owned(_) => Some((is_text, false)),
    }
}

/// Whether the literal of the only include of a source has this text, and whether it is a slice of it.
fn is_borrowed(rt: &(impl Abort + AllocGlobal), source: &str, text: &str) -> Option<(bool, bool)> {
    let tokens = tokens_of(rt, source);
    has_borrowed(&module_of(rt, tokens.as_slice()), text)
}

#[test]
fn literals_as_written_are_borrowed(rt: HostRuntime) {
    for (source, text, wanted) in [
        ("include \"lib\"", "lib", true),
        ("include '''l\"'b\n'''", "l\"'b\n", true),
        ("include \"\\x41\"", "\\x41", true),
        ("include \"\"", "", true),
        ("include \"l\" ~ \"ib\"", "lib", false),
        ("include \"l\\x{69}b\"", "lib", false),
        ("include '''a\r'''", "a\n", false),
    ] {
        assert!(rt;
            is_borrowed(&rt, source, text) == Some((true, wanted)),
            "{source}"
        );
    }
}
