// The part of a long line that is shown, and texts without what does more than be seen.
use rn_report::{push_printable, skipped_front};
use std::alloc::{AllocError, Global};
use std::process::Abort;

/// What was made; out of memory is a failure.
fn made(rt: &(impl Abort + AllocGlobal), text: Result<String, AllocError>) -> String {
    match text {
        Ok(text) => text,
        Err(_) => panic!(rt; "out of memory"),
    }
}

/// A line of so many letters.
fn letters(alloc: Global, count: usize) -> Result<String, AllocError> {
    format!(in alloc; "{:a<count$}", "")
}

/// How many letters a line has, a column, and how many of them aren't shown before it.
static SKIPPED: [(usize, usize, usize); 6] = [
    (160, 160, 0),
    (161, 1, 0),
    (161, 81, 0),
    (161, 82, 1),
    (161, 162, 81),
    (0, 0, 0),
];

#[test]
fn long_lines_lose_their_front(rt: HostRuntime) {
    for (count, column, wanted) in &SKIPPED {
        let line = made(&rt, letters(rt.alloc(), *count));
        let found = skipped_front(line.as_str(), *column);
        assert!(rt;
            found == *wanted,
            "{count} letters, column {column}: {found}"
        );
    }
}

/// Texts, and what is shown of them.
static PRINTED: [(&str, &str); 5] = [
    ("a b\té日", "a b\té日"),
    ("\u{1B}[31m\u{7}", "?[31m?"),
    ("a\u{202E}b\u{2066}c\u{200B}", "a?b?c?"),
    ("a\u{2028}b\u{2029}c\n", "a?b?c?"),
    ("e\u{301}", "e\u{301}"),
];

/// What is shown of a text.
fn printed(alloc: Global, text: &str) -> Result<String, AllocError> {
    let mut out = String::new(alloc);
    push_printable(&mut out, text)?;
    Ok(out)
}

#[test]
fn hidden_characters_are_shown(rt: HostRuntime) {
    for (text, wanted) in &PRINTED {
        let found = made(&rt, printed(rt.alloc(), text));
        assert!(rt; found.as_str() == *wanted, "{text:?}: {found:?}");
    }
}
