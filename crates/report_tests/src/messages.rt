// Messages at a byte of a file, and the lines and the objects that they are written as.
use rn_report::{Colours, Format, Message, MessageKind, Messages, Page, Spot, message_text};
use std::alloc::{AllocError, Global};
use std::process::Abort;

/// The message `s` at a byte of the file `f`, as it is written.
fn written(alloc: Global, text: &str, at: usize, format: Format) -> Result<String, AllocError> {
    written_at(alloc, text, Some(Spot { file: 0, at }), 0, format)
}

/// The message `s` at a spot, and so many faults that aren't told, as they are written.
fn written_at(
    alloc: Global,
    text: &str,
    spot: Option<Spot>,
    further: usize,
    format: Format,
) -> Result<String, AllocError> {
    let page = Page {
        name: "m",
        path: "f",
        text,
        written: None,
    };
    let sentence = String::from_str(alloc, "s")?;
    let message = Message::new(alloc, MessageKind::Syntax, spot, sentence);
    let mut told = Messages::of_message(alloc, message)?;
    told.further = further;
    message_text(alloc, &[page], &told, format)
}

/// What is written is what is wanted.
fn is_wanted(rt: &(impl Abort + AllocGlobal), found: Result<String, AllocError>, wanted: &str) {
    match found {
        Ok(found) => assert!(rt;
            found.as_str() == wanted,
            "{wanted:?} is wanted, not {found:?}"
        ),
        Err(_) => panic!(rt; "out of memory"),
    }
}

/// Texts, bytes of them, and the lines of a message there.
static LINES: [(&str, usize, &str); 14] = [
    (
        "start = a",
        8,
        "f:1:9: error: s\n    start = a\n            ^\n",
    ),
    ("a\nbc", 3, "f:2:2: error: s\n    bc\n     ^\n"),
    ("a\nbc\nd", 3, "f:2:2: error: s\n    bc\n     ^\n"),
    ("a\r\nbc", 3, "f:2:1: error: s\n    bc\n    ^\n"),
    ("a\rbc", 2, "f:2:1: error: s\n    bc\n    ^\n"),
    ("ab", 2, "f:1:3: error: s\n    ab\n      ^\n"),
    ("ab", 9, "f:1:3: error: s\n    ab\n      ^\n"),
    ("a\n", 2, "f:2:1: error: s\n"),
    // a tab stays, so that the caret is below
    ("\tx", 1, "f:1:2: error: s\n    \tx\n    \t^\n"),
    // wide characters take two columns, marks on others none
    ("日x", 3, "f:1:2: error: s\n    日x\n      ^\n"),
    ("e\u{301}x", 3, "f:1:3: error: s\n    e\u{301}x\n     ^\n"),
    // what controls a terminal or can't be seen
    (
        "a\u{1B}\u{202E}b",
        5,
        "f:1:4: error: s\n    a??b\n       ^\n",
    ),
    // a byte order mark is no column
    ("\u{FEFF}ab", 3, "f:1:1: error: s\n    ab\n    ^\n"),
    ("\u{FEFF}ab", 4, "f:1:2: error: s\n    ab\n     ^\n"),
];

#[test]
fn messages_are_lines(rt: HostRuntime) {
    for (text, at, wanted) in &LINES {
        let format = Format::Lines(Colours::Plain);
        is_wanted(&rt, written(rt.alloc(), text, *at, format), wanted);
    }
}

#[test]
fn lines_have_colours(rt: HostRuntime) {
    let format = Format::Lines(Colours::Terminal);
    let wanted = "\u{1B}[1mf:1:1: \u{1B}[31merror: \u{1B}[0ms\n    a\n    \u{1B}[1;32m^\u{1B}[0m\n";
    is_wanted(&rt, written(rt.alloc(), "a", 0, format), wanted);
}

/// Spots, numbers of faults that aren't told, and lines.
static SPOTS: [(Option<Spot>, usize, &str); 3] = [
    (None, 0, "rnc-flat: error: s\n"),
    (Some(Spot { file: 1, at: 0 }), 0, "rnc-flat: error: s\n"),
    (
        None,
        2,
        "rnc-flat: error: s\nrnc-flat: note: there are more faults, which are not told: 2\n",
    ),
];

#[test]
fn messages_may_have_no_place(rt: HostRuntime) {
    for (spot, further, wanted) in &SPOTS {
        let format = Format::Lines(Colours::Plain);
        is_wanted(
            &rt,
            written_at(rt.alloc(), "a", *spot, *further, format),
            wanted,
        );
    }
}

/// Texts, bytes of them, and where a message there is: its line, its column, and the column after what is there.
static ENDS: [(&str, usize, (usize, usize, usize)); 9] = [
    ("start = a", 0, (1, 1, 6)),
    ("x:a-b.c_d|e", 0, (1, 1, 10)),
    ("a|b", 1, (1, 2, 3)),
    ("é\u{301}1 ", 0, (1, 1, 4)),
    ("\"a b\" c", 0, (1, 1, 6)),
    ("'a", 0, (1, 1, 2)),
    ("'a\n'", 0, (1, 1, 2)),
    ("ab", 2, (1, 3, 3)),
    ("\u{FEFF}ab", 3, (1, 1, 3)),
];

#[test]
fn messages_are_objects(rt: HostRuntime) {
    for (text, at, (line, column, end)) in &ENDS {
        let wanted = match format!(in rt.alloc();
            "{{\"file\":\"f\",\"line\":{line},\"column\":{column},\"end\":{end},\"severity\":\"error\",\"kind\":\"syntax\",\"sentence\":\"s\",\"places\":[]}}\n"
        ) {
            Ok(wanted) => wanted,
            Err(_) => panic!(rt; "out of memory"),
        };
        is_wanted(
            &rt,
            written(rt.alloc(), text, *at, Format::Json),
            wanted.as_str(),
        );
    }
}

#[test]
fn objects_may_have_no_place(rt: HostRuntime) {
    let wanted =
        "{\"severity\":\"error\",\"kind\":\"syntax\",\"sentence\":\"s\",\"places\":[]}\n{\"severity\":\"note\",\"kind\":\"further\",\"count\":3}\n";
    is_wanted(
        &rt,
        written_at(rt.alloc(), "a", None, 3, Format::Json),
        wanted,
    );
}
