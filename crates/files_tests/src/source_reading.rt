// Files that are read with what they refer to: their names, their numbers and the order of both.
use crate::asked_files::{each_answered, each_told};

/// Names, which are counted from the deepest folder that holds all files, or from the root folder; and bytes that no name holds.
static NAMES: [(&str, &str); 5] = [
    (
        "file\t/w/a.rnc\tinclude 'b/c.rnc'\nfile\t/w/b/c.rnc\tstart = text\nword\ta.rnc",
        "a.rnc [1] b/c.rnc [] roots [0]",
    ),
    (
        "file\t/w/x/a.rnc\tstart = text\nword\tx/a.rnc",
        "a.rnc [] roots [0]",
    ),
    (
        "file\t/w/x/a.rnc\tstart = text\nword\tx/a.rnc\nroot\t/w",
        "x/a.rnc [] roots [0]",
    ),
    (
        "file\t/w/x/a.rnc\tinclude '../xy/b.rnc'\nfile\t/w/xy/b.rnc\t\nword\tx/a.rnc",
        "x/a.rnc [1] xy/b.rnc [] roots [0]",
    ),
    (
        "file\t/w/a b%\u{e9}.rnc\t\nword\ta b%\u{e9}.rnc",
        "a%20b%25%C3%A9.rnc [] roots [0]",
    ),
];

#[test]
fn modules_are_named_by_their_paths(rt: HostRuntime) {
    each_answered(&rt, &NAMES);
}

/// Files that are asked for or referred to by several spellings, links and words: each is one source.
static SPELLINGS: [(&str, &str); 2] = [
    (
        "file\t/w/a.rnc\tinclude 'b.rnc' include './x/../b.rnc' include '%62.rnc' include 'file:///w/b.rnc'\nfile\t/w/b.rnc\t\nword\ta.rnc\nword\tb.rnc\nword\t../w/a.rnc",
        "a.rnc [1, 1, 1, 1] b.rnc [] roots [0, 1]",
    ),
    (
        "file\t/w/a.rnc\tinclude 'l.rnc' include 'd/b.rnc'\nlink\t/w/l.rnc\t/w/b.rnc\nlink\t/w/d\t/w\nfile\t/w/b.rnc\t\nword\ta.rnc",
        "a.rnc [1, 1] b.rnc [] roots [0]",
    ),
];

#[test]
fn a_file_is_one_source(rt: HostRuntime) {
    each_answered(&rt, &SPELLINGS);
}

/// Files of several words and references: first those of the words, and then those referred to. None where nothing is asked for.
static ORDERS: [(&str, &str); 2] = [
    (
        "file\t/w/a.rnc\tinclude 'd.rnc' include 'c.rnc'\nfile\t/w/b.rnc\texternal 'c.rnc'\nfile\t/w/c.rnc\t\nfile\t/w/d.rnc\t\nword\tb.rnc\nword\ta.rnc",
        "b.rnc [2] a.rnc [3, 2] c.rnc [] d.rnc [] roots [0, 1]",
    ),
    ("file\t/w/a.rnc\t", "roots []"),
];

#[test]
fn files_are_in_the_order_of_words_and_references(rt: HostRuntime) {
    each_answered(&rt, &ORDERS);
}

/// Standard input, and a file of its name.
static STANDARD_INPUT: [(&str, &str); 6] = [
    (
        "file\t-\tinclude 'a.rnc'\nfile\t/w/a.rnc\t\nword\t-",
        "- [1] a.rnc [] roots [0]",
    ),
    (
        "file\t-\t\nfile\t/w/-\tinclude '-'\nword\t-\nword\t./-\nroot\t/",
        "Text { file: 1, at: 8 } Loop([1]);",
    ),
    (
        "file\t-\tinclude 'b.rnc'\nfile\t/w/x/b.rnc\t\nfile\t/w/x/a.rnc\t;\nword\t-\ninput\tx/a.rnc",
        "a.rnc [1] b.rnc [] roots [0]",
    ),
    (
        "file\t-\tx = text\nfile\t/w/x/b.rnc\tinclude 'new.rnc'\nword\tx/b.rnc\nword\t-\ninput\tx/../x/new.rnc\nroot\t/w",
        "Text { file: 0, at: 8 } File(Missing) \"x/new.rnc\";",
    ),
    (
        "file\t-\t\nfile\t/w/a.rnc\t\nword\ta.rnc\nword\t-\ninput\t./a.rnc",
        "Word(1) Twice;",
    ),
    (
        "file\t-\tinclude 'l.rnc'\nfile\t/w/a.rnc\t\nlink\t/w/l.rnc\t/w/a.rnc\nword\t-\ninput\ta.rnc",
        "Text { file: 0, at: 8 } Loop([0]);",
    ),
];

/// How files are told: by paths from the current folder, or from the topmost one where the file is so that refers to them.
static TOLD: [(&str, &str); 5] = [
    (
        "file\t/w/x/a.rnc\tinclude 'b.rnc' include '../c.rnc'\nfile\t/w/x/b.rnc\t\nfile\t/w/c.rnc\tinclude '../o/d.rnc'\nfile\t/o/d.rnc\t\nword\tx/a.rnc",
        "x/a.rnc x/b.rnc c.rnc /o/d.rnc ",
    ),
    (
        "file\t/w/x/a.rnc\tinclude 'b.rnc'\nfile\t/w/x/b.rnc\t\nword\t/w/x/a.rnc",
        "/w/x/a.rnc /w/x/b.rnc ",
    ),
    (
        "file\t-\tinclude 'b.rnc'\nfile\t/w/x/a.rnc\t\nfile\t/w/x/b.rnc\tinclude 'a.rnc'\nword\t-\ninput\t./x/a.rnc",
        "./x/a.rnc x/b.rnc Loop([0, 1])",
    ),
    (
        "file\t/w/a.rnc\tinclude 'http://h/b.rnc'\nfile\t/w/m/b.rnc\t\nword\ta.rnc\nmap\thttp://h\t/w/m",
        "a.rnc m/b.rnc ",
    ),
    (
        "file\t/w/a.rnc\tinclude 'a.rnc'\nword\ta.rnc",
        "a.rnc Loop([0])",
    ),
];

#[test]
fn files_are_told_from_the_current_folder(rt: HostRuntime) {
    each_told(&rt, &TOLD);
}

#[test]
fn standard_input_is_read(rt: HostRuntime) {
    each_answered(&rt, &STANDARD_INPUT);
}

/// Maps: the longest prefix counts, which is any front; a reference in a file that a map found is resolved against its URI.
static MAPS: [(&str, &str); 2] = [
    (
        "file\t/w/a.rnc\tinclude 'http://h/s/b.rnc' include 'http://h/sx/c.rnc'\nfile\t/m/b.rnc\tinclude '../t/d.rnc'\nfile\t/m/x/c.rnc\t\nfile\t/n/t/d.rnc\t\nword\ta.rnc\nmap\thttp://h\t/n\nmap\thttp://h/s\t/m",
        "a.rnc [1, 2] http://h/s/b.rnc [3] http://h/sx/c.rnc [] http://h/t/d.rnc [] roots [0]",
    ),
    (
        "file\t/w/a.rnc\tinclude 'urn:x:b%20c'\nfile\t/w/m/b c\t\nword\ta.rnc\nmap\turn:x:b%20c\tm/b c",
        "a.rnc [1] urn:x:b%2520c [] roots [0]",
    ),
];

#[test]
fn maps_lead_to_files(rt: HostRuntime) {
    each_answered(&rt, &MAPS);
}
