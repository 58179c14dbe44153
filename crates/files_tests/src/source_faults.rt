// Files that are refused with what they refer to: each fault with its place.
use crate::asked_files::each_answered;

/// References that lead to no file.
static REFERENCES: [(&str, &str); 1] = [(
    "file\t/w/a.rnc\tinclude '' include 'file://h/x' include 'http://h/x' include 'x#y' include 'x?y' include '%00' include 'a%2Fb' include '%' include '%FF' include 'file:x' include 'none.rnc' include 'd'\nfile\t/w/d/x\t\nword\ta.rnc",
    "Text { file: 0, at: 8 } Reference(Empty);Text { file: 0, at: 19 } Reference(Host);Text { file: 0, at: 40 } Reference(Scheme) \"http://h/x\";Text { file: 0, at: 61 } Reference(Fragment);Text { file: 0, at: 75 } Reference(Query);Text { file: 0, at: 89 } Reference(Byte);Text { file: 0, at: 103 } Reference(Byte);Text { file: 0, at: 119 } Reference(Escape);Text { file: 0, at: 131 } Reference(Encoding);Text { file: 0, at: 145 } Reference(Relative);Text { file: 0, at: 162 } File(Missing) \"none.rnc\";Text { file: 0, at: 181 } File(Folder) \"d\";",
)];

#[test]
fn references_have_their_faults(rt: HostRuntime) {
    each_answered(&rt, &REFERENCES);
}

/// Pipes: a reference opens none, an argument does.
static PIPES: [(&str, &str); 2] = [
    (
        "file\t/w/a.rnc\tinclude 'p' include 'l' include 'http://h/p'\npipe\t/w/p\tx = text\nlink\t/w/l\t/w/p\nword\ta.rnc\nmap\thttp://h\t/w",
        "Text { file: 0, at: 8 } File(Special) \"p\";Text { file: 0, at: 20 } File(Special) \"l\";Text { file: 0, at: 32 } File(Special) \"p\" for \"http://h/p\";",
    ),
    (
        "pipe\t/w/p\tstart = text\nword\tp\nword\t./p",
        "p [] roots [0]",
    ),
];

#[test]
fn pipes_are_read_where_an_argument_names_them(rt: HostRuntime) {
    each_answered(&rt, &PIPES);
}

/// References that lead out of the root folder, or that a link may lead out, whether something is there or not.
static LED_OUT: [(&str, &str); 5] = [
    (
        "file\t/w/r/a.rnc\tinclude 'l' include 'l/x' include '/x/y' include 'd/l/y'\nlink\t/w/r/l\t/w/none\nlink\t/w/r/d/l\t/w/r\nword\tr/a.rnc\nroot\tr",
        "Text { file: 0, at: 8 } Outside;Text { file: 0, at: 20 } Outside;Text { file: 0, at: 34 } Outside;Text { file: 0, at: 49 } Outside;",
    ),
    (
        "file\t/w/r/a.rnc\tinclude '/w' include '/w/p' include 'p' include 'l'\npipe\t/w/p\t\npipe\t/w/r/p\t\nlink\t/w/r/l\t/w/p\nword\tr/a.rnc\nroot\tr",
        "Text { file: 0, at: 8 } Outside;Text { file: 0, at: 21 } Outside;Text { file: 0, at: 36 } File(Special) \"r/p\";Text { file: 0, at: 48 } Outside;",
    ),
    (
        "file\t/w/r/a.rnc\tinclude 'http://h/b.rnc'\nlink\t/w/m/b.rnc\t/w/c.rnc\nfile\t/w/c.rnc\t\nword\tr/a.rnc\nmap\thttp://h\t/w/m",
        "a.rnc [1] http://h/b.rnc [] roots [0]",
    ),
    (
        "file\t/w/r/a.rnc\tinclude 'http://h/b.rnc'\nlink\t/w/m/b.rnc\t/w/r/c.rnc\nfile\t/w/r/c.rnc\t\nword\tr/a.rnc\nroot\tr\nmap\thttp://h\t/w/m",
        "a.rnc [1] http://h/b.rnc [] roots [0]",
    ),
    (
        "file\t-\tinclude 'b.rnc'\nfile\t/w/b.rnc\t\nword\t-\nroot\t/w",
        "- [1] b.rnc [] roots [0]",
    ),
];

#[test]
fn what_leads_out_of_the_root_folder_has_one_fault(rt: HostRuntime) {
    each_answered(&rt, &LED_OUT);
}

/// Files that are swapped between the look and the opening: with a root folder what was opened counts.
static SWAPPED: [(&str, &str); 5] = [
    (
        "file\t/w/r/a.rnc\tinclude 'b.rnc'\nswapped\t/w/r/b.rnc\t/w/c.rnc\nfile\t/w/c.rnc\tstart = ^\nword\tr/a.rnc\nroot\tr",
        "Text { file: 0, at: 8 } Outside;",
    ),
    (
        "swapped\t/w/r/a.rnc\t/w/c.rnc\nfile\t/w/c.rnc\tstart = ^\nword\tr/a.rnc\nroot\tr",
        "Word(0) Outside;",
    ),
    (
        "file\t/w/r/a.rnc\tinclude 'b.rnc'\nswapped\t/w/r/b.rnc\t/w/r/c.rnc\nfile\t/w/r/c.rnc\t\nword\tr/a.rnc\nroot\tr",
        "a.rnc [1] b.rnc [] roots [0]",
    ),
    (
        "file\t/w/r/a.rnc\tinclude 'b.rnc'\nswapped\t/w/r/b.rnc\t/w/c.rnc\nfile\t/w/c.rnc\t\nword\tr/a.rnc",
        "a.rnc [1] b.rnc [] roots [0]",
    ),
    (
        "file\t/w/r/a.rnc\tinclude 'http://h/b.rnc'\nswapped\t/w/m/b.rnc\t/w/c.rnc\nfile\t/w/c.rnc\tstart = ^\nword\tr/a.rnc\nroot\tr\nmap\thttp://h\t/w/m",
        "Text { file: 0, at: 8 } Outside;",
    ),
];

#[test]
fn files_that_are_swapped_are_refused(rt: HostRuntime) {
    each_answered(&rt, &SWAPPED);
}

/// Files that a map finds with a root folder: they lie in the folder of the map, which may be one file, or in the root.
static MAPPED: [(&str, &str); 4] = [
    (
        "file\t/w/r/a.rnc\tinclude 'http://h/b.rnc' include 'http://h/none.rnc' include 'http://h/d/none.rnc'\nlink\t/w/m/b.rnc\t/w/c.rnc\nfile\t/w/c.rnc\tstart = ^\nlink\t/w/m/d\t/w\nword\tr/a.rnc\nroot\tr\nmap\thttp://h\t/w/m",
        "Text { file: 0, at: 8 } Outside;Text { file: 0, at: 33 } File(Missing) \"m/none.rnc\" for \"http://h/none.rnc\";Text { file: 0, at: 61 } Outside;",
    ),
    (
        "file\t/w/r/a.rnc\tinclude 'http://h/b.rnc' include 'urn:x:c'\nlink\t/w/l\t/w/m\nfile\t/w/m/b.rnc\t\nfile\t/w/c.rnc\t\nword\tr/a.rnc\nroot\tr\nmap\thttp://h\tl\nmap\turn:x:c\tc.rnc",
        "a.rnc [1, 2] http://h/b.rnc [] urn:x:c [] roots [0]",
    ),
    (
        "file\t/w/r/a.rnc\tinclude 'http://h/b.rnc'\nlink\t/w/m/b.rnc\t/w/mx/b.rnc\nfile\t/w/mx/b.rnc\t\nword\tr/a.rnc\nroot\tr\nmap\thttp://h\tm",
        "Text { file: 0, at: 8 } Outside;",
    ),
    (
        "file\t/w/a.rnc\tstart = ^\nword\ta.rnc\nroot\tno",
        "Root File(Missing);",
    ),
];

#[test]
fn maps_bound_what_they_find(rt: HostRuntime) {
    each_answered(&rt, &MAPPED);
}

/// Files above the root folder, in a folder of its name and in others.
static ROOT_FOLDER: [(&str, &str); 7] = [
    (
        "file\t/w/r/a.rnc\tinclude '../r/b.rnc' include '../rx/c.rnc'\nfile\t/w/r/b.rnc\t\nfile\t/w/rx/c.rnc\t\nword\tr/a.rnc\nroot\tr",
        "Text { file: 0, at: 29 } Outside;",
    ),
    (
        "file\t/w/r/a.rnc\tinclude '../none.rnc' include 'none.rnc' include '../r/none.rnc'\nword\tr/a.rnc\nroot\t./r",
        "Text { file: 0, at: 8 } Outside;Text { file: 0, at: 30 } File(Missing) \"r/none.rnc\";Text { file: 0, at: 49 } File(Missing) \"r/none.rnc\";",
    ),
    (
        "file\t/w/r/a.rnc\tinclude 'l.rnc'\nlink\t/w/r/l.rnc\t/w/b.rnc\nfile\t/w/b.rnc\t\nword\tr/a.rnc\nroot\tr",
        "Text { file: 0, at: 8 } Outside;",
    ),
    (
        "file\t/w/l/a.rnc\t\nfile\t/w/r/a.rnc\tinclude 'b.rnc'\nlink\t/w/l\t/w/r\nfile\t/w/r/b.rnc\t\nword\tl/a.rnc\nroot\tr",
        "a.rnc [1] b.rnc [] roots [0]",
    ),
    (
        "file\t/w/r/a.rnc\tinclude 'http://h/b.rnc'\nfile\t/w/b.rnc\t\nword\tr/a.rnc\nroot\tr\nmap\thttp://h\t/w",
        "a.rnc [1] http://h/b.rnc [] roots [0]",
    ),
    (
        "file\t/w/a.rnc\tstart = ^\nfile\t/w/r/b.rnc\t\nword\ta.rnc\nword\tr/b.rnc\nroot\tr",
        "Word(0) Outside;",
    ),
    (
        "file\t/w/a.rnc\t\nword\ta.rnc\nroot\tno",
        "Root File(Missing);",
    ),
];

#[test]
fn files_outside_the_root_folder_are_refused(rt: HostRuntime) {
    each_answered(&rt, &ROOT_FOLDER);
}

/// References above the topmost folder, and above that of a URI that a map finds, by escapes too.
static TOPMOST: [(&str, &str); 4] = [
    (
        "file\t/w/a.rnc\tinclude 'http://h/%2e%2e/b.rnc' include 'http://h/x/.%2E/%2E./b.rnc' include 'http://h/x/%2e%2e/b.rnc'\nfile\t/w/b.rnc\t\nfile\t/w/m/b.rnc\t\nword\ta.rnc\nmap\thttp://h\tm",
        "Text { file: 0, at: 8 } Reference(Above);Text { file: 0, at: 40 } Reference(Above);",
    ),
    (
        "file\t/w/a.rnc\tinclude 'x/%2e%2e/b.rnc' include '%2e/b.rnc' include '%252e%252e/c.rnc'\nfile\t/w/b.rnc\t\nfile\t/w/%2e%2e/c.rnc\t\nword\ta.rnc",
        "a.rnc [1, 1, 2] b.rnc [] %252e%252e/c.rnc [] roots [0]",
    ),
    (
        "file\t/w/a.rnc\tinclude '../b.rnc' include '../../b.rnc' include 'file:///../b.rnc' include 'x/../../../b.rnc'\nfile\t/b.rnc\t\nword\ta.rnc",
        "Text { file: 0, at: 27 } Reference(Above);Text { file: 0, at: 49 } Reference(Above);Text { file: 0, at: 76 } Reference(Above);",
    ),
    (
        "file\t/w/a.rnc\tinclude '/../b.rnc' include '/w/../b.rnc' include './/../b.rnc'\nfile\t/b.rnc\t\nfile\t/w/b.rnc\t\nword\ta.rnc",
        "Text { file: 0, at: 8 } Reference(Above);",
    ),
];

#[test]
fn references_above_the_topmost_folder_are_refused(rt: HostRuntime) {
    each_answered(&rt, &TOPMOST);
}

/// What a URI led to is the same wherever it is named, and has its fault at each place.
static AGAIN: [(&str, &str); 2] = [
    (
        "file\t/w/a.rnc\tinclude 'c' include 'b.rnc' include 'c' include ''\nfile\t/w/b.rnc\tinclude 'c' include 'd/../c' include ''\nword\ta.rnc",
        "Text { file: 0, at: 8 } File(Missing) \"c\";Text { file: 0, at: 36 } File(Missing) \"c\";Text { file: 0, at: 48 } Reference(Empty);Text { file: 1, at: 8 } File(Missing) \"c\";Text { file: 1, at: 20 } File(Missing) \"c\";Text { file: 1, at: 37 } Reference(Empty);",
    ),
    (
        "file\t/w/r/a.rnc\tinclude '../b' include '../b'\nfile\t/w/b\t\nword\tr/a.rnc\nroot\tr",
        "Text { file: 0, at: 8 } Outside;Text { file: 0, at: 23 } Outside;",
    ),
];

#[test]
fn faults_are_told_at_each_place(rt: HostRuntime) {
    each_answered(&rt, &AGAIN);
}

/// Words that name no file.
static WORDS: [(&str, &str); 1] = [(
    "file\t/w/d/a.rnc\t\nword\tb.rnc\nword\td",
    "Word(0) File(Missing);Word(1) File(Folder);",
)];

#[test]
fn words_have_their_faults(rt: HostRuntime) {
    each_answered(&rt, &WORDS);
}

/// A current folder that isn't there: files may be named from the topmost folder, and no other way.
static CURRENT: [(&str, &str); 4] = [
    (
        "file\t/x/a.rnc\tinclude 'b.rnc'\nfile\t/x/b.rnc\t\nword\t/x/a.rnc",
        "a.rnc [1] b.rnc [] roots [0]",
    ),
    (
        "file\t/x/a.rnc\t\nword\t/x/a.rnc\nroot\t/",
        "x/a.rnc [] roots [0]",
    ),
    (
        "file\t/x/a.rnc\t\nword\t/x/a.rnc\nroot\tx",
        "Current File(Missing);",
    ),
    (
        "file\t-\t\nfile\t/x/a.rnc\t\nword\t/x/a.rnc\nword\t-",
        "Current File(Missing);",
    ),
];

#[test]
fn files_are_named_from_the_topmost_folder(rt: HostRuntime) {
    each_answered(&rt, &CURRENT);
}

/// Texts with faults, of which all are told.
static TEXTS: [(&str, &str); 1] = [(
    "file\t/w/a.rnc\tinclude 'b.rnc' include 'c.rnc'\nfile\t/w/b.rnc\tstart = ^\nfile\t/w/c.rnc\tstart = = text\nword\ta.rnc",
    "Text { file: 1, at: 8 } Lexical;Text { file: 2, at: 8 } Syntax(Some(Pattern));",
)];

#[test]
fn texts_have_their_faults(rt: HostRuntime) {
    each_answered(&rt, &TEXTS);
}

/// Loops, with their files in order, and a file that two ways lead to, which is no loop.
static LOOPS: [(&str, &str); 5] = [
    (
        "file\t/w/a.rnc\tinclude 'b.rnc'\nfile\t/w/b.rnc\tinclude 'c.rnc'\nfile\t/w/c.rnc\telement x { text } | external 'b.rnc'\nword\ta.rnc",
        "Text { file: 2, at: 30 } Loop([1, 2]);",
    ),
    (
        "file\t/w/a.rnc\tinclude 'c.rnc' include 'b.rnc'\nfile\t/w/b.rnc\tinclude 'd.rnc' include 'a.rnc'\nfile\t/w/c.rnc\t\nfile\t/w/d.rnc\t\nword\ta.rnc",
        "Text { file: 2, at: 24 } Loop([0, 2]);",
    ),
    (
        "file\t/w/a.rnc\tx = external 'a.rnc'\nword\ta.rnc",
        "Text { file: 0, at: 13 } Loop([0]);",
    ),
    (
        "file\t/a.rnc\tinclude 'w/b.rnc'\nfile\t/w/b.rnc\tinclude '/a.rnc'\nword\tb.rnc",
        "Text { file: 1, at: 8 } Loop([0, 1]);",
    ),
    (
        "file\t/w/a.rnc\tinclude 'b.rnc' include 'c.rnc'\nfile\t/w/b.rnc\tinclude 'c.rnc'\nfile\t/w/c.rnc\t\nword\ta.rnc",
        "a.rnc [1, 2] b.rnc [2] c.rnc [] roots [0]",
    ),
];

#[test]
fn loops_are_told(rt: HostRuntime) {
    each_answered(&rt, &LOOPS);
}

/// Two files of one name.
static SAME_NAMES: [(&str, &str); 1] = [(
    "file\t-\t\nfile\t/w/-\t\nword\t-\nword\t/w/-",
    "Word(1) Twice;",
)];

#[test]
fn two_files_of_one_name_are_refused(rt: HostRuntime) {
    each_answered(&rt, &SAME_NAMES);
}
