// Files in the XML syntax, beside others in the compact one.
use crate::asked_files::each_answered;
use crate::comparing::holds;

/// Files of both syntaxes that include each other; what a file begins with decides, and not its name.
static MIXED: [(&str, &str); 2] = [
    (
        "file\t/w/a.rnc\tinclude 'b.rng'\nfile\t/w/b.rng\t<grammar xmlns='http://relaxng.org/ns/structure/1.0'><include href='c.rnc'/></grammar>\nfile\t/w/c.rnc\t\nword\ta.rnc",
        "a.rnc [1] b.rng [2] c.rnc [] roots [0]",
    ),
    (
        "file\t/w/b.rnc\t\u{feff} <text xmlns='http://relaxng.org/ns/structure/1.0'/>\nfile\t/w/c.rng\tstart = text\nword\tb.rnc\nword\tc.rng",
        "b.rnc [] c.rng [] roots [0, 1]",
    ),
];

#[test]
fn files_of_both_syntaxes_are_read(rt: HostRuntime) {
    each_answered(&rt, &MIXED);
}

/// Faults of documents and of schemas in them have their place in the document, those of references in the compact text.
static FAULTS: [(&str, &str); 3] = [
    (
        "file\t/w/a.rnc\t<a></b>\nword\ta.rnc",
        "Text { file: 0, at: 3 } Document(EndTag { open: 0 });",
    ),
    (
        "file\t/w/a.rnc\t<a/>\nword\ta.rnc",
        "Text { file: 0, at: 0 } Schema(NoSchema { local: \"a\", uri: \"\" });",
    ),
    (
        "file\t/w/a.rnc\t<grammar xmlns='http://relaxng.org/ns/structure/1.0'><include href='c.rnc'/></grammar>\nword\ta.rnc",
        "Text { file: 0, at: 8 } File(Missing) \"c.rnc\";",
    ),
];

#[test]
fn documents_have_their_faults(rt: HostRuntime) {
    each_answered(&rt, &FAULTS);
}

#[test]
fn compact_texts_are_as_long_as_files(rt: HostRuntime) {
    holds(
        &rt,
        rn_translate::MAX_TEXT == rn_files::MAX_TEXT,
        "one limit for both",
    );
}
