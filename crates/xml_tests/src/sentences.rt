// Sentences of faults.
use rn_xml::{decode, read_document};
use std::process::Abort;

/// Rows of a text, a line `=>`, and the sentence of its fault.
const ROWS: &str = r##"<!DOCTYPE a><a/>
=>
a document type declaration is not read
--
<a>&x;</a>
=>
&x; is not defined: a document without type declaration has amp, lt, gt, quot and apos
--
<a><p:b></a>
=>
the prefix p is not declared
--
<a><b></a>
=>
this closes a, but b is open
--
<a xmlns:p="u"><p:b></c></a>
=>
this closes c, but p:b is open
--
<a><b></b>
=>
a is not closed
--
<a/><b/>
=>
there is a second root element
--
<a/>b
=>
text outside of the root element
--
<a b="1" b="2"/>
=>
the attribute b is given twice
--
<a b=1/>
=>
a value stands in quotes
--
<a b="<"/>
=>
< can't stand in a value
--
<a 1b="2"/>
=>
1b is no name
--
<a = "2"/>
=>
a name is missing
--
<a xmlns:xml="u"/>
=>
xmlns:xml can't declare this namespace
--
<?xml version="1"?><a/>
=>
this is no XML declaration at the start of a document
--
<a>&</a>
=>
this is no reference: & itself is &amp;
--
<a>&#0;</a>
=>
this refers to a character that no XML document has
--
<a b/>
=>
an attribute has = behind its name
--
<a b="1
=>
this value is not closed
--
<a/b>
=>
a tag goes on with white space and an attribute, or ends
--
<a>]]></a>
=>
]]> can't stand in text
--
<a><!-- -- --></a>
=>
this comment is not closed, or has -- within it
--
<a><?1?></a>
=>
this processing instruction is not closed, or has no name
--
<a><![CDATA[</a>
=>
this CDATA section is not closed
--
<a></b:c></a>
=>
this closes b:c, but a is open
--
<a xmlns:p="u" xmlns:q="u" p:b="1" q:b="2"/>
=>
the attribute q:b is given twice
--
=>
there is no root element
"##;

/// Asks of a row that the fault of its text has its sentence.
fn has_sentence(rt: &(impl Abort + AllocGlobal), text: &str, wanted: &str) {
    let fault = read_document(rt.alloc(), text)
        .err()
        .expect(rt, "a document");
    let got = format!(in rt.alloc(); "{}", fault.sentence(text)).expect(rt, "no memory");
    assert_eq!(rt; got.as_str(), wanted, "{text}");
}

#[test]
fn rows(rt: HostRuntime) {
    for row in ROWS.trim_end_matches('\n').split("\n--\n") {
        match row.split_once("\n=>\n") {
            Some((text, wanted)) => has_sentence(&rt, text, wanted),
            None => has_sentence(&rt, "", row.trim_start_matches("=>\n")),
        }
    }
}

#[test]
fn character(rt: HostRuntime) {
    has_sentence(&rt, "<a>\u{1}</a>", "no XML document has this character");
}

#[test]
fn encodings(rt: HostRuntime) {
    let bytes = b"<?xml version='1.0' encoding='windows-1252'?><a/>";
    let undecoded = decode(rt.alloc(), bytes).err().expect(&rt, "a text");
    let sentence = undecoded.fault.sentence(undecoded.text.as_str());
    let got = format!(in rt.alloc(); "{sentence}").expect(&rt, "no memory");
    assert_eq!(rt;
        got.as_str(),
        "the document says that its encoding is windows-1252: UTF-8, UTF-16, ISO-8859-1 and US-ASCII are read"
    );
    let undecoded = decode(rt.alloc(), b"<\xFF/>").err().expect(&rt, "a text");
    let sentence = undecoded.fault.sentence(undecoded.text.as_str());
    let got = format!(in rt.alloc(); "{sentence}").expect(&rt, "no memory");
    assert_eq!(rt; got.as_str(), "this is not UTF-8");
}
