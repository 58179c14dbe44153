// Pairs of good and bad texts for the productions of XML 1.0, at the edges of what each allows.
use rn_xml::read_document;
use std::alloc::{AllocError, Global};
use std::process::Abort;

/// Whether a text is a document: `good`, or its first fault and the place.
fn verdict(alloc: Global, text: &str) -> Result<String, AllocError> {
    match read_document(alloc, text) {
        Ok(_) => String::from_str(alloc, "good"),
        Err(fault) => format!(in alloc; "{:?} at {}", fault.kind, fault.at),
    }
}

/// Asks that the text behind `| ` in each line has the verdict before it.
fn each_line(rt: &(impl Abort + AllocGlobal), lines: &str) {
    let mut count = 0usize;
    for line in lines.trim_matches('\n').split('\n') {
        let (wanted, text) = line.split_once(" | ").expect(rt, "a line has no text");
        let got = verdict(rt.alloc(), text).expect(rt, "no memory");
        assert_eq!(rt; got.as_str(), wanted, "{text:?}");
        count = count.saturating_add(1);
    }
    assert!(rt; count > 1, "there are no lines");
}

// Production 1: one element, with comments, processing instructions and white space around it.
const DOCUMENTS: &str = "
good | \t<!----> <?p?> <a/> <?q?> <!---->\t
NoRoot at 2 | \t\t
NoRoot at 7 | <!---->
Outside at 0 | a<b/>
Outside at 4 | <a/>b
Outside at 4 | <a/>\u{85}
Outside at 0 | \u{A0}<a/>
Outside at 0 | &amp;<a/>
Name at 1 | <![CDATA[]]><a/>
SecondRoot at 4 | <a/><![CDATA[]]>
SecondRoot at 4 | <a/><a/>
Doctype at 1 |  <!DOCTYPE a []><a/>
SecondRoot at 4 | <a/><!DOCTYPE a>
";

#[test]
fn documents(rt: HostRuntime) {
    each_line(&rt, DOCUMENTS);
}

// Production 2: the characters that a document may have.
const CHARACTERS: &str = "
good | <a>\t</a>
good | <a>\r</a>
good | <a>\u{20}\u{7E}\u{7F}\u{80}\u{85}\u{9F}</a>
good | <a>\u{D7FF}\u{E000}\u{FFFD}</a>
good | <a>\u{10000}\u{1FFFE}\u{1FFFF}\u{10FFFF}</a>
good | <a>\u{FEFF}\u{FDD0}</a>
Character at 3 | <a>\u{0}</a>
Character at 3 | <a>\u{8}</a>
Character at 3 | <a>\u{B}</a>
Character at 3 | <a>\u{C}</a>
Character at 3 | <a>\u{E}</a>
Character at 3 | <a>\u{1F}</a>
Character at 3 | <a>\u{FFFE}</a>
Character at 3 | <a>\u{FFFF}</a>
Character at 6 | <a b='\u{1F}'/>
Character at 7 | <a><!--\u{1}--></a>
Character at 7 | <a><?p\u{20}\u{1}?></a>
Character at 12 | <a><![CDATA[\u{1}]]></a>
";

#[test]
fn characters(rt: HostRuntime) {
    each_line(&rt, CHARACTERS);
}

// Production 3: white space in tags.
const SPACE: &str = "
good | <a \t\rb='1' \t\r/>
good | <a b \t\r=\r\t '1'/>
good | <a></a \t\r>
Tag at 2 | <a\u{A0}b='1'/>
Tag at 2 | <a\u{85}/>
Tag at 2 | <a\u{2028}/>
Tag at 2 | <a\u{3000}/>
Tag at 2 | <a\u{B}/>
Tag at 6 | <a></a\u{A0}>
Equals at 4 | <a b\u{A0}='1'/>
Quotes at 5 | <a b=\u{A0}'1'/>
";

#[test]
fn space(rt: HostRuntime) {
    each_line(&rt, SPACE);
}

// Production 4: how names begin; a colon only parts them (Namespaces in XML 1.0, production 4).
const STARTS: &str = "
good | <A/>
good | <Z/>
good | <_/>
good | <z/>
good | <\u{C0}/>
good | <\u{D6}/>
good | <\u{D8}/>
good | <\u{F6}/>
good | <\u{F8}/>
good | <\u{2FF}/>
good | <\u{370}/>
good | <\u{37D}/>
good | <\u{37F}/>
good | <\u{1FFF}/>
good | <\u{200C}\u{200D}/>
good | <\u{200D}/>
good | <\u{2070}/>
good | <\u{218F}/>
good | <\u{2C00}/>
good | <\u{2FEF}/>
good | <\u{3001}/>
good | <\u{D7FF}/>
good | <\u{F900}/>
good | <\u{FDCF}/>
good | <\u{FDF0}/>
good | <\u{FFFD}/>
good | <\u{10000}/>
good | <\u{EFFFF}/>
Name at 1 | </>
Name at 1 | <:/>
Name at 1 | <-/>
Name at 1 | <./>
Name at 1 | <0/>
Name at 1 | <@/>
Name at 1 | <[/>
Name at 1 | <`/>
Name at 1 | <{/>
Name at 1 | <\u{AA}/>
Name at 1 | <\u{B7}/>
Name at 1 | <\u{BF}/>
Name at 1 | <\u{D7}/>
Name at 1 | <\u{F7}/>
Name at 1 | <\u{300}/>
Name at 1 | <\u{36F}/>
Name at 1 | <\u{37E}/>
Name at 1 | <\u{2000}/>
Name at 1 | <\u{200B}/>
Name at 1 | <\u{200E}/>
Name at 1 | <\u{203F}/>
Name at 1 | <\u{206F}/>
Name at 1 | <\u{2190}/>
Name at 1 | <\u{2BFF}/>
Name at 1 | <\u{2FF0}/>
Name at 1 | <\u{3000}/>
Name at 1 | <\u{E000}/>
Name at 1 | <\u{F8FF}/>
Name at 1 | <\u{FDD0}/>
Name at 1 | <\u{FDEF}/>
Name at 1 | <\u{F0000}/>
";

#[test]
fn name_starts(rt: HostRuntime) {
    each_line(&rt, STARTS);
}

// Production 4a: how names go on.
const NAMES: &str = "
good | <a-.09_/>
good | <a\u{B7}\u{300}\u{36F}\u{203F}\u{2040}/>
Tag at 2 | <a\u{B6}/>
Tag at 2 | <a\u{D7}/>
Tag at 2 | <a\u{37E}/>
Tag at 2 | <a\u{203E}/>
Tag at 2 | <a\u{2041}/>
Tag at 2 | <a+/>
Name at 1 | <a:/>
Name at 1 | <a:-/>
Name at 1 | <a:b:c/>
Name at 3 | <a b:='1'/>
Name at 5 | <a></a:>
";

#[test]
fn names(rt: HostRuntime) {
    each_line(&rt, NAMES);
}

// Productions 10 and 25: values of attributes.
const VALUES: &str = "
good | <a b=''/>
good | <a b='\"'/>
good | <a b=\"'\"/>
good | <a b='>]]>&lt;'/>
good | <a b = '1'/>
LessThan at 6 | <a b='<'/>
Reference at 6 | <a b='&'/>
Entity at 6 | <a b='&b;'/>
OpenValue at 6 | <a b='
OpenValue at 6 | <a b='1\"/>
Quotes at 5 | <a b=1/>
Quotes at 5 | <a b=\u{201C}1\u{201D}/>
Quotes at 5 | <a b=/>
Equals at 4 | <a b/>
Equals at 5 | <a b '1'/>
";

#[test]
fn values(rt: HostRuntime) {
    each_line(&rt, VALUES);
}

// Productions 14 and 43: characters of content.
const CONTENT: &str = "
good | <a>]]</a>
good | <a>]>></a>
good | <a>]]&gt;</a>
good | <a>'\"</a>
good | <a>]]<!---->></a>
SectionEnd at 3 | <a>]]></a>
SectionEnd at 4 | <a>]]]></a>
Name at 4 | <a>< /a>
Name at 4 | <a><</a>
";

#[test]
fn content(rt: HostRuntime) {
    each_line(&rt, CONTENT);
}

// Production 15: comments.
const COMMENTS: &str = "
good | <a><!----></a>
good | <a><!-- - --></a>
good | <a><!--->--></a>
good | <a><!-- <b> &c; ]]> <?p --></a>
Comment at 3 | <a><!-----></a>
Comment at 3 | <a><!-- ---></a>
Comment at 3 | <a><!-- -- --></a>
Comment at 3 | <a><!--></a>
Comment at 3 | <a><!---></a>
Comment at 3 | <a><!-- -></a>
Comment at 0 | <!--
Name at 4 | <a><!- --></a>
Name at 4 | <a><! -- --></a>
";

#[test]
fn comments(rt: HostRuntime) {
    each_line(&rt, COMMENTS);
}

// Productions 16 and 17: processing instructions.
const INSTRUCTIONS: &str = "
good | <a><?p?></a>
good | <a><?p ?></a>
good | <a><?p ??></a>
good | <a><?p <b> &c; ]]> -- ? > ?></a>
good | <?xml-stylesheet href='b'?><a/>
good | <a><?xmlish?></a>
Declaration at 3 | <a><?xml?></a>
Declaration at 3 | <a><?XmL p?></a>
Declaration at 4 | <a/><?xml version='1.0'?>
Instruction at 3 | <a><?p:q?></a>
Instruction at 3 | <a><??></a>
Instruction at 3 | <a><?1?></a>
Instruction at 3 | <a><? p?></a>
Instruction at 3 | <a><?p+?></a>
Instruction at 3 | <a><?p></a>
Instruction at 3 | <a><?p ></a>
";

#[test]
fn instructions(rt: HostRuntime) {
    each_line(&rt, INSTRUCTIONS);
}

// Productions 18 to 21: CDATA sections.
const SECTIONS: &str = "
good | <a><![CDATA[]]></a>
good | <a><![CDATA[]]]]></a>
good | <a><![CDATA[]>]]></a>
good | <a><![CDATA[<![CDATA[<b>&c;]]></a>
SectionEnd at 24 | <a><![CDATA[<![CDATA[]]>]]></a>
Section at 3 | <a><![CDATA[]]</a>
Section at 3 | <a><![CDATA[</a>
Name at 4 | <a><![CDATA []]></a>
Name at 4 | <a><![cdata[]]></a>
";

#[test]
fn sections(rt: HostRuntime) {
    each_line(&rt, SECTIONS);
}

// Productions 22 to 26, 32, 80 and 81: the XML declaration.
const DECLARATIONS: &str = "
good | <?xml version='1.0'?><a/>
good | <?xml version=\"1.10\"?><a/>
good | <?xml\tversion = '1.0'\r?> <a/>
good | <?xml version='1.0' standalone='yes'?><a/>
good | <?xml version='1.0' encoding=\"a.B_1-\" standalone='no' ?><a/>
Declaration at 0 | <?xml?><a/>
Declaration at 0 | <?xml ?><a/>
Declaration at 0 | <?xml version='1'?><a/>
Declaration at 0 | <?xml version='1.'?><a/>
Declaration at 0 | <?xml version='2.0'?><a/>
Declaration at 0 | <?xml version='1.0a'?><a/>
Declaration at 0 | <?xml version=' 1.0'?><a/>
Declaration at 0 | <?xml version='1.0\"?><a/>
Declaration at 0 | <?xml version=1.0?><a/>
Declaration at 0 | <?xml Version='1.0'?><a/>
Declaration at 0 | <?xml version='1.0' version='1.0'?><a/>
Declaration at 0 | <?xml version='1.0' standalone='YES'?><a/>
Declaration at 0 | <?xml version='1.0' standalone='no' encoding='UTF-8'?><a/>
Declaration at 0 | <?xml version='1.0'encoding='UTF-8'?><a/>
Declaration at 0 | <?xml encoding='UTF-8'?><a/>
Declaration at 0 | <?xml version='1.0' encoding=''?><a/>
Declaration at 0 | <?xml version='1.0' encoding='8'?><a/>
Declaration at 0 | <?xml version='1.0' encoding='U T'?><a/>
Declaration at 0 | <?xml version='1.0'><a/>
Declaration at 0 | <?xml version='1.0' ? ><a/>
Declaration at 0 | <?XML version='1.0'?><a/>
Declaration at 1 |  <?xml version='1.0'?><a/>
Declaration at 7 | <!----><?xml version='1.0'?><a/>
";

#[test]
fn declarations(rt: HostRuntime) {
    each_line(&rt, DECLARATIONS);
}

// Productions 39 to 44: elements and their tags.
const ELEMENTS: &str = "
good | <a/>
good | <a></a>
good | <a><a></a><a/></a>
good | <a b='1'\rc='2'/>
Name at 1 | <
Name at 1 | <>
Name at 1 | < a/>
Name at 1 | </a>
Tag at 2 | <a
Tag at 2 | <a/
Tag at 2 | <a/ >
Tag at 2 | <a<b/></a>
Tag at 8 | <a b='1'c='2'/>
Name at 3 | <a ='1'/>
Name at 3 | <a 'b'/>
NotClosed at 0 | <a>
NotClosed at 3 | <a><b>
EndTag { open: 0 } at 3 | <a></b>
EndTag { open: 0 } at 3 | <a></A>
EndTag { open: 3 } at 6 | <a><b></a></b>
Tag at 6 | <a></a
Tag at 6 | <a></a/>
Tag at 7 | <a></a b='1'>
Name at 5 | <a></>
Name at 5 | <a></ a>
Repeated at 9 | <a b='1' b='1'/>
";

#[test]
fn elements(rt: HostRuntime) {
    each_line(&rt, ELEMENTS);
}

// Productions 66 to 68: references.
const REFERENCES: &str = "
good | <a>&amp;&lt;&gt;&quot;&apos;</a>
good | <a>&#9;&#10;&#13;&#32;&#000065;</a>
good | <a>&#x9;&#xA;&#xa;&#xD7FF;&#xe000;&#xFFFD;&#x10000;&#x10FFFF;&#1114111;</a>
Reference at 3 | <a>&</a>
Reference at 3 | <a>&amp</a>
Reference at 3 | <a>&amp ;</a>
Reference at 3 | <a>& amp;</a>
Reference at 3 | <a>&;</a>
Reference at 3 | <a>&#;</a>
Reference at 3 | <a>&#x;</a>
Reference at 3 | <a>&#xg;</a>
Reference at 3 | <a>&#a;</a>
Reference at 3 | <a>&#65</a>
Reference at 3 | <a>&#-1;</a>
Reference at 3 | <a>&#X41;</a>
Reference at 3 | <a>&1;</a>
Reference at 3 | <a>&a:b;</a>
CharacterReference at 3 | <a>&#0;</a>
CharacterReference at 3 | <a>&#8;</a>
CharacterReference at 3 | <a>&#x1F;</a>
CharacterReference at 3 | <a>&#xD800;</a>
CharacterReference at 3 | <a>&#xDFFF;</a>
CharacterReference at 3 | <a>&#xFFFE;</a>
CharacterReference at 3 | <a>&#xFFFF;</a>
CharacterReference at 3 | <a>&#x110000;</a>
CharacterReference at 3 | <a>&#1114112;</a>
CharacterReference at 3 | <a>&#4294967361;</a>
Entity at 3 | <a>&AMP;</a>
Entity at 3 | <a>&nbsp;</a>
";

#[test]
fn references(rt: HostRuntime) {
    each_line(&rt, REFERENCES);
}
