// Outlines of texts, and the faults of texts that have none.
use rn_outline::{FilePart, FilePartKind, Outline, OutlineFault, Span, read_outline};
use rn_text::tokens;
use std::alloc::{AllocError, Global};
use std::process::Abort;

// The text of a span.
fn cut(text: &str, span: Span) -> &str {
    text.get(span.from..span.to).unwrap_or("?")
}

// The word for the kind of a part.
fn kind_word(kind: &FilePartKind) -> &'static str {
    match kind {
        FilePartKind::Define { .. } => "define",
        FilePartKind::Start { .. } => "start",
        FilePartKind::Reference { .. } => "ref",
        FilePartKind::Parent { .. } => "parent",
        FilePartKind::External { .. } => "external",
        FilePartKind::Include { .. } => "include",
        FilePartKind::Grammar { .. } => "grammar",
    }
}

// A text in angles.
fn angled(alloc: Global, text: &str) -> Result<String, AllocError> {
    format!(in alloc; "<{text}>")
}

// What is said of a part besides its kind and its text.
fn kind_words(alloc: Global, text: &str, kind: &FilePartKind) -> Result<String, AllocError> {
    match kind {
        FilePartKind::Define {
            name,
            body,
            within,
            only_data,
            ..
        }
        | FilePartKind::Start {
            word: name,
            body,
            within,
            only_data,
            ..
        } => {
            let (name, body) = (cut(text, *name), cut(text, *body));
            format!(in alloc; "<{name}><{body}>{within:?}{only_data}")
        }
        FilePartKind::Reference { name } | FilePartKind::Parent { name } => angled(
            alloc,
            cut(text, *name),
        ),
        FilePartKind::External {
            literal,
            inherit,
            ..
        }
        | FilePartKind::Include {
            literal,
            inherit,
            ..
        } => {
            let inherit = inherit.map_or("", |prefix| cut(text, prefix));
            format!(in alloc; "<{literal}>{inherit}")
        }
        FilePartKind::Grammar { number, inside } => {
            let inside = cut(text, *inside);
            format!(in alloc; "{number}<{inside}>")
        }
    }
}

// A part in words: the number of its grammar, `-` in an except, its kind, its text, and what it is made of.
fn part_words(alloc: Global, text: &str, part: &FilePart) -> Result<String, AllocError> {
    let grammar = part.grammar;
    let in_except = if part.in_except { "-" } else { "" };
    let kind = kind_word(&part.kind);
    let at = cut(text, part.at);
    let behind = kind_words(alloc, text, &part.kind)?;
    format!(in alloc; "{grammar}{in_except}{kind}({at}){behind};")
}

// An outline in words: its shape, how many declarations it has, what follows them, and its parts.
fn outline_words(alloc: Global, text: &str, outline: &Outline) -> Result<String, AllocError> {
    let shape = outline.shape;
    let count = outline.declarations.len();
    let body = cut(text, outline.body);
    let mut out = format!(in alloc; "{shape:?} {count} <{body}>;")?;
    for part in &outline.parts {
        out.push_str(part_words(alloc, text, part)?.as_str())?;
    }
    Ok(out)
}

/// The outline of a text, or its fault.
pub fn outline_or_fault(
    rt: &(impl Abort + AllocGlobal),
    text: &str,
) -> Result<Outline, OutlineFault> {
    let tokens = tokens(rt.alloc(), text.as_bytes()).expect(rt, "no tokens");
    read_outline(rt.alloc(), text, tokens.as_slice())
}

/// The outline of a text that has one.
pub fn outline_of(rt: &(impl Abort + AllocGlobal), text: &str) -> Outline {
    outline_or_fault(rt, text).expect(rt, "no outline")
}

// The outline of a text in words, or its fault.
fn answer(rt: &(impl Abort + AllocGlobal), text: &str) -> String {
    match outline_or_fault(rt, text) {
        Ok(outline) => outline_words(rt.alloc(), text, &outline).expect(rt, "no memory"),
        Err(fault) => format!(in rt.alloc(); "{fault:?}").expect(rt, "no memory"),
    }
}

// A text, and behind the arrow its outline in words, or its fault.
const ROWS: &str = r#" => Grammar 0 <>;
start = a => Grammar 0 <start = a>;0start(start = a)<start><a>Nonetrue;0ref(a)<a>;
namespace a = 'x' \div = external 'x' ~ 'y' inherit = a b |= list { a } => Grammar 1 <\div = external 'x' ~ 'y' inherit = a b |= list { a }>;0define(\div = external 'x' ~ 'y' inherit = a)<\div><external 'x' ~ 'y' inherit = a>Nonetrue;0external(external 'x' ~ 'y' inherit = a)<xy>a;0define(b |= list { a })<b><list { a }>Nonefalse;0ref(a)<a>;
element a | grammar { x:string - (a | b), parent c } => Pattern 0 <element a | grammar { x:string - (a | b), parent c }>;0start(element a | grammar { x:string - (a | b), parent c })<><element a | grammar { x:string - (a | b), parent c }>Nonefalse;0-ref(a)<a>;0-ref(b)<b>;0parent(parent c)<c>;
include 'x' { div { a = b } start |= c } d = e => Grammar 0 <include 'x' { div { a = b } start |= c } d = e>;0include(include 'x' { div { a = b } start |= c })<x>;0define(a = b)<a><b>Some(0)true;0ref(b)<b>;0start(start |= c)<start><c>Some(0)true;0ref(c)<c>;0define(d = e)<d><e>Nonetrue;0ref(e)<e>;
grammar { start = grammar { a = parent b } } >> a [] => Grammar 0 <grammar { start = grammar { a = parent b } } >> a []>;0start(start = grammar { a = parent b })<start><grammar { a = parent b }>Nonetrue;0grammar(grammar { a = parent b })1< a = parent b >;1define(a = parent b)<a><parent b>Nonetrue;1parent(parent b)<b>;
grammar { a = b }? => Pattern 0 <grammar { a = b }?>;0start(grammar { a = b }?)<><grammar { a = b }?>Nonefalse;0grammar(grammar { a = b })1< a = b >;1define(a = b)<a><b>Nonetrue;1ref(b)<b>;
[ external 'x' ] a [ parent b ] a:b [] start = [ grammar {} ] a => Syntax { at: 57, wanted: None }
xsd:a { grammar = 'b' parent = 'c' } - (xsd:a - a | 'b') | b => Pattern 0 <xsd:a { grammar = 'b' parent = 'c' } - (xsd:a - a | 'b') | b>;0start(xsd:a { grammar = 'b' parent = 'c' } - (xsd:a - a | 'b') | b)<><xsd:a { grammar = 'b' parent = 'c' } - (xsd:a - a | 'b') | b>Nonetrue;0-ref(a)<a>;0ref(b)<b>;
a = parent => Syntax { at: 10, wanted: Some(Name) }
a = (b => Syntax { at: 6, wanted: Some(ClosingParenthesis) }
a = b } => Syntax { at: 6, wanted: None }
include 'x' { include 'y' } => Syntax { at: 14, wanted: None }
start = a start => Syntax { at: 15, wanted: Some(Assignment) }
start = | a => Syntax { at: 8, wanted: Some(Pattern) }
element a ( => Syntax { at: 10, wanted: Some(Brace) }
element = a => Syntax { at: 8, wanted: Some(NameClass) }
include a => Syntax { at: 8, wanted: Some(Literal) }
namespace a b => Syntax { at: 12, wanted: Some(Equals) }
div { a = b => Syntax { at: 11, wanted: Some(ClosingBrace) }"#;

#[test]
fn texts_have_their_outlines(rt: HostRuntime) {
    for row in ROWS.lines() {
        let (given, wanted) = row.split_once(" => ").unwrap_or((row, ""));
        assert_eq!(&rt; answer(&rt, given).as_str(), wanted, "{given}");
    }
}
