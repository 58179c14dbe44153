// Module texts, and the one fault of each.
use crate::shared::comparing::{expect_text, holds, same, same_for};
use crate::shared::given_texts::{owned, push, repeated};
use crate::shared::merges::line_of;
use crate::shared::tables::{Subject, each_line};
use rn_merge::{Place, ProgramFault, check, status};
use std::alloc::Global;
use std::process::Abort;

/// A text, and `good` or the kind of its fault with its place in bytes.
const ROWS: &str = r#"abc => Syntax 3
start = element a { , } => Syntax 20
 => good
start = "\x{22}" => Lexical 8
namespace xmlns = "u" => Prefix 10
default namespace = "u" default namespace = "v" => Prefix 24
start = element p:a { text } => Prefix 16
a = token { k = "v" } => Builtin 4
a = xsd:QName "x" => ContextValue 4
a = xsd:QName => good
a = string - text => Except 11
a = string - ("x"*) => Except 11
grammar { start = text } => good
start = grammar { start = text } => Syntax 8
start = element r {  => Syntax 19
start = text } => Syntax 13
start = a, b | c => Syntax 13
start = a?? => Syntax 10
a = b c => Syntax 7
a = b >> x => Syntax 10
x [ => Syntax 3
start = "a => Lexical 8
namespace xml = "http://www.w3.org/XML/1998/namespace" start = text => good
namespace xml = "u" start = text => Prefix 10
namespace xml = inherit start = text => Prefix 10
datatypes xsd = "http://www.w3.org/2001/XMLSchema-datatypes" start = text => good
datatypes xsd = "u" start = text => Prefix 10
namespace p = "u" namespace p = "u" => Prefix 28
start = element xmlns:a { text } => Prefix 16
include "b" inherit = p => Prefix 22
start = element a { p:int } => Prefix 20
start = element p:* { text } => Prefix 16
datatypes d = "" start = element a { d:int } => Builtin 37
datatypes d = "" start = element a { d:string } => good
a = string { } => good
a = string - (token - "x" | "y") => good
a = string - b => Except 11
a = string - "x"* => Syntax 16
a = string - "x" - "y" => Syntax 17
a = ( [ "s" ( => Syntax 12
p:q => Syntax 3
a = b [ ] c = d => good
a = [ x:y = "z" ] b >> c [ "d" ] >> e:f [ ] => good
default namespace xml = "u" => Prefix 18
start = element a { p:b } namespace => Syntax 26
[ x ] grammar { div { } a |= text } >> note [ ] >> p:q [ [ ] ] => good
start = element a { text | "b" ~ 'c' }, attribute * - (p | xml:* - x) { list { string+ } } => good
a &= mixed { \text }? >> b [ ], (token | xsd:ID { k = "v" [ ] default = 'w' } - (xsd:y | "y")) => good
namespace x = "u" namespace sch = inherit default namespace = "v" sch:ns [ ] start = empty => good
default namespace p = inherit include "l" inherit = p { div { x = text } start = notAllowed n [ ] } => good
a = xsd:QName namespace-2 [ ] => good
a = string - "no", string - token "no" => good
datatypes d = "" datatypes xml = "u" a = d:string "x" => good
datatypes xsd = "http://www.w3.org/2001/XMLSchema-datatypes" namespace xsd = 'u' start = xsd:x => good
a = string - (string - "x" | notAllowed | token { }) => good
p:q [ ] [ ] p:q [ ] => Syntax 12
[ a ] x [ => Syntax 8
[ a  => Syntax 3
[ a } start = text => Syntax 4
a = string - "no"? => Syntax 17
a = string - token - "no" => Syntax 19
include "l" { include "m" } => Syntax 14
[ ] grammar { } start = text => Syntax 16
start = external "x" => Syntax 8
default default => Syntax 8
namespace = "u" => Syntax 10
namespace a |= "u" => Syntax 12
start = "a" ~ => Syntax 13
start = string { k = } => Syntax 21
start = element * - * - a { text } => Syntax 22
start text => Syntax 6
div text => Syntax 4
start = parent a => Syntax 8
default namespace = "u" default namespace xml = "v" => Prefix 24
default namespace xml = inherit => Prefix 18
datatypes xsd = "u" => Prefix 10
start = attribute (a | xmlns:b) { text } => Prefix 23
start = attribute p:* - q:* { text } => Prefix 18
include 'l' inherit = p { start = p:x } => Prefix 22
a = token { k = "v" } b = xml:x => Prefix 26
datatypes d = "" a = d:int "x" => Builtin 21
a = xsd:QName "x" b = string { k = 'v' } => Builtin 22
div { a = string - (xsd:NOTATION "x") } => ContextValue 20
a = string - (token - (a) | 'x') => Except 20
a = string - ("x", "y") => Except 11"#;

/// The answer of a check, as rows write it.
fn answer(rt: &(impl Abort + AllocGlobal), text: &[u8]) -> String {
    match check(rt.alloc(), text) {
        Ok(()) => owned(rt, "good"),
        Err(place) => line_of(rt, ProgramFault::Check(place)),
    }
}

/// A check.
struct Check;

impl Subject for Check {
    fn answers<R: Abort + AllocGlobal>(&self, rt: &R, given: &str, wanted: &str) {
        same_for(rt, given, answer(rt, given.as_bytes()).as_str(), wanted);
    }
}

#[test]
fn texts_have_their_fault(rt: HostRuntime) {
    each_line(&rt, &Check, ROWS);
    same(
        &rt,
        answer(&rt, b"start = text\xff").as_str(),
        "Encoding 12",
    );
}

#[test]
fn brackets_are_counted(rt: HostRuntime) {
    let mut text = repeated(&rt, "start = ", "(", 256, "");
    same(&rt, answer(&rt, text.as_bytes()).as_str(), "Syntax 264");
    push(&rt, &mut text, "(");
    same(&rt, answer(&rt, text.as_bytes()).as_str(), "Deep 264");
    let closed_first = repeated(&rt, ")))))", "(", 257, "");
    same(
        &rt,
        answer(&rt, closed_first.as_bytes()).as_str(),
        "Deep 261",
    );
}

/// Shapes of texts of about 4 MB: what stands at the front, the piece that follows so often, and the length of both in bytes.
static LARGE: [(&str, &str, usize, usize); 6] = [
    (
        "start = text\n",
        "d = element e { attribute a { text }, d* }\n",
        95_000,
        4_085_013,
    ),
    ("start = d", ", d", 1_300_000, 3_900_009),
    (
        "namespace a = \"u\"\nstart = text\n",
        "[ a:b = \"c\" ] d = text\n",
        175_000,
        4_025_031,
    ),
    (
        "namespace a = \"u\"\nstart = text\n",
        "a:b [ \"c\" ]\n",
        345_000,
        4_140_031,
    ),
    (
        "namespace a = \"u\"\nstart = text",
        " >> a:b [ ]",
        380_000,
        4_180_030,
    ),
    ("start = \"a\"", " ~ \"b\"", 695_000, 4_170_011),
];

/// A text of so many pieces has this answer.
fn answers(rt: &(impl Abort + AllocGlobal), piece: &str, text: &str, wanted: &str) {
    same_for(rt, piece, answer(rt, text.as_bytes()).as_str(), wanted);
}

#[test]
fn large_texts_are_read(rt: HostRuntime) {
    for (front, piece, count, _) in &LARGE {
        let text = repeated(&rt, front, piece, *count, "");
        answers(&rt, piece, text.as_str(), "good");
    }
}

#[test]
fn large_texts_have_their_fault_at_the_end(rt: HostRuntime) {
    for (front, piece, count, length) in &LARGE {
        let wanted = expect_text(&rt, format!(in rt.alloc(); "Syntax {length}"));
        let text = repeated(&rt, front, piece, *count, ")");
        answers(&rt, piece, text.as_str(), wanted.as_str());
    }
}

/// The place of a fault.
fn place(fault: &Place) -> usize {
    fault.kind_and_place().map_or(usize::MAX, |(_, at)| at)
}

/// The length of the first front of a text that is refused at a place behind it, or otherwise than with status 1.
fn wrong_front(alloc: Global, text: &[u8]) -> Option<usize> {
    for end in 0..=text.len() {
        if let Err(fault) = check(alloc, &text[..end]) {
            if place(&fault) > end || status(&ProgramFault::Check(fault)) != 1 {
                return Some(end);
            }
        }
    }
    None
}

/// Each front of a text is good or has its fault at a place within.
fn fronts_have_a_place_within(rt: &(impl Abort + AllocGlobal), text: &str) {
    let wrong = wrong_front(rt.alloc(), text.as_bytes());
    holds(rt, wrong.is_none(), text);
}

/// Checks of the fronts of a text, whatever the text itself answers.
struct Fronts;

impl Subject for Fronts {
    fn answers<R: Abort + AllocGlobal>(&self, rt: &R, given: &str, _wanted: &str) {
        fronts_have_a_place_within(rt, given);
    }
}

/// Good texts that hold much of the grammar.
static RICH: [&str; 4] = [
    "namespace p = \"u\" [ b ] include \"l\" inherit = p { } start = element r { attribute id { xsd:ID }?, (b & a)+ >> x [ ] } b = string - \"no\"",
    "start = element r { attribute id { xsd:ID }?, (b & a)+ } a = element a { empty } b = element b { string - string \"no\" }",
    "start = element r { \"\"\"a\"b\nc\"\"\" }",
    "namespace s = \"u\" s:n [ p = \"q\" [ ] ] [ a ] x &= mixed { a* | b } >> s:y [ 'z' ]",
];

#[test]
fn fronts_are_good_or_have_a_place_within(rt: HostRuntime) {
    each_line(&rt, &Fronts, ROWS);
}

#[test]
fn fronts_of_good_texts_have_a_place_within(rt: HostRuntime) {
    for text in &RICH {
        answers(&rt, text, text, "good");
        fronts_have_a_place_within(&rt, text);
    }
}
