// Single modules that print a schema. Each printed schema, merged alone, is printed again.
use crate::shared::merges::{EachStore, Merge, MergeAgain};
use crate::shared::tables::each_schema;

/// Patterns in their canonical form.
const PATTERNS: &str = r#"start = a | b a = notAllowed b = element b { a }
=>
start = b
b = element b { notAllowed }
--
x = empty start = element r { x, (x | text)* }
=>
start = element r { (text?)* }
--
start = text a = a | element x { empty }
=>
start = text
--
start = element r { attribute id { xsd:ID }?, (b & a)+ } a = element a { empty } b = element b { string - string "no" }
=>
start = element r { attribute id { xsd:ID }?, (a & b)+ }
a = element a { empty }
b = element b { string - string "no" }
--
start = element r { "b" | x | "a" | text } x = element x { empty }
=>
start = element r { text | x | "a" | "b" }
x = element x { empty }
--
start = empty | b | c b = element b { empty } c = element c { empty }
=>
start = (b | c)?
b = element b { empty }
c = element c { empty }
--
x = a | b x |= a a = element a { empty } b = element b { empty } start = x
=>
start = x
a = element a { empty }
b = element b { empty }
x = a | b
--
start = element r { b, a } a = element a { empty } b = element b { empty } c = element c { empty }
=>
start = element r { b, a }
a = element a { empty }
b = element b { empty }
--
start = element r { (a, b), c } a = element a { empty } b = element b { empty } c = element c { empty }
=>
start = element r { a, b, c }
a = element a { empty }
b = element b { empty }
c = element c { empty }
--
start = element r { (b & a) | c } a = element a { empty } b = element b { empty } c = element c { empty }
=>
start = element r { c | (a & b) }
a = element a { empty }
b = element b { empty }
c = element c { empty }
--
start = element r { b & a & b } a = element a { empty } b = element b { empty } c = element c { empty }
=>
start = element r { a & b & b }
a = element a { empty }
b = element b { empty }
--
start = element r { mixed { a } } a = element a { empty } b = element b { empty } c = element c { empty }
=>
start = element r { mixed { a } }
a = element a { empty }
--
start = element r { x } x = empty
=>
start = element r { empty }
--
div { div { start = text } }
=>
start = text
--
start = a | text a = b, c b = notAllowed c = element c { empty }
=>
start = text
--
start = element r { x } x = y & y y = z? z = empty
=>
start = element r { empty }
--
start = a a = list { b } b = notAllowed
=>
start = notAllowed
--
start = element r { (a+)+ } a = element a { empty } b = element b { empty } c = element c { empty }
=>
start = element r { a+ }
a = element a { empty }
--
start = element r { (a+)* } a = element a { empty } b = element b { empty } c = element c { empty }
=>
start = element r { a* }
a = element a { empty }
--
start = element r { mixed { b | a } } a = element a { empty } b = element b { empty } c = element c { empty }
=>
start = element r { mixed { a | b } }
a = element a { empty }
b = element b { empty }
--
start = element r { b & text & a } a = element a { empty } b = element b { empty } c = element c { empty }
=>
start = element r { mixed { a & b } }
a = element a { empty }
b = element b { empty }
--
start = element r { text & text } a = element a { empty } b = element b { empty } c = element c { empty }
=>
start = element r { mixed { text } }
--
start = element r { text & a & text } a = element a { empty } b = element b { empty } c = element c { empty }
=>
start = element r { mixed { text & a } }
a = element a { empty }
--
start = element r { mixed { empty } } a = element a { empty } b = element b { empty } c = element c { empty }
=>
start = element r { text }
--
start = element r { (text & a)+, b } a = element a { empty } b = element b { empty } c = element c { empty }
=>
start = element r { mixed { a }+, b }
a = element a { empty }
b = element b { empty }
--
start = element r { (text & a) | text } a = element a { empty } b = element b { empty } c = element c { empty }
=>
start = element r { text | mixed { a } }
a = element a { empty }
--
start = element r { (b & a) | a } a = element a { empty } b = element b { empty } c = element c { empty }
=>
start = element r { a | (a & b) }
a = element a { empty }
b = element b { empty }
--
start = element r { element text { notAllowed } } a = element a { empty } b = element b { empty } c = element c { empty }
=>
start = element r { element text { notAllowed } }
--
start = element r { (x, mixed { y })* } x = element x { empty } y = element y { empty }
=>
start = element r { (x, mixed { y })* }
x = element x { empty }
y = element y { empty }
--
start = a a = element x { a }
=>
start = a
a = element x { a }
--
start = element r { a* | b } a = element a { empty } b = element b { empty } c = element c { empty }
=>
start = element r { (b | a+)? }
a = element a { empty }
b = element b { empty }
--
start = element r { (a*)+ } a = element a { empty } b = element b { empty } c = element c { empty }
=>
start = element r { (a*)+ }
a = element a { empty }
--
start = element r { (a*)* } a = element a { empty } b = element b { empty } c = element c { empty }
=>
start = element r { (a*)* }
a = element a { empty }
--
start = element r { (a+)? } a = element a { empty } b = element b { empty } c = element c { empty }
=>
start = element r { a* }
a = element a { empty }
--
start = element r { mixed { a, b } } a = element a { empty } b = element b { empty } c = element c { empty }
=>
start = element r { mixed { a, b } }
a = element a { empty }
b = element b { empty }
--
start = element r { mixed { (a, b) & c } } a = element a { empty } b = element b { empty } c = element c { empty }
=>
start = element r { mixed { c & (a, b) } }
a = element a { empty }
b = element b { empty }
c = element c { empty }
--
start = element r { mixed { a }? } a = element a { empty } b = element b { empty } c = element c { empty }
=>
start = element r { mixed { a }? }
a = element a { empty }
--
start = element r { mixed { a }* } a = element a { empty } b = element b { empty } c = element c { empty }
=>
start = element r { mixed { a }* }
a = element a { empty }
--
start = element r { token | string - "x" } a = element a { empty } b = element b { empty } c = element c { empty }
=>
start = element r { (string - "x") | token }
--
start = element r { string - (string - "y") } a = element a { empty } b = element b { empty } c = element c { empty }
=>
start = element r { string - (string - "y") }
--
start = element r { string - notAllowed } a = element a { empty } b = element b { empty } c = element c { empty }
=>
start = element r { string }
"#;

/// Names, namespaces, datatypes and literals as they are spelled.
const SPELLINGS: &str = r#"start = element r { "\" ~ "x{41}" }
=>
start = element r { "\" ~ "x{41}" }
--
\start = text start = element r { \start }
=>
start = element r { \start }
\start = text
--
namespace sch = "s" sch:ns [ prefix = "p" ] [ sch:x = "1" ] start = element a { empty } >> sch:y [ "z" ]
=>
start = element a { empty }
--
start = element r { """a"b
c""" }
=>
start = element r { "a" ~ '"' ~ "b\x{A}c" }
--
namespace n = "" start = element n:* { attribute xml:lang { text } }
=>
namespace n0 = ""
start = element n0:* { attribute xml:lang { text } }
--
datatypes d = "http://e/lib" start = element a { d:t { k = "v" } }
=>
datatypes d1 = "http://e/lib"
start = element a { d1:t { k = "v" } }
--
namespace e = "" namespace v = "v" namespace u = "u" datatypes l = "http://e/lib" start = element r { element v:y { empty }, element u:x { empty }, attribute e:* { l:t { k = "v" list = "" } } }
=>
namespace n0 = ""
namespace n1 = "u"
namespace n2 = "v"
datatypes d1 = "http://e/lib"
start = element r { element n2:y { empty }, element n1:x { empty }, attribute n0:* { d1:t { k = "v" list = "" } } }
--
start = element r { '\x{22}' }
=>
start = element r { '"' }
--
start = element r { attribute * - (p | q) { text } } a = element a { empty } b = element b { empty } c = element c { empty }
=>
start = element r { attribute * - (p | q) { text } }
--
default namespace = "u" start = element a { attribute b { text } }
=>
namespace n1 = "u"
start = element n1:a { attribute b { text } }
--
start = element r { string "" } a = element a { empty } b = element b { empty } c = element c { empty }
=>
start = element r { string "" }
--
start = element r { xsd:ID "v" } a = element a { empty } b = element b { empty } c = element c { empty }
=>
start = element r { xsd:ID "v" }
--
datatypes d = "" start = element a { d:string }
=>
start = element a { string }
--
datatypes xml = "http://e/lib" namespace xsd = "u" start = element xsd:a { xml:t }
=>
namespace n1 = "u"
datatypes d1 = "http://e/lib"
start = element n1:a { d1:t }
--
grammar { start = element grammar { text } }
=>
start = element grammar { text }
--
﻿start = text
=>
start = text
--
start = element * - (a | xml:*) { attribute xml:* - xml:lang { text }* }
=>
start = element * - (xml:* | a) { attribute xml:* - xml:lang { text }* }
--
start = element (b | a | b) { text }
=>
start = element a | b { text }
--
start = element (a | a) { text }
=>
start = element a { text }
--
start = element b | * - a { text }
=>
start = element (* - a) | b { text }
--
namespace n = "u" start = element n:* { text }
=>
namespace n1 = "u"
start = element n1:* { text }
--
namespace n = "u" start = text x = element n:z { text }
=>
start = text
--
namespace n = 'a"b' start = element n:a { text }
=>
namespace n1 = "a" ~ '"' ~ "b"
start = element n1:a { text }
--
datatypes z = "b" datatypes y = "a" start = element r { z:t | y:t }
=>
datatypes d1 = "a"
datatypes d2 = "b"
start = element r { d1:t | d2:t }
"#;

#[test]
fn modules_print_their_schemas(rt: HostRuntime) {
    each_schema(&rt, &Merge, PATTERNS);
    each_schema(&rt, &Merge, SPELLINGS);
}

#[test]
fn printed_schemas_print_themselves_again(rt: HostRuntime) {
    each_schema(&rt, &MergeAgain, PATTERNS);
    each_schema(&rt, &MergeAgain, SPELLINGS);
}

#[test]
fn each_store_prints_the_same(rt: HostRuntime) {
    each_schema(&rt, &EachStore, PATTERNS);
    each_schema(&rt, &EachStore, SPELLINGS);
}
