// The grammars of sets, or their refusals. Each set is written with its modules parted by lines of their names.
use crate::pattern_lines::{write_pattern, write_words};
use crate::samples::{rows, written_set};
use rn_assemble::{Grammar, Refusal, assemble};
use rn_modset::ModuleSet;
use std::alloc::{AllocError, Global};
use std::process::Abort;

/// A grammar in one line, its patterns as `pattern_lines` has them.
fn grammar_line(alloc: Global, grammar: &Grammar) -> Result<String, AllocError> {
    let mut out = String::from_str(alloc, "start = ")?;
    write_pattern(&mut out, grammar.start())?;
    for (name, body) in grammar.defs().iter() {
        write_words(&mut out, &["; ", name, " = "])?;
        write_pattern(&mut out, body)?;
    }
    Ok(out)
}

/// A refusal as its name and fields.
fn refusal_line(alloc: Global, refusal: &Refusal) -> Result<String, AllocError> {
    format!(in alloc; "{refusal:?}")
}

/// The grammar of a set in one line, or the refusal.
fn assembled_line(alloc: Global, set: &ModuleSet) -> Result<String, AllocError> {
    match assemble(alloc, set) {
        Ok(grammar) => grammar_line(alloc, &grammar),
        Err(refusal) => refusal_line(alloc, &refusal),
    }
}

/// Assembling the set written gives what is wanted.
fn assembles(rt: &(impl Abort + AllocGlobal), given: &str, wanted: &str) {
    let set = written_set(rt.alloc(), given).expect(rt, "no set");
    let found = assembled_line(rt.alloc(), &set).expect(rt, "no memory");
    assert_eq!(rt; found.as_str(), wanted, "{given}");
}

const GRAMMARS: &str = r#"@a
start = doc doc |= element b { text }
@b
doc |= element a { empty }
=> start = doc; doc = (b{text}|a{empty})

@a
start = element r { x } x &= element a { empty }
@b
x &= element a { empty }
=> start = r{x}; x = (a{empty}&a{empty})

@main
include "lib" include "lib" start = element r { y }
@lib
y |= text
=> start = r{y}; y = (text|text)

@main
default namespace = "u" include "lib" start = p
@lib
p = element p { empty }
=> start = p; p = {u}p{empty}

@main
include "lib" { start = element r { y } y = text }
@lib
start = text y |= element a { empty } y |= element b { empty }
=> start = r{y}; y = text

@main
include "l1" { x = text } start = element r { x }
@l1
include "l2" x |= empty
@l2
x |= element q { empty }
=> start = r{x}; x = text

@main
default namespace = "u" namespace v = "w" include "lib" inherit = v start = p
@lib
p = element p { empty }
=> start = p; p = {w}p{empty}

@a
default namespace = "u" start = element a { attribute b { text } }
=> start = {u}a{@b{text}}

@a
div { div { start = text } }
=> start = text

@a
start = element r { attribute id { xsd:ID }?, (b & a)+ } a = element a { empty } b = element b { string - string "no" }
=> start = r{((@id{<http://www.w3.org/2001/XMLSchema-datatypes>ID}|empty),{(b&a)}+)}; a = a{empty}; b = b{<>string-<>string'no'}

@a
namespace n = "" start = element n:* { attribute xml:lang { text } }
=> start = {}*{@{http://www.w3.org/XML/1998/namespace}lang{text}}

@a
datatypes d = "http://e/lib" start = element a { d:t { k = "v" } }
=> start = a{<http://e/lib>t[k=v]}

@a
start = mixed { text } b = (b2)* b2 = list { "v" }
=> start = (text&text); b = ({b2}+|empty); b2 = list{<>token'v'}

@a 1
start = text
@a 2
start = empty
=> start = empty

@a
\start = text start = element r { \start }
=> start = r{start}; start = text

@a
start = text a = a | element x { empty }
=> start = text; a = (a|x{empty})

@a
b = text start = z a = text
@b
z = empty b2 = text
=> start = z; b = text; a = text; z = empty; b2 = text"#;

#[test]
fn sets_have_their_grammars(rt: HostRuntime) {
    let rows = rows(rt.alloc(), GRAMMARS, "\n\n", "\n=> ").expect(&rt, "no rows");
    for (given, wanted) in &rows {
        assembles(&rt, given, wanted);
    }
}

/// The first places of the start's members, and then those of each definition's.
fn firsts_line(alloc: Global, grammar: &Grammar) -> Result<String, AllocError> {
    let start = grammar.start_firsts();
    let mut out = format!(in alloc; "{start:?}")?;
    for number in 0..grammar.defs().len() {
        let firsts = grammar.firsts(number);
        out.push_str(format!(in alloc; " {firsts:?}")?.as_str())?;
    }
    Ok(out)
}

/// The grammar of the set written has these first places.
fn has_firsts(rt: &(impl Abort + AllocGlobal), given: &str, wanted: &str) {
    let set = written_set(rt.alloc(), given).expect(rt, "no set");
    let grammar = assemble(rt.alloc(), &set).expect(rt, "no grammar");
    let found = firsts_line(rt.alloc(), &grammar).expect(rt, "no memory");
    assert_eq!(rt; found.as_str(), wanted, "{given}");
}

const FIRST_PLACES: &str = r#"@main
include "a" include "b" include "a" start = element r { y }
@a
y |= text y |= empty
@b
y |= text
=> [] [0, 1, 2, 0, 1]

@main
namespace n = "u" include "a" include "a" inherit = n start = element r { y }
@a
y |= element e { empty }
=> [] []

@main
include "a" include "a" y = (text | text)
@a
start &= text
=> [0, 0] []"#;

#[test]
fn repeated_bodies_are_told(rt: HostRuntime) {
    let rows = rows(rt.alloc(), FIRST_PLACES, "\n\n", "\n=> ").expect(&rt, "no rows");
    for (given, wanted) in &rows {
        has_firsts(&rt, given, wanted);
    }
}

const REFUSALS: &str = r#"@
=> NoStart

@a 1
start = text
@a 1
start =  text
=> Conflict { module: "a", revision: 1 }

@a
x = text
@b
x = text start = x
=> PlainTwice { key: Define("x") }

@a
x = text
@b
x |= empty
@c
x &= text
=> MixedMethods { key: Define("x") }

@main
include "lib" include "lib" start = element r { y }
@lib
y = empty
=> PlainTwice { key: Define("y") }

@a
start = a a = a | element x { empty }
=> Recursive { name: "a" }

@main
include "lib" { z = text } start = text
@lib
y = empty
=> Override { module: "main", key: Define("z") }

@main
include "lib" { z = text start = text y = text a = text } start = text
@lib
y = empty
=> Override { module: "main", key: Start }

@main
include "gone" start = text
=> Missing { module: "main", wanted: "gone" }

@main
include "gone" include "a" start = text
=> Missing { module: "main", wanted: "a" }

@a
include "a" start = text
=> Cycle { module: "a" }

@a
include "b"
@b
include "a"
@c
start = text
=> Cycle { module: "a" }

@a
start = text a = b
=> Undefined { name: "b" }

@a
start = text a = c, b
=> Undefined { name: "b" }

@a
start = element a { attribute xmlns { text } }
=> NameClass { key: Start }

@a
start = element * - (a | *) { text }
=> NameClass { key: Start }

@a
start = text b = element b { attribute * - * { text } } a = element a { attribute xmlns { text } }
=> NameClass { key: Define("a") }

@a
start = 
@b
start = (
=> Syntax { module: "a" }

@a
x = p:y
@b
start = x
=> Prefix { module: "a" }"#;

#[test]
fn sets_have_their_refusals(rt: HostRuntime) {
    let rows = rows(rt.alloc(), REFUSALS, "\n\n", "\n=> ").expect(&rt, "no rows");
    for (given, wanted) in &rows {
        assembles(&rt, given, wanted);
    }
}
