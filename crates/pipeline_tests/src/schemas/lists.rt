// Lists within lists of their kind, by rows and drawn. Those that are drawn merge to the same as with all members side by side, and with each reference to
// a definition that is worth notAllowed or empty written out as that.
ghost use Rattle.std.specs.Prelude.{◌<◌, ◌≤◌};

use crate::shared::comparing::{expect_text, same_for};
use crate::shared::drawing::Draw;
use crate::shared::given_texts::{owned, push, written_set};
use crate::shared::merges::{EachStore, Merge, MergeAgain, merged, prints_in_each_store};
use crate::shared::tables::each_schema;
use std::process::Abort;

/// Lists of which some members are lists of the same kind, or come to that, or to nothing.
const LISTS: &str =
    r#"start = element r { ((a | c) | b) | (b | (c | (a | a))) } a = element a { empty } b = element b { empty } c = element c { empty }
=>
start = element r { a | b | c }
a = element a { empty }
b = element b { empty }
c = element c { empty }
--
start = element r { a, ((b, a), (empty, (b, a))) } a = element a { empty } b = element b { empty }
=>
start = element r { a, b, a, b, a }
a = element a { empty }
b = element b { empty }
--
start = element r { (b & (b & a)) & ((a & empty) & text) } a = element a { empty } b = element b { empty }
=>
start = element r { mixed { a & a & b & b } }
a = element a { empty }
b = element b { empty }
--
start = element r { (empty, (b | a)) | a+ | (m, (b | n)) } m = empty n = a, notAllowed a = element a { empty } b = element b { empty }
=>
start = element r { a | b | a+ }
a = element a { empty }
b = element b { empty }
--
start = element r { a+ & (empty, (b & a)) & (m | n) & ((a & b) | n) } m = empty n = notAllowed a = element a { empty } b = element b { empty }
=>
start = element r { a & a & b & b & a+ }
a = element a { empty }
b = element b { empty }
--
start = element r { a, ((b, a+) | n), (empty & (b, a)), m } m = empty n = notAllowed a = element a { empty } b = element b { empty }
=>
start = element r { a, b, a+, b, a }
a = element a { empty }
b = element b { empty }
--
start = element r { (m, a) | (a, m2) | (a | n) | (a & m) | list { m | "v" } | list { m2 | "v" } } m = empty m2 = m? n = notAllowed a = element a { empty }
=>
start = element r { a | list { "v"? } }
a = element a { empty }
--
start = element r { attribute k { n } | list { n, a } | n+ | element e { n } | a } n = notAllowed a = element a { empty }
=>
start = element r { a | element e { notAllowed } }
a = element a { empty }
--
start = element r { m+, (a+)+, (a+ | n)+ } m = empty n = notAllowed a = element a { empty }
=>
start = element r { a+, a+ }
a = element a { empty }
--
start = element r { (string - (notAllowed | notAllowed)) | string | (token - ("b" | notAllowed | "a" | "b")) | (token - ("a" | notAllowed)) }
=>
start = element r { string | (token - "a") | (token - ("a" | "b")) }
--
start = element r { (string - (token - notAllowed)) | (string - token) }
=>
start = element r { string - token }
--
@main
include "lib" include "other" include "lib" include "lib"
start = element r { x, y } m = empty n = notAllowed a = element a { empty } b = element b { empty }
@lib
x |= b | (a | m) x |= n
y &= b & (m & a) y &= m
@other
x |= a+
y &= a+
=>
start = element r { x, y }
a = element a { empty }
b = element b { empty }
x = (a | b | a+)?
y = a & a & a & b & b & b & a+
"#;

#[test]
fn lists_print_their_schemas(rt: HostRuntime) {
    each_schema(&rt, &Merge, LISTS);
    each_schema(&rt, &MergeAgain, LISTS);
    each_schema(&rt, &EachStore, LISTS);
}

/// Members as a text has them, and as they are written out. The last two are notAllowed.
const MEMBERS: [(&str, &str); 7] = [
    ("x", "x"),
    ("m", "empty"),
    ("element a { text }", "element a { text }"),
    ("element b { x? }", "element b { x? }"),
    ("empty", "empty"),
    ("n", "notAllowed"),
    ("notAllowed", "notAllowed"),
];

/// The definitions that are named: `n` is worth notAllowed and `m` empty.
const NAMED: &str = "\nn = x, notAllowed\nm = empty?, (empty | n)";

/// A list as it is drawn, in parentheses anywhere, and the same with its members side by side.
#[derive(Drop)]
struct Drawn {
    nested: String,
    flat: String,
}

/// Adds a text so often.
fn push_times(rt: &impl Abort, out: &mut String, text: &str, count: u64) {
    for _ in 0..count {
        push(rt, out, text);
    }
}

/// A list of thirty of the first `kinds` members.
fn draw_list(rt: &(impl Abort + AllocGlobal), draw: &mut Draw, connector: &str, kinds: u64) -> Drawn
    requires some { 0 < kinds }
    requires known { kinds ≤ 7 }
{
    let mut nested = owned(rt, "");
    let mut flat = owned(rt, "");
    let mut open: u64 = 0;
    for i in 0..30 {
        if i > 0 {
            push(rt, &mut nested, connector);
            push(rt, &mut flat, connector);
        }
        let opened = draw.below(3);
        push_times(rt, &mut nested, "(", opened);
        let (member, written) = MEMBERS[draw.below(kinds) as usize];
        push(rt, &mut nested, member);
        push(rt, &mut flat, written);
        open = open.saturating_add(opened);
        let closed = draw.below(3).min(open);
        push_times(rt, &mut nested, ")", closed);
        open = open.saturating_sub(closed);
    }
    push_times(rt, &mut nested, ")", open);
    Drawn { nested, flat }
}

/// The schema of a module whose start has that content, which is printed through either store too.
fn schema(rt: &(impl Abort + AllocGlobal), content: &str, definitions: &str) -> String {
    let text = expect_text(
        rt,
        format!(in rt.alloc();
            "start = element r {{ {content} }}\nx = element x {{ text }}{definitions}"
        ),
    );
    prints_in_each_store(rt, &written_set(rt, text.as_str()));
    merged(rt, text.as_str())
}

/// Lists of a connector come to the same as their members side by side.
fn come_to_the_same(rt: &(impl Abort + AllocGlobal), connector: &str, kinds: u64)
    requires some { 0 < kinds }
    requires known { kinds ≤ 7 }
{
    let mut draw = Draw::new();
    for _ in 0..20 {
        let list = draw_list(rt, &mut draw, connector, kinds);
        let found = schema(rt, list.nested.as_str(), NAMED);
        let wanted = schema(rt, list.flat.as_str(), "");
        same_for(rt, list.nested.as_str(), found.as_str(), wanted.as_str());
    }
}

#[test]
fn choices_are_flat(rt: HostRuntime) {
    come_to_the_same(&rt, " | ", 7);
}

#[test]
fn groups_are_flat(rt: HostRuntime) {
    come_to_the_same(&rt, ", ", 5);
}

#[test]
fn interleaves_are_flat(rt: HostRuntime) {
    come_to_the_same(&rt, " & ", 5);
}
