// What grammars hold, and what leaves nothing.
use crate::rows::{each_row, translated};

const ITEMS: &str =
    r#"<start combine="choice"><ref name="a"/></start><start combine=" interleave "><ref name="b"/></start>
=>
start |= a
start &= b
--
<define name="a" combine="choice"><text/></define><define name="start"><text/></define>
=>
a |= text
\start = text
--
<div><start><text/></start><div><define name="a"><text/></define></div></div>
=>
div {
start = text
div {
a = text
}
}
--
<include href="x.rng"/>
=>
include "x.rng"
--
<include href="x y&quot;.rnc"/><start><text/></start>
=>
include "x y" ~ '"' ~ ".rnc"
start = text
--
<include href="x.rng"><start><text/></start><div><define name="a"><text/></define></div></include>
=>
include "x.rng" {
start = text
div {
a = text
}
}
--
<start><grammar><include href="x.rng"/><start><parentRef name="a"/></start></grammar></start><define name="a"><text/></define>
=>
start = grammar {
include "x.rng"
start = parent a
}
a = text
"#;

#[test]
fn items(rt: HostRuntime) {
    each_row(&rt, ITEMS);
}

const ANNOTATIONS: &str = r#"<a:note xmlns:a="u">some text<start/></a:note><start><text/></start>
=>
start = text
--
<start a:x="1" xmlns:a="u"><text><a:x xmlns:a="u"/></text></start>
=>
start = text
--
<start><!-- a comment --><text/><?a pi?></start>
=>
start = text
--
<start><element name="a"><a xmlns=""/><text/><a xmlns="u"><value xmlns="http://relaxng.org/ns/structure/1.0">v</value></a></element></start>
=>
start = element a { text }
--
<start><choice><text/><a xmlns="u"/></choice></start>
=>
start = text
--
<start xml:lang="en"><text/></start>
=>
start = text
"#;

#[test]
fn annotations(rt: HostRuntime) {
    each_row(&rt, ANNOTATIONS);
}

/// A schema that begins with a name whose first character would be a byte order mark there.
const MARKED: &str =
    r#"<grammar xmlns="http://relaxng.org/ns/structure/1.0"><define name="&#xFEFF;1"><text/></define></grammar>"#;

#[test]
fn mark_at_the_start(rt: HostRuntime) {
    let made = translated(&rt, MARKED).expect(&rt, "no text");
    assert_eq!(rt; made.text.as_str(), " \u{FEFF}1 = text\n");
}
