// Names and their namespaces, and name classes.
use crate::rows::each_row;

const NAMESPACES: &str =
    r#"<grammar xmlns="http://relaxng.org/ns/structure/1.0" ns="u"><start><element name="a"><attribute name="b"/></element></start></grammar>
=>
default namespace = "u"
start = element a { attribute b { text } }
--
<grammar xmlns="http://relaxng.org/ns/structure/1.0" ns=""><start><element name="a"><text/></element></start></grammar>
=>
default namespace = ""
start = element a { text }
--
<start><element name="a" ns="u"><element name="b"><element name="c" ns=""><text/></element></element></element></start>
=>
namespace n1 = "u"
namespace n2 = ""
start = element n1:a { element n1:b { element n2:c { text } } }
--
<grammar xmlns="http://relaxng.org/ns/structure/1.0" ns="u"><start ns="v"><element name="a"><element name="b" ns="u"><text/></element></element></start></grammar>
=>
default namespace = "u"
namespace n1 = "v"
start = element n1:a { element b { text } }
--
<start xmlns:p="u"><element name="p:a"><attribute name=" p:b "/></element></start>
=>
namespace n1 = "u"
start = element n1:a { attribute n1:b { text } }
--
<start xmlns:p="u"><element name="p:a"><element name="p:b" xmlns:p="v"><text/></element><element name="p:c"><text/></element></element></start>
=>
namespace n1 = "u"
namespace n2 = "v"
start = element n1:a { element n2:b { text }, element n1:c { text } }
--
<start ns="u"><attribute name="a"/></start>
=>
start = attribute a { text }
--
<start ns="u"><attribute name="a" ns="v"><ref name="b"/></attribute></start>
=>
namespace n1 = "v"
start = attribute n1:a { b }
--
<start><attribute name="xml:lang"/></start>
=>
start = attribute xml:lang { text }
--
<start ns="http://www.w3.org/XML/1998/namespace"><element name="a"><text/></element></start>
=>
start = element xml:a { text }
"#;

#[test]
fn namespaces(rt: HostRuntime) {
    each_row(&rt, NAMESPACES);
}

const CLASSES: &str = r#"<start><element><name>a</name><text/></element></start>
=>
start = element a { text }
--
<start><element><name ns="u"> a </name><text/><text/></element></start>
=>
namespace n1 = "u"
start = element n1:a { text, text }
--
<start xmlns:p="u"><attribute><name>p:a</name></attribute></start>
=>
namespace n1 = "u"
start = attribute n1:a { text }
--
<start><attribute><name>a</name><ref name="b"/></attribute></start>
=>
namespace n1 = inherit
start = attribute n1:a { b }
--
<start ns=""><attribute><name>a</name></attribute></start>
=>
start = attribute a { text }
--
<start ns="u"><attribute><choice><name>a</name><name ns="">b</name></choice></attribute></start>
=>
namespace n1 = "u"
start = attribute n1:a | b { text }
--
<start><element><anyName/><text/></element></start>
=>
start = element * { text }
--
<start><element><nsName/><text/></element></start>
=>
namespace n1 = inherit
start = element n1:* { text }
--
<grammar xmlns="http://relaxng.org/ns/structure/1.0" ns="u"><start><element><nsName/><text/></element></start></grammar>
=>
default namespace = "u"
namespace n1 = "u"
start = element n1:* { text }
--
<start><element><nsName ns="u"><except><name>a</name></except></nsName><text/></element></start>
=>
namespace n1 = "u"
start = element n1:* - n1:a { text }
--
<start><element><anyName><except><nsName ns="u"/><name>b</name></except></anyName><text/></element></start>
=>
namespace n1 = "u"
start = element * - (n1:* | b) { text }
--
<start><element><choice><anyName><except><name>a</name></except></anyName><choice><name>b</name><name>c</name></choice></choice><text/></element></start>
=>
start = element (* - a) | b | c { text }
--
<start><attribute><nsName ns="http://www.w3.org/XML/1998/namespace"/></attribute></start>
=>
start = attribute xml:* { text }
--
<start><element><a xmlns="u">b</a><name>list</name><empty/></element></start>
=>
start = element list { empty }
"#;

#[test]
fn classes(rt: HostRuntime) {
    each_row(&rt, CLASSES);
}

const HANDED: &str = r#"<include href="x" ns="u"/>
=>
namespace n1 = "u"
include "x" inherit = n1
--
<grammar xmlns="http://relaxng.org/ns/structure/1.0" ns="u"><include href="x"/><div ns="v"><include href="y"><start><element name="a"><text/></element></start></include></div></grammar>
=>
default namespace = "u"
namespace n1 = "v"
include "x"
div {
include "y" inherit = n1 {
start = element n1:a { text }
}
}
--
<start ns="u"><choice><externalRef href="x"/><externalRef href="y" ns=""/></choice></start>
=>
namespace n1 = "u"
namespace n2 = ""
start = external "x" inherit = n1 | external "y" inherit = n2
"#;

#[test]
fn handed(rt: HostRuntime) {
    each_row(&rt, HANDED);
}
