// What is refused, with its place and its sentence.
use crate::rows::each_fault;

const ELEMENTS: &str = r#"@@<a xmlns="u"/>
=>
this is no RELAX NG schema: its root is `a` of the namespace "u"
--
@@<start xmlns="http://relaxng.org/ns/structure/1.0"><text/></start>
=>
this is no RELAX NG schema: its root is `start` of the namespace "http://relaxng.org/ns/structure/1.0"
--
<start>@@<foo/></start>
=>
`foo` is no element of RELAX NG
--
@@<element name="a"><text/></element>
=>
`element` can't stand in `grammar`
--
<start>@@<start><text/></start></start>
=>
`start` can't stand in `start`
--
<include href="x">@@<include href="y"/></include>
=>
`include` can't stand in `include`
--
<start><value>a@@<text/></value></start>
=>
`text` can't stand in `value`
--
<start><text>@@<text/></text></start>
=>
`text` can't stand in `text`
--
<start><element name="a">@@<name>b</name></element></start>
=>
`name` can't stand in `element`
--
<start>@@<element><text/><name>a</name></element></start>
=>
`element` has neither the attribute name nor a name class
--
<start><element><choice><name>a</name>@@<text/></choice><text/></element></start>
=>
`text` can't stand in `choice`
--
<start><element><anyName>@@<name>a</name></anyName><text/></element></start>
=>
`name` can't stand in `anyName`
--
<start><value>a@@<x:b xmlns:x="u"/>c</value></start>
=>
an element of another namespace can't stand in `value`
--
<start><data type="token"><param name="p">@@<b xmlns="u"/></param></data></start>
=>
an element of another namespace can't stand in `param`
--
<start><element><name>a@@<b xmlns=""/></name><text/></element></start>
=>
an element of another namespace can't stand in `name`
"#;

#[test]
fn elements(rt: HostRuntime) {
    each_fault(&rt, ELEMENTS);
}

const CONTENT: &str = r#"@@<start/>
=>
`start` has no pattern
--
<start><text/>@@<text/></start>
=>
`start` has one pattern
--
<start><attribute name="a"><text/>@@<text/></attribute></start>
=>
`attribute` has one pattern
--
<start><attribute><name>a</name><text/>@@<text/></attribute></start>
=>
`attribute` has one pattern
--
<start>@@<element name="a"/></start>
=>
`element` has no pattern
--
<start>@@<element><name>a</name></element></start>
=>
`element` has no pattern
--
<start>@@<element/></start>
=>
`element` has neither the attribute name nor a name class
--
<start><element>@@<choice/><text/></element></start>
=>
`choice` has no name class
--
<start>@@<choice><a xmlns="u"/></choice></start>
=>
`choice` has no pattern
--
<start><element><anyName>@@<except/></anyName><text/></element></start>
=>
`except` has no name class
--
<start><data type="string">@@<except/></data></start>
=>
`except` has no pattern
--
<start><data type="string"><except><value>a</value></except>@@<param name="p"/></data></start>
=>
`data` has one except, which comes last
--
<start><element><anyName><except><name>a</name></except>@@<except><name>a</name></except></anyName><text/></element></start>
=>
`anyName` has one except, which comes last
--
<start>@@x<text/></start>
=>
text can't stand in `start`
--
<start><text/></start> @@x
=>
text can't stand in `grammar`
--
<start><empty>@@x</empty></start>
=>
text can't stand in `empty`
"#;

#[test]
fn content(rt: HostRuntime) {
    each_fault(&rt, CONTENT);
}

const ATTRIBUTES: &str = r#"<start @@name="a"><text/></start>
=>
`start` has no attribute `name`
--
<start><text @@foo="a"/></start>
=>
`text` has no attribute `foo`
--
<start xmlns:r="http://relaxng.org/ns/structure/1.0"><ref name="a" @@r:name="a"/></start>
=>
`ref` has no attribute `r:name`
--
<start>@@<ref/></start>
=>
`ref` lacks its attribute name
--
@@<define><text/></define>
=>
`define` lacks its attribute name
--
<start>@@<data/></start>
=>
`data` lacks its attribute type
--
@@<include/>
=>
`include` lacks its attribute href
--
<start combine="@@other"><text/></start>
=>
combine is choice or interleave
--
<include href="@@x#y"/>
=>
an href has no fragment
--
<include @@xml:base="x" href="y"/>
=>
xml:base is not followed: write it into the href
"#;

#[test]
fn attributes(rt: HostRuntime) {
    each_fault(&rt, ATTRIBUTES);
}

const NAMES: &str = r#"<start><ref name="@@a:b"/></start>
=>
`a:b` is no name
--
<start><ref name="@@"/></start>
=>
`` is no name
--
<start><element name="@@1"><text/></element></start>
=>
`1` is no name
--
<start><element name="@@p:a"><text/></element></start>
=>
the prefix `p` is not declared
--
<start><element xmlns:p="u" name="@@p:a:b"><text/></element></start>
=>
`a:b` is no name
--
<start><element><name>@@p:a</name><text/></element></start>
=>
the prefix `p` is not declared
--
<start><element>@@<name/><text/></element></start>
=>
`` is no name
--
<start><data type="@@x:t"/></start>
=>
`x:t` is no name
"#;

#[test]
fn names(rt: HostRuntime) {
    each_fault(&rt, NAMES);
}

const FIRST: &str = r#"@@<start/><foo/>
=>
`start` has no pattern
--
<start><ref name="@@1" foo="x"/></start>
=>
`1` is no name
--
<start>@@x<foo/></start>
=>
text can't stand in `start`
--
<start>@@<foo/>x</start>
=>
`foo` is no element of RELAX NG
"#;

#[test]
fn first_by_place(rt: HostRuntime) {
    each_fault(&rt, FIRST);
}
