// Patterns: each element, what several children come to, and parentheses.
use crate::rows::each_row;

const PATTERNS: &str = r#"<start><empty/></start>
=>
start = empty
--
<start><text/></start>
=>
start = text
--
<start><notAllowed/></start>
=>
start = notAllowed
--
<start><ref name="a"/></start>
=>
start = a
--
<start><ref name=" element "/></start>
=>
start = \element
--
<start><grammar><start><parentRef name="start"/></start></grammar></start>
=>
start = grammar {
start = parent \start
}
--
<start><element name="a"><empty/></element></start>
=>
start = element a { empty }
--
<start><element name="a"><text/><empty/></element></start>
=>
start = element a { text, empty }
--
<start><attribute name="a"/></start>
=>
start = attribute a { text }
--
<start><attribute name="a"><empty/></attribute></start>
=>
start = attribute a { empty }
--
<start><list><ref name="a"/><ref name="b"/></list></start>
=>
start = list { a, b }
--
<start><mixed><ref name="a"/></mixed></start>
=>
start = mixed { a }
--
<start><externalRef href="x.rng"/></start>
=>
start = external "x.rng"
--
<define name="a"><ref name="b"/><ref name="c"/></define>
=>
a = b, c
"#;

#[test]
fn patterns(rt: HostRuntime) {
    each_row(&rt, PATTERNS);
}

const OPERATORS: &str = r#"<start><group><ref name="a"/><ref name="b"/></group></start>
=>
start = a, b
--
<start><interleave><ref name="a"/><ref name="b"/></interleave></start>
=>
start = a & b
--
<start><choice><ref name="a"/><ref name="b"/></choice></start>
=>
start = a | b
--
<start><choice><ref name="a"/></choice></start>
=>
start = a
--
<start><choice><group><ref name="a"/><ref name="b"/></group><ref name="c"/></choice></start>
=>
start = (a, b) | c
--
<start><choice><ref name="a"/><choice><ref name="b"/><ref name="c"/></choice></choice></start>
=>
start = a | b | c
--
<start><choice><group><ref name="a"/></group><interleave><ref name="b"/></interleave></choice></start>
=>
start = a | b
--
<start><choice><group><choice><ref name="a"/><ref name="b"/></choice></group><ref name="c"/></choice></start>
=>
start = a | b | c
--
<start><group><choice><ref name="a"/><ref name="b"/></choice><zeroOrMore><ref name="c"/></zeroOrMore></group></start>
=>
start = (a | b), c*
--
<start><element name="a"><choice><ref name="a"/><ref name="b"/></choice></element></start>
=>
start = element a { a | b }
--
<start><element name="a"><choice><ref name="a"/><ref name="b"/></choice><ref name="c"/></element></start>
=>
start = element a { (a | b), c }
"#;

#[test]
fn operators(rt: HostRuntime) {
    each_row(&rt, OPERATORS);
}

const REPETITIONS: &str = r#"<start><optional><ref name="a"/></optional></start>
=>
start = a?
--
<start><zeroOrMore><ref name="a"/></zeroOrMore></start>
=>
start = a*
--
<start><oneOrMore><ref name="a"/></oneOrMore></start>
=>
start = a+
--
<start><optional><ref name="a"/><ref name="b"/></optional></start>
=>
start = (a, b)?
--
<start><optional><choice><ref name="a"/><ref name="b"/></choice></optional></start>
=>
start = (a | b)?
--
<start><optional><zeroOrMore><ref name="a"/></zeroOrMore></optional></start>
=>
start = (a*)?
--
<start><optional><group><zeroOrMore><ref name="a"/></zeroOrMore></group></optional></start>
=>
start = (a*)?
--
<start><oneOrMore><optional><ref name="a"/><ref name="b"/></optional></oneOrMore></start>
=>
start = ((a, b)?)+
--
<start><oneOrMore><element name="a"><text/></element></oneOrMore></start>
=>
start = element a { text }+
"#;

#[test]
fn repetitions(rt: HostRuntime) {
    each_row(&rt, REPETITIONS);
}

const ROOTS: &str =
    r#"<element xmlns="http://relaxng.org/ns/structure/1.0" name="a"><text/></element>
=>
element a { text }
--
<choice xmlns="http://relaxng.org/ns/structure/1.0"><ref name="a"/><empty/></choice>
=>
a | empty
--
<rng:grammar xmlns:rng="http://relaxng.org/ns/structure/1.0" xmlns="u"><rng:start><rng:text/></rng:start></rng:grammar>
=>
start = text
--
<grammar xmlns="http://relaxng.org/ns/structure/1.0"/>
=>

--
<externalRef xmlns="http://relaxng.org/ns/structure/1.0" href="x.rnc"/>
=>
external "x.rnc"
"#;

#[test]
fn roots(rt: HostRuntime) {
    each_row(&rt, ROOTS);
}
