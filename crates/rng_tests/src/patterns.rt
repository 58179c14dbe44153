// Patterns, one row for each line of the spelling's table.
use crate::rows::each_row;

const LEAVES: &str = r#"start = notAllowed
=>
  <start>
    <notAllowed/>
  </start>
--
start = empty
=>
  <start>
    <empty/>
  </start>
--
start = text
=>
  <start>
    <text/>
  </start>
--
start = a a = text
=>
  <start>
    <ref name="a"/>
  </start>
  <define name="a">
    <text/>
  </define>
--
start = \element \element = \start \start = empty
=>
  <start>
    <ref name="element"/>
  </start>
  <define name="element">
    <ref name="start"/>
  </define>
  <define name="start">
    <empty/>
  </define>
"#;

#[test]
fn leaves(rt: HostRuntime) {
    each_row(&rt, LEAVES);
}

// Elements that put several children into a group, and those that hold one pattern.
const GROUPS: &str = r#"start = a, b
=>
  <start>
    <group>
      <ref name="a"/>
      <ref name="b"/>
    </group>
  </start>
--
start = a a = b, c
=>
  <start>
    <ref name="a"/>
  </start>
  <define name="a">
    <ref name="b"/>
    <ref name="c"/>
  </define>
--
start = element r { a, (b, c), d }
=>
  <start>
    <element name="r">
      <ref name="a"/>
      <group>
        <ref name="b"/>
        <ref name="c"/>
      </group>
      <ref name="d"/>
    </element>
  </start>
--
start = element r { a | b }
=>
  <start>
    <element name="r">
      <choice>
        <ref name="a"/>
        <ref name="b"/>
      </choice>
    </element>
  </start>
--
start = element r { a & (b | c) & d }
=>
  <start>
    <element name="r">
      <interleave>
        <ref name="a"/>
        <choice>
          <ref name="b"/>
          <ref name="c"/>
        </choice>
        <ref name="d"/>
      </interleave>
    </element>
  </start>
--
start = attribute t { a, b }
=>
  <start>
    <attribute name="t">
      <group>
        <ref name="a"/>
        <ref name="b"/>
      </group>
    </attribute>
  </start>
--
start = attribute t { text }
=>
  <start>
    <attribute name="t"/>
  </start>
--
start = attribute t { empty }
=>
  <start>
    <attribute name="t">
      <empty/>
    </attribute>
  </start>
--
start = attribute a | b { text }
=>
  <start>
    <attribute>
      <choice>
        <name>a</name>
        <name>b</name>
      </choice>
    </attribute>
  </start>
--
start = attribute a | b { c, d }
=>
  <start>
    <attribute>
      <choice>
        <name>a</name>
        <name>b</name>
      </choice>
      <group>
        <ref name="c"/>
        <ref name="d"/>
      </group>
    </attribute>
  </start>
--
start = element * { a, b }
=>
  <start>
    <element>
      <anyName/>
      <ref name="a"/>
      <ref name="b"/>
    </element>
  </start>
--
start = element r { text }
=>
  <start>
    <element name="r">
      <text/>
    </element>
  </start>
"#;

#[test]
fn groups(rt: HostRuntime) {
    each_row(&rt, GROUPS);
}

const REPETITIONS: &str = r#"start = a+
=>
  <start>
    <oneOrMore>
      <ref name="a"/>
    </oneOrMore>
  </start>
--
start = (a, b)*
=>
  <start>
    <zeroOrMore>
      <ref name="a"/>
      <ref name="b"/>
    </zeroOrMore>
  </start>
--
start = (a | b)?
=>
  <start>
    <optional>
      <choice>
        <ref name="a"/>
        <ref name="b"/>
      </choice>
    </optional>
  </start>
--
start = (a+)?
=>
  <start>
    <optional>
      <oneOrMore>
        <ref name="a"/>
      </oneOrMore>
    </optional>
  </start>
--
start = list { a, b }
=>
  <start>
    <list>
      <ref name="a"/>
      <ref name="b"/>
    </list>
  </start>
--
start = list { a | b }
=>
  <start>
    <list>
      <choice>
        <ref name="a"/>
        <ref name="b"/>
      </choice>
    </list>
  </start>
--
start = mixed { a, b }
=>
  <start>
    <mixed>
      <ref name="a"/>
      <ref name="b"/>
    </mixed>
  </start>
--
start = mixed { a & b }
=>
  <start>
    <mixed>
      <interleave>
        <ref name="a"/>
        <ref name="b"/>
      </interleave>
    </mixed>
  </start>
"#;

#[test]
fn repetitions(rt: HostRuntime) {
    each_row(&rt, REPETITIONS);
}

// What no printed schema has: methods, divs and a grammar without items.
const MODULES: &str = r#"start = a start |= b a &= empty
=>
  <start>
    <ref name="a"/>
  </start>
  <start combine="choice">
    <ref name="b"/>
  </start>
  <define name="a" combine="interleave">
    <empty/>
  </define>
--
div { start = a div { a = empty } } div { }
=>
  <div>
    <start>
      <ref name="a"/>
    </start>
    <div>
      <define name="a">
        <empty/>
      </define>
    </div>
  </div>
  <div/>
"#;

#[test]
fn modules(rt: HostRuntime) {
    each_row(&rt, MODULES);
}
