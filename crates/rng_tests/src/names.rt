// Names and name classes: where a name gives its namespace, and where it inherits it.
use crate::rows::each_row;

const NAME_CLASSES: &str = r#"start = element * { empty }
=>
  <start>
    <element>
      <anyName/>
      <empty/>
    </element>
  </start>
--
start = element * - a { empty }
=>
  <start>
    <element>
      <anyName>
        <except>
          <name>a</name>
        </except>
      </anyName>
      <empty/>
    </element>
  </start>
--
namespace p = "u" start = element * - (a | p:* | p:b) { empty }
=>
  <start>
    <element>
      <anyName>
        <except>
          <name>a</name>
          <nsName ns="u"/>
          <name ns="u">b</name>
        </except>
      </anyName>
      <empty/>
    </element>
  </start>
--
namespace p = "u" start = element p:* { empty }
=>
  <start>
    <element>
      <nsName ns="u"/>
      <empty/>
    </element>
  </start>
--
namespace p = "" start = element p:* { empty }
=>
  <start>
    <element>
      <nsName ns=""/>
      <empty/>
    </element>
  </start>
--
start = element (a | b) | c { empty }
=>
  <start>
    <element>
      <choice>
        <choice>
          <name>a</name>
          <name>b</name>
        </choice>
        <name>c</name>
      </choice>
      <empty/>
    </element>
  </start>
--
start = element * - (* - a) { empty }
=>
  <start>
    <element>
      <anyName>
        <except>
          <anyName>
            <except>
              <name>a</name>
            </except>
          </anyName>
        </except>
      </anyName>
      <empty/>
    </element>
  </start>
"#;

#[test]
fn name_classes(rt: HostRuntime) {
    each_row(&rt, NAME_CLASSES);
}

// The names of an except inherit the namespace of their nsName.
const EXCEPTS: &str = r#"namespace p = "u" start = element p:* - p:a { empty }
=>
  <start>
    <element>
      <nsName ns="u">
        <except>
          <name>a</name>
        </except>
      </nsName>
      <empty/>
    </element>
  </start>
--
namespace p = "u" start = element p:* - (p:a | b | xml:c) { empty }
=>
  <start>
    <element>
      <nsName ns="u">
        <except>
          <name>a</name>
          <name ns="">b</name>
          <name>xml:c</name>
        </except>
      </nsName>
      <empty/>
    </element>
  </start>
--
namespace p = "u" namespace q = "v" start = attribute p:* - (q:a | b) { text }
=>
  <start>
    <attribute>
      <nsName ns="u">
        <except>
          <name ns="v">a</name>
          <name ns="">b</name>
        </except>
      </nsName>
    </attribute>
  </start>
--
namespace p = "u" namespace q = "v" start = element p:a { element q:* - p:b { empty } }
=>
  <start>
    <element name="a" ns="u">
      <element>
        <nsName ns="v">
          <except>
            <name ns="u">b</name>
          </except>
        </nsName>
        <empty/>
      </element>
    </element>
  </start>
"#;

#[test]
fn excepts(rt: HostRuntime) {
    each_row(&rt, EXCEPTS);
}

// Names that XML has and ASCII does not.
const LETTERS: &str = r#"start = größe größe = element 名前 { attribute a·b { text } }
=>
  <start>
    <ref name="größe"/>
  </start>
  <define name="größe">
    <element name="名前">
      <attribute name="a·b"/>
    </element>
  </define>
--
start = element \list { attribute \text { text } }
=>
  <start>
    <element name="list">
      <attribute name="text"/>
    </element>
  </start>
"#;

#[test]
fn letters(rt: HostRuntime) {
    each_row(&rt, LETTERS);
}
