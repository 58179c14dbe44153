// Namespaces: `ns` stands where a name does not inherit its namespace, and nowhere else.
use crate::rows::each_row;

const ELEMENTS: &str = r#"default namespace = "u" start = element a { element b { empty } }
=>
  <start>
    <element name="a" ns="u">
      <element name="b">
        <empty/>
      </element>
    </element>
  </start>
--
namespace p = "u" start = element p:a { element b { element c { empty } } }
=>
  <start>
    <element name="a" ns="u">
      <element name="b" ns="">
        <element name="c">
          <empty/>
        </element>
      </element>
    </element>
  </start>
--
namespace p = "u" namespace q = "v" start = element p:a { element q:b { element p:c { empty } }, element p:d { empty } }
=>
  <start>
    <element name="a" ns="u">
      <element name="b" ns="v">
        <element name="c" ns="u">
          <empty/>
        </element>
      </element>
      <element name="d">
        <empty/>
      </element>
    </element>
  </start>
--
namespace p = "u" namespace q = "u" start = element p:a { element q:b { empty } }
=>
  <start>
    <element name="a" ns="u">
      <element name="b">
        <empty/>
      </element>
    </element>
  </start>
--
namespace p = "u" start = element p:a { a } a = element b { empty }
=>
  <start>
    <element name="a" ns="u">
      <ref name="a"/>
    </element>
  </start>
  <define name="a">
    <element name="b">
      <empty/>
    </element>
  </define>
--
namespace p = "u" start = element p:a { (element b { empty } | c)+ }
=>
  <start>
    <element name="a" ns="u">
      <oneOrMore>
        <choice>
          <element name="b" ns="">
            <empty/>
          </element>
          <ref name="c"/>
        </choice>
      </oneOrMore>
    </element>
  </start>
--
default namespace = inherit namespace p = inherit start = element a { element p:b { empty } }
=>
  <start>
    <element name="a">
      <element name="b">
        <empty/>
      </element>
    </element>
  </start>
--
default namespace p = "u" start = element a { element p:b { empty } }
=>
  <start>
    <element name="a" ns="u">
      <element name="b">
        <empty/>
      </element>
    </element>
  </start>
"#;

#[test]
fn elements(rt: HostRuntime) {
    each_row(&rt, ELEMENTS);
}

// The name of an attribute without `ns` has no namespace; what is in it inherits past it.
const ATTRIBUTES: &str = r#"default namespace = "u" start = element a { attribute b { text } }
=>
  <start>
    <element name="a" ns="u">
      <attribute name="b"/>
    </element>
  </start>
--
default namespace p = "u" start = element a { attribute p:b { text } }
=>
  <start>
    <element name="a" ns="u">
      <attribute name="b" ns="u"/>
    </element>
  </start>
--
default namespace = "u" start = element a { attribute b | c { text } }
=>
  <start>
    <element name="a" ns="u">
      <attribute>
        <choice>
          <name ns="">b</name>
          <name ns="">c</name>
        </choice>
      </attribute>
    </element>
  </start>
--
default namespace p = "u" start = element a { attribute p:b | c { text } }
=>
  <start>
    <element name="a" ns="u">
      <attribute>
        <choice>
          <name>b</name>
          <name ns="">c</name>
        </choice>
      </attribute>
    </element>
  </start>
--
default namespace = "u" start = element a { attribute * - b { text } }
=>
  <start>
    <element name="a" ns="u">
      <attribute>
        <anyName>
          <except>
            <name ns="">b</name>
          </except>
        </anyName>
      </attribute>
    </element>
  </start>
--
default namespace = "u" start = element a { attribute b { element c { empty } } }
=>
  <start>
    <element name="a" ns="u">
      <attribute name="b">
        <element name="c">
          <empty/>
        </element>
      </attribute>
    </element>
  </start>
--
default namespace = "u" namespace q = "v" start = element a { attribute q:b { element c { empty } } }
=>
  <start>
    <element name="a" ns="u">
      <attribute name="b" ns="v">
        <element name="c" ns="u">
          <empty/>
        </element>
      </attribute>
    </element>
  </start>
"#;

#[test]
fn attributes(rt: HostRuntime) {
    each_row(&rt, ATTRIBUTES);
}

// Names of the namespace of XML have its prefix, which needs no declaration, and no `ns`.
const XML_NAMES: &str = r#"default namespace = "u" start = element a { attribute xml:lang { text } }
=>
  <start>
    <element name="a" ns="u">
      <attribute name="xml:lang"/>
    </element>
  </start>
--
start = element xml:a { element b { empty } }
=>
  <start>
    <element name="xml:a">
      <element name="b">
        <empty/>
      </element>
    </element>
  </start>
--
default namespace = "u" start = element a { element xml:b { element c { empty } } }
=>
  <start>
    <element name="a" ns="u">
      <element name="xml:b">
        <element name="c">
          <empty/>
        </element>
      </element>
    </element>
  </start>
--
start = element a { attribute xml:* - xml:id { text } }
=>
  <start>
    <element name="a">
      <attribute>
        <nsName ns="http://www.w3.org/XML/1998/namespace">
          <except>
            <name>xml:id</name>
          </except>
        </nsName>
      </attribute>
    </element>
  </start>
--
namespace x = "http://www.w3.org/XML/1998/namespace" start = element x:a { empty }
=>
  <start>
    <element name="xml:a">
      <empty/>
    </element>
  </start>
"#;

#[test]
fn xml_names(rt: HostRuntime) {
    each_row(&rt, XML_NAMES);
}

// URIs that have to be escaped.
const URIS: &str = r#"namespace p = "a&b<c>d e" start = element p:x { empty }
=>
  <start>
    <element name="x" ns="a&amp;b&lt;c&gt;d e">
      <empty/>
    </element>
  </start>
--
namespace p = 'http://example.org/"quoted"' start = element p:x { empty }
=>
  <start>
    <element name="x" ns="http://example.org/&quot;quoted&quot;">
      <empty/>
    </element>
  </start>
"#;

#[test]
fn uris(rt: HostRuntime) {
    each_row(&rt, URIS);
}
