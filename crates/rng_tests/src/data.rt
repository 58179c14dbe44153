// Datatypes, values, parameters, and the characters that are escaped in them.
use crate::rows::each_row;

const VALUES: &str = r#"start = "V"
=>
  <start>
    <value>V</value>
  </start>
--
start = ""
=>
  <start>
    <value></value>
  </start>
--
start = string "V"
=>
  <start>
    <value type="string" datatypeLibrary="">V</value>
  </start>
--
start = token "V"
=>
  <start>
    <value type="token" datatypeLibrary="">V</value>
  </start>
--
start = xsd:string "V"
=>
  <start>
    <value type="string">V</value>
  </start>
--
datatypes d = "http://example.org/types" start = d:t "V"
=>
  <start>
    <value type="t" datatypeLibrary="http://example.org/types">V</value>
  </start>
--
datatypes d = "http://www.w3.org/2001/XMLSchema-datatypes" start = d:t "V"
=>
  <start>
    <value type="t">V</value>
  </start>
"#;

#[test]
fn values(rt: HostRuntime) {
    each_row(&rt, VALUES);
}

const DATA: &str = r#"start = string
=>
  <start>
    <data type="string" datatypeLibrary=""/>
  </start>
--
start = token
=>
  <start>
    <data type="token" datatypeLibrary=""/>
  </start>
--
start = xsd:integer
=>
  <start>
    <data type="integer"/>
  </start>
--
datatypes d = "u" start = d:t
=>
  <start>
    <data type="t" datatypeLibrary="u"/>
  </start>
--
start = xsd:string { maxLength = "3" pattern = "" }
=>
  <start>
    <data type="string">
      <param name="maxLength">3</param>
      <param name="pattern"></param>
    </data>
  </start>
--
start = xsd:string - "a"
=>
  <start>
    <data type="string">
      <except>
        <value>a</value>
      </except>
    </data>
  </start>
--
start = string - ("a" | string "b")
=>
  <start>
    <data type="string" datatypeLibrary="">
      <except>
        <value>a</value>
        <value type="string">b</value>
      </except>
    </data>
  </start>
--
start = xsd:string { minLength = "1" } - (xsd:integer - "0")
=>
  <start>
    <data type="string">
      <param name="minLength">1</param>
      <except>
        <data type="integer">
          <except>
            <value>0</value>
          </except>
        </data>
      </except>
    </data>
  </start>
"#;

// Data in an except inherit the library of the data that they are taken from.
const LIBRARIES: &str = r#"start = string - xsd:NCName
=>
  <start>
    <data type="string" datatypeLibrary="">
      <except>
        <data type="NCName" datatypeLibrary="http://www.w3.org/2001/XMLSchema-datatypes"/>
      </except>
    </data>
  </start>
--
datatypes d = "u" start = d:t - ("a" | d:s | xsd:int | token), d:t
=>
  <start>
    <group>
      <data type="t" datatypeLibrary="u">
        <except>
          <value>a</value>
          <data type="s"/>
          <data type="int" datatypeLibrary="http://www.w3.org/2001/XMLSchema-datatypes"/>
          <data type="token" datatypeLibrary=""/>
        </except>
      </data>
      <data type="t" datatypeLibrary="u"/>
    </group>
  </start>
--
start = xsd:int - (string - (xsd:int - token "1"))
=>
  <start>
    <data type="int">
      <except>
        <data type="string" datatypeLibrary="">
          <except>
            <data type="int" datatypeLibrary="http://www.w3.org/2001/XMLSchema-datatypes">
              <except>
                <value type="token" datatypeLibrary="">1</value>
              </except>
            </data>
          </except>
        </data>
      </except>
    </data>
  </start>
"#;

#[test]
fn libraries(rt: HostRuntime) {
    each_row(&rt, LIBRARIES);
}

#[test]
fn data_of_types(rt: HostRuntime) {
    each_row(&rt, DATA);
}

// Characters that XML reads as something else. White space that is a space, quotes in texts and all other characters
// stand for themselves.
const ESCAPES: &str = r#"start = "a & b < c > d ]]> &amp;"
=>
  <start>
    <value>a &amp; b &lt; c &gt; d ]]&gt; &amp;amp;</value>
  </start>
--
start = " \x{9}x\x{A}y\x{D}\x{A}z "
=>
  <start>
    <value> &#x9;x&#xA;y&#xD;&#xA;z </value>
  </start>
--
start = 'a "b" c' | "it's"
=>
  <start>
    <choice>
      <value>a "b" c</value>
      <value>it's</value>
    </choice>
  </start>
--
start = "é 名 😀<"
=>
  <start>
    <value>é 名 😀&lt;</value>
  </start>
--
start = xsd:string { pattern = "[<&\x{A}]" }
=>
  <start>
    <data type="string">
      <param name="pattern">[&lt;&amp;&#xA;]</param>
    </data>
  </start>
--
datatypes d = "a" ~ "b\x{9}c&d" start = d:t
=>
  <start>
    <data type="t" datatypeLibrary="ab&#x9;c&amp;d"/>
  </start>
"#;

#[test]
fn escapes(rt: HostRuntime) {
    each_row(&rt, ESCAPES);
}
