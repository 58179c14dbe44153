// Datatypes, values, parameters and excepts, and what literals are written as.
use crate::rows::each_row;

const VALUES: &str = r#"<start><value>V</value></start>
=>
start = "V"
--
<start><value/></start>
=>
start = ""
--
<start><value> a  b </value></start>
=>
start = " a  b "
--
<start><value type="string">V</value></start>
=>
start = string "V"
--
<start><value type=" token ">V</value></start>
=>
start = token "V"
--
<start datatypeLibrary="http://www.w3.org/2001/XMLSchema-datatypes"><value type="string">V</value></start>
=>
start = xsd:string "V"
--
<start datatypeLibrary="http://www.w3.org/2001/XMLSchema-datatypes"><value>V</value></start>
=>
start = "V"
--
<start datatypeLibrary="u"><value type="t">V</value></start>
=>
datatypes d1 = "u"
start = d1:t "V"
--
<start><value>a<!-- c -->b<![CDATA[&<]]>&#9;&#xA;</value></start>
=>
start = "ab&<\x{9}\x{A}"
--
<start><value>"</value></start>
=>
start = '"'
--
<start><value>a"b'c</value></start>
=>
start = "a" ~ '"' ~ "b'c"
--
<start><value>\x{41}</value></start>
=>
start = "\" ~ "x{41}"
"#;

#[test]
fn values(rt: HostRuntime) {
    each_row(&rt, VALUES);
}

const DATA: &str = r#"<start><data type="string"/></start>
=>
start = string
--
<start><data type="list"/></start>
=>
datatypes d1 = ""
start = d1:list
--
<start datatypeLibrary="http://www.w3.org/2001/XMLSchema-datatypes"><data type="integer"/></start>
=>
start = xsd:integer
--
<start datatypeLibrary="u"><choice><data type="a"/><data type="b" datatypeLibrary="v"/><data type="c"/></choice></start>
=>
datatypes d1 = "u"
datatypes d2 = "v"
start = d1:a | d2:b | d1:c
--
<start datatypeLibrary="u"><data type="string" datatypeLibrary=""/></start>
=>
start = string
--
<start datatypeLibrary="u"><data type="a"><param name="list">V</param></data></start>
=>
datatypes d1 = "u"
start = d1:a { list = "V" }
--
<start datatypeLibrary="u"><data type="a"><param name="p"> V </param><a xmlns="v"/><param name="q"/></data></start>
=>
datatypes d1 = "u"
start = d1:a { p = " V " q = "" }
--
<start datatypeLibrary="u"><data type="a"><param name="p">V</param><except><value>x</value></except></data></start>
=>
datatypes d1 = "u"
start = d1:a { p = "V" } - "x"
--
<start><data type="string"><except><value>x</value><value>y</value></except></data></start>
=>
start = string - ("x" | "y")
--
<start><choice><data type="string"><except><value>x</value></except></data><text/></choice></start>
=>
start = (string - "x") | text
--
<start><oneOrMore><data type="string"><except><choice><value>x</value><value>y</value></choice></except></data></oneOrMore></start>
=>
start = (string - ("x" | "y"))+
--
<start><data type="string"><except><data type="token"><except><value>x</value></except></data></except></data></start>
=>
start = string - (token - "x")
"#;

#[test]
fn data(rt: HostRuntime) {
    each_row(&rt, DATA);
}
