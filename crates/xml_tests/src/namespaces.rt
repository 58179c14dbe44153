// Namespaces of elements and attributes (Namespaces in XML 1.0).
use crate::rows::each_row;

const ROWS: &str = r##"<a xmlns="u" b="1"/>
=>
element a "u" at 0 in -1 end 1
attribute b "" at 13 is "1" at 16
prefix "" "u" at 3
--
<p:a p:b="1" xmlns:p="u"><p:c xmlns:p="v"/><p:d/></p:a>
=>
element a "u" at 0 in -1 end 3
element c "v" at 25 in 0 end 2
element d "u" at 43 in 0 end 3
attribute b "u" at 5 is "1" at 10
prefix "p" "u" at 13
prefix "p" "v" at 30
--
<a xmlns="u"><b xmlns=""><c/></b><d/></a>
=>
element a "u" at 0 in -1 end 4
element b "" at 13 in 0 end 3
element c "" at 25 in 1 end 3
element d "u" at 33 in 0 end 4
prefix "" "u" at 3
prefix "" "" at 16
--
<a xml:lang="en" xmlns:xml="http://www.w3.org/XML/1998/namespace"/>
=>
element a "" at 0 in -1 end 1
attribute lang "http://www.w3.org/XML/1998/namespace" at 3 is "en" at 13
prefix "xml" "http://www.w3.org/XML/1998/namespace" at 17
--
<a b="1" p:b="2" q:b="3" xmlns:p="u" xmlns:q="v&amp;w"/>
=>
element a "" at 0 in -1 end 1
attribute b "" at 3 is "1" at 6
attribute b "u" at 9 is "2" at 14
attribute b "v&w" at 17 is "3" at 22
prefix "p" "u" at 25
prefix "q" "v&w" at 37
--
<a xmlns:p="u" xmlns:q="u" p:b="1" q:b="2"/>
=>
Repeated at 35
--
<a b="1" c="2" b="3"/>
=>
Repeated at 15
--
<a xmlns:p="u" xmlns:p="u"/>
=>
Repeated at 15
--
<a xmlns="u" xmlns="v"/>
=>
Repeated at 13
--
<p:a/>
=>
Prefix at 1
--
<a p:b="1"/>
=>
Prefix at 3
--
<a><b xmlns:p="u"/><p:c/></a>
=>
Prefix at 20
--
<xmlns:a/>
=>
Prefix at 1
--
<a xmlns:xmlns="u"/>
=>
Reserved at 3
--
<a xmlns:xml="u"/>
=>
Reserved at 3
--
<a xmlns:p="http://www.w3.org/XML/1998/namespace"/>
=>
Reserved at 3
--
<a xmlns="http://www.w3.org/2000/xmlns/"/>
=>
Reserved at 3
--
<a xmlns:p=""/>
=>
Reserved at 3
--
<a:b:c xmlns:a="u"/>
=>
Name at 1
--
<:a/>
=>
Name at 1
--
<a: xmlns:a="u"/>
=>
Name at 1
--
<a xmlns:="u"/>
=>
Name at 3
"##;

#[test]
fn rows(rt: HostRuntime) {
    each_row(&rt, ROWS);
}
