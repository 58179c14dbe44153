// Elements, attributes and texts of good documents.
use crate::rows::{each_row, has_lines};

const ROWS: &str = r##"<a/>
=>
element a "" at 0 in -1 end 1
--
<?xml version="1.0"?><!-- c --><?p i?> <a></a> <!----><?q?>
=>
element a "" at 39 in -1 end 1
--
<?xml version='1.10' encoding = 'utf-8' standalone='no' ?>
<a />
=>
element a "" at 59 in -1 end 1
--
<a><b/><c><d/></c>t</a>
=>
element a "" at 0 in -1 end 4
element b "" at 3 in 0 end 2
element c "" at 7 in 0 end 4
element d "" at 10 in 2 end 4
text "t" in 0 at 18
--
<a>x<!-- y -->z<?p q?><![CDATA[<&]]]]>&gt;&amp;&lt;&quot;&apos;&#65;&#x42;</a>
=>
element a "" at 0 in -1 end 1
text "xz<&]]>&<\"'AB" in 0 at 3
--
<a><![CDATA[]]><!-- - --><?p?></a>
=>
element a "" at 0 in -1 end 1
--
<a><!-- c -->t<b/>&#x1F600;</a>
=>
element a "" at 0 in -1 end 2
element b "" at 14 in 0 end 2
text "t" in 0 at 13
text "😀" in 0 at 18
--
<a b="1" c = 'x"y'
 d="it's &lt;&#9;"/>
=>
element a "" at 0 in -1 end 1
attribute b "" at 3 is "1" at 6
attribute c "" at 9 is "x\"y" at 14
attribute d "" at 20 is "it's <\t" at 23
--
<été à.-·1="ü"/>
=>
element été "" at 0 in -1 end 1
attribute à.-·1 "" at 7 is "ü" at 16
--
<a b=""></a>
=>
element a "" at 0 in -1 end 1
attribute b "" at 3 is "" at 6
--
<a>]]</a >
=>
element a "" at 0 in -1 end 1
text "]]" in 0 at 3
--
<a>] ]></a>
=>
element a "" at 0 in -1 end 1
text "] ]>" in 0 at 3
"##;

#[test]
fn rows(rt: HostRuntime) {
    each_row(&rt, ROWS);
}

// Line ends are line feeds in text (2.11), spaces in values (3.3.3); a reference to one is itself.
#[test]
fn line_ends(rt: HostRuntime) {
    has_lines(
        &rt,
        "<a>1\r\n2\r3\n&#13;\r\r\n</a>",
        "element a \"\" at 0 in -1 end 1\ntext \"1\\n2\\n3\\n\\r\\n\\n\" in 0 at 3",
    );
    has_lines(
        &rt,
        "<a b='1\r\n2\r3\n4\t5&#13;&#10;'/>",
        "element a \"\" at 0 in -1 end 1\nattribute b \"\" at 3 is \"1 2 3 4 5\\r\\n\" at 6",
    );
    has_lines(
        &rt,
        "<a><![CDATA[\r\n\r]]></a>",
        "element a \"\" at 0 in -1 end 1\ntext \"\\n\\n\" in 0 at 3",
    );
}
