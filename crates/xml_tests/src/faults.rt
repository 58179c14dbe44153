// The first fault of a text that is no document, and its place.
use crate::rows::{each_row, has_lines};

const ROWS: &str = r##"
=>
NoRoot at 0
--
 <!-- c -->
=>
NoRoot at 11
--
text
=>
Outside at 0
--
<a/>text
=>
Outside at 4
--
<a/>&amp;
=>
Outside at 4
--
<a/><b/>
=>
SecondRoot at 4
--
<a/></a>
=>
SecondRoot at 4
--
</a>
=>
Name at 1
--
<!DOCTYPE a><a/>
=>
Doctype at 0
--
<a><!DOCTYPE a></a>
=>
Doctype at 3
--
 <?xml version="1.0"?><a/>
=>
Declaration at 1
--
<?xml version="2.0"?><a/>
=>
Declaration at 0
--
<?xml version="1."?><a/>
=>
Declaration at 0
--
<?xml encoding="UTF-8"?><a/>
=>
Declaration at 0
--
<?xml version="1.0"encoding="UTF-8"?><a/>
=>
Declaration at 0
--
<?xml version="1.0" encoding="-8"?><a/>
=>
Declaration at 0
--
<?xml version="1.0" standalone="maybe"?><a/>
=>
Declaration at 0
--
<?xml version="1.0" ><a/>
=>
Declaration at 0
--
<a><?XML p?></a>
=>
Declaration at 3
--
<a><?p</a>
=>
Instruction at 3
--
<a><?p:q r?></a>
=>
Instruction at 3
--
<a><? p?></a>
=>
Instruction at 3
--
<a><!-- c -- d --></a>
=>
Comment at 3
--
<a><!-- c
=>
Comment at 3
--
<a><!-- c ---></a>
=>
Comment at 3
--
<a><![CDATA[ x ]]</a>
=>
Section at 3
--
<a><![cdata[ x ]]></a>
=>
Name at 4
--
<a>x]]>y</a>
=>
SectionEnd at 4
--
<a>&b;</a>
=>
Entity at 3
--
<a>x & y</a>
=>
Reference at 5
--
<a>&amp</a>
=>
Reference at 3
--
<a>&#;</a>
=>
Reference at 3
--
<a>&#xG;</a>
=>
Reference at 3
--
<a>&#X41;</a>
=>
Reference at 3
--
<a>&#0;</a>
=>
CharacterReference at 3
--
<a>&#xD800;</a>
=>
CharacterReference at 3
--
<a>&#99999999999999999999;</a>
=>
CharacterReference at 3
--
<a b="&#xFFFE;"/>
=>
CharacterReference at 6
--
<a b="&c;"/>
=>
Entity at 6
--
<a b="<"/>
=>
LessThan at 6
--
<a b="c
=>
OpenValue at 6
--
<a b=c/>
=>
Quotes at 5
--
<a b/>
=>
Equals at 4
--
<a b "c"/>
=>
Equals at 5
--
<a b="1"c="2"/>
=>
Tag at 8
--
<a 1="2"/>
=>
Name at 3
--
<a / >
=>
Tag at 3
--
<a b="1"
=>
Tag at 8
--
<1/>
=>
Name at 1
--
< a/>
=>
Name at 1
--
<a>
=>
NotClosed at 0
--
<a><b></b>
=>
NotClosed at 0
--
<a><b></a></b>
=>
EndTag { open: 3 } at 6
--
<a></p:a>
=>
EndTag { open: 0 } at 3
--
<a></a b="1">
=>
Tag at 7
--
<a></ a>
=>
Name at 5
"##;

#[test]
fn rows(rt: HostRuntime) {
    each_row(&rt, ROWS);
}

// Characters that no document has.
#[test]
fn characters(rt: HostRuntime) {
    has_lines(&rt, "<a>\u{1}</a>", "Character at 3");
    has_lines(&rt, "<a>\u{FFFE}</a>", "Character at 3");
    has_lines(&rt, "<a b='\u{B}'/>", "Character at 6");
    has_lines(&rt, "<a><!-- \u{0} --></a>", "Character at 8");
    has_lines(&rt, "<a><?p \u{7F}\u{1F}?></a>", "Character at 8");
    has_lines(&rt, "<a><![CDATA[\u{FFFF}]]></a>", "Character at 12");
    has_lines(&rt, "\u{FEFF}<a/>", "Outside at 0");
    has_lines(&rt, "<a>&\u{1}</a>", "Reference at 3");
}
