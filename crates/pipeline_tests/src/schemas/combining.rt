// Sets of several contributions that print a schema. Each printed schema, merged alone, is printed again.
use crate::shared::merges::{EachStore, Merge, MergeAgain};
use crate::shared::tables::each_schema;

const ROWS: &str = r#"@a
start = doc doc |= element b { text }
@b
doc |= element a { empty }
=>
start = doc
doc = element a { empty } | element b { text }
--
@a
start = element r { x } x &= element a { empty }
@b
x &= element a { empty }
=>
start = element r { x }
x = element a { empty } & element a { empty }
--
@a
start = text
@a
start =  text
@a 2
start = empty
=>
start = empty
--
@b
start = text
@a 2 withdrawn
@a
x = text
@a 3
x = empty
=>
start = text
--
@a
start = text
@a
start =  text
@a 2
start = element a { empty }
=>
start = element a { empty }
--
@main
include "lib" include "lib" start = element r { y }
@lib
y |= text
=>
start = element r { y }
y = text
--
@main
default namespace = "u" include "lib" start = p
@lib
p = element p { empty }
=>
namespace n1 = "u"
start = p
p = element n1:p { empty }
--
@main
include "lib" { start = element r { y } y = text }
@lib
start = text y |= element a { empty } y |= element b { empty }
=>
start = element r { y }
y = text
--
@b
x |= element b { text }
@a
x |= element a { text } start = x
@c
x |= element b { text }
=>
start = x
x = element a { text } | element b { text }
--
@main
include "l1" { x = text } start = element r { x }
@l1
include "l2" x |= empty
@l2
x |= element q { empty }
=>
start = element r { x }
x = text
--
@main
default namespace = "u" namespace v = "w" include "lib" inherit = v start = p
@lib
p = element p { empty }
=>
namespace n1 = "w"
start = p
p = element n1:p { empty }
--
@main
default namespace = "u" include "l"
@l
include "k"
@k
start = element p { text }
=>
namespace n1 = "u"
start = element n1:p { text }
--
@main
default namespace = "u" include "l"
@l
namespace v = inherit start = element v:p { text }
=>
namespace n1 = "u"
start = element n1:p { text }
--
@main
include "l" inherit = xml
@l
start = element p { text }
=>
start = element xml:p { text }
--
@a
start = text x = text
@b
x = empty
@b 2 withdrawn

=>
start = text
--
@a 2 withdrawn
@a 3
start = text
=>
start = text
--
@main
include "lib" { div { start |= b } } b = element b { empty }
@lib
start |= text start |= empty
=>
start = b
b = element b { empty }
"#;

#[test]
fn modules_are_combined(rt: HostRuntime) {
    each_schema(&rt, &Merge, ROWS);
}

#[test]
fn combined_schemas_print_themselves_again(rt: HostRuntime) {
    each_schema(&rt, &MergeAgain, ROWS);
}

#[test]
fn each_store_combines_the_same(rt: HostRuntime) {
    each_schema(&rt, &EachStore, ROWS);
}
