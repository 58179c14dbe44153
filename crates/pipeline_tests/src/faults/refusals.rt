// Sets that print nothing, and the first refusal of each.
use crate::shared::merges::Merge;
use crate::shared::tables::each_set;

const ROWS: &str = r#"@a
x = text
@b
x = text start = x
=> PlainTwice x

@a
x = text
@b
x |= empty
@c
x &= text
=> MixedMethods x

@
=> NoStart

@a
start = text
@a
start =  text
=> Conflict a 1

@main
include "lib" include "lib" start = element r { y }
@lib
y = empty
=> PlainTwice y

start = a a = a | element x { empty }
=> Recursive a

start = a a = list { a }
=> Recursive a

start = a a = attribute x { a }
=> Recursive a

start = a a = b b = b
=> Recursive b

@main
include "lib" { z = text } start = text
@lib
y = empty
=> Override main z

@main
include "gone" start = text
=> Missing main "gone"

include "a" start = text
=> Cycle a

start = text a = b
=> Undefined b

start = element a { attribute xmlns { text } }
=> NameClass start

@a
include "b"
@b
include "a"
@c
start = text
=> Cycle a

@main
include "lib" { start = text }
@lib
y = text
=> Override main start

@a
start = text x = text
@b
x = empty
=> PlainTwice x

@main
include "lib" start = text
@lib
y = text
@lib 2 withdrawn
=> Missing main "lib"

@a
start = text
@a 1 withdrawn
=> Conflict a 1

@a 1 withdrawn
=> NoStart

start = "\x{0}"
=> Lexical a

start = element a { , }
=> Syntax a

start = element p:a { text }
=> Prefix a

start = token { k = "v" }
=> Builtin a

start = xsd:QName "x"
=> ContextValue a

start = string - text
=> Except a

@b
start = 
@a
include "gone"
=> Syntax b

@a
include "gone"
@c
include "c"
=> Missing a "gone"

\start = text \start = text
=> PlainTwice \start

start = text start = text \div = text \div = text
=> PlainTwice start

x |= text x &= text y = text y = text
=> PlainTwice y

start = a | notAllowed a = b | notAllowed b = a
=> Recursive a

a = a start = text \empty = element x { \list }
=> Undefined \list

start = element * - (a | *) { empty }
=> NameClass start

namespace x = "u" start = text z = element x:* - x:* { empty }
=> NameClass z

namespace x = "http://www.w3.org/2000/xmlns" start = attribute x:b { text }
=> NameClass start

namespace x = "http://www.w3.org/2000/xmlns" start = element a { attribute * - x:* { text } }
=> NameClass start

start = element r { attribute * - xmlns { text }+ }
=> NameClass start

include 'gone \x{22}' start = text
=> Missing a "gone " ~ '"'"#;

#[test]
fn sets_are_refused(rt: HostRuntime) {
    each_set(&rt, &Merge, ROWS);
}
