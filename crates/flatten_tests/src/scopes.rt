// What becomes of root files, and of what they include, refer to or nest: modules, a scope each, or a fault.
use crate::lifted_files::each_lifted;

// Root files that name no other file.
const ROOTS: &str = r#"@a
# external grammar parent
start = x x = [ a:external [ parent grammar ] ] element external | grammar { xsd:string { grammar = 'a' } } >> a:b [ external ]
=>
@a
# external grammar parent
start = x x = [ a:external [ parent grammar ] ] element external | grammar { xsd:string { grammar = 'a' } } >> a:b [ external ]

====
@a
[ a:b [] ] element a { empty }
=>
@a
start = [ a:b [] ] element a { empty }
"#;

#[test]
fn root_files_keep_their_text(rt: HostRuntime) {
    each_lifted(&rt, ROOTS);
}

// Files that include others, of which some have externals.
const INCLUDES: &str = r#"@a
include 'b' inherit = p { x = y }
@b
x = empty
=>
@a
include "b" inherit = p { x = y }

@b
x = empty

====
@a
namespace p = 'P'
include 'b' include 'b' inherit = p
@b
start |= external 'c'
@c
start = empty
=>
@a
namespace p = 'P'
include "b" include "~~b" inherit = p

@b
start |= c.start 

@~c
namespace handed = ""
include "~c~c" inherit = handed

@~c-2
namespace handed = "P"
include "~c-2~c" inherit = handed

@~c-2~c
c-2.start = empty
@~c~c
c.start = empty
@~~b
start |= c-2.start 


====
@a
include 'b' { start = external 'c' }
@b
start = empty
@c
start = x x = empty
=>
@a
include "b" { start = c.start  }

@b
start = empty

@~c
namespace handed = ""
include "~c~c" inherit = handed

@~c~c
c.start = c.x c.x = empty

====
@a
include 'b'
@b
empty
=>
LiftFault { file: 0, at: 8, kind: IncludedPattern }"#;

#[test]
fn includes_name_their_modules(rt: HostRuntime) {
    each_lifted(&rt, INCLUDES);
}

// Files that refer to others by externals.
const EXTERNALS: &str = r#"@a
start = external 'd/b.rnc'|x
@d/b.rnc
start = \div
\div = empty
=>
@a
start = b.start |x

@~b
namespace handed = ""
include "~b~b" inherit = handed

@~b~b
b.start = b.div
b.div = empty

====
@a
start = external 'b'
x = empty
@b
x | external 'c'
@c
start = empty
=>
@a
start = b.start 
x = empty

@~b
namespace handed = ""
include "~b~b" inherit = handed

@~b~b
b.start = x | c.start 

@~c
namespace handed = ""
include "~c~c" inherit = handed

@~c~c
c.start = empty

====
@a
default namespace = 'D' namespace p = 'P'
start = external 'b', external 'b', external 'b' inherit = p
@b
start = empty
=>
@a
default namespace = 'D' namespace p = 'P'
start = b.start , b.start , b-2.start 

@~b
namespace handed = "D"
include "~b~b" inherit = handed

@~b-2
namespace handed = "P"
include "~b-2~b" inherit = handed

@~b-2~b
b-2.start = empty
@~b~b
b.start = empty

====
@a
start = external 'b' inherit = p
@b
empty
=>
LiftFault { file: 0, at: 31, kind: Prefix }"#;

#[test]
fn externals_refer_to_starts_of_scopes(rt: HostRuntime) {
    each_lifted(&rt, EXTERNALS);
}

// Grammars within patterns, and references to the definitions of the grammar around.
const GRAMMARS: &str = r#"@a
start = grammar { start = parent x, grammar { start = parent y } y = empty } x = empty
=>
@a
start = a-1.start  x = empty
@~a-1
namespace handed = ""
include "~a-1~a-1" inherit = handed

@~a-1~a-1

 a-1.start = x, a-2.start  a-1.y = empty 
@~a-2
namespace handed = ""
include "~a-2~a-2" inherit = handed

@~a-2~a-2

 a-2.start = a-1.y 

====
@a
start = element a { external 'b' }
@b
grammar { start = parent x }?
=>
@a
start = element a { b.start  }

@~b
namespace handed = ""
include "~b~b" inherit = handed

@~b-1
namespace handed = ""
include "~b-1~b-1" inherit = handed

@~b-1~b-1

 b-1.start = x 
@~b~b
b.start = b-1.start ?

====
@a
start = parent x
=>
LiftFault { file: 0, at: 8, kind: NoParent }"#;

#[test]
fn nested_grammars_are_scopes(rt: HostRuntime) {
    each_lifted(&rt, GRAMMARS);
}
