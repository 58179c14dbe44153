// Names that lifting makes, beside names that files write.
use crate::lifted_files::each_lifted;

// Files with names like those that lifting would make.
const NAMES: &str = r#"@a
start = external 'b'
@b
start = \start \start = empty
=>
@a
start = b.start-2 

@~b
namespace handed = ""
include "~b~b" inherit = handed

@~b~b
b.start-2 = b.start b.start = empty

====
@a
start = external 'b', b.x b.x = b-2.y b-2.y = empty
@b
start = empty
=>
@a
start = b-3.start , b.x b.x = b-2.y b-2.y = empty

@~b-3
namespace handed = ""
include "~b-3~b" inherit = handed

@~b-3~b
b-3.start = empty
"#;

#[test]
fn made_names_are_free(rt: HostRuntime) {
    each_lifted(&rt, NAMES);
}
