// References in excepts of data: what they refer to stands in their place.
use crate::lifted_files::each_lifted;

// Excepts whose references come to values and choices of them.
const EXCEPTS: &str = r#"@a
start = xsd:string - x x = 'a'
=>
@a
start = xsd:string - ( 'a') x = 'a'

====
@a
start = xsd:string - (x | 'd')
include 'b' { y |= 'b' } y |= 'c' x = y
@b
y |= 'a'
=>
@a
start = xsd:string - (( 'b' |  'c') | 'd')
include "b" { y |= 'b' } y |= 'c' x = y

@b
y |= 'a'

====
@a
start = xsd:string - x x = y | 'a' y = z z = 'b' | xsd:token - w w = 'c' | 'd'
=>
@a
start = xsd:string - ( 'b' | xsd:token -( 'c' | 'd') | 'a') x = y | 'a' y = z z = 'b' | xsd:token - ( 'c' | 'd') w = 'c' | 'd'

====
@a
start = xsd:string - x | xsd:token - y x = y y = z z = w w = 'a'
=>
@a
start = xsd:string - ( 'a') | xsd:token - ( 'a') x = y y = z z = w w = 'a'

====
@a
start = d:string - x
include 'b'
@b
datatypes d = 'L' x = d:name { length = '1' }
=>
@a

datatypes d-2 = "L"
start = d:string - ( d-2:name { length = '1' })
include "b"

@b
datatypes d = 'L' x = d:name { length = '1' }
"#;

#[test]
fn references_in_excepts_are_replaced(rt: HostRuntime) {
    each_lifted(&rt, EXCEPTS);
}

// Excepts with a reference to what is no data, or to no definition.
const FAULTS: &str = r#"@a
start = xsd:string - x x = text
=>
LiftFault { file: 0, at: 21, kind: ExceptReference }
====
@a
start = xsd:string - x x = 'a' | x
=>
LiftFault { file: 0, at: 21, kind: ExceptReference }
====
@a
start = xsd:string - x x = y y = x
=>
LiftFault { file: 0, at: 21, kind: ExceptReference }
====
@a
start = xsd:string - x x = y y = text
=>
LiftFault { file: 0, at: 21, kind: ExceptReference }
====
@a
start = xsd:string - x x = y | 'a' y = x
=>
LiftFault { file: 0, at: 21, kind: ExceptReference }
====
@a
start = xsd:string - x x = y y = z
=>
LiftFault { file: 0, at: 33, kind: Undefined }
====
@a
start = xsd:string - x
=>
LiftFault { file: 0, at: 21, kind: Undefined }
====
@a
start = xsd:string - x x = 'a' | y
=>
LiftFault { file: 0, at: 33, kind: Undefined }
====
@a
start = xsd:string - x
include 'b'
@b
x = 'a' | (z | y) z = 'b'
=>
LiftFault { file: 1, at: 15, kind: Undefined }"#;

#[test]
fn references_in_excepts_have_their_faults(rt: HostRuntime) {
    each_lifted(&rt, FAULTS);
}
