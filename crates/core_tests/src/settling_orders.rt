// The order in which the definitions of a grammar can be settled.
use crate::samples::{rows, written_set};
use rn_assemble::assemble;
use std::process::Abort;

/// The grammar of the set written has this order.
fn has_order(rt: &(impl Abort + AllocGlobal), given: &str, wanted: &str) {
    let set = written_set(rt.alloc(), given).expect(rt, "no set");
    let grammar = assemble(rt.alloc(), &set).expect(rt, "no grammar");
    let order = grammar.settling_order();
    let found = format!(in rt.alloc(); "{order:?}").expect(rt, "no memory");
    assert_eq!(rt; found.as_str(), wanted, "{given}");
}

/// Each has one order alone.
const ORDERS: &str = r#"@a
start = a a = b b = c c = text
=> [2, 1, 0]

@a
start = element r { b, a, b } a = b b = text c = a
=> [1, 0]

@a
start = a a = element e { b } b = a
=> [0, 1]

@a
start = element r { x } y = z z = empty x |= element e { x? }
@b
x |= y
=> [1, 0, 2]

@main
include "lib" include "lib" start = element r { y }
@lib
y |= z z |= text
=> [1, 0]

@a
start = text
=> []"#;

#[test]
fn grammars_have_their_orders(rt: HostRuntime) {
    let rows = rows(rt.alloc(), ORDERS, "\n\n", "\n=> ").expect(&rt, "no rows");
    for (given, wanted) in &rows {
        has_order(&rt, given, wanted);
    }
}
