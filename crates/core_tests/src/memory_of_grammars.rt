// Constructors of patterns, and what reads a module and assembles a set, with their requests for memory refused in turn by what
// tests/out-of-memory loads before the tests' program. A call that is refused answers that memory ran out, in its own type, and a store
// keeps its patterns. Without a refusal, as in the gate, it gives its own answer. Each test tells whether a call was refused.
use crate::memory_of_sets::print_answer;
use crate::order::numbered_pattern;
use crate::pattern_parts::{Parts, constructed_pattern, new_parts};
use crate::samples::{BEGIN, END, MAIN, TWICE_INCLUDED, is_reference, mark, name, written_set};
use rn_assemble::{Grammar, Refusal, assemble};
use rn_modset::ModuleSet;
use rn_pattern::{Interned, Patterns, Plain};
use rn_syntax::{SyntaxFault, includes, parse};
use rn_text::{is_keyword, is_ncname, tokens};
use std::process::Abort;

/// Whether a constructor is refused in a store of two references, which stay.
fn is_refused<P: Patterns>(
    rt: &(impl Abort + AllocGlobal),
    store: &mut P,
    parts: &Parts,
    number: usize,
) -> bool {
    let a = store.reference("a").expect(rt, "no memory");
    let b = store.reference("b").expect(rt, "no memory");
    let mut members = Vec::new(rt.alloc());
    members.push(b).expect(rt, "no memory");
    members.push(a).expect(rt, "no memory");
    mark(rt.alloc(), BEGIN);
    let answer = constructed_pattern(store, parts, a, members.as_slice(), number);
    mark(rt.alloc(), END);
    let are_kept = is_reference(store, a, "a") && is_reference(store, b, "b");
    assert!(rt; are_kept, "a pattern is lost");
    answer.is_err()
}

#[test]
fn patterns_are_constructed_in_a_plain_store(rt: HostRuntime) {
    let parts = new_parts(rt.alloc()).expect(&rt, "no memory");
    let mut was_refused = false;
    for number in 0..13 {
        let mut store = Plain::new(rt.alloc());
        if is_refused(&rt, &mut store, &parts, number) {
            assert_eq!(rt; store.nodes(), 2);
            was_refused = true;
        }
    }
    print_answer(&rt, was_refused);
}

#[test]
fn patterns_are_constructed_in_an_interned_store(rt: HostRuntime) {
    let parts = new_parts(rt.alloc()).expect(&rt, "no memory");
    let mut was_refused = false;
    for number in 0..13 {
        let mut store = Interned::new(rt.alloc());
        if is_refused(&rt, &mut store, &parts, number) {
            assert_eq!(rt; store.nodes(), 2);
            was_refused = true;
        }
    }
    print_answer(&rt, was_refused);
}

#[test]
fn a_module_is_read(rt: HostRuntime) {
    let found = tokens(rt.alloc(), MAIN.as_bytes()).expect(&rt, "no tokens");
    mark(rt.alloc(), BEGIN);
    let answer = parse(rt.alloc(), found.as_slice());
    mark(rt.alloc(), END);
    match &answer {
        Ok(module) => assert_eq!(rt; module.items.len(), 3),
        Err(fault) => assert!(rt; *fault == SyntaxFault::Memory, "memory is refused"),
    }
    print_answer(&rt, answer.is_err());
}

#[test]
fn includes_are_listed(rt: HostRuntime) {
    let found = tokens(rt.alloc(), MAIN.as_bytes()).expect(&rt, "no tokens");
    let module = parse(rt.alloc(), found.as_slice()).expect(&rt, "no module");
    mark(rt.alloc(), BEGIN);
    let answer = includes(rt.alloc(), &module);
    mark(rt.alloc(), END);
    if let Ok(literals) = &answer {
        assert!(rt; literals.as_slice() == ["lib", "lib"].as_slice());
    }
    print_answer(&rt, answer.is_err());
}

/// Whether memory is refused to what assembles a set, of which the grammar has one definition.
fn is_refused_grammar(rt: &(impl Abort + AllocGlobal), set: &ModuleSet) -> bool {
    mark(rt.alloc(), BEGIN);
    let answer = assemble(rt.alloc(), set);
    mark(rt.alloc(), END);
    is_assembled(rt, &answer);
    answer.is_err()
}

/// A grammar has one definition, or memory is refused.
fn is_assembled(rt: &impl Abort, answer: &Result<Grammar, Refusal>) {
    match answer {
        Ok(grammar) => assert_eq!(rt; grammar.defs().len(), 1),
        Err(refusal) => assert!(rt; *refusal == Refusal::Memory, "memory is refused"),
    }
}

#[test]
fn a_set_is_assembled(rt: HostRuntime) {
    let set = written_set(rt.alloc(), TWICE_INCLUDED).expect(&rt, "no set");
    print_answer(&rt, is_refused_grammar(&rt, &set));
}

#[test]
fn names_and_stores_need_no_memory(rt: HostRuntime) {
    let mut store = Interned::new(rt.alloc());
    let a = store.reference("a").expect(&rt, "no memory");
    let class = name(rt.alloc(), "u", "n").expect(&rt, "no memory");
    mark(rt.alloc(), BEGIN);
    let are_told = is_ncname("a") && is_keyword("start") && class.cmp(&class).is_eq();
    let is_kept = is_reference(&store, a, "a") && store.nodes() == 1;
    let plain = Plain::new(rt.alloc()).nodes();
    let interned = Interned::new(rt.alloc()).nodes();
    mark(rt.alloc(), END);
    assert!(rt; are_told && is_kept, "names and stores are told");
    assert!(rt; plain == 0 && interned == 0, "new stores are empty");
    print_answer(&rt, false);
}

#[test]
fn the_order_of_patterns_needs_no_memory(rt: HostRuntime) {
    let one = numbered_pattern(rt.alloc(), 10).expect(&rt, "no memory");
    let other = numbered_pattern(rt.alloc(), 11).expect(&rt, "no memory");
    mark(rt.alloc(), BEGIN);
    let is_ordered = one.cmp(&other).is_lt() && other.cmp(&one).is_gt() && one.cmp(&one).is_eq();
    mark(rt.alloc(), END);
    assert!(rt; is_ordered, "patterns have their order");
    print_answer(&rt, false);
}
