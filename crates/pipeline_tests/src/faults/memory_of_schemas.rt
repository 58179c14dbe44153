// Calls that make the schema of a grammar, with their requests for memory refused in turn by what tests/out-of-memory loads before
// the tests' program. A call that is refused answers that memory ran out, in its own type, and a store keeps its patterns.
// Without a refusal, as in the gate, it gives its own answer. Each test tells whether a call was refused.
use crate::faults::memory_of_merges::{is_refused_answer, print_answer};
use crate::shared::comparing::{holds, same_count};
use crate::shared::given_texts::written_set;
use crate::shared::merges::{self, shown};
use core_tests::samples::{BEGIN, END, TWICE_INCLUDED, is_reference, mark};
use rn_assemble::{Grammar, Refusal};
use rn_pattern::{Interned, Patterns, Plain};
use rn_simplify::{Normal, normalise, normalise_in, print};
use std::alloc::AllocError;
use std::process::Abort;

/// Whether memory is refused to what normalises a grammar, whose canonical form has one definition.
fn is_refused_normal(rt: &(impl Abort + AllocGlobal), grammar: &Grammar) -> bool {
    mark(rt.alloc(), BEGIN);
    let answer = normalise(rt.alloc(), grammar);
    mark(rt.alloc(), END);
    is_normalised(rt, &answer);
    answer.is_err()
}

/// A canonical form has one definition, or memory is refused.
fn is_normalised(rt: &impl Abort, answer: &Result<Normal, AllocError>) {
    if let Ok(normal) = answer {
        same_count(rt, normal.defs().len(), 1);
    }
}

#[test]
fn a_grammar_is_normalised(rt: HostRuntime) {
    let grammar = grammar(&rt);
    print_answer(&rt, is_refused_normal(&rt, &grammar));
}

/// Whether a grammar's canonical form is refused in a store of two references, which stay.
fn is_refused_in<P: Patterns>(
    rt: &(impl Abort + AllocGlobal),
    grammar: &Grammar,
    store: &mut P,
) -> bool {
    let a = store.reference("a").expect(rt, "no memory");
    let b = store.reference("b").expect(rt, "no memory");
    mark(rt.alloc(), BEGIN);
    let is_refused = normalise_in(rt.alloc(), grammar, store).is_err();
    mark(rt.alloc(), END);
    let are_kept = is_reference(store, a, "a") && is_reference(store, b, "b");
    holds(rt, are_kept, "a pattern is lost");
    is_refused
}

/// The grammar of the set `TWICE_INCLUDED`.
fn grammar(rt: &(impl Abort + AllocGlobal)) -> Box<Grammar> {
    merges::grammar(rt, &written_set(rt, TWICE_INCLUDED))
}

#[test]
fn a_grammar_is_normalised_in_a_plain_store(rt: HostRuntime) {
    let grammar = grammar(&rt);
    print_answer(
        &rt,
        is_refused_in(&rt, &grammar, &mut Plain::new(rt.alloc())),
    );
}

#[test]
fn a_grammar_is_normalised_in_an_interned_store(rt: HostRuntime) {
    let grammar = grammar(&rt);
    print_answer(
        &rt,
        is_refused_in(&rt, &grammar, &mut Interned::new(rt.alloc())),
    );
}

/// The text of a canonical grammar, where memory isn't refused.
fn printed(rt: &(impl Abort + AllocGlobal), normal: &Normal) -> Option<String> {
    mark(rt.alloc(), BEGIN);
    let answer = print(rt.alloc(), normal);
    mark(rt.alloc(), END);
    match answer {
        Err(Refusal::Memory) => None,
        answer => Some(shown(rt, answer)),
    }
}

/// The canonical grammar of the set `TWICE_INCLUDED`.
fn normal(rt: &(impl Abort + AllocGlobal)) -> Box<Normal> {
    let normal = normalise(rt.alloc(), &grammar(rt)).expect(rt, "no memory");
    Box::new(rt.alloc(), normal).expect(rt, "no memory")
}

#[test]
fn a_canonical_grammar_is_printed(rt: HostRuntime) {
    let normal = normal(&rt);
    let answer = printed(&rt, &normal);
    print_answer(
        &rt,
        is_refused_answer(&rt, answer, "start = element r { y }\ny = text\n"),
    );
}

#[test]
fn what_grammars_tell_needs_no_memory(rt: HostRuntime) {
    let grammar = grammar(&rt);
    let normal = normal(&rt);
    mark(rt.alloc(), BEGIN);
    let is_same = grammar.start().cmp(normal.start()).is_eq();
    let counts = (grammar.defs().len(), normal.defs().len());
    mark(rt.alloc(), END);
    holds(&rt, is_same && counts == (1, 1), "grammars are told");
    print_answer(&rt, false);
}
