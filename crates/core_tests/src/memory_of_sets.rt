// Calls on texts, literals, sets and bundles, with their requests for memory refused in turn by what tests/out-of-memory loads
// before the tests' program. A call that is refused answers that memory ran out, in its own type, and leaves what it was lent.
// Without a refusal, as in the gate, it gives its own answer. Each test tells whether a call was refused.
use crate::samples::{
    BEGIN, END, MAIN, ONE, TWICE_INCLUDED, answer_word, contribution, held, mark, written_set,
};
use rn_modset::{AddFault, BundleFault, ModuleSet, SetFault, read_bundle, write_bundle};
use rn_text::{TextFault, literal, read_tokens, tokens, write_literal};
use std::process::Abort;

/// Prints whether a call was refused.
pub fn print_answer(rt: &(impl Abort + Print), is_refused: bool) {
    let word = answer_word(is_refused);
    println!(rt; "{word}").expect(rt, "nothing is printed");
}

#[test]
fn a_text_is_cut(rt: HostRuntime) {
    mark(rt.alloc(), BEGIN);
    let answer = tokens(rt.alloc(), MAIN.as_bytes());
    mark(rt.alloc(), END);
    match &answer {
        Ok(found) => assert_eq!(rt; found.len(), 11),
        Err(fault) => assert!(rt; *fault == TextFault::Memory, "memory is refused"),
    }
    print_answer(&rt, answer.is_err());
}

#[test]
fn a_text_is_cut_into_a_lent_list(rt: HostRuntime) {
    let mut found = Vec::new(rt.alloc());
    mark(rt.alloc(), BEGIN);
    let answer = read_tokens(MAIN.as_bytes(), &mut found);
    mark(rt.alloc(), END);
    match &answer {
        Ok(_) => assert_eq!(rt; found.len(), 11),
        Err(fault) => {
            assert!(rt; *fault == TextFault::Memory, "memory is refused");
            assert_eq!(rt; found.len(), 0);
        }
    }
    print_answer(&rt, answer.is_err());
}

#[test]
fn a_literal_is_read(rt: HostRuntime) {
    let found = tokens(rt.alloc(), b"'\\xx{41}'").expect(&rt, "no tokens");
    let segment = found.as_slice().first().expect(&rt, "no token");
    mark(rt.alloc(), BEGIN);
    let answer = literal(rt.alloc(), segment);
    mark(rt.alloc(), END);
    if let Ok(text) = &answer {
        assert_eq!(rt; text.as_str(), "A");
    }
    print_answer(&rt, answer.is_err());
}

/// Four contributions, as a set is written. With them it is full of what it asked room for, so a fifth one asks for more.
const FOUR: &str = "@a\nx\n@b 2\ny\n@c 3 withdrawn\n@e\nv";

/// The four contributions of `FOUR`, as a set holds them.
const FOUR_HELD: &str = "a 1\nb 2\nc 3 withdrawn\ne 1\n";

/// A set holds the contributions of these lines.
fn holds_these(rt: &(impl Abort + AllocGlobal), set: &ModuleSet, wanted: &str) {
    let lines = held(rt.alloc(), set).expect(rt, "no memory");
    assert_eq!(rt; lines.as_str(), wanted);
}

/// Three contributions, as a set is written.
const THREE: &str = "@a\nx\n@b 2\ny\n@c 3 withdrawn";

/// The three contributions of `THREE`, as a set holds them.
const THREE_HELD: &str = "a 1\nb 2\nc 3 withdrawn\n";

/// Whether memory is refused to what adds revision 4 of `d` to a set, which then holds these; the contribution comes back.
fn is_refused_contribution(
    rt: &(impl Abort + AllocGlobal),
    lines: &str,
    before: &str,
    after: &str,
) -> bool {
    let mut set = written_set(rt.alloc(), lines).expect(rt, "no set");
    let kept = contribution(rt.alloc(), "d 4\nz").expect(rt, "no contribution");
    let given = contribution(rt.alloc(), "d 4\nz").expect(rt, "no contribution");
    mark(rt.alloc(), BEGIN);
    let answer = set.add(given);
    mark(rt.alloc(), END);
    let wanted = match &answer {
        Ok(_) => after,
        Err((back, fault)) => {
            let is_back = *back == kept && *fault == AddFault::Memory;
            assert!(rt; is_back, "the contribution comes back");
            before
        }
    };
    holds_these(rt, &set, wanted);
    answer.is_err()
}

#[test]
fn a_contribution_is_added(rt: HostRuntime) {
    let after = "a 1\nb 2\nc 3 withdrawn\nd 4\ne 1\n";
    print_answer(&rt, is_refused_contribution(&rt, FOUR, FOUR_HELD, after));
}

#[test]
fn a_contribution_is_added_to_three(rt: HostRuntime) {
    let after = "a 1\nb 2\nc 3 withdrawn\nd 4\n";
    print_answer(&rt, is_refused_contribution(&rt, THREE, THREE_HELD, after));
}

/// Whether memory is refused to what joins these to a set, which then holds these.
fn is_refused_join(
    rt: &(impl Abort + AllocGlobal),
    lines: &str,
    joined: &str,
    before: &str,
    after: &str,
) -> bool {
    let mut set = written_set(rt.alloc(), lines).expect(rt, "no set");
    let other = written_set(rt.alloc(), joined).expect(rt, "no set");
    mark(rt.alloc(), BEGIN);
    let answer = set.join(&other);
    mark(rt.alloc(), END);
    let is_right = answer == Ok(()) || answer == Err(AddFault::Memory);
    assert!(rt; is_right, "the set is joined or refused");
    let wanted = match answer {
        Ok(()) => after,
        Err(_) => before,
    };
    holds_these(rt, &set, wanted);
    answer.is_err()
}

#[test]
fn sets_are_joined(rt: HostRuntime) {
    let joined = "@a 2\nx\n@b 2\nz\n@d\n";
    let after = "a 1\na 2\nb 2\nb 2\nc 3 withdrawn\nd 1\ne 1\n";
    print_answer(&rt, is_refused_join(&rt, FOUR, joined, FOUR_HELD, after));
}

#[test]
fn sets_of_three_are_joined(rt: HostRuntime) {
    let joined = "@a 2\nx\n@b 2\nz\n@d\n";
    let after = "a 1\na 2\nb 2\nb 2\nc 3 withdrawn\nd 1\n";
    print_answer(&rt, is_refused_join(&rt, THREE, joined, THREE_HELD, after));
}

#[test]
fn a_bundle_is_written(rt: HostRuntime) {
    let set = written_set(rt.alloc(), "@t 7\nabc").expect(&rt, "no set");
    mark(rt.alloc(), BEGIN);
    let answer = write_bundle(rt.alloc(), &set);
    mark(rt.alloc(), END);
    if let Ok(bytes) = &answer {
        assert_eq!(rt; bytes.as_slice(), ONE.as_bytes());
    }
    print_answer(&rt, answer.is_err());
}

#[test]
fn a_bundle_is_read(rt: HostRuntime) {
    mark(rt.alloc(), BEGIN);
    let answer = read_bundle(rt.alloc(), ONE.as_bytes());
    mark(rt.alloc(), END);
    match &answer {
        Ok(set) => holds_these(&rt, set, "t 7\n"),
        Err(fault) => assert!(rt; *fault == BundleFault::Memory, "memory is refused"),
    }
    print_answer(&rt, answer.is_err());
}

#[test]
fn a_literal_is_written(rt: HostRuntime) {
    let mut out = String::from_str(rt.alloc(), "x").expect(&rt, "no memory");
    mark(rt.alloc(), BEGIN);
    let answer = write_literal(&mut out, "a\"b\nc");
    mark(rt.alloc(), END);
    let wanted = match answer {
        Ok(()) => "x\"a\" ~ '\"' ~ \"b\\x{A}c\"",
        Err(_) => "x",
    };
    assert_eq!(rt; out.as_str(), wanted);
    print_answer(&rt, answer.is_err());
}

#[test]
fn effective_modules_are_found(rt: HostRuntime) {
    let set = written_set(rt.alloc(), TWICE_INCLUDED).expect(&rt, "no set");
    mark(rt.alloc(), BEGIN);
    let answer = set.effective(rt.alloc());
    mark(rt.alloc(), END);
    match &answer {
        Ok(modules) => assert_eq!(rt; modules.iter().count(), 2),
        Err(fault) => assert!(rt; *fault == SetFault::Memory, "memory is refused"),
    }
    print_answer(&rt, answer.is_err());
}

#[test]
fn what_a_set_tells_needs_no_memory(rt: HostRuntime) {
    let mut set = written_set(rt.alloc(), FOUR).expect(&rt, "no set");
    let given = contribution(rt.alloc(), "b 2\ny").expect(&rt, "no contribution");
    mark(rt.alloc(), BEGIN);
    let is_held = set.contains(&given) && set.len() == 4 && set.iter().count() == 4;
    let is_added = set.add(given).is_ok();
    let is_empty = ModuleSet::new(rt.alloc()).len() == 0;
    mark(rt.alloc(), END);
    assert!(rt; is_held && is_added && is_empty, "the set tells it");
    holds_these(&rt, &set, FOUR_HELD);
    print_answer(&rt, false);
}

#[test]
fn what_is_effective_needs_no_memory(rt: HostRuntime) {
    let set = written_set(rt.alloc(), FOUR).expect(&rt, "no set");
    let modules = set.effective(rt.alloc()).expect(&rt, "a conflict");
    mark(rt.alloc(), BEGIN);
    let count = modules.iter().count();
    let text = modules.get("b");
    mark(rt.alloc(), END);
    let is_right = count == 3 && text == Some(b"y".as_slice());
    assert!(rt; is_right, "the modules are told");
    print_answer(&rt, false);
}
