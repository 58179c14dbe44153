// Merges, checks, runs and lines, with their requests for memory refused in turn by what tests/out-of-memory loads
// before the tests' program. A call that is refused answers that memory ran out, in its own type, and leaves what it was lent.
// Without a refusal, as in the gate, it gives its own answer. Each test tells whether a call was refused.
use crate::faults::streams::{A, B, PRINTED, bundles, sink_of};
use crate::shared::comparing::{expect_text, holds, same, same_bytes};
use crate::shared::given_texts::{contribution, owned, repeated, written_set};
use crate::shared::merges::{line_of, shown};
use core_tests::samples::{BEGIN, DIGEST, END, answer_word, mark};
use rn_assemble::Refusal;
use rn_merge::{
    Input, Output, Place, ProgramFault, RunFault, Sink, Source, Status, check, fault_line,
    list_line, merge, refusal_line, run_print, status,
};
use rn_modset::{BundleFault, ModuleSet};
use std::alloc::AllocError;
use std::process::Abort;

/// Prints whether a call was refused.
pub fn print_answer(rt: &(impl Abort + Print), is_refused: bool) {
    let word = answer_word(is_refused);
    println!(rt; "{word}").expect(rt, "nothing is printed");
}

/// Sets, and what a merge answers for them.
static MERGES: [(&str, &str); 14] = [
    (
        "@a\nstart = doc doc |= element b { text }\n@b\ndoc |= element a { empty }",
        "start = doc\ndoc = element a { empty } | element b { text }\n",
    ),
    (
        "@a\nstart = element r { x } x &= element a { empty }\n@b\nx &= element a { empty }",
        "start = element r { x }\nx = element a { empty } & element a { empty }\n",
    ),
    ("@a\nx = text\n@b\nx = text start = x", "PlainTwice x"),
    (
        "@a\nx = text\n@b\nx |= empty\n@c\nx &= text",
        "MixedMethods x",
    ),
    (
        "@main\ninclude \"lib\" include \"lib\" start = element r { y }\n@lib\ny = empty",
        "PlainTwice y",
    ),
    (
        "@main\ninclude \"lib\" include \"lib\" start = element r { y }\n@lib\ny |= text",
        "start = element r { y }\ny = text\n",
    ),
    (
        "x = empty start = element r { x, (x | text)* }",
        "start = element r { (text?)* }\n",
    ),
    (
        "@main\ninclude \"lib\" { z = text } start = text\n@lib\ny = empty",
        "Override main z",
    ),
    (
        "@main\ninclude \"gone\" start = text",
        "Missing main \"gone\"",
    ),
    ("include \"a\" start = text", "Cycle a"),
    (
        "start = element r { attribute id { xsd:ID }?, (b & a)+ } a = element a { empty } b = element b { string - string \"no\" }",
        "start = element r { attribute id { xsd:ID }?, (a & b)+ }\na = element a { empty }\nb = element b { string - string \"no\" }\n",
    ),
    (
        "@m0\ninclude \"m1\" include \"m1\" start = element r { y }\n@m1\ninclude \"m2\" include \"m2\"\n@m2\ninclude \"m3\" include \"m3\"\n@m3\ninclude \"m4\" include \"m4\"\n@m4\ninclude \"m5\" include \"m5\"\n@m5\ninclude \"m6\" include \"m6\"\n@m6\ninclude \"m7\" include \"m7\"\n@m7\ninclude \"m8\" include \"m8\"\n@m8\ny |= text",
        "start = element r { y }\ny = text\n",
    ),
    (
        "@m0\ninclude \"m1\" include \"m1\" start = element r { y }\n@m1\ninclude \"m2\" include \"m2\"\n@m2\ninclude \"m3\" include \"m3\"\n@m3\ninclude \"m4\" include \"m4\"\n@m4\ninclude \"m5\" include \"m5\"\n@m5\ninclude \"m6\" include \"m6\"\n@m6\ninclude \"m7\" include \"m7\"\n@m7\ninclude \"m8\" include \"m8\"\n@m8\ninclude \"m9\" include \"m9\"\n@m9\ny |= text",
        "Instances",
    ),
    (
        "@a\nnamespace p = \"http://example.org/a/namespace/whose/uri/has/more/than/sixty-four/bytes\" start = element p:r { attribute p:k { text }, y }\n@b\ndatatypes t = \"http://example.org/types/of/a/library/whose/uri/has/more/than/those/bytes\" y = t:id",
        "namespace n1 = \"http://example.org/a/namespace/whose/uri/has/more/than/sixty-four/bytes\"\ndatatypes d1 = \"http://example.org/types/of/a/library/whose/uri/has/more/than/those/bytes\"\nstart = element n1:r { attribute n1:k { text }, y }\ny = d1:id\n",
    ),
];

/// What a merge answers, as rows write it, where it isn't refused memory.
fn merged(rt: &(impl Abort + AllocGlobal), set: &ModuleSet) -> Option<String> {
    mark(rt.alloc(), BEGIN);
    let found = merge(rt.alloc(), set);
    mark(rt.alloc(), END);
    match found {
        Err(Refusal::Memory) => None,
        found => Some(shown(rt, found)),
    }
}

/// Whether an answer is refused, which is this one otherwise.
pub fn is_refused_answer(rt: &impl Abort, answer: Option<String>, wanted: &str) -> bool {
    match answer {
        Some(found) => {
            same(rt, found.as_str(), wanted);
            false
        }
        None => true,
    }
}

#[test]
fn sets_are_merged(rt: HostRuntime) {
    let mut was_refused = false;
    for (set, wanted) in &MERGES {
        let answer = merged(&rt, &written_set(&rt, set));
        was_refused |= is_refused_answer(&rt, answer, wanted);
    }
    print_answer(&rt, was_refused);
}

/// What a check answers, as rows write it, where it isn't refused memory.
fn checked(rt: &(impl Abort + AllocGlobal), text: &[u8]) -> Option<String> {
    mark(rt.alloc(), BEGIN);
    let found = check(rt.alloc(), text);
    mark(rt.alloc(), END);
    match found {
        Ok(()) => Some(owned(rt, "good")),
        Err(Place::Memory) => None,
        Err(place) => Some(line_of(rt, ProgramFault::Check(place))),
    }
}

#[test]
fn texts_are_checked(rt: HostRuntime) {
    let deep = repeated(&rt, "start = ", "(", 257, "");
    let mut was_refused = false;
    for (text, wanted) in [
        (b"abc".as_slice(), "Syntax 3"),
        (b"start = element a { , }".as_slice(), "Syntax 20"),
        (b"".as_slice(), "good"),
        (deep.as_bytes(), "Deep 264"),
        (b"start = text\xFF".as_slice(), "Encoding 12"),
    ] {
        was_refused |= is_refused_answer(&rt, checked(&rt, text), wanted);
    }
    print_answer(&rt, was_refused);
}

#[test]
fn bundles_are_printed(rt: HostRuntime) {
    let given = bundles(&rt, &[B, A, A]);
    let mut out = sink_of(rt.alloc(), 82);
    out.taken.reserve(82).expect(&rt, "no memory");
    mark(rt.alloc(), BEGIN);
    let answer = run_print(rt.alloc(), given.as_slice(), &mut out);
    mark(rt.alloc(), END);
    let is_refused = answer == Err(RunFault::Memory);
    let is_done = answer == Ok(Status::Done);
    holds(&rt, is_refused || is_done, "the run is done or refused");
    let wanted = if is_done { PRINTED } else { "" };
    same_bytes(&rt, out.taken.as_slice(), wanted.as_bytes());
    print_answer(&rt, is_refused);
}

/// Whether a text is refused, which is this one otherwise.
fn is_refused(rt: &impl Abort, answer: Result<String, AllocError>, wanted: &str) -> bool {
    is_refused_answer(rt, answer.ok(), wanted)
}

#[test]
fn a_refusal_has_its_line(rt: HostRuntime) {
    let module = owned(&rt, "main");
    let wanted = owned(&rt, "gone");
    let refusal = Refusal::Missing { module, wanted };
    mark(rt.alloc(), BEGIN);
    let answer = refusal_line(rt.alloc(), &refusal);
    mark(rt.alloc(), END);
    print_answer(&rt, is_refused(&rt, answer, "Missing main \"gone\""));
}

#[test]
fn a_contribution_has_its_line(rt: HostRuntime) {
    let given = contribution(&rt, "t 7\nabc");
    mark(rt.alloc(), BEGIN);
    let answer = list_line(rt.alloc(), &given);
    mark(rt.alloc(), END);
    let wanted = expect_text(&rt, format!(in rt.alloc(); "t 7 3 {DIGEST}"));
    print_answer(&rt, is_refused(&rt, answer, wanted.as_str()));
}

#[test]
fn a_fault_has_its_line(rt: HostRuntime) {
    let fault = ProgramFault::Bundle(1, BundleFault::Header { entry: 2 });
    mark(rt.alloc(), BEGIN);
    let answer = fault_line(rt.alloc(), &fault);
    mark(rt.alloc(), END);
    print_answer(&rt, is_refused(&rt, answer, "bundle 1 Header 2"));
}

#[test]
fn streams_and_statuses_need_no_memory(rt: HostRuntime) {
    let (reader, writer) = (rt.stdin(), rt.stdout());
    mark(rt.alloc(), BEGIN);
    let input = Input::new(reader);
    let output = Output::new(writer);
    let is_new = !input.failed() && !input.ended() && !output.failed();
    let number = status(&ProgramFault::Dash);
    mark(rt.alloc(), END);
    holds(&rt, is_new && number == 2, "the streams are new");
    print_answer(&rt, false);
}
