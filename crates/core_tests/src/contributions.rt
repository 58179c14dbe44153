// Contributions: withdrawn modules, conflicts, the longest text, and names of modules.
use crate::samples::{contribution, repeated};
use crate::sets::{
    add, bundle, effective_count, is_effective, long_contribution, refuses_a_longer_text,
    set_of_bundle,
};
use rn_modset::{MAX_TEXT, ModuleSet, is_module_name};
use std::process::Abort;

/// The conflict of a set.
fn conflict(rt: &(impl Abort + AllocGlobal), set: &ModuleSet) -> String {
    let fault = set.effective(rt.alloc()).err().expect(rt, "no conflict");
    format!(in rt.alloc(); "{fault:?}").expect(rt, "no memory")
}

/// What a set is given or asked, with what must come of it.
enum Step {
    /// It takes the contribution written, which it doesn't hold.
    Takes(&'static str),
    /// It holds the contribution written already.
    Holds(&'static str),
    /// Its effective modules are that many.
    Effective(usize),
    /// The text of its effective module of a name, where it has one.
    Module(&'static str, Option<&'static [u8]>),
    /// It has this conflict.
    Conflict(&'static str),
}

/// Whether a set takes the contribution written, which it doesn't hold.
fn takes(rt: &(impl Abort + AllocGlobal), set: &mut ModuleSet, written: &str) -> bool {
    let given = contribution(rt.alloc(), written).expect(rt, "no contribution");
    add(rt, set, given)
}

/// Whether a step comes out as it must.
fn succeeds(rt: &(impl Abort + AllocGlobal), set: &mut ModuleSet, step: &Step) -> bool {
    match step {
        Step::Takes(written) => takes(rt, set, written),
        Step::Holds(written) => !takes(rt, set, written),
        Step::Effective(count) => effective_count(rt, set) == *count,
        Step::Module(name, text) => is_effective(rt, set, name, *text),
        Step::Conflict(wanted) => conflict(rt, set).as_str() == *wanted,
    }
}

/// Each step succeeds in its turn, in a set that is empty at first.
fn steps_succeed(rt: &(impl Abort + AllocGlobal), steps: &[Step]) {
    let mut set = ModuleSet::new(rt.alloc());
    for (at, step) in steps.iter().enumerate() {
        assert!(rt; succeeds(rt, &mut set, step), "step {at}");
    }
}

static WITHDRAWALS: [Step; 6] = [
    Step::Takes("lib 2 withdrawn"),
    Step::Effective(0),
    Step::Takes("lib 3\nstart = text"),
    Step::Module("lib", Some(b"start = text")),
    Step::Takes("lib 3 withdrawn"),
    Step::Conflict("Conflict { module: \"lib\", revision: 3 }"),
];

#[test]
fn withdrawn_modules_are_not_effective(rt: HostRuntime) {
    steps_succeed(&rt, &WITHDRAWALS);
}

static CONFLICTS: [Step; 9] = [
    Step::Takes("a\nstart = text"),
    Step::Takes("a\nstart =  text"),
    Step::Takes("b"),
    Step::Conflict("Conflict { module: \"a\", revision: 1 }"),
    Step::Takes("a 2\nstart = empty"),
    Step::Holds("a\nstart = text"),
    Step::Effective(2),
    Step::Module("a", Some(b"start = empty")),
    Step::Module("c", None),
];

#[test]
fn texts_of_one_revision_conflict(rt: HostRuntime) {
    steps_succeed(&rt, &CONFLICTS);
}

/// The bundle of a set of the longest text reads back.
fn keeps_the_longest_text(rt: &(impl Abort + AllocGlobal), set: &ModuleSet) {
    let bytes = bundle(rt, set);
    assert_eq!(rt; bytes.len(), 4_194_404);
    assert_eq!(rt; set_of_bundle(rt, bytes.as_slice()).len(), 1);
}

#[test]
fn the_longest_text_is_kept(rt: HostRuntime) {
    assert_eq!(rt; MAX_TEXT, 4_194_304);
    let mut set = ModuleSet::new(rt.alloc());
    let is_new = add(&rt, &mut set, long_contribution(&rt, 0, MAX_TEXT));
    assert!(rt; is_new, "the longest text is new");
    refuses_a_longer_text(&rt, &mut set);
    keeps_the_longest_text(&rt, &set);
}

#[test]
fn names_of_modules_are_limited(rt: HostRuntime) {
    let mut long = repeated(rt.alloc(), "", "n", 200, "").expect(&rt, "no memory");
    for (name, wanted) in [
        ("AZaz09._/-:%~", true),
        ("", false),
        ("a b", false),
        ("a\n", false),
        ("\u{e9}", false),
        (long.as_str(), true),
    ] {
        assert!(rt; is_module_name(name) == wanted, "{name}");
    }
    long.push_str("n").expect(&rt, "no memory");
    assert!(rt; !is_module_name(long.as_str()), "a name is too long");
}
