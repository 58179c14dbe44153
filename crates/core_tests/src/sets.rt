// Sets: what they hold, take and refuse, joined sets, and what tests ask of sets.
use crate::samples::{self, contribution, written_set};
use rn_modset::{AddFault, Contribution, MAX_TEXT, ModuleSet, read_bundle, write_bundle};
use std::process::Abort;

/// The contribution of a module's text.
pub fn module(
    rt: &(impl Abort + AllocGlobal),
    name: &str,
    revision: u64,
    text: &[u8],
) -> Contribution {
    samples::module(rt.alloc(), name, revision, text).expect(rt, "no memory")
}

/// Adds a contribution that the set takes: whether it is new.
pub fn add(rt: &impl Abort, set: &mut ModuleSet, contribution: Contribution) -> bool {
    let is_new = set.add(contribution).ok();
    is_new.expect(rt, "the contribution is refused")
}

/// What a set hands back of a contribution that it refuses.
pub fn refused(
    rt: &impl Abort,
    set: &mut ModuleSet,
    contribution: Contribution,
) -> (Contribution, AddFault) {
    set.add(contribution)
        .expect_err(rt, "the contribution is taken")
}

/// The contributions that a set holds, a line each.
pub fn held(rt: &(impl Abort + AllocGlobal), set: &ModuleSet) -> String {
    samples::held(rt.alloc(), set).expect(rt, "no memory")
}

/// The bundle of a set.
pub fn bundle(rt: &(impl Abort + AllocGlobal), set: &ModuleSet) -> Vec<u8> {
    write_bundle(rt.alloc(), set).expect(rt, "no memory")
}

/// The set of a bundle.
pub fn set_of_bundle(rt: &(impl Abort + AllocGlobal), bytes: &[u8]) -> ModuleSet {
    read_bundle(rt.alloc(), bytes).expect(rt, "no bundle")
}

/// How many modules are effective in a set.
pub fn effective_count(rt: &(impl Abort + AllocGlobal), set: &ModuleSet) -> usize {
    set.effective(rt.alloc())
        .expect(rt, "a conflict")
        .iter()
        .count()
}

/// Whether this is the text of a set's effective module, or it has none of the name.
pub fn is_effective(
    rt: &(impl Abort + AllocGlobal),
    set: &ModuleSet,
    name: &str,
    text: Option<&[u8]>,
) -> bool {
    set.effective(rt.alloc()).expect(rt, "a conflict").get(name) == text
}

/// A set refuses the contribution written for this reason, and hands it back.
pub fn refuses(
    rt: &(impl Abort + AllocGlobal),
    set: &mut ModuleSet,
    written: &str,
    wanted: AddFault,
) {
    let given = contribution(rt.alloc(), written).expect(rt, "no contribution");
    let kept = contribution(rt.alloc(), written).expect(rt, "no contribution");
    let (back, fault) = refused(rt, set, given);
    let is_back = back == kept;
    assert!(rt; is_back && fault == wanted, "{written}");
}

/// The contribution of a text of so many bytes.
pub fn long_contribution(
    rt: &(impl Abort + AllocGlobal),
    revision: u64,
    length: usize,
) -> Contribution {
    let text = vec![in rt.alloc(); b'x'; length].expect(rt, "no memory");
    Contribution {
        name: String::from_str(rt.alloc(), "a").expect(rt, "no memory"),
        revision,
        text: Some(text),
    }
}

/// A set refuses a text that is one byte too long.
pub fn refuses_a_longer_text(rt: &(impl Abort + AllocGlobal), set: &mut ModuleSet) {
    let (_, fault) = refused(rt, set, long_contribution(rt, 1, MAX_TEXT + 1));
    assert!(rt; fault == AddFault::TooLong, "the text is too long");
}

/// A set of that many texts of one module, 1,024 at most, of odd or of even revisions.
fn set_of_revisions(rt: &(impl Abort + AllocGlobal), is_odd: bool, count: u64) -> ModuleSet {
    let mut set = ModuleSet::new(rt.alloc());
    for n in 0..1024u64 {
        let revision = if is_odd { 2 * n + 1 } else { 2 * n };
        if n < count {
            let is_new = add(rt, &mut set, module(rt, "a", revision, b"x"));
            assert!(rt; is_new, "each revision is new");
        }
    }
    set
}

/// The set that a set's bundle reads back as.
fn reread_set(rt: &(impl Abort + AllocGlobal), set: &ModuleSet) -> ModuleSet {
    set_of_bundle(rt, bundle(rt, set).as_slice())
}

/// Joins a set with another, for which there is room.
fn join(rt: &impl Abort, set: &mut ModuleSet, other: &ModuleSet) {
    set.join(other).expect(rt, "the sets are not joined");
}

#[test]
fn new_sets_are_empty(rt: HostRuntime) {
    let mut set = ModuleSet::new(rt.alloc());
    assert!(rt; set.is_empty(), "a new set holds nothing");
    let _ = add(&rt, &mut set, module(&rt, "a", 0, b""));
    assert!(rt; !set.is_empty(), "a set of one contribution is not empty");
}

#[test]
fn a_full_set_joins_itself(rt: HostRuntime) {
    let mut set = set_of_revisions(&rt, false, 1024);
    let is_full = set.join(&set_of_revisions(&rt, true, 600)) == Err(AddFault::Full);
    assert!(rt; is_full, "the set is full");
    assert_eq!(rt; set.len(), 1024);
    let copy = reread_set(&rt, &set);
    join(&rt, &mut set, &copy);
    assert_eq!(rt; set.len(), 1024);
}

#[test]
fn a_set_joins_itself(rt: HostRuntime) {
    let odd = set_of_revisions(&rt, true, 600);
    let mut both = reread_set(&rt, &odd);
    join(&rt, &mut both, &odd);
    assert_eq!(rt; both.len(), 600);
    assert_eq!(rt; effective_count(&rt, &both), 1);
}

#[test]
fn joined_sets_are_in_order(rt: HostRuntime) {
    let mut set = written_set(rt.alloc(), "@b\nx\n@d\nx\n@a 3\nx").expect(&rt, "no set");
    let text = "@c\nx\n@a 3\nx\n@e\nx\n@a 2\nx\n@d 1 withdrawn\n";
    let other = written_set(rt.alloc(), text).expect(&rt, "no set");
    join(&rt, &mut set, &other);
    assert_eq!(rt; set.len(), 7);
    let lines = "a 2\na 3\nb 1\nc 1\nd 1 withdrawn\nd 1\ne 1\n";
    assert_eq!(rt; held(&rt, &set).as_str(), lines);
}

/// A contribution of a numbered name.
fn numbered_contribution(rt: &(impl Abort + AllocGlobal), number: usize) -> Contribution {
    let name = format!(in rt.alloc(); "m{number:04}").expect(rt, "no memory");
    module(rt, name.as_str(), 1, b"")
}

/// A set of 1,024 numbered names.
fn full_set(rt: &(impl Abort + AllocGlobal)) -> ModuleSet {
    let mut set = ModuleSet::new(rt.alloc());
    for number in 0..1024 {
        let is_new = add(rt, &mut set, numbered_contribution(rt, number));
        assert!(rt; is_new, "each name is new");
    }
    set
}

/// What a full set refuses, and what it holds.
fn takes_no_more(rt: &(impl Abort + AllocGlobal), set: &mut ModuleSet) {
    refuses(rt, set, "m1024", AddFault::Full);
    assert_eq!(rt; set.len(), 1024);
    let is_new = add(rt, set, numbered_contribution(rt, 7));
    assert!(rt; !is_new, "what a full set holds is held");
}

/// A set of one that a full set lacks takes nothing from it.
fn joins_nothing(rt: &(impl Abort + AllocGlobal), full: &ModuleSet) {
    let mut set = written_set(rt.alloc(), "@m1024\n").expect(rt, "no set");
    let is_refused = set.join(full) == Err(AddFault::Full);
    assert!(rt; is_refused, "a full set is not joined");
    assert_eq!(rt; set.len(), 1);
}

#[test]
fn a_full_set_takes_no_more(rt: HostRuntime) {
    let mut set = full_set(&rt);
    takes_no_more(&rt, &mut set);
    joins_nothing(&rt, &set);
}

#[test]
fn a_full_set_names_other_faults_first(rt: HostRuntime) {
    let mut set = full_set(&rt);
    refuses(&rt, &mut set, " 1", AddFault::BadName);
    refuses_a_longer_text(&rt, &mut set);
}

#[test]
fn sets_tell_what_they_hold(rt: HostRuntime) {
    let text = "@b\nstart = text\n@a 2 withdrawn\n@a\nx = text\n@a 3\nx = empty";
    let set = written_set(rt.alloc(), text).expect(&rt, "no set");
    let lines = "a 1\na 2 withdrawn\na 3\nb 1\n";
    assert_eq!(rt; held(&rt, &set).as_str(), lines);
    assert_eq!(rt; effective_count(&rt, &set), 2);
    let is_highest = is_effective(&rt, &set, "a", Some(b"x = empty"));
    assert!(rt; is_highest, "the highest revision is effective");
    assert!(rt; is_effective(&rt, &set, "c", None), "no other module is");
}
