// The lines of faults, refusals and contributions, and the status with which the program then ends.
use crate::shared::comparing::{expect_text, holds, same};
use crate::shared::given_texts::{contribution, owned};
use core_tests::samples::DIGEST;
use rn_assemble::{Key, Refusal};
use rn_merge::{Place, ProgramFault, fault_line, list_line, refusal_line, status};
use rn_modset::{AddFault, BundleFault};
use std::process::Abort;

/// The fault has this line, and the program then ends with this status.
fn ends(rt: &(impl Abort + AllocGlobal), fault: ProgramFault, line: &str, number: u8) {
    same(
        rt,
        expect_text(rt, fault_line(rt.alloc(), &fault)).as_str(),
        line,
    );
    holds(rt, status(&fault) == number, line);
}

#[test]
fn faults_have_their_lines(rt: HostRuntime) {
    ends(&rt, ProgramFault::Usage, "usage", 2);
    ends(&rt, ProgramFault::Rev, "usage: REV", 2);
    ends(&rt, ProgramFault::Dash, "usage: -", 2);
    ends(&rt, ProgramFault::Read(0), "read 0", 3);
    ends(&rt, ProgramFault::Large(12), "large 12", 3);
    ends(&rt, ProgramFault::Write, "write", 3);
    ends(&rt, ProgramFault::Memory, "Memory", 3);
    ends(&rt, ProgramFault::Add(AddFault::TooLong), "TooLong", 1);
    ends(&rt, ProgramFault::Add(AddFault::Full), "Full", 1);
    ends(&rt, ProgramFault::Add(AddFault::Memory), "Memory", 3);
}

/// The fault of the first bundle has this line, and the program then ends with status 1.
fn ends_at_bundle(rt: &(impl Abort + AllocGlobal), fault: BundleFault, line: &str) {
    ends(rt, ProgramFault::Bundle(0, fault), line, 1);
}

#[test]
fn faults_of_bundles_have_their_lines(rt: HostRuntime) {
    ends_at_bundle(&rt, BundleFault::Magic, "bundle 0 Magic");
    ends_at_bundle(&rt, BundleFault::Order { entry: 1 }, "bundle 0 Order 1");
    ends_at_bundle(&rt, BundleFault::Digest { entry: 0 }, "bundle 0 Digest 0");
    ends_at_bundle(&rt, BundleFault::Truncated, "bundle 0 Truncated");
    ends_at_bundle(&rt, BundleFault::Trailing, "bundle 0 Trailing");
    let header = BundleFault::Header { entry: 2 };
    ends(&rt, ProgramFault::Bundle(1, header), "bundle 1 Header 2", 1);
    let memory = ProgramFault::Bundle(0, BundleFault::Memory);
    ends(&rt, memory, "Memory", 3);
}

/// A contribution has this line in a list.
fn is_listed(rt: &(impl Abort + AllocGlobal), written: &str, wanted: &str) {
    let line = list_line(rt.alloc(), &contribution(rt, written));
    same(rt, expect_text(rt, line).as_str(), wanted);
}

#[test]
fn contributions_have_their_lines(rt: HostRuntime) {
    let wanted = expect_text(&rt, format!(in rt.alloc(); "t 7 3 {DIGEST}"));
    is_listed(&rt, "t 7\nabc", wanted.as_str());
    is_listed(&rt, "lib 2 withdrawn", "lib 2 withdrawn");
}

#[test]
fn faults_of_texts_have_their_lines(rt: HostRuntime) {
    let syntax = Place::Syntax { at: 20 };
    ends(&rt, ProgramFault::Check(syntax), "Syntax 20", 1);
    ends(&rt, ProgramFault::Check(Place::Memory), "Memory", 3);
}

/// The key of a definition.
fn definition_key(rt: &(impl Abort + AllocGlobal), name: &str) -> Key {
    Key::Define(owned(rt, name))
}

#[test]
fn refusals_end_the_program(rt: HostRuntime) {
    ends(&rt, ProgramFault::Refused(Refusal::Memory), "Memory", 3);
    ends(
        &rt,
        ProgramFault::Refused(Refusal::Instances),
        "Instances",
        1,
    );
    let start = Refusal::PlainTwice { key: Key::Start };
    ends(&rt, ProgramFault::Refused(start), "PlainTwice start", 1);
    let module = owned(&rt, "a");
    let lexical = Refusal::Lexical { module };
    ends(&rt, ProgramFault::Refused(lexical), "Lexical a", 1);
    let key = definition_key(&rt, "start");
    let twice = Refusal::PlainTwice { key };
    ends(&rt, ProgramFault::Refused(twice), "PlainTwice \\start", 1);
}

/// The refusal has this line.
fn shows(rt: &(impl Abort + AllocGlobal), refusal: Refusal, line: &str) {
    same(
        rt,
        expect_text(rt, refusal_line(rt.alloc(), &refusal)).as_str(),
        line,
    );
}

#[test]
fn refusals_of_modules_have_their_lines(rt: HostRuntime) {
    let module = owned(&rt, "a");
    let conflict = Refusal::Conflict {
        module,
        revision: 1,
    };
    shows(&rt, conflict, "Conflict a 1");
    for (wanted, line) in [("gone", "Missing main \"gone\""), ("", "Missing main \"\"")] {
        let module = owned(&rt, "main");
        let wanted = owned(&rt, wanted);
        shows(&rt, Refusal::Missing { module, wanted }, line);
    }
    let module = owned(&rt, "a");
    shows(&rt, Refusal::Cycle { module }, "Cycle a");
}

#[test]
fn refusals_of_keys_have_their_lines(rt: HostRuntime) {
    let module = owned(&rt, "main");
    let key = definition_key(&rt, "z");
    shows(&rt, Refusal::Override { module, key }, "Override main z");
    let module = owned(&rt, "main");
    let key = Key::Start;
    shows(
        &rt,
        Refusal::Override { module, key },
        "Override main start",
    );
    let key = definition_key(&rt, "x");
    shows(&rt, Refusal::MixedMethods { key }, "MixedMethods x");
    let key = Key::Start;
    shows(&rt, Refusal::NameClass { key }, "NameClass start");
}

#[test]
fn refusals_of_references_have_their_lines(rt: HostRuntime) {
    let name = owned(&rt, "start");
    shows(&rt, Refusal::Undefined { name }, "Undefined \\start");
    let name = owned(&rt, "a");
    shows(&rt, Refusal::Recursive { name }, "Recursive a");
}

#[test]
fn refusals_without_a_name_have_their_lines(rt: HostRuntime) {
    shows(&rt, Refusal::NoStart, "NoStart");
    shows(&rt, Refusal::OutputTooLarge, "OutputTooLarge");
    shows(&rt, Refusal::OutputTooDeep, "OutputTooDeep");
}
