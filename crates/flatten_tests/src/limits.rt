// Limits that two crates have, of which neither stands on the other.
use crate::outlines::{outline_of, outline_or_fault};
use rn_lift::MAX_EXCEPTS;
use rn_modset::{MAX_CONTRIBUTIONS, MAX_TEXT};
use rn_outline::OutlineFault;
use rn_scopes::{LiftFaultKind, Lifting, MAX_PLACES, Units, make_plan};
use rn_syntax::{MAX_OPEN, SyntaxFault, parse};
use rn_text::tokens;
use std::alloc::{AllocError, Global};
use std::process::Abort;

// A start in so many parentheses.
fn enclosed_start(alloc: Global, count: usize) -> Result<String, AllocError> {
    let (opening, closing) = ("(".repeat(alloc, count)?, ")".repeat(alloc, count)?);
    format!(in alloc; "start = {opening}a{closing}")
}

// Whether too many brackets are open in a text: as a file, and as a module.
fn are_too_deep(rt: &(impl Abort + AllocGlobal), text: &str) -> (bool, bool) {
    let tokens = tokens(rt.alloc(), text.as_bytes()).expect(rt, "no tokens");
    let module = parse(rt.alloc(), tokens.as_slice());
    let outline = outline_or_fault(rt, text);
    (
        matches!(outline, Err(OutlineFault::Deep { .. })),
        matches!(module, Err(SyntaxFault::Deep { .. })),
    )
}

#[test]
fn files_and_modules_may_be_as_deep(rt: HostRuntime) {
    let deepest = enclosed_start(rt.alloc(), MAX_OPEN).expect(&rt, "no memory");
    assert!(&rt;
        are_too_deep(&rt, deepest.as_str()) == (false, false),
        "as deep as may be"
    );
    let deeper = enclosed_start(rt.alloc(), MAX_OPEN + 1).expect(&rt, "no memory");
    assert!(&rt;
        are_too_deep(&rt, deeper.as_str()) == (true, true),
        "a bracket too many"
    );
    assert_eq!(&rt; rn_outline::MAX_OPEN, MAX_OPEN);
}

#[test]
fn excepts_may_be_as_long_as_a_text(rt: HostRuntime) {
    assert_eq!(&rt; MAX_EXCEPTS, MAX_TEXT);
}

// A start that is a choice of so many nested grammars and of text.
fn start_of_grammars(alloc: Global, count: usize) -> Result<String, AllocError> {
    let grammars = " | grammar { start = text }".repeat(alloc, count)?;
    format!(in alloc; "start = text{grammars}")
}

// How many places a file with so many nested grammars has, or the fault: one of its own, and one for each of these.
fn places_of_grammars(
    rt: &(impl Abort + AllocGlobal),
    count: usize,
) -> Result<usize, LiftFaultKind> {
    let text = start_of_grammars(rt.alloc(), count).expect(rt, "no memory");
    let outline = outline_of(rt, text.as_str());
    let file = Lifting {
        name: "a",
        text: text.as_str(),
        outline: &outline,
        targets: &[],
    };
    let units = Units::of(rt.alloc(), &[file]).expect(rt, "no memory");
    match make_plan(rt.alloc(), &units, &[0]) {
        Ok(plan) => Ok(plan.places.len()),
        Err(fault) => Err(fault.kind),
    }
}

#[test]
fn files_make_as_many_modules_as_a_set_has(rt: HostRuntime) {
    assert_eq!(&rt; MAX_PLACES, MAX_CONTRIBUTIONS);
    let most = places_of_grammars(&rt, MAX_PLACES - 1);
    assert_eq!(&rt; most, Ok(1_024), "as many as may be");
    let more = places_of_grammars(&rt, MAX_PLACES);
    assert_eq!(&rt; more, Err(LiftFaultKind::Many), "a module too many");
}
