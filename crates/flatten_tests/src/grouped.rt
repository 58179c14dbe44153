// Numbers in sentences: their digits in threes, and the limit that a sentence names.
use rn_outline::Grouped;
use rn_scopes::LiftFaultKind;
use std::process::Abort;

// Whether a number is shown as it is wanted.
fn is_shown(rt: &(impl Abort + AllocGlobal), number: usize, wanted: &str) -> bool {
    let number = Grouped(number);
    let shown = format!(in rt.alloc(); "{number}").expect(rt, "no memory");
    shown.as_str() == wanted
}

#[test]
fn numbers_are_shown_in_threes(rt: HostRuntime) {
    assert!(&rt; is_shown(&rt, 0, "0"));
    assert!(&rt; is_shown(&rt, 999, "999"));
    assert!(&rt; is_shown(&rt, 1_000, "1,000"));
    assert!(&rt; is_shown(&rt, 65_536, "65,536"));
    assert!(&rt; is_shown(&rt, 4_000_004, "4,000,004"));
    assert!(&rt; is_shown(&rt, 1_000_000_000, "1,000,000,000"));
    assert!(&rt; is_shown(&rt, usize::MAX, "18,446,744,073,709,551,615"));
}

#[test]
fn too_many_modules_are_told_with_the_limit(rt: HostRuntime) {
    let kind = LiftFaultKind::Many;
    let sentence = format!(in rt.alloc(); "{kind}").expect(&rt, "no memory");
    assert_eq!(&rt; sentence.as_str(), "more than 1,024 modules");
}
