// What is compared in tests. A helper that lacks memory, or finds something else than is wanted, ends its test.
use std::alloc::AllocError;
use std::process::Abort;

/// What is said holds.
pub fn holds(rt: &impl Abort, is_so: bool, said: &str) {
    assert!(rt; is_so, "{said}");
}

/// Two texts are the same, found for what is given.
pub fn same_for(rt: &impl Abort, given: &str, found: &str, wanted: &str) {
    assert_eq!(rt; found, wanted, "{given}");
}

/// A text that was asked for.
pub fn expect_text(rt: &impl Abort, text: Result<String, AllocError>) -> String {
    text.expect(rt, "no memory")
}
