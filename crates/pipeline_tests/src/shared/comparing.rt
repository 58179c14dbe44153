// What is compared in tests. A helper that lacks memory, or finds something else than is wanted, ends its test; no function of a library
// may do so.
use std::alloc::AllocError;
use std::process::Abort;

/// What is said holds.
pub fn holds(rt: &impl Abort, is_so: bool, said: &str) {
    assert!(rt; is_so, "{said}");
}

/// Two texts are the same.
pub fn same(rt: &impl Abort, found: &str, wanted: &str) {
    assert_eq!(rt; found, wanted);
}

/// Two texts are the same, found for what is given.
pub fn same_for(rt: &impl Abort, given: &str, found: &str, wanted: &str) {
    assert_eq!(rt; found, wanted, "{given}");
}

/// Bytes are the same.
pub fn same_bytes(rt: &impl Abort, found: &[u8], wanted: &[u8]) {
    assert_eq!(rt; found, wanted);
}

/// Two counts are the same.
pub fn same_count(rt: &impl Abort, found: usize, wanted: usize) {
    assert_eq!(rt; found, wanted);
}

/// A text that was asked for.
pub fn expect_text(rt: &impl Abort, text: Result<String, AllocError>) -> String {
    text.expect(rt, "no memory")
}
