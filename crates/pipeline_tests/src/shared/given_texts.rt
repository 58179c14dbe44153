// Texts, contributions and sets that tests are given. Where memory is lacking the test ends.
use crate::shared::comparing::expect_text;
use core_tests::samples;
use rn_modset::{Contribution, ModuleSet};
use std::process::Abort;

/// A text of its own.
pub fn owned(rt: &(impl Abort + AllocGlobal), text: &str) -> String {
    String::from_str(rt.alloc(), text).expect(rt, "no memory")
}

/// Adds to a text.
pub fn push(rt: &impl Abort, out: &mut String, text: &str) {
    out.push_str(text).expect(rt, "no memory");
}

/// A text that so often holds a piece between a front and an end.
pub fn repeated(
    rt: &(impl Abort + AllocGlobal),
    front: &str,
    piece: &str,
    count: usize,
    end: &str,
) -> String {
    expect_text(rt, samples::repeated(rt.alloc(), front, piece, count, end))
}

/// The contribution that a text writes in the form that `samples` reads.
pub fn contribution(rt: &(impl Abort + AllocGlobal), written: &str) -> Contribution {
    samples::contribution(rt.alloc(), written).expect(rt, "no contribution")
}

/// The set that a text writes in the form that `samples` reads.
pub fn written_set(rt: &(impl Abort + AllocGlobal), text: &str) -> ModuleSet {
    samples::written_set(rt.alloc(), text).expect(rt, "no set")
}
