// Texts that lie in the value itself where they are short: around the longest such text, and of several bytes a character.
use rn_pattern::SmallString;
use std::process::Abort;

/// Texts of no byte, of one, and of 21 to 24 bytes, some with characters of two to four bytes at the end or throughout.
static TEXTS: [&str; 9] = [
    "",
    "a",
    "abcdefghijklmnopqrstu",
    "abcdefghijklmnopqrstuv",
    "abcdefghijklmnopqrstuvw",
    "abcdefghijklmnopqrst\u{E9}",
    "abcdefghijklmnopqrs\u{1F600}",
    "\u{E9}\u{E9}\u{E9}\u{E9}\u{E9}\u{E9}\u{E9}\u{E9}\u{E9}\u{E9}\u{E9}",
    "\u{E9}\u{E9}\u{E9}\u{E9}\u{E9}\u{E9}\u{E9}\u{E9}\u{E9}\u{E9}\u{E9}\u{E9}",
];

/// What is kept of a text is that text, and so is a copy, also when the first is gone.
fn is_kept(rt: &(impl Abort + AllocGlobal), text: &str) {
    let kept = SmallString::from_str(rt.alloc(), text).expect(rt, "no memory");
    assert_eq!(rt; kept.as_str(), text);
    let copy = kept.try_clone().expect(rt, "no memory");
    drop(kept);
    assert_eq!(rt; copy.as_str(), text);
}

#[test]
fn texts_are_kept(rt: HostRuntime) {
    for text in &TEXTS {
        is_kept(&rt, text);
    }
}
