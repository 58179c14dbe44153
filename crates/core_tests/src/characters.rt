// Characters of names, at the ends of their ranges, and texts that are names or keywords.
use rn_text::{is_keyword, is_ncname};
use std::process::Abort;

/// The first and the last character of each range that may begin a name.
static STARTS: [(u32, u32); 15] = [
    (0x41, 0x5A),
    (0x5F, 0x5F),
    (0x61, 0x7A),
    (0xC0, 0xD6),
    (0xD8, 0xF6),
    (0xF8, 0x2FF),
    (0x370, 0x37D),
    (0x37F, 0x1FFF),
    (0x200C, 0x200D),
    (0x2070, 0x218F),
    (0x2C00, 0x2FEF),
    (0x3001, 0xD7FF),
    (0xF900, 0xFDCF),
    (0xFDF0, 0xFFFD),
    (0x10000, 0xEFFFF),
];

/// The first and the last character of each further range that may stand in a name.
static FURTHER: [(u32, u32); 5] = [
    (0x2D, 0x2E),
    (0x30, 0x39),
    (0xB7, 0xB7),
    (0x300, 0x36F),
    (0x203F, 0x2040),
];

/// Numbers of characters that stand in no name, most of them beside a range.
static NO_NAME: [u32; 8] = [0x2C, 0x2F, 0x3A, 0xB6, 0xB8, 0x2041, 0x203E, 0xF0000];

/// Whether `front` and the character of this number are a name.
fn is_name_with(rt: &(impl Abort + AllocGlobal), front: &str, number: u32) -> bool {
    let mut text = String::from_str(rt.alloc(), front).expect(rt, "no memory");
    if let Some(c) = char::from_u32(number) {
        text.push(c).expect(rt, "no memory");
    }
    is_ncname(text.as_str())
}

/// The character of this number follows `front` in a name, or doesn't.
fn stands(rt: &(impl Abort + AllocGlobal), front: &str, number: u32, wanted: bool) {
    assert!(rt;
        is_name_with(rt, front, number) == wanted,
        "{front} and {number}"
    );
}

#[test]
fn names_begin_in_their_ranges(rt: HostRuntime) {
    for (first, last) in &STARTS {
        stands(&rt, "", *first, true);
        stands(&rt, "", *last, true);
        stands(&rt, "", first.saturating_sub(1), false);
        stands(&rt, "", last.saturating_add(1), false);
    }
}

#[test]
fn names_end_at_their_ranges(rt: HostRuntime) {
    for (first, last) in &FURTHER {
        stands(&rt, "a", *first, true);
        stands(&rt, "a", *last, true);
    }
}

#[test]
fn names_end_before_what_stands_in_none(rt: HostRuntime) {
    for number in &NO_NAME {
        stands(&rt, "a", *number, false);
    }
}

#[test]
fn names_and_keywords_are_told(rt: HostRuntime) {
    assert!(rt; !is_ncname(""), "no name");
    assert!(rt; !is_ncname("a:b"), "no name with a colon");
    assert!(rt; is_keyword("notAllowed"), "a keyword");
    assert!(rt; !is_keyword("notallowed"), "no keyword in small letters");
    assert!(rt; !is_keyword(""), "no keyword without letters");
}
