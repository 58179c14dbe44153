// Bundles: their one spelling, what is read from damaged ones, and the most entries.
use crate::samples::{DIGEST, ONE, written_set};
use crate::sets::{bundle, module, set_of_bundle};
use rn_modset::{ModuleSet, read_bundle};
use std::alloc::{AllocError, Global};
use std::process::Abort;

/// What is wrong with a bundle, or `good`.
fn fault(rt: &(impl Abort + AllocGlobal), bytes: &[u8]) -> String {
    let told = match read_bundle(rt.alloc(), bytes) {
        Ok(_) => String::from_str(rt.alloc(), "good"),
        Err(fault) => format!(in rt.alloc(); "{fault:?}"),
    };
    told.expect(rt, "no memory")
}

/// A bundle has this fault, or is `good`.
fn is_found(rt: &(impl Abort + AllocGlobal), given: &str, bytes: &[u8], wanted: &str) {
    assert_eq!(rt; fault(rt, bytes).as_str(), wanted, "{given}");
}

#[test]
fn one_text_has_its_bundle(rt: HostRuntime) {
    let set = written_set(rt.alloc(), "@t 7\nabc").expect(&rt, "no set");
    let bytes = bundle(&rt, &set);
    assert_eq!(rt; bytes.len(), 97);
    assert_eq!(rt; bytes.as_slice(), ONE.as_bytes());
}

#[test]
fn one_text_is_read_from_its_bundle(rt: HostRuntime) {
    let read = set_of_bundle(&rt, ONE.as_bytes());
    let is_read = read.contains(&module(&rt, "t", 7, b"abc"));
    assert!(rt; is_read, "the text is read");
}

#[test]
fn other_sets_have_their_bundles(rt: HostRuntime) {
    let empty = bundle(&rt, &ModuleSet::new(rt.alloc()));
    assert_eq!(rt; empty.as_slice(), b"rncset 1\nend 0\n".as_slice());
    let set = written_set(rt.alloc(), "@lib 2 withdrawn\n").expect(&rt, "no set");
    let withdrawn = bundle(&rt, &set);
    let wanted = b"rncset 2\nwithdrawn lib 2\nend 1\n".as_slice();
    assert_eq!(rt; withdrawn.as_slice(), wanted);
}

/// The bundle of a set written has so many bytes.
fn has_length(rt: &(impl Abort + AllocGlobal), written: &str, wanted: usize) {
    let set = written_set(rt.alloc(), written).expect(rt, "no set");
    assert_eq!(rt; bundle(rt, &set).len(), wanted);
}

#[test]
fn bundles_have_their_lengths(rt: HostRuntime) {
    has_length(&rt, "@a 0\n", 94);
    let text = "@a\nstart = doc doc |= element b { text }\n@b\ndoc |= element a { empty }";
    has_length(&rt, text, 238);
}

/// The bundle of one text with a part of it replaced.
fn damaged_bundle(rt: &(impl Abort + AllocGlobal), old: &str, new: &str) -> String {
    ONE.replacen(rt.alloc(), old, new, 1)
        .expect(rt, "no memory")
}

/// Parts of the bundle of one text, what stands in their place, and what is wrong then.
static DAMAGE: [(&str, &str, &str); 18] = [
    (" 7 3 ", " 07 3 ", "Header { entry: 0 }"),
    (" ba78", " Ba78", "Header { entry: 0 }"),
    (" ba78", " ba79", "Digest { entry: 0 }"),
    (" 7 3 ", " 7 2 ", "Header { entry: 0 }"),
    (" 7 3 ", " 7 4 ", "Header { entry: 0 }"),
    (" 7 3 ", " 7 9 ", "Digest { entry: 0 }"),
    (" 7 3 ", " 7 10 ", "Truncated"),
    ("end 1", "end 2", "Header { entry: 1 }"),
    ("rncset 1", "rncset 3", "Magic"),
    ("end 1\n", "end 1\n ", "Trailing"),
    ("rncset 1", "rncset 2", "Header { entry: 1 }"),
    ("end 1", "withdrawn t 8\nend 2", "Header { entry: 1 }"),
    (" ba78", " ca78", "Digest { entry: 0 }"),
    (" 7 3 ", " 18446744073709551615 3 ", "good"),
    (" 7 3 ", " 18446744073709551616 3 ", "Header { entry: 0 }"),
    (" 7 3 ", " 7 4194304 ", "Truncated"),
    (" 7 3 ", " 7 4194305 ", "Header { entry: 0 }"),
    ("end 1\n", "end 1\n\n", "Trailing"),
];

#[test]
fn damage_is_named(rt: HostRuntime) {
    for (old, new, wanted) in &DAMAGE {
        let text = damaged_bundle(&rt, old, new);
        is_found(&rt, new, text.as_bytes(), wanted);
    }
}

#[test]
fn version_2_has_a_withdrawal(rt: HostRuntime) {
    let found = fault(&rt, b"rncset 2\nend 0\n");
    assert_eq!(rt; found.as_str(), "Header { entry: 0 }");
}

#[test]
fn fronts_are_no_bundles(rt: HostRuntime) {
    let bytes = ONE.as_bytes();
    for end in 0..bytes.len() {
        let wanted = if end < 9 { "Magic" } else { "Truncated" };
        assert_eq!(rt; fault(&rt, &bytes[..end]).as_str(), wanted, "row {end}");
    }
}

#[test]
fn a_bundle_of_annotations_is_truncated(rt: HostRuntime) {
    let text =
        "@a\nnamespace sch = \"s\" sch:ns [ prefix = \"p\" ] [ sch:x = \"1\" ] start = element a { empty } >> sch:y [ \"z\" ]";
    let set = written_set(rt.alloc(), text).expect(&rt, "no set");
    let mut bytes = bundle(&rt, &set);
    bytes.pop();
    is_found(&rt, "without its last byte", bytes.as_slice(), "Truncated");
}

/// The entry of a text `abc` of revision 7.
fn entry(rt: &(impl Abort + AllocGlobal), name: &str) -> String {
    format!(in rt.alloc(); "module {name} 7 3 {DIGEST}\nabc\n").expect(rt, "no memory")
}

/// A bundle of two entries has this fault, or is `good`.
fn two_have(rt: &(impl Abort + AllocGlobal), version: u8, first: &str, second: &str, wanted: &str) {
    let text = format!(in rt.alloc(); "rncset {version}\n{first}{second}end 2\n");
    let text = text.expect(rt, "no memory");
    is_found(rt, second, text.as_bytes(), wanted);
}

#[test]
fn entries_rise(rt: HostRuntime) {
    let first = entry(&rt, "t");
    for (name, wanted) in [
        ("t", "Order { entry: 1 }"),
        ("s", "Order { entry: 1 }"),
        ("u", "good"),
    ] {
        two_have(&rt, 1, first.as_str(), entry(&rt, name).as_str(), wanted);
    }
}

#[test]
fn a_withdrawal_stands_before_its_text(rt: HostRuntime) {
    let text = entry(&rt, "t");
    let withdrawal = "withdrawn t 7\n";
    two_have(&rt, 2, withdrawal, text.as_str(), "good");
    two_have(&rt, 2, text.as_str(), withdrawal, "Order { entry: 1 }");
}

/// The entry of a withdrawal of a numbered name.
fn withdrawal(alloc: Global, number: usize) -> Result<String, AllocError> {
    format!(in alloc; "withdrawn m{number:04} 1\n")
}

/// A bundle of that many withdrawals.
fn bundle_of_withdrawals(alloc: Global, count: usize) -> Result<String, AllocError> {
    let mut text = String::from_str(alloc, "rncset 2\n")?;
    for number in 0..count {
        text.push_str(withdrawal(alloc, number)?.as_str())?;
    }
    text.push_str(format!(in alloc; "end {count}\n")?.as_str())?;
    Ok(text)
}

#[test]
fn entries_are_limited(rt: HostRuntime) {
    let most = bundle_of_withdrawals(rt.alloc(), 1024).expect(&rt, "no memory");
    is_found(&rt, "1024 entries", most.as_bytes(), "good");
    let more = bundle_of_withdrawals(rt.alloc(), 1025).expect(&rt, "no memory");
    is_found(
        &rt,
        "1025 entries",
        more.as_bytes(),
        "Header { entry: 1024 }",
    );
}
