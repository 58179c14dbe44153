// The order of long URIs while short texts replace them: tables of URIs in their order, and sets that are drawn.
use crate::schemas::long_uris::{lengthened, prints};
use crate::shared::comparing::{expect_text, holds};
use crate::shared::drawing::Draw;
use crate::shared::given_texts::{owned, push, written_set};
use crate::shared::merges::{prints_again, prints_in_each_store};
use rn_assemble::assemble_short;
use rn_modset::ModuleSet;
use rn_simplify::{normalise, print};
use std::process::Abort;

/// A line for each URI, which declares it for a prefix with this letter and its number.
fn declarations(
    rt: &(impl Abort + AllocGlobal),
    keyword: &str,
    letter: &str,
    uris: &str,
) -> String {
    let mut lines = owned(rt, "");
    let mut number: usize = 0;
    for uri in uris.split(" < ") {
        number = number.saturating_add(1);
        let line = format!(in rt.alloc(); "{keyword} {letter}{number} = \"{uri}\"\n");
        push(rt, &mut lines, expect_text(rt, line).as_str());
    }
    lines
}

/// A choice of a first member and of one for each prefix with this letter.
fn choice(
    rt: &(impl Abort + AllocGlobal),
    first: &str,
    letter: &str,
    local: &str,
    uris: &str,
) -> String {
    let mut members = owned(rt, first);
    let mut number: usize = 0;
    for _ in uris.split(" < ") {
        number = number.saturating_add(1);
        let member = format!(in rt.alloc(); " | {letter}{number}:{local}");
        push(rt, &mut members, expect_text(rt, member).as_str());
    }
    members
}

/// A schema in which each URI is a namespace and a library, for prefixes with these letters.
fn schema(rt: &(impl Abort + AllocGlobal), namespace: &str, library: &str, uris: &str) -> String {
    let namespaces = declarations(rt, "namespace", namespace, uris);
    let libraries = declarations(rt, "datatypes", library, uris);
    let names = choice(rt, "x", namespace, "x", uris);
    let types = choice(rt, "string", library, "t", uris);
    expect_text(
        rt,
        format!(in rt.alloc(); "{namespaces}{libraries}start = element {names} {{ {types} }}\n"),
    )
}

/// URIs the other way round.
fn reversed(rt: &(impl Abort + AllocGlobal), uris: &str) -> String {
    let mut text = owned(rt, "");
    for uri in uris.split(" < ") {
        text = if text.is_empty() {
            owned(rt, uri)
        } else {
            expect_text(rt, format!(in rt.alloc(); "{uri} < {text}"))
        };
    }
    text
}

/// URIs, which are written in their order, are printed in it, and so are the names and types in them.
fn keep_their_order(rt: &(impl Abort + AllocGlobal), uris: &str) {
    let given = schema(rt, "p", "p", reversed(rt, uris).as_str());
    let wanted = schema(rt, "n", "d", uris);
    prints(rt, given.as_str(), wanted.as_str());
}

/// URIs in their order, which is that of their bytes. `^` means sixty letters `u`, so `^0123` has 64 bytes, as many as a URI
/// has at most that isn't long.
const ORDERS: &str = "^0123 < ^01234
^0123 < ^01234 < ^012345 < ^0123456 < ^01234567 < ^012345678
^01230 < ^01231
^012340 < ^012341
^0123450 < ^0123451
^01234560 < ^01234561
^012345670 < ^012345671
^^0 < ^^00 < ^^01 < ^^1
^012 < ^0120 < ^01200 < ^0121 < ^012^
^0122^ < ^0123 < ^01230 < ^0123^ < ^0124
t < u < ^ < ^t^ < ^^ < ^v < ^v^ < v
g < http://www.w3.org/2000/xmlns < http://www.w3.org/2000/xmlns^ < http://www.w3.org/2000/xmlns^^ < i";

#[test]
fn uris_keep_their_order(rt: HostRuntime) {
    for uris in ORDERS.split('\n') {
        keep_their_order(&rt, uris);
    }
}

/// URIs in their order, of which some are spelled like the short text of another: nothing, or a URI that means something by itself, and
/// a number in 16 digits; or like a text that is made of the URI's first 64 bytes and a number in 16 letters.
const ALIKE: &str = "^01234 < ^01234aaaaaaaaaaaaaaaa < ^01234z
^01234aaaaaaaaaaaaaaaa < ^01234aaaaaaaaaaaaaaae < ^01234aaaaaaaaaaaaaaaf < ^01234aaaaaaaaaaaaaaag < ^01234z
^01234aaaaaaaaaaaaaaae < ^01234z
^01234aaaaaaaaaaaaaaaf < ^01234z
^01234A < ^01234aaaaaaaaaaaaaaae^ < ^01234aaaaaaaaaaaaaaaf^
^0123éaaaaaaaaaaaaaaaf < ^0123éz
^012€aaaaaaaaaaaaaaaf < ^012€z
^01😀aaaaaaaaaaaaaaaf < ^01😀z
^0123😀aaaaaaaaaaaaaaaf < ^0123😀z
0000000000000001 < 0000000000000002 < ^^
0000000000000002 < 0000000000000003 < 000000000000000f < 000000000000000f^
http://www.w3.org/2000/xmlns0000000000000002 < http://www.w3.org/2000/xmlns0000000000000003 < ^^
http://www.w3.org/2000/xmlns < http://www.w3.org/2000/xmlns0000000000000001 < http://www.w3.org/2000/xmlns0000000000000001^
http://www.w3.org/2001/XMLSchema-datatypes0000000000000003 < http://www.w3.org/2001/XMLSchema-datatypes0000000000000004 < ^^
http://www.w3.org/XML/1998/namespace0000000000000004 < http://www.w3.org/XML/1998/namespace0000000000000005 < ^^";

#[test]
fn uris_like_short_texts_are_told_apart(rt: HostRuntime) {
    for uris in ALIKE.split('\n') {
        keep_their_order(&rt, uris);
    }
}

/// Characters of one byte to four, in their order.
const CHARACTERS: &str = "z é ê ā € ₭ ℀ ～ 😀 😁 🚀";

/// Adds a URI behind others.
fn add(rt: &impl Abort, uris: &mut String, uri: &str) {
    if !uris.is_empty() {
        push(rt, uris, " < ");
    }
    push(rt, uris, uri);
}

/// URIs in their order, each with another character between two texts.
fn around(rt: &(impl Abort + AllocGlobal), before: &str, behind: &str) -> String {
    let mut uris = owned(rt, "");
    for character in CHARACTERS.split(' ') {
        let uri = format!(in rt.alloc(); "{before}{character}{behind}");
        add(rt, &mut uris, expect_text(rt, uri).as_str());
    }
    uris
}

/// URIs that differ in the character behind a text keep their order, whatever follows it.
fn characters_keep_their_order(rt: &(impl Abort + AllocGlobal), before: &str) {
    for behind in ["", "0", "é", "^"] {
        keep_their_order(rt, around(rt, before, behind).as_str());
    }
}

/// Texts behind which a character of several bytes ends at 64 bytes, or around them.
const BEFORE: [&str; 7] = ["^", "^0", "^01", "^012", "^0123", "^01234", "^012345"];

#[test]
fn characters_at_the_cut_keep_their_order(rt: HostRuntime) {
    for before in BEFORE {
        characters_keep_their_order(&rt, before);
    }
}

/// So many URIs in their order, which differ in their numbers between two texts.
fn numbered(rt: &(impl Abort + AllocGlobal), before: &str, count: usize, behind: &str) -> String {
    let mut uris = owned(rt, "");
    for number in 0..count {
        let uri = format!(in rt.alloc(); "{before}{number:03}{behind}");
        add(rt, &mut uris, expect_text(rt, uri).as_str());
    }
    uris
}

#[test]
fn many_uris_keep_their_order(rt: HostRuntime) {
    keep_their_order(&rt, numbered(&rt, "^01234", 260, "").as_str());
}

/// The text of a set's grammar with short texts in the place of its long URIs.
fn short_text(rt: &(impl Abort + AllocGlobal), set: &ModuleSet) -> String {
    let short = assemble_short(rt.alloc(), set).expect(rt, "no grammar");
    let normal = normalise(rt.alloc(), &short.grammar).expect(rt, "no memory");
    print(rt.alloc(), &normal).expect(rt, "no text")
}

/// The declarations of a set's grammar have few bytes while it is put together.
fn are_short(rt: &(impl Abort + AllocGlobal), uris: &str) {
    let text = lengthened(rt, schema(rt, "p", "p", uris).as_str());
    let short = short_text(rt, &written_set(rt, text.as_str()));
    for line in short.as_str().split('\n') {
        holds(rt, line.len() < 110 || line.starts_with("start"), line);
    }
}

#[test]
fn long_uris_are_shortened(rt: HostRuntime) {
    for before in BEFORE {
        are_short(&rt, around(&rt, before, "^").as_str());
    }
    are_short(&rt, numbered(&rt, "^01234", 260, "^").as_str());
    are_short(&rt, "^^aaaaaaaaaaaaaaae < ^^aaaaaaaaaaaaaaaf");
}

/// How URIs begin that are drawn.
const FRONTS: [&str; 7] = [
    "",
    "^",
    "^0123",
    "^01234",
    "^01234aaaaaaaaaaaaaaa",
    "http://www.w3.org/XML/1998/namespace",
    "http://www.w3.org/2001/XMLSchema-datatypes",
];

/// What the URIs that are drawn are made of behind their fronts.
const PIECES: [&str; 10] = ["0", "1", "e", "g", "i", "é", "ê", "€", "😀", "^"];

/// A URI.
fn draw_uri(rt: &(impl Abort + AllocGlobal), draw: &mut Draw) -> String {
    let mut uri = owned(rt, FRONTS[draw.below(7) as usize]);
    for _ in 0..draw.below(5) {
        push(rt, &mut uri, PIECES[draw.below(10) as usize]);
    }
    uri
}

/// Patterns, each with a prefix between two texts.
const PATTERNS: [(&str, &str); 8] = [
    ("element ", ":x { empty }"),
    ("element ", ":* { text }"),
    ("element * - ", ":* { text }"),
    ("element x | ", ":y { empty }"),
    ("attribute ", ":k { text }"),
    ("", ":string"),
    ("", ":string \"v\""),
    ("string - ", ":string \"v\""),
];

/// Declarations of so many prefixes, each for a namespace and for a library, and of a default namespace.
fn draw_declarations(rt: &(impl Abort + AllocGlobal), draw: &mut Draw, count: u64) -> String {
    let own = draw_uri(rt, draw);
    let mut text = expect_text(rt, format!(in rt.alloc(); "default namespace = \"{own}\""));
    for number in 0..count {
        let uri = draw_uri(rt, draw);
        let library = draw_uri(rt, draw);
        let piece = format!(in rt.alloc();
            " namespace p{number} = \"{uri}\" datatypes p{number} = \"{library}\""
        );
        push(rt, &mut text, expect_text(rt, piece).as_str());
    }
    text
}

/// A choice of so many patterns, one with each prefix.
fn draw_patterns(rt: &(impl Abort + AllocGlobal), draw: &mut Draw, count: u64) -> String {
    let mut text = owned(rt, "empty");
    for number in 0..count {
        let (before, behind) = PATTERNS[draw.below(8) as usize];
        let piece = format!(in rt.alloc(); " | {before}p{number}{behind}");
        push(rt, &mut text, expect_text(rt, piece).as_str());
    }
    text
}

/// A choice of so many names, one with each prefix.
fn draw_names(rt: &(impl Abort + AllocGlobal), draw: &mut Draw, count: u64) -> String {
    let mut text = owned(rt, "r");
    for number in 0..count {
        let local = if draw.below(3) == 0 { "*" } else { "a" };
        let piece = format!(in rt.alloc(); " | p{number}:{local}");
        push(rt, &mut text, expect_text(rt, piece).as_str());
    }
    text
}

/// A module of one to six prefixes, which includes another one.
fn draw_module(rt: &(impl Abort + AllocGlobal), draw: &mut Draw) -> String {
    let count = draw.below(6).saturating_add(1);
    let declarations = draw_declarations(rt, draw, count);
    let names = draw_names(rt, draw, count);
    let patterns = draw_patterns(rt, draw, count);
    expect_text(
        rt,
        format!(in rt.alloc();
            "{declarations} include \"lib\" start |= element {names} {{ {patterns} }}"
        ),
    )
}

/// A set of so many modules, and of one that all of them include.
fn draw_set(rt: &(impl Abort + AllocGlobal), draw: &mut Draw, count: usize) -> String {
    let mut set = owned(rt, "@lib\nstart |= element l { text }");
    for number in 0..count {
        let module = draw_module(rt, draw);
        let piece = format!(in rt.alloc(); "\n@m{number}\n{module}");
        push(rt, &mut set, expect_text(rt, piece).as_str());
    }
    lengthened(rt, set.as_str())
}

#[test]
fn drawn_sets_are_printed(rt: HostRuntime) {
    let mut draw = Draw::new();
    for number in 0..300 {
        let text = draw_set(&rt, &mut draw, 1 + number % 3);
        let set = written_set(&rt, text.as_str());
        prints_in_each_store(&rt, &set);
        prints_again(&rt, &set);
    }
}
