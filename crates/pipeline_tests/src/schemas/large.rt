// Sets and texts at their limits, and long lists and chains.
use crate::shared::comparing::{expect_text, holds, same, same_count};
use crate::shared::given_texts::{owned, push, repeated, written_set};
use crate::shared::merges::{
    FIRST_LINE, answer, answer_of_text, merged, prints_again, prints_in_each_store,
};
use core_tests::samples::module;
use rn_modset::ModuleSet;
use std::process::Abort;

/// Adds a module of revision 1.
fn add_text(rt: &(impl Abort + AllocGlobal), set: &mut ModuleSet, name: &str, text: &str) {
    let module = module(rt.alloc(), name, 1, text.as_bytes()).expect(rt, "no memory");
    holds(rt, set.add(module).is_ok(), name);
}

/// The name of a module by its number.
fn numbered(rt: &(impl Abort + AllocGlobal), number: usize) -> String {
    expect_text(rt, format!(in rt.alloc(); "c{number:03}"))
}

/// Adds a module of revision 1 that is named by its number.
fn add_numbered(rt: &(impl Abort + AllocGlobal), set: &mut ModuleSet, number: usize, text: &str) {
    add_text(rt, set, numbered(rt, number).as_str(), text);
}

/// The text of the module m`number`, which includes m`next` twice. The first one has the start.
fn including(rt: &(impl Abort + AllocGlobal), number: usize, next: usize) -> String {
    let start = if number == 0 {
        "start = element r { y }"
    } else {
        ""
    };
    expect_text(
        rt,
        format!(in rt.alloc(); "include \"m{next}\" include \"m{next}\" {start}"),
    )
}

/// Adds a module of revision 1, m`number`.
fn add_short(rt: &(impl Abort + AllocGlobal), set: &mut ModuleSet, number: usize, text: &str) {
    let name = expect_text(rt, format!(in rt.alloc(); "m{number}"));
    add_text(rt, set, name.as_str(), text);
}

/// Modules m0 to m`last`, each but the last including the next twice; the last one defines y.
fn doubling(rt: &(impl Abort + AllocGlobal), last: usize) -> ModuleSet {
    let mut set = ModuleSet::new(rt.alloc());
    for number in 0..last {
        let text = including(rt, number, number + 1);
        add_short(rt, &mut set, number, text.as_str());
    }
    add_short(rt, &mut set, last, "y |= text");
    set
}

/// Modules c000 to c`last`, each including the next; the last one defines the start.
fn tower(rt: &(impl Abort + AllocGlobal), last: usize) -> ModuleSet {
    let mut set = ModuleSet::new(rt.alloc());
    for number in 0..last {
        let next = number + 1;
        let text = expect_text(rt, format!(in rt.alloc(); "include \"c{next:03}\""));
        add_numbered(rt, &mut set, number, text.as_str());
    }
    add_numbered(rt, &mut set, last, "start = text");
    set
}

/// A set has this answer.
fn answers(rt: &(impl Abort + AllocGlobal), set: &ModuleSet, wanted: &str) {
    same(rt, answer(rt, set).as_str(), wanted);
}

#[test]
fn instances_are_counted(rt: HostRuntime) {
    let schema = "start = element r { y }\ny = text\n";
    answers(&rt, &doubling(&rt, 8), schema);
    answers(&rt, &doubling(&rt, 9), "Instances");
    answers(&rt, &doubling(&rt, 40), "Instances");
    answers(&rt, &tower(&rt, 511), "start = text\n");
    answers(&rt, &tower(&rt, 512), "Instances");
}

/// A text has this answer.
fn text_answers(rt: &(impl Abort + AllocGlobal), text: &str, wanted: &str) {
    same(rt, answer_of_text(rt, text).as_str(), wanted);
}

#[test]
fn parentheses_leave_nothing(rt: HostRuntime) {
    let open = repeated(&rt, "start = ", "(", 256, "text");
    let text = repeated(&rt, open.as_str(), ")", 256, "");
    text_answers(&rt, text.as_str(), "start = text\n");
}

#[test]
fn parentheses_are_not_too_deep(rt: HostRuntime) {
    let open = repeated(&rt, "start = ", "(", 257, "text");
    let text = repeated(&rt, open.as_str(), ")", 257, "");
    text_answers(&rt, text.as_str(), "Deep a");
}

#[test]
fn the_text_has_a_longest_length(rt: HostRuntime) {
    let fits = repeated(&rt, "start = element ", "n", 4_194_255, " { text }");
    same_count(&rt, merged(&rt, fits.as_str()).len(), 4_194_304);
    let long = repeated(&rt, "start = element ", "n", 4_194_256, " { text }");
    text_answers(&rt, long.as_str(), "OutputTooLarge");
}

/// A start of elements one inside the other, each but the innermost holding `before` and the next.
fn nested(rt: &(impl Abort + AllocGlobal), count: usize, before: &str, innermost: &str) -> String {
    let mut text = owned(rt, "start = ");
    for number in 0..count {
        if number > 0 {
            push(rt, &mut text, before);
        }
        push(rt, &mut text, "element x { ");
    }
    push(rt, &mut text, innermost);
    repeated(
        rt,
        text.as_str(),
        " }",
        count,
        " a = element a { empty } b = element b { empty } c = element c { empty }",
    )
}

/// Nested elements: how many, what stands before each but the first, and what is in the innermost, one too deep to be printed.
static TOO_DEEP: [(usize, &str, &str); 2] = [
    (256, "", "empty | b | c"),
    (129, "text & ", "text & a"),
];

#[test]
fn deeper_texts_are_refused(rt: HostRuntime) {
    for (count, before, innermost) in &TOO_DEEP {
        let text = nested(&rt, *count, before, innermost);
        text_answers(&rt, text.as_str(), "OutputTooDeep");
    }
}

/// Nested elements as in `TOO_DEEP`, the deepest ones that are printed, with their innermost elements in the text.
static DEEPEST: [(usize, &str, &str, &str); 2] = [
    (255, "", "empty | b | c", "element x { (b | c)? }"),
    (
        128,
        "text & ",
        "text & a",
        "element x { mixed { element x { mixed { a } } } }",
    ),
];

/// The answer for a text holds this.
fn answer_holds(rt: &(impl Abort + AllocGlobal), text: &str, wanted: &str) {
    let found = answer_of_text(rt, text);
    holds(rt, found.as_str().contains(wanted), wanted);
}

#[test]
fn the_text_has_a_deepest_nesting(rt: HostRuntime) {
    for (count, before, innermost, wanted) in &DEEPEST {
        let text = nested(&rt, *count, before, innermost);
        answer_holds(&rt, text.as_str(), wanted);
    }
}

#[test]
fn schemas_at_the_limits_print_themselves_again(rt: HostRuntime) {
    for (count, before, innermost, _) in &DEEPEST {
        let text = nested(&rt, *count, before, innermost);
        prints_again(&rt, &written_set(&rt, text.as_str()));
    }
    prints_again(&rt, &doubling(&rt, 8));
    prints_again(&rt, &tower(&rt, 511));
}

#[test]
fn either_store_prints_schemas_at_the_limits(rt: HostRuntime) {
    for (count, before, innermost, _) in &DEEPEST {
        let text = nested(&rt, *count, before, innermost);
        prints_in_each_store(&rt, &written_set(&rt, text.as_str()));
    }
    prints_in_each_store(&rt, &doubling(&rt, 8));
    prints_in_each_store(&rt, &tower(&rt, 511));
}

/// A schema in its canonical spelling is printed as it is.
fn prints_itself(rt: &(impl Abort + AllocGlobal), text: &str) {
    let printed = merged(rt, text);
    let is_same = printed.as_str().strip_prefix(FIRST_LINE) == Some(text);
    holds(rt, is_same, "the schema is printed as it is");
}

/// The definition of a reference by the next one.
fn link(rt: &(impl Abort + AllocGlobal), number: usize, next: usize) -> String {
    expect_text(rt, format!(in rt.alloc(); "x{number:06} = x{next:06}\n"))
}

#[test]
fn chains_of_references_are_long(rt: HostRuntime) {
    let mut text = owned(&rt, "start = x000000\n");
    for number in 0..99_999 {
        push(&rt, &mut text, link(&rt, number, number + 1).as_str());
    }
    push(&rt, &mut text, "x099999 = text\n");
    prints_itself(&rt, text.as_str());
}

/// A text that holds the numbers from 0 on, so many, each between two texts.
fn counted(
    rt: &(impl Abort + AllocGlobal),
    front: &str,
    before: &str,
    count: usize,
    behind: &str,
) -> String {
    let mut text = owned(rt, front);
    for number in 0..count {
        let piece = expect_text(rt, format!(in rt.alloc(); "{before}{number:06}{behind}"));
        push(rt, &mut text, piece.as_str());
    }
    text
}

/// A schema of an element of as many references, with a separator between two, and of their definitions.
fn listed(rt: &(impl Abort + AllocGlobal), count: usize, separator: &str) -> String {
    let before = expect_text(rt, format!(in rt.alloc(); "{separator}x"));
    let members = counted(rt, "", before.as_str(), count, "");
    let members = members
        .as_str()
        .strip_prefix(separator)
        .expect(rt, "no member");
    let definitions = counted(rt, "", "x", count, " = text\n");
    expect_text(
        rt,
        format!(in rt.alloc(); "start = element r {{ {members} }}\n{definitions}"),
    )
}

#[test]
fn lists_are_long(rt: HostRuntime) {
    for separator in [" | ", " & ", ", "] {
        prints_itself(&rt, listed(&rt, 100_000, separator).as_str());
    }
}

/// A printed schema has one choice, of so many members.
fn has_members(rt: &impl Abort, printed: &str, count: usize) {
    same_count(rt, printed.split(" | ").count(), count);
}

#[test]
fn a_name_is_combined_from_many_definitions(rt: HostRuntime) {
    let text = counted(&rt, "start = x ", "x |= \"", 100_000, "\" ");
    let printed = merged(&rt, text.as_str());
    let printed = printed.as_str();
    let is_first = printed.contains("x = \"000000\" | \"000001\" | \"000002\"");
    holds(&rt, is_first, "the least values come first");
    holds(
        &rt,
        printed.ends_with("| \"099999\"\n"),
        "the greatest value comes last",
    );
    has_members(&rt, printed, 100_000);
}

#[test]
fn a_literal_is_long(rt: HostRuntime) {
    let text = repeated(&rt, "start = element r { \"", "v", 4_194_240, "\" }\n");
    prints_itself(&rt, text.as_str());
}

/// A definition of x by `|=`.
fn definition(rt: &(impl Abort + AllocGlobal), number: usize) -> String {
    expect_text(
        rt,
        format!(in rt.alloc(); "x |= element e{number} {{ empty }} "),
    )
}

/// So many definitions of x by `|=`.
fn combined(rt: &(impl Abort + AllocGlobal), count: usize) -> String {
    let mut text = String::new(rt.alloc());
    for number in 0..count {
        push(rt, &mut text, definition(rt, number).as_str());
    }
    text
}

/// A module that so often includes one of so many definitions, each of them by `|=`.
fn instances(rt: &(impl Abort + AllocGlobal), includes: usize, definitions: usize) -> ModuleSet {
    let front = "start = element r { x } ";
    let main = repeated(rt, front, "include \"lib\" ", includes, "");
    let mut set = ModuleSet::new(rt.alloc());
    add_text(rt, &mut set, "main", main.as_str());
    add_text(rt, &mut set, "lib", combined(rt, definitions).as_str());
    set
}

#[test]
fn ten_million_components_are_combined(rt: HostRuntime) {
    let printed = answer(&rt, &instances(&rt, 511, 20_000));
    let wanted = "x = element e0 { empty } | element e1 { empty } | element e10 { empty }";
    holds(&rt, printed.as_str().contains(wanted), wanted);
    has_members(&rt, printed.as_str(), 20_000);
}

/// The text of a module that overrides the x of the next.
fn override_of(rt: &(impl Abort + AllocGlobal), number: usize, next: usize) -> String {
    expect_text(
        rt,
        format!(in rt.alloc(); "include \"c{next:03}\" {{ x = element e{number} {{ empty }} }}"),
    )
}

/// Modules c000 to c`last`, each but the last overriding the x of the next; the last one defines the start.
fn overriding(rt: &(impl Abort + AllocGlobal), last: usize) -> ModuleSet {
    let mut set = ModuleSet::new(rt.alloc());
    for number in 0..last {
        let text = override_of(rt, number, number + 1);
        add_numbered(rt, &mut set, number, text.as_str());
    }
    add_numbered(rt, &mut set, last, "start = x x = text");
    set
}

#[test]
fn overrides_are_nested(rt: HostRuntime) {
    let schema = "start = x\nx = element e0 { empty }\n";
    answers(&rt, &overriding(&rt, 511), schema);
}
