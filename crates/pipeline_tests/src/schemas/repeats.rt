// Modules that are included several times, drawn: a set merges to the same as where each include has a module of its own, with the same text. There no two
// components have the same body.
use crate::shared::comparing::{expect_text, same_for};
use crate::shared::drawing::Draw;
use crate::shared::given_texts::{owned, push, written_set};
use crate::shared::merges::{answer, prints_in_each_store};
use std::process::Abort;

/// What a module may define: `n` is worth notAllowed, and `m` empty.
const COMPONENTS: [&str; 14] = [
    "start |= element r { x }",
    "start |= element s { y, x }",
    "start |= n",
    "x |= element a { text }",
    "x |= element a { y } | (element b { x? } | m)",
    "x |= y",
    "x |= m",
    "x |= n, element a { empty }",
    "y &= element c { x? }",
    "y &= element c { text } & (element d { empty } & m)",
    "y &= m",
    "y &= empty",
    "y &= z",
    "z |= list { \"v\" }+ | m",
];

/// What is defined beside the includes.
const DRIVER: &str = "start |= element t { x, y } x |= n y &= m z |= n m = empty n = notAllowed";

/// How often the module is included.
const TIMES: usize = 3;

/// A module of so many components.
fn draw_module(rt: &(impl Abort + AllocGlobal), draw: &mut Draw, count: usize) -> String {
    let mut text = owned(rt, "");
    for _ in 0..count {
        push(rt, &mut text, COMPONENTS[draw.below(14) as usize]);
        push(rt, &mut text, "\n");
    }
    text
}

/// The driver with its includes, and one module with the text.
fn set_of_one(rt: &(impl Abort + AllocGlobal), text: &str) -> String {
    let mut set = expect_text(rt, format!(in rt.alloc(); "@main\n{DRIVER}"));
    for _ in 0..TIMES {
        push(rt, &mut set, " include \"lib\"");
    }
    push(
        rt,
        &mut set,
        expect_text(rt, format!(in rt.alloc(); "\n@lib\n{text}")).as_str(),
    );
    set
}

/// A set whose driver includes as many modules, each with the text.
fn set_of_many(rt: &(impl Abort + AllocGlobal), text: &str) -> String {
    let mut driver = expect_text(rt, format!(in rt.alloc(); "@main\n{DRIVER}"));
    let mut modules = owned(rt, "");
    for i in 0..TIMES {
        push(
            rt,
            &mut driver,
            expect_text(rt, format!(in rt.alloc(); " include \"lib{i}\"")).as_str(),
        );
        push(
            rt,
            &mut modules,
            expect_text(rt, format!(in rt.alloc(); "\n@lib{i}\n{text}")).as_str(),
        );
    }
    expect_text(rt, format!(in rt.alloc(); "{driver}{modules}"))
}

#[test]
fn bodies_that_stand_before_are_as_if_written_anew(rt: HostRuntime) {
    let mut draw = Draw::new();
    for i in 0..60 {
        let text = draw_module(&rt, &mut draw, 1 + i % 6);
        let one = set_of_one(&rt, text.as_str());
        let many = set_of_many(&rt, text.as_str());
        let found = answer(&rt, &written_set(&rt, one.as_str()));
        let wanted = answer(&rt, &written_set(&rt, many.as_str()));
        same_for(&rt, text.as_str(), found.as_str(), wanted.as_str());
        prints_in_each_store(&rt, &written_set(&rt, one.as_str()));
    }
}
