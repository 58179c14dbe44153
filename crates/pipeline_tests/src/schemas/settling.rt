// Orders in which definitions can be settled, of grammars that are drawn: each has exactly the definitions that the start reaches, each once, and behind
// those that it refers to outside elements. Both are looked up here in the plainest way.
use crate::shared::comparing::expect_text;
use crate::shared::drawing::Draw;
use crate::shared::given_texts::{owned, push, written_set};
use rn_assemble::{Grammar, assemble};
use rn_pattern::Pattern;
use std::process::Abort;
use std::rc::Rc;

/// How many names a set defines, n0, n1 and so on.
const NAMES: u64 = 7;

/// How many sets are drawn.
const SETS: usize = 400;

/// A body that refers to two names, or to one or to none of them.
fn draw_body(rt: &(impl Abort + AllocGlobal), draw: &mut Draw) -> String {
    let (a, b) = (draw.below(NAMES), draw.below(NAMES));
    let text = match draw.below(9) {
        0 => format!(in rt.alloc(); "n{a}"),
        1 => format!(in rt.alloc(); "n{a} | empty"),
        2 => format!(in rt.alloc(); "element e {{ n{a} }}, n{b}"),
        3 => format!(in rt.alloc(); "attribute c {{ text }}, element e {{ n{a}, n{b} }}"),
        4 => format!(in rt.alloc(); "element e {{ n{a} }} & element f {{ n{b} }}"),
        5 => format!(in rt.alloc(); "list {{ n{a}+ }}"),
        6 => format!(in rt.alloc(); "mixed {{ element e {{ n{a}? }} }}"),
        7 => format!(in rt.alloc(); "xsd:string - (\"x\" | \"y\")"),
        _ => format!(in rt.alloc(); "text"),
    };
    expect_text(rt, text)
}

/// A set of one module.
fn draw_set(rt: &(impl Abort + AllocGlobal), draw: &mut Draw) -> String {
    let mut set = owned(rt, "@a\nstart = ");
    push(rt, &mut set, draw_body(rt, draw).as_str());
    for i in 0..NAMES {
        let body = draw_body(rt, draw);
        let text = expect_text(rt, format!(in rt.alloc(); "\nn{i} = {body}"));
        push(rt, &mut set, text.as_str());
    }
    set
}

/// Whether a pattern refers to a name. The contents of elements are looked into if that is asked for.
#[cycle(refers)]
fn refers(pattern: &Pattern, name: &str, in_elements: bool) -> bool {
    match pattern {
        Pattern::Ref(other) => other.as_str() == name,
        Pattern::Element(named) => in_elements && refers(&named.content, name, in_elements),
        Pattern::Attribute(named) => refers(&named.content, name, in_elements),
        Pattern::List(content) | Pattern::OneOrMore(content) | Pattern::Datum(_, Some(content)) =>
            refers(content, name, in_elements),
        Pattern::Group(members) | Pattern::Interleave(members) | Pattern::Choice(members) => {
            any_refers(members, name, in_elements)
        }
        Pattern::NotAllowed
        | Pattern::Empty
        | Pattern::Text
        | Pattern::Value(_)
        | Pattern::Datum(_, None) => false,
    }
}

/// Whether one of the patterns refers to a name.
#[cycle(refers)]
fn any_refers(patterns: &[Rc<Pattern>], name: &str, in_elements: bool) -> bool {
    let mut found = false;
    for pattern in patterns {
        found = refers(pattern, name, in_elements) || found;
    }
    found
}

/// Marks the definitions that a pattern refers to.
fn mark_referred(grammar: &Grammar, pattern: &Pattern, marks: &mut Vec<bool>) {
    for (number, (name, _)) in grammar.defs().iter().enumerate() {
        if let Some(mark) = marks.get_mut(number) {
            *mark = *mark || refers(pattern, name.as_str(), true);
        }
    }
}

/// Marks the definitions that marked ones refer to.
fn mark_more(grammar: &Grammar, marks: &mut Vec<bool>) {
    for number in 0..grammar.defs().len() {
        if marks.get(number).copied() == Some(true) {
            if let Some((_, body)) = grammar.defs().get_index(number) {
                mark_referred(grammar, body, marks);
            }
        }
    }
}

/// For each definition, whether the start reaches it.
fn reached(rt: &(impl Abort + AllocGlobal), grammar: &Grammar) -> Vec<bool> {
    let mut marks = vec![in rt.alloc(); false; grammar.defs().len()].expect(rt, "no memory");
    mark_referred(grammar, grammar.start(), &mut marks);
    for _ in 0..grammar.defs().len() {
        mark_more(grammar, &mut marks);
    }
    marks
}

/// How often a number is in the order.
fn count_of(order: &[usize], number: usize) -> usize {
    order.iter().filter(|other| **other == number).count()
}

/// The order has each definition that is marked once, and no other.
fn has_marked(rt: &impl Abort, order: &[usize], marks: &[bool], given: &str) {
    for (number, mark) in marks.iter().enumerate() {
        let wanted = if *mark { 1 } else { 0 };
        assert_eq!(rt; count_of(order, number), wanted, "{number} of {given}");
    }
}

/// A body refers outside elements only to definitions with numbers among these.
fn refers_to_earlier(rt: &impl Abort, grammar: &Grammar, body: &Pattern, earlier: &[usize]) {
    for (number, (name, _)) in grammar.defs().iter().enumerate() {
        if refers(body, name.as_str(), false) {
            assert_eq!(rt; count_of(earlier, number), 1, "{name}");
        }
    }
}

/// Each definition in the order is behind those that it refers to outside elements.
fn is_in_order(rt: &impl Abort, grammar: &Grammar) {
    let order = grammar.settling_order();
    for (place, number) in order.iter().enumerate() {
        if let Some((_, body)) = grammar.defs().get_index(*number) {
            let earlier = order.get(..place).unwrap_or(&[]);
            refers_to_earlier(rt, grammar, body, earlier);
        }
    }
}

#[test]
fn definitions_stand_behind_those_that_they_refer_to(rt: HostRuntime) {
    let mut draw = Draw::new();
    let mut grammars: usize = 0;
    for _ in 0..SETS {
        let given = draw_set(&rt, &mut draw);
        if let Ok(grammar) = assemble(rt.alloc(), &written_set(&rt, given.as_str())) {
            let marks = reached(&rt, &grammar);
            has_marked(&rt, grammar.settling_order(), &marks, given.as_str());
            is_in_order(&rt, &grammar);
            grammars = grammars.saturating_add(1);
        }
    }
    assert!(&rt; grammars > SETS / 10, "{grammars} grammars");
}
