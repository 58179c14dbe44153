// The order of name classes and of patterns.
use crate::pattern_parts::token_value;
use crate::samples::name;
use rn_pattern::{Data, NameClass, Named, Pattern, SmallString};
use std::alloc::{AllocError, Global};
use std::cmp::Ordering;
use std::process::Abort;
use std::rc::RcStr;

/// The name `a` of a namespace, as an except.
fn except(alloc: Global, uri: &str) -> Result<Option<Box<NameClass>>, AllocError> {
    Ok(Some(Box::new(alloc, name(alloc, uri, "a")?)?))
}

/// Name classes in their order, of the numbers 0 to 7.
fn numbered_class(alloc: Global, number: usize) -> Result<NameClass, AllocError> {
    Ok(match number {
        0 => NameClass::AnyName(None),
        1 => NameClass::AnyName(except(alloc, "")?),
        2 => NameClass::NsName(RcStr::from_str(alloc, "u")?, None),
        3 => NameClass::NsName(RcStr::from_str(alloc, "u")?, except(alloc, "u")?),
        4 => NameClass::NsName(RcStr::from_str(alloc, "v")?, None),
        5 => name(alloc, "a", "c")?,
        6 => name(alloc, "b", "b")?,
        _ => NameClass::Choice(Vec::new(alloc)),
    })
}

/// How the name classes of two numbers stand to each other.
fn ordered_classes(alloc: Global, one: usize, other: usize) -> Result<Ordering, AllocError> {
    Ok(numbered_class(alloc, one)?.cmp(&numbered_class(alloc, other)?))
}

/// The name class of a number stands to each other as the numbers do.
fn class_is_ordered(rt: &(impl Abort + AllocGlobal), one: usize) {
    for other in 0..8usize {
        let order = ordered_classes(rt.alloc(), one, other).expect(rt, "no memory");
        assert!(rt; order == one.cmp(&other), "name classes have their order");
    }
}

#[test]
fn name_classes_are_ordered(rt: HostRuntime) {
    for number in 0..8usize {
        class_is_ordered(&rt, number);
    }
}

/// A pattern in its box.
fn boxed(alloc: Global, pattern: Pattern) -> Result<Box<Pattern>, AllocError> {
    Ok(Box::new(alloc, pattern)?)
}

/// Data of the type `token`.
fn datum(alloc: Global, except: Option<Box<Pattern>>) -> Result<Pattern, AllocError> {
    let data = Data {
        library: RcStr::from_str(alloc, "")?,
        type_name: String::from_str(alloc, "token")?,
        params: Vec::new(alloc),
    };
    Ok(Pattern::Datum(Box::new(alloc, data)?, except))
}

/// An attribute `a` of a text.
fn attribute(alloc: Global) -> Result<Pattern, AllocError> {
    let class = name(alloc, "", "a")?;
    let content = Pattern::Text;
    Ok(Pattern::Attribute(Box::new(alloc, Named { class, content })?))
}

/// An element of this name, with its content.
fn element(alloc: Global, local: &str, content: Pattern) -> Result<Pattern, AllocError> {
    let class = name(alloc, "", local)?;
    Ok(Pattern::Element(Box::new(alloc, Named { class, content })?))
}

/// Patterns in their order, of the numbers 0 to 16.
pub fn numbered_pattern(alloc: Global, number: usize) -> Result<Pattern, AllocError> {
    Ok(match number {
        0 => Pattern::NotAllowed,
        1 => Pattern::Empty,
        2 => Pattern::Text,
        3 => Pattern::Ref(SmallString::from_str(alloc, "a")?),
        4 => Pattern::Ref(SmallString::from_str(alloc, "b")?),
        5 => Pattern::Value(Box::new(alloc, token_value(alloc)?)?),
        6 => datum(alloc, None)?,
        7 => datum(alloc, Some(boxed(alloc, Pattern::Empty)?))?,
        8 => Pattern::List(boxed(alloc, Pattern::Text)?),
        9 => attribute(alloc)?,
        10 => element(alloc, "a", Pattern::Empty)?,
        11 => element(alloc, "a", Pattern::Text)?,
        12 => element(alloc, "b", Pattern::Empty)?,
        13 => Pattern::OneOrMore(boxed(alloc, Pattern::Text)?),
        14 => Pattern::Group(Vec::new(alloc)),
        15 => Pattern::Interleave(Vec::new(alloc)),
        _ => Pattern::Choice(Vec::new(alloc)),
    })
}

/// How the patterns of two numbers stand to each other.
fn ordered_patterns(alloc: Global, one: usize, other: usize) -> Result<Ordering, AllocError> {
    let one = boxed(alloc, numbered_pattern(alloc, one)?)?;
    let other = boxed(alloc, numbered_pattern(alloc, other)?)?;
    Ok(one.cmp(&other))
}

/// The pattern of a number stands to each other as the numbers do.
fn pattern_is_ordered(rt: &(impl Abort + AllocGlobal), one: usize) {
    for other in 0..17usize {
        let order = ordered_patterns(rt.alloc(), one, other).expect(rt, "no memory");
        assert!(rt; order == one.cmp(&other), "patterns have their order");
    }
}

#[test]
fn patterns_are_ordered(rt: HostRuntime) {
    for number in 0..17usize {
        pattern_is_ordered(&rt, number);
    }
}
