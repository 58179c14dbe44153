// Patterns in one line: names with their URIs in braces, lists in parentheses.
use rn_pattern::{Data, NameClass, Pattern};
use std::alloc::AllocError;
use std::rc::Rc;

/// Adds words to a line.
pub fn write_words(out: &mut String, words: &[&str]) -> Result<(), AllocError> {
    for word in words {
        out.push_str(word)?;
    }
    Ok(())
}

fn write_class(out: &mut String, class: &NameClass) -> Result<(), AllocError> {
    match class {
        NameClass::AnyName(None) => out.push_str("*"),
        NameClass::AnyName(Some(except)) => {
            out.push_str("*-")?;
            write_class(out, except)
        }
        NameClass::NsName(uri, None) => write_words(out, &["{", uri, "}*"]),
        NameClass::NsName(uri, Some(except)) => {
            write_words(out, &["{", uri, "}*-"])?;
            write_class(out, except)
        }
        NameClass::Name(uri, local) if uri.is_empty() => out.push_str(local.as_str()),
        NameClass::Name(uri, local) => write_words(out, &["{", uri, "}", local.as_str()]),
        NameClass::Choice(classes) => {
            out.push_str("(")?;
            for class in classes {
                write_class(out, class)?;
                out.push_str("|")?;
            }
            out.push_str(")")
        }
    }
}

fn write_data(out: &mut String, data: &Data) -> Result<(), AllocError> {
    write_words(out, &["<", &data.library, ">", &data.type_name])?;
    for param in &data.params {
        write_words(out, &["[", &param.0, "=", &param.1, "]"])?;
    }
    Ok(())
}

fn write_between(out: &mut String, at: usize, between: &str) -> Result<(), AllocError> {
    if at > 0 {
        out.push_str(between)?;
    }
    Ok(())
}

/// A pattern between two texts.
#[cycle(write_pattern)]
fn write_within(
    out: &mut String,
    before: &str,
    pattern: &Pattern,
    behind: &str,
) -> Result<(), AllocError> {
    out.push_str(before)?;
    write_pattern(out, pattern)?;
    out.push_str(behind)
}

/// The members of a list in parentheses.
#[cycle(write_pattern)]
fn write_members(
    out: &mut String,
    members: &[Rc<Pattern>],
    between: &str,
) -> Result<(), AllocError> {
    out.push_str("(")?;
    for (i, member) in members.iter().enumerate() {
        write_between(out, i, between)?;
        write_pattern(out, member)?;
    }
    out.push_str(")")
}

/// Adds a pattern to a line.
#[cycle(write_pattern)]
pub fn write_pattern(out: &mut String, pattern: &Pattern) -> Result<(), AllocError> {
    match pattern {
        Pattern::NotAllowed => out.push_str("notAllowed"),
        Pattern::Empty => out.push_str("empty"),
        Pattern::Text => out.push_str("text"),
        Pattern::Ref(name) => out.push_str(name.as_str()),
        Pattern::Value(value) => write_words(
            out,
            &[
                "<",
                &value.library,
                ">",
                &value.type_name,
                "'",
                &value.text,
                "'",
            ],
        ),
        Pattern::Datum(data, None) => write_data(out, data),
        Pattern::Datum(data, Some(except)) => {
            write_data(out, data)?;
            write_within(out, "-", except, "")
        }
        Pattern::List(body) => write_within(out, "list{", body, "}"),
        Pattern::Attribute(named) => {
            out.push_str("@")?;
            write_class(out, &named.class)?;
            write_within(out, "{", &named.content, "}")
        }
        Pattern::Element(named) => {
            write_class(out, &named.class)?;
            write_within(out, "{", &named.content, "}")
        }
        Pattern::OneOrMore(body) => write_within(out, "{", body, "}+"),
        Pattern::Group(members) => write_members(out, members, ","),
        Pattern::Interleave(members) => write_members(out, members, "&"),
        Pattern::Choice(members) => write_members(out, members, "|"),
    }
}
