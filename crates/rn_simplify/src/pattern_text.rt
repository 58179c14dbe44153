// The text of a pattern (compact syntax, section 2, pattern).
ghost use Rattle.std.specs.Prelude.{◌≡◌, ℕ, ◌<◌, ◌≤◌, drop, length, ◌∷◌, [], List, Some, codes, bytes_eq, chars, ◌&&◌, ◌++◌, MatchOption};
ghost use Rattle.rn_text.specs.Parts.{Piece};
ghost use Rattle.rn_simplify.specs.Spelling.{in_braces, chain, mixed_pieces, infix_of, keyword, operand, optional, optional_member, params_pieces, in_parentheses, primary, space, written_choice, written_interleave, written_name, written_tree};
ghost use Rattle.rn_pattern.specs.View.{name_class_view, parameters_view, pattern_view};
ghost use Rattle.rn_simplify.specs.inside.Writes.{bytes_of, data_text, depth_after, prefixes_view, written_members, value_text, Writes};

use crate::class_text::write_class;
use crate::declared_prefixes::Prefixes;
use crate::shapes::{Shape, begins_with_empty, begins_with_text, shape_of_pattern};
use crate::writer::Writer;
use rn_pattern::{Data, NameClass, Pattern, Value};
use std::rc::Rc;

/// Writes a pattern, without parentheses round the whole.
#[cycle(pattern)]
pub(crate) fn write_pattern(writer: &mut Writer, prefixes: &Prefixes, pattern: &Pattern)
    ensures { Writes (written_tree (prefixes_view prefixes.now)
        (pattern_view pattern.now)).pieces writer.old writer.new }
{
    if writer.stopped.is_some() {
        return;
    }
    match pattern {
        Pattern::NotAllowed => writer.put("notAllowed"),
        Pattern::Empty => writer.put("empty"),
        Pattern::Text => writer.put("text"),
        Pattern::Ref(name) => writer.put_identifier(name.as_str()),
        Pattern::Value(value) => write_value(writer, prefixes, value),
        Pattern::Datum(data, except) => {
            write_data(writer, prefixes, data);
            write_except(writer, prefixes, except);
        }
        Pattern::List(content) => {
            writer.put("list");
            write_in_braces(writer, prefixes, content);
        }
        Pattern::Attribute(named) => {
            write_head(writer, prefixes, "attribute", &named.class);
            write_in_braces(writer, prefixes, &named.content);
        }
        Pattern::Element(named) => {
            write_head(writer, prefixes, "element", &named.class);
            write_in_braces(writer, prefixes, &named.content);
        }
        Pattern::OneOrMore(content) => {
            write_primary(writer, prefixes, content);
            writer.put("+");
        }
        Pattern::Group(members) => write_chain(writer, prefixes, members, 0, ", "),
        Pattern::Interleave(members) => write_interleave(writer, prefixes, members),
        Pattern::Choice(members) => write_choice(writer, prefixes, members),
    }
}

/// Writes the except of a datatype, if it has one, after a minus sign.
#[cycle(pattern)]
fn write_except(writer: &mut Writer, prefixes: &Prefixes, except: &Option<Box<Pattern>>)
    ensures { MatchOption except.now (Writes [] writer.old writer.new)
        (λ p. Writes (infix_of (codes "-")
        ++ primary (written_tree (prefixes_view prefixes.now)
        (pattern_view p.value))) writer.old writer.new) }
{
    if let Some(except) = except {
        writer.put(" - ");
        write_primary(writer, prefixes, except);
    }
}

/// Writes a pattern in braces.
#[cycle(pattern)]
#[inline(always)]
fn write_in_braces(writer: &mut Writer, prefixes: &Prefixes, content: &Pattern)
    ensures { Writes (in_braces (written_tree (prefixes_view prefixes.now)
        (pattern_view content.now)).pieces) writer.old writer.new }
{
    writer.open_bracket(" { ");
    write_pattern(writer, prefixes, content);
    writer.close_bracket(" }");
}

/// Writes a pattern between `,`, `&` or `|`. Does nothing once the writer has stopped.
#[cycle(pattern)]
fn write_operand(writer: &mut Writer, prefixes: &Prefixes, pattern: &Pattern)
    ensures { Writes (operand (written_tree (prefixes_view prefixes.now)
        (pattern_view pattern.now))) writer.old writer.new }
{
    if writer.stopped.is_some() {
        return;
    }
    match shape_of_pattern(pattern) {
        Shape::Chained => write_in_parentheses(writer, prefixes, pattern),
        _ => write_pattern(writer, prefixes, pattern),
    }
}

/// Writes a pattern in parentheses.
#[cycle(pattern)]
fn write_in_parentheses(writer: &mut Writer, prefixes: &Prefixes, pattern: &Pattern)
    ensures { Writes (in_parentheses
        (written_tree (prefixes_view prefixes.now)
        (pattern_view pattern.now)).pieces) writer.old writer.new }
{
    writer.open_bracket("(");
    write_pattern(writer, prefixes, pattern);
    writer.close_bracket(")");
}

/// Writes a pattern before a postfix or after a minus sign.
#[cycle(pattern)]
fn write_primary(writer: &mut Writer, prefixes: &Prefixes, pattern: &Pattern)
    ensures { Writes (primary (written_tree (prefixes_view prefixes.now)
        (pattern_view pattern.now))) writer.old writer.new }
{
    match shape_of_pattern(pattern) {
        Shape::Closed => write_pattern(writer, prefixes, pattern),
        _ => write_in_parentheses(writer, prefixes, pattern),
    }
}

/// Writes the members from one on, with the connector between them.
#[cycle(pattern)]
fn write_chain(
    writer: &mut Writer,
    prefixes: &Prefixes,
    members: &[Rc<Pattern>],
    first: usize,
    connector: &str,
)
    requires { first ≤ length members.now }
    ensures { (s : List Piece) → bytes_of s ≡ connector.now → ((n : ℕ) → depth_after s n ≡ Some n)
        → Writes (chain s (written_members (prefixes_view prefixes.now)
        (drop first members.now))) writer.old writer.new }
{
    for i in first..members.len() {
        if i > first {
            writer.put(connector);
        }
        write_operand(writer, prefixes, &members[i]);
    }
}

/// Writes an interleave, which is mixed if its first member is text.
#[cycle(pattern)]
fn write_interleave(writer: &mut Writer, prefixes: &Prefixes, members: &[Rc<Pattern>])
    ensures { Writes (written_interleave
        (written_members (prefixes_view prefixes.now) members.now)).pieces writer.old writer.new }
{
    if members.is_empty() {
        writer.put("empty");
    } else if begins_with_text(members) {
        writer.put("mixed");
        writer.open_bracket(" { ");
        write_mixed(writer, prefixes, members);
        writer.close_bracket(" }");
    } else {
        write_chain(writer, prefixes, members, 0, " & ");
    }
}

/// Writes what is mixed with the first member: one pattern as itself, several as operands.
#[cycle(pattern)]
fn write_mixed(writer: &mut Writer, prefixes: &Prefixes, members: &[Rc<Pattern>])
    requires { 0 < length members.now }
    ensures { Writes (mixed_pieces (infix_of (codes "&"))
        (written_members (prefixes_view prefixes.now) (drop 1 members.now))) writer.old writer.new }
{
    if members.len() == 2 {
        write_pattern(writer, prefixes, &members[1]);
    } else {
        write_chain(writer, prefixes, members, 1, " & ");
    }
}

/// Writes a choice, which has a postfix if its first member is `empty`.
#[cycle(pattern)]
fn write_choice(writer: &mut Writer, prefixes: &Prefixes, members: &[Rc<Pattern>])
    ensures { Writes (written_choice
        (written_members (prefixes_view prefixes.now) members.now)).pieces writer.old writer.new }
{
    if members.is_empty() {
        writer.put("notAllowed");
    } else if begins_with_empty(members) {
        write_optional(writer, prefixes, members);
    } else {
        write_chain(writer, prefixes, members, 0, " | ");
    }
}

/// Writes the choice of empty, which is the first member, and the others.
#[cycle(pattern)]
fn write_optional(writer: &mut Writer, prefixes: &Prefixes, members: &[Rc<Pattern>])
    requires { 0 < length members.now }
    ensures { Writes (optional (written_members (prefixes_view prefixes.now)
        (drop 1 members.now))) writer.old writer.new }
{
    if members.len() == 1 {
        writer.put("empty");
    } else if members.len() == 2 {
        write_optional_member(writer, prefixes, &members[1]);
    } else {
        writer.open_bracket("(");
        write_chain(writer, prefixes, members, 1, " | ");
        writer.close_bracket(")");
        writer.put("?");
    }
}

/// Writes the choice of empty and one other pattern.
#[cycle(pattern)]
fn write_optional_member(writer: &mut Writer, prefixes: &Prefixes, other: &Pattern)
    ensures { let w = written_tree (prefixes_view prefixes.now) (pattern_view other.now) in
        Writes (optional_member w.repeated w) writer.old writer.new }
{
    if let Pattern::OneOrMore(content) = other {
        write_primary(writer, prefixes, content);
        writer.put("*");
    } else {
        write_primary(writer, prefixes, other);
        writer.put("?");
    }
}

/// Writes the keyword and the name class of an element or an attribute.
#[inline(always)]
fn write_head(writer: &mut Writer, prefixes: &Prefixes, word: &str, class: &NameClass)
    ensures { Writes (keyword (chars word.now) ∷ space ∷
        (written_name (prefixes_view prefixes.now)
        (name_class_view class.now)).pieces) writer.old writer.new }
{
    writer.put(word);
    writer.put(" ");
    write_class(writer, prefixes, class);
}

/// Whether the datatype is the built-in token, whose values are written as their literals alone.
fn is_token(library: &str, type_name: &str) -> bool
    ensures { result ≡ (bytes_eq library.now [] && bytes_eq type_name.now (codes "token")) }
{
    library.is_empty() && type_name == "token"
}

/// Writes a value.
fn write_value(writer: &mut Writer, prefixes: &Prefixes, value: &Value)
    ensures { Writes (value_text (prefixes_view prefixes.now) value.now) writer.old writer.new }
{
    if is_token(&value.library, &value.type_name) {
        writer.put_literal(&value.text);
    } else {
        prefixes.write_type(writer, &value.library, &value.type_name);
        writer.put(" ");
        writer.put_literal(&value.text);
    }
}

/// Writes a datatype and its parameters.
fn write_data(writer: &mut Writer, prefixes: &Prefixes, data: &Data)
    ensures { Writes (data_text (prefixes_view prefixes.now) «data».now) writer.old writer.new }
{
    prefixes.write_type(writer, &data.library, &data.type_name);
    if !data.params.is_empty() {
        writer.open_bracket(" { ");
        write_params(writer, &data.params);
        writer.close_bracket(" }");
    }
}

/// Writes parameters with a space between them.
fn write_params(writer: &mut Writer, params: &[(String, String)])
    ensures { Writes (params_pieces (parameters_view params.now)) writer.old writer.new }
{
    for (i, (name, text)) in params.iter().enumerate() {
        if i > 0 {
            writer.put(" ");
        }
        writer.put(name);
        writer.put(" = ");
        writer.put_literal(text);
    }
}
