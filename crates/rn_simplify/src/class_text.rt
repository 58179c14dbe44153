// The text of a name class (compact syntax, section 2, nameClass).
ghost use Rattle.std.specs.Prelude.{◌∷◌, [], codes, map};
ghost use Rattle.rn_pattern.specs.Tree.{name_trees_of};
ghost use Rattle.rn_simplify.specs.Spelling.{any_of, chain, infix_of, name_piece, namespace_prefix, operand, written_name, written_names};
ghost use Rattle.rn_pattern.specs.View.{name_class_view};
ghost use Rattle.rn_simplify.specs.inside.Writes.{prefixes_view, Writes};

use crate::declared_prefixes::Prefixes;
use crate::shapes::{Shape, shape_of_class};
use crate::writer::Writer;
use rn_pattern::NameClass;

/// Writes a name class, without parentheses round the whole.
#[cycle(name_class)]
pub(crate) fn write_class(writer: &mut Writer, prefixes: &Prefixes, class: &NameClass)
    ensures { Writes (written_name (prefixes_view prefixes.now)
        (name_class_view class.now)).pieces writer.old writer.new }
{
    match class {
        NameClass::AnyName(None) => writer.put("*"),
        NameClass::AnyName(Some(except)) => {
            writer.put("* - ");
            write_class_operand(writer, prefixes, except);
        }
        NameClass::NsName(uri, None) => write_ns_name(writer, prefixes, uri),
        NameClass::NsName(uri, Some(except)) => {
            write_ns_name(writer, prefixes, uri);
            writer.put(" - ");
            write_class_operand(writer, prefixes, except);
        }
        NameClass::Name(uri, local) => write_name(writer, prefixes, uri, local.as_str()),
        NameClass::Choice(members) => write_class_choice(writer, prefixes, members),
    }
}

/// Writes the members of a choice, with `|` between them.
#[cycle(name_class)]
fn write_class_choice(writer: &mut Writer, prefixes: &Prefixes, members: &[NameClass])
    ensures { Writes (chain (infix_of (codes "|"))
        (written_names (prefixes_view prefixes.now)
        (name_trees_of (map name_class_view members.now)))) writer.old writer.new }
{
    for (i, member) in members.iter().enumerate() {
        if i > 0 {
            writer.put(" | ");
        }
        write_class_operand(writer, prefixes, member);
    }
}

/// Writes a name class as an operand: an except or a choice in parentheses.
#[cycle(name_class)]
fn write_class_operand(writer: &mut Writer, prefixes: &Prefixes, class: &NameClass)
    ensures { Writes (operand (written_name (prefixes_view prefixes.now)
        (name_class_view class.now))) writer.old writer.new }
{
    match shape_of_class(class) {
        Shape::Chained => {
            writer.open_bracket("(");
            write_class(writer, prefixes, class);
            writer.close_bracket(")");
        }
        _ => write_class(writer, prefixes, class),
    }
}

/// Writes an nsName: every name of a namespace.
fn write_ns_name(writer: &mut Writer, prefixes: &Prefixes, uri: &str)
    ensures { Writes (any_of (namespace_prefix
        (prefixes_view prefixes.now) uri.now) ∷ []) writer.old writer.new }
{
    prefixes.write_namespace(writer, uri);
    writer.put(":*");
}

/// Writes a name: alone in the empty namespace, else after a prefix.
#[inline(always)]
fn write_name(writer: &mut Writer, prefixes: &Prefixes, uri: &str, local: &str)
    ensures { Writes (name_piece (prefixes_view prefixes.now) uri.now local.now ∷ [])
        writer.old writer.new }
{
    if !uri.is_empty() {
        prefixes.write_namespace(writer, uri);
        writer.put(":");
    }
    writer.put(local);
}
