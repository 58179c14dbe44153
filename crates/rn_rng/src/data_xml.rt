// Datatypes, values and parameters as XML elements (RELAX NG 2001, 3 and 4.3).
ghost use Rattle.std.specs.Prelude.{◌≡◌, ◌++◌, [], List, codes};
ghost use Rattle.std.specs.Cow.{cow_str_bytes};
ghost use Rattle.rn_syntax.specs.Tree as tree;
ghost use Rattle.rn_syntax.specs.View.{datatype_view, param_view, params_view, type_view};
ghost use Rattle.rn_assemble.specs.Resolve as resolve;
ghost use Rattle.rn_rng.specs.Layout as layout;
ghost use Rattle.rn_rng.specs.Layout.{item_text, items_text, tag_front};
ghost use Rattle.rn_rng.specs.Translation as translation;
ghost use Rattle.rn_rng.specs.Translation.{param_element, params_xml, text_items, type_attributes, value_attributes};
ghost use Rattle.rn_rng.specs.inside.Views.{given, tag_attributes, uri_of};
ghost use Rattle.rn_rng.specs.inside.Writes.{Writes};

use crate::element_context::ElementContext;
use crate::lines::Writer;
use crate::namespaces::{Namespaces, UriSource};
use crate::tag::{Attribute, Tag};
use rn_syntax::{Data, Datatype, Param, Value};

/// The local name of a datatype.
fn type_name<'t>(datatype: &'t Datatype<'_>) -> &'t str
    ensures { (ds : List tree.Declaration)
        → result.now ≡ resolve.type_name [] ds (datatype_view datatype.now) }
{
    match datatype {
        Datatype::String(_) => "string",
        Datatype::Token(_) => "token",
        Datatype::Named(_, name) => name,
    }
}

/// The tag of an element with a datatype, which inherits this library.
fn typed_tag<'t>(
    namespaces: &'t Namespaces<'_, '_>,
    taken: UriSource,
    element: &'t str,
    datatype: &'t Datatype<'_>,
) -> Tag<'t>
    ensures element { result.element.now ≡ element.now }
    ensures attributes { tag_attributes result ≡ type_attributes (given namespaces.now)
        (uri_of namespaces.now taken) (datatype_view datatype.now) }
{
    Tag {
        element,
        first: Some(Attribute::new("type", type_name(datatype))),
        second: namespaces.library_attribute(taken, namespaces.library(datatype)),
    }
}

/// The tag of a value; one without a datatype has no attribute.
fn value_tag<'t>(
    namespaces: &'t Namespaces<'_, '_>,
    taken: UriSource,
    datatype: &'t Option<Datatype<'_>>,
) -> Tag<'t>
    ensures element { result.element.now ≡ codes "value" }
    ensures attributes { tag_attributes result ≡ value_attributes (given namespaces.now)
        (uri_of namespaces.now taken) (type_view datatype.now) }
{
    match datatype {
        None => Tag::bare("value"),
        Some(datatype) => typed_tag(namespaces, taken, "value", datatype),
    }
}

/// Writes the line of a value.
#[inline(never)]
pub(crate) fn write_value(
    writer: &mut Writer,
    namespaces: &Namespaces<'_, '_>,
    context: ElementContext,
    value: &Value<'_>,
)
    ensures { Writes (item_text context.level (translation.element (codes "value")
        (value_attributes (given namespaces.now) (uri_of namespaces.now context.library)
        (type_view value.now.datatype)) (text_items (cow_str_bytes value.now.text))))
        writer.old writer.new }
{
    let tag = value_tag(&*namespaces, context.library, &value.datatype);
    writer.line(context.level, &tag, "", value.text.as_str());
}

/// Writes data without an except.
#[inline(never)]
pub(crate) fn write_data(
    writer: &mut Writer,
    namespaces: &Namespaces<'_, '_>,
    context: ElementContext,
    data: &Data<'_>,
)
    ensures { Writes (item_text context.level (translation.element (codes "data")
        (type_attributes (given namespaces.now) (uri_of namespaces.now context.library)
        (datatype_view «data».now.datatype)) (params_xml (params_view «data».now.params.items))))
        writer.old writer.new }
{
    let tag = typed_tag(&*namespaces, context.library, "data", &data.datatype);
    if data.params.is_empty() {
        writer.empty(context.level, &tag);
    } else {
        writer.open(context.level, &tag);
        write_params(writer, context.inside().level, &data.params);
        writer.close(context.level, "data");
    }
}

/// Writes the start tag of data and its parameters.
#[inline(never)]
pub(crate) fn open_data(
    writer: &mut Writer,
    namespaces: &Namespaces<'_, '_>,
    context: ElementContext,
    data: &Data<'_>,
)
    ensures { Writes (tag_front context.level (codes "data")
        (type_attributes (given namespaces.now) (uri_of namespaces.now context.library)
        (datatype_view «data».now.datatype)) ++ (codes ">\n"
        ++ items_text (layout.deeper context.level)
        (params_xml (params_view «data».now.params.items)))) writer.old writer.new }
{
    let tag = typed_tag(&*namespaces, context.library, "data", &data.datatype);
    writer.open(context.level, &tag);
    write_params(writer, context.inside().level, &data.params);
}

/// Writes the lines of parameters.
fn write_params(writer: &mut Writer, level: usize, params: &[Param<'_>])
    ensures { Writes (items_text level (params_xml (params_view params.now)))
        writer.old writer.new }
{
    for param in params {
        write_param(writer, level, param);
    }
}

/// Writes the line of a parameter.
fn write_param(writer: &mut Writer, level: usize, param: &Param<'_>)
    ensures { Writes (item_text level (param_element (param_view param.now)))
        writer.old writer.new }
{
    let tag = Tag::with("param", Attribute::new("name", param.name));
    writer.line(level, &tag, "", param.text.as_str());
}
