// Patterns as XML elements (RELAX NG 2001, 3, pattern).
ghost use Rattle.std.specs.Prelude.{◌≡◌, ◌++◌, [], ◌∷◌, Some, codes};
ghost use Rattle.std.specs.Prelude as prelude;
ghost use Rattle.rn_pattern.specs.Document as document;
ghost use Rattle.rn_syntax.specs.Tree as tree;
ghost use Rattle.rn_syntax.specs.View.{class_view, pattern_view, patterns_view, datatype_view, params_view};
ghost use Rattle.rn_syntax.specs.declared.tree.Operator.TheVariants.{Comma};
ghost use Rattle.rn_rng.specs.Layout as layout;
ghost use Rattle.rn_rng.specs.Layout.{item_text, items_text, tag_front};
ghost use Rattle.rn_rng.specs.Translation as translation;
ghost use Rattle.rn_rng.specs.Translation.{attribute, class_attributes, class_inside, class_items, except_element, grouped, name_attributes, ns_inside, operator_local, pattern_xml, repetition_local};
ghost use Rattle.rn_rng.specs.inside.Views.{given, pattern_at, patterns_at, tag_attributes, uri_of};
ghost use Rattle.rn_rng.specs.inside.Writes.{Writes};

use crate::class_xml::{one_name, write_class};
use crate::data_xml::{open_data, write_data, write_value};
use crate::element_context::ElementContext;
use crate::lines::Writer;
use crate::namespaces::{Namespaces, QualifiedName, UriSource};
use crate::tag::{Attribute, Tag};
use rn_syntax::{Data, Named, Nc, Operator, Pat, Postfix};

/// The element that a postfix is.
fn repetition(postfix: Postfix) -> &'static str
    ensures { result.now ≡ repetition_local postfix }
{
    match postfix {
        Postfix::Question => "optional",
        Postfix::Star => "zeroOrMore",
        Postfix::Plus => "oneOrMore",
    }
}

/// The element that an operator is.
fn connector(operator: Operator) -> &'static str
    ensures { result.now ≡ operator_local operator }
{
    match operator {
        Operator::Comma => "group",
        Operator::Ampersand => "interleave",
        Operator::Bar => "choice",
    }
}

/// Whether the pattern is any text.
fn is_text(pattern: &Pat<'_>) -> bool
    ensures { result ≡ translation.is_text (pattern_view pattern.now) }
{
    matches!(pattern, Pat::Text)
}

/// The tag of an element with a name as its attribute, where the name would take this namespace without `ns`.
fn named_tag<'t>(
    namespaces: &'t Namespaces<'_, '_>,
    element: &'t str,
    taken: UriSource,
    name: QualifiedName<'t>,
) -> Tag<'t>
    ensures element { result.element.now ≡ element.now }
    ensures attributes { tag_attributes result ≡ name_attributes (uri_of namespaces.now taken)
        (uri_of namespaces.now name.entry.namespace) name.entry.local.now }
{
    Tag {
        element,
        first: Some(Attribute {
            name: "name",
            prefix: namespaces.prefix_of(name.namespace),
            value: name.local,
        }),
        second: namespaces.ns_attribute(taken, name.namespace),
    }
}

/// The nearest `ns` in an element with a name as its attribute, which would take this namespace without its own `ns`.
fn namespace_inside(
    namespaces: &Namespaces<'_, '_>,
    around: UriSource,
    taken: UriSource,
    namespace: UriSource,
) -> UriSource
    ensures { uri_of namespaces.now result ≡ ns_inside (uri_of namespaces.now around)
        (uri_of namespaces.now taken) (uri_of namespaces.now namespace) }
{
    if namespaces.needs_ns(taken, namespace) {
        namespace
    } else {
        around
    }
}

/// Writes the start tag of an element, with one name as its attribute, any other class after it, and answers the context
/// after that. A name without prefix is in the namespace `own`; without `ns` a name would be in `taken`.
fn open_head(
    writer: &mut Writer,
    namespaces: &Namespaces<'_, '_>,
    context: ElementContext,
    element: &str,
    taken: UriSource,
    own: UriSource,
    class: &Nc<'_>,
) -> ElementContext
    ensures written { Writes (tag_front context.level element.now
        (class_attributes (given namespaces.now) (uri_of namespaces.now taken)
        (uri_of namespaces.now own) (class_view class.now))
        ++ (codes ">\n" ++ items_text (layout.deeper context.level)
        (class_items (given namespaces.now) (uri_of namespaces.now context.namespace)
        (uri_of namespaces.now own) (class_view class.now)))) writer.old writer.new }
    ensures namespace { uri_of namespaces.now result.namespace ≡ class_inside (given namespaces.now)
        (uri_of namespaces.now context.namespace) (uri_of namespaces.now taken)
        (uri_of namespaces.now own) (class_view class.now) }
    ensures level { result.level ≡ layout.deeper context.level }
    ensures alone { result.wrapper ≡ prelude.None }
    ensures library { result.library ≡ context.library }
{
    match one_name(namespaces, own, class) {
        Some(name) => {
            writer.open(
                context.level,
                &named_tag(&*namespaces, &*element, taken, name),
            );
            let namespace = namespace_inside(namespaces, context.namespace, taken, name.namespace);
            context.inside().under(namespace)
        }
        None => {
            writer.open_bare(context.level, element);
            write_class(writer, namespaces, context.inside(), own, class);
            context.inside()
        }
    }
}

/// Writes an attribute of any text.
#[inline(never)]
fn write_text_attribute(
    writer: &mut Writer,
    namespaces: &Namespaces<'_, '_>,
    context: ElementContext,
    class: &Nc<'_>,
)
    ensures { Writes (item_text context.level (translation.element (codes "attribute")
        (class_attributes (given namespaces.now) [] [] (class_view class.now))
        (class_items (given namespaces.now) (uri_of namespaces.now context.namespace) []
        (class_view class.now)))) writer.old writer.new }
{
    let own = UriSource::Empty;
    match one_name(namespaces, own, class) {
        Some(name) => {
            writer.empty(
                context.level,
                &named_tag(&*namespaces, "attribute", own, name),
            );
        }
        None => {
            writer.open_bare(context.level, "attribute");
            write_class(writer, namespaces, context.inside(), own, class);
            writer.close(context.level, "attribute");
        }
    }
}

/// Writes a reference.
#[inline(never)]
fn write_ref(writer: &mut Writer, level: usize, name: &str)
    ensures { Writes (item_text level (translation.element (codes "ref")
        (attribute (codes "name") name.now ∷ []) document.no_items)) writer.old writer.new }
{
    writer.empty(level, &Tag::with("ref", Attribute::new("name", name)));
}

/// Writes an element without attributes and content.
fn write_empty(writer: &mut Writer, level: usize, element: &str)
    requires { layout.holds_text element.now ≡ prelude.false }
    ensures { Writes (item_text level (translation.element element.now [] document.no_items))
        writer.old writer.new }
{
    writer.empty_bare(level, element);
}

/// Writes a pattern. Does nothing once the writer has stopped.
#[cycle(pattern)]
pub(crate) fn write_pattern(
    writer: &mut Writer,
    namespaces: &Namespaces<'_, '_>,
    context: ElementContext,
    pattern: &Pat<'_>,
)
    ensures { Writes (pattern_at namespaces.now context (pattern_view pattern.now))
        writer.old writer.new }
{
    if writer.stopped.is_some() {
        return;
    }
    match pattern {
        Pat::Element(named) => write_element(writer, namespaces, context, named),
        Pat::Attribute(named) => write_attribute(writer, namespaces, context, named),
        Pat::List(content) => write_around(writer, namespaces, context, "list", content),
        Pat::Mixed(content) => write_around(writer, namespaces, context, "mixed", content),
        Pat::Empty => write_empty(writer, context.level, "empty"),
        Pat::NotAllowed => write_empty(writer, context.level, "notAllowed"),
        Pat::Text => write_empty(writer, context.level, "text"),
        Pat::Ref(name) => write_ref(writer, context.level, name),
        Pat::Value(value) => write_value(writer, namespaces, context, value),
        Pat::Datum(data) => write_data(writer, namespaces, context, data),
        Pat::DatumBut(data, _, except) => write_data_but(writer, namespaces, context, data, except),
        Pat::Repeated(postfix, content) => {
            write_around(writer, namespaces, context, repetition(*postfix), content);
        }
        Pat::Chain(operator, members) => {
            write_chain(writer, namespaces, context, *operator, members);
        }
    }
}

/// Writes an element: its content needs no group around it. A name without prefix is in the default namespace.
#[cycle(pattern)]
fn write_element(
    writer: &mut Writer,
    namespaces: &Namespaces<'_, '_>,
    context: ElementContext,
    named: &Named<'_>,
)
    ensures { Writes (item_text context.level (pattern_xml (given namespaces.now)
        (uri_of namespaces.now context.namespace) (uri_of namespaces.now context.library)
        (tree.element (class_view named.now.class) (pattern_view named.now.content))))
        writer.old writer.new }
{
    let own = namespaces.default_namespace();
    let taken = context.namespace;
    let inside = open_head(
        writer,
        namespaces,
        context,
        "element",
        taken,
        own,
        &named.class,
    );
    let inside = inside.wrapped(Operator::Comma);
    write_pattern(writer, namespaces, inside, &named.content);
    writer.close(context.level, "element");
}

/// Writes an attribute; a name without prefix is in no namespace, and any text is left out (RELAX NG 2001, 4.12).
#[cycle(pattern)]
fn write_attribute(
    writer: &mut Writer,
    namespaces: &Namespaces<'_, '_>,
    context: ElementContext,
    named: &Named<'_>,
)
    ensures { Writes (item_text context.level (pattern_xml (given namespaces.now)
        (uri_of namespaces.now context.namespace) (uri_of namespaces.now context.library)
        (tree.attribute (class_view named.now.class) (pattern_view named.now.content))))
        writer.old writer.new }
{
    if is_text(&named.content) {
        write_text_attribute(writer, namespaces, context, &named.class);
        return;
    }
    let none = UriSource::Empty;
    let inside = open_head(
        writer,
        namespaces,
        context,
        "attribute",
        none,
        none,
        &named.class,
    );
    write_pattern(writer, namespaces, inside, &named.content);
    writer.close(context.level, "attribute");
}

/// Writes an element of this name round a pattern that is in a group already.
#[cycle(pattern)]
fn write_around(
    writer: &mut Writer,
    namespaces: &Namespaces<'_, '_>,
    context: ElementContext,
    element: &str,
    content: &Pat<'_>,
)
    requires { layout.holds_text element.now ≡ prelude.false }
    ensures { Writes (item_text context.level (translation.element element.now []
        (grouped (pattern_xml (given namespaces.now) (uri_of namespaces.now context.namespace)
        (uri_of namespaces.now context.library) (pattern_view content.now)))))
        writer.old writer.new }
{
    writer.open_bare(context.level, element);
    let inside = context.inside().wrapped(Operator::Comma);
    write_pattern(writer, namespaces, inside, content);
    writer.close(context.level, element);
}

/// Writes a group, an interleave or a choice: its members alone where they are in one already.
#[cycle(pattern)]
fn write_chain(
    writer: &mut Writer,
    namespaces: &Namespaces<'_, '_>,
    context: ElementContext,
    operator: Operator,
    members: &[Pat<'_>],
)
    ensures { Writes (pattern_at namespaces.now context
        (tree.chain operator (patterns_view members.now))) writer.old writer.new }
{
    let element = connector(operator);
    if members.is_empty() {
        writer.empty_bare(context.level, element);
    } else if context.is_in(operator) {
        write_patterns(writer, namespaces, context.alone(), members);
    } else {
        writer.open_bare(context.level, element);
        write_patterns(writer, namespaces, context.inside(), members);
        writer.close(context.level, element);
    }
}

/// Writes patterns one after the other.
#[cycle(pattern)]
fn write_patterns(
    writer: &mut Writer,
    namespaces: &Namespaces<'_, '_>,
    context: ElementContext,
    patterns: &[Pat<'_>],
)
    ensures { Writes (patterns_at namespaces.now context patterns.now) writer.old writer.new }
{
    for pattern in patterns {
        write_pattern(writer, namespaces, context, pattern);
    }
}

/// Writes data with an except.
#[cycle(pattern)]
fn write_data_but(
    writer: &mut Writer,
    namespaces: &Namespaces<'_, '_>,
    context: ElementContext,
    data: &Data<'_>,
    except: &Pat<'_>,
)
    ensures { (i : prelude.ℕ) → Writes (item_text context.level (pattern_xml (given namespaces.now)
        (uri_of namespaces.now context.namespace) (uri_of namespaces.now context.library)
        (tree.datum_but (datatype_view «data».now.datatype)
        (params_view «data».now.params.items) i (pattern_view except.now))))
        writer.old writer.new }
{
    open_data(writer, namespaces, context, data);
    let library = namespaces.library(&data.datatype);
    write_except(
        writer,
        namespaces,
        context.inside().with_library(library),
        except,
    );
    writer.close(context.level, "data");
}

/// Writes an except: its children need no choice around them.
#[cycle(pattern)]
fn write_except(
    writer: &mut Writer,
    namespaces: &Namespaces<'_, '_>,
    context: ElementContext,
    except: &Pat<'_>,
)
    ensures { Writes (item_text context.level (except_element (pattern_xml (given namespaces.now)
        (uri_of namespaces.now context.namespace) (uri_of namespaces.now context.library)
        (pattern_view except.now)))) writer.old writer.new }
{
    writer.open_bare(context.level, "except");
    let inside = context.inside().wrapped(Operator::Bar);
    write_pattern(writer, namespaces, inside, except);
    writer.close(context.level, "except");
}
