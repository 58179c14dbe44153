// Name classes as XML elements (RELAX NG 2001, 3, nameClass).
ghost use Rattle.std.specs.Prelude.{◌≡◌, ◌≢◌, [], codes, MatchOption};
ghost use Rattle.rn_syntax.specs.Tree as tree;
ghost use Rattle.rn_syntax.specs.View.{any_view, class_view, classes_view};
ghost use Rattle.rn_rng.specs.Layout.{item_text};
ghost use Rattle.rn_rng.specs.Translation as translation;
ghost use Rattle.rn_rng.specs.Translation.{any_attributes, any_inside, any_local, class_xml, except_element, name_local, name_uri, ns_attributes, qualified, text_items};
ghost use Rattle.rn_rng.specs.inside.Views.{class_at, classes_at, given, optional_view, tag_attributes, uri_of};
ghost use Rattle.rn_rng.specs.inside.Writes.{Writes};

use crate::element_context::ElementContext;
use crate::lines::Writer;
use crate::namespaces::{Namespaces, QualifiedName, UriSource};
use crate::tag::{Attribute, Tag};
use rn_syntax::{AnyName, Nc, Operator};

/// The name that a class is, if it is one; without a prefix it is in the namespace `own`.
pub(crate) fn one_name<'c>(
    namespaces: &Namespaces<'_, '_>,
    own: UriSource,
    class: &'c Nc<'_>,
) -> Option<QualifiedName<'c>>
    ensures { MatchOption result ((n : tree.Name) → class_view class.now ≢ tree.name n)
        (λ q. (n : tree.Name) × (class_view class.now ≡ tree.name n)
        × (uri_of namespaces.now q.namespace
        ≡ name_uri (given namespaces.now) (uri_of namespaces.now own) n)
        × (q.local.now ≡ name_local n)) }
{
    match class {
        Nc::Local(local) => Some(QualifiedName {
            namespace: own,
            local,
        }),
        Nc::Prefixed(name) => Some(QualifiedName {
            namespace: namespaces.namespace(name.prefix.name),
            local: name.local,
        }),
        Nc::All(_) | Nc::AllBut(_, _) | Nc::Choice(_) => None,
    }
}

/// Writes the line of a name.
fn write_name(
    writer: &mut Writer,
    namespaces: &Namespaces<'_, '_>,
    context: ElementContext,
    namespace: UriSource,
    local: &str,
)
    ensures { let uri = uri_of namespaces.now namespace in
        Writes (item_text context.level (translation.element (codes "name")
        (ns_attributes (uri_of namespaces.now context.namespace) uri)
        (text_items (qualified uri local.now)))) writer.old writer.new }
{
    let tag = Tag {
        element: "name",
        first: namespaces.ns_attribute(context.namespace, namespace),
        second: None,
    };
    writer.line(context.level, &tag, namespaces.prefix_of(namespace), local);
}

/// The element of all names, or of all of a namespace.
fn any_element(any: &AnyName<'_>) -> &'static str
    ensures { result.now ≡ any_local (any_view any.now) }
{
    match any {
        AnyName::Any => "anyName",
        AnyName::AnyOf(_) => "nsName",
    }
}

/// The attribute of all names of a namespace.
fn any_attribute<'t>(namespaces: &'t Namespaces<'_, '_>, any: &AnyName<'_>) -> Option<Attribute<'t>>
    ensures { optional_view result ≡ any_attributes (given namespaces.now) (any_view any.now) }
{
    match any {
        AnyName::Any => None,
        AnyName::AnyOf(prefix) => {
            let namespace = namespaces.namespace(prefix.name);
            Some(Attribute::new("ns", namespaces.uri(namespace)))
        }
    }
}

/// The tag of all names, or of all of a namespace.
fn any_tag<'t>(namespaces: &'t Namespaces<'_, '_>, any: &AnyName<'_>) -> Tag<'t>
    ensures element { result.element.now ≡ any_local (any_view any.now) }
    ensures attributes { tag_attributes result
        ≡ any_attributes (given namespaces.now) (any_view any.now) }
{
    Tag {
        element: any_element(any),
        first: any_attribute(namespaces, any),
        second: None,
    }
}

/// The nearest `ns` in the element of all names, or of all of a namespace.
fn namespace_inside(
    namespaces: &Namespaces<'_, '_>,
    around: UriSource,
    any: &AnyName<'_>,
) -> UriSource
    ensures { uri_of namespaces.now result ≡ any_inside (given namespaces.now)
        (uri_of namespaces.now around) (any_view any.now) }
{
    match any {
        AnyName::Any => around,
        AnyName::AnyOf(prefix) => namespaces.namespace(prefix.name),
    }
}

/// Writes a name class, whose names without prefix are in the namespace `own`. Does nothing once the writer has
/// stopped.
#[cycle(class)]
pub(crate) fn write_class(
    writer: &mut Writer,
    namespaces: &Namespaces<'_, '_>,
    context: ElementContext,
    own: UriSource,
    class: &Nc<'_>,
)
    ensures { Writes (class_at namespaces.now context own (class_view class.now))
        writer.old writer.new }
{
    if writer.stopped.is_some() {
        return;
    }
    match class {
        Nc::Local(local) => write_name(writer, namespaces, context, own, local),
        Nc::Prefixed(name) => {
            let namespace = namespaces.namespace(name.prefix.name);
            write_name(writer, namespaces, context, namespace, name.local);
        }
        Nc::All(any) => writer.empty(context.level, &any_tag(namespaces, any)),
        Nc::AllBut(any, except) => {
            writer.open(context.level, &any_tag(namespaces, any));
            let namespace = namespace_inside(namespaces, context.namespace, any);
            write_except(
                writer,
                namespaces,
                context.inside().under(namespace),
                own,
                except,
            );
            writer.close(context.level, any_element(any));
        }
        Nc::Choice(members) => write_choice(writer, namespaces, context, own, members),
    }
}

/// Writes an except: its children need no choice around them.
#[cycle(class)]
fn write_except(
    writer: &mut Writer,
    namespaces: &Namespaces<'_, '_>,
    context: ElementContext,
    own: UriSource,
    except: &Nc<'_>,
)
    ensures { Writes (item_text context.level (except_element (class_xml (given namespaces.now)
        (uri_of namespaces.now context.namespace) (uri_of namespaces.now own)
        (class_view except.now)))) writer.old writer.new }
{
    writer.open_bare(context.level, "except");
    let inside = context.inside().wrapped(Operator::Bar);
    write_class(writer, namespaces, inside, own, except);
    writer.close(context.level, "except");
}

/// Writes a choice: its members alone where they are in one already.
#[cycle(class)]
fn write_choice(
    writer: &mut Writer,
    namespaces: &Namespaces<'_, '_>,
    context: ElementContext,
    own: UriSource,
    members: &[Nc<'_>],
)
    ensures { Writes (class_at namespaces.now context own (tree.choice (classes_view members.now)))
        writer.old writer.new }
{
    if members.is_empty() {
        writer.empty_bare(context.level, "choice");
    } else if context.is_in(Operator::Bar) {
        write_classes(writer, namespaces, context.alone(), own, members);
    } else {
        writer.open_bare(context.level, "choice");
        write_classes(writer, namespaces, context.inside(), own, members);
        writer.close(context.level, "choice");
    }
}

/// Writes name classes one after the other.
#[cycle(class)]
fn write_classes(
    writer: &mut Writer,
    namespaces: &Namespaces<'_, '_>,
    context: ElementContext,
    own: UriSource,
    classes: &[Nc<'_>],
)
    ensures { Writes (classes_at namespaces.now context own classes.now) writer.old writer.new }
{
    for class in classes {
        write_class(writer, namespaces, context, own, class);
    }
}
