// The XML text of a module without includes (RELAX NG 2001, 3; compact syntax, appendix A).
ghost use Rattle.std.specs.Prelude.{◌≡◌, [], IfErr, IfOk, length, nat_eq, string_bytes};
ghost use Rattle.rn_syntax.specs.Tree as tree;
ghost use Rattle.rn_syntax.specs.View.{item_view, items_view, module_view, pattern_view};
ghost use Rattle.rn_rng.specs.Layout.{items_text};
ghost use Rattle.rn_rng.specs.Translation.{combine_attributes, item_xml, items_xml};
ghost use Rattle.rn_rng.specs.Written.{IsUnwritten, IsWritten};
ghost use Rattle.rn_rng.specs.inside.Views.{given, optional_view};
ghost use Rattle.rn_rng.specs.inside.Writes.{Writes};

use crate::element_context::ElementContext;
use crate::lines::{Writer, deeper};
use crate::namespaces::Namespaces;
use crate::pattern_xml::write_pattern;
use crate::tag::{Attribute, Tag};
use crate::xml_fault::XmlFault;
use rn_syntax::{Item, Method, Module, Operator, Pat, includes};
use std::alloc::{AllocError, Global};

/// What is written before the first item.
const HEAD: &str =
    "<?xml version=\"1.0\" encoding=\"UTF-8\"?>\n<grammar xmlns=\"http://relaxng.org/ns/structure/1.0\" datatypeLibrary=\"http://www.w3.org/2001/XMLSchema-datatypes\">\n";

/// What is written after the last item.
const END: &str = "</grammar>\n";

/// The XML text of a module that inherits no namespace. `NoSchema` where the module includes another; `TooLarge` where
/// the text would have more than [`crate::MAX_XML`] bytes.
pub fn module_xml(alloc: Global, module: &Module<'_>) -> Result<String, XmlFault>
    ensures ok { IfOk result (λ text. IsWritten (module_view «module».now) (string_bytes text)) }
    ensures err { IfErr result (IsUnwritten (module_view «module».now)) }
{
    if !is_flat(alloc, module)? {
        return Err(XmlFault::NoSchema);
    }
    let namespaces = Namespaces::new(alloc, &module.decls)?;
    let mut writer = Writer::new(alloc);
    writer.put(HEAD);
    write_items(&mut writer, &namespaces, deeper(0), &module.items);
    writer.put(END);
    writer.finish()
}

/// Whether a module includes no other.
fn is_flat(alloc: Global, module: &Module<'_>) -> Result<bool, AllocError>
    ensures { IfOk result (λ flat. flat
        ≡ nat_eq (length (tree.includes (module_view «module».now).items)) 0) }
{
    Ok(includes(alloc, module)?.is_empty())
}

/// How a definition is combined with others of its name, as an attribute.
fn combine(method: Method) -> Option<Attribute<'static>>
    ensures { optional_view result ≡ combine_attributes method }
{
    match method {
        Method::Plain => None,
        Method::Choice => Some(Attribute::new("combine", "choice")),
        Method::Interleave => Some(Attribute::new("combine", "interleave")),
    }
}

/// Writes items one after the other.
#[cycle(items)]
fn write_items(
    writer: &mut Writer,
    namespaces: &Namespaces<'_, '_>,
    level: usize,
    items: &[Item<'_>],
)
    ensures { tree.includes (items_view items.now) ≡ [] → Writes (items_text level
        (items_xml (given namespaces.now) (items_view items.now))) writer.old writer.new }
{
    for item in items {
        write_item(writer, namespaces, level, item);
    }
}

/// Writes an item; nothing for an include, which no module has that is written.
#[cycle(items)]
fn write_item(writer: &mut Writer, namespaces: &Namespaces<'_, '_>, level: usize, item: &Item<'_>)
    ensures { tree.item_includes (item_view item.now) ≡ [] → Writes (items_text level
        (item_xml (given namespaces.now) (item_view item.now))) writer.old writer.new }
{
    match item {
        Item::Define { name, method, body } => {
            write_definition(writer, namespaces, level, name, *method, body);
        }
        Item::Start { method, body } => write_start(writer, namespaces, level, *method, body),
        Item::Div(items) => write_div(writer, namespaces, level, items),
        Item::Include(_) => {}
    }
}

/// Writes a div.
#[cycle(items)]
fn write_div(writer: &mut Writer, namespaces: &Namespaces<'_, '_>, level: usize, items: &[Item<'_>])
    ensures { tree.includes (items_view items.now) ≡ [] → Writes (items_text level
        (item_xml (given namespaces.now) (tree.div (items_view items.now))))
        writer.old writer.new }
{
    if items.is_empty() {
        writer.empty_bare(level, "div");
    } else {
        writer.open_bare(level, "div");
        write_items(writer, namespaces, deeper(level), items);
        writer.close(level, "div");
    }
}

/// Writes a definition: its pattern needs no group around it. Does nothing once the writer has stopped.
fn write_definition(
    writer: &mut Writer,
    namespaces: &Namespaces<'_, '_>,
    level: usize,
    name: &str,
    method: Method,
    body: &Pat<'_>,
)
    ensures { Writes (items_text level (item_xml (given namespaces.now)
        (tree.define name.now method (pattern_view body.now)))) writer.old writer.new }
{
    if writer.stopped.is_some() {
        return;
    }
    let tag = Tag {
        element: "define",
        first: Some(Attribute::new("name", name)),
        second: combine(method),
    };
    writer.open(level, &tag);
    let inside = ElementContext::at(deeper(level)).wrapped(Operator::Comma);
    write_pattern(writer, namespaces, inside, body);
    writer.close(level, "define");
}

/// Writes a start, which is one pattern.
fn write_start(
    writer: &mut Writer,
    namespaces: &Namespaces<'_, '_>,
    level: usize,
    method: Method,
    body: &Pat<'_>,
)
    ensures { Writes (items_text level (item_xml (given namespaces.now)
        (tree.start method (pattern_view body.now)))) writer.old writer.new }
{
    let tag = Tag {
        element: "start",
        first: combine(method),
        second: None,
    };
    writer.open(level, &tag);
    write_pattern(writer, namespaces, ElementContext::at(deeper(level)), body);
    writer.close(level, "start");
}
