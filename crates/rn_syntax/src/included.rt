// The modules that a module includes.
ghost use Rattle.std.specs.Prelude.{◌≡◌, ◌++◌, IfOk};
ghost use Rattle.rn_syntax.specs.Tree as tree;
ghost use Rattle.rn_syntax.specs.View.{item_view, items_view, module_view, texts_view};

use crate::tree::{Item, Module};
use std::alloc::{AllocError, Global};

/// The literals of a module's includes (RELAX NG Compact Syntax, 2, include), in the order of the text. Refused
/// only where memory is.
pub fn includes<'m>(alloc: Global, module: &'m Module<'_>) -> Result<Vec<&'m str>, AllocError>
    ensures { IfOk result (λ found. texts_view found.items ≡ tree.includes
        (module_view «module».now).items) }
{
    let mut found = Vec::new(alloc);
    push_includes(&module.items, &mut found)?;
    Ok(found)
}

/// Appends the literals of the includes among the items.
#[cycle(includes)]
fn push_includes<'m>(items: &'m [Item<'_>], found: &mut Vec<&'m str>) -> Result<(), AllocError>
    ensures { IfOk result (λ _. texts_view found.new.items
        ≡ texts_view found.old.items ++ tree.includes (items_view items.now)) }
{
    'items: for item in items {
        push_item_includes(item, found)?;
    }
    Ok(())
}

/// Appends the literals of the includes that an item is or holds.
#[cycle(includes)]
fn push_item_includes<'m>(item: &'m Item<'_>, found: &mut Vec<&'m str>) -> Result<(), AllocError>
    ensures { IfOk result (λ _. texts_view found.new.items
        ≡ texts_view found.old.items ++ tree.item_includes (item_view item.now)) }
{
    match item {
        Item::Define { .. } | Item::Start { .. } => Ok(()),
        Item::Div(items) => push_includes(items, found),
        Item::Include(include) => {
            found.push(include.wanted.as_str())?;
            push_includes(&include.items, found)
        }
    }
}
