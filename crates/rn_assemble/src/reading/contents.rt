// What a module consists of, with each div replaced by its children.
ghost use Rattle.std.specs.Prelude.{◌≡◌, ◌+◌, ◌<◌, ◌≤◌, ◌∷◌, [], Contains, List, length, true, IfOk, Some, slice_get};
ghost use Rattle.std.specs.List.Sorted.{IsStrictlySortedBy};
ghost use Rattle.rn_text.specs.Texts.{text_cmp};
ghost use Rattle.rn_syntax.specs.View.{boxed_view, item_view, items_view, prefix_view};
ghost use Rattle.rn_assemble.specs.Components as components;
ghost use Rattle.rn_assemble.specs.declared.reading.contents.Include as code_include;
ghost use Rattle.rn_assemble.specs.declared.reading.named_modules.NamedModule as code_module;
ghost use Rattle.rn_assemble.specs.inside.Contained.{item_inclusions, inclusions, item_written_components, written_components};
ghost use Rattle.rn_assemble.specs.inside.ContentsOf.{AreApart, AreContents, HasOrderedIncludes, IsContents, IsSegmentOf, segment_end};
ghost use Rattle.rn_assemble.specs.inside.Keyed.{AreAmong, AreNames, defines, item_defines, key_at};
ghost use Rattle.rn_assemble.specs.inside.Rows.{AddsRows, AreRows, placed_from};
ghost use Rattle.rn_assemble.specs.inside.Views.{AddsIncludes, AreInOrder, AreNamed, module_number, module_with, names_of, with_items};

use crate::including::inclusion::module_named;
use crate::reading::key_rows::{KeyRows, WrittenComponent};
use crate::reading::keys::{KeyId, Keys, START};
use crate::reading::named_modules::{ModuleId, NamedModule};
use crate::resolving::constants::Constants;
use crate::resolving::declared_uris::DeclaredUris;
use rn_syntax::{Item, Method, Pat, Prefix};
use std::alloc::{AllocError, Global};

/// An include: the module that it names, if there is one, and its own components as numbers among those of its module.
#[derive(Clone, Copy)]
pub(crate) struct Include<'s> {
    pub module: Option<ModuleId>,
    pub inherit: Option<Prefix<'s>>,
    pub from: usize,
    pub to: usize,
}

/// What a module's declarations bind, how many components it has, and its includes in the order of the text.
#[derive(Drop)]
pub(crate) struct Contents<'t, 's> {
    pub bindings: DeclaredUris<'t>,
    pub count: usize,
    pub includes: Vec<Include<'s>>,
}

impl Contents<'_, '_> {
    /// How many includes come before the component of that number. So it is the number of the component's segment.
    pub fn segment_of(&self, number: usize) -> usize
        requires { HasOrderedIncludes self.now }
        ensures { IsSegmentOf self.now number result }
    {
        self.includes
            .partition_point(|include: &Include<'_>| include.from <= number)
    }

    /// Whether the component of that number is one of an include's own.
    pub fn is_own(&self, number: usize) -> bool
        requires ordered { HasOrderedIncludes self.now }
        requires apart { AreApart self.now.includes.items }
        ensures { (i : code_include.Include) → Contains self.now.includes.items i
            → i.from ≤ number → number < i.to → result ≡ true }
    {
        match self.segment_of(number).checked_sub(1) {
            Some(include) => number < self.includes[include].to,
            None => false,
        }
    }

    /// The number behind the last component of the segment of that number.
    pub fn end_of_segment(&self, segment: usize) -> usize
        ensures { result ≡ segment_end self.now segment }
    {
        match self.includes.get(segment) {
            Some(include) => include.from,
            None => self.count,
        }
    }
}

/// The contents of each module, and of each key the components that modules define.
pub(crate) type AllContents<'t, 's> = (Vec<Contents<'t, 's>>, KeyRows<'s>);

/// The contents of each module, whose items are given apart, and the components of each key.
pub(crate) fn contents_of<'t, 's>(
    alloc: Global,
    modules: &'t [NamedModule<'s>],
    items: Vec<Vec<Item<'s>>>,
    keys: &Keys<'s>,
    constants: &Constants,
) -> Result<AllContents<'t, 's>, AllocError>
    requires modules_in_order { AreInOrder modules.now }
    requires size { length items.items ≡ length modules.now }
    requires names { AreNames (with_items modules.now items.items) (names_of keys.now) }
    ensures contents { IfOk result (λ all. AreContents (with_items modules.now items.entry.items)
        all.0.items) }
    ensures rows { IfOk result (λ all. AreRows (with_items modules.now items.entry.items)
        (names_of keys.now) all.1.rows.items) }
{
    let mut all = Vec::with_capacity(alloc, modules.len())?;
    let mut rows = KeyRows::new(alloc, keys.len())?;
    for items in items {
        let module = ModuleId(all.len());
        let contents = contents_of_module(
            alloc, modules, keys, constants, module, items, &mut rows,
        )?;
        all.push(contents)?;
    }
    Ok((all, rows))
}

/// The contents of the module, which has these items. Its components are added to the rows of their keys.
fn contents_of_module<'t, 's>(
    alloc: Global,
    modules: &'t [NamedModule<'s>],
    keys: &Keys<'s>,
    constants: &Constants,
    module: ModuleId,
    items: Vec<Item<'s>>,
    rows: &mut KeyRows<'s>,
) -> Result<Contents<'t, 's>, AllocError>
    requires within { «module».0 < length modules.now }
    requires keys_in_order { IsStrictlySortedBy text_cmp (names_of keys.now) }
    requires defined { AreAmong (names_of keys.now) (defines (items_view items.items)) }
    requires modules_in_order { AreInOrder modules.now }
    requires size { length rows.old.rows.items ≡ length (names_of keys.now) + 1 }
    ensures rows { IfOk result (λ _. AddsRows (names_of keys.now) rows.old.rows.items
        rows.new.rows.items (placed_from «module».0 0
        (written_components (items_view items.entry.items)))) }
    ensures exact { (ms : List components.NamedModule) (m : code_module.NamedModule)
        → AreNamed ms modules.now → slice_get modules.now «module».0 ≡ Some m
        → IfOk result (IsContents ms (module_with m items.entry)) }
{
    let mut contents = Contents {
        bindings: DeclaredUris::new(alloc, modules[module.0].tree.decls.as_slice(), constants)?,
        count: 0,
        includes: Vec::new(alloc),
    };
    gather(&mut contents, rows, modules, keys, module, items)?;
    Ok(contents)
}

/// Adds what the items of the module consist of.
#[cycle(gather)]
fn gather<'t, 's>(
    contents: &mut Contents<'t, 's>,
    rows: &mut KeyRows<'s>,
    modules: &[NamedModule<'s>],
    keys: &Keys<'s>,
    module: ModuleId,
    items: Vec<Item<'s>>,
) -> Result<(), AllocError>
    requires keys_in_order { IsStrictlySortedBy text_cmp (names_of keys.now) }
    requires modules_in_order { AreInOrder modules.now }
    requires size { length rows.old.rows.items ≡ length (names_of keys.now) + 1 }
    ensures bindings { contents.new.bindings ≡ contents.old.bindings }
    ensures kept { length rows.new.rows.items ≡ length rows.old.rows.items }
    ensures rows { AreAmong (names_of keys.now) (defines (items_view items.entry.items))
        → IfOk result (λ _. AddsRows (names_of keys.now) rows.old.rows.items rows.new.rows.items
        (placed_from «module».0 contents.old.count
        (written_components (items_view items.entry.items)))) }
    ensures count { IfOk result (λ _. contents.new.count ≡ contents.old.count
        + length (written_components (items_view items.entry.items))) }
    ensures includes { (ms : List components.NamedModule) → AreNamed ms modules.now
        → IfOk result (λ _. AddsIncludes contents.old contents.new
        (inclusions ms contents.old.count (items_view items.entry.items))) }
{
    'items: for item in items {
        gather_item(contents, rows, modules, keys, module, item)?;
    }
    Ok(())
}

/// Adds what the item of the module consists of.
#[cycle(gather)]
fn gather_item<'t, 's>(
    contents: &mut Contents<'t, 's>,
    rows: &mut KeyRows<'s>,
    modules: &[NamedModule<'s>],
    keys: &Keys<'s>,
    module: ModuleId,
    item: Item<'s>,
) -> Result<(), AllocError>
    requires keys_in_order { IsStrictlySortedBy text_cmp (names_of keys.now) }
    requires modules_in_order { AreInOrder modules.now }
    requires size { length rows.old.rows.items ≡ length (names_of keys.now) + 1 }
    ensures bindings { contents.new.bindings ≡ contents.old.bindings }
    ensures kept { length rows.new.rows.items ≡ length rows.old.rows.items }
    ensures rows { AreAmong (names_of keys.now) (item_defines (item_view item.entry))
        → IfOk result (λ _. AddsRows (names_of keys.now) rows.old.rows.items rows.new.rows.items
        (placed_from «module».0 contents.old.count
        (item_written_components (item_view item.entry)))) }
    ensures count { IfOk result (λ _. contents.new.count ≡ contents.old.count
        + length (item_written_components (item_view item.entry))) }
    ensures includes { (ms : List components.NamedModule) → AreNamed ms modules.now
        → IfOk result (λ _. AddsIncludes contents.old contents.new
        (item_inclusions ms contents.old.count (item_view item.entry))) }
{
    match item {
        Item::Define { name, method, body } => {
            let key = keys.number(name);
            push_component(contents, rows, keys, module, key, method, body)
        }
        Item::Start { method, body } => {
            push_component(contents, rows, keys, module, START, method, body)
        }
        Item::Div(items) => gather(contents, rows, modules, keys, module, items),
        Item::Include(include) => {
            let rn_syntax::Include {
                wanted,
                inherit,
                items,
            } = Box::into_inner(include);
            let from = contents.count;
            gather(contents, rows, modules, keys, module, items)?;
            let included = module_named(modules, &wanted);
            push_include(contents, included, inherit, from)
        }
    }
}

/// Adds a component of the module.
#[inline(always)]
fn push_component<'t, 's>(
    contents: &mut Contents<'t, 's>,
    rows: &mut KeyRows<'s>,
    keys: &Keys<'s>,
    module: ModuleId,
    key: KeyId,
    method: Method,
    body: Box<Pat<'s>>,
) -> Result<(), AllocError>
    requires size { length rows.old.rows.items ≡ length (names_of keys.now) + 1 }
    ensures bindings { contents.new.bindings ≡ contents.old.bindings }
    ensures kept { length rows.new.rows.items ≡ length rows.old.rows.items }
    ensures rows { key.0 < length (names_of keys.now) + 1
        → IsStrictlySortedBy text_cmp (names_of keys.now)
        → IfOk result (λ _. AddsRows (names_of keys.now) rows.old.rows.items rows.new.rows.items
        (placed_from «module».0 contents.old.count (record {
          key = key_at (names_of keys.now) key.0;
          method = method;
          pattern = boxed_view body.entry;
        } ∷ []))) }
    ensures count { IfOk result (λ _. contents.new.count ≡ contents.old.count + 1) }
    ensures includes { contents.new.includes.items ≡ contents.old.includes.items }
{
    let number = contents.count;
    let Some(count) = number.checked_add(1) else {
        return Err(AllocError);
    };
    rows.push(
        key,
        WrittenComponent {
            module,
            number,
            method,
            body,
        },
    )?;
    contents.count = count;
    Ok(())
}

/// Adds an include, whose own components are those from a number on.
fn push_include<'t, 's>(
    contents: &mut Contents<'t, 's>,
    module: Option<ModuleId>,
    inherit: Option<Prefix<'s>>,
    from: usize,
) -> Result<(), AllocError>
    ensures bindings { contents.new.bindings ≡ contents.old.bindings }
    ensures count { contents.new.count ≡ contents.old.count }
    ensures includes { IfOk result (λ _. AddsIncludes contents.old contents.new
        (record {
          module_at = module_number «module»;
          inherit = prefix_view inherit.entry;
          first = from;
          end = contents.old.count;
        } ∷ [])) }
{
    let to = contents.count;
    contents.includes.push(Include {
        module,
        inherit,
        from,
        to,
    })?;
    Ok(())
}
