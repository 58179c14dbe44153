// The keys of all components, numbered in their order.
ghost use Rattle.std.specs.Prelude.{◌≡◌, ◌+◌, ◌-◌, ◌<◌, ◌++◌, [], length, slice_index_or, Contains, IfOk, IfSome, OnOk};
ghost use Rattle.std.specs.List.Sorted.{IsStrictlySortedBy, IsStrictlySortedBy-prop};
ghost use Rattle.rn_text.specs.Texts.{text_cmp};
ghost use Rattle.rn_pattern.specs.Canonical.{sorted_once};
ghost use Rattle.rn_syntax.specs.View.{item_view, items_view};
ghost use Rattle.rn_assemble.specs.inside.Keyed.{item_defines, texts_of, defines, name_at, AreNames, IsFound, IsNameNumber, key_at};
ghost use Rattle.rn_assemble.specs.Refused.{key_view};

use crate::reading::named_modules::NamedModule;
use crate::refusal::Key;
use indexmap::IndexSet;
use rn_modset::ModuleSet;
use rn_pattern::Seed;
use rn_syntax::Item;
use std::alloc::{AllocError, Global};

/// The number of a key: start, and then the names in the order of their bytes.
#[derive(Clone, Copy, Debug, PartialEq, Eq, PartialOrd, Ord)]
pub struct KeyId(pub usize);

/// Start, which comes before all names.
pub(crate) const START: KeyId = KeyId(0);

/// The keys of the components of all modules. Start is number 0, and the names follow in the order of their bytes.
#[derive(Drop)]
pub(crate) struct Keys<'s> {
    /// The names, in the order of their bytes. Who writes them can't choose the seed by which they are hashed.
    names: IndexSet<&'s str, Seed>,
    ghost in_order: { IsStrictlySortedBy text_cmp (texts_of names.keys) } by { IsStrictlySortedBy-prop _ _ },
}

impl<'s> Keys<'s> {
    ghost use Rattle.rn_assemble.specs.inside.Views.{modules_view, names_of};

    /// The keys of these modules. Their names are hashed by the seed.
    pub fn new(
        alloc: Global,
        modules: &[NamedModule<'s>],
        seed: &Seed,
    ) -> Result<Keys<'s>, AllocError>
        ensures { IfOk result (λ keys. AreNames (modules_view modules.now) (names_of keys)) }
    {
        let mut names = Vec::new(alloc);
        for module in modules {
            push_names(&module.tree.items, &mut names)?;
        }
        put_in_order(&mut names)?;
        let names = indexed(alloc, names.as_slice(), seed)?;
        Ok(Keys { names })
    }

    /// How many keys there are.
    pub fn len(&self) -> usize
        ensures { result ≡ length (names_of self.now) + 1 }
    {
        self.names.len() + 1
    }

    /// The number of a name that a module defines; of any other name, that of start.
    pub fn number(&self, name: &str) -> KeyId
        ensures { Contains (names_of self.now) name.now
            → IsNameNumber (names_of self.now) name.now result.0 }
    {
        self.find(name).unwrap_or(START)
    }

    /// The number of a name, if a module defines it.
    pub fn find(&self, name: &str) -> Option<KeyId>
        ensures within { IfSome result (λ key. (0 < key.0)
            × (key.0 < length (names_of self.now) + 1)) }
        ensures found { IsFound (names_of self.now) name.now result }
    {
        match self.names.get_index_of(&name) {
            Some(at) => {
                prove!(at < self.names.len());
                Some(KeyId(at + 1))
            }
            None => None,
        }
    }

    /// The name of that number.
    pub fn name(&self, id: KeyId) -> &'s str
        ensures { 0 < id.0 → id.0 < length (names_of self.now) + 1
            → result.now ≡ slice_index_or (names_of self.now) (id.0 - 1) [] }
    {
        name_of(self.names.as_slice(), id)
    }

    /// The key of that number.
    pub fn key(&self, alloc: Global, id: KeyId) -> Result<Key, AllocError>
        ensures { id.0 < length (names_of self.now) + 1
            → IfOk result (λ key. key_view key ≡ key_at (names_of self.now) id.0) }
    {
        if id == START {
            return Ok(Key::Start);
        }
        Ok(Key::Define(String::from_str(alloc, self.name(id))?))
    }
}

/// Adds the names that the items define.
#[cycle(names)]
fn push_names<'s>(items: &[Item<'s>], names: &mut Vec<&'s str>) -> Result<(), AllocError>
    ensures { OnOk result (texts_of names.new.items
        ≡ texts_of names.old.items ++ defines (items_view items.now)) }
{
    'items: for item in items {
        push_item_names(item, names)?;
    }
    Ok(())
}

/// Adds the names that the item defines.
#[cycle(names)]
fn push_item_names<'s>(item: &Item<'s>, names: &mut Vec<&'s str>) -> Result<(), AllocError>
    ensures { OnOk result (texts_of names.new.items
        ≡ texts_of names.old.items ++ item_defines (item_view item.now)) }
{
    match item {
        Item::Define { name, .. } => {
            names.push(*name)?;
            Ok(())
        }
        Item::Start { .. } => Ok(()),
        Item::Div(items) => push_names(items, names),
        Item::Include(include) => push_names(&include.items, names),
    }
}

/// Puts the names in order, each once.
fn put_in_order(names: &mut Vec<&str>) -> Result<(), AllocError>
    ensures { OnOk result (texts_of names.new.items
        ≡ sorted_once text_cmp (texts_of names.old.items)) }
{
    names.sort_by(|a: &&str, b: &&str| a.cmp(b))?;
    names.dedup_by(|later, before| *later == *before);
    Ok(())
}

/// The names with the hash of each, which a seed decides. They are given in their order, each once.
fn indexed<'s>(
    alloc: Global,
    names: &[&'s str],
    seed: &Seed,
) -> Result<IndexSet<&'s str, Seed>, AllocError>
    requires { IsStrictlySortedBy text_cmp (texts_of names.now) }
    ensures { IfOk result (λ found. texts_of found.keys ≡ texts_of names.now) }
{
    let mut found = IndexSet::with_capacity_and_hasher(alloc, names.len(), *seed)?;
    for at in 0..names.len() {
        let name = names[at];
        found.insert(name)?;
    }
    Ok(found)
}

/// The name of that number; none of start.
fn name_of<'s>(names: &[&'s str], id: KeyId) -> &'s str
    ensures { result.now ≡ name_at (texts_of names.now) id.0 }
{
    match id.0.checked_sub(1) {
        Some(at) if at < names.len() => names[at],
        _ => "",
    }
}

/// A seed that depends on each byte of each text of the set, so that nobody can choose names for it.
pub(crate) fn seed_of(set: &ModuleSet) -> Seed {
    Seed::of(&set.digest())
}
