// From a set of modules to its grammar, or to the first refusal that stands (RELAX NG 2001, 4.7, 4.11, 4.16 to 4.19).
ghost use Rattle.std.specs.Prelude.{List, MatchResult};
ghost use Rattle.std.specs.List.{AllByRecursion};
ghost use Rattle.rn_assemble.specs.inside.Checked.{AreExpanded, IsGrammarOf, IsFirstOfModules, KeepsWellFormed};
ghost use Rattle.rn_assemble.specs.Components as specs;
ghost use Rattle.rn_assemble.specs.inside.Contained.{AreFlat};
ghost use Rattle.rn_assemble.specs.GrammarView.{grammar_view};
ghost use Rattle.rn_assemble.specs.Refusal.{IsAssembled};
ghost use Rattle.rn_assemble.specs.Refused.{IsFirstRefusal};
ghost use Rattle.rn_assemble.specs.ShortTexts.{IsShortened, short_texts};
ghost use Rattle.rn_assemble.specs.inside.Pieces.{AreKnownBy, OfKeys};
ghost use Rattle.rn_assemble.specs.inside.ReferenceOrder.{AreDefinedKeys, IsReferenceOrder};
ghost use Rattle.rn_assemble.specs.inside.Sound.{HasSoundReferences, IsUnsound};
ghost use Rattle.rn_assemble.specs.inside.Views.{AreInOrder, AreNamed, key_numbers, modules_view, names_of};

use crate::by_key::checks::{check_methods, check_overrides};
use crate::by_key::combining::joined_grammar;
use crate::by_key::references::references_of;
use crate::by_key::settling_order::{KeyOrder, defined_keys, key_order, settling_order};
use crate::grammar::Grammar;
use crate::including::inclusion::included_roots;
use crate::including::segments::Segments;
use crate::reading::contents::contents_of;
use crate::reading::key_rows::KeyRows;
use crate::reading::keys::{KeyId, Keys, seed_of};
use crate::reading::named_modules::{NamedModule, read_modules, split_items};
use crate::refusal::Refusal;
use crate::resolving::constants::Constants;
use crate::short_uris::ShortUris;
use crate::shortening::{short_uris_of, shorten_modules};
use rn_modset::ModuleSet;
use rn_pattern::Seed;
use std::alloc::Global;

/// The grammar of a set with short texts in the place of its URIs, and the URI of each short text.
#[derive(Drop)]
pub struct ShortGrammar {
    /// The grammar of the set; where a module declares a long URI, with a short text in the place of each URI.
    pub grammar: Grammar,
    /// The URI of each short text. None where no URI that a module declares is long.
    pub uris: ShortUris,
}

/// The grammar of the set: the components of all modules that no module includes, with includes replaced by what they
/// include, joined for each name in their order (RELAX NG 2001, 4.7, 4.11, 4.17). Or the first refusal that stands, of
/// those from `Conflict` to `NameClass` in the order of `Refusal`; `Memory` is for out of memory alone. The set is left
/// as it is.
pub fn assemble(alloc: Global, set: &ModuleSet) -> Result<Grammar, Refusal>
    ensures { MatchResult result (λ g. IsAssembled set.now (grammar_view g))
        (IsFirstRefusal set.now) }
{
    let modules = read_modules(alloc, set)?;
    join_modules(alloc, modules, &seed_of(set))
}

/// The grammar of the set, as [`assemble`](crate::assemble) answers it. But where a module declares a URI of more than
/// [`MAX_KEPT_URI`](crate::MAX_KEPT_URI) bytes, each URI that a module declares has a short text in its place, so that
/// few bytes of it are compared; those that mean something by themselves stay. Or the first refusal that is true of the
/// set, as `assemble` answers it. The set is left as it is.
pub fn assemble_short(alloc: Global, set: &ModuleSet) -> Result<ShortGrammar, Refusal>
    ensures { MatchResult result
        (λ g. IsShortened set.now (short_texts g.uris) (grammar_view g.grammar))
        (IsFirstRefusal set.now) }
{
    let modules = read_modules(alloc, set)?;
    let uris = short_uris_of(alloc, modules.as_slice())?;
    let modules = shorten_modules(alloc, &uris, modules)?;
    let grammar = join_modules(alloc, modules, &seed_of(set))?;
    Ok(ShortGrammar { grammar, uris })
}

/// The grammar of the modules, or the first refusal that is true of them. The modules are dropped piece by piece: the
/// items where their contents are known, and the tree of each component once it was resolved. The names of definitions
/// are hashed by the seed.
fn join_modules(
    alloc: Global,
    modules: Vec<NamedModule<'_>>,
    seed: &Seed,
) -> Result<Grammar, Refusal>
    requires in_order { AreInOrder modules.items }
    requires flat { AllByRecursion (λ (m : specs.NamedModule). AreFlat m.tree.items)
        (modules_view modules.items) }
    requires kept { KeepsWellFormed (modules_view modules.items) }
    ensures { MatchResult result
        (λ g. IsGrammarOf (modules_view modules.entry.items) (grammar_view g))
        (IsFirstOfModules (modules_view modules.entry.items)) }
{
    let roots = included_roots(alloc, modules.as_slice())?;
    let keys = Keys::new(alloc, modules.as_slice(), seed)?;
    let constants = Constants::new(alloc)?;
    let (modules, items) = split_items(alloc, modules)?;
    let (contents, rows) = contents_of(alloc, modules.as_slice(), items, &keys, &constants)?;
    let segments = Segments::of_roots(alloc, contents.as_slice(), &constants, roots.as_slice())?;
    join_keys(alloc, modules.as_slice(), &keys, rows, &segments, seed)
}

/// The grammar to which the modules' components are joined, or the first refusal that stands. Modules need no items here.
fn join_keys<'s>(
    alloc: Global,
    modules: &[NamedModule<'_>],
    keys: &Keys<'s>,
    rows: KeyRows<'s>,
    segments: &Segments<'_, '_, '_>,
    seed: &Seed,
) -> Result<Grammar, Refusal>
    requires modules_in_order { AreInOrder modules.now }
    requires known { (ms : List specs.NamedModule) × AreNamed ms modules.now × KeepsWellFormed ms
        × AreExpanded ms (names_of keys.now) rows segments.now }
    ensures { (ms : List specs.NamedModule) → AreNamed ms modules.now
        → AreExpanded ms (names_of keys.now) rows.entry segments.now
        → MatchResult result (λ g. IsGrammarOf ms (grammar_view g)) (IsFirstOfModules ms) }
{
    check_overrides(alloc, modules, keys, &rows, segments)?;
    check_methods(alloc, keys, &rows, segments)?;
    let defined = defined_keys(alloc, &rows, segments)?;
    let reached = check_references(alloc, keys, &rows, segments, &defined)?;
    let order = settling_order(alloc, keys, &defined, &reached)?;
    joined_grammar(alloc, keys, rows, segments, &defined, order, seed)
}

/// The keys of definitions that the start reaches, each after those that it refers to outside elements; `defined` are
/// those of all definitions. Or the refusal of names that aren't defined, or of reachable ones that come back to
/// themselves outside elements (RELAX NG 2001, 4.18 and 4.19).
fn check_references<'s>(
    alloc: Global,
    keys: &Keys<'s>,
    rows: &KeyRows<'s>,
    segments: &Segments<'_, '_, '_>,
    defined: &[KeyId],
) -> Result<Vec<KeyId>, Refusal>
    requires { AreKnownBy (names_of keys.now) rows.now segments.now }
    ensures { OfKeys keys.now rows.now segments.now
        (λ names cs. AreDefinedKeys names cs (key_numbers defined.now)
        → MatchResult result (λ order. HasSoundReferences cs
        × IsReferenceOrder names cs (key_numbers order.items)) (IsUnsound cs)) }
{
    let references = references_of(alloc, keys, rows, segments, defined)?;
    match key_order(alloc, &references)? {
        KeyOrder::Ordered(order) => Ok(order),
        KeyOrder::Recursive(key) => Err(Refusal::Recursive {
            name: String::from_str(alloc, keys.name(key))?,
        }),
    }
}
