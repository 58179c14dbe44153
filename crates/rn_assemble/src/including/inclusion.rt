// Which modules include which, how many instances they have, and what stands against it.
ghost use Rattle.std.specs.Prelude.{◌≡◌, ◌<◌, ◌≤◌, ◌==◌, ◌||◌, ◌↔◌, ℕ, length, min, vec_len, option_map, sum_by, IfOk, IfSome, IsTrue, MatchResult};
ghost use Rattle.std.specs.List.{concat, filter_map, list_any};
ghost use Rattle.rn_text.specs.Texts.{text_cmp};
ghost use Rattle.rn_graph.specs.Graph.{AllBelow, IsGraph, is_marked, rows_of};
ghost use Rattle.rn_assemble.specs.inside.Contained.{place_in};
ghost use Rattle.rn_assemble.specs.inside.Included.{AreIncluded};
ghost use Rattle.rn_assemble.specs.inside.Inclusions.{AreInclusions, IsLeastAmong, IsMissing, entries};
ghost use Rattle.rn_assemble.specs.inside.Instances.{instances_of};
ghost use Rattle.rn_assemble.specs.inside.Checked.{IsFirstOfModules};
ghost use Rattle.rn_assemble.specs.inside.Views.{AreInOrder, module_number, module_numbers, modules_view, texts_of};

use crate::by_key::references::lesser_name;
use crate::reading::named_modules::{ModuleId, NamedModule};
use crate::refusal::Refusal;
use rn_graph::Rows;
use rn_graph::ranks::least_looped;
use rn_syntax::includes;
use std::alloc::{AllocError, Global};
use std::cmp::Ordering;

/// The most instances of modules that a set may have: each root counts one, and so does each include that is followed
/// from there, however often its module comes. A set with more is refused as `Refusal::Instances`.
pub const INSTANCE_LIMIT: usize = 512;

/// The modules that no module includes. Or the first refusal that stands, of `Missing`, `Cycle` and `Instances`;
/// `Memory` comes only where memory runs out.
pub(crate) fn included_roots(
    alloc: Global,
    modules: &[NamedModule<'_>],
) -> Result<Vec<ModuleId>, Refusal>
    requires { AreInOrder modules.now }
    ensures { MatchResult result
        (λ roots. AreIncluded (modules_view modules.now) (module_numbers roots.items))
        (IsFirstOfModules (modules_view modules.now)) }
{
    let rows = inclusions(alloc, modules)?;
    if let Some(module) = least_looped(alloc, &rows)? {
        return Err(Refusal::Cycle {
            module: String::from_str(alloc, modules[module].name)?,
        });
    }
    let roots = roots(alloc, &rows)?;
    if has_too_many_instances(&rows, roots.as_slice()) {
        return Err(Refusal::Instances);
    }
    Ok(roots)
}

/// The module of that name.
pub(crate) fn module_named(modules: &[NamedModule<'_>], name: &str) -> Option<ModuleId>
    ensures within { IfSome result (λ m. m.0 < length modules.now) }
    ensures place { AreInOrder modules.now
        → module_number result ≡ place_in (modules_view modules.now) name.now }
{
    let compare = |module: &NamedModule<'_>| -> Ordering
        ensures { result ≡ text_cmp «module».now.name.now name.entry.now }
    { module.name.cmp(name) };
    match modules.binary_search_by(compare) {
        Ok(place) => Some(ModuleId(place)),
        Err(_) => None,
    }
}

/// For each module, the modules that its includes name. `Missing` names the least module with an include of none, and
/// the least literal of such an include.
fn inclusions(alloc: Global, modules: &[NamedModule<'_>]) -> Result<Rows, Refusal>
    requires { AreInOrder modules.now }
    ensures { MatchResult result (λ rows. AreInclusions (modules_view modules.now) (rows_of rows))
        (IsFirstOfModules (modules_view modules.now)) }
{
    let mut rows = Rows::new(alloc);
    for module in modules {
        let wanted = includes(alloc, &module.tree)?;
        if let Some(literal) = least_missing(modules, wanted.as_slice()) {
            return Err(Refusal::Missing {
                module: String::from_str(alloc, module.name)?,
                wanted: String::from_str(alloc, literal)?,
            });
        }
        let included = included_modules(alloc, modules, wanted.as_slice())?;
        rows.push_row(&included)?;
    }
    Ok(rows)
}

/// The least of the literals that names no module.
fn least_missing<'m>(modules: &[NamedModule<'_>], wanted: &[&'m str]) -> Option<&'m str>
    requires { AreInOrder modules.now }
    ensures { IsLeastAmong (IsMissing (modules_view modules.now)) (texts_of wanted.now)
        (option_map (λ s. s.now) result) }
{
    let mut least = None;
    for literal in wanted {
        if module_named(modules, literal).is_none() {
            least = Some(lesser_name(least, literal));
        }
    }
    least
}

/// The modules that the literals name.
fn included_modules(
    alloc: Global,
    modules: &[NamedModule<'_>],
    wanted: &[&str],
) -> Result<Vec<usize>, AllocError>
    requires { AreInOrder modules.now }
    ensures { IfOk result (λ row. row.items
        ≡ filter_map (place_in (modules_view modules.now)) (texts_of wanted.now)) }
{
    let mut row = Vec::new(alloc);
    for literal in wanted {
        if let Some(module) = module_named(modules, literal) {
            row.push(module.0)?;
        }
    }
    Ok(row)
}

/// The modules that no module includes.
fn roots(alloc: Global, rows: &Rows) -> Result<Vec<ModuleId>, AllocError>
    requires { IsGraph (rows_of rows.now) }
    ensures { IfOk result (λ roots. module_numbers roots.items ≡ entries (rows_of rows.now)) }
{
    let included = included_marks(alloc, rows)?;
    let mut roots = Vec::with_capacity(alloc, rows.len())?;
    roots.extend(
        included.iter().enumerate().filter_map(|(module, is_included)| (!*is_included).then_some(
            ModuleId(module),
        )),
    )?;
    Ok(roots)
}

/// For each module, whether some module includes it.
fn included_marks(alloc: Global, rows: &Rows) -> Result<Vec<bool>, AllocError>
    requires { IsGraph (rows_of rows.now) }
    ensures size { IfOk result (λ marks. vec_len marks ≡ length (rows_of rows.now)) }
    ensures exact { IfOk result (λ marks. (x : ℕ)
        → is_marked marks.items x ≡ list_any (λ y. x == y) (concat (rows_of rows.now))) }
{
    let mut marks = vec![in alloc; false; rows.len()]?;
    for includer in 0..rows.len() {
        mark_row(&mut marks, rows.row(includer));
    }
    Ok(marks)
}

/// Marks the modules of a row.
fn mark_row(included: &mut Vec<bool>, row: &[usize])
    requires { AllBelow (vec_len included.old) row.now }
    ensures size { vec_len included.new ≡ vec_len included.old }
    ensures marks { (x : ℕ) → is_marked included.new.items x
        ≡ (is_marked included.old.items x || list_any (λ y. x == y) row.now) }
{
    for node in row {
        included[*node] = true;
    }
}

/// Whether the roots have more instances than a set may have. The count stops there.
fn has_too_many_instances(rows: &Rows, roots: &[ModuleId]) -> bool
    requires graph { IsGraph (rows_of rows.now) }
    requires within { AllBelow (length (rows_of rows.now)) (module_numbers roots.now) }
    ensures { (depth : ℕ) → INSTANCE_LIMIT < depth
        → (IsTrue result ↔ (INSTANCE_LIMIT
        < sum_by (instances_of depth (rows_of rows.now)) (module_numbers roots.now))) }
{
    let mut count = 0;
    for root in roots {
        count += instances_up_to(rows, *root, INSTANCE_LIMIT + 1 - count);
    }
    count > INSTANCE_LIMIT
}

/// How many instances a module has, but at most `most`.
pub(crate) fn instances_up_to(edges: &Rows, module: ModuleId, most: usize) -> usize
    requires graph { IsGraph (rows_of edges.now) }
    requires within { «module».0 < length (rows_of edges.now) }
    ensures up_to { result ≤ most }
    ensures counted { (depth : ℕ) → most ≤ depth
        → result ≡ min most (instances_of depth (rows_of edges.now) «module».0) }
{
    if most == 0 {
        return 0;
    }
    let mut count = 1;
    for inner in edges.row(module.0) {
        count += instances_up_to(edges, ModuleId(*inner), most - count);
    }
    count
}
