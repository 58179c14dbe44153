// From files to modules: those of the places of a plan, and those that bring in its scopes.
ghost use Rattle.std.specs.Prelude.{◌≡◌, ◌<◌, ◌⊎◌, ◌+◌, ℕ, All, Contains, IfOk, IsPermutation, IsTrue, MatchResult, None, OnOk, drop, length, string_bytes, vec_len};
ghost use Rattle.rn_scopes.specs.declared.lift_fault.LiftFaultKind.TheVariants.{Grown};
ghost use Rattle.rn_lift.specs.Lifts.{AreRising, bringing_bytes};
ghost use Rattle.rn_lift.specs.LiftedModules.{AreMadeOfFiles, BringsIn, KeepsText};
ghost use Rattle.rn_lift.specs.inside.Planned.{HasPlace, IsBrought, IsModuleOfSomePlace};
ghost use Rattle.rn_lift.specs.declared.lifted.LiftedModule.{LiftedModule};
ghost use Rattle.rn_scopes.specs.FreeNames.{AreFree};
ghost use Rattle.rn_scopes.specs.ScopeEntries.{entry_of};

use crate::excepts::Excepts;
use crate::lifted::{Lifted, LiftedModule, Piece};
use crate::module_texts::{module_at, unsound_fault};
use rn_scopes::{LiftFault, LiftFaultKind, Lifting, Names, Plan, Scope, Units, make_plan};
use rn_text::write_literal;
use std::alloc::{AllocError, Global};
use std::cmp::Ordering;

/// How many bytes more than all files together the modules of their places may have. Generated names make modules
/// longer than files, as do declarations, which each nested grammar takes along, and files that become several modules.
pub const MAX_GROWTH: usize = 16_777_216;

/// The module that brings in a scope: its first module inherits the namespace from it.
fn bringing_module(alloc: Global, plan: &Plan, scope: &Scope) -> Result<LiftedModule, AllocError>
    ensures { IfOk result (BringsIn (entry_of plan.now scope.now)) }
{
    let mut pieces = Vec::new(alloc);
    pieces.push(Piece {
        from: 0,
        file: scope.file,
        at: scope.at,
        is_source: false,
    })?;
    let namespace = plan.namespace_of(scope);
    let module = plan.entry_of(scope);
    let text = bringing_text(alloc, namespace, module)?;
    Ok(LiftedModule {
        name: scope.module.clone()?,
        text,
        pieces,
        basis: None,
    })
}

/// A text that includes a module, which inherits a namespace from it.
fn bringing_text(alloc: Global, namespace: &str, included: &str) -> Result<String, AllocError>
    ensures { IfOk result (λ t. string_bytes t ≡ bringing_bytes namespace.now included.now) }
{
    let mut text = String::from_str(alloc, "namespace handed = ")?;
    write_literal(&mut text, namespace)?;
    text.push_str("\ninclude ")?;
    write_literal(&mut text, included)?;
    text.push_str(" inherit = handed\n")?;
    Ok(text)
}

/// The modules of all places.
fn place_modules(
    alloc: Global,
    units: &Units<'_>,
    plan: &Plan,
) -> Result<Vec<LiftedModule>, LiftFault>
    ensures made { IfOk result (λ v. All (IsModuleOfSomePlace units.now plan.now) v.items) }
    ensures each { IfOk result (λ v. (k : ℕ) → k < vec_len plan.now.places
        → HasPlace units.now plan.now v.items k) }
{
    let mut modules = Vec::new(alloc);
    let mut excepts = Excepts::new(alloc, units, plan)?;
    let mut left = bytes_of_files(units).saturating_add(MAX_GROWTH);
    for number in 0..plan.places.len() {
        let module = module_at(alloc, units, plan, &mut excepts, number)?;
        left = left_behind(left, &module)?;
        modules.push(module)?;
    }
    Ok(modules)
}

/// How many bytes the files have together.
fn bytes_of_files(units: &Units<'_>) -> usize {
    let mut bytes: usize = 0;
    for given in &units.files {
        bytes = bytes.saturating_add(given.file.text.len());
    }
    bytes
}

/// How many of so many bytes a module's text leaves; `Grown` where it has more.
fn left_behind(left: usize, module: &LiftedModule) -> Result<usize, LiftFault>
    ensures { MatchResult result
        (λ rest. rest + length (string_bytes module.now.text) ≡ left)
        (λ fault. (fault.kind ≡ Grown) × (left < length (string_bytes module.now.text))) }
{
    match left.checked_sub(module.text.len()) {
        Some(rest) => Ok(rest),
        None => Err(LiftFault {
            file: 0,
            at: 0,
            kind: LiftFaultKind::Grown,
        }),
    }
}

/// The scopes that modules bring in: all but that of the roots.
fn scopes_brought(plan: &Plan) -> &[Scope]
    ensures { result.now ≡ drop 1 plan.now.scopes.items }
{
    match plan.scopes.split_first() {
        Some((_, scopes)) => scopes,
        None => &[],
    }
}

/// Adds the modules that bring in scopes.
fn add_bringing_modules(
    alloc: Global,
    plan: &Plan,
    modules: &mut Vec<LiftedModule>,
) -> Result<(), AllocError>
    ensures kept { OnOk result ((m : LiftedModule) → Contains modules.old.items m
        → Contains modules.new.items m) }
    ensures others { OnOk result (All (λ m. Contains modules.old.items m ⊎ (m.basis ≡ None))
        modules.new.items) }
    ensures brought { OnOk result (All (IsBrought plan.now modules.new.items)
        (drop 1 plan.now.scopes.items)) }
{
    for scope in scopes_brought(plan) {
        let module = bringing_module(alloc, plan, scope)?;
        modules.push(module)?;
    }
    Ok(())
}

/// The modules that files become (RELAX NG 2001, 4.6, 4.7, 4.18, 7.1.4). `roots` are the indices of
/// the files asked for; a root may be included by another, and an index that no file has is passed
/// over. The schema of the modules is that of the roots.
///
/// Files that no root reaches become no modules. A file of the roots' scope keeps its name, and its
/// text, but for the literals of its includes and for what is lifted. Refused with the first fault,
/// and with `Grown` where the modules of the files' places would have over `MAX_GROWTH` more bytes
/// than the files, so that memory and time grow with these; `Memory` comes only where memory runs out.
pub fn lift(alloc: Global, files: &[Lifting<'_>], roots: &[usize]) -> Result<Lifted, LiftFault>
    ensures order { IfOk result (λ l. AreRising l.modules.items) }
    ensures free { IfOk result (λ l. AreFree files.now l.made_stems (string_bytes l.start)) }
    ensures made { IfOk result (λ l.
        AreMadeOfFiles files.now l.modules.items (string_bytes l.start)) }
    ensures plain { IfOk result (λ l. All (KeepsText files.now) l.modules.items) }
{
    let units = Units::of(alloc, files)?;
    let plan = make_plan(alloc, &units, roots)?;
    let mut modules = place_modules(alloc, &units, &plan)?;
    add_bringing_modules(alloc, &plan, &mut modules)?;
    finish(plan, modules)
}

/// The modules in the order of their names.
fn finish(plan: Plan, mut modules: Vec<LiftedModule>) -> Result<Lifted, LiftFault>
    ensures order { IfOk result (λ l. AreRising l.modules.items) }
    ensures same { IfOk result (λ l. IsPermutation modules.items l.modules.items) }
    ensures stems { IfOk result (λ l. l.made_stems ≡ plan.names.made_stems) }
    ensures start { IfOk result (λ l. l.start ≡ plan.names.start) }
{
    modules.sort_by(|a, b| a.name.cmp(&b.name))?;
    if !are_rising(modules.as_slice()) {
        return Err(unsound_fault());
    }
    let Plan { names, .. } = plan;
    let Names {
        made_stems,
        start,
        ..
    } = names;
    Ok(Lifted {
        modules,
        made_stems,
        start,
    })
}

/// Whether each name comes before the next one.
fn are_rising(modules: &[LiftedModule]) -> bool
    ensures { IsTrue result → AreRising modules.now }
{
    let mut rest = modules;
    'modules: while let Some((module, behind)) = rest.split_first() {
        if let Some(next) = behind.first() {
            if module.name.cmp(&next.name) != Ordering::Less {
                return false;
            }
        }
        rest = behind;
    }
    true
}
