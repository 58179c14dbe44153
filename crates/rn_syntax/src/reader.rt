// The module that tokens spell.
ghost use Rattle.std.specs.Prelude.{◌≡◌, [], None, length, IfOk, IfErr, IsTrue, OnOk, MatchOption};
ghost use Rattle.rn_syntax.specs.TokenTerminals.{terminals_of};
ghost use Rattle.rn_syntax.specs.Places.{deep, first, prefix_places, builtin_places, context_places, except_places};
ghost use Rattle.rn_syntax.specs.Beginnings.{HasTree};
ghost use Rattle.rn_syntax.specs.Faults.{HasModuleFault, HasNoFault, IsFault};
ghost use Rattle.rn_syntax.specs.Lent.{AreLent, items_literals};
ghost use Rattle.rn_syntax.specs.inside.Numbered.{wrong_declaration};
ghost use Rattle.rn_syntax.specs.inside.Stopping.{IsSyntax};
ghost use Rattle.rn_syntax.specs.Spelled.{AreSpelled};
ghost use Rattle.rn_syntax.specs.View.{module_view};

use crate::bindings::{Bindings, bind_all};
use crate::brackets::too_deep;
use crate::fault::{Fault, SyntaxFault};
use crate::places::module_place;
use crate::productions::modules::module;
use crate::productions::terminals::place;
use crate::rules::Rule;
use crate::tree::Module;
use rn_text::Token;
use std::alloc::{AllocError, Global};

/// The module that the tokens are, by the grammar alone.
fn tree<'a>(alloc: Global, tokens: &[Token<'a>]) -> Result<Module<'a>, SyntaxFault>
    ensures tree { IfOk result (λ m. AreSpelled tokens.now
        → HasTree (terminals_of tokens.now) (module_view m)) }
    ensures lent { IfOk result (λ m. AreSpelled tokens.now
        → AreLent tokens.now 0 (length tokens.now) (items_literals m.items.items)) }
    ensures place { IfErr result (IsSyntax tokens.now) }
{
    match module(alloc, tokens) {
        Ok(module) => Ok(module),
        Err(Fault::Stuck(at)) => Err(SyntaxFault::Syntax {
            at: place(tokens, at),
        }),
        Err(Fault::Memory) => Err(SyntaxFault::Memory),
    }
}

/// The place of the first unbound prefix in the items.
fn prefix_place(bindings: &Bindings<'_, '_>, module: &Module<'_>) -> Option<usize>
    requires bound { bindings.now.declarations.now ≡ «module».now.decls.items }
    requires declared { wrong_declaration (module_view «module».now).declarations ≡ None }
    ensures { result ≡ first (prefix_places (module_view «module».now)) }
{
    module_place(Rule::Prefixes, bindings, module)
}

/// The place of the first datatype that the built-in library lacks, or that has a parameter there.
fn builtin_place(bindings: &Bindings<'_, '_>, module: &Module<'_>) -> Option<usize>
    requires { bindings.now.declarations.now ≡ «module».now.decls.items }
    ensures { result ≡ first (builtin_places (module_view «module».now)) }
{
    module_place(Rule::Builtins, bindings, module)
}

/// The place of the first value of a type that looks at namespace bindings.
fn context_value_place(bindings: &Bindings<'_, '_>, module: &Module<'_>) -> Option<usize>
    requires { bindings.now.declarations.now ≡ «module».now.decls.items }
    ensures { result ≡ first (context_places (module_view «module».now)) }
{
    module_place(Rule::ContextValues, bindings, module)
}

/// The place of the first except that holds what none may.
#[tactic(auto, unfolding(crate::specs::inside::Rules::classes, crate::specs::inside::Rules::datatypes, crate::specs::inside::Rules::excepts, crate::specs::inside::Rules::inherits))]
fn except_place(bindings: &Bindings<'_, '_>, module: &Module<'_>) -> Option<usize>
    ensures { result ≡ first (except_places (module_view «module».now)) }
{
    module_place(Rule::Excepts, bindings, module)
}

/// Whether the items of a module are known to keep all rules, by one walk through them.
fn keeps_rules(bindings: &Bindings<'_, '_>, module: &Module<'_>) -> bool
    requires bound { bindings.now.declarations.now ≡ «module».now.decls.items }
    requires declared { wrong_declaration (module_view «module».now).declarations ≡ None }
    ensures { IsTrue result → HasNoFault (module_view «module».now) }
{
    match module_place(Rule::All, bindings, module) {
        None => true,
        Some(_) => false,
    }
}

/// The first fault in the items of a module whose declarations are bound: one walk for each kind, in their order.
fn items_fault(bindings: &Bindings<'_, '_>, module: &Module<'_>) -> Option<SyntaxFault>
    requires bound { bindings.now.declarations.now ≡ «module».now.decls.items }
    requires declared { wrong_declaration (module_view «module».now).declarations ≡ None }
    ensures { MatchOption result (HasNoFault (module_view «module».now))
        (HasModuleFault (module_view «module».now)) }
{
    if let Some(at) = prefix_place(bindings, module) {
        return Some(SyntaxFault::Prefix { at });
    }
    if let Some(at) = builtin_place(bindings, module) {
        return Some(SyntaxFault::Builtin { at });
    }
    if let Some(at) = context_value_place(bindings, module) {
        return Some(SyntaxFault::ContextValue { at });
    }
    match except_place(bindings, module) {
        Some(at) => Some(SyntaxFault::Except { at }),
        None => None,
    }
}

/// The first fault of a module that the grammar leaves open, with what its declarations bind and the first place that
/// is wrong in them. Only a module that breaks a rule is walked through once a kind.
fn bound_fault(
    bindings: &Bindings<'_, '_>,
    wrong: Option<usize>,
    module: &Module<'_>,
) -> Option<SyntaxFault>
    requires bound { bindings.now.declarations.now ≡ «module».now.decls.items }
    requires wrong { wrong ≡ wrong_declaration (module_view «module».now).declarations }
    ensures { MatchOption result (HasNoFault (module_view «module».now))
        (HasModuleFault (module_view «module».now)) }
{
    if let Some(at) = wrong {
        return Some(SyntaxFault::Prefix { at });
    }
    if keeps_rules(bindings, module) {
        return None;
    }
    items_fault(bindings, module)
}

/// The first fault of a module that its grammar leaves open, if it has one; its declarations are bound here.
fn fault(alloc: Global, module: &Module<'_>) -> Result<Option<SyntaxFault>, AllocError>
    ensures { IfOk result (λ found. MatchOption found (HasNoFault (module_view «module».now))
        (HasModuleFault (module_view «module».now))) }
{
    let (bindings, wrong) = bind_all(alloc, &module.decls)?;
    Ok(bound_fault(&bindings, wrong, module))
}

/// The one module that the tokens spell (RELAX NG Compact Syntax, 2), or the first fault.
///
/// Tested in this order, each over all tokens and each with its first place in bytes: `Deep`, `Syntax`, `Prefix`,
/// `Builtin`, `ContextValue`, `Except`. `Memory` stands only where memory was refused. The tokens before the place of
/// `Syntax` begin some module, and no module begins with them and the token there; where the place is the end of the
/// last token, they are none. The literal of an include is a slice of the source where it is one segment without escape
/// and carriage return; else it is owned. What is said of trees is so where each token is spelled as its kind says, as
/// those of a source are.
pub fn parse<'a>(alloc: Global, tokens: &[Token<'a>]) -> Result<Module<'a>, SyntaxFault>
    ensures shallow { OnOk result (deep 0 (terminals_of tokens.now) ≡ None) }
    ensures tree { IfOk result (λ m. AreSpelled tokens.now
        → HasTree (terminals_of tokens.now) (module_view m)) }
    ensures lent { IfOk result (λ m. AreSpelled tokens.now
        → AreLent tokens.now 0 (length tokens.now) (items_literals m.items.items)) }
    ensures sound { IfOk result (λ m. HasNoFault (module_view m)) }
    ensures fault { IfErr result (IsFault tokens.now) }
{
    if let Some(at) = too_deep(tokens) {
        return Err(SyntaxFault::Deep { at });
    }
    let module = tree(alloc, tokens)?;
    match fault(alloc, &module)? {
        Some(fault) => Err(fault),
        None => Ok(module),
    }
}
