// The effective modules of a set, read.
ghost use Rattle.std.specs.Prelude.{◌≡◌, [], IfErr, IfOk, List, MatchResult, length, map};
ghost use Rattle.std.specs.Str.{IsUtf8, chars};
ghost use Rattle.std.specs.String.{string_bytes};
ghost use Rattle.rn_text.specs.Tokens.{HasFault, HasTokens, lexeme_of};
ghost use Rattle.rn_text.specs.declared.source.Token as source;
ghost use Rattle.rn_text.specs.Texts.{Text};
ghost use Rattle.rn_syntax.specs.Faults.{IsFault};
ghost use Rattle.rn_syntax.specs.View.{module_view};
ghost use Rattle.rn_assemble.specs.inside.ModuleTexts.{IsFaultOf, IsRead};
ghost use Rattle.rn_assemble.specs.Refusal.{AreModules};
ghost use Rattle.rn_assemble.specs.Refused.{IsFirstRefusal};
ghost use Rattle.rn_assemble.specs.inside.Views.{AreInOrder, module_names, modules_view, with_items};

use crate::refusal::Refusal;
use rn_modset::{Effective, ModuleSet};
use rn_syntax::{Item, Module, SyntaxFault, parse};
use rn_text::{TextFault, Token, read_tokens};
use std::alloc::{AllocError, Global};

/// The number of a module among those of a set, in the order of their names.
#[derive(Clone, Copy, Debug, PartialEq, Eq, PartialOrd, Ord)]
pub struct ModuleId(pub usize);

/// An effective module: its name and its tree.
#[derive(Drop)]
pub(crate) struct NamedModule<'a> {
    pub name: &'a str,
    pub tree: Module<'a>,
}

/// The effective modules, in the order of their names. Or the first refusal of the set, where that is a conflict or the
/// first fault of a text: the fault of the least name whose module has one. Tokens take the memory of those before.
pub(crate) fn read_modules<'a>(
    alloc: Global,
    set: &'a ModuleSet,
) -> Result<Vec<NamedModule<'a>>, Refusal>
    ensures ok { IfOk result (λ modules. AreModules set.now (modules_view modules.items)) }
    ensures in_order { IfOk result (λ modules. AreInOrder modules.items) }
    ensures err { IfErr result (IsFirstRefusal set.now) }
{
    let effective_modules = set.effective(alloc)?;
    let mut modules = Vec::new(alloc);
    let mut tokens = token_list(alloc, &effective_modules)?;
    for module in effective_modules.iter() {
        let (name, text) = *module;
        let tree = read_module(alloc, name, text, &mut tokens)?;
        modules.push(NamedModule { name, tree })?;
    }
    Ok(modules)
}

/// How many bytes a token takes at least, with the white space behind it, in all but the densest texts.
const TOKEN_BYTES: usize = 3;

/// An empty list for the tokens of these texts, one text after the other. It has memory for those of the longest one, so
/// that it needn't be copied while it grows.
fn token_list<'a>(alloc: Global, modules: &Effective<'a>) -> Result<Vec<Token<'a>>, AllocError>
    ensures { IfOk result (λ tokens. tokens.items ≡ []) }
{
    let mut longest = 0;
    for module in modules.iter() {
        longest = longest.max(module.1.len());
    }
    Vec::with_capacity(alloc, longest / TOKEN_BYTES)
}

/// The modules without their items, and the items of each module.
pub(crate) type SplitModules<'a> = (Vec<NamedModule<'a>>, Vec<Vec<Item<'a>>>);

/// The modules with their names and declarations alone, and the items of each module.
pub(crate) fn split_items<'a>(
    alloc: Global,
    modules: Vec<NamedModule<'a>>,
) -> Result<SplitModules<'a>, AllocError>
    ensures items { IfOk result (λ split. with_items split.0.items split.1.items
        ≡ modules_view modules.entry.items) }
    ensures names { IfOk result (λ split. module_names split.0.items
        ≡ module_names modules.entry.items) }
    ensures size { IfOk result (λ split. length split.1.items ≡ length split.0.items) }
{
    let mut heads = Vec::with_capacity(alloc, modules.len())?;
    let mut all = Vec::with_capacity(alloc, modules.len())?;
    for module in modules {
        let NamedModule { name, tree } = module;
        let Module { decls, items } = tree;
        let tree = Module {
            decls,
            items: Vec::new(alloc),
        };
        heads.push(NamedModule { name, tree })?;
        all.push(items)?;
    }
    Ok((heads, all))
}

/// The tree of a module's text, or the refusal of its first fault. Its tokens take the place of what `tokens` held.
fn read_module<'a>(
    alloc: Global,
    name: &str,
    text: &'a [u8],
    tokens: &mut Vec<Token<'a>>,
) -> Result<Module<'a>, Refusal>
    ensures { MatchResult result (λ tree. IsRead text.now (module_view tree))
        (IsFaultOf name.now text.now) }
{
    if let Err(fault) = read_tokens(text, tokens) {
        return Err(refusal_of_text_fault(String::from_str(alloc, name)?, fault));
    }
    match parse(alloc, tokens.as_slice()) {
        Ok(tree) => Ok(tree),
        Err(fault) => Err(refusal_of_syntax_fault(String::from_str(alloc, name)?, fault)),
    }
}

/// The refusal of a module whose text has no tokens.
fn refusal_of_text_fault(module: String, fault: TextFault) -> Refusal
    ensures { (text : Text) → HasFault text fault → IsFaultOf (string_bytes «module») text result }
{
    match fault {
        TextFault::Encoding { at: _ } => Refusal::Encoding { module },
        TextFault::Lexical { at: _ } => Refusal::Lexical { module },
        TextFault::Memory => Refusal::Memory,
    }
}

/// The refusal of a module whose tokens are none, or which has a fault.
fn refusal_of_syntax_fault(module: String, fault: SyntaxFault) -> Refusal
    ensures { (text : Text) (tokens : List source.Token) → IsUtf8 text
        → HasTokens (chars text) (map lexeme_of tokens) → IsFault tokens fault
        → IsFaultOf (string_bytes «module») text result }
{
    match fault.kind_and_place() {
        Some((kind, _)) => Refusal::of_fault(kind, module),
        None => Refusal::Memory,
    }
}
