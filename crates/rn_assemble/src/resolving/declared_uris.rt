// The URIs of a module's declarations. Each is copied once, and shared by all that is resolved by it.
ghost use Rattle.std.specs.Prelude.{◌≡◌, false, List, map, IfOk};
ghost use Rattle.std.specs.List.{list_any};
ghost use Rattle.rn_text.specs.Texts.{Text};
ghost use Rattle.rn_syntax.specs.BindingDeclarations.{bound};
ghost use Rattle.rn_syntax.specs.Places.{uri_of};
ghost use Rattle.rn_syntax.specs.Tree as tree;
ghost use Rattle.rn_syntax.specs.View.{declaration_view, uri_view};
ghost use Rattle.rn_assemble.specs.declared.resolving.declared_uris.SharedUri.{SharedUri};
ghost use Rattle.rn_assemble.specs.inside.Shared.{is_inherited, shared_uri};

use crate::resolving::constants::Constants;
use rn_syntax::{Bindings, Declaration, Uri};
use std::alloc::{AllocError, Global};
use std::rc::RcStr;

/// The URI of a declaration: a text, or the inherited namespace.
#[derive(Drop)]
pub(crate) enum SharedUri {
    Text(RcStr),
    Inherited,
}

/// Which declarations of a module bind, by their numbers, and the URI of each declaration.
#[derive(Drop)]
pub(crate) struct DeclaredUris<'t> {
    pub numbers: Bindings<'t, 't>,
    pub uris: Vec<SharedUri>,
    pub constants: Constants,
    ghost uris_are: { map shared_uri uris.items ≡ map uri_of (bound numbers) },
}

impl<'t> DeclaredUris<'t> {
    ghost use Rattle.rn_assemble.specs.inside.ContextBindings.{AgreeUnder, BindsAs};

    /// What these declarations bind, and their URIs.
    #[tactic(auto, using(crate::specs::inside::ContextBindings::are_bound))]
    pub fn new(
        alloc: Global,
        declarations: &'t [Declaration<'t>],
        constants: &Constants,
    ) -> Result<DeclaredUris<'t>, AllocError>
        ensures { IfOk result (λ b. BindsAs b (map declaration_view declarations.now)) }
    {
        Ok(DeclaredUris {
            numbers: Bindings::new(alloc, declarations)?,
            uris: shared_uris(alloc, declarations)?,
            constants: constants.share()?,
        })
    }

    /// Whether the default namespace, or that of some prefix, is the one that the module inherits.
    pub fn inherits(&self) -> bool
        ensures { (ds : List tree.Declaration) (u v : Text) → BindsAs self.now ds → result ≡ false
            → AgreeUnder ds u v }
    {
        match self.numbers.default() {
            Some(_) => has_inherited(&self.uris),
            None => true,
        }
    }
}

/// Whether one of the URIs is the inherited namespace.
fn has_inherited(uris: &[SharedUri]) -> bool
    ensures { result ≡ list_any (λ (u : SharedUri). is_inherited (shared_uri u)) uris.now }
{
    uris.iter()
        .any(|uri: &SharedUri| matches!(uri, SharedUri::Inherited))
}

/// The URI of each declaration.
fn shared_uris(
    alloc: Global,
    declarations: &[Declaration<'_>],
) -> Result<Vec<SharedUri>, AllocError>
    ensures { IfOk result (λ uris. map shared_uri uris.items
        ≡ map uri_of (map declaration_view declarations.now)) }
{
    let mut uris = Vec::new(alloc);
    for declaration in declarations {
        uris.push(declared_uri(alloc, declaration)?)?;
    }
    Ok(uris)
}

/// The URI of a declaration.
fn declared_uri(alloc: Global, declaration: &Declaration<'_>) -> Result<SharedUri, AllocError>
    ensures { IfOk result (λ u. shared_uri u ≡ uri_of (declaration_view declaration.now)) }
{
    match declaration {
        Declaration::Namespace(_, uri) => namespace_uri(alloc, uri),
        Declaration::Default(_, _, uri) => namespace_uri(alloc, uri),
        Declaration::Datatypes(_, uri) => {
            Ok(SharedUri::Text(RcStr::from_str(alloc, uri.as_str())?))
        }
    }
}

/// The URI of a namespace.
fn namespace_uri(alloc: Global, uri: &Uri<'_>) -> Result<SharedUri, AllocError>
    ensures { IfOk result (λ u. shared_uri u ≡ uri_view uri.now) }
{
    match uri {
        Uri::Literal(uri) => Ok(SharedUri::Text(RcStr::from_str(alloc, uri.as_str())?)),
        Uri::Inherited => Ok(SharedUri::Inherited),
    }
}
