// The URIs of modules' declarations replaced by short texts.
ghost use Rattle.std.specs.Prelude.{◌≡◌, ◌⊎◌, ◌∷◌, ◌++◌, [], IfOk, OnOk, map, option_map};
ghost use Rattle.std.specs.Cow.{cow_str_bytes};
ghost use Rattle.std.specs.List.{AllByRecursion, AllZip, list_any};
ghost use Rattle.rn_syntax.specs.Places.{uri_of};
ghost use Rattle.rn_syntax.specs.View.{declaration_view};
ghost use Rattle.rn_assemble.specs.ShortTexts.{IsKnown, IsTable, declared_uris, is_long, literal_text, long_uri, module_uris, short_texts, short_texts_of, special_uris};
ghost use Rattle.rn_assemble.specs.inside.Covered.{AreCovered, HasShort, IsCovered, StandsForDeclaration, StandsForModule};
ghost use Rattle.rn_assemble.specs.inside.GatheredUris.{AreGathered, GathersUris};
ghost use Rattle.rn_assemble.specs.inside.RenamedModules.{DeclareKnown, renamed_modules};
ghost use Rattle.rn_assemble.specs.inside.Views.{modules_view, named_module_view};

use crate::reading::named_modules::NamedModule;
use crate::short_uris::{MAX_KEPT_URI, ShortUris};
use rn_pattern::XMLNS_URI;
use rn_syntax::{Declaration, Module, Uri, XML_URI, XSD_URI};
use std::alloc::{AllocError, Global};
use std::borrow::CowStr;
use std::collections::BTreeSet;

/// Short texts for the URIs that the modules declare; none where no URI is long.
pub(crate) fn short_uris_of(
    alloc: Global,
    modules: &[NamedModule<'_>],
) -> Result<ShortUris, AllocError>
    ensures texts { IfOk result (λ s. short_texts s ≡ short_texts_of (modules_view modules.now)) }
    ensures table { IfOk result (λ s. IsTable (short_texts s)) }
    ensures covered { IfOk result (λ s. (short_texts s ≡ [])
        ⊎ AreCovered (short_texts s) (modules_view modules.now)) }
{
    if !have_long_uri(modules) {
        return Ok(ShortUris::none(alloc));
    }
    ShortUris::of(alloc, literal_uris(alloc, modules)?)
}

/// The URI of a declaration, if it isn't inherited.
fn literal_uri<'d>(declaration: &'d Declaration<'_>) -> Option<&'d str>
    ensures { option_map (λ s. s.now) result
        ≡ literal_text (uri_of (declaration_view declaration.now)) }
{
    match declaration {
        Declaration::Namespace(_, Uri::Literal(uri)) => Some(uri.as_str()),
        Declaration::Default(_, _, Uri::Literal(uri)) => Some(uri.as_str()),
        Declaration::Datatypes(_, uri) => Some(uri.as_str()),
        _ => None,
    }
}

/// Whether the URI of a declaration is long.
fn declares_long(declaration: &Declaration<'_>) -> bool
    ensures { result ≡ list_any is_long
        (declared_uris (declaration_view declaration.now ∷ [])) }
{
    match literal_uri(declaration) {
        Some(uri) => uri.len() > MAX_KEPT_URI,
        None => false,
    }
}

/// Whether a URI of the declarations is long.
fn has_long_uri(declarations: &[Declaration<'_>]) -> bool
    ensures { result ≡ list_any is_long (declared_uris (map declaration_view declarations.now)) }
{
    for declaration in declarations {
        if declares_long(declaration) {
            return true;
        }
    }
    false
}

/// Whether a module declares a long URI.
fn have_long_uri(modules: &[NamedModule<'_>]) -> bool
    ensures { result ≡ list_any is_long (module_uris (modules_view modules.now)) }
{
    for module in modules {
        if has_long_uri(&module.tree.decls) {
            return true;
        }
    }
    false
}

/// The URIs that the modules declare, and those that mean something by themselves: no namespace, and those of `xml`,
/// `xsd` and of declarations.
fn literal_uris<'m>(
    alloc: Global,
    modules: &'m [NamedModule<'_>],
) -> Result<BTreeSet<&'m str>, AllocError>
    ensures { IfOk result (AreGathered (special_uris ++ module_uris (modules_view modules.now))) }
{
    let mut uris = BTreeSet::new(alloc);
    add_special(&mut uris)?;
    for module in modules {
        add_literals(&module.tree.decls, &mut uris)?;
    }
    Ok(uris)
}

/// Adds the URIs that mean something by themselves.
fn add_special<'u>(uris: &mut BTreeSet<&'u str>) -> Result<(), AllocError>
    ensures { OnOk result (GathersUris special_uris uris.old uris.new) }
{
    add_uri("", uris)?;
    add_uri(XML_URI, uris)?;
    add_uri(XSD_URI, uris)?;
    add_uri(XMLNS_URI, uris)
}

/// Adds the URIs of the declarations.
fn add_literals<'d>(
    declarations: &'d [Declaration<'_>],
    uris: &mut BTreeSet<&'d str>,
) -> Result<(), AllocError>
    ensures { OnOk result (GathersUris (declared_uris (map declaration_view declarations.now))
        uris.old uris.new) }
{
    for declaration in declarations {
        add_literal(declaration, uris)?;
    }
    Ok(())
}

/// Adds the URI of the declaration; nothing where it is inherited.
fn add_literal<'d>(
    declaration: &'d Declaration<'_>,
    uris: &mut BTreeSet<&'d str>,
) -> Result<(), AllocError>
    ensures { OnOk result (GathersUris (declared_uris (declaration_view declaration.now ∷ []))
        uris.old uris.new) }
{
    match literal_uri(declaration) {
        Some(uri) => add_uri(uri, uris),
        None => Ok(()),
    }
}

/// Adds the URI to the set, which holds each one once.
fn add_uri<'u>(uri: &'u str, uris: &mut BTreeSet<&'u str>) -> Result<(), AllocError>
    ensures { OnOk result (GathersUris (uri.now ∷ []) uris.old uris.new) }
{
    uris.insert(uri)?;
    Ok(())
}

/// The modules with short texts in the place of the URIs that they declare.
pub(crate) fn shorten_modules<'a>(
    alloc: Global,
    uris: &ShortUris,
    modules: Vec<NamedModule<'a>>,
) -> Result<Vec<NamedModule<'a>>, AllocError>
    requires table { IsTable (short_texts uris.now) }
    requires covered { (short_texts uris.now ≡ [])
        ⊎ AreCovered (short_texts uris.now) (modules_view modules.items) }
    ensures modules { IfOk result (λ v. renamed_modules (long_uri (short_texts uris.now))
        (modules_view v.items) ≡ modules_view modules.entry.items) }
    ensures known { IfOk result
        (λ v. DeclareKnown (IsKnown (short_texts uris.now)) (modules_view v.items)) }
{
    if uris.is_empty() {
        return Ok(modules);
    }
    shorten_each(alloc, uris, modules)
}

/// What declares URIs, in whose place short texts can stand.
trait Shorten: Sized + Drop {
    ghost use Rattle.rn_assemble.specs.ShortTexts.{ShortTexts};

    // Each URI that it declares has a short text.
    ghost is_covered: { ShortTexts → Self → Type 0 };

    // With these short texts, the second replaces the first.
    ghost stands_for: { ShortTexts → Self → Self → Type 0 };

    /// The value with short texts in the place of the URIs that it declares.
    fn shorten(self, alloc: Global, uris: &ShortUris) -> Result<Self, AllocError>
        requires table { IsTable (short_texts uris.now) }
        requires covered { is_covered (short_texts uris.now) self }
        ensures { IfOk result (stands_for (short_texts uris.now) self) };
}

/// Each of the list, with short texts in the place of its URIs.
fn shorten_each<T: Shorten>(
    alloc: Global,
    uris: &ShortUris,
    list: Vec<T>,
) -> Result<Vec<T>, AllocError>
    requires table { IsTable (short_texts uris.now) }
    requires covered { AllByRecursion (T.is_covered (short_texts uris.now)) list.items }
    ensures { IfOk result (λ short. AllZip (T.stands_for (short_texts uris.now))
        list.items short.items) }
{
    let mut short = Vec::with_capacity(alloc, list.len())?;
    for item in list {
        short.push(item.shorten(alloc, uris)?)?;
    }
    Ok(short)
}

impl<'a> Shorten for NamedModule<'a> {
    ghost is_covered = { λ es m. AllByRecursion (IsCovered es)
        (named_module_view m).tree.declarations };

    ghost stands_for = { λ es m n. StandsForModule es (named_module_view m) (named_module_view n) };

    fn shorten(self, alloc: Global, uris: &ShortUris) -> Result<NamedModule<'a>, AllocError> {
        let NamedModule { name, tree } = self;
        let Module { decls, items } = tree;
        let decls = shorten_each(alloc, uris, decls)?;
        Ok(NamedModule {
            name,
            tree: Module { decls, items },
        })
    }
}

impl<'a> Shorten for Declaration<'a> {
    ghost is_covered = { λ es d. IsCovered es (declaration_view d) };

    ghost stands_for = { λ es d e. StandsForDeclaration es (declaration_view d)
        (declaration_view e) };

    fn shorten(self, alloc: Global, uris: &ShortUris) -> Result<Declaration<'a>, AllocError> {
        match self {
            Declaration::Namespace(prefix, Uri::Literal(uri)) => {
                let uri = shorten_text(alloc, uris, uri)?;
                Ok(Declaration::Namespace(prefix, Uri::Literal(uri)))
            }
            Declaration::Default(at, prefix, Uri::Literal(uri)) => {
                let uri = shorten_text(alloc, uris, uri)?;
                Ok(Declaration::Default(at, prefix, Uri::Literal(uri)))
            }
            Declaration::Datatypes(prefix, uri) => {
                let uri = shorten_text(alloc, uris, uri)?;
                Ok(Declaration::Datatypes(prefix, uri))
            }
            inherited => Ok(inherited),
        }
    }
}

/// The short text of a URI.
fn shorten_text<'a>(
    alloc: Global,
    uris: &ShortUris,
    uri: CowStr<'a>,
) -> Result<CowStr<'a>, AllocError>
    requires table { IsTable (short_texts uris.now) }
    requires covered { HasShort (short_texts uris.now) (cow_str_bytes uri) }
    ensures renamed { IfOk result (λ s. long_uri (short_texts uris.now) (cow_str_bytes s)
        ≡ cow_str_bytes uri.entry) }
    ensures known { IfOk result (λ s. IsKnown (short_texts uris.now) (cow_str_bytes s)) }
{
    match uris.short_text(uri.as_str()) {
        Some(short) => Ok(CowStr::Owned(String::from_str(alloc, short)?)),
        None => Ok(uri),
    }
}
