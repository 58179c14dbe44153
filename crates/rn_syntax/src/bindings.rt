// What the declarations of a module bind.
ghost use Rattle.std.specs.Prelude.{◌≡◌, ◌<◌, ◌++◌, ◌∷◌, [], ℕ, List, length, Option, Some, None, is_some, MatchOption, ⊤, map, IfOk, option_map, ◌||◌, if◌then◌else◌};
ghost use Rattle.rn_syntax.specs.Tree.{literal};
ghost use Rattle.rn_syntax.specs.Places as places;
ghost use Rattle.rn_syntax.specs.Places.{first};
ghost use Rattle.rn_syntax.specs.View.{declaration_view, uri_view};
ghost use Rattle.rn_syntax.specs.inside.Numbered.{AreNumbers, is_prefix, library_text, number_at, wrong_declaration};

use crate::tree::{Declaration, Prefix, Uri};
use std::alloc::{AllocError, Global};
use std::collections::BTreeMap;

/// The namespace of prefix `xml` (Namespaces in XML, section 3).
pub const XML_URI: &str = "http://www.w3.org/XML/1998/namespace";

/// The library of datatype prefix `xsd` (RELAX NG Compact Syntax, 2, decl).
pub const XSD_URI: &str = "http://www.w3.org/2001/XMLSchema-datatypes";

/// What the declarations of a module bind: the default namespace, namespace prefixes and datatype prefixes, each by the
/// first declaration that does. A declaration is told by its number: its index among the declarations.
#[derive(Drop)]
pub struct Bindings<'m, 'a> {
    declarations: &'m [Declaration<'a>],
    default: Option<usize>,
    namespaces: BTreeMap<&'m str, usize>,
    libraries: BTreeMap<&'m str, usize>,
    ghost default_is: { default ≡ places.number_of places.is_default (map declaration_view declarations.now) },
    ghost namespaces_are: { AreNumbers places.binds_namespace namespaces declarations.now },
    ghost libraries_are: { AreNumbers places.binds_library libraries declarations.now },
}

impl<'m, 'a> Bindings<'m, 'a> {
    ghost use Rattle.rn_syntax.specs.BindingDeclarations.{bound};

    /// What these declarations bind, whether they may bind it so or not. It fails only where memory is refused.
    pub fn new(alloc: Global, declarations: &'m [Declaration<'a>]) -> Result<Self, AllocError>
        ensures { IfOk result (λ b. bound b ≡ map declaration_view declarations.now) }
    {
        let (bindings, _) = bind_all(alloc, declarations)?;
        Ok(bindings)
    }

    /// What a module without declarations binds.
    fn of_none(alloc: Global) -> Self
        ensures { result.declarations.now ≡ [] }
    {
        Bindings {
            declarations: &[],
            default: None,
            namespaces: BTreeMap::new(alloc),
            libraries: BTreeMap::new(alloc),
        }
    }

    /// The number of the first default declaration, if there is one.
    pub fn default(&self) -> Option<usize>
        ensures number { result ≡ places.number_of places.is_default (bound self.now) }
        ensures within { MatchOption result ⊤ (λ n. n < length (bound self.now)) }
        ensures uri { places.declared_default (bound self.now)
            ≡ option_map (places.uri_at (bound self.now)) result }
    {
        self.default
    }

    /// The number of the first declaration that binds the namespace prefix, if one does. `xml` is bound without
    /// a declaration, so for it the answer may be `None`.
    pub fn namespace(&self, prefix: &str) -> Option<usize>
        ensures number { result
            ≡ places.number_of (places.binds_namespace prefix.now) (bound self.now) }
        ensures within { MatchOption result ⊤ (λ n. n < length (bound self.now)) }
        ensures uri { places.declared_namespace (bound self.now) prefix.now
            ≡ option_map (places.uri_at (bound self.now)) result }
    {
        self.namespaces.get(prefix).copied()
    }

    /// The number of the first declaration that binds the datatype prefix, if one does. `xsd` is bound without
    /// a declaration, so for it the answer may be `None`.
    pub fn library(&self, prefix: &str) -> Option<usize>
        ensures number { result
            ≡ places.number_of (places.binds_library prefix.now) (bound self.now) }
        ensures within { MatchOption result ⊤ (λ n. n < length (bound self.now)) }
        ensures uri { option_map literal (places.declared_library (bound self.now) prefix.now)
            ≡ option_map (places.uri_at (bound self.now)) result }
    {
        self.libraries.get(prefix).copied()
    }

    /// Whether the default namespace is declared.
    fn has_default(&self) -> bool
        ensures { result ≡ places.has_default (bound self.now) }
    {
        self.default.is_some()
    }

    /// Whether the namespace prefix is bound.
    pub(crate) fn is_bound(&self, prefix: &str) -> bool
        ensures { result ≡ places.is_bound (bound self.now) prefix.now }
    {
        prefix == "xml" || self.namespace(prefix).is_some()
    }

    /// Whether the datatype prefix is bound.
    pub(crate) fn has_library(&self, prefix: &str) -> bool
        ensures { result ≡ is_some (places.library_of (bound self.now) prefix.now) }
    {
        prefix == "xsd" || self.library(prefix).is_some()
    }

    /// Whether the datatype prefix is bound to this library.
    pub(crate) fn is_library(&self, prefix: &str, uri: &str) -> bool
        ensures { result ≡ places.is_library
            (places.library_of (bound self.now) prefix.now) uri.now }
    {
        if prefix == "xsd" {
            return XSD_URI == uri;
        }
        let Some(number) = self.library(prefix) else {
            return false;
        };
        let declarations = self.declarations;
        is_library(&declarations[number], uri)
    }

    /// Whether the prefix is bound to the library of XML Schema.
    pub(crate) fn is_xml_schema(&self, prefix: &str) -> bool
        ensures { result ≡ places.is_library
            (places.library_of (bound self.now) prefix.now) places.xsd_uri }
    {
        self.is_library(prefix, XSD_URI)
    }

    /// The place of a namespace prefix that may not be bound so.
    fn wrong_namespace(&self, prefix: Prefix<'_>, uri: &Uri<'_>) -> Option<usize>
        ensures { result ≡ first (places.place_if
            (places.is_wrong_namespace (bound self.now) prefix.entry.name.now (uri_view uri.now))
            prefix.entry.at) }
    {
        let is_wrong = prefix.name == "xmlns"
            || (prefix.name == "xml" && !is_xml(uri))
            || self.namespace(prefix.name).is_some();
        if is_wrong { Some(prefix.at) } else { None }
    }

    /// The place of a datatype prefix that may not be bound so.
    fn wrong_library(&self, prefix: Prefix<'_>, uri: &str) -> Option<usize>
        ensures { result ≡ first (places.place_if
            (places.is_wrong_library (bound self.now) prefix.entry.name.now uri.now)
            prefix.entry.at) }
    {
        let is_wrong = (prefix.name == "xsd" && uri != XSD_URI)
            || self.library(prefix.name).is_some();
        if is_wrong { Some(prefix.at) } else { None }
    }

    /// What these declarations bind, of which the last comes behind those that are bound.
    fn bind(
        self,
        declarations: &'m [Declaration<'a>],
        last: &'m Declaration<'a>,
    ) -> Result<Self, AllocError>
        requires { declarations.now ≡ self.declarations.now ++ last.now ∷ [] }
        ensures { IfOk result (λ b. b.declarations.now ≡ declarations.now) }
    {
        let Bindings {
            declarations: before,
            default,
            namespaces,
            libraries,
        } = self;
        let number = before.len();
        let namespaces = with_prefix(namespaces, namespace_prefix(last), number)?;
        let libraries = with_prefix(libraries, library_prefix(last), number)?;
        let default = with_default(default, last, number);
        Ok(Bindings {
            declarations,
            default,
            namespaces,
            libraries,
        })
    }

    /// The place at which a declaration behind these is wrong.
    #[tactic(auto, using(crate::proofs::FaultPlaces::FirstPlaces::none_first, crate::proofs::FaultPlaces::FirstPlaces::some_first))]
    fn wrong_place(&self, declaration: &Declaration<'_>) -> Option<usize>
        ensures { result ≡ first (places.declaration_places (bound self.now)
            (declaration_view declaration.now)) }
    {
        match declaration {
            Declaration::Namespace(prefix, uri) => self.wrong_namespace(*prefix, uri),
            Declaration::Default(at, _, _) if self.has_default() => Some(*at),
            Declaration::Default(_, Some(prefix), uri) => self.wrong_namespace(*prefix, uri),
            Declaration::Default(_, None, _) => None,
            Declaration::Datatypes(prefix, uri) => self.wrong_library(*prefix, uri.as_str()),
        }
    }

    /// The first wrong place with that of a declaration behind these.
    fn first_wrong(&self, wrong: Option<usize>, declaration: &Declaration<'_>) -> Option<usize>
        ensures { result ≡ (if is_some wrong then wrong
            else first (places.declaration_places (bound self.now)
            (declaration_view declaration.now))) }
    {
        match wrong {
            Some(at) => Some(at),
            None => self.wrong_place(declaration),
        }
    }
}

/// The number of the first default declaration, of which one may be this one of that number.
fn with_default(
    before: Option<usize>,
    declaration: &Declaration<'_>,
    number: usize,
) -> Option<usize>
    ensures { result ≡ (if is_some before then before
        else if places.is_default (declaration_view declaration.now) then Some number else None) }
{
    match (before, declaration) {
        (Some(before), _) => Some(before),
        (None, Declaration::Default(_, _, _)) => Some(number),
        (None, _) => None,
    }
}

/// Whether the declaration is of this datatype library.
fn is_library(declaration: &Declaration<'_>, uri: &str) -> bool
    ensures { result ≡ places.is_library
        (library_text (declaration_view declaration.now)) uri.now }
{
    match declaration {
        Declaration::Datatypes(_, library) => library.as_str() == uri,
        _ => false,
    }
}

/// Whether the URI is the namespace of prefix `xml`.
fn is_xml(uri: &Uri<'_>) -> bool
    ensures { result ≡ places.is_xml_uri (uri_view uri.now) }
{
    match uri {
        Uri::Literal(text) => text.as_str() == XML_URI,
        Uri::Inherited => false,
    }
}

/// The namespace prefix that a declaration binds.
fn namespace_prefix<'m>(declaration: &Declaration<'m>) -> Option<&'m str>
    ensures { (p : List ℕ) → places.binds_namespace p (declaration_view declaration.now)
        ≡ is_prefix result p }
{
    match declaration {
        Declaration::Namespace(prefix, _) => Some(prefix.name),
        Declaration::Default(_, Some(prefix), _) => Some(prefix.name),
        Declaration::Default(_, None, _) | Declaration::Datatypes(_, _) => None,
    }
}

/// The datatype prefix that a declaration binds.
fn library_prefix<'m>(declaration: &Declaration<'m>) -> Option<&'m str>
    ensures { (p : List ℕ) → places.binds_library p (declaration_view declaration.now)
        ≡ is_prefix result p }
{
    match declaration {
        Declaration::Datatypes(prefix, _) => Some(prefix.name),
        Declaration::Namespace(_, _) | Declaration::Default(_, _, _) => None,
    }
}

/// The prefixes with this one, where it was not bound, by the declaration of that number.
fn with_prefix<'m>(
    mut numbers: BTreeMap<&'m str, usize>,
    prefix: Option<&'m str>,
    number: usize,
) -> Result<BTreeMap<&'m str, usize>, AllocError>
    ensures { IfOk result (λ m. (p : List ℕ) → number_at m p
        ≡ (if is_some (number_at numbers.entry p) then number_at numbers.entry p
        else if is_prefix prefix.entry p then Some number else None)) }
{
    let Some(prefix) = prefix else {
        return Ok(numbers);
    };
    if numbers.contains_key(prefix) {
        return Ok(numbers);
    }
    numbers.insert(prefix, number)?;
    Ok(numbers)
}

/// What the declarations bind, and the place of the first that is wrong.
pub(crate) fn bind_all<'m, 'a>(
    alloc: Global,
    declarations: &'m [Declaration<'a>],
) -> Result<(Bindings<'m, 'a>, Option<usize>), AllocError>
    ensures { IfOk result (λ r. (r.0.declarations.now ≡ declarations.now)
        × (r.1 ≡ wrong_declaration (map declaration_view declarations.now))) }
{
    let mut bindings = Bindings::of_none(alloc);
    let mut wrong = None;
    'declarations: for index in 0..declarations.len() {
        let last = &declarations[index];
        wrong = bindings.first_wrong(wrong, last);
        bindings = bindings.bind(&declarations[..index + 1], last)?;
    }
    Ok((bindings, wrong))
}
