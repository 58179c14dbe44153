// The compact text of terms, after the declarations of their prefixes.
ghost use Rattle.std.specs.Prelude.{◌≡◌, [], true, List, IfOk, OnOk, string_bytes};
ghost use Rattle.std.specs.Str.{chars};
ghost use Rattle.rn_text.specs.Characters.{is_name_start, is_ncname};
ghost use Rattle.rn_translate.specs.Terms.{Namespace, Term as MeantTerm};
ghost use Rattle.rn_translate.specs.inside.DraftTokens.{IsPrintedAs, Writes};
ghost use Rattle.rn_translate.specs.SchemaTokens.{schema_tokens};
ghost use Rattle.rn_translate.specs.inside.PrintedSchemas.{IsPrintable};
ghost use Rattle.rn_translate.specs.inside.NeededPrefixes.{AreBound, each_once, needed_libraries, needed_library, needed_namespace, needed_namespaces, unless};
ghost use Rattle.rn_translate.specs.inside.PrintedTerms.{bound_tokens, datatype_token, declared_tokens, default_tokens, is_built_in, prefix_bytes, prefix_tokens, prefixes_tokens, printed_tokens, term_tokens, terms_tokens, uri_tokens};

use crate::draft::Draft;
use crate::prefixes::{BoundUri, Prefixes, numbered};
use crate::rng_fault::RngFault;
use crate::signs::Sign;
use crate::terms::{Placed, Term};
use crate::uris::{Uri, Uris};
use rn_text::Keyword;
use std::alloc::Global;

/// What declarations bind.
#[derive(Drop)]
pub(crate) struct Declared<'u, 'd> {
    /// The URIs.
    pub uris: &'u Uris<'d>,
    /// The default namespace.
    pub default: Uri,
    /// The prefixes of namespaces.
    pub namespaces: Prefixes,
    /// The prefixes of datatype libraries.
    pub libraries: Prefixes,
}

/// The namespace whose prefix a term needs.
fn needed_namespace(term: Term<'_>) -> Option<Uri>
    ensures { result ≡ needed_namespace term.entry }
{
    match term {
        Term::Named(uri, _) | Term::AnyOf(uri) | Term::Prefix(uri) => unless(uri.is(Uri::XML), uri),
        _ => None,
    }
}

/// A URI, unless something is so.
fn unless(is_so: bool, uri: Uri) -> Option<Uri>
    ensures { result ≡ unless is_so uri }
{
    if is_so { None } else { Some(uri) }
}

/// Whether a datatype of a library is one that a keyword names (compact syntax, section 2).
fn is_built_in(library: Uri, name: &str) -> bool
    ensures { result ≡ is_built_in library name.now }
{
    library.is(Uri::EMPTY) && (name == "string" || name == "token")
}

/// The library whose prefix a term needs.
fn needed_library(term: Term<'_>) -> Option<Uri>
    ensures { result ≡ needed_library term.entry }
{
    match term {
        Term::Datatype(library, name) => unless(
            library.is(Uri::XSD) || is_built_in(library, name),
            library,
        ),
        _ => None,
    }
}

impl<'u, 'd> Declared<'u, 'd> {
    /// The prefixes that terms need, in the order in which they first need them.
    pub fn of(
        alloc: Global,
        uris: &'u Uris<'d>,
        default: Uri,
        terms: &[Placed<'_>],
    ) -> Result<Declared<'u, 'd>, RngFault>
        ensures uris { IfOk result (λ declared. declared.uris.now ≡ uris.now) }
        ensures default { IfOk result (λ declared. declared.default ≡ default) }
        ensures namespaces { IfOk result (λ declared. AreBound declared.namespaces
            (each_once (needed_namespaces terms.now))) }
        ensures libraries { IfOk result (λ declared. AreBound declared.libraries
            (each_once (needed_libraries terms.now))) }
    {
        let mut namespaces = Prefixes::new(alloc);
        let mut libraries = Prefixes::new(alloc);
        'terms: for placed in terms {
            namespaces.bind(needed_namespace(placed.term), placed.at)?;
            libraries.bind(needed_library(placed.term), placed.at)?;
        }
        Ok(Declared {
            uris,
            default,
            namespaces,
            libraries,
        })
    }

    /// The prefix of a namespace.
    #[tactic(auto, using(crate::proofs::NumberedNames::xml_name), unfolding(rn_text::specs::Characters::is_name_start))]
    fn prefix(&self, alloc: Global, namespace: Uri) -> Result<String, RngFault>
        ensures text { IfOk result (λ prefix. string_bytes prefix
            ≡ prefix_bytes self.now namespace) }
        ensures name { IfOk result (λ prefix. is_ncname (chars (string_bytes prefix)) ≡ true) }
    {
        if namespace.is(Uri::XML) {
            return Ok(String::from_str(alloc, "xml")?);
        }
        Ok(numbered(alloc, 'n', self.namespaces.number(namespace))?)
    }
}

impl Draft {
    /// Writes a term.
    fn put_term(
        &mut self,
        alloc: Global,
        declared: &Declared<'_, '_>,
        placed: Placed<'_>,
    ) -> Result<(), RngFault>
        ensures tokens { OnOk result (Writes self.old self.new
            (term_tokens declared.now placed.entry.term)) }
        ensures source { self.new.source_len ≡ self.old.source_len }
    {
        let at = placed.at;
        match placed.term {
            Term::Sign(sign) => self.put_sign(at, sign),
            Term::Keyword(keyword) => self.put_keyword(at, keyword),
            Term::Identifier(name) => self.put_identifier(alloc, at, name),
            Term::Local(name) => self.put_word(at, name),
            Term::Named(namespace, local) => {
                let prefix = declared.prefix(alloc, namespace)?;
                self.put_prefixed(alloc, at, prefix.as_str(), local)
            }
            Term::Parenthesis => self.put_parenthesis(at),
            Term::AnyName => self.put_any_name(at),
            Term::AnyOf(namespace) => {
                let prefix = declared.prefix(alloc, namespace)?;
                self.put_any_of(alloc, at, prefix.as_str())
            }
            Term::Prefix(namespace) => {
                let prefix = declared.prefix(alloc, namespace)?;
                self.put_word(at, prefix.as_str())
            }
            Term::Datatype(library, name) => {
                self.put_datatype(alloc, declared, at, library, name)
            }
            Term::Literal(text) => self.put_literal(alloc, at, text),
        }
    }

    /// Writes the name of a datatype of a library (4.3 and 4.4).
    #[tactic(auto, using(crate::proofs::NumberedNames::xsd_name), unfolding(rn_text::specs::Characters::is_name_start))]
    fn put_datatype(
        &mut self,
        alloc: Global,
        declared: &Declared<'_, '_>,
        at: usize,
        library: Uri,
        name: &str,
    ) -> Result<(), RngFault>
        requires { is_ncname (chars name.now) ≡ true }
        ensures tokens { OnOk result (Writes self.old self.new
            (datatype_token declared.now library name.now)) }
        ensures source { self.new.source_len ≡ self.old.source_len }
    {
        if library.is(Uri::XSD) {
            return self.put_prefixed(alloc, at, "xsd", name);
        }
        if is_built_in(library, name) {
            return self.put_word(at, name);
        }
        let prefix = numbered(alloc, 'd', declared.libraries.number(library))?;
        self.put_prefixed(alloc, at, prefix.as_str(), name)
    }
}

impl Draft {
    /// Writes the declarations of prefixes, and that of the default namespace before them.
    #[tactic(auto, unfolding(rn_text::specs::Characters::is_name_start))]
    fn put_declarations(
        &mut self,
        alloc: Global,
        declared: &Declared<'_, '_>,
    ) -> Result<(), RngFault>
        ensures tokens { OnOk result (Writes self.old self.new (declared_tokens declared.now)) }
        ensures source { self.new.source_len ≡ self.old.source_len }
    {
        self.declare_default(alloc, declared.uris, declared.default)?;
        let (namespaces, libraries) = (&declared.namespaces, &declared.libraries);
        self.declare_all(alloc, declared.uris, Keyword::Namespace, 'n', namespaces)?;
        self.declare_all(alloc, declared.uris, Keyword::Datatypes, 'd', libraries)
    }

    /// Declares the default namespace, if there is one.
    fn declare_default(&mut self, alloc: Global, uris: &Uris<'_>, uri: Uri) -> Result<(), RngFault>
        ensures tokens { OnOk result (Writes self.old self.new (default_tokens uris.now uri)) }
        ensures source { self.new.source_len ≡ self.old.source_len }
    {
        if uri.is(Uri::INHERITED) {
            return Ok(());
        }
        self.put_keyword(0, Keyword::Default)?;
        self.put_keyword(0, Keyword::Namespace)?;
        self.declare(alloc, uris, BoundUri { uri, at: 0 })
    }

    /// Declares prefixes, by this keyword: this letter and a number, from 1 on.
    fn declare_all(
        &mut self,
        alloc: Global,
        uris: &Uris<'_>,
        keyword: Keyword,
        letter: char,
        prefixes: &Prefixes,
    ) -> Result<(), RngFault>
        requires { is_name_start letter ≡ true }
        ensures tokens { OnOk result (Writes self.old self.new
            (prefixes_tokens uris.now keyword letter 0 prefixes.now.bound.items)) }
        ensures source { self.new.source_len ≡ self.old.source_len }
    {
        'bound: for (before, it) in prefixes.bound.iter().enumerate() {
            self.declare_prefix(alloc, uris, keyword, letter, before + 1, *it)?;
        }
        Ok(())
    }

    /// Declares the prefix of this letter and this number.
    fn declare_prefix(
        &mut self,
        alloc: Global,
        uris: &Uris<'_>,
        keyword: Keyword,
        letter: char,
        number: usize,
        bound: BoundUri,
    ) -> Result<(), RngFault>
        requires { is_name_start letter ≡ true }
        ensures tokens { OnOk result (Writes self.old self.new
            (prefix_tokens uris.now keyword letter number bound.uri)) }
        ensures source { self.new.source_len ≡ self.old.source_len }
    {
        self.put_keyword(bound.at, keyword)?;
        let prefix = numbered(alloc, letter, number)?;
        self.put_word(bound.at, prefix.as_str())?;
        self.declare(alloc, uris, bound)
    }

    /// Writes the URI that is bound, behind what it is bound to.
    fn declare(&mut self, alloc: Global, uris: &Uris<'_>, bound: BoundUri) -> Result<(), RngFault>
        ensures tokens { OnOk result (Writes self.old self.new (bound_tokens uris.now bound.uri)) }
        ensures source { self.new.source_len ≡ self.old.source_len }
    {
        self.put_sign(bound.at, Sign::Equals)?;
        self.put_uri(alloc, uris, bound)?;
        self.put_sign(bound.at, Sign::LineEnd)
    }

    /// Writes a URI, or that it is inherited.
    fn put_uri(&mut self, alloc: Global, uris: &Uris<'_>, bound: BoundUri) -> Result<(), RngFault>
        ensures tokens { OnOk result (Writes self.old self.new (uri_tokens uris.now bound.uri)) }
        ensures source { self.new.source_len ≡ self.old.source_len }
    {
        if bound.uri.is(Uri::INHERITED) {
            return self.put_keyword(bound.at, Keyword::Inherit);
        }
        self.put_literal(alloc, bound.at, uris.text(bound.uri))
    }

    /// Writes terms, behind the declarations of their prefixes.
    fn put_terms(
        &mut self,
        alloc: Global,
        declared: &Declared<'_, '_>,
        terms: &[Placed<'_>],
    ) -> Result<(), RngFault>
        ensures tokens { OnOk result (Writes self.old self.new
            (terms_tokens declared.now terms.now)) }
        ensures source { self.new.source_len ≡ self.old.source_len }
    {
        'terms: for placed in terms {
            self.put_term(alloc, declared, *placed)?;
        }
        Ok(())
    }

    /// Ends the last line, if it isn't ended.
    fn end_line(&mut self) -> Result<(), RngFault>
        ensures tokens { OnOk result (Writes self.old self.new []) }
        ensures source { self.new.source_len ≡ self.old.source_len }
    {
        if self.text.is_empty() || self.text.ends_with('\n') {
            return Ok(());
        }
        self.put_sign(0, Sign::LineEnd)
    }
}

/// The compact text of terms, for a document of so many bytes.
pub(crate) fn print(
    alloc: Global,
    source_len: usize,
    declared: &Declared<'_, '_>,
    terms: &[Placed<'_>],
) -> Result<Draft, RngFault>
    ensures source { IfOk result (λ whole. whole.source_len ≡ source_len) }
    ensures tokens { IfOk result (λ whole. IsPrintedAs whole
        (printed_tokens declared.now terms.now)) }
    ensures meant { (default : Namespace) (ts : List MeantTerm)
        → IsPrintable declared.now terms.now default ts
        → IfOk result (λ whole. IsPrintedAs whole (schema_tokens default ts)) }
{
    let mut whole = Draft::new(alloc, source_len);
    whole.put_declarations(alloc, declared)?;
    whole.put_terms(alloc, declared, terms)?;
    whole.end_line()?;
    Ok(whole)
}
