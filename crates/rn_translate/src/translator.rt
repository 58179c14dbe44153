// What is collected of a document: the terms of its compact text, and how an element opens and ends.
ghost use Rattle.std.specs.Prelude.{◌≡◌, ◌==◌, ◌<◌, ◌+◌, ◌-◌, ◌^◌, ◌++◌, ℕ, true, false, if◌then◌else◌, nat_le, List, IfOk, OnOk, Some, codes, slice_get};
ghost use Rattle.rn_xml.specs.Infoset.{Nodes};
ghost use Rattle.rn_xml.specs.XmlTags.{AreDistinct, Scope};
ghost use Rattle.rn_translate.specs.Terms.{Namespace, Term as MeantTerm};
ghost use Rattle.rn_translate.specs.SchemaElements.{bare_in, nearest, text_of, value_of};
ghost use Rattle.rn_translate.specs.Layouts.{Written, begins, layout};
ghost use Rattle.rn_translate.specs.Translation.{before_child, behind_child, standing_of};
ghost use Rattle.rn_translate.specs.inside.UriTables.{gives_uri};
ghost use Rattle.rn_translate.specs.inside.ElementsMeant.{Comes, IsChildOf, IsInScope, IsMeant, KnowsUris, attributes_at, declared_at};
ghost use Rattle.rn_translate.specs.inside.Meanings.{Adds, AddsInScope, class_meant, is_parted, known, layout_meant, sign_terms, term_meant, uri_meant};
ghost use Rattle.rn_translate.specs.inside.TermNames.{has_names};
ghost use Rattle.rn_translate.specs.inside.Walks.{AreNested, IsContent, content_at};
ghost use Rattle.rn_translate.specs.inside.OpenLevels.{IsAtStart, IsLevelOf, IsOpenOf};

use crate::content::{Holder, needed_attribute};
use crate::document_parts::{Children, attribute, children_of, content_of, element_at};
use crate::kinds::{Kind, Role};
use crate::rng_fault::{RngFault, RngFaultKind};
use crate::signs::Sign;
use crate::standing::{Layout, Standing};
use crate::terms::{Placed, Term};
use crate::uris::{Uri, Uris};
use rn_xml::{Scopes, XmlDocument, XmlElement};
use std::alloc::Global;

/// What an element inherits, or gives itself.
#[derive(Clone, Copy)]
pub(crate) struct Context {
    /// The nearest `ns` (4.9).
    pub namespace: Uri,
    /// The nearest `datatypeLibrary` (4.3).
    pub library: Uri,
    /// The namespace that a name without a prefix is in, where it is written here in the compact text.
    pub bare: Uri,
}

/// Where an element is in the one around it.
#[derive(Clone, Copy)]
pub(crate) struct Place {
    /// What may be there.
    pub role: Role,
    /// How its pattern or name class stands.
    pub standing: Standing,
    /// Whether it is the first of the children.
    pub is_first: bool,
    /// Whether it is the last of them, but for an except.
    pub is_last: bool,
    /// Whether it is the root.
    pub is_root: bool,
}

/// An element of RELAX NG that is open.
#[derive(Clone, Copy)]
pub(crate) struct Open {
    /// The element's index.
    pub index: usize,
    /// Its place in the document's text.
    pub at: usize,
    /// The index of the first element that isn't in it any more.
    pub end: usize,
    /// What it holds.
    pub holder: Holder,
    /// Its children.
    pub children: Children,
    /// What is inherited in it.
    pub context: Context,
    /// Where it is.
    pub place: Place,
}

/// How many children of an element have begun.
#[derive(Clone, Copy)]
pub(crate) struct Begun {
    /// How many.
    pub count: usize,
    /// Whether an except is among them.
    pub has_except: bool,
}

/// An element of RELAX NG that has begun, with what comes behind its children.
#[derive(Clone, Copy)]
pub(crate) struct Level {
    /// The element.
    pub open: Open,
    /// How its children are written.
    pub layout: Layout,
    /// Which of them have begun.
    pub begun: Begun,
    /// What comes behind the element.
    pub behind: Sign,
}

/// What is known in the middle of a document.
#[derive(Drop)]
pub(crate) struct Translator<'d, 'a> {
    pub alloc: Global,
    /// The text of the document.
    pub source: &'d str,
    pub document: &'d XmlDocument<'a>,
    pub uris: Uris<'d>,
    /// For each of the document's namespaces, its URI.
    pub document_uris: Vec<Uri>,
    pub scopes: Scopes,
    /// The terms of the compact text behind its declarations.
    pub terms: Vec<Placed<'d>>,
    /// The namespace of the root, which is the default one.
    pub default: Uri,
    /// The index of the first text that isn't passed yet.
    pub text: usize,
}

impl<'d, 'a> Translator<'d, 'a> {
    /// Before the root of a document that was read from the source.
    #[tactic(auto, using(crate::proofs::LeftScopes::none_declared))]
    pub fn new(
        alloc: Global,
        source: &'d str,
        document: &'d XmlDocument<'a>,
    ) -> Result<Translator<'d, 'a>, RngFault>
        ensures knows { IfOk result (λ made. KnowsUris made) }
        ensures start { IfOk result (λ made. (made.document.now ≡ document.now) × IsAtStart made) }
    {
        let uris = Uris::of(alloc, document)?;
        let document_uris = uris.namespaces(alloc, document)?;
        Ok(Translator {
            alloc,
            source,
            document,
            uris,
            document_uris,
            scopes: Scopes::new(alloc),
            terms: Vec::new(alloc),
            default: Uri::INHERITED,
            text: 0,
        })
    }

    /// Adds a term that is made for a place.
    pub fn put(&mut self, at: usize, term: Term<'d>) -> Result<(), RngFault>
        requires { has_names term ≡ true }
        ensures { (ts : List MeantTerm) → term_meant self.old.uris term.entry ≡ known ts
            → OnOk result (Adds self.old self.new ts) }
    {
        self.terms.push(Placed { term, at })?;
        Ok(())
    }

    /// Adds a sign, if it is one.
    pub fn put_sign(&mut self, at: usize, sign: Sign) -> Result<(), RngFault>
        ensures { OnOk result (Adds self.old self.new (sign_terms sign)) }
    {
        if sign == Sign::Nothing {
            return Ok(());
        }
        self.put(at, Term::Sign(sign))
    }

    /// Begins a child of an element. Refused where it can't be there.
    pub fn begin_child(
        &mut self,
        around: Level,
        index: usize,
        child: &'d XmlElement<'a>,
        kind: Kind,
    ) -> Result<Level, RngFault>
        ensures added { (row : XmlElement) (f e : Written)
            → IsChildOf self.old row around child.now index kind f e
            → OnOk result (AddsInScope self.old self.new (before_child (layout f f.kind).class
            (layout f f.kind).separator around.begun.count ++ begins e e.kind)) }
        ensures meant { (row : XmlElement) (f e : Written)
            → IsChildOf self.old row around child.now index kind f e
            → IfOk result (λ level. IsMeant self.new child.now level.«open» e) }
        ensures layout { (row : XmlElement) (f e : Written)
            → IsChildOf self.old row around child.now index kind f e
            → IfOk result (λ level. layout_meant level.layout ≡ layout e e.kind) }
        ensures behind { IfOk result (λ level. sign_terms level.behind
            ≡ behind_child (layout_meant around.layout).class around.begun.count) }
        ensures of { IfOk result (IsLevelOf child.now index) }
    {
        let begun = around.begun;
        let holder = around.open.holder;
        if let Some(refusal) = holder.refusal(kind, begun.count, begun.has_except) {
            return Err(RngFault::new(child.at, refusal));
        }
        let separator = around.layout.before(begun.count);
        self.put_sign(child.at, separator)?;
        let place = around.open.place_inside(around.layout, begun.count);
        let level = self.begin(child, index, kind, around.open.context, place)?;
        Ok(Level {
            behind: around.layout.behind(begun.count),
            ..level
        })
    }

    /// Begins an element of RELAX NG: writes it up to its children.
    pub fn begin(
        &mut self,
        element: &'d XmlElement<'a>,
        index: usize,
        kind: Kind,
        around: Context,
        place: Place,
    ) -> Result<Level, RngFault>
        ensures added { (e : Written) → Comes self.old element.now index kind around place e
            → OnOk result (AddsInScope self.old self.new (begins e e.kind)) }
        ensures meant { (e : Written) → Comes self.old element.now index kind around place e
            → IfOk result (λ level. IsMeant self.new element.now level.«open» e) }
        ensures layout { (e : Written) → Comes self.old element.now index kind around place e
            → IfOk result (λ level. layout_meant level.layout ≡ layout e e.kind) }
        ensures behind { IfOk result (λ level. level.behind ≡ Sign.Nothing) }
        ensures of { IfOk result (IsLevelOf element.now index) }
    {
        let open = self.opened(index, element, kind, around, place)?;
        let layout = self.write_front(element, open)?;
        Ok(Level {
            open,
            layout,
            begun: Begun {
                count: 0,
                has_except: false,
            },
            behind: Sign::Nothing,
        })
    }

    /// Ends an element, behind its children.
    pub fn end(&mut self, level: Level) -> Result<(), RngFault>
        ensures added { OnOk result (AddsInScope self.old self.new
            ((layout_meant level.layout).behind ++ sign_terms level.behind)) }
        ensures scope { (row : XmlElement) (scope : Scope)
            → slice_get self.old.document.now.elements.items level.«open».index ≡ Some row
            → IsInScope self.old (declared_at self.old.document.now row ++ scope)
            → OnOk result (IsInScope self.new scope) }
    {
        self.put_end(level)?;
        self.leave_scope(level.open.index);
        Ok(())
    }

    /// Writes what comes behind the children of an element.
    fn put_end(&mut self, level: Level) -> Result<(), RngFault>
        ensures { OnOk result (Adds self.old self.new
            ((layout_meant level.layout).behind ++ sign_terms level.behind)) }
    {
        let at = level.open.at;
        self.put_sign(at, level.layout.inner)?;
        self.put_sign(at, level.layout.closing)?;
        self.put_sign(at, level.layout.outer)?;
        self.put_sign(at, level.behind)
    }

    /// The declarations of an element mean nothing from here on.
    fn leave_scope(&mut self, index: usize)
        ensures same { self.new ≡ record self.old { scopes = self.new.scopes } }
        ensures left { (row : XmlElement) (scope : Scope)
            → slice_get self.old.document.now.elements.items index ≡ Some row
            → IsInScope self.old (declared_at self.old.document.now row ++ scope)
            → IsInScope self.new scope }
    {
        if let Some(element) = element_at(self.document, index) {
            self.leave(element);
        }
    }

    /// The declarations of this element mean nothing from here on.
    fn leave(&mut self, element: &XmlElement<'a>)
        ensures same { self.new ≡ record self.old { scopes = self.new.scopes } }
        ensures left { (scope : Scope)
            → IsInScope self.old (declared_at self.old.document.now element.now ++ scope)
            → IsInScope self.new scope }
    {
        let document = self.document;
        self.scopes.leave(document.declarations_of(element));
    }

    /// The text that an element begins with, and its place; where it has none, the given place.
    pub fn content(&self, index: usize, at: usize) -> (usize, &'d str)
        ensures at { result.1.now ≡ content_at self.now.document.now self.now.text index }
        ensures text { (k : Nodes) (after : ℕ) → AreNested self.now.document.now
            → IsContent self.now.document.now index self.now.text k after
            → result.1.now ≡ text_of k }
    {
        content_of(self.document, self.text, index, at)
    }

    /// The declarations of an element mean something from here on.
    fn enter_scope(&mut self, element: &XmlElement<'a>) -> Result<(), RngFault>
        ensures same { OnOk result (self.new ≡ record self.old { scopes = self.new.scopes }) }
        ensures scope { (scope : Scope) → IsInScope self.old scope
            → AreDistinct (declared_at self.old.document.now element.now) → OnOk result
            (IsInScope self.new (declared_at self.old.document.now element.now ++ scope)) }
    {
        let document = self.document;
        let from = element.declarations.from;
        'declarations: for (before, declaration) in document
            .declarations_of(element)
            .iter()
            .enumerate()
        {
            self.scopes
                .enter(declaration.prefix, from.saturating_add(before))?;
        }
        Ok(())
    }

    /// An element of RELAX NG in its place. Refused where it lacks something, or has what it can't have.
    fn opened(
        &mut self,
        index: usize,
        element: &'d XmlElement<'a>,
        kind: Kind,
        around: Context,
        place: Place,
    ) -> Result<Open, RngFault>
        ensures same { OnOk result (self.new ≡ record self.old { scopes = self.new.scopes }) }
        ensures meant { (e : Written) → Comes self.old element.now index kind around place e
            → IfOk result (λ o. IsMeant self.new element.now o e) }
        ensures of { IfOk result (IsOpenOf element.now index) }
    {
        let holder = Holder {
            kind,
            role: place.role,
            is_named: attribute(self.document, element, "name").is_some(),
        };
        let children = children_of(self.document, index, element.end);
        self.check_element(element, holder, children)?;
        self.enter_scope(element)?;
        self.check_attributes(element, kind)?;
        Ok(Open {
            index,
            at: element.at,
            end: element.end,
            holder,
            children,
            context: Context {
                namespace: self.namespace_at(element, around.namespace),
                library: self.library_at(element, around.library),
                bare: self.bare_in(kind, around.bare),
            },
            place,
        })
    }

    /// The namespace that names without a prefix are in, where they are written in what is open.
    fn bare_in(&self, kind: Kind, around: Uri) -> Uri
        ensures { (n m : Namespace) → KnowsUris self.now
            → uri_meant self.now.uris self.now.default ≡ Some n
            → uri_meant self.now.uris around ≡ Some m
            → uri_meant self.now.uris result ≡ Some (bare_in n m kind) }
    {
        match kind {
            Kind::Attribute => Uri::EMPTY,
            Kind::Element => self.default,
            _ => around,
        }
    }

    /// Looks whether an element has the children and the attributes that it needs.
    fn check_element(
        &self,
        element: &XmlElement<'a>,
        holder: Holder,
        children: Children,
    ) -> Result<(), RngFault> {
        if let Some(lack) = holder.lack(children.count, children.has_class) {
            return Err(RngFault::new(element.at, lack));
        }
        let Some(needed) = needed_attribute(holder.kind) else {
            return Ok(());
        };
        if attribute(self.document, element, needed).is_some() {
            return Ok(());
        }
        let lack = RngFaultKind::Lacking {
            element: holder.kind,
            attribute: needed,
        };
        Err(RngFault::new(element.at, lack))
    }

    /// The nearest `ns` of an element, where this one is inherited (4.9).
    pub fn namespace_at(&self, element: &XmlElement<'a>, inherited: Uri) -> Uri
        ensures { (n : Namespace) → KnowsUris self.now
            → uri_meant self.now.uris inherited ≡ Some n → uri_meant self.now.uris result
            ≡ Some (nearest n (value_of (codes "ns")
            (attributes_at self.now.document.now element.now))) }
    {
        self.given_uri(element, "ns", inherited)
    }

    /// The nearest `datatypeLibrary` of an element, where this one is inherited (4.3).
    fn library_at(&self, element: &XmlElement<'a>, inherited: Uri) -> Uri
        ensures { (n : Namespace) → KnowsUris self.now
            → uri_meant self.now.uris inherited ≡ Some n → uri_meant self.now.uris result
            ≡ Some (nearest n (value_of (codes "datatypeLibrary")
            (attributes_at self.now.document.now element.now))) }
    {
        self.given_uri(element, "datatypeLibrary", inherited)
    }

    /// The URI that an attribute of this name gives, which is one that may; this one where there is none.
    fn given_uri(&self, element: &XmlElement<'a>, local: &str, inherited: Uri) -> Uri
        ensures { (n : Namespace) → KnowsUris self.now → gives_uri local.now ≡ true
            → uri_meant self.now.uris inherited ≡ Some n → uri_meant self.now.uris result
            ≡ Some (nearest n (value_of local.now
            (attributes_at self.now.document.now element.now))) }
    {
        match attribute(self.document, element, local) {
            Some(found) => self.uris.uri(found.value.as_str()),
            None => inherited,
        }
    }
}

impl Begun {
    /// With one more of this kind.
    pub fn and(self, kind: Kind) -> Begun
        ensures { self.count + 1 < 2 ^ 64 → result.count ≡ self.count + 1 }
    {
        Begun {
            count: self.count.saturating_add(1),
            has_except: self.has_except || kind == Kind::Except,
        }
    }
}

impl Open {
    /// Whether its except needs parentheses.
    pub fn is_parted(self) -> bool
        ensures { result ≡ is_parted self }
    {
        self.children.has_except && !self.place.standing.is_alone()
    }

    /// Where a child after so many others is.
    fn place_inside(self, layout: Layout, before: usize) -> Place
        ensures standing { result.standing ≡ standing_of (class_meant layout.class)
            layout.standing before }
        ensures first { result.is_first ≡ (before == 0) }
        ensures last { result.is_last ≡ nat_le self.children.count
            (before + 1 + (if self.children.has_except then 1 else 0)) }
        ensures root { result.is_root ≡ false }
    {
        let excepts = usize::from(self.children.has_except);
        let begun = before.saturating_add(1);
        Place {
            role: self.holder.role_inside(before),
            standing: layout.standing_of(before),
            is_first: before == 0,
            is_last: begun.saturating_add(excepts) >= self.children.count,
            is_root: false,
        }
    }
}
