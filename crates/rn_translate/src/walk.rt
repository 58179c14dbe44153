// The walk over the elements and the texts of a document.
ghost use Rattle.std.specs.Prelude.{◌≡◌, ◌<◌, ◌≤◌, ◌+◌, ◌-◌, ◌*◌, ◌^◌, ◌++◌, ◌∷◌, [], ℕ, true, nat_lt, List, IfOk, OnOk, Some, slice_get, vec_len};
ghost use Rattle.std.specs.Option.{option_map_or};
ghost use Rattle.rn_xml.specs.Infoset.{Node, Nodes};
ghost use Rattle.rn_xml.specs.DocumentTrees.{AreChildren, HoldsRoot, name_of};
ghost use Rattle.rn_translate.specs.Terms.{Term as MeantTerm};
ghost use Rattle.rn_translate.specs.SchemaElements.{holds_text, kind_of};
ghost use Rattle.rn_translate.specs.Translation.{default_of, schema_terms};
ghost use Rattle.rn_translate.specs.inside.Meanings.{known, terms_meant, uri_meant};
ghost use Rattle.rn_translate.specs.inside.Walks.{AreTextsPassed, IsOutside, TextsSkipped};
ghost use Rattle.rn_translate.specs.inside.OpenLevels.{AreSound, IsAtStart, IsWalked};

use crate::document_parts::{
    behind, behind_texts, child_at, element_at, element_inside, kind_of, text_at, uri_at,
};
use crate::kinds::{Kind, Role};
use crate::rng_fault::{RngFault, RngFaultKind, shown};
use crate::standing::Standing;
use crate::translator::{Context, Level, Open, Place, Translator};
use crate::uris::Uri;
use rn_xml::{XmlDocument, XmlElement};

impl<'d, 'a> Translator<'d, 'a> {
    /// Collects what each element comes to. Refused at the first fault.
    pub fn walk(&mut self) -> Result<(), RngFault>
        ensures meant { (root : Node) → IsAtStart self.old → AreSound self.old.document.now
            → HoldsRoot self.old.document.now root → OnOk result
            (terms_meant self.new.uris self.new.terms.items ≡ known (schema_terms root)) }
        ensures uris { (root : Node) → IsAtStart self.old → AreSound self.old.document.now
            → HoldsRoot self.old.document.now root
            → OnOk result (self.new.uris ≡ self.old.uris) }
        ensures default { (root : Node) → IsAtStart self.old → AreSound self.old.document.now
            → HoldsRoot self.old.document.now root → OnOk result
            (uri_meant self.new.uris self.new.default ≡ Some (default_of root)) }
    {
        let document = self.document;
        let Some(root) = element_at(document, 0) else {
            return Ok(());
        };
        let kind = self.known_kind(root)?;
        if !Role::Pattern.admits(kind) {
            return Err(self.no_schema(root)?);
        }
        self.default = self.namespace_at(root, Uri::INHERITED);
        let around = Context {
            namespace: Uri::INHERITED,
            library: Uri::EMPTY,
            bare: self.default,
        };
        let place = Place {
            role: Role::Pattern,
            standing: Standing::Alone,
            is_first: true,
            is_last: true,
            is_root: true,
        };
        let level = self.begin(root, 0, kind, around, place)?;
        self.check_text_alone(document, kind, 0, root)?;
        self.walk_from(document, level, 1)
    }

    /// What an element is. Refused where it is one of RELAX NG that has no name of those.
    fn known_kind(&self, element: &XmlElement<'a>) -> Result<Kind, RngFault>
        ensures { IfOk result (λ kind. kind_of (name_of self.now.document.now element.now.name)
            ≡ Some kind) }
    {
        match kind_of(self.document, element) {
            Some(kind) => Ok(kind),
            None => {
                let local = shown(self.alloc, element.name.local)?;
                Err(RngFault::new(element.at, RngFaultKind::Element(local)))
            }
        }
    }

    /// The fault of a root that is no pattern.
    fn no_schema(&self, element: &XmlElement<'a>) -> Result<RngFault, RngFault> {
        let kind = RngFaultKind::NoSchema {
            local: shown(self.alloc, element.name.local)?,
            uri: shown(self.alloc, uri_at(self.document, element.name.uri))?,
        };
        Ok(RngFault::new(element.at, kind))
    }

    /// Collects what an element comes to that has begun, and all that is in it. The element of the index is the next one.
    fn walk_from(
        &mut self,
        document: &'d XmlDocument<'a>,
        root: Level,
        first: usize,
    ) -> Result<(), RngFault>
        ensures same { (start : Translator) (whole : List MeantTerm)
            → document.now ≡ start.document.now → IsWalked start self.old (root ∷ []) first whole
            → OnOk result (self.new ≡ record start {
              terms = self.new.terms;
              scopes = self.new.scopes;
              text = self.new.text;
            }) }
        ensures meant { (start : Translator) (whole : List MeantTerm)
            → document.now ≡ start.document.now → IsWalked start self.old (root ∷ []) first whole
            → OnOk result (terms_meant self.new.uris self.new.terms.items ≡ known whole) }
    {
        let mut next = first;
        let mut levels = Vec::new(self.alloc);
        levels.push(root)?;
        'levels: while let Some(level) = levels.pop() {
            next = self.step(document, &mut levels, level, next)?;
        }
        Ok(())
    }

    /// Begins the next child of the innermost level, or ends that. That level isn't among the others. Answers the index
    /// of the element that comes then.
    fn step(
        &mut self,
        document: &'d XmlDocument<'a>,
        levels: &mut Vec<Level>,
        level: Level,
        next: usize,
    ) -> Result<usize, RngFault>
        ensures further { IfOk result (λ behind. 2 * (vec_len document.now.elements - behind)
            + vec_len levels.new
            ≤ 2 * (vec_len document.now.elements - next) + vec_len levels.old) }
        ensures walked { (start : Translator) (whole : List MeantTerm)
            → document.now ≡ start.document.now
            → IsWalked start self.old (levels.old.items ++ level ∷ []) next whole
            → IfOk result (λ behind. IsWalked start self.new levels.new.items behind whole) }
    {
        self.pass_texts(level.open, next)?;
        let Some(child) = child_at(document, level.open.end, next) else {
            self.end(level)?;
            return Ok(next);
        };
        self.enter(levels, level, next, child)
    }

    /// Begins a child of the innermost level, or passes it if it is none of RELAX NG. That level isn't among the others.
    /// Answers the index of the element that comes then.
    fn enter(
        &mut self,
        levels: &mut Vec<Level>,
        around: Level,
        index: usize,
        child: &'d XmlElement<'a>,
    ) -> Result<usize, RngFault>
        requires { index + 1 < 2 ^ 64 }
        ensures further { IfOk result (λ next. index < next) }
        ensures levels { OnOk result (vec_len levels.new ≤ vec_len levels.old + 2) }
        ensures walked { (start : Translator) (whole : List MeantTerm)
            → IsWalked start self.old (levels.old.items ++ around ∷ []) index whole
            → AreTextsPassed start.document.now around.«open».index index self.old.text
            → index < around.«open».«end»
            → slice_get start.document.now.elements.items index ≡ Some child.now
            → IfOk result (λ next. IsWalked start self.new levels.new.items next whole) }
    {
        let document = self.document;
        let kind = self.known_kind(child)?;
        if kind.is_foreign() {
            let behind = behind(index, child);
            self.text = behind_texts(document, self.text, index, behind);
            levels.push(around)?;
            return Ok(behind);
        }
        let level = self.begin_child(around, index, child, kind)?;
        self.check_text_alone(document, kind, index, child)?;
        levels.push(around.with(kind))?;
        levels.push(level)?;
        Ok(index + 1)
    }

    /// Refused where an element holds a text and has an element in it (section 3).
    fn check_text_alone(
        &self,
        document: &'d XmlDocument<'a>,
        kind: Kind,
        index: usize,
        element: &XmlElement<'a>,
    ) -> Result<(), RngFault>
        requires { index + 1 < 2 ^ 64 }
        ensures { (t after : ℕ) (k : Nodes) → holds_text kind ≡ true
            → AreChildren document.now index (index + 1) t k element.now.«end» after
            → OnOk result (element.now.«end» ≤ index + 1) }
    {
        if !kind.holds_text() {
            return Ok(());
        }
        match element_inside(document, index, element) {
            None => Ok(()),
            Some(child) => {
                let fault = match self.known_kind(child)? {
                    Kind::Foreign => RngFaultKind::Foreign(kind),
                    inner => RngFaultKind::Misplaced { inner, outer: kind },
                };
                Err(RngFault::new(child.at, fault))
            }
        }
    }

    /// Passes the texts of an element that come before another one. Refused where one can't be.
    fn pass_texts(&mut self, open: Open, next: usize) -> Result<(), RngFault>
        ensures same { OnOk result (self.new ≡ record self.old { text = self.new.text }) }
        ensures passed { OnOk result
            (AreTextsPassed self.old.document.now «open».index next self.new.text) }
        ensures left { (k : Nodes) (behind after : ℕ) → «open».index < next
            → AreChildren self.old.document.now «open».index next self.old.text k behind after
            → IsOutside self.old.document.now «open».index behind after → OnOk result
            (TextsSkipped self.old.document.now «open».index next self.new.text k behind after) }
    {
        let document = self.document;
        'texts: while let Some(text) = text_at(document, self.text) {
            if text.parent != open.index || !self.comes_before(text.at, next) {
                break;
            }
            self.check_text(open.holder.kind, text.at, text.content.as_str())?;
            self.text += 1;
        }
        Ok(())
    }

    /// Whether a place comes before the element of this index, or there is none.
    fn comes_before(&self, at: usize, index: usize) -> bool
        ensures { result ≡ option_map_or (λ row. nat_lt at row.at)
            (slice_get self.now.document.now.elements.items index) true }
    {
        match element_at(self.document, index) {
            Some(element) => at < element.at,
            None => true,
        }
    }

    /// Whether a text can be in an element of RELAX NG (4.2).
    fn check_text(&self, kind: Kind, at: usize, content: &str) -> Result<(), RngFault> {
        if kind.holds_text() || content.chars().all(crate::document_parts::is_white_space) {
            return Ok(());
        }
        let at = self.after_white_space(at);
        Err(RngFault::new(at, RngFaultKind::Text(kind)))
    }

    /// The first byte of the document's text from this one on that is no white space.
    fn after_white_space(&self, at: usize) -> usize {
        match self.source.get(at..) {
            Some(rest) => {
                let behind = rest.trim_start_matches(crate::document_parts::is_white_space);
                self.source.len().saturating_sub(behind.len())
            }
            None => at,
        }
    }
}

impl Level {
    /// With one more child of this kind begun.
    fn with(self, kind: Kind) -> Level
        ensures begun { self.begun.count + 1 < 2 ^ 64 → result.begun.count ≡ self.begun.count + 1 }
        ensures same { result ≡ record self { begun = result.begun } }
    {
        Level {
            begun: self.begun.and(kind),
            ..self
        }
    }
}
