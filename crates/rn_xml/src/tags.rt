// Tags, and the namespaces that they declare (XML 1.0 Fifth Edition, 3.1; Namespaces in XML 1.0).
ghost use Rattle.std.specs.Prelude.{◌≡◌, ◌⊎◌, ◌∷◌, ◌++◌, ◌-◌, [], Some, None, List, ℕ, true, false, not, if◌then◌else◌, ◌<◌, ◌≤◌, length, string_len, vec_len, All, IfErr, IfOk, IfSome, slice_get, MatchOption, MatchResult, OnOk, string_bytes};
ghost use Rattle.rn_xml.specs.inside.Parents.{MayHaveParent};
ghost use Rattle.std.specs.Str.{IsUtf8, chars};
ghost use Rattle.rn_text.specs.Segments.{is_delimiter};
ghost use Rattle.rn_xml.specs.PrefixScopes.{around, innermost, IsLeft};
ghost use Rattle.rn_xml.specs.TableRows.{rows_of};
ghost use Rattle.rn_xml.specs.declared.document.XmlElement.{XmlElement as ElementRow};
ghost use Rattle.rn_xml.specs.XmlTags.{IsEq, IsAttribute, WrittenAttribute, Scope, MayBind, IsEndTag, bindings};
ghost use Rattle.rn_xml.specs.XmlTags.{declared_prefix as declared_prefix_of};
ghost use Rattle.rn_xml.specs.Infoset.{no_nodes};
ghost use Rattle.rn_xml.specs.XmlDocuments.{with_characters};
ghost use Rattle.rn_xml.specs.inside.OpenElements.{OpenElement, LacksTag, NeedsElement, NeedsEnd, parent_of, scope_of, finished, with_children, TakesElement, TakesEnd};
ghost use Rattle.rn_xml.specs.DocumentFaults.{IsOfText};
ghost use Rattle.rn_xml.specs.declared.xml_fault.XmlFaultKind.TheVariants.{Memory};
ghost use Rattle.rn_xml.specs.inside.Fronts.{closes_tag, ends_attributes};
ghost use Rattle.rn_xml.specs.inside.KnownTexts.{AreApart};
ghost use Rattle.rn_xml.specs.inside.Rests.{GoesOn, source};
ghost use Rattle.rn_xml.specs.inside.SeenPairs.{has_pair};
ghost use Rattle.rn_xml.specs.inside.WrittenAttributes.{AreSpacedAttributes, DeclaresAs, written_as};

use crate::characters::{QName, after_char, after_front, after_space, split_char, split_qname};
use crate::document::{NO_NAMESPACE, XmlElement, XmlName};
use crate::indices::Indices;
use crate::scopes::Scopes;
use crate::stop::Stop;
use crate::tables::{Tables, XML_URI};
use crate::values::split_value;
use crate::xml_fault::{MAX_DEPTH, XmlFaultKind};
use std::alloc::{AllocError, Global};
use std::collections::BTreeSet;

/// The name of the namespace of `xmlns:` (Namespaces in XML 1.0, 3).
const XMLNS_URI: &str = "http://www.w3.org/2000/xmlns/";

/// The reader of a document's elements.
#[derive(Drop)]
pub(crate) struct TagReader<'a> {
    pub(crate) alloc: Global,
    /// How many bytes the text has.
    len: usize,
    pub(crate) tables: Tables<'a>,
    scopes: Scopes,
    /// Of the local names of attributes.
    locals: Indices,
    /// The elements that are open, the innermost last.
    opened: Vec<usize>,
    ghost open: { All (λ i. i < vec_len tables.document.elements) opened.items },
    ghost apart: { AreApart locals },
}

/// The prefix that an attribute of this name declares, empty for the default namespace; none if it declares no namespace
/// (Namespaces in XML 1.0, productions 1 to 3).
fn declared_prefix(name: QName<'_>) -> Option<&str>
    requires { IsUtf8 name.prefix.now × IsUtf8 name.local.now }
    ensures { (value : List ℕ)
        → MatchOption result (declared_prefix_of (written_as name.entry value) ≡ None)
        (λ p. (declared_prefix_of (written_as name.entry value) ≡ Some (chars p.now))
        × IsUtf8 p.now) }
{
    if name.prefix == "xmlns" {
        return Some(name.local);
    }
    if name.prefix.is_empty() && name.local == "xmlns" {
        Some("")
    } else {
        None
    }
}

/// Whether no prefix may mean this, or not this prefix (Namespaces in XML 1.0, 3 and 5).
fn is_forbidden(prefix: &str, uri: &str) -> bool
    ensures allowed { result ≡ false → MayBind (record { prefix = prefix.now; uri = uri.now }) }
    ensures forbidden { result ≡ true → ¬ MayBind (record { prefix = prefix.now; uri = uri.now }) }
{
    prefix == "xmlns"
        || uri == XMLNS_URI
        || (prefix == "xml") != (uri == XML_URI)
        || (uri.is_empty() && !prefix.is_empty())
}

/// Puts the pair into the set, and answers whether it is new there.
fn insert_pair(seen: &mut BTreeSet<(usize, usize)>, pair: (usize, usize)) -> Result<bool, Stop>
    ensures new { IfOk result (λ new. has_pair seen.old pair ≡ not new) }
    ensures there { OnOk result (has_pair seen.new pair ≡ true) }
    ensures still { OnOk result ((p : ℕ × ℕ) → has_pair seen.old p ≡ true
        → has_pair seen.new p ≡ true) }
    ensures only { OnOk result ((p : ℕ × ℕ) → has_pair seen.new p ≡ true
        → ((p.0 ≡ pair.0) × (p.1 ≡ pair.1)) ⊎ (has_pair seen.old p ≡ true)) }
    ensures err { IfErr result (λ stop. (stop.left ≡ 0) × (stop.kind ≡ Memory)) }
{
    Ok(seen.insert(pair)?)
}

/// Whether the name is written like this one.
fn is_same_name(name: XmlName<'_>, written: QName<'_>) -> bool
    ensures same { result ≡ true → (name.entry.prefix.now ≡ written.entry.prefix.now)
        × (name.entry.local.now ≡ written.entry.local.now) }
    ensures other { name.entry.prefix.now ≡ written.entry.prefix.now
        → name.entry.local.now ≡ written.entry.local.now → result ≡ true }
{
    name.prefix == written.prefix && name.local == written.local
}

/// Whether the character may open and close a value (XML 1.0, production 10).
fn is_quote(c: char) -> bool
    ensures { result ≡ is_delimiter c }
{
    c == '"' || c == '\''
}

/// What follows the quote that opens a value, behind `=`, and the quote (XML 1.0, productions 10, 25 and 41).
fn split_opening(text: &str) -> Result<(char, &str), Stop>
    ensures reads { GoesOn text.now result }
    ensures quote { IfOk result (λ p. is_delimiter p.0 ≡ true) }
    ensures equals { IfOk result (λ p. IsEq (source text.now) (p.0 ∷ source p.1.now)) }
    ensures refused { IfErr result (λ _. (quote : ℕ) (inside : List ℕ)
        → is_delimiter quote ≡ true → ¬ IsEq (source text.now) (quote ∷ inside)) }
    ensures utf8 { IfOk result (λ p. IsUtf8 p.1.now) }
{
    let spaced = after_space(text);
    let equals = after_char(spaced, '=').ok_or(Stop::before(spaced, XmlFaultKind::Equals))?;
    let behind = after_space(equals);
    let wrong = Stop::before(behind, XmlFaultKind::Quotes);
    let (quote, inside) = split_char(behind).ok_or(wrong)?;
    if is_quote(quote) {
        Ok((quote, inside))
    } else {
        Err(wrong)
    }
}

/// Whether the tag whose end is at the front has no content, and what follows it.
fn split_tag_end(text: &str) -> Result<(bool, &str), Stop>
    ensures reads { GoesOn text.now result }
    ensures end { IfOk result (λ p. source text.now ≡
        (if p.0 then 47 ∷ 62 ∷ source p.1.now else 62 ∷ source p.1.now)) }
    ensures refused { IfErr result (λ _. closes_tag (source text.now) ≡ false) }
    ensures utf8 { IfOk result (λ p. IsUtf8 p.1.now) }
{
    if let Some(after) = after_char(text, '>') {
        return Ok((false, after));
    }
    match after_front(text, "/>") {
        Some(after) => Ok((true, after)),
        None => Err(Stop::before(text, XmlFaultKind::Tag)),
    }
}

impl<'a> TagReader<'a> {
    ghost use Rattle.rn_xml.specs.inside.Readers.{HasRoomFor, ReadsOn, MayReadOn, StopsIn, element_count, uri_count};
    ghost use Rattle.rn_xml.specs.inside.ReadDocuments.{AreOpen, IsClosed, IsReading, OpensTag, place_of};
    ghost use Rattle.rn_xml.specs.inside.NamedRows.{CannotName, NamesRow};
    ghost use Rattle.rn_xml.specs.inside.TagTables.{Adds, HasAttributes, HasTag, IsRecent, LackNames, LacksAttributes, NeverAdds, attribute_index, uri_index};
    ghost use Rattle.rn_xml.specs.declared.tags.TagReader.{TagReader};

    /// The reader of a text with this many bytes, before its first element.
    pub(crate) fn new(alloc: Global, len: usize) -> Result<Self, AllocError>
        ensures len { IfOk result (λ reader. reader.len ≡ len) }
        ensures empty { IfOk result (λ reader. element_count reader ≡ 0) }
        ensures opened { IfOk result (λ reader. (place : ℕ) → AreOpen reader [] place) }
    {
        Ok(TagReader {
            alloc,
            len,
            tables: Tables::new(alloc)?,
            scopes: Scopes::new(alloc),
            locals: Indices::new(alloc),
            opened: Vec::new(alloc),
        })
    }

    /// Whether the element whose declarations begin with this one declares the prefix.
    fn is_declared(&self, prefix: &str, first: usize) -> bool
        ensures no { result ≡ false → (n : ℕ)
            → innermost (around self.now.scopes prefix.now) ≡ Some n → n < first }
        ensures yes { result ≡ true → IsRecent self.now.scopes first prefix.now }
    {
        match self.scopes.find(prefix) {
            Some(declaration) => declaration >= first,
            None => false,
        }
    }

    /// Declares a prefix in the element whose declarations begin with this one.
    fn declare(&mut self, prefix: &'a str, uri: &str, name: &str, first: usize) -> Result<(), Stop>
        requires { HasRoomFor self.old name.now }
        ensures err { IfErr result (StopsIn self.old) }
        ensures same { self.new.len ≡ self.old.len }
        ensures elements { element_count self.new ≡ element_count self.old }
        ensures declared { OnOk result ((a : WrittenAttribute) → DeclaresAs a prefix.now uri.now
            → Adds self.old self.new first a) }
        ensures refused { IfErr result (λ stop. IsOfText stop.kind → (a : WrittenAttribute)
            → DeclaresAs a prefix.now uri.now → NeverAdds self.old first a) }
    {
        if is_forbidden(prefix, uri) {
            return Err(Stop::before(name, XmlFaultKind::Reserved));
        }
        if self.is_declared(prefix, first) {
            return Err(Stop::before(name, XmlFaultKind::Repeated));
        }
        let declaration = self
            .tables
            .declare(self.alloc, prefix, uri, self.len - name.len())?;
        self.scopes.enter(prefix, declaration)?;
        Ok(())
    }

    /// Reads the attribute at the front, of the element whose declarations begin with this one, and answers what follows
    /// it (XML 1.0, production 41).
    fn read_attribute(&mut self, text: &'a str, first: usize) -> Result<&'a str, Stop>
        requires { HasRoomFor self.old text.now }
        ensures reads { ReadsOn self.old text.now result }
        ensures same { self.new.len ≡ self.old.len }
        ensures elements { element_count self.new ≡ element_count self.old }
        ensures attribute { IfOk result (λ rest. (a : WrittenAttribute)
            × IsAttribute (source text.now) a (source rest.now)
            × Adds self.old self.new first a) }
        ensures utf8 { IfOk result (λ rest. IsUtf8 rest.now) }
        ensures refused { IfErr result (λ stop. IsOfText stop.kind
            → (a : WrittenAttribute) (rest : List ℕ)
            → IsAttribute (source text.now) a rest → NeverAdds self.old first a) }
    {
        let (name, rest) = split_qname(text)?;
        let (quote, inside) = split_opening(rest)?;
        let (value, after) = split_value(self.alloc, inside, quote)?;
        match declared_prefix(name) {
            Some(prefix) => self.declare(prefix, value.as_str(), text, first)?,
            None => self.tables.add_attribute(
                name,
                self.len - text.len(),
                value,
                self.len - inside.len(),
            )?,
        }
        Ok(after)
    }

    /// Reads the attributes at the front, and answers what follows them and white space: the end of the tag (XML 1.0,
    /// productions 40 and 44).
    fn read_attributes(&mut self, text: &'a str, first: usize) -> Result<&'a str, Stop>
        requires { HasRoomFor self.old text.now }
        ensures reads { MayReadOn self.old text.now result }
        ensures same { self.new.len ≡ self.old.len }
        ensures elements { element_count self.new ≡ element_count self.old }
        ensures attributes { IfOk result (λ rest. (outer : Scope)
            → HasAttributes self.old self.old outer first []
            → (written : List WrittenAttribute)
            × AreSpacedAttributes (source text.now) written (source rest.now)
            × HasAttributes self.old self.new outer first written) }
        ensures ends { IfOk result (λ rest. ends_attributes (source rest.now) ≡ true) }
        ensures utf8 { IfOk result (λ rest. IsUtf8 rest.now) }
        ensures refused { IfErr result (λ stop. IsOfText stop.kind → (outer : Scope)
            → HasAttributes self.old self.old outer first []
            → LacksAttributes (source text.now)) }
    {
        let mut rest = text;
        let mut spaced = after_space(rest);
        while let Some((c, _)) = split_char(spaced) {
            if c == '>' || c == '/' {
                break;
            }
            if spaced.len() == rest.len() {
                return Err(Stop::before(rest, XmlFaultKind::Tag));
            }
            rest = self.read_attribute(spaced, first)?;
            spaced = after_space(rest);
        }
        Ok(spaced)
    }

    /// The namespace of a name of this prefix, which so many bytes follow.
    #[tactic(auto, using(crate::proofs::PrefixUris::uri_within))]
    fn uri_of(&self, prefix: &str, left: usize) -> Result<usize, Stop>
        ensures ok { IfOk result (λ uri. uri < uri_count self.now) }
        ensures is { IfOk result (λ uri. uri_index self.now prefix.now ≡ Some uri) }
        ensures none { IfErr result (λ _. uri_index self.now prefix.now ≡ None) }
        ensures err { IfErr result (λ stop. stop.left ≡ left) }
    {
        let kind = XmlFaultKind::Prefix;
        let tables = &self.tables;
        let uri = self.scopes.uri_of(&tables.document.declarations, prefix);
        uri.ok_or(Stop { left, kind })
    }

    /// The namespace of the attribute of this name, which so many bytes follow.
    fn attribute_uri(&self, prefix: &str, left: usize) -> Result<usize, Stop>
        ensures ok { IfOk result (λ uri. uri < uri_count self.now) }
        ensures is { IfOk result (λ uri. attribute_index self.now prefix.now ≡ Some uri) }
        ensures none { IfErr result (λ _. attribute_index self.now prefix.now ≡ None) }
        ensures err { IfErr result (λ stop. stop.left ≡ left) }
    {
        if prefix.is_empty() {
            Ok(NO_NAMESPACE)
        } else {
            self.uri_of(prefix, left)
        }
    }

    /// Gives the attribute of this index its namespace. Its name is seen for the first time, and is seen now.
    fn name_attribute(
        &mut self,
        index: usize,
        seen: &mut BTreeSet<(usize, usize)>,
    ) -> Result<(), Stop>
        requires { index < vec_len self.old.tables.document.attributes }
        ensures err { IfErr result (StopsIn self.old) }
        ensures same { self.new.len ≡ self.old.len }
        ensures elements { element_count self.new ≡ element_count self.old }
        ensures rest { self.new.tables.document ≡ record self.old.tables.document
            { attributes = self.new.tables.document.attributes } }
        ensures named { OnOk result (NamesRow self.old self.new index seen.old seen.new) }
        ensures refused { IfErr result (λ stop. IsOfText stop.kind
            → CannotName self.old self.new index seen.old) }
    {
        let Some((name, at)) = self.tables.attribute(index) else {
            return Ok(());
        };
        let left = self.len.saturating_sub(at);
        let uri = self.attribute_uri(name.prefix, left)?;
        self.tables.name_attribute(index, uri);
        let local = self.locals.index_of(name.local)?;
        if insert_pair(seen, (uri, local))? {
            Ok(())
        } else {
            let kind = XmlFaultKind::Repeated;
            Err(Stop { left, kind })
        }
    }

    /// Gives the attributes from this one on their namespaces. Each has another name than those before (XML 1.0, 3.1,
    /// Unique Att Spec; Namespaces in XML 1.0, 6.3).
    fn name_attributes(&mut self, first: usize) -> Result<(), Stop>
        ensures err { IfErr result (StopsIn self.old) }
        ensures same { self.new.len ≡ self.old.len }
        ensures elements { element_count self.new ≡ element_count self.old }
        ensures rest { OnOk result (self.new.tables.document ≡ record self.old.tables.document
            { attributes = self.new.tables.document.attributes }) }
        ensures named { OnOk result
            ((r : TagReader) (outer : Scope) (declarations : ℕ) (written : List WrittenAttribute)
            → HasAttributes r self.old outer declarations written
            → first ≡ vec_len r.tables.document.attributes
            → HasTag r self.new outer written) }
        ensures refused { IfErr result (λ stop. IsOfText stop.kind
            → (r : TagReader) (outer : Scope) (declarations : ℕ) (written : List WrittenAttribute)
            → HasAttributes r self.old outer declarations written
            → first ≡ vec_len r.tables.document.attributes → All MayBind outer
            → LackNames (bindings written ++ outer) written) }
    {
        let mut seen = BTreeSet::new(self.alloc);
        for index in first..self.tables.attribute_count() {
            self.name_attribute(index, &mut seen)?;
        }
        Ok(())
    }

    /// Opens the element whose start tag is at the front, or its tag where it has no content. Answers whether it has none,
    /// and what follows the tag (XML 1.0, productions 40 and 44).
    fn open_tag(&mut self, tag: &'a str, parent: Option<usize>) -> Result<(bool, &'a str), Stop>
        requires room { HasRoomFor self.old tag.now }
        requires parent { MayHaveParent (element_count self.old) parent }
        ensures reads { MatchResult result
            (λ p. length p.1.now < length tag.now) (StopsIn self.old) }
        ensures same { self.new.len ≡ self.old.len }
        ensures more { element_count self.old ≤ element_count self.new }
        ensures one { OnOk result (element_count self.old < element_count self.new) }
        ensures opens { IfOk result (λ p. (opened : List OpenElement)
            → AreOpen self.old opened (place_of self.old tag.now)
            → parent ≡ parent_of opened → OpensTag self.old self.new opened tag.now p.1.now p.0) }
        ensures utf8 { IfOk result (λ p. IsUtf8 p.1.now) }
        ensures refused { IfErr result (λ stop. IsOfText stop.kind → (opened : List OpenElement)
            → AreOpen self.old opened (place_of self.old tag.now)
            → LacksTag (scope_of opened) (source tag.now)) }
    {
        let inside = after_char(tag, '<').ok_or(Stop::before(tag, XmlFaultKind::Outside))?;
        let (name, rest) = split_qname(inside)?;
        let first = self.tables.first_rows();
        let end = self.read_attributes(rest, first.declarations)?;
        let (is_empty, after) = split_tag_end(end)?;
        let uri = self.uri_of(name.prefix, inside.len())?;
        self.name_attributes(first.attributes)?;
        let named = XmlName {
            uri,
            prefix: name.prefix,
            local: name.local,
        };
        let at = self.len - tag.len();
        let index = self.tables.add_element(named, at, parent, first)?;
        self.opened.push(index)?;
        Ok((is_empty, after))
    }

    /// Reads the start tag at the front, or that of an element without content, and answers what follows it (XML 1.0,
    /// productions 40 and 44).
    pub(crate) fn read_start_tag(
        &mut self,
        tag: &'a str,
        parent: Option<usize>,
    ) -> Result<&'a str, Stop>
        requires room { HasRoomFor self.old tag.now }
        requires parent { MayHaveParent (element_count self.old) parent }
        ensures reads { ReadsOn self.old tag.now result }
        ensures same { self.new.len ≡ self.old.len }
        ensures more { element_count self.old ≤ element_count self.new }
        ensures one { OnOk result (element_count self.old < element_count self.new) }
        ensures document { IfOk result (λ rest. (cs : List ℕ) (opened : List OpenElement)
            → AreOpen self.old opened (place_of self.old tag.now) → parent ≡ parent_of opened
            → TakesElement cs opened (source tag.now) → NeedsElement cs opened (source tag.now)
            → IsReading cs self.new rest.now) }
        ensures utf8 { IfOk result (λ rest. IsUtf8 rest.now) }
        ensures refused { IfErr result (λ stop. IsOfText stop.kind → (opened : List OpenElement)
            → AreOpen self.old opened (place_of self.old tag.now)
            → LacksTag (scope_of opened) (source tag.now)) }
    {
        if self.opened.len() >= MAX_DEPTH {
            return Err(Stop::before(tag, XmlFaultKind::Deep));
        }
        let (is_empty, after) = self.open_tag(tag, parent)?;
        if is_empty {
            self.close();
        }
        Ok(after)
    }

    /// The innermost element that is open, if one is.
    pub(crate) fn innermost(&self) -> Option<usize>
        ensures is { result ≡ innermost self.now.opened.items }
        ensures within { IfSome result (λ index. index < element_count self.now) }
    {
        self.opened.last().copied()
    }

    /// Adds a text of this element, from the byte that so many follow.
    pub(crate) fn add_text(
        &mut self,
        parent: usize,
        left: usize,
        content: String,
    ) -> Result<(), Stop>
        requires left { left ≤ self.old.len }
        requires parent { parent < element_count self.old }
        requires some { 0 < string_len content }
        ensures err { IfErr result (StopsIn self.old) }
        ensures memory { IfErr result (λ stop. stop.kind ≡ Memory) }
        ensures same { self.new.len ≡ self.old.len }
        ensures elements { element_count self.new ≡ element_count self.old }
        ensures opened { self.new.opened ≡ self.old.opened }
        ensures added { OnOk result ((e : OpenElement) (outer : List OpenElement) (place next : ℕ)
            → AreOpen self.old (e ∷ outer) place → parent ≡ e.index → place ≤ self.old.len - left
            → self.old.len - left < next
            → AreOpen self.new
            (with_children e (with_characters (chars (string_bytes content)) no_nodes)
            ∷ outer) next) }
    {
        self.tables.add_text(parent, self.len - left, content)?;
        Ok(())
    }

    /// How many bytes follow the start of this element.
    pub(crate) fn left_of(&self, index: usize) -> usize
        ensures { result ≤ self.now.len }
    {
        match self.tables.element(index) {
            Some(element) => self.len.saturating_sub(element.at),
            None => 0,
        }
    }

    /// The innermost element that is open, if one is.
    fn innermost_element(&self) -> Option<XmlElement<'a>>
        ensures { MatchOption result ((i : ℕ) → innermost self.now.opened.items ≡ Some i
            → slice_get self.now.tables.document.elements.items i ≡ None)
            (λ row. (i : ℕ) × (innermost self.now.opened.items ≡ Some i)
            × (slice_get self.now.tables.document.elements.items i ≡ Some row)) }
    {
        let index = self.innermost()?;
        self.tables.element(index)
    }

    /// Ends the innermost element.
    fn close(&mut self)
        ensures same { self.new.len ≡ self.old.len }
        ensures elements { element_count self.new ≡ element_count self.old }
        ensures closed { (e : OpenElement) (outer : List OpenElement) (place : ℕ)
            → AreOpen self.old (e ∷ outer) place
            → IsClosed self.new outer (finished e no_nodes) place }
    {
        let Some(index) = self.opened.pop() else {
            return;
        };
        self.tables.end_element(index);
        self.leave(index);
    }

    /// What this element declares no longer holds.
    fn leave(&mut self, index: usize)
        ensures tables { self.new.tables ≡ self.old.tables }
        ensures opened { self.new.opened ≡ self.old.opened }
        ensures len { self.new.len ≡ self.old.len }
        ensures left { (row : ElementRow)
            → slice_get self.old.tables.document.elements.items index ≡ Some row
            → IsLeft self.old.scopes self.new.scopes
            (rows_of row.declarations self.old.tables.document.declarations.items) }
    {
        let Some(element) = self.tables.element(index) else {
            return;
        };
        let tables = &self.tables;
        self.scopes.leave(tables.document.declarations_of(&element));
    }

    /// Reads the end tag at the front, behind its `</`, and answers what follows it (XML 1.0, production 42, and Element
    /// Type Match).
    pub(crate) fn read_end_tag(&mut self, tag: &'a str, inside: &'a str) -> Result<&'a str, Stop>
        requires placed { HasRoomFor self.old tag.now }
        requires shorter { length inside.now < length tag.now }
        requires front { chars tag.now ≡ 60 ∷ 47 ∷ chars inside.now }
        ensures reads { ReadsOn self.old tag.now result }
        ensures same { self.new.len ≡ self.old.len }
        ensures elements { element_count self.new ≡ element_count self.old }
        ensures document { IfOk result
            (λ rest. (cs : List ℕ) (e : OpenElement) (outer : List OpenElement)
            → AreOpen self.old (e ∷ outer) (place_of self.old tag.now)
            → TakesEnd cs e outer (source tag.now) → NeedsEnd cs e outer (source tag.now)
            → IsReading cs self.new rest.now) }
        ensures utf8 { IfOk result (λ rest. IsUtf8 rest.now) }
        ensures refused { IfErr result (λ _. (e : OpenElement) (outer : List OpenElement)
            → AreOpen self.old (e ∷ outer) (place_of self.old tag.now)
            → (rest : List ℕ) → ¬ IsEndTag e.qname (source tag.now) rest) }
    {
        let (name, rest) = split_qname(inside)?;
        let wrong = Stop::before(tag, XmlFaultKind::Outside);
        let Some(element) = self.innermost_element() else {
            return Err(wrong);
        };
        if !is_same_name(element.name, name) {
            return Err(Stop::before(tag, XmlFaultKind::EndTag { open: element.at }));
        }
        let end = after_space(rest);
        let after = after_char(end, '>').ok_or(Stop::before(end, XmlFaultKind::Tag))?;
        self.close();
        Ok(after)
    }
}
