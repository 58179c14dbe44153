// What elements and attributes with their names, and name classes, come to in the compact text (compact syntax, section 3).
ghost use Rattle.std.specs.Prelude.{◌≡◌, ◌++◌, List, [], true, Some, None, codes, if◌then◌else◌, string_bytes, IfOk, OnOk};
ghost use Rattle.rn_translate.specs.Terms.{Term as MeantTerm, close_parenthesis, open_parenthesis};
ghost use Rattle.rn_translate.specs.inside.TermNames.{has_names};
ghost use Rattle.rn_translate.specs.SchemaElements.{holds_text, value_of};
ghost use Rattle.rn_translate.specs.Layouts.{Written, around, begins_named, closing, given_name, has_name, if_so, name_terms, named, opening, operands, then_behind, unprefixed_in};
ghost use Rattle.rn_translate.specs.inside.Meanings.{Adds, is_parted, known, layout_meant, sign_terms, term_meant, uri_meant};
ghost use Rattle.rn_translate.specs.inside.ElementsMeant.{IsMeant};

use crate::content::Holder;
use crate::document_parts::attribute;
use crate::kinds::Kind;
use crate::rng_fault::RngFault;
use crate::signs::Sign;
use crate::standing::{Layout, Operator, Standing};
use crate::terms::Term;
use crate::translator::{Open, Translator};
use crate::uris::Uri;
use rn_text::Keyword;
use rn_xml::{XmlAttribute, XmlElement};

impl<'d, 'a> Translator<'d, 'a> {
    /// Writes an element or an attribute: its name, if it is an attribute, and what opens its content.
    pub fn write_named(
        &mut self,
        element: &'d XmlElement<'a>,
        open: Open,
        keyword: Keyword,
    ) -> Result<Layout, RngFault>
        ensures added { (e : Written) → IsMeant self.old element.now «open» e
            → has_name e.kind ≡ true → OnOk result (Adds self.old self.new
            (begins_named e keyword (value_of (codes "name") e.attributes))) }
        ensures layout { (e : Written) → IsMeant self.old element.now «open» e
            → has_name e.kind ≡ true → IfOk result (λ l. layout_meant l
            ≡ named e (value_of (codes "name") e.attributes)) }
    {
        let members = open.holder.members(open.children.count);
        self.put(element.at, Term::Keyword(keyword))?;
        self.put_front_name(element, open)?;
        Ok(named_layout(open.holder, members))
    }

    /// Writes the name that the attribute `name` gives, and what opens the content; nothing without that attribute.
    fn put_front_name(&mut self, element: &'d XmlElement<'a>, open: Open) -> Result<(), RngFault>
        ensures { (e : Written) → IsMeant self.old element.now «open» e
            → OnOk result (Adds self.old self.new
            (given_name e (value_of (codes "name") e.attributes))) }
    {
        match attribute(self.document, element, "name") {
            Some(name) => {
                self.put_given_name(element, open, name)?;
                self.put_sign(element.at, opening(open.children.count))
            }
            None => Ok(()),
        }
    }

    /// Writes the name that the attribute `name` gives. That of an attribute has no namespace where neither its prefix nor
    /// its own `ns` gives one (4.8).
    fn put_given_name(
        &mut self,
        element: &'d XmlElement<'a>,
        open: Open,
        name: &'d XmlAttribute<'a>,
    ) -> Result<(), RngFault>
        ensures { (e : Written) → IsMeant self.old element.now «open» e
            → OnOk result (Adds self.old self.new
            (name_terms e (unprefixed_in e e.kind) (string_bytes name.now.value))) }
    {
        let unprefixed = self.unprefixed_in(element, open);
        self.put_name(
            name.value_at,
            name.value.as_str(),
            unprefixed,
            open.context.bare,
        )
    }

    /// The namespace of the attribute `name` where that has no prefix.
    fn unprefixed_in(&self, element: &XmlElement<'a>, open: Open) -> Uri
        ensures { (e : Written) → IsMeant self.now element.now «open» e
            → uri_meant self.now.uris result ≡ Some (unprefixed_in e e.kind) }
    {
        match open.holder.kind {
            Kind::Attribute => match attribute(self.document, element, "ns") {
                Some(_) => open.context.namespace,
                None => Uri::EMPTY,
            },
            _ => open.context.namespace,
        }
    }

    /// Writes the class of one name. Refused where its text is no name.
    pub fn write_name(
        &mut self,
        element: &'d XmlElement<'a>,
        open: Open,
    ) -> Result<Layout, RngFault>
        ensures added { (e : Written) → IsMeant self.old element.now «open» e
            → holds_text e.kind ≡ true → OnOk result (Adds self.old self.new
            (name_terms e e.context.namespace e.text)) }
        ensures layout { IfOk result (λ l. layout_meant l ≡ around []) }
    {
        let (at, content) = self.content(open.index, element.at);
        self.check_name(at, content)?;
        self.put_name(at, content, open.context.namespace, open.context.bare)?;
        Ok(Layout::none())
    }

    /// Writes the class of all names, or of those of a namespace, without its except.
    pub fn write_wildcard(
        &mut self,
        at: usize,
        open: Open,
        class: Term<'d>,
    ) -> Result<Layout, RngFault>
        requires { has_names class ≡ true }
        ensures added { (ts : List MeantTerm) → term_meant self.old.uris class.entry ≡ known ts
            → OnOk result (Adds self.old self.new
            (if_so (is_parted «open») open_parenthesis ++ ts)) }
        ensures layout { IfOk result (λ l. layout_meant l
            ≡ around (if_so (is_parted «open») close_parenthesis)) }
    {
        let layout = self.begin_excepted(at, open)?;
        self.put(at, class)?;
        Ok(layout)
    }
}

/// What opens a content of so many members: of none, it is any text.
fn opening(members: usize) -> Sign
    ensures { sign_terms result ≡ opening members }
{
    if members > 0 {
        Sign::OpenBrace
    } else {
        Sign::BracedText
    }
}

/// What closes a content of so many members.
fn closing(members: usize) -> Sign
    ensures { sign_terms result ≡ closing members }
{
    if members > 0 {
        Sign::CloseBrace
    } else {
        Sign::Nothing
    }
}

/// How so many members of an element or an attribute are written, and its name class before them.
fn named_layout(holder: Holder, members: usize) -> Layout
    ensures { layout_meant result ≡ record (then_behind
        (operands Standing.Alone Operator.Comma members) (closing members))
        { class = (if holder.is_named then None else Some (opening members)) } }
{
    let operands = Layout::operands(Standing::Alone, Operator::Comma, members);
    let class = if holder.is_named {
        Sign::Nothing
    } else {
        opening(members)
    };
    Layout {
        class,
        ..operands.then(closing(members), Sign::Nothing)
    }
}
