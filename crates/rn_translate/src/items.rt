// What grammars, their items and references to files come to in the compact text (compact syntax, section 3).
ghost use Rattle.std.specs.Prelude.{◌≡◌, ◌∷◌, ◌++◌, [], true, Some, IfOk, OnOk, codes, nat_le, not};
ghost use Rattle.rn_translate.specs.Terms.{Namespace, keyword as keyword_term, close_brace, open_brace};
ghost use Rattle.rn_translate.specs.SchemaElements.{value_of};
ghost use Rattle.rn_translate.specs.Layouts.{Written, around, begins, begins_definition, defined, if_so, inherit_terms, is_of_grammar, layout, link_terms, method_term, operands};
ghost use Rattle.rn_translate.specs.inside.UriTables.{IsTable};
ghost use Rattle.rn_translate.specs.inside.Meanings.{Adds, layout_meant, sign_terms, uri_meant};
ghost use Rattle.rn_translate.specs.inside.ElementsMeant.{IsMeant, attributes_at};

use crate::document_parts::{attribute, trimmed};
use crate::kinds::Kind;
use crate::rng_fault::RngFault;
use crate::signs::Sign;
use crate::standing::{Layout, Operator, Standing};
use crate::terms::Term;
use crate::translator::{Open, Translator};
use crate::uris::Uri;
use rn_text::Keyword;
use rn_xml::XmlElement;

impl<'d, 'a> Translator<'d, 'a> {
    /// Writes a grammar, an item of one or an external pattern up to its children, and answers how they are written.
    pub fn write_item(
        &mut self,
        element: &'d XmlElement<'a>,
        open: Open,
    ) -> Result<Layout, RngFault>
        ensures added { (e : Written) → IsMeant self.old element.now «open» e
            → is_of_grammar e.kind ≡ true → OnOk result (Adds self.old self.new (begins e e.kind)) }
        ensures layout { (e : Written) → IsMeant self.old element.now «open» e
            → is_of_grammar e.kind ≡ true
            → IfOk result (λ l. layout_meant l ≡ layout e e.kind) }
    {
        match open.holder.kind {
            Kind::Grammar => self.write_grammar(element.at, open),
            Kind::Start => self.write_definition(element, open),
            Kind::Define => self.write_definition(element, open),
            Kind::Div => self.write_items(element.at, Keyword::Div, Sign::CloseBraceLine),
            Kind::Include => self.write_include(element, open),
            Kind::ExternalRef => self.write_external(element, open),
            _ => Ok(Layout::none()),
        }
    }

    /// Writes a grammar; the braces round the root's items are left out.
    fn write_grammar(&mut self, at: usize, open: Open) -> Result<Layout, RngFault>
        ensures added { OnOk result (Adds self.old self.new
            (if_so (not «open».place.is_root) (keyword_term Keyword.Grammar ∷ open_brace))) }
        ensures layout { IfOk result (λ l. layout_meant l
            ≡ around (if_so (not «open».place.is_root) close_brace)) }
    {
        if open.place.is_root {
            return Ok(Layout::around(Standing::Alone, Sign::Nothing));
        }
        self.write_items(at, Keyword::Grammar, Sign::CloseBraceAlone)
    }

    /// Writes what holds items.
    fn write_items(
        &mut self,
        at: usize,
        keyword: Keyword,
        closing: Sign,
    ) -> Result<Layout, RngFault>
        ensures added { OnOk result (Adds self.old self.new (keyword_term keyword ∷ open_brace)) }
        ensures layout { IfOk result (λ l. layout_meant l ≡ around (sign_terms closing)) }
    {
        self.put(at, Term::Keyword(keyword))?;
        self.put_sign(at, Sign::OpenBraceLine)?;
        Ok(Layout::around(Standing::Alone, closing))
    }

    /// Writes a definition: several children are a group (4.12).
    fn write_definition(
        &mut self,
        element: &'d XmlElement<'a>,
        open: Open,
    ) -> Result<Layout, RngFault>
        ensures added { (e : Written) → IsMeant self.old element.now «open» e
            → OnOk result (Adds self.old self.new (begins_definition e)) }
        ensures layout { IfOk result (λ l. layout_meant l
            ≡ operands Standing.Alone Operator.Comma «open».children.count) }
    {
        self.put_defined(element)?;
        self.put_method(element)?;
        let operands = Layout::operands(Standing::Alone, Operator::Comma, open.children.count);
        Ok(operands.then(Sign::LineEnd, Sign::Nothing))
    }

    /// Writes what a definition defines: a name, or where the grammar begins.
    fn put_defined(&mut self, element: &'d XmlElement<'a>) -> Result<(), RngFault>
        ensures { OnOk result (Adds self.old self.new (defined
            (value_of (codes "name") (attributes_at self.old.document.now element.now)))) }
    {
        match attribute(self.document, element, "name") {
            Some(name) => self.put_identifier(name.value_at, trimmed(name.value.as_str())),
            None => self.put(element.at, Term::Keyword(Keyword::Start)),
        }
    }

    /// Writes how a definition is combined with others of its name (4.17).
    fn put_method(&mut self, element: &'d XmlElement<'a>) -> Result<(), RngFault>
        ensures { OnOk result (Adds self.old self.new (method_term
            (value_of (codes "combine") (attributes_at self.old.document.now element.now)))) }
    {
        match attribute(self.document, element, "combine") {
            Some(combine) => self.put_sign(combine.value_at, method_sign(combine.value.as_str())),
            None => self.put_sign(element.at, Sign::Equals),
        }
    }

    /// Writes an include, with the namespace that its file inherits, and opens what holds its overrides (4.7).
    fn write_include(&mut self, element: &'d XmlElement<'a>, open: Open) -> Result<Layout, RngFault>
        ensures added { (e : Written) → IsMeant self.old element.now «open» e
            → OnOk result (Adds self.old self.new
            (link_terms e Keyword.Include ++ if_so (nat_le 1 e.count) open_brace)) }
        ensures layout { IfOk result (λ l. layout_meant l
            ≡ around (if_so (nat_le 1 «open».children.count) close_brace)) }
    {
        let overrides = open.children.count > 0;
        self.put_link(element, open, Keyword::Include)?;
        self.put_sign(element.at, overrides_front(overrides))?;
        Ok(Layout::around(Standing::Alone, overrides_end(overrides)))
    }

    /// Writes an external pattern, with the namespace that its file inherits (4.6).
    fn write_external(
        &mut self,
        element: &'d XmlElement<'a>,
        open: Open,
    ) -> Result<Layout, RngFault>
        ensures added { (e : Written) → IsMeant self.old element.now «open» e
            → OnOk result (Adds self.old self.new (link_terms e Keyword.External)) }
        ensures layout { IfOk result (λ l. layout_meant l ≡ around []) }
    {
        self.put_link(element, open, Keyword::External)?;
        Ok(Layout::none())
    }

    /// Writes a reference to a file, and the namespace that the file inherits.
    fn put_link(
        &mut self,
        element: &'d XmlElement<'a>,
        open: Open,
        keyword: Keyword,
    ) -> Result<(), RngFault>
        ensures { (e : Written) → IsMeant self.old element.now «open» e
            → OnOk result (Adds self.old self.new (link_terms e keyword)) }
    {
        let (at, href) = self.value(element, "href");
        self.put(element.at, Term::Keyword(keyword))?;
        self.put(at, Term::Literal(href))?;
        self.put_inherited(element.at, open.context.namespace)
    }

    /// Writes which namespace a file inherits, if it isn't the default one.
    fn put_inherited(&mut self, at: usize, namespace: Uri) -> Result<(), RngFault>
        ensures { (default n : Namespace) → IsTable self.old.uris
            → uri_meant self.old.uris self.old.default ≡ Some default
            → uri_meant self.old.uris namespace ≡ Some n
            → OnOk result (Adds self.old self.new (inherit_terms default n)) }
    {
        if namespace.is(self.default) {
            return Ok(());
        }
        self.put_sign(at, Sign::Space)?;
        self.put(at, Term::Keyword(Keyword::Inherit))?;
        self.put_sign(at, Sign::Equals)?;
        self.put(at, Term::Prefix(namespace))
    }
}

/// The sign of a method by which definitions are combined.
fn method_sign(method: &str) -> Sign
    ensures { sign_terms result ≡ method_term (Some method.now) }
{
    if trimmed(method) == "choice" {
        Sign::ChoiceEquals
    } else {
        Sign::InterleaveEquals
    }
}

/// What opens the overrides of an include, if it has any.
fn overrides_front(are_some: bool) -> Sign
    ensures { sign_terms result ≡ if_so are_some open_brace }
{
    if are_some {
        Sign::OpenBraceLine
    } else {
        Sign::LineEnd
    }
}

/// What closes them.
fn overrides_end(are_some: bool) -> Sign
    ensures { sign_terms result ≡ if_so are_some close_brace }
{
    if are_some {
        Sign::CloseBraceLine
    } else {
        Sign::Nothing
    }
}
