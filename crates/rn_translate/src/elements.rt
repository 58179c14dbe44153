// What each element of RELAX NG comes to in the compact text (compact syntax, section 3).
ghost use Rattle.std.specs.Prelude.{◌≡◌, ◌∷◌, ◌++◌, [], codes, unwrap_or, IfOk, OnOk};
ghost use Rattle.rn_translate.specs.Terms.{keyword as keyword_term, close_brace, identifier, open_brace, open_parenthesis, close_parenthesis, symbol};
ghost use Rattle.rn_translate.specs.SchemaElements.{name_in, value_of};
ghost use Rattle.rn_translate.specs.Layouts.{Written, around, begins, begins_operands, if_so, is_tight, layout, operands, then_behind};
ghost use Rattle.rn_translate.specs.inside.Meanings.{Adds, is_parted, layout_meant, sign_terms};
ghost use Rattle.rn_translate.specs.inside.ElementsMeant.{IsMeant, attributes_at};

use crate::document_parts::{attribute, trimmed};
use crate::kinds::Kind;
use crate::rng_fault::RngFault;
use crate::signs::Sign;
use crate::standing::{Layout, Operator, Standing};
use crate::terms::Term;
use crate::translator::{Open, Translator};
use rn_text::Keyword;
use rn_xml::XmlElement;

impl<'d, 'a> Translator<'d, 'a> {
    /// The value of an attribute, and its place; nothing at the element where it has no such attribute.
    pub fn value(&self, element: &'d XmlElement<'a>, local: &str) -> (usize, &'d str)
        ensures { result.1.now ≡ unwrap_or
            (value_of local.now (attributes_at self.now.document.now element.now)) [] }
    {
        match attribute(self.document, element, local) {
            Some(found) => (found.value_at, found.value.as_str()),
            None => (element.at, ""),
        }
    }

    /// Writes an element up to its children, and answers how they are written.
    pub fn write_front(
        &mut self,
        element: &'d XmlElement<'a>,
        open: Open,
    ) -> Result<Layout, RngFault>
        ensures added { (e : Written) → IsMeant self.old element.now «open» e
            → OnOk result (Adds self.old self.new (begins e e.kind)) }
        ensures layout { (e : Written) → IsMeant self.old element.now «open» e
            → IfOk result (λ l. layout_meant l ≡ layout e e.kind) }
    {
        let at = element.at;
        match open.holder.kind {
            Kind::Element => self.write_named(element, open, Keyword::Element),
            Kind::Attribute => self.write_named(element, open, Keyword::Attribute),
            Kind::Group => self.write_operands(at, open, Operator::Comma),
            Kind::Interleave => self.write_operands(at, open, Operator::Ampersand),
            Kind::Choice => self.write_operands(at, open, Operator::Bar),
            Kind::Optional => self.write_repetition(at, open, Sign::Question),
            Kind::ZeroOrMore => self.write_repetition(at, open, Sign::Star),
            Kind::OneOrMore => self.write_repetition(at, open, Sign::Plus),
            Kind::List => self.write_braces(at, open, Keyword::List),
            Kind::Mixed => self.write_braces(at, open, Keyword::Mixed),
            Kind::Ref => self.write_reference(element),
            Kind::ParentRef => self.write_parent_reference(element),
            Kind::Empty => self.write_keyword(at, Keyword::Empty),
            Kind::Text => self.write_keyword(at, Keyword::Text),
            Kind::NotAllowed => self.write_keyword(at, Keyword::NotAllowed),
            Kind::Value => self.write_value(element, open),
            Kind::Data => self.write_data(element, open),
            Kind::Param => self.write_param(element, open),
            Kind::Except => self.write_except(at, open),
            Kind::Name => self.write_name(element, open),
            Kind::AnyName => self.write_wildcard(at, open, Term::AnyName),
            Kind::NsName => self.write_wildcard(at, open, Term::AnyOf(open.context.namespace)),
            Kind::Grammar
            | Kind::Start
            | Kind::Define
            | Kind::Div
            | Kind::Include
            | Kind::ExternalRef
            | Kind::Foreign => self.write_item(element, open),
        }
    }

    /// Writes a group, an interleave or a choice.
    fn write_operands(
        &mut self,
        at: usize,
        open: Open,
        operator: Operator,
    ) -> Result<Layout, RngFault>
        ensures added { OnOk result (Adds self.old self.new
            (begins_operands «open».place.standing operator «open».children.count)) }
        ensures layout { IfOk result (λ l. layout_meant l
            ≡ operands «open».place.standing operator «open».children.count) }
    {
        self.put_operands(at, open.place.standing, operator, open.children.count)
    }

    /// Opens so many operands of an operator, with a parenthesis where they need it.
    pub fn put_operands(
        &mut self,
        at: usize,
        standing: Standing,
        operator: Operator,
        count: usize,
    ) -> Result<Layout, RngFault>
        ensures added { OnOk result (Adds self.old self.new
            (begins_operands standing operator count)) }
        ensures layout { IfOk result (λ l. layout_meant l ≡ operands standing operator count) }
        ensures closing { IfOk result (λ l. l.closing ≡ Sign.Nothing) }
        ensures outer { IfOk result (λ l. l.outer ≡ Sign.Nothing) }
    {
        let _ = self.put_parenthesis(at, standing.parts(operator, count))?;
        Ok(Layout::operands(standing, operator, count))
    }

    /// Writes what is repeated, or left out: several children are a group (4.12).
    fn write_repetition(&mut self, at: usize, open: Open, sign: Sign) -> Result<Layout, RngFault>
        ensures added { OnOk result (Adds self.old self.new
            (if_so (is_tight «open».place.standing) open_parenthesis
            ++ begins_operands Standing.Tight Operator.Comma «open».children.count)) }
        ensures layout { IfOk result (λ l. layout_meant l
            ≡ then_behind (operands Standing.Tight Operator.Comma «open».children.count)
            (sign_terms sign ++ if_so (is_tight «open».place.standing) close_parenthesis)) }
    {
        let outer = self.put_parenthesis(at, open.place.standing.is_tight())?;
        let operands = self.put_operands(
            at,
            Standing::Tight,
            Operator::Comma,
            open.children.count,
        )?;
        Ok(operands.then(sign, outer))
    }

    /// Writes a parenthesis where one is needed, and answers what closes it.
    fn put_parenthesis(&mut self, at: usize, is_needed: bool) -> Result<Sign, RngFault>
        ensures added { OnOk result (Adds self.old self.new (if_so is_needed open_parenthesis)) }
        ensures layout { IfOk result (λ sign. sign_terms sign ≡ if_so is_needed close_parenthesis) }
    {
        if is_needed {
            self.put(at, Term::Parenthesis)?;
            return Ok(Sign::CloseParenthesis);
        }
        Ok(Sign::Nothing)
    }

    /// Writes what has its content between braces: several children are a group (4.12).
    fn write_braces(&mut self, at: usize, open: Open, keyword: Keyword) -> Result<Layout, RngFault>
        ensures added { OnOk result (Adds self.old self.new (keyword_term keyword ∷ open_brace)) }
        ensures layout { IfOk result (λ l. layout_meant l
            ≡ then_behind (operands Standing.Alone Operator.Comma «open».children.count)
            close_brace) }
    {
        self.put(at, Term::Keyword(keyword))?;
        self.put_sign(at, Sign::OpenBrace)?;
        let operands = Layout::operands(Standing::Alone, Operator::Comma, open.children.count);
        Ok(operands.then(Sign::CloseBrace, Sign::Nothing))
    }

    /// Writes a pattern that is a keyword.
    fn write_keyword(&mut self, at: usize, keyword: Keyword) -> Result<Layout, RngFault>
        ensures added { OnOk result (Adds self.old self.new (keyword_term keyword ∷ [])) }
        ensures layout { IfOk result (λ l. layout_meant l ≡ around []) }
    {
        self.put(at, Term::Keyword(keyword))?;
        Ok(Layout::none())
    }

    /// Writes a reference.
    fn write_reference(&mut self, element: &'d XmlElement<'a>) -> Result<Layout, RngFault>
        ensures added { OnOk result (Adds self.old self.new (identifier
            (name_in (codes "name") (attributes_at self.old.document.now element.now)) ∷ [])) }
        ensures layout { IfOk result (λ l. layout_meant l ≡ around []) }
    {
        let (at, name) = self.value(element, "name");
        self.put_identifier(at, trimmed(name))?;
        Ok(Layout::none())
    }

    /// Writes a reference to the grammar around.
    fn write_parent_reference(&mut self, element: &'d XmlElement<'a>) -> Result<Layout, RngFault>
        ensures added { OnOk result (Adds self.old self.new (keyword_term Keyword.Parent
            ∷ identifier (name_in (codes "name")
            (attributes_at self.old.document.now element.now)) ∷ [])) }
        ensures layout { IfOk result (λ l. layout_meant l ≡ around []) }
    {
        self.put(element.at, Term::Keyword(Keyword::Parent))?;
        self.write_reference(element)
    }

    /// Begins what may have an except, with parentheses where that needs them.
    pub fn begin_excepted(&mut self, at: usize, open: Open) -> Result<Layout, RngFault>
        ensures added { OnOk result (Adds self.old self.new
            (if_so (is_parted «open») open_parenthesis)) }
        ensures layout { IfOk result (λ l. layout_meant l
            ≡ around (if_so (is_parted «open») close_parenthesis)) }
    {
        let closing = self.put_parenthesis(at, open.is_parted())?;
        Ok(Layout::around(Standing::Alone, closing))
    }

    /// Writes an except: several children are a choice (4.12).
    fn write_except(&mut self, at: usize, open: Open) -> Result<Layout, RngFault>
        ensures added { OnOk result (Adds self.old self.new (symbol (codes "-")
            ∷ begins_operands Standing.Tight Operator.Bar «open».children.count)) }
        ensures layout { IfOk result (λ l. layout_meant l
            ≡ operands Standing.Tight Operator.Bar «open».children.count) }
    {
        self.put_sign(at, Sign::Minus)?;
        self.put_operands(at, Standing::Tight, Operator::Bar, open.children.count)
    }
}
