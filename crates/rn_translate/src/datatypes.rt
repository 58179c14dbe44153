// What values, data and parameters come to in the compact text (compact syntax, section 3).
ghost use Rattle.std.specs.Prelude.{◌≡◌, ◌∷◌, ◌++◌, [], true, codes, IfOk, OnOk};
ghost use Rattle.rn_translate.specs.Terms.{close_brace, close_parenthesis, datatype as datatype_term, literal, open_brace, open_parenthesis};
ghost use Rattle.rn_translate.specs.SchemaElements.{holds_text, name_in, value_of};
ghost use Rattle.rn_translate.specs.Layouts.{Written, around, begins_param, datatype_terms, if_so, is_closed};
ghost use Rattle.rn_translate.specs.inside.Meanings.{Adds, is_parted, layout_meant, sign_terms};
ghost use Rattle.rn_translate.specs.inside.ElementsMeant.{IsMeant};

use crate::document_parts::{attribute, trimmed};
use crate::rng_fault::RngFault;
use crate::signs::Sign;
use crate::standing::Layout;
use crate::terms::Term;
use crate::translator::{Open, Translator};
use rn_xml::XmlElement;

impl<'d, 'a> Translator<'d, 'a> {
    /// Writes a value, with its datatype if it gives one.
    pub fn write_value(
        &mut self,
        element: &'d XmlElement<'a>,
        open: Open,
    ) -> Result<Layout, RngFault>
        ensures added { (e : Written) → IsMeant self.old element.now «open» e
            → holds_text e.kind ≡ true → OnOk result (Adds self.old self.new
            (datatype_terms e (value_of (codes "type") e.attributes) ++ literal e.text ∷ [])) }
        ensures layout { IfOk result (λ l. layout_meant l ≡ around []) }
    {
        self.put_given_type(element, open)?;
        let (at, content) = self.content(open.index, element.at);
        self.put(at, Term::Literal(content))?;
        Ok(Layout::none())
    }

    /// Writes the datatype that the attribute `type` gives, if it is there.
    fn put_given_type(&mut self, element: &'d XmlElement<'a>, open: Open) -> Result<(), RngFault>
        ensures { (e : Written) → IsMeant self.old element.now «open» e
            → OnOk result (Adds self.old self.new
            (datatype_terms e (value_of (codes "type") e.attributes))) }
    {
        match attribute(self.document, element, "type") {
            Some(datatype) => self.put_datatype(
                datatype.value_at,
                trimmed(datatype.value.as_str()),
                open.context.library,
            ),
            None => Ok(()),
        }
    }

    /// Writes data without its parameters and its except.
    pub fn write_data(
        &mut self,
        element: &'d XmlElement<'a>,
        open: Open,
    ) -> Result<Layout, RngFault>
        ensures added { (e : Written) → IsMeant self.old element.now «open» e
            → OnOk result (Adds self.old self.new (if_so (is_closed e) open_parenthesis
            ++ datatype_term e.context.library (name_in (codes "type") e.attributes) ∷ [])) }
        ensures layout { IfOk result (λ l. layout_meant l
            ≡ around (if_so (is_parted «open») close_parenthesis)) }
    {
        let layout = self.begin_excepted(element.at, open)?;
        let (at, datatype) = self.value(element, "type");
        self.put_datatype(at, trimmed(datatype), open.context.library)?;
        Ok(layout)
    }

    /// Writes a parameter, and the braces round all of them with the first and the last one.
    pub fn write_param(
        &mut self,
        element: &'d XmlElement<'a>,
        open: Open,
    ) -> Result<Layout, RngFault>
        ensures added { (e : Written) → IsMeant self.old element.now «open» e
            → holds_text e.kind ≡ true → OnOk result (Adds self.old self.new (begins_param e)) }
        ensures layout { IfOk result (λ l. layout_meant l ≡ around []) }
    {
        self.put_sign(element.at, params_front(open.place.is_first))?;
        let (name_at, name) = self.value(element, "name");
        self.put_local_name(name_at, trimmed(name))?;
        self.put_sign(name_at, Sign::Equals)?;
        let (at, content) = self.content(open.index, element.at);
        self.put(at, Term::Literal(content))?;
        self.put_sign(element.at, params_end(open.place.is_last))?;
        Ok(Layout::none())
    }
}

/// What is before a parameter: the first opens the braces round all of them.
fn params_front(is_first: bool) -> Sign
    ensures { sign_terms result ≡ if_so is_first open_brace }
{
    if is_first {
        Sign::OpenBrace
    } else {
        Sign::Space
    }
}

/// What is behind a parameter: the last closes the braces.
fn params_end(is_last: bool) -> Sign
    ensures { sign_terms result ≡ if_so is_last close_brace }
{
    if is_last {
        Sign::CloseBrace
    } else {
        Sign::Nothing
    }
}
