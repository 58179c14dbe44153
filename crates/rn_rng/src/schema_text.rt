// The XML text of a schema in the compact syntax.
ghost use Rattle.std.specs.Prelude.{◌≢◌, IfErr, IfOk, List, MatchResult, map, string_bytes};
ghost use Rattle.std.specs.Str.{IsUtf8, chars};
ghost use Rattle.rn_text.specs.Texts.{Text};
ghost use Rattle.rn_text.specs.Tokens.{HasFault, HasTokens, lexeme_of};
ghost use Rattle.rn_text.specs.declared.source.Token as source;
ghost use Rattle.rn_syntax.specs.Faults.{IsFault};
ghost use Rattle.rn_syntax.specs.View.{module_view};
ghost use Rattle.rn_modset.specs.Contributions.{Member};
ghost use Rattle.rn_assemble.specs.inside.ModuleTexts.{IsRead};
ghost use Rattle.rn_simplify.specs.Verdict.{IsVerdict, prints};
ghost use Rattle.rn_rng.specs.Written.{HasNoXml, IsXmlOf};
ghost use Rattle.rn_rng.specs.declared.xml_fault.XmlFault.TheVariants.{NoSchema};
ghost use Rattle.rn_rng.specs.inside.Unread.{IsUnread};

use crate::grammar_xml::module_xml;
use crate::xml_fault::XmlFault;
use rn_syntax::{Module, SyntaxFault, parse};
use rn_text::{TextFault, Token, tokens};
use std::alloc::Global;

/// The XML text of a module's text, as of a printed schema: that of its module (RELAX NG Compact Syntax, appendix A).
/// `NoSchema` where the text is no module of the compact syntax, or its module includes another; `TooLarge` where
/// the XML would have more than [`crate::MAX_XML`] bytes. A printed schema of a set is never refused as `NoSchema`.
pub fn schema_xml(alloc: Global, text: &str) -> Result<String, XmlFault>
    ensures ok { IfOk result (λ xml. IsXmlOf text.now (string_bytes xml)) }
    ensures err { IfErr result (HasNoXml text.now) }
    ensures printed { (set : List Member) → IsVerdict set (prints text.now)
        → IfErr result (λ fault. fault ≢ NoSchema) }
{
    let tokens = text_tokens(alloc, text)?;
    let module = text_module(alloc, text, &tokens)?;
    module_xml(alloc, &module)
}

/// The tokens of a text.
fn text_tokens<'a>(alloc: Global, text: &'a str) -> Result<Vec<Token<'a>>, XmlFault>
    ensures { MatchResult result (λ found. IsUtf8 text.now
        × HasTokens (chars text.now) (map lexeme_of found.items)) (IsUnread text.now) }
{
    match tokens(alloc, text.as_bytes()) {
        Ok(tokens) => Ok(tokens),
        Err(fault) => Err(text_fault(&fault)),
    }
}

/// Why a text is refused, if it has this fault.
fn text_fault(fault: &TextFault) -> XmlFault
    ensures { (text : Text) → HasFault text fault.now → IsUnread text result }
{
    match fault {
        TextFault::Memory => XmlFault::Memory,
        TextFault::Encoding { at: _ } => XmlFault::NoSchema,
        TextFault::Lexical { at: _ } => XmlFault::NoSchema,
    }
}

/// The module of a text that has these tokens.
fn text_module<'a>(alloc: Global, text: &str, tokens: &[Token<'a>]) -> Result<Module<'a>, XmlFault>
    requires utf8 { IsUtf8 text.now }
    requires tokens { HasTokens (chars text.now) (map lexeme_of tokens.now) }
    ensures { MatchResult result (λ m. IsRead text.now (module_view m)) (IsUnread text.now) }
{
    match parse(alloc, tokens) {
        Ok(module) => Ok(module),
        Err(fault) => Err(syntax_fault(&fault)),
    }
}

/// Why a text is refused, if its tokens have this fault.
fn syntax_fault(fault: &SyntaxFault) -> XmlFault
    ensures { (text : Text) (tokens : List source.Token) → IsUtf8 text
        → HasTokens (chars text) (map lexeme_of tokens) → IsFault tokens fault.now
        → IsUnread text result }
{
    match fault.kind_and_place() {
        Some(_) => XmlFault::NoSchema,
        None => XmlFault::Memory,
    }
}
