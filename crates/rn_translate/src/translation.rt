// The compact text of a document, with the place of each piece.
ghost use Rattle.std.specs.Prelude.{◌≡◌, ◌≤◌, List, length, string_bytes, IfErr, IfOk};
ghost use Rattle.std.specs.Str.{chars};
ghost use Rattle.std.specs.String.{string_len};
ghost use Rattle.rn_text.specs.Tokens.{HasTokens, Lexeme};
ghost use Rattle.rn_xml.specs.Infoset.{Node};
ghost use Rattle.rn_xml.specs.DocumentTrees.{HoldsRoot, IsReadFrom};
ghost use Rattle.rn_translate.specs.Limits.{max_text};
ghost use Rattle.rn_translate.specs.Cuts.{IsTextOf};
ghost use Rattle.rn_translate.specs.Translation.{default_of, schema_terms};
ghost use Rattle.rn_translate.specs.SchemaTokens.{schema_tokens};
ghost use Rattle.rn_translate.specs.inside.DraftTokens.{IsPrintedAs};
ghost use Rattle.rn_translate.specs.inside.OpenLevels.{AreSound};
ghost use Rattle.rn_translate.specs.Origins.{AreOrigins};

use crate::draft::Draft;
use crate::printing::{Declared, print};
use crate::rng_fault::RngFault;
use crate::translated::{Origins, Translated};
use crate::translator::Translator;
use rn_xml::XmlDocument;
use std::alloc::Global;

/// The schema that a document is, in the compact syntax (RELAX NG 2001, section 3; compact syntax, appendix A). The text
/// of the document is given too. What section 4 would inherit is written where it is used: the namespace of the root is
/// the default one, others and datatype libraries have prefixes. Elements and attributes of other vocabularies leave
/// nothing (4.1).
///
/// Refused at the first place where the document is no schema in the XML syntax, where the text would have more than
/// [`MAX_TEXT`](crate::MAX_TEXT) bytes, and wherever memory is.
#[tactic(auto, using(crate::proofs::CutTexts::parts_have_tokens, crate::proofs::RisingOrigins::in_order_of_draft, crate::proofs::RisingOrigins::pieces_of_draft))]
pub fn compact_text(
    alloc: Global,
    source: &str,
    document: &XmlDocument<'_>,
) -> Result<Translated, RngFault>
    ensures tokens { IfOk result (λ made. (tokens : List Lexeme)
        × HasTokens (chars (string_bytes made.text)) tokens) }
    ensures translation { (read : IsReadFrom (chars source.now) document.now)
        → IfOk result (λ made. IsTextOf (string_bytes made.text)
        (schema_tokens (default_of read.root) (schema_terms read.root))) }
    ensures small { IfOk result (λ made. string_len made.text ≤ max_text) }
    ensures origins { IfOk result (λ made. AreOrigins (string_len made.text) (length source.now)
        made.origins.items.items) }
    ensures fault { IfErr result (λ fault. fault.at ≤ length source.now) }
{
    match whole_text(alloc, source, document) {
        Ok(Draft { text, origins, .. }) => Ok(Translated {
            text,
            origins: Origins { items: origins },
        }),
        Err(RngFault { at, kind }) => Err(RngFault {
            at: at.min(source.len()),
            kind,
        }),
    }
}

/// The compact text of a document: its declarations, and what its elements come to.
fn whole_text(alloc: Global, source: &str, document: &XmlDocument<'_>) -> Result<Draft, RngFault>
    ensures source { IfOk result (λ whole. whole.source_len ≡ length source.now) }
    ensures meant { (root : Node) → AreSound document.now → HoldsRoot document.now root
        → IfOk result (λ whole. IsPrintedAs whole
        (schema_tokens (default_of root) (schema_terms root))) }
{
    let mut translator = Translator::new(alloc, source, document)?;
    translator.walk()?;
    let Translator {
        uris,
        default,
        terms,
        ..
    } = translator;
    let declared = Declared::of(alloc, &uris, default, terms.as_slice())?;
    print(alloc, source.len(), &declared, terms.as_slice())
}
