// A document, read from its text.
ghost use Rattle.std.specs.Prelude.{◌≡◌, ◌⊎◌, ◌<◌, ◌≤◌, ℕ, List, [], false, Some, length, vec_len, IfErr, IfOk, IfSome, IsNone, OnOk};
ghost use Rattle.std.specs.Str.{IsUtf8, chars};
ghost use Rattle.rn_xml.specs.DocumentFaults.{IsOfText};
ghost use Rattle.rn_xml.specs.DocumentTrees.{IsReadFrom};
ghost use Rattle.rn_xml.specs.Infoset.{Node};
ghost use Rattle.rn_xml.specs.XmlDocuments.{IsXmlDocument};
ghost use Rattle.rn_xml.specs.inside.Fronts.{opens_tag};
ghost use Rattle.rn_xml.specs.inside.OpenElements.{LacksElement, Needs};
ghost use Rattle.rn_xml.specs.PrefixScopes.{innermost};
ghost use Rattle.rn_xml.specs.inside.ReadDocuments.{AreOpen, IsAtTag, IsReading, IsRootRead, place_of};
ghost use Rattle.rn_xml.specs.DocumentTables.{AreTables};
ghost use Rattle.rn_xml.specs.inside.Rests.{StopsWithin, source};
ghost use Rattle.rn_xml.specs.inside.Readers.{HasRoomFor, MayReadOn, ReadsOn, element_count};

use crate::characters::after_front;
use crate::declaration::after_declaration;
use crate::document::XmlDocument;
use crate::markup::{after_misc, split_text};
use crate::stop::Stop;
use crate::tags::TagReader;
use crate::xml_fault::{XmlFault, XmlFaultKind};
use std::alloc::Global;

/// Why the text can't be that of the innermost open element, whose place has this many bytes behind it.
fn unclosed(left: usize, rest: &str) -> Option<Stop>
    ensures ends { IfSome result (λ stop. (stop.left ≡ left) ⊎ (stop.left ≡ length rest.now)) }
    ensures more { IsNone result → 0 < length rest.now }
    ensures no_tag { IfSome result (λ _. opens_tag (source rest.now) ≡ false) }
{
    if rest.is_empty() {
        return Some(Stop {
            left,
            kind: XmlFaultKind::NotClosed,
        });
    }
    if after_front(rest, "<!DOCTYPE").is_some() {
        return Some(Stop::before(rest, XmlFaultKind::Doctype));
    }
    None
}

/// Why no root element begins here, if none does.
fn no_root(rest: &str) -> Option<Stop>
    ensures place { IfSome result (StopsWithin rest.now) }
    ensures no_tag { IfSome result (λ _. opens_tag (source rest.now) ≡ false) }
{
    if rest.is_empty() {
        return Some(Stop::before(rest, XmlFaultKind::NoRoot));
    }
    if after_front(rest, "<!DOCTYPE").is_some() {
        return Some(Stop::before(rest, XmlFaultKind::Doctype));
    }
    None
}

/// What may not follow the root element.
fn further(rest: &str) -> Stop
    ensures { StopsWithin rest.now result }
{
    if after_front(rest, "<").is_some() {
        Stop::before(rest, XmlFaultKind::SecondRoot)
    } else {
        Stop::before(rest, XmlFaultKind::Outside)
    }
}

/// Reads the text before the next tag, in an element that is open, and answers the tag and what follows it.
fn read_text<'a>(reader: &mut TagReader<'a>, parent: usize, text: &'a str) -> Result<&'a str, Stop>
    requires room { HasRoomFor reader.old text.now }
    requires parent { parent < element_count reader.old }
    ensures reads { MayReadOn reader.old text.now result }
    ensures same { reader.new.len ≡ reader.old.len }
    ensures elements { element_count reader.new ≡ element_count reader.old }
    ensures document { IfOk result (λ tag. (cs : List ℕ)
        → innermost reader.old.opened.items ≡ Some parent
        → IsReading cs reader.old text.now → IsAtTag cs reader.new parent tag.now) }
    ensures utf8 { IfOk result (λ tag. IsUtf8 tag.now) }
    ensures refused { IfErr result (λ stop. IsOfText stop.kind → (cs : List ℕ)
        → innermost reader.old.opened.items ≡ Some parent
        → IsReading cs reader.old text.now → LacksElement cs) }
{
    let (content, left, tag) = split_text(reader.alloc, text)?;
    if content.is_empty() {
        return Ok(tag);
    }
    reader.add_text(parent, left, content)?;
    Ok(tag)
}

/// Reads the text before the next tag, and that tag, in an element that is open, and answers what follows.
fn read_piece<'a>(reader: &mut TagReader<'a>, parent: usize, text: &'a str) -> Result<&'a str, Stop>
    requires room { HasRoomFor reader.old text.now }
    requires parent { parent < element_count reader.old }
    requires last { innermost reader.old.opened.items ≡ Some parent }
    ensures reads { ReadsOn reader.old text.now result }
    ensures same { reader.new.len ≡ reader.old.len }
    ensures more { element_count reader.old ≤ element_count reader.new }
    ensures document { IfOk result (λ rest. (cs : List ℕ) → IsReading cs reader.old text.now
        → IsReading cs reader.new rest.now) }
    ensures utf8 { IfOk result (λ rest. IsUtf8 rest.now) }
    ensures refused { IfErr result (λ stop. IsOfText stop.kind → (cs : List ℕ)
        → IsReading cs reader.old text.now → LacksElement cs) }
{
    let tag = read_text(reader, parent, text)?;
    if let Some(stop) = unclosed(reader.left_of(parent), tag) {
        return Err(stop);
    }
    match after_front(tag, "</") {
        Some(inside) => reader.read_end_tag(tag, inside),
        None => reader.read_start_tag(tag, Some(parent)),
    }
}

/// Reads the root element, and answers what follows it.
fn read_root<'a>(reader: &mut TagReader<'a>, text: &'a str) -> Result<&'a str, Stop>
    requires room { HasRoomFor reader.old text.now }
    requires empty { element_count reader.old ≡ 0 }
    ensures reads { ReadsOn reader.old text.now result }
    ensures same { reader.new.len ≡ reader.old.len }
    ensures root { OnOk result (0 < element_count reader.new) }
    ensures document { IfOk result (λ rest. AreOpen reader.old [] (place_of reader.old text.now)
        → IsRootRead (source text.now) reader.new.tables.document (source rest.now)) }
    ensures only { IfOk result (λ rest. AreOpen reader.old [] (place_of reader.old text.now)
        → Needs (source text.now) [] (source rest.now)) }
    ensures utf8 { IfOk result (λ rest. IsUtf8 rest.now) }
    ensures refused { IfErr result (λ stop. IsOfText stop.kind
        → AreOpen reader.old [] (place_of reader.old text.now)
        → LacksElement (source text.now)) }
{
    let mut rest = reader.read_start_tag(text, None)?;
    while let Some(parent) = reader.innermost() {
        rest = read_piece(reader, parent, rest)?;
    }
    Ok(rest)
}

/// The document that the text is.
fn read_whole<'a>(alloc: Global, text: &'a str) -> Result<XmlDocument<'a>, Stop>
    ensures tables { IfOk result AreTables }
    ensures root { IfOk result (λ document. 0 < vec_len document.elements) }
    ensures document { IfOk result (IsReadFrom (chars text.now)) }
    ensures err { IfErr result (StopsWithin text.now) }
    ensures refused { IfErr result (λ stop. IsOfText stop.kind
        → (root : Node) → ¬ IsXmlDocument (chars text.now) root) }
{
    let prolog = after_declaration(text)?;
    let root = after_misc(prolog)?;
    if let Some(stop) = no_root(root) {
        return Err(stop);
    }
    let mut reader = TagReader::new(alloc, text.len())?;
    let behind = read_root(&mut reader, root)?;
    let rest = after_misc(behind)?;
    if !rest.is_empty() {
        return Err(further(rest));
    }
    Ok(reader.tables.document)
}

/// The document that the text is (XML 1.0 Fifth Edition; Namespaces in XML 1.0). Refused at its first fault: where the
/// text is not well-formed, has a document type declaration, or more than [`MAX_DEPTH`] elements are open, and wherever
/// memory is. The names of a tag are faulty only if all of the tag is read: then first its own, and then those of its
/// attributes in text order. Where the fault is neither the depth nor memory, the text is no document.
///
/// [`MAX_DEPTH`]: crate::MAX_DEPTH
pub fn read_document<'a>(alloc: Global, text: &'a str) -> Result<XmlDocument<'a>, XmlFault>
    ensures tables { IfOk result AreTables }
    ensures root { IfOk result (λ document. 0 < vec_len document.elements) }
    ensures document { IfOk result (IsReadFrom (chars text.now)) }
    ensures err { IfErr result (λ fault. fault.at ≤ length text.now) }
    ensures refused { IfErr result (λ fault. IsOfText fault.kind
        → (root : Node) → ¬ IsXmlDocument (chars text.now) root) }
{
    match read_whole(alloc, text) {
        Ok(document) => Ok(document),
        Err(stop) => Err(XmlFault {
            at: text.len() - stop.left,
            kind: stop.kind,
        }),
    }
}
