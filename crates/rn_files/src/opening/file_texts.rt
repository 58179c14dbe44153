// The text of a file, and what it is made of.
ghost use Rattle.std.specs.Prelude.{◌≡◌, true, IfNone, IfOk, IfSome, IsErr, IsNone, IsSome, OnOk, OnSome, if◌then◌else◌, string_bytes};
ghost use Rattle.rn_xml.specs.Encodings.{may_be_xml};
ghost use Rattle.rn_files.specs.inside.Encodings.{begins_utf16};
ghost use Rattle.rn_files.specs.inside.Following.{IsDecodedIn, IsFront, IsKeptIn};

use crate::source_faults::SourceFaultKind;
use crate::sources::XmlSource;
use rn_outline::{Outline, OutlineFault, read_outline};
use rn_text::{TextFault, tokens};
use rn_translate::{RngFault, RngFaultKind, Translated, compact_text};
use rn_xml::{Undecoded, XmlFault, XmlFaultKind, decode, is_xml, read_document};
use std::alloc::{AllocError, Global};

/// The most bytes of the text of a file.
pub const MAX_TEXT: usize = rn_modset::MAX_TEXT;

/// What was read of a file.
#[derive(Drop)]
pub struct FileText {
    /// The text in the compact syntax, or as much of it as is UTF-8; none of a document that is at fault.
    pub text: String,
    /// The outline of the text, or what is wrong with the text.
    pub outline: Result<Outline, FileTextFault>,
    /// What is written in the file, if it is in the XML syntax.
    pub written: Option<XmlSource>,
}

/// What is wrong with a text.
#[derive(Drop)]
pub struct FileTextFault {
    /// The byte of the text where it is wrong, counted from 0.
    pub at: usize,
    /// What is wrong there.
    pub kind: SourceFaultKind,
}

/// The front of the bytes up to the one with this number, if it is UTF-8.
fn front(bytes: &[u8], at: usize) -> &str
    ensures { IsFront bytes.now result.now }
{
    match bytes.get(..at) {
        Some(front) => str::from_utf8(front).unwrap_or(""),
        None => "",
    }
}

/// The outline of a text.
fn outline_of(alloc: Global, text: &str) -> Result<Result<Outline, FileTextFault>, AllocError> {
    let tokens = match tokens(alloc, text.as_bytes()) {
        Ok(tokens) => tokens,
        Err(TextFault::Encoding { at }) => return Ok(Err(FileTextFault {
            at,
            kind: SourceFaultKind::Encoding,
        })),
        Err(TextFault::Lexical { at }) => return Ok(Err(FileTextFault {
            at,
            kind: SourceFaultKind::Lexical,
        })),
        Err(TextFault::Memory) => return Err(AllocError),
    };
    match read_outline(alloc, text, tokens.as_slice()) {
        Ok(outline) => Ok(Ok(outline)),
        Err(OutlineFault::Syntax { at, wanted }) => Ok(Err(FileTextFault {
            at,
            kind: SourceFaultKind::Syntax(wanted),
        })),
        Err(OutlineFault::Deep { at }) => Ok(Err(FileTextFault {
            at,
            kind: SourceFaultKind::Deep,
        })),
        Err(OutlineFault::Memory) => Err(AllocError),
    }
}

/// The text that the bytes are, and its outline. Bytes that begin with `<`, behind a byte order mark and white space, are
/// a document in the XML syntax, whose text is that of the compact syntax which is made of it.
pub fn text_of(alloc: Global, bytes: &[u8]) -> Result<FileText, AllocError>
    ensures whole { IfOk result (λ read. OnOk read.outline (IfNone read.written
        (string_bytes read.text ≡ bytes.now))) }
    ensures front { IfOk result (λ read. IfNone read.written
        (IsFront bytes.now (string_bytes read.text))) }
    ensures document { IfOk result (λ read. OnSome read.written (may_be_xml bytes.now ≡ true)) }
    ensures decoded { IfOk result (λ read. OnOk read.outline (IsDecodedIn bytes.now read.written)) }
    ensures kept { IfOk result (λ read. IsKeptIn bytes.now read.written) }
{
    if is_xml(bytes) {
        return document_text(alloc, bytes);
    }
    compact_file_text(alloc, bytes)
}

/// The text that the bytes are in the compact syntax, and its outline.
fn compact_file_text(alloc: Global, bytes: &[u8]) -> Result<FileText, AllocError>
    ensures whole { IfOk result (λ read. OnOk read.outline (string_bytes read.text ≡ bytes.now)) }
    ensures front { IfOk result (λ read. IsFront bytes.now (string_bytes read.text)) }
    ensures written { IfOk result (λ read. IsNone read.written) }
{
    match str::from_utf8(bytes) {
        Ok(text) => Ok(FileText {
            text: String::from_str(alloc, text)?,
            outline: outline_of(alloc, text)?,
            written: None,
        }),
        Err(wrong) => unread_text(alloc, bytes, wrong.valid_up_to()),
    }
}

/// Whether the bytes begin with a byte order mark of UTF-16, of either order (RFC 2781, section 3.2).
fn is_utf16(bytes: &[u8]) -> bool
    ensures { result ≡ begins_utf16 bytes.now }
{
    bytes.starts_with(&[0xFF, 0xFE]) || bytes.starts_with(&[0xFE, 0xFF])
}

/// What is wrong with bytes that are no UTF-8 from this one on.
fn encoding_fault(bytes: &[u8], at: usize) -> FileTextFault
    ensures at { result.at ≡ at }
    ensures kind { result.kind ≡ (if begins_utf16 bytes.now
        then SourceFaultKind.Utf16 else SourceFaultKind.Encoding) }
{
    let kind = if is_utf16(bytes) {
        SourceFaultKind::Utf16
    } else {
        SourceFaultKind::Encoding
    };
    FileTextFault { at, kind }
}

/// What is read of bytes that are no UTF-8 from this one on.
fn unread_text(alloc: Global, bytes: &[u8], at: usize) -> Result<FileText, AllocError>
    ensures faulty { IfOk result (λ read. IsErr read.outline) }
    ensures front { IfOk result (λ read. IsFront bytes.now (string_bytes read.text)) }
    ensures written { IfOk result (λ read. IsNone read.written) }
{
    Ok(FileText {
        text: String::from_str(alloc, front(bytes, at))?,
        outline: Err(encoding_fault(bytes, at)),
        written: None,
    })
}

/// A document that is at fault.
fn faulty_document(alloc: Global, source: String, fault: FileTextFault) -> FileText
    ensures faulty { IsErr result.outline }
    ensures written { IsSome result.written }
    ensures unmade { IfSome result.written (λ w. IsNone w.origins) }
{
    FileText {
        text: String::new(alloc),
        outline: Err(fault),
        written: Some(XmlSource {
            text: source,
            origins: None,
        }),
    }
}

/// The compact text of a document in the XML syntax, and its outline.
fn document_text(alloc: Global, bytes: &[u8]) -> Result<FileText, AllocError>
    ensures written { IfOk result (λ read. IsSome read.written) }
    ensures decoded { IfOk result (λ read. OnOk read.outline (IsDecodedIn bytes.now read.written)) }
    ensures kept { IfOk result (λ read. IsKeptIn bytes.now read.written) }
{
    let source = match decode(alloc, bytes) {
        Ok(source) => source,
        Err(Undecoded { text, fault }) => {
            return Ok(faulty_document(alloc, text, document_fault(fault)?));
        }
    };
    match translated(alloc, source.as_str())? {
        Ok(Translated { text, origins }) => Ok(FileText {
            outline: outline_of(alloc, text.as_str())?,
            text,
            written: Some(XmlSource {
                text: source,
                origins: Some(origins),
            }),
        }),
        Err(fault) => Ok(faulty_document(alloc, source, fault)),
    }
}

/// What the text of a document in the XML syntax is in the compact syntax, or its fault.
fn translated(
    alloc: Global,
    source: &str,
) -> Result<Result<Translated, FileTextFault>, AllocError> {
    let document = match read_document(alloc, source) {
        Ok(document) => document,
        Err(fault) => return Ok(Err(document_fault(fault)?)),
    };
    match compact_text(alloc, source, &document) {
        Ok(made) => Ok(Ok(made)),
        Err(fault) => Ok(Err(schema_fault(fault)?)),
    }
}

/// The fault of a document that is not well-formed.
fn document_fault(fault: XmlFault) -> Result<FileTextFault, AllocError> {
    match fault.kind {
        XmlFaultKind::Memory => Err(AllocError),
        kind => Ok(FileTextFault {
            at: fault.at,
            kind: SourceFaultKind::Document(kind),
        }),
    }
}

/// The fault of a document that is no schema.
fn schema_fault(fault: RngFault) -> Result<FileTextFault, AllocError> {
    let RngFault { at, kind } = fault;
    match kind {
        RngFaultKind::Memory => Err(AllocError),
        kind => Ok(FileTextFault {
            at,
            kind: SourceFaultKind::Schema(kind),
        }),
    }
}
