// References, resolved against the URI of their file (RFC 3986, section 5.2).
ghost use Rattle.std.specs.Prelude.{◌≡◌, ◌⊎◌, [], Err, IfErr, IfNone, IfOk, IfSome, MatchBool, ◌==◌, map, string_bytes};
ghost use Rattle.std.specs.List.{list_any};
ghost use Rattle.rn_files.specs.Paths.{path_of, without_dots};
ghost use Rattle.rn_files.specs.inside.UriReferences.{LeadAbove, StandsFor, target_segments};
ghost use Rattle.rn_files.specs.UriReferences.{fault_of, resolved_uri};
ghost use Rattle.rn_files.specs.Uris as uris;
ghost use Rattle.rn_files.specs.inside.Uris.{parts_view};

use super::escapes::{escape, has_escapes};
use super::paths::{joined_path, lead_above, segments, without_dots};
use super::uris::{SplitUri, recompose, split};
use std::alloc::{AllocError, Global};
use thiserror::Error;

/// Why a reference names no file.
#[derive(Clone, Copy, Debug, PartialEq, Eq, Error)]
pub enum ReferenceFault {
    /// The reference is empty.
    #[error("the reference is empty")]
    Empty,
    /// The reference has a query.
    #[error("the reference has a query")]
    Query,
    /// The reference has a fragment.
    #[error("the reference has a fragment")]
    Fragment,
    /// A `%` begins no escape.
    #[error("a % is not followed by two hexadecimal digits")]
    Escape,
    /// An escape is a byte that no name of a file holds: 0 or `/`.
    #[error("an escape stands for a byte that no file name holds")]
    Byte,
    /// The bytes of the escapes are no UTF-8.
    #[error("the escapes are not UTF-8")]
    Encoding,
    /// The reference means a `file` URI that names a host.
    #[error("the reference names a host")]
    Host,
    /// The URI has a scheme other than `file`, and no map has a prefix of the URI.
    #[error("no map or catalog says where the URI lies")]
    Scheme,
    /// The URI has the scheme `file` and no path from `/` on.
    #[error("the path of a file URI begins with /")]
    Relative,
    /// An entry of a catalog leads from the URI to another, which is no file's.
    #[error("a catalog leads to what is no file")]
    Elsewhere,
    /// An entry of a catalog says that another catalog alone is to know the URI.
    #[error("a catalog leaves the URI to another catalog")]
    Delegated,
    /// A `..` of the reference leads above the root of the path.
    #[error("`..` leads above the topmost folder")]
    Above,
    /// A request for memory was refused.
    #[error("out of memory")]
    Memory,
}

/// The fault of a refused request for memory.
pub fn no_memory(_: AllocError) -> ReferenceFault
    ensures { result ≡ ReferenceFault.Memory }
{
    ReferenceFault::Memory
}

/// The folder of the base's path: all segments but the last. Of a base with an authority and an empty path it is the
/// root.
fn folder_of<'p>(alloc: Global, base: &SplitUri<'p>) -> Result<Vec<&'p str>, AllocError>
    ensures { IfOk result (λ v. map (λ s. s.now) v.items ≡ uris.folder_of (parts_view base.now)) }
{
    if base.authority.is_some() && base.path.is_empty() {
        return Ok(vec![in alloc; ""]?);
    }
    let mut folder = segments(alloc, base.path)?;
    folder.pop();
    Ok(folder)
}

/// The base's path up to its last slash, and then the reference's path (RFC 3986, section 5.2.3).
fn merge_paths<'p>(
    alloc: Global,
    base: &SplitUri<'p>,
    path: &'p str,
) -> Result<Vec<&'p str>, AllocError>
    ensures { IfOk result (λ v. map (λ s. s.now) v.items
        ≡ uris.merged_paths (parts_view base.now) path.now) }
{
    let mut merged = folder_of(alloc, base)?;
    let behind = segments(alloc, path)?;
    merged.extend_from_slice(behind.as_slice())?;
    Ok(merged)
}

/// Whether the reference has a scheme or an authority of its own.
fn has_own(reference: &SplitUri<'_>) -> bool
    ensures { result ≡ uris.has_own (parts_view reference.now) }
{
    reference.scheme.is_some() || reference.authority.is_some()
}

/// The segments of the target's path, with its dot segments.
fn dotted_path<'p>(
    alloc: Global,
    base: &SplitUri<'p>,
    reference: &SplitUri<'p>,
) -> Result<Vec<&'p str>, AllocError>
    ensures { IfOk result (λ v. map (λ s. s.now) v.items
        ≡ uris.dotted_segments (parts_view base.now) (parts_view reference.now)) }
{
    if has_own(reference) || reference.path.starts_with('/') {
        segments(alloc, reference.path)
    } else {
        merge_paths(alloc, base, reference.path)
    }
}

/// The path of the target, without dot segments.
fn target_path(alloc: Global, dotted: &[&str]) -> Result<String, AllocError>
    ensures { IfOk result (λ path. string_bytes path
        ≡ path_of (without_dots (map (λ s. s.now) dotted.now))) }
{
    let left = without_dots(alloc, dotted)?;
    joined_path(alloc, left.as_slice())
}

/// The parts of the target, but for its path.
fn target_parts<'p>(base: &SplitUri<'p>, reference: &SplitUri<'p>, path: &'p str) -> SplitUri<'p>
    ensures { path.now ≡ (uris.target (parts_view base.now) (parts_view reference.now)).path
        → parts_view result ≡ uris.target (parts_view base.now) (parts_view reference.now) }
{
    SplitUri {
        scheme: reference.scheme.or(base.scheme),
        authority: if has_own(reference) {
            reference.authority
        } else {
            base.authority
        },
        path,
    }
}

/// The target of a reference that is not empty (RFC 3986, section 5.2.2).
fn target(
    alloc: Global,
    base: &SplitUri<'_>,
    reference: &SplitUri<'_>,
) -> Result<String, AllocError>
    ensures { IfOk result (λ uri. string_bytes uri
        ≡ uris.recomposed_uri (uris.target (parts_view base.now) (parts_view reference.now))) }
{
    let dotted = dotted_path(alloc, base, reference)?;
    let path = target_path(alloc, dotted.as_slice())?;
    recompose(alloc, &target_parts(base, reference, path.as_str()))
}

/// Whether a reference has a byte.
fn has_byte(bytes: &[u8], wanted: u8) -> bool
    ensures { result ≡ list_any (λ b. b == wanted) bytes.now }
{
    bytes.iter().any(|byte| *byte == wanted)
}

/// What is wrong with a reference.
fn fault_of(reference: &str) -> Option<ReferenceFault>
    ensures { result ≡ fault_of reference.now }
{
    let bytes = reference.as_bytes();
    if bytes.is_empty() {
        Some(ReferenceFault::Empty)
    } else if has_byte(bytes, b'#') {
        Some(ReferenceFault::Fragment)
    } else if has_byte(bytes, b'?') {
        Some(ReferenceFault::Query)
    } else if !has_escapes(bytes) {
        Some(ReferenceFault::Escape)
    } else {
        None
    }
}

/// The target URI of a reference without fault.
fn resolved_uri(alloc: Global, base: &str, reference: &str) -> Result<String, AllocError>
    ensures { IfOk result (λ uri. string_bytes uri ≡ resolved_uri base.now reference.now) }
{
    let text = escape(alloc, reference)?;
    target(alloc, &split(base), &split(text.as_str()))
}

/// Whether a `..` of a reference without fault leads above the root of its path.
fn leads_above(alloc: Global, base: &str, reference: &str) -> Result<bool, AllocError>
    ensures { IfOk result (λ above. MatchBool above
        (LeadAbove (target_segments base.now reference.now))
        (¬ (LeadAbove (target_segments base.now reference.now)))) }
{
    let text = escape(alloc, reference)?;
    let dotted = dotted_path(alloc, &split(base), &split(text.as_str()))?;
    lead_above(alloc, dotted.as_slice())
}

/// The target URI of a reference in a file that has the URI `base`. What no URI holds is escaped first (XLink,
/// section 5.4), as RELAX NG says (RELAX NG 2001, 4.5).
///
/// Refused are a reference that is empty, one with a fragment, one with a query, and one with a `%` that begins no
/// escape, the first of these. Else the only error is `Memory`.
pub fn resolve(alloc: Global, base: &str, reference: &str) -> Result<String, ReferenceFault>
    ensures fault { IfSome (fault_of reference.now) (λ fault. result ≡ Err fault) }
    ensures uri { IfOk result (λ uri. string_bytes uri ≡ resolved_uri base.now reference.now) }
    ensures memory { IfNone (fault_of reference.now)
        (IfErr result (λ fault. fault ≡ ReferenceFault.Memory)) }
{
    match fault_of(reference) {
        Some(fault) => Err(fault),
        None => resolved_uri(alloc, base, reference).map_err(no_memory),
    }
}

/// The target URI of a reference in a file, as `resolve` says. `Above` where a `..` leads above the root of its
/// path.
pub fn resolve_below(alloc: Global, base: &str, reference: &str) -> Result<String, ReferenceFault>
    ensures fault { IfSome (fault_of reference.now) (λ fault. result ≡ Err fault) }
    ensures uri { IfOk result (λ uri. StandsFor base.now reference.now (string_bytes uri)) }
    ensures above { IfNone (fault_of reference.now) (IfErr result (λ fault.
        (fault ≡ ReferenceFault.Memory)
        ⊎ ((fault ≡ ReferenceFault.Above) × LeadAbove (target_segments base.now reference.now)))) }
{
    if let Some(fault) = fault_of(reference) {
        return Err(fault);
    }
    if leads_above(alloc, base, reference).map_err(no_memory)? {
        return Err(ReferenceFault::Above);
    }
    resolved_uri(alloc, base, reference).map_err(no_memory)
}
