// Where URIs lie: below the folders of maps, or at the paths of `file` URIs.
ghost use Rattle.std.specs.Prelude.{◌≡◌, ◌++◌, false, IfOk, string_bytes};
ghost use Rattle.std.specs.Option.{option_copied};
ghost use Rattle.rn_files.specs.Paths.{has_dots};
ghost use Rattle.percent_encoding.specs.Percent.{percent_decode};
ghost use Rattle.rn_files.specs.Maps.{IsFilePath, IsLocation, IsPlaced, below, has_no_host, is_file_scheme, kept};

use super::maps::{Map, MapTarget, UriPart, found_map, is_whole};
use crate::references::paths::has_dots;
use crate::references::uri_references::{ReferenceFault, no_memory};
use crate::references::uris::split;
use percent_encoding::{DecodeError, percent_decode_str};
use std::alloc::{AllocError, Global};

/// Where a URI leads.
#[derive(Debug, Drop, PartialEq, Eq)]
pub struct Location {
    /// Where the file lies.
    pub path: String,
    /// Whether a map found it.
    pub is_mapped: bool,
}

/// Whether an escape is a byte that no file's name holds: 0 or `/`.
fn has_unnamed(text: &str) -> bool {
    text.contains("%00") || text.contains("%2F") || text.contains("%2f")
}

/// The text with each escape replaced by its byte.
fn decoded(alloc: Global, text: &str) -> Result<String, ReferenceFault>
    ensures { IfOk result (λ found. string_bytes found ≡ percent_decode text.now) }
{
    match percent_decode_str(text).decode_utf8(alloc) {
        Ok(found) => found.into_owned(alloc).map_err(|_| ReferenceFault::Memory),
        Err(DecodeError::OutOfMemory) => Err(ReferenceFault::Memory),
        Err(_) => Err(ReferenceFault::Encoding),
    }
}

/// The path with each escape replaced by its byte. No segment of it is `.` or `..`: those of a URI are removed before,
/// and what is left of them leads above.
fn decode(alloc: Global, text: &str) -> Result<String, ReferenceFault>
    ensures decoded { IfOk result (λ found. string_bytes found ≡ percent_decode text.now) }
    ensures plain { IfOk result (λ found. has_dots (string_bytes found) ≡ false) }
{
    if has_unnamed(text) {
        return Err(ReferenceFault::Byte);
    }
    let found = decoded(alloc, text)?;
    if has_dots(found.as_str()) {
        return Err(ReferenceFault::Above);
    }
    Ok(found)
}

/// The stem and behind it the decoded rest of a URI. No segment of them is `.` or `..`.
fn decoded_tail(alloc: Global, stem: &str, rest: &str) -> Result<String, ReferenceFault>
    ensures tail { IfOk result (λ tail. string_bytes tail ≡ stem.now ++ percent_decode rest.now) }
    ensures plain { IfOk result (λ tail. has_dots (string_bytes tail) ≡ false) }
{
    if has_unnamed(rest) {
        return Err(ReferenceFault::Byte);
    }
    let behind = decoded(alloc, rest)?;
    let tail = joined(alloc, stem, behind.as_str()).map_err(no_memory)?;
    if has_dots(tail.as_str()) {
        return Err(ReferenceFault::Above);
    }
    Ok(tail)
}

/// Two texts, one behind the other.
fn joined(alloc: Global, front: &str, behind: &str) -> Result<String, AllocError>
    ensures { IfOk result (λ whole. string_bytes whole ≡ front.now ++ behind.now) }
{
    let mut whole = String::from_str(alloc, front)?;
    whole.push_str(behind)?;
    Ok(whole)
}

/// The folder, a slash where neither side has one, and the path below it.
fn put_below(alloc: Global, folder: &str, tail: &str) -> Result<String, AllocError>
    ensures { IfOk result (λ whole. string_bytes whole ≡ below folder.now tail.now) }
{
    let mut whole = String::from_str(alloc, folder)?;
    if !is_whole(folder, tail) {
        whole.push_str("/")?;
    }
    whole.push_str(tail)?;
    Ok(whole)
}

/// The folder, and below it the stem and the decoded rest of a URI.
fn path_below(alloc: Global, folder: &str, stem: &str, rest: &str) -> Result<String, ReferenceFault>
    ensures below { IfOk result (λ path.
        string_bytes path ≡ below folder.now (stem.now ++ percent_decode rest.now)) }
    ensures plain { IfOk result (λ _. has_dots (stem.now ++ percent_decode rest.now) ≡ false) }
{
    let tail = decoded_tail(alloc, stem, rest)?;
    put_below(alloc, folder, tail.as_str()).map_err(no_memory)
}

/// What a map keeps of a URI, of which this is left: what comes behind a front.
pub fn kept(part: UriPart, rest: &str) -> &str
    ensures { result.now ≡ kept part rest.now }
{
    match part {
        UriPart::Front => rest,
        UriPart::Whole | UriPart::End => "",
    }
}

/// The path to which a map leads that leaves this of a URI.
fn placed(alloc: Global, map: &Map, rest: &str) -> Result<String, ReferenceFault>
    ensures { IfOk result (λ path.
        IsPlaced map.now.target (kept map.now.part rest.now) (string_bytes path)) }
{
    let behind = kept(map.part, rest);
    match &map.target {
        MapTarget::Files(place) => {
            path_below(alloc, place.folder.as_str(), place.stem.as_str(), behind)
        }
        MapTarget::Elsewhere(_) => Err(ReferenceFault::Elsewhere),
        MapTarget::Delegated(_) => Err(ReferenceFault::Delegated),
    }
}

/// Whether a scheme is `file`.
fn is_file_scheme(scheme: Option<&str>) -> bool
    ensures { result ≡ is_file_scheme (option_copied scheme.entry) }
{
    match scheme {
        Some(scheme) => scheme.eq_ignore_ascii_case("file"),
        None => false,
    }
}

/// Whether an authority names no host.
fn has_no_host(authority: Option<&str>) -> bool
    ensures { result ≡ has_no_host (option_copied authority.entry) }
{
    match authority {
        Some(authority) => authority.is_empty(),
        None => true,
    }
}

/// Whether a URI is a `file` URI.
pub fn is_file_uri(uri: &str) -> bool {
    is_file_scheme(split(uri).scheme)
}

/// The path of a URI that no map knows.
fn file_path(alloc: Global, uri: &str) -> Result<String, ReferenceFault>
    ensures { IfOk result (λ path. IsFilePath uri.now (string_bytes path)) }
{
    let parts = split(uri);
    if !is_file_scheme(parts.scheme) {
        return Err(ReferenceFault::Scheme);
    }
    if !has_no_host(parts.authority) {
        return Err(ReferenceFault::Host);
    }
    if !parts.path.starts_with('/') {
        return Err(ReferenceFault::Relative);
    }
    decode(alloc, parts.path)
}

/// Where the URI lies: where the map leads that finds it, or, where none does, at the path of a `file` URI without a host
/// (RFC 8089). Escapes are decoded; where a segment then is `.` or `..`, the fault is `Above`.
pub fn locate(alloc: Global, maps: &[Vec<Map>], uri: &str) -> Result<Location, ReferenceFault>
    ensures { IfOk result (λ place.
        IsLocation maps.now uri.now (string_bytes place.path) place.is_mapped) }
{
    match found_map(maps, uri) {
        Some((map, rest)) => {
            let path = placed(alloc, map, rest)?;
            Ok(Location {
                path,
                is_mapped: true,
            })
        }
        None => {
            let path = file_path(alloc, uri)?;
            Ok(Location {
                path,
                is_mapped: false,
            })
        }
    }
}

/// Where the map leads that finds a URI, if that is not to a file: to another URI, or to the other catalog that is to
/// know.
pub fn led_elsewhere(
    alloc: Global,
    maps: &[Vec<Map>],
    uri: &str,
) -> Result<Option<String>, AllocError> {
    let Some((map, rest)) = found_map(maps, uri) else {
        return Ok(None);
    };
    match &map.target {
        MapTarget::Files(_) => Ok(None),
        MapTarget::Elsewhere(front) => {
            Ok(Some(joined(alloc, front.as_str(), kept(map.part, rest))?))
        }
        MapTarget::Delegated(catalog) => Ok(Some(String::from_str(alloc, catalog.as_str())?)),
    }
}
