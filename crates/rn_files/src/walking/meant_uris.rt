// Which URI is looked for where a file has a reference.
ghost use Rattle.std.specs.Prelude.{◌≡◌, true, IfOk, string_bytes};
ghost use Rattle.rn_files.specs.inside.FileUris.{file_uri};
ghost use Rattle.rn_files.specs.inside.UriReferences.{IsKnown, IsMeant, StandsFor};

use super::walk::{FoundBy, FoundFile};
use crate::mapping::locations::is_file_uri;
use crate::mapping::maps::{Map, found_map};
use crate::references::escapes::{escape, file_uri};
use crate::references::uri_references::resolve_below;
use crate::source_faults::LinkFault;
use std::alloc::Global;

/// The target URI of a reference in a file with the URI `base`.
fn target_uri(alloc: Global, base: &str, literal: &str) -> Result<String, LinkFault>
    ensures { IfOk result (λ uri. StandsFor base.now literal.now (string_bytes uri)) }
{
    Ok(resolve_below(alloc, base, literal)?)
}

/// The target URI of a reference where the base is the path of its file.
fn uri_beside(alloc: Global, path: &str, literal: &str) -> Result<String, LinkFault>
    ensures { IfOk result (λ uri. StandsFor (file_uri path.now) literal.now (string_bytes uri)) }
{
    let base = file_uri(alloc, path)?;
    target_uri(alloc, base.as_str(), literal)
}

/// Whether a map finds a URI.
fn is_known(maps: &[Vec<Map>], uri: &str) -> bool
    ensures { result ≡ true → IsKnown maps.now uri.now }
{
    match found_map(maps, uri) {
        Some(_) => true,
        None => false,
    }
}

/// Whether there are no maps, as mostly: then a reference is resolved and nothing else.
fn are_empty(maps: &[Vec<Map>]) -> bool {
    maps.iter().all(|group| group.is_empty())
}

/// The URI that is looked for where a file has a reference: its target. Where no map finds that, it is the
/// reference as it is written, if a map finds that. Where none does, and a map found the file at a URI that isn't a
/// `file` URI, its target beside the file (RFC 3986, section 5.1.3).
pub fn meant_uri(
    alloc: Global,
    maps: &[Vec<Map>],
    from: &FoundFile,
    literal: &str,
) -> Result<String, LinkFault>
    ensures { IfOk result (λ uri. IsMeant maps.now (string_bytes from.now.uri)
        (string_bytes from.now.path) literal.now (string_bytes uri)) }
{
    let uri = target_uri(alloc, from.uri.as_str(), literal)?;
    if are_empty(maps) || is_known(maps, uri.as_str()) {
        return Ok(uri);
    }
    let written = escape(alloc, literal)?;
    if is_known(maps, written.as_str()) {
        return Ok(written);
    }
    if from.by == FoundBy::Map && !is_file_uri(uri.as_str()) {
        return uri_beside(alloc, from.path.as_str(), literal);
    }
    Ok(uri)
}
